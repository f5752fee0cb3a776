//! Chooses tables to keep for the facts of a file, or of standard input, and prints what they save.
#![tactic(auto)]

use anyhow::{bail, ensure};
use formats::bytes::{count_sides, read_row, read_sides};
use formats::text::write_numbers;
use greedy::Turn;
use selection::Fault;
use selection::entry::choose;
use std::io::Read;
use std::{env, fs};

// The file that is named, or standard input. Each program has this at its own edge: shared, it would be public and promise nothing.
fn input(rt: &HostRuntime) -> anyhow::Result<Vec<u8>> {
    if let Some(path) = env::args(rt)?.nth(1) {
        return Ok(fs::read(rt, path.as_str())?);
    }
    let mut bytes = Vec::new(rt.alloc());
    rt.stdin().read_to_end(&mut bytes)?;
    Ok(bytes)
}

// One turn as a line: as many levels as there are dimensions, and what all taken so far save.
fn print_turn(rt: &HostRuntime, width: usize, turn: Turn) -> anyhow::Result<()> {
    let Turn { levels, saves } = turn;
    let mut line = String::new(rt.alloc());
    write_numbers(&mut line, &levels.at[..width.min(4)])?;
    println!(rt; "{line} saves {saves}")?;
    Ok(())
}

// Behind the dimensions stand how many tables to choose, and the facts.
fn run(rt: &HostRuntime) -> anyhow::Result<()> {
    let bytes = input(rt)?;
    let sides = read_sides(rt.alloc(), bytes.as_slice())?;
    let width = sides.first().copied().unwrap_or(0) as usize;
    let rest = read_row(rt.alloc(), &bytes[4 * count_sides(bytes.as_slice())..])?;
    let n = rest.first().copied().unwrap_or(0);
    let facts = rest.get(1..).unwrap_or(&[]);
    match choose(rt.alloc(), sides.as_slice(), n, facts) {
        Ok(turns) => {
            for turn in turns.iter() {
                print_turn(rt, width, *turn)?;
            }
        }
        Err(Fault::Refused(refusal)) => println!(rt; "{refusal}")?,
        Err(Fault::NoMemory) => bail!("out of memory"),
    }
    ensure!(bytes.len() % 4 == 0, "the file ends within a number");
    Ok(())
}

fn main(rt: HostRuntime) -> anyhow::Result<()> {
    run(&rt)
}

//! Does the deeds of a file, or of standard input, in order from an empty warehouse, and prints what is told of them.
#![tactic(auto)]

ghost use Rattle.std.specs.Prelude.{◌≡◌, IfOk, string_bytes};
ghost use Rattle.journal.specs.Answers.{AnswersRight};
ghost use Rattle.journal.specs.Days.{day_text, day_whole};
ghost use Rattle.replay.specs.Program.{program_limits, program_row};

use anyhow::ensure;
use formats::NoMemory;
use journal::Day;
use std::io::{Read, Write};
use std::{env, fs};
use tables::Room;

// Before the file's name, this word asks for the standard room.
const STANDARD: &str = "--standard";

// The file that is named, or standard input. Each program has this at its own edge: shared, it would be public and promise nothing.
fn input(rt: &HostRuntime, path: Option<String>) -> anyhow::Result<Vec<u8>> {
    if let Some(path) = path {
        return Ok(fs::read(rt, path.as_str())?);
    }
    let mut bytes = Vec::new(rt.alloc());
    rt.stdin().read_to_end(&mut bytes)?;
    Ok(bytes)
}

// The day of a file, in the small room or in the standard one: a yes or no of the command line, with no value beside it.
fn day_of(rt: &HostRuntime, standard: bool, bytes: &[u8]) -> Result<Day, NoMemory>
    ensures text { IfOk result (λ d. (string_bytes d.text ≡ day_text (program_limits standard) (program_row standard) bytes.now) × (d.whole ≡ day_whole bytes.now)) }
    ensures answers { IfOk result (λ d. AnswersRight (program_limits standard) (program_row standard) bytes.now (string_bytes d.text)) }
{
    if standard {
        journal::replay_in(rt.alloc(), Room::standard(), bytes)
    } else {
        journal::replay(rt.alloc(), bytes)
    }
}

// Prints the day of a file.
fn tell(rt: &HostRuntime, standard: bool, bytes: &[u8]) -> anyhow::Result<()> {
    let day = day_of(rt, standard, bytes)?;
    rt.stdout().write_all(day.text.as_bytes())?;
    ensure!(
        day.whole,
        "the file goes on with a byte that is no deed, or ends within a deed"
    );
    Ok(())
}

fn run(rt: &HostRuntime) -> anyhow::Result<()> {
    let mut words = env::args(rt)?;
    let mut path = words.nth(1);
    let standard = path.as_deref() == Some(STANDARD);
    if standard {
        path = words.next();
    }
    let bytes = input(rt, path)?;
    tell(rt, standard, bytes.as_slice())
}

fn main(rt: HostRuntime) -> anyhow::Result<()> {
    run(&rt)
}

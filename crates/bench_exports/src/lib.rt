//! What the benchmark calls: tables of two dimensions, by the calling convention of C, which no `Result` crosses: so a number says
//! whether it was done. The caller sees to it that a row holds a table.
#![tactic(auto)]

ghost use Rattle.std.specs.Prelude.{◌≡◌, ◌+◌, ◌^◌, ◌<◌, [], ◌∷◌, length, ◌||◌, is_some, if◌then◌else◌};
ghost use Rattle.totals.specs.Counts.{at};
ghost use Rattle.totals.specs.Tables.{put, one, take_out};
ghost use Rattle.summary.specs.Memory.{table_in, Sound, held, has_room, holding};
ghost use Rattle.rollup.specs.Entry.{roll_refusal, roll_out};

use rollup::roll;
use summary::{Group, Shape};

// A fact comes to a table: 1, or 0 if there is no room.
#[unsafe(no_mangle)]
pub extern "C" fn bench_put(row: &mut [u64], x: u64, y: u64, amount: u64) -> u64
    requires sound { Sound 2 row.old }
    requires count { (at (x ∷ (y ∷ [])) (table_in 2 row.old)).count + 1 < 2 ^ 64 }
    requires sum { (at (x ∷ (y ∷ [])) (table_in 2 row.old)).sum + amount < 2 ^ 64 }
    ensures told { result ≡ (if held (x ∷ (y ∷ [])) (table_in 2 row.old) || has_room 2 row.old then 1 else 0) }
    ensures after { row.new ≡ (if held (x ∷ (y ∷ [])) (table_in 2 row.old) || has_room 2 row.old then holding 2 (put (x ∷ (y ∷ [])) (one amount) (table_in 2 row.old)) row.old else row.old) }
    ensures sound { Sound 2 row.new }
{
    let Some(shape) = Shape::new(2) else {
        return 0;
    };
    u64::from(shape.put(row, Group::one([x, y, 0, 0], amount)))
}

// A fact goes from a table: 1, or 0 if there is no group.
#[unsafe(no_mangle)]
pub extern "C" fn bench_take(row: &mut [u64], x: u64, y: u64, amount: u64) -> u64
    requires { Sound 2 row.old }
    ensures told { result ≡ (if held (x ∷ (y ∷ [])) (table_in 2 row.old) then 1 else 0) }
    ensures after { row.new ≡ (if held (x ∷ (y ∷ [])) (table_in 2 row.old) then holding 2 (take_out (x ∷ (y ∷ [])) amount (table_in 2 row.old)) row.old else row.old) }
    ensures sound { Sound 2 row.new }
{
    let Some(shape) = Shape::new(2) else {
        return 0;
    };
    u64::from(shape.take(row, [x, y, 0, 0], amount))
}

// A table is rolled up: 1, or 0 if that is refused.
#[unsafe(no_mangle)]
pub extern "C" fn bench_roll(sides: &[u64], from: &[u64], to: &[u64], out: &mut [u64]) -> u64
    ensures told { result ≡ (if is_some (roll_refusal sides.now from.now to.now (length out.old)) then 0 else 1) }
    ensures after { out.new ≡ roll_out sides.now from.now to.now out.old }
{
    u64::from(roll(sides, from, to, out).is_ok())
}

//! Tables in rows that came from elsewhere: one checked, and one rolled up into another row.
#![tactic(auto)]

ghost use Rattle.std.specs.Prelude.{◌≡◌, ◌<◌, ◌≤◌, length, Some, None, Ok, Err};
ghost use Rattle.hierarchy.specs.Dimensions.{four};
ghost use Rattle.hierarchy.specs.Views.{dims_of};
ghost use Rattle.replies.specs.Replies.{of_question};
ghost use Rattle.summary.specs.Memory.{count_in, levels_in, table_in, Sound, AllGood};
ghost use Rattle.rollup.specs.Entry.{table_refusal, out_of_reach, reach_refusal, roll_reply, roll_out, ShownRight};

use hierarchy::{Dimensions, Levels};
use replies::Refusal;
use summary::Shape;

// No lent table has more groups.
pub const GROUPS: usize = 4096;

// Whether a row holds a table, of at most so many groups as the room says: how many it has, or what is wrong first.
pub fn check(dims: &Dimensions, room: usize, row: &[u64]) -> Result<usize, Refusal>
    ensures { elim result [ Ok n ↦ (table_refusal (dims_of dims.now) room row.now ≡ None) × (n ≡ count_in (length (dims_of dims.now)) row.now) × (n ≤ room) × Sound (length (dims_of dims.now)) row.now × AllGood (table_in (length (dims_of dims.now)) row.now) | Err e ↦ table_refusal (dims_of dims.now) room row.now ≡ Some e ] }
{
    let shape = Shape::of(dims);
    let width = shape.width();
    if row.len() <= width {
        return Err(Refusal::BadTable(width));
    }
    if let Some(dimension) = dims.first_missing(row) {
        return Err(Refusal::BadTableLevel(dimension));
    }
    let groups = row[width] as usize;
    if groups > room || !shape.fits(row.len(), groups) {
        return Err(Refusal::BadTable(width));
    }
    if let Some(group) = shape.first_bad_group(row) {
        return Err(Refusal::BadGroup(group));
    }
    Ok(groups)
}

// Whether the level in a dimension is missing, not there, or finer than that of the table given.
fn is_out_of_reach(dims: &Dimensions, from: &[u64], to: &[u64], i: usize) -> bool
    requires { i < length from.now }
    ensures { result ≡ out_of_reach (dims_of dims.now) from.now to.now i }
{
    i >= to.len() || to[i] >= dims.levels_in(i) as u64 || to[i] < from[i]
}

// The levels at which the table of a row can be shown.
fn levels_above(dims: &Dimensions, from: &[u64], to: &[u64]) -> Result<Levels, Refusal>
    requires { length (dims_of dims.now) ≤ length from.now }
    ensures { elim result [ Ok l ↦ (reach_refusal (dims_of dims.now) from.now to.now ≡ None) × (l.at ≡ four (levels_in (length (dims_of dims.now)) to.now)) | Err e ↦ reach_refusal (dims_of dims.now) from.now to.now ≡ Some e ] }
{
    let bad = (0..dims.width()).find(|&i| is_out_of_reach(dims, from, to, i));
    if let Some(dimension) = bad {
        return Err(Refusal::NoLevel(dimension));
    }
    Ok(Levels::front(to, dims.width()))
}

// Rolls the table of a row up to levels into another row, and tells how many groups were looked at. What lies behind the groups stays,
// and a refusal leaves all as it was: all tests come before the first write.
pub fn roll(sides: &[u64], from: &[u64], to: &[u64], out: &mut [u64]) -> Result<usize, Refusal>
    ensures told { of_question result ≡ roll_reply sides.now from.now to.now (length out.old) }
    ensures after { out.new ≡ roll_out sides.now from.now to.now out.old }
{
    let dims = Dimensions::read(sides)?;
    let groups = check(&dims, GROUPS, from)?;
    let levels = levels_above(&dims, from, to)?;
    let shape = Shape::of(&dims);
    if !shape.fits(out.len(), groups) {
        return Err(Refusal::NoRoom(out.len()));
    }
    shape.roll(&dims, from, levels, out);
    Ok(groups)
}

// A lent table of facts that is rolled up and not refused is shown as the table of these facts.
pub fn shown_right()
    ensures { ShownRight }
{}

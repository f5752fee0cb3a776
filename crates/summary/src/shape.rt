ghost use Rattle.std.specs.Prelude.{◌≤◌};

mod check;
mod edits;
mod layout;
mod roll;
mod search;

// How a table lies in memory, for a number of dimensions: the width of a place.
// Rows are lent as slices of u64, the project's form. A struct around a `&mut` would have to keep such a fact at each write, and an
// insert breaks it between two: so contracts say of a row that it is whole or sound.
#[derive(Clone, Copy, Debug, PartialEq, Eq)]
pub struct Shape {
    width: usize,
    ghost least: { 1 ≤ width },
    ghost most: { width ≤ 4 },
}

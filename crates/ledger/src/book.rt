ghost use Rattle.std.specs.Prelude.{◌^◌, ◌≤◌};

mod bounds;
mod edits;
mod layout;
mod search;

// How a book of facts lies in memory: the number of dimensions, and how many facts it may hold. The book is a slice lent to each
// method, the project's form: so that it holds facts (`Holds`) stands in each contract.
#[derive(Clone, Copy, Debug, PartialEq, Eq)]
pub struct Book {
    width: usize,
    room: usize,
    ghost least: { 1 ≤ width },
    ghost most: { width ≤ 4 },
    ghost bounded: { room ≤ 2 ^ 32 },
}

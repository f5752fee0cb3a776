// How kept tables lie in memory.
ghost use Rattle.std.specs.Prelude.{◌≡◌, ◌^◌, ◌≤◌, length};
ghost use Rattle.hierarchy.specs.Views.{dims_of};

use hierarchy::Dimensions;
use summary::Shape;

mod deletes;
mod inserts;
mod moves;
mod places;
mod readings;
mod sources;

// The dimensions, how a table lies in memory, and how many groups it may have. The tables are lent to each method,
// the project's form, many to be written: so what it needs of them (how long, how many, `Ready`, `Sound`) stands in its contract.
#[derive(Clone, Copy, Debug, PartialEq, Eq)]
pub struct TableLayout {
    dims: Dimensions,
    shape: Shape,
    groups: usize,
    ghost shaped: { shape.width ≡ length (dims_of dims) },
    ghost bounded: { groups ≤ 2 ^ 32 },
}

// The dimensions of a cube, and the way up from levels to coarser ones.
ghost use Rattle.std.specs.Prelude.{◌≡◌, ◌≤◌, length};

use super::dimension::{Dimension, Rise};

pub mod methods;

// One to four dimensions; of the four the others are not used. A count beside an array of four: see `Dimension`.
#[derive(Clone, Copy, Debug, PartialEq, Eq)]
pub struct Dimensions {
    width: usize,
    each: [Dimension; 4],
    ghost some: { 1 ≤ width },
    ghost few: { width ≤ 4 },
    ghost four: { length each ≡ 4 },
}

// How places rise from levels to coarser ones: one rise a dimension, made once and used for every place. A count beside four: see
// `Dimension`.
#[derive(Clone, Copy, Debug, PartialEq, Eq)]
pub struct Ascent {
    width: usize,
    each: [Rise; 4],
    ghost few: { width ≤ 4 },
    ghost four: { length each ≡ 4 },
}

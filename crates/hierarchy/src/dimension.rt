// One dimension, and the way up in it from a level to a coarser one.
ghost use Rattle.std.specs.Prelude.{◌^◌, ◌<◌, ◌≤◌, take};
ghost use Rattle.hierarchy.specs.Dimensions.{product};

use std::num::NonZero;

pub mod methods;

// So many factors, the finest first; of the four numbers the others are not used. A count beside an array of four, here, in
// `Dimensions` and in `Ascent`, since the project wants that form and no heap.
#[derive(Clone, Copy, Debug, PartialEq, Eq)]
pub struct Dimension {
    count: usize,
    factors: [u64; 4],
    ghost few: { count ≤ 4 },
    ghost positive: { 0 < product (take count factors) },
    ghost small: { product (take count factors) < 2 ^ 32 },
}

// How a number rises from one level to a coarser one: it is divided, or everything comes together at 0.
#[derive(Clone, Copy, Debug, PartialEq, Eq)]
pub enum Rise {
    By(NonZero<u64>),
    Together,
}

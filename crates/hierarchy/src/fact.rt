// A fact: a place at the finest levels, and an amount.
pub mod methods;

// One number a dimension, the others of the four 0, and the amount.
#[derive(Clone, Copy, Debug, PartialEq, Eq)]
pub struct Fact {
    pub place: [u64; 4],
    pub amount: u64,
}

// A row of levels: one level a dimension.
pub mod methods;

// One level a dimension; the others of the four are 0.
#[derive(Clone, Copy, Debug, PartialEq, Eq)]
pub struct Levels {
    pub at: [u64; 4],
}

//! Tables of totals in lent memory.
#![tactic(auto)]

pub mod group;
pub mod shape;

pub use group::Group;
pub use shape::Shape;
pub use totals::theorems;

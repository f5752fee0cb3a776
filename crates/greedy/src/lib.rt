//! The greedy choice of tables where the sizes of all levels are known.
#![tactic(auto)]

pub mod by_sizes;
pub mod turn;

pub use by_sizes::choose_by_sizes;
pub use turn::Turn;

//! A warehouse of facts and kept tables of totals that owns its memory: the deeds, for all input.
#![tactic(auto)]

pub mod house;

pub use house::Warehouse;
pub use model::theorems;
pub use storage::Layout;

//! Which tables to keep: the greedy choice by what they save.
#![tactic(auto)]

pub mod entry;
pub mod fault;
pub mod rolling;

pub use benefit::theorems;
pub use fault::Fault;
pub use greedy::{Turn, by_sizes};

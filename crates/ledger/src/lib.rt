//! A book of facts in lent memory, in the order in which they came.
#![tactic(auto)]

pub mod book;
pub mod theorems;

pub use book::Book;

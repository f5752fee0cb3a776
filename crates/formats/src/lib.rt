//! How files and answers are written: numbers as bytes, and groups and replies as lines of text.
#![tactic(auto)]

pub mod bytes;
pub mod fault;
pub mod text;

pub use fault::NoMemory;

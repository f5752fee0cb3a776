//! A day: deeds read from bytes, and their answers as text.
#![tactic(auto)]

pub mod day;
pub mod deed;
pub mod theorems;

pub use day::{Day, replay, replay_in};
pub use deed::{Kind, NoDeed, Step};
pub use formats::{NoMemory, bytes, text};

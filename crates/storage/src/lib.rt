//! The deeds of a warehouse over lent memory that holds one.
#![tactic(auto)]

pub mod layout;

pub use layout::Layout;

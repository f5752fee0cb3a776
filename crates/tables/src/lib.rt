//! The kept tables of a warehouse in lent memory: how many there are, and then parts, each with the room of one whole table.
#![tactic(auto)]

pub mod layout;
pub mod room;

pub use layout::TableLayout;
pub use room::Room;

// So many tables may be kept.
pub const TABLES: usize = 16;

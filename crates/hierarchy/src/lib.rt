//! Dimensions, their levels, places at levels, and facts.
#![tactic(auto)]

pub mod dimension;
pub mod dimensions;
pub mod fact;
pub mod levels;
pub mod theorems;

pub use dimension::Dimension;
pub use dimensions::{Ascent, Dimensions};
pub use fact::Fact;
pub use levels::Levels;
pub use replies::{Refusal, Reply};

// One turn of the choice.
use hierarchy::Levels;

// The levels that were taken, and what all that were taken so far save together.
#[derive(Clone, Copy, Debug, PartialEq, Eq)]
pub struct Turn {
    pub levels: Levels,
    pub saves: u64,
}

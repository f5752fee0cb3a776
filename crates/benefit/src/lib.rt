//! What kept tables save, and the greedy choice, as the proofs see them. The code is in the crate above.
#![tactic(auto)]

pub mod theorems;

//! Tables of totals as the proofs see them: what they are, and what holds of them. The code is in the crates above.
#![tactic(auto)]

pub mod theorems;

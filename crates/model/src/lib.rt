//! A warehouse as the proofs see it: what each deed does, and what holds after every list of deeds. The code is in the crates above.
#![tactic(auto)]

pub mod theorems;

//! Laws of the order of steps: whatever order is taken, the net is the same.
#![tactic(auto)]

pub mod laws;

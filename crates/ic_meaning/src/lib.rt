//! The meaning of the machine: what it holds in pieces is a configuration, and its steps are those of the interaction
//! calculus.
#![tactic(auto)]

pub mod laws;

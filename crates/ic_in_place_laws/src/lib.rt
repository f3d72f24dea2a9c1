//! Laws of what a reduction in place answers and tells. No program calls them.
#![tactic(auto)]

pub mod going_on;
pub mod laws;
pub mod outcomes;
pub mod rows;

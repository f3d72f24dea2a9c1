//! Laws of what is reached: a net that is kept in pieces, its fresh names any that don't occur, has
//! the answer of every order of steps.
#![tactic(auto)]

pub mod laws;

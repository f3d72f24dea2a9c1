//! Laws of rounds whose pairs fire in any order, and whose names are put whenever one likes.
#![tactic(auto)]

pub mod laws;

//! Settling: the steps of the interaction calculus that remove a name between two terms.
//!
//! Here are the definitions of `specs/`, what is proved of them, and the laws of `laws`. Engines settle by them:
//! `ic_flat_round` the configurations of the program, `ic_reference` those of terms. `Side`, `Applicable` and `Outlet`
//! are the words in which both say what they have found, and `is_twice_in` is the test of names in the order of their
//! numbers.
#![tactic(auto)]

mod applicability;
pub mod laws;
mod twice;

pub use applicability::{Applicable, Outlet, Side};
pub use twice::is_twice_in;

//! Steps and rounds of the interaction calculus.
//!
//! A round fires every equation that is active at its start and then settles. Here are the definitions of `specs/`,
//! what is proved of them, and the laws of `laws`. Engines make rounds by them: `ic_flat_round` of the configurations
//! of the program, `ic_reference` of terms. A `Work` is an active equation that is taken out of a round, and `fire`
//! gives its products, which depend on nothing else.
#![tactic(auto)]

mod firing;
mod gather_fault;
pub mod laws;
mod round_fault;
mod work;

pub use firing::fire;
pub use gather_fault::GatherFault;
pub use round_fault::RoundFault;
pub use work::{Fired, Work};

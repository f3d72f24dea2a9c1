//! Rules and configurations made ready for the machine.
//!
//! A plan has the agents of a term one after another, each made of registers that are filled by then. `compile` makes
//! the plans of a rule set. `begin` begins a machine with a configuration, and `begin_with_pairs` one whose pairs are
//! linked first: they make each agent as its word is read, and no list of agents. Nothing here recurses on the depth of
//! terms: they are read as words in prefix order, from the last word to the first.
#![tactic(auto)]

mod compiling;
mod first;
mod flattening;
mod generation;
pub mod laws;
mod laying;
mod rule;

pub use compiling::compile;
pub use first::{First, begin};
pub use generation::begin_with_pairs;

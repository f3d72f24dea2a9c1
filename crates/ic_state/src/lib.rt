//! The byte form of a reduction that is kept: a text with its rules, and how far it has come.
//!
//! `encode` gives the bytes of a state, and `decode` the state of which bytes are the form. `are_narrow` tells whether four bytes
//! are enough for each word. Whether its words write a configuration over the symbols of its text is judged by the crates
//! above. `specs/` has the form as definitions.
#![tactic(auto)]

mod fault;
mod fields;
mod form;
mod front;
pub mod laws;
mod rounds;
mod state;
mod words;

pub use fault::StateFault;
pub use form::{FORMAT, NARROW_FORMAT, decode, encode};
pub use front::head_of;
pub use rounds::BY_ROUNDS;
pub use state::{State, StateHead};
pub use words::are_narrow;

//! The net that a machine holds, read back into terms, in time by the size of its tables.
//!
//! Each piece is taken out of its place as it is read, and put where its name occurs, so none is read twice. What is left
//! then are circles, with terms that hang at them. Each is an equation of a name with a term that has it.
#![tactic(auto)]

pub mod laws;
mod loose;
mod read;
mod reader;
mod token;
mod writer;

pub use read::read_back;
pub use token::{ReadBack, Token};

//! The tables in which a net is held in pieces: what waits for each name, and the arguments of each agent.
//!
//! `Names` and `Heap` say what they hold as lists of pieces. Each of their calls takes constant time, or time by the
//! arity of one symbol, and places that are given back are used again.
#![tactic(auto)]

mod heap;
mod names;
mod spare;
mod word;

pub use heap::Heap;
pub use names::Names;
pub use word::{FREE, GIVEN, IDLE, NAME, Word};

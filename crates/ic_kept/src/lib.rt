//! One state, of any length, that is kept in two files.
//!
//! Each file is a disk with one slot: a gate of one byte, a number, a length and the bytes of a state. `create` writes the
//! first state into empty files. `Keeper::open` finds the newest, and `Keeper::keep` writes the next one into the other
//! file. So the newest isn't touched until another one is whole. What a state means is up to the crates above.
#![tactic(auto)]

mod creation;
mod fault;
mod finding;
mod front;
mod head;
mod keeper;
pub mod laws;
mod writing;

pub use creation::create;
pub use fault::CreateFault;
pub use front::{Front, front_of};
pub use head::HEAD;
pub use keeper::{Keeper, OpenFault};

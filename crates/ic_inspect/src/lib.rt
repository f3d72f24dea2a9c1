//! What a disk's file holds, told in lines of words or as objects of JSON, with nothing changed and no lock taken.
//!
//! `read_slots` reads the two slots of a file once. `look` is handed what it gave, reads the heads of the slots again, and
//! answers what it saw if they are the same: `table` and `newest` of that say what the file holds. `tell` writes it: each slot,
//! and the jobs of the table that is held. `laws` says that this table stood in the file meanwhile.
#![tactic(auto)]

mod choosing;
mod fault;
mod halts;
mod inspecting;
pub mod laws;
mod looking;
mod objects;
mod pairs;
mod reading;
mod seen;
mod telling;

pub use choosing::Newest;
pub use fault::InspectFault;
pub use halts::{Halt, halt_of, halt_words};
pub use inspecting::{Layout, look, tell};
pub use reading::{Slots, read_slots};
pub use seen::{Body, Looked, Seen};

//! Two frames of bytes in the two slots of a disk: one body is kept, and a stop at any moment of
//! putting another in its place leaves one of the two.
//!
//! `create` writes the first body. `Frames::open` finds the newest, and `Frames::keep` writes the
//! next one into the slot beside it, in three phases that may be called by themselves. A body is
//! any list of bytes up to `MAX_BODY`; what it means is up to the crates above. `laws` holds what
//! is proved of the definitions alone.
#![tactic(auto)]

mod creation;
mod faults;
mod found;
mod frame;
mod frames;
pub mod laws;
mod opened;
mod opening;
mod slot;
mod writes;

pub use creation::create;
pub use faults::{KeepFault, OpenCause, OpenFault};
pub use frame::{HEAD, MAX_BODY};
pub use frames::Frames;
pub use opened::Opened;
pub use slot::{SECOND_AT, Slot};

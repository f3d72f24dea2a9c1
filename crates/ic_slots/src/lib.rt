//! The job table in the two slots of a disk: one table is kept, and a stop at any moment of putting
//! another in its place leaves one of the two.
//!
//! `is_unused` tells whether a disk may be made anew without a loss: it holds no job, and nothing else
//! stands in its place. `create` keeps the empty table. `Keeper::open` finds the table that a disk
//! holds, and `Keeper::keep` puts the next one in its place, in three phases that may be called by
//! themselves.
//!
//! The slots are those of `ic_frames`, and the bodies in them byte forms of `ic_codec`: either form is
//! opened, and the new one is written. `laws` holds what is proved of the definitions alone.
#![tactic(auto)]

mod creation;
mod fault;
mod first;
mod keeper;
pub mod laws;
mod unused;

pub use creation::create;
pub use fault::CreateFault;
pub use ic_frames::{KeepFault, OpenCause, OpenFault};
pub use keeper::Keeper;
pub use unused::is_unused;

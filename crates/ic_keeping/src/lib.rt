//! A large reduction that is kept now and then, so that it survives a stop at any moment.
//!
//! `begun` reads a text as a state with no interactions, which keeps a text with its rules. `Run::live_anew` keeps it and
//! reduces it in pieces, each of which is kept. A reduction that was stopped goes on by `Run::live` from the state that was kept
//! last.
#![tactic(auto)]

mod anew;
mod beginning;
mod counts;
mod fault;
mod going;
pub mod laws;
mod life;
mod pace;
mod systems;
mod text;

pub use beginning::{ResumeFault, Start, begin, begun, resume};
pub use fault::KeepingFault;
pub use going::{Ended, Run};
pub use pace::Pace;

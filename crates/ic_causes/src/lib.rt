//! Why a call to a disk's file has failed, told in words.
//!
//! A `Cause` is the call and the reason that the system gave, and `cause_line` tells it of a path.
//! `NotedFiles` stands for the files of a runtime: a call to them that fails is noted in `Notes`, so
//! that whoever learns that a disk has failed can ask why. So are a read of a `NotedInput` and a write
//! of a `NotedOutput`. A call that was interrupted isn't, for it is made again, and of two that fail at the same moment one is.
#![tactic(auto)]

mod cause;
mod files;
mod input;
pub mod laws;
mod line;
mod notes;
mod output;

pub use cause::{Cause, FileCall, Reason, Target};
pub use files::{NotedFile, NotedFiles, NotedFrom};
pub use input::NotedInput;
pub use line::{cause_line, shown_path};
pub use notes::Notes;
pub use output::NotedOutput;

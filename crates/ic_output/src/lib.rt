//! Writing bytes to a writer. Where the writer fails, a front of them stands in the output.
#![tactic(auto)]

mod writing;

pub use writing::{write_flushed, write_whole};

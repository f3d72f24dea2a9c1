//! Lines in and answers out, over a job table.
//!
//! specs/ says what the lines of a text are, which events a line asks for and what it is answered,
//! as folds over lines; `laws` holds what is proved of these definitions alone. A `LineBuffer` takes
//! lines from a reader, one at a time. `read_script` reads the commands of a script.
#![tactic(auto)]

mod buffer;
pub mod laws;
mod script;

pub use buffer::{LineBuffer, LineFault};
pub use script::{MAX_SCRIPT, ScriptFault, read_script};

//! What the commands that answer a text do with their reader and writer, and how they are refused.
//!
//! `read_text` takes a text from a reader, and `read_text_within` one with other limits. `flat_line` prints a configuration as a line, and `write_line` writes it.
//! The refusals of these commands are a `StreamFault`.
#![tactic(auto)]

mod fault;
pub mod laws;
mod stream;

pub use fault::StreamFault;
pub use stream::{flat_line, read_text, read_text_within, write_line};

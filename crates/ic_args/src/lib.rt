//! The words after the program's name.
//!
//! The words of the program and their options stand in one table. `read_words` reads what is given, through the kit's
//! `clap`, by a table, and a row reads a value.
#![tactic(auto)]

mod formats;
mod help;
pub mod laws;
mod parser;
mod rows;
pub mod table;
mod tips;
mod values;
mod words;

pub use formats::{FiguresFormat, ReportFormat, TextLimits, TraceFormat};
pub use help::help_of;
pub use rows::{Argument, Choice, Entry, Flag, Number, Place, Text};
pub use values::Values;
pub use words::{Request, WordsFault, read_words, word_named};

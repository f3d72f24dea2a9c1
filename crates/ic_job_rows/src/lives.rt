//! The witness that the premises of the law over several lives are met.

use ic_commands::{Line, read_command};
use ic_lives::reached::a_run_is_reached;
use ic_notation::Trouble;
use std::alloc::Global;

/// How many jobs a book has that is reached, where this command was answered.
pub fn reached(alloc: Global, line: &str) -> Result<Vec<u8>, Trouble> {
    let Ok(Line::Command(command)) = read_command(alloc, line.as_bytes()) else {
        return Err(Trouble("no command"));
    };
    match a_run_is_reached(alloc, command) {
        Some(book) => Ok(format!(in alloc; "{} jobs", book.table().jobs().len())?.into_bytes()),
        None => Err(Trouble("nothing is reached")),
    }
}

//! Scripts of rows, with ` | ` between them and ` ; ` between the commands of one.

use ic_commands::{Line, read_command};
use ic_jobs::Command;
use ic_notation::Trouble;
use std::alloc::Global;

/// The commands of each script.
pub fn scripts_of(alloc: Global, text: &str) -> Result<Vec<Vec<Command>>, Trouble> {
    let mut scripts = Vec::new(alloc);
    for script in text.split(" | ") {
        scripts.push(commands_of(alloc, script)?)?;
    }
    Ok(scripts)
}

fn commands_of(alloc: Global, script: &str) -> Result<Vec<Command>, Trouble> {
    let mut commands = Vec::new(alloc);
    for line in script.split(" ; ") {
        commands.push(command_of(alloc, line)?)?;
    }
    Ok(commands)
}

/// The command of a line.
pub fn command_of(alloc: Global, line: &str) -> Result<Command, Trouble> {
    match read_command(alloc, line.as_bytes()) {
        Ok(Line::Command(command)) => Ok(command),
        _ => Err(Trouble("no command")),
    }
}

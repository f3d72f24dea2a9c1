//! Reading a line of a script: a command, or nothing.

ghost use Rattle.std.specs.Prelude.{◌≡◌, ◌≢◌, IfOk, IfErr, Ok, Err};
ghost use Rattle.ic_commands.specs.LineSource.{LinePhrase};
ghost use Rattle.ic_commands.specs.LineText.{SpellsLine, IsSubmitText};
ghost use Rattle.ic_commands.specs.ScriptSense.{without_run, ReadsScriptLine};
ghost use Rattle.ic_commands.specs.inner.ScriptLine.{is_run};

use crate::command::read_command;
use crate::line::Line;
use crate::word::split_word;
use ic_jobs::Command;
use ic_text::{MAX_TEXT, TextFault};
use std::alloc::Global;

/// Whether the first word of a line is `run`.
fn begins_with_run(text: &[u8]) -> bool
    ensures { (p : LinePhrase) → SpellsLine text.now p → is_run p ≡ result }
{
    let (word, _rest) = split_word(text);
    word == b"run".as_slice()
}

/// The command of a line, or nothing of a blank one. A run is no phrase of a script.
fn command_of(line: Line) -> Result<Option<Command>, TextFault>
    ensures { result ≡ without_run (Ok line) }
{
    match line {
        Line::Blank => Ok(None),
        Line::Command(command) => Ok(Some(command)),
        Line::Run(_) => Err(TextFault::Syntax),
    }
}

/// What a line of a script asks, or the first refusal over the whole line: a command as `read_command` reads it, or
/// nothing where the line is blank. A `run`, whatever follows it, is `Syntax`.
pub fn read_script_line(alloc: Global, text: &[u8]) -> Result<Option<Command>, TextFault>
    ensures read { IfOk result (λ command. ReadsScriptLine text.now (Ok command)) }
    ensures refused { IfErr result
        (λ fault. fault ≢ TextFault.Memory → ReadsScriptLine text.now (Err fault)) }
    ensures memory { result ≡ Err TextFault.Memory → IsSubmitText text.now }
{
    if text.len() <= MAX_TEXT && begins_with_run(text) {
        return Err(TextFault::Syntax);
    }
    command_of(read_command(alloc, text)?)
}

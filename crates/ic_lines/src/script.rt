//! Scripts: the commands of lines.

ghost use Rattle.std.specs.Prelude.{◌≡◌, ◌≢◌, IfErr, IfOk, OnOk, Err, Ok, length};
ghost use Rattle.ic_text.specs.declared.fault.TextFault.TheVariants.{Memory};
ghost use Rattle.ic_lines.specs.Script.{IsWanting, ReadsScript, WantsMemory};
ghost use Rattle.ic_lines.specs.inner.Adding.{AddsLine, RefusesLine};

use ic_commands::read_script_line;
use ic_jobs::Command;
use ic_text::TextFault;
use std::alloc::Global;

/// Commands of a script.
pub const MAX_SCRIPT: usize = 65_536;

/// Why a script is refused: its first line with a fault, and the fault.
#[derive(Clone, Copy, PartialEq, Eq)]
pub struct ScriptFault {
    /// The number of the line, from 1, blank lines counted: a `usize`, since a script has no more lines than bytes.
    pub line: usize,
    /// `Limit` also where its command is the 65,537th. `Memory` where a growth was refused while the line was read.
    pub fault: TextFault,
}

/// Reads a line, and adds its command to those of the lines before.
fn add_line(alloc: Global, line: &[u8], commands: &mut Vec<Command>) -> Result<(), TextFault>
    ensures added { OnOk result (AddsLine line.now commands.old.items commands.new.items) }
    ensures refused { IfErr result
        (λ fault. fault ≢ Memory → RefusesLine line.now commands.old.items fault) }
    ensures memory { IfErr result
        (λ fault. fault ≡ Memory → WantsMemory (length commands.old.items) line.now) }
{
    let Some(command) = read_script_line(alloc, line)? else {
        return Ok(());
    };
    if commands.len() >= MAX_SCRIPT {
        return Err(TextFault::Limit);
    }
    commands.push(command)?;
    Ok(())
}

/// Takes the line of this number.
fn take_line(
    alloc: Global,
    number: usize,
    line: &[u8],
    commands: &mut Vec<Command>,
) -> Result<(), ScriptFault>
    ensures added { OnOk result (AddsLine line.now commands.old.items commands.new.items) }
    ensures number { IfErr result (λ refusal. refusal.line ≡ number) }
    ensures refused { IfErr result (λ refusal. refusal.fault ≢ Memory
        → RefusesLine line.now commands.old.items refusal.fault) }
    ensures memory { IfErr result (λ refusal. refusal.fault ≡ Memory
        → WantsMemory (length commands.old.items) line.now) }
{
    add_line(alloc, line, commands).map_err(|fault| ScriptFault {
        line: number,
        fault,
    })
}

/// The commands of a script's lines in order, or the first fault of a line. A line ends with a line feed, and the last
/// may go without; a blank one gives no command; a `run` is `Syntax`; a command after 65,536 others is `Limit`. Each
/// byte is looked at once for line feeds, and each line is read as `read_script_line` reads it.
pub fn read_script(alloc: Global, text: &[u8]) -> Result<Vec<Command>, ScriptFault>
    ensures read { IfOk result (λ commands. ReadsScript text.now (Ok commands.items)) }
    ensures refused { IfErr result
        (λ refusal. refusal.fault ≢ Memory → ReadsScript text.now (Err refusal)) }
    ensures memory { IfErr result
        (λ refusal. refusal.fault ≡ Memory → IsWanting text.now refusal.line) }
{
    ic_commands::laws::one_script_line_reading();
    let mut commands = Vec::new(alloc);
    let mut number = 1;
    let mut start = 0;
    for (place, byte) in text.iter().enumerate() {
        if *byte == b'\n' {
            take_line(alloc, number, &text[start..place], &mut commands)?;
            number += 1;
            start = place + 1;
        }
    }
    if start < text.len() {
        take_line(alloc, number, &text[start..], &mut commands)?;
    }
    Ok(commands)
}

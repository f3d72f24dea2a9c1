//! Looking over lines, each by itself.

ghost use Rattle.std.specs.Prelude.{◌≡◌, ◌<◌, ◌∷◌, ◌++◌, ◌⊎◌, ℕ, List, IfOk, IfErr, OnErr, OnOk, length};
ghost use Rattle.ic_lines.specs.Lines.{lines};
ghost use Rattle.ic_check.specs.Faults.{HasFaulty, LineHasFault, LineHasFaultIn, ScriptLineHasFault};
ghost use Rattle.ic_check.specs.Files.{Grows};

use crate::findings::{Finding, Findings, Layout, put_finding};
use crate::places::{blanks_before, line_place};
use crate::remarks::{RUN, known, line_sentence, placed};
use crate::warnings::told_warnings;
use crate::writing::{Style, write_findings};
use ic_commands::{Line, read_command, read_script_line};
use ic_diagnostics::first_word;
use ic_jobs::Command;
use ic_streams::StreamFault;
use ic_text::{MAX_TEXT, TextFault};
use std::alloc::{AllocError, Global};
use std::io::Write;

/// The first line of a text, and what follows its line feed.
pub(crate) fn split_line(text: &[u8]) -> (&[u8], &[u8])
    requires { 0 < length text.now }
    ensures lines { lines text.now ≡ result.0.now ∷ lines result.1.now }
    ensures shorter { length result.1.now < length text.now }
{
    ic_lines::laws::lines_are_parted_by_line_feeds();
    for (place, byte) in text.iter().enumerate() {
        if *byte == b'\n' {
            return (&text[..place], &text[place + 1..]);
        }
    }
    (text, &text[text.len()..])
}

/// The warnings of what a line of this number asks for.
fn asked_warnings(
    alloc: Global,
    number: u64,
    asked: &Option<Command>,
) -> Result<Vec<Finding>, AllocError> {
    match asked {
        Some(Command::Submit(_, system, _)) => {
            let config = system.config().to_config(alloc)?;
            told_warnings(alloc, Some(number), system.rules(), &config)
        }
        _ => Ok(Vec::new(alloc)),
    }
}

/// The fault of a line of this number that is refused so.
fn line_fault(
    alloc: Global,
    number: u64,
    line: &[u8],
    fault: TextFault,
) -> Result<Finding, AllocError> {
    let place = line_place(alloc, line, fault)?;
    let words = line_sentence(alloc, line, fault, place)?;
    Ok(placed(line, Some(number), place.at, fault, words))
}

/// What is found in a line for a server, of this number.
fn look_at_line(alloc: Global, number: u64, line: &[u8]) -> Result<Findings, AllocError>
    ensures { IfOk result (λ findings. LineHasFault line.now findings.is_faulty) }
{
    match read_command(alloc, line) {
        Ok(Line::Command(command)) => {
            let warnings = asked_warnings(alloc, number, &Some(command))?;
            Ok(Findings::of_warnings(warnings))
        }
        Ok(_) => Ok(Findings::of_warnings(Vec::new(alloc))),
        Err(fault) => {
            let fault = known(fault)?;
            Findings::of_fault(alloc, line_fault(alloc, number, line, fault)?)
        }
    }
}

/// Whether the first word of a line that isn't too long is `run`, which stands after so many blanks.
fn run_place(line: &[u8]) -> Option<usize> {
    let at = blanks_before(line);
    if line.len() <= MAX_TEXT && first_word(&line[at..]) == b"run".as_slice() {
        Some(at)
    } else {
        None
    }
}

/// The fault of a line of this number of a script, which is refused so.
fn script_line_fault(
    alloc: Global,
    number: u64,
    line: &[u8],
    fault: TextFault,
) -> Result<Finding, AllocError> {
    match run_place(line) {
        Some(at) => {
            let words = Vec::from_slice(alloc, RUN)?;
            Ok(placed(line, Some(number), at, TextFault::Syntax, words))
        }
        None => line_fault(alloc, number, line, fault),
    }
}

/// What is found in a line of a script, of this number.
fn look_at_script_line(alloc: Global, number: u64, line: &[u8]) -> Result<Findings, AllocError>
    ensures { IfOk result (λ findings. ScriptLineHasFault line.now findings.is_faulty) }
{
    match read_script_line(alloc, line) {
        Ok(asked) => {
            let warnings = asked_warnings(alloc, number, &asked)?;
            Ok(Findings::of_warnings(warnings))
        }
        Err(fault) => {
            let fault = known(fault)?;
            Findings::of_fault(alloc, script_line_fault(alloc, number, line, fault)?)
        }
    }
}

/// What is found in a line of this number, of a script or of lines for a server.
fn look_at(alloc: Global, in_script: bool, number: u64, line: &[u8]) -> Result<Findings, AllocError>
    ensures { IfOk result (λ findings. LineHasFaultIn in_script line.now findings.is_faulty) }
{
    if in_script {
        look_at_script_line(alloc, number, line)
    } else {
        look_at_line(alloc, number, line)
    }
}

/// Appends the lines of these findings in the file of this name.
fn put_findings(
    alloc: Global,
    file: &[u8],
    findings: &[Finding],
    out: &mut Vec<u8>,
) -> Result<(), AllocError> {
    for finding in findings {
        put_finding(alloc, Layout::Lines, file, finding, out)?;
    }
    Ok(())
}

/// Appends what is told of a line of this number, and tells whether it has a fault.
fn tell_line(
    alloc: Global,
    in_script: bool,
    file: &[u8],
    number: u64,
    line: &[u8],
    out: &mut Vec<u8>,
) -> Result<bool, AllocError>
    ensures faulty { IfOk result (LineHasFaultIn in_script line.now) }
    ensures appended { OnOk result ((told : List ℕ) × (out.new.items ≡ out.old.items ++ told)) }
    ensures silent { OnErr result (out.new.items ≡ out.old.items) }
{
    let findings = look_at(alloc, in_script, number, line)?;
    let mut told = Vec::new(alloc);
    put_findings(alloc, file, &findings.list, &mut told)?;
    out.extend_from_slice(&told)?;
    Ok(findings.is_faulty)
}

/// Appends what is told of a line for a server, which has this number in the file of this name, and tells whether it has
/// a fault: whether `serve` refuses it as no line. Where memory runs out, nothing is appended.
pub fn check_line(
    alloc: Global,
    file: &[u8],
    number: usize,
    line: &[u8],
    out: &mut Vec<u8>,
) -> Result<bool, AllocError>
    ensures faulty { IfOk result (LineHasFault line.now) }
    ensures appended { OnOk result ((told : List ℕ) × (out.new.items ≡ out.old.items ++ told)) }
    ensures silent { OnErr result (out.new.items ≡ out.old.items) }
{
    tell_line(alloc, false, file, number as u64, line, out)
}

/// The same of a line of a script, in which a run is a fault: scripts hold commands alone.
pub fn check_script_line(
    alloc: Global,
    file: &[u8],
    number: usize,
    line: &[u8],
    out: &mut Vec<u8>,
) -> Result<bool, AllocError>
    ensures faulty { IfOk result (ScriptLineHasFault line.now) }
    ensures appended { OnOk result ((told : List ℕ) × (out.new.items ≡ out.old.items ++ told)) }
    ensures silent { OnErr result (out.new.items ≡ out.old.items) }
{
    tell_line(alloc, true, file, number as u64, line, out)
}

/// Writes what is told of the lines of a script or for a server, line by line, and tells whether one has a fault.
pub(crate) fn check_lines<W: Write>(
    alloc: Global,
    style: Style<'_>,
    in_script: bool,
    text: &[u8],
    writer: &mut W,
) -> Result<bool, StreamFault>
    ensures faulty { IfOk result (HasFaulty (LineHasFaultIn in_script) (lines text.now)) }
    ensures grows { Grows (W.contents writer.old) (W.contents writer.new) }
    ensures sort { IfErr result
        (λ fault. (fault ≡ StreamFault.Memory) ⊎ (fault ≡ StreamFault.Write)) }
{
    let mut rest = text;
    let mut number = 1u64;
    let mut is_faulty = false;
    while !rest.is_empty() {
        let (line, more) = split_line(rest);
        let findings = look_at(alloc, in_script, number, line)?;
        write_findings(alloc, style, &findings.list, writer)?;
        let here = findings.is_faulty;
        is_faulty = is_faulty || here;
        number = number.saturating_add(1);
        rest = more;
    }
    Ok(is_faulty)
}

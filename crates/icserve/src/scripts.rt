//! The scripts of the program's word `attend`, which stand in files.

use crate::input::open_file;
use crate::texts::{read_limited, too_long};
use ic_book::{BookFault, MAX_ENTRIES};
use ic_causes::{Notes, cause_line, shown_path};
use ic_check::check_script_line;
use ic_jobs::Command;
use ic_scripts::{ScriptsFault, add_script};
use std::alloc::{AllocError, Global};
use std::io::{self, ErrorKind, IsTerminal, Write};

/// What is told after `log full`.
pub(crate) const FULL: &[u8] =
    b"the history holds 65536 commands and rounds; all that was answered is kept, and a further call goes on from there\n";

/// The fault behind this one, which is told: a book is broken by a call to the disk that has failed, whoever made it.
pub(crate) fn behind(fault: ScriptsFault) -> ScriptsFault {
    match fault {
        ScriptsFault::Book(BookFault::Broken) => ScriptsFault::Book(BookFault::Device),
        _ => fault,
    }
}

/// Reads the scripts in the files of these paths, in their order. Of the first that can't be read, or is refused, the
/// line that says why is appended to `told`.
pub(crate) fn read_scripts(
    rt: &HostRuntime,
    paths: &[String],
    told: &mut Vec<u8>,
) -> Result<Vec<Vec<Command>>, ScriptsFault> {
    let mut scripts = Vec::new(rt.alloc());
    for path in paths {
        let text = read_file(rt, path.as_str(), told)?;
        if let Err(fault) = add_script(rt.alloc(), &text, &mut scripts) {
            let _ = tell_refusal(rt.alloc(), path.as_str(), &text, fault, told);
            return Err(fault);
        }
    }
    Ok(scripts)
}

/// Appends where the script in the file of this path is refused, and what is amiss there.
fn tell_refusal(
    alloc: Global,
    path: &str,
    text: &[u8],
    fault: ScriptsFault,
    told: &mut Vec<u8>,
) -> Result<(), AllocError> {
    let ScriptsFault::Script(_, refusal) = fault else {
        return Ok(());
    };
    let number = refusal.line;
    let file = shown_path(alloc, path.as_bytes())?;
    let mut lines = Vec::new(alloc);
    if check_script_line(alloc, &file, number, line_of(text, number), &mut lines)? {
        return told.extend_from_slice(&lines);
    }
    told.extend_from_slice(&file)?;
    let rest = format!(in alloc; ":{number}: bad limit: a script has at most 65536 commands\n")?;
    told.extend_from_slice(rest.as_bytes())
}

/// The line of this number, from 1, of a text.
pub(crate) fn line_of(text: &[u8], number: usize) -> &[u8] {
    let mut rest = text;
    for _ in 1..number {
        rest = split_line(rest).1;
    }
    split_line(rest).0
}

/// The first line of a text, and what follows its line feed.
fn split_line(text: &[u8]) -> (&[u8], &[u8]) {
    for (place, byte) in text.iter().enumerate() {
        if *byte == b'\n' {
            return (&text[..place], &text[place + 1..]);
        }
    }
    (text, &text[text.len()..])
}

/// How many commands and turns these scripts and runners come to at most.
fn most_entries(scripts: &[Vec<Command>], runners: u32, turns: u32) -> u64 {
    let mut most = u64::from(runners) * u64::from(turns);
    for script in scripts {
        most = most.saturating_add(script.len() as u64);
    }
    most
}

/// Tells a terminal where these scripts and turns may be more than a history holds.
pub(crate) fn tell_of_room(rt: &HostRuntime, scripts: &[Vec<Command>], runners: u32, turns: u32) {
    let most = most_entries(scripts, runners, turns);
    if most > MAX_ENTRIES as u64 && rt.stderr().is_terminal() {
        let _ = eprintln!(rt;
            "icserve: {most} commands and turns; the history holds 65536, so it may end with log full"
        );
    }
}

/// The bytes of the file of this path. Where it can't be read, or has too many, that is appended to
/// `told`.
pub(crate) fn read_file(
    rt: &HostRuntime,
    path: &str,
    told: &mut Vec<u8>,
) -> Result<Vec<u8>, ScriptsFault> {
    let notes = Notes::new();
    let line = match noted_bytes(rt, path, &notes) {
        Ok(Some(text)) => return Ok(text),
        Ok(None) => too_long(rt.alloc(), path)?,
        Err(error) if error.kind() == ErrorKind::OutOfMemory => return Err(ScriptsFault::Memory),
        Err(_) => cause_line(rt.alloc(), path.as_bytes(), notes.last())?,
    };
    told.extend_from_slice(&line)?;
    Err(ScriptsFault::Read)
}

/// The bytes of the file of this path, or none where it has too many. A call to it that fails is
/// noted. It may be a pipe, which is read to its end.
fn noted_bytes(rt: &HostRuntime, path: &str, notes: &Notes) -> io::Result<Option<Vec<u8>>> {
    match open_file(rt, path, notes) {
        Ok(file) => read_limited(rt.alloc(), file),
        Err(error) => Err(error),
    }
}

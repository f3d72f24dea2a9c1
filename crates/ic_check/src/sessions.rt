//! Telling a session of its lines that are refused.

ghost use Rattle.std.specs.Prelude.{◌≡◌, ◌++◌, ◌≤◌, ℕ, List, OnErr, OnOk, length};

use crate::findings::{put_after, put_number};
use crate::lines::split_line;
use crate::places::{Due, LineDetail, LinePlace, line_place};
use crate::remarks::{known, line_sentence};
use ic_commands::read_command;
use ic_diagnostics::{column, first_word, told_at};
use ic_text::{TextFault, print_fault};
use std::alloc::{AllocError, Global};

/// What is told of a line that asks for help, in place of what is looked for.
const LINES: &[u8] = b"the lines are submit NAME [BUDGET] {RULES} <CONFIG>, copy OLD NEW, \
pause NAME, resume NAME, cancel NAME, fetch NAME, list and run K (K up to 1000); \
`icserve help serve` tells more, and Ctrl-D ends the session";

/// What is told of a line that asks for an end.
const END: &[u8] = b"the end of the input ends a session: at a terminal, Ctrl-D";

/// What is told of a line that asks for help or for an end, where it does.
fn help(line: &[u8], place: LinePlace) -> Option<&'static [u8]>
    requires { place.at ≤ length line.now }
{
    if place.detail != LineDetail::Sought(Due::Command) {
        return None;
    }
    let rest = &line[place.at..];
    let word = first_word(rest);
    if word == b"help".as_slice() || rest.starts_with(b"?".as_slice()) {
        Some(LINES)
    } else if word == b"quit".as_slice() || word == b"exit".as_slice() {
        Some(END)
    } else {
        None
    }
}

/// Appends what is told of a line of this number that is refused so.
fn put_refusal(
    alloc: Global,
    number: u64,
    line: &[u8],
    fault: TextFault,
    out: &mut Vec<u8>,
) -> Result<(), AllocError> {
    let place = line_place(alloc, line, fault)?;
    let words = match help(line, place) {
        Some(words) => Vec::from_slice(alloc, words)?,
        None => line_sentence(alloc, line, fault, place)?,
    };
    let column = column(&line[..told_at(line, place.at)]) as u64;
    put_number(b"line ", Some(number), out)?;
    put_number(b", column ", Some(column), out)?;
    put_after(b": ", &print_fault(alloc, &fault)?, out)?;
    put_after(b": ", &words, out)?;
    out.extend_from_slice(b"\n")
}

/// Appends what is told of the line of this number, if it is refused.
fn put_line(alloc: Global, number: u64, line: &[u8], out: &mut Vec<u8>) -> Result<(), AllocError> {
    if let Err(fault) = read_command(alloc, line) {
        put_refusal(alloc, number, line, known(fault)?, out)?;
    }
    Ok(())
}

/// Appends what is told of the lines of a text, the first of which has this number, and answers the number of the line
/// after them.
fn put_refusals(
    alloc: Global,
    number: u64,
    text: &[u8],
    out: &mut Vec<u8>,
) -> Result<u64, AllocError> {
    let mut rest = text;
    let mut next = number;
    while !rest.is_empty() {
        let (line, more) = split_line(rest);
        put_line(alloc, next, line, out)?;
        next = next.saturating_add(1);
        rest = more;
    }
    Ok(next)
}

/// Appends for each line of a text that a server refuses, the first of which has this number, where it is refused and
/// what is amiss there. Where `help` or `?` stands in place of a command, the lines that there are are told, and where
/// `quit` or `exit` does, how a session ends. Answers the number of the line after them. Where memory runs out, nothing
/// is appended.
pub fn tell_refusals(
    alloc: Global,
    number: u64,
    text: &[u8],
    out: &mut Vec<u8>,
) -> Result<u64, AllocError>
    ensures appended { OnOk result ((told : List ℕ) × (out.new.items ≡ out.old.items ++ told)) }
    ensures silent { OnErr result (out.new.items ≡ out.old.items) }
{
    let mut told = Vec::new(alloc);
    let next = put_refusals(alloc, number, text, &mut told)?;
    out.extend_from_slice(&told)?;
    Ok(next)
}

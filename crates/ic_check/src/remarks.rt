//! What is said of faults, each with its place.

ghost use Rattle.std.specs.Prelude.{◌≡◌, ◌≢◌, ◌≤◌, IfOk, length};

use crate::findings::Finding;
use crate::places::{Due, LineDetail, LineLimit, LinePlace};
use ic_diagnostics::{
    Kind, column, is_joined, last_line, line_number, opens_comment, opens_order_mark, sentence,
    told_at,
};
use ic_text::{Misread, TextFault};
use std::alloc::{AllocError, Global};

/// What is told of a comment with which a file begins, be it a text or lines.
pub(crate) const NO_COMMENTS: &[u8] =
    b"there are no comments, unless the first line is #rich or --rich is given, \
and lines for serve have none";

/// What is told of a run in a script.
pub(crate) const RUN: &[u8] = b"run isn't for scripts, since runners make the rounds";

/// What is told of a comment in a line.
const NO_LINE_COMMENTS: &[u8] = b"lines have no comments: take this one out";

/// What is told where a line begins with no command: which there are, and how a file begins that has no lines.
const COMMAND: &[u8] = b"a command is looked for here: submit, copy, pause, resume, cancel, fetch, \
list or run; a file with one text begins with { or <";

/// What is told of a byte order mark.
const ORDER_MARK: &[u8] = b"a byte order mark stands before the text: take it out";

/// What is told where a job's name goes on with a byte that no name has.
const JOB_NAME: &[u8] = b"a job's name has small letters, digits and - only";

/// What is told where a system or a configuration stands in place of a command.
const WHOLE_TEXT: &[u8] = b"a system is submitted on one line: submit NAME {RULES} <CONFIG>";

/// A fault, where memory didn't run out.
pub(crate) fn known(fault: TextFault) -> Result<TextFault, AllocError>
    ensures same { IfOk result (λ known. known ≡ fault) }
    ensures known { IfOk result (λ known. fault ≢ TextFault.Memory) }
{
    match fault {
        TextFault::Memory => Err(AllocError),
        _ => Ok(fault),
    }
}

/// A fault at this place of a whole file, or of its line of this number.
pub(crate) fn placed(
    text: &[u8],
    number: Option<u64>,
    at: usize,
    fault: TextFault,
    words: Vec<u8>,
) -> Finding {
    let front = &text[..told_at(text, at.min(text.len()))];
    let line = match number {
        Some(number) => number,
        None => line_number(front) as u64,
    };
    Finding {
        line: Some(line),
        column: Some(column(last_line(front)) as u64),
        fault: Some(fault),
        words,
    }
}

/// The fault of a text that a whole file is.
pub(crate) fn text_fault(
    alloc: Global,
    kind: Kind,
    text: &[u8],
    misread: Misread,
) -> Result<Finding, AllocError> {
    let Some(at) = misread.place else {
        return Ok(Finding {
            line: None,
            column: None,
            fault: Some(misread.fault),
            words: Vec::new(alloc),
        });
    };
    let words = sentence(alloc, kind, text, at.min(text.len()), misread)?;
    Ok(placed(text, None, at, misread.fault, words))
}

/// What is looked for where a line doesn't go on.
fn sought(due: Due) -> &'static [u8] {
    match due {
        Due::Command => COMMAND,
        Due::Budget => b"a budget or { is looked for here",
        Due::System => b"{ is looked for here",
        Due::Number => b"a number is looked for here",
        Due::Nothing => b"the line should end before this",
        Due::SubmitName | Due::OldName | Due::NewName | Due::VerbName => {
            b"a job's name is looked for here: a small letter, then small letters, digits and -"
        }
    }
}

/// Whether a text begins as a system or a configuration does.
fn opens_text(text: &[u8]) -> bool {
    text.starts_with(b"{".as_slice()) || text.starts_with(b"<".as_slice())
}

/// What is amiss at a place where this was looked for, with these bytes of the line before it and these after it.
fn due_sentence(front: &[u8], rest: &[u8], due: Due) -> &'static [u8] {
    let follows_name = due == Due::Budget || due == Due::NewName;
    if opens_comment(rest) {
        NO_LINE_COMMENTS
    } else if follows_name && is_joined(front, rest) {
        JOB_NAME
    } else if due == Due::Command && opens_text(rest) {
        WHOLE_TEXT
    } else {
        sought(due)
    }
}

/// What is amiss where a limit of a line is passed, or of a word before its system.
fn limit_sentence(limit: LineLimit) -> &'static [u8] {
    match limit {
        LineLimit::LineBytes => b"a line has at most 262144 bytes",
        LineLimit::NameBytes => b"a job's name has at most 16 bytes",
        LineLimit::BudgetRounds => b"a budget is 1 to 4294967295",
        LineLimit::RunRounds => b"a run makes at most 1000 rounds",
    }
}

/// What is amiss at the place of a line's fault.
pub(crate) fn line_sentence(
    alloc: Global,
    line: &[u8],
    fault: TextFault,
    place: LinePlace,
) -> Result<Vec<u8>, AllocError>
    requires { place.at ≤ length line.now }
{
    match place.detail {
        LineDetail::Sought(due) => {
            let (front, rest) = line.split_at(place.at);
            if opens_order_mark(line) && !opens_comment(rest) {
                return Vec::from_slice(alloc, ORDER_MARK);
            }
            Vec::from_slice(alloc, due_sentence(front, rest, due))
        }
        LineDetail::Passed(limit) => Vec::from_slice(alloc, limit_sentence(limit)),
        LineDetail::Within(detail) => {
            let misread = Misread {
                fault,
                place: Some(place.at),
                detail,
            };
            sentence(alloc, Kind::System, line, place.at, misread)
        }
    }
}

//! Where in a line its fault is: at the first word with which no line goes on, at the first one that passes a limit, or
//! within its system. Trials show the places.

ghost use Rattle.std.specs.Prelude.{◌≤◌, IfOk, length};

use ic_commands::MAX_RUN;
use ic_diagnostics::first_word;
use ic_jobs::MAX_BUDGET;
use ic_rules::{MAX_JOB_NAME, is_job_word};
use ic_text::{Detail, MAX_TEXT, TextFault, find_flat_system, is_blank, is_numeral};
use std::alloc::{AllocError, Global};

/// At most so many words stand before a line's system.
const MOST_WORDS: usize = 3;

/// What is looked for in a line after so many of its words.
#[derive(Clone, Copy, PartialEq, Eq)]
pub(crate) enum Due {
    /// The word of a command.
    Command,
    /// The name of the job that is submitted.
    SubmitName,
    /// The number of a budget, or a system.
    Budget,
    /// Only a system, after a budget.
    System,
    /// The name of the job that is copied.
    OldName,
    /// The name of its copy.
    NewName,
    /// The name of the job of which something is asked.
    VerbName,
    /// The number of a run.
    Number,
    /// Nothing more, after a line that is whole.
    Nothing,
}

/// A limit that a line, or one of the words before its system, may pass.
#[derive(Clone, Copy, PartialEq, Eq)]
pub(crate) enum LineLimit {
    /// Bytes of the line.
    LineBytes,
    /// Bytes of a job's name.
    NameBytes,
    /// Rounds of a budget.
    BudgetRounds,
    /// Rounds of a run.
    RunRounds,
}

/// What more is known of a line's fault.
#[derive(Clone, Copy, PartialEq, Eq)]
pub(crate) enum LineDetail {
    /// What was looked for at its place.
    Sought(Due),
    /// The limit that is passed by the line, or by a word before its system.
    Passed(LineLimit),
    /// What is known of its system's fault.
    Within(Detail),
}

/// Where a line is refused.
#[derive(Clone, Copy)]
pub(crate) struct LinePlace {
    /// How many bytes of the line stand before the fault.
    pub at: usize,
    pub detail: LineDetail,
}

impl Due {
    /// What is due after a word where this was due, if the word may stand there.
    fn after(self, word: &[u8]) -> Option<Due> {
        match self {
            Due::Command => Due::opened(word),
            Due::SubmitName if is_job_word(word) => Some(Due::Budget),
            Due::Budget if is_number(word) => Some(Due::System),
            Due::OldName if is_job_word(word) => Some(Due::NewName),
            Due::NewName | Due::VerbName if is_job_word(word) => Some(Due::Nothing),
            Due::Number if is_number(word) => Some(Due::Nothing),
            _ => None,
        }
    }

    /// What is due after the first word of a line, if it begins one.
    fn opened(word: &[u8]) -> Option<Due> {
        if word == b"submit".as_slice() {
            Some(Due::SubmitName)
        } else if word == b"copy".as_slice() {
            Some(Due::OldName)
        } else if word == b"list".as_slice() {
            Some(Due::Nothing)
        } else if word == b"run".as_slice() {
            Some(Due::Number)
        } else if is_verb(word) {
            Some(Due::VerbName)
        } else {
            None
        }
    }

    /// The limit that a word passes which stands where this was due, if it passes one.
    fn passed(self, word: &[u8]) -> Option<LineLimit> {
        match self {
            Due::SubmitName | Due::OldName | Due::NewName | Due::VerbName => {
                (word.len() > MAX_JOB_NAME).then_some(LineLimit::NameBytes)
            }
            Due::Budget => {
                let rounds = number_of(word);
                (rounds == 0 || rounds > MAX_BUDGET).then_some(LineLimit::BudgetRounds)
            }
            Due::Number => (number_of(word) > MAX_RUN).then_some(LineLimit::RunRounds),
            Due::Command | Due::System | Due::Nothing => None,
        }
    }

    /// Whether a system may stand where this is due.
    fn is_system(self) -> bool {
        match self {
            Due::Budget | Due::System => true,
            _ => false,
        }
    }
}

/// Whether something is asked of a job by this word.
fn is_verb(word: &[u8]) -> bool {
    word == b"pause".as_slice()
        || word == b"resume".as_slice()
        || word == b"cancel".as_slice()
        || word == b"fetch".as_slice()
}

/// Whether a word is `0`, or digits without a leading zero.
fn is_number(word: &[u8]) -> bool {
    word == b"0".as_slice() || (!word.is_empty() && is_numeral(word))
}

/// The number that digits write, or the greatest there is.
fn number_of(digits: &[u8]) -> u64 {
    let mut number = 0u64;
    for digit in digits {
        number = number
            .saturating_mul(10)
            .saturating_add(u64::from(digit.saturating_sub(b'0')));
    }
    number
}

/// How many blanks a text begins with.
pub(crate) fn blanks_before(text: &[u8]) -> usize
    ensures { result ≤ length text.now }
{
    for (place, byte) in text.iter().enumerate() {
        if !is_blank(*byte) {
            return place;
        }
    }
    text.len()
}

/// A text after the blanks with which it begins.
fn after_blanks(text: &[u8]) -> &[u8] {
    &text[blanks_before(text)..]
}

/// A line as far as its words may stand in one, up to its system.
#[derive(Clone, Copy)]
struct Front<'a> {
    /// What is due after them.
    due: Due,
    /// What is left of the line.
    rest: &'a [u8],
    /// How many bytes of the line stand before the first of them that passes a limit, and the limit.
    passed: Option<(usize, LineLimit)>,
}

/// The words of a line before its system.
fn front_of(line: &[u8]) -> Front<'_> {
    let mut front = Front {
        due: Due::Command,
        rest: after_blanks(line),
        passed: None,
    };
    for _ in 0..MOST_WORDS {
        let word = first_word(front.rest);
        let Some(next) = front.due.after(word) else {
            break;
        };
        let at = line.len().saturating_sub(front.rest.len());
        let limit = front.due.passed(word);
        if let (None, Some(limit)) = (front.passed, limit) {
            front.passed = Some((at, limit));
        }
        front.due = next;
        front.rest = after_blanks(&front.rest[word.len().min(front.rest.len())..]);
    }
    front
}

/// Where a text is refused as a system, if it is.
fn system_place(alloc: Global, text: &[u8]) -> Result<Option<(usize, Detail)>, AllocError> {
    match find_flat_system(alloc, text) {
        Ok(_) => Ok(None),
        Err(misread) if misread.fault == TextFault::Memory => Err(AllocError),
        Err(misread) => match misread.place {
            Some(at) => Ok(Some((at, misread.detail))),
            None => Ok(None),
        },
    }
}

/// Where a line is refused that is read as this fault.
pub(crate) fn line_place(
    alloc: Global,
    line: &[u8],
    fault: TextFault,
) -> Result<LinePlace, AllocError>
    ensures within { IfOk result (λ place. place.at ≤ length line.now) }
{
    if line.len() > MAX_TEXT {
        let detail = LineDetail::Passed(LineLimit::LineBytes);
        return Ok(LinePlace {
            at: MAX_TEXT,
            detail,
        });
    }
    let front = front_of(line);
    let inner = if front.due.is_system() {
        system_place(alloc, front.rest)?
    } else {
        None
    };
    let at = line.len().saturating_sub(front.rest.len());
    let (at, detail) = match (fault, front.passed, inner) {
        (TextFault::Limit, Some((own, limit)), _) => (own, LineDetail::Passed(limit)),
        (TextFault::Syntax, _, Some((0, _))) | (_, _, None) => (at, LineDetail::Sought(front.due)),
        (_, _, Some((within, detail))) => (at.saturating_add(within), LineDetail::Within(detail)),
    };
    Ok(LinePlace {
        at: at.min(line.len()),
        detail,
    })
}

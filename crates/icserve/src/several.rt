//! Rich texts with several configurations: which words take them, and how it is told which one is meant.

use ic_diagnostics::{line_number, place_lines};
use ic_exits::Failure;
use ic_expand::{MAX_SEVERAL, Several};
use ic_streams::StreamFault;
use ic_text::TextFault;
use std::alloc::{AllocError, Global};

/// What is said of the second configuration where one is wanted.
const ONE: &[u8] = b"a second configuration begins here, and one is wanted: \
reduce without --keep or --profile, check and expand take several";

/// What is said of the first one too many.
pub(crate) const MANY: &[u8] = b"a text has at most 4096 configurations";

/// Which configuration of several one is.
#[derive(Clone, Copy)]
pub(crate) struct Among {
    /// Its number, from 1.
    number: usize,
    /// The line on which it begins.
    line: usize,
}

impl Among {
    /// The configuration with this number, from 0.
    pub(crate) fn of(several: &Several, number: usize) -> Among {
        let body = several.body();
        let (front, _) = body.split_at(several.place_of(number).min(body.len()));
        Among {
            number: number.saturating_add(1),
            line: line_number(front),
        }
    }

    /// The line that tells which one it is.
    pub(crate) fn told(self, alloc: Global) -> Result<String, AllocError> {
        let (number, line) = (self.number, self.line);
        format!(in alloc; "icserve: configuration {number}, line {line}\n")
    }

    /// Tells at a failure which one it is, unless the failure tells a place.
    pub(crate) fn tell_of(self, alloc: Global, failure: &Failure, told: &mut Vec<u8>) {
        if !matches!(failure, Failure::Stream(_)) {
            if let Ok(line) = self.told(alloc) {
                let _ = told.extend_from_slice(line.as_bytes());
            }
        }
    }
}

/// The failure of a word for which memory runs out.
pub(crate) fn out_of_memory(_error: AllocError) -> Failure {
    Failure::Stream(StreamFault::Memory)
}

/// The configurations of a rich text, which is refused if it has too many.
pub(crate) fn configurations_of(
    alloc: Global,
    text: &[u8],
    told: &mut Vec<u8>,
) -> Result<Several, Failure> {
    let several = Several::of(alloc, text).map_err(out_of_memory)?;
    if several.count() > MAX_SEVERAL {
        refuse_at(alloc, &several, MAX_SEVERAL, TextFault::Limit, MANY, told)?;
    }
    Ok(several)
}

/// Refuses a rich text with several configurations.
pub(crate) fn refuse_several(
    alloc: Global,
    text: &[u8],
    told: &mut Vec<u8>,
) -> Result<(), Failure> {
    let several = configurations_of(alloc, text, told)?;
    if several.count() > 1 {
        refuse_at(alloc, &several, 1, TextFault::Syntax, ONE, told)?;
    }
    Ok(())
}

/// Refuses a text at the configuration with this number, of which `told` gets the lines.
fn refuse_at(
    alloc: Global,
    several: &Several,
    number: usize,
    fault: TextFault,
    words: &[u8],
    told: &mut Vec<u8>,
) -> Result<(), Failure> {
    let lines = place_lines(alloc, several.body(), several.place_of(number), words);
    let lines = lines.map_err(out_of_memory)?;
    told.extend_from_slice(&lines).map_err(out_of_memory)?;
    Err(Failure::Stream(StreamFault::Text(fault)))
}

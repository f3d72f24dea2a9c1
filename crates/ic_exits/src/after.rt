//! What is told after the line of a failure: why a disk's file doesn't serve, why standard input can't be read or standard
//! output be written, or how far a net has come that was reduced in place.

use crate::{Failure, Reached};
use ic_batch::{BatchFault, Difference};
use ic_book::BookFault;
use ic_causes::{Cause, Reason, Target, cause_line, shown_path};
use ic_dump::DumpFault;
use ic_frames::KeepFault;
use ic_inspect::InspectFault;
use ic_keeping::KeepingFault;
use ic_scripts::ScriptsFault;
use ic_serving::ServeFault;
use ic_slots::{CreateFault, OpenCause};
use ic_streams::StreamFault;
use std::alloc::{AllocError, Global};
use std::fmt::Write;

impl Failure {
    /// Whether nothing is told of the failure, where this call has failed last: nobody reads the answers
    /// any more.
    pub fn is_silent(&self, cause: Option<Cause>) -> bool {
        match cause {
            Some(cause) => {
                self.is_of_writing()
                    && cause.target == Target::Output
                    && cause.reason == Reason::NoReader
            }
            None => false,
        }
    }

    /// Whether it is that answers can't be written.
    fn is_of_writing(&self) -> bool {
        matches!(
            self,
            Failure::Stream(StreamFault::Write)
                | Failure::Serve(ServeFault::Write)
                | Failure::Attend(ScriptsFault::Write)
                | Failure::Dump(DumpFault::Write)
                | Failure::Inspect(InspectFault::Write)
                | Failure::Batch(BatchFault::Serve(ServeFault::Write))
        )
    }

    /// Whether it is that what is given can't be read.
    fn is_of_reading(&self) -> bool {
        matches!(
            self,
            Failure::Stream(StreamFault::Read)
                | Failure::Serve(ServeFault::Read)
                | Failure::Batch(BatchFault::Serve(ServeFault::Read))
        )
    }

    /// Whether it is that a call to the file of a disk, or of a reduction, has failed.
    fn is_of_file(&self) -> bool {
        match self {
            Failure::Disk(_) | Failure::Locked => true,
            Failure::Create(CreateFault::Device) | Failure::Inspect(InspectFault::Read) => true,
            Failure::Open(fault) => is_of_device(*fault),
            Failure::Serve(fault) => is_of_book(*fault),
            Failure::Batch(BatchFault::Serve(fault)) => is_of_book(*fault),
            Failure::Attend(ScriptsFault::Open(fault)) => is_of_device(*fault),
            Failure::Attend(ScriptsFault::Book(fault)) => is_of_book(ServeFault::Book(*fault)),
            Failure::Kept(KeepingFault::Device) => true,
            Failure::Kept(KeepingFault::Open(fault)) => is_of_device(*fault),
            Failure::Kept(KeepingFault::Keep(KeepFault::Broken | KeepFault::Device)) => true,
            _ => false,
        }
    }

    /// What standard error is told after the line of the failure, where the disk is in the file of
    /// this path and the cause is that of the last call that has failed: a line or two, or nothing.
    pub(crate) fn lines_after(
        &self,
        alloc: Global,
        path: &[u8],
        cause: Option<Cause>,
    ) -> Result<Vec<u8>, AllocError> {
        if self.is_of_file() {
            return file_lines(alloc, path, cause);
        }
        if self.is_of_reading() {
            return stream_line(alloc, path, Target::Input, cause);
        }
        if self.is_of_writing() {
            return stream_line(alloc, path, Target::Output, cause);
        }
        match self {
            Failure::NotEmpty => said_of(
                alloc,
                path,
                "the file holds something; `--overwrite` makes it an empty disk all the same",
            ),
            Failure::Open(fault) => open_line(alloc, *fault, path),
            Failure::Attend(ScriptsFault::Open(fault)) => open_line(alloc, *fault, path),
            Failure::Batch(fault) => batch_line(alloc, *fault, path),
            Failure::Kept(fault) => kept_line(alloc, *fault, path),
            Failure::OtherOrder(by_rounds) => order_line(alloc, *by_rounds, path),
            Failure::Overgrown(reached, nodes) => overgrown_line(alloc, *reached, *nodes),
            Failure::TableFull(reached) | Failure::OutOfMemory(reached) => {
                reached_line(alloc, *reached)
            }
            _ => Ok(Vec::new(alloc)),
        }
    }
}

/// Whether a disk isn't opened since a call to it has failed.
fn is_of_device(fault: OpenCause) -> bool {
    matches!(fault, OpenCause::Device)
}

/// Whether a serving ended since a call to the disk has failed.
fn is_of_book(fault: ServeFault) -> bool {
    matches!(
        fault,
        ServeFault::Book(BookFault::Broken | BookFault::Device)
    )
}

/// Why a call to the file of this path has failed. Where it found no second file of a reduction, how that is made anew.
fn file_lines(alloc: Global, path: &[u8], cause: Option<Cause>) -> Result<Vec<u8>, AllocError> {
    let mut lines = cause_line(alloc, path, cause)?;
    if let Some(cause) = cause {
        if cause.target == Target::Second && cause.reason == Reason::Missing {
            lines.extend_from_slice(&second_missing(alloc, path)?)?;
        }
    }
    Ok(lines)
}

/// Why this standard stream failed, where that is what has failed last.
fn stream_line(
    alloc: Global,
    path: &[u8],
    target: Target,
    cause: Option<Cause>,
) -> Result<Vec<u8>, AllocError> {
    match cause {
        Some(last) if last.target == target => cause_line(alloc, path, cause),
        _ => Ok(Vec::new(alloc)),
    }
}

/// What is wrong with the file of a disk that isn't opened.
fn open_line(alloc: Global, fault: OpenCause, path: &[u8]) -> Result<Vec<u8>, AllocError> {
    match fault {
        OpenCause::NoSlot => said_of(
            alloc,
            path,
            "the file is no disk; `icserve create --disk F` makes a new file F one",
        ),
        OpenCause::TwoAlike | OpenCause::Damaged => said_of(
            alloc,
            path,
            "something else has changed the file, or it was copied in part",
        ),
        OpenCause::Device | OpenCause::Memory => Ok(Vec::new(alloc)),
    }
}

/// Which other jobs a disk has.
fn batch_line(alloc: Global, fault: BatchFault, path: &[u8]) -> Result<Vec<u8>, AllocError> {
    let words = match fault {
        BatchFault::Taken(_, Difference::Rules) => "its job of this name has other rules",
        BatchFault::Taken(_, Difference::Budget) => "its job of this name has another budget",
        BatchFault::Taken(_, Difference::Start) => {
            "its job of this name begins with another configuration"
        }
        BatchFault::Full => "it has jobs of other names, and no disk has more than 32",
        BatchFault::Serve(_) => return Ok(Vec::new(alloc)),
    };
    said_of(alloc, path, words)
}

/// What is wrong with the two files of a reduction.
fn kept_line(alloc: Global, fault: KeepingFault, path: &[u8]) -> Result<Vec<u8>, AllocError> {
    let file = shown(alloc, path)?;
    let line = match fault {
        KeepingFault::NotEmpty => format!(in alloc;
            "{file}: it or its second file, {file}.2, holds something; `reduce --resume` goes on if a reduction is kept there\n"
        )?,
        KeepingFault::Open(OpenCause::NoSlot) => format!(in alloc;
            "{file}: no reduction is kept in it and in its second file, {file}.2: bring back a copy of both; \
after a stop in the first keep, give the same `--keep` again\n"
        )?,
        KeepingFault::Unsound | KeepingFault::Open(OpenCause::TwoAlike | OpenCause::Damaged) => {
            format!(in alloc;
                "{file}: something else has changed it or its second file, {file}.2, or they were copied in part; \
copy both, then `--resume {file} --from-one-file` goes on with the one that is whole; \
after a stop in the first keep, give the same `--keep` again\n"
            )?
        }
        _ => String::new(alloc),
    };
    Ok(line.into_bytes())
}

/// The line that says of the file of this path in which order its reduction goes on.
fn order_line(alloc: Global, by_rounds: bool, path: &[u8]) -> Result<Vec<u8>, AllocError> {
    let words = if by_rounds {
        "its reduction goes by rounds: `--rounds N` bounds it, without `--steps` and `--workers`"
    } else {
        "its reduction doesn't go by rounds: resume it without `--rounds`"
    };
    said_of(alloc, path, words)
}

/// The line that says of the file of this path that no reduction goes on with it, since its second file is missing.
pub fn second_missing(alloc: Global, path: &[u8]) -> Result<Vec<u8>, AllocError> {
    let file = shown(alloc, path)?;
    let line = format!(in alloc;
        "{file}: its second file, {file}.2, is missing: bring it back; if it is lost, \
`--resume {file} --from-one-file` goes on without it\n"
    )?;
    Ok(line.into_bytes())
}

/// The line that says of the file of this path, which isn't there, that the second file of its reduction is.
pub fn first_missing(alloc: Global, path: &[u8]) -> Result<Vec<u8>, AllocError> {
    let file = shown(alloc, path)?;
    let line = format!(in alloc;
        "{file}: its second file, {file}.2, holds a reduction: bring the first one back; if it is lost, \
`--resume {file} --from-one-file` goes on without it\n"
    )?;
    Ok(line.into_bytes())
}

/// How far a net has come that has more names and agents than so many.
fn overgrown_line(alloc: Global, reached: Reached, most: u64) -> Result<Vec<u8>, AllocError> {
    let text = reached_text(alloc, reached)?;
    let line = format!(in alloc; "{text}, --nodes {most}\n")?;
    Ok(line.into_bytes())
}

/// How far a net has come.
fn reached_line(alloc: Global, reached: Reached) -> Result<Vec<u8>, AllocError> {
    let text = reached_text(alloc, reached)?;
    let line = format!(in alloc; "{text}\n")?;
    Ok(line.into_bytes())
}

/// What is told of how far a net has come.
fn reached_text(alloc: Global, reached: Reached) -> Result<String, AllocError> {
    let interactions = reached.interactions;
    let nodes = reached.nodes;
    let left = reached.left;
    let mut text = format!(in alloc;
        "interactions {interactions}, nodes {nodes}, equations {left}"
    )?;
    if let Some(rounds) = reached.rounds {
        write!(text, ", rounds {rounds}")?;
    }
    Ok(text)
}

/// The line that says this of the file of a path.
pub(crate) fn said_of(alloc: Global, path: &[u8], words: &str) -> Result<Vec<u8>, AllocError> {
    let file = shown(alloc, path)?;
    let line = format!(in alloc; "{file}: {words}\n")?;
    Ok(line.into_bytes())
}

/// A path as a line shows it.
pub(crate) fn shown(alloc: Global, path: &[u8]) -> Result<String, AllocError> {
    let mut text = String::new(alloc);
    for byte in shown_path(alloc, path)? {
        text.push(char::from(byte))?;
    }
    Ok(text)
}

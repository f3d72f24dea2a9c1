//! The profile of a reduction in any order: how many pairs each round would have fired, in a file or on a standard stream.

use crate::HostFile;
use crate::keeping::are_one;
use crate::standing::stand_ins;
use ic_args::table::{PROFILE, SPAN};
use ic_args::{Values, WordsFault};
use ic_by_rounds::{profile_picture, profile_table};
use ic_causes::{Cause, NotedFiles, NotedOutput, Notes, Target, cause_line};
use ic_exits::Failure;
use ic_in_place::{End, Outcome};
use ic_streams::StreamFault;
use std::alloc::{AllocError, Global};
use std::fs::{self, OpenFile, OpenOptions, metadata, symlink_metadata};
use std::io::{self, ErrorKind, Write};

/// What is to be known of the rounds in which the pairs of a reduction would have fired.
#[derive(Clone, Copy)]
pub(crate) struct Profiled<'a> {
    /// Whether the figures tell how many rounds there would have been.
    pub(crate) has_span: bool,
    /// The path of the file in which each round stands, if one is wanted.
    pub(crate) path: Option<&'a str>,
}

impl<'a> Profiled<'a> {
    /// What the options ask for.
    pub(crate) fn of(values: &Values<'a>) -> Profiled<'a> {
        Profiled {
            has_span: values.flag(&SPAN),
            path: values.text(&PROFILE),
        }
    }

    /// Whether anything is to be known of them.
    pub(crate) fn is_wanted(&self) -> bool {
        self.has_span || self.path.is_some()
    }
}

/// Where each round is written.
#[derive(Drop)]
enum Sheet<'n> {
    /// On standard output, after the answer.
    Output,
    /// On standard error, before the figures.
    Errors,
    /// In a file that is open, of which nothing is written yet. It may have been made for that.
    File { file: HostFile<'n>, is_new: bool },
}

/// What is to be known of rounds, with the place where each of them is written, if one is wanted.
#[derive(Drop)]
pub(crate) struct Profile<'a, 'n> {
    profiled: Profiled<'a>,
    sheet: Option<Sheet<'n>>,
}

impl<'a, 'n> Profile<'a, 'n> {
    /// Opens the place where rounds are written. A file that is there stays as it is, and one that isn't is made. Why it can't be
    /// had is appended to `told`. It may not be the text, which is in the file of a path, or else on standard input.
    pub(crate) fn open(
        rt: &HostRuntime,
        profiled: Profiled<'a>,
        text: Option<&str>,
        notes: &'n Notes,
        told: &mut Vec<u8>,
    ) -> Result<Profile<'a, 'n>, Failure> {
        let Some(path) = profiled.path else {
            let sheet = None;
            return Ok(Profile { profiled, sheet });
        };
        match open_sheet(rt, path, notes) {
            Ok(Sheet::File { is_new: false, .. }) if is_text(rt, path, text) => {
                Err(over_text(rt.alloc()))
            }
            Ok(sheet) => {
                let sheet = Some(sheet);
                Ok(Profile { profiled, sheet })
            }
            Err(_) => Err(unwritten(rt, path, notes.last(), told)),
        }
    }

    /// Whether anything is to be known of rounds.
    pub(crate) fn is_wanted(&self) -> bool {
        self.profiled.is_wanted()
    }

    /// Whether each round is to be written somewhere.
    pub(crate) fn has_place(&self) -> bool {
        self.profiled.path.is_some()
    }

    /// Writes the profile of a reduction that has ended, if that is wanted. What was to be known of rounds and isn't is told as want
    /// of memory. Why it isn't written is appended to `told`.
    pub(crate) fn put(
        &mut self,
        rt: &HostRuntime,
        outcome: &Outcome,
        notes: &Notes,
        told: &mut Vec<u8>,
    ) -> Result<(), Failure> {
        if !self.is_wanted() {
            return Ok(());
        }
        let Some(pairs) = &outcome.by_round else {
            return Err(Failure::Stream(StreamFault::Memory));
        };
        let Some(path) = self.profiled.path else {
            return Ok(());
        };
        let Ok(bytes) = bytes_of(rt, path, pairs, outcome.end) else {
            return Err(Failure::Stream(StreamFault::Memory));
        };
        let Some(sheet) = self.sheet.take() else {
            return Ok(());
        };
        match write_on(rt, sheet, &bytes, notes) {
            Ok(()) => Ok(()),
            Err(_) => Err(unwritten(rt, path, notes.last(), told)),
        }
    }

    /// Closes the file, if nothing was written. Where it was made, it is taken away.
    pub(crate) fn leave(self, rt: &HostRuntime) {
        if let (Some(path), Some(Sheet::File { is_new, .. })) = (self.profiled.path, &self.sheet) {
            if *is_new {
                let _ = fs::remove_file(rt, path);
            }
        }
    }
}

/// The place that this path names: `-` is standard output. What leads to the file of a standard stream is that stream, so that
/// nothing is written over what stands there.
fn open_sheet<'n>(rt: &HostRuntime, path: &str, notes: &'n Notes) -> io::Result<Sheet<'n>> {
    if path == "-" || are_one(rt, path, "/dev/stdout") {
        return Ok(Sheet::Output);
    }
    if are_one(rt, path, "/dev/stderr") {
        return Ok(Sheet::Errors);
    }
    let _stand_ins = stand_ins(rt, notes)?;
    let is_new = is_missing(rt, path);
    let files = NotedFiles {
        rt,
        path,
        target: Target::File,
        notes,
    };
    let mut how = OpenOptions::new();
    how.write(true);
    how.create(true);
    let file = how.open(&files, path)?;
    Ok(Sheet::File { file, is_new })
}

/// Whether this path is that of the text: of a plain file that is read by another path, or on standard input.
fn is_text(rt: &HostRuntime, path: &str, text: Option<&str>) -> bool {
    match metadata(rt, path) {
        Ok(found) => found.is_file() && are_one(rt, path, text.unwrap_or("/dev/stdin")),
        Err(_) => false,
    }
}

/// That the profile would be written over the text.
fn over_text(alloc: Global) -> Failure {
    match String::from_str(alloc, "error: --profile would overwrite the text\n") {
        Ok(text) => Failure::Words(WordsFault::Words(text)),
        Err(_) => Failure::Words(WordsFault::Memory),
    }
}

/// Whether nothing has this path, not even a link to a file that isn't there.
fn is_missing(rt: &HostRuntime, path: &str) -> bool {
    match symlink_metadata(rt, path) {
        Ok(_) => false,
        Err(error) => error.kind() == ErrorKind::NotFound,
    }
}

/// That rounds aren't written. Why that fails is appended to `told`; of standard output that is told anyway.
fn unwritten(rt: &HostRuntime, path: &str, cause: Option<Cause>, told: &mut Vec<u8>) -> Failure {
    let is_told = match cause {
        Some(cause) => cause.target == Target::Output,
        None => true,
    };
    if !is_told {
        if let Ok(lines) = cause_line(rt.alloc(), path.as_bytes(), cause) {
            *told = lines;
        }
    }
    Failure::Stream(StreamFault::Write)
}

/// What is told of these pairs, of a reduction that ended so: a picture if the path is that of one, and else a table.
fn bytes_of(rt: &HostRuntime, path: &str, pairs: &[u64], end: End) -> Result<Vec<u8>, AllocError> {
    if path.ends_with(".svg") {
        profile_picture(rt.alloc(), pairs, end)
    } else {
        profile_table(rt.alloc(), pairs)
    }
}

/// Writes these bytes. A file loses what it held. A call that fails is noted.
fn write_on(rt: &HostRuntime, sheet: Sheet<'_>, bytes: &[u8], notes: &Notes) -> io::Result<()> {
    match sheet {
        Sheet::Output => {
            let mut output = NotedOutput::new(io::writer(rt), notes);
            output.write_all(bytes)?;
            output.flush()
        }
        Sheet::Errors => rt.stderr().write_all(bytes),
        Sheet::File { file, .. } => write_anew(file, bytes),
    }
}

/// Writes these bytes to a file, which loses what it held if it is a plain one.
fn write_anew(file: HostFile<'_>, bytes: &[u8]) -> io::Result<()> {
    let mut file = file;
    if file.metadata()?.is_file() {
        file.set_len(0)?;
    }
    file.write_all(bytes)?;
    file.flush()
}

//! The program's word `check`: the faults and warnings of the texts in files, on standard output.

use crate::input::{OF_PLAIN, is_rich_path};
use crate::inspecting::open_to_read;
use crate::several::MANY;
use crate::texts::{UsedFiles, read_limited, too_long};
use crate::warned::{Told, put_rich};
use ic_args::ReportFormat;
use ic_causes::{NotedInput, NotedOutput, Notes, cause_line};
use ic_check::{Given, Layout, Refused, Source, Verdict, check_files};
use ic_exits::Failure;
use ic_expand::{MAX_SEVERAL, Remarks, Several, Unexpanded, expand_text, is_marked, remarks_of};
use ic_streams::StreamFault;
use ic_text::{TextFault, find_config, find_system, is_blank};
use std::alloc::{AllocError, Global};
use std::cell::RefCell;
use std::io::{self, BufWriter, Write};

/// What is asked of a check.
#[derive(Clone, Copy)]
pub(crate) struct Asked {
    pub(crate) format: ReportFormat,
    /// Whether the files are scripts.
    pub(crate) is_script: bool,
    /// Whether a warning counts as a fault.
    pub(crate) is_strict: bool,
    /// Whether the files are rich texts, whatever they are called and begin with.
    pub(crate) is_rich: bool,
}

/// What was found in files.
#[derive(Clone, Copy)]
struct Found {
    has_fault: bool,
    has_unread: bool,
    /// Whether something was told of what a rich text is expanded to.
    has_plain: bool,
}

impl Found {
    fn note(&mut self, verdict: Verdict) {
        match verdict {
            Verdict::Fine => {}
            Verdict::Faulty => self.has_fault = true,
            Verdict::Unread => self.has_unread = true,
        }
    }
}

/// Prints the faults and warnings of the files of these paths, in their order and this format, each as it is found; for
/// `-` standard input is read. One that can't be read doesn't keep the others from being checked; why it can't is
/// appended to `told`.
pub(crate) fn check(
    rt: &HostRuntime,
    paths: &[String],
    asked: Asked,
    notes: &Notes,
    told: &mut Vec<u8>,
) -> Result<(), Failure> {
    let output = NotedOutput::new(io::writer(rt), notes);
    let Ok(output) = BufWriter::new(rt.alloc(), output) else {
        return Err(Failure::Stream(StreamFault::Memory));
    };
    let mut output = Watched {
        output,
        is_written: false,
    };
    let mut found = Found {
        has_fault: false,
        has_unread: false,
        has_plain: false,
    };
    for at in 0..paths.len() {
        let (_, rest) = paths.split_at(at);
        let (path, _) = rest.split_at(rest.len().min(1));
        check_path(rt, path, asked, &mut output, &mut found, told).map_err(Failure::Stream)?;
    }
    if found.has_plain {
        let _ = rt.stderr().write_all(OF_PLAIN);
    }
    if found.has_unread {
        Err(Failure::Stream(StreamFault::Read))
    } else if found.has_fault || (asked.is_strict && output.is_written) {
        Err(Failure::Faults)
    } else {
        Ok(())
    }
}

/// Prints what is found in the one file whose path is given.
fn check_path<W: Write>(
    rt: &HostRuntime,
    paths: &[String],
    asked: Asked,
    output: &mut Watched<W>,
    found: &mut Found,
    told: &mut Vec<u8>,
) -> Result<(), StreamFault> {
    let Some(path) = paths.first() else {
        return Ok(());
    };
    let layout = match asked.format {
        ReportFormat::Text => Layout::Lines,
        ReportFormat::Json => Layout::Objects,
    };
    let Looked { given, rich } = looked_at(rt, path.as_str(), asked)?;
    let held = Held {
        given: RefCell::new(Some(given)),
    };
    let Some(rich) = rich else {
        let verdict = check_files(rt.alloc(), &held, paths, layout, output, told)?;
        found.note(verdict);
        return Ok(());
    };
    let mut gathered = Vec::new(rt.alloc());
    let verdict = check_files(rt.alloc(), &held, paths, layout, &mut gathered, told)?;
    found.note(verdict);
    let told_of = Told {
        layout,
        path: path.as_str(),
        text: &rich.body,
        remarks: &rich.remarks,
    };
    found.has_plain = put_rich(rt.alloc(), told_of, &gathered, output)? || found.has_plain;
    Ok(())
}

/// An output, and whether anything was written to it.
#[derive(Drop)]
struct Watched<W> {
    output: W,
    is_written: bool,
}

impl<W: Write> Write for Watched<W> {
    fn write(&mut self, bytes: &[u8]) -> io::Result<usize> {
        if !bytes.is_empty() {
            self.is_written = true;
        }
        self.output.write(bytes)
    }

    fn flush(&mut self) -> io::Result<()> {
        self.output.flush()
    }
}

/// A rich text that stands for one of the calculus.
#[derive(Drop)]
struct Rich {
    /// The text without its comments.
    body: Vec<u8>,
    remarks: Remarks,
}

/// What a file gives, and what is remarked of it, if it is rich.
#[derive(Drop)]
struct Looked {
    given: Given,
    rich: Option<Rich>,
}

impl Looked {
    /// What no rich text gives, or a refused one.
    fn plain(given: Given) -> Looked {
        Looked { given, rich: None }
    }
}

/// What was read of a file of the system, of whose bytes no clause speaks. It is given once.
#[derive(Drop)]
struct Held {
    given: RefCell<Option<Given>>,
}

impl Source for Held {
    ghost gives = { λ _ _ _. Unit {0} };

    fn give(&self, _alloc: Global, _path: &str) -> Result<Given, AllocError> {
        match self.given.try_borrow_mut() {
            Ok(mut given) => match given.take() {
                Some(given) => Ok(given),
                None => Err(AllocError),
            },
            Err(_) => Err(AllocError),
        }
    }
}

/// What the file of a path gives.
fn looked_at(rt: &HostRuntime, path: &str, asked: Asked) -> Result<Looked, AllocError> {
    let alloc = rt.alloc();
    let notes = Notes::new();
    match noted_bytes(rt, path, &notes) {
        Ok(Some(bytes)) => looked_in(rt, path, bytes, asked),
        Ok(None) => Ok(Looked::plain(Given::Unread(too_long(alloc, path)?))),
        Err(error) if error.kind() == io::ErrorKind::OutOfMemory => Err(AllocError),
        Err(_) => {
            let cause = cause_line(alloc, path.as_bytes(), notes.last())?;
            Ok(Looked::plain(Given::Unread(cause)))
        }
    }
}

/// What a file of this path gives that has these bytes.
fn looked_in(
    rt: &HostRuntime,
    path: &str,
    bytes: Vec<u8>,
    asked: Asked,
) -> Result<Looked, AllocError> {
    if asked.is_script {
        return Ok(Looked::plain(Given::Script(bytes)));
    }
    if !asked.is_rich && !is_rich_path(path) && !is_marked(&bytes) {
        return Ok(Looked::plain(Given::Text(bytes)));
    }
    let alloc = rt.alloc();
    let files = UsedFiles { rt, path };
    let several = Several::of(alloc, &bytes)?;
    let given = given_of(alloc, &bytes, &several, &files)?;
    if !matches!(given, Given::Text(_)) {
        return Ok(Looked::plain(given));
    }
    let remarks = if is_sound(alloc, &given)? {
        remarks_of(alloc, &bytes, &files)?
    } else {
        Remarks::new(alloc)
    };
    let body = several.body().to_vec(alloc)?;
    let rich = Rich { body, remarks };
    Ok(Looked {
        given,
        rich: Some(rich),
    })
}

/// What a rich text gives: what it is expanded to, or why it is refused. Of one with several configurations it is the first of these
/// that is refused, or has a fault, and else all of them, put into one.
fn given_of(
    alloc: Global,
    text: &[u8],
    several: &Several,
    files: &UsedFiles<'_>,
) -> Result<Given, AllocError> {
    if several.count() <= 1 {
        return given_alone(alloc, text, files);
    }
    if several.count() > MAX_SEVERAL {
        return Ok(Given::Refused(Refused {
            text: several.body().to_vec(alloc)?,
            at: several.place_of(MAX_SEVERAL),
            fault: TextFault::Limit,
            words: MANY.to_vec(alloc)?,
        }));
    }
    for number in 0..several.count() {
        let given = given_alone(alloc, &several.text_of(alloc, number)?, files)?;
        if !is_sound(alloc, &given)? {
            return Ok(given);
        }
    }
    let given = given_alone(alloc, &several.together(alloc)?, files)?;
    if is_sound(alloc, &given)? {
        Ok(given)
    } else {
        given_alone(alloc, &several.text_of(alloc, 0)?, files)
    }
}

/// What a rich text with one configuration gives.
fn given_alone(alloc: Global, text: &[u8], files: &UsedFiles<'_>) -> Result<Given, AllocError> {
    match expand_text(alloc, text, files) {
        Ok(plain) => Ok(Given::Text(plain.text)),
        Err(Unexpanded::Refused(refusal)) => Ok(Given::Refused(Refused {
            text: refusal.body,
            at: refusal.at,
            fault: refusal.fault,
            words: refusal.sentence,
        })),
        Err(Unexpanded::Memory) => Err(AllocError),
    }
}

/// Whether what is given is a text without a fault.
fn is_sound(alloc: Global, given: &Given) -> Result<bool, AllocError> {
    let Given::Text(text) = given else {
        return Ok(false);
    };
    match fault_of(alloc, text) {
        None => Ok(true),
        Some(TextFault::Memory) => Err(AllocError),
        Some(_) => Ok(false),
    }
}

/// The fault of a system or a configuration, if it has one.
fn fault_of(alloc: Global, text: &[u8]) -> Option<TextFault> {
    let first = text.iter().position(|byte| !is_blank(*byte));
    let is_config = text.get(first.unwrap_or(text.len())).copied() == Some(b'<');
    if is_config {
        match find_config(alloc, text) {
            Ok(_) => None,
            Err(misread) => Some(misread.fault),
        }
    } else {
        match find_system(alloc, text) {
            Ok(_) => None,
            Err(misread) => Some(misread.fault),
        }
    }
}

/// The bytes of the file of this path, or of standard input for `-`, or none where it has too many. A
/// call to it that fails is noted.
fn noted_bytes(rt: &HostRuntime, path: &str, notes: &Notes) -> io::Result<Option<Vec<u8>>> {
    if path == "-" {
        return read_limited(rt.alloc(), NotedInput::new(rt.reader(), notes));
    }
    let file = open_to_read(rt, path, notes)?;
    read_limited(rt.alloc(), file)
}

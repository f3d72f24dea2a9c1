//! What the words over a text read: standard input, or a file.

use crate::HostFile;
use ic_causes::{NotedFiles, NotedInput, Notes, Target, cause_line, shown_path};
use ic_exits::Failure;
use ic_expand::Opened;
use ic_streams::StreamFault;
use std::alloc::{AllocError, Global};
use std::fs::OpenOptions;
use std::io::{self, ErrorKind, IsTerminal, Read, Write};

/// What a word reads, of which each read that fails is noted.
#[derive(Drop)]
pub(crate) enum Input<'n, R> {
    Standard(NotedInput<'n, R>),
    File(HostFile<'n>),
}

impl<R: Read> Read for Input<'_, R> {
    fn read(&mut self, buf: &mut [u8]) -> io::Result<usize> {
        match self {
            Input::Standard(input) => input.read(buf),
            Input::File(file) => file.read(buf),
        }
    }
}

/// Whether the file of this path has a rich text, as its name says.
pub(crate) fn is_rich_path(path: &str) -> bool {
    path.ends_with(".rich")
}

/// What is told of a place in what a rich text is expanded to.
pub(crate) const OF_PLAIN: &[u8] =
    b"the line is the same in the rich text; `icserve expand` writes it as it is told here\n";

/// How a word ended that read a text. If it is a rich one, and what that is expanded to is refused, `told` tells the place in the
/// rich text, or says that it is one of what that is expanded to.
pub(crate) fn tell_of_plain<R>(
    opened: &Opened<R>,
    done: Result<(), Failure>,
    told: &mut Vec<u8>,
) -> Result<(), Failure> {
    let is_refused = matches!(done, Err(Failure::Stream(StreamFault::Text(_))));
    if is_refused && opened.is_expanded() {
        let alloc = *told.allocator();
        if !opened.retell(alloc, told).unwrap_or(false) {
            let _ = told.extend_from_slice(OF_PLAIN);
        }
    }
    done
}

/// What a terminal is told from which a text is read.
const AWAITED: &[u8] = b"icserve: a text is read from here; Ctrl-D on an empty line ends it\n";

/// Tells a terminal that a text is read from it.
pub(crate) fn tell_terminal(rt: &HostRuntime) {
    if rt.stdin().is_terminal() && rt.stderr().is_terminal() {
        let _ = rt.stderr().write_all(AWAITED);
    }
}

/// Opens the file of this path to read it. It may be a pipe, which is read to its end. A folder can be opened, and isn't
/// read. A call to it that fails is noted.
pub(crate) fn open_file<'n>(
    rt: &HostRuntime,
    path: &str,
    notes: &'n Notes,
) -> io::Result<HostFile<'n>> {
    let files = NotedFiles {
        rt,
        path,
        target: Target::File,
        notes,
    };
    let mut how = OpenOptions::new();
    how.read(true);
    how.open(&files, path)
}

/// The file of this path, opened to read a text from it.
pub(crate) fn open_text<'n>(
    rt: &HostRuntime,
    path: &str,
    notes: &'n Notes,
) -> Result<HostFile<'n>, StreamFault> {
    match open_file(rt, path, notes) {
        Ok(file) => Ok(file),
        Err(error) if error.kind() == ErrorKind::OutOfMemory => Err(StreamFault::Memory),
        Err(_) => Err(StreamFault::Read),
    }
}

/// What is told where a word over the file of this path fails: why the file can't be read, or of a refused text the lines
/// in `told`, which tell its place, after the name of the file.
pub(crate) fn told_of(
    alloc: Global,
    path: &str,
    failure: &Failure,
    notes: &Notes,
    told: &[u8],
) -> Result<Vec<u8>, AllocError> {
    match failure {
        Failure::Stream(StreamFault::Read) => cause_line(alloc, path.as_bytes(), notes.last()),
        Failure::Stream(StreamFault::Text(_)) => {
            let mut lines = shown_path(alloc, path.as_bytes())?;
            lines.extend_from_slice(b", ")?;
            lines.extend_from_slice(told)?;
            Ok(lines)
        }
        _ => told.to_vec(alloc),
    }
}

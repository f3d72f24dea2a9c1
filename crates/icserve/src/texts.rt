//! Texts in files, which have a bound on their length, and `expand`.

use crate::inspecting::open_to_read;
use crate::reducing::of_memory;
use crate::several::{configurations_of, out_of_memory};
use ic_causes::{NotedOutput, Notes, shown_path};
use ic_exits::Failure;
use ic_expand::{Files, Found, MAX_RICH_TEXT, Several, expand_stream};
use ic_streams::write_line;
use ic_text::is_blank;
use std::alloc::{AllocError, Global};
use std::env;
use std::io::{self, Read};

/// How many bytes a script, and a file that is checked, has at most: 64 lines of the greatest length.
const LIMIT: usize = 16_777_216;

/// What is said of a file that has more bytes.
const TOO_LONG: &[u8] = b": it has more than 16777216 bytes\n";

/// The bytes of a file, or none where it has more than the limit: of such a file no more are read
/// than one after the limit.
pub(crate) fn read_limited<R: Read + Drop>(alloc: Global, file: R) -> io::Result<Option<Vec<u8>>> {
    read_within(alloc, file, LIMIT)
}

/// The bytes of a file, or none where it has more than a limit.
fn read_within<R: Read + Drop>(
    alloc: Global,
    file: R,
    limit: usize,
) -> io::Result<Option<Vec<u8>>> {
    let mut text = Vec::new(alloc);
    match append_within(file, limit, &mut text) {
        Ok(true) => Ok(Some(text)),
        Ok(false) => Ok(None),
        Err(error) => Err(error),
    }
}

/// Appends the bytes of a file, as many as a limit and one more at most. It answers whether the file has no more than the
/// limit.
fn append_within<R: Read + Drop>(file: R, limit: usize, text: &mut Vec<u8>) -> io::Result<bool> {
    let count = file
        .take((limit as u64).saturating_add(1))
        .read_to_end(text)?;
    Ok(count <= limit)
}

/// The line that says of the file of this path that it has too many bytes.
pub(crate) fn too_long(alloc: Global, path: &str) -> Result<Vec<u8>, AllocError> {
    let mut line = shown_path(alloc, path.as_bytes())?;
    line.extend_from_slice(TOO_LONG)?;
    Ok(line)
}

/// The files that a text uses, from the folder in which it stands.
#[derive(Clone, Copy)]
pub(crate) struct UsedFiles<'a> {
    pub(crate) rt: &'a HostRuntime,
    /// Its path, or nothing.
    pub(crate) path: &'a str,
}

impl Files for UsedFiles<'_> {
    fn path(&self) -> &str {
        self.path
    }

    fn text_of(&self, alloc: Global, path: &[u8]) -> Result<Option<Vec<u8>>, AllocError> {
        let Ok(path) = str::from_utf8(path) else {
            return Ok(None);
        };
        let notes = Notes::new();
        let read = match open_to_read(self.rt, path, &notes) {
            Ok(file) => read_within(alloc, file, MAX_RICH_TEXT),
            Err(error) => Err(error),
        };
        match read {
            Ok(text) => Ok(text),
            Err(error) if error.kind() == io::ErrorKind::OutOfMemory => Err(AllocError),
            Err(_) => Ok(None),
        }
    }

    fn of_library(&self, alloc: Global, path: &[u8]) -> Result<Option<Found>, AllocError> {
        if !path.starts_with(b"lib/".as_slice()) {
            return Ok(None);
        }
        let Ok(program) = env::current_exe(self.rt) else {
            return Ok(None);
        };
        let program = program.as_str().as_bytes();
        for place in LIBRARIES {
            let path = library_path(alloc, program, place, path)?;
            if let Some(text) = self.text_of(alloc, &path)? {
                return Ok(Some(Found { path, text }));
            }
        }
        Ok(None)
    }
}

/// Where `lib/` stands: how many parts of the program's path are left out, and what follows. First as it is installed, and then
/// as it stands in a clone in which the program was built.
const LIBRARIES: [(usize, &[u8]); 3] = [(2, b"/share/icserve/"), (2, b"/"), (4, b"/")];

/// The path of a file of a library.
fn library_path(
    alloc: Global,
    program: &[u8],
    place: (usize, &[u8]),
    path: &[u8],
) -> Result<Vec<u8>, AllocError> {
    let mut folder = program;
    for _ in 0..place.0 {
        folder = parent_of(folder);
    }
    let mut full = folder.to_vec(alloc)?;
    full.extend_from_slice(place.1)?;
    full.extend_from_slice(path)?;
    Ok(full)
}

/// A path without its last part.
fn parent_of(path: &[u8]) -> &[u8] {
    for end in (0..path.len()).rev() {
        if path[end] == b'/' {
            return &path[..end];
        }
    }
    &path[..0]
}

/// Prints the text of the calculus for which a text stands. Where the text is refused, the lines that tell its place are
/// appended to `told`.
pub(crate) fn expand<R: Read>(
    rt: &HostRuntime,
    input: &mut R,
    files: &UsedFiles<'_>,
    notes: &Notes,
    told: &mut Vec<u8>,
) -> Result<(), Failure> {
    let mut output = NotedOutput::new(io::writer(rt), notes);
    expand_stream(rt.alloc(), input, &mut output, files, told).map_err(Failure::Stream)
}

/// Prints the text of the calculus for which a text stands, and for one with several configurations that of each, on a line of its
/// own.
pub(crate) fn expand_each(
    rt: &HostRuntime,
    text: &[u8],
    files: &UsedFiles<'_>,
    notes: &Notes,
    told: &mut Vec<u8>,
) -> Result<(), Failure> {
    let several = configurations_of(rt.alloc(), text, told)?;
    if several.count() <= 1 {
        let mut input = text;
        return expand(rt, &mut input, files, notes, told);
    }
    let mut output = NotedOutput::new(io::writer(rt), notes);
    for number in 0..several.count() {
        let line = expanded_line(rt.alloc(), &several, number, files, told)?;
        write_line(&mut output, &line).map_err(Failure::Stream)?;
    }
    Ok(())
}

/// The text of the calculus of one configuration, on a line.
fn expanded_line(
    alloc: Global,
    several: &Several,
    number: usize,
    files: &UsedFiles<'_>,
    told: &mut Vec<u8>,
) -> Result<Vec<u8>, Failure> {
    let text = several.text_of(alloc, number).map_err(out_of_memory)?;
    let mut input = text.as_slice();
    let mut plain = Vec::new(alloc);
    let expanded = expand_stream(alloc, &mut input, &mut plain, files, told);
    expanded.map_err(of_memory).map_err(Failure::Stream)?;
    on_a_line(alloc, &plain).map_err(out_of_memory)
}

/// A text on a line: blanks in a row, and ends of lines, are one blank.
fn on_a_line(alloc: Global, text: &[u8]) -> Result<Vec<u8>, AllocError> {
    let mut line = Vec::new(alloc);
    let mut is_due = false;
    for byte in text {
        if is_blank(*byte) {
            is_due = true;
        } else {
            if is_due && !line.is_empty() {
                line.push(b' ')?;
            }
            is_due = false;
            line.push(*byte)?;
        }
    }
    line.push(b'\n')?;
    Ok(line)
}

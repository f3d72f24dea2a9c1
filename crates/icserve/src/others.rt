//! Files that are others than they were taken for: what they are, as far as their first bytes tell.

use crate::inspecting::open_to_read_as;
use ic_causes::{Notes, Target, shown_path};
use ic_exits::Other;
use ic_frames::HEAD;
use ic_kept::HEAD as KEPT_HEAD;
use ic_state::{BY_ROUNDS, FORMAT, NARROW_FORMAT};
use std::io::{self, Read};

/// How many bytes of a file are looked at: the 17 of the head of a file that keeps a reduction, and the 8 with which its
/// state begins.
const FRONT: u64 = 25;

/// What is said of a file in place of the second one of a reduction.
const NO_SECOND: &[u8] =
    b": no `--keep` made this second file: move it away, and resume with `--from-one-file`\n";

/// What a file is that keeps no reduction, and that a keep would write over.
#[derive(Clone, Copy)]
pub(crate) enum Another {
    /// A disk with a table of jobs.
    Jobs,
    /// A text, a picture or the like.
    Else,
}

impl Another {
    /// It in words.
    pub(crate) fn words(self) -> &'static str {
        match self {
            Another::Jobs => "a disk of jobs",
            Another::Else => "another file",
        }
    }
}

/// What a file is that begins with these bytes, where they tell that it keeps no reduction.
pub(crate) fn another_of(front: &[u8]) -> Option<Another> {
    if is_of_reduction(front) {
        None
    } else if holds_table(front) {
        Some(Another::Jobs)
    } else if has_no_numbers(front) {
        Some(Another::Else)
    } else {
        None
    }
}

/// What the file of this path is, where that is known and it is no disk.
pub(crate) fn other_at(rt: &HostRuntime, path: &str) -> Option<Other> {
    let front = front_of(rt, path)?;
    if is_of_reduction(&front) {
        Some(Other::Reduction)
    } else if is_of_text(&front) {
        Some(Other::Text)
    } else {
        None
    }
}

/// Whether the second file of a reduction whose first file has this path is there, and a keep into it has ended.
pub(crate) fn has_second(rt: &HostRuntime, path: &str) -> bool {
    let Ok(second) = format!(in rt.alloc(); "{path}.2") else {
        return false;
    };
    match front_of(rt, second.as_str()) {
        Some(front) => is_of_reduction(&front) && front.starts_with(&[1]),
        None => false,
    }
}

/// What the file of this path is, where that is known and it isn't the first file of a reduction.
pub(crate) fn no_first_at(rt: &HostRuntime, path: &str) -> Option<Other> {
    if is_stranger(rt, path) {
        Some(Other::Stranger)
    } else if is_second(rt, path) {
        Some(Other::Second)
    } else {
        None
    }
}

/// Whether the file of this path is known to be the second one of a reduction: its path is that of a first one, and then `.2`.
pub(crate) fn is_second(rt: &HostRuntime, path: &str) -> bool {
    let Some(first) = path.strip_suffix(".2") else {
        return false;
    };
    match front_of(rt, first) {
        Some(front) => is_of_reduction(&front),
        None => false,
    }
}

/// Whether the file of this path is known to be none that keeps a reduction.
fn is_stranger(rt: &HostRuntime, path: &str) -> bool {
    match front_of(rt, path) {
        Some(front) => {
            !is_of_reduction(&front) && (has_no_gate(&front) || another_of(&front).is_some())
        }
        None => false,
    }
}

/// Whether the first byte of a file that begins with these bytes is no gate.
fn has_no_gate(front: &[u8]) -> bool {
    match front.first() {
        Some(gate) => *gate > 1,
        None => false,
    }
}

/// Whether no keep has written the numbers of a head in a file that begins with these bytes: one of them would be 2^56 or more.
/// A stop may leave any bytes for a number only once its file has a whole state, and then it is known by this.
fn has_no_numbers(front: &[u8]) -> bool {
    is_set(front, 1) || is_set(front, 9)
}

/// Whether another byte than zero stands at this place.
fn is_set(front: &[u8], at: usize) -> bool {
    match front.get(at) {
        Some(byte) => *byte > 0,
        None => false,
    }
}

/// Whether the first slot of a disk that begins with these bytes holds a table of jobs.
pub(crate) fn holds_table(front: &[u8]) -> bool {
    match front.get(HEAD..) {
        Some(body) => body.starts_with(b"ICT1") || body.starts_with(b"ICT2"),
        None => false,
    }
}

/// Whether a file that begins with these bytes keeps a reduction: after its head stands that which a state begins with.
pub(crate) fn is_of_reduction(front: &[u8]) -> bool {
    let Some(state) = front.get(KEPT_HEAD as usize..) else {
        return false;
    };
    for form in [NARROW_FORMAT, FORMAT, BY_ROUNDS] {
        if state.starts_with(form.to_be_bytes().as_slice()) {
            return true;
        }
    }
    false
}

/// The bytes with which the file of this path begins, or none where it can't be read.
fn front_of(rt: &HostRuntime, path: &str) -> Option<Vec<u8>> {
    front_of_as(rt, path, Target::File, &Notes::new()).ok()
}

/// The same, where calls to the file that fail are noted as of this target.
pub(crate) fn front_of_as(
    rt: &HostRuntime,
    path: &str,
    target: Target,
    notes: &Notes,
) -> io::Result<Vec<u8>> {
    let file = open_to_read_as(rt, path, target, notes)?;
    let mut front = Vec::new(rt.alloc());
    file.take(FRONT).read_to_end(&mut front)?;
    Ok(front)
}

/// The line that the second file of a reduction is another one, where the first file has this path and that is known.
pub(crate) fn other_second(rt: &HostRuntime, path: &str) -> Option<Vec<u8>> {
    let second = format!(in rt.alloc(); "{path}.2").ok()?;
    let front = front_of(rt, second.as_str())?;
    another_of(&front)?;
    let path = shown_path(rt.alloc(), second.as_str().as_bytes()).ok()?;
    let mut line = Vec::new(rt.alloc());
    line.extend_from_slice(&path).ok()?;
    line.extend_from_slice(NO_SECOND).ok()?;
    Some(line)
}

/// Whether a file that begins with these bytes is a text: its characters are blanks, or printed. The last of them may be cut.
fn is_of_text(front: &[u8]) -> bool {
    for byte in front {
        if !is_of_texts(*byte) {
            return false;
        }
    }
    for cut in 0..4 {
        if is_utf8(&front[..front.len().saturating_sub(cut)]) {
            return true;
        }
    }
    false
}

/// Whether bytes are some characters of UTF-8.
fn is_utf8(bytes: &[u8]) -> bool {
    !bytes.is_empty() && str::from_utf8(bytes).is_ok()
}

/// Whether a byte stands in texts: a blank, one that is printed, or one of several of a character.
fn is_of_texts(byte: u8) -> bool {
    byte == b'\t' || byte == b'\n' || byte == b'\r' || byte >= b' ' && byte != 127
}

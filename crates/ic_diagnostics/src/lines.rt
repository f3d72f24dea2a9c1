//! A place of a text told in lines.

ghost use Rattle.std.specs.Prelude.{◌≤◌, length};

use crate::shown::{SHOWN_AFTER, shown_after, shown_before};
use crate::words::trimmed;
use std::alloc::{AllocError, Global};

/// The number of the line in which a text ends, from 1.
pub fn line_number(front: &[u8]) -> usize {
    let mut number = 1usize;
    for byte in front {
        if *byte == b'\n' {
            number = number.saturating_add(1);
        }
    }
    number
}

/// The line in which a text ends, as far as it goes.
pub fn last_line(front: &[u8]) -> &[u8] {
    for place in (0..front.len()).rev() {
        if front[place] == b'\n' {
            return &front[place + 1..];
        }
    }
    front
}

/// The line with which a text begins: it ends at LF, or at CR and LF.
fn first_line(rest: &[u8]) -> &[u8] {
    for place in 0..rest.len() {
        let (line, end) = rest.split_at(place);
        if end.starts_with(b"\n".as_slice()) || end.starts_with(b"\r\n".as_slice()) {
            return line;
        }
    }
    rest
}

/// As much of the line with which a text begins as is shown of it.
fn line_after(rest: &[u8]) -> &[u8] {
    first_line(&rest[..rest.len().min(SHOWN_AFTER + 2)])
}

/// The number of the character, after a front of its line, at which a place is, from 1.
pub fn column(line: &[u8]) -> usize {
    line.iter()
        .filter(|byte| **byte < 128 || **byte >= 192)
        .count()
        + 1
}

/// Appends the line and the column of a place, where these bytes stand before it.
fn put_head(alloc: Global, front: &[u8], lines: &mut Vec<u8>) -> Result<(), AllocError> {
    let line = line_number(front);
    let column = column(last_line(front));
    let head = format!(in alloc; "line {line}, column {column}\n")?;
    lines.extend_from_slice(head.as_bytes())
}

/// Appends the line of a place, and a mark under it.
fn put_picture(
    alloc: Global,
    before: &[u8],
    after: &[u8],
    lines: &mut Vec<u8>,
) -> Result<(), AllocError> {
    let before = shown_before(alloc, before)?;
    let after = shown_after(alloc, after)?;
    let blanks = vec![in alloc; b' '; before.len()]?;
    lines.extend_from_slice(b"    ")?;
    lines.extend_from_slice(&before)?;
    lines.extend_from_slice(&after)?;
    lines.extend_from_slice(b"\n    ")?;
    lines.extend_from_slice(&blanks)?;
    lines.extend_from_slice(b"^\n")
}

/// Where a place is told: one at the end of a text right after its last byte that is no blank, any other one where it
/// is.
pub fn told_at(text: &[u8], at: usize) -> usize
    ensures within { result ≤ length text.now }
{
    if at < text.len() {
        at
    } else {
        trimmed(text).len()
    }
}

/// A place of a text, told in lines: its line and column, as editors count them; the line, with a mark under the place;
/// and a sentence. A line end is LF or CR and LF, and a character is one of UTF-8.
pub fn place_lines(
    alloc: Global,
    text: &[u8],
    at: usize,
    sentence: &[u8],
) -> Result<Vec<u8>, AllocError> {
    let (front, rest) = text.split_at(told_at(text, at));
    let mut lines = Vec::new(alloc);
    put_head(alloc, front, &mut lines)?;
    put_picture(alloc, last_line(front), line_after(rest), &mut lines)?;
    lines.extend_from_slice(sentence)?;
    lines.push(b'\n')?;
    Ok(lines)
}

//! What `check` prints of a rich text: what is remarked of it, and what is found in its plain text, but for rules of files.

use ic_check::{Layout, put_warning};
use ic_expand::{Borrowed, Pair, Remarks};
use ic_output::write_flushed;
use ic_streams::StreamFault;
use std::alloc::{AllocError, Global};
use std::io::Write;

/// What is said of a `use` none of whose rules is used.
const UNUSED: &[u8] = b"no rule of this file is ever used";

/// A rich text that is told of.
#[derive(Clone, Copy)]
pub(crate) struct Told<'a> {
    pub(crate) layout: Layout,
    pub(crate) path: &'a str,
    /// The text without its comments.
    pub(crate) text: &'a [u8],
    pub(crate) remarks: &'a Remarks,
}

/// What stands before the end of a line, if it ends so.
fn before_end<'a>(line: &'a [u8], end: &[u8]) -> Option<&'a [u8]> {
    let (front, rest) = line.split_at(line.len().saturating_sub(end.len()));
    (rest == end).then_some(front)
}

/// The two symbols of a rule of which a line tells that it is never used.
fn unused_pair(line: &[u8]) -> Option<(&[u8], &[u8])> {
    let line = before_end(line, b"\"}".as_slice()).unwrap_or(line);
    let line = before_end(line, b", is never used".as_slice())?;
    sides_of(last_word(line))
}

/// What follows the last blank of a line.
fn last_word(line: &[u8]) -> &[u8] {
    for place in (0..line.len()).rev() {
        if line[place] == b' ' {
            return &line[place + 1..];
        }
    }
    &[]
}

/// The two symbols of a pair such as `A><B`.
fn sides_of(pair: &[u8]) -> Option<(&[u8], &[u8])> {
    for (place, byte) in pair.iter().enumerate() {
        if *byte == b'>' {
            let (one, rest) = pair.split_at(place);
            let (_, other) = rest.split_at(rest.len().min(2));
            return Some((one, other));
        }
    }
    None
}

/// Whether this may be the symbol of a side.
fn is_side(side: &[u8], symbol: &[u8]) -> bool {
    side.is_empty() || side == symbol
}

/// Whether a rule has these two symbols.
fn is_of(pair: &Pair, one: &[u8], other: &[u8]) -> bool {
    let (first, second) = (pair.one.as_slice(), pair.other.as_slice());
    (is_side(first, one) && is_side(second, other))
        || (is_side(first, other) && is_side(second, one))
}

/// Whether it isn't told of a rule that it is never used: it is one of a file, or of a copier or an eraser that is told of itself.
fn is_quiet(remarks: &Remarks, one: &[u8], other: &[u8]) -> bool {
    for symbol in &remarks.generic {
        if symbol.as_slice() == one || symbol.as_slice() == other {
            return true;
        }
    }
    for borrowed in &remarks.borrowed {
        if has_rule(borrowed, one, other) {
            return true;
        }
    }
    false
}

/// Whether a rule with these two symbols comes by a `use`.
fn has_rule(borrowed: &Borrowed, one: &[u8], other: &[u8]) -> bool {
    for pair in &borrowed.pairs {
        if is_of(pair, one, other) {
            return true;
        }
    }
    false
}

/// Whether some line tells of a rule with the symbols of a pair that it is never used.
fn is_unused(lines: &[&[u8]], pair: &Pair) -> bool {
    for line in lines {
        if let Some((one, other)) = unused_pair(line) {
            if is_of(pair, one, other) {
                return true;
            }
        }
    }
    false
}

/// Whether all rules of a file are never used.
fn are_unused(lines: &[&[u8]], borrowed: &Borrowed) -> bool {
    for pair in &borrowed.pairs {
        if !is_unused(lines, pair) {
            return false;
        }
    }
    !borrowed.pairs.is_empty()
}

/// The lines of a text.
fn lines_of(alloc: Global, text: &[u8]) -> Result<Vec<&[u8]>, AllocError> {
    let mut lines = Vec::new(alloc);
    let mut from = 0usize;
    for (place, byte) in text.iter().enumerate() {
        if *byte == b'\n' {
            let (front, _) = text.split_at(place);
            let (_, line) = front.split_at(from.min(front.len()));
            lines.push(line)?;
            from = place.saturating_add(1);
        }
    }
    Ok(lines)
}

/// Prints what is remarked of a rich text, and these findings of its plain text. It answers whether one of these is printed.
pub(crate) fn put_rich<W: Write>(
    alloc: Global,
    told: Told<'_>,
    findings: &[u8],
    output: &mut W,
) -> Result<bool, StreamFault> {
    let lines = lines_of(alloc, findings)?;
    let mut remarks = remarks_in(alloc, told, &lines)?;
    let mut plain = Vec::new(alloc);
    for line in &lines {
        let is_left_out = match unused_pair(line) {
            Some((one, other)) => is_quiet(told.remarks, one, other),
            None => false,
        };
        if !is_left_out {
            plain.extend_from_slice(line)?;
            plain.push(b'\n')?;
        }
    }
    remarks.extend_from_slice(&plain)?;
    match write_flushed(output, &remarks) {
        Ok(()) => Ok(!plain.is_empty()),
        Err(_) => Err(StreamFault::Write),
    }
}

/// What is remarked of a rich text, of whose plain text these lines tell.
fn remarks_in(alloc: Global, told: Told<'_>, lines: &[&[u8]]) -> Result<Vec<u8>, AllocError> {
    let (mut out, layout, path) = (Vec::new(alloc), told.layout, told.path);
    for remark in &told.remarks.list {
        put_warning(
            alloc,
            layout,
            path,
            told.text,
            remark.at,
            &remark.words,
            &mut out,
        )?;
    }
    for borrowed in &told.remarks.borrowed {
        if are_unused(lines, borrowed) {
            put_warning(
                alloc,
                layout,
                path,
                told.text,
                borrowed.at,
                UNUSED,
                &mut out,
            )?;
        }
    }
    Ok(out)
}

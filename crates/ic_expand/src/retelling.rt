//! Telling a refusal of what a rich text is expanded to at its place in that text.

use crate::opening::Opened;
use crate::several::{after_last, part_of};
use ic_diagnostics::place_lines;
use std::alloc::{AllocError, Global};

/// A place that is told in the last four lines of a text: its line and column, the line, a mark under it, and a sentence.
#[derive(Clone, Copy)]
struct Told<'t> {
    /// Where the four lines begin.
    start: usize,
    line: usize,
    column: usize,
    sentence: &'t [u8],
}

/// A text before its last line, and that line, both without the ends of their lines.
fn split_last(text: &[u8]) -> (&[u8], &[u8]) {
    let from = after_last(text, b'\n').min(text.len());
    let (front, line) = text.split_at(from);
    (part_of(front, 0, from.saturating_sub(1)), line)
}

/// The number with which a text begins, and what follows it.
fn split_number(text: &[u8]) -> (usize, &[u8]) {
    let mut number = 0usize;
    for (place, byte) in text.iter().enumerate() {
        if !byte.is_ascii_digit() {
            return (number, &text[place..]);
        }
        let digit = usize::from(byte.saturating_sub(b'0'));
        number = number.saturating_mul(10).saturating_add(digit);
    }
    (number, &text[text.len()..])
}

impl Told<'_> {
    /// The place that is told last.
    fn of(told: &[u8]) -> Option<Told<'_>> {
        let text = told.strip_suffix(b"\n".as_slice())?;
        let (front, sentence) = split_last(text);
        let (front, _) = split_last(front);
        let (front, _) = split_last(front);
        let (_, head) = split_last(front);
        let (line, rest) = split_number(head.strip_prefix(b"line ".as_slice())?);
        let (column, _) = split_number(rest.strip_prefix(b", column ".as_slice())?);
        Some(Told {
            start: front.len().saturating_sub(head.len()),
            line,
            column,
            sentence,
        })
    }
}

/// Where the line with this number, from 1, begins in a text.
fn line_start(text: &[u8], line: usize) -> usize {
    let mut before = line.saturating_sub(1);
    for (place, byte) in text.iter().enumerate() {
        if before == 0 {
            return place;
        }
        if *byte == b'\n' {
            before -= 1;
        }
    }
    text.len()
}

/// The place of a column of a text, which counts characters from 1.
fn column_place(text: &[u8], column: usize) -> usize {
    let mut before = column;
    for (place, byte) in text.iter().enumerate() {
        if *byte < 128 || *byte >= 192 {
            before = before.saturating_sub(1);
        }
        if before == 0 {
            return place;
        }
    }
    text.len()
}

/// The place of a line and a column of a text.
fn place_of(text: &[u8], line: usize, column: usize) -> usize {
    let start = line_start(text, line);
    let (_, rest) = text.split_at(start.min(text.len()));
    start.saturating_add(column_place(rest, column))
}

impl<R> Opened<R> {
    /// Tells the place in the rich text in place of the last one that is told, which is one of what that is expanded to, and in its
    /// words. It answers whether that is done: not if it isn't rich, or what comes of it is told as it is.
    pub fn retell(&self, alloc: Global, told: &mut Vec<u8>) -> Result<bool, AllocError> {
        let Opened::Rich(text, Some(wording)) = self else {
            return Ok(false);
        };
        let Some(last) = Told::of(told) else {
            return Ok(false);
        };
        let plain = text.get_ref();
        let (start, at) = (last.start, place_of(plain, last.line, last.column));
        let Some(refused) = wording.retold(alloc, plain, at, last.sentence)? else {
            return Ok(false);
        };
        let lines = place_lines(alloc, &refused.text, refused.at, &refused.sentence)?;
        told.truncate(start);
        told.extend_from_slice(&lines)?;
        Ok(true)
    }
}

//! The configurations of a text put into one, of which they are parts, with names of its own for each.

use crate::pieces::{first_byte, split_piece};
use crate::several::{Several, after_rules, part_of};
use crate::words::Words;
use ic_text::is_blank;
use std::alloc::{AllocError, Global};

/// Where the interface of a configuration ends: at the first `|` that stands in no list.
fn interface_end(inner: &[u8]) -> usize {
    let mut depth = 0u64;
    for (place, byte) in inner.iter().enumerate() {
        match *byte {
            b'[' => depth = depth.saturating_add(1),
            b']' => depth = depth.saturating_sub(1),
            b'|' if depth == 0 => return place,
            _ => {}
        }
    }
    inner.len()
}

/// A list of terms or equations without blanks, and without a `,`, at its end.
fn trimmed(list: &[u8]) -> &[u8] {
    for place in (0..list.len()).rev() {
        let byte = list[place];
        if byte == b',' {
            return part_of(list, 0, place);
        }
        if !is_blank(byte) {
            return part_of(list, 0, place.saturating_add(1));
        }
    }
    part_of(list, 0, 0)
}

/// How many `_` stand in a row in a text at most.
fn longest_row(text: &[u8]) -> usize {
    let (mut row, mut most) = (0usize, 0usize);
    for byte in text {
        row = if *byte == b'_' {
            row.saturating_add(1)
        } else {
            0
        };
        most = most.max(row);
    }
    most
}

/// The names that `let` gives in a text without rules.
fn add_lets<'t>(text: &'t [u8], lets: &mut Words<'t>) -> Result<(), AllocError> {
    let mut is_next = false;
    let mut rest = text;
    while !rest.is_empty() {
        let (piece, more) = split_piece(rest);
        if !is_blank(first_byte(piece)) {
            if is_next {
                lets.add(piece)?;
            }
            is_next = piece == b"let".as_slice();
        }
        rest = more;
    }
    Ok(())
}

/// What is written after each name of a configuration, so that it is one of this alone.
fn mark_of(alloc: Global, row: usize, number: usize) -> Result<Vec<u8>, AllocError> {
    let mut mark = vec![in alloc; b'_'; row.saturating_add(1)]?;
    mark.extend_from_slice(number.to_string(alloc)?.as_bytes())?;
    Ok(mark)
}

/// Appends a list of terms or equations, after a `,` if something stands before it. After each name that isn't one of these its
/// mark is written.
fn put_list(list: &[u8], lets: &Words, mark: &[u8], out: &mut Vec<u8>) -> Result<(), AllocError> {
    let mut rest = trimmed(list);
    if !out.is_empty() && !rest.is_empty() {
        out.push(b',')?;
    }
    while !rest.is_empty() {
        let (piece, more) = split_piece(rest);
        out.extend_from_slice(piece)?;
        if first_byte(piece).is_ascii_lowercase() && !lets.has(piece) {
            out.extend_from_slice(mark)?;
        }
        rest = more;
    }
    Ok(())
}

/// The terms and the equations of configurations.
#[derive(Drop)]
struct Lists {
    interface: Vec<u8>,
    equations: Vec<u8>,
}

impl Lists {
    /// Appends those of a configuration, without its `<` and `>`.
    fn add(&mut self, inner: &[u8], lets: &Words, mark: &[u8]) -> Result<(), AllocError> {
        let at = interface_end(inner);
        put_list(part_of(inner, 0, at), lets, mark, &mut self.interface)?;
        let equations = part_of(inner, at.saturating_add(1), inner.len());
        put_list(equations, lets, mark, &mut self.equations)
    }

    /// Appends the configuration that has them.
    fn put(&self, out: &mut Vec<u8>) -> Result<(), AllocError> {
        out.push(b'<')?;
        out.extend_from_slice(&self.interface)?;
        out.push(b'|')?;
        out.extend_from_slice(&self.equations)?;
        Ok(out.push(b'>')?)
    }
}

impl Several {
    /// The rules, each `let`, and one configuration of which all are parts.
    pub fn together(&self, alloc: Global) -> Result<Vec<u8>, AllocError> {
        let mut out = part_of(&self.body, 0, self.place_of(0)).to_vec(alloc)?;
        let mut lists = Lists {
            interface: Vec::new(alloc),
            equations: Vec::new(alloc),
        };
        let mut lets = Words::new(alloc);
        let front = part_of(&self.body, after_rules(&self.body), self.place_of(0));
        add_lets(front, &mut lets)?;
        let row = longest_row(&self.body);
        for (number, net) in self.nets.iter().enumerate() {
            let inner = part_of(
                &self.body,
                net.from.saturating_add(1),
                net.end.saturating_sub(1),
            );
            let mark = mark_of(alloc, row, number)?;
            lists.add(inner, &lets, &mark)?;
            let next = self.place_of(number.saturating_add(1));
            let more = part_of(&self.body, net.after, next);
            add_lets(more, &mut lets)?;
            out.extend_from_slice(more)?;
        }
        lists.put(&mut out)?;
        Ok(out)
    }
}

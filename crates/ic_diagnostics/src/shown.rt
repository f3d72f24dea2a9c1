//! The line of a place as it is shown: cut around the place, and with bytes that every terminal takes.

use ic_text::is_blank;
use std::alloc::{AllocError, Global};

/// How many bytes before the place are shown.
const BEFORE: usize = 60;

/// How many bytes from the place on are shown.
pub(crate) const SHOWN_AFTER: usize = 20;

/// What stands where bytes are left out.
const DOTS: &[u8] = b"...";

/// A byte as it is shown.
fn shown(byte: u8) -> u8 {
    match byte {
        _ if is_blank(byte) => b' ',
        32..=126 => byte,
        _ => b'?',
    }
}

/// Appends bytes as they are shown.
fn put_shown(bytes: &[u8], line: &mut Vec<u8>) -> Result<(), AllocError> {
    for byte in bytes {
        line.push(shown(*byte))?;
    }
    Ok(())
}

/// A line before the place, as it is shown.
pub(crate) fn shown_before(alloc: Global, line: &[u8]) -> Result<Vec<u8>, AllocError> {
    let mut before = Vec::new(alloc);
    if line.len() <= BEFORE {
        put_shown(line, &mut before)?;
    } else {
        before.extend_from_slice(DOTS)?;
        put_shown(&line[line.len() - (BEFORE - 3)..], &mut before)?;
    }
    Ok(before)
}

/// A line from the place on, as it is shown.
pub(crate) fn shown_after(alloc: Global, line: &[u8]) -> Result<Vec<u8>, AllocError> {
    let mut after = Vec::new(alloc);
    if line.len() <= SHOWN_AFTER {
        put_shown(line, &mut after)?;
    } else {
        put_shown(&line[..SHOWN_AFTER - 3], &mut after)?;
        after.extend_from_slice(DOTS)?;
    }
    Ok(after)
}

//! The bytes that a text of a row stands for.
//!
//! `[4095 ,A=A]` stands for `,A=A` so many times; in it `#` is the number of the time, from 1, and `^` the one after
//! it. `~n`, `~t`, `~r` stand for the blanks of these names, and `~` with two hexadecimal digits for that byte.

use std::alloc::{AllocError, Global};

/// The bytes that a text stands for.
pub fn expanded(alloc: Global, text: &str) -> Result<Vec<u8>, AllocError> {
    let mut bytes = Vec::new(alloc);
    for part in text.split('[') {
        match part.split_once(']') {
            Some((repeat, rest)) => {
                repeated(&mut bytes, repeat)?;
                unescaped(&mut bytes, rest)?;
            }
            None => unescaped(&mut bytes, part)?,
        }
    }
    Ok(bytes)
}

/// Adds a piece so many times.
fn repeated(bytes: &mut Vec<u8>, repeat: &str) -> Result<(), AllocError> {
    let (count, piece) = repeat.split_once(' ').unwrap_or(("1", repeat));
    for time in 0..u32::from_str_radix(count, 10).unwrap_or(0) {
        numbered(bytes, piece, u64::from(time) + 1)?;
    }
    Ok(())
}

/// Adds a piece with a number in it.
fn numbered(bytes: &mut Vec<u8>, piece: &str, number: u64) -> Result<(), AllocError> {
    for byte in piece.as_bytes() {
        match byte {
            b'#' => decimal(bytes, number)?,
            b'^' => decimal(bytes, number.saturating_add(1))?,
            _ => bytes.push(*byte)?,
        }
    }
    Ok(())
}

/// Adds a number in decimal.
pub fn decimal(bytes: &mut Vec<u8>, number: u64) -> Result<(), AllocError> {
    let text = format!(in *bytes.allocator(); "{number}")?;
    bytes.extend_from_slice(text.as_bytes())
}

/// Adds a text with its escapes replaced.
fn unescaped(bytes: &mut Vec<u8>, text: &str) -> Result<(), AllocError> {
    for (place, part) in text.split('~').enumerate() {
        let rest = if place == 0 {
            part
        } else {
            escaped(bytes, part)?
        };
        bytes.extend_from_slice(rest.as_bytes())?;
    }
    Ok(())
}

/// Adds the byte of an escape, and answers what follows it.
fn escaped<'a>(bytes: &mut Vec<u8>, part: &'a str) -> Result<&'a str, AllocError> {
    for (letter, byte) in [("n", b'\n'), ("t", b'\t'), ("r", b'\r')] {
        if let Some(rest) = part.strip_prefix(letter) {
            bytes.push(byte)?;
            return Ok(rest);
        }
    }
    let (digits, rest) = part.split_at_checked(2).unwrap_or((part, ""));
    bytes.push(u8::from_str_radix(digits, 16).unwrap_or(0))?;
    Ok(rest)
}

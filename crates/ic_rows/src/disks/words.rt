//! Numbers and bytes in the words of a script.

use ic_notation::{bytes_of, expanded};
use std::alloc::{AllocError, Global};

/// The first word of a text, and what follows it.
pub fn first_of(text: &str) -> (&str, &str) {
    text.split_once(' ').unwrap_or((text, ""))
}

/// A number in decimal, or 0.
pub fn number(text: &str) -> u64 {
    u64::from_str_radix(text, 10).unwrap_or(0)
}

/// A number, and what follows it.
pub fn number_and_rest(text: &str) -> (u64, &str) {
    let (first, rest) = first_of(text);
    (number(first), rest)
}

/// A byte in decimal.
pub fn byte(text: &str) -> u8 {
    (number(text) % 256) as u8
}

/// The bytes of a text: two hexadecimal digits each, `[COUNT DIGITS]` so many times and `-` for none.
pub fn body_of(alloc: Global, text: &str) -> Result<Vec<u8>, AllocError> {
    bytes_of(alloc, &expanded(alloc, text)?)
}

//! Bytes in hexadecimal digits.

use std::alloc::{AllocError, Global};

/// The bytes of a text of two hexadecimal digits each. Other letters are passed over, as blanks are.
pub fn bytes_of(alloc: Global, text: &[u8]) -> Result<Vec<u8>, AllocError> {
    let mut bytes = Vec::new(alloc);
    let mut first = None;
    for letter in text {
        let Some(digit) = char::from(*letter).to_digit(16) else {
            continue;
        };
        match first {
            None => first = Some(digit),
            Some(high) => {
                bytes.push(u8::try_from(high.wrapping_mul(16).wrapping_add(digit)).unwrap_or(0))?;
                first = None;
            }
        }
    }
    Ok(bytes)
}

/// Bytes in hexadecimal digits, two for each.
pub fn digits_of(alloc: Global, bytes: &[u8]) -> Result<Vec<u8>, AllocError> {
    let mut line = Vec::new(alloc);
    for byte in bytes {
        line.extend_from_slice(format!(in alloc; "{byte:02x}")?.as_bytes())?;
    }
    Ok(line)
}

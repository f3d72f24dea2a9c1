//! Words and bytes on the two sides of a place.

ghost use Rattle.std.specs.Prelude.{◌≤◌, length};

use ic_text::{is_blank, is_numeral, is_word_byte};

/// The word with which a text begins, or nothing.
pub fn first_word(text: &[u8]) -> &[u8] {
    for (place, byte) in text.iter().enumerate() {
        if !is_word_byte(*byte) {
            return &text[..place];
        }
    }
    text
}

/// What follows the word with which a text begins.
pub(crate) fn after_word(text: &[u8]) -> &[u8] {
    for (place, byte) in text.iter().enumerate() {
        if !is_word_byte(*byte) {
            return &text[place..];
        }
    }
    &[]
}

/// The word with which a text ends, or nothing.
pub(crate) fn last_word(text: &[u8]) -> &[u8] {
    for place in (0..text.len()).rev() {
        if !is_word_byte(text[place]) {
            return &text[place + 1..];
        }
    }
    text
}

/// A text as far as its last byte that is no blank.
pub(crate) fn trimmed(text: &[u8]) -> &[u8]
    ensures { length result.now ≤ length text.now }
{
    for place in (0..text.len()).rev() {
        if !is_blank(text[place]) {
            return &text[..place + 1];
        }
    }
    &text[..0]
}

/// The last byte of a text that is no blank.
pub(crate) fn last_byte(front: &[u8]) -> Option<u8> {
    trimmed(front).last().copied()
}

/// The first byte of a text that is no blank.
pub(crate) fn first_byte(text: &[u8]) -> Option<u8> {
    for byte in text {
        if !is_blank(*byte) {
            return Some(*byte);
        }
    }
    None
}

/// A text from its first byte on that is no blank.
pub(crate) fn without_blanks(text: &[u8]) -> &[u8] {
    for (place, byte) in text.iter().enumerate() {
        if !is_blank(*byte) {
            return &text[place..];
        }
    }
    &[]
}

/// Whether these bytes are blanks.
pub(crate) fn are_blank(text: &[u8]) -> bool {
    for byte in text {
        if !is_blank(*byte) {
            return false;
        }
    }
    true
}

/// Whether a word begins as names do.
pub(crate) fn begins_as_name(word: &[u8]) -> bool {
    match word.first() {
        Some(byte) => byte.is_ascii_lowercase(),
        None => false,
    }
}

/// Whether a word begins with a small letter, as names do, and isn't one.
pub(crate) fn is_misnamed(word: &[u8]) -> bool {
    match word.split_first() {
        Some((letter, rest)) => letter.is_ascii_lowercase() && !is_numeral(rest),
        None => false,
    }
}

/// Whether a word is a symbol, as its first byte tells.
pub(crate) fn is_symbol(word: &[u8]) -> bool {
    match word.first() {
        Some(byte) => byte.is_ascii_uppercase() || byte.is_ascii_digit(),
        None => false,
    }
}

/// Whether a word begins as symbols do, and has a `-`.
pub(crate) fn is_dashed(word: &[u8]) -> bool {
    is_symbol(word) && word.contains(&b'-')
}

/// Whether a command begins with a word.
pub(crate) fn is_command(word: &[u8]) -> bool {
    word == b"submit".as_slice()
        || word == b"pause".as_slice()
        || word == b"resume".as_slice()
        || word == b"cancel".as_slice()
        || word == b"fetch".as_slice()
        || word == b"list".as_slice()
        || word == b"run".as_slice()
        || word == b"copy".as_slice()
}

/// Whether `expand` writes rules for a word.
pub(crate) fn is_spread(word: &[u8]) -> bool {
    word == b"copy".as_slice() || word == b"erase".as_slice()
}

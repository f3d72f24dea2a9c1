//! The tokens of a rule.

use ic_text::{is_blank, is_word_byte};
use std::alloc::{AllocError, Global};

/// What a token is.
#[derive(Clone, Copy, PartialEq, Eq)]
pub(crate) enum Kind {
    /// A small letter, and then letters, digits and `_`.
    Name,
    /// A capital letter or a digit, and then letters and digits.
    Symbol,
    /// Any other word.
    Word,
    /// `=>`.
    Arrow,
    /// Any other byte.
    Mark(u8),
    /// Nothing: the rule is over.
    End,
}

/// A token of a text.
#[derive(Clone, Copy)]
pub(crate) struct Token<'t> {
    pub(crate) kind: Kind,
    pub(crate) text: &'t [u8],
    /// Where it begins in the text.
    pub(crate) at: usize,
}

/// Whether a byte is of a word: a letter, a digit, `-` or `_`.
pub(crate) fn joins(byte: u8) -> bool {
    is_word_byte(byte) || byte == b'_'
}

/// The word with which a text begins, or nothing.
pub(crate) fn first_word(text: &[u8]) -> &[u8] {
    for (place, byte) in text.iter().enumerate() {
        if !joins(*byte) {
            return &text[..place];
        }
    }
    text
}

/// Whether a word has none of these two bytes.
fn lacks(word: &[u8], one: u8, other: u8) -> bool {
    !word.contains(&one) && !word.contains(&other)
}

/// What a word is.
pub(crate) fn kind_of(word: &[u8]) -> Kind {
    match word.first() {
        Some(b'a'..=b'z') if lacks(word, b'-', b'-') => Kind::Name,
        Some(b'A'..=b'Z' | b'0'..=b'9') if lacks(word, b'-', b'_') => Kind::Symbol,
        _ => Kind::Word,
    }
}

/// The token with which a text begins that has a byte, and stands at a place.
pub(crate) fn first_token(rest: &[u8], at: usize) -> Token<'_> {
    let word = first_word(rest);
    if !word.is_empty() {
        Token {
            kind: kind_of(word),
            text: word,
            at,
        }
    } else if rest.starts_with(b"=>".as_slice()) {
        Token {
            kind: Kind::Arrow,
            text: b"=>".as_slice(),
            at,
        }
    } else {
        let (mark, _) = rest.split_at(rest.len().min(1));
        let kind = match mark.first() {
            Some(byte) => Kind::Mark(*byte),
            None => Kind::End,
        };
        Token {
            kind,
            text: mark,
            at,
        }
    }
}

/// The tokens of a part of a text that begins at a place.
pub(crate) fn tokens_of(
    alloc: Global,
    part: &[u8],
    from: usize,
) -> Result<Vec<Token<'_>>, AllocError> {
    let mut tokens = Vec::new(alloc);
    let mut left = 0usize;
    for (place, byte) in part.iter().enumerate() {
        if left > 0 {
            left -= 1;
        } else if !is_blank(*byte) {
            let token = first_token(&part[place..], from.saturating_add(place));
            left = token.text.len().saturating_sub(1);
            tokens.push(token)?;
        }
    }
    Ok(tokens)
}

//! The parts of a text: its rules, and what stands before and after all of them.

use crate::tokens::first_word;
use ic_text::is_blank;
use std::alloc::{AllocError, Global};

/// A rule, or what stands outside of rules.
#[derive(Clone, Copy)]
pub(crate) struct Segment {
    pub(crate) from: usize,
    /// Where it ends: `{`, `;` or `}` stands there, or the text is over.
    pub(crate) to: usize,
    /// Whether it stands within rules.
    pub(crate) within: bool,
}

impl Segment {
    /// Its bytes.
    pub(crate) fn part_of(self, text: &[u8]) -> &[u8] {
        part_of(text, self.from, self.to)
    }

    /// The byte at its end, if there is one.
    pub(crate) fn end_of(self, text: &[u8]) -> Option<u8> {
        text.get(self.to).copied()
    }
}

/// The bytes of a text from a place up to another one.
pub(crate) fn part_of(text: &[u8], from: usize, to: usize) -> &[u8] {
    let (front, _) = text.split_at(to.min(text.len()));
    let (_, part) = front.split_at(from.min(front.len()));
    part
}

/// How often a byte stands in a text.
pub(crate) fn count_of(text: &[u8], byte: u8) -> usize {
    let mut count = 0usize;
    for it in text {
        if *it == byte {
            count = count.saturating_add(1);
        }
    }
    count
}

/// Where a byte stands last in a text, if it stands there.
pub(crate) fn last_of(text: &[u8], byte: u8) -> Option<usize> {
    for place in (0..text.len()).rev() {
        if text[place] == byte {
            return Some(place);
        }
    }
    None
}

/// What follows the blanks with which a text begins.
pub(crate) fn after_blanks(text: &[u8]) -> &[u8] {
    for (place, byte) in text.iter().enumerate() {
        if !is_blank(*byte) {
            return &text[place..];
        }
    }
    &text[text.len()..]
}

/// The word with which a text begins after its blanks, or nothing.
pub(crate) fn leading_word(text: &[u8]) -> &[u8] {
    first_word(after_blanks(text))
}

/// What follows the first `<` of a rule, or nothing.
pub(crate) fn after_meeting(part: &[u8]) -> &[u8] {
    for (place, byte) in part.iter().enumerate() {
        if *byte == b'<' {
            let (_, rest) = part.split_at(place);
            let (_, rest) = rest.split_at(rest.len().min(1));
            return rest;
        }
    }
    &part[..0]
}

/// The symbol that stands second in a rule, or nothing.
pub(crate) fn second_of(part: &[u8]) -> &[u8] {
    leading_word(after_meeting(part))
}

/// Whether a segment ends at this byte, within rules or not.
fn ends_segment(within: bool, byte: u8) -> bool {
    if within {
        byte == b';' || byte == b'}'
    } else {
        byte == b'{'
    }
}

/// The parts of a text.
pub(crate) fn segments_of(alloc: Global, text: &[u8]) -> Result<Vec<Segment>, AllocError> {
    let mut segments = Vec::new(alloc);
    let mut within = false;
    let mut from = 0usize;
    for (place, byte) in text.iter().enumerate() {
        if ends_segment(within, *byte) {
            segments.push(Segment {
                from,
                to: place,
                within,
            })?;
            from = place.saturating_add(1);
            within = *byte != b'}';
        }
    }
    segments.push(Segment {
        from,
        to: text.len(),
        within,
    })?;
    Ok(segments)
}

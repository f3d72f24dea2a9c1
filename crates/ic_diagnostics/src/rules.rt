//! How often names stand in the rule of a place, which rule before it is of the same symbols, and where a word stands first.

use crate::words::{begins_as_name, first_word, without_blanks};
use ic_text::is_word_byte;
use std::alloc::{AllocError, Global};

/// As much of a rule as stands at the end of a text.
fn rule_front(text: &[u8]) -> &[u8] {
    for place in (0..text.len()).rev() {
        if matches!(text[place], b'{' | b';') {
            return &text[place + 1..];
        }
    }
    text
}

/// As much of a rule as stands at the front of a text.
fn rule_rest(text: &[u8]) -> &[u8] {
    for (place, byte) in text.iter().enumerate() {
        if matches!(*byte, b';' | b'}') {
            return &text[..place];
        }
    }
    text
}

/// How often a word stands in a text.
fn times_in(word: &[u8], text: &[u8]) -> usize {
    let mut count = 0usize;
    let mut goes_on = false;
    for (place, byte) in text.iter().enumerate() {
        if !goes_on && first_word(&text[place..]) == word {
            count = count.saturating_add(1);
        }
        goes_on = is_word_byte(*byte);
    }
    count
}

/// Whether the word at a place stands in its rule before the place, too.
pub(crate) fn is_again(text: &[u8], at: usize) -> bool {
    let (front, rest) = text.split_at(at.min(text.len()));
    times_in(first_word(rest), rule_front(front)) > 0
}

/// How many bytes of a rule are looked through at most, before a place and from it on.
const MAX_LOOKED: usize = 4_096;

/// The first words of a rule, at most so many, other than this one, that begin as names do and stand there once.
fn alone_in(
    alloc: Global,
    rule: &[u8],
    word: &[u8],
    most: usize,
) -> Result<Vec<Vec<u8>>, AllocError> {
    let mut alone: Vec<Vec<u8>> = Vec::new(alloc);
    let mut goes_on = false;
    for (place, byte) in rule.iter().enumerate() {
        let other = first_word(&rule[place..]);
        let is_name = !goes_on && begins_as_name(other) && other != word;
        if is_name && alone.len() < most && times_in(other, rule) == 1 {
            alone.push(other.to_vec(alloc)?)?;
        }
        goes_on = is_word_byte(*byte);
    }
    Ok(alone)
}

/// Beside the name at a place, the first other ones that stand once in its rule, two at most. A long rule isn't looked through.
pub(crate) fn others_alone(
    alloc: Global,
    text: &[u8],
    at: usize,
) -> Result<Vec<Vec<u8>>, AllocError> {
    let (front, rest) = text.split_at(at.min(text.len()));
    let (before, after) = (rule_front(front), rule_rest(rest));
    if before.len() > MAX_LOOKED || after.len() > MAX_LOOKED {
        return Ok(Vec::new(alloc));
    }
    let mut rule = before.to_vec(alloc)?;
    rule.extend_from_slice(after)?;
    alone_in(alloc, &rule, first_word(rest), 2)
}

/// The two symbols of a rule, which may go on as any text after them.
fn symbols_of(rule: &[u8]) -> (&[u8], &[u8]) {
    for (place, byte) in rule.iter().enumerate() {
        if *byte == b'<' {
            let second = first_word(without_blanks(&rule[place + 1..]));
            return (first_word(without_blanks(rule)), second);
        }
    }
    (&rule[..0], &rule[..0])
}

/// The number, from 1, of the first rule before a place that is of the same two symbols as the rule there, and its place.
pub(crate) fn same_before(text: &[u8], at: usize) -> Option<(u64, usize)> {
    let (front, rest) = text.split_at(at.min(text.len()));
    let (left, right) = symbols_of(rest);
    let mut number = 0u64;
    for (place, byte) in front.iter().enumerate() {
        if matches!(*byte, b'{' | b';') {
            number = number.saturating_add(1);
            let rule = without_blanks(&front[place + 1..]);
            let other = symbols_of(rule);
            if other == (left, right) || other == (right, left) {
                return Some((number, front.len().saturating_sub(rule.len())));
            }
        }
    }
    None
}

/// Where a word stands first in the rules and the configuration of a text, or of a line that submits one, if it does. What stands
/// before them is no part of the system: the name of a job, and its budget.
pub(crate) fn first_place(word: &[u8], text: &[u8]) -> Option<usize> {
    let mut is_within = false;
    let mut goes_on = false;
    for (place, byte) in text.iter().enumerate() {
        if is_within && !goes_on && first_word(&text[place..]) == word {
            return Some(place);
        }
        is_within = is_within || matches!(*byte, b'{' | b'<');
        goes_on = is_word_byte(*byte);
    }
    None
}

//! What is told of a refused text: the lines of its place, with a sentence on what is amiss there.

use crate::lines::{column, line_number, place_lines};
use crate::rules::{first_place, is_again, others_alone, same_before};
use crate::sentences::{limit_sentence, syntax_sentence};
use crate::sights::sight_at;
use crate::words::first_word;
use ic_text::{Detail, Limits, Misread, TextFault, put_decimal};
use std::alloc::{AllocError, Global};

/// What a text was to be.
#[derive(Clone, Copy, PartialEq, Eq)]
pub enum Kind {
    Config,
    System,
}

/// What is told of a name that stands for the third time.
const TWICE: &[u8] =
    b"in a configuration a name stands at most twice; `icserve expand` writes rules that copy";

/// What is amiss where a symbol has another arity than at its first use.
fn arity_sentence(
    alloc: Global,
    text: &[u8],
    at: usize,
    before: usize,
    here: usize,
) -> Result<Vec<u8>, AllocError> {
    let (front, rest) = text.split_at(at.min(text.len()));
    let symbol = first_word(rest);
    let mut sentence = Vec::from_slice(alloc, b"a symbol has one arity: ")?;
    sentence.extend_from_slice(symbol)?;
    let counts = format!(in alloc; " has {here} here and {before} where it stands first")?;
    sentence.extend_from_slice(counts.as_bytes())?;
    if let Some(place) = first_place(symbol, front) {
        put_distance(&front[place.min(front.len())..], &mut sentence)?;
    }
    Ok(sentence)
}

/// Appends how far before a place another one is, by the text from that one on: in lines, or within a line in columns.
fn put_distance(between: &[u8], sentence: &mut Vec<u8>) -> Result<(), AllocError> {
    let lines = line_number(between).saturating_sub(1);
    let columns = column(between).saturating_sub(1);
    let (count, unit) = match (lines, columns) {
        (0, 1) => (1, b" column before".as_slice()),
        (0, _) => (columns, b" columns before".as_slice()),
        (1, _) => (1, b" line before".as_slice()),
        (_, _) => (lines, b" lines before".as_slice()),
    };
    sentence.extend_from_slice(b", ")?;
    put_decimal(count as u64, sentence)?;
    sentence.extend_from_slice(unit)
}

/// What is amiss where the name at a place doesn't stand in its rule twice.
fn namecount_sentence(alloc: Global, text: &[u8], at: usize) -> Result<Vec<u8>, AllocError> {
    let others = others_alone(alloc, text, at)?;
    let again = is_again(text, at);
    let mut sentence = Vec::from_slice(alloc, b"in a rule each name stands exactly twice: ")?;
    sentence.extend_from_slice(first_word(&text[at.min(text.len())..]))?;
    if !again {
        put_others(&others, &mut sentence)?;
    }
    sentence.extend_from_slice(count_end(again, others.len()))?;
    Ok(sentence)
}

/// Appends further names of a list: `, x` and, of the last one, ` and x`.
fn put_others(others: &[Vec<u8>], sentence: &mut Vec<u8>) -> Result<(), AllocError> {
    for (place, other) in others.iter().enumerate() {
        if place + 1 < others.len() {
            sentence.extend_from_slice(b", ")?;
        } else {
            sentence.extend_from_slice(b" and ")?;
        }
        sentence.extend_from_slice(other)?;
    }
    Ok(())
}

/// How often names that are told stand in a rule, and what makes each stand twice, by how many are told beside the first.
fn count_end(again: bool, others: usize) -> &'static [u8] {
    if again {
        b" stands here for the third time; `icserve expand` writes rules that copy"
    } else if others == 0 {
        b" stands once; write it once more, or in its place an eraser, as Era (`icserve expand` writes its rules)"
    } else if others == 1 {
        b" stand once; write one name for both, or an eraser in the place of each, as Era (`icserve expand` writes its rules)"
    } else {
        b" stand once; write each once more, or an eraser in its place, as Era (`icserve expand` writes its rules)"
    }
}

/// What is amiss where a rule at a place has the symbols of one before it.
fn twice_sentence(alloc: Global, text: &[u8], at: usize) -> Result<Vec<u8>, AllocError> {
    let front = &text[..at.min(text.len())];
    let (number, place) = same_before(text, at).unwrap_or((0, 0));
    let mut sentence = Vec::from_slice(alloc, b"rule ")?;
    put_decimal(number, &mut sentence)?;
    put_distance(&front[place.min(front.len())..], &mut sentence)?;
    sentence.extend_from_slice(b", is of the same two symbols")?;
    Ok(sentence)
}

/// What is amiss at the place of a refusal of which no more is known.
fn place_sentence(
    alloc: Global,
    kind: Kind,
    text: &[u8],
    at: usize,
    fault: TextFault,
) -> Result<Vec<u8>, AllocError> {
    match fault {
        TextFault::NameCount(rule) => {
            let words = namecount_sentence(alloc, text, at)?;
            of_rule(alloc, rule, &words)
        }
        TextFault::Twice(rule) => {
            let words = twice_sentence(alloc, text, at)?;
            of_rule(alloc, rule, &words)
        }
        TextFault::Lopsided(rule) => {
            of_rule(
                alloc,
                rule,
                b"a rule of a symbol with itself reads the same from both sides",
            )
        }
        TextFault::Name(_) => Vec::from_slice(alloc, TWICE),
        TextFault::Syntax | TextFault::Limit | TextFault::Arity | TextFault::Memory => {
            Vec::from_slice(alloc, syntax_sentence(kind, sight_at(text, at)))
        }
    }
}

/// What is amiss with the rule of this place, from 0, with its number, from 1.
fn of_rule(alloc: Global, rule: u32, words: &[u8]) -> Result<Vec<u8>, AllocError> {
    let mut sentence = Vec::from_slice(alloc, b"rule ")?;
    put_decimal(u64::from(rule) + 1, &mut sentence)?;
    sentence.extend_from_slice(b": ")?;
    sentence.extend_from_slice(words)?;
    Ok(sentence)
}

/// What is amiss at a place of a text that is refused there with the limits of what is served.
pub fn sentence(
    alloc: Global,
    kind: Kind,
    text: &[u8],
    at: usize,
    misread: Misread,
) -> Result<Vec<u8>, AllocError> {
    sentence_within(alloc, Limits::Served, kind, text, at, misread)
}

/// The same with any limits.
fn sentence_within(
    alloc: Global,
    limits: Limits,
    kind: Kind,
    text: &[u8],
    at: usize,
    misread: Misread,
) -> Result<Vec<u8>, AllocError> {
    match misread.detail {
        Detail::Nothing => place_sentence(alloc, kind, text, at, misread.fault),
        Detail::Passed(limit) => Vec::from_slice(alloc, limit_sentence(limits, limit)),
        Detail::Arities(before, here) => arity_sentence(alloc, text, at, before, here),
    }
}

/// The lines that tell of a refusal of a text with these limits, where its place is told; else none.
pub(crate) fn told_lines_within(
    alloc: Global,
    limits: Limits,
    kind: Kind,
    text: &[u8],
    misread: Misread,
) -> Result<Vec<u8>, AllocError> {
    match misread.place {
        Some(at) => {
            let sentence = sentence_within(alloc, limits, kind, text, at, misread)?;
            place_lines(alloc, text, at, &sentence)
        }
        None => Ok(Vec::new(alloc)),
    }
}

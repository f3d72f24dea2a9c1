//! What a text declares of the symbols of numbers, lists and pairs.

use crate::fault::{RichFault, ShorthandReason};
use crate::segments::{Segment, leading_word};
use crate::tokens::{Kind, Token, tokens_of};
use std::alloc::Global;

/// What is declared.
#[derive(Clone, Copy)]
enum Sort {
    Number,
    List,
    Pair,
}

impl Sort {
    /// What a word declares with which a rule begins, if it declares something.
    fn of(word: &[u8]) -> Option<Sort> {
        if word == b"number".as_slice() {
            Some(Sort::Number)
        } else if word == b"list".as_slice() {
            Some(Sort::List)
        } else if word == b"pair".as_slice() {
            Some(Sort::Pair)
        } else {
            None
        }
    }

    /// How many symbols follow.
    fn count(self) -> usize {
        match self {
            Sort::Number | Sort::List => 2,
            Sort::Pair => 1,
        }
    }
}

/// Whether a segment is a declaration, or names a file: in its place nothing is written.
pub(crate) fn declares(text: &[u8], segment: Segment) -> bool {
    let word = leading_word(segment.part_of(text));
    segment.within && (Sort::of(word).is_some() || word == b"use".as_slice())
}

/// Whether a word has a line stand for the rules of copiers or erasers.
pub(crate) fn is_generic(word: &[u8]) -> bool {
    word == b"copy".as_slice() || word == b"erase".as_slice()
}

/// Whether a segment holds for the whole text: a declaration, or one of a copier or an eraser.
pub(crate) fn is_line(text: &[u8], segment: Segment) -> bool {
    declares(text, segment) || is_generic(leading_word(segment.part_of(text)))
}

/// Two symbols. Of a pair both are the same.
#[derive(Clone, Copy)]
pub(crate) struct Sign<'t> {
    /// The symbol of one more, or of an entry before others.
    pub(crate) more: &'t [u8],
    /// That of zero, or of no entry.
    pub(crate) none: &'t [u8],
}

/// The symbols of numbers, lists and pairs, as far as they are declared.
#[derive(Clone, Copy)]
pub(crate) struct Signs<'t> {
    pub(crate) number: Option<Sign<'t>>,
    pub(crate) list: Option<Sign<'t>>,
    pub(crate) pair: Option<Sign<'t>>,
}

/// The refusal at a token, or at the end of a declaration where there is none.
fn refused_at(tokens: &[Token], place: usize, end: usize, reason: ShorthandReason) -> RichFault {
    match tokens.get(place) {
        Some(token) => reason.at(token.at),
        None => reason.at(end),
    }
}

/// The text of the token at a place, if it is a symbol.
fn symbol_at<'t>(tokens: &[Token<'t>], place: usize) -> Option<&'t [u8]> {
    match tokens.get(place) {
        Some(token) if token.kind == Kind::Symbol => Some(token.text),
        _ => None,
    }
}

/// The symbols of a declaration, whose word comes first.
fn sign_of<'t>(tokens: &[Token<'t>], sort: Sort, end: usize) -> Result<Sign<'t>, RichFault> {
    let Some(more) = symbol_at(tokens, 1) else {
        return Err(refused_at(tokens, 1, end, ShorthandReason::NoSymbol));
    };
    let last = sort.count();
    let Some(none) = symbol_at(tokens, last) else {
        return Err(refused_at(tokens, last, end, ShorthandReason::NoSymbol));
    };
    if tokens.len() > last.saturating_add(1) {
        return Err(refused_at(
            tokens,
            last.saturating_add(1),
            end,
            ShorthandReason::NoEndOfRule,
        ));
    }
    Ok(Sign { more, none })
}

impl<'t> Signs<'t> {
    /// Nothing.
    pub(crate) fn new() -> Signs<'t> {
        Signs {
            number: None,
            list: None,
            pair: None,
        }
    }

    /// What is declared of this sort.
    fn slot(&mut self, sort: Sort) -> &mut Option<Sign<'t>> {
        match sort {
            Sort::Number => &mut self.number,
            Sort::List => &mut self.list,
            Sort::Pair => &mut self.pair,
        }
    }

    /// Notes a declaration.
    fn note(
        &mut self,
        alloc: Global,
        text: &'t [u8],
        segment: Segment,
        sort: Sort,
    ) -> Result<(), RichFault> {
        let tokens = tokens_of(alloc, segment.part_of(text), segment.from)?;
        let sign = sign_of(&tokens, sort, segment.to)?;
        let slot = self.slot(sort);
        if slot.is_some() {
            return Err(refused_at(&tokens, 0, segment.to, ShorthandReason::Again));
        }
        *slot = Some(sign);
        Ok(())
    }
}

/// What a text declares.
pub(crate) fn signs_of<'t>(
    alloc: Global,
    text: &'t [u8],
    segments: &[Segment],
) -> Result<Signs<'t>, RichFault> {
    let mut signs = Signs::new();
    for segment in segments {
        if segment.within {
            if let Some(sort) = Sort::of(leading_word(segment.part_of(text))) {
                signs.note(alloc, text, *segment, sort)?;
            }
        }
    }
    Ok(signs)
}

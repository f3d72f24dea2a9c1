//! Numbers, lists, pairs and terms that `let` names, written as the terms for which they stand.

use crate::fault::{LetReason, RichFault, ShorthandReason};
use crate::lets::{Lets, Letting};
use crate::segments::{Segment, after_blanks, leading_word, part_of};
use crate::signs::{Sign, Signs, declares, is_generic};
use crate::tokens::{Kind, Token, first_token, first_word, kind_of};
use crate::written::Written;
use ic_text::is_blank;
use std::alloc::Global;

/// How many bytes a term that `let` names has at most.
const MAX_NAMED: usize = 16_777_216;

/// What is open in a term.
#[derive(Clone, Copy)]
enum Open {
    /// What `(` opens after a word.
    Arguments,
    /// `S^n(`, which so many `)` close.
    Power(u64),
    /// A pair before its `,`.
    First,
    /// A pair after its `,`.
    Second,
    /// A list with so many terms.
    List(u64),
    /// A list after `|`, with so many terms before.
    Tail(u64),
}

/// What stands before the next token.
#[derive(Clone, Copy, PartialEq, Eq)]
enum Before {
    /// A word: `(` opens its arguments.
    Word,
    /// A symbol that was written so many times: `(` is written.
    Power(u64),
    /// Anything else.
    Other,
}

/// What is written of a text without shorthands.
#[derive(Drop)]
pub(crate) struct Shorthands<'t> {
    alloc: Global,
    text: &'t [u8],
    signs: Signs<'t>,
    lets: Lets<'t>,
    letting: Option<Letting<'t>>,
    /// The segment that is written.
    segment: Segment,
    /// The word of a line such as `copy Dup`, if it is one.
    generic: Option<&'t [u8]>,
    open: Vec<Open>,
    before: Before,
    /// Whether a configuration has begun.
    has_begun: bool,
    written: Written,
}

/// Whether a word has digits alone.
pub(crate) fn is_number(word: &[u8]) -> bool {
    for byte in word {
        if !byte.is_ascii_digit() {
            return false;
        }
    }
    !word.is_empty()
}

/// The number that digits write, or the greatest one.
fn number_of(digits: &[u8]) -> u64 {
    let mut number = 0u64;
    for digit in digits {
        let value = u64::from(digit.saturating_sub(b'0'));
        number = number.saturating_mul(10).saturating_add(value);
    }
    number
}

/// What follows a mark with which a text begins after its blanks.
fn after_mark(text: &[u8], mark: u8) -> Option<&[u8]> {
    match after_blanks(text).split_first() {
        Some((byte, rest)) if *byte == mark => Some(rest),
        _ => None,
    }
}

/// The word with which a text begins after its blanks, and what follows it.
fn split_word(text: &[u8]) -> (&[u8], &[u8]) {
    let rest = after_blanks(text);
    let word = first_word(rest);
    rest.split_at(word.len().min(rest.len()))
}

impl<'t> Shorthands<'t> {
    /// Nothing. It is noted, or not, whence what is written comes.
    pub(crate) fn new(
        alloc: Global,
        text: &'t [u8],
        signs: Signs<'t>,
        notes: bool,
    ) -> Shorthands<'t> {
        Shorthands {
            alloc,
            text,
            signs,
            lets: Lets::new(alloc),
            letting: None,
            segment: Segment {
                from: 0,
                to: 0,
                within: false,
            },
            generic: None,
            open: Vec::new(alloc),
            before: Before::Other,
            has_begun: false,
            written: Written::new(alloc, notes),
        }
    }

    /// Writes a text, in these segments.
    pub(crate) fn put_all(mut self, segments: &[Segment]) -> Result<Written, RichFault> {
        let mut has_rule = false;
        for segment in segments {
            if segment.within {
                has_rule = self.put_rule(*segment, has_rule)?;
            } else {
                has_rule = false;
                self.put_part(*segment)?;
                self.end_let(segment.to)?;
            }
            if segment.end_of(self.text) != Some(b';') {
                self.copy(segment.to, segment.to.saturating_add(1))?;
            }
        }
        Ok(self.written)
    }

    /// Writes a rule, after a `;` if it isn't the first one. It answers whether one is written by now. Of a declaration, and
    /// after the last `;` of rules, blanks alone are written.
    fn put_rule(&mut self, segment: Segment, has_rule: bool) -> Result<bool, RichFault> {
        if declares(self.text, segment) {
            self.put_line_ends(segment.from, segment.to)?;
            return Ok(has_rule);
        }
        let is_empty = after_blanks(segment.part_of(self.text)).is_empty();
        if is_empty && segment.end_of(self.text) != Some(b';') {
            self.put_part(segment)?;
            return Ok(has_rule);
        }
        if has_rule {
            self.written.put_made(b";".as_slice(), segment.from)?;
        }
        self.put_part(segment)?;
        Ok(true)
    }

    /// Writes the ends of the lines of a part of the text.
    fn put_line_ends(&mut self, from: usize, to: usize) -> Result<(), RichFault> {
        for place in from..to {
            if self.text.get(place).copied() == Some(b'\n') {
                self.copy(place, place.saturating_add(1))?;
            }
        }
        Ok(())
    }

    /// Writes a part of the text as it stands.
    fn copy(&mut self, from: usize, to: usize) -> Result<(), RichFault> {
        self.written.put(part_of(self.text, from, to), from)
    }

    /// Writes a segment without shorthands.
    fn put_part(&mut self, segment: Segment) -> Result<(), RichFault> {
        self.segment = segment;
        let word = leading_word(segment.part_of(self.text));
        self.generic = (segment.within && is_generic(word)).then_some(word);
        self.open.clear();
        self.before = Before::Other;
        let mut next = segment.from;
        for place in segment.from..segment.to {
            if place >= next {
                next = self.put_at(place)?;
            }
        }
        Ok(())
    }

    /// What stands from a place on, in the segment.
    fn rest(&self, place: usize) -> &'t [u8] {
        part_of(self.text, place, self.segment.to)
    }

    /// The place at which such a rest of the segment begins.
    fn place_of(&self, rest: &[u8]) -> usize {
        self.segment.to.saturating_sub(rest.len())
    }

    /// Writes the token at a place, or a blank. It answers where the next one begins.
    fn put_at(&mut self, place: usize) -> Result<usize, RichFault> {
        let token = first_token(self.rest(place), place);
        let next = place.saturating_add(token.text.len().max(1));
        match token.kind {
            Kind::Mark(mark) if is_blank(mark) => {
                self.copy(place, next)?;
                Ok(next)
            }
            Kind::Mark(mark) => self.put_mark(token, mark, next),
            Kind::Name if self.is_let(token) => self.begin_let(token, next),
            Kind::Name => self.put_name(token, next),
            Kind::Symbol => self.put_symbol(token, next),
            Kind::Word => self.put_token(token, next, Before::Word),
            Kind::Arrow | Kind::End => self.put_token(token, next, Before::Other),
        }
    }

    /// Writes a token as it stands.
    fn put_token(&mut self, token: Token, next: usize, before: Before) -> Result<usize, RichFault> {
        self.written.put(token.text, token.at)?;
        self.before = before;
        Ok(next)
    }

    /// Writes a name, or the term that it names.
    fn put_name(&mut self, token: Token, next: usize) -> Result<usize, RichFault> {
        match self.lets.get(token.text) {
            Some(term) => self.written.put_made(term, token.at)?,
            None => self.written.put(token.text, token.at)?,
        }
        self.before = Before::Word;
        Ok(next)
    }

    /// Writes a symbol, a number, or a symbol as often as `^` says.
    fn put_symbol(&mut self, token: Token, next: usize) -> Result<usize, RichFault> {
        if let Some(power) = after_mark(self.rest(next), b'^') {
            return self.put_power(token, power);
        }
        match self.signs.number {
            Some(sign) if is_number(token.text) => self.put_number(token, sign, next),
            _ => self.put_token(token, next, Before::Word),
        }
    }

    /// Writes so many times this symbol, and the mark that opens its arguments, which is to be closed as often.
    fn put_openings(&mut self, symbol: &[u8], count: u64, at: usize) -> Result<(), RichFault> {
        let each = (symbol.len() as u64).saturating_add(2);
        self.written.refuse_beyond(count.saturating_mul(each), at)?;
        for _ in 0..count {
            self.written.put_made(symbol, at)?;
            self.written.put_made(b"(".as_slice(), at)?;
        }
        Ok(())
    }

    /// Writes so many marks that close arguments.
    fn put_closings(&mut self, count: u64, at: usize) -> Result<(), RichFault> {
        for _ in 0..count {
            self.written.put_made(b")".as_slice(), at)?;
        }
        Ok(())
    }

    /// Writes a number.
    fn put_number(&mut self, token: Token, sign: Sign, next: usize) -> Result<usize, RichFault> {
        let count = number_of(token.text);
        self.put_openings(sign.more, count, token.at)?;
        self.written.put_made(sign.none, token.at)?;
        self.put_closings(count, token.at)?;
        self.before = Before::Word;
        Ok(next)
    }

    /// Writes a symbol as often as the number says that stands after its `^`.
    fn put_power(&mut self, token: Token, power: &[u8]) -> Result<usize, RichFault> {
        let (digits, rest) = split_word(power);
        if !is_number(digits) || after_mark(rest, b'(').is_none() {
            return Err(ShorthandReason::NoPower.at(self.place_of(power)));
        }
        let count = number_of(digits);
        self.put_openings(token.text, count, token.at)?;
        self.before = Before::Power(count);
        Ok(self.place_of(rest))
    }

    /// Writes a mark.
    fn put_mark(&mut self, token: Token, mark: u8, next: usize) -> Result<usize, RichFault> {
        match mark {
            b'(' => self.put_open(token, next),
            b')' => self.put_close(token, next),
            b'[' => self.put_list(token, next),
            b']' => self.put_list_end(token, next),
            b',' => self.put_comma(token, next),
            b'|' => self.put_bar(token, next),
            b'~' if !self.segment.within => self.put_sign(token, next),
            b'<' | b';' if !self.segment.within => self.put_outer(token, mark, next),
            _ => self.put_token(token, next, Before::Other),
        }
    }

    /// Writes the sign between two terms of a configuration.
    fn put_sign(&mut self, token: Token, next: usize) -> Result<usize, RichFault> {
        self.written.put_made(b"=".as_slice(), token.at)?;
        self.before = Before::Other;
        Ok(next)
    }

    /// Writes a mark that opens arguments or a pair.
    fn put_open(&mut self, token: Token, next: usize) -> Result<usize, RichFault> {
        match self.before {
            Before::Word => {
                self.open.push(Open::Arguments)?;
                self.put_token(token, next, Before::Other)
            }
            Before::Power(count) => {
                self.open.push(Open::Power(count))?;
                self.before = Before::Other;
                Ok(next)
            }
            Before::Other => {
                let Some(sign) = self.signs.pair else {
                    return Err(ShorthandReason::NoPair.at(token.at));
                };
                self.open.push(Open::First)?;
                self.put_openings(sign.more, 1, token.at)?;
                Ok(next)
            }
        }
    }

    /// Writes a mark that closes arguments or a pair.
    fn put_close(&mut self, token: Token, next: usize) -> Result<usize, RichFault> {
        match self.open.pop() {
            Some(Open::Power(count)) => {
                self.put_closings(count, token.at)?;
                self.before = Before::Other;
                Ok(next)
            }
            Some(Open::First) => Err(ShorthandReason::NotTwo.at(token.at)),
            Some(Open::List(_) | Open::Tail(_)) => Err(ShorthandReason::NoListEnd.at(token.at)),
            Some(Open::Arguments | Open::Second) | None => {
                self.put_token(token, next, Before::Other)
            }
        }
    }

    /// Writes the opening of a list, or a list without terms.
    fn put_list(&mut self, token: Token, next: usize) -> Result<usize, RichFault> {
        let Some(sign) = self.signs.list else {
            return Err(ShorthandReason::NoList.at(token.at));
        };
        if self.before == Before::Word {
            self.written.put_made(b" ".as_slice(), token.at)?;
        }
        if let Some(rest) = after_mark(self.rest(next), b']') {
            self.written.put_made(sign.none, token.at)?;
            self.before = Before::Word;
            return Ok(self.place_of(rest));
        }
        self.open.push(Open::List(1))?;
        self.put_openings(sign.more, 1, token.at)?;
        self.before = Before::Other;
        Ok(next)
    }

    /// Writes the end of a list.
    fn put_list_end(&mut self, token: Token, next: usize) -> Result<usize, RichFault> {
        let (sign, open) = (self.signs.list, self.open.pop());
        match (sign, open) {
            (Some(sign), Some(Open::List(count))) => {
                self.written.put_made(b",".as_slice(), token.at)?;
                self.written.put_made(sign.none, token.at)?;
                self.put_closings(count, token.at)?;
            }
            (Some(_), Some(Open::Tail(count))) => self.put_closings(count, token.at)?,
            _ => return Err(ShorthandReason::NoListOpen.at(token.at)),
        }
        self.before = Before::Other;
        Ok(next)
    }

    /// Writes a `,`, and in a list the opening of the next term. At the end of a configuration it stands for nothing, and in a line
    /// such as `copy Dup, Era` a further one begins with it.
    fn put_comma(&mut self, token: Token, next: usize) -> Result<usize, RichFault> {
        match self.open.pop() {
            Some(Open::List(count)) => {
                self.open.push(Open::List(count.saturating_add(1)))?;
                self.put_token(token, next, Before::Other)?;
                if let Some(sign) = self.signs.list {
                    self.put_openings(sign.more, 1, token.at)?;
                }
                Ok(next)
            }
            Some(Open::First) => {
                self.open.push(Open::Second)?;
                self.put_token(token, next, Before::Other)
            }
            Some(Open::Second) => Err(ShorthandReason::NotTwo.at(token.at)),
            Some(Open::Tail(_)) => Err(ShorthandReason::NoListEnd.at(token.at)),
            Some(open) => {
                self.open.push(open)?;
                self.put_token(token, next, Before::Other)
            }
            None if self.is_end(next) => Ok(next),
            None => match self.generic {
                Some(word) => self.put_further(token, word, next),
                None => self.put_token(token, next, Before::Other),
            },
        }
    }

    /// Writes a further line in the place of a `,` in one such as `copy Dup`.
    fn put_further(&mut self, token: Token, word: &[u8], next: usize) -> Result<usize, RichFault> {
        self.written.put_made(b";".as_slice(), token.at)?;
        self.written.put_made(word, token.at)?;
        self.written.put_made(b" ".as_slice(), token.at)?;
        self.before = Before::Other;
        Ok(next)
    }

    /// Whether a configuration ends at a place, but for blanks.
    fn is_end(&self, place: usize) -> bool {
        !self.segment.within && after_mark(self.rest(place), b'>').is_some()
    }

    /// Writes a `|`, which in a list stands before its rest.
    fn put_bar(&mut self, token: Token, next: usize) -> Result<usize, RichFault> {
        match self.open.pop() {
            Some(Open::List(count)) => {
                self.open.push(Open::Tail(count))?;
                self.written.put_made(b",".as_slice(), token.at)?;
                self.before = Before::Other;
                Ok(next)
            }
            Some(open) => {
                self.open.push(open)?;
                self.put_token(token, next, Before::Other)
            }
            None => self.put_token(token, next, Before::Other),
        }
    }

    /// Writes a mark after which no term that `let` names goes on: a `;` there stands for nothing.
    fn put_outer(&mut self, token: Token, mark: u8, next: usize) -> Result<usize, RichFault> {
        let is_letting = self.letting.is_some();
        self.end_let(token.at)?;
        if mark == b'<' {
            self.has_begun = true;
        } else if is_letting {
            return Ok(next);
        }
        self.put_token(token, next, Before::Other)
    }

    /// Whether a name is the word `let` before a configuration.
    fn is_let(&self, token: Token) -> bool {
        !self.segment.within
            && !self.has_begun
            && self.open.is_empty()
            && token.text == b"let".as_slice()
    }

    /// Begins with the term that `let` names. It answers where that begins.
    fn begin_let(&mut self, token: Token, next: usize) -> Result<usize, RichFault> {
        self.end_let(token.at)?;
        let (name, rest) = split_word(self.rest(next));
        let at = self.place_of(rest).saturating_sub(name.len());
        if kind_of(name) != Kind::Name {
            return Err(LetReason::NoName.at(at));
        }
        if self.lets.get(name).is_some() {
            return Err(LetReason::Again.at(at));
        }
        let Some(term) = after_mark(rest, b'=') else {
            let at = self.place_of(after_blanks(rest));
            return Err(LetReason::NoSign.at(at));
        };
        let start = self.written.text().len();
        self.letting = Some(Letting {
            name,
            at: token.at,
            start,
        });
        self.before = Before::Other;
        Ok(self.place_of(term))
    }

    /// Ends the term that `let` names, before a place.
    fn end_let(&mut self, at: usize) -> Result<(), RichFault> {
        let Some(letting) = self.letting.take() else {
            return Ok(());
        };
        let term = self.written.part_from(letting.start);
        if term.len() > MAX_NAMED {
            return Err(LetReason::Long.at(letting.at));
        }
        let term = term.to_vec(self.alloc)?;
        match self.lets.add(self.alloc, letting.name, &term) {
            Ok(()) => {
                self.written.cut(letting.start);
                self.put_line_ends(letting.at, at)
            }
            Err(RichFault::Refused(reason, place)) => {
                let place = self.written.place_of(letting.start.saturating_add(place));
                Err(RichFault::Refused(reason, place))
            }
            Err(RichFault::Memory) => Err(RichFault::Memory),
        }
    }
}

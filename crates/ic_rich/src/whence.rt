//! Whence what stands in a plain text comes: the text without forms is gone through beside it.

use crate::segments::{after_blanks, leading_word, part_of, second_of};
use crate::signs::is_generic;
use crate::tokens::first_word;
use ic_text::is_blank;
use std::alloc::{AllocError, Global};
use std::collections::BTreeMap;

/// A rule that a line such as `copy Dup` stands for.
#[derive(Clone, Copy)]
pub(crate) struct Generic<'t> {
    /// `copy` or `erase`.
    pub(crate) word: &'t [u8],
    pub(crate) symbol: &'t [u8],
    /// The symbol that is copied or erased.
    pub(crate) other: &'t [u8],
}

/// Whence what stands at a place of a plain text comes.
#[derive(Drop)]
pub(crate) struct Whence<'t> {
    /// Where it stands in the text without forms.
    pub(crate) at: usize,
    pub(crate) generic: Option<Generic<'t>>,
}

/// The names of the text without forms by those of its plain text, where they differ.
pub(crate) type Names<'t> = BTreeMap<&'t [u8], &'t [u8]>;

/// How far both texts are gone through.
#[derive(Drop)]
struct Walk<'t> {
    text: &'t [u8],
    plain: &'t [u8],
    /// The place of the plain text that is looked for.
    at: usize,
    next: usize,
    plain_next: usize,
    /// Whether a rule begins here.
    opens: bool,
    names: Names<'t>,
    found: Option<Whence<'t>>,
}

/// What follows a place of a text.
fn rest_of(text: &[u8], from: usize) -> &[u8] {
    part_of(text, from, text.len())
}

/// How many blanks a text begins with.
fn blanks_before(text: &[u8]) -> usize {
    text.len().saturating_sub(after_blanks(text).len())
}

/// A text without the blanks at its end.
fn without_end(text: &[u8]) -> &[u8] {
    for place in (0..text.len()).rev() {
        if !is_blank(text[place]) {
            return part_of(text, 0, place.saturating_add(1));
        }
    }
    part_of(text, 0, 0)
}

/// What stands before the `;` or `}` that ends a rule, and whether it is a `;`.
fn rule_of(text: &[u8]) -> (&[u8], bool) {
    for (place, byte) in text.iter().enumerate() {
        if *byte == b';' || *byte == b'}' {
            return (part_of(text, 0, place), *byte == b';');
        }
    }
    (text, false)
}

/// Whether a rule of a plain text is the one of a text, or the first one of a line such as `copy Dup`.
fn begins(rule: &[u8], plain: &[u8]) -> bool {
    let (one, other) = (leading_word(plain), second_of(plain));
    let (rule, word) = (after_blanks(rule), leading_word(rule));
    if is_generic(word) {
        return leading_word(rest_of(rule, word.len())) == one;
    }
    word == one && second_of(rule) == other
}

/// How many bytes of a plain text the rules have for which a line stands that this text follows.
fn generic_len(after: &[u8], plain: &[u8]) -> usize {
    let (front, goes_on) = rule_of(after);
    let (next, _) = rule_of(rest_of(after, front.len().saturating_add(1)));
    let mut len = 0usize;
    for _ in 0..plain.len() {
        let (rule, has_more) = rule_of(rest_of(plain, len));
        let end = len.saturating_add(rule.len());
        let (more, _) = rule_of(rest_of(plain, end.saturating_add(1)));
        if !has_more || (goes_on && begins(next, more)) {
            return len.saturating_add(without_end(rule).len());
        }
        len = end.saturating_add(1);
    }
    len
}

/// The rule of a text in which a place is.
fn rule_at(text: &[u8], at: usize) -> &[u8] {
    let front = part_of(text, 0, at);
    let from = match front
        .iter()
        .rposition(|byte| *byte == b';' || *byte == b'{')
    {
        Some(place) => place.saturating_add(1),
        None => 0,
    };
    let (rule, _) = rule_of(rest_of(text, from));
    rule
}

/// Where the rule with this number, from 1, begins in a plain text.
pub(crate) fn rule_start(plain: &[u8], number: usize) -> usize {
    let mut before = number;
    for (place, byte) in plain.iter().enumerate() {
        if *byte == b'{' || *byte == b';' {
            before = before.saturating_sub(1);
            if before == 0 {
                let next = place.saturating_add(1);
                return next.saturating_add(blanks_before(rest_of(plain, next)));
            }
        }
    }
    plain.len()
}

impl<'t> Walk<'t> {
    /// Goes on by so many bytes of both texts, the first of which come from a place.
    fn pass(&mut self, len: usize, plain_len: usize) {
        let end = self.plain_next.saturating_add(plain_len);
        if self.found.is_none() && self.at < end {
            self.found = Some(Whence {
                at: self.next,
                generic: None,
            });
        }
        self.next = self.next.saturating_add(len);
        self.plain_next = end;
    }

    /// Goes on after a byte that is of no word. It answers whether both texts have it.
    fn pass_mark(&mut self) -> bool {
        let byte = self.text.get(self.next).copied();
        let is_same = self.plain.get(self.plain_next).copied() == byte;
        self.opens = match byte {
            Some(b'{' | b';') => true,
            Some(byte) => self.opens && is_blank(byte),
            None => false,
        };
        self.pass(1, 1);
        is_same
    }

    /// Goes on after a word, which may stand for a name.
    fn pass_word(&mut self, word: &'t [u8]) -> Result<bool, AllocError> {
        let plain = first_word(rest_of(self.plain, self.plain_next));
        if plain != word && self.names.insert(plain, word).is_err() {
            return Err(AllocError);
        }
        self.pass(word.len(), plain.len());
        self.opens = false;
        Ok(!plain.is_empty())
    }

    /// Goes on after a line such as `copy Dup`, in whose place rules stand.
    fn pass_generic(&mut self, word: &'t [u8]) -> bool {
        let from = self.next;
        self.next = self.next.saturating_add(word.len());
        let blanks = blanks_before(rest_of(self.text, self.next));
        self.pass(blanks, blanks);
        let symbol = first_word(rest_of(self.text, self.next));
        let after = rest_of(self.text, self.next.saturating_add(symbol.len()));
        let len = generic_len(after, rest_of(self.plain, self.plain_next));
        let is_within = self.at < self.plain_next.saturating_add(len);
        if self.found.is_none() && is_within {
            self.found = Some(Whence {
                at: from,
                generic: Some(Generic {
                    word,
                    symbol,
                    other: second_of(rule_at(self.plain, self.at)),
                }),
            });
        }
        self.pass(symbol.len(), len);
        self.opens = false;
        !symbol.is_empty()
    }

    /// Whether the place is found and its rule is over, or the text is.
    fn is_over(&self) -> bool {
        self.next >= self.text.len() || (self.found.is_some() && self.opens)
    }

    /// What is found, or the end of the text, and the names so far.
    fn ended(self) -> (Whence<'t>, Names<'t>) {
        let Walk {
            text: _,
            plain: _,
            at: _,
            next,
            plain_next: _,
            opens: _,
            names,
            found,
        } = self;
        let end = Whence {
            at: next,
            generic: None,
        };
        (found.unwrap_or(end), names)
    }

    /// Goes on by a word or a byte of the text. It answers whether both texts go on alike.
    fn step(&mut self) -> Result<bool, AllocError> {
        let word = first_word(rest_of(self.text, self.next));
        if word.is_empty() {
            Ok(self.pass_mark())
        } else if self.opens && is_generic(word) {
            Ok(self.pass_generic(word))
        } else {
            self.pass_word(word)
        }
    }
}

/// Whence what stands at a place of a plain text comes, and the names of both texts, or nothing if they don't go on alike.
pub(crate) fn whence_of<'t>(
    alloc: Global,
    text: &'t [u8],
    plain: &'t [u8],
    at: usize,
) -> Result<Option<(Whence<'t>, Names<'t>)>, AllocError> {
    let mut walk = Walk {
        text,
        plain,
        at,
        next: 0,
        plain_next: 0,
        opens: false,
        names: BTreeMap::new(alloc),
        found: None,
    };
    for _ in 0..text.len() {
        if walk.is_over() {
            break;
        }
        if !walk.step()? {
            return Ok(None);
        }
    }
    Ok(Some(walk.ended()))
}

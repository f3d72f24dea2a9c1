//! What is legal in a text and mostly a mistake: a term, a copier or an eraser without a use. Whether a file has one, its rules tell.

use crate::holes::Hole;
use crate::joined::{Joined, is_told};
use crate::segments::{Segment, leading_word, second_of};
use crate::signs::is_line;
use crate::tokens::{Kind, Token, tokens_of};
use crate::uses::Source;
use std::alloc::{AllocError, Global};
use std::collections::BTreeMap;

/// What is said at a place of a text.
#[derive(Drop)]
pub struct Remark {
    pub at: usize,
    pub words: Vec<u8>,
}

/// The two symbols of a rule.
#[derive(Drop)]
pub struct Pair {
    pub one: Vec<u8>,
    pub other: Vec<u8>,
}

/// A `use` of a text: where it stands, and the rules that come by it.
#[derive(Drop)]
pub struct Borrowed {
    pub at: usize,
    pub pairs: Vec<Pair>,
}

/// What is remarked of a text.
#[derive(Drop)]
pub struct Remarks {
    pub list: Vec<Remark>,
    pub borrowed: Vec<Borrowed>,
    /// Symbols that files copy or erase with, those that have nothing to copy or erase, and those of agents that wait.
    pub generic: Vec<Vec<u8>>,
}

/// The words of a text, each with how often it stands there.
type Counts<'t> = BTreeMap<&'t [u8], usize>;

/// Counts a word once more.
fn count<'t>(counts: &mut Counts<'t>, word: &'t [u8]) -> Result<(), AllocError> {
    let more = counts.get(word).copied().unwrap_or(0).saturating_add(1);
    match counts.insert(word, more) {
        Ok(_) => Ok(()),
        Err(_) => Err(AllocError),
    }
}

/// Whether a segment is a line such as `copy Dup`.
fn is_generic(text: &[u8], segment: Segment) -> bool {
    let word = leading_word(segment.part_of(text));
    segment.within && (word == b"copy".as_slice() || word == b"erase".as_slice())
}

/// The symbols of a line such as `copy Dup`.
fn symbols_of(alloc: Global, text: &[u8], segment: Segment) -> Result<Vec<Token<'_>>, AllocError> {
    let mut symbols = Vec::new(alloc);
    for token in &tokens_of(alloc, segment.part_of(text), segment.from)? {
        if token.kind == Kind::Symbol {
            symbols.push(*token)?;
        }
    }
    Ok(symbols)
}

/// Counts the symbols of the rules and configurations of a text.
fn count_symbols<'t>(
    alloc: Global,
    source: &'t Source,
    counts: &mut Counts<'t>,
) -> Result<(), AllocError> {
    for segment in &source.segments {
        if !is_line(&source.text, *segment) {
            for token in &tokens_of(alloc, segment.part_of(&source.text), segment.from)? {
                if token.kind == Kind::Symbol {
                    count(counts, token.text)?;
                }
            }
        }
    }
    Ok(())
}

/// How often each symbol stands in the rules and configurations of some texts.
fn counts_of<'t>(alloc: Global, sources: &'t [Source]) -> Result<Counts<'t>, AllocError> {
    let mut counts = BTreeMap::new(alloc);
    for source in sources {
        count_symbols(alloc, source, &mut counts)?;
    }
    Ok(counts)
}

/// The bytes of several pieces, one after the other.
fn joined_words(alloc: Global, pieces: [&[u8]; 3]) -> Result<Vec<u8>, AllocError> {
    let mut words = Vec::new(alloc);
    for piece in pieces {
        words.extend_from_slice(piece)?;
    }
    Ok(words)
}

/// What is said of a copier or an eraser that stands nowhere.
const UNUSED: &[u8] =
    b" stands in no rule and no configuration: write it where it has to copy or erase";

impl Remarks {
    /// Nothing.
    pub fn new(alloc: Global) -> Remarks {
        Remarks {
            list: Vec::new(alloc),
            borrowed: Vec::new(alloc),
            generic: Vec::new(alloc),
        }
    }

    /// Notes a line such as `copy Dup` of the text, or of a file that it uses.
    fn note_generic(
        &mut self,
        alloc: Global,
        symbol: Token,
        counts: &Counts,
        is_own: bool,
    ) -> Result<(), AllocError> {
        let is_used = counts.get(symbol.text).is_some();
        if is_own && is_used {
            return Ok(());
        }
        if is_own {
            let words = joined_words(alloc, [b"".as_slice(), symbol.text, UNUSED])?;
            self.list.push(Remark {
                at: symbol.at,
                words,
            })?;
        }
        Ok(self.generic.push(symbol.text.to_vec(alloc)?)?)
    }

    /// Notes the lines of a text such as `copy Dup`.
    fn note_generics(
        &mut self,
        alloc: Global,
        source: &Source,
        counts: &Counts,
        is_own: bool,
    ) -> Result<(), AllocError> {
        for segment in &source.segments {
            if is_generic(&source.text, *segment) {
                for symbol in &symbols_of(alloc, &source.text, *segment)? {
                    self.note_generic(alloc, *symbol, counts, is_own)?;
                }
            }
        }
        Ok(())
    }

    /// Notes each `let` of a part of a text whose name doesn't stand there again.
    fn note_lets(&mut self, alloc: Global, tokens: &[Token]) -> Result<(), AllocError> {
        let mut counts = BTreeMap::new(alloc);
        for token in tokens {
            count(&mut counts, token.text)?;
        }
        let mut is_next = false;
        for token in tokens {
            if is_next && counts.get(token.text).copied() == Some(1) {
                let words = joined_words(
                    alloc,
                    [
                        b"let ".as_slice(),
                        token.text,
                        b" is used nowhere".as_slice(),
                    ],
                )?;
                self.list.push(Remark {
                    at: token.at,
                    words,
                })?;
            }
            is_next = token.text == b"let".as_slice();
        }
        Ok(())
    }

    /// Notes the holes of patterns. Of the rules of agents that wait nothing is told: they are made of others.
    fn note_patterns(&mut self, alloc: Global, joined: &Joined) -> Result<(), AllocError> {
        let (holes, waiting) = joined.patterns(alloc)?;
        for hole in holes {
            let Hole { at, words } = hole;
            self.list.push(Remark { at, words })?;
        }
        for symbol in waiting {
            self.generic.push(symbol)?;
        }
        Ok(())
    }

    /// Notes the rules of a file.
    fn note_rules(&mut self, alloc: Global, source: &Source) -> Result<(), AllocError> {
        let mut pairs = Vec::new(alloc);
        for segment in &source.segments {
            if is_told(&source.text, *segment) && !is_line(&source.text, *segment) {
                let rule = segment.part_of(&source.text);
                pairs.push(Pair {
                    one: leading_word(rule).to_vec(alloc)?,
                    other: second_of(rule).to_vec(alloc)?,
                })?;
            }
        }
        self.add_rules(alloc, source.root, pairs)
    }

    /// Adds rules to those that come by the `use` at a place.
    fn add_rules(&mut self, alloc: Global, at: usize, pairs: Vec<Pair>) -> Result<(), AllocError> {
        let place = match self.place_of(at) {
            Some(place) => place,
            None => self.begin_rules(alloc, at)?,
        };
        if let Some(borrowed) = self.borrowed.get_mut(place) {
            for pair in pairs {
                borrowed.pairs.push(pair)?;
            }
        }
        Ok(())
    }

    /// Where the rules are that come by the `use` at a place, if it has begun with them.
    fn place_of(&self, at: usize) -> Option<usize> {
        for (place, borrowed) in self.borrowed.iter().enumerate() {
            if borrowed.at == at {
                return Some(place);
            }
        }
        None
    }

    /// Begins with the rules that come by the `use` at a place. It answers where they are.
    fn begin_rules(&mut self, alloc: Global, at: usize) -> Result<usize, AllocError> {
        let pairs = Vec::new(alloc);
        self.borrowed.push(Borrowed { at, pairs })?;
        Ok(self.borrowed.len().saturating_sub(1))
    }
}

/// The tokens of a text that stand in no rules.
fn outer_tokens(alloc: Global, source: &Source) -> Result<Vec<Token<'_>>, AllocError> {
    let mut outer = Vec::new(alloc);
    for segment in &source.segments {
        if !segment.within {
            for token in &tokens_of(alloc, segment.part_of(&source.text), segment.from)? {
                outer.push(*token)?;
            }
        }
    }
    Ok(outer)
}

impl Joined {
    /// What is remarked of the text.
    pub fn remarks(&self, alloc: Global) -> Result<Remarks, AllocError> {
        let mut remarks = Remarks::new(alloc);
        let counts = counts_of(alloc, &self.sources)?;
        for (number, source) in self.sources.iter().enumerate() {
            remarks.note_generics(alloc, source, &counts, number == 0)?;
            if number == 0 {
                remarks.note_lets(alloc, &outer_tokens(alloc, source)?)?;
            } else {
                remarks.note_rules(alloc, source)?;
            }
        }
        remarks.note_patterns(alloc, self)?;
        Ok(remarks)
    }
}

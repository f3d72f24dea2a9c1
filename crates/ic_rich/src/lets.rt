//! The terms that `let` names.

use crate::fault::{LetReason, RichFault};
use crate::reader::Reader;
use crate::tokens::{Kind, Token, tokens_of};
use ic_text::is_blank;
use std::alloc::{AllocError, Global};
use std::collections::BTreeMap;

/// The terms that have names.
#[derive(Drop)]
pub(crate) struct Lets<'t> {
    terms: BTreeMap<&'t [u8], Vec<u8>>,
}

/// A name whose term is being written.
#[derive(Clone, Copy)]
pub(crate) struct Letting<'t> {
    pub(crate) name: &'t [u8],
    /// Where its `let` stands, and where what follows `=`.
    pub(crate) at: usize,
    /// Where what is written of its term begins.
    pub(crate) start: usize,
}

/// A text without its blanks.
fn without_blanks(alloc: Global, text: &[u8]) -> Result<Vec<u8>, AllocError> {
    let mut out = Vec::new(alloc);
    for byte in text {
        if !is_blank(*byte) {
            out.push(*byte)?;
        }
    }
    Ok(out)
}

/// Refuses a text that is no term, or one with names.
fn refused_term(alloc: Global, text: &[u8]) -> Result<(), RichFault> {
    let tokens = tokens_of(alloc, text, 0)?;
    let mut reader = Reader::new(&tokens, text.len());
    reader.only_term(alloc)?;
    for token in &tokens {
        if token.kind == Kind::Name {
            return Err(LetReason::NotClosed.at(token.at));
        }
    }
    Ok(())
}

impl<'t> Lets<'t> {
    pub(crate) fn new(alloc: Global) -> Lets<'t> {
        Lets {
            terms: BTreeMap::new(alloc),
        }
    }

    /// The term that a word names.
    pub(crate) fn get(&self, word: &[u8]) -> Option<&Vec<u8>> {
        self.terms.get(word)
    }

    /// Names a term, which is refused where it is none, or has names.
    pub(crate) fn add(
        &mut self,
        alloc: Global,
        name: &'t [u8],
        term: &[u8],
    ) -> Result<(), RichFault> {
        refused_term(alloc, term)?;
        self.terms.insert(name, without_blanks(alloc, term)?)?;
        Ok(())
    }
}

//! What was read back as words of names and agents.

ghost use Rattle.std.specs.Prelude.{◌≡◌, [], IfOk, IfSome, OnOk, map};
ghost use Rattle.std.specs.List.{AllByRecursion};
ghost use Rattle.ic_readback.specs.Reading.{flat_word, flat_words, number_of};
ghost use Rattle.ic_in_place.specs.inner.Numbering.{written_numbers, HasNumber, IsNumbered};

use ic_arena::{GIVEN, Word as Place};
use ic_flat::Word;
use ic_readback::Token;
use ic_term::Symbols;
use std::alloc::{AllocError, Global};

/// The first number of the names of places. No name of a configuration has it, or one above it.
const FIRST: u64 = 1 << 62;

/// How many places have one tag at most.
const SPAN: u64 = 1 << 32;

/// The words of tokens: given names by their numbers, and places by numbers from 2^62 on.
pub(crate) fn words_of(
    alloc: Global,
    symbols: &Symbols,
    given: &[u64],
    tokens: &[Token],
) -> Result<Vec<Word>, AllocError>
    ensures words { IfOk result (λ words. words.items
        ≡ flat_words (written_numbers (map (λ s. s.arity) symbols.now) given.now) tokens.now) }
    ensures numbered { OnOk result (AllByRecursion (IsNumbered given.now) tokens.now) }
{
    let mut words = Vec::with_capacity(alloc, tokens.len())?;
    for token in tokens {
        let word = word_of(symbols, given, *token).ok_or(AllocError)?;
        words.push(word)?;
    }
    Ok(words)
}

/// The word of a token, if its symbol or its given name is known.
fn word_of(symbols: &Symbols, given: &[u64], token: Token) -> Option<Word>
    ensures word { IfSome result (λ word. word
        ≡ flat_word (written_numbers (map (λ s. s.arity) symbols.now) given.now) token) }
    ensures numbered { IfSome result (λ _. IsNumbered given.now token) }
{
    match token {
        Token::Name(name) => Some(Word::Name(number_of(given, name)?)),
        Token::Agent(symbol) => {
            if symbols.len() <= symbol as usize {
                return None;
            }
            Some(Word::Agent(symbol, symbols.arity(symbol)))
        }
    }
}

/// The number of the name that a word stands for, if there is one.
fn number_of(given: &[u64], name: Place) -> Option<u64>
    ensures number { IfSome result (λ number. number ≡ number_of (written_numbers [] given.now) name) }
    ensures numbered { IfSome result (λ _. HasNumber given.now name) }
{
    if name.tag == GIVEN {
        return given.get(name.index as usize).copied();
    }
    FIRST.checked_add(u64::from(name.tag) * SPAN + u64::from(name.index))
}

//! Whether the agents of a configuration are over symbols: each known, with as many arguments as its arity.

ghost use Rattle.std.specs.Prelude.{◌≡◌};
ghost use Rattle.std.specs.List.{list_all};
ghost use Rattle.ic_term.specs.Symbol.{is_over};
ghost use Rattle.ic_flat.specs.Words.{is_word_over};

use crate::flat::Flat;
use crate::wide::WideFlat;
use crate::word::Word;
use ic_term::Symbols;

/// Whether each agent of a configuration has a known symbol, and as many arguments as its arity.
pub fn over(symbols: &Symbols, flat: &Flat) -> bool
    ensures { result ≡ is_over symbols.now flat.now }
{
    words_over(symbols, flat.words())
}

/// The same of a wide configuration.
pub fn wide_over(symbols: &Symbols, wide: &WideFlat) -> bool
    ensures { result ≡ is_over symbols.now wide.now }
{
    words_over(symbols, wide.words())
}

fn words_over(symbols: &Symbols, words: &[Word]) -> bool
    ensures { result ≡ list_all (is_word_over symbols.now) words.now }
{
    for word in words {
        if !word_over(symbols, *word) {
            return false;
        }
    }
    true
}

fn word_over(symbols: &Symbols, word: Word) -> bool
    ensures { result ≡ is_word_over symbols.now word }
{
    match word {
        Word::Name(_) => true,
        Word::Agent(sym, arity) => symbols.has_arity(sym, arity),
    }
}

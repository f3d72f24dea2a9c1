//! The names that a configuration is told with.

ghost use Rattle.std.specs.Prelude.{◌≡◌, nat_le, IfOk};
ghost use Rattle.std.specs.List.{list_all};
ghost use Rattle.ic_flat.specs.Words.{word_names};
ghost use Rattle.ic_naming.specs.Naming.{renumbered};
ghost use Rattle.ic_dump.specs.Telling.{has_names_of_texts};

use ic_flat::{Flat, Word};
use ic_naming::renumbered_words;
use ic_text::MAX_NAME;
use std::alloc::{AllocError, Global};

/// Whether each name of a configuration may stand in a text.
pub(crate) fn has_names_of_texts(flat: &Flat) -> bool
    ensures { result ≡ has_names_of_texts flat.now }
{
    are_of_texts(flat.words())
}

/// Whether each word may stand in a text.
fn are_of_texts(words: &[Word]) -> bool
    ensures { result ≡ list_all (λ w. list_all (λ n. nat_le n MAX_NAME) (word_names w)) words.now }
{
    words.iter().all(|word| is_of_texts(*word))
}

/// Whether a word may stand in a text: each but a name of too great a number.
fn is_of_texts(word: Word) -> bool
    ensures { result ≡ list_all (λ n. nat_le n MAX_NAME) (word_names word) }
{
    match word {
        Word::Name(name) => name <= MAX_NAME,
        Word::Agent(_, _) => true,
    }
}

/// The configuration with names that may stand in a text: its own where they occur once and may stand there, and all
/// others numbered by first occurrence. Takes n log n steps.
pub(crate) fn renumbered(alloc: Global, flat: &Flat) -> Result<Flat, AllocError>
    ensures { IfOk result (λ numbered. numbered ≡ renumbered flat.now) }
{
    let own = Vec::from_slice(alloc, flat.words())?;
    let words = renumbered_words(alloc, own)?;
    let (terms, equations) = (flat.interface_len(), flat.equations_len());
    Ok(Flat::from_parts(words, terms, equations, MAX_NAME + 1))
}

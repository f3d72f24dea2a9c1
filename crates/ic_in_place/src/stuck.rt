//! The first equation of two agents among words, told by their symbols.

ghost use Rattle.std.specs.Prelude.{◌≡◌, ◌+◌, ◌*◌, ◌≤◌, length, drop, IfOk, IsTrue};
ghost use Rattle.std.specs.List.{list_all};
ghost use Rattle.std.specs.Option.{option_map};
ghost use Rattle.ic_flat.specs.Words.{forest, is_word_over, IsWhole};
ghost use Rattle.ic_flat.specs.Flat.{configuration_of, pairs_of};
ghost use Rattle.ic_streams.specs.Stuck.{stuck_text};
ghost use Rattle.ic_in_place.specs.inner.Told.{first_told, words_told};

use ic_flat::{Word, end_of_term};
use ic_term::Symbols;
use std::alloc::{AllocError, Global};

/// The text of the first equation of two agents, of so many equations after so many terms.
pub fn stuck_text(
    alloc: Global,
    symbols: &Symbols,
    words: &[Word],
    terms: usize,
    equations: usize,
) -> Result<Option<Vec<u8>>, AllocError>
    requires whole { IsWhole words.now }
    requires over { IsTrue (list_all (is_word_over symbols.now) words.now) }
    requires counted { length (forest words.now) ≡ terms + 2 * equations }
    ensures { IfOk result (λ stuck. option_map (λ text. text.items) stuck
        ≡ stuck_text symbols.now (configuration_of words.now terms 0)) }
{
    if equations == 0 {
        return Ok(None);
    }
    let place = after_terms(words, terms);
    first_text(alloc, symbols, words, place, equations)
}

/// The place after so many terms.
pub(crate) fn after_terms(words: &[Word], terms: usize) -> usize
    requires whole { IsWhole words.now }
    requires there { terms ≤ length (forest words.now) }
    ensures { forest (drop result words.now) ≡ drop terms (forest words.now) }
{
    let mut place = 0;
    for term in 0..terms {
        place = end_of_term(words, place);
    }
    place
}

/// The text of the first equation of two agents, of so many from a place on.
fn first_text(
    alloc: Global,
    symbols: &Symbols,
    words: &[Word],
    place: usize,
    count: usize,
) -> Result<Option<Vec<u8>>, AllocError>
    requires whole { IsWhole words.now }
    requires over { IsTrue (list_all (is_word_over symbols.now) words.now) }
    requires counted { length (forest (drop place words.now)) ≡ 2 * count }
    ensures { IfOk result (λ first. option_map (λ text. text.items) first
        ≡ first_told symbols.now (pairs_of (forest (drop place words.now)))) }
{
    let mut left = place;
    for equation in 0..count {
        let right = end_of_term(words, left);
        let text = text_of(alloc, symbols, words[left], words[right])?;
        if text.is_some() {
            return Ok(text);
        }
        left = end_of_term(words, right);
    }
    Ok(None)
}

/// The text of an equation of two agents, by the words that its sides begin with.
fn text_of(
    alloc: Global,
    symbols: &Symbols,
    left: Word,
    right: Word,
) -> Result<Option<Vec<u8>>, AllocError>
    requires left { IsTrue (is_word_over symbols.now left) }
    requires right { IsTrue (is_word_over symbols.now right) }
    ensures { IfOk result
        (λ text. option_map (λ text. text.items) text ≡ words_told symbols.now left right) }
{
    match (left, right) {
        (Word::Agent(left, _), Word::Agent(right, _)) => {
            let mut text = symbols.text(left).to_vec(alloc)?;
            text.extend_from_slice(b"><")?;
            text.extend_from_slice(symbols.text(right))?;
            Ok(Some(text))
        }
        _ => Ok(None),
    }
}

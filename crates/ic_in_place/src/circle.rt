//! The first circle among words: an equation of a name with a term that has this name.

ghost use Rattle.std.specs.Prelude.{◌≡◌, ◌+◌, ◌*◌, ◌<◌, ◌≤◌, length, drop};
ghost use Rattle.ic_flat.specs.Words.{forest, IsWhole};

use crate::stuck::after_terms;
use ic_flat::{Word, end_of_term};
use ic_term::Symbols;
use std::alloc::{AllocError, Global};

/// What is told where a name is joined with itself: no agent is on the circle then.
const NAME_ALONE: &[u8] = b"x=x";

/// The symbol at which the first circle is closed, of so many equations after so many terms. No step takes a circle apart.
pub fn circle_text(
    alloc: Global,
    symbols: &Symbols,
    words: &[Word],
    terms: usize,
    equations: usize,
) -> Result<Option<Vec<u8>>, AllocError>
    requires whole { IsWhole words.now }
    requires counted { length (forest words.now) ≡ terms + 2 * equations }
{
    if equations == 0 {
        return Ok(None);
    }
    let place = after_terms(words, terms);
    match first_circle(words, place, equations) {
        Some(Word::Agent(symbol, _)) if (symbol as usize) < symbols.len() => {
            Ok(Some(symbols.text(symbol).to_vec(alloc)?))
        }
        Some(_) => Ok(Some(NAME_ALONE.to_vec(alloc)?)),
        None => Ok(None),
    }
}

/// The word that the term begins with of the first circle, of so many equations from a place on.
fn first_circle(words: &[Word], place: usize, count: usize) -> Option<Word>
    requires whole { IsWhole words.now }
    requires counted { length (forest (drop place words.now)) ≡ 2 * count }
{
    let mut left = place;
    for equation in 0..count {
        let right = end_of_term(words, left);
        let end = end_of_term(words, right);
        let circle = circle_of(words, left, right, end);
        if circle.is_some() {
            return circle;
        }
        left = end;
    }
    None
}

/// The word that the other side of an equation begins with, where one side is a name that it has.
fn circle_of(words: &[Word], left: usize, right: usize, end: usize) -> Option<Word>
    requires left { left < right }
    requires right { right < end }
    requires end { end ≤ length words.now }
{
    let (one, two) = (words[left], words[right]);
    if is_name_in(one, &words[right..end]) {
        Some(two)
    } else if is_name_in(two, &words[left..right]) {
        Some(one)
    } else {
        None
    }
}

/// Whether a word is a name and stands among others.
fn is_name_in(word: Word, others: &[Word]) -> bool {
    matches!(word, Word::Name(_)) && others.contains(&word)
}

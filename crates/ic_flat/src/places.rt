//! Places of terms among words.

ghost use Rattle.std.specs.Prelude.{◌≡◌, ◌<◌, ◌≤◌, length, drop};
ghost use Rattle.ic_flat.specs.Words.{forest, IsWhole};
ghost use Rattle.ic_flat.specs.Flat.{IsAfterTerms};

use crate::word::Word;

/// The place after the term that begins at a place. Takes as many steps as the term has nodes.
pub fn end_of_term(words: &[Word], place: usize) -> usize
    requires whole { IsWhole words.now }
    requires there { place < length words.now }
    ensures after { place < result }
    ensures within { result ≤ length words.now }
    ensures rest { forest (drop result words.now) ≡ drop 1 (forest (drop place words.now)) }
{
    let mut due = 1;
    let mut end = place;
    while due > 0 {
        due = due - 1 + words[end].arguments();
        end += 1;
    }
    end
}

/// The place after so many terms. Takes as many steps as they have nodes.
pub(crate) fn end_of_terms(words: &[Word], count: usize) -> usize
    requires whole { IsWhole words.now }
    requires there { count ≤ length (forest words.now) }
    ensures { IsAfterTerms words.now count result }
{
    let mut end = 0;
    for _ in 0..count {
        end = end_of_term(words, end);
    }
    end
}

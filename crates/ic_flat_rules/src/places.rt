//! The places of equations and their sides among words.

ghost use Rattle.std.specs.Prelude.{◌≡◌, ◌∷◌, ◌<◌, ◌≤◌, length, drop};
ghost use Rattle.ic_flat.specs.Words.{forest, IsWhole};
ghost use Rattle.ic_flat_rules.specs.Standing.{pair_at, pairs_at, AreSides, AreInTwos, IsEquationsPlace};

use ic_flat::{Flat, Word, end_of_term};

/// Where the sides of an equation begin, and the place after the right one.
#[derive(Clone, Copy)]
pub struct Sides {
    /// Where the left side begins.
    pub left: usize,
    /// Where the right one begins.
    pub right: usize,
    /// The place after it.
    pub end: usize,
}

/// The place after the interface, where the equations begin.
pub fn equations_place(flat: &Flat) -> usize
    ensures { IsEquationsPlace flat.now result }
{
    flat.equations_place()
}

/// The places of the sides of the equation that begins at a place.
#[inline(always)]
pub fn sides_at(words: &[Word], place: usize) -> Sides
    requires whole { IsWhole words.now }
    requires there { place < length words.now }
    requires twos { AreInTwos words.now place }
    ensures begins { result.left ≡ place }
    ensures sides { AreSides words.now result }
    ensures equations { pairs_at words.now place
        ≡ pair_at words.now result ∷ pairs_at words.now result.end }
    ensures twos { AreInTwos words.now result.end }
{
    let right = end_of_term(words, place);
    let end = end_of_term(words, right);
    Sides {
        left: place,
        right,
        end,
    }
}

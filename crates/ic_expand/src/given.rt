//! The rules that a text gives.

ghost use Rattle.std.specs.Prelude.{◌≡◌, ◌&&◌, ◌||◌, ℕ, IfOk, OnOk};
ghost use Rattle.std.specs.List.{position};
ghost use Rattle.std.specs.Str.{bytes_eq};
ghost use Rattle.std.specs.BTreeSet.{contains};
ghost use Rattle.ic_expand.specs.Pieces.{pieces};
ghost use Rattle.ic_expand.specs.Reading.{pairs_of};
ghost use Rattle.ic_expand.specs.inner.Given.{AreGiven, has_place, last_side, place_cmp};

use crate::ahead::{pass, sides_of};
use crate::pieces::split_piece;
use crate::spot::Spot;
use crate::words::Words;
use std::alloc::{AllocError, Global};
use std::collections::BTreeSet;

/// The two symbols of each rule, by their places. It is a tree, so that no rules can be chosen that are slow to find.
pub(crate) type Given = BTreeSet<(usize, usize)>;

/// The place of the symbol after the first `><` of a text, by what is told of each `>`.
fn last_side(known: &Words, sides: &[Option<usize>]) -> Option<usize>
    ensures { result ≡ last_side known.now sides.now }
{
    match sides.last() {
        Some(side) => *side,
        None => known.place(b""),
    }
}

/// Notes a rule of the symbols at these places, if both are known.
fn note_pair(
    given: &mut Given,
    first: Option<usize>,
    second: Option<usize>,
) -> Result<(), AllocError>
    ensures { OnOk result ((i j : ℕ) → contains place_cmp given.new (i, j)
        ≡ (has_place i first && has_place j second || contains place_cmp given.old (i, j))) }
{
    if let (Some(one), Some(other)) = (first, second) {
        given.insert((one, other))?;
    }
    Ok(())
}

/// The two symbols of each rule that is given, by their places among the known ones.
pub(crate) fn given_of(alloc: Global, known: &Words, text: &[u8]) -> Result<Given, AllocError>
    ensures { IfOk result (λ given. AreGiven given known.now (pairs_of (pieces text.now))) }
{
    let mut given = BTreeSet::new(alloc);
    let mut sides = sides_of(alloc, known, text)?;
    let mut spot = Spot::Elsewhere;
    let mut rest = text;
    while !rest.is_empty() {
        let (piece, more) = split_piece(rest);
        let next = spot.after(piece);
        pass(b'>', piece, &mut sides);
        if spot.is_head(piece) {
            note_pair(&mut given, known.place(piece), last_side(known, &sides))?;
        }
        spot = next;
        rest = more;
    }
    Ok(given)
}

/// Whether a rule of the symbols at these places is given, whichever stands first.
pub(crate) fn is_given(given: &Given, one: usize, other: usize) -> bool
    ensures { result
        ≡ (contains place_cmp given.now (one, other) || contains place_cmp given.now (other, one)) }
{
    given.contains(&(one, other)) || given.contains(&(other, one))
}

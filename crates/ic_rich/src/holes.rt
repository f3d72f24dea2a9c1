//! Holes of patterns: a symbol that is declared beside another one, and that no rule has in its place.

use crate::patterns::Pattern;
use crate::signs::{Sign, Signs};
use std::alloc::{AllocError, Global};
use std::collections::BTreeMap;

/// A symbol that no rule has at a place at which others have the one that is declared beside it.
#[derive(Drop)]
pub(crate) struct Hole {
    /// Where the other one stands in the text.
    pub(crate) at: usize,
    /// What is said of it.
    pub(crate) words: Vec<u8>,
}

/// A symbol that stands at a place, and the one that doesn't, with its arguments.
#[derive(Clone, Copy)]
pub(crate) struct Missing<'t> {
    there: &'t [u8],
    symbol: &'t [u8],
    args: &'static [u8],
}

/// What is missing of a sign where these symbols stand.
fn missing_of<'t>(sign: Sign<'t>, places: &BTreeMap<&'t [u8], usize>) -> Option<Missing<'t>> {
    let has_more = places.get(sign.more).is_some();
    let has_none = places.get(sign.none).is_some();
    match (has_more, has_none) {
        (true, false) => Some(Missing {
            there: sign.more,
            symbol: sign.none,
            args: b"".as_slice(),
        }),
        (false, true) => Some(Missing {
            there: sign.none,
            symbol: sign.more,
            args: b"(..)".as_slice(),
        }),
        _ => None,
    }
}

/// What is missing of numbers, or else of lists, where these symbols stand.
pub(crate) fn missing_in<'t>(
    signs: Signs<'t>,
    places: &BTreeMap<&'t [u8], usize>,
) -> Option<Missing<'t>> {
    if let Some(sign) = signs.number {
        let found = missing_of(sign, places);
        if found.is_some() {
            return found;
        }
    }
    match signs.list {
        Some(sign) => missing_of(sign, places),
        None => None,
    }
}

impl Missing<'_> {
    /// The hole of a rule that has the other symbol where this token stands.
    pub(crate) fn hole(
        self,
        alloc: Global,
        pattern: &Pattern,
        place: usize,
    ) -> Result<Hole, AllocError> {
        let mut symbol = self.symbol.to_vec(alloc)?;
        symbol.extend_from_slice(self.args)?;
        let mut words = Vec::from_slice(alloc, b"rules have ")?;
        words.extend_from_slice(self.there)?;
        words.extend_from_slice(b" here, and none has ".as_slice())?;
        words.extend_from_slice(self.symbol)?;
        words.extend_from_slice(b": ".as_slice())?;
        words.extend_from_slice(&pattern.sides_with(alloc, place, &symbol)?)?;
        words.extend_from_slice(b" has no rule".as_slice())?;
        Ok(Hole {
            at: pattern.place_of(place),
            words,
        })
    }
}

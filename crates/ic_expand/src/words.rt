//! Words, each once.

ghost use Rattle.std.specs.Prelude.{◌≡◌, ◌<◌, ◌^◌, [], length, OnOk};
ghost use Rattle.std.specs.List.{position};
ghost use Rattle.std.specs.Str.{bytes_eq};
ghost use Rattle.ic_expand.specs.Names.{is_among, with_word};

use std::alloc::{AllocError, Global};
use std::collections::BTreeMap;
use std::marker::Model;

/// Words of a text, each once, in the order in which they came.
#[derive(Drop)]
pub(crate) struct Words<'a> {
    words: Vec<&'a [u8]>,
    /// The place of each. It is a tree, so that no words can be chosen that are slow to find.
    places: BTreeMap<&'a [u8], usize>,
}

impl<'a> Model for Words<'a> {
    ghost use Rattle.std.specs.Prelude.{ℕ, List, map};
    ghost use Rattle.ic_expand.specs.inner.Words.{ArePlaces};

    ghost Value = { List (List ℕ) };

    ghost view = { λ s. map (λ w. w.now) s.words.items };

    ghost invariant = { λ s. ArePlaces s.places (map (λ w. w.now) s.words.items) };
}

impl<'a> Words<'a> {
    pub(crate) fn new(alloc: Global) -> Words<'a>
        ensures { result ≡ [] }
    {
        let words = Vec::new(alloc);
        let places = BTreeMap::new(alloc);
        Words { words, places }
    }

    pub(crate) fn len(&self) -> usize
        ensures len { result ≡ length self.now }
        ensures small { result < 2 ^ 63 }
    {
        self.words.len()
    }

    /// Adds a word as the last one, unless it is among these.
    pub(crate) fn add(&mut self, word: &'a [u8]) -> Result<(), AllocError>
        ensures { OnOk result (self.new ≡ with_word self.old word.now) }
    {
        if self.has(word) {
            return Ok(());
        }
        self.words.reserve(1)?;
        let place = self.words.len();
        self.places.insert(word, place)?;
        self.words.push_reserved(word);
        Ok(())
    }

    pub(crate) fn has(&self, word: &[u8]) -> bool
        ensures { result ≡ is_among word.now self.now }
    {
        self.places.contains_key(word)
    }

    /// The place of a word, if it is among these.
    pub(crate) fn place(&self, word: &[u8]) -> Option<usize>
        ensures { result ≡ position (bytes_eq word.now) self.now }
    {
        self.places.get(word).copied()
    }
}

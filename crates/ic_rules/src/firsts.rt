//! Names of a list in the order in which they first occur.

ghost use Rattle.std.specs.Prelude.{◌≡◌, ◌==◌, [], ◌∷◌, ◌++◌, length, OnOk, OnErr, if◌then◌else◌};
ghost use Rattle.std.specs.List.{list_any};
ghost use Rattle.ic_rules.specs.Renaming.{number_among};

use std::alloc::{AllocError, Global};
use std::collections::BTreeMap;
use std::marker::Model;

/// Names, each once, in the order in which they came.
#[derive(Drop)]
pub(crate) struct Firsts {
    names: Vec<u64>,
    /// The place of each. It is a tree, so that no names can be chosen that are slow to find.
    places: BTreeMap<u64, usize>,
}

impl Model for Firsts {
    ghost use Rattle.std.specs.Prelude.{◌≡◌, ◌==◌, ℕ, List};
    ghost use Rattle.std.specs.List.{position};
    ghost use Rattle.std.specs.Ordering.{nat_cmp};
    ghost use Rattle.std.specs.BTreeMap.{get};

    ghost Value = { List ℕ };

    ghost view = { λ f. f.names.items };

    ghost invariant = { λ f. (n : ℕ)
        → get nat_cmp f.places n ≡ position (λ m. n == m) f.names.items };
}

impl Firsts {
    pub(crate) fn new(alloc: Global) -> Firsts
        ensures { result ≡ [] }
    {
        let names = Vec::new(alloc);
        let places = BTreeMap::new(alloc);
        Firsts { names, places }
    }

    pub(crate) fn len(&self) -> usize
        ensures { result ≡ length self.now }
    {
        self.names.len()
    }

    /// Adds a name as the last one, unless it is among these.
    pub(crate) fn add(&mut self, name: u64) -> Result<(), AllocError>
        ensures { OnOk result (self.new ≡ if list_any (λ m. name == m) self.old then self.old
            else self.old ++ name ∷ []) }
    {
        if self.places.contains_key(&name) {
            return Ok(());
        }
        self.names.reserve(1)?;
        let place = self.names.len();
        self.places.insert(name, place)?;
        self.names.push_reserved(name);
        Ok(())
    }

    /// The place of a name, or how many there are where it isn't among these.
    pub(crate) fn number(&self, name: u64) -> usize
        ensures { result ≡ number_among self.now name }
    {
        self.places.get(&name).copied().unwrap_or(self.names.len())
    }
}

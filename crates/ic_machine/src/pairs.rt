//! Pairs of symbols, and the number of each.

ghost use Rattle.std.specs.Prelude.{◌≡◌, ℕ, ◌*◌, ◌^◌, ◌<◌, ◌&&◌, ◌==◌, [], ◌∷◌, ◌++◌, None, Some, if◌then◌else◌, length, IfOk, OnOk, OnErr};
ghost use Rattle.ic_machine.specs.Plan.{place_of};
ghost use Rattle.std.specs.Ordering.{nat_cmp};
ghost use Rattle.std.specs.BTreeMap.{get};
ghost use Rattle.ic_machine.specs.inner.PairIndex.{key_of, number_in};

use std::alloc::{AllocError, Global};
use std::collections::BTreeMap;
use std::marker::Model;

/// The pairs of so many symbols, the first ones, have an entry each. Other pairs are found in a tree, so that none can be chosen that are slow to find.
const MAX_ROWS: usize = 2_048;

/// Pairs of symbols, each with its place from 0 as its number.
#[derive(Drop)]
pub(crate) struct PairIndex {
    pairs: Vec<(u32, u32)>,
    rows: usize,
    entries: Vec<Option<u32>>,
    others: BTreeMap<u64, u32>,
}

impl Model for PairIndex {
    ghost use Rattle.std.specs.Prelude.{ℕ, List};
    ghost use Rattle.ic_machine.specs.inner.PairIndex.{IsIndex};

    ghost Value = { List (ℕ × ℕ) };

    ghost view = { λ p. p.pairs.items };

    ghost invariant = { λ p. IsIndex p.pairs.items p.rows p.entries.items p.others };
}

impl PairIndex {
    /// No pairs, made for those of so many symbols.
    pub(crate) fn new(alloc: Global, symbols: usize) -> Result<PairIndex, AllocError>
        ensures { IfOk result (λ pairs. pairs ≡ []) }
    {
        let rows = symbols.min(MAX_ROWS);
        let mut entries = Vec::with_capacity(alloc, rows * rows)?;
        for entry in 0..rows * rows {
            entries.push_reserved(None);
        }
        Ok(PairIndex {
            pairs: Vec::new(alloc),
            rows,
            entries,
            others: BTreeMap::new(alloc),
        })
    }

    /// The number of a pair, if it is one of these.
    #[inline(always)]
    pub(crate) fn get(&self, a: u32, b: u32) -> Option<u32>
        ensures { result ≡ place_of a b self.now }
    {
        let (row, column) = (a as usize, b as usize);
        if row < self.rows && column < self.rows {
            self.entries[row * self.rows + column]
        } else {
            get_other(&self.others, a, b)
        }
    }

    /// Adds a pair as the last one.
    pub(crate) fn push(&mut self, a: u32, b: u32) -> Result<(), AllocError>
        requires new { place_of a b self.old ≡ None }
        requires few { length self.old < 2 ^ 32 }
        ensures pushed { OnOk result (self.new ≡ self.old ++ (a, b) ∷ []) }
        ensures same { OnErr result (self.new ≡ self.old) }
    {
        let number = self.pairs.len() as u32;
        self.pairs.reserve(1)?;
        put(self.rows, &mut self.entries, &mut self.others, a, b, number)?;
        self.pairs.push_reserved((a, b));
        Ok(())
    }
}

/// The number of a pair that has no entry. It stands apart, so that a look-up of an entry is a few instructions.
#[cold]
#[inline(never)]
fn get_other(others: &BTreeMap<u64, u32>, a: u32, b: u32) -> Option<u32>
    ensures { result ≡ get nat_cmp others.now (key_of a b) }
{
    others.get(&key_of(a, b)).copied()
}

/// Gives a pair this number.
fn put(
    rows: usize,
    entries: &mut Vec<Option<u32>>,
    others: &mut BTreeMap<u64, u32>,
    a: u32,
    b: u32,
    number: u32,
) -> Result<(), AllocError>
    requires { length entries.old.items ≡ rows * rows }
    ensures put { OnOk result ((x y : ℕ) → number_in rows entries.new.items others.new x y
        ≡ (if a == x && b == y then Some number
        else number_in rows entries.old.items others.old x y)) }
    ensures same { OnErr result ((x y : ℕ) → number_in rows entries.new.items others.new x y
        ≡ number_in rows entries.old.items others.old x y) }
    ensures len { length entries.new.items ≡ length entries.old.items }
{
    let (row, column) = (a as usize, b as usize);
    if row < rows && column < rows {
        entries[row * rows + column] = Some(number);
        return Ok(());
    }
    others.insert(key_of(a, b), number)?;
    Ok(())
}

/// The key of a pair, by which it is found.
fn key_of(a: u32, b: u32) -> u64
    ensures { result ≡ key_of a b }
{
    a as u64 * (1 << 32) + b as u64
}

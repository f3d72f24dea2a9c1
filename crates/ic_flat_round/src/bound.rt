//! Names that are bound to places of terms while a configuration is settled.

ghost use Rattle.std.specs.Prelude.{◌≡◌, ◌==◌, ◌+◌, ℕ, ◌<◌, [], None, Some, IfNone, OnOk, is_some, length, nat_eq, sum_by, if◌then◌else◌};
ghost use Rattle.std.specs.Map.{lookup, remove_entry};
ghost use Rattle.ic_settle.specs.lemmas.Waiting.{Resolves};
ghost use Rattle.ic_flat.specs.Words.{IsWhole};
ghost use Rattle.ic_flat_rules.specs.Standing.{tree_at};
ghost use Rattle.ic_flat_round.specs.inner.Waits.{waiting, AreWithin};

use ic_flat::Word;
use std::alloc::{AllocError, Global};
use std::collections::BTreeMap;
use std::marker::Model;

/// The places of the terms that wait until the names that they stand for are met. Each such name is met at most once,
/// so it is taken out then. Most often it is the one that was bound last, which stands apart. The others are in a tree,
/// so that no names can be chosen that are slow to find.
#[derive(Drop)]
pub(crate) struct Bound {
    last: Option<(u64, usize)>,
    others: BTreeMap<u64, usize>,
}

impl Model for Bound {
    ghost use Rattle.std.specs.Prelude.{◌≡◌, ◌++◌, None, IfSome, nat_eq};
    ghost use Rattle.std.specs.Option.{option_to_list};
    ghost use Rattle.std.specs.Map.{lookup};
    ghost use Rattle.ic_flat_round.specs.inner.Bindings.{Bindings};

    ghost Value = { Bindings };

    ghost view = { λ b. record { entries = option_to_list b.last ++ b.others.entries } };

    ghost invariant = { λ b. IfSome b.last (λ e. lookup (nat_eq e.0) b.others.entries ≡ None) };
}

impl Bound {
    /// No names. Takes no memory.
    pub(crate) fn new(alloc: Global) -> Bound {
        Bound {
            last: None,
            others: BTreeMap::new(alloc),
        }
    }

    /// Takes all names out.
    pub(crate) fn clear(&mut self)
        ensures empty { self.new.entries ≡ [] }
    {
        self.last = None;
        if !self.others.is_empty() {
            self.others.clear();
        }
    }
}

/// Binds a name to a place that isn't bound.
#[inline(always)]
pub(crate) fn bind(bound: &mut Bound, name: u64, place: usize) -> Result<(), AllocError>
    requires { lookup (nat_eq name) bound.old.entries ≡ None }
    ensures updates { OnOk result ((y : ℕ) → lookup (nat_eq y) bound.new.entries
        ≡ (if name == y then Some place else lookup (nat_eq y) bound.old.entries)) }
    ensures sums { OnOk result ((f : ℕ → ℕ) → sum_by (λ e. f e.1) bound.new.entries
        ≡ sum_by (λ e. f e.1) bound.old.entries + f place) }
{
    match bound.last {
        None => {
            bound.last = Some((name, place));
            Ok(())
        }
        Some((other, there)) => {
            bound.others.insert(other, there)?;
            bound.last = Some((name, place));
            Ok(())
        }
    }
}

/// What a tree has for a name, which is taken out. Most often there is none.
#[inline(always)]
fn taken(others: &mut BTreeMap<u64, usize>, name: u64) -> Option<usize>
    ensures value { result ≡ lookup (nat_eq name) others.old.entries }
    ensures updates { (y : ℕ) → lookup (nat_eq y) others.new.entries
        ≡ (if nat_eq name y then None else lookup (nat_eq y) others.old.entries) }
    ensures entries { others.new.entries ≡ remove_entry (nat_eq name) others.old.entries }
    ensures unchanged { IfNone result (others.new.entries ≡ others.old.entries) }
{
    if others.is_empty() {
        return None;
    }
    removed(others, name)
}

/// The same, where the tree has names.
#[cold]
#[inline(never)]
fn removed(others: &mut BTreeMap<u64, usize>, name: u64) -> Option<usize>
    ensures value { result ≡ lookup (nat_eq name) others.old.entries }
    ensures updates { (y : ℕ) → lookup (nat_eq y) others.new.entries
        ≡ (if nat_eq name y then None else lookup (nat_eq y) others.old.entries) }
    ensures entries { others.new.entries ≡ remove_entry (nat_eq name) others.old.entries }
    ensures unchanged { IfNone result (others.new.entries ≡ others.old.entries) }
{
    others.remove(&name)
}

/// Whether a tree has a name.
#[inline(always)]
fn has(others: &BTreeMap<u64, usize>, name: u64) -> bool
    ensures { result ≡ is_some (lookup (nat_eq name) others.now.entries) }
{
    if others.is_empty() {
        return false;
    }
    contains(others, name)
}

/// The same, where the tree has names.
#[cold]
#[inline(never)]
fn contains(others: &BTreeMap<u64, usize>, name: u64) -> bool
    ensures { result ≡ is_some (lookup (nat_eq name) others.now.entries) }
{
    others.contains_key(&name)
}

/// What a name is bound to, which is taken out.
#[inline(always)]
pub(crate) fn unbound(bound: &mut Bound, name: u64) -> Option<usize>
    ensures value { result ≡ lookup (nat_eq name) bound.old.entries }
    ensures updates { (y : ℕ) → lookup (nat_eq y) bound.new.entries
        ≡ (if name == y then None else lookup (nat_eq y) bound.old.entries) }
    ensures entries { bound.new.entries ≡ remove_entry (nat_eq name) bound.old.entries }
    ensures unchanged { IfNone result (bound.new.entries ≡ bound.old.entries) }
{
    match bound.last {
        Some((last, place)) if last == name => {
            bound.last = None;
            Some(place)
        }
        Some(_) => taken(&mut bound.others, name),
        None => taken(&mut bound.others, name),
    }
}

/// Whether a name is bound.
#[inline(always)]
pub(crate) fn is_bound(bound: &Bound, name: u64) -> bool
    ensures { result ≡ is_some (lookup (nat_eq name) bound.now.entries) }
{
    match bound.last {
        Some((last, _)) if last == name => true,
        Some(_) => has(&bound.others, name),
        None => has(&bound.others, name),
    }
}

/// The place of the term that stands for the one at a place. It is the same place, unless that term is a bound name:
/// then it is the place so found for the term that the name is bound to.
#[inline(always)]
pub(crate) fn resolved(words: &[Word], place: usize, bound: &mut Bound) -> usize
    requires there { place < length words.now }
    requires within { AreWithin words.now bound.old.entries }
    ensures there { result < length words.now }
    ensures within { AreWithin words.now bound.new.entries }
    ensures resolves { Resolves (waiting words.now bound.old.entries)
        (waiting words.now bound.new.entries) (tree_at words.now place) (tree_at words.now result) }
{
    let mut place = place;
    loop {
        match words[place] {
            Word::Name(name) => match unbound(bound, name) {
                Some(term) => place = term,
                None => return place,
            },
            Word::Agent(_, _) => return place,
        }
    }
}

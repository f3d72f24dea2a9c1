//! Symbols with their arities, and how they get their numbers.

ghost use Rattle.std.specs.Prelude.{◌≡◌, ◌<◌, ◌↔◌, ◌==◌, ◌||◌, length, IsTrue, if◌then◌else◌, is_ok, option_map, slice_get, Some, IfSome, []};
ghost use Rattle.std.specs.Char.{is_ascii_uppercase, is_ascii_digit, is_ascii_alphanumeric};
ghost use Rattle.std.specs.List.{list_all};
ghost use Rattle.ic_term.specs.Symbol.{is_symbol_text, numbered, with_symbol, Answers, symbol_text, symbol_arity, has_arity};
ghost use Rattle.std.specs.Cmp.{partial_equiv_from_equiv};
ghost use Rattle.ic_term.specs.Symbol.{symbol_eq, symbols_eq, AreSymbols};
ghost use Rattle.ic_term.specs.lemmas.SymbolLaws.{symbols_eq-equivalence};
ghost use Rattle.ic_term.specs.declared.symbols.SymbolFault.TheVariants.{Memory};

use crate::key::{Key, key_of};
use crate::limits::{MAX_ARITY, MAX_SYMBOL_TEXT, MAX_WIDE_SYMBOLS};
use std::alloc::{AllocError, AllocFailed, Global};
use std::collections::BTreeMap;
use std::marker::Model;

/// Why a text has no number, in the order in which it is tried.
#[derive(Clone, Copy, Debug, PartialEq, Eq)]
pub enum SymbolFault {
    /// A limit is passed.
    Limit,
    /// The symbol with this number has the text, and another arity.
    Arity(u32),
    /// A growth was refused.
    Memory,
}

impl From<AllocError> for SymbolFault {
    ghost from_gives = { λ _ fault. fault ≡ Memory };

    fn from(_error: AllocError) -> SymbolFault {
        SymbolFault::Memory
    }
}

impl<T: Drop> From<AllocFailed<T>> for SymbolFault {
    ghost from_gives = { λ _ fault. fault ≡ Memory };

    fn from(_error: AllocFailed<T>) -> SymbolFault {
        SymbolFault::Memory
    }
}

/// The text of a symbol, and its arity.
#[derive(Drop)]
struct Entry {
    text: Vec<u8>,
    arity: usize,
}

/// Symbols with their arities, numbered in the order in which they came.
#[derive(Drop)]
pub struct Symbols {
    entries: Vec<Entry>,
    /// The number of each by the key of its text. It is a tree, so that no texts can be chosen that are slow to find.
    numbers: BTreeMap<Key, u32>,
}

impl Model for Symbols {
    ghost use Rattle.std.specs.Prelude.{List, map};
    ghost use Rattle.std.specs.Coded.{coded_list};
    ghost use Rattle.ic_term.specs.Symbol.{Symbol, AreSymbols};
    ghost use Rattle.ic_term.specs.lemmas.Codings.{coded_symbol};

    ghost Value = { List Symbol };

    ghost coded = { coded_list coded_symbol };

    ghost use Rattle.ic_term.specs.inner.Keys.{AreNumbers};

    ghost view = { λ s. map (λ e. record { text = e.text.items; arity = e.arity }) s.entries.items };

    ghost invariant = { λ s. AreSymbols
        (map (λ e. record { text = e.text.items; arity = e.arity }) s.entries.items)
        × AreNumbers s.numbers
        (map (λ e. record { text = e.text.items; arity = e.arity }) s.entries.items) };
}

impl Symbols {
    /// No symbols. Later calls take their memory from the allocator.
    pub fn new(alloc: Global) -> Symbols
        ensures { result ≡ [] }
    {
        let entries = Vec::new(alloc);
        let numbers = BTreeMap::new(alloc);
        Symbols { entries, numbers }
    }

    pub fn len(&self) -> usize
        ensures len { result ≡ length self.now }
        ensures sound { AreSymbols self.now }
    {
        self.entries.len()
    }

    pub fn is_empty(&self) -> bool
        ensures { IsTrue result ↔ (self.now ≡ []) }
    {
        self.entries.is_empty()
    }

    /// The number of the symbol with this text and arity: its old one, or the next one. Takes a number of steps that grows
    /// as the logarithm of the number of symbols.
    pub fn number(&mut self, text: &[u8], arity: usize) -> Result<u32, SymbolFault>
        requires { IsTrue (is_symbol_text text.now) }
        ensures number { Answers result (numbered self.old text.now arity) }
        ensures symbols { self.new ≡ if is_ok result then with_symbol self.old text.now arity
            else self.old }
    {
        if text.len() > MAX_SYMBOL_TEXT || arity > MAX_ARITY {
            return Err(SymbolFault::Limit);
        }
        let key = key_of(text);
        if let Some(number) = self.numbers.get(&key).copied() {
            return known_number(number, self.entries[number as usize].arity, arity);
        }
        let number = self.entries.len();
        if number >= MAX_WIDE_SYMBOLS {
            return Err(SymbolFault::Limit);
        }
        let text = Vec::from_slice(*self.entries.allocator(), text)?;
        self.entries.reserve(1)?;
        self.numbers.insert(key, number as u32)?;
        self.entries.push_reserved(Entry { text, arity });
        Ok(number as u32)
    }

    /// The text of the symbol with this number.
    pub fn text(&self, sym: u32) -> &[u8]
        requires { sym < length self.now }
        ensures { symbol_text self.now sym ≡ Some result.now }
    {
        &self.entries[sym as usize].text
    }

    /// The arity of the symbol with this number.
    pub fn arity(&self, sym: u32) -> usize
        requires { sym < length self.now }
        ensures { symbol_arity self.now sym ≡ Some result }
    {
        self.entries[sym as usize].arity
    }

    /// Whether the symbol with this number is the same in both.
    fn has_same(&self, other: &Symbols, sym: u32) -> bool
        requires here { sym < length self.now }
        requires there { sym < length other.now }
        ensures { IfSome (slice_get self.now sym)
            (λ s. IfSome (slice_get other.now sym) (λ t. result ≡ symbol_eq s t)) }
    {
        self.text(sym) == other.text(sym) && self.arity(sym) == other.arity(sym)
    }

    /// Whether there is a symbol with this number, and this is its arity.
    pub fn has_arity(&self, sym: u32, arity: usize) -> bool
        ensures { result ≡ has_arity arity (slice_get self.now sym) }
    {
        match self.entries.get(sym as usize) {
            None => false,
            Some(entry) => entry.arity == arity,
        }
    }
}

impl PartialEq for Symbols {
    ghost eq = { symbols_eq };

    ghost laws = { partial_equiv_from_equiv symbols_eq-equivalence };

    fn eq(&self, other: &Symbols) -> bool {
        if self.len() != other.len() {
            return false;
        }
        for sym in 0..self.len() {
            if !self.has_same(other, sym as u32) {
                return false;
            }
        }
        true
    }
}

impl Eq for Symbols {
    ghost laws = { symbols_eq-equivalence };
}

/// The number of a known symbol, where its arity is the one given.
fn known_number(number: u32, known: usize, arity: usize) -> Result<u32, SymbolFault>
    ensures { result ≡ if known == arity then Ok number else Err (SymbolFault.Arity number) }
{
    if known == arity {
        Ok(number)
    } else {
        Err(SymbolFault::Arity(number))
    }
}

/// Whether a text is a symbol's, of whatever length.
#[inline(always)]
pub fn is_symbol(text: &[u8]) -> bool
    ensures { result ≡ is_symbol_text text.now }
{
    match text.split_first() {
        None => false,
        Some((first, rest)) => begins_symbol(*first) && is_alphanumeric(rest),
    }
}

fn begins_symbol(byte: u8) -> bool
    ensures { result ≡ (is_ascii_uppercase byte || is_ascii_digit byte) }
{
    byte.is_ascii_uppercase() || byte.is_ascii_digit()
}

fn is_alphanumeric(text: &[u8]) -> bool
    ensures { result ≡ list_all is_ascii_alphanumeric text.now }
{
    for byte in text {
        if !byte.is_ascii_alphanumeric() {
            return false;
        }
    }
    true
}

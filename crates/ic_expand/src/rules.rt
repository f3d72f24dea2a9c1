//! The rules for which `copy` and `erase` stand.

ghost use Rattle.std.specs.Prelude.{◌≡◌, ◌<◌, ◌≤◌, ◌^◌, IfOk, filter, map};
ghost use Rattle.ic_term.specs.Symbol.{fits_limits};
ghost use Rattle.ic_term.specs.declared.limits.TheConstants.{MAX_ARITY};
ghost use Rattle.std.specs.List.{list_any, position};
ghost use Rattle.std.specs.Str.{bytes_eq};
ghost use Rattle.ic_expand.specs.Generic.{annihilated, arity_of, copied, erased, generic_rule};
ghost use Rattle.ic_expand.specs.inner.Sheets.{gives, is_missing, symbol_in};

use crate::agents::{agent, copies, names_from, pair_of, repeated, rule};
use crate::given::is_given;
use crate::reading::Use;
use crate::spot::Kind;
use crate::words::Words;
use crate::writing::Sheet;
use ic_term::{MAX_ARITY, MAX_SYMBOL_TEXT};
use std::alloc::{AllocError, Global};

/// The rule by which a copier copies a symbol.
fn copied(alloc: Global, copier: &[u8], symbol: &Use) -> Result<Vec<u8>, AllocError>
    requires { symbol.now.arity ≤ MAX_ARITY }
    ensures { IfOk result (λ rule. rule.items ≡ copied copier.now (symbol_in symbol.now)) }
{
    let one = agent(alloc, &symbol.text, &names_from(alloc, 0, symbol.arity)?)?;
    let other = agent(alloc, &symbol.text, &names_from(alloc, 26, symbol.arity)?)?;
    let left = pair_of(alloc, copier, one, other)?;
    let right = agent(alloc, &symbol.text, &copies(alloc, copier, symbol.arity)?)?;
    rule(alloc, &left, &right)
}

/// The rule by which two copiers of one kind go away.
fn annihilated(alloc: Global, copier: &[u8]) -> Result<Vec<u8>, AllocError>
    ensures { IfOk result (λ rule. rule.items ≡ annihilated copier.now) }
{
    let side = agent(alloc, copier, &names_from(alloc, 0, 2)?)?;
    rule(alloc, &side, &side)
}

/// The rule by which an eraser erases a symbol.
fn erased(alloc: Global, eraser: &[u8], symbol: &Use) -> Result<Vec<u8>, AllocError>
    ensures { IfOk result (λ rule. rule.items ≡ erased eraser.now (symbol_in symbol.now)) }
{
    let right = agent(alloc, &symbol.text, &repeated(alloc, eraser, symbol.arity)?)?;
    rule(alloc, eraser, &right)
}

impl Kind {
    /// How many arguments such an agent has.
    pub(crate) fn arity(self) -> usize
        ensures { result ≡ arity_of self }
    {
        match self {
            Kind::Copier => 2,
            Kind::Eraser => 0,
        }
    }

    /// The rule of such an agent with a symbol.
    fn rule(self, alloc: Global, generic: &[u8], symbol: &Use) -> Result<Vec<u8>, AllocError>
        requires { symbol.now.arity ≤ MAX_ARITY }
        ensures { IfOk result
            (λ rule. rule.items ≡ generic_rule self generic.now (symbol_in symbol.now)) }
    {
        match self {
            Kind::Eraser => erased(alloc, generic, symbol),
            Kind::Copier => {
                if generic == symbol.text.as_slice() {
                    annihilated(alloc, generic)
                } else {
                    copied(alloc, generic, symbol)
                }
            }
        }
    }
}

/// Whether a symbol is within the limits of the calculus.
fn fits_limits(symbol: &Use) -> bool
    ensures { result ≡ fits_limits symbol.now.text.items symbol.now.arity }
{
    symbol.text.len() <= MAX_SYMBOL_TEXT && symbol.arity <= MAX_ARITY
}

impl<'a> Sheet<'a> {
    /// Whether a text gives a rule of the symbol at this place and one with this text.
    fn gives(&self, generic: usize, text: &[u8]) -> bool
        ensures { result
            ≡ gives self.now.given generic (position (bytes_eq text.now) self.now.known) }
    {
        match self.known.place(text) {
            None => false,
            Some(place) => is_given(&self.given, generic, place),
        }
    }

    /// Whether a rule of a copier or an eraser, which is the symbol at this place, with a symbol is to be written, where
    /// none is written for it yet.
    pub(crate) fn is_wanted(&self, earlier: &Words, generic: usize, symbol: &Use) -> bool
        ensures { result ≡ is_missing self.now earlier.now generic (symbol_in symbol.now) }
    {
        fits_limits(symbol) && !earlier.has(&symbol.text) && !self.gives(generic, &symbol.text)
    }

    /// The rules of a copier or an eraser, which is the symbol at this place, with those symbols with which it gets one, where
    /// none is written for it yet.
    pub(crate) fn rules_with(
        &self,
        alloc: Global,
        earlier: &Words,
        kind: Kind,
        generic: &[u8],
        place: usize,
    ) -> Result<Vec<Vec<u8>>, AllocError>
        ensures { IfOk result (λ rules. map (λ r. r.items) rules.items
            ≡ map (generic_rule kind generic.now)
            (filter (is_missing self.now earlier.now place) (map symbol_in self.now.symbols.items))) }
    {
        let mut rules = Vec::new(alloc);
        for symbol in &self.symbols {
            if self.is_wanted(earlier, place, symbol) {
                rules.push(kind.rule(alloc, generic, symbol)?)?;
            }
        }
        Ok(rules)
    }

    /// Whether it gets one with some symbol.
    pub(crate) fn wants_some(&self, earlier: &Words, place: usize) -> bool
        ensures { result ≡ list_any (is_missing self.now earlier.now place)
            (map symbol_in self.now.symbols.items) }
    {
        for symbol in &self.symbols {
            if self.is_wanted(earlier, place, symbol) {
                return true;
            }
        }
        false
    }
}

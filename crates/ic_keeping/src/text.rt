//! The text that is kept of a reduction: one that has its rules.

ghost use Rattle.std.specs.Prelude.{◌≡◌, ◌<◌, ◌≤◌, ◌↔◌, IfOk, IsTrue, Ok, length, true};
ghost use Rattle.ic_rules.specs.System.{SystemParts};
ghost use Rattle.ic_text.specs.SystemText.{ReadsSystemWithin};

use ic_rules::RuleSet;
use ic_term::Symbols;
use ic_text::{Limits, find_wide_system, put_name};
use std::alloc::{AllocError, Global};

/// A text with the rules and the symbols of this one, which are these: one without its configuration, or this one if that has
/// more than half as many bytes. So reading the rules once more takes at most half as long as it took.
pub(crate) fn kept_text(alloc: Global, text: &[u8], rules: &RuleSet) -> Result<Vec<u8>, AllocError>
    ensures read { (s : SystemParts) → ReadsSystemWithin Limits.Wide text.now (Ok s)
        → s.rules ≡ rules.now → IfOk result (λ kept. (read : SystemParts)
        × ReadsSystemWithin Limits.Wide kept.items (Ok read) × (read.rules ≡ rules.now)) }
    ensures short { IfOk result (λ kept. length kept.items ≤ length text.now) }
{
    let short = short_text(alloc, text, rules.symbols())?;
    if tells_rules(alloc, &short, text.len() / 2, rules) {
        return Ok(short);
    }
    let whole = text.to_vec(alloc)?;
    Ok(whole)
}

/// Whether a text has at most so many bytes, and is read as a system with these rules and their symbols.
fn tells_rules(alloc: Global, text: &[u8], most: usize, rules: &RuleSet) -> bool
    ensures short { result ≡ true → length text.now ≤ most }
    ensures read { result ≡ true → (read : SystemParts)
        × ReadsSystemWithin Limits.Wide text.now (Ok read) × (read.rules ≡ rules.now) }
{
    if text.len() > most {
        return false;
    }
    match find_wide_system(alloc, Limits::Wide, text) {
        Ok(system) => are_same(system.rules(), rules),
        Err(_) => false,
    }
}

fn are_same(one: &RuleSet, other: &RuleSet) -> bool
    ensures { IsTrue result ↔ (one.now ≡ other.now) }
{
    ic_rules::laws::equality_is_exact();
    *one == *other
}

/// What stands before the configuration of a text of a system, and then one that has an agent of each symbol, in their order.
fn short_text(alloc: Global, text: &[u8], symbols: &Symbols) -> Result<Vec<u8>, AllocError> {
    let mut short = Vec::new(alloc);
    short.extend_from_slice(rules_in(text))?;
    let mut sign = b'<';
    let mut name: u64 = 0;
    for sym in 0..symbols.len() as u32 {
        short.push(sign)?;
        name = put_agent(symbols, sym, name, &mut short)?;
        sign = b',';
    }
    if sign == b'<' {
        short.push(sign)?;
    }
    short.extend_from_slice(b"|>")?;
    Ok(short)
}

/// The bytes of a text up to the first `}`, with which its rules end.
fn rules_in(text: &[u8]) -> &[u8] {
    for end in 0..text.len() {
        if text[end] == b'}' {
            return &text[..end + 1];
        }
    }
    text
}

/// Appends an agent of this symbol, whose arguments are names from this one on. Answers the next name.
fn put_agent(symbols: &Symbols, sym: u32, name: u64, out: &mut Vec<u8>) -> Result<u64, AllocError>
    requires { sym < length symbols.now }
{
    out.extend_from_slice(symbols.text(sym))?;
    let mut next = name;
    let mut sign = b'(';
    for _ in 0..symbols.arity(sym) {
        out.push(sign)?;
        put_name(next, out)?;
        next = next.saturating_add(1);
        sign = b',';
    }
    if sign == b',' {
        out.push(b')')?;
    }
    Ok(next)
}

//! Which symbols look like names, as variables are written elsewhere.

use crate::symbols::made_symbols;
use ic_rules::Rule;
use std::alloc::{AllocError, Global};

/// How often a symbol occurs among these.
pub(crate) fn count_of(symbols: &[u32], symbol: u32) -> usize {
    let mut count = 0usize;
    for other in symbols {
        if *other == symbol {
            count = count.saturating_add(1);
        }
    }
    count
}

/// Whether a text is one capital letter.
fn is_capital(text: &[u8]) -> bool {
    match text.split_first() {
        None => false,
        Some((letter, rest)) => letter.is_ascii_uppercase() && rest.is_empty(),
    }
}

/// Whether a symbol of this text and arity is written as a name could be.
fn is_letter(text: &[u8], arity: usize) -> bool {
    is_capital(text) && arity == 0
}

/// Whether a symbol is a side of a rule.
fn is_side(symbol: u32, rule: &Rule) -> bool {
    rule.left() == symbol || rule.right() == symbol
}

/// Whether a symbol is a side of one of these rules.
fn is_any_side(symbol: u32, rules: &[Rule]) -> bool {
    for rule in rules {
        if is_side(symbol, rule) {
            return true;
        }
    }
    false
}

/// Whether a rule makes a symbol at least twice.
fn makes_twice(alloc: Global, symbol: u32, rule: &Rule) -> Result<bool, AllocError> {
    let made = made_symbols(alloc, rule)?;
    Ok(2 <= count_of(&made, symbol))
}

/// Whether one of these rules makes a symbol at least twice.
fn any_makes_twice(alloc: Global, symbol: u32, rules: &[Rule]) -> Result<bool, AllocError> {
    for rule in rules {
        if makes_twice(alloc, symbol, rule)? {
            return Ok(true);
        }
    }
    Ok(false)
}

/// Whether a symbol of this text and arity looks like a name where these are the rules.
pub(crate) fn looks_like_name(
    alloc: Global,
    rules: &[Rule],
    symbol: u32,
    text: &[u8],
    arity: usize,
) -> Result<bool, AllocError> {
    if !is_letter(text, arity) {
        return Ok(false);
    }
    if is_any_side(symbol, rules) {
        return Ok(false);
    }
    any_makes_twice(alloc, symbol, rules)
}

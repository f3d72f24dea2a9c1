//! What is said of warnings.

use crate::warnings::Warnings;
use ic_rules::RuleSet;
use ic_term::Symbols;
use ic_text::{put_decimal, put_name};
use std::alloc::{AllocError, Global};

/// What is said where no two agents can meet.
const NONE_MEET: &[u8] =
    b"no two agents meet, so no rule is used: a sum is Add(r,n)=m, not r=Add(m,n)";

/// What is said before the symbols that stand only once.
const ONCE: &[u8] = b"symbols that stand only once: ";

/// What is said of a symbol that looks like a name.
const LETTER: &[u8] = b" is an agent, and no rule is of it: names are small letters, as x";

/// What is said of each warning of a system.
pub(crate) fn warning_words(
    alloc: Global,
    rules: &RuleSet,
    warnings: &Warnings,
) -> Result<Vec<Vec<u8>>, AllocError> {
    let symbols = rules.symbols();
    let mut told = Vec::new(alloc);
    put_ruleless(alloc, symbols, &warnings.ruleless, &mut told)?;
    put_once(alloc, symbols, &warnings.once, &mut told)?;
    put_unused(alloc, rules, &warnings.unused, &mut told)?;
    put_free(alloc, &warnings.free, &mut told)?;
    if warnings.none_meet {
        told.push(NONE_MEET.to_vec(alloc)?)?;
    }
    put_letters(alloc, symbols, &warnings.letters, &mut told)?;
    Ok(told)
}

/// The text of a symbol, where there is one of this number.
fn symbol_text(symbols: &Symbols, symbol: u32) -> &[u8] {
    if (symbol as usize) < symbols.len() {
        symbols.text(symbol)
    } else {
        b""
    }
}

/// Appends the texts of two symbols, as a rule of them begins.
fn put_pair(
    symbols: &Symbols,
    left: u32,
    right: u32,
    words: &mut Vec<u8>,
) -> Result<(), AllocError> {
    words.extend_from_slice(symbol_text(symbols, left))?;
    words.extend_from_slice(b"><")?;
    words.extend_from_slice(symbol_text(symbols, right))
}

/// Appends what is said of each pair without a rule.
fn put_ruleless(
    alloc: Global,
    symbols: &Symbols,
    pairs: &[(u32, u32)],
    told: &mut Vec<Vec<u8>>,
) -> Result<(), AllocError> {
    for (left, right) in pairs {
        let mut words = b"no rule for ".to_vec(alloc)?;
        put_pair(symbols, *left, *right, &mut words)?;
        told.push(words)?;
    }
    Ok(())
}

/// Appends what is said of all symbols that stand only once, where there are any.
fn put_once(
    alloc: Global,
    symbols: &Symbols,
    once: &[u32],
    told: &mut Vec<Vec<u8>>,
) -> Result<(), AllocError> {
    if once.is_empty() {
        return Ok(());
    }
    let mut words = ONCE.to_vec(alloc)?;
    for (place, symbol) in once.iter().enumerate() {
        if place > 0 {
            words.extend_from_slice(b", ")?;
        }
        words.extend_from_slice(symbol_text(symbols, *symbol))?;
    }
    told.push(words)?;
    Ok(())
}

/// Appends what is said of each rule that is never used.
fn put_unused(
    alloc: Global,
    rules: &RuleSet,
    places: &[usize],
    told: &mut Vec<Vec<u8>>,
) -> Result<(), AllocError> {
    for place in places {
        if let Some(rule) = rules.rules().get(*place) {
            let mut words = b"rule ".to_vec(alloc)?;
            put_decimal((*place as u64).saturating_add(1), &mut words)?;
            words.extend_from_slice(b", ")?;
            put_pair(rules.symbols(), rule.left(), rule.right(), &mut words)?;
            words.extend_from_slice(b", is never used")?;
            told.push(words)?;
        }
    }
    Ok(())
}

/// Appends what is said of each name that stands only once.
fn put_free(alloc: Global, names: &[u64], told: &mut Vec<Vec<u8>>) -> Result<(), AllocError> {
    for name in names {
        let mut words = b"the name ".to_vec(alloc)?;
        put_name(*name, &mut words)?;
        words.extend_from_slice(b" stands only once")?;
        told.push(words)?;
    }
    Ok(())
}

/// Appends what is said of each symbol that looks like a name.
fn put_letters(
    alloc: Global,
    symbols: &Symbols,
    letters: &[u32],
    told: &mut Vec<Vec<u8>>,
) -> Result<(), AllocError> {
    for symbol in letters {
        let mut words = symbol_text(symbols, *symbol).to_vec(alloc)?;
        words.extend_from_slice(LETTER)?;
        told.push(words)?;
    }
    Ok(())
}

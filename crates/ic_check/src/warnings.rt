//! What is legal in a system and mostly a mistake.

ghost use Rattle.std.specs.Prelude.{◌≡◌, ◌&&◌, ◌++◌, IfOk, OnOk, map};
ghost use Rattle.ic_term.specs.Term.{cell_tree, pair, tree};
ghost use Rattle.ic_check.specs.Warnings.{are_apart, has_use, AreWarnings, ruleless, ruleless_pairs, unused, unused_rules};
ghost use Rattle.ic_check.specs.inner.Growing.{holds};

use crate::findings::Finding;
use crate::letters::{count_of, looks_like_name};
use crate::meeting::are_apart;
use crate::names::{config_names, stands_once, tally};
use crate::reach::{holds, reach};
use crate::symbols::text_symbols;
use crate::words::warning_words;
use ic_names::NameTable;
use ic_rules::{Rule, RuleSet};
use ic_term::{Cell, Config, Equation, Symbols, Term};
use std::alloc::{AllocError, Global};

/// The warnings of a system, each kind in the order of the text.
#[derive(Drop)]
pub struct Warnings {
    /// The symbols of each equation of two agents that no rule takes apart.
    pub ruleless: Vec<(u32, u32)>,
    /// The symbols that stand just once in rules and configuration.
    pub once: Vec<u32>,
    /// The places, from 0, of the rules that no round ever uses.
    pub unused: Vec<usize>,
    /// The names that stand just once in the configuration.
    pub free: Vec<u64>,
    /// No two agents ever meet, and some rule isn't told as one that no round uses.
    pub none_meet: bool,
    /// The symbols that look like names.
    pub letters: Vec<u32>,
}

/// Appends the symbols of two agents that face each other, where no rule takes them apart.
fn put_facing(
    rules: &RuleSet,
    left: &Cell,
    right: &Cell,
    out: &mut Vec<(u32, u32)>,
) -> Result<(), AllocError>
    ensures { OnOk result (out.new.items ≡ out.old.items
        ++ ruleless rules.now.rules (cell_tree left.now) (cell_tree right.now)) }
{
    if rules.find(left.sym, right.sym).is_some() {
        return Ok(());
    }
    out.push((left.sym, right.sym))?;
    Ok(())
}

/// Appends the symbols of an equation of two agents that no rule takes apart.
fn put_ruleless(
    rules: &RuleSet,
    equation: &Equation,
    out: &mut Vec<(u32, u32)>,
) -> Result<(), AllocError>
    ensures { OnOk result (out.new.items ≡ out.old.items
        ++ ruleless rules.now.rules (tree equation.now.left) (tree equation.now.right)) }
{
    match (&equation.left, &equation.right) {
        (Term::Agent(left), Term::Agent(right)) => put_facing(rules, left, right, out),
        _ => Ok(()),
    }
}

/// The symbols of each equation of two agents that no rule takes apart.
fn ruleless_pairs(
    alloc: Global,
    rules: &RuleSet,
    equations: &[Equation],
) -> Result<Vec<(u32, u32)>, AllocError>
    ensures { IfOk result (λ pairs.
        pairs.items ≡ ruleless_pairs rules.now.rules (map pair equations.now)) }
{
    let mut pairs = Vec::new(alloc);
    for equation in equations {
        put_ruleless(rules, equation, &mut pairs)?;
    }
    Ok(pairs)
}

/// Appends a symbol, where it stands just once among these.
fn put_once(all: &[u32], symbol: u32, out: &mut Vec<u32>) -> Result<(), AllocError> {
    if count_of(all, symbol) == 1 {
        out.push(symbol)?;
    }
    Ok(())
}

/// The symbols that stand just once among these.
fn once_symbols(alloc: Global, all: &[u32], symbols: &Symbols) -> Result<Vec<u32>, AllocError> {
    let mut found = Vec::new(alloc);
    for symbol in 0..symbols.len() {
        put_once(all, symbol as u32, &mut found)?;
    }
    Ok(found)
}

/// Whether both symbols of a rule are among these.
fn may_be_used(seen: &[u32], rule: &Rule) -> bool
    ensures { result ≡ (holds seen.now rule.now.left && holds seen.now rule.now.right) }
{
    holds(seen, rule.left()) && holds(seen, rule.right())
}

/// Appends the place of a rule, where these symbols may come to stand, and they aren't both among them.
fn put_unused(seen: &[u32], at: usize, rule: &Rule, out: &mut Vec<usize>) -> Result<(), AllocError>
    ensures { OnOk result
        (out.new.items ≡ out.old.items ++ unused (holds seen.now) at rule.now) }
{
    if !may_be_used(seen, rule) {
        out.push(at)?;
    }
    Ok(())
}

/// The places of the rules that no round uses, where these symbols may come to stand.
fn unused_rules(alloc: Global, seen: &[u32], rules: &[Rule]) -> Result<Vec<usize>, AllocError>
    ensures { IfOk result (λ found. found.items ≡ unused_rules (holds seen.now) 0 rules.now) }
{
    let mut found = Vec::new(alloc);
    for (at, rule) in rules.iter().enumerate() {
        put_unused(seen, at, rule, &mut found)?;
    }
    Ok(found)
}

/// Appends a name, where it stands just once as names are counted.
fn put_free(counts: &NameTable, name: u64, out: &mut Vec<u64>) -> Result<(), AllocError> {
    if stands_once(counts, name) {
        out.push(name)?;
    }
    Ok(())
}

/// The names that stand just once among these.
fn free_names(alloc: Global, all: &[u64]) -> Result<Vec<u64>, AllocError> {
    let mut found = Vec::new(alloc);
    let counts = tally(alloc, all)?;
    for name in all {
        put_free(&counts, *name, &mut found)?;
    }
    Ok(found)
}

/// Whether both symbols of one of these rules are among these.
fn has_use(seen: &[u32], rules: &[Rule]) -> bool
    ensures { result ≡ has_use (holds seen.now) rules.now }
{
    for rule in rules {
        if may_be_used(seen, rule) {
            return true;
        }
    }
    false
}

/// Appends a symbol of this text and arity, where it looks like a name.
fn put_letter(
    alloc: Global,
    rules: &[Rule],
    symbol: u32,
    text: &[u8],
    arity: usize,
    out: &mut Vec<u32>,
) -> Result<(), AllocError> {
    if looks_like_name(alloc, rules, symbol, text, arity)? {
        out.push(symbol)?;
    }
    Ok(())
}

/// The symbols that look like names.
fn letter_symbols(
    alloc: Global,
    rules: &[Rule],
    symbols: &Symbols,
) -> Result<Vec<u32>, AllocError> {
    let mut found = Vec::new(alloc);
    for symbol in 0..symbols.len() {
        let number = symbol as u32;
        let text = symbols.text(number);
        let arity = symbols.arity(number);
        put_letter(alloc, rules, number, text, arity, &mut found)?;
    }
    Ok(found)
}

/// Whether no two agents can meet, and a rule may be used as far as the symbols tell that may come to stand.
fn none_meet(
    alloc: Global,
    seen: &[u32],
    rules: &[Rule],
    equations: &[Equation],
) -> Result<bool, AllocError>
    ensures { IfOk result (λ none. none
        ≡ (has_use (holds seen.now) rules.now && are_apart (map pair equations.now))) }
{
    if has_use(seen, rules) {
        are_apart(alloc, equations)
    } else {
        Ok(false)
    }
}

/// The warnings of a system. Which symbols and names stand once, and which symbols look like names, is tried.
pub fn find_warnings(
    alloc: Global,
    rules: &RuleSet,
    config: &Config,
) -> Result<Warnings, AllocError>
    ensures { IfOk result (AreWarnings rules.now config.now) }
{
    let listed = rules.rules();
    let symbols = rules.symbols();
    let equations = config.equations();
    let all = text_symbols(alloc, listed, config)?;
    let seen = reach(alloc, listed, config)?;
    let names = config_names(alloc, config)?;
    Ok(Warnings {
        ruleless: ruleless_pairs(alloc, rules, equations)?,
        once: once_symbols(alloc, &all, symbols)?,
        unused: unused_rules(alloc, &seen, listed)?,
        free: free_names(alloc, &names)?,
        none_meet: none_meet(alloc, &seen, listed, equations)?,
        letters: letter_symbols(alloc, listed, symbols)?,
    })
}

/// The warnings of a system that is a whole file, or stands in the line of this number, as they are told.
pub(crate) fn told_warnings(
    alloc: Global,
    line: Option<u64>,
    rules: &RuleSet,
    config: &Config,
) -> Result<Vec<Finding>, AllocError> {
    let warnings = find_warnings(alloc, rules, config)?;
    let mut told = Vec::new(alloc);
    for words in warning_words(alloc, rules, &warnings)? {
        told.push(Finding {
            line,
            column: None,
            fault: None,
            words,
        })?;
    }
    Ok(told)
}

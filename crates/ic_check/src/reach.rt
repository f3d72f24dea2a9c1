//! The symbols that rules can bring into a configuration.

ghost use Rattle.std.specs.Prelude.{◌≡◌, IfOk, IfSome, IsNone, OnOk};
ghost use Rattle.ic_check.specs.Warnings.{IsReach};
ghost use Rattle.ic_check.specs.inner.Growing.{AreMakings, Grows, HasNoReady, IsMaking, IsReadyAt, Joins, holds, with_symbol};

use crate::symbols::{made_symbols, put_config};
use ic_rules::Rule;
use ic_term::Config;
use std::alloc::{AllocError, Global};

/// What a rule makes of its two symbols.
#[derive(Drop)]
pub(crate) struct Making {
    pub left: u32,
    pub right: u32,
    pub made: Vec<u32>,
}

/// Whether a symbol is among these.
pub(crate) fn holds(symbols: &[u32], symbol: u32) -> bool
    ensures { result ≡ holds symbols.now symbol }
{
    symbols.contains(&symbol)
}

/// Adds a symbol to others, if it isn't among them.
fn add(symbol: u32, seen: &mut Vec<u32>) -> Result<(), AllocError>
    ensures { OnOk result (seen.new.items ≡ with_symbol seen.old.items symbol) }
{
    if !holds(seen, symbol) {
        seen.push(symbol)?;
    }
    Ok(())
}

/// Adds symbols to others, each once.
fn join(symbols: &[u32], seen: &mut Vec<u32>) -> Result<(), AllocError>
    ensures { OnOk result (Joins seen.old.items symbols.now seen.new.items) }
{
    for symbol in symbols {
        add(*symbol, seen)?;
    }
    Ok(())
}

/// What a rule makes.
fn making_of(alloc: Global, rule: &Rule) -> Result<Making, AllocError>
    ensures { IfOk result (λ making. IsMaking rule.now making) }
{
    let made = made_symbols(alloc, rule)?;
    Ok(Making {
        left: rule.left(),
        right: rule.right(),
        made,
    })
}

/// What each of these rules makes.
fn makings_of(alloc: Global, rules: &[Rule]) -> Result<Vec<Making>, AllocError>
    ensures { IfOk result (λ makings. AreMakings rules.now makings.items) }
{
    let mut makings = Vec::new(alloc);
    for rule in rules {
        makings.push(making_of(alloc, rule)?)?;
    }
    Ok(makings)
}

/// The place of the first of these both of whose symbols are seen.
fn ready(waiting: &[Making], seen: &[u32]) -> Option<usize>
    ensures ready { IfSome result (IsReadyAt seen.now waiting.now) }
    ensures none { IsNone result → HasNoReady seen.now waiting.now }
{
    for (place, making) in waiting.iter().enumerate() {
        if holds(seen, making.left) && holds(seen, making.right) {
            return Some(place);
        }
    }
    None
}

/// Adds to the symbols that are seen those that are made of them, again and again.
fn grow(mut waiting: Vec<Making>, seen: &mut Vec<u32>) -> Result<(), AllocError>
    ensures { OnOk result (Grows waiting.items seen.old.items seen.new.items) }
{
    while let Some(place) = ready(&waiting, seen) {
        let making = waiting.remove(place);
        join(&making.made, seen)?;
    }
    Ok(())
}

/// The symbols that may come to stand in the configuration, if these are the rules.
pub(crate) fn reach(alloc: Global, rules: &[Rule], config: &Config) -> Result<Vec<u32>, AllocError>
    ensures { IfOk result (λ seen. IsReach rules.now config.now (holds seen.items)) }
{
    let mut symbols = Vec::new(alloc);
    put_config(config, &mut symbols)?;
    let mut seen = Vec::new(alloc);
    join(&symbols, &mut seen)?;
    grow(makings_of(alloc, rules)?, &mut seen)?;
    Ok(seen)
}

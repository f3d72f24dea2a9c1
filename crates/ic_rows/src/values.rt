//! Values made by calls, out of parts that texts have, and what is answered where no text could ask for them.

use crate::flat::config_of;
use ic_flat::{Flat, FlatSystem};
use ic_notation::{Trouble, expanded, system_of};
use ic_rules::System;
use ic_term::{Config, ConfigFault, is_symbol};
use ic_text::{TextFault, print_fault};
use std::alloc::Global;

/// The place of the rule of two symbols, and whether it is turned.
pub fn found(alloc: Global, pair: u32, text: &[u8]) -> Result<Vec<u8>, Trouble> {
    let system = system_of(alloc, text)?;
    let place = system.rules().find(pair / 10, pair % 10);
    Ok(format!(in alloc; "{place:?}")?.into_bytes())
}

/// The configuration of a text, restored with another `next`.
pub fn restored(alloc: Global, next: u64, text: &[u8]) -> Result<Vec<u8>, Trouble> {
    let (_, config) = system_of(alloc, text)?.into_parts();
    let (interface, equations, _) = config.into_parts();
    let next = next_of(Config::restore(alloc, interface, equations, next));
    Ok(format!(in alloc; "{next:?}")?.into_bytes())
}

/// `next` of a configuration, or why there is none.
fn next_of(answer: Result<Config, ConfigFault>) -> Result<u64, ConfigFault> {
    match answer {
        Ok(config) => Ok(config.next()),
        Err(fault) => Err(fault),
    }
}

/// Whether the rules of a text and the configuration of another make a system, in both forms.
pub fn paired(alloc: Global, text: &str, other: &str) -> Result<Vec<u8>, Trouble> {
    let (rules, _) = system_of(alloc, &expanded(alloc, text)?)?.into_parts();
    let (_, config) = system_of(alloc, &expanded(alloc, other)?)?.into_parts();
    let flat = Flat::from_config(alloc, &config)?;
    let is_flat = FlatSystem::new(rules.clone()?, flat).is_some();
    let line = match (System::new(rules, config).is_some(), is_flat) {
        (true, true) => "a system",
        (false, false) => "none",
        _ => "the two forms differ",
    };
    Ok(Vec::from_slice(alloc, line.as_bytes())?)
}

/// The number of a symbol after those of a configuration's text.
pub fn numbered(alloc: Global, arity: usize, texts: &str) -> Result<Vec<u8>, Trouble> {
    let (symbol, text) = texts.split_once(" + ").unwrap_or((texts, ""));
    let symbol = expanded(alloc, symbol)?;
    if !is_symbol(&symbol) {
        return Ok(Vec::from_slice(alloc, b"no symbol")?);
    }
    let (mut symbols, _) = config_of(alloc, text)?;
    let number = symbols.number(&symbol, arity);
    Ok(format!(in alloc; "{number:?}")?.into_bytes())
}

/// The line of a fault that no text has.
pub fn fault_line(alloc: Global, number: u32, word: &[u8]) -> Result<Vec<u8>, Trouble> {
    let fault = match word {
        b"lopsided" => TextFault::Lopsided(number),
        _ => TextFault::Memory,
    };
    Ok(print_fault(alloc, &fault)?)
}

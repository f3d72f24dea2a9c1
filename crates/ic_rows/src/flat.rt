//! Configurations of texts in flat form.

use crate::words::described;
use ic_flat::Flat;
use ic_notation::{Trouble, expanded};
use ic_term::{Config, Symbols};
use ic_text::read_config;
use std::alloc::Global;

/// The configuration of a text, with its symbols.
pub fn config_of(alloc: Global, text: &str) -> Result<(Symbols, Config), Trouble> {
    match read_config(alloc, &expanded(alloc, text)?) {
        Ok(read) => Ok(read),
        Err(_) => Err(Trouble("a text is refused")),
    }
}

/// The configuration of a text in flat form.
fn flat_of(alloc: Global, text: &str) -> Result<Flat, Trouble> {
    let (_, config) = config_of(alloc, text)?;
    Ok(Flat::from_config(alloc, &config)?)
}

/// The words of a configuration.
pub fn words(alloc: Global, text: &str) -> Result<Vec<u8>, Trouble> {
    let flat = flat_of(alloc, text)?;
    described(alloc, &flat)
}

/// Whether two configurations are the same.
pub fn are_same(alloc: Global, one: &str, other: &str) -> Result<Vec<u8>, Trouble> {
    let one = flat_of(alloc, one)?;
    let other = flat_of(alloc, other)?;
    told(alloc, one == other, "the same", "differ")
}

/// Whether a configuration is over the symbols of another.
pub fn are_over(alloc: Global, one: &str, other: &str) -> Result<Vec<u8>, Trouble> {
    let flat = flat_of(alloc, other)?;
    let (symbols, _) = config_of(alloc, one)?;
    told(alloc, ic_flat::over(&symbols, &flat), "over", "not over")
}

fn told(alloc: Global, holds: bool, yes: &str, no: &str) -> Result<Vec<u8>, Trouble> {
    let line = if holds { yes } else { no };
    Ok(Vec::from_slice(alloc, line.as_bytes())?)
}

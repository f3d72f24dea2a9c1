//! Systems of texts, and the texts of configurations.

use crate::trouble::Trouble;
use ic_rules::{RuleSet, System};
use ic_term::{Config, over};
use ic_text::{print_config, read_system};
use std::alloc::Global;

/// The system of a text that is read.
pub fn system_of(alloc: Global, text: &[u8]) -> Result<System, Trouble> {
    match read_system(alloc, text) {
        Ok(system) => Ok(system),
        Err(_) => Err(Trouble("a text is refused")),
    }
}

/// The text of a configuration.
pub fn printed(alloc: Global, rules: &RuleSet, config: &Config) -> Result<Vec<u8>, Trouble> {
    let symbols = rules.symbols();
    if !over(symbols, config) {
        return Err(Trouble("not over the symbols"));
    }
    Ok(print_config(alloc, symbols, config)?)
}

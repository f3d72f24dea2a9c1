//! Single steps.

use ic_notation::{Trouble, printed, system_of};
use ic_reference::{collect_at, indirect_at, interact_at};
use ic_rules::RuleSet;
use ic_term::{Config, over};
use std::alloc::Global;

/// The text after a single step at a place, or why there is none.
pub fn step(alloc: Global, kind: &str, place: usize, text: &[u8]) -> Result<Vec<u8>, Trouble> {
    let (rules, config) = system_of(alloc, text)?.into_parts();
    line_of_step(alloc, kind, place, &rules, &config)
}

fn line_of_step(
    alloc: Global,
    kind: &str,
    place: usize,
    rules: &RuleSet,
    config: &Config,
) -> Result<Vec<u8>, Trouble> {
    if !over(rules.symbols(), config) {
        return Err(Trouble("not over the symbols"));
    }
    let answer = match kind {
        "interact" => interact_at(alloc, rules, config, place),
        "indirect" => indirect_at(alloc, config, place),
        _ => collect_at(alloc, config, place),
    };
    match answer {
        Ok(after) => printed(alloc, rules, &after),
        Err(fault) => Ok(format!(in alloc; "{fault:?}")?.into_bytes()),
    }
}

//! Rounds by terms and by words.

use ic_flat::Flat;
use ic_flat_round::{FlatRules, quiet};
use ic_notation::{Trouble, printed, system_of};
use ic_term::{Config, over};
use std::alloc::Global;

/// The text after at most so many rounds of a system, the same by terms and by words.
pub fn alike(alloc: Global, most: u64, text: &[u8]) -> Result<Vec<u8>, Trouble> {
    let (rules, config) = system_of(alloc, text)?.into_parts();
    let rules = FlatRules::new(alloc, rules)?;
    let end = after_rounds(alloc, &rules, config, most)?;
    printed(alloc, rules.rules(), &end)
}

/// The configuration after at most so many rounds.
fn after_rounds(
    alloc: Global,
    rules: &FlatRules,
    start: Config,
    most: u64,
) -> Result<Config, Trouble> {
    let mut config = start;
    for _ in 0..most {
        let flat = Flat::from_config(alloc, &config)?;
        if quiet(rules.rules(), &flat) {
            break;
        }
        config = round_by_both(alloc, rules, config, &flat)?;
    }
    Ok(config)
}

/// The configuration after a round, if both forms come to the same.
fn round_by_both(
    alloc: Global,
    rules: &FlatRules,
    config: Config,
    flat: &Flat,
) -> Result<Config, Trouble> {
    let by_words = round_of_words(alloc, rules, flat)?;
    if !over(rules.rules().symbols(), &config) {
        return Err(Trouble("not over the symbols"));
    }
    match ic_reference::round(alloc, rules.rules(), config) {
        Ok(after) if after == by_words => Ok(after),
        _ => Err(Trouble("no round by terms, or another one")),
    }
}

fn round_of_words(alloc: Global, rules: &FlatRules, flat: &Flat) -> Result<Config, Trouble> {
    if !ic_flat::over(rules.rules().symbols(), flat) {
        return Err(Trouble("not over the symbols"));
    }
    match ic_flat_round::round(alloc, rules, flat) {
        Ok(after) => Ok(after.to_config(alloc)?),
        Err(_) => Err(Trouble("no round by words")),
    }
}

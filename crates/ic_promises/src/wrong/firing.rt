//! Rounds that fire other equations than those which are active at the start, or number fresh names otherwise.

ghost use Rattle.std.specs.Prelude.{IsTrue, IfOk, IfErr, IfSome, Err};
ghost use Rattle.ic_term.specs.Symbol.{is_over};
ghost use Rattle.ic_round.specs.Steps.{Steps};
ghost use Rattle.ic_round.specs.Rounds.{round, unless_unfit};
ghost use Rattle.ic_round.specs.RoundAnswers.{Answers};

use ic_pool::PoolFault;
use ic_reference::{Plan, interact_at, plan, round, settle};
use ic_round::{Fired, RoundFault, Work, fire};
use ic_rules::RuleSet;
use ic_term::{Config, copy_terms, over};
use std::alloc::{AllocError, Global};

/// Makes a round, and then fires the first equation of what it has made.
pub fn fires_a_new_one(alloc: Global, rules: &RuleSet, config: Config) -> Result<Config, RoundFault>
    requires { IsTrue (is_over rules.now.symbols config) }
    ensures refused { IfErr result (λ fault. Answers (Err fault)
        (unless_unfit rules.now.rules config (round rules.now.rules config))) }
    ensures reached { IfOk result (λ after. Steps rules.now.rules config after) }
    ensures over { IfOk result (λ after. IsTrue (is_over rules.now.symbols after)) }
{
    let after = round(alloc, rules, config)?;
    match interact_at(alloc, rules, &after, 0) {
        Ok(further) => Ok(settle(alloc, further)?),
        Err(_) => Ok(after),
    }
}

/// Fires only the first active equation, and settles. Refuses what a round refuses.
pub fn fires_only_the_first(
    alloc: Global,
    rules: &RuleSet,
    config: Config,
) -> Result<Config, RoundFault>
    requires { IsTrue (is_over rules.now.symbols config) }
    ensures refused { IfErr result (λ fault. Answers (Err fault)
        (unless_unfit rules.now.rules config (round rules.now.rules config))) }
    ensures reached { IfOk result (λ after. Steps rules.now.rules config after) }
    ensures over { IfOk result (λ after. IsTrue (is_over rules.now.symbols after)) }
{
    round(alloc, rules, config.copy(alloc)?)?;
    match first_fired(alloc, rules, &config) {
        Some(fired) => Ok(settle(alloc, fired)?),
        None => Ok(settle(alloc, config)?),
    }
}

/// The configuration with the first equation fired that can be.
fn first_fired(alloc: Global, rules: &RuleSet, config: &Config) -> Option<Config>
    requires { IsTrue (is_over rules.now.symbols config.now) }
    ensures reached { IfSome result (λ after. Steps rules.now.rules config.now after) }
    ensures over { IfSome result (λ after. IsTrue (is_over rules.now.symbols after)) }
{
    for place in 0..config.equations().len() {
        if let Ok(after) = interact_at(alloc, rules, config, place) {
            return Some(after);
        }
    }
    None
}

/// Fires from the last active equation to the first, and counts fresh names up as it does: so they are numbered in the
/// order of firing.
pub fn numbers_names_by_firing(
    alloc: Global,
    rules: &RuleSet,
    config: Config,
) -> Result<Config, PoolFault>
    requires { IsTrue (is_over rules.now.symbols config) }
    ensures over { IfOk result (λ after. IsTrue (is_over rules.now.symbols after)) }
{
    let before = config.copy(alloc)?;
    let Plan { works, rest: _ } = plan(alloc, rules, config)?;
    let (results, next) = fire_backwards(alloc, rules, works, before.next())?;
    let fired = put_back(alloc, &before, results, next)?;
    let after = settle(alloc, fired)?;
    if over(rules.symbols(), &after) {
        Ok(after)
    } else {
        Err(PoolFault::Lost)
    }
}

/// The results of works from the last to the first, their fresh names counted up, and the next name.
fn fire_backwards(
    alloc: Global,
    rules: &RuleSet,
    mut works: Vec<Work>,
    first: u64,
) -> Result<(Vec<Fired>, u64), AllocError> {
    let mut next = first;
    let mut results = Vec::new(alloc);
    works.reverse();
    for work in works {
        let work = Work { base: next, ..work };
        next = next.saturating_add(names_of(rules, work.rule));
        if !work.suits(rules) {
            return Err(AllocError);
        }
        results.push(fire(alloc, rules, work)?)?;
    }
    Ok((results, next))
}

/// How many names the rule at a place has.
fn names_of(rules: &RuleSet, place: usize) -> u64 {
    match rules.rules().get(place) {
        Some(rule) => rule.names() as u64,
        None => 0,
    }
}

/// A configuration with the products of results in their places. The results stand from the last place to the first.
fn put_back(
    alloc: Global,
    before: &Config,
    mut results: Vec<Fired>,
    next: u64,
) -> Result<Config, AllocError> {
    let mut equations = Vec::new(alloc);
    for (place, equation) in before.equations().iter().enumerate() {
        match result_for(&mut results, place as u64) {
            Some(mut fired) => equations.append(&mut fired.products)?,
            None => equations.push(equation.copy(alloc)?)?,
        }
    }
    let interface = copy_terms(alloc, before.interface())?;
    match Config::restore(alloc, interface, equations, next) {
        Ok(after) => Ok(after),
        Err(_) => Err(AllocError),
    }
}

/// The last result, where it is for this place.
fn result_for(results: &mut Vec<Fired>, place: u64) -> Option<Fired> {
    if results.last()?.place == place {
        results.pop()
    } else {
        None
    }
}

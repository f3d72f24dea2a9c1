//! A round in one call.

ghost use Rattle.std.specs.Prelude.{◌≡◌, ℕ, ◌+◌, map, IsTrue, IfOk};
ghost use Rattle.std.specs.List.{AllByRecursion};
ghost use Rattle.ic_term.specs.Symbol.{is_over};
ghost use Rattle.ic_term.specs.Configuration.{Configuration};
ghost use Rattle.ic_round.specs.Steps.{Steps};
ghost use Rattle.ic_round.specs.Rounds.{round, iterate, unless_unfit};
ghost use Rattle.ic_round.specs.RoundAnswers.{Answers};
ghost use Rattle.ic_round.specs.Works.{suits, result_of};
ghost use Rattle.ic_round.specs.WorkViews.{work_of, fired_of};

use crate::gathering::gather;
use crate::planning::plan;
use crate::settling::settle;
use ic_round::{Fired, GatherFault, RoundFault, Work, fire};
use ic_rules::RuleSet;
use ic_term::Config;
use std::alloc::{AllocError, Global};

/// The configuration after one round, made by the calling thread alone.
pub fn round(alloc: Global, rules: &RuleSet, config: Config) -> Result<Config, RoundFault>
    requires { IsTrue (is_over rules.now.symbols config) }
    ensures round { Answers result
        (unless_unfit rules.now.rules config (round rules.now.rules config)) }
    ensures reached { IfOk result (λ after. Steps rules.now.rules config after) }
    ensures over { IfOk result (λ after. IsTrue (is_over rules.now.symbols after)) }
    ensures counted { IfOk result (λ after. (start : Configuration) (n : ℕ)
        → config ≡ iterate rules.now.rules n start
        → after ≡ iterate rules.now.rules (n + 1) start) }
{
    let plan = plan(alloc, rules, config)?;
    let results = fire_all(alloc, rules, plan.works)?;
    match gather(alloc, plan.rest, results) {
        Ok(fired) => Ok(settle(alloc, fired)?),
        Err(GatherFault::Memory) => Err(RoundFault::Memory),
        Err(_) => unreachable!(),
    }
}

/// The results of works, in their order.
fn fire_all(alloc: Global, rules: &RuleSet, works: Vec<Work>) -> Result<Vec<Fired>, AllocError>
    requires { AllByRecursion (λ w. IsTrue (suits rules.now.rules w)) (map work_of works.items) }
    ensures { IfOk result (λ results. map fired_of results.items
        ≡ map (result_of rules.now.rules) (map work_of works.items)) }
{
    let mut results = Vec::with_capacity(alloc, works.len())?;
    for work in works {
        results.push(fire(alloc, rules, work)?)?;
    }
    Ok(results)
}

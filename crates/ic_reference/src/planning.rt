//! The works of a round.

ghost use Rattle.std.specs.Prelude.{◌≡◌, List, Ok, map, IsTrue, IfOk, OnOk, IsPermutation};
ghost use Rattle.std.specs.List.{All, AllByRecursion, Contains};
ghost use Rattle.ic_term.specs.Symbol.{is_over};
ghost use Rattle.ic_term.specs.Configuration.{Configuration, IsConfiguration};
ghost use Rattle.ic_round.specs.Firing.{fired};
ghost use Rattle.ic_round.specs.ActivePlaces.{active, bases};
ghost use Rattle.ic_round.specs.Works.{PlainFired, suits, result_of};
ghost use Rattle.ic_round.specs.WorkViews.{work_of};
ghost use Rattle.ic_round.specs.Gathering.{gathered};
ghost use Rattle.ic_round.specs.Plans.{planned};
ghost use Rattle.ic_reference.specs.Plans.{shown};
ghost use Rattle.ic_round.specs.Rounds.{unless_unfit};
ghost use Rattle.ic_round.specs.RoundAnswers.{Answers};

use crate::growth::fired_size;
use crate::plans::Plan;
use crate::rest::Rest;
use crate::separation::separate;
use ic_round::RoundFault;
use ic_rules::RuleSet;
use ic_term::{Config, MAX_NEXT, MAX_NODES};
use std::alloc::Global;

/// The works of a round of the configuration, and what is left of it. The cells of active equations
/// are moved into their works.
pub fn plan(alloc: Global, rules: &RuleSet, config: Config) -> Result<Plan, RoundFault>
    requires { IsTrue (is_over rules.now.symbols config) }
    ensures plan { Answers (shown result)
        (unless_unfit rules.now.rules config (planned rules.now.rules config)) }
    ensures places { IfOk result (λ plan.
        map (λ w. w.place) plan.works.items ≡ active rules.now.rules config) }
    ensures bases { IfOk result (λ plan.
        map (λ w. w.base) plan.works.items ≡ bases rules.now.rules config) }
    ensures suit { IfOk result (λ plan.
        AllByRecursion (λ w. IsTrue (suits rules.now.rules w)) (map work_of plan.works.items)) }
    ensures fired { OnOk result (IsConfiguration (fired rules.now.rules config)) }
    ensures over { OnOk result (IsTrue (is_over rules.now.symbols (fired rules.now.rules config))) }
    ensures any_order { IfOk result (λ plan. (results : List PlainFired)
        → IsPermutation (map (result_of rules.now.rules) (map work_of plan.works.items)) results
        → gathered plan.rest results ≡ Ok (fired rules.now.rules config)) }
    ensures any_results { IfOk result (λ plan. (results : List PlainFired) (whole : Configuration)
        → All (Contains (map (result_of rules.now.rules) (map work_of plan.works.items))) results
        → gathered plan.rest results ≡ Ok whole → whole ≡ fired rules.now.rules config) }
{
    let size = fired_size(rules, &config);
    if size.nodes > MAX_NODES {
        return Err(RoundFault::Overgrown);
    }
    if size.names > MAX_NEXT {
        return Err(RoundFault::NamesOut);
    }
    let (interface, equations, next) = config.into_parts();
    let separated = separate(alloc, rules, equations, next)?;
    Ok(Plan {
        works: separated.works,
        rest: Rest::new(interface, separated.equations, separated.next),
    })
}

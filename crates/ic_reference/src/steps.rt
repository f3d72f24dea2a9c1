//! Single steps at a place.

ghost use Rattle.std.specs.Prelude.{◌≡◌, ◌<◌, List, Err, Some, IfOk, IfSome, IsTrue, length, map, slice_get};
ghost use Rattle.ic_term.specs.Tree.{Pair};
ghost use Rattle.ic_term.specs.Symbol.{Symbol, is_over};
ghost use Rattle.ic_term.specs.Configuration.{Configuration};
ghost use Rattle.ic_term.specs.Term.{pair};
ghost use Rattle.ic_round.specs.Firing.{fired_pair};
ghost use Rattle.ic_round.specs.Steps.{Interaction, Indirection, Collect};
ghost use Rattle.ic_reference.specs.SingleSteps.{interacted, indirected, collected};
ghost use Rattle.ic_reference.specs.StepAnswers.{Answers, Outgrows, stepped, stepped_within};
ghost use Rattle.ic_reference.specs.inner.Replacing.{fired_at, IsReady, Applies, applied_at};
ghost use Rattle.ic_reference.specs.declared.steps.StepFault.TheVariants.{NotThere, Limit, Memory};

use crate::applicability::{applicable_side, other_side};
use crate::growth::{fired_size_of, rule_of};
use crate::separation::{Oriented, orient};
use crate::substitution::substitute;
use ic_round::{Work, fire};
use ic_rules::RuleSet;
use ic_settle::Applicable;
use ic_term::{Config, Equation, MAX_NEXT, MAX_NODES};
use std::alloc::{AllocError, Global};

/// Why a step isn't made, in the order in which it is tried.
#[derive(Clone, Copy, Debug, PartialEq, Eq)]
pub enum StepFault {
    /// There is no such step at the place.
    NotThere,
    /// After an interaction the configuration has more than 8,192 nodes, or its `next` is above
    /// 2^62.
    Limit,
    /// A growth was refused.
    Memory,
}

impl From<AllocError> for StepFault {
    ghost from_gives = { λ _ fault. fault ≡ Memory };

    fn from(_error: AllocError) -> StepFault {
        StepFault::Memory
    }
}

/// The configuration after an interaction at a place. Its fresh names begin at `next`.
pub fn interact_at(
    alloc: Global,
    rules: &RuleSet,
    config: &Config,
    place: usize,
) -> Result<Config, StepFault>
    requires { IsTrue (is_over rules.now.symbols config.now) }
    ensures exact { Answers result (stepped_within (interacted rules.now.rules config.now place)) }
    ensures step { IfOk result (λ after. Interaction rules.now.rules config.now after place) }
    ensures not_there { result ≡ Err NotThere
        → (after : Configuration) → ¬ Interaction rules.now.rules config.now after place }
    ensures limit { result ≡ Err Limit → Outgrows rules.now.rules config.now place }
    ensures over { IfOk result (λ after. IsTrue (is_over rules.now.symbols after)) }
{
    let Some(equation) = config.equations().get(place) else {
        return Err(StepFault::NotThere);
    };
    if rule_of(rules, equation).is_none() {
        return Err(StepFault::NotThere);
    }
    let size = fired_size_of(rules, equation);
    let nodes = (config.nodes() - equation.nodes()).saturating_add(size.nodes);
    let next = config.next().saturating_add(size.names);
    if nodes > MAX_NODES || next > MAX_NEXT {
        return Err(StepFault::Limit);
    }
    let (interface, equations, base) = config.copy(alloc)?.into_parts();
    let equations = fire_at(alloc, rules, equations, place, base)?;
    Ok(Config::from_parts(interface, equations, next))
}

/// The equations with the one at a place fired, if it is active. Its fresh names begin at the base.
fn fire_at(
    alloc: Global,
    rules: &RuleSet,
    mut equations: Vec<Equation>,
    place: usize,
    base: u64,
) -> Result<Vec<Equation>, AllocError>
    requires there { place < length equations.items }
    requires ready { IfSome (slice_get (map pair equations.items) place)
        (IsReady rules.now.rules base place) }
    ensures { IfOk result (λ all. map pair all.items
        ≡ fired_at rules.now.rules base (map pair equations.items) place) }
{
    let mut after = equations.split_off(place)?;
    let mut products = products_of(alloc, rules, after.remove(0), place, base)?;
    equations.append(&mut products)?;
    equations.append(&mut after)?;
    Ok(equations)
}

/// The products of an active equation, their fresh names from the base on, or else the equation
/// itself.
fn products_of(
    alloc: Global,
    rules: &RuleSet,
    equation: Equation,
    place: usize,
    base: u64,
) -> Result<Vec<Equation>, AllocError>
    requires { IsReady rules.now.rules base place (pair equation) }
    ensures { IfOk result (λ all. map pair all.items
        ≡ fired_pair rules.now.rules base (pair equation)) }
{
    match orient(rules, equation) {
        Oriented::Active { rule, left, right } => {
            let work = Work {
                place: place as u64,
                rule,
                base,
                left,
                right,
            };
            Ok(fire(alloc, rules, work)?.products)
        }
        Oriented::Inert(equation) => Ok(vec![in alloc; equation]?),
    }
}

/// The configuration after an indirection at a place. Where both sides would do, the left name is
/// used.
pub fn indirect_at(alloc: Global, config: &Config, place: usize) -> Result<Config, StepFault>
    ensures exact { Answers result (stepped (indirected config.now place)) }
    ensures step { IfOk result (λ after. Indirection config.now after place) }
    ensures not_there { result ≡ Err NotThere
        → (after : Configuration) → ¬ Indirection config.now after place }
    ensures over { IfOk result (λ after. (symbols : List Symbol)
        → IsTrue (is_over symbols config.now) → IsTrue (is_over symbols after)) }
{
    let equations = config.equations();
    let Some(equation) = equations.get(place) else {
        return Err(StepFault::NotThere);
    };
    match applicable_side(&[], &equations[..place], equation, &equations[place + 1..]) {
        None => Err(StepFault::NotThere),
        Some(applicable) => Ok(apply_at(config.copy(alloc)?, place, applicable)),
    }
}

/// The configuration after a collect at a place. Where both sides would do, the left name is used.
pub fn collect_at(alloc: Global, config: &Config, place: usize) -> Result<Config, StepFault>
    ensures exact { Answers result (stepped (collected config.now place)) }
    ensures step { IfOk result (λ after. Collect config.now after place) }
    ensures not_there { result ≡ Err NotThere
        → (after : Configuration) → ¬ Collect config.now after place }
    ensures over { IfOk result (λ after. (symbols : List Symbol)
        → IsTrue (is_over symbols config.now) → IsTrue (is_over symbols after)) }
{
    let Some(equation) = config.equations().get(place) else {
        return Err(StepFault::NotThere);
    };
    match applicable_side(config.interface(), &[], equation, &[]) {
        None => Err(StepFault::NotThere),
        Some(applicable) => Ok(apply_at(config.copy(alloc)?, place, applicable)),
    }
}

/// The configuration without the equation at a place, its other side put for the name of its
/// applicable side.
fn apply_at(config: Config, place: usize, applicable: Applicable) -> Config
    requires { Applies config place applicable }
    ensures step { (p : Pair) → slice_get config.equations place ≡ Some p
        → result ≡ applied_at config place applicable p }
    ensures over { (symbols : List Symbol)
        → IsTrue (is_over symbols config) → IsTrue (is_over symbols result) }
{
    let (mut interface, mut equations, next) = config.into_parts();
    let equation = equations.remove(place);
    let term = other_side(equation, applicable.side);
    substitute(&mut interface, &mut equations, applicable.name, term);
    Config::from_parts(interface, equations, next)
}

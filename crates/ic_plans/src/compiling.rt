//! The plans of a rule set.

ghost use Rattle.std.specs.Prelude.{◌≡◌, ℕ, ◌+◌, ◌^◌, ◌<◌, ◌≤◌, map, length, slice_get, IfOk, IfSome, IsSome, OnOk};
ghost use Rattle.ic_term.specs.Term.{tree};
ghost use Rattle.ic_rules.specs.RuleSet.{rule_for};
ghost use Rattle.ic_machine.specs.Plan.{planned, number_of, ArePlans};
ghost use Rattle.ic_meaning.specs.Plans.{ArePlansOf, met_as};
ghost use Rattle.ic_plans.specs.inner.Entries.{ArePlanned, Continues, arities_of};
ghost use Rattle.ic_plans.specs.inner.Registers.{IsPlanFor};

use crate::rule::plan_of_arguments;
use ic_machine::{Plan, Program};
use ic_rules::{Rule, RuleSet};
use ic_term::{Symbols, Term};
use std::alloc::{AllocError, Global};

/// The plans of all pairs of symbols that have a rule, and the numbers of the rules, by the places of their plans. A
/// pair is met in both orders, so a rule of two symbols has two plans. Takes time by the rules, each with its nodes, and
/// by the symbols.
pub fn compile(alloc: Global, rules: &RuleSet) -> Result<(Program, Vec<u32>), AllocError>
    ensures arities { IfOk result
        (λ made. made.0.arities ≡ map (λ s. s.arity) rules.now.symbols) }
    ensures sound { IfOk result (λ made. ArePlans made.0) }
    ensures numbers { IfOk result (λ made. length made.1.items ≡ length made.0.plans) }
    ensures plans { IfOk result (λ made. ArePlansOf rules.now made.1.items made.0) }
{
    let arities = arities_of(alloc, rules.symbols())?;
    let mut program = Program::new(alloc, arities)?;
    let mut numbers = Vec::new(alloc);
    for rule in rules.rules() {
        let (left, right) = (rule.left(), rule.right());
        add_pair(alloc, rules, left, right, &mut program, &mut numbers)?;
        add_pair(alloc, rules, right, left, &mut program, &mut numbers)?;
    }
    Ok((program, numbers))
}

/// How many arguments each symbol has.
fn arities_of(alloc: Global, symbols: &Symbols) -> Result<Vec<u32>, AllocError>
    ensures { IfOk result (λ arities. arities.items ≡ map (λ s. s.arity) symbols.now) }
{
    let mut arities = Vec::with_capacity(alloc, symbols.len())?;
    for symbol in 0..symbols.len() {
        arities.push(symbols.arity(symbol as u32) as u32)?;
    }
    Ok(arities)
}

/// Adds the plan of two symbols, and the number of their rule, if they have a rule and no plan yet.
fn add_pair(
    alloc: Global,
    rules: &RuleSet,
    a: u32,
    b: u32,
    program: &mut Program,
    numbers: &mut Vec<u32>,
) -> Result<(), AllocError>
    requires planned { ArePlanned rules.now numbers.old.items program.old }
    requires a { a < length program.old.arities }
    requires b { b < length program.old.arities }
    requires few { length program.old.plans < 2 ^ 32 }
    ensures planned { OnOk result (ArePlanned rules.now numbers.new.items program.new) }
    ensures pair { OnOk result
        (IsSome (rule_for rules.now.rules a b) → IsSome (number_of program.new a b)) }
    ensures pairs { OnOk result (Continues program.old.pairs program.new.pairs) }
    ensures few { OnOk result (length program.new.plans ≤ length program.old.plans + 1) }
{
    if program.plan(a, b).is_some() {
        return Ok(());
    }
    let Some((number, turned)) = rules.find(a, b) else {
        return Ok(());
    };
    let plan = plan_of_rule(alloc, rules, number, turned)?;
    numbers.push(number as u32)?;
    program.add(a, b, plan)
}

/// The plan of a rule as two agents meet it.
fn plan_of_rule(
    alloc: Global,
    rules: &RuleSet,
    number: usize,
    turned: bool,
) -> Result<Plan, AllocError>
    requires { number < length rules.now.rules }
    ensures { IfOk result (λ plan. IfSome (slice_get rules.now.rules number)
        (λ r. IsPlanFor (arities_of rules.now) (met_as turned r) (planned plan))) }
{
    let rule = &rules.rules()[number];
    let count = rules.symbols().len() as u32;
    let (left, right) = arguments(rule, turned);
    plan_of_arguments(alloc, count, rule.names(), left, right)
}

/// The arguments of a rule as two agents meet it.
fn arguments(rule: &Rule, turned: bool) -> (&[Term], &[Term])
    ensures left { map tree result.0.now ≡ (met_as turned rule.now).left_args }
    ensures right { map tree result.1.now ≡ (met_as turned rule.now).right_args }
{
    if turned {
        (rule.right_args(), rule.left_args())
    } else {
        (rule.left_args(), rule.right_args())
    }
}

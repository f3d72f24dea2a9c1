//! The works of a round, made of its active equations alone.

ghost use Rattle.std.specs.Prelude.{◌≡◌, ◌≤◌, Some, map, IfOk, OnOk, IsTrue};
ghost use Rattle.std.specs.List.{AllByRecursion};
ghost use Rattle.ic_term.specs.Symbol.{is_over};
ghost use Rattle.ic_term.specs.declared.limits.TheConstants.{MAX_NEXT};
ghost use Rattle.ic_term.specs.Term.{tree, pair};
ghost use Rattle.ic_rules.specs.RuleSet.{IsRuleSet};
ghost use Rattle.ic_flat.specs.Words.{IsWhole};
ghost use Rattle.ic_round.specs.Firing.{oriented, fired};
ghost use Rattle.ic_round.specs.Works.{suits, works_from};
ghost use Rattle.ic_round.specs.WorkViews.{work_of};
ghost use Rattle.ic_round.specs.Plans.{planned};
ghost use Rattle.ic_round.specs.Rounds.{fits, unless_unfit};
ghost use Rattle.ic_round.specs.RoundAnswers.{Answers};
ghost use Rattle.ic_flat_round.specs.PlainWorks.{shown};
ghost use Rattle.ic_flat_round.specs.inner.Activity.{is_agent};
ghost use Rattle.ic_flat_rules.specs.Standing.{pair_at, AreSides, IsEquationsPlace};

use ic_flat::{Flat, Word, terms_of};
use ic_flat_rules::{Sides, equations_place, fits_from, refusal, rule_of, sides_at};
use ic_round::{RoundFault, Work};
use ic_rules::RuleSet;
use ic_term::{Equation, Term};
use std::alloc::{AllocError, Global};

/// The works of a round, in the order of their places: one for each active equation, whose cells are made of its words.
/// What isn't active stays words. Takes memory in proportion to the nodes of the active equations.
pub fn works(alloc: Global, rules: &RuleSet, flat: &Flat) -> Result<Vec<Work>, RoundFault>
    requires { IsTrue (is_over rules.now.symbols flat.now) }
    ensures works { Answers (shown result)
        (unless_unfit rules.now.rules flat.now (planned rules.now.rules flat.now).works) }
    ensures suit { IfOk result (λ works.
        AllByRecursion (λ w. IsTrue (suits rules.now.rules w)) (map work_of works.items)) }
    ensures fitting { OnOk result (IsTrue (fits rules.now.rules flat.now)) }
{
    let place = equations_place(flat);
    if !fits_from(rules, flat, place) {
        return Err(refusal(rules, flat, place));
    }
    Ok(active_works(alloc, rules, flat, place)?)
}

/// The works of a configuration, whose equations begin at this place.
fn active_works(
    alloc: Global,
    rules: &RuleSet,
    flat: &Flat,
    place: usize,
) -> Result<Vec<Work>, AllocError>
    requires place { IsEquationsPlace flat.now place }
    requires low { (fired rules.now.rules flat.now).next ≤ MAX_NEXT }
    ensures works { IfOk result (λ works. map work_of works.items
        ≡ works_from rules.now.rules 0 flat.now.next flat.now.equations) }
    ensures sound { IsRuleSet rules.now }
{
    let known = rules.rules();
    let words = flat.words();
    let mut works = Vec::new(alloc);
    let mut place = place;
    let mut number = 0u64;
    let mut next = flat.next();
    while place < words.len() {
        let sides = sides_at(words, place);
        if let Some((rule, turned)) = rule_of(rules, words, sides) {
            let equation = equation_at(alloc, words, sides)?;
            works.push(oriented_work(number, next, rule, turned, equation))?;
            next += known[rule].names() as u64;
        }
        number += 1;
        place = sides.end;
    }
    Ok(works)
}

/// The equation of two sides, made of its words.
fn equation_at(alloc: Global, words: &[Word], sides: Sides) -> Result<Equation, AllocError>
    requires whole { IsWhole words.now }
    requires sides { AreSides words.now sides }
    ensures { IfOk result (λ equation. pair equation ≡ pair_at words.now sides) }
{
    let mut stack = terms_of(alloc, &words[sides.left..sides.end])?;
    let Some(left) = stack.pop() else {
        unreachable!()
    };
    let Some(right) = stack.pop() else {
        unreachable!()
    };
    Ok(Equation { left, right })
}

/// The work of an equation of two agents, whose rule stands at this place, with its sides turned round where the rule
/// has them so.
fn oriented_work(number: u64, base: u64, rule: usize, turned: bool, equation: Equation) -> Work
    requires left { is_agent (tree equation.left) }
    requires right { is_agent (tree equation.right) }
    ensures place { result.place ≡ number }
    ensures base { result.base ≡ base }
    ensures active { oriented (tree equation.left) (tree equation.right) (Some (rule, turned))
        ≡ Some (work_of result).active }
{
    let (Term::Agent(left), Term::Agent(right)) = (equation.left, equation.right) else {
        unreachable!()
    };
    let (left, right) = if turned { (right, left) } else { (left, right) };
    Work {
        place: number,
        rule,
        base,
        left,
        right,
    }
}

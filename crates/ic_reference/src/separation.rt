//! Active equations parted from the others.

ghost use Rattle.std.specs.Prelude.{◌≡◌, ◌≤◌, map, option_map, IfOk};
ghost use Rattle.ic_term.specs.declared.limits.TheConstants.{MAX_NEXT};
ghost use Rattle.ic_term.specs.Term.{pair};
ghost use Rattle.ic_rules.specs.RuleSet.{IsRuleSet};
ghost use Rattle.ic_round.specs.Firing.{next_after};
ghost use Rattle.ic_round.specs.Works.{works_from};
ghost use Rattle.ic_round.specs.WorkViews.{work_of};
ghost use Rattle.ic_round.specs.Gathering.{gap_at};
ghost use Rattle.ic_reference.specs.inner.Orienting.{IsOriented};

use ic_round::Work;
use ic_rules::RuleSet;
use ic_term::{Cell, Equation, Term};
use std::alloc::{AllocError, Global};

/// An equation: active, with the place of its rule and its sides turned so that the left symbol is
/// the rule's left symbol, or not active.
#[derive(Drop)]
pub(crate) enum Oriented {
    Active {
        rule: usize,
        left: Box<Cell>,
        right: Box<Cell>,
    },
    Inert(Equation),
}

/// An equation, turned to suit its rule if it is active.
pub(crate) fn orient(rules: &RuleSet, equation: Equation) -> Oriented
    ensures { IsOriented rules.now.rules (pair equation) result }
{
    match (equation.left, equation.right) {
        (Term::Agent(left), Term::Agent(right)) => match rules.find(left.sym, right.sym) {
            Some((rule, false)) => Oriented::Active { rule, left, right },
            Some((rule, true)) => Oriented::Active {
                rule,
                left: right,
                right: left,
            },
            None => Oriented::Inert(Equation {
                left: Term::Agent(left),
                right: Term::Agent(right),
            }),
        },
        (left, right) => Oriented::Inert(Equation { left, right }),
    }
}

/// The works of a list of equations, the equations with a gap for each work, and the next number
/// after their names.
#[derive(Drop)]
pub(crate) struct Separated {
    pub works: Vec<Work>,
    pub equations: Vec<Option<Equation>>,
    pub next: u64,
}

/// Takes the active equations out of a list.
pub(crate) fn separate(
    alloc: Global,
    rules: &RuleSet,
    equations: Vec<Equation>,
    next: u64,
) -> Result<Separated, AllocError>
    requires { next_after rules.now.rules next (map pair equations.items) ≤ MAX_NEXT }
    ensures works { IfOk result (λ s. map work_of s.works.items
        ≡ works_from rules.now.rules 0 next (map pair equations.items)) }
    ensures equations { IfOk result (λ s. map (option_map pair) s.equations.items
        ≡ map (gap_at rules.now.rules) (map pair equations.items)) }
    ensures next { IfOk result (λ s. s.next
        ≡ next_after rules.now.rules next (map pair equations.items)) }
    ensures sound { IsRuleSet rules.now }
{
    let known = rules.rules();
    let mut works = Vec::new(alloc);
    let mut kept = Vec::with_capacity(alloc, equations.len())?;
    let mut base = next;
    for equation in equations {
        match orient(rules, equation) {
            Oriented::Active { rule, left, right } => {
                works.push(Work {
                    place: kept.len() as u64,
                    rule,
                    base,
                    left,
                    right,
                })?;
                kept.push(None)?;
                base += known[rule].names() as u64;
            }
            Oriented::Inert(equation) => kept.push(Some(equation))?,
        }
    }
    Ok(Separated {
        works,
        equations: kept,
        next: base,
    })
}

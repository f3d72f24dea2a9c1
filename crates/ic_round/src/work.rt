//! A work, its products, and how they are made.

ghost use Rattle.std.specs.Prelude.{◌≡◌, ◌++◌, ◌+◌, map, min, IfOk, OnOk};
ghost use Rattle.ic_term.specs.Term.{tree, cell_tree, pair};
ghost use Rattle.ic_rules.specs.Renaming.{renamed};
ghost use Rattle.ic_round.specs.Firing.{against, arguments};
ghost use Rattle.ic_round.specs.Works.{is_agent_of};

use ic_rules::{Rule, RuleSet};
use ic_term::{Cell, Equation, MAX_NEXT, Term};
use std::alloc::{AllocError, Global};

/// The firing of one active equation: its place in the list of equations, the place of its rule in
/// the rule set, the base of its fresh names, and its sides. These are turned so that the left
/// symbol is the rule's left symbol.
#[derive(Drop)]
pub struct Work {
    pub place: u64,
    pub rule: usize,
    pub base: u64,
    pub left: Box<Cell>,
    pub right: Box<Cell>,
}

/// The products of a work, which stand in its place.
#[derive(Drop)]
pub struct Fired {
    pub place: u64,
    pub products: Vec<Equation>,
}

impl Work {
    ghost use Rattle.ic_round.specs.Works.{suits};
    ghost use Rattle.ic_round.specs.WorkViews.{work_of};

    /// A copy, equal to its source.
    pub fn copy(&self, alloc: Global) -> Result<Work, AllocError>
        ensures { IfOk result (λ copy. work_of copy ≡ work_of self.now) }
    {
        let left = self.left.copy(alloc)?;
        let right = self.right.copy(alloc)?;
        Ok(Work {
            place: self.place,
            rule: self.rule,
            base: self.base,
            left: Box::new(alloc, left)?,
            right: Box::new(alloc, right)?,
        })
    }

    /// Whether the rule is there, the sides have its symbols and arities, and the fresh names stay
    /// within the limit.
    pub fn suits(&self, rules: &RuleSet) -> bool
        ensures { result ≡ suits rules.now.rules (work_of self.now) }
    {
        match rules.rules().get(self.rule) {
            None => false,
            Some(rule) => {
                is_agent_of(&self.left, rule.left(), rule.left_args().len())
                    && is_agent_of(&self.right, rule.right(), rule.right_args().len())
                    && self.base.saturating_add(rule.names() as u64) <= MAX_NEXT
            }
        }
    }
}

fn is_agent_of(cell: &Cell, sym: u32, arity: usize) -> bool
    ensures { result ≡ is_agent_of sym arity (cell_tree cell.now) }
{
    cell.sym == sym && cell.args.len() == arity
}

/// Each argument against the rule's term, whose names are made higher by the base.
pub(crate) fn append_products(
    alloc: Global,
    arguments: Vec<Term>,
    terms: &[Term],
    base: u64,
    products: &mut Vec<Equation>,
) -> Result<(), AllocError>
    ensures { OnOk result (map pair products.new.items ≡ map pair products.old.items
        ++ against (map tree arguments.items)
        (map (renamed (λ k. min (base + k) u64.MAX)) (map tree terms.now))) }
{
    let mut arguments = arguments.into_iter();
    for term in terms {
        let Some(argument) = arguments.next() else {
            break;
        };
        products.push(Equation {
            left: argument,
            right: raised_term(alloc, term, base)?,
        })?;
    }
    Ok(())
}

/// A copy of the term with its names made higher by the base.
#[cycle(raise)]
fn raised_term(alloc: Global, term: &Term, base: u64) -> Result<Term, AllocError>
    ensures { IfOk result (λ copy. tree copy
        ≡ renamed (λ k. min (base + k) u64.MAX) (tree term.now)) }
{
    match term {
        Term::Name(name) => Ok(Term::Name(base.saturating_add(*name))),
        Term::Agent(cell) => {
            let copy = raised_cell(alloc, cell, base)?;
            Ok(Term::Agent(Box::new(alloc, copy)?))
        }
    }
}

#[cycle(raise)]
fn raised_cell(alloc: Global, cell: &Cell, base: u64) -> Result<Cell, AllocError>
    ensures { IfOk result (λ copy. cell_tree copy
        ≡ renamed (λ k. min (base + k) u64.MAX) (cell_tree cell.now)) }
{
    let mut args = Vec::with_capacity(alloc, cell.args.len())?;
    for term in &cell.args {
        args.push(raised_term(alloc, term, base)?)?;
    }
    Ok(Cell {
        sym: cell.sym,
        args,
    })
}

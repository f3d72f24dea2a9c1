//! Whether two agents of a configuration can come to meet, as far as the sides of its equations tell.

ghost use Rattle.std.specs.Prelude.{◌≡◌, ◌==◌, ◌++◌, IfOk, OnOk, map};
ghost use Rattle.std.specs.List.{flat_map, list_all, list_any};
ghost use Rattle.ic_term.specs.Term.{pair, tree};
ghost use Rattle.ic_check.specs.Warnings.{are_apart, is_agent, joins_agents, pair_sides, side_names};
ghost use Rattle.ic_check.specs.inner.Tallies.{tallied};

use crate::names::{stands_once, tally};
use ic_names::NameTable;
use ic_term::{Equation, Term};
use std::alloc::{AllocError, Global};

/// Whether a term is an agent.
fn is_agent(term: &Term) -> bool
    ensures { result ≡ is_agent (tree term.now) }
{
    match term {
        Term::Name(_) => false,
        Term::Agent(_) => true,
    }
}

/// Whether an equation joins two agents.
fn joins_agents(equation: &Equation) -> bool
    ensures { result ≡ joins_agents (pair equation.now) }
{
    is_agent(&equation.left) && is_agent(&equation.right)
}

/// Whether one of these equations joins two agents.
fn any_joins(equations: &[Equation]) -> bool
    ensures { result ≡ list_any joins_agents (map pair equations.now) }
{
    for equation in equations {
        if joins_agents(equation) {
            return true;
        }
    }
    false
}

/// Appends the name that a side is, if it is one.
fn put_side(side: &Term, out: &mut Vec<u64>) -> Result<(), AllocError>
    ensures { OnOk result (out.new.items ≡ out.old.items ++ side_names (tree side.now)) }
{
    match side {
        Term::Name(name) => {
            out.push(*name)?;
            Ok(())
        }
        Term::Agent(_) => Ok(()),
    }
}

/// Appends the names that are sides of an equation.
fn put_sides(equation: &Equation, out: &mut Vec<u64>) -> Result<(), AllocError>
    ensures { OnOk result (out.new.items ≡ out.old.items ++ pair_sides (pair equation.now)) }
{
    put_side(&equation.left, out)?;
    put_side(&equation.right, out)
}

/// Appends the names that are sides of equations.
fn put_all_sides(equations: &[Equation], out: &mut Vec<u64>) -> Result<(), AllocError>
    ensures { OnOk result
        (out.new.items ≡ out.old.items ++ flat_map pair_sides (map pair equations.now)) }
{
    for equation in equations {
        put_sides(equation, out)?;
    }
    Ok(())
}

/// Whether each of these names is counted once.
fn are_counted_once(counts: &NameTable, names: &[u64]) -> bool
    ensures { result ≡ list_all (λ n. tallied counts.now n == 1) names.now }
{
    for name in names {
        if !stands_once(counts, *name) {
            return false;
        }
    }
    true
}

/// Whether no two agents can meet where these are the equations.
pub(crate) fn are_apart(alloc: Global, equations: &[Equation]) -> Result<bool, AllocError>
    ensures { IfOk result (λ apart. apart ≡ are_apart (map pair equations.now)) }
{
    if any_joins(equations) {
        return Ok(false);
    }
    let mut sides = Vec::new(alloc);
    put_all_sides(equations, &mut sides)?;
    let counts = tally(alloc, &sides)?;
    Ok(are_counted_once(&counts, &sides))
}

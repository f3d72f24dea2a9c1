//! Settlings that make something of an equation of a name and a term that the name stands in.

ghost use Rattle.std.specs.Prelude.{◌≡◌, IfOk, filter, map, not};
ghost use Rattle.ic_term.specs.Tree.{names};
ghost use Rattle.ic_term.specs.Term.{tree, cell_tree, pair};
ghost use Rattle.ic_settle.specs.Settling.{settled, occurs};
ghost use Rattle.ic_promises.specs.SelfEquations.{is_self_side, is_self_equation, without_self_equations, with_self_equations_applied, applied};

use ic_reference::settle;
use ic_term::{Cell, Config, Equation, Term, copy_terms};
use std::alloc::{AllocError, Global};

/// Settles, and then leaves out each equation of a name and a term that the name stands in, as `x=A(x)`.
pub fn drops_self_equations(alloc: Global, config: Config) -> Result<Config, AllocError>
    ensures { IfOk result (λ after. after ≡ without_self_equations (settled config)) }
{
    let settled = settle(alloc, config)?;
    let kept = others(alloc, settled.equations())?;
    with_equations(alloc, &settled, kept)
}

/// The equations that aren't of a name and a term that the name stands in.
fn others(alloc: Global, equations: &[Equation]) -> Result<Vec<Equation>, AllocError>
    ensures { IfOk result (λ kept. map pair kept.items
        ≡ filter (λ p. not (is_self_equation p)) (map pair equations.now)) }
{
    let mut kept = Vec::new(alloc);
    for equation in equations {
        if !is_self_equation(equation) {
            kept.push(equation.copy(alloc)?)?;
        }
    }
    Ok(kept)
}

/// Settles, and then puts the term for the name in each such equation: `x=A(x)` becomes `A(x)=A(x)`.
pub fn applies_self_equations(alloc: Global, config: Config) -> Result<Config, AllocError>
    ensures { IfOk result (λ after. after ≡ with_self_equations_applied (settled config)) }
{
    let settled = settle(alloc, config)?;
    let put = all_applied(alloc, settled.equations())?;
    with_equations(alloc, &settled, put)
}

/// The equations, each with the term put for a name that stands in it.
fn all_applied(alloc: Global, equations: &[Equation]) -> Result<Vec<Equation>, AllocError>
    ensures { IfOk result (λ all. map pair all.items ≡ map applied (map pair equations.now)) }
{
    let mut all = Vec::new(alloc);
    for equation in equations {
        all.push(applied(alloc, equation)?)?;
    }
    Ok(all)
}

/// A configuration with other equations, where they make one.
fn with_equations(
    alloc: Global,
    config: &Config,
    equations: Vec<Equation>,
) -> Result<Config, AllocError>
    ensures { IfOk result
        (λ after. after ≡ record config.now { equations = map pair equations.items }) }
{
    let interface = copy_terms(alloc, config.interface())?;
    match Config::restore(alloc, interface, equations, config.next()) {
        Ok(after) => Ok(after),
        Err(_) => Err(AllocError),
    }
}

/// An equation with the term put for the name that is its other side, where that stands in the term.
fn applied(alloc: Global, equation: &Equation) -> Result<Equation, AllocError>
    ensures { IfOk result (λ put. pair put ≡ applied (pair equation.now)) }
{
    let Equation { left, right } = equation.copy(alloc)?;
    if is_self_side(&left, &right) {
        return Ok(Equation {
            left: right.copy(alloc)?,
            right,
        });
    }
    if is_self_side(&right, &left) {
        return Ok(Equation {
            right: left.copy(alloc)?,
            left,
        });
    }
    Ok(Equation { left, right })
}

/// Whether one side is a name that stands in the other.
fn is_self_equation(equation: &Equation) -> bool
    ensures { result ≡ is_self_equation (pair equation.now) }
{
    is_self_side(&equation.left, &equation.right) || is_self_side(&equation.right, &equation.left)
}

/// Whether a side is a name that stands in the other.
fn is_self_side(side: &Term, other: &Term) -> bool
    ensures { result ≡ is_self_side (tree side.now) (tree other.now) }
{
    match side {
        Term::Name(name) => occurs(other, *name),
        Term::Agent(_) => false,
    }
}

/// Whether a name stands in a term.
#[cycle(occurs)]
fn occurs(term: &Term, name: u64) -> bool
    ensures { result ≡ occurs name (names (tree term.now)) }
{
    match term {
        Term::Name(other) => *other == name,
        Term::Agent(cell) => occurs_in_cell(cell, name),
    }
}

#[cycle(occurs)]
fn occurs_in_cell(cell: &Cell, name: u64) -> bool
    ensures { result ≡ occurs name (names (cell_tree cell.now)) }
{
    for term in &cell.args {
        if occurs(term, name) {
            return true;
        }
    }
    false
}

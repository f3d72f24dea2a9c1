//! Which side of an equation is applicable.

ghost use Rattle.std.specs.Prelude.{◌≡◌, map, ◌++◌};
ghost use Rattle.std.specs.List.{flat_map};
ghost use Rattle.std.specs.Option.{option_map};
ghost use Rattle.ic_term.specs.Tree.{names, pair_names};
ghost use Rattle.ic_term.specs.Term.{tree, cell_tree, pair};
ghost use Rattle.ic_term.specs.Configuration.{names_in};
ghost use Rattle.ic_settle.specs.Settling.{occurs, binding};
ghost use Rattle.ic_settle.specs.Sides.{other_side, bound_by};

use ic_settle::{Applicable, Side};
use ic_term::{Cell, Equation, Term};

/// Whether a name occurs in a term.
#[cycle(occurs)]
pub(crate) fn occurs(term: &Term, name: u64) -> bool
    ensures { result ≡ occurs name (names (tree term.now)) }
{
    match term {
        Term::Name(other) => *other == name,
        Term::Agent(cell) => occurs_in_cell(cell, name),
    }
}

#[cycle(occurs)]
fn occurs_in_cell(cell: &Cell, name: u64) -> bool
    ensures { result ≡ occurs name (names (cell_tree cell.now)) }
{
    for term in &cell.args {
        if occurs(term, name) {
            return true;
        }
    }
    false
}

fn occurs_in_terms(terms: &[Term], name: u64) -> bool
    ensures { result ≡ occurs name (flat_map names (map tree terms.now)) }
{
    for term in terms {
        if occurs(term, name) {
            return true;
        }
    }
    false
}

fn occurs_in_equations(equations: &[Equation], name: u64) -> bool
    ensures { result ≡ occurs name (flat_map pair_names (map pair equations.now)) }
{
    for equation in equations {
        if occurs(&equation.left, name) || occurs(&equation.right, name) {
            return true;
        }
    }
    false
}

fn occurs_outside(interface: &[Term], before: &[Equation], after: &[Equation], name: u64) -> bool
    ensures { result ≡ occurs name
        (names_in (map tree interface.now) (map pair before.now ++ map pair after.now)) }
{
    occurs_in_terms(interface, name)
        || occurs_in_equations(before, name)
        || occurs_in_equations(after, name)
}

/// The applicable side of an equation between these others, the left one if both are.
pub(crate) fn applicable_side(
    interface: &[Term],
    before: &[Equation],
    equation: &Equation,
    after: &[Equation],
) -> Option<Applicable>
    ensures { binding
        (names_in (map tree interface.now) (map pair before.now ++ map pair after.now))
        (pair equation.now)
        ≡ option_map (bound_by (pair equation.now)) result }
{
    if let Term::Name(name) = equation.left
        && occurs_outside(interface, before, after, name)
    {
        return Some(Applicable {
            name,
            side: Side::Left,
        });
    }
    if let Term::Name(name) = equation.right
        && occurs_outside(interface, before, after, name)
    {
        return Some(Applicable {
            name,
            side: Side::Right,
        });
    }
    None
}

/// The side of an equation opposite to a side.
pub(crate) fn other_side(equation: Equation, side: Side) -> Term
    ensures { tree result ≡ other_side (pair equation) side }
{
    match side {
        Side::Left => equation.right,
        Side::Right => equation.left,
    }
}

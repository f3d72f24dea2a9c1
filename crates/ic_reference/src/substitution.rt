//! A term put for a name, in place.

ghost use Rattle.std.specs.Prelude.{◌≡◌, ◌≤◌, map};
ghost use Rattle.ic_term.specs.Term.{tree, cell_tree, pair};
ghost use Rattle.ic_term.specs.Configuration.{names_in, occurrences};
ghost use Rattle.ic_settle.specs.Settling.{subst, subst_pair};
ghost use Rattle.ic_reference.specs.inner.Placing.{placed, placed_terms, placed_pairs, held_tree};

use ic_term::{Cell, Equation, Term};

/// Puts what is held at the first occurrence of the name.
#[cycle(put)]
fn put(term: &mut Term, name: u64, held: &mut Option<Term>)
    ensures { placed name (held_tree held.old) (tree term.old)
        ≡ (tree term.new, held_tree held.new) }
{
    match term {
        Term::Name(other) => {
            if *other == name {
                if let Some(value) = held.take() {
                    *term = value;
                }
            }
        }
        Term::Agent(cell) => put_in_cell(cell, name, held),
    }
}

#[cycle(put)]
fn put_in_cell(cell: &mut Cell, name: u64, held: &mut Option<Term>)
    ensures { placed name (held_tree held.old) (cell_tree cell.old)
        ≡ (cell_tree cell.new, held_tree held.new) }
{
    for term in cell.args.iter_mut() {
        put(term, name, held);
    }
}

fn put_in_terms(terms: &mut [Term], name: u64, held: &mut Option<Term>)
    ensures { placed_terms name (held_tree held.old) (map tree terms.old)
        ≡ (map tree terms.new, held_tree held.new) }
{
    for term in terms {
        put(term, name, held);
    }
}

fn put_in_equations(equations: &mut [Equation], name: u64, held: &mut Option<Term>)
    ensures { placed_pairs name (held_tree held.old) (map pair equations.old)
        ≡ (map pair equations.new, held_tree held.new) }
{
    for equation in equations {
        put(&mut equation.left, name, held);
        put(&mut equation.right, name, held);
    }
}

/// Puts a term for a name that occurs at most once, without copying it.
pub(crate) fn substitute(interface: &mut [Term], equations: &mut [Equation], name: u64, term: Term)
    requires { occurrences name (names_in (map tree interface.old) (map pair equations.old)) ≤ 1 }
    ensures interface { map tree interface.new
        ≡ map (subst name (tree term)) (map tree interface.old) }
    ensures equations { map pair equations.new
        ≡ map (subst_pair name (tree term)) (map pair equations.old) }
{
    let mut held = Some(term);
    put_in_terms(interface, name, &mut held);
    put_in_equations(equations, name, &mut held);
}

//! The names of a configuration, in the order of the text, and which of them stand there once.

ghost use Rattle.std.specs.Prelude.{◌≡◌, ◌==◌, IfOk};
ghost use Rattle.ic_check.specs.inner.Tallies.{IsTally, tallied};

use ic_names::NameTable;
use ic_term::{Cell, Config, Equation, Term};
use std::alloc::{AllocError, Global};

/// Appends the names of a term. It recurses as deep as the term.
#[cycle(put)]
fn put_term(term: &Term, out: &mut Vec<u64>) -> Result<(), AllocError> {
    match term {
        Term::Name(name) => {
            out.push(*name)?;
            Ok(())
        }
        Term::Agent(cell) => put_cell(cell, out),
    }
}

#[cycle(put)]
fn put_cell(cell: &Cell, out: &mut Vec<u64>) -> Result<(), AllocError> {
    for term in &cell.args {
        put_term(term, out)?;
    }
    Ok(())
}

/// Appends the names of terms.
fn put_terms(terms: &[Term], out: &mut Vec<u64>) -> Result<(), AllocError> {
    for term in terms {
        put_term(term, out)?;
    }
    Ok(())
}

fn put_equation(equation: &Equation, out: &mut Vec<u64>) -> Result<(), AllocError> {
    put_term(&equation.left, out)?;
    put_term(&equation.right, out)
}

/// Appends the names of equations.
fn put_equations(equations: &[Equation], out: &mut Vec<u64>) -> Result<(), AllocError> {
    for equation in equations {
        put_equation(equation, out)?;
    }
    Ok(())
}

/// Appends the names of a configuration.
fn put_config(config: &Config, out: &mut Vec<u64>) -> Result<(), AllocError> {
    put_terms(config.interface(), out)?;
    put_equations(config.equations(), out)
}

/// The names of a configuration, each as often as it occurs.
pub(crate) fn config_names(alloc: Global, config: &Config) -> Result<Vec<u64>, AllocError> {
    let mut all = Vec::new(alloc);
    put_config(config, &mut all)?;
    Ok(all)
}

/// How often each name of a list stands there, counted up to two.
pub(crate) fn tally(alloc: Global, names: &[u64]) -> Result<NameTable, AllocError>
    ensures { IfOk result (IsTally names.now) }
{
    let mut counts = NameTable::new(alloc, names)?;
    for name in names {
        let before = counts.get(*name).unwrap_or(0);
        counts.set(*name, before.min(1) + 1)?;
    }
    Ok(counts)
}

/// Whether a name stands just once, where names are counted so.
pub(crate) fn stands_once(counts: &NameTable, name: u64) -> bool
    ensures { result ≡ (tallied counts.now name == 1) }
{
    counts.get(name).unwrap_or(0) == 1
}

//! Whether the agents of a configuration are over symbols: each known, with as many arguments as its arity.

ghost use Rattle.std.specs.Prelude.{◌≡◌, map};
ghost use Rattle.std.specs.List.{list_all};
ghost use Rattle.ic_term.specs.Term.{tree, cell_tree, pair};
ghost use Rattle.ic_term.specs.Symbol.{is_tree_over, is_pair_over, is_over};

use crate::config::Config;
use crate::symbols::Symbols;
use crate::term::{Cell, Equation, Term};

/// Whether each agent of a configuration has a known symbol, and as many arguments as its arity.
pub fn over(symbols: &Symbols, config: &Config) -> bool
    ensures { result ≡ is_over symbols.now config.now }
{
    terms_over(symbols, config.interface()) && equations_over(symbols, config.equations())
}

#[cycle(over)]
fn term_over(symbols: &Symbols, term: &Term) -> bool
    ensures { result ≡ is_tree_over symbols.now (tree term.now) }
{
    match term {
        Term::Name(_) => true,
        Term::Agent(cell) => cell_over(symbols, cell),
    }
}

#[cycle(over)]
fn cell_over(symbols: &Symbols, cell: &Cell) -> bool
    ensures { result ≡ is_tree_over symbols.now (cell_tree cell.now) }
{
    if !symbols.has_arity(cell.sym, cell.args.len()) {
        return false;
    }
    for term in &cell.args {
        if !term_over(symbols, term) {
            return false;
        }
    }
    true
}

fn terms_over(symbols: &Symbols, terms: &[Term]) -> bool
    ensures { result ≡ list_all (is_tree_over symbols.now) (map tree terms.now) }
{
    for term in terms {
        if !term_over(symbols, term) {
            return false;
        }
    }
    true
}

fn equations_over(symbols: &Symbols, equations: &[Equation]) -> bool
    ensures { result ≡ list_all (is_pair_over symbols.now) (map pair equations.now) }
{
    for equation in equations {
        if !term_over(symbols, &equation.left) || !term_over(symbols, &equation.right) {
            return false;
        }
    }
    true
}

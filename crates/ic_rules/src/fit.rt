//! Whether the agents of rules are over symbols: each known, with as many arguments as its arity.

ghost use Rattle.std.specs.Prelude.{◌≡◌, map};
ghost use Rattle.std.specs.List.{flat_map};
ghost use Rattle.ic_term.specs.Term.{tree, cell_tree};
ghost use Rattle.ic_rules.specs.Rule.{agents, rule_agents};
ghost use Rattle.ic_rules.specs.RuleSet.{unfit_among, first_unfit};
ghost use Rattle.ic_rules.specs.Written.{written};

use ic_term::{Cell, Symbols, Term};

/// The symbol of the first agent of rules that is unknown or has another arity.
pub(crate) fn first_unfit(symbols: &Symbols, rules: &[(Cell, Cell)]) -> Option<u32>
    ensures { result ≡ first_unfit symbols.now (map written rules.now) }
{
    for (left, right) in rules {
        if let Some(sym) = unfit_in_rule(symbols, left, right) {
            return Some(sym);
        }
    }
    None
}

fn unfit_in_rule(symbols: &Symbols, left: &Cell, right: &Cell) -> Option<u32>
    ensures { result ≡ unfit_among symbols.now (rule_agents (written (left.now, right.now))) }
{
    match unfit_in_cell(symbols, left) {
        Some(sym) => Some(sym),
        None => unfit_in_cell(symbols, right),
    }
}

#[cycle(unfit)]
fn unfit_in_term(symbols: &Symbols, term: &Term) -> Option<u32>
    ensures { result ≡ unfit_among symbols.now (agents (tree term.now)) }
{
    match term {
        Term::Name(_) => None,
        Term::Agent(cell) => unfit_in_cell(symbols, cell),
    }
}

#[cycle(unfit)]
fn unfit_in_cell(symbols: &Symbols, cell: &Cell) -> Option<u32>
    ensures { result ≡ unfit_among symbols.now (agents (cell_tree cell.now)) }
{
    if !symbols.has_arity(cell.sym, cell.args.len()) {
        return Some(cell.sym);
    }
    for term in &cell.args {
        if let Some(sym) = unfit_in_term(symbols, term) {
            return Some(sym);
        }
    }
    None
}

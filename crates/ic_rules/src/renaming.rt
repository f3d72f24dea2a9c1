//! Names of rules, and their numbers by first occurrence.

ghost use Rattle.std.specs.Prelude.{◌≡◌, ◌↔◌, ◌++◌, ℕ, map, length, unwrap_or, IfOk, OnOk, IsTrue};
ghost use Rattle.std.specs.List.{flat_map, range_with_len};
ghost use Rattle.std.specs.Ordering.{nat_cmp};
ghost use Rattle.std.specs.BTreeMap.{get};
ghost use Rattle.ic_term.specs.Tree.{names};
ghost use Rattle.ic_term.specs.Configuration.{occurrences};
ghost use Rattle.ic_term.specs.Term.{tree, cell_tree};
ghost use Rattle.ic_rules.specs.Renaming.{renamed, first_occurrences, number_among, are_paired};
ghost use Rattle.ic_rules.specs.Rule.{IsNumbered};
ghost use Rattle.ic_rules.specs.Written.{written};

use crate::firsts::Firsts;
use ic_term::{Cell, Term, append_names};
use std::alloc::{AllocError, Global};
use std::collections::BTreeMap;

/// The names of two agents in the order of the text, each as often as it occurs.
pub(crate) fn names_of(alloc: Global, left: &[Term], right: &[Term]) -> Result<Vec<u64>, AllocError>
    ensures { IfOk result
        (λ list. list.items
        ≡ flat_map names (map tree left.now) ++ flat_map names (map tree right.now)) }
{
    let mut list = Vec::new(alloc);
    append_names(left, &mut list)?;
    append_names(right, &mut list)?;
    Ok(list)
}

/// Whether the names of two agents are 0, 1, .. by first occurrence, the left one's first. `RuleSet::build` keeps
/// the names of such agents as they are, and of no others.
pub fn has_numbered_names(alloc: Global, left: &Cell, right: &Cell) -> Result<bool, AllocError>
    ensures { IfOk result (λ yes. IsTrue yes ↔ IsNumbered (written (left.now, right.now))) }
{
    let names = names_of(alloc, &left.args, &right.args)?;
    Ok(are_counted_up(&names))
}

/// Whether the names of a list are 0, 1, .. by first occurrence.
fn are_counted_up(names: &[u64]) -> bool
    ensures { IsTrue result
        ↔ (first_occurrences names.now ≡ range_with_len 0 (length (first_occurrences names.now))) }
{
    let mut next = 0u64;
    for name in names {
        if *name > next {
            return false;
        }
        if *name == next {
            next += 1;
        }
    }
    true
}

/// The names of a list in the order in which they first occur.
pub(crate) fn first_occurrences(alloc: Global, names: &[u64]) -> Result<Firsts, AllocError>
    ensures { IfOk result (λ firsts. firsts ≡ first_occurrences names.now) }
{
    let mut firsts = Firsts::new(alloc);
    for name in names {
        firsts.add(*name)?;
    }
    Ok(firsts)
}

/// Whether each name of a list occurs there exactly twice. Takes n log n steps.
pub(crate) fn are_paired(alloc: Global, names: &[u64]) -> Result<bool, AllocError>
    ensures { IfOk result (λ yes. yes ≡ are_paired names.now) }
{
    let counts = counts_of(alloc, names)?;
    for name in names {
        if counts.get(name).copied().unwrap_or(0) != 2 {
            return Ok(false);
        }
    }
    Ok(true)
}

/// How often each name of a list occurs there.
fn counts_of(alloc: Global, names: &[u64]) -> Result<BTreeMap<u64, usize>, AllocError>
    ensures { IfOk result
        (λ counts. (n : ℕ) → unwrap_or (get nat_cmp counts n) 0 ≡ occurrences n names.now) }
{
    let mut counts: BTreeMap<u64, usize> = BTreeMap::new(alloc);
    for name in names {
        let count = counts.get(name).copied().unwrap_or(0);
        counts.insert(*name, count + 1)?;
    }
    Ok(counts)
}

/// The terms with their names numbered by their places among the first occurrences.
pub(crate) fn number_terms(
    alloc: Global,
    terms: &[Term],
    firsts: &Firsts,
) -> Result<Vec<Term>, AllocError>
    ensures { IfOk result
        (λ out. map tree out.items
        ≡ map (renamed (number_among firsts.now)) (map tree terms.now)) }
{
    let mut numbered = Vec::with_capacity(alloc, terms.len())?;
    for term in terms {
        numbered.push(number_term(alloc, term, firsts)?)?;
    }
    Ok(numbered)
}

#[cycle(number)]
fn number_term(alloc: Global, term: &Term, firsts: &Firsts) -> Result<Term, AllocError>
    ensures { IfOk result
        (λ out. tree out ≡ renamed (number_among firsts.now) (tree term.now)) }
{
    match term {
        Term::Name(name) => Ok(Term::Name(firsts.number(*name) as u64)),
        Term::Agent(cell) => {
            let numbered = number_cell(alloc, cell, firsts)?;
            Ok(Term::Agent(Box::new(alloc, numbered)?))
        }
    }
}

#[cycle(number)]
fn number_cell(alloc: Global, cell: &Cell, firsts: &Firsts) -> Result<Cell, AllocError>
    ensures { IfOk result
        (λ out. cell_tree out ≡ renamed (number_among firsts.now) (cell_tree cell.now)) }
{
    let mut args = Vec::with_capacity(alloc, cell.args.len())?;
    for term in &cell.args {
        args.push(number_term(alloc, term, firsts)?)?;
    }
    Ok(Cell {
        sym: cell.sym,
        args,
    })
}

//! Lists of terms.

ghost use Rattle.std.specs.Prelude.{◌≡◌, ◌++◌, map, min, sum_by, IfOk, OnOk};
ghost use Rattle.std.specs.List.{flat_map};
ghost use Rattle.std.specs.Cmp.Lexicographic.{pointwise};
ghost use Rattle.ic_term.specs.Tree.{nodes, names, tree_eq};
ghost use Rattle.ic_term.specs.Term.{tree};

use crate::term::Term;
use std::alloc::{AllocError, Global};

/// How many names and agents the terms have, or 2^64 - 1 where there are more.
pub fn nodes_of_terms(terms: &[Term]) -> u64
    ensures { result ≡ min (sum_by nodes (map tree terms.now)) u64.MAX }
{
    let mut count = 0u64;
    for term in terms {
        count = count.saturating_add(term.nodes());
    }
    count
}

/// The names of the terms in the order of the text, each as often as it occurs.
pub fn names_of_terms(alloc: Global, terms: &[Term]) -> Result<Vec<u64>, AllocError>
    ensures { IfOk result (λ list. list.items ≡ flat_map names (map tree terms.now)) }
{
    let mut list = Vec::new(alloc);
    append_names(terms, &mut list)?;
    Ok(list)
}

/// Appends the names of the terms in the order of the text, each as often as it occurs.
pub fn append_names(terms: &[Term], list: &mut Vec<u64>) -> Result<(), AllocError>
    ensures { OnOk result (list.new.items ≡ list.old.items ++ flat_map names (map tree terms.now)) }
{
    for term in terms {
        term.append_names(list)?;
    }
    Ok(())
}

/// A copy of each term, equal to its source.
pub fn copy_terms(alloc: Global, terms: &[Term]) -> Result<Vec<Term>, AllocError>
    ensures { IfOk result (λ copies. map tree copies.items ≡ map tree terms.now) }
{
    let mut copies = Vec::with_capacity(alloc, terms.len())?;
    for term in terms {
        copies.push(term.copy(alloc)?)?;
    }
    Ok(copies)
}

/// Whether two lists have the same terms, in the same order.
pub fn same_terms(left: &[Term], right: &[Term]) -> bool
    ensures { result ≡ pointwise tree_eq (map tree left.now) (map tree right.now) }
{
    left == right
}

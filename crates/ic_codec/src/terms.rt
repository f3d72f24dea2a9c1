//! The terms of rules as bytes, and back.

ghost use Rattle.std.specs.Prelude.{◌≡◌, ◌≤◌, ℕ, IfOk, IfErr, length, map};
ghost use Rattle.std.specs.List.{flat_map};
ghost use Rattle.ic_term.specs.Tree.{agent, trees_of};
ghost use Rattle.ic_term.specs.Term.{tree, cell_tree};
ghost use Rattle.ic_codec.specs.inner.Room.{Fits, Appended};
ghost use Rattle.ic_codec.specs.Terms.{tree_bytes};
ghost use Rattle.ic_codec.specs.inner.Fronts.{BeginsWithTree, BeginsWithNoTree, BeginsWithTrees, BeginsWithNoTrees};
ghost use Rattle.ic_codec.specs.declared.fault.CodecFault.TheVariants.{NotATable};

use crate::fault::CodecFault;
use crate::fields::{byte_at, eight_bytes_at, put_byte, put_eight_bytes};
use ic_term::{Cell, Symbols, Term};
use std::alloc::{AllocError, Global};

/// The byte before a name's number.
pub(crate) const NAME: u8 = 255;

/// Appends a term. It recurses as deep as the term.
#[cycle(put)]
pub(crate) fn put_term(term: &Term, out: &mut Vec<u8>)
    requires { Fits out.old (tree_bytes (tree term.now)) }
    ensures { Appended out.old out.new (tree_bytes (tree term.now)) }
{
    match term {
        Term::Name(name) => {
            put_byte(NAME, out);
            put_eight_bytes(*name, out);
        }
        Term::Agent(cell) => put_cell(cell, out),
    }
}

#[cycle(put)]
fn put_cell(cell: &Cell, out: &mut Vec<u8>)
    requires { Fits out.old (tree_bytes (cell_tree cell.now)) }
    ensures { Appended out.old out.new (tree_bytes (cell_tree cell.now)) }
{
    put_byte(cell.sym as u8, out);
    for term in &cell.args {
        put_term(term, out);
    }
}

/// Appends terms in order.
pub(crate) fn put_terms(terms: &[Term], out: &mut Vec<u8>)
    requires { Fits out.old (flat_map tree_bytes (map tree terms.now)) }
    ensures { Appended out.old out.new (flat_map tree_bytes (map tree terms.now)) }
{
    for term in terms {
        put_term(term, out);
    }
}

/// A term of at most so many nodes, how many are left, and the bytes after it. It recurses as deep as
/// the term, which has no more nodes than that.
#[cycle(read)]
pub(crate) fn term_at<'a>(
    alloc: Global,
    symbols: &Symbols,
    budget: u64,
    bytes: &'a [u8],
) -> Result<(Term, u64, &'a [u8]), CodecFault>
    requires { length symbols.now ≤ 64 }
    ensures read { IfOk result (λ r.
        BeginsWithTree symbols.now budget bytes.now (tree r.0) r.1 r.2.now) }
    ensures refused { IfErr result (λ fault. fault ≡ NotATable
        → BeginsWithNoTree symbols.now budget bytes.now) }
{
    if budget == 0 {
        return Err(CodecFault::NotATable);
    }
    let (first, rest) = byte_at(bytes)?;
    if first == NAME {
        let (name, rest) = eight_bytes_at(rest)?;
        return Ok((Term::Name(name), budget - 1, rest));
    }
    let sym = first as u32;
    if sym as usize >= symbols.len() {
        return Err(CodecFault::NotATable);
    }
    let (args, left, rest) = terms_at(alloc, symbols, symbols.arity(sym), budget - 1, rest)?;
    Ok((agent(alloc, sym, args)?, left, rest))
}

/// So many terms with at most so many nodes together, how many are left, and the bytes after them.
#[cycle(read)]
pub(crate) fn terms_at<'a>(
    alloc: Global,
    symbols: &Symbols,
    count: usize,
    budget: u64,
    bytes: &'a [u8],
) -> Result<(Vec<Term>, u64, &'a [u8]), CodecFault>
    requires { length symbols.now ≤ 64 }
    ensures read { IfOk result (λ r.
        BeginsWithTrees symbols.now count budget bytes.now (map tree r.0.items) r.1 r.2.now) }
    ensures refused { IfErr result (λ fault. fault ≡ NotATable
        → BeginsWithNoTrees symbols.now count budget bytes.now) }
{
    let mut terms = Vec::new(alloc);
    let mut left = budget;
    let mut rest = bytes;
    for _ in 0..count {
        let (term, now_left, now_rest) = term_at(alloc, symbols, left, rest)?;
        terms.push(term)?;
        left = now_left;
        rest = now_rest;
    }
    Ok((terms, left, rest))
}

fn agent(alloc: Global, sym: u32, args: Vec<Term>) -> Result<Term, AllocError>
    ensures { IfOk result (λ term. tree term ≡ agent sym (trees_of (map tree args.items))) }
{
    Ok(Term::Agent(Box::new(alloc, Cell { sym, args })?))
}

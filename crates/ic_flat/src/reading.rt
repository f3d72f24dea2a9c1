//! Terms made of their words, from the last word to the first, on a stack.

ghost use Rattle.std.specs.Prelude.{◌≡◌, IfOk, OnOk, map, reverse, take, drop};
ghost use Rattle.ic_term.specs.Term.{tree, pair};
ghost use Rattle.ic_flat.specs.Words.{forest, with_word};
ghost use Rattle.ic_flat.specs.Flat.{pairs_of};
ghost use Rattle.ic_flat.specs.inner.Stacks.{upright};

use crate::word::Word;
use ic_term::{Cell, Equation, Term};
use std::alloc::{AllocError, Global};

/// Takes so many terms, or all that there are, from the top of a stack.
pub(crate) fn take_terms(
    alloc: Global,
    stack: &mut Vec<Term>,
    count: usize,
) -> Result<Vec<Term>, AllocError>
    ensures taken { IfOk result
        (λ terms. map tree terms.items ≡ take count (upright stack.old.items)) }
    ensures left { OnOk result (upright stack.new.items ≡ drop count (upright stack.old.items)) }
{
    let mut terms = Vec::with_capacity(alloc, count)?;
    for _ in 0..count {
        if let Some(term) = stack.pop() {
            terms.push(term)?;
        }
    }
    Ok(terms)
}

/// The terms of a stack two by two, the top one first.
pub(crate) fn take_equations(
    alloc: Global,
    mut stack: Vec<Term>,
) -> Result<Vec<Equation>, AllocError>
    ensures { IfOk result (λ equations. map pair equations.items ≡ pairs_of (upright stack.items)) }
{
    let mut equations = Vec::with_capacity(alloc, stack.len() / 2)?;
    while let Some(left) = stack.pop() {
        if let Some(right) = stack.pop() {
            equations.push(Equation { left, right })?;
        }
    }
    Ok(equations)
}

/// Puts the term of a word on a stack, its arguments taken from there.
fn put_word(alloc: Global, stack: &mut Vec<Term>, word: Word) -> Result<(), AllocError>
    ensures { OnOk result (upright stack.new.items ≡ with_word word (upright stack.old.items)) }
{
    let term = match word {
        Word::Name(name) => Term::Name(name),
        Word::Agent(sym, arity) => {
            let args = take_terms(alloc, stack, arity)?;
            Term::Agent(Box::new(alloc, Cell { sym, args })?)
        }
    };
    stack.push(term)?;
    Ok(())
}

/// The terms that words write, on a stack: the last one first, so that the first one is on top.
pub fn terms_of(alloc: Global, words: &[Word]) -> Result<Vec<Term>, AllocError>
    ensures { IfOk result (λ stack. reverse (map tree stack.items) ≡ forest words.now) }
{
    let mut stack = Vec::new(alloc);
    for i in (0..words.len()).rev() {
        put_word(alloc, &mut stack, words[i])?;
    }
    Ok(stack)
}

//! Words of terms, from the first term to the last, with those that are still to come on a stack.

ghost use Rattle.std.specs.Prelude.{◌≡◌, ◌+◌, ◌++◌, IfOk, OnOk, map, sum_by};
ghost use Rattle.std.specs.List.{flat_map};
ghost use Rattle.ic_term.specs.Tree.{nodes};
ghost use Rattle.ic_term.specs.Term.{tree, pair};
ghost use Rattle.ic_flat.specs.Words.{tree_words};
ghost use Rattle.ic_flat.specs.Flat.{sides, configuration_words};
ghost use Rattle.ic_flat.specs.inner.Stacks.{coming};

use crate::word::Word;
use ic_term::{Config, Equation, Term};
use std::alloc::{AllocError, Global};

/// Puts terms on a stack, the first one on top.
fn put_terms<'a>(terms: &'a [Term], stack: &mut Vec<&'a Term>) -> Result<(), AllocError>
    ensures { OnOk result
        (coming stack.new.items ≡ map tree terms.now ++ coming stack.old.items) }
{
    for i in (0..terms.len()).rev() {
        stack.push(&terms[i])?;
    }
    Ok(())
}

/// Puts the sides of equations on a stack, the first one on top.
fn put_sides<'a>(equations: &'a [Equation], stack: &mut Vec<&'a Term>) -> Result<(), AllocError>
    ensures { OnOk result
        (coming stack.new.items ≡ sides (map pair equations.now) ++ coming stack.old.items) }
{
    for i in (0..equations.len()).rev() {
        let equation = &equations[i];
        stack.push(&equation.right)?;
        stack.push(&equation.left)?;
    }
    Ok(())
}

/// Writes the first word of a term, and puts its arguments on the stack.
fn write_word<'a>(
    term: &'a Term,
    stack: &mut Vec<&'a Term>,
    words: &mut Vec<Word>,
) -> Result<(), AllocError>
    ensures written { OnOk result (words.new.items ++ flat_map tree_words (coming stack.new.items)
        ≡ words.old.items ++ (tree_words (tree term.now)
        ++ flat_map tree_words (coming stack.old.items))) }
    ensures fewer { OnOk result (sum_by nodes (coming stack.new.items) + 1
        ≡ nodes (tree term.now) + sum_by nodes (coming stack.old.items)) }
{
    match term {
        Term::Name(name) => words.push(Word::Name(*name))?,
        Term::Agent(cell) => {
            words.push(Word::Agent(cell.sym, cell.args.len()))?;
            put_terms(&cell.args, stack)?;
        }
    }
    Ok(())
}

/// Writes the words of all terms of a stack, from the top on.
fn write_stack<'a>(mut stack: Vec<&'a Term>, words: &mut Vec<Word>) -> Result<(), AllocError>
    ensures { OnOk result
        (words.new.items ≡ words.old.items ++ flat_map tree_words (coming stack.entry.items)) }
{
    while let Some(term) = stack.pop() {
        write_word(term, &mut stack, words)?;
    }
    Ok(())
}

/// Appends the words of terms in the order of the text. Takes memory for as many terms as wait at once.
pub fn write_terms(alloc: Global, terms: &[Term], words: &mut Vec<Word>) -> Result<(), AllocError>
    ensures { OnOk result
        (words.new.items ≡ words.old.items ++ flat_map tree_words (map tree terms.now)) }
{
    let mut stack = Vec::new(alloc);
    put_terms(terms, &mut stack)?;
    write_stack(stack, words)
}

/// The words of a configuration in the order of the text.
pub(crate) fn words_of(alloc: Global, config: &Config) -> Result<Vec<Word>, AllocError>
    ensures { IfOk result (λ words. words.items ≡ configuration_words config.now) }
{
    let mut words = Vec::with_capacity(alloc, config.nodes() as usize)?;
    let mut stack = Vec::new(alloc);
    put_sides(config.equations(), &mut stack)?;
    put_terms(config.interface(), &mut stack)?;
    write_stack(stack, &mut words)?;
    Ok(words)
}

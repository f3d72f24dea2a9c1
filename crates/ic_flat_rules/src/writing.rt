//! Words of rules, rule by rule. A rule's terms are walked by recursion: they have 2,048 nodes at
//! most.

ghost use Rattle.std.specs.Prelude.{◌≡◌, ◌++◌, map, IfOk, OnOk};
ghost use Rattle.std.specs.List.{flat_map};
ghost use Rattle.ic_term.specs.Term.{tree, cell_tree};
ghost use Rattle.ic_flat.specs.Words.{tree_words};
ghost use Rattle.ic_flat_rules.specs.RuleWords.{rule_words, bounds_from};

use ic_flat::Word;
use ic_rules::Rule;
use ic_term::{Cell, Term};
use std::alloc::{AllocError, Global};

/// How many words a rule is taken to have before they are written: to count them takes as long.
const WORDS_OF_A_RULE: usize = 4;

/// The words of all rules, where those of each rule begin, and where those of the last one end: two
/// lists, of which the first grows where rules have more words than they are taken to have.
pub(crate) fn words_of_rules(
    alloc: Global,
    rules: &[Rule],
) -> Result<(Vec<Word>, Vec<usize>), AllocError>
    ensures words { IfOk result (λ r. r.0.items ≡ flat_map rule_words rules.now) }
    ensures bounds { IfOk result (λ r. r.1.items ≡ bounds_from 0 rules.now) }
{
    let mut words = Vec::with_capacity(alloc, rules.len().saturating_mul(WORDS_OF_A_RULE))?;
    let mut bounds = Vec::with_capacity(alloc, rules.len().saturating_add(1))?;
    for rule in rules {
        bounds.push(words.len())?;
        write_terms(rule.left_args(), &mut words)?;
        write_terms(rule.right_args(), &mut words)?;
    }
    bounds.push(words.len())?;
    words.shrink_to_fit();
    Ok((words, bounds))
}

/// Appends the words of terms in order.
fn write_terms(terms: &[Term], words: &mut Vec<Word>) -> Result<(), AllocError>
    ensures { OnOk result
        (words.new.items ≡ words.old.items ++ flat_map tree_words (map tree terms.now)) }
{
    for term in terms {
        write_term(term, words)?;
    }
    Ok(())
}

/// Appends the words of a term.
#[cycle(write)]
fn write_term(term: &Term, words: &mut Vec<Word>) -> Result<(), AllocError>
    ensures { OnOk result (words.new.items ≡ words.old.items ++ tree_words (tree term.now)) }
{
    match term {
        Term::Name(name) => words.push(Word::Name(*name))?,
        Term::Agent(cell) => write_cell(cell, words)?,
    }
    Ok(())
}

#[cycle(write)]
fn write_cell(cell: &Cell, words: &mut Vec<Word>) -> Result<(), AllocError>
    ensures { OnOk result (words.new.items ≡ words.old.items ++ tree_words (cell_tree cell.now)) }
{
    words.push(Word::Agent(cell.sym, cell.args.len()))?;
    for term in &cell.args {
        write_term(term, words)?;
    }
    Ok(())
}

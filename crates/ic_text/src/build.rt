//! Configurations and rules, made of words in prefix order.

ghost use Rattle.std.specs.Prelude.{◌≡◌, ◌≤◌, IfOk, length, map, take, drop};
ghost use Rattle.std.specs.Option.{option_to_list};
ghost use Rattle.ic_term.specs.Term.{tree};
ghost use Rattle.ic_term.specs.Configuration.{wide_restored};
ghost use Rattle.ic_flat.specs.Words.{forest};
ghost use Rattle.ic_rules.specs.RuleSet.{built};
ghost use Rattle.ic_rules.specs.Written.{written};
ghost use Rattle.ic_text.specs.inner.Built.{IsPaired, configuration_from, rule_in, rules_in, joined, refusal};
ghost use Rattle.ic_text.specs.inner.Numbered.{Gives, as_text_answer};

use crate::fault::TextFault;
use ic_flat::{WideFlat, WideSystem, Word, terms_in, terms_of};
use ic_rules::{RuleFault, RuleSet};
use ic_term::{Cell, ConfigFault, Symbols, Term};
use std::alloc::{AllocError, Global};
use std::sync::Arc;

/// The configuration of words in prefix order, with so many terms in its interface.
pub(crate) fn wide_of(alloc: Global, words: Vec<Word>, terms: usize) -> Result<WideFlat, TextFault>
    requires { IsPaired words.items terms }
    ensures { Gives (λ config. config) result
        (as_text_answer (wide_restored (configuration_from terms (forest words.items)))) }
{
    let equations = match terms_in(&words) {
        Some(all) => (all - terms) / 2,
        None => 0,
    };
    match WideFlat::new(alloc, words, terms, equations) {
        Ok(config) => Ok(config),
        Err(ConfigFault::Limit) => Err(TextFault::Limit),
        Err(ConfigFault::Name(name)) => Err(TextFault::Name(name)),
        Err(ConfigFault::Memory) => Err(TextFault::Memory),
    }
}

/// The rule of two terms, if both are agents.
fn rule_of(left: Term, right: Term) -> Option<(Cell, Cell)>
    ensures { map written (option_to_list result) ≡ rule_in (tree left) (tree right) }
{
    let Term::Agent(left) = left else {
        return None;
    };
    let Term::Agent(right) = right else {
        return None;
    };
    Some((Box::into_inner(left), Box::into_inner(right)))
}

/// The rules whose sides words write, an agent on the left before one on the right.
fn rules_of(alloc: Global, words: &[Word]) -> Result<Vec<(Cell, Cell)>, AllocError>
    ensures { IfOk result (λ rules. map written rules.items ≡ rules_in (forest words.now)) }
{
    let mut sides = terms_of(alloc, words)?;
    let mut rules = Vec::with_capacity(alloc, sides.len() / 2)?;
    while let Some(left) = sides.pop() {
        if let Some(right) = sides.pop()
            && let Some(rule) = rule_of(left, right)
        {
            rules.push(rule)?;
        }
    }
    Ok(rules)
}

/// The refusal of rules, but that of the configuration, if it has one, comes before those of pairs and of lopsided
/// rules.
fn refusal(rules: RuleFault, config: Option<TextFault>) -> TextFault
    ensures { result ≡ refusal rules config }
{
    match rules {
        RuleFault::Limit => TextFault::Limit,
        RuleFault::Arity(_) => TextFault::Arity,
        RuleFault::NameCount(place) => TextFault::NameCount(place),
        RuleFault::Twice(place) => config.unwrap_or(TextFault::Twice(place)),
        RuleFault::Lopsided(place) => config.unwrap_or(TextFault::Lopsided(place)),
        RuleFault::Memory => TextFault::Memory,
    }
}

/// The system of rules and a configuration, or the first refusal of both.
fn join(
    alloc: Global,
    rules: Result<RuleSet, RuleFault>,
    config: Result<WideFlat, TextFault>,
) -> Result<WideSystem, TextFault>
    ensures { Gives (λ system. system) result (joined rules config) }
{
    match rules {
        Ok(rules) => match WideSystem::new(Arc::new(alloc, rules)?, config?) {
            Some(system) => Ok(system),
            None => Err(TextFault::Arity),
        },
        Err(fault) => Err(refusal(fault, config.err())),
    }
}

/// The words after so many others, in the same memory.
fn words_from(mut words: Vec<Word>, before: usize) -> Vec<Word>
    requires { before ≤ length words.items }
    ensures { result.items ≡ drop before words.items }
{
    let left = words.len() - before;
    words.rotate_left(before);
    words.truncate(left);
    words
}

/// The system of words in prefix order, so many of them those of rules, and so many terms in the interface of the
/// configuration that the others write; or the first refusal of both.
pub(crate) fn system_of(
    alloc: Global,
    symbols: Symbols,
    words: Vec<Word>,
    before: usize,
    terms: usize,
) -> Result<WideSystem, TextFault>
    requires inside { before ≤ length words.items }
    requires paired { IsPaired (drop before words.items) terms }
    ensures { Gives (λ system. system) result (joined
        (built symbols (rules_in (forest (take before words.items))))
        (as_text_answer (wide_restored
        (configuration_from terms (forest (drop before words.items)))))) }
{
    let rules = rules_of(alloc, &words[..before])?;
    let rules = RuleSet::build(alloc, symbols, rules);
    let config = wide_of(alloc, words_from(words, before), terms);
    join(alloc, rules, config)
}

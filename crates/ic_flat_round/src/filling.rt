//! Configurations with the results of a round's works in the places of its active equations.

ghost use Rattle.std.specs.Prelude.{◌≡◌, ℕ, ◌++◌, ◌≤◌, length, map, IfOk, OnOk, IsTrue};
ghost use Rattle.ic_term.specs.Symbol.{is_over};
ghost use Rattle.ic_term.specs.declared.limits.TheConstants.{MAX_NODES, MAX_NEXT};
ghost use Rattle.ic_term.specs.Term.{pair};
ghost use Rattle.ic_rules.specs.RuleSet.{IsRuleSet};
ghost use Rattle.ic_flat.specs.Words.{IsWhole};
ghost use Rattle.ic_round.specs.Firing.{fired, fired_from, next_after};
ghost use Rattle.ic_round.specs.Works.{works_from, result_of};
ghost use Rattle.ic_round.specs.WorkViews.{fired_of};
ghost use Rattle.ic_round.specs.Plans.{planned};
ghost use Rattle.ic_round.specs.Rounds.{fits};
ghost use Rattle.ic_flat_round.specs.inner.Limits.{reached};
ghost use Rattle.ic_flat_rules.specs.RuleWords.{pairs_words};
ghost use Rattle.ic_flat_rules.specs.Standing.{pairs_at, AreInTwos};

use crate::fired::Reached;
use ic_flat::{Flat, Word, write_terms};
use ic_flat_rules::{equations_place, rule_of, sides_at};
use ic_round::Fired;
use ic_rules::RuleSet;
use ic_term::{Equation, MAX_NODES};
use std::alloc::{AllocError, Global};

/// The configuration with all its active equations fired, and not settled, from the results of its works in their
/// order. Takes memory for as many words as a configuration may have.
pub fn filled(
    alloc: Global,
    rules: &RuleSet,
    flat: &Flat,
    results: Vec<Fired>,
) -> Result<Flat, AllocError>
    requires over { IsTrue (is_over rules.now.symbols flat.now) }
    requires fitting { IsTrue (fits rules.now.rules flat.now) }
    requires results { map fired_of results.items
        ≡ map (result_of rules.now.rules) (planned rules.now.rules flat.now).works }
    ensures fired { IfOk result (λ after. after ≡ fired rules.now.rules flat.now) }
    ensures over { IfOk result (λ after. IsTrue (is_over rules.now.symbols after)) }
{
    let words = flat.words();
    let place = equations_place(flat);
    let mut out = Vec::with_capacity(alloc, MAX_NODES as usize)?;
    out.extend_from_slice(&words[..place])?;
    let Reached { equations, next } = put_filled(
        alloc,
        rules,
        words,
        place,
        flat.next(),
        results,
        &mut out,
    )?;
    Ok(Flat::from_parts(out, flat.interface_len(), equations, next))
}

/// Appends the equations from a place on, each active one by its result, and tells how far they reach.
fn put_filled(
    alloc: Global,
    rules: &RuleSet,
    words: &[Word],
    place: usize,
    next: u64,
    results: Vec<Fired>,
    out: &mut Vec<Word>,
) -> Result<Reached, AllocError>
    requires whole { IsWhole words.now }
    requires within { place ≤ length words.now }
    requires twos { AreInTwos words.now place }
    requires few { length (fired_from rules.now.rules next (pairs_at words.now place)) ≤ MAX_NODES }
    requires low { next_after rules.now.rules next (pairs_at words.now place) ≤ MAX_NEXT }
    requires results { map fired_of results.items ≡ map (result_of rules.now.rules)
        (works_from rules.now.rules 0 next (pairs_at words.now place)) }
    ensures reached { IfOk result (λ it. it ≡ reached
        (fired_from rules.now.rules next (pairs_at words.now place))
        (next_after rules.now.rules next (pairs_at words.now place))) }
    ensures put { OnOk result (out.new.items ≡ out.old.items
        ++ pairs_words (fired_from rules.now.rules next (pairs_at words.now place))) }
    ensures sound { IsRuleSet rules.now }
{
    let known = rules.rules();
    let mut results = results.into_iter();
    let mut place = place;
    let mut equations = 0;
    let mut next = next;
    while place < words.len() {
        let sides = sides_at(words, place);
        match rule_of(rules, words, sides) {
            None => {
                out.extend_from_slice(&words[sides.left..sides.end])?;
                equations += 1;
            }
            Some((rule, _)) => {
                let Some(fired) = results.next() else {
                    unreachable!()
                };
                equations += fired.products.len();
                put_made(alloc, fired.products, out)?;
                next += known[rule].names() as u64;
            }
        }
        place = sides.end;
    }
    Ok(Reached { equations, next })
}

/// Appends the words of equations.
fn put_made(alloc: Global, equations: Vec<Equation>, out: &mut Vec<Word>) -> Result<(), AllocError>
    ensures { OnOk result
        (out.new.items ≡ out.old.items ++ pairs_words (map pair equations.items)) }
{
    for equation in equations {
        write_terms(alloc, &[equation.left, equation.right], out)?;
    }
    Ok(())
}

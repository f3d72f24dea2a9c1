//! Configurations with all their active equations fired.

ghost use Rattle.std.specs.Prelude.{◌≡◌, ℕ, ◌+◌, ◌≤◌, length, true, is_some, if◌then◌else◌, IfOk, IfSome, IsTrue, vec_len};
ghost use Rattle.std.specs.List.{list_all};
ghost use Rattle.ic_term.specs.declared.limits.TheConstants.{MAX_NODES, MAX_NEXT};
ghost use Rattle.ic_term.specs.Symbol.{is_over, is_pair_over};
ghost use Rattle.ic_flat.specs.Words.{IsWhole};
ghost use Rattle.ic_flat.specs.Flat.{configuration_words};
ghost use Rattle.ic_round.specs.Firing.{fired, fired_pair, fired_from, names_taken, next_after};
ghost use Rattle.ic_round.specs.Rounds.{fits, unless_unfit};
ghost use Rattle.ic_round.specs.RoundAnswers.{Answers};
ghost use Rattle.ic_flat_round.specs.inner.Room.{Appended};
ghost use Rattle.ic_flat_rules.specs.RuleWords.{pairs_words};
ghost use Rattle.ic_flat_round.specs.inner.Limits.{is_within, reached, IsRoomy, fits_after};
ghost use Rattle.ic_flat_rules.specs.Standing.{pair_at, pairs_at, AreSides, AreInTwos, IsEquationsPlace};

use crate::firing::{put_copied, put_interaction};
use ic_flat::{Flat, Word};
use ic_flat_rules::{FlatRules, Sides, equations_place, refusal, rule_of, sides_at};
use ic_round::RoundFault;
use ic_term::{MAX_NEXT, MAX_NODES};
use std::alloc::Global;

/// How many equations firing has put on a list, and the first number after the names that they take.
#[derive(Clone, Copy)]
pub(crate) struct Reached {
    pub equations: usize,
    pub next: u64,
}

/// Whether so many more words after the first `len`, and so many more names from `next` on, stay within the limits.
fn is_within(len: usize, more: usize, next: u64, names: u64) -> bool
    requires few { len ≤ MAX_NODES }
    requires low { next ≤ MAX_NEXT }
    ensures { result ≡ is_within (len + more) (next + names) }
{
    more <= MAX_NODES as usize - len && names <= MAX_NEXT - next
}

/// The places of an equation's sides, turned round where its rule has them so.
fn in_order(sides: Sides, turned: bool) -> (usize, usize)
    ensures { result ≡ (if turned then (sides.right, sides.left) else (sides.left, sides.right)) }
{
    if turned {
        (sides.right, sides.left)
    } else {
        (sides.left, sides.right)
    }
}

/// Appends an equation, fired if it is active, its fresh names from `next` on, and tells how far it reaches. Answers
/// None where a limit would be passed.
fn put_fired(
    rules: &FlatRules,
    words: &[Word],
    sides: Sides,
    next: u64,
    out: &mut Vec<Word>,
) -> Option<Reached>
    requires whole { IsWhole words.now }
    requires sides { AreSides words.now sides }
    requires over { is_pair_over rules.now.symbols (pair_at words.now sides) ≡ true }
    requires roomy { IsRoomy out.old }
    requires low { next ≤ MAX_NEXT }
    ensures fits { is_some result ≡ fits_after out.old
        (fired_pair rules.now.rules next (pair_at words.now sides))
        (next + names_taken rules.now.rules (pair_at words.now sides)) }
    ensures reached { IfSome result (λ it. it ≡ reached
        (fired_pair rules.now.rules next (pair_at words.now sides))
        (next + names_taken rules.now.rules (pair_at words.now sides))) }
    ensures put { IfSome result (λ _. Appended out.old out.new
        (pairs_words (fired_pair rules.now.rules next (pair_at words.now sides)))) }
{
    match rule_of(rules.rules(), words, sides) {
        None => {
            let equation = &words[sides.left..sides.end];
            if !is_within(out.len(), equation.len(), next, 0) {
                return None;
            }
            put_copied(equation, out);
            Some(Reached { equations: 1, next })
        }
        Some((place, turned)) => {
            let template = rules.words(place);
            let names = rules.names(place);
            let count = sides.end - sides.left - 2 + template.len();
            if !is_within(out.len(), count, next, names) {
                return None;
            }
            let (left, right) = in_order(sides, turned);
            let equations = put_interaction(words, left, right, template, next, out);
            Some(Reached {
                equations,
                next: next + names,
            })
        }
    }
}

/// Appends the equations from a place on, each fired if it is active, their fresh names from `next` on, and tells how
/// far they reach. Answers None at the first one that would pass a limit.
fn put_equations(
    rules: &FlatRules,
    words: &[Word],
    place: usize,
    next: u64,
    out: &mut Vec<Word>,
) -> Option<Reached>
    requires whole { IsWhole words.now }
    requires within { place ≤ length words.now }
    requires twos { AreInTwos words.now place }
    requires over { list_all (is_pair_over rules.now.symbols) (pairs_at words.now place) ≡ true }
    requires roomy { IsRoomy out.old }
    requires low { next ≤ MAX_NEXT }
    ensures fits { is_some result ≡ fits_after out.old
        (fired_from rules.now.rules next (pairs_at words.now place))
        (next_after rules.now.rules next (pairs_at words.now place)) }
    ensures reached { IfSome result (λ it. it ≡ reached
        (fired_from rules.now.rules next (pairs_at words.now place))
        (next_after rules.now.rules next (pairs_at words.now place))) }
    ensures put { IfSome result (λ _. Appended out.old out.new
        (pairs_words (fired_from rules.now.rules next (pairs_at words.now place)))) }
{
    let mut place = place;
    let mut equations = 0;
    let mut next = next;
    while place < words.len() {
        let sides = sides_at(words, place);
        let fired = put_fired(rules, words, sides, next, out)?;
        equations += fired.equations;
        next = fired.next;
        place = sides.end;
    }
    Some(Reached { equations, next })
}

/// Puts a configuration, whose equations begin at this place, with all the active ones fired, on an empty list, and
/// tells how far it reaches. Answers None where it passes a limit.
fn put_configuration(
    rules: &FlatRules,
    flat: &Flat,
    place: usize,
    out: &mut Vec<Word>,
) -> Option<Reached>
    requires over { IsTrue (is_over rules.now.symbols flat.now) }
    requires place { IsEquationsPlace flat.now place }
    requires empty { vec_len out.old ≡ 0 }
    requires roomy { IsRoomy out.old }
    ensures fits { is_some result ≡ fits rules.now.rules flat.now }
    ensures reached { IfSome result (λ it. it ≡ reached
        (fired rules.now.rules flat.now).equations (fired rules.now.rules flat.now).next) }
    ensures put { IfSome result (λ _.
        Appended out.old out.new (configuration_words (fired rules.now.rules flat.now))) }
{
    let words = flat.words();
    put_copied(&words[..place], out);
    put_equations(rules, words, place, flat.next(), out)
}

/// The configuration with all its active equations fired, and not settled, on a list whose own words go. Takes memory
/// only where the list is too short for as many words as a configuration may have.
pub(crate) fn fire_onto(
    rules: &FlatRules,
    flat: &Flat,
    mut words: Vec<Word>,
) -> Result<Flat, RoundFault>
    requires { IsTrue (is_over rules.now.symbols flat.now) }
    ensures fired { Answers result
        (unless_unfit rules.now.rules flat.now (fired rules.now.rules flat.now)) }
    ensures over { IfOk result (λ after. IsTrue (is_over rules.now.symbols after)) }
{
    let rule_set = rules.rules();
    let place = equations_place(flat);
    words.clear();
    words.reserve(MAX_NODES as usize)?;
    match put_configuration(rules, flat, place, &mut words) {
        Some(Reached { equations, next }) => {
            let terms = flat.interface_len();
            Ok(Flat::with_place(words, terms, equations, next, place))
        }
        None => Err(refusal(rule_set, flat, place)),
    }
}

/// The configuration with all its active equations fired, and not settled. Takes memory for as many words as a
/// configuration may have.
pub fn fire(alloc: Global, rules: &FlatRules, flat: &Flat) -> Result<Flat, RoundFault>
    requires { IsTrue (is_over rules.now.symbols flat.now) }
    ensures fired { Answers result
        (unless_unfit rules.now.rules flat.now (fired rules.now.rules flat.now)) }
    ensures over { IfOk result (λ after. IsTrue (is_over rules.now.symbols after)) }
{
    fire_onto(rules, flat, Vec::new(alloc))
}

//! Terms written with what stands for their bound names in the places of these.

ghost use Rattle.std.specs.Prelude.{◌≡◌, ◌+◌, ◌++◌, ◌<◌, ◌≤◌, List, [], IfOk, IfSome, OnOk, length, map, sum_by};
ghost use Rattle.std.specs.List.{AllByRecursion};
ghost use Rattle.ic_term.specs.Tree.{nodes};
ghost use Rattle.ic_flat.specs.Words.{IsWhole};
ghost use Rattle.ic_flat.specs.Flat.{sides};
ghost use Rattle.ic_flat_round.specs.inner.Waits.{waiting, AreWithin, IsKeptWithin, kept_at};
ghost use Rattle.ic_flat_round.specs.inner.Rebuilding.{IsSpan, IsRun, PutsOn, span_terms, span_of, stacked, state, on_stack, effort};
ghost use Rattle.ic_flat_round.specs.declared.rebuilding.Span.{Span};

use crate::bound::{Bound, is_bound, unbound};
use crate::firing::put_copied;
use crate::pass::Kept;
use ic_flat::Word;
use std::alloc::AllocError;

/// So many terms, one after the other from a place on.
#[derive(Clone, Copy)]
pub(crate) struct Span {
    pub place: usize,
    pub count: usize,
}

/// Writes the first word of a span, or turns to the term that its name is bound to, and tells what is to be written
/// next.
#[inline(always)]
fn put_word(
    words: &[Word],
    span: Span,
    bound: &mut Bound,
    stack: &mut Vec<Span>,
    out: &mut Vec<Word>,
) -> Result<Span, AllocError>
    requires whole { IsWhole words.now }
    requires some { 0 < span.count }
    requires span { IsSpan words.now span }
    requires stack { AllByRecursion (IsSpan words.now) stack.old.items }
    requires within { AreWithin words.now bound.old.entries }
    ensures span { IfOk result (IsSpan words.now) }
    ensures stack { OnOk result (AllByRecursion (IsSpan words.now) stack.new.items) }
    ensures within { OnOk result (AreWithin words.now bound.new.entries) }
    ensures puts { IfOk result (λ next.
        PutsOn (on_stack words.now bound.old.entries out.old.items span stack.old.items)
        (on_stack words.now bound.new.entries out.new.items next stack.new.items)) }
    ensures less { IfOk result (λ next.
        effort (on_stack words.now bound.new.entries out.new.items next stack.new.items) + 1
        ≡ effort (on_stack words.now bound.old.entries out.old.items span stack.old.items)) }
    ensures few { OnOk result (length stack.new.items ≤ length stack.old.items + 1) }
{
    let rest = Span {
        place: span.place + 1,
        count: span.count - 1,
    };
    match words[span.place] {
        Word::Name(name) => match unbound(bound, name) {
            Some(place) => {
                stack.push(rest)?;
                Ok(Span { place, count: 1 })
            }
            None => {
                out.push(Word::Name(name))?;
                Ok(rest)
            }
        },
        Word::Agent(sym, arity) => {
            out.push(Word::Agent(sym, arity))?;
            Ok(Span {
                place: rest.place,
                count: rest.count + arity,
            })
        }
    }
}

/// What is left of a span after its first word, if this word stands for itself: an agent, or a name that isn't bound.
#[inline(always)]
fn after_word(words: &[Word], span: Span, bound: &Bound) -> Option<Span>
    requires whole { IsWhole words.now }
    requires some { 0 < span.count }
    requires span { IsSpan words.now span }
    ensures next { IfSome result (λ next. next.place ≡ span.place + 1) }
    ensures run { IfSome result (IsRun words.now bound.now.entries span) }
{
    let place = span.place + 1;
    let count = span.count - 1;
    match words[span.place] {
        Word::Name(name) => {
            if is_bound(bound, name) {
                return None;
            }
            Some(Span { place, count })
        }
        Word::Agent(_, arity) => Some(Span {
            place,
            count: count + arity,
        }),
    }
}

/// What is left of a span after its first words that stand for themselves.
#[inline(always)]
fn after_words(words: &[Word], span: Span, bound: &Bound) -> Span
    requires whole { IsWhole words.now }
    requires span { IsSpan words.now span }
    ensures { IsRun words.now bound.now.entries span result }
{
    let mut rest = span;
    while rest.count > 0 {
        match after_word(words, rest, bound) {
            Some(next) => rest = next,
            None => return rest,
        }
    }
    rest
}

/// Writes the first words of a span that stand for themselves, and tells what is left of it.
#[inline(always)]
fn put_words(
    words: &[Word],
    span: Span,
    bound: &Bound,
    out: &mut Vec<Word>,
) -> Result<Span, AllocError>
    requires whole { IsWhole words.now }
    requires span { IsSpan words.now span }
    ensures left { IfOk result (IsSpan words.now) }
    ensures puts { IfOk result (λ rest. (stack : List Span)
        → PutsOn (on_stack words.now bound.now.entries out.old.items span stack)
        (on_stack words.now bound.now.entries out.new.items rest stack)) }
    ensures less { IfOk result (λ rest. (stack : List Span)
        → sum_by nodes (span_terms words.now rest ++ stacked words.now stack)
        ≤ sum_by nodes (span_terms words.now span ++ stacked words.now stack)) }
{
    let rest = after_words(words, span, bound);
    if rest.place <= span.place {
        return Ok(rest);
    }
    let run = &words[span.place..rest.place];
    out.reserve(run.len())?;
    put_copied(run, out);
    Ok(rest)
}

/// Writes a span of terms. What is left of other spans waits on the stack, which is empty before and after.
pub(crate) fn put_terms(
    words: &[Word],
    span: Span,
    bound: &mut Bound,
    stack: &mut Vec<Span>,
    out: &mut Vec<Word>,
) -> Result<(), AllocError>
    requires whole { IsWhole words.now }
    requires span { IsSpan words.now span }
    requires within { AreWithin words.now bound.old.entries }
    requires empty { stack.old.items ≡ [] }
    ensures within { OnOk result (AreWithin words.now bound.new.entries) }
    ensures empty { OnOk result (stack.new.items ≡ []) }
    ensures puts { OnOk result (PutsOn
        (state (waiting words.now bound.old.entries) out.old.items (span_terms words.now span))
        (state (waiting words.now bound.new.entries) out.new.items [])) }
{
    let mut span = span;
    loop {
        let rest = put_words(words, span, bound, out)?;
        if rest.count > 0 {
            span = put_word(words, rest, bound, stack, out)?;
        } else {
            match stack.pop() {
                Some(next) => span = next,
                None => return Ok(()),
            }
        }
    }
}

/// Writes the sides of equations, which begin at these places.
pub(crate) fn put_equations(
    words: &[Word],
    kept: &[Kept],
    bound: &mut Bound,
    stack: &mut Vec<Span>,
    out: &mut Vec<Word>,
) -> Result<(), AllocError>
    requires whole { IsWhole words.now }
    requires kept { AllByRecursion (IsKeptWithin words.now) kept.now }
    requires within { AreWithin words.now bound.old.entries }
    requires empty { stack.old.items ≡ [] }
    ensures { OnOk result (PutsOn
        (state (waiting words.now bound.old.entries) out.old.items
        (sides (map (kept_at words.now) kept.now)))
        (state (waiting words.now bound.new.entries) out.new.items [])) }
{
    for equation in kept {
        put_terms(words, one_term(equation.left), bound, stack, out)?;
        put_terms(words, one_term(equation.right), bound, stack, out)?;
    }
    Ok(())
}

fn one_term(place: usize) -> Span
    ensures { result ≡ span_of place }
{
    Span { place, count: 1 }
}

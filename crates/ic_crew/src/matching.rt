//! Answers matched with the works that they were asked for.

ghost use Rattle.std.specs.Prelude.{◌≡◌, ◌<◌, map, length, IsPermutation, IfSome, IfNone, IsTrue, HoldsAt};
ghost use Rattle.ic_round.specs.WorkViews.{work_of};
ghost use Rattle.ic_crew.specs.Matching.{Matches, is_answer_to, answers_to};
ghost use Rattle.ic_crew.specs.WorkLists.{works_of, results_of};

use crate::answers::Answer;
use ic_pool::PoolFault;
use ic_round::{Fired, Work};
use ic_rules::RuleSet;
use std::alloc::Global;
use std::cmp::Reverse;

/// The products of works, in their order, out of the answers to them, which come in any order.
/// Where a work has no answer it is `Lost`, else where there are further answers `Stranger`: such an
/// answer is to none of the works under these rules, or the second to one. Takes time linear in the
/// works and answers, beside the sorting, where the works stand in the order of their places and
/// nothing is lost.
pub fn match_answers(
    alloc: Global,
    rules: &RuleSet,
    works: Vec<Work>,
    answers: Vec<Answer>,
) -> Result<Vec<Fired>, PoolFault>
    ensures { Matches rules.now (works_of works) answers.items (results_of result) }
{
    match_each(alloc, rules, &works, answers)
}

/// The same, of borrowed works.
fn match_each(
    alloc: Global,
    rules: &RuleSet,
    works: &[Work],
    answers: Vec<Answer>,
) -> Result<Vec<Fired>, PoolFault>
    ensures { Matches rules.now (map work_of works.now) answers.items (results_of result) }
{
    let mut left = answers;
    sort_last_place_first(&mut left);
    let mut results = Vec::with_capacity(alloc, works.len())?;
    for work in works {
        let Some(place) = place_of(rules, work, &left) else {
            return Err(PoolFault::Lost);
        };
        results.push(left.swap_remove(place).into_fired())?;
    }
    if !left.is_empty() {
        return Err(PoolFault::Stranger);
    }
    Ok(results)
}

/// Puts the answers in an order in which works that stand in the order of their places take the last.
fn sort_last_place_first(answers: &mut Vec<Answer>)
    ensures { IsPermutation answers.old.items answers.new.items }
{
    answers.sort_unstable_by_key(|answer| Reverse(answer.work().place));
}

/// Where an answer to this work stands. The last is looked at first.
fn place_of(rules: &RuleSet, work: &Work, answers: &[Answer]) -> Option<usize>
    ensures some { IfSome result (λ i. (i < length answers.now)
        × HoldsAt (λ a. IsTrue (is_answer_to rules.now (work_of work.now) a)) answers.now i) }
    ensures none { IfNone result (answers_to rules.now (work_of work.now) answers.now ≡ 0) }
{
    match answers.last() {
        Some(last) if last.is_to(rules, work) => Some(answers.len() - 1),
        _ => first_place_of(rules, work, answers),
    }
}

/// Where the first answer to this work stands.
fn first_place_of(rules: &RuleSet, work: &Work, answers: &[Answer]) -> Option<usize>
    ensures some { IfSome result (λ i. (i < length answers.now)
        × HoldsAt (λ a. IsTrue (is_answer_to rules.now (work_of work.now) a)) answers.now i) }
    ensures none { IfNone result (answers_to rules.now (work_of work.now) answers.now ≡ 0) }
{
    for (place, answer) in answers.iter().enumerate() {
        if answer.is_to(rules, work) {
            return Some(place);
        }
    }
    None
}

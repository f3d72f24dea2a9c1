//! Works dealt out, and answers matched with works.

use crate::answers::number_first;
use ic_crew::{Answer, deal, match_answers};
use ic_notation::{Trouble, decimal, system_of};
use ic_pool::{OpenGate, PoolFault};
use ic_reference::{plan, round};
use ic_round::Work;
use ic_rules::RuleSet;
use ic_term::{Config, over};
use std::alloc::{AllocError, Global};
use std::sync::Arc;

/// The works of a configuration's round.
fn works_of(alloc: Global, rules: &RuleSet, config: Config) -> Result<Vec<Work>, Trouble> {
    if !over(rules.symbols(), &config) {
        return Err(Trouble("not over the symbols"));
    }
    match plan(alloc, rules, config) {
        Ok(plan) => Ok(plan.works),
        Err(_) => Err(Trouble("no plan")),
    }
}

/// The works of the round after the next one.
fn works_after(alloc: Global, rules: &RuleSet, config: Config) -> Result<Vec<Work>, Trouble> {
    if !over(rules.symbols(), &config) {
        return Err(Trouble("not over the symbols"));
    }
    match round(alloc, rules, config) {
        Ok(next) => works_of(alloc, rules, next),
        Err(_) => Err(Trouble("no round")),
    }
}

/// The places of the works of a system's round, dealt to so many parts.
pub fn dealt(alloc: Global, text: &str) -> Result<Vec<u8>, Trouble> {
    let (count, system) = number_first(text);
    if count == 0 {
        return Err(Trouble("no parts"));
    }
    let (rules, config) = system_of(alloc, system.as_bytes())?.into_parts();
    let works = works_of(alloc, &rules, config)?;
    let parts = deal(alloc, &rules, works, count as usize)?;
    Ok(line_of_parts(alloc, &parts)?)
}

/// The places of the works of each part, or `-` where there are none.
fn line_of_parts(alloc: Global, parts: &[Vec<Work>]) -> Result<Vec<u8>, AllocError> {
    let mut line = Vec::new(alloc);
    for (place, part) in parts.iter().enumerate() {
        if place > 0 {
            line.extend_from_slice(b"; ")?;
        }
        if part.is_empty() {
            line.push(b'-')?;
        }
        places(&mut line, part)?;
    }
    Ok(line)
}

/// Adds the places of works.
fn places(line: &mut Vec<u8>, works: &[Work]) -> Result<(), AllocError> {
    for (place, work) in works.iter().enumerate() {
        if place > 0 {
            line.push(b' ')?;
        }
        decimal(line, work.place)?;
    }
    Ok(())
}

/// The answer to a copy of a work, if it suits the rules.
fn answer_to(alloc: Global, rules: &Arc<RuleSet>, work: &Work) -> Result<Answer, Trouble> {
    let copy = work.copy(alloc)?;
    if !copy.suits(rules) {
        return Err(Trouble("a work doesn't suit"));
    }
    Ok(Answer::to(alloc, rules, &OpenGate, copy)?)
}

/// The answers to works and to others, the last of each first.
fn answers_to(
    alloc: Global,
    rules: &Arc<RuleSet>,
    works: &[Work],
    others: &[Work],
) -> Result<Vec<Answer>, Trouble> {
    let mut answers = Vec::new(alloc);
    for work in works.iter().rev() {
        answers.push(answer_to(alloc, rules, work)?)?;
    }
    for work in others.iter().rev() {
        answers.push(answer_to(alloc, rules, work)?)?;
    }
    Ok(answers)
}

fn copies_of(alloc: Global, works: &[Work]) -> Result<Vec<Work>, AllocError> {
    let mut copies = Vec::new(alloc);
    for work in works {
        copies.push(work.copy(alloc)?)?;
    }
    Ok(copies)
}

/// What becomes of works, where these works and those are answered.
fn told(
    alloc: Global,
    rules: &Arc<RuleSet>,
    works: &[Work],
    own: &[Work],
    others: &[Work],
) -> Result<&'static str, Trouble> {
    let copies = copies_of(alloc, works)?;
    let answers = answers_to(alloc, rules, own, others)?;
    match match_answers(alloc, rules, copies, answers) {
        Ok(_) => Ok("matched "),
        Err(PoolFault::Lost) => Ok("lost "),
        Err(PoolFault::Stranger) => Ok("stranger "),
        Err(_) => Err(Trouble("another fault")),
    }
}

/// What becomes of works with their own answers, one missing, one twice, others beside them, those alone, and those in
/// place of one.
fn line_of_matches<'a>(
    alloc: Global,
    rules: &Arc<RuleSet>,
    works: &'a [Work],
    others: &'a [Work],
) -> Result<Vec<u8>, Trouble> {
    let (but_one, last) = works.split_at(works.len().saturating_sub(1));
    let none: &'a [Work] = &[];
    let mut line = Vec::new(alloc);
    for (own, more) in [
        (works, none),
        (but_one, none),
        (works, last),
        (works, others),
        (none, others),
        (but_one, others),
    ] {
        line.extend_from_slice(told(alloc, rules, works, own, more)?.as_bytes())?;
    }
    Ok(line)
}

/// What becomes of the works of a system's second round with right and wrong answers.
pub fn matched(alloc: Global, text: &str) -> Result<Vec<u8>, Trouble> {
    let (rules, config) = system_of(alloc, text.as_bytes())?.into_parts();
    let first = works_of(alloc, &rules, config.copy(alloc)?)?;
    let works = works_after(alloc, &rules, config)?;
    line_of_matches(alloc, &rules, &works, &first)
}

//! How often each rule fired, by how often its plans did, and how many steps put a term for a name.

ghost use Rattle.std.specs.Prelude.{◌≡◌, ◌+◌, ◌*◌, ◌^◌, ◌<◌, ◌==◌, ◌≢◌, ◌≤◌, ℕ, None, SomeIff, IfOk, length, min, slice_index_or, if◌then◌else◌};
ghost use Rattle.ic_in_place.specs.Summing.{IsSummed, made_from};

use crate::running::End;
use ic_rules::Rule;
use std::alloc::{AllocError, Global};

/// So many counts of nothing.
pub fn no_counts(alloc: Global, rules: usize) -> Result<Vec<u64>, AllocError>
    ensures len { IfOk result (λ counts. length counts.items ≡ rules) }
    ensures zeros { IfOk result (λ counts. (r : ℕ) → slice_index_or counts.items r 0 ≡ 0) }
{
    let mut counts = Vec::with_capacity(alloc, rules)?;
    for _ in 0..rules {
        counts.push_reserved(0u64);
    }
    Ok(counts)
}

/// Counts how often each rule fired, by the rule of each plan and how often that fired.
pub fn sum_by_rule(by_rule: &mut Vec<u64>, numbers: &[u32], counts: &[u64])
    requires { (r : ℕ) → slice_index_or by_rule.old.items r 0 ≡ 0 }
    ensures { IsSummed (length by_rule.old.items) numbers.now counts.now by_rule.new.items }
{
    for (plan, rule) in numbers.iter().enumerate() {
        add(by_rule, *rule, count_of(counts, plan));
    }
}

/// Adds to the count of a rule, if there is one, at most up to 2^64 - 1.
fn add(by_rule: &mut Vec<u64>, rule: u32, count: u64)
    ensures len { length by_rule.new.items ≡ length by_rule.old.items }
    ensures each { (r : ℕ) → r < length by_rule.old.items → slice_index_or by_rule.new.items r 0
        ≡ if rule == r then min (slice_index_or by_rule.old.items r 0 + count) u64.MAX
        else slice_index_or by_rule.old.items r 0 }
{
    if (rule as usize) < by_rule.len() {
        let sum = by_rule[rule as usize].saturating_add(count);
        by_rule[rule as usize] = sum;
    }
}

/// The count of a plan, or zero.
fn count_of(counts: &[u64], plan: usize) -> u64
    ensures { result ≡ slice_index_or counts.now plan 0 }
{
    match counts.get(plan) {
        Some(count) => *count,
        None => 0,
    }
}

/// How many steps put a term for a name, if the end is quiet, where so many equations were given and so many are left.
/// Nothing if there are too many to be counted.
pub(crate) fn name_steps_at(
    end: End,
    equations: usize,
    rules: &[Rule],
    by_rule: &[u64],
    interactions: u64,
    left: usize,
) -> Option<u64>
    ensures quiet { end ≡ End.Quiet → (n : ℕ)
        → n + interactions + left ≡ equations + made_from rules.now by_rule.now 0
        → SomeIff result (n + interactions + left < 2 ^ 64) n }
    ensures other { end ≢ End.Quiet → result ≡ None }
{
    match end {
        End::Quiet => name_steps(equations, rules, by_rule, interactions, left),
        _ => None,
    }
}

/// How many steps put a term for a name. A rule that fires makes an equation of each of its arguments and takes one away,
/// and a name step takes one away. So these are all that were there or made, less the interactions and what is left.
fn name_steps(
    equations: usize,
    rules: &[Rule],
    by_rule: &[u64],
    interactions: u64,
    left: usize,
) -> Option<u64>
    ensures { (n : ℕ) → n + interactions + left ≡ equations + made_from rules.now by_rule.now 0
        → SomeIff result (n + interactions + left < 2 ^ 64) n }
{
    let mut made = equations as u64;
    for (place, rule) in rules.iter().enumerate() {
        let times = count_of(by_rule, place);
        made = plus_times(made, times, rule.left_args().len())?;
        made = plus_times(made, times, rule.right_args().len())?;
    }
    made.checked_sub(interactions)?.checked_sub(left as u64)
}

/// A number and so many times another one, if that is below 2^64.
fn plus_times(number: u64, times: u64, other: usize) -> Option<u64>
    ensures { SomeIff result (number + times * other < 2 ^ 64) (number + times * other) }
{
    number.checked_add(times.checked_mul(other as u64)?)
}

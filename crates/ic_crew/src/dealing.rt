//! Works dealt out to workers.

ghost use Rattle.std.specs.Prelude.{◌≡◌, ◌<◌, ◌≤◌, List, [], All, map, length, replicate, vec_len, IfOk, IsPermutation};
ghost use Rattle.std.specs.List.{AllByRecursion};
ghost use Rattle.ic_round.specs.WorkViews.{work_of};
ghost use Rattle.ic_rules.specs.Rule.{Rule};
ghost use Rattle.ic_crew.specs.Dealing.{IsDealing, AreDealt, joined};
ghost use Rattle.ic_crew.specs.inner.Parts.{IsWeighed, plain_work, lists_of};
ghost use Rattle.ic_crew.specs.WorkLists.{works_of};

use crate::parts::Parts;
use crate::weighing::{Weighed, sort_greatest_first, weigh};
use ic_round::Work;
use ic_rules::RuleSet;
use std::alloc::{AllocError, Global};

/// Works dealt out to so many parts, which together hold each work once: the greatest first, those
/// of one size by place, each to the part with the least size so far, the first of them where
/// several are. A work's size is the nodes of its two cells and of its rule's arguments.
pub fn deal(
    alloc: Global,
    rules: &RuleSet,
    works: Vec<Work>,
    count: usize,
) -> Result<Vec<Vec<Work>>, AllocError>
    requires { 0 < count }
    ensures dealt { IfOk result (λ parts.
        IsDealing rules.now.rules count (map work_of works.items) (map works_of parts.items)) }
    ensures count { IfOk result (λ parts. vec_len parts ≡ count) }
    ensures each_once { IfOk result (λ parts.
        IsPermutation (map work_of works.items) (joined (map works_of parts.items))) }
    ensures none_empty { IfOk result (λ parts. count ≤ vec_len works
        → AllByRecursion (λ part. 0 < length part) (map works_of parts.items)) }
{
    let mut weighed = weigh(alloc, rules, works)?;
    sort_greatest_first(&mut weighed);
    Ok(deal_in_order(alloc, weighed, count)?.works)
}

/// Works dealt out in this order, each to the least part.
fn deal_in_order(alloc: Global, weighed: Vec<Weighed>, count: usize) -> Result<Parts, AllocError>
    requires { 0 < count }
    ensures { IfOk result (λ parts. (rs : List Rule) → All (IsWeighed rs) weighed.items
        → AreDealt rs (replicate count []) (map plain_work weighed.items) (lists_of parts)) }
{
    let mut parts = Parts::empty(alloc, count)?;
    for work in weighed {
        parts.put(work)?;
    }
    Ok(parts)
}

//! Works with their sizes, the greatest first.

ghost use Rattle.std.specs.Prelude.{◌≡◌, All, IsPermutation, IsSortedBy, IfOk, map};
ghost use Rattle.ic_round.specs.WorkViews.{work_of};
ghost use Rattle.ic_crew.specs.inner.Parts.{plain_work, IsWeighed, is_heavier};

use crate::sizes::size_of;
use ic_round::Work;
use ic_rules::RuleSet;
use std::alloc::{AllocError, Global};
use std::cmp::Reverse;

/// A work with its size.
#[derive(Drop)]
pub(crate) struct Weighed {
    pub size: u64,
    pub work: Work,
}

/// Works with their sizes, in the order of the works.
pub(crate) fn weigh(
    alloc: Global,
    rules: &RuleSet,
    works: Vec<Work>,
) -> Result<Vec<Weighed>, AllocError>
    ensures works { IfOk result (λ weighed. map plain_work weighed.items ≡ map work_of works.items) }
    ensures sizes { IfOk result (λ weighed. All (IsWeighed rules.now.rules) weighed.items) }
{
    let mut weighed = Vec::with_capacity(alloc, works.len())?;
    for work in works {
        let size = size_of(rules, &work);
        weighed.push(Weighed { size, work })?;
    }
    Ok(weighed)
}

/// Puts the greatest work first, those of one size by place.
pub(crate) fn sort_greatest_first(weighed: &mut Vec<Weighed>)
    ensures permutation { IsPermutation weighed.old.items weighed.new.items }
    ensures sorted { IsSortedBy is_heavier weighed.new.items }
{
    weighed.sort_unstable_by_key(|weighed| (Reverse(weighed.size), weighed.work.place));
}

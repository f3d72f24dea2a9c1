//! The works of a round in batches, one for each worker.

ghost use Rattle.std.specs.Prelude.{◌≡◌, ◌<◌, ◌≤◌, min, flat_map, vec_items, vec_len, IfOk};
ghost use Rattle.std.specs.List.{AllByRecursion};
ghost use Rattle.ic_pool.specs.declared.limits.TheConstants.{MAX_THREADS};

use crate::limits::MAX_THREADS;
use ic_round::Work;
use std::alloc::{AllocError, Global};

/// Works in batches of neighbours: one batch for each worker, but no more than there are works, and
/// no more than 64.
pub(crate) fn batches_of(
    alloc: Global,
    works: Vec<Work>,
    workers: usize,
) -> Result<Vec<Vec<Work>>, AllocError>
    requires { 0 < workers }
    ensures works { IfOk result (λ batches. flat_map vec_items batches.items ≡ works.items) }
    ensures count { IfOk result (λ batches.
        vec_len batches ≡ min (min workers (vec_len works)) MAX_THREADS) }
    ensures none_empty { IfOk result (λ batches.
        AllByRecursion (λ batch. 0 < vec_len batch) batches.items) }
{
    let count = workers.min(works.len()).min(MAX_THREADS);
    cut(alloc, works, count)
}

/// Works in so many batches of neighbours.
fn cut(alloc: Global, works: Vec<Work>, count: usize) -> Result<Vec<Vec<Work>>, AllocError>
    requires few { count ≤ vec_len works }
    requires some { 0 < vec_len works → 0 < count }
    ensures works { IfOk result (λ batches. flat_map vec_items batches.items ≡ works.items) }
    ensures count { IfOk result (λ batches. vec_len batches ≡ count) }
    ensures none_empty { IfOk result (λ batches.
        AllByRecursion (λ batch. 0 < vec_len batch) batches.items) }
{
    let mut rest = works;
    let mut batches = Vec::with_capacity(alloc, count)?;
    for done in 0..count {
        // An equal part of what is left, from its end.
        let part = rest.len() / (count - done);
        let batch = rest.split_off(rest.len() - part)?;
        batches.push(batch)?;
    }
    batches.reverse();
    Ok(batches)
}

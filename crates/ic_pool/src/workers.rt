//! The works of a round, fired by threads of their own.

ghost use Rattle.std.specs.Prelude.{◌≡◌, map, flat_map, vec_items, IsTrue, IfOk};
ghost use Rattle.std.specs.List.{AllByRecursion};
ghost use Rattle.ic_round.specs.Works.{suits, result_of};
ghost use Rattle.ic_round.specs.WorkViews.{work_of, fired_of};

use crate::fault::WorkerFault;
use crate::gate::Gate;
use crate::passed::fire_passed;
use ic_round::{Fired, Work};
use ic_rules::RuleSet;
use std::alloc::{AllocError, Global};
use std::snapshot::Snapshot;
use std::sync::Wait;
use std::thread;
use std::thread::{Promise, Scope, Threads};

/// What a worker promises: the results of its batch under these rules, in the order of the batch.
#[derive(Drop)]
struct Fires {
    rules: Snapshot<RuleSet>,
    batch: Snapshot<Vec<Work>>,
}

impl Promise<Result<Vec<Fired>, AllocError>> for Fires {
    ghost kept_by = { λ p r. IfOk r (λ fired. map fired_of fired.items
        ≡ map (result_of p.rules.value.rules) (map work_of p.batch.value.items)) };
}

/// The results of batches of works, each batch fired by a thread of its own. They stand in the
/// order of the works. All threads that were started have ended when this returns.
pub(crate) fn fire_by_workers<R: Threads + Wait, G: Gate>(
    rt: &R,
    alloc: Global,
    rules: &RuleSet,
    gate: &G,
    batches: Vec<Vec<Work>>,
) -> Result<Vec<Fired>, WorkerFault>
    requires { AllByRecursion (λ w. IsTrue (suits rules.now.rules w))
        (map work_of (flat_map vec_items batches.items)) }
    ensures { IfOk result (λ fired. map fired_of fired.items
        ≡ map (result_of rules.now.rules) (map work_of (flat_map vec_items batches.items))) }
{
    thread::scope(
        thread::scope_env(),
        rt,
        |scope| -> Result<Vec<Fired>, WorkerFault>
            requires { AllByRecursion (λ w. IsTrue (suits rules.now.rules w))
                (map work_of (flat_map vec_items batches.items)) }
            ensures { IfOk result (λ fired. map fired_of fired.items
                ≡ map (result_of rules.entry.now.rules)
                (map work_of (flat_map vec_items batches.items))) }
        { start_workers(rt, alloc, scope, rules, gate, batches) },
    )
}

/// Starts a worker for the last batch, then those for the batches before it, and joins it once
/// these are joined.
fn start_workers<'s, R: Threads, E, G: Gate>(
    rt: &R,
    alloc: Global,
    scope: &'s Scope<'s, E>,
    rules: &'s RuleSet,
    gate: &'s G,
    mut batches: Vec<Vec<Work>>,
) -> Result<Vec<Fired>, WorkerFault>
    requires { AllByRecursion (λ w. IsTrue (suits rules.now.rules w))
        (map work_of (flat_map vec_items batches.items)) }
    ensures { IfOk result (λ fired. map fired_of fired.items
        ≡ map (result_of rules.now.rules) (map work_of (flat_map vec_items batches.items))) }
{
    let Some(batch) = batches.pop() else {
        return Ok(Vec::new(alloc));
    };
    let promise = Fires {
        rules: Snapshot::of(rules),
        batch: Snapshot::of(&batch),
    };
    let Ok(worker) = scope.spawn_with(
        promise,
        move || -> Result<Vec<Fired>, AllocError>
            requires { AllByRecursion (λ w. IsTrue (suits rules.now.rules w))
                (map work_of batch.items) }
            ensures { IfOk result (λ fired. map fired_of fired.items
                ≡ map (result_of rules.entry.now.rules) (map work_of batch.items)) }
        { fire_batch(alloc, rules, gate, batch) },
    ) else {
        return Err(WorkerFault::NoThread);
    };
    let before = start_workers(rt, alloc, scope, rules, gate, batches);
    let last = worker.join(rt);
    let mut fired = before?;
    let mut last = last?;
    fired.append(&mut last)?;
    Ok(fired)
}

/// The results of works, in their order. Each is fired once its place has passed the gate.
fn fire_batch<G: Gate>(
    alloc: Global,
    rules: &RuleSet,
    gate: &G,
    batch: Vec<Work>,
) -> Result<Vec<Fired>, AllocError>
    requires { AllByRecursion (λ w. IsTrue (suits rules.now.rules w)) (map work_of batch.items) }
    ensures { IfOk result (λ fired. map fired_of fired.items
        ≡ map (result_of rules.now.rules) (map work_of batch.items)) }
{
    let mut results = Vec::with_capacity(alloc, batch.len())?;
    for work in batch {
        gate.pass(work.place);
        results.push(fire_passed(alloc, rules, gate, work)?)?;
    }
    Ok(results)
}

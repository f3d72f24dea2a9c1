//! A round made by threads of its own.

ghost use Rattle.std.specs.Prelude.{◌≡◌, ◌<◌, Err, IsTrue, IfOk};
ghost use Rattle.ic_term.specs.Symbol.{is_over};
ghost use Rattle.ic_flights.specs.Played.{round_of};
ghost use Rattle.ic_pool.specs.Workers.{ByWorkers, played_by, round_or_refusal};
ghost use Rattle.ic_pool.specs.declared.fault.PoolFault.TheVariants.{NoWorkers};

use crate::batches::batches_of;
use crate::fault::PoolFault;
use crate::gate::Gate;
use crate::workers::fire_by_workers;
use ic_flat::Flat;
use ic_flat_round::{filled, settle, works};
use ic_flights::{Flight, MAX_ROUNDS, Played, made_for};
use ic_rules::RuleSet;
use ic_term::Config;
use std::alloc::Global;
use std::sync::Wait;
use std::thread::Threads;

/// The round of a flight, made by threads of its own: as many as there are workers, but no more
/// than there are works, and no more than 64. It is the same round for every number of workers and
/// in whatever order they work. A worker passes the gate before it fires a work.
///
/// Its faults are tried in the order `NoWorkers`, `RoundsOut`, `Overgrown`, `NamesOut`; then
/// `NoThread` comes where a thread could not be started, and `Memory` where a growth was refused.
/// Whatever is answered, all threads have ended.
pub fn play<R: Threads + Wait, G: Gate>(
    rt: &R,
    alloc: Global,
    flight: &Flight,
    workers: usize,
    gate: &G,
) -> Result<Played, PoolFault>
    ensures any_workers { IfOk result (λ played. played ≡ round_of flight.now) }
    ensures answer { ByWorkers result (played_by workers flight.now) }
    ensures no_workers { workers ≡ 0 → result ≡ Err NoWorkers }
{
    if workers == 0 {
        return Err(PoolFault::NoWorkers);
    }
    if flight.rounds() == MAX_ROUNDS {
        return Err(PoolFault::RoundsOut);
    }
    let after = flat_round_by_workers(rt, alloc, flight.rules(), flight.config(), workers, gate)?;
    Ok(made_for(alloc, flight, after)?)
}

/// The configuration after one round under these rules, made by threads of its own, as many as for
/// `play`. It is the same for every number of workers.
///
/// The works are made of the active equations alone, and what isn't active stays words. Its faults
/// come in the order of `play`'s, without `NoWorkers` and `RoundsOut`. Whatever is answered, all
/// threads have ended.
pub fn flat_round_by_workers<R: Threads + Wait, G: Gate>(
    rt: &R,
    alloc: Global,
    rules: &RuleSet,
    config: &Flat,
    workers: usize,
    gate: &G,
) -> Result<Flat, PoolFault>
    requires over { IsTrue (is_over rules.now.symbols config.now) }
    requires some { 0 < workers }
    ensures round { ByWorkers result (round_or_refusal rules.now.rules config.now) }
    ensures over { IfOk result (λ after. IsTrue (is_over rules.now.symbols after)) }
{
    let works = works(alloc, rules, config)?;
    let batches = batches_of(alloc, works, workers)?;
    let results = fire_by_workers(rt, alloc, rules, gate, batches)?;
    let fired = filled(alloc, rules, config, results)?;
    Ok(settle(alloc, &fired)?)
}

/// The same of a configuration as terms and equations, of which words are made, and terms of what
/// comes.
pub fn round_by_workers<R: Threads + Wait, G: Gate>(
    rt: &R,
    alloc: Global,
    rules: &RuleSet,
    config: Config,
    workers: usize,
    gate: &G,
) -> Result<Config, PoolFault>
    requires over { IsTrue (is_over rules.now.symbols config) }
    requires some { 0 < workers }
    ensures round { ByWorkers result (round_or_refusal rules.now.rules config) }
    ensures over { IfOk result (λ after. IsTrue (is_over rules.now.symbols after)) }
{
    let flat = Flat::from_config(alloc, &config)?;
    let after = flat_round_by_workers(rt, alloc, rules, &flat, workers, gate)?;
    Ok(after.to_config(alloc)?)
}

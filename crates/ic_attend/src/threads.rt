//! The threads of an attendance: one for each script, one for each runner and one for each worker of
//! its crew. All are started before the first is joined, and all have ended when they are gathered.

ghost use Rattle.std.specs.Prelude.{◌≡◌, ◌<◌, None, map, vec_items, vec_len, vec_capacity, IfSome, length};
ghost use Rattle.std.specs.List.{All};
ghost use Rattle.ic_attend.specs.Ends.{EndMayBe};
ghost use Rattle.ic_attend.specs.inner.Crews.{IsReadyFor};
ghost use Rattle.ic_attend.specs.inner.Speech.{Speaks};
ghost use Rattle.ic_attend.specs.inner.Gathering.{HasGathered, IsReady};

use crate::attended::RunnerEnd;
use crate::client::{Speech, speak};
use crate::crews::{Enlisted, Standing, join_each, start_crew};
use crate::desk::Desk;
use crate::gathered::Gathered;
use crate::runner::{Duty, make_rounds};
use crate::signs::Signs;
use ic_disk::Disk;
use ic_jobs::Command;
use ic_pool::Gate;
use std::alloc::Global;
use std::snapshot::Snapshot;
use std::sync::Wait;
use std::thread;
use std::thread::{JoinHandle, Promise, PromisedHandle, Scope, Threads};

/// What a client's thread promises: to keep to its script.
#[derive(Drop)]
struct Script {
    commands: Snapshot<Vec<Command>>,
}

impl Promise<Speech> for Script {
    ghost use Rattle.ic_attend.specs.inner.Speech.{Speaks};

    ghost kept_by = { λ p speech. Speaks p.commands.value.items speech };
}

/// What a runner's thread promises: an end that a runner with so many turns and workers may have.
#[derive(Drop)]
struct Ending {
    turns: usize,
    workers: usize,
}

impl Promise<RunnerEnd> for Ending {
    ghost use Rattle.ic_attend.specs.Ends.{EndMayBe};

    ghost kept_by = { λ p end. EndMayBe p.turns p.workers end };
}

/// A runner's thread, and those of its crew.
#[derive(Drop)]
struct Runner {
    handle: PromisedHandle<RunnerEnd, Ending>,
    threads: Vec<JoinHandle<()>>,
}

/// Gives the scripts and makes rounds, each script and each runner in a thread of its own. All
/// threads that were started have ended when this returns.
pub(crate) fn gather<R: Threads + Wait + Sync, D: Disk + Send, G: Gate>(
    rt: &R,
    alloc: Global,
    desk: &Desk<D>,
    signs: &Signs,
    gate: &G,
    scripts: Vec<Vec<Command>>,
    runners: usize,
    crews: Vec<Enlisted>,
    duty: Duty,
    gathered: Gathered,
) -> Gathered
    requires ready { IsReady (vec_len scripts) runners gathered }
    requires crews { 0 < duty.workers → vec_len crews ≡ runners }
    ensures { HasGathered (map vec_items scripts.items) runners duty.turns duty.workers result }
{
    thread::scope(
        thread::scope_env(),
        rt,
        |scope| -> Gathered
            requires ready { IsReady (vec_len scripts) runners gathered }
            requires crews { 0 < duty.workers → vec_len crews ≡ runners }
            ensures { HasGathered (map vec_items scripts.items) runners duty.turns duty.workers result }
        {
            start_clients(
                rt, alloc, scope, desk, signs, gate, scripts, runners, crews, duty, gathered,
            )
        },
    )
}

/// Starts a client for the last script, then those for the scripts before it and the runners, and
/// joins it once these are joined.
fn start_clients<'s, R: Threads + Wait + Sync, E, D: Disk + Send, G: Gate>(
    rt: &'s R,
    alloc: Global,
    scope: &'s Scope<'s, E>,
    desk: &'s Desk<D>,
    signs: &'s Signs,
    gate: &'s G,
    mut scripts: Vec<Vec<Command>>,
    runners: usize,
    crews: Vec<Enlisted>,
    duty: Duty,
    gathered: Gathered,
) -> Gathered
    requires ready { IsReady (vec_len scripts) runners gathered }
    requires crews { 0 < duty.workers → vec_len crews ≡ runners }
    ensures gathered { HasGathered (map vec_items scripts.items) runners duty.turns duty.workers result }
    ensures len { vec_len result.answers ≡ vec_len scripts }
    ensures room { vec_capacity result.answers ≡ vec_capacity gathered.answers }
{
    let Some(script) = scripts.pop() else {
        return start_runners(
            rt, alloc, scope, desk, signs, gate, runners, crews, duty, gathered,
        );
    };
    let who = scripts.len() as u64;
    let commands = Snapshot::of(&script);
    let client = start_client(rt, alloc, scope, desk, signs, gate, who, script);
    let mut gathered = start_clients(
        rt, alloc, scope, desk, signs, gate, scripts, runners, crews, duty, gathered,
    );
    let speech = hear(rt, alloc, client, commands);
    gathered.add_speech(speech);
    gathered
}

/// Starts a client, unless the threads are told to stop. Where no thread can be had it tells them.
fn start_client<'s, R: Threads + Wait + Sync, E, D: Disk + Send, G: Gate>(
    rt: &'s R,
    alloc: Global,
    scope: &'s Scope<'s, E>,
    desk: &'s Desk<D>,
    signs: &'s Signs,
    gate: &'s G,
    who: u64,
    script: Vec<Command>,
) -> Option<PromisedHandle<Speech, Script>>
    ensures { IfSome result (λ client. client.promise.commands.value.items ≡ script.items) }
{
    if signs.are_told_to_stop() {
        return None;
    }
    let promise = Script {
        commands: Snapshot::of(&script),
    };
    let started = scope.spawn_with(
        promise,
        move || -> Speech
            ensures { Speaks script.items result }
        {
            let speech = speak(rt, alloc, desk, signs, gate, who, script);
            signs.end_script();
            speech
        },
    );
    let Ok(client) = started else {
        signs.tell_to_stop();
        return None;
    };
    Some(client)
}

/// What a client hands over at its end: nothing where its thread wasn't started.
fn hear<R: Threads>(
    rt: &R,
    alloc: Global,
    client: Option<PromisedHandle<Speech, Script>>,
    commands: Snapshot<Vec<Command>>,
) -> Speech
    requires { IfSome client (λ started. started.promise.commands.value.items
        ≡ commands.value.items) }
    ensures { Speaks commands.value.items result }
{
    match client {
        Some(client) => client.join(rt),
        None => Speech::none(alloc),
    }
}

/// Starts a runner and its crew, then the others, and joins them once these are joined.
fn start_runners<'s, R: Threads + Wait + Sync, E, D: Disk + Send, G: Gate>(
    rt: &'s R,
    alloc: Global,
    scope: &'s Scope<'s, E>,
    desk: &'s Desk<D>,
    signs: &'s Signs,
    gate: &'s G,
    runners: usize,
    mut crews: Vec<Enlisted>,
    duty: Duty,
    gathered: Gathered,
) -> Gathered
    requires ready { IsReady 0 runners gathered }
    requires crews { 0 < duty.workers → vec_len crews ≡ runners }
    ensures count { length result.ends.items ≡ runners }
    ensures may_be { All (EndMayBe duty.turns duty.workers) result.ends.items }
    ensures len { vec_len result.ends ≡ runners }
    ensures room { vec_capacity result.ends ≡ vec_capacity gathered.ends }
    ensures answers { result.answers ≡ gathered.answers }
{
    if runners == 0 {
        return gathered;
    }
    let crew = crews.pop();
    let runner = start_runner(rt, alloc, scope, desk, signs, gate, crew, duty);
    let others = runners - 1;
    let mut gathered = start_runners(
        rt, alloc, scope, desk, signs, gate, others, crews, duty, gathered,
    );
    gathered.add_end(await_end(rt, runner, duty));
    gathered
}

/// Starts a runner and its crew, unless the threads are told to stop. Where no thread can be had it
/// tells them.
fn start_runner<'s, R: Threads + Wait + Sync, E, D: Disk + Send, G: Gate>(
    rt: &'s R,
    alloc: Global,
    scope: &'s Scope<'s, E>,
    desk: &'s Desk<D>,
    signs: &'s Signs,
    gate: &'s G,
    crew: Option<Enlisted>,
    duty: Duty,
) -> Option<Runner>
    requires { crew ≡ None → duty.workers ≡ 0 }
    ensures { IfSome result (λ runner. (runner.handle.promise.turns ≡ duty.turns)
        × (runner.handle.promise.workers ≡ duty.workers)) }
{
    if signs.are_told_to_stop() {
        return None;
    }
    let runner = start_with_crew(rt, alloc, scope, desk, signs, gate, crew, duty);
    if runner.is_none() {
        signs.tell_to_stop();
    }
    runner
}

/// Starts a crew and then its runner. Where no thread can be had, those of the crew are joined.
fn start_with_crew<'s, R: Threads + Wait + Sync, E, D: Disk + Send, G: Gate>(
    rt: &'s R,
    alloc: Global,
    scope: &'s Scope<'s, E>,
    desk: &'s Desk<D>,
    signs: &'s Signs,
    gate: &'s G,
    crew: Option<Enlisted>,
    duty: Duty,
) -> Option<Runner>
    requires { crew ≡ None → duty.workers ≡ 0 }
    ensures { IfSome result (λ runner. (runner.handle.promise.turns ≡ duty.turns)
        × (runner.handle.promise.workers ≡ duty.workers)) }
{
    let Standing { crew, threads } = start_crew(rt, alloc, scope, gate, crew)?;
    let promise = Ending {
        turns: duty.turns,
        workers: duty.workers,
    };
    let started = scope.spawn_with(
        promise,
        move || -> RunnerEnd
            requires { IsReadyFor duty.workers crew }
            ensures { EndMayBe duty.turns duty.workers result }
        { make_rounds(rt, alloc, desk, signs, gate, crew, duty) },
    );
    match started {
        Ok(handle) => Some(Runner { handle, threads }),
        Err(refused) => {
            // The crew goes with what was refused, so that its workers end.
            drop(refused);
            join_each(rt, threads);
            None
        }
    }
}

/// How a runner ended, once its crew is joined too: none where it wasn't started.
fn await_end<R: Threads>(rt: &R, runner: Option<Runner>, duty: Duty) -> Option<RunnerEnd>
    requires { IfSome runner (λ started. (started.handle.promise.turns ≡ duty.turns)
        × (started.handle.promise.workers ≡ duty.workers)) }
    ensures { IfSome result (EndMayBe duty.turns duty.workers) }
{
    let Runner { handle, threads } = runner?;
    let end = handle.join(rt);
    join_each(rt, threads);
    Some(end)
}

//! A runner: it takes rounds, has its crew make them outside the lock, and lands them.

ghost use Rattle.std.specs.Prelude.{◌≡◌, ◌≢◌, ◌≤◌, ◌+◌, ℕ, IfErr, OnOk, true, false, if◌then◌else◌};
ghost use Rattle.ic_flights.specs.Flight.{is_blocked};
ghost use Rattle.ic_attend.specs.declared.attended.RunnerEnd.TheVariants.{Pool as by_pool};
ghost use Rattle.ic_attend.specs.Ends.{EndMayBe};
ghost use Rattle.ic_attend.specs.inner.Crews.{EndMayBeWith, IsReadyFor, IsUnspent, StaysReady};

use crate::attended::RunnerEnd;
use crate::desk::Desk;
use crate::signs::Signs;
use ic_crew::Crew;
use ic_disk::Disk;
use ic_flights::{Flight, Played};
use ic_jobs::Landed;
use ic_pool::{Gate, PoolFault};
use std::alloc::Global;
use std::sync::Wait;
use std::thread;
use std::thread::Threads;

/// What each runner is to do: so many turns once all scripts have ended, each round by a crew of so
/// many workers.
#[derive(Clone, Copy)]
pub(crate) struct Duty {
    pub turns: usize,
    pub workers: usize,
}

/// A runner's way round the table, lap after lap: where it looks next, how many running jobs it has
/// met on this lap, and how many on the one before.
#[derive(Drop)]
struct Laps {
    next: usize,
    met: usize,
    met_before: usize,
}

impl Laps {
    fn new() -> Laps {
        Laps {
            next: 0,
            met: 0,
            met_before: 0,
        }
    }

    /// Meets the running job at a place. One that stands before the next place begins a lap.
    fn meet(&mut self, place: usize) {
        if place < self.next {
            self.met_before = self.met;
            self.met = 0;
        }
        self.met = self.met.saturating_add(1);
        self.next = place.saturating_add(1);
    }

    /// How many jobs are running, as far as the runner has seen.
    fn running(&self) -> usize {
        self.met.max(self.met_before)
    }
}

/// Takes the rounds that are due, job after job, has them made by the crew, and lands them. While
/// scripts go on it looks again where nothing is due. Once all have ended each round that it takes is
/// a turn. The gate is told of each round that moved its job, and each halt. The crew ends with it.
pub(crate) fn make_rounds<R: Threads + Wait, D: Disk, G: Gate>(
    rt: &R,
    alloc: Global,
    desk: &Desk<D>,
    signs: &Signs,
    gate: &G,
    crew: Option<Crew>,
    duty: Duty,
) -> RunnerEnd
    requires { IsReadyFor duty.workers crew }
    ensures { EndMayBe duty.turns duty.workers result }
{
    let mut taken = 0;
    take_rounds(rt, alloc, desk, signs, gate, crew, duty, &mut taken)
}

/// The same, and counts the turns that it takes.
fn take_rounds<R: Threads + Wait, D: Disk, G: Gate>(
    rt: &R,
    alloc: Global,
    desk: &Desk<D>,
    signs: &Signs,
    gate: &G,
    mut crew: Option<Crew>,
    duty: Duty,
    taken: &mut usize,
) -> RunnerEnd
    requires ready { IsReadyFor duty.workers crew }
    requires none { taken.old ≡ 0 }
    ensures end { EndMayBe duty.turns duty.workers result }
    ensures turns { taken.new ≤ duty.turns }
    ensures used { (count : ℕ) → result ≡ RunnerEnd.Turns count → count ≡ taken.new }
{
    let mut laps = Laps::new();
    for _ in rt.forever() {
        if signs.are_told_to_stop() {
            return RunnerEnd::Idle;
        }
        let is_turn = signs.have_all_ended();
        if !may_take(is_turn, taken, duty.turns) {
            return RunnerEnd::Turns(*taken);
        }
        match desk.take(rt, laps.next) {
            Ok(Some(flight)) => {
                laps.meet(flight.place());
                match make_round(rt, alloc, desk, &mut crew, &flight) {
                    Ok(landed) => tell(gate, landed, laps.running()),
                    Err(end) => return end,
                }
            }
            Ok(None) if is_turn => return RunnerEnd::Idle,
            Ok(None) => thread::yield_now(),
            Err(fault) => return RunnerEnd::Book(fault),
        }
    }
    unreachable!()
}

/// Whether a runner may take a round: any while scripts go on, and then so many turns, of which it
/// counts one more.
fn may_take(is_turn: bool, taken: &mut usize, turns: usize) -> bool
    requires { taken.old ≤ turns }
    ensures most { taken.new ≤ turns }
    ensures counted { result ≡ true → taken.new ≡ taken.old + (if is_turn then 1 else 0) }
    ensures used_up { result ≡ false → (is_turn ≡ true) × (taken.new ≡ turns) }
{
    if !is_turn {
        return true;
    }
    if *taken == turns {
        return false;
    }
    *taken += 1;
    true
}

/// Tells the gate of a round that moved its job, or a halt.
fn tell<G: Gate>(gate: &G, landed: Landed, running: usize) {
    if landed == Landed::Moved {
        gate.landed(running);
    }
}

/// Has the round of a flight made and lands it, or halts its job where it can't be made. The book is
/// free while the round is made.
fn make_round<R: Wait, D: Disk>(
    rt: &R,
    alloc: Global,
    desk: &Desk<D>,
    crew: &mut Option<Crew>,
    flight: &Flight,
) -> Result<Landed, RunnerEnd>
    requires { IsUnspent crew.old }
    ensures end { IfErr result (EndMayBeWith crew.old) }
    ensures refusal { (count : ℕ) → IfErr result (λ end. end ≢ RunnerEnd.Turns count) }
    ensures ready { OnOk result (StaysReady crew.old crew.new) }
{
    let landed = if flight.blocked() {
        desk.halt(rt, flight)
    } else {
        match play(rt, alloc, crew, flight) {
            Ok(played) => desk.land(rt, played),
            Err(fault) => return Err(RunnerEnd::Pool(fault)),
        }
    };
    match landed {
        Ok(landed) => Ok(landed),
        Err(fault) => Err(RunnerEnd::Book(fault)),
    }
}

/// The round of a flight by a crew; no workers where there is none.
fn play<R: Wait>(
    rt: &R,
    alloc: Global,
    crew: &mut Option<Crew>,
    flight: &Flight,
) -> Result<Played, PoolFault>
    requires free { is_blocked flight.now ≡ false }
    requires unspent { IsUnspent crew.old }
    ensures end { IfErr result (λ fault. EndMayBeWith crew.old (by_pool fault)) }
    ensures ready { OnOk result (StaysReady crew.old crew.new) }
{
    ic_pool::laws::blocked_flights_are_refused();
    match crew {
        Some(crew) => crew.play(rt, alloc, flight),
        None => Err(PoolFault::NoWorkers),
    }
}

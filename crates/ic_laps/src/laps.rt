//! Rounds that are made before a run comes to them.

ghost use Rattle.std.specs.Prelude.{◌≡◌, IfSome, Ok};
ghost use Rattle.ic_flights.specs.Played.{round_of};
ghost use Rattle.ic_pool.specs.Played.{played};

use crate::hands::Hands;
use crate::lanes::{Lane, lanes_for};
use crate::limits::{LAP_WORDS, MAX_FLIGHTS, MAX_WORKERS, MOST_TASKS};
use crate::rounds::is_round_of;
use crate::tasks::Done;
use ic_flat_round::Workspace;
use ic_flights::{Flight, Played};
use ic_rules::JobName;
use std::alloc::{AllocError, Global};
use std::mem;
use std::sync::Wait;
use std::thread::Threads;

/// Rounds that were made and not yet taken, and the workers that make them. Their threads are started at the first lap, and
/// `finish` joins them.
#[derive(Drop)]
pub struct Laps {
    hands: Option<Hands>,
    lanes: Vec<Lane>,
    /// The lane that is asked for next, if it is the one after the last one.
    next: usize,
    /// How often a round was asked for of a job without a lane.
    misses: usize,
    /// How many rounds a task has at most.
    rounds: usize,
}

impl Laps {
    /// Nothing is made, and nobody works yet.
    pub fn new(alloc: Global) -> Laps {
        Laps {
            hands: None,
            lanes: Vec::new(alloc),
            next: 0,
            misses: 0,
            rounds: 0,
        }
    }

    /// Whether a lap may be begun: no job has a lane, or rounds of jobs without one were asked for as often as there are lanes.
    pub fn is_spent(&self) -> bool {
        self.misses >= self.lanes.len()
    }

    /// Begins a lap: has rounds of each flight made, at most so many in a task, by so many threads, this one among them. What
    /// waits of these jobs stays, and else is dropped. `wanted` rounds are asked for at most. Where memory runs out, or a round
    /// can't be made, fewer rounds wait, or none: who asks for one that doesn't makes it.
    pub fn make<R: Threads + Wait + Copy + Send + 'static>(
        &mut self,
        rt: &R,
        alloc: Global,
        mut flights: Vec<Flight>,
        rounds: usize,
        wanted: u64,
        workers: usize,
    ) {
        self.next = 0;
        self.misses = 0;
        self.rounds = rounds;
        flights.truncate(MAX_FLIGHTS);
        // Without memory no round waits.
        let _ = self.begin(rt, alloc, flights, wanted, workers);
    }

    fn begin<R: Threads + Wait + Copy + Send + 'static>(
        &mut self,
        rt: &R,
        alloc: Global,
        flights: Vec<Flight>,
        wanted: u64,
        workers: usize,
    ) -> Result<(), AllocError> {
        let old = mem::replace(&mut self.lanes, Vec::new(alloc));
        if self.hands.is_none() {
            let workers = workers.min(MAX_WORKERS).saturating_sub(1);
            self.hands = Some(Hands::start(rt, alloc, workers)?);
        }
        self.lanes = lanes_for(alloc, flights, old)?;
        for place in 0..self.lanes.len() {
            self.send(rt, place, wanted);
        }
        Ok(())
    }

    /// Has the rounds of a lane made that come after those which wait, unless they are made already. Of all lanes together no
    /// more rounds wait than are wanted.
    fn send<R: Wait>(&mut self, rt: &R, place: usize, wanted: u64) {
        let count = self.lanes.len().max(1);
        let (Some(hands), Some(lane)) = (self.hands.as_mut(), self.lanes.get_mut(place)) else {
            return;
        };
        let most = (wanted / count as u64).saturating_sub(lane.waiting() as u64);
        let rounds = most.min(self.rounds as u64) as usize;
        if rounds > 0 && lane.is_ready() {
            lane.send(rt, hands, rounds, LAP_WORDS / 2 / count);
        }
    }

    /// The round of a flight, if it was made, or is being made: then this thread works at tasks, or waits. `wanted` rounds are
    /// asked for at most, this one among them.
    pub fn take<R: Wait>(
        &mut self,
        rt: &R,
        alloc: Global,
        flight: &Flight,
        wanted: u64,
        workspace: &mut Workspace,
    ) -> Option<Played>
        ensures round { IfSome result (λ made. made ≡ round_of flight.now) }
        ensures answer { IfSome result (λ made. Ok made ≡ played flight.now) }
    {
        let Some(place) = self.lane_of(flight.name()) else {
            self.misses = self.misses.saturating_add(1);
            return None;
        };
        self.await_round(rt, alloc, place, workspace);
        self.send(rt, place, wanted);
        self.await_round(rt, alloc, place, workspace);
        let made = self.take_at(place, flight);
        if made.is_none() {
            self.end(place);
        }
        made
    }

    /// Where the lane of a job stands: the one after the last one is looked at first.
    fn lane_of(&self, name: JobName) -> Option<usize> {
        let next = self.next.min(self.lanes.len());
        for place in (next..self.lanes.len()).chain(0..next) {
            if let Some(lane) = self.lanes.get(place)
                && lane.name == name
            {
                return Some(place);
            }
        }
        None
    }

    /// Takes what comes of tasks, until a round of a lane waits or none is being made.
    fn await_round<R: Wait>(
        &mut self,
        rt: &R,
        alloc: Global,
        place: usize,
        workspace: &mut Workspace,
    ) {
        for _ in 0..MOST_TASKS {
            let (Some(hands), Some(lane)) = (self.hands.as_mut(), self.lanes.get_mut(place)) else {
                return;
            };
            if !lane.is_awaited() {
                lane.turn();
                return;
            }
            match hands.next_done(rt, alloc, workspace) {
                Some(done) => self.put(done),
                None => return,
            }
        }
    }

    /// Gives what came of a task to its lane. It is dropped if no lane awaits it.
    fn put(&mut self, done: Done) {
        for lane in self.lanes.iter_mut() {
            if lane.has_out(done.number) {
                lane.put(done);
                return;
            }
        }
    }

    /// Takes the next round that waits in a lane. It is dropped if it isn't the round of the flight.
    fn take_at(&mut self, place: usize, flight: &Flight) -> Option<Played>
        ensures round { IfSome result (λ made. made ≡ round_of flight.now) }
        ensures answer { IfSome result (λ made. Ok made ≡ played flight.now) }
    {
        let made = self.lanes.get_mut(place)?.pop()?;
        if !is_round_of(&made, flight) {
            return None;
        }
        self.next = place.saturating_add(1);
        Some(made)
    }

    /// Ends a lane that has no round for its job, or another one than the job's next.
    fn end(&mut self, place: usize) {
        if place < self.lanes.len() {
            self.lanes.remove(place);
        }
    }

    /// Ends the workers that stand, and joins their threads.
    pub fn finish<R: Threads + Wait>(self, rt: &R) {
        let Laps { hands, .. } = self;
        if let Some(hands) = hands {
            hands.finish(rt);
        }
    }
}

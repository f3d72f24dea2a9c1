//! The rounds of each job of a lap.

use crate::hands::Hands;
use crate::tasks::Done;
use ic_flights::{Flight, Played};
use ic_rules::JobName;
use std::alloc::{AllocError, Global};
use std::mem;
use std::sync::Wait;

/// The rounds of a job that wait, those after them, and the flight after these, which is made meanwhile or may be.
#[derive(Drop)]
pub(crate) struct Lane {
    pub name: JobName,
    /// The next one last.
    now: Vec<Played>,
    then: Vec<Played>,
    next: Option<Flight>,
    /// The number of the task that is out.
    out: Option<u64>,
}

impl Lane {
    /// One that begins with a flight.
    pub fn new(alloc: Global, flight: Flight) -> Lane {
        Lane {
            name: flight.name(),
            now: Vec::new(alloc),
            then: Vec::new(alloc),
            next: Some(flight),
            out: None,
        }
    }

    /// The same lane, which begins with a flight if nothing waits and no task is out.
    pub fn from(self, flight: Flight) -> Lane {
        let mut lane = self;
        if lane.is_empty() && lane.out.is_none() {
            lane.next = Some(flight);
        }
        lane
    }

    fn is_empty(&self) -> bool {
        self.now.is_empty() && self.then.is_empty()
    }

    /// Whether no round waits and the next one is being made.
    pub fn is_awaited(&self) -> bool {
        self.is_empty() && self.out.is_some()
    }

    /// Whether no task is out and one may be.
    pub fn is_ready(&self) -> bool {
        self.out.is_none() && self.next.is_some() && self.then.is_empty()
    }

    /// Has so many rounds made after those that wait.
    pub fn send<R: Wait>(&mut self, rt: &R, hands: &mut Hands, rounds: usize, words: usize) {
        if let Some(flight) = self.next.take() {
            self.out = hands.send(rt, flight, rounds, words);
        }
    }

    /// Takes what came of its task.
    pub fn put(&mut self, done: Done) {
        let Done { made, next, .. } = done;
        self.then = made;
        self.next = next;
        self.out = None;
    }

    /// Whether a task with this number is its own.
    pub fn has_out(&self, number: u64) -> bool {
        self.out == Some(number)
    }

    /// Has the rounds come next that are after those that waited, if none waits.
    pub fn turn(&mut self) {
        if self.now.is_empty() {
            mem::swap(&mut self.now, &mut self.then);
        }
    }

    /// How many rounds wait.
    pub fn waiting(&self) -> usize {
        self.now.len().saturating_add(self.then.len())
    }

    /// The next round.
    pub fn pop(&mut self) -> Option<Played> {
        self.now.pop()
    }
}

/// Lanes for these flights, in their order: those that there were for their jobs, or new ones.
pub(crate) fn lanes_for(
    alloc: Global,
    flights: Vec<Flight>,
    mut old: Vec<Lane>,
) -> Result<Vec<Lane>, AllocError> {
    let mut lanes = Vec::with_capacity(alloc, flights.len())?;
    for flight in flights {
        let lane = match taken(&mut old, flight.name()) {
            Some(lane) => lane.from(flight),
            None => Lane::new(alloc, flight),
        };
        lanes.push(lane)?;
    }
    Ok(lanes)
}

/// The lane of a job, taken out of these.
fn taken(lanes: &mut Vec<Lane>, name: JobName) -> Option<Lane> {
    for place in 0..lanes.len() {
        if lanes[place].name == name {
            return Some(lanes.swap_remove(place));
        }
    }
    None
}

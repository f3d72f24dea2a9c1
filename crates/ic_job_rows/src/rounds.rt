//! Rounds of jobs by any number of workers.

use crate::answers::number_first;
use crate::turnstile::{Turnstile, counters};
use ic_flat::{Flat, over};
use ic_flat_round::FlatRules;
use ic_flights::{Flight, Played};
use ic_notation::{Trouble, decimal, printed, system_of};
use ic_pool::{play, play_alone};
use ic_rules::JobName;
use std::alloc::Global;
use std::sync::{Arc, Wait};
use std::thread::Threads;
use std::time::Clock;

/// The numbers of workers by which each round is made.
const WORKERS: &[usize] = &[1, 2, 3, 7, 64, 200];

/// A flight of a job, where these are the parts of one.
fn flight_of(rules: Arc<FlatRules>, config: Arc<Flat>) -> Result<Flight, Trouble> {
    match JobName::new(b"p") {
        Some(name) if over(rules.rules().symbols(), &config) => {
            Ok(Flight::new(0, name, rules, config, 0))
        }
        _ => Err(Trouble("no flight")),
    }
}

/// The flight of a system, of which no round was made.
pub fn first_flight(alloc: Global, text: &str) -> Result<Flight, Trouble> {
    let (rules, config) = system_of(alloc, text.as_bytes())?.into_parts();
    let rules = FlatRules::new(alloc, rules)?;
    let config = Flat::from_config(alloc, &config)?;
    flight_of(Arc::new(alloc, rules)?, Arc::new(alloc, config)?)
}

/// Whether a round is the one that is made alone.
fn is_alone(alloc: Global, flight: &Flight, played: &Played) -> bool {
    match play_alone(alloc, flight) {
        Ok(alone) => played.after() == alone.after(),
        Err(_) => false,
    }
}

/// Adds the text and `next` after a round.
fn tell_after(alloc: Global, played: &Played, line: &mut Vec<u8>) -> Result<(), Trouble> {
    let after = played.after().to_config(alloc)?;
    line.append(&mut printed(alloc, played.rules(), &after)?)?;
    line.push(b' ')?;
    decimal(line, after.next())?;
    Ok(())
}

/// What is told of a flight's round by so many workers at a gate.
fn told_at<R: Threads + Wait + Clock + Sync>(
    rt: &R,
    alloc: Global,
    flight: &Flight,
    workers: usize,
    gate: &Turnstile<'_, R>,
) -> Result<Vec<u8>, Trouble> {
    match play(rt, alloc, flight, workers, gate) {
        Ok(played) => told_of(alloc, flight, &played, gate),
        Err(fault) => Ok(format!(in alloc; "{fault:?}")?.into_bytes()),
    }
}

fn told_of<R>(
    alloc: Global,
    flight: &Flight,
    played: &Played,
    gate: &Turnstile<'_, R>,
) -> Result<Vec<u8>, Trouble> {
    if !is_alone(alloc, flight, played) {
        return Err(Trouble("a round by workers is another"));
    }
    let mut line = gate.told(alloc)?;
    tell_after(alloc, played, &mut line)?;
    Ok(line)
}

/// The same at a gate of its own, at which so many are wanted.
fn told_by<R: Threads + Wait + Clock + Sync>(
    rt: &R,
    alloc: Global,
    flight: &Flight,
    workers: usize,
    wanted: u64,
) -> Result<Vec<u8>, Trouble> {
    let places = counters(alloc, flight.config().equations_len())?;
    let gate = Turnstile::new(rt, wanted, places);
    told_at(rt, alloc, flight, workers, &gate)
}

/// What is told of a system's round by so many workers, of which so many are wanted at the gate.
pub fn at_once<R: Threads + Wait + Clock + Sync>(
    rt: &R,
    alloc: Global,
    text: &str,
) -> Result<Vec<u8>, Trouble> {
    let (workers, rest) = number_first(text);
    let (wanted, system) = number_first(rest);
    let flight = first_flight(alloc, system)?;
    told_by(rt, alloc, &flight, workers as usize, wanted)
}

/// What is told of a system's round, the same by each number of workers.
pub fn round<R: Threads + Wait + Clock + Sync>(
    rt: &R,
    alloc: Global,
    text: &str,
) -> Result<Vec<u8>, Trouble> {
    let flight = first_flight(alloc, text)?;
    by_each(rt, alloc, &flight)
}

fn by_each<R: Threads + Wait + Clock + Sync>(
    rt: &R,
    alloc: Global,
    flight: &Flight,
) -> Result<Vec<u8>, Trouble> {
    let line = told_by(rt, alloc, flight, 1, 0)?;
    for workers in WORKERS {
        if told_by(rt, alloc, flight, *workers, 0)?.as_slice() != line.as_slice() {
            return Err(Trouble("a round by other workers is another"));
        }
    }
    Ok(line)
}

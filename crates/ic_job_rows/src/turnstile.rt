//! A gate that counts who passes, and at which workers wait for one another.

use ic_notation::{Trouble, decimal};
use ic_pool::Gate;
use std::alloc::{AllocError, Global};
use std::sync::atomic::{AtomicBool, AtomicU64, Ordering};
use std::thread;
use std::time::{Clock, Duration};

/// A gate with a counter for each place of a configuration, and one for all others. It holds each work up until so many
/// have begun, at most 10,000 times a millisecond, and counts how many are in it at once. Where none are wanted it
/// holds up none.
#[derive(Drop)]
pub struct Turnstile<'a, R> {
    rt: &'a R,
    wanted: u64,
    places: Vec<AtomicU64>,
    others: AtomicU64,
    inside: AtomicU64,
    most: AtomicU64,
    begun: AtomicU64,
    missed: AtomicBool,
}

impl<'a, R> Turnstile<'a, R> {
    pub fn new(rt: &'a R, wanted: u64, places: Vec<AtomicU64>) -> Turnstile<'a, R> {
        Turnstile {
            rt,
            wanted,
            places,
            others: AtomicU64::new(0),
            inside: AtomicU64::new(0),
            most: AtomicU64::new(0),
            begun: AtomicU64::new(0),
            missed: AtomicBool::new(false),
        }
    }

    /// Why what has passed isn't told: a wait ran out, or a place passed that isn't there, or twice.
    fn trouble(&self) -> Option<Trouble> {
        if self.missed.load(Ordering::SeqCst) {
            return Some(Trouble("a wait ran out"));
        }
        let twice = self.places.iter().any(|it| it.load(Ordering::SeqCst) > 1);
        if twice || self.others.load(Ordering::SeqCst) > 0 {
            return Some(Trouble("a place passes twice, or isn't there"));
        }
        None
    }

    /// The places that have passed, and how many were in the gate at once where some were wanted.
    pub fn told(&self, alloc: Global) -> Result<Vec<u8>, Trouble> {
        if let Some(trouble) = self.trouble() {
            return Err(trouble);
        }
        let mut line = ranges(alloc, &self.places)?;
        line.extend_from_slice(b"; ")?;
        if self.wanted > 0 {
            decimal(&mut line, self.most.load(Ordering::SeqCst))?;
            line.extend_from_slice(b" at once; ")?;
        }
        Ok(line)
    }
}

/// So many counters.
pub fn counters(alloc: Global, count: usize) -> Result<Vec<AtomicU64>, AllocError> {
    let mut places = Vec::with_capacity(alloc, count)?;
    for _ in 0..count {
        places.push(AtomicU64::new(0))?;
    }
    Ok(places)
}

/// Whether a place has passed.
fn has_passed(places: &[AtomicU64], place: usize) -> bool {
    match places.get(place) {
        Some(passes) => passes.load(Ordering::SeqCst) > 0,
        None => false,
    }
}

/// The places that have passed, as `0-2 5`.
fn ranges(alloc: Global, places: &[AtomicU64]) -> Result<Vec<u8>, AllocError> {
    let mut line = Vec::new(alloc);
    let mut follows = false;
    for place in 0..places.len() {
        if !has_passed(places, place) {
            follows = false;
            continue;
        }
        if !(follows && has_passed(places, place.saturating_add(1))) {
            let mark = if follows { b'-' } else { b' ' };
            if !line.is_empty() {
                line.push(mark)?;
            }
            decimal(&mut line, place as u64)?;
        }
        follows = true;
    }
    Ok(line)
}

/// Waits until as many have begun as are wanted. Once one wait has run out, none goes on.
fn wait<R: Clock>(rt: &R, begun: &AtomicU64, wanted: u64, missed: &AtomicBool) {
    for _ in 0..10_000u32 {
        if begun.load(Ordering::SeqCst) >= wanted || missed.load(Ordering::SeqCst) {
            return;
        }
        thread::sleep(rt, Duration::from_millis(1));
    }
    missed.store(true, Ordering::SeqCst);
}

impl<'a, R: Clock + Sync> Gate for Turnstile<'a, R> {
    fn pass(&self, place: u64) {
        let counter = self.places.get(place as usize).unwrap_or(&self.others);
        counter.fetch_add(1, Ordering::SeqCst);
        if self.wanted == 0 {
            if place % 2 == 1 {
                thread::yield_now();
            }
            return;
        }
        let inside = self.inside.fetch_add(1, Ordering::SeqCst);
        self.most
            .fetch_max(inside.wrapping_add(1), Ordering::SeqCst);
        self.begun.fetch_add(1, Ordering::SeqCst);
        wait(self.rt, &self.begun, self.wanted, &self.missed);
        // A thread more than there may be comes in meanwhile.
        thread::sleep(self.rt, Duration::from_millis(20));
        self.inside.fetch_sub(1, Ordering::SeqCst);
    }

    fn answered(&self, _who: u64) {}
}

//! A gate that holds works and clients up, each for at most 10,000 turns of a millisecond.

use ic_pool::Gate;
use std::sync::atomic::{AtomicBool, AtomicU64, Ordering};
use std::thread;
use std::time::{Clock, Duration};

/// Whom a gate holds up, and until when.
#[derive(Clone, Copy)]
pub enum Way {
    /// Nobody.
    Open,
    /// Each work, until so many have begun.
    Meeting(u64),
    /// Each answer of client 0 until client 1 was answered once, and the other way round.
    Pair,
    /// The first answer until a work has begun, and each work until the second answer was given.
    During,
}

/// A gate that holds up in a way.
#[derive(Drop)]
pub struct Held<'a, R> {
    rt: &'a R,
    way: Way,
    begun: AtomicU64,
    first: AtomicU64,
    others: AtomicU64,
    missed: AtomicBool,
}

impl<'a, R> Held<'a, R> {
    pub fn new(rt: &'a R, way: Way) -> Held<'a, R> {
        Held {
            rt,
            way,
            begun: AtomicU64::new(0),
            first: AtomicU64::new(0),
            others: AtomicU64::new(0),
            missed: AtomicBool::new(false),
        }
    }

    /// Whether no wait has run out.
    pub fn has_held(&self) -> bool {
        !self.missed.load(Ordering::SeqCst)
    }
}

/// Waits until a counter has come so far. Once one wait has run out, none goes on.
fn wait<R: Clock>(rt: &R, counter: &AtomicU64, wanted: u64, missed: &AtomicBool) {
    for _ in 0..10_000u32 {
        if counter.load(Ordering::SeqCst) >= wanted || missed.load(Ordering::SeqCst) {
            return;
        }
        thread::sleep(rt, Duration::from_millis(1));
    }
    missed.store(true, Ordering::SeqCst);
}

impl<'a, R: Clock + Sync> Gate for Held<'a, R> {
    fn pass(&self, _place: u64) {
        self.begun.fetch_add(1, Ordering::SeqCst);
        match self.way {
            Way::Open | Way::Pair => {}
            Way::Meeting(count) => wait(self.rt, &self.begun, count, &self.missed),
            Way::During => wait(self.rt, &self.first, 2, &self.missed),
        }
    }

    fn answered(&self, who: u64) {
        let (own, other) = if who == 0 {
            (&self.first, &self.others)
        } else {
            (&self.others, &self.first)
        };
        let before = own.fetch_add(1, Ordering::SeqCst);
        match self.way {
            Way::Open | Way::Meeting(_) => {}
            Way::Pair => wait(self.rt, other, 1, &self.missed),
            Way::During if before == 0 => wait(self.rt, &self.begun, 1, &self.missed),
            Way::During => {}
        }
    }
}

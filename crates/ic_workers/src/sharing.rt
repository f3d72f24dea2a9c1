//! What is told of how threads share a reduction.

use crate::gain::Ran;
use crate::kept::Hand;
use crate::policy::Policy;
use ic_in_place::{Watch, no_counts};
use std::alloc::{AllocError, Global};
use std::marker::Model;

/// Who made the interactions of parts, and what that cost. No clause speaks of it: nothing but figures depends on it.
#[derive(Drop)]
pub(crate) struct Sharing {
    /// Interactions that were made in steps, by the place of the hand.
    by_thread: Vec<u64>,
    /// How many trees went from one part to another.
    handed_on: u64,
    /// For how many nanoseconds threads ran no part, while there were steps.
    idle: u64,
}

impl Model for Sharing {
    ghost Value = { Unit {0} };

    ghost view = { λ _. tt };
}

impl Sharing {
    /// Nothing so far, by so many threads.
    pub(crate) fn new(alloc: Global, workers: usize) -> Result<Sharing, AllocError> {
        Ok(Sharing {
            by_thread: no_counts(alloc, workers)?,
            handed_on: 0,
            idle: 0,
        })
    }

    /// Counts what hands made in a step.
    pub(crate) fn count(&mut self, hands: &[Hand]) {
        for (place, hand) in hands.iter().enumerate() {
            if place < self.by_thread.len() {
                let sum = self.by_thread[place].saturating_add(hand.made);
                self.by_thread[place] = sum;
            }
        }
    }

    /// Counts a tree that went from one part to another.
    pub(crate) fn count_tree(&mut self) {
        self.handed_on = self.handed_on.saturating_add(1);
    }

    /// Counts the time of a step that took so many nanoseconds, but for that in which threads ran parts.
    pub(crate) fn count_time(&mut self, took: u64, ran: Ran, policy: Policy) {
        self.idle = self.idle.saturating_add(ran.idle(took, policy));
    }

    /// Tells what was counted.
    pub(crate) fn tell<V: Watch>(&self, watch: &V) {
        watch.shared(&self.by_thread, self.handed_on, self.idle);
    }
}

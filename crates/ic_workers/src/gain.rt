//! What steps of several threads bring, by the clock.

use crate::policy::Policy;
use std::time::Clock;

/// How much longer steps took than one thread would have.
#[derive(Clone, Copy)]
pub(crate) struct Gain {
    /// When the last step that was counted had ended, in nanoseconds.
    last: u64,
    /// How long all steps took.
    took: u64,
    /// How much of that was lost. A step that brings something makes up for it.
    lost: u64,
}

impl Gain {
    /// No steps before this time.
    pub(crate) fn from(now: u64) -> Gain {
        Gain {
            last: now,
            took: 0,
            lost: 0,
        }
    }

    /// Counts a step that has ended now, with all that was done for it. Answers how long that took.
    pub(crate) fn count(&mut self, now: u64, ran: Ran, policy: Policy) -> u64 {
        let took = now.saturating_sub(self.last);
        let alone = ran.alone(policy);
        self.last = now;
        self.took = self.took.saturating_add(took);
        // No step loses more than half of what may be lost, since a thread may once have to wait for a processor.
        let lost = took.saturating_sub(alone).min(self.may_lose(policy) / 2);
        self.lost = self
            .lost
            .saturating_add(lost)
            .saturating_sub(alone.saturating_sub(took));
        took
    }

    /// Whether no more was lost than may be.
    pub(crate) fn is_enough(&self, policy: Policy) -> bool {
        self.lost <= self.may_lose(policy)
    }

    /// How much may be lost by now.
    fn may_lose(&self, policy: Policy) -> u64 {
        policy.loss.saturating_add(self.took / policy.trust.max(1))
    }
}

/// How long threads ran in a step, in nanoseconds.
#[derive(Clone, Copy)]
pub(crate) struct Ran {
    /// All together.
    all: u64,
    /// The one that ran longest.
    longest: u64,
}

impl Ran {
    /// No threads.
    pub(crate) fn none() -> Ran {
        Ran { all: 0, longest: 0 }
    }

    /// These and one that ran so long.
    pub(crate) fn and(self, time: u64) -> Ran {
        Ran {
            all: self.all.saturating_add(time),
            longest: self.longest.max(time),
        }
    }

    /// For how long threads ran nothing in a step that took so long, all together.
    pub(crate) fn idle(self, took: u64, policy: Policy) -> u64 {
        took.saturating_mul(policy.workers as u64)
            .saturating_sub(self.all)
    }

    /// How long one thread would take for what they did. Where several run, each is slower.
    fn alone(self, policy: Policy) -> u64 {
        let others = self.all.saturating_sub(self.longest);
        self.longest
            .saturating_add((others / 100).saturating_mul(policy.worth))
    }
}

/// The nanoseconds of a clock, or 0 if it can't be read.
pub(crate) fn nanos<C: Clock>(clock: &C) -> u64 {
    match clock.monotonic() {
        Ok(time) => u64::try_from(time.as_nanos()).unwrap_or(u64::MAX),
        Err(_) => 0,
    }
}

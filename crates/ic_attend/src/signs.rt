//! What the threads of an attendance tell one another.

use std::sync::atomic::{AtomicBool, AtomicU64, Ordering};

/// Whether the threads are to stop, and how many scripts have ended.
#[derive(Drop)]
pub(crate) struct Signs {
    stop: AtomicBool,
    ended: AtomicU64,
    scripts: u64,
}

impl Signs {
    /// None of so many scripts has ended, and nobody is to stop.
    pub(crate) fn new(scripts: u64) -> Signs {
        Signs {
            stop: AtomicBool::new(false),
            ended: AtomicU64::new(0),
            scripts,
        }
    }

    pub(crate) fn tell_to_stop(&self) {
        self.stop.store(true, Ordering::SeqCst);
    }

    pub(crate) fn are_told_to_stop(&self) -> bool {
        self.stop.load(Ordering::SeqCst)
    }

    pub(crate) fn end_script(&self) {
        self.ended.fetch_add(1, Ordering::SeqCst);
    }

    pub(crate) fn have_all_ended(&self) -> bool {
        self.ended.load(Ordering::SeqCst) >= self.scripts
    }
}

//! Configurations that a thread has made and others use.

use crate::limits::SHARED_WORDS;
use ic_flat::Flat;
use std::alloc::{AllocError, Global};
use std::collections::VecDeque;
use std::sync::Arc;

/// Shares of the configurations that a thread has made. It drops each once nobody else has it, so that the thread which took the
/// memory gives it back: what is given back by another waits for this thread's part of the heap.
#[derive(Drop)]
pub(crate) struct Shares {
    all: VecDeque<Arc<Flat>>,
    words: usize,
}

impl Shares {
    pub fn new(alloc: Global) -> Shares {
        Shares {
            all: VecDeque::new(alloc),
            words: 0,
        }
    }

    /// Keeps a share of a configuration.
    pub fn keep(&mut self, config: &Arc<Flat>) -> Result<(), AllocError> {
        let share = config.clone()?;
        self.words = self.words.saturating_add(share.words().len());
        self.all.push_back(share)?;
        Ok(())
    }

    /// Drops what nobody else has, the oldest first, up to the first one that somebody has; and the oldest ones, if there are
    /// too many.
    pub fn give_back(&mut self) {
        for _ in 0..self.all.len() {
            let Some(oldest) = self.all.front() else {
                return;
            };
            if Arc::strong_count(oldest) > 1 && self.words < SHARED_WORDS {
                return;
            }
            self.words = self.words.saturating_sub(oldest.words().len());
            self.all.pop_front();
        }
    }
}

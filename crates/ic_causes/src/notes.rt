//! The last call to a file that has failed.

use crate::{Cause, FileCall, Reason, Target};
use std::fs::Metadata;
use std::io::{self, ErrorKind};
use std::sync::Mutex;

/// Which call to the file of a disk has last failed, or to standard input or output, if one has. A special file that is looked at
/// counts as one that wasn't opened. The notes may be shared by threads, and
/// none waits: of two calls that fail at the same moment one is noted.
#[derive(Drop)]
pub struct Notes {
    last: Mutex<Option<Cause>>,
}

impl Notes {
    pub fn new() -> Notes {
        Notes {
            last: Mutex::new(None),
        }
    }

    /// The last call that has failed, and why.
    pub fn last(&self) -> Option<Cause> {
        match self.last.try_lock() {
            Some(last) => *last,
            None => None,
        }
    }

    /// Notes that a call has failed, and why, where this is its answer. One that was interrupted is made again, so it isn't
    /// noted.
    pub fn note<T: Drop>(&self, target: Target, call: FileCall, answer: &io::Result<T>) {
        let Err(error) = answer else {
            return;
        };
        if error.kind() != ErrorKind::Interrupted {
            let reason = Reason::of(call, error);
            self.put(Cause {
                target,
                call,
                reason,
            });
        }
    }

    /// Notes of a special file that is looked at that it isn't opened, and why.
    pub fn note_kind(&self, target: Target, answer: &io::Result<Metadata>) {
        let Ok(about) = answer else {
            return;
        };
        if let Some(reason) = Reason::of_special(about) {
            self.put(Cause {
                target,
                call: FileCall::Open,
                reason,
            });
        }
    }

    fn put(&self, cause: Cause) {
        if let Some(mut last) = self.last.try_lock() {
            *last = Some(cause);
        }
    }
}

//! How many pairs of a job are active, which one is stuck, and where a circle is. What is told of them is tried.

use ic_by_rounds::{circle_text, stuck_text};
use ic_flat_round::active_equations;
use ic_jobs::{Job, State};
use std::alloc::{AllocError, Global};

/// How many equations of a job's configuration are active.
pub(crate) fn pairs_of(job: &Job) -> u64 {
    active_equations(job.rules(), job.config())
}

/// The text `A><B` of the first equation of two agents of a job that is done. No rule has them.
pub(crate) fn stuck_of(alloc: Global, job: &Job) -> Result<Option<Vec<u8>>, AllocError> {
    match job.state() {
        State::Done => stuck_text(alloc, job.rules().symbols(), job.config()),
        State::Running | State::Paused | State::Halted | State::Spent => Ok(None),
    }
}

/// The symbol at which the first circle of a job that is done is closed.
pub(crate) fn circle_of(alloc: Global, job: &Job) -> Result<Option<Vec<u8>>, AllocError> {
    match job.state() {
        State::Done => circle_text(alloc, job.rules().symbols(), job.config()),
        State::Running | State::Paused | State::Halted | State::Spent => Ok(None),
    }
}

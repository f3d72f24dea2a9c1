//! Why no further round of a halted job can be made. What is told of it is tried.

use ic_flat_round::{fits, works};
use ic_flights::MAX_ROUNDS;
use ic_jobs::{Job, State};
use ic_round::RoundFault;
use std::alloc::{AllocError, Global};

/// Why no further round of a job can be made.
#[derive(Clone, Copy)]
pub enum Halt {
    /// As many are made as a job can make.
    Rounds,
    /// The next one would have too many nodes.
    Overgrown,
    /// The next one would use up the names.
    Names,
}

/// Why no further round of a job can be made, if it is halted and none can.
pub fn halt_of(alloc: Global, job: &Job) -> Result<Option<Halt>, AllocError> {
    match job.state() {
        State::Halted => blocked_by(alloc, job),
        State::Running | State::Paused | State::Done | State::Spent => Ok(None),
    }
}

/// Why no further round of a job can be made, if none can.
fn blocked_by(alloc: Global, job: &Job) -> Result<Option<Halt>, AllocError> {
    if job.rounds() == MAX_ROUNDS {
        return Ok(Some(Halt::Rounds));
    }
    refused_by(alloc, job)
}

/// Why a round refuses a job's configuration, if it does.
fn refused_by(alloc: Global, job: &Job) -> Result<Option<Halt>, AllocError> {
    if fits(job.rules(), job.config()) {
        return Ok(None);
    }
    match works(alloc, job.rules(), job.config()) {
        Err(RoundFault::Overgrown) => Ok(Some(Halt::Overgrown)),
        Err(RoundFault::NamesOut) => Ok(Some(Halt::Names)),
        Err(RoundFault::Memory) | Ok(_) => Err(AllocError),
    }
}

/// The words that tell why no further round can be made.
pub fn halt_words(halt: Halt) -> &'static [u8] {
    match halt {
        Halt::Rounds => b"out of rounds",
        Halt::Overgrown => b"next round overgrown",
        Halt::Names => b"next round out of names",
    }
}

//! Events of a job table, and the entries of its history.

use crate::command::Command;
use crate::reply::Reply;
use ic_rules::JobName;

/// What comes to a job table: a client's command, or a round of the job of a name.
#[derive(Drop)]
pub enum Event {
    Command(Command),
    Round(JobName),
}

/// An event of a history: who sent it, and what it was answered.
#[derive(Drop)]
pub struct Entry {
    /// A client's number; a book writes 0 beside a round.
    pub who: u64,
    pub event: Event,
    pub reply: Reply,
}

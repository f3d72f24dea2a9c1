//! Many clients and runners on one book.
//!
//! A `Desk` is a book that threads share, one call at a time. `attend` opens a disk, starts a thread
//! for each client's script, for each runner and for each worker of a runner's crew, and joins them
//! all.
//!
//! What they leave is one legal history: each client's answers are its part of it, in order. Runners
//! hold the book for a moment to take a round and again to land it; while their crews make it the
//! clients go on.
#![tactic(auto)]

mod attended;
mod attending;
mod client;
mod comparing;
mod crews;
mod desk;
mod fault;
mod gathered;
pub mod laws;
mod runner;
mod same;
mod signs;
mod telling;
mod threads;

pub use attended::{Attended, ClientRun, RunnerEnd};
pub use attending::attend;
pub use desk::Desk;
pub use fault::AttendFault;

//! Rounds of jobs, made by one thread and by several.
//!
//! `play_alone` makes the round of a `Flight` in the calling thread and answers a `Played`; `play_in` does so in lists that
//! are kept.
//!
//! `play` makes it by threads of its own, which fire works that are made of the active equations
//! alone, and `flat_round_by_workers` that of a configuration which is no job's.
#![tactic(auto)]

mod alone;
mod batches;
mod fault;
mod gate;
pub mod laws;
mod limits;
mod passed;
mod playing;
mod workers;

pub use alone::{play_alone, play_in};
pub use fault::PoolFault;
pub use gate::{Gate, OpenGate};
pub use limits::MAX_THREADS;
pub use passed::fire_passed;
pub use playing::{flat_round_by_workers, play, round_by_workers};

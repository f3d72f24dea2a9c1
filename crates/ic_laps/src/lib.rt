//! Laps: the next rounds of several jobs, made before a run comes to them.
//!
//! A run makes the rounds of its jobs in turn, one after the other. `Laps::make` has workers make the next rounds of several
//! flights at a time, one worker all of a flight. What was made waits until the run comes to its job: `Laps::take` hands it
//! out if it is the round of the flight that is asked for, which is compared. So whatever workers do or leave out, a run
//! makes the same rounds.
#![tactic(auto)]

mod hands;
mod lanes;
mod laps;
mod limits;
mod rounds;
mod shares;
mod tasks;

pub use laps::Laps;
pub use limits::{LAP_WORDS, MAX_FLIGHTS, MAX_WORKERS};
pub use rounds::is_round_of;

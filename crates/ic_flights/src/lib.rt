//! Rounds of jobs: what is to be made, and what was made.
//!
//! A `Flight` is a job that is due, as it is then, in flat form. A `Played` is a round that was made for it: its type says
//! that `after` is the round of `before`. Neither holds its job's table, so other events may come between. Who makes the
//! round has `made_for` of its configuration, and `next_flight` for the round after it.
#![tactic(auto)]

mod flight;
pub mod laws;
mod limits;
mod made;
mod played;

pub use flight::Flight;
pub use limits::MAX_ROUNDS;
pub use made::{made_for, next_flight};
pub use played::Played;

//! Crews: workers that stand ready for round after round.
//!
//! `Crew::new` makes a crew and a `Post` for each of its workers. Whoever makes it starts the threads,
//! each with `stand` at its post. `Crew::play` makes the round of a flight: `deal` divides its works
//! among the workers, each sends back an `Answer` for each of its works, and `match_answers` compares
//! them with what was asked for.
//!
//! Dropping the crew ends its workers.
#![tactic(auto)]

mod answers;
mod crews;
mod dealing;
pub mod laws;
mod matching;
mod parcels;
mod parts;
mod posts;
mod sizes;
mod standing;
mod weighing;

pub use answers::Answer;
pub use crews::Crew;
pub use dealing::deal;
pub use matching::match_answers;
pub use posts::Post;
pub use sizes::MAX_SIZE;
pub use standing::stand;

//! How the program ends where it doesn't do what it is asked: an exit status and a line on standard error, both proved to be the
//! defined ones, and what is told after that line. Nothing is told where nobody reads the answers any more.
#![tactic(auto)]

mod after;
mod failure;
mod job_lines;
mod others;

pub use after::{first_missing, second_missing};
pub use failure::{
    Failure, Reached, circle_line, idle_line, opening_failure, reduce_ending, stuck_line,
};
pub use job_lines::refused_job_line;
pub use others::Other;

//! The jobs of a file of lines, brought to their ends over a book.
//!
//! `read_jobs` reads the lines, each of which submits a job. `batch` submits those jobs that aren't
//! there yet, makes rounds until none goes on, and writes what each has come to. It may be stopped at
//! any moment and called again with the same lines: what it writes then depends on the lines only.
#![tactic(auto)]

mod bringing;
mod comparing;
mod fault;
mod jobs;
pub mod laws;
mod reading;
mod running;
mod submitting;
mod telling;

pub use bringing::batch;
pub use fault::{BatchFault, Difference, JobsCause, JobsFault};
pub use jobs::NewJob;
pub use reading::read_jobs;

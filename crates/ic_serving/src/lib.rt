//! Serving lines over a book: each line that a reader gives is answered to a writer.
//!
//! `answer_line` does what one line asks and keeps what it leaves: it answers a command, and makes the
//! rounds of a `run`, large ones on several threads. `serve_lines` takes lines from a reader, has each
//! answered, and writes the answer; `serve_watched` does so too, and tells a gate of the rounds.
//!
//! For a loop of one's own there are their parts: `answer_command`, `take_command`, `make_round` by `Makers`,
//! `keep_each` and `keep_all`. What lines ask for and are answered is said by `ic_lines`. Why a serving
//! ended is a `ServeFault`.
#![tactic(auto)]

mod answering;
mod fault;
mod grouping;
pub mod laws;
mod limits;
mod makers;
mod rounds;
mod running;
mod serving;
mod taking;
mod writing;

pub use answering::{answer_command, answer_line};
pub use fault::ServeFault;
pub use limits::{MAX_LINES, PAGE_WEIGHT};
pub use makers::Makers;
pub use rounds::{keep_all, make_round};
pub use running::{count_running, keep_each};
pub use serving::{serve_lines, serve_watched};
pub use taking::take_command;

//! The book of a job server: the job table, the history of its commands and rounds, and the disk on
//! which it is kept, as one value.
//!
//! `Book::open` finds the table that a disk holds. `command` takes a client's command, keeps what
//! it leaves and answers; `land` and `halt` take rounds, which `keep` keeps.
//!
//! A stop at any moment, in the midst of a call or between two, leaves the table after the entries
//! that were kept, or after all. The type of a book says what it keeps: `facts` hands that out.
//! `laws` has what is proved of the definitions alone: what the lives of a server that was stopped
//! any number of times tell.
#![tactic(auto)]

mod book;
mod enter;
mod fault;
mod keeping;
pub mod laws;
mod limits;
mod log;

pub use book::Book;
pub use fault::BookFault;
pub use ic_slots::{OpenCause, OpenFault};
pub use limits::{LIST_WEIGHT, MAX_ENTRIES, SYSTEM_WEIGHT};

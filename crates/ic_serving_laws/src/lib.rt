//! Laws of servings of lines over a book, and of what clients, runners and scripts leave. No program calls them.
//!
//! `laws` says what the definitions of one serving come to, and `stops` what those of a stop in its
//! midst do. `groups` says it of lines that are answered at once. `served` says what a server has after
//! any number of servings, each ended or stopped at any moment, and `words` what its words come to.
//! `keeps` says how many calls to its disk a keep makes. `attending` says what the ends and the faults of
//! an attendance come to over the book and the disk, and what scripts leave there and are told; `desks`
//! says it of one call. `lines` says which lines are plain, what answers them, and at which memory may
//! run out.
#![tactic(auto)]

pub mod attending;
pub mod desks;
pub mod groups;
pub mod keeps;
pub mod laws;
pub mod lines;
pub mod served;
pub mod stops;
pub mod words;

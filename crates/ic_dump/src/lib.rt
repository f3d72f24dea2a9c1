//! The jobs of a table as lines that a server takes.
//!
//! `dump_jobs` writes for each job of a table, or for those of the names that are given, the line that submits it, and
//! `dump_disk` does so of the table that a disk holds. `job_line` makes one such line, and `front_of_system` what
//! stands before a configuration in the text of a system. What is read back has the job's
//! rules, and its configuration except for the names of wires; rounds and states are not told. `laws` says so of the
//! reader of command lines.
#![tactic(auto)]

mod disk;
mod dumping;
mod fault;
pub mod laws;
mod naming;
mod printing;
mod telling;

pub use disk::dump_disk;
pub use dumping::dump_jobs;
pub use fault::{DiskDumpFault, DumpFault};
pub use printing::front_of_system;
pub use telling::job_line;

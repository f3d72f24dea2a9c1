//! Looking over texts: their faults, each with its place, and what is legal in them and mostly a mistake.
//!
//! `check_files` looks over files, one after the other, whatever gives them: systems, configurations, lines for a server,
//! or scripts, or why a rich text is refused. It tells their faults and warnings, in lines or as objects of JSON. `check_line` and `check_script_line`
//! tell of one line, and `tell_refusals` tells a session of its lines that a server refuses.
//!
//! `find_warnings` answers the warnings of a system: pairs that no rule takes apart, symbols that stand only once, rules that
//! are never used, names that stand only once, whether no two agents can meet, and symbols that look like names. `laws`
//! says in other words what they are. What is told is tried, and not proved.
#![tactic(auto)]

mod files;
mod findings;
pub mod laws;
mod letters;
mod lines;
mod meeting;
mod names;
mod places;
mod reach;
mod remarks;
mod sessions;
mod symbols;
mod texts;
mod warnings;
mod words;
mod writing;

pub use files::{Given, Refused, Source, Verdict, check_files, put_warning};
pub use findings::Layout;
pub use lines::{check_line, check_script_line};
pub use sessions::tell_refusals;
pub use texts::Form;
pub use warnings::{Warnings, find_warnings};

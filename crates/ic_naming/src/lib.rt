//! Nets with their names numbered anew, so that they may stand in a text.
//!
//! A name that occurs once is free, and keeps its number where that may stand in a text. All others are numbered by
//! first occurrence, with numbers that no kept name has. `renumbered_words` does so to the words of terms, however many
//! they are. `laws` says which names a net may have had before, and what the words write then.
#![tactic(auto)]

pub mod laws;
mod numbering;

pub use numbering::renumbered_words;

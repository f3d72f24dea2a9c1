//! Numbers that names have, in arrays where the names stand close together.
//!
//! A `NameTable` is made for some names, and lays out an array for those of each letter. Names that have no place in an
//! array go into a map, so the table holds a number for any name. Which names have places changes time and memory only.
#![tactic(auto)]

mod row;
mod span;
mod table;

pub use table::NameTable;

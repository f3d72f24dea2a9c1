//! Configurations and systems in flat form: all words of a configuration in one list.
//!
//! A term is written in prefix order, an agent's symbol before its arguments, so that no parentheses are needed. A
//! `Flat` keeps the words of the interface and after them those of the equations, and stands for the same configuration
//! as a `Config`; a `FlatSystem` has one beside its rules, and stands for the same as a `System`. A
//! `WideFlat` and a `WideSystem` are the same with the limits of wide configurations. Nothing here recurses
//! on the depth of a configuration's terms.
#![tactic(auto)]

mod arities;
mod equality;
mod flat;
pub mod laws;
mod places;
mod reading;
mod system;
mod testing;
mod wide;
mod wide_system;
mod word;
mod writing;

pub use arities::{over, wide_over};
pub use flat::Flat;
pub use places::end_of_term;
pub use reading::terms_of;
pub use system::FlatSystem;
pub use wide::WideFlat;
pub use wide_system::WideSystem;
pub use word::{Word, terms_in};
pub use writing::write_terms;

//! Terms, names, symbols and configurations of the interaction calculus.
//!
//! A `Config` has each name at most twice, each below its `next`, and keeps the limits. `Symbols` are numbered
//! in the order in which they come. `over` tells whether a configuration has its symbols numbered so.
#![tactic(auto)]

mod arities;
mod config;
mod equality;
mod key;
pub mod laws;
mod limits;
mod occurrences;
mod symbols;
mod term;
mod terms;

pub use arities::over;
pub use config::{Config, ConfigFault};
pub use limits::{
    MAX_ARITY, MAX_INTERFACE, MAX_NEXT, MAX_NODES, MAX_SYMBOL_TEXT, MAX_SYMBOLS, MAX_WIDE_NODES,
    MAX_WIDE_SYMBOLS,
};
pub use occurrences::third_occurrence;
pub use symbols::{SymbolFault, Symbols, is_symbol};
pub use term::{Cell, Equation, Term};
pub use terms::{append_names, copy_terms, names_of_terms, nodes_of_terms, same_terms};

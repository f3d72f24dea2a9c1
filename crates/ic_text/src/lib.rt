//! Reading and printing configurations and systems of the interaction calculus.
//!
//! `read_config` answers what a text means, or the first refusal: its value is `sense` of the one phrase that the text
//! spells. `read_system` does the same of rules and a configuration, and `is_system` tells whether a text is one.
//! `read_flat_system` answers the same system in flat form. `find_config`, `find_system`, `find_flat_config` and
//! `find_flat_system` also tell the place of a refusal. `find_wide_config` and `find_wide_system` do so with any of
//! both `Limits`: those of what is served, which all others have, or much wider ones.
//!
//! `print_config` and `put_config` write the tokens of a configuration without blanks, `print_flat` and `put_flat` the
//! same of one in flat form, `put_words` of one that words write, which may pass the limits, and `print_fault` the line
//! of a refusal. For texts that hold others, `is_blank`, `is_word_byte`, `is_numeral` and `number_in` say what parts
//! words and what digits write. `laws` holds what is proved of the definitions alone.
#![tactic(auto)]

mod blame;
mod build;
mod excess;
mod fault;
mod flat_print;
mod front;
pub mod laws;
mod limits;
mod misread;
mod name;
mod number;
mod place;
mod prefix;
mod print;
mod read;
mod refusal;
mod survey;
mod syntax;
mod system;
mod token;

pub use fault::TextFault;
pub use flat_print::{print_flat, put_flat, put_words};
pub use limits::{Limits, MAX_NAME, MAX_TEXT, MAX_WIDE_TEXT};
pub use misread::{Detail, Limit, Misread};
pub use name::{is_numeral, number_in};
pub use print::{print_config, print_fault, put_cell, put_config, put_decimal, put_name};
pub use read::{find_config, find_flat_config, find_wide_config, read_config};
pub use survey::is_system;
pub use system::{find_flat_system, find_system, find_wide_system, read_flat_system, read_system};
pub use token::{is_blank, is_word_byte};

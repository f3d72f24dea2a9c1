//! The notation of worked rows, lines that say what is asked and what the answer has to be, and what their programs
//! share.
//!
//! A row is `NAME: KIND TEXT => ANSWER`, as `settle_chain: settle <r|r=S(s),s=Z> => <S(Z)|>`. `expanded` gives the
//! bytes that a text of a row stands for, and `Trouble` is why a row has no answer. A program says by `Answers` what
//! its kinds of rows are answered, and `check_rows` does the rest. Answers come from the definitions, computed by hand,
//! never from the program.
#![tactic(auto)]

mod checking;
mod expansion;
mod hexadecimal;
mod row;
mod systems;
mod trouble;

pub use checking::{Answers, Tally, check_rows};
pub use expansion::{decimal, expanded};
pub use hexadecimal::{bytes_of, digits_of};
pub use row::Row;
pub use systems::{printed, system_of};
pub use trouble::Trouble;

//! Where in a text its refusal is, as it is told beside the refusal.
//!
//! `place_lines` tells a place by its line and column, shows the line with a mark under the place, and says what is
//! amiss. `settle_telling` and `once_telling` answer streams as `ic_streams` does, and tell so of a text that is
//! refused; `refused` does so for other answers, and `refused_within` with any limits. What is told, trials look at.
#![tactic(auto)]

pub mod laws;
mod lines;
mod rules;
mod sentences;
mod shown;
mod sights;
mod stands;
mod stream;
mod telling;
mod words;

pub use lines::{column, last_line, line_number, place_lines, told_at};
pub use sights::{is_joined, opens_comment, opens_order_mark};
pub use stream::{once_telling, refused, refused_within, settle_telling};
pub use telling::{Kind, sentence};
pub use words::first_word;

//! Texts for people, and the texts of the calculus that they stand for.
//!
//! A rich text may have comments, names of more than one letter, and lines `copy S` and `erase S` among its rules.
//! `expand` writes it as a text that `ic_text` reads: without comments, with names of the calculus, and with the rules
//! of S and each symbol in the place of such a line. `expand_text` first writes forms as what they stand for, by `ic_rich`,
//! and `expand_stream` does so over a reader and a writer. `begin_text` and `open_rich` give a word what it reads of a text that
//! may be rich, and `write_told` tells what comes of it in its words. `Several` has the configurations of a text, each as a text
//! of its own. `Opened::retell` tells a refusal of what a text is expanded to at its place in that text.
//! `laws` says what is proved of the definitions alone.
#![tactic(auto)]

mod agents;
mod ahead;
mod begin;
mod comments;
mod fault;
mod forms;
mod given;
pub mod laws;
mod limits;
mod marks;
mod names;
mod opening;
mod pieces;
mod reading;
mod retelling;
mod rules;
mod several;
mod spot;
mod stream;
mod telling;
mod texts;
mod together;
mod words;
mod writing;

pub use fault::{ExpandFault, Reason};
pub use ic_rich::{Borrowed, Files, Found, Pair, Remark, Remarks, Wording};
pub use limits::MAX_RICH_TEXT;
pub use marks::is_marked;
pub use opening::{Begun, Opened, begin_text, open_rich};
pub use several::{MAX_SEVERAL, Several};
pub use spot::Kind;
pub use stream::expand_stream;
pub use telling::{Shape, write_told};
pub use texts::{Expanded, Refusal, Unexpanded, expand_text, remarks_of};
pub use writing::expand;

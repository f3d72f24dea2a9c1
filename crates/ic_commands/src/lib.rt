//! Reading the command lines of a job server, and printing the lines that answer them.
//!
//! `read_command` answers what a line asks, or the first refusal: its value is `line_sense` of the one line that the
//! text spells. A system in it is read as `ic_text::read_flat_system` reads it. `read_script_line` answers what a line
//! of a script asks, which is a command or nothing. `print_reply` writes the line that answers a command. `laws` holds
//! what is proved of the definitions alone.
#![tactic(auto)]

mod command;
pub mod laws;
mod limits;
mod line;
mod reply;
mod script_line;
mod word;

pub use command::read_command;
pub use limits::MAX_RUN;
pub use line::Line;
pub use reply::print_reply;
pub use script_line::read_script_line;

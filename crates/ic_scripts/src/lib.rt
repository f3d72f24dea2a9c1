//! Scripts that are given to a disk, and what their clients are told.
//!
//! `add_script` reads a text as the next script. `attend_scripts` gives the scripts to a disk, each
//! by a client of its own, and writes what each client was answered; why that isn't done, or not in
//! full, is a `ScriptsFault`. It is made of `tell`, which writes the answers, and `outcome`, which
//! says which of several faults is told. `laws` holds what is proved of the definitions alone.
#![tactic(auto)]

mod attending;
mod ends;
mod fault;
pub mod laws;
mod reading;
mod telling;
mod words;

pub use attending::attend_scripts;
pub use ends::outcome;
pub use fault::ScriptsFault;
pub use reading::add_script;
pub use telling::tell;
pub use words::book_word;

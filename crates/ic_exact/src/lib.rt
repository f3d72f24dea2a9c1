//! Laws that rest on definitions in which laws of crates below end. No program calls them.
#![tactic(auto)]

pub mod answered;
pub mod crashes;
pub mod dealing;
pub mod dumps;
pub mod firsts;
pub mod forms;
pub mod jobs;
pub mod rounds;
pub mod spelled;
pub mod taken;
pub mod texts;

//! The job table: jobs, commands and their replies, and rounds that land.
//!
//! A `Table` has jobs in the order in which they began. `apply` takes a client's command. `due`
//! gives a running job as it is, to be played outside; `land` puts its round and `halt` stops it, if
//! the job is still as it was. Rules and configurations are in flat form, and are shared, not
//! copied. The definitions of events, histories and lives are in specs/, and `laws` holds what is
//! proved of them alone.
#![tactic(auto)]

mod budget;
mod command;
mod event;
mod job;
mod landed;
pub mod laws;
mod limits;
mod reply;
mod shown;
mod state;
mod table;

pub use budget::Budget;
pub use command::Command;
pub use event::{Entry, Event};
pub use job::Job;
pub use landed::Landed;
pub use limits::{MAX_BUDGET, MAX_JOBS};
pub use reply::{Refusal, Reply};
pub use shown::{JobList, ShownJob};
pub use state::State;
pub use table::Table;

//! Jobs that are to be there.

use ic_flat::FlatSystem;
use ic_jobs::Budget;
use ic_rules::JobName;

/// A job that is to be there: its name, and what it begins with.
#[derive(Drop)]
pub struct NewJob {
    pub name: JobName,
    pub system: FlatSystem,
    pub budget: Option<Budget>,
}

//! Rounds of configurations as terms and equations, in parts, and single steps.
//!
//! Its calls meet the same definitions as those of `ic_flat_round`. Rows and wrong bodies are compared with it, and nothing
//! of the program uses it.
//!
//! `plan` takes the active equations out of a configuration as works, `gather` puts their results back in any order, and
//! `round` does this in turn, and settles by `settle`, which works on words. `interact_at`, `indirect_at` and `collect_at`
//! make one step.
#![tactic(auto)]

mod applicability;
mod gathering;
mod growth;
mod planning;
mod plans;
mod rest;
mod rounds;
mod separation;
mod settling;
mod slots;
mod steps;
mod substitution;

pub use gathering::gather;
pub use planning::plan;
pub use plans::Plan;
pub use rest::Rest;
pub use rounds::round;
pub use settling::settle;
pub use steps::{StepFault, collect_at, indirect_at, interact_at};

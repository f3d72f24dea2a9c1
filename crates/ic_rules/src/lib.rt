//! Rules of the interaction calculus, rule sets, systems and jobs' names.
//!
//! `RuleSet::build` answers the rule set of a list of rules, or the first refusal, and `find` is the one rule of a pair
//! of symbols. A `System` is a rule set with a configuration over its symbols. `laws` holds what is proved of the
//! definitions alone.
#![tactic(auto)]

mod firsts;
mod fit;
mod job_name;
pub mod laws;
mod limits;
mod renaming;
mod rule;
mod rule_set;
mod system;

pub use job_name::{JobName, MAX_JOB_NAME, is_job_word};
pub use limits::{MAX_RULE_NODES, MAX_RULES, MAX_WIDE_RULES};
pub use renaming::has_numbered_names;
pub use rule::Rule;
pub use rule_set::{RuleFault, RuleSet};
pub use system::System;

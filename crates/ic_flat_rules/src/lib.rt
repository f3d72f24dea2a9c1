//! What is asked of a configuration in flat form before a round: where its equations and their rules are, whether it fits
//! when all that are active fire, and whether it is quiet.
//!
//! The answers are those that `ic_round` and `ic_settle` define, found by walks over the words of a configuration. No
//! walk recurses on the depth of its terms; those over a rule's terms, which have 2,048 nodes at most, do.
//!
//! `FlatRules` are rules whose sides are ready to be copied as words.
#![tactic(auto)]

mod ended;
mod fitting;
mod flat_rules;
mod growth;
mod places;
mod quietness;
mod writing;

pub use ended::is_settled;
pub use fitting::{fits, fits_from, refusal};
pub use flat_rules::FlatRules;
pub use growth::rule_of;
pub use places::{Sides, equations_place, sides_at};
pub use quietness::quiet;

//! Rounds of configurations in flat form: how many of its equations are active and what they fire to, what a
//! configuration settles to, and `round`, which fires and settles in turn. Whether one fits and whether one is quiet are
//! passed on from `ic_flat_rules`.
//!
//! The answers are those that `ic_round` and `ic_settle` define, found by walks over the words of a configuration. No
//! walk recurses on the depth of its terms; those over a rule's terms, which have 2,048 nodes at most, do.
//!
//! A `Workspace` has the lists that rounds are made in. `works` makes terms of the active equations, for whoever fires them elsewhere, and `filled` makes words of
//! what they gave.
#![tactic(auto)]

mod activity;
mod agents;
mod bound;
mod containers;
mod filling;
mod fired;
mod firing;
mod pass;
mod places;
mod planning;
mod rebuilding;
mod rounds;
mod settling;
mod workspace;

pub use activity::active_equations;
pub use agents::facing;
pub use filling::filled;
pub use fired::fire;
pub use ic_flat_rules::{FlatRules, fits, is_settled, quiet};
pub use planning::works;
pub use rounds::round;
pub use settling::settle;
pub use workspace::Workspace;

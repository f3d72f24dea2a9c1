//! A plan: the works of a round, and what is left.

use crate::rest::Rest;
use ic_round::Work;

/// The works of a round, in the order of their places, and what is left of the configuration.
#[derive(Drop)]
pub struct Plan {
    pub works: Vec<Work>,
    pub rest: Rest,
}

//! What a crew sends to a worker, and what comes back.

ghost use Rattle.std.specs.Prelude.{◌≡◌, All, IsTrue};
ghost use Rattle.std.specs.Arc.{arc_value};
ghost use Rattle.ic_round.specs.Works.{suits};
ghost use Rattle.ic_round.specs.WorkViews.{work_of};

use crate::answers::Answer;
use ic_pool::Gate;
use ic_round::Work;
use ic_rules::RuleSet;
use std::alloc::{AllocError, Global};
use std::sync::Arc;

/// Works for a worker, and the rules that they suit.
#[derive(Drop)]
pub(crate) struct Parcel {
    pub rules: Arc<RuleSet>,
    pub works: Vec<Work>,
    pub ghost suit: { All (λ w. IsTrue (suits (arc_value rules).rules (work_of w))) works.items },
}

/// What comes back for a parcel.
#[derive(Drop)]
pub(crate) enum Returned {
    Answers(Vec<Answer>),
    /// The worker's memory ran out.
    NoMemory,
}

impl Parcel {
    /// Works, and the rules that they suit.
    pub fn new(rules: &Arc<RuleSet>, works: Vec<Work>) -> Result<Parcel, AllocError>
        requires { All (λ w. IsTrue (suits (arc_value rules.now).rules (work_of w))) works.items }
    {
        Ok(Parcel {
            rules: rules.clone()?,
            works,
        })
    }

    /// The answers to the works, each fired once its place has passed the gate.
    pub fn answered<G: Gate>(self, alloc: Global, gate: &G) -> Result<Vec<Answer>, AllocError> {
        let Parcel { rules, works } = self;
        let mut answers = Vec::with_capacity(alloc, works.len())?;
        for work in works {
            gate.pass(work.place);
            answers.push(Answer::to(alloc, &rules, gate, work)?)?;
        }
        Ok(answers)
    }
}

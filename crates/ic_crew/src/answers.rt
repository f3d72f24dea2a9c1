//! What a worker sends back for a work.

ghost use Rattle.std.specs.Prelude.{◌≡◌};
ghost use Rattle.ic_round.specs.WorkViews.{work_of};
ghost use Rattle.ic_crew.specs.Matching.{work_eq};

use ic_pool::{Gate, fire_passed};
use ic_round::{Fired, Work};
use ic_rules::RuleSet;
use std::alloc::{AllocError, Global};
use std::marker::Model;
use std::sync::Arc;

/// What a worker sends back for a work: the rules, the work, and its products.
#[derive(Drop)]
pub struct Answer {
    rules: Arc<RuleSet>,
    work: Work,
    fired: Fired,
}

impl Model for Answer {
    ghost use Rattle.std.specs.Arc.{arc_value};
    ghost use Rattle.ic_round.specs.WorkViews.{work_of, fired_of};
    ghost use Rattle.ic_crew.specs.Answers.{AnswerParts, IsAnswer, coded_answer};

    ghost Value = { AnswerParts };

    ghost coded = { coded_answer };

    ghost view = { λ a. record {
      rules = arc_value a.rules;
      work = work_of a.work;
      fired = fired_of a.fired;
    } };

    ghost invariant = { λ a. IsAnswer (record {
      rules = arc_value a.rules;
      work = work_of a.work;
      fired = fired_of a.fired;
    }) };
}

impl Answer {
    ghost use Rattle.std.specs.Prelude.{IfOk, IsTrue};
    ghost use Rattle.std.specs.Arc.{arc_value};
    ghost use Rattle.ic_round.specs.WorkViews.{fired_of};
    ghost use Rattle.ic_round.specs.Works.{suits};
    ghost use Rattle.ic_crew.specs.Answers.{IsAnswer, answer_to};
    ghost use Rattle.ic_crew.specs.Matching.{is_answer_to};

    /// The answer to a work whose place has passed the gate.
    pub fn to<G: Gate>(
        alloc: Global,
        rules: &Arc<RuleSet>,
        gate: &G,
        work: Work,
    ) -> Result<Answer, AllocError>
        requires suits { IsTrue (suits (arc_value rules.now).rules (work_of work)) }
        requires passed { G.has_passed gate.now work.place }
        ensures { IfOk result (λ answer. answer ≡ answer_to (arc_value rules.now) (work_of work)) }
    {
        let copy = work.copy(alloc)?;
        let fired = fire_passed(alloc, rules, gate, work)?;
        Ok(Answer {
            rules: rules.clone()?,
            work: copy,
            fired,
        })
    }

    pub fn rules(&self) -> &Arc<RuleSet>
        ensures rules { arc_value result.now ≡ self.now.rules }
        ensures sound { IsAnswer self.now }
    {
        &self.rules
    }

    pub fn work(&self) -> &Work
        ensures work { work_of result.now ≡ self.now.work }
        ensures sound { IsAnswer self.now }
    {
        &self.work
    }

    /// The products, moved out.
    pub fn into_fired(self) -> Fired
        ensures fired { fired_of result ≡ self.fired }
        ensures sound { IsAnswer self }
    {
        self.fired
    }

    /// Whether it is the answer to this work under these rules.
    pub(crate) fn is_to(&self, rules: &RuleSet, work: &Work) -> bool
        ensures { result ≡ is_answer_to rules.now (work_of work.now) self.now }
    {
        is_same(work, &self.work) && *rules == *self.rules
    }
}

/// Whether two works are the same.
fn is_same(left: &Work, right: &Work) -> bool
    ensures { result ≡ work_eq (work_of left.now) (work_of right.now) }
{
    left.place == right.place
        && left.base == right.base
        && left.rule == right.rule
        && *left.left == *right.left
        && *left.right == *right.right
}

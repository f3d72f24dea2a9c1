//! The firing of a work whose place has passed the gate.

ghost use Rattle.std.specs.Prelude.{◌≡◌, IfOk, IsTrue};
ghost use Rattle.ic_round.specs.Works.{suits, result_of};
ghost use Rattle.ic_round.specs.WorkViews.{work_of, fired_of};

use crate::gate::Gate;
use ic_round::{Fired, Work, fire};
use ic_rules::RuleSet;
use std::alloc::{AllocError, Global};

/// The products of a work whose place has passed the gate.
pub fn fire_passed<G: Gate>(
    alloc: Global,
    rules: &RuleSet,
    _gate: &G,
    work: Work,
) -> Result<Fired, AllocError>
    requires suits { IsTrue (suits rules.now.rules (work_of work)) }
    requires passed { G.has_passed _gate.now work.place }
    ensures { IfOk result (λ fired. fired_of fired ≡ result_of rules.now.rules (work_of work)) }
{
    fire(alloc, rules, work)
}

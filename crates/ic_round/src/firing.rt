//! The products of one work.

ghost use Rattle.std.specs.Prelude.{◌≡◌, IfOk, IsTrue};
ghost use Rattle.ic_round.specs.Works.{suits, result_of};
ghost use Rattle.ic_round.specs.WorkViews.{work_of, fired_of};

use crate::work::{Fired, Work, append_products};
use ic_rules::RuleSet;
use std::alloc::{AllocError, Global};

/// The products of a work, its rule's names made higher by its base.
pub fn fire(alloc: Global, rules: &RuleSet, work: Work) -> Result<Fired, AllocError>
    requires { IsTrue (suits rules.now.rules (work_of work)) }
    ensures { IfOk result (λ fired. fired_of fired ≡ result_of rules.now.rules (work_of work)) }
{
    let rule = &rules.rules()[work.rule];
    let left = Box::into_inner(work.left);
    let right = Box::into_inner(work.right);
    let mut products = Vec::with_capacity(alloc, left.args.len().saturating_add(right.args.len()))?;
    append_products(alloc, left.args, rule.left_args(), work.base, &mut products)?;
    append_products(
        alloc,
        right.args,
        rule.right_args(),
        work.base,
        &mut products,
    )?;
    Ok(Fired {
        place: work.place,
        products,
    })
}

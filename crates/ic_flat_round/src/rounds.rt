//! A round in one call.

ghost use Rattle.std.specs.Prelude.{◌≡◌, ℕ, ◌+◌, IsTrue, IfOk};
ghost use Rattle.ic_term.specs.Symbol.{is_over};
ghost use Rattle.ic_term.specs.Configuration.{Configuration};
ghost use Rattle.ic_round.specs.Steps.{Steps};
ghost use Rattle.ic_round.specs.Rounds.{round, iterate, unless_unfit};
ghost use Rattle.ic_round.specs.RoundAnswers.{Answers};

use crate::fired::fire;
use crate::settling::settle;
use ic_flat::Flat;
use ic_flat_rules::FlatRules;
use ic_round::RoundFault;
use std::alloc::Global;

/// The configuration after one round.
pub fn round(alloc: Global, rules: &FlatRules, flat: &Flat) -> Result<Flat, RoundFault>
    requires { IsTrue (is_over rules.now.symbols flat.now) }
    ensures round { Answers result
        (unless_unfit rules.now.rules flat.now (round rules.now.rules flat.now)) }
    ensures reached { IfOk result (λ after. Steps rules.now.rules flat.now after) }
    ensures over { IfOk result (λ after. IsTrue (is_over rules.now.symbols after)) }
    ensures counted { IfOk result (λ after. (start : Configuration) (n : ℕ)
        → flat.now ≡ iterate rules.now.rules n start
        → after ≡ iterate rules.now.rules (n + 1) start) }
{
    let fired = fire(alloc, rules, flat)?;
    Ok(settle(alloc, &fired)?)
}

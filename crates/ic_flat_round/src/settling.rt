//! Settling at once, on words.

ghost use Rattle.std.specs.Prelude.{◌≡◌, List, IfOk, IsTrue};
ghost use Rattle.ic_term.specs.Symbol.{Symbol, is_over};
ghost use Rattle.ic_term.specs.Configuration.{Configuration};
ghost use Rattle.ic_settle.specs.Settling.{settled};
ghost use Rattle.ic_settle.specs.NameSteps.{NameStep, NameSteps};

use crate::workspace::Workspace;
use ic_flat::Flat;
use std::alloc::{AllocError, Global};

/// The configuration, settled. Takes time nearly in proportion to its nodes, and memory in proportion to them.
pub fn settle(alloc: Global, flat: &Flat) -> Result<Flat, AllocError>
    ensures settled { IfOk result (λ after. after ≡ settled flat.now) }
    ensures reached { IfOk result (λ after. NameSteps flat.now after) }
    ensures ended { IfOk result (λ after. (next : Configuration) → ¬ NameStep after next) }
    ensures over { IfOk result (λ after. (symbols : List Symbol)
        → IsTrue (is_over symbols flat.now) → IsTrue (is_over symbols after)) }
{
    let mut workspace = Workspace::new(alloc);
    workspace.settle(alloc, flat)
}

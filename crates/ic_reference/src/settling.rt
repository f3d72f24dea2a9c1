//! Settling of terms, by their words.

ghost use Rattle.std.specs.Prelude.{◌≡◌, List, IfOk, IsTrue};
ghost use Rattle.ic_term.specs.Symbol.{Symbol, is_over};
ghost use Rattle.ic_term.specs.Configuration.{Configuration};
ghost use Rattle.ic_settle.specs.Settling.{settled};
ghost use Rattle.ic_settle.specs.NameSteps.{NameStep, NameSteps};

use ic_flat::Flat;
use ic_term::Config;
use std::alloc::{AllocError, Global};

/// The configuration, settled. Takes time nearly in proportion to its nodes.
pub fn settle(alloc: Global, config: Config) -> Result<Config, AllocError>
    ensures settled { IfOk result (λ after. after ≡ settled config) }
    ensures reached { IfOk result (λ after. NameSteps config after) }
    ensures ended { IfOk result (λ after. (next : Configuration) → ¬ NameStep after next) }
    ensures over { IfOk result (λ after. (symbols : List Symbol)
        → IsTrue (is_over symbols config) → IsTrue (is_over symbols after)) }
{
    let flat = Flat::from_config(alloc, &config)?;
    let settled = ic_flat_round::settle(alloc, &flat)?;
    settled.to_config(alloc)
}

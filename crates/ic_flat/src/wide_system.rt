//! Wide systems in flat form.

ghost use Rattle.std.specs.Prelude.{◌≡◌, ◌↔◌, IsTrue, IsSome, IfSome, IfOk};
ghost use Rattle.std.specs.Arc.{arc_value};
ghost use Rattle.ic_term.specs.Symbol.{is_over};

use crate::arities::wide_over;
use crate::wide::WideFlat;
use ic_rules::RuleSet;
use std::alloc::{AllocError, Global};
use std::marker::Model;
use std::sync::Arc;

/// Rules, and a wide configuration in flat form over their symbols. The rules are shared, never changed.
#[derive(Drop)]
pub struct WideSystem {
    rules: Arc<RuleSet>,
    config: WideFlat,
}

impl Model for WideSystem {
    ghost use Rattle.std.specs.Prelude.{◌≡◌, true};
    ghost use Rattle.std.specs.Arc.{arc_value};
    ghost use Rattle.ic_term.specs.Symbol.{is_over};
    ghost use Rattle.ic_rules.specs.System.{SystemParts};
    ghost use Rattle.ic_rules.specs.lemmas.Codings.{coded_system};

    ghost Value = { SystemParts };

    ghost coded = { coded_system };

    ghost view = { λ s. record { rules = arc_value s.rules; config = s.config } };

    ghost invariant = { λ s. is_over (arc_value s.rules).symbols s.config ≡ true };
}

impl WideSystem {
    /// The system of these parts, if the configuration is over the symbols of the rules.
    pub fn new(rules: Arc<RuleSet>, config: WideFlat) -> Option<WideSystem>
        ensures over { IsSome result ↔ IsTrue (is_over (arc_value rules).symbols config) }
        ensures system { IfSome result
            (λ system. system ≡ record { rules = arc_value rules; config = config }) }
    {
        if !wide_over(rules.symbols(), &config) {
            return None;
        }
        Some(WideSystem { rules, config })
    }

    /// The system of parts that are known to fit.
    pub fn from_parts(rules: Arc<RuleSet>, config: WideFlat) -> WideSystem
        requires { IsTrue (is_over (arc_value rules).symbols config) }
        ensures { result ≡ record { rules = arc_value rules; config = config } }
    {
        WideSystem { rules, config }
    }

    pub fn rules(&self) -> &Arc<RuleSet>
        ensures rules { arc_value result.now ≡ self.now.rules }
        ensures sound { IsTrue (is_over self.now.rules.symbols self.now.config) }
    {
        &self.rules
    }

    pub fn config(&self) -> &WideFlat
        ensures config { result.now ≡ self.now.config }
        ensures sound { IsTrue (is_over self.now.rules.symbols self.now.config) }
    {
        &self.config
    }

    /// The rules and the configuration.
    pub fn into_parts(self) -> (Arc<RuleSet>, WideFlat)
        ensures rules { arc_value result.0 ≡ self.rules }
        ensures config { result.1 ≡ self.config }
        ensures sound { IsTrue (is_over self.rules.symbols self.config) }
    {
        (self.rules, self.config)
    }

    /// A copy, equal to its source, which shares the rules.
    pub fn copy(&self, alloc: Global) -> Result<WideSystem, AllocError>
        ensures { IfOk result (λ copy. copy ≡ self.now) }
    {
        Ok(WideSystem {
            rules: self.rules.clone()?,
            config: self.config.copy(alloc)?,
        })
    }
}

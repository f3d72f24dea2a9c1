//! Systems: rules with a configuration over their symbols.

ghost use Rattle.std.specs.Prelude.{◌≡◌, ◌↔◌, IsTrue, IsSome, IfSome, IfOk};
ghost use Rattle.std.specs.Arc.{arc_value};
ghost use Rattle.ic_term.specs.Symbol.{is_over};

use crate::rule_set::RuleSet;
use ic_term::{Config, over};
use std::alloc::{AllocError, Global};
use std::marker::Model;
use std::sync::Arc;

/// Rules, and a configuration over their symbols. The rules are shared, never changed.
#[derive(Drop)]
pub struct System {
    rules: Arc<RuleSet>,
    config: Config,
}

impl Model for System {
    ghost use Rattle.std.specs.Prelude.{◌≡◌, true};
    ghost use Rattle.std.specs.Arc.{arc_value};
    ghost use Rattle.ic_term.specs.Symbol.{is_over};
    ghost use Rattle.ic_rules.specs.System.{SystemParts};
    ghost use Rattle.ic_rules.specs.lemmas.Codings.{coded_system};

    ghost Value = { SystemParts };

    ghost coded = { coded_system };

    ghost view = { λ s. record { rules = arc_value s.rules; config = s.config } };

    ghost invariant = { λ s. is_over (arc_value s.rules).symbols s.config ≡ true };
}

impl System {
    /// The system of these parts, if the configuration is over the symbols of the rules.
    pub fn new(rules: Arc<RuleSet>, config: Config) -> Option<System>
        ensures over { IsSome result ↔ IsTrue (is_over (arc_value rules).symbols config) }
        ensures system { IfSome result
            (λ system. system ≡ record { rules = arc_value rules; config = config }) }
    {
        if !over(rules.symbols(), &config) {
            return None;
        }
        Some(System { rules, config })
    }

    /// The system of parts that are known to fit.
    pub fn from_parts(rules: Arc<RuleSet>, config: Config) -> System
        requires { IsTrue (is_over (arc_value rules).symbols config) }
        ensures { result ≡ record { rules = arc_value rules; config = config } }
    {
        System { rules, config }
    }

    pub fn rules(&self) -> &Arc<RuleSet>
        ensures rules { arc_value result.now ≡ self.now.rules }
        ensures sound { IsTrue (is_over self.now.rules.symbols self.now.config) }
    {
        &self.rules
    }

    pub fn config(&self) -> &Config
        ensures config { result.now ≡ self.now.config }
        ensures sound { IsTrue (is_over self.now.rules.symbols self.now.config) }
    {
        &self.config
    }

    /// The rules and the configuration.
    pub fn into_parts(self) -> (Arc<RuleSet>, Config)
        ensures rules { arc_value result.0 ≡ self.rules }
        ensures config { result.1 ≡ self.config }
        ensures sound { IsTrue (is_over self.rules.symbols self.config) }
    {
        (self.rules, self.config)
    }

    /// A copy, equal to its source, which shares the rules.
    pub fn copy(&self, alloc: Global) -> Result<System, AllocError>
        ensures { IfOk result (λ copy. copy ≡ self.now) }
    {
        Ok(System {
            rules: self.rules.clone()?,
            config: self.config.copy(alloc)?,
        })
    }
}

//! Systems in flat form.

ghost use Rattle.std.specs.Prelude.{◌≡◌, ◌≤◌, ◌↔◌, IsTrue, IsSome, IfSome, IfOk, length};
ghost use Rattle.std.specs.Arc.{arc_value};
ghost use Rattle.ic_term.specs.Configuration.{configuration_nodes};
ghost use Rattle.ic_term.specs.Symbol.{is_over};
ghost use Rattle.ic_term.specs.declared.limits.TheConstants.{MAX_NODES, MAX_INTERFACE};
ghost use Rattle.ic_rules.specs.RuleSet.{AreServed};

use crate::arities::over;
use crate::flat::Flat;
use crate::wide_system::WideSystem;
use ic_rules::{RuleSet, System};
use std::alloc::{AllocError, Global};
use std::marker::Model;
use std::sync::Arc;

/// Rules within the limits of what is served, and a configuration in flat form over their symbols. The rules are
/// shared, never changed.
#[derive(Drop)]
pub struct FlatSystem {
    rules: Arc<RuleSet>,
    config: Flat,
}

impl Model for FlatSystem {
    ghost use Rattle.std.specs.Prelude.{◌≡◌, true};
    ghost use Rattle.std.specs.Arc.{arc_value};
    ghost use Rattle.ic_term.specs.Symbol.{is_over};
    ghost use Rattle.ic_rules.specs.RuleSet.{AreServed};
    ghost use Rattle.ic_rules.specs.System.{SystemParts};
    ghost use Rattle.ic_rules.specs.lemmas.Codings.{coded_system};

    ghost Value = { SystemParts };

    ghost coded = { coded_system };

    ghost view = { λ s. record { rules = arc_value s.rules; config = s.config } };

    ghost invariant = { λ s. (is_over (arc_value s.rules).symbols s.config ≡ true)
        × AreServed (arc_value s.rules) };
}

impl FlatSystem {
    /// The system of these parts, if the rules are served and the configuration is over their symbols.
    pub fn new(rules: Arc<RuleSet>, config: Flat) -> Option<FlatSystem>
        ensures over { IsSome result
            ↔ (IsTrue (is_over (arc_value rules).symbols config) × AreServed (arc_value rules)) }
        ensures system { IfSome result
            (λ system. system ≡ record { rules = arc_value rules; config = config }) }
    {
        if !rules.are_served() || !over(rules.symbols(), &config) {
            return None;
        }
        Some(FlatSystem { rules, config })
    }

    /// The same system in flat form, which shares the rules, if they are served.
    pub fn from_system(alloc: Global, system: &System) -> Result<Option<FlatSystem>, AllocError>
        ensures served { IfOk result (λ made. IsSome made ↔ AreServed system.now.rules) }
        ensures system { IfOk result (λ made. IfSome made (λ flat. flat ≡ system.now)) }
    {
        if !system.rules().are_served() {
            return Ok(None);
        }
        let rules = system.rules().clone()?;
        let config = Flat::from_config(alloc, system.config())?;
        Ok(Some(FlatSystem { rules, config }))
    }

    /// The same system with its configuration as terms and equations, which shares the rules.
    pub fn to_system(&self, alloc: Global) -> Result<System, AllocError>
        ensures { IfOk result (λ system. system ≡ self.now) }
    {
        let rules = self.rules.clone()?;
        let config = self.config.to_config(alloc)?;
        Ok(System::from_parts(rules, config))
    }

    /// The same system, if its rules are served and its configuration keeps the limits of a configuration. Moves it.
    pub fn from_wide(system: WideSystem) -> FlatSystem
        requires few { configuration_nodes system.config ≤ MAX_NODES }
        requires interface { length system.config.interface ≤ MAX_INTERFACE }
        requires served { AreServed system.rules }
        ensures { result ≡ system }
    {
        let (rules, config) = system.into_parts();
        let config = Flat::from_wide(config);
        FlatSystem { rules, config }
    }

    /// The same system with its configuration as a wide one. Moves it.
    pub fn into_wide(self) -> WideSystem
        ensures { result ≡ self }
    {
        WideSystem::from_parts(self.rules, self.config.into_wide())
    }

    pub fn rules(&self) -> &Arc<RuleSet>
        ensures rules { arc_value result.now ≡ self.now.rules }
        ensures sound { IsTrue (is_over self.now.rules.symbols self.now.config) }
        ensures served { AreServed self.now.rules }
    {
        &self.rules
    }

    pub fn config(&self) -> &Flat
        ensures config { result.now ≡ self.now.config }
        ensures sound { IsTrue (is_over self.now.rules.symbols self.now.config) }
        ensures served { AreServed self.now.rules }
    {
        &self.config
    }

    /// The rules and the configuration.
    pub fn into_parts(self) -> (Arc<RuleSet>, Flat)
        ensures rules { arc_value result.0 ≡ self.rules }
        ensures config { result.1 ≡ self.config }
        ensures sound { IsTrue (is_over self.rules.symbols self.config) }
        ensures served { AreServed self.rules }
    {
        (self.rules, self.config)
    }

    /// A copy, equal to its source, which shares the rules.
    pub fn copy(&self, alloc: Global) -> Result<FlatSystem, AllocError>
        ensures { IfOk result (λ copy. copy ≡ self.now) }
    {
        Ok(FlatSystem {
            rules: self.rules.clone()?,
            config: self.config.copy(alloc)?,
        })
    }
}

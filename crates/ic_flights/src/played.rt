//! A round of a job that was made.

ghost use Rattle.std.specs.Prelude.{◌≡◌, IfOk};
ghost use Rattle.std.specs.Arc.{arc_value};

use ic_flat::Flat;
use ic_flat_rules::FlatRules;
use ic_rules::{JobName, RuleSet};
use std::alloc::{AllocError, Global};
use std::marker::Model;
use std::sync::Arc;

/// A round that was made: a job's name and rules, its configuration before and after in flat form,
/// and how many rounds it had made before. `after` is the round of `before`, and who made it looked
/// whether it is quiet. The rules and `before` are shared with its flight, and `after` with the job
/// that it lands in.
#[derive(Drop)]
pub struct Played {
    name: JobName,
    rules: Arc<FlatRules>,
    before: Arc<Flat>,
    after: Arc<Flat>,
    rounds: u64,
    quiet: bool,
}

impl Model for Played {
    ghost use Rattle.std.specs.Prelude.{◌≡◌};
    ghost use Rattle.std.specs.Arc.{arc_value};
    ghost use Rattle.ic_round.specs.Quiet.{is_quiet};
    ghost use Rattle.ic_flights.specs.Played.{PlayedParts, IsPlayed, coded_played};

    ghost Value = { PlayedParts };

    ghost coded = { coded_played };

    ghost view = { λ p. record {
      name = p.name;
      rules = arc_value p.rules;
      before = arc_value p.before;
      after = arc_value p.after;
      rounds = p.rounds;
    } };

    ghost invariant = { λ p. IsPlayed (record {
      name = p.name;
      rules = arc_value p.rules;
      before = arc_value p.before;
      after = arc_value p.after;
      rounds = p.rounds;
    }) × (p.quiet ≡ is_quiet (arc_value p.rules).rules (arc_value p.after)) };
}

impl Played {
    ghost use Rattle.ic_round.specs.Quiet.{is_quiet};
    ghost use Rattle.ic_flights.specs.Played.{IsPlayed};

    pub(crate) fn new(
        alloc: Global,
        name: JobName,
        rules: Arc<FlatRules>,
        before: Arc<Flat>,
        after: Flat,
        rounds: u64,
        quiet: bool,
    ) -> Result<Played, AllocError>
        requires played { IsPlayed (record {
          name = name;
          rules = arc_value rules;
          before = arc_value before;
          after = after;
          rounds = rounds;
        }) }
        requires quiet { quiet ≡ is_quiet (arc_value rules).rules after }
        ensures { IfOk result (λ played. played ≡ record {
          name = name;
          rules = arc_value rules;
          before = arc_value before;
          after = after;
          rounds = rounds;
        }) }
    {
        Ok(Played {
            name,
            rules,
            before,
            after: Arc::new(alloc, after)?,
            rounds,
            quiet,
        })
    }

    pub fn name(&self) -> JobName
        ensures name { result ≡ self.now.name }
        ensures sound { IsPlayed self.now }
    {
        self.name
    }

    pub fn rules(&self) -> &RuleSet
        ensures rules { result.now ≡ self.now.rules }
        ensures sound { IsPlayed self.now }
    {
        self.rules.rules()
    }

    /// The configuration before the round.
    pub fn before(&self) -> &Flat
        ensures before { result.now ≡ self.now.before }
        ensures sound { IsPlayed self.now }
    {
        &self.before
    }

    /// The configuration after the round.
    pub fn after(&self) -> &Flat
        ensures after { result.now ≡ self.now.after }
        ensures sound { IsPlayed self.now }
    {
        &self.after
    }

    /// The rules with their words, to be shared.
    pub(crate) fn shared_rules(&self) -> &Arc<FlatRules>
        ensures rules { arc_value result.now ≡ self.now.rules }
        ensures sound { IsPlayed self.now }
    {
        &self.rules
    }

    /// The configuration after the round, to be shared.
    pub(crate) fn shared_after(&self) -> &Arc<Flat>
        ensures after { arc_value result.now ≡ self.now.after }
        ensures sound { IsPlayed self.now }
    {
        &self.after
    }

    /// How many rounds the job had made before this one.
    pub fn rounds(&self) -> u64
        ensures rounds { result ≡ self.now.rounds }
        ensures sound { IsPlayed self.now }
    {
        self.rounds
    }

    /// Whether the configuration after the round is quiet. It was looked at when the round was made.
    pub fn is_quiet(&self) -> bool
        ensures quiet { result ≡ is_quiet self.now.rules.rules self.now.after }
        ensures sound { IsPlayed self.now }
    {
        self.quiet
    }

    /// The configuration after the round, moved out.
    pub fn into_after(self) -> Arc<Flat>
        ensures after { arc_value result ≡ self.after }
        ensures sound { IsPlayed self }
    {
        self.after
    }
}

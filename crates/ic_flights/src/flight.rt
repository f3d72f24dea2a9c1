//! A round of a job that is to be made.

ghost use Rattle.std.specs.Prelude.{◌≡◌, IsTrue};
ghost use Rattle.std.specs.Arc.{arc_value};

use crate::limits::MAX_ROUNDS;
use ic_flat::Flat;
use ic_flat_rules::{FlatRules, fits};
use ic_rules::{JobName, RuleSet};
use std::marker::Model;
use std::sync::Arc;

/// A round that is to be made: a job's place in its table, its name, its rules and configuration in
/// flat form, and how many rounds it has made. Rules and configuration are shared with the job, and
/// with the round that is made of it.
#[derive(Drop)]
pub struct Flight {
    place: usize,
    name: JobName,
    rules: Arc<FlatRules>,
    config: Arc<Flat>,
    rounds: u64,
}

impl Model for Flight {
    ghost use Rattle.std.specs.Arc.{arc_value};
    ghost use Rattle.ic_flights.specs.Flight.{FlightParts, IsFlight, coded_flight};

    ghost Value = { FlightParts };

    ghost coded = { coded_flight };

    ghost view = { λ f. record {
      place = f.place;
      name = f.name;
      rules = arc_value f.rules;
      config = arc_value f.config;
      rounds = f.rounds;
    } };

    ghost invariant = { λ f. IsFlight (record {
      place = f.place;
      name = f.name;
      rules = arc_value f.rules;
      config = arc_value f.config;
      rounds = f.rounds;
    }) };
}

impl Flight {
    ghost use Rattle.ic_flights.specs.Flight.{IsFlight, is_blocked};

    pub fn new(
        place: usize,
        name: JobName,
        rules: Arc<FlatRules>,
        config: Arc<Flat>,
        rounds: u64,
    ) -> Flight
        requires { IsFlight (record {
          place = place;
          name = name;
          rules = arc_value rules;
          config = arc_value config;
          rounds = rounds;
        }) }
        ensures { result ≡ record {
          place = place;
          name = name;
          rules = arc_value rules;
          config = arc_value config;
          rounds = rounds;
        } }
    {
        Flight {
            place,
            name,
            rules,
            config,
            rounds,
        }
    }

    /// The job's place in its table when the flight was taken.
    pub fn place(&self) -> usize
        ensures place { result ≡ self.now.place }
        ensures sound { IsFlight self.now }
    {
        self.place
    }

    pub fn name(&self) -> JobName
        ensures name { result ≡ self.now.name }
        ensures sound { IsFlight self.now }
    {
        self.name
    }

    pub fn rules(&self) -> &RuleSet
        ensures rules { result.now ≡ self.now.rules }
        ensures sound { IsFlight self.now }
    {
        self.rules.rules()
    }

    pub fn config(&self) -> &Flat
        ensures config { result.now ≡ self.now.config }
        ensures sound { IsFlight self.now }
    {
        &self.config
    }

    /// The rules with their words, to be shared.
    pub fn shared_rules(&self) -> &Arc<FlatRules>
        ensures rules { arc_value result.now ≡ self.now.rules }
        ensures sound { IsFlight self.now }
    {
        &self.rules
    }

    /// The configuration, to be shared.
    pub fn shared_config(&self) -> &Arc<Flat>
        ensures config { arc_value result.now ≡ self.now.config }
        ensures sound { IsFlight self.now }
    {
        &self.config
    }

    /// How many rounds the job has made.
    pub fn rounds(&self) -> u64
        ensures rounds { result ≡ self.now.rounds }
        ensures sound { IsFlight self.now }
    {
        self.rounds
    }

    /// Whether the configuration doesn't fit, or the job has made 2^62 rounds: no round can be
    /// made.
    pub fn blocked(&self) -> bool
        ensures blocked { result ≡ is_blocked self.now }
        ensures sound { IsFlight self.now }
    {
        !fits(self.rules.rules(), &self.config) || self.rounds == MAX_ROUNDS
    }
}

//! What replies tell of jobs.

ghost use Rattle.std.specs.Prelude.{◌≡◌, IfOk, length, slice_get, Some};
ghost use Rattle.std.specs.Arc.{arc_value};

use crate::state::State;
use ic_flat::Flat;
use ic_flat_rules::FlatRules;
use ic_rules::{JobName, RuleSet};
use std::alloc::{AllocError, Global};
use std::marker::Model;
use std::sync::Arc;

/// A job as a reply shows it: its name, state and rounds, and its rules and configuration in flat
/// form, which it shares with the job.
#[derive(Drop)]
pub struct ShownJob {
    name: JobName,
    state: State,
    rounds: u64,
    rules: Arc<FlatRules>,
    config: Arc<Flat>,
}

impl Model for ShownJob {
    ghost use Rattle.std.specs.Prelude.{IsTrue};
    ghost use Rattle.std.specs.Arc.{arc_value};
    ghost use Rattle.ic_term.specs.Symbol.{is_over};
    ghost use Rattle.ic_jobs.specs.Shown.{ShownParts};
    ghost use Rattle.ic_jobs.specs.lemmas.Codings.{coded_shown};

    ghost Value = { ShownParts };

    ghost coded = { coded_shown };

    ghost view = { λ s. record {
      name = s.name;
      state = s.state;
      rounds = s.rounds;
      rules = arc_value s.rules;
      config = arc_value s.config;
    } };

    ghost invariant = { λ s. IsTrue (is_over (arc_value s.rules).symbols (arc_value s.config)) };
}

impl ShownJob {
    ghost use Rattle.std.specs.Prelude.{IsTrue};
    ghost use Rattle.ic_term.specs.Symbol.{is_over};

    pub(crate) fn new(
        name: JobName,
        state: State,
        rounds: u64,
        rules: Arc<FlatRules>,
        config: Arc<Flat>,
    ) -> ShownJob
        requires { IsTrue (is_over (arc_value rules).symbols (arc_value config)) }
        ensures { result ≡ record {
          name = name;
          state = state;
          rounds = rounds;
          rules = arc_value rules;
          config = arc_value config;
        } }
    {
        ShownJob {
            name,
            state,
            rounds,
            rules,
            config,
        }
    }

    pub fn name(&self) -> JobName
        ensures { result ≡ self.now.name }
    {
        self.name
    }

    pub fn state(&self) -> State
        ensures { result ≡ self.now.state }
    {
        self.state
    }

    /// How many rounds the job has made.
    pub fn rounds(&self) -> u64
        ensures { result ≡ self.now.rounds }
    {
        self.rounds
    }

    pub fn rules(&self) -> &RuleSet
        ensures { result.now ≡ self.now.rules }
    {
        self.rules.rules()
    }

    pub fn config(&self) -> &Flat
        ensures config { result.now ≡ self.now.config }
        ensures sound { IsTrue (is_over self.now.rules.symbols self.now.config) }
    {
        &self.config
    }

    /// A copy, equal to its source, which shares the rules and the configuration.
    pub fn copy(&self) -> Result<ShownJob, AllocError>
        ensures { IfOk result (λ copy. copy ≡ self.now) }
    {
        Ok(ShownJob {
            name: self.name,
            state: self.state,
            rounds: self.rounds,
            rules: self.rules.clone()?,
            config: self.config.clone()?,
        })
    }
}

/// The name, state and rounds of each job of a table, in its order. Copies share the lines.
#[derive(Drop)]
pub struct JobList {
    lines: Arc<Vec<(JobName, State, u64)>>,
}

impl Model for JobList {
    ghost use Rattle.std.specs.Prelude.{List, ℕ};
    ghost use Rattle.std.specs.Arc.{arc_value};
    ghost use Rattle.ic_jobs.specs.declared.state.State.{State};

    ghost Value = { List (List ℕ × State × ℕ) };

    ghost view = { λ l. (arc_value l.lines).items };
}

impl JobList {
    pub(crate) fn new(
        alloc: Global,
        lines: Vec<(JobName, State, u64)>,
    ) -> Result<JobList, AllocError>
        ensures { IfOk result (λ list. list ≡ lines.items) }
    {
        Ok(JobList {
            lines: Arc::new(alloc, lines)?,
        })
    }

    pub fn as_slice(&self) -> &[(JobName, State, u64)]
        ensures { result.now ≡ self.now }
    {
        self.lines.as_slice()
    }

    /// A copy, equal to its source, which shares the lines.
    pub fn copy(&self) -> Result<JobList, AllocError>
        ensures { IfOk result (λ copy. copy ≡ self.now) }
    {
        Ok(JobList {
            lines: self.lines.clone()?,
        })
    }
}

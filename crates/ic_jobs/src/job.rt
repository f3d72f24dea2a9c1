//! A job of the table.

ghost use Rattle.std.specs.Prelude.{◌≡◌, IfOk, IsTrue, false, if◌then◌else◌};
ghost use Rattle.std.specs.Arc.{arc_value};
ghost use Rattle.std.specs.Str.{bytes_eq};
ghost use Rattle.ic_term.specs.Symbol.{is_over};
ghost use Rattle.ic_round.specs.Rounds.{fits, round};
ghost use Rattle.ic_jobs.specs.declared.state.State.TheVariants.{Running, Done, Spent};
ghost use Rattle.ic_jobs.specs.Budget.{is_used_up};
ghost use Rattle.ic_jobs.specs.Job.{open_state};

use crate::budget::{Budget, is_used_up, is_within};
use crate::shown::ShownJob;
use crate::state::State;
use ic_flat::{Flat, FlatSystem, over};
use ic_flat_round::Workspace;
use ic_flat_rules::{FlatRules, quiet};
use ic_flights::{Flight, MAX_ROUNDS};
use ic_rules::{JobName, RuleSet};
use std::alloc::{AllocError, Global};
use std::marker::Model;
use std::sync::Arc;

/// A job: its name, its rules and configuration in flat form, how many rounds it has made, its state,
/// and its budget or none. It is done exactly where its configuration is quiet, and spent exactly
/// where it isn't quiet and its rounds are its budget. Rules and configuration are shared. What
/// others hold is never changed: a round puts another configuration in place, and is made in place
/// only where nobody else holds the configuration.
#[derive(Drop)]
pub struct Job {
    name: JobName,
    rules: Arc<FlatRules>,
    config: Arc<Flat>,
    rounds: u64,
    state: State,
    budget: Option<Budget>,
}

impl Model for Job {
    ghost use Rattle.std.specs.Arc.{arc_value};
    ghost use Rattle.ic_jobs.specs.Job.{JobParts, IsJob};
    ghost use Rattle.ic_jobs.specs.lemmas.Codings.{coded_job};

    ghost Value = { JobParts };

    ghost coded = { coded_job };

    ghost view = { λ j. record {
      name = j.name;
      rules = arc_value j.rules;
      config = arc_value j.config;
      rounds = j.rounds;
      state = j.state;
      budget = j.budget;
    } };

    ghost invariant = { λ j. IsJob (record {
      name = j.name;
      rules = arc_value j.rules;
      config = arc_value j.config;
      rounds = j.rounds;
      state = j.state;
      budget = j.budget;
    }) };
}

impl Job {
    ghost use Rattle.std.specs.Prelude.{◌↔◌, ◌<◌, IsTrue, IsSome, IfSome, None, false, length};
    ghost use Rattle.ic_term.specs.Symbol.{is_over};
    ghost use Rattle.ic_rules.specs.RuleSet.{AreServed};
    ghost use Rattle.ic_round.specs.Quiet.{is_quiet};
    ghost use Rattle.ic_round.specs.Rounds.{round};
    ghost use Rattle.ic_jobs.specs.inner.States.{is_finished};
    ghost use Rattle.ic_jobs.specs.Job.{IsJob, begun, system_of, can_move, moved, in_state};
    ghost use Rattle.ic_jobs.specs.Table.{is_named};
    ghost use Rattle.ic_jobs.specs.Landing.{flight_of, agrees};
    ghost use Rattle.ic_jobs.specs.Shown.{shown};

    /// The job of these parts, if they make one. The rules have to be served, the configuration to
    /// be over their symbols, and the rounds at most 2^62 and at most the budget. The state has to
    /// be `Done` exactly where the configuration is quiet, and `Spent` exactly where it isn't and
    /// the rounds are the budget.
    pub fn restore(
        name: JobName,
        rules: Arc<FlatRules>,
        config: Arc<Flat>,
        rounds: u64,
        state: State,
        budget: Option<Budget>,
    ) -> Option<Job>
        ensures job { IsSome result ↔ IsJob (record {
          name = name;
          rules = arc_value rules;
          config = arc_value config;
          rounds = rounds;
          state = state;
          budget = budget;
        }) }
        ensures parts { IfSome result (λ job. job ≡ record {
          name = name;
          rules = arc_value rules;
          config = arc_value config;
          rounds = rounds;
          state = state;
          budget = budget;
        }) }
    {
        // Read for the proof: what the types of the parts keep, the job keeps too.
        let symbols = rules.rules().symbols();
        let (_text, _count, _next) = (name.as_bytes(), symbols.len(), config.next());
        if rounds > MAX_ROUNDS || !is_within(&budget, rounds) || !over(symbols, &config) {
            return None;
        }
        if !rules.rules().are_served() {
            return None;
        }
        if !state.may_be(quiet(rules.rules(), &config), is_used_up(&budget, rounds)) {
            return None;
        }
        Some(Job {
            name,
            rules,
            config,
            rounds,
            state,
            budget,
        })
    }

    /// The job of these parts as it begins.
    fn begun(name: JobName, rules: Arc<FlatRules>, config: Arc<Flat>, budget: Option<Budget>) -> Job
        requires over { IsTrue (is_over (arc_value rules).symbols (arc_value config)) }
        requires served { AreServed (arc_value rules) }
        ensures job { result
            ≡ begun name (record { rules = arc_value rules; config = arc_value config }) budget }
        ensures sound { IsJob result }
    {
        // Read for the proof: what the types of the parts keep, the job keeps too.
        let (_text, _next) = (name.as_bytes(), config.next());
        let _count = rules.rules().symbols().len();
        let _none = is_within(&budget, 0);
        let state = open_state(rules.rules(), &config);
        Job {
            name,
            rules,
            config,
            rounds: 0,
            state,
            budget,
        }
    }

    /// A job as it begins. It shares the rules of the system, and has its configuration.
    pub(crate) fn begin(
        alloc: Global,
        name: JobName,
        system: FlatSystem,
        budget: Option<Budget>,
    ) -> Result<Job, AllocError>
        ensures job { IfOk result (λ job. job ≡ begun name system budget) }
        ensures sound { IfOk result (λ job. IsJob job) }
    {
        let (rules, config) = system.into_parts();
        let rules = FlatRules::new(alloc, rules)?;
        let rules = Arc::new(alloc, rules)?;
        let config = Arc::new(alloc, config)?;
        Ok(Job::begun(name, rules, config, budget))
    }

    /// The job of this name as it begins with the rules and the configuration that this one has,
    /// which it shares, and with no budget.
    pub(crate) fn branch(&self, name: JobName) -> Result<Job, AllocError>
        ensures job { IfOk result (λ job. job ≡ begun name (system_of self.now) None) }
        ensures sound { IfOk result (λ job. IsJob job) }
    {
        let rules = self.rules.clone()?;
        let config = self.config.clone()?;
        Ok(Job::begun(name, rules, config, None))
    }

    pub fn name(&self) -> JobName
        ensures name { result ≡ self.now.name }
        ensures sound { IsJob self.now }
    {
        self.name
    }

    pub fn rules(&self) -> &RuleSet
        ensures rules { result.now ≡ self.now.rules }
        ensures sound { IsJob self.now }
    {
        self.rules.rules()
    }

    pub fn config(&self) -> &Flat
        ensures config { result.now ≡ self.now.config }
        ensures sound { IsJob self.now }
    {
        &self.config
    }

    /// How many rounds the job has made.
    pub fn rounds(&self) -> u64
        ensures rounds { result ≡ self.now.rounds }
        ensures sound { IsJob self.now }
    {
        self.rounds
    }

    pub fn state(&self) -> State
        ensures state { result ≡ self.now.state }
        ensures sound { IsJob self.now }
    {
        self.state
    }

    /// How many rounds the job makes at most, where that is set.
    pub fn budget(&self) -> Option<Budget>
        ensures budget { result ≡ self.now.budget }
        ensures sound { IsJob self.now }
    {
        self.budget
    }

    pub(crate) fn is_named(&self, name: &JobName) -> bool
        ensures named { result ≡ is_named name.now self.now }
        ensures sound { IsJob self.now }
    {
        are_same(name.as_bytes(), self.name.as_bytes())
    }

    /// Whether it has these rules, this whole configuration and these rounds.
    pub(crate) fn agrees(&self, rules: &RuleSet, config: &Flat, rounds: u64) -> bool
        ensures { result ≡ agrees self.now rules.now config.now rounds }
    {
        self.rounds == rounds && *self.config == *config && *self.rules.rules() == *rules
    }

    /// Puts a job that is neither done nor spent into another such state.
    pub(crate) fn put_state(&mut self, state: State)
        requires old { is_finished self.old.state ≡ false }
        requires new { is_finished state ≡ false }
        ensures { self.new ≡ in_state state self.old }
    {
        self.state = state;
    }

    /// Puts the configuration after a round of a job that is neither done nor spent, where it is known
    /// whether that is quiet.
    pub(crate) fn advance(&mut self, after: Arc<Flat>, quiet: bool)
        requires unfinished { is_finished self.old.state ≡ false }
        requires can { IsTrue (can_move self.old) }
        requires round { arc_value after ≡ round self.old.rules.rules self.old.config }
        requires quiet { quiet ≡ is_quiet self.old.rules.rules (arc_value after) }
        ensures { self.new ≡ moved self.old }
    {
        self.rounds += 1;
        self.state = state_after(quiet, self.rounds, &self.budget);
        self.config = after;
    }

    /// Makes a round of a job that is neither done nor spent, in the lists of its own configuration,
    /// if nobody else holds that and the round can be made. Else the job stays as it was.
    pub(crate) fn round_in(&mut self, alloc: Global, workspace: &mut Workspace) -> bool
        requires unfinished { is_finished self.old.state ≡ false }
        ensures moved { IsTrue result → self.new ≡ moved self.old }
        ensures can { IsTrue result → IsTrue (can_move self.old) }
        ensures stays { result ≡ false → self.new ≡ self.old }
    {
        if self.rounds == MAX_ROUNDS {
            return false;
        }
        if !round_alone(alloc, workspace, &self.rules, &mut self.config) {
            return false;
        }
        let quiet_now = quiet(self.rules.rules(), &self.config);
        self.rounds += 1;
        self.state = state_after(quiet_now, self.rounds, &self.budget);
        true
    }

    /// The job as a round that is to be made, the job being at this place. It shares the rules and
    /// the configuration.
    pub(crate) fn flight(&self, place: usize) -> Result<Flight, AllocError>
        ensures { IfOk result (λ flight. flight ≡ flight_of place self.now) }
    {
        Ok(Flight::new(
            place,
            self.name,
            self.rules.clone()?,
            self.config.clone()?,
            self.rounds,
        ))
    }

    /// The job as a reply shows it, which shares the rules and the configuration.
    pub(crate) fn shown(&self) -> Result<ShownJob, AllocError>
        ensures { IfOk result (λ copy. copy ≡ shown self.now) }
    {
        Ok(ShownJob::new(
            self.name,
            self.state,
            self.rounds,
            self.rules.clone()?,
            self.config.clone()?,
        ))
    }

    /// A copy, equal to its source, which shares the rules and the configuration.
    pub fn copy(&self) -> Result<Job, AllocError>
        ensures { IfOk result (λ copy. copy ≡ self.now) }
    {
        Ok(Job {
            name: self.name,
            rules: self.rules.clone()?,
            config: self.config.clone()?,
            rounds: self.rounds,
            state: self.state,
            budget: self.budget,
        })
    }
}

impl PartialEq for Job {
    ghost use Rattle.std.specs.Cmp.{partial_equiv_from_equiv};
    ghost use Rattle.ic_jobs.specs.lemmas.JobLaws.{job_eq-equivalence};
    ghost use Rattle.ic_jobs.specs.Job.{job_eq};

    ghost eq = { job_eq };

    ghost laws = { partial_equiv_from_equiv job_eq-equivalence };

    fn eq(&self, other: &Job) -> bool {
        self.name.as_bytes() == other.name.as_bytes()
            && self.rounds == other.rounds
            && self.state == other.state
            && self.budget == other.budget
            && *self.config == *other.config
            && *self.rules.rules() == *other.rules.rules()
    }
}

impl Eq for Job {
    ghost use Rattle.ic_jobs.specs.lemmas.JobLaws.{job_eq-equivalence};

    ghost laws = { job_eq-equivalence };
}

/// Makes a round of a configuration in its own lists, if nobody else holds it and the round can be
/// made. Else the configuration stays as it was.
fn round_alone(
    alloc: Global,
    workspace: &mut Workspace,
    rules: &FlatRules,
    config: &mut Arc<Flat>,
) -> bool
    requires { IsTrue (is_over rules.now.symbols (arc_value config.old)) }
    ensures fitting { IsTrue result → IsTrue (fits rules.now.rules (arc_value config.old)) }
    ensures round { IsTrue result
        → arc_value config.new ≡ round rules.now.rules (arc_value config.old) }
    ensures stays { result ≡ false → arc_value config.new ≡ arc_value config.old }
{
    let Some(config) = Arc::get_mut(config) else {
        return false;
    };
    workspace.round(alloc, rules, config).is_ok()
}

/// The state of a job as it begins.
fn open_state(rules: &RuleSet, config: &Flat) -> State
    ensures { result ≡ open_state rules.now config.now }
{
    if quiet(rules, config) {
        State::Done
    } else {
        State::Running
    }
}

/// The state of a job after a round: quiet comes before the budget.
fn state_after(quiet: bool, rounds: u64, budget: &Option<Budget>) -> State
    ensures { result ≡ (if quiet then Done
        else (if is_used_up budget.now rounds then Spent else Running)) }
{
    if quiet {
        State::Done
    } else if is_used_up(budget, rounds) {
        State::Spent
    } else {
        State::Running
    }
}

/// Whether these are the same bytes, compared one by one. For names, which are short, this takes fewer instructions than
/// `==` of slices.
#[inline(always)]
fn are_same(left: &[u8], right: &[u8]) -> bool
    ensures { result ≡ bytes_eq left.now right.now }
{
    if left.len() != right.len() {
        return false;
    }
    for i in 0..left.len() {
        if left[i] != right[i] {
            return false;
        }
    }
    true
}

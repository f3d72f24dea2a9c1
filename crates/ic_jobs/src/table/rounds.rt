//! Rounds of a table: which is due, and what lands.

ghost use Rattle.std.specs.Prelude.{◌≡◌, ◌↔◌, IfOk, IfSome, IsTrue, Some, false};
ghost use Rattle.ic_flights.specs.Flight.{is_blocked};
ghost use Rattle.ic_jobs.specs.declared.event.Event.TheVariants.{Round};
ghost use Rattle.ic_jobs.specs.declared.reply.Reply.TheVariants as reply;
ghost use Rattle.ic_jobs.specs.declared.landed.Landed.TheVariants.{Moved, Stale};
ghost use Rattle.ic_jobs.specs.Events.{apply, outcome};
ghost use Rattle.ic_jobs.specs.Landing.{due, due_name, Awaits, RunsNamed};

use super::Table;
use super::places::{awaited_place, due_place, place_of};
use crate::landed::Landed;
use crate::state::State;
use ic_flat::Flat;
use ic_flat_round::Workspace;
use ic_flights::{Flight, Played};
use ic_rules::{JobName, RuleSet};
use std::alloc::{AllocError, Global};

impl Table {
    /// The first running job at this place or after it, or else the first running job, to be
    /// played. None where no job runs. Rules and configuration are shared, nothing is copied.
    pub fn due(&self, after: usize) -> Result<Option<Flight>, AllocError>
        ensures { IfOk result (λ flight. flight ≡ due self.now after) }
    {
        let Some(place) = due_place(&self.jobs, after) else {
            return Ok(None);
        };
        let flight = self.jobs[place].flight(place)?;
        Ok(Some(flight))
    }

    /// The place and the name of the job whose round is due. Nothing is shared.
    pub fn due_name(&self, after: usize) -> Option<(usize, JobName)>
        ensures due { result ≡ due_name self.now after }
        ensures runs { IfSome result (λ due. RunsNamed self.now due.1) }
    {
        let Some(place) = due_place(&self.jobs, after) else {
            return None;
        };
        Some((place, self.jobs[place].name()))
    }

    /// Whether a running job of this name has these rules, this whole configuration and these
    /// rounds.
    pub fn awaits(&self, name: JobName, rules: &RuleSet, config: &Flat, rounds: u64) -> bool
        ensures { IsTrue result ↔ Awaits self.now name rules.now config.now rounds }
    {
        awaited_place(&self.jobs, name, rules, config, rounds).is_some()
    }

    /// Puts a round that was made, if its job is still as it was before the round; else the round
    /// is stale. It never answers that memory ran out.
    pub fn land(&mut self, played: Played) -> Landed
        ensures event { result ≡ Moved
            → apply self.old (Round played.name) ≡ Some (outcome self.new reply.Moved) }
        ensures awaited { result ≡ Moved
            → Awaits self.old played.name played.rules played.before played.rounds }
        ensures stale { result ≡ Stale
            → ¬ Awaits self.old played.name played.rules played.before played.rounds }
        ensures unchanged { result ≡ Stale → self.new ≡ self.old }
    {
        let Some(place) = awaited_place(
            &self.jobs,
            played.name(),
            played.rules(),
            played.before(),
            played.rounds(),
        ) else {
            return Landed::Stale;
        };
        let quiet = played.is_quiet();
        let after = played.into_after();
        self.jobs[place].advance(after, quiet);
        self.kept_list = None;
        Landed::Moved
    }

    /// Puts a round that is awaited. Nothing is compared: who has held the table alone since the
    /// flight was taken knows that nothing came between.
    pub fn land_awaited(&mut self, played: Played)
        requires { Awaits self.old played.name played.rules played.before played.rounds }
        ensures { apply self.old (Round played.name) ≡ Some (outcome self.new reply.Moved) }
    {
        let Some(place) = place_of(&self.jobs, played.name()) else {
            return;
        };
        let quiet = played.is_quiet();
        let after = played.into_after();
        self.jobs[place].advance(after, quiet);
        self.kept_list = None;
    }

    /// Makes the round of a running job in the lists of its own configuration, if nobody else holds
    /// that and the round can be made. Else nothing changes: the round is to be made outside.
    pub fn round_awaited(&mut self, alloc: Global, name: JobName, workspace: &mut Workspace) -> bool
        requires { RunsNamed self.old name }
        ensures event { IsTrue result
            → apply self.old (Round name) ≡ Some (outcome self.new reply.Moved) }
        ensures unchanged { result ≡ false → self.new ≡ self.old }
    {
        let Some(place) = place_of(&self.jobs, name) else {
            return false;
        };
        if !self.jobs[place].round_in(alloc, workspace) {
            return false;
        }
        self.kept_list = None;
        true
    }

    /// Halts a job whose round can't be made, if it is still as it was; else the flight is stale.
    /// The job keeps its configuration. It never answers that memory ran out.
    pub fn halt(&mut self, flight: &Flight) -> Landed
        requires { IsTrue (is_blocked flight.now) }
        ensures event { result ≡ Moved
            → apply self.old (Round flight.now.name) ≡ Some (outcome self.new reply.Halted) }
        ensures awaited { result ≡ Moved → Awaits self.old
            flight.now.name flight.now.rules flight.now.config flight.now.rounds }
        ensures stale { result ≡ Stale → ¬ Awaits self.old
            flight.now.name flight.now.rules flight.now.config flight.now.rounds }
        ensures unchanged { result ≡ Stale → self.new ≡ self.old }
    {
        let Some(place) = awaited_place(
            &self.jobs,
            flight.name(),
            flight.rules(),
            flight.config(),
            flight.rounds(),
        ) else {
            return Landed::Stale;
        };
        self.jobs[place].put_state(State::Halted);
        self.kept_list = None;
        Landed::Moved
    }

    /// Halts a job whose round can't be made and is awaited. Nothing is compared.
    pub fn halt_awaited(&mut self, flight: &Flight)
        requires blocked { IsTrue (is_blocked flight.now) }
        requires awaited { Awaits self.old
            flight.now.name flight.now.rules flight.now.config flight.now.rounds }
        ensures { apply self.old (Round flight.now.name) ≡ Some (outcome self.new reply.Halted) }
    {
        let Some(place) = place_of(&self.jobs, flight.name()) else {
            return;
        };
        self.jobs[place].put_state(State::Halted);
        self.kept_list = None;
    }
}

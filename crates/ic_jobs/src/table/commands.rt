//! What a command makes of a table.

ghost use Rattle.std.specs.Prelude.{◌≡◌, IfOk, OnErr, IsTrue, Some, Ok};
ghost use Rattle.ic_jobs.specs.declared.command.Command.TheVariants.{Submit, CopyJob, Pause, Resume, Cancel, Fetch, List as list_jobs};
ghost use Rattle.ic_jobs.specs.declared.event.Event.TheVariants.{Command as by_command};
ghost use Rattle.ic_jobs.specs.Events.{apply, after_command, outcome};
ghost use Rattle.ic_jobs.specs.Memory.{takes_memory};
ghost use Rattle.ic_jobs.specs.Shown.{listed};
ghost use Rattle.ic_jobs.specs.inner.Beginnings.{refusal_to_begin};

use super::Table;
use super::places::place_of;
use crate::budget::Budget;
use crate::command::Command;
use crate::job::Job;
use crate::limits::MAX_JOBS;
use crate::reply::{Refusal, Reply};
use crate::shown::JobList;
use crate::state::State;
use ic_flat::FlatSystem;
use ic_rules::JobName;
use std::alloc::AllocError;

impl Table {
    /// Does what a command asks, and answers it. Pause, resume and cancel never answer that memory
    /// ran out.
    pub fn apply(&mut self, command: Command) -> Result<Reply, AllocError>
        ensures event { IfOk result (λ reply.
            apply self.old (by_command command) ≡ Some (outcome self.new reply)) }
        ensures unchanged { OnErr result (self.new ≡ self.old) }
        ensures memory { OnErr result (IsTrue (takes_memory command)) }
    {
        match command {
            Command::Submit(name, system, budget) => self.submit(name, system, budget),
            Command::CopyJob(old, new) => self.copy_job(old, new),
            Command::Pause(name) => Ok(self.pause(name)),
            Command::Resume(name) => Ok(self.resume(name)),
            Command::Cancel(name) => Ok(self.cancel(name)),
            Command::Fetch(name) => self.fetch(name),
            Command::List => self.list(),
        }
    }

    fn submit(
        &mut self,
        name: JobName,
        system: FlatSystem,
        budget: Option<Budget>,
    ) -> Result<Reply, AllocError>
        ensures event { IfOk result (λ reply.
            outcome self.new reply ≡ after_command self.old (Submit name system budget)) }
        ensures unchanged { OnErr result (self.new ≡ self.old) }
    {
        if let Some(refusal) = self.refuses(name) {
            return Ok(Reply::Refused(refusal));
        }
        let job = Job::begin(*self.jobs.allocator(), name, system, budget)?;
        self.kept_list = None;
        self.jobs.push(job)?;
        Ok(Reply::Accepted)
    }

    fn copy_job(&mut self, old: JobName, new: JobName) -> Result<Reply, AllocError>
        ensures event { IfOk result (λ reply.
            outcome self.new reply ≡ after_command self.old (CopyJob old new)) }
        ensures unchanged { OnErr result (self.new ≡ self.old) }
    {
        let Some(place) = place_of(&self.jobs, old) else {
            return Ok(Reply::Refused(Refusal::NoJob));
        };
        if let Some(refusal) = self.refuses(new) {
            return Ok(Reply::Refused(refusal));
        }
        let job = self.jobs[place].branch(new)?;
        self.kept_list = None;
        self.jobs.push(job)?;
        Ok(Reply::Accepted)
    }

    /// Why no job of this name can begin, where that is so.
    fn refuses(&self, name: JobName) -> Option<Refusal>
        ensures { result ≡ refusal_to_begin name self.now }
    {
        if place_of(&self.jobs, name).is_some() {
            return Some(Refusal::Taken);
        }
        if self.jobs.len() >= MAX_JOBS {
            return Some(Refusal::Full);
        }
        None
    }

    fn pause(&mut self, name: JobName) -> Reply
        ensures { outcome self.new result ≡ after_command self.old (Pause name) }
    {
        let Some(place) = place_of(&self.jobs, name) else {
            return Reply::Refused(Refusal::NoJob);
        };
        if !self.jobs[place].state().is_running() {
            return Reply::Refused(Refusal::NotRunning);
        }
        self.jobs[place].put_state(State::Paused);
        self.kept_list = None;
        Reply::Okay
    }

    fn resume(&mut self, name: JobName) -> Reply
        ensures { outcome self.new result ≡ after_command self.old (Resume name) }
    {
        let Some(place) = place_of(&self.jobs, name) else {
            return Reply::Refused(Refusal::NoJob);
        };
        if !self.jobs[place].state().is_paused() {
            return Reply::Refused(Refusal::NotPaused);
        }
        self.jobs[place].put_state(State::Running);
        self.kept_list = None;
        Reply::Okay
    }

    fn cancel(&mut self, name: JobName) -> Reply
        ensures { outcome self.new result ≡ after_command self.old (Cancel name) }
    {
        let Some(place) = place_of(&self.jobs, name) else {
            return Reply::Refused(Refusal::NoJob);
        };
        let _job = self.jobs.remove(place);
        self.kept_list = None;
        Reply::Okay
    }

    fn fetch(&self, name: JobName) -> Result<Reply, AllocError>
        ensures { IfOk result (λ reply.
            outcome self.now reply ≡ after_command self.now (Fetch name)) }
    {
        let Some(place) = place_of(&self.jobs, name) else {
            return Ok(Reply::Refused(Refusal::NoJob));
        };
        let shown = self.jobs[place].shown()?;
        Ok(Reply::Shown(shown))
    }

    /// The list of the jobs, which is made once and shared until a job changes.
    fn list(&mut self) -> Result<Reply, AllocError>
        ensures event { IfOk result (λ reply.
            outcome self.new reply ≡ after_command self.old list_jobs) }
        ensures unchanged { OnErr result (self.new ≡ self.old) }
    {
        let list = match &self.kept_list {
            Some(list) => list.copy()?,
            None => self.lines()?,
        };
        self.kept_list = Some(list.copy()?);
        Ok(Reply::Listed(list))
    }

    fn lines(&self) -> Result<JobList, AllocError>
        ensures { IfOk result (λ list. list ≡ listed self.now) }
    {
        let alloc = *self.jobs.allocator();
        let mut lines = Vec::with_capacity(alloc, self.jobs.len())?;
        for job in &self.jobs {
            lines.push((job.name(), job.state(), job.rounds()))?;
        }
        JobList::new(alloc, lines)
    }
}

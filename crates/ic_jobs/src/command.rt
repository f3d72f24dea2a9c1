//! Commands: what a client asks of a job table.

ghost use Rattle.std.specs.Prelude.{◌≡◌, IfOk, OnErr, IsTrue};
ghost use Rattle.ic_rules.specs.JobName.{is_job_name};
ghost use Rattle.ic_jobs.specs.Commands.{IsSubmit};

use crate::budget::{Budget, is_within};
use ic_flat::FlatSystem;
use ic_rules::JobName;
use std::alloc::{AllocError, Global};

/// What a client asks of a job table.
#[derive(Drop)]
pub enum Command {
    /// A new job of this name, with this system, which makes at most as many rounds as its budget
    /// says.
    Submit(JobName, FlatSystem, Option<Budget>),
    /// A new job of the second name, which begins with the rules and the configuration that the job
    /// of the first name has, and with no budget.
    CopyJob(JobName, JobName),
    Pause(JobName),
    Resume(JobName),
    /// Removes a job in any state.
    Cancel(JobName),
    Fetch(JobName),
    List,
}

impl Command {
    ghost use Rattle.ic_jobs.specs.Memory.{is_submit};
    ghost use Rattle.ic_jobs.specs.Commands.{IsEvent};
    ghost use Rattle.ic_jobs.specs.declared.event.Event.TheVariants.{Command as by_command};

    /// A copy, equal to its source. Only a submit's takes memory.
    pub fn copy(&self, alloc: Global) -> Result<Command, AllocError>
        ensures copy { IfOk result (λ copy. copy ≡ self.now) }
        ensures memory { OnErr result (IsTrue (is_submit self.now)) }
        ensures sound { IsEvent (by_command self.now) }
    {
        match self {
            Command::Submit(name, system, budget) => {
                keeps_submit(name, system, budget);
                Ok(Command::Submit(*name, system.copy(alloc)?, *budget))
            }
            Command::CopyJob(old, new) => {
                keeps_name(new);
                Ok(Command::CopyJob(*old, *new))
            }
            Command::Pause(name) => Ok(Command::Pause(*name)),
            Command::Resume(name) => Ok(Command::Resume(*name)),
            Command::Cancel(name) => Ok(Command::Cancel(*name)),
            Command::Fetch(name) => Ok(Command::Fetch(*name)),
            Command::List => Ok(Command::List),
        }
    }
}

/// A copy of a job keeps what the type of the new name keeps.
fn keeps_name(name: &JobName)
    ensures { IsTrue (is_job_name name.now) }
{
    // Read for the proof: what the type keeps is known once the text was read.
    let _text = name.as_bytes();
}

/// A submit keeps what the types of its parts keep.
fn keeps_submit(name: &JobName, system: &FlatSystem, budget: &Option<Budget>)
    ensures { IsSubmit name.now system.now budget.now }
{
    // Read for the proof: what each type keeps is known once a part of it was read.
    let (rules, config) = (system.rules(), system.config());
    let (_text, _count, _next) = (name.as_bytes(), rules.symbols().len(), config.next());
    let _none = is_within(budget, 0);
}

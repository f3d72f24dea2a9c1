//! Which of several faults is told.

ghost use Rattle.std.specs.Prelude.{◌≡◌, slice_get};
ghost use Rattle.std.specs.List.{filter_map};
ghost use Rattle.ic_scripts.specs.Telling.{IsFirstOf, client_fault, faults_of, runner_fault};

use crate::fault::ScriptsFault;
use ic_attend::{ClientRun, RunnerEnd};
use ic_book::BookFault;

/// Whether the clients, the runners and the keep after them ended well, or the first fault: that of
/// the first client that stopped, else of the first runner that ended by one, else of the keep.
pub fn outcome(
    runs: &[ClientRun],
    ends: &[RunnerEnd],
    kept: Result<(), BookFault>,
) -> Result<(), ScriptsFault>
    ensures { IsFirstOf (faults_of runs.now ends.now kept) result }
{
    if let Some(fault) = first_client(runs) {
        return Err(fault);
    }
    if let Some(fault) = first_runner(ends) {
        return Err(fault);
    }
    match kept {
        Ok(()) => Ok(()),
        Err(fault) => Err(ScriptsFault::Book(fault)),
    }
}

/// Why the first client that stopped did.
fn first_client(runs: &[ClientRun]) -> Option<ScriptsFault>
    ensures { result ≡ slice_get (filter_map client_fault runs.now) 0 }
{
    for run in runs {
        if let Some(fault) = run.end {
            return Some(ScriptsFault::Book(fault));
        }
    }
    None
}

/// The fault of the first runner that ended by one.
fn first_runner(ends: &[RunnerEnd]) -> Option<ScriptsFault>
    ensures { result ≡ slice_get (filter_map runner_fault ends.now) 0 }
{
    for end in ends {
        if let Some(fault) = runner_fault(end) {
            return Some(fault);
        }
    }
    None
}

/// The fault by which a runner ended, if it did.
fn runner_fault(end: &RunnerEnd) -> Option<ScriptsFault>
    ensures { result ≡ runner_fault end.now }
{
    match end {
        RunnerEnd::Idle | RunnerEnd::Turns(_) => None,
        RunnerEnd::Book(fault) => Some(ScriptsFault::Book(*fault)),
        RunnerEnd::Pool(fault) => Some(ScriptsFault::Pool(*fault)),
    }
}

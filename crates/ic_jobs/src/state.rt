//! The states of a job.

/// The state of a job.
#[derive(Clone, Copy, Debug, PartialEq, Eq)]
pub enum State {
    /// It makes a round when it is due.
    Running,
    /// It waits until it is resumed.
    Paused,
    /// Its configuration is quiet.
    Done,
    /// Its next round passes a limit.
    Halted,
    /// It has made all rounds of its budget, and its configuration isn't quiet.
    Spent,
}

impl State {
    ghost use Rattle.std.specs.Prelude.{◌≡◌};
    ghost use Rattle.ic_jobs.specs.State.{is_running, is_paused};
    ghost use Rattle.ic_jobs.specs.inner.States.{is_finished, may_be};

    pub(crate) fn is_running(self) -> bool
        ensures { result ≡ is_running self }
    {
        matches!(self, State::Running)
    }

    pub(crate) fn is_paused(self) -> bool
        ensures { result ≡ is_paused self }
    {
        matches!(self, State::Paused)
    }

    fn is_finished(self) -> bool
        ensures { result ≡ is_finished self }
    {
        matches!(self, State::Done | State::Spent)
    }

    /// Whether a job may be in this state that is quiet or not, and has used up its budget or not.
    pub(crate) fn may_be(self, quiet: bool, used_up: bool) -> bool
        ensures { result ≡ may_be self quiet used_up }
    {
        if quiet {
            matches!(self, State::Done)
        } else if used_up {
            matches!(self, State::Spent)
        } else {
            !self.is_finished()
        }
    }
}

//! What the threads hand over, gathered.

ghost use Rattle.std.specs.Prelude.{◌≡◌, ◌+◌, ◌<◌, ◌++◌, ◌∷◌, ◌&&◌, [], not, is_some, length, IfOk, vec_len, vec_capacity};
ghost use Rattle.std.specs.Option.{unwrap_or};
ghost use Rattle.ic_attend.specs.declared.attended.RunnerEnd.TheVariants.{Idle};
ghost use Rattle.ic_attend.specs.inner.Gathering.{IsReady};

use crate::attended::{ClientRun, RunnerEnd};
use crate::client::Speech;
use std::alloc::{AllocError, Global};

/// What the threads hand over. Its room is made before any thread is started.
#[derive(Drop)]
pub(crate) struct Gathered {
    pub answers: Vec<ClientRun>,
    pub ends: Vec<RunnerEnd>,
    /// Each thread was started, and no client was told to stop.
    pub complete: bool,
}

impl Gathered {
    /// Nothing yet, with room for so many clients and runners.
    pub(crate) fn with_room(
        alloc: Global,
        clients: usize,
        runners: usize,
    ) -> Result<Gathered, AllocError>
        ensures { IfOk result (λ gathered. IsReady clients runners gathered) }
    {
        Ok(Gathered {
            answers: Vec::with_capacity(alloc, clients)?,
            ends: Vec::with_capacity(alloc, runners)?,
            complete: true,
        })
    }

    /// Appends what a client was answered.
    pub(crate) fn add_speech(&mut self, speech: Speech)
        requires { vec_len self.old.answers < vec_capacity self.old.answers }
        ensures answers { self.new.answers.items ≡ self.old.answers.items ++ speech.run ∷ [] }
        ensures len { vec_len self.new.answers ≡ vec_len self.old.answers + 1 }
        ensures room { vec_capacity self.new.answers ≡ vec_capacity self.old.answers }
        ensures ends { self.new.ends ≡ self.old.ends }
        ensures complete { self.new.complete ≡ (self.old.complete && not speech.stopped) }
    {
        self.complete = self.complete && !speech.stopped;
        self.answers.push_reserved(speech.run);
    }

    /// Appends how a runner ended; none where its thread wasn't started.
    pub(crate) fn add_end(&mut self, end: Option<RunnerEnd>)
        requires { vec_len self.old.ends < vec_capacity self.old.ends }
        ensures ends { self.new.ends.items ≡ self.old.ends.items ++ unwrap_or end Idle ∷ [] }
        ensures len { vec_len self.new.ends ≡ vec_len self.old.ends + 1 }
        ensures count { length self.new.ends.items ≡ length self.old.ends.items + 1 }
        ensures room { vec_capacity self.new.ends ≡ vec_capacity self.old.ends }
        ensures answers { self.new.answers ≡ self.old.answers }
        ensures complete { self.new.complete ≡ (self.old.complete && is_some end) }
    {
        self.complete = self.complete && end.is_some();
        self.ends.push_reserved(end.unwrap_or(RunnerEnd::Idle));
    }
}

//! The history compared with what the threads gathered, exactly. It takes no memory.

ghost use Rattle.std.specs.Prelude.{◌≡◌, ◌↔◌, Some, IsTrue, IsSomeAnd, map, slice_get};
ghost use Rattle.std.specs.List.{All};
ghost use Rattle.ic_jobs.specs.declared.event.Event.TheVariants.{Command as by_command};
ghost use Rattle.ic_book.specs.declared.fault.BookFault.TheVariants.{Device as by_device};
ghost use Rattle.ic_book.specs.Book.{start_of};
ghost use Rattle.ic_book.specs.Entries.{is_round};
ghost use Rattle.ic_attend.specs.inner.Lasts.{MayBeLast};
ghost use Rattle.ic_attend.specs.declared.attended.ClientRun.{ClientRun as Run};
ghost use Rattle.ic_attend.specs.Parts.{part, AreOfClients};
ghost use Rattle.ic_attend.specs.Clients.{AreParts, FailureStandsLast, FailuresStandLast, MayStandAfter, StandsLast};
ghost use Rattle.ic_attend.specs.Runners.{NoneRuns, rounds_among, EndHolds};
ghost use Rattle.ic_attend.specs.OneHistory.{Agrees};
ghost use Rattle.ic_attend.specs.Ends.{EndsTell};

use crate::attended::{Attended, ClientRun, RunnerEnd};
use crate::same::{same_command, same_reply};
use ic_book::BookFault;
use ic_disk::Disk;
use ic_jobs::{Command, Entry, Event, Job, Reply, State, Table};

impl<D: Disk> Attended<D> {
    /// Whether the book bears out what the threads gathered.
    pub(crate) fn is_borne_out(&self, opening: &Table, turns: usize, workers: usize) -> bool
        ensures { IsTrue result ↔ (Agrees opening.now turns self.now × EndsTell workers self.now) }
    {
        self.agrees(opening, turns) && self.ends_tell(workers)
    }

    /// Whether the book began with this table.
    pub(crate) fn began_with(&self, opening: &Table) -> bool
        ensures { IsTrue result ↔ (start_of self.now.book ≡ opening.now) }
    {
        ic_jobs::laws::equality_is_exact();
        *self.book.start() == *opening
    }

    /// Whether the book's history goes on from this table and tells of these clients and runners.
    fn agrees(&self, opening: &Table, turns: usize) -> bool
        ensures { IsTrue result ↔ Agrees opening.now turns self.now }
    {
        self.book.facts();
        let log = self.book.log();
        let (kept, unkept) = log.split_at(self.book.kept());
        let answers = self.answers.as_slice();
        let ends = self.ends.as_slice();
        self.began_with(opening)
            && are_of_clients(log, answers.len())
            && are_parts(kept, answers)
            && may_stand_after(unkept, answers)
            && failures_stand_last(unkept, answers)
            && ends_hold(ends, turns, self.book.table().jobs(), log)
    }
}

fn is_round(event: &Event) -> bool
    ensures { result ≡ is_round event.now }
{
    matches!(event, Event::Round(_))
}

/// Whether each entry is a round, or a command of one of so many clients.
fn are_of_clients(entries: &[Entry], clients: usize) -> bool
    ensures { IsTrue result ↔ AreOfClients clients entries.now }
{
    for entry in entries {
        if !is_round(&entry.event) && entry.who >= clients as u64 {
            return false;
        }
    }
    true
}

/// Whether the answers of each client are its part of these entries.
fn are_parts(entries: &[Entry], runs: &[ClientRun]) -> bool
    ensures { IsTrue result ↔ AreParts entries.now runs.now }
{
    for who in 0..runs.len() {
        if !is_part(entries, who as u64, runs[who].answers.as_slice()) {
            return false;
        }
    }
    true
}

/// Whether these answers are a client's part of these entries.
fn is_part(entries: &[Entry], who: u64, answers: &[(Command, Reply)]) -> bool
    ensures { IsTrue result ↔ (answers.now ≡ part who entries.now) }
{
    let mut given = 0;
    for entry in entries {
        if entry.who == who && !is_round(&entry.event) {
            if given >= answers.len() || !is_answer(entry, &answers[given]) {
                return false;
            }
            given += 1;
        }
    }
    given == answers.len()
}

/// Whether an entry is a command that was answered so.
fn is_answer(entry: &Entry, answer: &(Command, Reply)) -> bool
    ensures { IsTrue result ↔ ((entry.now.event ≡ by_command answer.now.0)
        × (entry.now.reply ≡ answer.now.1)) }
{
    match &entry.event {
        Event::Command(command) => {
            same_command(command, &answer.0) && same_reply(&entry.reply, &answer.1)
        }
        Event::Round(_) => false,
    }
}

/// Whether these entries are rounds, or rounds and one last command at which a failing disk has ended
/// its client.
fn may_stand_after(entries: &[Entry], runs: &[ClientRun]) -> bool
    ensures { IsTrue result ↔ MayStandAfter runs.now entries.now }
{
    match entries.split_last() {
        None => true,
        Some((last, front)) => are_rounds(front) && may_be_last(last, runs),
    }
}

/// Whether an entry is a round, or the command at which a failing disk has ended its client.
fn may_be_last(entry: &Entry, runs: &[ClientRun]) -> bool
    ensures { IsTrue result ↔ MayBeLast runs.now entry.now }
{
    is_round(&entry.event) || has_failed(runs, entry.who, &entry.event)
}

/// Whether each of these entries is a round.
fn are_rounds(entries: &[Entry]) -> bool
    ensures { IsTrue result ↔ All (λ e. IsTrue (is_round e.event)) entries.now }
{
    for entry in entries {
        if !is_round(&entry.event) {
            return false;
        }
    }
    true
}

/// Whether a failing disk has ended this client at this command.
fn has_failed(runs: &[ClientRun], who: u64, event: &Event) -> bool
    ensures { IsTrue result ↔ ((run : Run) × (slice_get runs.now who ≡ Some run)
        × (run.end ≡ Some by_device)
        × IsSomeAnd run.refused (λ c. event.now ≡ by_command c)) }
{
    match runs.get(who as usize) {
        Some(run) => ended_at(run, event),
        None => false,
    }
}

/// Whether a failing disk has ended this client at this command.
fn ended_at(run: &ClientRun, event: &Event) -> bool
    ensures { IsTrue result ↔ ((run.now.end ≡ Some by_device)
        × IsSomeAnd run.now.refused (λ c. event.now ≡ by_command c)) }
{
    is_device(run.end) && is_refused(&run.refused, event)
}

/// Whether each client that a failing disk has ended is the one whose command stands last.
fn failures_stand_last(entries: &[Entry], runs: &[ClientRun]) -> bool
    ensures { IsTrue result ↔ FailuresStandLast runs.now entries.now }
{
    for who in 0..runs.len() {
        if !failure_stands_last(entries, who as u64, &runs[who]) {
            return false;
        }
    }
    true
}

/// Whether this client's command stands last, if a failing disk has ended it.
fn failure_stands_last(entries: &[Entry], who: u64, run: &ClientRun) -> bool
    ensures { IsTrue result ↔ FailureStandsLast entries.now who run.now }
{
    !is_device(run.end) || stands_last(entries, who, run)
}

/// Whether the command that this client was refused stands last among these entries.
fn stands_last(entries: &[Entry], who: u64, run: &ClientRun) -> bool
    ensures { IsTrue result ↔ StandsLast entries.now who run.now }
{
    match entries.split_last() {
        None => false,
        Some((last, _)) => last.who == who && is_refused(&run.refused, &last.event),
    }
}

/// Whether an event is the command that was refused.
fn is_refused(refused: &Option<Command>, event: &Event) -> bool
    ensures { IsTrue result ↔ IsSomeAnd refused.now (λ c. event.now ≡ by_command c) }
{
    match refused {
        Some(command) => is_command(event, command),
        None => false,
    }
}

/// Whether an event is this command.
fn is_command(event: &Event, asked: &Command) -> bool
    ensures { IsTrue result ↔ (event.now ≡ by_command asked.now) }
{
    match event {
        Event::Command(command) => same_command(command, asked),
        Event::Round(_) => false,
    }
}

/// Whether a client was ended by a failing disk.
fn is_device(end: Option<BookFault>) -> bool
    ensures { IsTrue result ↔ (end ≡ Some by_device) }
{
    match end {
        Some(fault) => fault == BookFault::Device,
        None => false,
    }
}

/// Whether each runner's end is as the jobs and the entries have it.
fn ends_hold(ends: &[RunnerEnd], turns: usize, jobs: &[Job], entries: &[Entry]) -> bool
    ensures { IsTrue result ↔ All (EndHolds turns jobs.now entries.now) ends.now }
{
    for end in ends {
        if !end_holds(*end, turns, jobs, entries) {
            return false;
        }
    }
    true
}

/// Whether a runner's end is as the jobs and the entries have it.
fn end_holds(end: RunnerEnd, turns: usize, jobs: &[Job], entries: &[Entry]) -> bool
    ensures { IsTrue result ↔ EndHolds turns jobs.now entries.now end }
{
    match end {
        RunnerEnd::Idle => none_runs(jobs),
        RunnerEnd::Turns(taken) => taken == turns && taken <= count_rounds(entries),
        RunnerEnd::Book(_) | RunnerEnd::Pool(_) => true,
    }
}

/// Whether no job runs.
fn none_runs(jobs: &[Job]) -> bool
    ensures { IsTrue result ↔ NoneRuns jobs.now }
{
    for job in jobs {
        if matches!(job.state(), State::Running) {
            return false;
        }
    }
    true
}

/// How many rounds stand among these entries.
fn count_rounds(entries: &[Entry]) -> usize
    ensures { result ≡ rounds_among entries.now }
{
    let mut rounds = 0;
    for entry in entries {
        if is_round(&entry.event) {
            rounds += 1;
        }
    }
    rounds
}

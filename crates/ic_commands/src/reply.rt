//! Printing the line that answers a command.

ghost use Rattle.std.specs.Prelude.{◌≡◌, ◌++◌, [], ◌∷◌, IfOk, OnOk, codes};
ghost use Rattle.std.specs.Fmt.{decimal};
ghost use Rattle.std.specs.List.{flat_map};
ghost use Rattle.ic_commands.specs.ReplyText.{state_text, refusal_text, shown_text, listed_text, reply_text};

use ic_jobs::{JobList, Refusal, Reply, ShownJob, State};
use ic_rules::JobName;
use ic_text::{put_decimal, put_flat};
use std::alloc::{AllocError, Global};

/// How many bytes are reserved for a line of jobs: for the list of a full table with names of up to 16 bytes.
const ROOM: usize = 1_024;

/// The word of a state between spaces.
fn shown_state(state: State) -> &'static [u8]
    ensures { result.now ≡ 32 ∷ (state_text state ++ 32 ∷ []) }
{
    match state {
        State::Running => b" running ",
        State::Paused => b" paused ",
        State::Done => b" done ",
        State::Halted => b" halted ",
        State::Spent => b" spent ",
    }
}

/// The word of a state between colons.
fn listed_state(state: State) -> &'static [u8]
    ensures { result.now ≡ 58 ∷ (state_text state ++ 58 ∷ []) }
{
    match state {
        State::Running => b":running:",
        State::Paused => b":paused:",
        State::Done => b":done:",
        State::Halted => b":halted:",
        State::Spent => b":spent:",
    }
}

/// Appends a job's name, its state with a byte on each side, and its rounds.
#[inline(always)]
fn put_job(out: &mut Vec<u8>, name: JobName, state: &[u8], rounds: u64) -> Result<(), AllocError>
    ensures { OnOk result
        (out.new.items ≡ out.old.items ++ (name ++ (state.now ++ decimal rounds))) }
{
    out.extend_from_slice(name.as_bytes())?;
    out.extend_from_slice(state)?;
    put_decimal(rounds, out)
}

/// The line of a job that was fetched.
fn print_shown(alloc: Global, job: &ShownJob) -> Result<Vec<u8>, AllocError>
    ensures { IfOk result (λ text. text.items ≡ shown_text job.now) }
{
    let mut out = Vec::with_capacity(alloc, ROOM)?;
    put_job(&mut out, job.name(), shown_state(job.state()), job.rounds())?;
    out.push(b' ')?;
    put_flat(alloc, job.rules().symbols(), job.config(), &mut out)?;
    Ok(out)
}

/// The line of all jobs.
fn print_list(alloc: Global, jobs: &JobList) -> Result<Vec<u8>, AllocError>
    ensures { IfOk result (λ text. text.items ≡ codes "jobs" ++ flat_map listed_text jobs.now) }
{
    let mut out = Vec::with_capacity(alloc, ROOM)?;
    out.extend_from_slice(b"jobs")?;
    for (name, state, rounds) in jobs.as_slice() {
        out.push(b' ')?;
        put_job(&mut out, *name, listed_state(*state), *rounds)?;
    }
    Ok(out)
}

/// The line of a command that was refused.
fn print_refusal(alloc: Global, refusal: Refusal) -> Result<Vec<u8>, AllocError>
    ensures { IfOk result (λ text. text.items ≡ codes "refused " ++ refusal_text refusal) }
{
    match refusal {
        Refusal::Taken => Vec::from_slice(alloc, b"refused taken"),
        Refusal::Full => Vec::from_slice(alloc, b"refused full"),
        Refusal::NoJob => Vec::from_slice(alloc, b"refused nojob"),
        Refusal::NotRunning => Vec::from_slice(alloc, b"refused notrunning"),
        Refusal::NotPaused => Vec::from_slice(alloc, b"refused notpaused"),
    }
}

/// The line that answers, without its end.
pub fn print_reply(alloc: Global, reply: &Reply) -> Result<Vec<u8>, AllocError>
    ensures { IfOk result (λ text. text.items ≡ reply_text reply.now) }
{
    match reply {
        Reply::Accepted => Vec::from_slice(alloc, b"accepted"),
        Reply::Okay => Vec::from_slice(alloc, b"ok"),
        Reply::Shown(job) => print_shown(alloc, job),
        Reply::Listed(jobs) => print_list(alloc, jobs),
        Reply::Refused(refusal) => print_refusal(alloc, *refusal),
        Reply::Moved => Vec::from_slice(alloc, b"moved"),
        Reply::Halted => Vec::from_slice(alloc, b"halted"),
    }
}

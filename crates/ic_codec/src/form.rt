//! What one form says otherwise than another: its letters and its length, the bytes of states, and
//! what stands before the symbols of a job.

ghost use Rattle.std.specs.Prelude.{◌≡◌, ◌≢◌, ◌<◌, ◌∷◌, ◌++◌, ℕ, List, [], IfOk, IfErr, IfSome, IsNone, IsTrue};
ghost use Rattle.ic_rules.specs.JobName.{is_job_name};
ghost use Rattle.ic_jobs.specs.State.{state_number};
ghost use Rattle.ic_codec.specs.Form.{form_head, budget_number, budget_bytes, heading_bytes, heading_of};
ghost use Rattle.ic_codec.specs.inner.Room.{Fits, Appended};
ghost use Rattle.ic_codec.specs.inner.Forms.{HasBudgetBytes, HasHeadingBytes};
ghost use Rattle.ic_codec.specs.Texts.{text_bytes};
ghost use Rattle.ic_codec.specs.inner.Fronts.{BeginsWith, BeginsWithNone};
ghost use Rattle.ic_jobs.specs.declared.state.State.{State};
ghost use Rattle.ic_codec.specs.declared.form.Form.TheVariants.{Ict1, Ict2};
ghost use Rattle.ic_codec.specs.declared.fault.CodecFault.TheVariants.{NotATable};

use crate::fault::CodecFault;
use crate::fields::{byte_at, eight_bytes_at, put_byte, put_eight_bytes, put_text, text_at};
use ic_jobs::{Budget, Job, State};
use ic_rules::JobName;

/// The length of the longest byte form, in bytes: a bound.
pub const MAX_BYTES: usize = 3_036_677;

/// The forms by the letters that they begin with. `Ict2` is written, and both are read.
#[derive(Clone, Copy)]
pub(crate) enum Form {
    /// The earlier form, in which no job has a budget.
    Ict1,
    Ict2,
}

/// Appends the four letters of the form that is written.
pub(crate) fn put_head(out: &mut Vec<u8>)
    requires { Fits out.old (form_head Ict2) }
    ensures { Appended out.old out.new (form_head Ict2) }
{
    put_byte(b'I', out);
    put_byte(b'C', out);
    put_byte(b'T', out);
    put_byte(b'2', out);
}

/// The form whose four letters these bytes begin with, and the bytes after them.
pub(crate) fn form_at(bytes: &[u8]) -> Result<(Form, &[u8]), CodecFault>
    ensures read { IfOk result (λ r. bytes.now ≡ form_head r.0 ++ r.1.now) }
    ensures no_old { IfErr result (λ fault. fault ≡ NotATable
        → (rest : List ℕ) → bytes.now ≢ form_head Ict1 ++ rest) }
    ensures no_new { IfErr result (λ fault. fault ≡ NotATable
        → (rest : List ℕ) → bytes.now ≢ form_head Ict2 ++ rest) }
{
    match bytes {
        [b'I', b'C', b'T', b'1', rest @ ..] => Ok((Form::Ict1, rest)),
        [b'I', b'C', b'T', b'2', rest @ ..] => Ok((Form::Ict2, rest)),
        _ => Err(CodecFault::NotATable),
    }
}

/// A job's name, state, rounds and budget, and the number from which its fresh names are taken.
#[derive(Clone, Copy)]
pub(crate) struct Heading {
    pub(crate) name: JobName,
    pub(crate) state: State,
    pub(crate) rounds: u64,
    pub(crate) budget: Option<Budget>,
    pub(crate) next: u64,
}

impl Heading {
    pub(crate) fn of(job: &Job) -> Heading
        ensures { result ≡ heading_of job.now }
    {
        Heading {
            name: job.name(),
            state: job.state(),
            rounds: job.rounds(),
            budget: job.budget(),
            next: job.config().next(),
        }
    }
}

/// Appends a heading.
pub(crate) fn put_heading(heading: Heading, out: &mut Vec<u8>)
    requires { Fits out.old (heading_bytes Ict2 heading) }
    ensures { Appended out.old out.new (heading_bytes Ict2 heading) }
{
    put_text(heading.name.as_bytes(), out);
    put_byte(state_byte(heading.state), out);
    put_eight_bytes(heading.rounds, out);
    put_eight_bytes(budget_number(&heading.budget), out);
    put_eight_bytes(heading.next, out);
}

fn state_byte(state: State) -> u8
    ensures { result ≡ state_number state }
{
    match state {
        State::Running => 0,
        State::Paused => 1,
        State::Done => 2,
        State::Halted => 3,
        State::Spent => 4,
    }
}

fn budget_number(budget: &Option<Budget>) -> u64
    ensures { result ≡ budget_number budget.now }
{
    match budget {
        Some(budget) => budget.rounds(),
        None => 0,
    }
}

/// A heading, and the bytes after it.
pub(crate) fn heading_at(form: Form, bytes: &[u8]) -> Result<(Heading, &[u8]), CodecFault>
    ensures read { IfOk result (λ r.
        BeginsWith (HasHeadingBytes form) (heading_bytes form) bytes.now r.0 r.1.now) }
    ensures refused { IfErr result (λ fault. fault ≡ NotATable
        → BeginsWithNone (HasHeadingBytes form) (heading_bytes form) bytes.now) }
{
    let (text, rest) = text_at(bytes)?;
    let name = name_of(text)?;
    let (state, rest) = state_at(rest)?;
    let (rounds, rest) = eight_bytes_at(rest)?;
    let (budget, rest) = match budget_at(form, rest) {
        Ok((budget, rest)) => (budget, rest),
        Err(fault) => return Err(fault),
    };
    let (next, rest) = eight_bytes_at(rest)?;
    let heading = Heading {
        name,
        state,
        rounds,
        budget,
        next,
    };
    Ok((heading, rest))
}

fn name_of(text: &[u8]) -> Result<JobName, CodecFault>
    ensures name { IfOk result (λ name. name ≡ text.now) }
    ensures is { IfOk result (λ name. IsTrue (is_job_name text.now)) }
    ensures refused { IfErr result (λ fault. fault ≡ NotATable → ¬ IsTrue (is_job_name text.now)) }
{
    match JobName::new(text) {
        Some(name) => Ok(name),
        None => Err(CodecFault::NotATable),
    }
}

fn state_at(bytes: &[u8]) -> Result<(State, &[u8]), CodecFault>
    ensures read { IfOk result (λ r. bytes.now ≡ state_number r.0 ∷ r.1.now) }
    ensures refused { IfErr result (λ fault. fault ≡ NotATable
        → (s : State) (rest : List ℕ) → bytes.now ≢ state_number s ∷ rest) }
{
    let (byte, rest) = byte_at(bytes)?;
    match state_of(byte) {
        Some(state) => Ok((state, rest)),
        None => Err(CodecFault::NotATable),
    }
}

fn state_of(byte: u8) -> Option<State>
    ensures state { IfSome result (λ s. byte ≡ state_number s) }
    ensures none { IsNone result → 4 < byte }
{
    match byte {
        0 => Some(State::Running),
        1 => Some(State::Paused),
        2 => Some(State::Done),
        3 => Some(State::Halted),
        4 => Some(State::Spent),
        _ => None,
    }
}

/// A budget or none, where the form has a place for it, and the bytes after it.
fn budget_at(form: Form, bytes: &[u8]) -> Result<(Option<Budget>, &[u8]), CodecFault>
    ensures read { IfOk result (λ r.
        BeginsWith (HasBudgetBytes form) (budget_bytes form) bytes.now r.0 r.1.now) }
    ensures refused { IfErr result (λ fault. fault ≡ NotATable
        → BeginsWithNone (HasBudgetBytes form) (budget_bytes form) bytes.now) }
{
    match form {
        Form::Ict1 => Ok((None, bytes)),
        Form::Ict2 => written_budget_at(bytes),
    }
}

fn written_budget_at(bytes: &[u8]) -> Result<(Option<Budget>, &[u8]), CodecFault>
    ensures read { IfOk result (λ r.
        BeginsWith (HasBudgetBytes Ict2) (budget_bytes Ict2) bytes.now r.0 r.1.now) }
    ensures refused { IfErr result (λ fault. fault ≡ NotATable
        → BeginsWithNone (HasBudgetBytes Ict2) (budget_bytes Ict2) bytes.now) }
{
    let (rounds, rest) = eight_bytes_at(bytes)?;
    if rounds == 0 {
        return Ok((None, rest));
    }
    match Budget::new(rounds) {
        Some(budget) => Ok((Some(budget), rest)),
        None => Err(CodecFault::NotATable),
    }
}

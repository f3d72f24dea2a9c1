//! Reading a command line, word by word; the system of a submit is read as any system.

ghost use Rattle.std.specs.Prelude.{◌≡◌, ◌≢◌, ◌≤◌, ◌↔◌, ◌&&◌, IfOk, IfErr, IfSome, IsSome, IsTrue, Some, Ok, Err, length};
ghost use Rattle.std.specs.Option.{option_map};
ghost use Rattle.ic_rules.specs.JobName.{is_job_name, is_job_word};
ghost use Rattle.ic_commands.specs.LineSource.{is_number, run};
ghost use Rattle.ic_commands.specs.LineSense.{asked, fits_budget, line_sense};
ghost use Rattle.ic_commands.specs.LineText.{ReadsLine, IsSubmitText};
ghost use Rattle.ic_text.specs.Token.{word_of, before, tokens};
ghost use Rattle.ic_commands.specs.declared.line.Opening.TheVariants as opening;
ghost use Rattle.ic_commands.specs.inner.Line.{opening_of, opening_text, number_word, is_number_or_none, IsLineOf, IsSubmitLine, ReadsAfter};
ghost use Rattle.std.specs.Str.{bytes_eq};
ghost use Rattle.ic_text.specs.Name.{number_in};

use crate::limits::MAX_RUN;
use crate::line::{Line, Opening, Verb};
use crate::word::{is_nothing, only_word, split_word};
use ic_jobs::{Budget, Command};
use ic_rules::{JobName, is_job_word};
use ic_text::{MAX_TEXT, TextFault, is_numeral, is_system, number_in, read_flat_system};
use std::alloc::Global;

/// Whether a word is `0`, or digits without a leading zero.
fn is_number(text: &[u8]) -> bool
    ensures { result ≡ is_number text.now }
{
    text == b"0".as_slice() || (!text.is_empty() && is_numeral(text))
}

/// Whether a word is a number, or no word.
fn is_number_or_none(text: &[u8]) -> bool
    ensures { result ≡ is_number_or_none text.now }
{
    text.is_empty() || is_number(text)
}

/// Whether two words are the same. Most differ in length.
#[inline(always)]
fn is_same(word: &[u8], other: &[u8]) -> bool
    ensures { result ≡ bytes_eq word.now other.now }
{
    word.len() == other.len() && word == other
}

/// What the first word of a line asks for.
fn opening_of(word: &[u8]) -> Option<Opening>
    ensures { result ≡ opening_of word.now }
{
    if is_same(word, b"submit") {
        Some(Opening::Submit)
    } else if is_same(word, b"copy") {
        Some(Opening::Copy)
    } else if is_same(word, b"pause") {
        Some(Opening::About(Verb::Pause))
    } else if is_same(word, b"resume") {
        Some(Opening::About(Verb::Resume))
    } else if is_same(word, b"cancel") {
        Some(Opening::About(Verb::Cancel))
    } else if is_same(word, b"fetch") {
        Some(Opening::About(Verb::Fetch))
    } else if is_same(word, b"list") {
        Some(Opening::List)
    } else if is_same(word, b"run") {
        Some(Opening::Run)
    } else {
        None
    }
}

/// What a verb asks of the job of a name.
fn ask(verb: Verb, name: JobName) -> Command
    ensures { result ≡ asked verb name }
{
    match verb {
        Verb::Pause => Command::Pause(name),
        Verb::Resume => Command::Resume(name),
        Verb::Cancel => Command::Cancel(name),
        Verb::Fetch => Command::Fetch(name),
    }
}

/// The budget of a number, if it is one's.
fn budget_of(digits: &[u8]) -> Option<Budget>
    requires { IsTrue (is_number digits.now) }
    ensures fits { IsSome result ↔ IsTrue (fits_budget (Some digits.now)) }
    ensures budget { IfSome result (λ budget. budget ≡ number_in digits.now) }
{
    match number_in(digits) {
        Some(rounds) => Budget::new(rounds),
        None => None,
    }
}

/// A job's name and budget by their words, if they are within the limits. No word is no budget.
fn within_limits(word: &[u8], digits: &[u8]) -> Option<(JobName, Option<Budget>)>
    requires { IsTrue (is_number_or_none digits.now) }
    ensures fits { IsSome result
        ↔ IsTrue (is_job_name word.now && fits_budget (number_word digits.now)) }
    ensures name { IfSome result (λ r. r.0 ≡ word.now) }
    ensures budget { IfSome result (λ r. r.1 ≡ option_map number_in (number_word digits.now)) }
{
    let Some(name) = JobName::new(word) else {
        return None;
    };
    if digits.is_empty() {
        return Some((name, None));
    }
    match budget_of(digits) {
        Some(budget) => Some((name, Some(budget))),
        None => None,
    }
}

/// The line of a `submit` with this after it. A name that is too long, and a number of no budget, are tested where the
/// text after them is a system: such a line makes no value.
fn read_submit(alloc: Global, rest: &[u8]) -> Result<Line, TextFault>
    requires { length rest.now ≤ MAX_TEXT }
    ensures line { result ≢ Err TextFault.Memory → ReadsAfter opening.Submit rest.now result }
    ensures memory { result ≡ Err TextFault.Memory
        → IsSubmitLine (before (word_of (opening_text opening.Submit)) (tokens rest.now)) }
{
    let (word, text) = split_word(rest);
    let (digits, source) = split_word(text);
    if !is_job_word(word) || !is_number_or_none(digits) {
        return Err(TextFault::Syntax);
    }
    let Some((name, budget)) = within_limits(word, digits) else {
        if !is_system(source) {
            return Err(TextFault::Syntax);
        }
        return Err(TextFault::Limit);
    };
    let system = read_flat_system(alloc, source)?;
    Ok(Line::Command(Command::Submit(name, system, budget)))
}

/// Whether both words are names of jobs, of any length.
fn are_job_words(first: &[u8], second: &[u8]) -> bool
    ensures { result ≡ (is_job_word first.now && is_job_word second.now) }
{
    is_job_word(first) && is_job_word(second)
}

/// The names of two jobs by their words, if they are within the limits.
fn names_of(first: &[u8], second: &[u8]) -> Option<(JobName, JobName)>
    ensures named { IsSome result ↔ IsTrue (is_job_name first.now && is_job_name second.now) }
    ensures first { IfSome result (λ r. r.0 ≡ first.now) }
    ensures second { IfSome result (λ r. r.1 ≡ second.now) }
{
    let Some(old) = JobName::new(first) else {
        return None;
    };
    match JobName::new(second) {
        Some(new) => Some((old, new)),
        None => None,
    }
}

/// The line of a `copy` with this after it.
fn read_copy(rest: &[u8]) -> Result<Line, TextFault>
    ensures line { ReadsAfter opening.Copy rest.now result }
    ensures memory { result ≢ Err TextFault.Memory }
{
    let (first, more) = split_word(rest);
    let Some(second) = only_word(more) else {
        return Err(TextFault::Syntax);
    };
    if !are_job_words(first, second) {
        return Err(TextFault::Syntax);
    }
    match names_of(first, second) {
        Some((old, new)) => Ok(Line::Command(Command::CopyJob(old, new))),
        None => Err(TextFault::Limit),
    }
}

/// The line of a verb with this after it.
fn read_about(verb: Verb, rest: &[u8]) -> Result<Line, TextFault>
    ensures line { ReadsAfter (opening.About verb) rest.now result }
    ensures memory { result ≢ Err TextFault.Memory }
{
    let Some(word) = only_word(rest) else {
        return Err(TextFault::Syntax);
    };
    if !is_job_word(word) {
        return Err(TextFault::Syntax);
    }
    match JobName::new(word) {
        Some(name) => Ok(Line::Command(ask(verb, name))),
        None => Err(TextFault::Limit),
    }
}

/// The line of a `list` with this after it.
fn read_list(rest: &[u8]) -> Result<Line, TextFault>
    ensures line { ReadsAfter opening.List rest.now result }
    ensures memory { result ≢ Err TextFault.Memory }
{
    if is_nothing(rest) {
        Ok(Line::Command(Command::List))
    } else {
        Err(TextFault::Syntax)
    }
}

/// The line of a `run` with this number.
fn run_of(word: &[u8]) -> Result<Line, TextFault>
    requires { IsTrue (is_number word.now) }
    ensures line { result ≡ line_sense (run word.now) }
    ensures memory { result ≢ Err TextFault.Memory }
{
    match number_in(word) {
        Some(number) if number <= MAX_RUN => Ok(Line::Run(number)),
        _ => Err(TextFault::Limit),
    }
}

/// The line of a `run` with this after it.
fn read_run(rest: &[u8]) -> Result<Line, TextFault>
    ensures line { ReadsAfter opening.Run rest.now result }
    ensures memory { result ≢ Err TextFault.Memory }
{
    let Some(word) = only_word(rest) else {
        return Err(TextFault::Syntax);
    };
    if !is_number(word) {
        return Err(TextFault::Syntax);
    }
    run_of(word)
}

/// What a line asks that isn't too long.
fn line_of(alloc: Global, text: &[u8]) -> Result<Line, TextFault>
    requires { length text.now ≤ MAX_TEXT }
    ensures line { result ≢ Err TextFault.Memory → IsLineOf (tokens text.now) result }
    ensures memory { result ≡ Err TextFault.Memory → IsSubmitLine (tokens text.now) }
{
    if is_nothing(text) {
        return Ok(Line::Blank);
    }
    let (word, rest) = split_word(text);
    match opening_of(word) {
        Some(Opening::Submit) => read_submit(alloc, rest),
        Some(Opening::Copy) => read_copy(rest),
        Some(Opening::About(verb)) => read_about(verb, rest),
        Some(Opening::List) => read_list(rest),
        Some(Opening::Run) => read_run(rest),
        None => Err(TextFault::Syntax),
    }
}

/// What a command line asks, or the first refusal over the whole line. Its end, if it stands there, is a blank and
/// counts as a byte. The system of a submit is read as `read_flat_system` reads it, and nothing else is given the
/// allocator. Takes n log n steps.
pub fn read_command(alloc: Global, text: &[u8]) -> Result<Line, TextFault>
    ensures read { IfOk result (λ line. ReadsLine text.now (Ok line)) }
    ensures refused { IfErr result
        (λ fault. fault ≢ TextFault.Memory → ReadsLine text.now (Err fault)) }
    ensures memory { result ≡ Err TextFault.Memory → IsSubmitText text.now }
{
    if text.len() > MAX_TEXT {
        return Err(TextFault::Limit);
    }
    line_of(alloc, text)
}

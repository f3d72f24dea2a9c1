//! The words after the program's name.

ghost use Rattle.std.specs.Prelude.{◌≡◌, map, IfOk, Some, string_bytes, true};
ghost use Rattle.clap.specs.Words.{is_simple};
ghost use Rattle.ic_args.specs.Words.{IsAsked, command_line, word_of};
ghost use Rattle.ic_args.specs.declared.table.Word.{Word};

use crate::parser::command;
use crate::rows::Entry;
use crate::table::{KEEP, ONE_FILE, RESUME, SECONDS, Word};
use crate::tips::likest_first;
use crate::values::Values;
use clap::error::{Error, ErrorKind};
use std::alloc::{AllocError, AllocFailed, Global};

/// What the words after the program's name ask for.
#[derive(Drop)]
pub enum Request<'a> {
    /// Show this text: a help, or the version.
    Shown(String),
    /// Do what a word of the program says, with these values.
    Word(Word, Values<'a>),
}

/// Why the words ask for nothing, each with its lasting number.
#[derive(Drop)]
pub enum WordsFault {
    /// 1: the words are refused: what is wrong with them, and the usage.
    Words(String),
    /// 2: a growth was refused.
    Memory,
}

impl WordsFault {
    ghost use Rattle.ic_args.specs.Words.{words_fault_number};

    /// The lasting number of the fault.
    pub fn number(&self) -> u8
        ensures { result ≡ words_fault_number self.now }
    {
        match self {
            WordsFault::Words(_) => 1,
            WordsFault::Memory => 2,
        }
    }
}

impl From<AllocError> for WordsFault {
    ghost use Rattle.ic_args.specs.declared.words.WordsFault.TheVariants.{Memory};

    ghost from_gives = { λ _ e. e ≡ Memory };

    fn from(_error: AllocError) -> WordsFault {
        WordsFault::Memory
    }
}

/// Reads the words after the program's name. Help is asked for by `--help` or `-h`, after a word of the program too, and the
/// version by `--version` or `-V`. The words of the program are those of the table. Where no word stands, the program's help is the refusal.
pub fn read_words<'a>(
    alloc: Global,
    table: &[Entry],
    words: &'a [String],
) -> Result<Request<'a>, WordsFault>
    requires { is_simple (command_line table.now) ≡ true }
    ensures { IfOk result (IsAsked table.now (map string_bytes words.now)) }
{
    match command(alloc, table)?.try_get_matches_from(words) {
        Ok(mut matches) => match matches.remove_subcommand() {
            Some((name, met)) => asked(alloc, table, name, Values { met }),
            None => Err(refusal_of(alloc, "error: no word\n")),
        },
        Err(error) => refused(alloc, &error),
    }
}

/// What the word of this name asks for, with these values.
fn asked<'a>(
    alloc: Global,
    table: &[Entry],
    name: &str,
    values: Values<'a>,
) -> Result<Request<'a>, WordsFault>
    ensures { IfOk result (λ request. (word : Word) × (word_of table.now name.now ≡ Some word)
        × (request ≡ Request.Word word values.entry)) }
{
    if values.is_given(SECONDS.name) && !is_kept(&values) {
        return Err(refusal_of(alloc, NO_KEEP));
    }
    if values.is_given(ONE_FILE.name) && values.text(&RESUME).is_none() {
        return Err(refusal_of(alloc, NO_RESUME));
    }
    match word_named(table, name) {
        Some(word) => Ok(Request::Word(word, values)),
        None => Err(refusal_of(alloc, "error: no such word\n")),
    }
}

/// Whether a reduction is kept.
fn is_kept(values: &Values) -> bool {
    values.text(&KEEP).is_some() || values.text(&RESUME).is_some()
}

/// What is said where `reduce` is told how often to keep what it reaches, and not where.
const NO_KEEP: &str = "\
error: the following required arguments were not provided:
  --keep <F> or --resume <F>

Usage: icserve reduce --keep <F> --seconds <N> [OPTIONS] [FILE]

For more information, try '--help'.
";

/// What is said where `reduce` is told to go on from one file, and doesn't go on.
const NO_RESUME: &str = "\
error: the following required arguments were not provided:
  --resume <F>

Usage: icserve reduce --resume <F> --from-one-file [OPTIONS]

For more information, try '--help'.
";

/// The word of the program with this name, if there is one.
pub fn word_named(table: &[Entry], name: &str) -> Option<Word>
    ensures { result ≡ word_of table.now name.now }
{
    table
        .iter()
        .find(|entry| entry.name == name)
        .map(|entry| entry.word)
}

/// What is answered where the parser takes nothing from words: help or the version that is asked for, or its text.
fn refused<'a>(alloc: Global, error: &Error) -> Result<Request<'a>, WordsFault>
    ensures { IfOk result (λ request. (text : _) × (request ≡ Request.Shown text)) }
{
    match error.kind() {
        ErrorKind::OutOfMemory => Err(WordsFault::Memory),
        ErrorKind::DisplayHelp | ErrorKind::DisplayVersion => {
            Ok(Request::Shown(error.to_string(alloc)?))
        }
        _ => {
            let text = likest_first(alloc, error.to_string(alloc)?.as_str())?;
            Err(refusal_of(alloc, text.as_str()))
        }
    }
}

/// A refusal as it may be shown on a terminal: a byte that is no printable ASCII and no line feed stands there as `?`.
pub(crate) fn refusal_of(alloc: Global, text: &str) -> WordsFault {
    match shown(alloc, text) {
        Ok(text) => WordsFault::Words(text),
        Err(_) => WordsFault::Memory,
    }
}

fn shown(alloc: Global, text: &str) -> Result<String, AllocError> {
    let mut shown = String::new(alloc);
    for byte in text.as_bytes() {
        let is_shown = *byte == b'\n' || (b' '..=b'~').contains(byte);
        shown.push(if is_shown { char::from(*byte) } else { '?' })?;
    }
    Ok(shown)
}

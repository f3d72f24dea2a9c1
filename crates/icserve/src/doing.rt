//! What each word of the program does, with the values that it is given.

mod reduce_word;

use self::reduce_word::reduce;
use crate::input::{self, Input, is_rich_path, open_text, tell_of_plain};
use crate::reducing::{of_memory, threads_for};
use crate::several::refuse_several;
use crate::texts::UsedFiles;
use crate::{
    Clients, DiskAt, Making, attend, batching, checking, create, dumping, inspecting, looking,
    serve_session, show, texts,
};
use ic_args::table::{
    CHECKED, DISK, DRAWN, EVERY, EXPLAIN, FILE, GROUP, HELPERS, KEEP, LIMITS, LINES, MAX_ROUNDS,
    MAX_STEPS, NAMES, NODES, OVERWRITE, PAGE_BYTES, PLAIN, REPORT, RESUME, RICH, RULES_TOO,
    RUNNERS, SCRIPT, SCRIPTS, STRICT, SUMS, TABLE, TAKEN, TOPIC, TRACED, TURNS, WAIT, WORKERS,
    Word, table,
};
use ic_args::{Place, ReportFormat, TextLimits, TraceFormat, Values, WordsFault, help_of};
use ic_causes::{NotedInput, NotedOutput, Notes};
use ic_diagnostics::{once_telling, settle_telling};
use ic_exits::Failure;
use ic_expand::{Begun, Opened, Shape, begin_text, write_told};
use ic_in_place::RoundBounds;
use ic_streams::StreamFault;
use ic_text::Limits;
use std::alloc::Global;
use std::io::{self, Cursor, Read, StdinLock};
use std::sync::Wait;
use std::thread::Threads;

/// What a word is done with.
#[derive_where(Clone, Copy)]
pub(crate) struct Doing<'a, 'v, T> {
    pub(crate) rt: &'a HostRuntime,
    pub(crate) threads: &'a T,
    pub(crate) values: &'a Values<'v>,
    pub(crate) notes: &'a Notes,
}

/// Does what a word says. The lines that tell the place of a fault in a text, and those that tell why a text or a script
/// can't be read, are appended to `told`.
pub(crate) fn do_word<T: Threads + Wait + Copy + Send + Sync + 'static>(
    doing: &Doing<'_, '_, T>,
    word: Word,
    told: &mut Vec<u8>,
) -> Result<(), Failure> {
    match word {
        Word::Reduce => reduce(doing, told),
        Word::Trace => trace(doing, told),
        Word::Draw => draw(doing, told),
        Word::Once => once(doing, told),
        Word::Settle => settle(doing, told),
        Word::Check => check(doing, told),
        Word::Expand => expand(doing, told),
        Word::Create => create_disk(doing),
        Word::Serve => serve(doing),
        Word::Attend => attend_disk(doing, told),
        Word::Batch => batch(doing, told),
        Word::Dump => dump(doing),
        Word::Inspect => inspect(doing),
        Word::Help => help(doing),
    }
}

/// The path of the disk's file, or of the file in which a reduction is kept, or no path.
pub(crate) fn path_of<'v>(values: &Values<'v>) -> &'v str {
    let kept = values.text(&KEEP).or(values.text(&RESUME));
    values.text(&DISK).or(kept).unwrap_or("")
}

/// The disk's file, and how long it is awaited.
fn disk_at<'v>(values: &Values<'v>) -> DiskAt<'v> {
    DiskAt {
        path: path_of(values),
        seconds: values.number(&WAIT),
    }
}

/// What a word over a text reads.
type Text<'a> = Input<'a, StdinLock<'static>>;

/// What a word reads of a text that may be rich.
type Opening<'a> = Opened<Text<'a>>;

/// The text in the file that is named, or on standard input. A rich one is expanded; if it is refused, or has several
/// configurations, the lines that tell of it are appended to `told`.
fn open_input<'a, T>(doing: &Doing<'a, '_, T>, told: &mut Vec<u8>) -> Result<Opening<'a>, Failure> {
    match begin_input(doing)? {
        Begun::Plain(opened) => Ok(opened),
        Begun::Rich(text) => {
            refuse_several(doing.rt.alloc(), &text, told)?;
            open_rich(doing, &text, told)
        }
    }
}

/// The same before a rich text is expanded.
fn begin_input<'a, T>(doing: &Doing<'a, '_, T>) -> Result<Begun<Text<'a>>, Failure> {
    let is_said = doing.values.flag(&RICH) || doing.values.file(&FILE).is_some_and(is_rich_path);
    let input = open_given(doing)?;
    begin_text(doing.rt.alloc(), input, is_said).map_err(Failure::Stream)
}

/// A rich text, expanded. What comes of it is told in its words, unless plain ones are wanted, or rules beside it.
fn open_rich<'a, T>(
    doing: &Doing<'a, '_, T>,
    text: &[u8],
    told: &mut Vec<u8>,
) -> Result<Opening<'a>, Failure> {
    let files = used_by(doing);
    let opened = ic_expand::open_rich(doing.rt.alloc(), text, &files, told);
    let opened = opened.map_err(Failure::Stream)?;
    if doing.values.flag(&PLAIN) || doing.values.flag(&RULES_TOO) {
        Ok(opened.told_plain())
    } else {
        Ok(opened)
    }
}

/// The files that the text uses.
fn used_by<'a, T>(doing: &Doing<'a, '_, T>) -> UsedFiles<'a> {
    let path = match doing.values.file(&FILE) {
        Some(path) => path,
        None => "",
    };
    UsedFiles { rt: doing.rt, path }
}

/// The file that is named, or standard input, of which a terminal is told that a text is read from it.
fn open_given<'a, T>(doing: &Doing<'a, '_, T>) -> Result<Text<'a>, Failure> {
    match doing.values.file(&FILE) {
        Some(path) => match open_text(doing.rt, path, doing.notes) {
            Ok(file) => Ok(Input::File(file)),
            Err(fault) => Err(Failure::Stream(fault)),
        },
        None => {
            input::tell_terminal(doing.rt);
            Ok(standard(doing))
        }
    }
}

fn standard<'a, T>(doing: &Doing<'a, '_, T>) -> Text<'a> {
    Input::Standard(NotedInput::new(doing.rt.reader(), doing.notes))
}

/// Standard input, of which nothing is read yet.
fn unread<'a, T>(doing: &Doing<'a, '_, T>) -> Opening<'a> {
    let front = Cursor::new(Vec::new(doing.rt.alloc()));
    Opened::Going(front.chain(standard(doing)))
}

fn settle<T>(doing: &Doing<'_, '_, T>, told: &mut Vec<u8>) -> Result<(), Failure> {
    let mut input = open_input(doing, told)?;
    let mut line = Vec::new(doing.rt.alloc());
    let settled = settle_telling(doing.rt.alloc(), &mut input, &mut line, told);
    let written = write_made(doing, &input, settled, &line);
    tell_of_plain(&input, written, told)
}

fn once<T>(doing: &Doing<'_, '_, T>, told: &mut Vec<u8>) -> Result<(), Failure> {
    let mut input = open_input(doing, told)?;
    let mut line = Vec::new(doing.rt.alloc());
    let made = once_telling(doing.rt.alloc(), &mut input, &mut line, told);
    let written = write_made(doing, &input, made, &line);
    tell_of_plain(&input, written, told)
}

/// Writes a line that was gathered of a text, in the words of that.
fn write_made<T>(
    doing: &Doing<'_, '_, T>,
    input: &Opening<'_>,
    made: Result<(), StreamFault>,
    line: &[u8],
) -> Result<(), Failure> {
    made.map_err(of_memory).map_err(Failure::Stream)?;
    let mut output = NotedOutput::new(io::writer(doing.rt), doing.notes);
    let (alloc, wording) = (doing.rt.alloc(), input.wording());
    write_told(alloc, wording, Shape::Line, line, &mut output).map_err(Failure::Stream)
}

fn draw<T>(doing: &Doing<'_, '_, T>, told: &mut Vec<u8>) -> Result<(), Failure> {
    let mut input = open_input(doing, told)?;
    let drawn = match doing.values.number_met(&DRAWN) {
        Some(rounds) => looking::draw_after(doing.rt, rounds, &mut input, doing.notes, told),
        None => looking::draw(doing.rt, &mut input, doing.notes, told),
    };
    tell_of_plain(&input, drawn, told)
}

/// Each text is a rich one.
fn expand<T>(doing: &Doing<'_, '_, T>, told: &mut Vec<u8>) -> Result<(), Failure> {
    let input = open_given(doing)?;
    let files = used_by(doing);
    let begun = begin_text(doing.rt.alloc(), input, true).map_err(Failure::Stream)?;
    match begun {
        Begun::Rich(text) => texts::expand_each(doing.rt, &text, &files, doing.notes, told),
        Begun::Plain(mut opened) => {
            texts::expand(doing.rt, &mut opened, &files, doing.notes, told)
        }
    }
}

fn trace<T>(doing: &Doing<'_, '_, T>, told: &mut Vec<u8>) -> Result<(), Failure> {
    let bounds = RoundBounds {
        rounds: doing.values.number(&TRACED),
        nodes: doing.values.number(&NODES),
    };
    let wanted = looking::Wanted {
        format: TraceFormat::of(doing.values.choice(&TABLE)),
        is_summed: doing.values.flag(&SUMS),
    };
    let limits = limits_of(doing.values);
    let mut input = open_input(doing, told)?;
    let traced = looking::trace(
        doing.rt,
        limits,
        bounds,
        wanted,
        &mut input,
        doing.notes,
        told,
    );
    tell_of_plain(&input, traced, told)
}

fn check<T>(doing: &Doing<'_, '_, T>, told: &mut Vec<u8>) -> Result<(), Failure> {
    let files = words_at(doing, &CHECKED)?;
    let asked = checking::Asked {
        format: ReportFormat::of(doing.values.choice(&REPORT)),
        is_script: doing.values.flag(&SCRIPTS),
        is_strict: doing.values.flag(&STRICT),
        is_rich: doing.values.flag(&RICH),
    };
    checking::check(doing.rt, &files, asked, doing.notes, told)
}

fn create_disk<T>(doing: &Doing<'_, '_, T>) -> Result<(), Failure> {
    let overwrite = doing.values.flag(&OVERWRITE);
    create(doing.rt, disk_at(doing.values), overwrite, doing.notes)
}

/// How many bytes are taken once, and given back: more than a list of a job has.
const ROOM: usize = 1 << 20;

/// Has the C library hold memory that lists give back, for those of later rounds. It goes by the largest block that it was given
/// back. Without this it would take lists of large jobs anew of the system in each round.
fn hold_room(alloc: Global) {
    let _ = Vec::<u8>::with_capacity(alloc, ROOM);
}

fn serve<T: Threads + Wait + Copy + Send + 'static>(
    doing: &Doing<'_, '_, T>,
) -> Result<(), Failure> {
    hold_room(doing.rt.alloc());
    let at = disk_at(doing.values);
    let explains = doing.values.flag(&EXPLAIN);
    let making = Making {
        group: doing.values.number(&GROUP) as u32,
        page_bytes: doing.values.number(&PAGE_BYTES),
        ..making_of(doing.threads, doing.values)
    };
    serve_session(doing.rt, doing.threads, at, making, explains, doing.notes)
}

fn attend_disk<T: Threads + Wait + Sync>(
    doing: &Doing<'_, '_, T>,
    told: &mut Vec<u8>,
) -> Result<(), Failure> {
    let clients = Clients {
        runners: doing.values.number(&RUNNERS) as u32,
        turns: doing.values.number(&TURNS) as u32,
        workers: doing.values.number(&HELPERS) as u32,
    };
    let scripts = words_at(doing, &SCRIPT)?;
    let at = disk_at(doing.values);
    attend(
        doing.rt,
        doing.threads,
        at,
        &scripts,
        clients,
        doing.notes,
        told,
    )
}

fn batch<T: Threads + Wait + Copy + Send + 'static>(
    doing: &Doing<'_, '_, T>,
    told: &mut Vec<u8>,
) -> Result<(), Failure> {
    hold_room(doing.rt.alloc());
    let most = most_of(doing.values);
    let making = making_of(doing.threads, doing.values);
    let files = batching::Files {
        disk: disk_at(doing.values),
        lines: doing.values.word(&LINES).unwrap_or(""),
    };
    batching::batch(
        doing.rt,
        doing.threads,
        files,
        most,
        making,
        doing.notes,
        told,
    )
}

/// The limits of a text.
fn limits_of(values: &Values) -> Limits {
    match TextLimits::of(values.choice(&LIMITS)) {
        TextLimits::Served => Limits::Served,
        TextLimits::Wide => Limits::Wide,
    }
}

/// How many rounds a job makes at most.
fn most_of(values: &Values) -> u64 {
    values.number_met(&TAKEN).unwrap_or(MAX_ROUNDS)
}

/// How many threads make rounds of several jobs, as many as there are processors where no number is said, and after how many
/// rounds they are kept. Each command is kept by itself, and the history takes as much as it may.
fn making_of<T: Threads>(threads: &T, values: &Values) -> Making {
    let said = match values.number_met(&WORKERS) {
        Some(number) => Some(number as u32),
        None => None,
    };
    Making {
        workers: threads_for(threads, said, MAX_STEPS),
        every: values.number(&EVERY) as u32,
        group: 1,
        page_bytes: PAGE_BYTES.most,
    }
}

fn dump<T>(doing: &Doing<'_, '_, T>) -> Result<(), Failure> {
    let names = words_at(doing, &NAMES)?;
    dumping::dump(doing.rt, disk_at(doing.values), &names, doing.notes)
}

fn inspect<T>(doing: &Doing<'_, '_, T>) -> Result<(), Failure> {
    let format = ReportFormat::of(doing.values.choice(&REPORT));
    inspecting::inspect(doing.rt, path_of(doing.values), format, doing.notes)
}

fn help<T>(doing: &Doing<'_, '_, T>) -> Result<(), Failure> {
    let words = table();
    let text = help_of(
        doing.rt.alloc(),
        words.as_slice(),
        doing.values.word(&TOPIC),
    );
    let text = text.map_err(Failure::Words)?;
    let mut output = NotedOutput::new(io::writer(doing.rt), doing.notes);
    show(&mut output, text.as_str()).map_err(Failure::Stream)
}

/// The words that stand at a place.
fn words_at<T>(doing: &Doing<'_, '_, T>, place: &Place) -> Result<Vec<String>, Failure> {
    match doing.values.words(doing.rt.alloc(), place) {
        Ok(words) => Ok(words),
        Err(_) => Err(Failure::Words(WordsFault::Memory)),
    }
}

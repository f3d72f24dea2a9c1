//! What `inspect` tells of two files in which a reduction is kept.

use crate::HostFile;
use crate::inspecting::open_to_read_as;
use crate::others::{Another, another_of, holds_table, is_of_reduction};
use crate::renewing::Paths;
use ic_args::ReportFormat;
use ic_causes::{Cause, NotedOutput, Notes, Reason, Target};
use ic_disk::DiskFault;
use ic_exits::Failure;
use ic_inspect::InspectFault;
use ic_keeping::KeepingFault;
use ic_kept::{Front, HEAD, front_of};
use ic_output::write_flushed;
use ic_slots::OpenCause;
use ic_state::{StateFault, StateHead, head_of};
use std::alloc::AllocError;
use std::fs::OpenFile;
use std::io::{self, ErrorKind, Read};

/// How many bytes the first numbers of a state have.
const NUMBERS: u64 = 56;

/// How many more they have of one that goes by rounds.
const ROUNDS: u64 = 16;

/// How many first bytes of a file are looked at: its head, and the first numbers of its state.
const FRONT: u64 = HEAD + ROUNDS + NUMBERS;

/// The first bytes of a file, and how many bytes it has.
#[derive(Drop)]
struct Opening {
    bytes: Vec<u8>,
    len: u64,
}

/// How both files begin; the second where it is there.
#[derive(Drop)]
pub(crate) struct Fronts {
    first: Opening,
    second: Option<Opening>,
}

impl Fronts {
    /// Whether the second file isn't there.
    pub(crate) fn is_alone(&self) -> bool {
        self.second.is_none()
    }
}

/// What is seen of a file.
#[derive(Clone, Copy)]
enum Seen {
    Missing,
    CutOff,
    Another(Another),
    CutShort(Front),
    NoState(Front),
    State(Front, StateHead),
}

/// How the file of this path and its second file begin, if a state stands in the first, or in the second where the first
/// isn't a disk of jobs.
pub(crate) fn read_fronts(
    rt: &HostRuntime,
    path: &str,
    notes: &Notes,
) -> Result<Option<Fronts>, Failure> {
    let first = read_front(rt, path, Target::File, notes)?;
    if is_of_reduction(&first.bytes) {
        let second = read_second(rt, path, notes)?;
        return Ok(Some(Fronts { first, second }));
    }
    if holds_table(&first.bytes) {
        return Ok(None);
    }
    let Ok(Some(second)) = read_second(rt, path, notes) else {
        return Ok(None);
    };
    if !is_of_reduction(&second.bytes) {
        return Ok(None);
    }
    let second = Some(second);
    Ok(Some(Fronts { first, second }))
}

/// How the second file of this path begins, if it is there.
fn read_second(rt: &HostRuntime, path: &str, notes: &Notes) -> Result<Option<Opening>, Failure> {
    let second = format!(in rt.alloc(); "{path}.2").map_err(|_| memory())?;
    match read_front(rt, second.as_str(), Target::Second, notes) {
        Ok(opening) => Ok(Some(opening)),
        Err(failure) => {
            if is_missing(notes.last()) {
                return Ok(None);
            }
            Err(failure)
        }
    }
}

/// Whether what has failed last is that a file isn't there.
fn is_missing(cause: Option<Cause>) -> bool {
    match cause {
        Some(cause) => cause.reason == Reason::Missing,
        None => false,
    }
}

fn memory() -> Failure {
    Failure::Inspect(InspectFault::Memory)
}

/// How the file of this path begins. Its length is asked for after its head is read, since a keep may go on meanwhile, and a
/// state is whole once its head is there.
fn read_front(
    rt: &HostRuntime,
    path: &str,
    target: Target,
    notes: &Notes,
) -> Result<Opening, Failure> {
    let file = open_to_read_as(rt, path, target, notes).map_err(|_| Failure::Disk(DiskFault))?;
    match opening_of(rt, &file) {
        Ok(opening) => Ok(opening),
        Err(error) if error.kind() == ErrorKind::OutOfMemory => Err(memory()),
        Err(_) => Err(Failure::Inspect(InspectFault::Read)),
    }
}

/// How a file begins, and then its length.
fn opening_of(rt: &HostRuntime, file: &HostFile<'_>) -> io::Result<Opening> {
    let mut bytes = Vec::new(rt.alloc());
    file.at(0).take(FRONT).read_to_end(&mut bytes)?;
    let len = file.metadata()?.len();
    Ok(Opening { bytes, len })
}

/// Refuses two files of which no other process has one open, if their first bytes tell that no reduction goes on with them: one
/// is another file, over which a keep would write, or no state stands in the newest. The rest of them isn't read. Tells whether
/// the newest goes by rounds.
pub(crate) fn check_fronts(
    rt: &HostRuntime,
    path: &str,
    second: &str,
    notes: &Notes,
) -> Result<Option<bool>, KeepingFault> {
    let first = see_at(rt, path, Target::File, notes)?;
    let second = see_at(rt, second, Target::Second, notes)?;
    if is_another(first) || is_another(second) {
        return Err(KeepingFault::Open(OpenCause::Damaged));
    }
    match newest_of(first, second) {
        Newest::First => order_of(first),
        Newest::Second => order_of(second),
        _ => Ok(None),
    }
}

/// Whether the state of a file that has a head goes by rounds, if it has one.
fn order_of(seen: Seen) -> Result<Option<bool>, KeepingFault> {
    match seen {
        Seen::NoState(_) => Err(KeepingFault::Unsound),
        Seen::State(_, head) => Ok(Some(head.rounds.is_some())),
        _ => Ok(None),
    }
}

/// What is seen of the file of this path.
fn see_at(
    rt: &HostRuntime,
    path: &str,
    target: Target,
    notes: &Notes,
) -> Result<Seen, KeepingFault> {
    let opening = match open_to_read_as(rt, path, target, notes) {
        Ok(file) => opening_of(rt, &file),
        Err(error) => Err(error),
    };
    match opening {
        Ok(opening) => Ok(see(rt, &opening)?),
        Err(error) if error.kind() == ErrorKind::OutOfMemory => Err(KeepingFault::Memory),
        Err(_) => Err(KeepingFault::Device),
    }
}

/// One of the two files of a reduction.
#[derive(Clone, Copy, PartialEq, Eq)]
pub(crate) enum Place {
    First,
    Second,
}

impl Place {
    /// The other one.
    pub(crate) fn other(self) -> Place {
        match self {
            Place::First => Place::Second,
            Place::Second => Place::First,
        }
    }
}

/// A file that is lost or damaged beside one that has a whole state.
#[derive(Clone, Copy)]
pub(crate) struct Lost {
    /// Which one.
    pub(crate) place: Place,
    /// Whether it is known that it held no newer state: the other one holds the end of the reduction.
    pub(crate) is_older: bool,
}

/// Which of two files is lost or damaged, where the other one has a whole state, as their first bytes tell.
pub(crate) fn lost_of(rt: &HostRuntime, paths: Paths<'_>) -> Option<Lost> {
    let first = seen_or_missing(rt, paths.first, Target::File)?;
    let second = seen_or_missing(rt, paths.second, Target::Second)?;
    if let Some(is_older) = is_lost_beside(second, first) {
        let place = Place::Second;
        return Some(Lost { place, is_older });
    }
    let is_older = is_lost_beside(first, second)?;
    let place = Place::First;
    Some(Lost { place, is_older })
}

/// Which of two files is the newest, where the other one has a whole state too, as their first bytes tell.
pub(crate) fn newest_at(rt: &HostRuntime, paths: Paths<'_>) -> Option<Place> {
    let first = seen_or_missing(rt, paths.first, Target::File)?;
    let second = seen_or_missing(rt, paths.second, Target::Second)?;
    match newest_of(first, second) {
        Newest::First if is_whole(second) => Some(Place::First),
        Newest::Second if is_whole(first) => Some(Place::Second),
        _ => None,
    }
}

/// Whether a state stands in a file, whole, before an open gate.
fn is_whole(seen: Seen) -> bool {
    match seen {
        Seen::State(front, _) => front.opened,
        _ => false,
    }
}

/// What is seen of the file of this path, unless it can't be read.
fn seen_or_missing(rt: &HostRuntime, path: &str, target: Target) -> Option<Seen> {
    let notes = Notes::new();
    match see_at(rt, path, target, &notes) {
        Ok(seen) => Some(seen),
        Err(_) if is_missing(notes.last()) => Some(Seen::Missing),
        Err(_) => None,
    }
}

/// Whether a file is lost or damaged beside one that has a whole state. If so, whether it is known that it held no newer one:
/// after the end nothing is kept.
fn is_lost_beside(seen: Seen, other: Seen) -> Option<bool> {
    let Seen::State(front, head) = other else {
        return None;
    };
    if !front.opened {
        return None;
    }
    match seen {
        Seen::Missing | Seen::CutOff => Some(head.ended),
        Seen::CutShort(lost) | Seen::NoState(lost) if lost.opened && lost.number > front.number => {
            Some(head.ended)
        }
        _ => None,
    }
}

/// Whether both begin with the same bytes.
pub(crate) fn are_same(one: &Fronts, other: &Fronts) -> bool {
    let seconds = match (&one.second, &other.second) {
        (Some(one), Some(other)) => one.bytes.as_slice() == other.bytes.as_slice(),
        (None, None) => true,
        _ => false,
    };
    one.first.bytes.as_slice() == other.first.bytes.as_slice() && seconds
}

/// Prints what the files hold, by how they begin.
pub(crate) fn tell(
    rt: &HostRuntime,
    fronts: &Fronts,
    format: ReportFormat,
    notes: &Notes,
) -> Result<(), Failure> {
    let lines = lines_of(rt, fronts, format).map_err(|_| memory())?;
    let mut output = NotedOutput::new(io::writer(rt), notes);
    write_flushed(&mut output, lines.as_bytes()).map_err(|_| Failure::Inspect(InspectFault::Write))
}

/// The lines of what the files hold.
fn lines_of(rt: &HostRuntime, fronts: &Fronts, format: ReportFormat) -> Result<String, AllocError> {
    let first = see(rt, &fronts.first)?;
    let second = match &fronts.second {
        Some(opening) => see(rt, opening)?,
        None => Seen::Missing,
    };
    let mut lines = String::new(rt.alloc());
    lines.push_str(line_of(rt, 1, first, format)?.as_str())?;
    lines.push_str(line_of(rt, 2, second, format)?.as_str())?;
    lines.push_str(held_line(rt, held_of(first, second), format)?.as_str())?;
    Ok(lines)
}

/// The line of which file has the state that is kept.
fn held_line(rt: &HostRuntime, held: &str, format: ReportFormat) -> Result<String, AllocError> {
    match format {
        ReportFormat::Text => format!(in rt.alloc(); "held: {held}\n"),
        ReportFormat::Json => format!(in rt.alloc(); "{{\"held\":\"{held}\"}}\n"),
    }
}

/// What is seen of a file that begins so.
fn see(rt: &HostRuntime, opening: &Opening) -> Result<Seen, AllocError> {
    let Some(front) = front_of(&opening.bytes) else {
        return Ok(Seen::CutOff);
    };
    let Some(state) = opening.bytes.get(HEAD as usize..) else {
        return Ok(Seen::CutOff);
    };
    if let Some(is) = another_of(&opening.bytes) {
        return Ok(Seen::Another(is));
    }
    if opening.len.saturating_sub(HEAD) < front.size {
        return Ok(Seen::CutShort(front));
    }
    match head_of(rt.alloc(), state) {
        Ok(head) if fits(front, head) => Ok(Seen::State(front, head)),
        Ok(_) | Err(StateFault::NotAState) => Ok(Seen::NoState(front)),
        Err(StateFault::Memory) => Err(AllocError),
    }
}

/// Whether there is room for so many counts and words in a state of this length.
fn fits(front: Front, head: StateHead) -> bool {
    let first = match head.rounds {
        Some(_) => ROUNDS + NUMBERS,
        None => NUMBERS,
    };
    let width = if head.narrow { 4 } else { 8 };
    let counts = head.rules.saturating_mul(8);
    let words = head.words.saturating_mul(width);
    counts.saturating_add(words).saturating_add(first) <= front.size
}

/// The line of what is seen of a file.
fn line_of(
    rt: &HostRuntime,
    place: u32,
    seen: Seen,
    format: ReportFormat,
) -> Result<String, AllocError> {
    match format {
        ReportFormat::Text => words_of(rt, place, seen),
        ReportFormat::Json => object_of(rt, place, seen),
    }
}

/// The gate in a word.
fn gate_of(front: Front) -> &'static str {
    if front.opened { "open" } else { "closed" }
}

/// What a state is, in words.
fn what_of(head: StateHead) -> &'static str {
    match head.rounds {
        Some(_) => "a reduction by rounds",
        None => "a reduction in any order",
    }
}

fn words_of(rt: &HostRuntime, place: u32, seen: Seen) -> Result<String, AllocError> {
    match seen {
        Seen::Missing => format!(in rt.alloc(); "file {place}: missing\n"),
        Seen::CutOff => format!(in rt.alloc(); "file {place}: cut off\n"),
        Seen::Another(is) => {
            let is = is.words();
            format!(in rt.alloc(); "file {place}: {is}\n")
        }
        Seen::CutShort(front) => {
            let front = front_words(rt, place, front)?;
            format!(in rt.alloc(); "{front}, cut short\n")
        }
        Seen::NoState(front) => {
            let front = front_words(rt, place, front)?;
            format!(in rt.alloc(); "{front}, no state\n")
        }
        Seen::State(front, head) => {
            let what = what_of(head);
            let (front, head) = (front_words(rt, place, front)?, head_words(rt, head)?);
            format!(in rt.alloc(); "{front}, {what}, {head}\n")
        }
    }
}

/// What stands before a state, in words.
fn front_words(rt: &HostRuntime, place: u32, front: Front) -> Result<String, AllocError> {
    let (gate, number, size) = (gate_of(front), front.number, front.size);
    format!(in rt.alloc(); "file {place}: {gate}, number {number}, size {size}")
}

/// The first numbers of a state, in words.
fn head_words(rt: &HostRuntime, head: StateHead) -> Result<String, AllocError> {
    let ended = if head.ended { "ended" } else { "not ended" };
    let (interactions, words) = (head.interactions, head.words);
    let (rules, millis) = (head.rules, head.millis);
    let words = format!(in rt.alloc();
        "{ended}, interactions {interactions}, words {words}, rules {rules}, milliseconds {millis}"
    )?;
    match head.rounds {
        Some(rounds) => format!(in rt.alloc(); "{words}, rounds {rounds}"),
        None => Ok(words),
    }
}

fn object_of(rt: &HostRuntime, place: u32, seen: Seen) -> Result<String, AllocError> {
    match seen {
        Seen::Missing => format!(in rt.alloc(); "{{\"file\":{place},\"state\":\"missing\"}}\n"),
        Seen::CutOff => format!(in rt.alloc(); "{{\"file\":{place},\"state\":\"cut off\"}}\n"),
        Seen::Another(is) => {
            let is = is.words();
            format!(in rt.alloc(); "{{\"file\":{place},\"state\":\"{is}\"}}\n")
        }
        Seen::CutShort(front) => {
            let front = front_members(rt, place, front)?;
            format!(in rt.alloc(); "{{{front},\"body\":\"cut short\"}}\n")
        }
        Seen::NoState(front) => {
            let front = front_members(rt, place, front)?;
            format!(in rt.alloc(); "{{{front}}}\n")
        }
        Seen::State(front, head) => {
            let what = what_of(head);
            let (front, head) = (front_members(rt, place, front)?, head_members(rt, head)?);
            format!(in rt.alloc(); "{{{front},\"body\":\"{what}\",{head}}}\n")
        }
    }
}

/// What stands before a state, as members of an object.
fn front_members(rt: &HostRuntime, place: u32, front: Front) -> Result<String, AllocError> {
    let (gate, number, size) = (gate_of(front), front.number, front.size);
    format!(in rt.alloc();
        "\"file\":{place},\"state\":\"{gate}\",\"number\":{number},\"size\":{size}"
    )
}

/// The first numbers of a state, as members of an object.
fn head_members(rt: &HostRuntime, head: StateHead) -> Result<String, AllocError> {
    let (interactions, words, ended) = (head.interactions, head.words, head.ended);
    let (rules, millis) = (head.rules, head.millis);
    let members = format!(in rt.alloc();
        "\"ended\":{ended},\"interactions\":{interactions},\"words\":{words},\"rules\":{rules},\"milliseconds\":{millis}"
    )?;
    match head.rounds {
        Some(rounds) => format!(in rt.alloc(); "{members},\"rounds\":{rounds}"),
        None => Ok(members),
    }
}

/// Whether a file is another one.
fn is_another(seen: Seen) -> bool {
    matches!(seen, Seen::Another(_))
}

/// Whether a file has no head of a file that keeps a reduction.
fn lacks_head(seen: Seen) -> bool {
    matches!(seen, Seen::CutOff) || is_another(seen)
}

/// Which of two files is the newest, by their heads.
#[derive(Clone, Copy)]
enum Newest {
    Neither,
    Alike,
    First,
    Second,
}

/// The newest of two files.
fn newest_of(first: Seen, second: Seen) -> Newest {
    match (open_number(first), open_number(second)) {
        (None, None) => Newest::Neither,
        (Some(one), Some(other)) if one == other => Newest::Alike,
        (Some(_), None) => Newest::First,
        (Some(one), Some(other)) if one > other => Newest::First,
        _ => Newest::Second,
    }
}

/// The number of a file whose gate is open.
fn open_number(seen: Seen) -> Option<u64> {
    match seen {
        Seen::State(front, _) if front.opened => Some(front.number),
        Seen::NoState(front) | Seen::CutShort(front) if front.opened => Some(front.number),
        _ => None,
    }
}

/// The newest file by this name, if it has a state.
fn held_in(seen: Seen, name: &'static str) -> &'static str {
    match seen {
        Seen::State(_, _) => name,
        Seen::Missing | Seen::CutOff | Seen::Another(_) | Seen::CutShort(_) | Seen::NoState(_) =>
            "damaged",
    }
}

/// Which file has the state that is kept, by the heads and the lengths of both.
fn held_of(first: Seen, second: Seen) -> &'static str {
    if lacks_head(first) || lacks_head(second) {
        return "damaged";
    }
    match newest_of(first, second) {
        Newest::Neither => "no slot",
        Newest::Alike => "two alike",
        Newest::First => held_in(first, "file 1"),
        Newest::Second => held_in(second, "file 2"),
    }
}

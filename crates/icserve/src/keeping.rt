//! The program's word `reduce` where what is reached is kept in two files.

use crate::kept::check_fronts;
use crate::reducing::{Wanted, put_system, tell_end};
use crate::renewing::{Paths, renew_lost, renew_newest};
use crate::unbegun::{check_unbegun, empty};
use crate::{NotedDisk, open_disk, open_disk_as};
use ic_args::table::MAX_ROUNDS;
use ic_causes::{Cause, FileCall, NotedOutput, Notes, Reason, Target, shown_path};
use ic_diagnostics::{Kind, refused_within};
use ic_disk::Disk;
use ic_exits::Failure;
use ic_expand::{Opened, Shape, Wording, write_told};
use ic_in_place::{Bounds, Outcome};
use ic_keeping::{Ended, KeepingFault, Pace, Run, Start, begun};
use ic_kept::Keeper;
use ic_progress::{Shares, Watching};
use ic_streams::{StreamFault, read_text_within};
use ic_text::Limits;
use ic_workers::Policy;
use std::alloc::AllocError;
use std::fs::metadata;
use std::io::{self, ErrorKind, Read, Write};
use std::os::unix::fs::MetadataExt;
use std::thread::Threads;
use std::time::Duration;

/// Where a reduction is kept, and how often.
#[derive(Clone, Copy)]
pub(crate) struct KeptIn<'a> {
    /// The path of the first file.
    pub(crate) path: &'a str,
    /// Whether it begins. Else it goes on with what is kept.
    pub(crate) begins: bool,
    /// Whether it goes on from one file, where the other is lost or damaged.
    pub(crate) from_one: bool,
    /// About how many seconds are between two keeps.
    pub(crate) seconds: u64,
    /// How many rounds are made at most, where that is said.
    pub(crate) rounds: Option<u64>,
    /// Whether it is said how many interactions are made at most, or how many threads reduce: by rounds neither can be.
    pub(crate) is_in_any_order: bool,
}

/// Reduces a system in place, keeps in two files what is reached, and prints it at the end, as far as that is wanted.
/// Either it begins with the system on standard input, or it goes on with what the files have.
pub(crate) fn reduce<T: Threads + Sync, R: Read>(
    rt: &HostRuntime,
    threads: &T,
    kept: KeptIn<'_>,
    bounds: Bounds,
    wanted: Wanted,
    input: &mut Opened<R>,
    notes: &Notes,
    told: &mut Vec<u8>,
) -> Result<(), Failure> {
    if !kept.begins {
        let second = second_of(rt, kept.path)?;
        renew_lost(rt, paths_of(kept, &second), kept.from_one, notes)?;
    }
    let watching = Watching::new(rt);
    let watch = &watching;
    let lived = live_in(rt, threads, kept, bounds, wanted, watch, input, notes, told);
    let (ended, _keeper) = match lived {
        Err(Failure::Kept(KeepingFault::Unsound)) if kept.from_one => {
            let second = second_of(rt, kept.path)?;
            renew_newest(rt, paths_of(kept, &second), notes)?;
            live_in(rt, threads, kept, bounds, wanted, watch, input, notes, told)?
        }
        lived => lived?,
    };
    let rounds = ended.rounds;
    let shares = watching.take_shares(rt.alloc());
    let done = tell(rt, ended, bounds, wanted, &shares, input.wording(), notes);
    if let (Some(made), Some(most)) = (rounds, kept.rounds) {
        if made > most {
            tell_more(rt, made, most);
        }
    }
    if matches!(done, Err(Failure::Overgrown(_, _))) {
        let _ = tell_kept(rt, kept.path, rounds.is_some(), told);
    }
    done
}

/// Tells on standard error that more rounds are kept than were asked for at most, and which net it is.
fn tell_more(rt: &HostRuntime, made: u64, most: u64) {
    let line = format!(in rt.alloc();
        "icserve: more than {most} rounds are kept: this is the net after {made}\n"
    );
    if let Ok(line) = line {
        let _ = rt.stderr().write_all(line.as_bytes());
    }
}

/// The paths of its two files, of which the second is this one.
fn paths_of<'a>(kept: KeptIn<'a>, second: &'a String) -> Paths<'a> {
    Paths {
        first: kept.path,
        second: second.as_str(),
    }
}

/// Lives with the reduction in the two files, however it began, until it ends.
fn live_in<'a, T: Threads + Sync, R: Read>(
    rt: &HostRuntime,
    threads: &T,
    kept: KeptIn<'_>,
    bounds: Bounds,
    wanted: Wanted,
    watching: &Watching<'_>,
    input: &mut R,
    notes: &'a Notes,
    told: &mut Vec<u8>,
) -> Result<(Ended, Keeper<NotedDisk<'a>>), Failure> {
    let (from, first, second) = open_kept(rt, kept, input, notes, told)?;
    let pace = pace_of(kept, wanted.policy.workers);
    let rounds = kept.rounds.unwrap_or(MAX_ROUNDS);
    live_over(
        rt, threads, from, first, second, bounds, rounds, pace, wanted, watching,
    )
}

/// For how many threads the first piece of a text is made longer at most: it may have too little to share.
const SHARERS: usize = 4;

/// How often it is kept. Of a text each thread should make as many interactions at first as one by itself. What is resumed may go
/// by rounds, which one thread makes.
fn pace_of(kept: KeptIn<'_>, workers: usize) -> Pace {
    let every = kept.seconds.saturating_mul(1_000);
    let threads = if kept.begins && kept.rounds.is_none() {
        workers.min(SHARERS) as u64
    } else {
        1
    };
    let first = Pace::new(every.saturating_mul(threads));
    Pace {
        every,
        piece: first.piece,
    }
}

/// The disks in the two files: as they are, or empty, with what the text on this input begins with.
fn open_kept<'a, R: Read>(
    rt: &HostRuntime,
    kept: KeptIn<'_>,
    input: &mut R,
    notes: &'a Notes,
    told: &mut Vec<u8>,
) -> Result<(Option<Start>, NotedDisk<'a>, NotedDisk<'a>), Failure> {
    if kept.begins {
        let by_rounds = kept.rounds.is_some();
        let begun = read_begun(rt, Limits::Wide, by_rounds, input, told).map_err(Failure::Stream)?;
        let (first, second) = make_both(rt, kept.path, notes, told)?;
        return Ok((Some(begun), first, second));
    }
    let (first, second) = open_both(rt, kept, notes, told)?;
    Ok((None, first, second))
}

/// Tells what is kept in the file of this path, where a net has too many names and agents: this net, or by rounds an earlier one.
fn tell_kept(
    rt: &HostRuntime,
    path: &str,
    by_rounds: bool,
    told: &mut Vec<u8>,
) -> Result<(), AllocError> {
    let path = shown_path(rt.alloc(), path.as_bytes())?;
    let what = if by_rounds {
        "the last keep stands"
    } else {
        "the net is kept"
    };
    told.extend_from_slice(what.as_bytes())?;
    told.extend_from_slice(b": `icserve reduce --resume ")?;
    told.extend_from_slice(&path)?;
    told.extend_from_slice(b"` goes on with it, given a greater --nodes\n")
}

/// Lives with the reduction that is kept on two disks, or with one that begins there, until it ends. How far it has come is
/// told on standard error.
fn live_over<D: Disk + Drop, T: Threads + Sync>(
    rt: &HostRuntime,
    threads: &T,
    from: Option<Start>,
    first: D,
    second: D,
    bounds: Bounds,
    rounds: u64,
    pace: Pace,
    wanted: Wanted,
    watching: &Watching<'_>,
) -> Result<(Ended, Keeper<D>), Failure> {
    let run = Run {
        threads,
        clock: rt,
        alloc: rt.alloc(),
        policy: wanted.policy,
        bounds,
        rounds,
        pace,
        asked: wanted.asked,
        watch: watching,
    };
    let lived = match from {
        Some(begun) => run.live_anew(begun, first, second),
        None => run.live(first, second),
    };
    watching.wipe();
    match lived {
        Ok(lived) => Ok(lived),
        Err(fault) => Err(Failure::Kept(fault.cause)),
    }
}

/// With what the reduction of a text begins that is read within these limits.
fn read_begun<R: Read>(
    rt: &HostRuntime,
    limits: Limits,
    by_rounds: bool,
    input: &mut R,
    told: &mut Vec<u8>,
) -> Result<Start, StreamFault> {
    let text = read_text_within(rt.alloc(), limits, input)?;
    match begun(rt.alloc(), &text, by_rounds) {
        Ok(begun) => Ok(begun),
        Err(misread) => Err(refused_within(rt.alloc(), limits, Kind::System, &text, misread, told)),
    }
}

/// The disks in the two files of a path, both empty. They are made where they are missing. None is made where the other holds
/// something, or can't be had. What a stop within a first keep has left there is taken out.
fn make_both<'a>(
    rt: &HostRuntime,
    path: &str,
    notes: &'a Notes,
    told: &mut Vec<u8>,
) -> Result<(NotedDisk<'a>, NotedDisk<'a>), Failure> {
    look_at_second(rt, path, notes)?;
    let other = second_of(rt, path)?;
    let first = open_disk(rt, path, true, notes)?;
    check_unbegun(rt, path, Target::File, notes)?;
    check_apart(rt, path, notes, told)?;
    let second = open_second(rt, path, true, notes)?;
    check_unbegun(rt, other.as_str(), Target::Second, notes)?;
    empty(rt, path, Target::File, notes)?;
    empty(rt, other.as_str(), Target::Second, notes)?;
    Ok((first, second))
}

/// Refuses a second file that can't be had, or that holds something. It may be missing.
fn look_at_second(rt: &HostRuntime, path: &str, notes: &Notes) -> Result<(), Failure> {
    match open_second(rt, path, false, notes) {
        Ok(_second) => {
            let other = second_of(rt, path)?;
            check_unbegun(rt, other.as_str(), Target::Second, notes)
        }
        Err(failure) => {
            if is_missing(notes.last()) {
                return Ok(());
            }
            Err(failure)
        }
    }
}

/// Whether what has failed last is that a file isn't there.
fn is_missing(cause: Option<Cause>) -> bool {
    match cause {
        Some(cause) => cause.reason == Reason::Missing,
        None => false,
    }
}

/// The disks in the two files of a path, unless their first bytes tell that no reduction goes on with them, or one in another order
/// than is asked for.
fn open_both<'a>(
    rt: &HostRuntime,
    kept: KeptIn<'_>,
    notes: &'a Notes,
    told: &mut Vec<u8>,
) -> Result<(NotedDisk<'a>, NotedDisk<'a>), Failure> {
    let path = kept.path;
    let first = open_disk(rt, path, false, notes)?;
    check_apart(rt, path, notes, told)?;
    let second = open_second(rt, path, false, notes)?;
    let order = check_fronts(rt, path, second_of(rt, path)?.as_str(), notes);
    match order.map_err(Failure::Kept)? {
        Some(true) if kept.is_in_any_order => Err(Failure::OtherOrder(true)),
        Some(false) if kept.rounds.is_some() => Err(Failure::OtherOrder(false)),
        _ => Ok((first, second)),
    }
}

/// Refuses a second file that is the first one by another name: whoever has the one open has the other locked.
fn check_apart(
    rt: &HostRuntime,
    path: &str,
    notes: &Notes,
    told: &mut Vec<u8>,
) -> Result<(), Failure> {
    let second = second_of(rt, path)?;
    if !are_one(rt, path, second.as_str()) {
        return Ok(());
    }
    let refused: io::Result<()> = Err(ErrorKind::InvalidInput.into());
    notes.note(Target::Second, FileCall::Open, &refused);
    let _ = tell_one(rt, path, second.as_str(), told);
    Err(Failure::Kept(KeepingFault::Device))
}

/// Whether these two paths are known to lead to one file.
pub(crate) fn are_one(rt: &HostRuntime, path: &str, other: &str) -> bool {
    match (metadata(rt, path), metadata(rt, other)) {
        (Ok(one), Ok(other)) => one.dev() == other.dev() && one.ino() == other.ino(),
        _ => false,
    }
}

/// Tells that the second file, of this path, is the first one.
fn tell_one(
    rt: &HostRuntime,
    path: &str,
    second: &str,
    told: &mut Vec<u8>,
) -> Result<(), AllocError> {
    let first = shown_path(rt.alloc(), path.as_bytes())?;
    let second = shown_path(rt.alloc(), second.as_bytes())?;
    told.extend_from_slice(&second)?;
    told.extend_from_slice(b": it is a link to the file ")?;
    told.extend_from_slice(&first)?;
    told.extend_from_slice(b", and a reduction takes two files: remove the link\n")
}

/// The path of the second file of a path.
fn second_of(rt: &HostRuntime, path: &str) -> Result<String, Failure> {
    format!(in rt.alloc(); "{path}.2").map_err(|_| Failure::Kept(KeepingFault::Memory))
}

/// Opens the disk in the second file of a path, which with `create` is made where it is missing.
fn open_second<'a>(
    rt: &HostRuntime,
    path: &str,
    create: bool,
    notes: &'a Notes,
) -> Result<NotedDisk<'a>, Failure> {
    let second = second_of(rt, path)?;
    open_disk_as(rt, second.as_str(), Target::Second, create, notes)
}

/// Tells how a reduction has ended that threads shared so: its line on standard output, where it is wanted, in these words, and the
/// rest on standard error.
fn tell(
    rt: &HostRuntime,
    ended: Ended,
    bounds: Bounds,
    wanted: Wanted,
    shares: &Shares,
    wording: Option<&Wording>,
    notes: &Notes,
) -> Result<(), Failure> {
    let Ended {
        end,
        nodes,
        left,
        shared,
        rules,
        state,
        rounds,
        line,
        stuck,
        circle,
    } = ended;
    let mut output = NotedOutput::new(io::writer(rt), notes);
    if wanted.has_rules {
        put_system(rt.alloc(), &rules, &line, &mut output).map_err(Failure::Stream)?;
    } else {
        write_told(rt.alloc(), wording, Shape::Line, &line, &mut output).map_err(Failure::Stream)?;
    }
    let time = Duration::from_millis(state.millis);
    let outcome = Outcome {
        end,
        interactions: state.interactions,
        rules,
        by_rule: state.by_rule,
        name_steps: None,
        nodes,
        left,
        shared,
        by_round: None,
        stuck,
        circle,
    };
    tell_end(
        rt,
        &outcome,
        rounds,
        time,
        by_one(wanted, rounds),
        shares,
        bounds.nodes,
    )
}

/// By rounds a net is reduced by one thread.
fn by_one(wanted: Wanted, rounds: Option<u64>) -> Wanted {
    let mut told = wanted;
    if rounds.is_some() {
        told.policy = Policy::of(1);
    }
    told
}

//! The program's word `reduce`: a net reduced in place, in any order or by rounds.

ghost use Rattle.std.specs.Prelude.{◌≡◌, ◌<◌, ◌≤◌, IfNone, IfSome, max, min};

use crate::looking::tell_left;
use crate::profiling::Profile;
use crate::several::Among;
use ic_args::FiguresFormat;
use ic_args::table::MAX_STEPS;
use ic_causes::{NotedOutput, Notes};
use ic_dump::front_of_system;
use ic_exits::{Failure, Reached, idle_line, reduce_ending};
use ic_expand::{Opened, Shape, write_told};
use ic_in_place::{
    Asked, Bounds, End, Outcome, RoundBounds, Rounded, Watch, reduce_by_rounds_stream,
    reduce_in_place_stream,
};
use ic_progress::{Shares, Watching, WipedFirst, figures_lines, figures_object};
use ic_rules::RuleSet;
use ic_streams::{StreamFault, write_line};
use ic_text::Limits;
use ic_workers::{Policy, reduce_by_workers_stream};
use std::alloc::Global;
use std::io::{self, IsTerminal, Read, Write};
use std::thread::{Threads, available_parallelism};
use std::time::{Duration, Instant};

/// What is wanted of a reduction in place.
#[derive(Clone, Copy)]
pub(crate) struct Wanted {
    /// What of it is printed.
    pub(crate) asked: Asked,
    /// Whether the rules are printed before it.
    pub(crate) has_rules: bool,
    /// How its figures are told, if they are.
    pub(crate) figures: Option<FiguresFormat>,
    /// How many threads reduce, and how they share it.
    pub(crate) policy: Policy,
    /// Which configuration it is of, if there are several.
    pub(crate) among: Option<Among>,
}

/// How many threads reduce a net: as many as are said, within the bounds. Where no number is said there are as many as there
/// are processors, or one if the interactions are bounded, so that each run makes the same ones.
pub(crate) fn threads_for<T: Threads>(threads: &T, said: Option<u32>, steps: u64) -> u32
    ensures some { 1 ≤ result }
    ensures few { result ≤ 64 }
    ensures said { IfSome said (λ number. result ≡ min (max number 1) 64) }
    ensures bounded { IfNone said (steps < MAX_STEPS → result ≡ 1) }
{
    match said {
        Some(number) => number.max(1).min(64),
        None if steps < MAX_STEPS => 1,
        None => processors(threads),
    }
}

/// How many processors this process may use, 64 at most; one where that can't be told.
fn processors<T: Threads>(threads: &T) -> u32
    ensures some { 1 ≤ result }
    ensures few { result ≤ 64 }
{
    match available_parallelism(threads) {
        Ok(number) => number.get().min(64) as u32,
        Err(_) => 1,
    }
}

/// Reduces the system on standard input in place, within these limits of its text and these bounds, and prints what is
/// reached, as far as that is wanted. Figures, a stuck pair and a circle are told on standard error, and how far a long
/// reduction has come. What is to be known of rounds is told with the figures, and written where the profile stands.
pub(crate) fn reduce<T: Threads + Sync, R: Read>(
    rt: &HostRuntime,
    threads: &T,
    limits: Limits,
    bounds: Bounds,
    wanted: Wanted,
    profile: &mut Profile<'_, '_>,
    input: &mut Opened<R>,
    notes: &Notes,
    told: &mut Vec<u8>,
) -> Result<(), Failure> {
    let begun = Instant::now(rt).ok();
    let watching = Watching::of_rounds(rt, profile.is_wanted());
    let mut output = WipedFirst::watching(&watching, NotedOutput::new(io::writer(rt), notes));
    let reduced = reduce_and_print(
        rt,
        threads,
        limits,
        bounds,
        wanted,
        &watching,
        input,
        &mut output,
        told,
    );
    watching.wipe();
    let outcome = reduced.map_err(Failure::Stream)?;
    let time = time_since(rt, begun);
    let put = profile.put(rt, &outcome, notes, told);
    let shares = watching.take_shares(rt.alloc());
    let ended = tell_end(rt, &outcome, None, time, wanted, &shares, bounds.nodes);
    put?;
    ended
}

/// Makes rounds of the system on standard input, in place, until no step is possible or as many are made as may be, and prints the
/// net then, as `reduce` does.
pub(crate) fn reduce_by_rounds<R: Read>(
    rt: &HostRuntime,
    limits: Limits,
    bounds: RoundBounds,
    wanted: Wanted,
    input: &mut Opened<R>,
    notes: &Notes,
    told: &mut Vec<u8>,
) -> Result<(), Failure> {
    let begun = Instant::now(rt).ok();
    let watching = Watching::new(rt);
    let mut output = WipedFirst::watching(&watching, NotedOutput::new(io::writer(rt), notes));
    let reduced = round_and_print(
        rt,
        limits,
        bounds,
        wanted,
        &watching,
        input,
        &mut output,
        told,
    );
    watching.wipe();
    let reached = reduced.map_err(Failure::Stream)?;
    let time = time_since(rt, begun);
    let rounds = Some(reached.rounds);
    let shares = watching.take_shares(rt.alloc());
    tell_end(
        rt,
        &reached.outcome,
        rounds,
        time,
        wanted,
        &shares,
        bounds.nodes,
    )
}

/// The same of any input and to any output. The rules are known at its end, so what is to stand
/// after them is gathered, and so is what is told in the words of its text.
fn reduce_and_print<T: Threads + Sync, V: Watch, R: Read, W: Write>(
    rt: &HostRuntime,
    threads: &T,
    limits: Limits,
    bounds: Bounds,
    wanted: Wanted,
    watch: &V,
    input: &mut Opened<R>,
    output: &mut W,
    told: &mut Vec<u8>,
) -> Result<Outcome, StreamFault> {
    if !wanted.has_rules && input.wording().is_none() {
        return reduce_over(
            rt, threads, limits, bounds, wanted, watch, input, output, told,
        );
    }
    let mut line = Vec::new(rt.alloc());
    let outcome = reduce_over(
        rt, threads, limits, bounds, wanted, watch, input, &mut line, told,
    )
    .map_err(of_memory)?;
    put_gathered(rt.alloc(), &outcome, wanted, input, &line, output)?;
    Ok(outcome)
}

/// Rounds of any input, and the net after them to any output, with the rules before it if they are wanted, and else in the words of
/// its text.
fn round_and_print<V: Watch, R: Read, W: Write>(
    rt: &HostRuntime,
    limits: Limits,
    bounds: RoundBounds,
    wanted: Wanted,
    watch: &V,
    input: &mut Opened<R>,
    output: &mut W,
    told: &mut Vec<u8>,
) -> Result<Rounded, StreamFault> {
    let (alloc, asked) = (rt.alloc(), wanted.asked);
    if !wanted.has_rules && input.wording().is_none() {
        return reduce_by_rounds_stream(alloc, limits, bounds, asked, watch, input, output, told);
    }
    let mut line = Vec::new(alloc);
    let reached = reduce_by_rounds_stream(
        alloc, limits, bounds, asked, watch, input, &mut line, told,
    ).map_err(of_memory)?;
    put_gathered(alloc, &reached.outcome, wanted, input, &line, output)?;
    Ok(reached)
}

/// Writes a line that was gathered: after the rules if they are wanted, and else in the words of the text.
fn put_gathered<R, W: Write>(
    alloc: Global,
    outcome: &Outcome,
    wanted: Wanted,
    input: &Opened<R>,
    line: &[u8],
    output: &mut W,
) -> Result<(), StreamFault> {
    if wanted.has_rules {
        put_system(alloc, &outcome.rules, line, output)
    } else {
        write_told(alloc, input.wording(), Shape::Line, line, output)
    }
}

/// Where a line can't be gathered, memory has run out.
pub(crate) fn of_memory(fault: StreamFault) -> StreamFault {
    match fault {
        StreamFault::Write => StreamFault::Memory,
        fault => fault,
    }
}

/// Writes the line of a configuration, if there is one, with the rules before it: the text of a system.
pub(crate) fn put_system<W: Write>(
    alloc: Global,
    rules: &RuleSet,
    line: &[u8],
    output: &mut W,
) -> Result<(), StreamFault> {
    if !line.is_empty() {
        write_line(output, &front_of_system(alloc, rules)?)?;
    }
    write_line(output, line)
}

/// Reduces by one thread, or by several.
fn reduce_over<T: Threads + Sync, V: Watch, R: Read, W: Write>(
    rt: &HostRuntime,
    threads: &T,
    limits: Limits,
    bounds: Bounds,
    wanted: Wanted,
    watch: &V,
    input: &mut R,
    output: &mut W,
    told: &mut Vec<u8>,
) -> Result<Outcome, StreamFault> {
    if wanted.policy.workers == 1 {
        return reduce_in_place_stream(
            rt.alloc(),
            limits,
            bounds,
            wanted.asked,
            watch,
            input,
            output,
            told,
        );
    }
    reduce_by_workers_stream(
        threads,
        rt,
        rt.alloc(),
        limits,
        wanted.policy,
        bounds,
        wanted.asked,
        watch,
        input,
        output,
        told,
    )
}

/// Tells on standard error what is told of a reduction that took so long, and that threads shared so: of which configuration it is,
/// figures, as far as they are wanted, a stuck pair and a circle. A terminal is told if there are rules and none was used. The answer
/// says how it ended, where its net may have so many names and agents.
pub(crate) fn tell_end(
    rt: &HostRuntime,
    outcome: &Outcome,
    rounds: Option<u64>,
    time: Duration,
    wanted: Wanted,
    shares: &Shares,
    nodes: u64,
) -> Result<(), Failure> {
    tell_among(rt, outcome, wanted);
    if let Some(format) = wanted.figures {
        let threads = wanted.policy.workers;
        tell_figures(rt, outcome, rounds, threads, shares, time, format);
    }
    tell_left(rt, outcome);
    if is_idle(outcome) && rt.stderr().is_terminal() {
        tell_idle(rt);
    }
    reduce_ending(outcome.end, reached_of(outcome, rounds), nodes)
}

/// Tells on standard error of which configuration the lines are that follow, if there are several, and some follow. Objects come
/// in the order of the configurations.
fn tell_among(rt: &HostRuntime, outcome: &Outcome, wanted: Wanted) {
    let Some(among) = wanted.among else {
        return;
    };
    let has_told = match wanted.figures {
        Some(FiguresFormat::Lines) => true,
        Some(FiguresFormat::Objects) => false,
        None => outcome.stuck.is_some() || outcome.circle.is_some(),
    };
    if has_told {
        if let Ok(line) = among.told(rt.alloc()) {
            let _ = rt.stderr().write_all(line.as_bytes());
        }
    }
}

/// How far a reduction came.
pub(crate) fn reached_of(outcome: &Outcome, rounds: Option<u64>) -> Reached {
    Reached {
        interactions: outcome.interactions,
        nodes: outcome.nodes,
        left: outcome.left,
        rounds,
    }
}

/// Whether a reduction ended where no step is possible, used none of its rules, and has nothing else to tell of that.
fn is_idle(outcome: &Outcome) -> bool {
    let has_told = outcome.stuck.is_some() || outcome.circle.is_some();
    let is_unused = outcome.interactions == 0 && !outcome.by_rule.is_empty();
    matches!(outcome.end, End::Quiet) && is_unused && !has_told
}

/// Tells on standard error that no two agents met.
fn tell_idle(rt: &HostRuntime) {
    if let Ok(line) = idle_line(rt.alloc()) {
        let _ = rt.stderr().write_all(&line);
    }
}

/// How much time has passed, or none where the clock can't be read.
pub(crate) fn time_since(rt: &HostRuntime, begun: Option<Instant>) -> Duration {
    match begun {
        Some(begun) => begun.elapsed(rt).unwrap_or(Duration::ZERO),
        None => Duration::ZERO,
    }
}

/// Tells on standard error how many steps were made, in how many rounds, by how many threads, how fast, how many
/// interactions by each rule, and how several threads shared them.
fn tell_figures(
    rt: &HostRuntime,
    outcome: &Outcome,
    rounds: Option<u64>,
    threads: usize,
    shares: &Shares,
    time: Duration,
    format: FiguresFormat,
) {
    let millis = u64::try_from(time.as_millis()).unwrap_or(u64::MAX);
    let alloc = rt.alloc();
    let figures = match format {
        FiguresFormat::Lines => figures_lines(alloc, outcome, rounds, threads, shares, millis),
        FiguresFormat::Objects => figures_object(alloc, outcome, rounds, threads, shares, millis),
    };
    if let Ok(figures) = figures {
        let _ = rt.stderr().write_all(&figures);
    }
}

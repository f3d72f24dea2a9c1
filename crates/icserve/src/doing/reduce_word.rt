//! What `reduce` does, with the values that it is given.

use super::{Doing, Opening, begin_input, limits_of, open_input, open_rich, unread};
use crate::input::tell_of_plain;
use crate::keeping::{self, KeptIn};
use crate::profiling::{Profile, Profiled};
use crate::reducing::{self, Wanted, threads_for};
use crate::several::{Among, configurations_of, out_of_memory, refuse_several};
use ic_args::table::{
    FIGURES, FILE, KEEP, MAX_STEPS, NODES, ONE_FILE, PARTIAL, QUIET, REDUCERS, RESUME, ROUNDS,
    RULES_TOO, SECONDS, STATS, STEPS,
};
use ic_args::{FiguresFormat, Values};
use ic_exits::Failure;
use ic_expand::Begun;
use ic_in_place::{Asked, Bounds, RoundBounds};
use ic_workers::Policy;
use std::sync::Wait;
use std::thread::Threads;

/// Reduces the text by rounds, in place, or in place with files in which is kept what is reached.
pub(super) fn reduce<T: Threads + Wait + Sync>(
    doing: &Doing<'_, '_, T>,
    told: &mut Vec<u8>,
) -> Result<(), Failure> {
    if let Some(path) = doing.values.text(&KEEP) {
        return reduce_kept(doing, path, true, told);
    }
    if let Some(path) = doing.values.text(&RESUME) {
        return reduce_kept(doing, path, false, told);
    }
    // Where a profile is wanted, its place is opened before the text is read.
    let profiled = Profiled::of(doing.values);
    let text = doing.values.file(&FILE);
    let mut profile = Profile::open(doing.rt, profiled, text, doing.notes, told)?;
    let reduced = reduce_given(doing, &mut profile, told);
    profile.leave(doing.rt);
    reduced
}

/// Reduces the text that is given, with this profile.
fn reduce_given<T: Threads + Sync>(
    doing: &Doing<'_, '_, T>,
    profile: &mut Profile<'_, '_>,
    told: &mut Vec<u8>,
) -> Result<(), Failure> {
    match begin_input(doing)? {
        Begun::Plain(mut opened) => reduce_opened(doing, None, profile, &mut opened, told),
        Begun::Rich(text) => reduce_rich(doing, &text, profile, told),
    }
}

/// Reduces each configuration of a rich text, in their order. One that isn't done doesn't keep the others from being reduced.
fn reduce_rich<T: Threads + Sync>(
    doing: &Doing<'_, '_, T>,
    text: &[u8],
    profile: &mut Profile<'_, '_>,
    told: &mut Vec<u8>,
) -> Result<(), Failure> {
    let alloc = doing.rt.alloc();
    if profile.has_place() {
        refuse_several(alloc, text, told)?;
    }
    let several = configurations_of(alloc, text, told)?;
    if several.count() <= 1 {
        let mut input = open_rich(doing, text, told)?;
        return reduce_opened(doing, None, profile, &mut input, told);
    }
    let mut is_done = true;
    for number in 0..several.count() {
        let text = several.text_of(alloc, number).map_err(out_of_memory)?;
        let mut input = open_rich(doing, &text, told)?;
        let among = Among::of(&several, number);
        match reduce_opened(doing, Some(among), profile, &mut input, told) {
            Ok(()) => {}
            Err(Failure::NotDone) => is_done = false,
            Err(failure) => {
                among.tell_of(alloc, &failure, told);
                return Err(failure);
            }
        }
    }
    if is_done {
        Ok(())
    } else {
        Err(Failure::NotDone)
    }
}

/// Reduces a text, which may be that of one configuration of several.
fn reduce_opened<T: Threads + Sync>(
    doing: &Doing<'_, '_, T>,
    among: Option<Among>,
    profile: &mut Profile<'_, '_>,
    input: &mut Opening<'_>,
    told: &mut Vec<u8>,
) -> Result<(), Failure> {
    let reduced = match doing.values.number_met(&ROUNDS) {
        Some(rounds) => reduce_by_rounds(doing, rounds, among, input, told),
        None => reduce_in_place(doing, among, profile, input, told),
    };
    tell_of_plain(input, reduced, told)
}

/// By rounds a net is reduced by one thread.
fn reduce_by_rounds<T>(
    doing: &Doing<'_, '_, T>,
    rounds: u64,
    among: Option<Among>,
    input: &mut Opening<'_>,
    told: &mut Vec<u8>,
) -> Result<(), Failure> {
    let bounds = RoundBounds {
        rounds,
        nodes: doing.values.number(&NODES),
    };
    let wanted = wanted_of(doing.values, Policy::of(1), among);
    let limits = limits_of(doing.values);
    reducing::reduce_by_rounds(doing.rt, limits, bounds, wanted, input, doing.notes, told)
}

fn reduce_in_place<T: Threads + Sync>(
    doing: &Doing<'_, '_, T>,
    among: Option<Among>,
    profile: &mut Profile<'_, '_>,
    input: &mut Opening<'_>,
    told: &mut Vec<u8>,
) -> Result<(), Failure> {
    let bounds = bounds_of(doing.values);
    let threads = threads_for(doing.threads, said_of(doing.values), bounds.steps);
    let wanted = wanted_of(doing.values, Policy::of(threads), among);
    let limits = limits_of(doing.values);
    reducing::reduce(
        doing.rt,
        doing.threads,
        limits,
        bounds,
        wanted,
        profile,
        input,
        doing.notes,
        told,
    )
}

/// One that goes on with what is kept reads no text.
fn reduce_kept<T: Threads + Sync>(
    doing: &Doing<'_, '_, T>,
    path: &str,
    begins: bool,
    told: &mut Vec<u8>,
) -> Result<(), Failure> {
    let kept = KeptIn {
        path,
        begins,
        from_one: doing.values.flag(&ONE_FILE),
        seconds: doing.values.number(&SECONDS),
        rounds: doing.values.number_met(&ROUNDS),
        is_in_any_order: has_order(doing.values),
    };
    let bounds = bounds_of(doing.values);
    let threads = threads_for(doing.threads, said_of(doing.values), bounds.steps);
    let wanted = wanted_of(doing.values, Policy::of(threads), None);
    let mut input = if begins {
        open_input(doing, told)?
    } else {
        unread(doing)
    };
    let reduced = keeping::reduce(
        doing.rt,
        doing.threads,
        kept,
        bounds,
        wanted,
        &mut input,
        doing.notes,
        told,
    );
    tell_of_plain(&input, reduced, told)
}

/// Whether it is said how many interactions are made at most, or how many threads reduce.
fn has_order(values: &Values) -> bool {
    values.number_met(&STEPS).is_some() || values.number_met(&REDUCERS).is_some()
}

/// How many threads are said to reduce, if it is said.
fn said_of(values: &Values) -> Option<u32> {
    match values.number_met(&REDUCERS) {
        Some(number) => Some(number as u32),
        None => None,
    }
}

/// The bounds of a reduction in place.
fn bounds_of(values: &Values) -> Bounds {
    Bounds {
        steps: values.number_met(&STEPS).unwrap_or(MAX_STEPS),
        nodes: values.number(&NODES),
    }
}

/// What is wanted of a reduction in place, which may be that of one configuration of several.
fn wanted_of(values: &Values, policy: Policy, among: Option<Among>) -> Wanted {
    let format = FiguresFormat::of(values.choice(&FIGURES));
    Wanted {
        asked: asked_of(values.flag(&QUIET), values.flag(&PARTIAL)),
        has_rules: values.flag(&RULES_TOO),
        figures: if values.flag(&STATS) || Profiled::of(values).has_span {
            Some(format)
        } else {
            None
        },
        policy,
        among,
    }
}

/// What of a reduction in place is printed, by whether nothing is, and whether a part of the way is, too.
fn asked_of(quiet: bool, partial: bool) -> Asked {
    match (quiet, partial) {
        (true, _) => Asked::Nothing,
        (false, true) => Asked::AlsoPart,
        (false, false) => Asked::Answer,
    }
}

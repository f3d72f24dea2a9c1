//! Reducing by several threads a system, or what a reader gives.

ghost use Rattle.std.specs.Prelude.{◌≡◌, ◌≢◌, IfOk, IfErr, OnOk};
ghost use Rattle.std.specs.Io.KnownBytes.{Keeps};
ghost use Rattle.ic_in_place.specs.Stopping.{HasCome};
ghost use Rattle.ic_streams.specs.Streams.{OfText, IsAnswered, FaultOf, TakesAtWithin, TakesTextWithin};
ghost use Rattle.ic_in_place.specs.Reductions.{EndsAs, EndsOf, IsReducedTo, ReducesInPlace, Tells};

use crate::desk::run_by_workers;
use crate::policy::Policy;
use ic_diagnostics::{Kind, refused_within};
use ic_flat::WideSystem;
use ic_in_place::{Asked, Bounds, Outcome, Reduced, Stopped, Watch, read_stopped, stopped_line};
use ic_streams::{StreamFault, read_text_within, write_line};
use ic_text::{Limits, find_wide_system};
use std::alloc::{AllocError, Global};
use std::io::{Read, Write};
use std::thread::Threads;
use std::time::Clock;

/// Reduces the system that the reader gives by several threads, and writes what was reached as a line, if that is asked for.
/// What is told of it is of the same kind whatever is asked for.
///
/// Nothing is written before the text is read and reduced. A text that passes these limits is `TextFault::Limit`, and at most
/// one byte more is read than a text may have. Where the text is refused, the lines that tell of it are appended to `told`.
pub fn reduce_by_workers_stream<T: Threads + Sync, C: Clock + Sync, V: Watch, R: Read, W: Write>(
    rt: &T,
    clock: &C,
    alloc: Global,
    limits: Limits,
    policy: Policy,
    bounds: Bounds,
    asked: Asked,
    watch: &V,
    reader: &mut R,
    writer: &mut W,
    told: &mut Vec<u8>,
) -> Result<Outcome, StreamFault>
    ensures answered { OfText (R.remaining reader.old)
        (λ text. IsAnswered (ReducesInPlace limits bounds asked) text result
        (W.contents writer.old) (W.contents writer.new) × IfOk result (λ outcome. Tells limits
        bounds asked text outcome (W.contents writer.old) (W.contents writer.new))) }
    ensures silent { IfErr result (λ fault. fault ≢ StreamFault.Write
        → Keeps (W.contents writer.old) (W.contents writer.new)) }
    ensures taken { OnOk result
        (TakesTextWithin limits (R.remaining reader.old) (R.remaining reader.new)) }
    ensures taken_at_fault { IfErr result
        (λ fault. TakesAtWithin limits fault (R.remaining reader.old) (R.remaining reader.new)) }
    ensures quiet { OnOk result (told.new.items ≡ told.old.items) }
{
    let text = read_text_within(alloc, limits, reader)?;
    let (line, outcome) = reached_line(
        rt, clock, alloc, limits, policy, bounds, asked, watch, text, told,
    )?;
    write_line(writer, &line)?;
    Ok(outcome)
}

/// The line of a text that several threads reduce, and how that ended. Where the line isn't to be written, it is empty.
fn reached_line<T: Threads + Sync, C: Clock + Sync, V: Watch>(
    rt: &T,
    clock: &C,
    alloc: Global,
    limits: Limits,
    policy: Policy,
    bounds: Bounds,
    asked: Asked,
    watch: &V,
    text: Vec<u8>,
    told: &mut Vec<u8>,
) -> Result<(Vec<u8>, Outcome), StreamFault>
    ensures line { IfOk result
        (λ answer. EndsAs limits bounds asked text.items answer.1 answer.0.items) }
    ensures refused { IfErr result
        (λ fault. FaultOf (ReducesInPlace limits bounds asked) text.items fault) }
    ensures quiet { OnOk result (told.new.items ≡ told.old.items) }
    ensures sort { IfErr result
        (λ fault. (fault ≢ StreamFault.Write) × (fault ≢ StreamFault.Read)) }
{
    let system = match find_wide_system(alloc, limits, &text) {
        Ok(found) => found,
        Err(misread) => {
            return Err(refused_within(alloc, limits, Kind::System, &text, misread, told));
        }
    };
    drop(text);
    let answer = line_by_workers(rt, clock, alloc, system, policy, bounds, asked, watch)?;
    Ok(answer)
}

/// The line of what a system reaches by several threads, and how that ended. Where the line isn't to be written, it is empty.
pub fn line_by_workers<T: Threads + Sync, C: Clock + Sync, V: Watch>(
    rt: &T,
    clock: &C,
    alloc: Global,
    system: WideSystem,
    policy: Policy,
    bounds: Bounds,
    asked: Asked,
    watch: &V,
) -> Result<(Vec<u8>, Outcome), AllocError>
    ensures { IfOk result
        (λ answer. EndsOf system bounds asked answer.1 answer.0.items) }
{
    let stopped = run_or_run_anew(rt, clock, alloc, &system, policy, bounds, watch)?;
    let answer = stopped_line(alloc, system, stopped, asked)?;
    Ok(answer)
}

/// Reduces a system by several threads, as `reduce_in_place` does by one. What was reached has its names numbered anew.
pub fn reduce_by_workers<T: Threads + Sync, C: Clock + Sync, V: Watch>(
    rt: &T,
    clock: &C,
    alloc: Global,
    system: WideSystem,
    policy: Policy,
    bounds: Bounds,
    watch: &V,
) -> Result<Reduced, AllocError>
    ensures { IfOk result (IsReducedTo system bounds) }
{
    let stopped = run_or_run_anew(rt, clock, alloc, &system, policy, bounds, watch)?;
    let reduced = read_stopped(alloc, system, stopped)?;
    Ok(reduced)
}

/// Reduces a system by several threads. If memory ran out while they handed on what they had, or numbers did, nothing of that is
/// kept, and one thread reduces the system from its beginning.
fn run_or_run_anew<T: Threads + Sync, C: Clock + Sync, V: Watch>(
    rt: &T,
    clock: &C,
    alloc: Global,
    system: &WideSystem,
    policy: Policy,
    bounds: Bounds,
    watch: &V,
) -> Result<Stopped, AllocError>
    ensures { IfOk result (λ stopped. HasCome system.now bounds stopped.given.items
        stopped.by_rule.items stopped.machine stopped.end) }
{
    match run_by_workers(rt, clock, alloc, system, policy, bounds, watch) {
        Ok(stopped) => Ok(stopped),
        Err(refused) if policy.workers <= 1 => Err(refused),
        Err(_) => run_by_workers(rt, clock, alloc, system, Policy::of(1), bounds, watch),
    }
}

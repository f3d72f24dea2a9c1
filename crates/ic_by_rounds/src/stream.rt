//! Tracing what a reader gives.

ghost use Rattle.std.specs.Prelude.{◌≡◌, ◌≢◌, IfErr, OnOk};
ghost use Rattle.std.specs.Io.KnownBytes.{Keeps};
ghost use Rattle.ic_streams.specs.Streams.{OfText, TakesAtWithin, TakesTextWithin};
ghost use Rattle.ic_by_rounds.specs.Traces.{IsTraced};

use crate::summary::Summary;
use crate::tracing::{Format, Tracing};
use ic_in_place::{Asked, RoundBounds, Rounded, Watch, reduce_by_rounds};
use ic_streams::{StreamFault, read_text_within};
use ic_text::Limits;
use std::alloc::Global;
use std::io::{Read, Write};

/// What is told of the rounds of a text.
#[derive(Drop)]
pub struct Traced {
    /// How they ended, and how many there were.
    pub reached: Rounded,
    /// What all of them did.
    pub summary: Summary,
}

/// Makes rounds of the system that the reader gives, in place, and writes what each of them does, as it is over: a table or
/// objects of JSON. A picture is written as all are over. Where a bound or a limit is met, the rounds before are told all the same.
pub fn trace_stream<V: Watch, R: Read, W: Write>(
    alloc: Global,
    limits: Limits,
    bounds: RoundBounds,
    format: Format,
    watch: &V,
    reader: &mut R,
    writer: &mut W,
    told: &mut Vec<u8>,
) -> Result<Traced, StreamFault>
    // There is a text of which this holds: the reader's, where it tells its bytes.
    ensures traced { OfText (R.remaining reader.old)
        (λ text. IsTraced limits bounds.rounds format text result
        (W.contents writer.old) (W.contents writer.new)) }
    // A text that is refused is refused before anything is written.
    ensures silent { IfErr result (λ fault. fault ≢ StreamFault.Memory → fault ≢ StreamFault.Write
        → Keeps (W.contents writer.old) (W.contents writer.new)) }
    ensures taken { OnOk result
        (TakesTextWithin limits (R.remaining reader.old) (R.remaining reader.new)) }
    ensures taken_at_fault { IfErr result
        (λ fault. TakesAtWithin limits fault (R.remaining reader.old) (R.remaining reader.new)) }
    ensures quiet { OnOk result (told.new.items ≡ told.old.items) }
{
    ic_in_place::laws::what_is_told_of_rounds();
    ic_in_place::laws::amounts_are_those_of_rounds();
    ic_in_place::laws::counts_tell_the_amounts_of_rounds();
    let text = read_text_within(alloc, limits, reader)?;
    let mut tracing = Tracing::new(alloc, format);
    let (_, reached) = reduce_by_rounds(
        alloc,
        limits,
        bounds,
        Asked::Nothing,
        watch,
        &mut tracing,
        writer,
        &text,
        told,
    )?;
    tracing.end(reached.rounds, reached.outcome.end, writer)?;
    let summary = tracing.summary;
    Ok(Traced { reached, summary })
}

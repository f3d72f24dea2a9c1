//! Expanding what a reader gives, and telling of a text that is refused.

ghost use Rattle.std.specs.Prelude.{◌≡◌, ◌≢◌, ◌⊎◌, Ok, IfOk, IfErr, OnOk, OnErr};
ghost use Rattle.std.specs.Io.KnownBytes.{Keeps};
ghost use Rattle.ic_streams.specs.Streams.{FaultOf, IsAnswered, OfText};
ghost use Rattle.ic_expand.specs.Streams.{Expands, TakesAt, TakesSome, TakesText, TakesWhole};
ghost use Rattle.ic_streams.specs.declared.fault.StreamFault.TheVariants.{Text};

use crate::limits::MAX_RICH_TEXT;
use crate::texts::{Expanded, Refusal, Unexpanded, expand_text};
use ic_diagnostics::place_lines;
use ic_rich::Files;
use ic_streams::{StreamFault, write_line};
use std::alloc::Global;
use std::io::{ErrorKind, Read, Write};

/// How many bytes are read at a time.
const CHUNK: usize = 8_192;

/// Writes the text of the calculus for which the text stands that the reader gives.
///
/// Nothing is written before the text is read and expanded. A text of more than 2^33 bytes is `TextFault::Limit`, and no
/// more than one byte after these is read; any other refusal is `TextFault::Syntax`. Where the text is refused, the lines
/// that tell of it are appended to `told`.
pub fn expand_stream<R: Read, W: Write, F: Files>(
    alloc: Global,
    reader: &mut R,
    writer: &mut W,
    files: &F,
    told: &mut Vec<u8>,
) -> Result<(), StreamFault>
    // There is a text of which this holds: the reader's, where it tells its bytes.
    ensures answered { OfText (R.remaining reader.old) (λ text. IsAnswered Expands text result
        (W.contents writer.old) (W.contents writer.new)) }
    ensures silent { IfErr result (λ fault. fault ≢ StreamFault.Write
        → Keeps (W.contents writer.old) (W.contents writer.new)) }
    ensures taken { OnOk result (TakesText (R.remaining reader.old) (R.remaining reader.new)) }
    ensures taken_at_fault { IfErr result
        (λ fault. TakesAt fault (R.remaining reader.old) (R.remaining reader.new)) }
    ensures quiet { OnOk result (told.new.items ≡ told.old.items) }
{
    let text = read_whole(alloc, reader)?;
    let out = told_text(alloc, &text, files, told)?;
    write_line(writer, &out.text)
}

/// All that the reader has, or one byte more than a text may have.
pub(crate) fn read_whole<R: Read>(alloc: Global, reader: &mut R) -> Result<Vec<u8>, StreamFault>
    ensures text { IfOk result
        (λ text. TakesWhole text.items (R.remaining reader.old) (R.remaining reader.new)) }
    ensures some { OnErr result (TakesSome (R.remaining reader.old) (R.remaining reader.new)) }
    ensures sort { IfErr result
        (λ fault. (fault ≡ StreamFault.Read) ⊎ (fault ≡ StreamFault.Memory)) }
{
    let mut text = Vec::new(alloc);
    let mut chunk = [0u8; CHUNK];
    for _ in 0..u64::MAX {
        if text.len() > MAX_RICH_TEXT {
            return Ok(text);
        }
        let room = CHUNK.min(MAX_RICH_TEXT + 1 - text.len());
        match reader.read(&mut chunk[..room]) {
            Ok(0) => return Ok(text),
            Ok(count) => text.extend_from_slice(&chunk[..count])?,
            Err(error) if error.kind() == ErrorKind::Interrupted => {}
            Err(_) => return Err(StreamFault::Read),
        }
    }
    Err(StreamFault::Read)
}

/// What a text is expanded to, or its refusal, of which `told` gets the lines.
pub(crate) fn told_text<F: Files>(
    alloc: Global,
    text: &[u8],
    files: &F,
    told: &mut Vec<u8>,
) -> Result<Expanded, StreamFault>
    ensures text { IfOk result (λ out. Expands text.now (Ok out.text.items)) }
    ensures refused { IfErr result (λ fault. FaultOf Expands text.now fault) }
    ensures quiet { OnOk result (told.new.items ≡ told.old.items) }
    ensures sort { IfErr result
        (λ fault. (fault ≢ StreamFault.Write) × (fault ≢ StreamFault.Read)) }
{
    match expand_text(alloc, text, files) {
        Ok(out) => Ok(out),
        Err(Unexpanded::Memory) => Err(StreamFault::Memory),
        Err(Unexpanded::Refused(refusal)) => Err(told_fault(alloc, &refusal, told)),
    }
}

/// The fault of a stream whose text is refused so, of which `told` gets the lines. Where memory ran out it gets nothing.
fn told_fault(alloc: Global, refusal: &Refusal, told: &mut Vec<u8>) -> StreamFault
    ensures fault { (result ≡ StreamFault.Memory) ⊎ (result ≡ Text refusal.now.fault) }
{
    match place_lines(alloc, &refusal.body, refusal.at, &refusal.sentence) {
        Ok(lines) => match told.extend_from_slice(&lines) {
            Ok(()) => StreamFault::Text(refusal.fault),
            Err(_) => StreamFault::Memory,
        },
        Err(_) => StreamFault::Memory,
    }
}

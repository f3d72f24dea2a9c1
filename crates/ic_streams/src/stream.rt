//! What a reader gives, and what a writer is given.

ghost use Rattle.std.specs.Prelude.{◌≡◌, ◌⊎◌, IfOk, IfErr, IsTrue, OnOk, OnErr, []};
ghost use Rattle.std.specs.Io.KnownBytes.{Appends};
ghost use Rattle.ic_output.specs.Output.{AppendsFront};
ghost use Rattle.ic_term.specs.Symbol.{is_over};
ghost use Rattle.ic_streams.specs.Streams.{TakesIt, TakesItWithin, TakesSome, TakesSomeWithin, line_of};

use crate::fault::StreamFault;
use ic_flat::Flat;
use ic_output::write_flushed;
use ic_term::Symbols;
use ic_text::{Limits, print_flat};
use std::alloc::{AllocError, Global};
use std::io::{ErrorKind, Read, Write};

/// How many bytes are read at a time.
const CHUNK: usize = 8_192;

/// All that the reader has, or its first 262,145 bytes.
pub fn read_text<R: Read>(alloc: Global, reader: &mut R) -> Result<Vec<u8>, StreamFault>
    ensures text { IfOk result
        (λ text. TakesIt text.items (R.remaining reader.old) (R.remaining reader.new)) }
    ensures some { OnErr result (TakesSome (R.remaining reader.old) (R.remaining reader.new)) }
    ensures sort { IfErr result
        (λ fault. (fault ≡ StreamFault.Read) ⊎ (fault ≡ StreamFault.Memory)) }
{
    read_text_within(alloc, Limits::Served, reader)
}

/// All that the reader has, or its first bytes, one more than a text may have with these limits.
pub fn read_text_within<R: Read>(
    alloc: Global,
    limits: Limits,
    reader: &mut R,
) -> Result<Vec<u8>, StreamFault>
    ensures text { IfOk result (λ text. TakesItWithin limits text.items
        (R.remaining reader.old) (R.remaining reader.new)) }
    ensures some { OnErr result
        (TakesSomeWithin limits (R.remaining reader.old) (R.remaining reader.new)) }
    ensures sort { IfErr result
        (λ fault. (fault ≡ StreamFault.Read) ⊎ (fault ≡ StreamFault.Memory)) }
{
    let mut text = Vec::new(alloc);
    let mut chunk = [0u8; CHUNK];
    for _ in 0..u64::MAX {
        let most = limits.text_bytes();
        if text.len() > most {
            return Ok(text);
        }
        let room = CHUNK.min((most - text.len()).saturating_add(1));
        match reader.read(&mut chunk[..room]) {
            Ok(0) => return Ok(text),
            Ok(count) => text.extend_from_slice(&chunk[..count])?,
            Err(error) if error.kind() == ErrorKind::Interrupted => {}
            Err(_) => return Err(StreamFault::Read),
        }
    }
    Err(StreamFault::Read)
}

/// The line of a configuration.
pub fn flat_line(alloc: Global, symbols: &Symbols, flat: &Flat) -> Result<Vec<u8>, AllocError>
    requires { IsTrue (is_over symbols.now flat.now) }
    ensures { IfOk result (λ line. line.items ≡ line_of symbols.now flat.now) }
{
    let mut line = print_flat(alloc, symbols, flat)?;
    line.push(b'\n')?;
    Ok(line)
}

/// Writes a line and flushes it. Where the writer fails, a front of it is written.
pub fn write_line<W: Write>(writer: &mut W, line: &[u8]) -> Result<(), StreamFault>
    ensures written { OnOk result
        (Appends (W.contents writer.old) (W.contents writer.new) line.now) }
    ensures cut { OnErr result
        (AppendsFront (W.contents writer.old) (W.contents writer.new) [] line.now) }
    ensures refused { IfErr result (λ fault. fault ≡ StreamFault.Write) }
{
    match write_flushed(writer, line) {
        Ok(()) => Ok(()),
        Err(_) => Err(StreamFault::Write),
    }
}

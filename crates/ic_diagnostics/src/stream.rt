//! Answering what a reader gives, and telling of a text that is refused.

ghost use Rattle.std.specs.Prelude.{◌≡◌, ◌≢◌, ◌⊎◌, ℕ, List, Ok, IfOk, IfErr, IsTrue, OnOk};
ghost use Rattle.std.specs.Io.KnownBytes.{Keeps};
ghost use Rattle.ic_term.specs.Symbol.{is_over};
ghost use Rattle.ic_round.specs.Settling.{settled};
ghost use Rattle.ic_text.specs.SystemText.{ReadsSystem};
ghost use Rattle.ic_streams.specs.Streams.{OfText, IsAnswered, FaultOf, Rounds, Settles, TakesAt, TakesText, line_of};
ghost use Rattle.ic_streams.specs.Faults.{fault_of_text};

use crate::telling::{Kind, told_lines_within};
use ic_flat::{Flat, FlatSystem};
use ic_flat_round::{FlatRules, round, settle};
use ic_streams::{StreamFault, flat_line, read_text, write_line};
use ic_term::Symbols;
use ic_text::{Limits, Misread, TextFault, find_flat_config, find_flat_system};
use std::alloc::{AllocError, Global};
use std::io::{Read, Write};

/// Settles the configuration that the reader gives, and writes it as a line. Where the text is refused, the lines that
/// tell of it are appended to `told`.
///
/// Nothing is written before the text is read and settled. Where the writer fails, a front of the line is written. A
/// text of more than 262,144 bytes is `TextFault::Limit`, and at most 262,145 bytes are read.
pub fn settle_telling<R: Read, W: Write>(
    alloc: Global,
    reader: &mut R,
    writer: &mut W,
    told: &mut Vec<u8>,
) -> Result<(), StreamFault>
    // There is a text of which this holds: the reader's, where it tells its bytes.
    ensures answered { OfText (R.remaining reader.old) (λ text. IsAnswered Settles text result
        (W.contents writer.old) (W.contents writer.new)) }
    ensures silent { IfErr result (λ fault. fault ≢ StreamFault.Write
        → Keeps (W.contents writer.old) (W.contents writer.new)) }
    ensures taken { OnOk result (TakesText (R.remaining reader.old) (R.remaining reader.new)) }
    ensures taken_at_fault { IfErr result
        (λ fault. TakesAt fault (R.remaining reader.old) (R.remaining reader.new)) }
    ensures quiet { OnOk result (told.new.items ≡ told.old.items) }
{
    let text = read_text(alloc, reader)?;
    let line = settled_line(alloc, &text, told)?;
    write_line(writer, &line)
}

/// Makes one round of the system that the reader gives, and writes its configuration as a line. Where the text is
/// refused, the lines that tell of it are appended to `told`.
///
/// Nothing is written before the text is read and the round is made. Where the writer fails, a front of the line is
/// written. The reader is read as by `settle_telling`.
pub fn once_telling<R: Read, W: Write>(
    alloc: Global,
    reader: &mut R,
    writer: &mut W,
    told: &mut Vec<u8>,
) -> Result<(), StreamFault>
    // There is a text of which this holds: the reader's, where it tells its bytes.
    ensures answered { OfText (R.remaining reader.old) (λ text. IsAnswered Rounds text result
        (W.contents writer.old) (W.contents writer.new)) }
    ensures silent { IfErr result (λ fault. fault ≢ StreamFault.Write
        → Keeps (W.contents writer.old) (W.contents writer.new)) }
    ensures taken { OnOk result (TakesText (R.remaining reader.old) (R.remaining reader.new)) }
    ensures taken_at_fault { IfErr result
        (λ fault. TakesAt fault (R.remaining reader.old) (R.remaining reader.new)) }
    ensures quiet { OnOk result (told.new.items ≡ told.old.items) }
{
    let text = read_text(alloc, reader)?;
    let line = once_line(alloc, &text, told)?;
    write_line(writer, &line)
}

/// The fault of a stream whose text is refused, of which `told` gets the lines. Where memory ran out it gets nothing.
pub fn refused(
    alloc: Global,
    kind: Kind,
    text: &[u8],
    misread: Misread,
    told: &mut Vec<u8>,
) -> StreamFault
    ensures fault { (result ≡ StreamFault.Memory) ⊎ (result ≡ fault_of_text misread.fault) }
{
    refused_within(alloc, Limits::Served, kind, text, misread, told)
}

/// The same of a text that is refused with any limits.
pub fn refused_within(
    alloc: Global,
    limits: Limits,
    kind: Kind,
    text: &[u8],
    misread: Misread,
    told: &mut Vec<u8>,
) -> StreamFault
    ensures fault { (result ≡ StreamFault.Memory) ⊎ (result ≡ fault_of_text misread.fault) }
{
    if misread.fault == TextFault::Memory {
        return StreamFault::Memory;
    }
    match told_lines_within(alloc, limits, kind, text, misread) {
        Ok(lines) => match told.extend_from_slice(&lines) {
            Ok(()) => StreamFault::from(misread.fault),
            Err(_) => StreamFault::Memory,
        },
        Err(_) => StreamFault::Memory,
    }
}

/// The line of a text that is settled, or its refusal, of which `told` gets the lines.
fn settled_line(alloc: Global, text: &[u8], told: &mut Vec<u8>) -> Result<Vec<u8>, StreamFault>
    ensures line { IfOk result (λ line. Settles text.now (Ok line.items)) }
    ensures refused { IfErr result (λ fault. FaultOf Settles text.now fault) }
    ensures quiet { OnOk result (told.new.items ≡ told.old.items) }
    ensures sort { IfErr result
        (λ fault. (fault ≢ StreamFault.Write) × (fault ≢ StreamFault.Read)) }
{
    match find_flat_config(alloc, text) {
        Ok((symbols, config)) => Ok(line_settled(alloc, &symbols, &config)?),
        Err(misread) => Err(refused(alloc, Kind::Config, text, misread, told)),
    }
}

/// The line of a configuration that is settled.
fn line_settled(alloc: Global, symbols: &Symbols, config: &Flat) -> Result<Vec<u8>, AllocError>
    requires { IsTrue (is_over symbols.now config.now) }
    ensures { IfOk result (λ line. line.items ≡ line_of symbols.now (settled config.now)) }
{
    let settled = settle(alloc, config)?;
    flat_line(alloc, symbols, &settled)
}

/// The line of a text of which one round is made, or its refusal, of which `told` gets the lines.
fn once_line(alloc: Global, text: &[u8], told: &mut Vec<u8>) -> Result<Vec<u8>, StreamFault>
    ensures line { IfOk result (λ line. Rounds text.now (Ok line.items)) }
    ensures refused { IfErr result (λ fault. FaultOf Rounds text.now fault) }
    ensures quiet { OnOk result (told.new.items ≡ told.old.items) }
    ensures sort { IfErr result
        (λ fault. (fault ≢ StreamFault.Write) × (fault ≢ StreamFault.Read)) }
{
    match find_flat_system(alloc, text) {
        Ok(system) => round_line(alloc, system),
        Err(misread) => Err(refused(alloc, Kind::System, text, misread, told)),
    }
}

/// The line of a system of which one round is made, or why none is: so it is of each text that is read as the system.
fn round_line(alloc: Global, system: FlatSystem) -> Result<Vec<u8>, StreamFault>
    ensures line { IfOk result (λ line. (text : List ℕ) → ReadsSystem text (Ok system)
        → Rounds text (Ok line.items)) }
    ensures refused { IfErr result (λ fault. (text : List ℕ) → ReadsSystem text (Ok system)
        → FaultOf Rounds text fault) }
    ensures sort { IfErr result
        (λ fault. (fault ≢ StreamFault.Write) × (fault ≢ StreamFault.Read)) }
{
    let (rules, config) = system.into_parts();
    let rules = FlatRules::new(alloc, rules)?;
    let after = round(alloc, &rules, &config)?;
    Ok(flat_line(alloc, rules.rules().symbols(), &after)?)
}

//! Drawing what a reader gives.

ghost use Rattle.std.specs.Prelude.{◌≡◌, ◌≢◌, Ok, IfOk, IfErr, OnOk};
ghost use Rattle.std.specs.Io.KnownBytes.{Keeps};
ghost use Rattle.ic_streams.specs.Streams.{OfText, IsAnswered, FaultOf, TakesAt, TakesText};
ghost use Rattle.ic_nets.specs.Draws.{Draws, has_rules};

use crate::drawing::dot;
use crate::net::net_of;
use ic_diagnostics::{Kind, refused};
use ic_rules::RuleSet;
use ic_streams::{StreamFault, read_text, write_line};
use ic_term::Config;
use ic_text::{find_config, find_system, is_blank};
use std::alloc::{AllocError, Global};
use std::io::{Read, Write};

/// Writes the net of the configuration that the reader gives as a graph, in Graphviz's DOT. Rules may stand before the
/// configuration: active pairs stand out then.
///
/// Nothing is written before the text is read and drawn. A text of more than 262,144 bytes is `TextFault::Limit`, and
/// at most 262,145 bytes are read. Where the text is refused, the lines that tell of it are appended to `told`. How a net is
/// drawn, and what is told, trials look at.
pub fn draw_stream<R: Read, W: Write>(
    alloc: Global,
    reader: &mut R,
    writer: &mut W,
    told: &mut Vec<u8>,
) -> Result<(), StreamFault>
    // There is a text of which this holds: the reader's, where it tells its bytes.
    ensures answered { OfText (R.remaining reader.old) (λ text. IsAnswered Draws text result
        (W.contents writer.old) (W.contents writer.new)) }
    ensures silent { IfErr result (λ fault. fault ≢ StreamFault.Write
        → Keeps (W.contents writer.old) (W.contents writer.new)) }
    ensures taken { OnOk result (TakesText (R.remaining reader.old) (R.remaining reader.new)) }
    ensures taken_at_fault { IfErr result
        (λ fault. TakesAt fault (R.remaining reader.old) (R.remaining reader.new)) }
    ensures quiet { OnOk result (told.new.items ≡ told.old.items) }
{
    let text = read_text(alloc, reader)?;
    let graph = graph_of(alloc, &text, told)?;
    write_line(writer, &graph)
}

/// The graph of a text.
fn graph_of(alloc: Global, text: &[u8], told: &mut Vec<u8>) -> Result<Vec<u8>, StreamFault>
    ensures read { IfOk result (λ graph. Draws text.now (Ok graph.items)) }
    ensures refused { IfErr result (λ fault. FaultOf Draws text.now fault) }
    ensures quiet { OnOk result (told.new.items ≡ told.old.items) }
    ensures sort { IfErr result
        (λ fault. (fault ≢ StreamFault.Write) × (fault ≢ StreamFault.Read)) }
{
    if has_rules(text) {
        let system = match find_system(alloc, text) {
            Ok(found) => found,
            Err(misread) => return Err(refused(alloc, Kind::System, text, misread, told)),
        };
        let (rules, config) = system.into_parts();
        return Ok(draw(alloc, &rules, &config)?);
    }
    let (symbols, config) = match find_config(alloc, text) {
        Ok(found) => found,
        Err(misread) => return Err(refused(alloc, Kind::Config, text, misread, told)),
    };
    match RuleSet::build(alloc, symbols, Vec::new(alloc)) {
        Ok(rules) => Ok(draw(alloc, &rules, &config)?),
        Err(_) => Err(StreamFault::Memory),
    }
}

/// The graph of the net of a configuration.
pub fn draw(alloc: Global, rules: &RuleSet, config: &Config) -> Result<Vec<u8>, AllocError> {
    let net = net_of(alloc, rules, config)?;
    dot(alloc, rules, &net)
}

/// Whether the first byte that isn't blank is `{`.
fn has_rules(text: &[u8]) -> bool
    ensures { result ≡ has_rules text.now }
{
    for byte in text {
        if !is_blank(*byte) {
            return *byte == b'{';
        }
    }
    false
}

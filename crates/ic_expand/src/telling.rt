//! Telling a net in the words of the rich text from which it comes.

ghost use Rattle.std.specs.Prelude.{◌≡◌, ◌≢◌, ◌⊎◌, ℕ, List, [], IfErr, IfNone, OnOk};
ghost use Rattle.std.specs.Io.KnownBytes.{Appends, Keeps};
ghost use Rattle.ic_output.specs.Output.{AppendsFront};

use ic_rich::{Wording, told_graph, told_line};
use ic_streams::{StreamFault, write_line};
use std::alloc::{AllocError, Global};
use std::io::Write;

/// What is told: the line of a net, or a graph of one.
#[derive(Clone, Copy)]
pub enum Shape {
    Line,
    Graph,
}

/// What is told of a net in these words.
fn told_in(
    alloc: Global,
    wording: &Wording,
    shape: Shape,
    plain: &[u8],
) -> Result<Vec<u8>, AllocError> {
    match shape {
        Shape::Line => told_line(alloc, wording, plain),
        Shape::Graph => told_graph(alloc, wording, plain),
    }
}

/// Writes what tells of a net, in the words of the text from which it comes where there are some, and else as it stands. Nothing is
/// written where memory runs out, and where the writer fails a front of it.
pub fn write_told<W: Write>(
    alloc: Global,
    wording: Option<&Wording>,
    shape: Shape,
    plain: &[u8],
    writer: &mut W,
) -> Result<(), StreamFault>
    ensures plain { IfNone wording.entry
        (OnOk result (Appends (W.contents writer.old) (W.contents writer.new) plain.now)) }
    ensures told { OnOk result
        ((out : List ℕ) × Appends (W.contents writer.old) (W.contents writer.new) out) }
    ensures cut { IfErr result (λ fault. fault ≡ StreamFault.Write → (out : List ℕ)
        × AppendsFront (W.contents writer.old) (W.contents writer.new) [] out) }
    ensures silent { IfErr result (λ fault. fault ≢ StreamFault.Write
        → Keeps (W.contents writer.old) (W.contents writer.new)) }
    ensures sort { IfErr result
        (λ fault. (fault ≡ StreamFault.Write) ⊎ (fault ≡ StreamFault.Memory)) }
{
    match wording {
        Some(wording) => {
            let told = told_in(alloc, wording, shape, plain)?;
            write_line(writer, &told)
        }
        None => write_line(writer, plain),
    }
}

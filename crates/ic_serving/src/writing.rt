//! Writing what answers a line.

ghost use Rattle.std.specs.Prelude.{◌≡◌, [], OnOk, OnErr, IfErr};
ghost use Rattle.std.specs.Io.KnownBytes.{Appends};
ghost use Rattle.ic_serving.specs.Served.{AppendsFront};

use crate::fault::ServeFault;
use std::io::{ErrorKind, Write};

/// Writes an answer. Where the writer fails, a front of it is written.
pub(crate) fn write_answer<W: Write>(writer: &mut W, answer: &[u8]) -> Result<(), ServeFault>
    ensures written { OnOk result
        (Appends (W.contents writer.old) (W.contents writer.new) answer.now) }
    ensures cut { OnErr result
        (AppendsFront (W.contents writer.old) (W.contents writer.new) [] answer.now) }
    ensures fault { IfErr result (λ fault. fault ≡ ServeFault.Write) }
{
    let mut rest = answer;
    for _ in 0..u64::MAX {
        if rest.is_empty() {
            return Ok(());
        }
        match writer.write(rest) {
            Ok(0) => return Err(ServeFault::Write),
            Ok(count) => rest = &rest[count..],
            Err(error) if error.kind() == ErrorKind::Interrupted => {}
            Err(_) => return Err(ServeFault::Write),
        }
    }
    Err(ServeFault::Write)
}

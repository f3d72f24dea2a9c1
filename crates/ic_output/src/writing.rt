//! Writing all bytes, or a front of them.

ghost use Rattle.std.specs.Prelude.{[], OnOk, OnErr};
ghost use Rattle.std.specs.Io.KnownBytes.{Appends};
ghost use Rattle.ic_output.specs.Output.{AppendsFront};

use std::io;
use std::io::{ErrorKind, Write};

/// Writes bytes, and tries again where a write was interrupted. Where the writer fails, a front of them is written.
pub fn write_whole<W: Write>(writer: &mut W, bytes: &[u8]) -> io::Result<()>
    ensures written { OnOk result
        (Appends (W.contents writer.old) (W.contents writer.new) bytes.now) }
    ensures cut { OnErr result
        (AppendsFront (W.contents writer.old) (W.contents writer.new) [] bytes.now) }
{
    let mut rest = bytes;
    for _ in 0..u64::MAX {
        if rest.is_empty() {
            return Ok(());
        }
        match writer.write(rest) {
            Ok(0) => return Err(ErrorKind::WriteZero.into()),
            Ok(count) => rest = &rest[count..],
            Err(error) if error.kind() == ErrorKind::Interrupted => {}
            Err(error) => return Err(error),
        }
    }
    Err(ErrorKind::WriteZero.into())
}

/// Writes bytes and flushes them. Where the writer fails, a front of them is written.
pub fn write_flushed<W: Write>(writer: &mut W, bytes: &[u8]) -> io::Result<()>
    ensures written { OnOk result
        (Appends (W.contents writer.old) (W.contents writer.new) bytes.now) }
    ensures cut { OnErr result
        (AppendsFront (W.contents writer.old) (W.contents writer.new) [] bytes.now) }
{
    write_whole(writer, bytes)?;
    writer.flush()
}

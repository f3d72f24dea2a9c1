//! Lines that are taken from a reader, one at a time.

ghost use Rattle.std.specs.Prelude.{◌≡◌, ◌≢◌, ◌≤◌, ◌==◌, ◌++◌, ℕ, List, [], ◌∷◌, Option, false, true, length, Ok, Err, IfSome, OnOk, OnErr, position};
ghost use Rattle.std.specs.Io.KnownBytes.{Consumes, IsAtEnd, Keeps};
ghost use Rattle.ic_lines.specs.Lines.{has_feed};
ghost use Rattle.ic_lines.specs.Taking.{to_come, TakesLine, HasNoLine, HasLongLine, IsFed};
ghost use Rattle.ic_lines.specs.declared.buffer.LineFault.TheVariants.{LongLine};

use ic_text::MAX_TEXT;
use std::alloc::{AllocError, Global};
use std::io::{ErrorKind, Read, Write};
use std::marker::Model;
use std::mem::swap;

/// How many bytes are read at a time.
const CHUNK: usize = 65_536;

/// Why no line is taken.
#[derive(Clone, Copy, PartialEq, Eq)]
pub enum LineFault {
    /// The reader failed.
    Read,
    /// The writer, which is flushed before the reader is waited for, failed.
    Write,
    /// The next line has more than 262,144 bytes.
    LongLine,
    /// A growth was refused.
    Memory,
}

impl From<AllocError> for LineFault {
    ghost use Rattle.ic_lines.specs.declared.buffer.LineFault.TheVariants.{Memory};

    ghost from_gives = { λ _ e. e ≡ Memory };

    fn from(_error: AllocError) -> LineFault {
        LineFault::Memory
    }
}

/// Bytes that were read and not yet taken.
#[derive(Drop)]
struct Ahead {
    bytes: Vec<u8>,
    // What was read ahead begins here.
    start: usize,
}

impl Model for Ahead {
    ghost use Rattle.std.specs.Prelude.{◌≤◌, ℕ, List, drop, length};
    ghost use Rattle.std.specs.Coded.{coded_ℕ, coded_list};

    ghost Value = { List ℕ };

    ghost coded = { coded_list coded_ℕ };

    ghost view = { λ a. drop a.start a.bytes.items };

    ghost invariant = { λ a. a.start ≤ length a.bytes.items };
}

impl Ahead {
    ghost use Rattle.ic_lines.specs.inner.Front.{IsFront, MovesFront, IsLongFront};

    fn new(alloc: Global) -> Ahead
        ensures { result ≡ [] }
    {
        Ahead {
            bytes: Vec::new(alloc),
            start: 0,
        }
    }

    /// Moves what was read ahead, up to the first line feed, to the end of a line. Tells whether there was a line
    /// feed, which is taken away.
    fn move_line(&mut self, line: &mut Vec<u8>) -> Result<bool, LineFault>
        requires { IsFront line.old.items }
        ensures moved { MovesFront result line.old.items self.old line.new.items self.new }
        ensures long { result ≡ Err LongLine → IsLongFront (line.old.items ++ self.old) }
    {
        let room = MAX_TEXT - line.len();
        let ahead = &self.bytes[self.start..];
        let feed = place_of_feed(ahead);
        let count = feed.unwrap_or(ahead.len());
        if count > room {
            return Err(LineFault::LongLine);
        }
        line.extend_from_slice(&ahead[..count])?;
        self.start += count;
        if feed.is_none() {
            return Ok(false);
        }
        self.start += 1;
        Ok(true)
    }

    /// The bytes up to the first line feed, where there is one.
    fn first_line(&self) -> Option<&[u8]>
        ensures { IfSome result (λ line. IsFed line.now self.now) }
    {
        let ahead = &self.bytes[self.start..];
        match place_of_feed(ahead) {
            None => None,
            Some(feed) => Some(&ahead[..feed]),
        }
    }

    /// Passes over the bytes up to the first line feed, and over this, where there is one.
    fn pass_line(&mut self)
        ensures { (line rest : List ℕ) → has_feed line ≡ false → self.old ≡ line ++ 10 ∷ rest
            → self.new ≡ rest }
    {
        match place_of_feed(&self.bytes[self.start..]) {
            None => {}
            Some(feed) => self.start += feed + 1,
        }
    }

    /// Reads what comes next, where nothing was read ahead. Tells whether anything came. The memory for it is
    /// taken first, so that nothing that was read is lost.
    fn fill<R: Read>(&mut self, reader: &mut R) -> Result<bool, LineFault>
        requires { self.old ≡ [] }
        ensures bytes { OnOk result
            (Consumes (R.remaining reader.old) (R.remaining reader.new) self.new) }
        ensures end { result ≡ Ok false → IsAtEnd (R.remaining reader.old) }
        ensures none { result ≢ Ok true → self.new ≡ [] }
        ensures fault { OnErr result (Keeps (R.remaining reader.old) (R.remaining reader.new)) }
        ensures short { result ≢ Err LongLine }
    {
        self.bytes.clear();
        self.start = 0;
        self.bytes.reserve(CHUNK)?;
        let mut chunk = [0u8; CHUNK];
        for _ in 0..u64::MAX {
            match reader.read(&mut chunk) {
                Ok(0) => return Ok(false),
                Ok(count) => {
                    self.bytes.extend_from_slice(&chunk[..count])?;
                    return Ok(true);
                }
                Err(error) if error.kind() == ErrorKind::Interrupted => {}
                Err(_) => return Err(LineFault::Read),
            }
        }
        Err(LineFault::Read)
    }
}

/// Lines from a reader, one at a time: the line that was taken last, and what was read and not yet taken. What had
/// come of a line when a call failed is still to come. It keeps the allocator that it was made with.
#[derive(Drop)]
pub struct LineBuffer {
    line: Vec<u8>,
    // What has come of the next line, without its end.
    front: Vec<u8>,
    ahead: Ahead,
}

impl Model for LineBuffer {
    ghost use Rattle.std.specs.Prelude.{◌++◌};
    ghost use Rattle.ic_lines.specs.Taking.{BufferParts, coded_buffer};
    ghost use Rattle.ic_lines.specs.inner.Front.{IsFront};

    ghost Value = { BufferParts };

    ghost coded = { coded_buffer };

    ghost view = { λ b. record { line = b.line.items; ahead = b.front.items ++ b.ahead } };

    ghost invariant = { λ b. IsFront b.front.items };
}

impl LineBuffer {
    ghost use Rattle.ic_lines.specs.inner.Front.{Advances};

    /// An empty buffer. Later calls take their memory from the allocator.
    pub fn new(alloc: Global) -> LineBuffer
        ensures line { result.line ≡ [] }
        ensures ahead { result.ahead ≡ [] }
    {
        LineBuffer {
            line: Vec::new(alloc),
            front: Vec::new(alloc),
            ahead: Ahead::new(alloc),
        }
    }

    /// The line that was taken last, without its line feed, or no byte where the last call took none.
    pub fn line(&self) -> &[u8]
        ensures { result.now ≡ self.now.line }
    {
        self.line.as_slice()
    }

    /// Takes the next line, where there is one. Before the reader is asked for more, the writer is flushed; a line that
    /// was read already is taken without. A fault takes nothing, so the call can be made again.
    pub fn take_line<R: Read, W: Write>(
        &mut self,
        reader: &mut R,
        writer: &mut W,
    ) -> Result<bool, LineFault>
        ensures taken { result ≡ Ok true → TakesLine self.new.line
            (to_come self.old (R.remaining reader.old))
            (to_come self.new (R.remaining reader.new)) }
        ensures short { result ≡ Ok true → length self.new.line ≤ MAX_TEXT }
        ensures end { result ≡ Ok false → HasNoLine (to_come self.old (R.remaining reader.old)) }
        ensures stays { result ≡ Ok false → Keeps (to_come self.old (R.remaining reader.old))
            (to_come self.new (R.remaining reader.new)) }
        ensures long { result ≡ Err LongLine
            → HasLongLine (to_come self.old (R.remaining reader.old)) }
        ensures fault { OnErr result (Keeps (to_come self.old (R.remaining reader.old))
            (to_come self.new (R.remaining reader.new))) }
        ensures none { result ≢ Ok true → self.new.line ≡ [] }
        ensures kept { Keeps (W.contents writer.old) (W.contents writer.new) }
    {
        self.line.clear();
        self.advance(reader, writer)
    }

    /// The next line, where all of it was read already, with its line feed. It isn't taken.
    pub fn ready_line(&self) -> Option<&[u8]>
        ensures fed { IfSome result (λ line. IsFed line.now self.now.ahead) }
        ensures short { IfSome result (λ line. length line.now ≤ MAX_TEXT) }
    {
        if !self.front.is_empty() {
            return None;
        }
        let line = self.ahead.first_line()?;
        if line.len() > MAX_TEXT {
            return None;
        }
        Some(line)
    }

    /// Takes the next line, where all of it was read already, and leaves the line that was taken last.
    pub fn pass_line(&mut self)
        ensures taken { (line : List ℕ) (remaining : Option (List ℕ)) → IsFed line self.old.ahead
            → TakesLine line (to_come self.old remaining) (to_come self.new remaining) }
        ensures line { self.new.line ≡ self.old.line }
    {
        self.front.clear();
        self.ahead.pass_line();
    }

    /// Moves the next line from what was read ahead, and from what the reader gives after it, into an empty line.
    fn advance<R: Read, W: Write>(
        &mut self,
        reader: &mut R,
        writer: &mut W,
    ) -> Result<bool, LineFault>
        requires { self.old.line ≡ [] }
        ensures line { Advances result self.new.line (to_come self.old (R.remaining reader.old))
            (to_come self.new (R.remaining reader.new)) }
        ensures kept { Keeps (W.contents writer.old) (W.contents writer.new) }
    {
        for _ in 0..u64::MAX {
            if self.ahead.move_line(&mut self.front)? {
                swap(&mut self.line, &mut self.front);
                return Ok(true);
            }
            writer.flush().map_err(|_| LineFault::Write)?;
            if !self.ahead.fill(reader)? {
                swap(&mut self.line, &mut self.front);
                return Ok(!self.line.is_empty());
            }
        }
        Err(LineFault::Read)
    }
}

/// The place of the first line feed.
fn place_of_feed(bytes: &[u8]) -> Option<usize>
    ensures { result ≡ position (λ b. b == 10) bytes.now }
{
    bytes.iter().position(|byte| *byte == b'\n')
}

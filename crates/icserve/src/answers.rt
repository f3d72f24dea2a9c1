//! What standard error is told at the first answer of a serving which says that a line has a fault.

use memchr::memchr;
use std::io::{self, IsTerminal, Write};

/// What is told there.
const HINT: &[u8] =
    b"icserve: a line was answered `bad`: serve --explain tells what is wrong in such lines\n";

/// With what such an answer begins.
const BAD: &[u8] = b"bad ";

/// An output of answers. At the first one which says that a line has a fault, standard error is told how to learn what
/// it is, unless each fault is told there.
#[derive(Drop)]
pub(crate) struct Answers<'a, W> {
    rt: &'a HostRuntime,
    output: W,
    // Whether it is still to be told.
    is_due: bool,
    // How many bytes of an answer have come, as far as they are compared, and whether it may be such an answer.
    count: usize,
    is_bad: bool,
}

impl<'a, W> Answers<'a, W> {
    pub(crate) fn new(rt: &'a HostRuntime, output: W, explains: bool) -> Answers<'a, W> {
        Answers {
            rt,
            output,
            is_due: !explains && !rt.stderr().is_terminal(),
            count: 0,
            is_bad: true,
        }
    }

    /// Compares what comes next of an answer. The answer of a job with the name `bad` has a
    /// configuration, and so a `<`.
    fn compare(&mut self, bytes: &[u8]) {
        for byte in bytes {
            if self.count >= BAD.len() {
                break;
            }
            self.is_bad = self.is_bad && BAD[self.count] == *byte;
            self.count += 1;
        }
        self.is_bad = self.is_bad && !bytes.contains(&b'<');
    }

    /// Tells of an answer that has ended, if it says that a line has a fault.
    fn end(&mut self) {
        if self.is_bad && self.count == BAD.len() {
            self.is_due = false;
            let _ = self.rt.stderr().write_all(HINT);
        }
        self.count = 0;
        self.is_bad = true;
    }

    /// Looks through answers that were written.
    fn look(&mut self, bytes: &[u8]) {
        let mut rest = bytes;
        for _ in 0..bytes.len() {
            if !self.is_due {
                return;
            }
            let Some(end) = memchr(b'\n', rest) else {
                break;
            };
            let (answer, after) = rest.split_at(end);
            self.compare(answer);
            self.end();
            rest = &after[1..];
        }
        self.compare(rest);
    }
}

impl<W: Write> Write for Answers<'_, W> {
    fn write(&mut self, bytes: &[u8]) -> io::Result<usize> {
        let count = self.output.write(bytes)?;
        self.look(&bytes[..count.min(bytes.len())]);
        Ok(count)
    }

    fn flush(&mut self) -> io::Result<()> {
        self.output.flush()
    }
}

//! Standard output, of which writes that fail are noted.

ghost use Rattle.std.specs.Prelude.{◌≡◌};
ghost use Rattle.ic_causes.specs.Passed.{output_of};

use crate::{FileCall, Notes, Target};
use std::io::{self, Write};

/// Standard output, whose writes answer as its own do, and are noted where they fail.
#[derive(Drop)]
pub struct NotedOutput<'n, W> {
    output: W,
    notes: &'n Notes,
}

impl<'n, W> NotedOutput<'n, W> {
    pub fn new(output: W, notes: &'n Notes) -> NotedOutput<'n, W>
        ensures { output_of result ≡ output }
    {
        NotedOutput { output, notes }
    }
}

impl<W: Write> Write for NotedOutput<'_, W> {
    // What is written here is written to the output.
    ghost contents = { λ noted. W.contents (output_of noted) };

    fn write(&mut self, bytes: &[u8]) -> io::Result<usize> {
        let answer = self.output.write(bytes);
        self.notes.note(Target::Output, FileCall::Write, &answer);
        answer
    }

    fn flush(&mut self) -> io::Result<()> {
        let answer = self.output.flush();
        self.notes.note(Target::Output, FileCall::Write, &answer);
        answer
    }
}

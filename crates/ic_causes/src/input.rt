//! Standard input, of which reads that fail are noted.

ghost use Rattle.std.specs.Prelude.{◌≡◌};
ghost use Rattle.ic_causes.specs.Passed.{input_of};

use crate::{FileCall, Notes, Target};
use std::io::{self, Read};

/// Standard input, whose reads answer as its own do, and are noted where they fail.
#[derive(Drop)]
pub struct NotedInput<'n, R> {
    input: R,
    notes: &'n Notes,
}

impl<'n, R> NotedInput<'n, R> {
    pub fn new(input: R, notes: &'n Notes) -> NotedInput<'n, R>
        ensures { input_of result ≡ input }
    {
        NotedInput { input, notes }
    }
}

impl<R: Read> Read for NotedInput<'_, R> {
    // What the input has left is what is left here.
    ghost remaining = { λ noted. R.remaining (input_of noted) };

    fn read(&mut self, buf: &mut [u8]) -> io::Result<usize> {
        let answer = self.input.read(buf);
        self.notes.note(Target::Input, FileCall::Read, &answer);
        answer
    }
}

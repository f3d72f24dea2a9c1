//! A session of lines: what standard error is told of those that are refused, and the prompt of a terminal.

use ic_check::tell_refusals;
use ic_diagnostics::last_line;
use std::alloc::AllocError;
use std::io::{self, IsTerminal, Read, Write};

/// What a terminal is shown where a line is awaited.
const PROMPT: &[u8] = b"> ";

/// The lines that ask for help.
const HELP: &[u8] = b"help\n";

const MARK: &[u8] = b"?\n";

/// The lines of a session, as they are read. Before it reads on, and at its end, standard error is told of those that
/// are refused, where that is asked for or standard error is a terminal. Whoever serves the lines has answered them and
/// flushed the answers by then, but maybe not at a fault. Where standard input is a terminal too, it shows a prompt, and
/// a line that asks for help is served as a blank one, which isn't answered.
#[derive(Drop)]
pub(crate) struct Session<'a, R> {
    rt: &'a HostRuntime,
    input: R,
    explains: bool,
    prompts: bool,
    is_prompted: bool,
    // What was read and isn't told of, and the number of the line with which it begins.
    kept: Vec<u8>,
    number: u64,
}

impl<'a, R> Session<'a, R> {
    pub(crate) fn new(rt: &'a HostRuntime, input: R, is_asked: bool) -> Session<'a, R> {
        let has_terminal = rt.stderr().is_terminal();
        Session {
            rt,
            input,
            explains: is_asked || has_terminal,
            prompts: has_terminal && rt.stdin().is_terminal(),
            is_prompted: false,
            kept: Vec::new(rt.alloc()),
            number: 1,
        }
    }

    /// Tells of the last lines, which are answered.
    pub(crate) fn end(&mut self) {
        let count = self.kept.len();
        self.tell(count);
    }

    /// Tells of the lines that were read whole, where a fault has ended the serving. Some of them may not be answered.
    pub(crate) fn end_at_fault(&mut self) {
        let count = self.whole();
        self.tell(count);
    }

    /// How many bytes the lines have that were read whole and aren't told of.
    fn whole(&self) -> usize {
        self.kept.len().saturating_sub(last_line(&self.kept).len())
    }

    /// Tells of the first lines, which have so many bytes. Where memory runs out no more is told.
    fn tell(&mut self, count: usize) {
        if self.explains && count > 0 && self.tell_front(count).is_err() {
            self.explains = false;
        }
    }

    fn tell_front(&mut self, count: usize) -> Result<(), AllocError> {
        let alloc = self.rt.alloc();
        let (front, rest) = self.kept.split_at(count.min(self.kept.len()));
        let mut told = Vec::new(alloc);
        let next = tell_refusals(alloc, self.number, front, &mut told)?;
        let rest = rest.to_vec(alloc)?;
        self.number = next;
        self.kept = rest;
        let _ = self.rt.stderr().write_all(&told);
        Ok(())
    }

    /// Shows the prompt where a line begins.
    fn prompt(&mut self) {
        if self.prompts && !self.is_prompted && self.kept.is_empty() {
            self.is_prompted = true;
            let _ = self.rt.stderr().write_all(PROMPT);
        }
    }

    /// Whether these bytes are a line at a prompt that asks for help.
    fn asks_help(&self, bytes: &[u8]) -> bool {
        self.is_prompted && (bytes == HELP || bytes == MARK)
    }

    /// Keeps what was read. At the end of the input the line of the prompt ends, too.
    fn keep(&mut self, bytes: &[u8]) {
        if bytes.is_empty() && self.is_prompted {
            let _ = self.rt.stderr().write_all(b"\n");
        }
        self.is_prompted = false;
        if self.explains && self.kept.extend_from_slice(bytes).is_err() {
            self.explains = false;
        }
    }
}

/// Makes a line a blank one.
fn blank(line: &mut [u8]) {
    for byte in line {
        if *byte != b'\n' {
            *byte = b' ';
        }
    }
}

impl<R: Read> Read for Session<'_, R> {
    fn read(&mut self, buf: &mut [u8]) -> io::Result<usize> {
        let count = self.whole();
        self.tell(count);
        self.prompt();
        let count = self.input.read(buf)?;
        let asks_help = self.asks_help(&buf[..count]);
        self.keep(&buf[..count]);
        if asks_help {
            blank(&mut buf[..count]);
        }
        Ok(count)
    }
}

//! The line of progress that a terminal shows of long work.

ghost use Rattle.std.specs.Prelude.{◌≡◌};
ghost use Rattle.ic_progress.specs.Wiped.{output_of};

use crate::line::{Pace, a_second, progress_line, reducing_line};
use crate::shares::Shares;
use ic_in_place::Watch;
use ic_pool::Gate;
use std::alloc::{AllocError, Global};
use std::cell::RefCell;
use std::io::{self, IsTerminal, Write};
use std::sync::Mutex;
use std::sync::atomic::{AtomicU64, Ordering};
use std::time::{Duration, Instant};

/// For how many milliseconds work goes on before it has a line, and a line stands before it is
/// rewritten.
const STANDS: u64 = 100;

/// What wipes a line of a terminal: to its begin, and erase what stands there.
const WIPED: &[u8] = b"\r\x1b[K";

/// What a line tells of long work.
trait Tells {
    /// What a terminal is sent, in place of the line before it, where there are so many in a second of
    /// what is counted.
    fn line(&self, alloc: Global, a_second: u64) -> Result<String, AllocError>;
}

/// When the line was last rewritten, or work began after a pause; how many of what is counted there
/// were by then; and whether there is a line.
#[derive(Clone, Copy)]
struct Shown {
    at: Instant,
    count: u64,
    is_line: bool,
}

/// A line on standard error, where that is a terminal. It is rewritten at most ten times a second, by
/// the thread that comes by then. No thread waits for another.
#[derive(Drop)]
struct Line<'a> {
    rt: &'a HostRuntime,
    has_terminal: bool,
    shown: Mutex<Option<Shown>>,
}

impl<'a> Line<'a> {
    fn new(rt: &'a HostRuntime) -> Line<'a> {
        Line {
            rt,
            has_terminal: rt.stderr().is_terminal(),
            shown: Mutex::new(None),
        }
    }

    /// Shows what is told, unless there is no terminal, or the line was rewritten a short while ago, or
    /// another thread is about it. There are so many by now of what is counted.
    fn show<T: Tells>(&self, count: u64, told: &T) {
        if !self.has_terminal {
            return;
        }
        let Some(mut shown) = self.shown.try_lock() else {
            return;
        };
        if let Ok(now) = Instant::now(self.rt) {
            *shown = Some(self.rewrite(*shown, now, count, told));
        }
    }

    /// Rewrites the line, unless work begins just now or the line stands still.
    fn rewrite<T: Tells>(&self, shown: Option<Shown>, now: Instant, count: u64, told: &T) -> Shown {
        let Some(last) = shown else {
            return Shown {
                at: now,
                count,
                is_line: false,
            };
        };
        let time = now.duration_since(last.at);
        if time < Duration::from_millis(STANDS) {
            return last;
        }
        let millis = u64::try_from(time.as_millis()).unwrap_or(u64::MAX);
        let pace = a_second(count.saturating_sub(last.count), millis);
        if let Ok(line) = told.line(self.rt.alloc(), pace) {
            let _ = self.rt.stderr().write_all(line.as_bytes());
        }
        Shown {
            at: now,
            count,
            is_line: true,
        }
    }

    /// Wipes the line, where there is one. Work that comes after it begins after a pause, or goes on.
    fn wipe(&self, goes_on: bool) {
        let Some(mut shown) = self.shown.try_lock() else {
            return;
        };
        let Some(last) = *shown else {
            return;
        };
        if last.is_line {
            let _ = self.rt.stderr().write_all(WIPED);
        }
        *shown = if goes_on {
            Some(Shown {
                at: last.at,
                count: last.count,
                is_line: false,
            })
        } else {
            None
        };
    }
}

/// A gate that counts events, and shows them in a line.
#[derive(Drop)]
pub struct Progress<'a> {
    line: Line<'a>,
    events: AtomicU64,
    rounds: AtomicU64,
    running: AtomicU64,
}

impl<'a> Progress<'a> {
    pub fn new(rt: &'a HostRuntime) -> Progress<'a> {
        Progress {
            line: Line::new(rt),
            events: AtomicU64::new(0),
            rounds: AtomicU64::new(0),
            running: AtomicU64::new(0),
        }
    }

    /// Counts an event, and shows what is counted.
    fn count(&self) {
        self.events.fetch_add(1, Ordering::SeqCst);
        self.line.show(self.rounds.load(Ordering::SeqCst), self);
    }

    /// Wipes the line, where there is one.
    pub fn wipe(&self) {
        self.line.wipe(false);
    }
}

impl Tells for Progress<'_> {
    fn line(&self, alloc: Global, a_second: u64) -> Result<String, AllocError> {
        let pace = Pace {
            rounds_a_second: a_second,
            jobs_running: self.running.load(Ordering::SeqCst),
        };
        let has_rounds = self.rounds.load(Ordering::SeqCst) > 0;
        let events = self.events.load(Ordering::SeqCst);
        progress_line(alloc, events, has_rounds.then_some(pace))
    }
}

impl Gate for Progress<'_> {
    fn pass(&self, _place: u64) {}

    fn answered(&self, _who: u64) {
        self.count();
    }

    fn landed(&self, running: usize) {
        self.running.store(running as u64, Ordering::SeqCst);
        self.rounds.fetch_add(1, Ordering::SeqCst);
        self.count();
    }
}

/// What is seen of a net that is reduced in place, in a line.
#[derive(Drop)]
pub struct Watching<'a> {
    line: Line<'a>,
    wants_rounds: bool,
    /// How threads have shared it so far.
    shares: RefCell<Shares>,
}

impl<'a> Watching<'a> {
    pub fn new(rt: &'a HostRuntime) -> Watching<'a> {
        Watching::of_rounds(rt, false)
    }

    /// The same, where it may be that it is to be known in which rounds pairs would fire.
    pub fn of_rounds(rt: &'a HostRuntime, wants_rounds: bool) -> Watching<'a> {
        Watching {
            line: Line::new(rt),
            wants_rounds,
            shares: RefCell::new(Shares::new(rt.alloc())),
        }
    }

    /// How threads have shared it. What comes after it counts from nothing.
    pub fn take_shares(&self, alloc: Global) -> Shares {
        match self.shares.try_replace(Shares::new(alloc)) {
            Ok(shares) => shares,
            Err(none) => none,
        }
    }

    /// Wipes the line, where there is one.
    pub fn wipe(&self) {
        self.line.wipe(false);
    }
}

impl Watch for Watching<'_> {
    fn saw(&self, interactions: u64, nodes: u64) {
        let seen = Seen {
            interactions,
            nodes,
        };
        self.line.show(interactions, &seen);
    }

    fn wants_rounds(&self) -> bool {
        self.wants_rounds
    }

    fn shared(&self, by_thread: &[u64], handed_on: u64, idle: u64) {
        if let Ok(mut shares) = self.shares.try_borrow_mut() {
            shares.add(by_thread, handed_on, idle);
        }
    }
}

/// How far a net has come.
#[derive(Clone, Copy)]
struct Seen {
    interactions: u64,
    nodes: u64,
}

impl Tells for Seen {
    fn line(&self, alloc: Global, a_second: u64) -> Result<String, AllocError> {
        reducing_line(alloc, self.interactions, a_second, self.nodes)
    }
}

/// An output, before whose bytes the line of progress is wiped.
#[derive(Drop)]
pub struct WipedFirst<'a, W> {
    line: &'a Line<'a>,
    /// Whether bytes are written while work goes on.
    goes_on: bool,
    output: W,
}

impl<'a, W> WipedFirst<'a, W> {
    pub fn new(progress: &'a Progress<'a>, output: W) -> WipedFirst<'a, W>
        ensures { output_of result ≡ output }
    {
        WipedFirst {
            line: &progress.line,
            goes_on: false,
            output,
        }
    }

    /// The same of a net that is watched.
    pub fn watching(watching: &'a Watching<'a>, output: W) -> WipedFirst<'a, W>
        ensures { output_of result ≡ output }
    {
        WipedFirst {
            line: &watching.line,
            goes_on: true,
            output,
        }
    }
}

impl<W: Write> Write for WipedFirst<'_, W> {
    // What is written here is written to the output.
    ghost contents = { λ wiped. W.contents (output_of wiped) };

    fn write(&mut self, bytes: &[u8]) -> io::Result<usize> {
        self.line.wipe(self.goes_on);
        self.output.write(bytes)
    }

    fn flush(&mut self) -> io::Result<()> {
        self.output.flush()
    }
}

//! How many interactions are made before what was reached is kept.

ghost use Rattle.std.specs.Prelude.{◌≡◌, ◌-◌, ◌*◌, ◌/◌, ◌^◌, max, min};

use ic_in_place::Watch;
use std::cell::Cell;
use std::time::Clock;

/// The milliseconds of a clock, or 0 if it can't be read.
pub(crate) fn millis_of<C: Clock>(clock: &C) -> u64 {
    match clock.monotonic() {
        Ok(time) => u64::try_from(time.as_millis()).unwrap_or(u64::MAX),
        Err(_) => 0,
    }
}

/// How many interactions the next piece makes, by how long the last one made interactions.
#[derive(Clone, Copy)]
pub struct Pace {
    /// For how many milliseconds a piece should go on.
    pub every: u64,
    /// How many interactions the next piece makes.
    pub piece: u64,
}

/// How many interactions a piece makes at least.
const LEAST: u64 = 1 << 22;

/// How many interactions the first piece makes for each second that it should go on. Few machines make fewer in a second.
const EACH_SECOND: u64 = 1 << 22;

/// How many interactions a piece makes at most.
const MOST: u64 = 1 << 60;

/// How many times as many as the one before it.
const GROWTH: u64 = 64;

/// How many times as long as the last keep a piece should go on at least.
const BESIDE_KEEP: u64 = 10;

impl Pace {
    /// A pace of pieces that go on for so many milliseconds. The first one makes 2^22 interactions for each whole second of these,
    /// and 2^22 at least, since it isn't known yet how long they take.
    pub fn new(every: u64) -> Pace
        ensures every { result.every ≡ every }
        ensures first { result.piece ≡ max (2 ^ 22) (min (every / 1000 * 2 ^ 22) (2 ^ 60)) }
    {
        let piece = (every / 1_000).saturating_mul(EACH_SECOND);
        Pace {
            every,
            piece: piece.min(MOST).max(LEAST),
        }
    }

    /// The pace after a piece that made interactions for so many milliseconds, where all else took so many: planning the machine,
    /// reading it back and keeping. The next piece makes as many as take the time of a piece, or ten times the time of all else, if
    /// that is more, and if they take as long as those. There are at most 64 times as many, and a quarter at least.
    pub fn after(self, took: u64, aside: u64) -> Pace
        ensures every { result.every ≡ self.every }
        ensures piece { result.piece ≡ max (2 ^ 22) (min (min (self.piece * 64) (2 ^ 60))
            (max (self.piece / 4) (self.piece / max took 1
            * max self.every (min (aside * 10) (2 ^ 64 - 1))))) }
    {
        let least = self.piece / 4;
        let most = self.piece.saturating_mul(GROWTH);
        let lasts = aside.saturating_mul(BESIDE_KEEP).max(self.every);
        let even = (self.piece / took.max(1)).saturating_mul(lasts);
        let piece = even.max(least).min(most).min(MOST).max(LEAST);
        Pace {
            every: self.every,
            piece,
        }
    }
}

/// When interactions of a piece were seen first, and when last.
#[derive(Clone, Copy)]
struct Span {
    first: u64,
    last: u64,
}

/// Who watches a piece of a reduction. It passes on what is seen, with the interactions of all runs, and notes for how long
/// they are made: what it takes to plan the machine and to read it back doesn't count.
#[derive(Drop)]
pub(crate) struct Timed<'a, C, V> {
    clock: &'a C,
    watch: &'a V,
    // How many interactions were made before the piece.
    before: u64,
    span: Cell<Option<Span>>,
}

impl<'a, C: Clock, V: Watch> Timed<'a, C, V> {
    /// Who watches a piece before which so many interactions were made.
    pub(crate) fn new(clock: &'a C, watch: &'a V, before: u64) -> Timed<'a, C, V> {
        Timed {
            clock,
            watch,
            before,
            span: Cell::new(None),
        }
    }

    /// For how many milliseconds the piece made interactions.
    pub(crate) fn millis(&self) -> u64 {
        match self.span.get() {
            Some(span) => span.last.saturating_sub(span.first),
            None => 0,
        }
    }
}

impl<C: Clock, V: Watch> Watch for Timed<'_, C, V> {
    fn saw(&self, interactions: u64, nodes: u64) {
        let now = millis_of(self.clock);
        let first = match self.span.get() {
            Some(span) => span.first,
            None => now,
        };
        self.span.set(Some(Span { first, last: now }));
        self.watch
            .saw(self.before.saturating_add(interactions), nodes);
    }

    fn wants_rounds(&self) -> bool {
        false
    }

    fn shared(&self, by_thread: &[u64], handed_on: u64, idle: u64) {
        self.watch.shared(by_thread, handed_on, idle);
    }
}

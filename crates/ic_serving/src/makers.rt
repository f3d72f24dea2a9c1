//! Who makes the rounds of a serving, or of a loop of one's own.

ghost use Rattle.std.specs.Prelude.{◌≡◌, ◌≤◌, IfOk, OnErr};
ghost use Rattle.ic_flights.specs.Played.{round_of};
ghost use Rattle.ic_jobs.specs.Landing.{RunsNamed};
ghost use Rattle.ic_jobs.specs.declared.reply.Reply.TheVariants as reply;
ghost use Rattle.ic_book.specs.Book.{table_of};
ghost use Rattle.ic_book.specs.Calls.{MakesOwnRound, RefusesRound};
ghost use Rattle.ic_book.specs.Moves.{as_landed, round_move};
ghost use Rattle.ic_book.specs.Server.{Step, up};
ghost use Rattle.ic_pool.specs.Played.{played};
ghost use Rattle.ic_pool.specs.PoolFault.{Answers};
ghost use Rattle.ic_pool.specs.Workers.{ByWorkers, played_by};

use crate::limits::{ENOUGH, ENOUGH_AT_ONCE, ENOUGH_EACH, MOST_ROUNDS, TIMES, WORDS_EACH};
use ic_book::{Book, BookFault};
use ic_disk::Disk;
use ic_flat_round::Workspace;
use ic_flights::{Flight, Played};
use ic_jobs::{Job, MAX_JOBS, State};
use ic_laps::{LAP_WORDS, Laps};
use ic_pool::{PoolFault, play_in};
use ic_rules::JobName;
use std::alloc::{AllocError, Global};
use std::sync::Wait;
use std::thread::Threads;

/// Who makes the rounds of a serving: its own thread, in lists that are kept, and workers that make laps: the next rounds of
/// each of several jobs, before they are asked for.
#[derive(Drop)]
pub struct Makers {
    workspace: Workspace,
    laps: Laps,
    wanted: u64,
}

impl Makers {
    /// Makers that no round is asked of, with no worker standing yet.
    pub fn new(alloc: Global) -> Makers {
        Makers {
            workspace: Workspace::new(alloc),
            laps: Laps::new(alloc),
            wanted: 0,
        }
    }

    /// Tells how many rounds are asked for at most. So many may be made ahead.
    pub fn expect(&mut self, rounds: u64) {
        self.wanted = rounds;
    }

    /// Begins a lap of the jobs that are due from a place on, where one may begin and several threads gain by it.
    pub(crate) fn look_ahead<T: Threads + Wait + Copy + Send + 'static, D: Disk>(
        &mut self,
        rt: &T,
        alloc: Global,
        book: &Book<D>,
        after: usize,
        workers: usize,
    ) {
        if workers == 1 || self.wanted < 2 || !self.laps.is_spent() {
            return;
        }
        let load = Load::of(book.table().jobs());
        let rounds = load.rounds(self.wanted);
        if !load.is_worth_it(rounds, self.wanted) {
            return;
        }
        let most = self.wanted.min(MAX_JOBS as u64) as usize;
        // Without memory no round is made ahead.
        if let Ok(flights) = flights_from(alloc, book, after, most) {
            self.laps
                .make(rt, alloc, flights, rounds, self.wanted, workers);
        }
    }

    /// Makes the round of a running job in the lists of its own configuration, if no job's rounds are made ahead and the book
    /// can. Answers whether it did.
    pub(crate) fn make_own<D: Disk>(
        &mut self,
        alloc: Global,
        book: &mut Book<D>,
        name: JobName,
    ) -> Result<bool, BookFault>
        requires { RunsNamed (table_of book.old) name }
        ensures step { Step (round_move name reply.Moved (as_landed result)) (up book.old) (up book.new) }
        ensures fault { OnErr result (RefusesRound (as_landed result) book.old book.new) }
        ensures round { MakesOwnRound name result book.old book.new }
    {
        book.facts();
        if !self.laps.is_spent() {
            return Ok(false);
        }
        let made = book.round_awaited(alloc, name, &mut self.workspace)?;
        if made {
            self.wanted = self.wanted.saturating_sub(1);
        }
        Ok(made)
    }

    /// The round of a flight: the one that is made ahead, or else this thread makes it. It is the same round.
    pub fn play<T: Wait>(
        &mut self,
        rt: &T,
        alloc: Global,
        flight: &Flight,
    ) -> Result<Played, PoolFault>
        ensures answer { Answers result (played flight.now) }
        ensures round { IfOk result (λ played. played ≡ round_of flight.now) }
    {
        ic_pool::laws::refusals_come_in_order();
        let wanted = self.wanted;
        self.wanted = wanted.saturating_sub(1);
        if let Some(made) = self
            .laps
            .take(rt, alloc, flight, wanted, &mut self.workspace)
        {
            return Ok(made);
        }
        play_in(alloc, flight, &mut self.workspace)
    }

    /// Ends the workers that stand, and joins their threads.
    pub fn finish<T: Threads + Wait>(self, rt: &T) {
        let Makers { laps, .. } = self;
        laps.finish(rt);
    }
}

/// How many jobs run, how many words they have together, and what a round of their equations takes, in words.
#[derive(Clone, Copy)]
struct Load {
    running: usize,
    words: usize,
    firing: usize,
}

impl Load {
    fn of(jobs: &[Job]) -> Load {
        let (mut running, mut words, mut equations) = (0_usize, 0_usize, 0_usize);
        for job in jobs {
            if job.state() == State::Running {
                let config = job.config();
                running = running.saturating_add(1);
                words = words.saturating_add(config.words().len());
                equations = equations.saturating_add(config.equations_len());
            }
        }
        Load {
            running,
            words,
            firing: equations.saturating_mul(WORDS_EACH),
        }
    }

    /// What a round of a job takes, in words: the mean of all.
    fn each(self) -> usize {
        self.words.saturating_add(self.firing) / self.running.max(1)
    }

    /// How many rounds of each job are handed on at once, where so many are wanted of all: fewer of large nets, since those that
    /// wait are held, and a line waits for them.
    fn rounds(self, wanted: u64) -> usize {
        let each = wanted / TIMES / (self.running.max(1) as u64);
        let most = (LAP_WORDS / 2 / self.words.max(1)).min(MOST_ROUNDS).max(1);
        each.min(most as u64).max(1) as usize
    }

    /// Whether several threads gain by a lap, where so many rounds are handed on at once, and so many are wanted of all. Where
    /// rounds copy more than they fire, they don't: a lap holds more nets at once than are near a processor.
    fn is_worth_it(self, rounds: usize, wanted: u64) -> bool {
        let each = self.each();
        self.running > 1
            && self.firing >= self.words
            && each >= ENOUGH_EACH
            && each.saturating_mul(rounds) >= ENOUGH_AT_ONCE
            && (each as u64).saturating_mul(wanted) >= ENOUGH
    }
}

/// The flights that are due from a place on, and then from the first place on, one for each job, at most so many.
fn flights_from<D: Disk>(
    alloc: Global,
    book: &Book<D>,
    after: usize,
    most: usize,
) -> Result<Vec<Flight>, AllocError> {
    let mut flights: Vec<Flight> = Vec::with_capacity(alloc, most)?;
    let mut place = after;
    for _ in 0..most {
        let Ok(Some(flight)) = book.due(place) else {
            break;
        };
        if let Some(first) = flights.first()
            && first.place() == flight.place()
        {
            break;
        }
        place = flight.place().saturating_add(1);
        flights.push(flight)?;
    }
    Ok(flights)
}

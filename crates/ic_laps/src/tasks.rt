//! What goes between a lap and its workers.

use crate::shares::Shares;
use crossbeam_channel::{Receiver, Sender};
use ic_flat_round::Workspace;
use ic_flights::{Flight, Played, next_flight};
use ic_pool::play_in;
use std::alloc::{AllocError, Global};
use std::sync::Wait;

/// Rounds that are to be made, so many from a flight on, until the nets after them have so many words. What becomes of it has
/// its number.
#[derive(Drop)]
pub(crate) struct Task {
    pub number: u64,
    pub flight: Flight,
    pub rounds: usize,
    pub words: usize,
}

/// What became of a task: the rounds that were made, the last one first, and the flight after them, if one more may be made.
#[derive(Drop)]
pub(crate) struct Done {
    pub number: u64,
    pub made: Vec<Played>,
    pub next: Option<Flight>,
}

/// A worker's ends: tasks come to all workers in one line, and what becomes of them goes back in another. It drops the room
/// first.
#[derive(Drop)]
pub(crate) struct Post {
    pub tasks: Receiver<Task>,
    pub done: Sender<Done>,
    pub room: Vec<u64>,
}

impl Task {
    /// Makes the rounds, until one can't be made or none is left to be made. Without memory there are fewer.
    pub fn done(self, alloc: Global, workspace: &mut Workspace, shares: &mut Shares) -> Done {
        shares.give_back();
        let Task {
            number,
            flight,
            rounds,
            words,
        } = self;
        let mut made = Vec::new(alloc);
        let next = make_each(alloc, flight, rounds, words, workspace, shares, &mut made);
        made.reverse();
        Done {
            number,
            made,
            next: next.unwrap_or(None),
        }
    }
}

/// Makes rounds one after the other, until the nets after them have so many words. Answers the flight after them, unless no
/// round is to be made after them.
fn make_each(
    alloc: Global,
    mut flight: Flight,
    rounds: usize,
    mut words: usize,
    workspace: &mut Workspace,
    shares: &mut Shares,
    made: &mut Vec<Played>,
) -> Result<Option<Flight>, AllocError> {
    for _ in 0..rounds {
        let Ok(played) = play_in(alloc, &flight, workspace) else {
            return Ok(None);
        };
        flight = next_flight(flight.place(), &played)?;
        shares.keep(flight.shared_config())?;
        let quiet = played.is_quiet();
        made.push(played)?;
        if quiet {
            return Ok(None);
        }
        words = words.saturating_sub(flight.config().words().len());
        if words == 0 {
            break;
        }
    }
    Ok(Some(flight))
}

/// A worker's loop: it takes a task, makes its rounds, and sends back what came of it. It ends when the lap is gone.
pub(crate) fn stand<R: Wait>(rt: &R, alloc: Global, post: Post) {
    let Post { tasks, done, room } = post;
    drop(room);
    let mut workspace = Workspace::new(alloc);
    let mut shares = Shares::new(alloc);
    for _ in rt.forever() {
        let Ok(task) = tasks.recv(rt) else {
            return;
        };
        let came = task.done(alloc, &mut workspace, &mut shares);
        if done.send(rt, came).is_err() {
            return;
        }
    }
}

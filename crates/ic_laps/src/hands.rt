//! Workers that stand ready, and the ends of the lines between them and who asks.

ghost use Rattle.std.specs.Prelude.{◌≡◌, ◌+◌, ◌≤◌, IfOk, vec_len, vec_capacity};

use crate::limits::{MOST_TASKS, ROOM};
use crate::shares::Shares;
use crate::tasks::{Done, Post, Task, stand};
use crossbeam_channel::{Receiver, Sender, bounded};
use ic_flat_round::Workspace;
use ic_flights::Flight;
use std::alloc::{AllocError, Global};
use std::sync::Wait;
use std::thread::{self, JoinHandle, Threads};

/// Workers in threads of their own, and the ends of the two lines between them and who asks. No line is ever full, so nobody
/// waits to send.
#[derive(Drop)]
pub(crate) struct Hands {
    tasks: Sender<Task>,
    waiting: Receiver<Task>,
    done: Receiver<Done>,
    threads: Vec<JoinHandle<()>>,
    /// What this thread has made.
    shares: Shares,
    /// How many tasks went out, and how many of them came to nothing yet.
    sent: u64,
    out: usize,
}

impl Hands {
    /// So many workers, or as many of them as can be started.
    pub fn start<R: Threads + Wait + Copy + Send + 'static>(
        rt: &R,
        alloc: Global,
        workers: usize,
    ) -> Result<Hands, AllocError> {
        let (tasks, waiting) = bounded(alloc, MOST_TASKS)?;
        let (returned, done) = bounded(alloc, MOST_TASKS)?;
        let posts = posts(alloc, workers, &waiting, &returned)?;
        let mut threads = Vec::with_capacity(alloc, posts.len())?;
        start_each(rt, alloc, posts, &mut threads);
        Ok(Hands {
            tasks,
            waiting,
            done,
            threads,
            shares: Shares::new(alloc),
            sent: 0,
            out: 0,
        })
    }

    /// Sends a task, unless too many are out. Answers its number.
    pub fn send<R: Wait>(
        &mut self,
        rt: &R,
        flight: Flight,
        rounds: usize,
        words: usize,
    ) -> Option<u64> {
        if self.out >= MOST_TASKS {
            return None;
        }
        let number = self.sent.wrapping_add(1);
        let task = Task {
            number,
            flight,
            rounds,
            words,
        };
        self.tasks.send(rt, task).ok()?;
        self.sent = number;
        self.out = self.out.saturating_add(1);
        Some(number)
    }

    /// What came of a task. Where nothing came yet, this thread does the next one, or waits. None where no task is out.
    pub fn next_done<R: Wait>(
        &mut self,
        rt: &R,
        alloc: Global,
        workspace: &mut Workspace,
    ) -> Option<Done> {
        if self.out == 0 {
            return None;
        }
        self.out = self.out.saturating_sub(1);
        if let Ok(done) = self.done.try_recv(rt) {
            return Some(done);
        }
        match self.waiting.try_recv(rt) {
            Ok(task) => Some(task.done(alloc, workspace, &mut self.shares)),
            Err(_) => self.done.recv(rt).ok(),
        }
    }

    /// Ends the workers, and joins their threads. Tasks that nobody has begun are left.
    pub fn finish<R: Threads + Wait>(self, rt: &R) {
        let Hands {
            tasks,
            waiting,
            threads,
            ..
        } = self;
        drop(tasks);
        for _ in 0..MOST_TASKS {
            if waiting.try_recv(rt).is_err() {
                break;
            }
        }
        for thread in threads {
            thread.join(rt);
        }
    }
}

/// A post for each of so many workers.
fn posts(
    alloc: Global,
    workers: usize,
    waiting: &Receiver<Task>,
    returned: &Sender<Done>,
) -> Result<Vec<Post>, AllocError> {
    let mut posts = Vec::with_capacity(alloc, workers)?;
    for _ in 0..workers {
        posts.push(Post {
            tasks: waiting.clone()?,
            done: returned.clone()?,
            room: Vec::with_capacity(alloc, ROOM)?,
        })?;
    }
    Ok(posts)
}

/// Starts a thread for each post, until one can't be started.
fn start_each<R: Threads + Wait + Copy + Send + 'static>(
    rt: &R,
    alloc: Global,
    posts: Vec<Post>,
    threads: &mut Vec<JoinHandle<()>>,
)
    requires { vec_len threads.old + vec_len posts ≤ vec_capacity threads.old }
{
    for post in posts {
        let own = *rt;
        let Ok(thread) = thread::spawn(rt, move || stand(&own, alloc, post)) else {
            return;
        };
        threads.push_reserved(thread);
    }
}

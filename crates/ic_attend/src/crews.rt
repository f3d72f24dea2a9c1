//! A runner's crew, and the threads that its workers stand in.

ghost use Rattle.std.specs.Prelude.{◌≡◌, ◌+◌, ◌<◌, ◌≤◌, None, IfOk, IfSome, false, vec_len, vec_capacity};
ghost use Rattle.ic_attend.specs.inner.Crews.{IsUnspent};

use ic_crew::{Crew, Post, stand};
use ic_pool::Gate;
use std::alloc::{AllocError, Global};
use std::sync::Wait;
use std::thread::{JoinHandle, Scope, Threads};

/// A crew whose workers have no threads yet: the crew, which isn't spent, their posts, and room for
/// the handles of their threads.
#[derive(Drop)]
pub(crate) struct Enlisted {
    crew: Crew,
    posts: Vec<Post>,
    threads: Vec<JoinHandle<()>>,
    pub ghost ready: { crew.spent ≡ false },
    pub ghost room: { vec_len threads + vec_len posts ≤ vec_capacity threads },
}

impl Enlisted {
    /// A new crew of so many workers, but no more than 64.
    fn new(alloc: Global, workers: usize) -> Result<Enlisted, AllocError> {
        let Ok((crew, posts)) = Crew::new(alloc, workers) else {
            return Err(AllocError);
        };
        let threads = Vec::with_capacity(alloc, posts.len())?;
        Ok(Enlisted {
            crew,
            posts,
            threads,
        })
    }
}

/// A crew for each runner; none where there are no workers.
pub(crate) fn crews_for(
    alloc: Global,
    runners: usize,
    workers: usize,
) -> Result<Vec<Enlisted>, AllocError>
    ensures { IfOk result (λ crews. 0 < workers → vec_len crews ≡ runners) }
{
    if workers == 0 {
        return Ok(Vec::new(alloc));
    }
    let mut crews = Vec::with_capacity(alloc, runners)?;
    for _ in 0..runners {
        crews.push(Enlisted::new(alloc, workers)?)?;
    }
    Ok(crews)
}

/// A runner's crew, none where there are no workers, and the threads that its workers stand in.
#[derive(Drop)]
pub(crate) struct Standing {
    pub crew: Option<Crew>,
    pub threads: Vec<JoinHandle<()>>,
}

/// Starts a thread for each worker of a runner's crew, if it has one. Where one can't be started,
/// those that were are joined.
pub(crate) fn start_crew<'s, R: Threads + Wait + Sync, E, G: Gate>(
    rt: &'s R,
    alloc: Global,
    scope: &'s Scope<'s, E>,
    gate: &'s G,
    crew: Option<Enlisted>,
) -> Option<Standing>
    ensures none { IfSome result (λ standing. standing.crew ≡ None → crew ≡ None) }
    ensures unspent { IfSome result (λ standing. IsUnspent standing.crew) }
{
    let Some(enlisted) = crew else {
        return Some(Standing {
            crew: None,
            threads: Vec::new(alloc),
        });
    };
    let Enlisted {
        crew,
        posts,
        mut threads,
    } = enlisted;
    if !start_each(rt, alloc, scope, gate, posts, &mut threads) {
        dismiss(rt, crew, threads);
        return None;
    }
    Some(Standing {
        crew: Some(crew),
        threads,
    })
}

/// Starts a thread for each post, until one can't be started. Tells whether all were.
fn start_each<'s, R: Threads + Wait + Sync, E, G: Gate>(
    rt: &'s R,
    alloc: Global,
    scope: &'s Scope<'s, E>,
    gate: &'s G,
    posts: Vec<Post>,
    threads: &mut Vec<JoinHandle<()>>,
) -> bool
    requires { vec_len threads.old + vec_len posts ≤ vec_capacity threads.old }
{
    for post in posts {
        let Ok(thread) = scope.spawn(move || stand(rt, alloc, post, gate)) else {
            return false;
        };
        threads.push_reserved(thread);
    }
    true
}

/// Drops a crew, so that its workers end, and joins their threads.
fn dismiss<R: Threads>(rt: &R, crew: Crew, threads: Vec<JoinHandle<()>>) {
    drop(crew);
    join_each(rt, threads);
}

/// Joins threads that are to end.
pub(crate) fn join_each<R: Threads>(rt: &R, threads: Vec<JoinHandle<()>>) {
    for thread in threads {
        thread.join(rt);
    }
}

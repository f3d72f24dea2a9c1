//! Crews whose workers don't stand.

use crate::answers::number_first;
use crate::rounds::first_flight;
use ic_crew::Crew;
use ic_flights::Flight;
use ic_notation::Trouble;
use std::alloc::{AllocError, Global};
use std::sync::Wait;

/// How many workers a crew that is made for so many has, and how many posts.
pub fn made(alloc: Global, text: &str) -> Result<Vec<u8>, Trouble> {
    let (workers, _) = number_first(text);
    let line = match Crew::new(alloc, workers as usize) {
        Ok((crew, posts)) => format!(in alloc; "{} {}", crew.workers(), posts.len())?,
        Err(fault) => format!(in alloc; "{fault:?}")?,
    };
    Ok(line.into_bytes())
}

/// What a crew without workers answers to a system's round, twice, and whether it is spent then.
pub fn dropped<R: Wait>(rt: &R, alloc: Global, text: &str) -> Result<Vec<u8>, Trouble> {
    let (workers, system) = number_first(text);
    let flight = first_flight(alloc, system)?;
    match Crew::new(alloc, workers as usize) {
        Ok((mut crew, posts)) => {
            drop(posts);
            Ok(played_twice(rt, alloc, &mut crew, &flight)?)
        }
        Err(_) => Err(Trouble("no crew")),
    }
}

fn played_twice<R: Wait>(
    rt: &R,
    alloc: Global,
    crew: &mut Crew,
    flight: &Flight,
) -> Result<Vec<u8>, AllocError> {
    let first = crew.play(rt, alloc, flight).err();
    let second = crew.play(rt, alloc, flight).err();
    let is_spent = crew.is_spent();
    Ok(format!(in alloc; "{first:?} {second:?} {is_spent}")?.into_bytes())
}

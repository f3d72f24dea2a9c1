//! The one pass of settling over the equations.

ghost use Rattle.std.specs.Prelude.{◌≡◌, OnOk, map};
ghost use Rattle.std.specs.List.{AllByRecursion};
ghost use Rattle.ic_settle.specs.lemmas.Passed.{IsPassed};
ghost use Rattle.ic_flat.specs.Flat.{configuration_words};
ghost use Rattle.ic_flat_round.specs.inner.Waits.{waiting, AreWithin, IsKeptWithin, kept_at, other_place};

use crate::bound::{Bound, bind, resolved};
use crate::containers::Containers;
use ic_flat::Flat;
use ic_flat_rules::{equations_place, sides_at};
use ic_settle::Side;
use std::alloc::AllocError;

/// Where the sides of an equation begin that stays.
#[derive(Clone, Copy)]
pub(crate) struct Kept {
    pub left: usize,
    pub right: usize,
}

/// Goes through the equations once. Each whose resolved sides have an applicable one is removed, and its other side
/// waits for that name. Leaves the equations that stay, with their sides resolved, and what stands for the names of the
/// others. What the lists held goes, and their memory is kept.
pub(crate) fn pass(
    flat: &Flat,
    containers: &mut Containers,
    bound: &mut Bound,
    kept: &mut Vec<Kept>,
) -> Result<(), AllocError>
    ensures passed { OnOk result (IsPassed flat.now
        (map (kept_at (configuration_words flat.now)) kept.new.items)
        (waiting (configuration_words flat.now) bound.new.entries)) }
    ensures kept { OnOk result
        (AllByRecursion (IsKeptWithin (configuration_words flat.now)) kept.new.items) }
    ensures within { OnOk result (AreWithin (configuration_words flat.now) bound.new.entries) }
{
    let words = flat.words();
    let count = flat.equations_len();
    let mut place = equations_place(flat);
    containers.refill(flat, place)?;
    bound.clear();
    kept.clear();
    kept.reserve(count)?;
    let mut number = 0;
    while place < words.len() {
        let sides = sides_at(words, place);
        let left = resolved(words, sides.left, bound);
        let right = resolved(words, sides.right, bound);
        match containers.applicable(words[left], words[right], number) {
            Some(applicable) => {
                let other = other_place(left, right, applicable.side);
                bind(bound, applicable.name, other)?;
            }
            None => kept.push_reserved(Kept { left, right }),
        }
        place = sides.end;
        number += 1;
    }
    Ok(())
}

/// The place of the side opposite to a side.
fn other_place(left: usize, right: usize, side: Side) -> usize
    ensures { result ≡ other_place left right side }
{
    match side {
        Side::Left => right,
        Side::Right => left,
    }
}

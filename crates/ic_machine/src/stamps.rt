//! Stamps: in which round each pair would fire, told whatever order pairs fire in.
//!
//! The stamp of an equation is the number of the round after which it is there. A pair of stamp s fires in round s + 1, and what
//! it makes has stamp s + 1. A word that waits for a name has the stamp of their equation. Where it comes up in another one, the
//! greater stamp is that of both. No clause speaks of stamps: nothing but figures depends on them.

use crate::queue::Queue;
use ic_arena::{IDLE, NAME, Names, Word};
use std::alloc::{AllocError, Global};
use std::marker::Model;
use std::mem::replace;

/// The stamp of the text's equations, but for those of two agents, which have stamp 0.
const TEXT: u32 = 1;

/// How many places more are taken where a list of stamps has become too short.
const AHEAD: usize = 1_024;

/// The last stamp.
const LAST: usize = 0xffff_ffff;

/// The stamps of what waits for names and of pending pairs, and how many pairs of each stamp have fired.
#[derive(Drop)]
pub(crate) struct Stamps {
    /// Whether equations are stamped.
    is_on: bool,
    /// Whether they were until memory was refused, or a number.
    is_lost: bool,
    /// The stamp of the equations that are linked now.
    made: u32,
    /// Of each name the stamp of what waits for it. Those that have none here have that of the text.
    names: Vec<u32>,
    /// Of each pending pair its stamp, at its place among them. What stands after these means nothing.
    pairs: Vec<u32>,
    /// How many pairs of each stamp have fired.
    fired: Vec<u64>,
}

impl Model for Stamps {
    ghost Value = { Unit {0} };

    ghost view = { λ _. tt };
}

impl Stamps {
    /// None so far, and none to come. Takes no memory.
    pub(crate) fn new(alloc: Global) -> Stamps {
        Stamps {
            is_on: false,
            is_lost: false,
            made: 0,
            names: Vec::new(alloc),
            pairs: Vec::new(alloc),
            fired: Vec::new(alloc),
        }
    }

    /// Stamps equations from now on, if they are to be stamped. Those of a text are linked next.
    pub(crate) fn begin(&mut self, is_on: bool) {
        self.is_on = is_on;
    }

    /// Whether equations are stamped.
    #[inline(always)]
    pub(crate) fn is_on(&self) -> bool {
        self.is_on
    }

    /// The stamp of an equation that is linked next, as it begins. Only where it is one of two agents it may be less than that of
    /// the text.
    #[inline(always)]
    pub(crate) fn made(&self) -> u32 {
        self.made
    }

    /// The stamp of an equation of this stamp, as the word that waits for a name takes the place of that.
    #[inline(always)]
    pub(crate) fn joined<const STAMPED: bool>(&self, stamp: u32, name: u32) -> u32 {
        if STAMPED {
            stamp.max(self.of_name(name))
        } else {
            stamp
        }
    }

    /// The stamp of what waits for a name.
    #[inline(always)]
    fn of_name(&self, name: u32) -> u32 {
        let place = name as usize;
        if place < self.names.len() {
            self.names[place]
        } else {
            TEXT
        }
    }

    /// Stamps what waits for a name from now on.
    #[inline(always)]
    pub(crate) fn mark<const STAMPED: bool>(&mut self, name: u32, stamp: u32) {
        if STAMPED {
            let place = name as usize;
            let stamp = stamp.max(TEXT);
            if place < self.names.len() {
                self.names[place] = stamp;
            } else {
                self.mark_new(place, stamp);
            }
        }
    }

    /// Stamps what waits for a name that has no place here yet.
    #[cold]
    #[inline(never)]
    fn mark_new(&mut self, place: usize, stamp: u32) {
        if self.is_on && put_new(&mut self.names, place, stamp, TEXT).is_err() {
            self.lose();
        }
    }

    /// Stamps a pair that comes after so many that are pending.
    #[inline(always)]
    pub(crate) fn push<const STAMPED: bool>(&mut self, pending: usize, stamp: u32) {
        if STAMPED {
            if pending < self.pairs.len() {
                self.pairs[pending] = stamp;
            } else {
                self.push_new(pending, stamp);
            }
        }
    }

    /// Stamps a pair that has no place here yet.
    #[cold]
    #[inline(never)]
    fn push_new(&mut self, place: usize, stamp: u32) {
        if self.is_on && put_new(&mut self.pairs, place, stamp, 0).is_err() {
            self.lose();
        }
    }

    /// Counts the last pending pair, which fires next.
    #[inline(always)]
    pub(crate) fn count_last<const STAMPED: bool>(&mut self, pending: &Queue) {
        if STAMPED {
            self.count_at(pending.len().saturating_sub(1));
        }
    }

    /// Counts the pair at this place. Where it has no stamp, they are lost.
    #[inline(always)]
    fn count_at(&mut self, place: usize) {
        if place < self.pairs.len() {
            let stamp = self.pairs[place];
            self.count_stamp(stamp);
        } else {
            self.lose();
        }
    }

    /// Counts a pair of this stamp. What it makes is linked next.
    #[inline(always)]
    fn count_stamp(&mut self, stamp: u32) {
        self.add(stamp as usize, 1);
        self.made = stamp.saturating_add(1);
    }

    /// Counts so many pairs more of a stamp.
    #[inline(always)]
    fn add(&mut self, stamp: usize, count: u64) {
        if stamp < self.fired.len() {
            self.fired[stamp] = self.fired[stamp].saturating_add(count);
        } else {
            self.add_new(stamp, count);
        }
    }

    /// Counts so many pairs of a stamp that has no place here yet. The last stamp has none, since no other comes after it.
    #[cold]
    #[inline(never)]
    fn add_new(&mut self, stamp: usize, count: u64) {
        let places = stamp.saturating_add(AHEAD).min(LAST);
        if stamp >= LAST || self.fired.resize(places, 0).is_err() {
            self.lose();
            return;
        }
        if let Some(fired) = self.fired.get_mut(stamp) {
            *fired = count;
        }
    }

    /// Counts what another machine has fired, too.
    pub(crate) fn add_all(&mut self, other: &Stamps) {
        if other.is_lost {
            self.lose();
        }
        for (stamp, count) in other.fired.iter().enumerate() {
            if *count > 0 {
                self.add(stamp, *count);
            }
        }
    }

    /// Gives what waits for a name, where that waits for another one, the greater stamp of both, as the other is put through.
    #[inline(always)]
    pub(crate) fn put_through(&mut self, name: u32, other: u32) {
        if self.is_on {
            let stamp = self.of_name(name).max(self.of_name(other));
            self.mark::<true>(name, stamp);
        }
    }

    /// Has no stamps from now on.
    pub(crate) fn lose(&mut self) {
        self.is_on = false;
        self.is_lost = true;
    }

    /// How many pairs each round would have fired, if that is known. They are no longer stamped then.
    pub(crate) fn take_fired(&mut self, alloc: Global) -> Option<Vec<u64>> {
        if !self.is_on {
            return None;
        }
        self.is_on = false;
        let mut fired = replace(&mut self.fired, Vec::new(alloc));
        let rounds = rounds_of(&fired);
        fired.truncate(rounds);
        Some(fired)
    }

    /// Puts the stamps of so many pending pairs, the first ones, into a parcel. So many others are left.
    pub(crate) fn carry_pairs(&mut self, pairs: usize, left: usize, carried: &mut Carried) {
        if !self.is_on {
            return;
        }
        self.pairs.truncate(pairs.saturating_add(left));
        if self.pairs.len() < pairs {
            self.lose();
            return;
        }
        match self.pairs.split_off(pairs) {
            Ok(rest) => {
                let given = replace(&mut self.pairs, rest);
                carried.add_all(&given);
            }
            Err(_) => self.lose(),
        }
    }

    /// Puts the stamps of so many pairs into a parcel that never fire: any.
    pub(crate) fn carry_stuck(&self, pairs: usize, carried: &mut Carried) {
        if self.is_on {
            for _ in 0..pairs {
                carried.add(0);
            }
        }
    }

    /// Puts the stamp of an equation into a parcel: that of a name with what waits for it.
    pub(crate) fn carry_name(&self, name: u32, carried: &mut Carried) {
        if self.is_on {
            carried.add(self.of_name(name));
        }
    }

    /// Puts the stamp of the word into a parcel that waits for a name, if one does: that word is packed next, at this place.
    pub(crate) fn carry_waiting(
        &self,
        names: &Names,
        name: u32,
        place: usize,
        carried: &mut Carried,
    ) {
        if self.is_on && waiting_for(names, Word::name(name)).is_some() {
            carried.add_waiting(place, self.of_name(name));
        }
    }

    /// Stamps from now on, if what comes in a parcel is stamped.
    pub(crate) fn take_in(&mut self, carried: &Carried) {
        if carried.is_lost {
            self.lose();
        }
        self.is_on = (self.is_on || carried.is_on) && !self.is_lost;
    }

    /// Links with the stamp of an equation of a parcel: so many were linked of its last ones.
    pub(crate) fn link_carried(&mut self, carried: &Carried, linked: usize) {
        self.made = carried.before_last(linked);
    }
}

/// Puts a stamp at a place that a list doesn't have yet. Others, of which there are some after it, are of this stamp.
fn put_new(list: &mut Vec<u32>, place: usize, stamp: u32, other: u32) -> Result<(), AllocError> {
    list.resize(place.saturating_add(AHEAD), other)?;
    if let Some(new) = list.get_mut(place) {
        *new = stamp;
    }
    Ok(())
}

/// How many rounds there are up to the last one that fires a pair.
fn rounds_of(fired: &[u64]) -> usize {
    let mut rounds = 0;
    for (place, count) in fired.iter().enumerate() {
        if *count > 0 {
            rounds = place.saturating_add(1);
        }
    }
    rounds
}

/// The word that waits for a word, if that is a name for which one does.
fn waiting_for(names: &Names, word: Word) -> Option<Word> {
    if word.tag != NAME || names.len() <= word.index as usize {
        return None;
    }
    let waiting = names.get(word.index);
    if waiting.tag < IDLE {
        Some(waiting)
    } else {
        None
    }
}

/// The stamp of a word that has waited for a name, and its place among the words of a parcel.
#[derive(Clone, Copy)]
struct Waited {
    place: usize,
    stamp: u32,
}

/// The stamps of what a parcel carries.
#[derive(Drop)]
pub(crate) struct Carried {
    is_on: bool,
    is_lost: bool,
    /// Those of equations, in their order.
    equations: Vec<u32>,
    /// Those of words that have waited, in the order of their places.
    waited: Vec<Waited>,
}

impl Model for Carried {
    ghost Value = { Unit {0} };

    ghost view = { λ _. tt };
}

impl Carried {
    pub(crate) fn new(alloc: Global) -> Carried {
        Carried {
            is_on: false,
            is_lost: false,
            equations: Vec::new(alloc),
            waited: Vec::new(alloc),
        }
    }

    fn add(&mut self, stamp: u32) {
        self.is_on = true;
        if self.equations.push(stamp).is_err() {
            self.is_lost = true;
        }
    }

    fn add_all(&mut self, stamps: &[u32]) {
        self.is_on = true;
        if self.equations.extend_from_slice(stamps).is_err() {
            self.is_lost = true;
        }
    }

    /// Where several names are followed to a word, the greatest stamp is that of all.
    fn add_waiting(&mut self, place: usize, stamp: u32) {
        if let Some(last) = self.waited.last_mut() {
            if last.place == place {
                last.stamp = last.stamp.max(stamp);
                return;
            }
        }
        if self.waited.push(Waited { place, stamp }).is_err() {
            self.is_lost = true;
        }
    }

    /// The stamp of the equation before so many last ones.
    fn before_last(&self, count: usize) -> u32 {
        let number = self.equations.len().saturating_sub(count).saturating_sub(1);
        match self.equations.get(number) {
            Some(stamp) => *stamp,
            None => 0,
        }
    }

    /// Takes the stamp of the word at a place, if that has waited. Words are asked for from the last one on.
    pub(crate) fn take_waited(&mut self, place: usize) -> Option<u32> {
        match self.waited.last() {
            Some(last) if last.place == place => {}
            _ => return None,
        }
        match self.waited.pop() {
            Some(last) => Some(last.stamp),
            None => None,
        }
    }
}

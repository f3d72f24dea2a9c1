//! The parts of a net: those at the desk, and those that hands have for a step.

mod handing;
mod stepping;

ghost use Rattle.std.specs.Prelude.{◌≡◌, ◌≢◌, ◌+◌, ◌^◌, ◌<◌, ◌≤◌, ◌∷◌, ◌++◌, [], true, false, Ok, length, sum_by, IfOk, IfSome, OnOk, IsPermutation};
ghost use Rattle.std.specs.List.{AllByRecursion};
ghost use Rattle.ic_machine.specs.Net.{IsStuck};
ghost use Rattle.ic_machine.specs.Plan.{Plans};
ghost use Rattle.ic_workers.specs.inner.HandsOn.{Come, IsAllOf};
ghost use Rattle.ic_workers.specs.inner.Keeping.{parts_at, parts_in, parts_in_all, slots_at, whole, AreApart, AreAt, AreWithin, IsDesk};

use self::handing::gather;
use crate::kept::{Hand, Kept, empty_part};
use crate::policy::Policy;
use crate::sharing::Sharing;
use ic_in_place::Gauge;
use ic_machine::{Machine, Program, Told};
use std::alloc::{AllocError, Global};
use std::cmp::Reverse;
use std::collections::HashMap;
use std::mem::replace;
pub use stepping::run_by_workers;

/// Parts at most.
const MOST_PARTS: usize = 512;

/// A part in which a word waits for a cut, with so many nodes below it, or at least as many.
#[derive(Clone, Copy)]
struct Waiting {
    part: usize,
    size: usize,
}

/// A part that has something to do, and the interactions of its last step.
#[derive(Clone, Copy)]
struct Due {
    last: u64,
    part: usize,
}

/// The parts of a net.
#[derive(Drop)]
pub(crate) struct Desk {
    parts: Vec<Option<Kept>>,
    /// What waits for cuts.
    waiting: HashMap<u64, Waiting>,
    /// Interactions in all.
    made: u64,
    /// Who made them, and what that cost.
    sharing: Sharing,
}

impl Desk {
    /// One part, which is the whole, for so many threads.
    fn new(alloc: Global, machine: Machine, workers: usize) -> Result<Desk, AllocError>
        ensures parts { IfOk result (λ desk. slots_at desk ≡ (whole machine ∷ []) ∷ []) }
        ensures made { IfOk result (λ desk. desk.made ≡ 0) }
    {
        let sharing = Sharing::new(alloc, workers)?;
        let mut parts = Vec::new(alloc);
        parts.push(Some(Kept::new(alloc, machine, 0, MOST_PARTS as u32)))?;
        Ok(Desk {
            parts,
            waiting: HashMap::new(alloc),
            made: 0,
            sharing,
        })
    }

    fn has_work(&self, part: usize) -> bool
        requires { part < length self.now.parts.items }
    {
        match &self.parts[part] {
            Some(kept) => kept.has_work(),
            None => false,
        }
    }

    /// The next part that has something to do, from one on.
    fn next_due(&self, from: usize) -> Option<usize>
        requires from { from ≤ length self.now.parts.items }
        requires few { length self.now.parts.items ≤ 512 }
        ensures { IfSome result (λ k. k < length self.now.parts.items) }
    {
        let count = self.parts.len();
        for step in 0..count {
            let part = (from + step) % count;
            if self.has_work(part) {
                return Some(part);
            }
        }
        None
    }

    fn pending(&self, part: usize) -> usize
        requires { part < length self.now.parts.items }
    {
        match &self.parts[part] {
            Some(kept) => kept.machine.pending().len(),
            None => 0,
        }
    }

    /// One of so many pending pairs of a part, but not all.
    fn oldest(&self, part: usize, policy: Policy) -> usize
        requires { part < length self.now.parts.items }
    {
        let pairs = self.pending(part);
        pairs
            .div_ceil(policy.share.max(1))
            .min(pairs.saturating_sub(1))
    }

    /// How many of these have fewer than so many nodes below them.
    fn light(
        &self,
        alloc: Global,
        part: usize,
        policy: Policy,
        nodes: usize,
    ) -> Result<usize, AllocError>
        requires { part < length self.now.parts.items }
    {
        self.within(alloc, part, self.oldest(part, policy), nodes)
    }

    /// How many of the first so many pending pairs of a part have fewer than so many nodes below them.
    fn within(
        &self,
        alloc: Global,
        part: usize,
        pairs: usize,
        nodes: usize,
    ) -> Result<usize, AllocError>
        requires { part < length self.now.parts.items }
    {
        match &self.parts[part] {
            Some(kept) => kept.machine.pairs_within(alloc, pairs, nodes),
            None => Ok(0),
        }
    }

    /// How many pairs of a part go to a new one as first parts are made.
    fn first_pairs(&self, alloc: Global, part: usize, policy: Policy) -> Result<usize, AllocError>
        requires { part < length self.now.parts.items }
    {
        if self.pending(part) < 3 {
            return Ok(0);
        }
        self.light(alloc, part, policy, policy.light)
    }

    /// How many nodes a part may share: an eighth as many as it made interactions in its last step, or a 256th as many as all
    /// parts have made.
    fn few_nodes(&self, part: usize) -> usize
        requires { part < length self.now.parts.items }
    {
        match &self.parts[part] {
            Some(kept) => (kept.last / 8).max(self.made / 256).clamp(1_000, 1 << 32) as usize,
            None => 0,
        }
    }

    /// How many interactions a part has made.
    fn made_by(&self, part: usize) -> u64
        requires { part < length self.now.parts.items }
    {
        match &self.parts[part] {
            Some(kept) => kept.machine.interactions(),
            None => 0,
        }
    }

    /// Puts a part into a hand.
    fn put_in(&mut self, hand: &mut Hand, part: usize) -> Result<(), AllocError>
        requires { part < length self.old.parts.items }
        ensures moved { OnOk result (IsPermutation (parts_in hand.new ++ parts_at self.new)
            (parts_in hand.old ++ parts_at self.old)) }
        ensures slots { AreAt 0 (slots_at self.old) → AreAt 0 (slots_at self.new) }
        ensures len { length self.new.parts.items ≡ length self.old.parts.items }
        ensures made { self.new.made ≡ self.old.made }
        ensures same { (hand.new.budget ≡ hand.old.budget)
            × (hand.new.made ≡ hand.old.made) }
    {
        if let Some(kept) = self.parts[part].take() {
            hand.parts.push(kept)?;
        }
        Ok(())
    }

    /// Takes the parts of a hand back.
    fn take_back(&mut self, hand: Hand)
        requires few { self.old.made + hand.made < 2 ^ 64 }
        requires slots { AreAt 0 (slots_at self.old) }
        requires within { AreWithin (length self.old.parts.items) (parts_in hand) }
        requires apart { AreApart (parts_in hand ++ parts_at self.old) }
        ensures moved { IsPermutation (parts_at self.new) (parts_in hand ++ parts_at self.old) }
        ensures slots { AreAt 0 (slots_at self.new) }
        ensures made { self.new.made ≡ self.old.made + hand.made }
        ensures len { length self.new.parts.items ≡ length self.old.parts.items }
    {
        self.made += hand.made;
        let mut parts = hand.parts;
        while let Some(kept) = parts.pop() {
            let slot = kept.number as usize;
            self.parts[slot] = Some(kept);
        }
    }

    /// Has a part tell its borders for which a word waits.
    fn tell(&mut self, alloc: Global, part: usize)
        requires { part < length self.old.parts.items }
        ensures slots { slots_at self.new ≡ slots_at self.old }
        ensures made { self.new.made ≡ self.old.made }
    {
        if let Some(kept) = &mut self.parts[part] {
            kept.tell(alloc);
        }
    }

    /// Takes what a part has told.
    fn told_in(&mut self, alloc: Global, part: usize) -> Vec<Told>
        requires { part < length self.old.parts.items }
        ensures slots { slots_at self.new ≡ slots_at self.old }
        ensures made { self.new.made ≡ self.old.made }
    {
        match &mut self.parts[part] {
            Some(kept) => replace(&mut kept.told, Vec::new(alloc)),
            None => Vec::new(alloc),
        }
    }

    /// A part without work other than this one, or a new one.
    fn spare(
        &mut self,
        alloc: Global,
        program: &Program,
        other: usize,
    ) -> Result<Option<usize>, AllocError>
        requires desk { IsDesk program.now self.old }
        requires there { other < length self.old.parts.items }
        ensures come { OnOk result
            (Come program.now (parts_at self.old) (parts_at self.new)) }
        ensures desk { OnOk result (IsDesk program.now self.new) }
        ensures there { IfOk result (λ o. IfSome o (λ k. k < length self.new.parts.items)) }
        ensures other { IfOk result (λ o. IfSome o (λ k. k ≢ other)) }
        ensures more { length self.old.parts.items ≤ length self.new.parts.items }
        ensures made { self.new.made ≡ self.old.made }
    {
        for part in 0..self.parts.len() {
            if part != other && !self.has_work(part) {
                return Ok(Some(part));
            }
        }
        let number = self.parts.len();
        if number >= MOST_PARTS {
            return Ok(None);
        }
        self.add(alloc, program)?;
        Ok(Some(number))
    }

    /// Adds a part with nothing in it.
    fn add(&mut self, alloc: Global, program: &Program) -> Result<(), AllocError>
        requires desk { IsDesk program.now self.old }
        requires few { length self.old.parts.items < 512 }
        ensures come { OnOk result
            (Come program.now (parts_at self.old) (parts_at self.new)) }
        ensures desk { OnOk result (IsDesk program.now self.new) }
        ensures len { OnOk result
            (length self.new.parts.items ≡ length self.old.parts.items + 1) }
        ensures more { length self.old.parts.items ≤ length self.new.parts.items }
        ensures made { self.new.made ≡ self.old.made }
    {
        let number = self.parts.len();
        let part = empty_part(alloc, program, number, MOST_PARTS as u32)?;
        self.parts.push(Some(part))?;
        Ok(())
    }

    /// The parts that have something to do, those that did most in their last step first.
    fn due(&self, alloc: Global) -> Result<Vec<Due>, AllocError>
        ensures { IfOk result (λ due. AllByRecursion
            (λ d. d.part < length self.now.parts.items) due.items) }
    {
        let mut due = Vec::new(alloc);
        for part in 0..self.parts.len() {
            if let Some(kept) = &self.parts[part] {
                if kept.has_work() {
                    let last = kept.last_made();
                    due.push(Due { last, part })?;
                }
            }
        }
        due.sort_unstable_by_key(|one| (Reverse(one.last), one.part));
        Ok(due)
    }

    /// The parts that have something to do, and made so many interactions in their last step.
    fn busy(&self, alloc: Global, least: u64) -> Result<Vec<usize>, AllocError>
        ensures { IfOk result (λ parts.
            AllByRecursion (λ k. k < length self.now.parts.items) parts.items) }
    {
        let mut busy = Vec::new(alloc);
        for part in 0..self.parts.len() {
            if let Some(kept) = &self.parts[part] {
                if kept.has_work() && kept.last_made() >= least {
                    busy.push(part)?;
                }
            }
        }
        Ok(busy)
    }

    fn has_fault(&self) -> bool {
        for part in &self.parts {
            if let Some(kept) = part {
                if kept.fault.is_some() {
                    return true;
                }
            }
        }
        false
    }

    /// How many names and agents the machines have together.
    fn nodes(&self, gauge: &Gauge) -> u64 {
        let mut added: u64 = 0;
        for part in &self.parts {
            if let Some(kept) = part {
                added = added.wrapping_add(gauge.added(&kept.machine));
            }
        }
        gauge.nodes_with(added)
    }

    /// Takes the parts of all hands back.
    fn take_all_back(&mut self, hands: Vec<Hand>)
        requires few { self.old.made + sum_by (λ h. h.made) hands.items < 2 ^ 64 }
        requires slots { AreAt 0 (slots_at self.old) }
        requires within { AreWithin (length self.old.parts.items) (parts_in_all hands.items) }
        requires apart { AreApart (parts_in_all hands.items ++ parts_at self.old) }
        ensures moved { IsPermutation (parts_at self.new)
            (parts_in_all hands.items ++ parts_at self.old) }
        ensures slots { AreAt 0 (slots_at self.new) }
        ensures made { self.new.made ≡ self.old.made + sum_by (λ h. h.made) hands.items }
        ensures len { length self.new.parts.items ≡ length self.old.parts.items }
    {
        let mut hands = hands;
        while let Some(hand) = hands.pop() {
            self.take_back(hand);
        }
    }

    /// Puts all parts together into the machine of the first one.
    fn put_together(self, alloc: Global) -> Result<Machine, AllocError>
        requires desk { (p : Plans) × IsDesk p self }
        ensures all { IfOk result (λ m. (p : Plans) → IsDesk p self
            → IsAllOf p (parts_at self) m) }
        ensures kept { IfOk result (λ m. (p : Plans) → IsDesk p self → (m.arities ≡ p.arities)
            × AllByRecursion (IsStuck p) m.aside) }
        ensures made { IfOk result (λ m. m.interactions ≡ self.made) }
    {
        let mut parts = self.parts;
        let mut all = Vec::new(alloc);
        while let Some(part) = parts.pop() {
            if let Some(kept) = part {
                all.push(kept)?;
            }
        }
        let Some(mut first) = all.pop() else {
            return Err(AllocError);
        };
        while let Some(kept) = all.pop() {
            gather(alloc, &mut first, kept)?;
        }
        Ok(first.machine)
    }
}

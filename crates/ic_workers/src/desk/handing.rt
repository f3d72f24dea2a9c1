//! What is handed on among parts between steps.

ghost use Rattle.std.specs.Prelude.{◌≡◌, ◌≢◌, ℕ, ◌+◌, ◌*◌, ◌^◌, ◌<◌, ◌≤◌, [], true, false, Ok, length, IfOk, IfSome, OnOk};
ghost use Rattle.std.specs.List.{AllByRecursion};
ghost use Rattle.ic_machine.specs.Moving.{worth, AreBordered, AreSpelled, KeepWorth, Unpacks};
ghost use Rattle.ic_machine.specs.Plan.{Plans};
ghost use Rattle.ic_workers.specs.inner.HandsOn.{Gathers};
ghost use Rattle.ic_workers.specs.inner.Keeping.{part_of, slots_at, AreOnce, AwaitsParcel, Changes, Comes, GivesOut, IsDesk, IsKept, Receives, ShipsOut};

use super::{Desk, Waiting};
use crate::kept::{Kept, MOST_NODES};
use crate::laws::what_a_part_sends_stays_one_net;
use ic_machine::laws::what_borders_hold;
use ic_machine::{Parcel, Told};
use std::alloc::{AllocError, Global};

/// How often parts are looked at between two steps at most. What is left then meets when all is put together.
const MOST_MEETINGS: u64 = 0xffff_ffff;

impl Desk {
    /// Hands on what waits for cuts for which something waits elsewhere too, from these parts on.
    pub(crate) fn meet(&mut self, alloc: Global, parts: Vec<usize>) -> Result<(), AllocError>
        requires desk { (p : Plans) × IsDesk p self.old }
        requires there { AllByRecursion (λ k. k < length self.old.parts.items) parts.items }
        ensures come { OnOk result (Comes self.old self.new) }
        ensures made { self.new.made ≡ self.old.made }
        ensures len { length self.new.parts.items ≡ length self.old.parts.items }
    {
        let mut next = parts;
        for _ in 0..MOST_MEETINGS {
            if next.is_empty() {
                return Ok(());
            }
            let came = self.meet_all(alloc, &next)?;
            self.tell_all(alloc, &came);
            next = came;
        }
        Ok(())
    }

    /// Hands on what these parts have told. Answers the parts to which something went, once each.
    fn meet_all(&mut self, alloc: Global, parts: &[usize]) -> Result<Vec<usize>, AllocError>
        requires desk { (p : Plans) × IsDesk p self.old }
        requires there { AllByRecursion (λ k. k < length self.old.parts.items) parts.now }
        ensures come { OnOk result (Comes self.old self.new) }
        ensures made { self.new.made ≡ self.old.made }
        ensures len { length self.new.parts.items ≡ length self.old.parts.items }
        ensures there { IfOk result (λ came.
            AllByRecursion (λ k. k < length self.new.parts.items) came.items) }
    {
        let mut came = Vec::new(alloc);
        for place in 0..parts.len() {
            self.meet_from(alloc, parts[place], &mut came)?;
        }
        Ok(came)
    }

    /// Hands on what this part has told. The parts to which something went are remembered, once each.
    fn meet_from(
        &mut self,
        alloc: Global,
        part: usize,
        came: &mut Vec<usize>,
    ) -> Result<(), AllocError>
        requires desk { (p : Plans) × IsDesk p self.old }
        requires there { part < length self.old.parts.items }
        requires before { AllByRecursion (λ k. k < length self.old.parts.items) came.old.items }
        ensures come { OnOk result (Comes self.old self.new) }
        ensures made { self.new.made ≡ self.old.made }
        ensures len { length self.new.parts.items ≡ length self.old.parts.items }
        ensures came { OnOk result
            (AllByRecursion (λ k. k < length self.new.parts.items) came.new.items) }
    {
        for told in &self.told_in(alloc, part) {
            let to = self.meet_one(alloc, part, *told)?;
            remember(came, to)?;
        }
        Ok(())
    }

    /// Has parts tell their borders for which a word waits.
    fn tell_all(&mut self, alloc: Global, parts: &[usize])
        requires there { AllByRecursion (λ k. k < length self.old.parts.items) parts.now }
        ensures slots { slots_at self.new ≡ slots_at self.old }
        ensures made { self.new.made ≡ self.old.made }
    {
        for place in 0..parts.len() {
            self.tell(alloc, parts[place]);
        }
    }

    /// Hands on what waits for a cut, if something waits for it elsewhere too. Answers the part to which it went.
    fn meet_one(
        &mut self,
        alloc: Global,
        part: usize,
        told: Told,
    ) -> Result<Option<usize>, AllocError>
        requires desk { (p : Plans) × IsDesk p self.old }
        requires there { part < length self.old.parts.items }
        ensures come { OnOk result (Comes self.old self.new) }
        ensures made { self.new.made ≡ self.old.made }
        ensures len { length self.new.parts.items ≡ length self.old.parts.items }
        ensures there { IfOk result (λ o. IfSome o (λ k. k < length self.new.parts.items)) }
    {
        let cut = u64::from(told.cut);
        let size = told.size;
        let before = self.waiting.insert(cut, Waiting { part, size })?;
        let Some(other) = before else {
            return Ok(None);
        };
        if other.part == part || other.part >= self.parts.len() {
            return Ok(None);
        }
        let (from, to) = if self.goes(part, size, other) {
            (part, other.part)
        } else {
            (other.part, part)
        };
        if !self.hand_over(alloc, from, to, told.cut)? {
            return Ok(None);
        }
        self.waiting.remove(&cut);
        self.sharing.count_tree();
        Ok(Some(to))
    }

    /// Hands what waits for a cut in one part on to another one. Answers whether something did: where nothing does, what
    /// waited elsewhere did so for an earlier cut of this number.
    fn hand_over(
        &mut self,
        alloc: Global,
        from: usize,
        to: usize,
        cut: u32,
    ) -> Result<bool, AllocError>
        requires desk { (p : Plans) × IsDesk p self.old }
        requires from { from < length self.old.parts.items }
        requires to { to < length self.old.parts.items }
        requires two { from ≢ to }
        ensures come { OnOk result (Comes self.old self.new) }
        ensures made { self.new.made ≡ self.old.made }
        ensures len { length self.new.parts.items ≡ length self.old.parts.items }
    {
        what_a_part_sends_stays_one_net();
        let mut parcel = Parcel::new(alloc);
        let shipped = self.ship(from, cut, &mut parcel)?;
        if !shipped {
            return Ok(false);
        }
        self.send(alloc, to, parcel)?;
        Ok(true)
    }

    /// Takes what waits for a cut out of a part. Answers whether something did.
    fn ship(&mut self, from: usize, cut: u32, parcel: &mut Parcel) -> Result<bool, AllocError>
        requires desk { (p : Plans) × IsDesk p self.old }
        requires there { from < length self.old.parts.items }
        requires none { parcel.old.words.items ≡ [] }
        ensures shipped { result ≡ Ok true → (p : Plans) → IsDesk p self.old
            → Changes from (ShipsOut p.arities cut parcel.new.words.items)
            (slots_at self.old) (slots_at self.new) × AwaitsParcel p parcel.new self.new }
        ensures none { result ≡ Ok false → slots_at self.new ≡ slots_at self.old }
        ensures made { self.new.made ≡ self.old.made }
        ensures len { length self.new.parts.items ≡ length self.old.parts.items }
    {
        match &mut self.parts[from] {
            Some(kept) => {
                let shipped = kept.machine.ship(cut, &mut kept.borders, parcel)?;
                what_borders_hold(&kept.borders);
                Ok(shipped)
            }
            None => Ok(false),
        }
    }

    /// Puts what a parcel carries into a part.
    fn send(&mut self, alloc: Global, to: usize, parcel: Parcel) -> Result<(), AllocError>
        requires desk { (p : Plans) × AwaitsParcel p parcel self.old }
        requires there { to < length self.old.parts.items }
        // Where it can't be put in, that is told, and nothing is said of the net.
        ensures sent { OnOk result ((p : Plans) → AwaitsParcel p parcel self.old
            → Receives to parcel.words.items (slots_at self.old) (slots_at self.new)
            × IsDesk p self.new) }
        ensures made { self.new.made ≡ self.old.made }
        ensures len { length self.new.parts.items ≡ length self.old.parts.items }
    {
        let mut parcel = parcel;
        match &mut self.parts[to] {
            Some(kept) => {
                unpack(alloc, kept, &mut parcel)?;
                Ok(())
            }
            None => Ok(()),
        }
    }

    /// Whether the tree of this part goes to the other one: from one that has something to do to one that hasn't, if it is
    /// small, and else the smaller one.
    fn goes(&self, part: usize, size: usize, other: Waiting) -> bool
        requires there { part < length self.now.parts.items }
        requires other { other.part < length self.now.parts.items }
    {
        let (here, there) = (self.has_work(part), self.has_work(other.part));
        if here && !there && size < MOST_NODES {
            return true;
        }
        if there && !here && other.size < MOST_NODES {
            return false;
        }
        size < other.size || (size == other.size && part > other.part)
    }

    /// Gives so many of a part's pending pairs to another part, the oldest.
    pub(crate) fn share(
        &mut self,
        alloc: Global,
        from: usize,
        to: usize,
        pairs: usize,
    ) -> Result<(), AllocError>
        requires desk { (p : Plans) × IsDesk p self.old }
        requires from { from < length self.old.parts.items }
        requires to { to < length self.old.parts.items }
        requires two { from ≢ to }
        ensures come { OnOk result (Comes self.old self.new) }
        ensures made { self.new.made ≡ self.old.made }
        ensures len { length self.new.parts.items ≡ length self.old.parts.items }
    {
        what_a_part_sends_stays_one_net();
        let mut parcel = Parcel::new(alloc);
        self.give(from, pairs, &mut parcel)?;
        self.send(alloc, to, parcel)
    }

    /// Takes so many pending pairs out of a part, the oldest.
    fn give(&mut self, from: usize, pairs: usize, parcel: &mut Parcel) -> Result<(), AllocError>
        requires desk { (p : Plans) × IsDesk p self.old }
        requires there { from < length self.old.parts.items }
        requires none { parcel.old.words.items ≡ [] }
        ensures given { OnOk result ((p : Plans) → IsDesk p self.old
            → Changes from (GivesOut p.arities parcel.new.words.items)
            (slots_at self.old) (slots_at self.new) × AwaitsParcel p parcel.new self.new) }
        ensures made { self.new.made ≡ self.old.made }
        ensures len { length self.new.parts.items ≡ length self.old.parts.items }
    {
        match &mut self.parts[from] {
            Some(kept) => {
                let given = pairs.min(kept.machine.pending().len());
                kept.machine.give(given, &mut kept.borders, parcel)?;
                what_borders_hold(&kept.borders);
                Ok(())
            }
            None => Ok(()),
        }
    }
}

/// Puts a number into a list, if there is one and it isn't there.
fn remember(came: &mut Vec<usize>, to: Option<usize>) -> Result<(), AllocError>
    ensures { OnOk result ((n : ℕ) → AllByRecursion (λ k. k < n) came.old.items
        → IfSome to (λ k. k < n) → AllByRecursion (λ k. k < n) came.new.items) }
{
    let Some(to) = to else {
        return Ok(());
    };
    if !came.contains(&to) {
        came.push(to)?;
    }
    Ok(())
}

/// Puts what a part has into another one.
pub(crate) fn gather(alloc: Global, first: &mut Kept, part: Kept) -> Result<(), AllocError>
    requires kept { (p : Plans) × IsKept p (part_of first.old) × IsKept p (part_of part)
        × ((c : ℕ) → worth c first.old.borders + worth c part.borders ≤ 2) }
    requires few { first.old.machine.interactions + part.machine.interactions < 2 ^ 64 }
    requires two { first.old.number ≢ part.number }
    requires later { part.number ≢ 0 }
    ensures gathers { OnOk result ((p : Plans) → IsKept p (part_of first.old)
        → IsKept p (part_of part)
        → Gathers p.arities (part_of part) (part_of first.old) (part_of first.new)
        × IsKept p (part_of first.new)) }
    ensures worth { OnOk result ((c : ℕ) → worth c first.new.borders
        ≤ worth c first.old.borders + worth c part.borders) }
    ensures number { first.new.number ≡ first.old.number }
{
    what_a_part_sends_stays_one_net();
    let mut part = part;
    let mut parcel = Parcel::new(alloc);
    part.machine
        .give_all(alloc, &mut part.borders, &mut parcel)?;
    what_borders_hold(&part.borders);
    first.machine.count_also(&part.machine);
    unpack(alloc, first, &mut parcel)
}

/// Puts a parcel into a part. Memory is said to have run out if there are no numbers for it, too.
fn unpack(alloc: Global, part: &mut Kept, parcel: &mut Parcel) -> Result<(), AllocError>
    requires bordered { AreBordered part.old.machine part.old.borders }
    requires spelled { AreSpelled part.old.machine.arities parcel.old.words.items }
    ensures unpacks { OnOk result (Unpacks parcel.old.words.items part.old.machine
        part.new.machine part.old.borders part.new.borders) }
    ensures bordered { OnOk result (AreBordered part.new.machine part.new.borders) }
    ensures worth { OnOk result (KeepWorth part.old.borders part.new.borders
        parcel.old.words.items []) }
    ensures once { AreOnce part.new.borders }
    ensures number { part.new.number ≡ part.old.number }
{
    let unpacked = part.machine.unpack(alloc, &mut part.borders, parcel);
    what_borders_hold(&part.borders);
    match unpacked {
        Ok(()) => Ok(()),
        Err(_) => Err(AllocError),
    }
}

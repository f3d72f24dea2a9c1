//! Where names stand.

ghost use Rattle.std.specs.Prelude.{◌≡◌, ◌==◌, ◌<◌, ℕ, Option, None, Some, OnOk, length, slice_get, if◌then◌else◌};
ghost use Rattle.std.specs.Ordering.{nat_cmp};
ghost use Rattle.std.specs.BTreeMap.{get};
ghost use Rattle.ic_settle.specs.lemmas.Containers.{noted};
ghost use Rattle.ic_flat_round.specs.inner.Places.{slot_of, spot_of, spot_tells, found};

use std::alloc::{AllocError, Global};
use std::collections::BTreeMap;

/// Slots are the first bits of products with this number, by which names that stand close together are spread.
const SPREAD: u64 = 0x9e37_79b9_7f4a_7c15;

/// The first and the last container in which a name occurs.
#[derive(Clone, Copy)]
pub(crate) struct Spot {
    pub name: u64,
    pub first: usize,
    pub last: usize,
}

/// For each name the first and the last container in which it occurs: the number of an equation, or for the interface
/// how many equations there are.
#[derive(Drop)]
pub(crate) struct Places {
    /// The number of the spot that has a slot; any number where none has it.
    slots: Vec<usize>,
    spots: Vec<Spot>,
    /// The names whose slots other names have. They are found in a tree, so that none can be chosen that are slow to find.
    others: BTreeMap<u64, (usize, usize)>,
    /// How far a product is shifted.
    shift: u32,
}

impl Places {
    /// No names. Takes no memory.
    pub(crate) fn new(alloc: Global) -> Places {
        Places {
            slots: Vec::new(alloc),
            spots: Vec::new(alloc),
            others: BTreeMap::new(alloc),
            shift: 0,
        }
    }

    /// Takes all names out, and has two slots or more for each of so many. Keeps the memory of those before.
    pub(crate) fn clear(&mut self, names: usize) -> Result<(), AllocError>
        ensures { OnOk result ((y : ℕ) → found self.new y ≡ None) }
    {
        self.spots.clear();
        self.others.clear();
        self.shift = names.saturating_mul(2).max(1).leading_zeros();
        let most = u64::MAX.wrapping_shr(self.shift) as usize;
        if self.slots.len() <= most {
            self.slots.resize(most.saturating_add(1), 0)?;
        }
        Ok(())
    }

    /// The first and the last container of a name, if it was noted.
    #[inline(always)]
    pub(crate) fn get(&self, name: u64) -> Option<(usize, usize)>
        ensures { result ≡ found self.now name }
    {
        match self.spot(name) {
            Some(spot) if spot.name == name => Some((spot.first, spot.last)),
            Some(_) => self.other(name),
            None => self.other(name),
        }
    }

    /// The spot that the slot of a name leads to.
    #[inline(always)]
    fn spot(&self, name: u64) -> Option<Spot>
        ensures { result
            ≡ spot_of self.now.slots.items self.now.spots.items self.now.shift name }
    {
        let number = *self.slots.get(slot_of(self.shift, name))?;
        self.spots.get(number).copied()
    }

    /// The containers of a name whose slot another name has.
    #[inline(always)]
    fn other(&self, name: u64) -> Option<(usize, usize)>
        ensures { result ≡ get nat_cmp self.now.others name }
    {
        if self.others.is_empty() {
            return None;
        }
        self.looked_up(name)
    }

    /// The same, where there are such names.
    #[cold]
    #[inline(never)]
    fn looked_up(&self, name: u64) -> Option<(usize, usize)>
        ensures { result ≡ get nat_cmp self.now.others name }
    {
        self.others.get(&name).copied()
    }

    /// Notes that a name occurs in a container, the last one so far.
    #[inline(always)]
    pub(crate) fn note(&mut self, name: u64, place: usize) -> Result<(), AllocError>
        ensures { OnOk result ((y : ℕ) → found self.new y
            ≡ (if name == y then noted place (found self.old y) else found self.old y)) }
    {
        let slot = slot_of(self.shift, name);
        match self.number(slot) {
            Some(number) => self.note_at(slot, number, name, place),
            None => self.note_other(name, place),
        }
    }

    #[inline(always)]
    fn number(&self, slot: usize) -> Option<usize>
        ensures { result ≡ slice_get self.now.slots.items slot }
    {
        self.slots.get(slot).copied()
    }

    #[inline(always)]
    fn numbered(&self, number: usize) -> Option<Spot>
        ensures { result ≡ slice_get self.now.spots.items number }
    {
        self.spots.get(number).copied()
    }

    /// The same for a name whose slot leads to this number.
    #[inline(always)]
    fn note_at(
        &mut self,
        slot: usize,
        number: usize,
        name: u64,
        place: usize,
    ) -> Result<(), AllocError>
        requires slot { slot ≡ slot_of self.old.shift name }
        requires number { slice_get self.old.slots.items slot ≡ Some number }
        ensures { OnOk result ((y : ℕ) → found self.new y
            ≡ (if name == y then noted place (found self.old y) else found self.old y)) }
    {
        match self.numbered(number) {
            Some(there) if there.name == name => {
                self.spots[number] = Spot {
                    name,
                    first: there.first,
                    last: place,
                };
                Ok(())
            }
            Some(there) if slot_of(self.shift, there.name) == slot => self.note_other(name, place),
            Some(_) => self.note_new(slot, name, place),
            None => self.note_new(slot, name, place),
        }
    }

    /// The same for a name whose slot no name has.
    #[inline(always)]
    fn note_new(&mut self, slot: usize, name: u64, place: usize) -> Result<(), AllocError>
        requires slot { slot ≡ slot_of self.old.shift name }
        requires within { slot < length self.old.slots.items }
        requires free { (there : Spot) → spot_of self.old.slots.items self.old.spots.items
            self.old.shift name ≡ Some there → slot_of self.old.shift there.name ≡ slot → ⊥ }
        requires passes { (v : Option (ℕ × ℕ)) → spot_tells (spot_of self.old.slots.items
            self.old.spots.items self.old.shift name) v name ≡ v }
        ensures { OnOk result ((y : ℕ) → found self.new y
            ≡ (if name == y then noted place (found self.old y) else found self.old y)) }
    {
        let first = first_of(self.other(name), place);
        self.slots[slot] = self.spots.len();
        self.spots.push(Spot {
            name,
            first,
            last: place,
        })?;
        Ok(())
    }

    /// The same for a name whose slot another name has.
    #[cold]
    #[inline(never)]
    fn note_other(&mut self, name: u64, place: usize) -> Result<(), AllocError>
        requires { (v : Option (ℕ × ℕ)) → spot_tells (spot_of self.old.slots.items
            self.old.spots.items self.old.shift name) v name ≡ v }
        ensures { OnOk result ((y : ℕ) → found self.new y
            ≡ (if name == y then noted place (found self.old y) else found self.old y)) }
    {
        let first = first_of(self.other(name), place);
        self.others.insert(name, (first, place))?;
        Ok(())
    }
}

/// The first container of a name that is met in one more, the last one so far.
fn first_of(found: Option<(usize, usize)>, place: usize) -> usize
    ensures { Some (result, place) ≡ noted place found }
{
    match found {
        Some((first, _)) => first,
        None => place,
    }
}

/// The slot of a name.
fn slot_of(shift: u32, name: u64) -> usize
    ensures { result ≡ slot_of shift name }
{
    name.wrapping_mul(SPREAD).wrapping_shr(shift) as usize
}

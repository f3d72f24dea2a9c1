//! The log of a book: its entries, and what they weigh.

ghost use Rattle.std.specs.Prelude.{◌≡◌, ◌↔◌, ◌-◌, ◌^◌, ◌<◌, [], ◌∷◌, ◌++◌, min, length, vec_len, vec_capacity, IsTrue, OnOk};
ghost use Rattle.std.proofs.Props.{props};
ghost use Rattle.ic_book.specs.Weight.{weight, weight_of};

use crate::limits::{LIST_WEIGHT, SYSTEM_WEIGHT};
use ic_jobs::{Command, Entry, Event};
use std::alloc::{AllocError, Global};

// Entries with a running count of what they weigh, up to the end of the count.
#[derive(Drop)]
pub(crate) struct Log {
    entries: Vec<Entry>,
    weight: u64,
    ghost weighed: { weight ≡ min (weight_of entries.items) (2 ^ 64 - 1) } by { Prim.hlevel props },
}

impl Log {
    pub(crate) fn new(alloc: Global) -> Log
        ensures { result.entries.items ≡ [] }
    {
        Log {
            entries: Vec::new(alloc),
            weight: 0,
        }
    }

    pub(crate) fn entries(&self) -> &[Entry]
        ensures { result.now ≡ self.now.entries.items }
    {
        &self.entries
    }

    pub(crate) fn len(&self) -> usize
        ensures { result ≡ length self.now.entries.items }
    {
        self.entries.len()
    }

    // What the entries weigh, up to the end of the count.
    pub(crate) fn weight(&self) -> u64
        ensures { result ≡ min (weight_of self.now.entries.items) (2 ^ 64 - 1) }
    {
        self.weight
    }

    // Whether an entry can come without a growth.
    pub(crate) fn has_room(&self) -> bool
        ensures { IsTrue result ↔ (vec_len self.now.entries < vec_capacity self.now.entries) }
    {
        self.entries.len() < self.entries.capacity()
    }

    // Makes room for one more entry.
    pub(crate) fn reserve(&mut self) -> Result<(), AllocError>
        ensures same { self.new.entries.items ≡ self.old.entries.items }
        ensures room { OnOk result (vec_len self.new.entries < vec_capacity self.new.entries) }
    {
        self.entries.reserve(1)
    }

    // Puts an entry at the end, where there is room.
    pub(crate) fn push(&mut self, entry: Entry)
        requires { vec_len self.old.entries < vec_capacity self.old.entries }
        ensures { self.new.entries.items ≡ self.old.entries.items ++ entry ∷ [] }
    {
        let more = weight(&entry.event);
        let total = self.weight.saturating_add(more);
        self.entries.push_reserved(entry);
        self.weight = total;
    }

    pub(crate) fn clear(&mut self)
        ensures { self.new.entries.items ≡ [] }
    {
        self.entries.clear();
        self.weight = 0;
    }
}

// What an entry of this event weighs.
fn weight(event: &Event) -> u64
    ensures { result ≡ weight event.now }
{
    match event {
        Event::Command(Command::Submit(_, _, _) | Command::Fetch(_)) => SYSTEM_WEIGHT,
        Event::Command(Command::List) => LIST_WEIGHT,
        Event::Command(_) | Event::Round(_) => 1,
    }
}

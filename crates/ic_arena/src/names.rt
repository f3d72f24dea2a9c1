//! The table of names.

ghost use Rattle.std.specs.Prelude.{◌≡◌, ◌≢◌, ℕ, ◌+◌, ◌^◌, ◌<◌, ◌≤◌, [], ◌∷◌, ◌++◌, length, max, OnOk};
ghost use Rattle.ic_arena.specs.Word.{name_word};
ghost use Rattle.ic_arena.specs.Piece.{idle, waits};
ghost use Rattle.ic_arena.specs.Tables.{Replaced, names_pieces, entry};

use crate::spare::grow;
use crate::word::{FREE, IDLE, NONE, Word};
use std::alloc::{AllocError, Global};
use std::marker::Model;

/// For each name the word that waits for its other occurrence, or the mark that none does, or that the name is free.
#[derive(Drop)]
pub struct Names {
    /// Those of the names, and behind them as many as there is memory for.
    entries: Vec<Word>,
    /// How many names there are.
    count: usize,
    /// The name that was freed last, if one is free. What it holds tells the one that was freed before.
    free: u32,
    /// How many names are free.
    unused: usize,
}

impl Model for Names {
    ghost use Rattle.std.specs.Prelude.{length, take};
    ghost use Rattle.ic_arena.specs.Tables.{Entries};
    ghost use Rattle.ic_arena.specs.inner.Free.{AreHeld};

    ghost Value = { Entries };

    ghost view = { λ n. record {
      entries = take n.count n.entries.items;
      capacity = length n.entries.items;
    } };

    ghost invariant = { λ n. AreHeld n.count n.unused n.entries.items n.free };
}

impl Names {
    /// Takes no memory.
    pub fn new(alloc: Global) -> Names
        ensures { result.entries ≡ [] }
    {
        Names {
            entries: Vec::new(alloc),
            count: 0,
            free: NONE,
            unused: 0,
        }
    }

    /// How many names there are, the free ones too.
    pub fn len(&self) -> usize
        ensures { result ≡ length self.now.entries }
    {
        self.count
    }

    /// How many names are in use: those for which a word waits, or nothing does.
    pub fn used(&self) -> usize
        ensures { result ≡ length (names_pieces 0 self.now.entries) }
    {
        self.count - self.unused
    }

    /// Takes the memory for so many names more.
    pub fn reserve(&mut self, more: usize) -> Result<(), AllocError>
        ensures entries { self.new.entries ≡ self.old.entries }
        ensures capacity { self.old.capacity ≤ self.new.capacity }
        ensures room { OnOk result (length self.old.entries + more ≤ self.new.capacity) }
    {
        grow(&mut self.entries, self.count, more)
    }

    /// A name that was free, for which nothing waits: the one that was freed last, or one after the last.
    pub fn open(&mut self) -> u32
        requires room { length self.old.entries < self.old.capacity }
        requires few { length self.old.entries < 2 ^ 32 }
        ensures opened { Replaced [] (idle (name_word result) ∷ [])
            (names_pieces 0 self.old.entries) (names_pieces 0 self.new.entries) }
        ensures fresh { (entry self.old.entries result).tag ≡ FREE }
        // There are as many as before, or all are in use now.
        ensures len { length self.new.entries
            ≡ max (length self.old.entries) (length (names_pieces 0 self.new.entries)) }
        ensures capacity { self.new.capacity ≡ self.old.capacity }
    {
        // The last name that there may be has the number of no place, so the free ones are counted.
        if self.unused == 0 {
            let name = self.count as u32;
            self.entries[self.count].tag = IDLE;
            self.count += 1;
            return name;
        }
        let name = self.free;
        self.free = self.entries[name as usize].index;
        self.unused -= 1;
        self.entries[name as usize].tag = IDLE;
        name
    }

    /// What waits for a name, or the mark that nothing does, or that it is free.
    pub fn get(&self, name: u32) -> Word
        requires { name < length self.now.entries }
        ensures { result ≡ entry self.now.entries name }
    {
        self.entries[name as usize]
    }

    /// Lets a word wait for a name for which nothing waits.
    pub fn put(&mut self, name: u32, word: Word)
        requires there { name < length self.old.entries }
        requires idle { (entry self.old.entries name).tag ≡ IDLE }
        requires word { word.tag < IDLE }
        ensures put { Replaced (idle (name_word name) ∷ []) (waits (name_word name) word ∷ [])
            (names_pieces 0 self.old.entries) (names_pieces 0 self.new.entries) }
        ensures len { length self.new.entries ≡ length self.old.entries }
        ensures capacity { self.new.capacity ≡ self.old.capacity }
    {
        let entry = &mut self.entries[name as usize];
        entry.tag = word.tag;
        entry.index = word.index;
    }

    /// Lets another word wait for a name for which a word waits.
    pub fn replace(&mut self, name: u32, word: Word)
        requires there { name < length self.old.entries }
        requires waits { (entry self.old.entries name).tag < IDLE }
        requires word { word.tag < IDLE }
        ensures replaced { Replaced (waits (name_word name) (entry self.old.entries name) ∷ [])
            (waits (name_word name) word ∷ [])
            (names_pieces 0 self.old.entries) (names_pieces 0 self.new.entries) }
        ensures is { entry self.new.entries name ≡ word }
        ensures others { (i : ℕ) → i ≢ name
            → entry self.new.entries i ≡ entry self.old.entries i }
        ensures len { length self.new.entries ≡ length self.old.entries }
        ensures capacity { self.new.capacity ≡ self.old.capacity }
    {
        self.entries[name as usize] = word;
    }

    /// Frees a name for which a word waits.
    pub fn free(&mut self, name: u32)
        requires there { name < length self.old.entries }
        requires waits { (entry self.old.entries name).tag < IDLE }
        ensures freed { Replaced (waits (name_word name) (entry self.old.entries name) ∷ []) []
            (names_pieces 0 self.old.entries) (names_pieces 0 self.new.entries) }
        ensures is { (entry self.new.entries name).tag ≡ FREE }
        ensures others { (i : ℕ) → i ≢ name
            → entry self.new.entries i ≡ entry self.old.entries i }
        ensures len { length self.new.entries ≡ length self.old.entries }
        ensures capacity { self.new.capacity ≡ self.old.capacity }
    {
        let entry = &mut self.entries[name as usize];
        entry.tag = FREE;
        entry.index = self.free;
        self.free = name;
        self.unused += 1;
    }
}

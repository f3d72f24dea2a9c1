//! The places of a net, from which its pieces are taken.

ghost use Rattle.std.specs.Prelude.{◌≡◌, ℕ, ◌+◌, ◌^◌, ◌<◌, ◌≤◌, List, ◌∷◌, ◌++◌, true, false, Ok, Contains, IsPermutation, length, map, slice_get, slice_index_or, sum, sum_by, take, drop, reverse, vec_len, OnErr, IfSome, IfNone};
ghost use Rattle.std.specs.List.{AllByRecursion};
ghost use Rattle.ic_arena.specs.declared.word.Word.{Word as AnyWord};
ghost use Rattle.ic_arena.specs.declared.word.TheConstants.{GIVEN};
ghost use Rattle.ic_arena.specs.Word.{name_word};
ghost use Rattle.ic_arena.specs.Piece.{agent_of, room, waits};
ghost use Rattle.ic_arena.specs.Tables.{AreBlocks, names_pieces};
ghost use Rattle.ic_machine.specs.Held.{IsHeld, HasAsMany, ArgumentsTaken};
ghost use Rattle.ic_machine.specs.inner.Firing.{heaps_pieces, arities_of};

use crate::equation::Equation;
use crate::firing::take;
use ic_arena::{FREE, Heap, IDLE, Names, Word};
use std::alloc::AllocError;
use std::marker::Model;

/// What a machine held, taken apart.
#[derive(Drop)]
pub struct Parts {
    /// The words of the interface.
    pub interface: Vec<Word>,
    /// The pairs that are still to be looked at.
    pub pending: Vec<Equation>,
    /// The pairs that were set aside, since they have no plan.
    pub aside: Vec<Equation>,
    /// What each place holds.
    pub places: Places,
    /// How often each plan has fired.
    pub counts: Vec<u64>,
}

/// What each place of a net holds. The words that wait and the arguments of agents can be taken out, each once, in any
/// order.
#[derive(Drop)]
pub struct Places {
    names: Names,
    heaps: Vec<Heap>,
    count: u64,
}

impl Model for Places {
    ghost use Rattle.ic_machine.specs.Held.{Held};

    ghost Value = { Held };

    ghost use Rattle.ic_machine.specs.inner.Places.{held_of, AreCounted};

    ghost view = { held_of };

    ghost invariant = { AreCounted };
}

impl Places {
    /// The places of these tables.
    pub(crate) fn from_tables(names: Names, heaps: Vec<Heap>) -> Places
        requires names { length names.entries < 2 ^ 32 }
        requires symbols { length heaps.items < GIVEN }
        ensures arities { result.arities ≡ arities_of heaps.items }
        ensures pieces { result.pieces
            ≡ names_pieces 0 names.entries ++ heaps_pieces 0 heaps.items }
        ensures names { result.names ≡ length names.entries }
        ensures agents { result.agents ≡ map (λ b. b.count) heaps.items }
    {
        let count = count_places(&names, &heaps);
        Places {
            names,
            heaps,
            count,
        }
    }

    /// How many places there are, the free ones too.
    pub fn count(&self) -> u64
        ensures count { result ≡ self.now.names + sum self.now.agents }
        ensures pieces { length self.now.pieces ≤ result }
    {
        self.count
    }

    /// How many names there are, the free ones too. A word waits for none but these.
    pub fn names(&self) -> u32
        ensures count { result ≡ self.now.names }
        ensures waiting { (name word : AnyWord) → Contains self.now.pieces (waits name word)
            → (i : ℕ) × (i < result) × (name ≡ name_word i) }
    {
        self.names.len() as u32
    }

    /// How many symbols there are.
    pub fn symbols(&self) -> u32
        ensures count { result ≡ length self.now.arities }
        ensures held { AllByRecursion (IsHeld self.now.arities) self.now.pieces }
    {
        self.heaps.len() as u32
    }

    /// How many arguments an agent of a symbol has, where the symbol is known.
    pub fn arity(&self, symbol: u32) -> Option<u32>
        ensures { result ≡ slice_get self.now.arities symbol }
    {
        match self.heaps.get(symbol as usize) {
            Some(heap) => Some(heap.arity()),
            None => None,
        }
    }

    /// How many places there are for agents of a symbol, the free ones too. Where the symbol isn't known, there are none.
    pub fn agents(&self, symbol: u32) -> u32
        ensures count { result ≡ slice_index_or self.now.agents symbol 0 }
        ensures held { (agent : AnyWord) (arguments : List AnyWord) → agent.tag ≡ symbol + 1
            → Contains self.now.pieces (agent_of agent arguments) → agent.index < result }
    {
        match self.heaps.get(symbol as usize) {
            Some(heap) => heap.count(),
            None => 0,
        }
    }

    /// Takes the word that waits for a name, if one does. The name is free then.
    pub fn take_waiting(&mut self, name: u32) -> Option<Word>
        ensures taken { IfSome result (λ w. IsPermutation self.old.pieces
            (waits (name_word name) w ∷ self.new.pieces)) }
        ensures free { IfSome result (λ w. sum_by (room (name_word name)) self.new.pieces ≡ 0) }
        ensures none { IfNone result ((w : AnyWord)
            → ¬ Contains self.old.pieces (waits (name_word name) w)) }
        ensures same { IfNone result (self.new ≡ self.old) }
        ensures arities { self.new.arities ≡ self.old.arities }
        ensures size { HasAsMany self.old self.new }
    {
        if self.names.len() <= name as usize {
            return None;
        }
        let word = self.names.get(name);
        if word.tag >= IDLE {
            return None;
        }
        self.names.free(name);
        Some(word)
    }

    /// Takes the arguments of an agent out of its place, and puts them onto a stack, the last one first, so that the first
    /// is on top. Answers false where no agent with arguments is at the place of this word.
    #[inline(always)]
    pub fn take_arguments(&mut self, agent: Word, stack: &mut Vec<Word>) -> Result<bool, AllocError>
        ensures taken { result ≡ Ok true
            → ArgumentsTaken agent self.old self.new stack.old.items stack.new.items }
        ensures none { result ≡ Ok false → (arguments : List AnyWord)
            → ¬ Contains self.old.pieces (agent_of agent arguments) }
        ensures same { result ≡ Ok false
            → (self.new ≡ self.old) × (stack.new.items ≡ stack.old.items) }
        ensures err { OnErr result
            ((self.new ≡ self.old) × (stack.new.items ≡ stack.old.items)) }
        ensures arities { self.new.arities ≡ self.old.arities }
        ensures size { HasAsMany self.old self.new }
    {
        if !self.has(agent) {
            return Ok(false);
        }
        let arity = self.heaps[agent.tag as usize - 1].arity();
        stack.reserve(arity as usize)?;
        let first = stack.len();
        take(&mut self.heaps, agent, stack);
        turn(stack, first);
        Ok(true)
    }

    /// Whether an agent with arguments is at the place of this word.
    fn has(&self, agent: Word) -> bool
        ensures some { result ≡ true → 1 ≤ agent.tag }
        ensures known { result ≡ true → agent.tag ≤ length self.now.arities }
        ensures there { result ≡ true → 1 ≤ sum_by (room agent) self.now.pieces }
        ensures none { result ≡ false → (arguments : List AnyWord)
            → ¬ Contains self.now.pieces (agent_of agent arguments) }
    {
        if agent.tag == 0 || self.heaps.len() < agent.tag as usize {
            return false;
        }
        let heap = &self.heaps[agent.tag as usize - 1];
        agent.index < heap.count() && heap.get(agent.index)[0].tag != FREE
    }
}

/// Turns the words after so many first ones round.
pub(crate) fn turn(words: &mut Vec<Word>, first: usize)
    requires { first ≤ vec_len words.old }
    ensures { words.new.items ≡ take first words.old.items ++ reverse (drop first words.old.items) }
{
    if words.len() - first > 1 {
        words[first..].reverse();
    }
}

/// How many places there are in tables, the free ones too.
pub(crate) fn count_places(names: &Names, heaps: &[Heap]) -> u64
    requires names { length names.now.entries < 2 ^ 32 }
    requires symbols { length heaps.now < GIVEN }
    ensures count { length (names_pieces 0 names.now.entries ++ heaps_pieces 0 heaps.now)
        ≤ result }
    ensures sound { AllByRecursion AreBlocks heaps.now }
    ensures is { result ≡ length names.now.entries + sum_by (λ b. b.count) heaps.now }
{
    let mut count = names.len() as u64;
    for heap in heaps {
        count += heap.count() as u64;
    }
    count
}

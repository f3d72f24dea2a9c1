//! The table of the agents of one symbol.

ghost use Rattle.std.specs.Prelude.{◌≡◌, ℕ, ◌+◌, ◌^◌, ◌<◌, ◌≤◌, [], ◌∷◌, ◌++◌, length, map, sum_by, take, drop, max, vec_len, vec_capacity, OnOk};
ghost use Rattle.std.specs.List.{AllByRecursion};
ghost use Rattle.ic_arena.specs.Word.{agent_word};
ghost use Rattle.ic_arena.specs.Piece.{agent_of, room};
ghost use Rattle.ic_arena.specs.Tables.{Replaced, AreBlocks, blocks_pieces, block_at, block_piece, first_word, register};

use crate::spare::grow;
use crate::word::{FREE, IDLE, NONE, Word};
use std::alloc::{AllocError, Global};
use std::marker::Model;

/// The arguments of each agent of one symbol that has arguments, in blocks of as many words as its arity. A block is free
/// where its first word has the mark for it.
#[derive(Drop)]
pub struct Heap {
    /// Those of the blocks, and behind them as many as there is memory for.
    words: Vec<Word>,
    arity: u32,
    count: u32,
    /// The block that was freed last, or none. Its first word tells the one that was freed before.
    free: u32,
}

impl Model for Heap {
    ghost use Rattle.std.specs.Prelude.{◌*◌, length, take};
    ghost use Rattle.ic_arena.specs.Tables.{Blocks};
    ghost use Rattle.ic_arena.specs.inner.Free.{AreKept};

    ghost Value = { Blocks };

    ghost view = { λ h. record {
      arity = h.arity;
      count = h.count;
      words = take (h.count * h.arity) h.words.items;
      capacity = length h.words.items;
    } };

    ghost invariant = { λ h. AreKept
        (record {
          arity = h.arity;
          count = h.count;
          words = take (h.count * h.arity) h.words.items;
          capacity = length h.words.items;
        }) h.free };
}

impl Heap {
    /// Takes no memory.
    pub fn new(alloc: Global, arity: u32) -> Heap
        ensures arity { result.arity ≡ arity }
        ensures count { result.count ≡ 0 }
        ensures words { result.words ≡ [] }
    {
        Heap {
            words: Vec::new(alloc),
            arity,
            count: 0,
            free: NONE,
        }
    }

    /// How many arguments each agent has.
    pub fn arity(&self) -> u32
        ensures arity { result ≡ self.now.arity }
        ensures sound { AreBlocks self.now }
    {
        self.arity
    }

    /// How many blocks there are, the free ones too.
    pub fn count(&self) -> u32
        ensures count { result ≡ self.now.count }
        ensures sound { AreBlocks self.now }
    {
        self.count
    }

    /// Takes the memory for so many words more.
    #[inline(always)]
    pub fn reserve(&mut self, more: usize) -> Result<(), AllocError>
        ensures arity { self.new.arity ≡ self.old.arity }
        ensures count { self.new.count ≡ self.old.count }
        ensures words { self.new.words ≡ self.old.words }
        ensures capacity { self.old.capacity ≤ self.new.capacity }
        ensures room { OnOk result (length self.old.words + more ≤ self.new.capacity) }
    {
        let used = self.count as usize * self.arity as usize;
        grow(&mut self.words, used, more)
    }

    /// Puts an agent, whose arguments are in these registers, into a free block: the one that was freed last, or one
    /// after the last.
    #[inline(always)]
    pub fn put(&mut self, operands: &[u32], registers: &[Word]) -> u32
        requires arity { length operands.now ≡ self.old.arity }
        requires some { 1 ≤ self.old.arity }
        requires filled { AllByRecursion (λ k. k < length registers.now) operands.now }
        requires words { AllByRecursion (λ w. w.tag < IDLE) registers.now }
        requires room { length self.old.words + self.old.arity ≤ self.old.capacity }
        requires few { self.old.count + 1 < 2 ^ 32 }
        ensures made { (s : ℕ) → Replaced []
            (agent_of (agent_word s result) (map (register registers.now) operands.now) ∷ [])
            (blocks_pieces s self.old) (blocks_pieces s self.new) }
        ensures fresh { (s : ℕ)
            → sum_by (room (agent_word s result)) (blocks_pieces s self.old) ≡ 0 }
        ensures arity { self.new.arity ≡ self.old.arity }
        ensures len { length self.new.words ≤ length self.old.words + self.old.arity }
        // There are as many as before, or all are in use now.
        ensures count { (s : ℕ) → self.new.count
            ≡ max self.old.count (length (blocks_pieces s self.new)) }
        ensures capacity { self.new.capacity ≡ self.old.capacity }
    {
        let arity = operands.len();
        let words = self.words.as_mut_slice();
        let mut block = self.free;
        if block == NONE {
            block = self.count;
            self.count += 1;
        } else {
            self.free = words[block as usize * arity].index;
        }
        write(words, block as usize * arity, operands, registers);
        block
    }

    /// The arguments of the agent in a block.
    #[inline(always)]
    pub fn get(&self, block: u32) -> &[Word]
        requires { block < self.now.count }
        ensures { result.now ≡ block_at self.now block }
    {
        let arity = self.arity as usize;
        let at = block as usize * arity;
        &self.words[at..at + arity]
    }

    /// Takes the arguments of an agent out of its block, which is free then.
    #[inline(always)]
    pub fn take(&mut self, block: u32, registers: &mut Vec<Word>)
        requires there { block < self.old.count }
        requires used { ¬ ((first_word self.old block).tag ≡ FREE) }
        requires room { vec_len registers.old + self.old.arity ≤ vec_capacity registers.old }
        ensures taken { registers.new.items ≡ registers.old.items ++ block_at self.old block }
        ensures freed { (s : ℕ) → Replaced
            (block_piece (agent_word s block) (block_at self.old block)) []
            (blocks_pieces s self.old) (blocks_pieces s self.new) }
        ensures arity { self.new.arity ≡ self.old.arity }
        ensures count { self.new.count ≡ self.old.count }
        ensures len { length self.new.words ≡ length self.old.words }
        ensures capacity { self.new.capacity ≡ self.old.capacity }
        ensures registers { vec_capacity registers.new ≡ vec_capacity registers.old }
    {
        push(registers, self.get(block));
        self.give_back(block);
    }

    /// Takes the arguments of an agent out of its block into registers, after those that are filled, and frees the
    /// block. Answers how many are filled then.
    #[inline(always)]
    pub fn take_into(&mut self, block: u32, registers: &mut [Word], filled: usize) -> usize
        requires there { block < self.old.count }
        requires used { ¬ ((first_word self.old block).tag ≡ FREE) }
        requires room { filled + self.old.arity ≤ length registers.old }
        ensures filled { result ≡ filled + self.old.arity }
        ensures taken { take result registers.new
            ≡ take filled registers.old ++ block_at self.old block }
        ensures len { length registers.new ≡ length registers.old }
        ensures freed { (s : ℕ) → Replaced
            (block_piece (agent_word s block) (block_at self.old block)) []
            (blocks_pieces s self.old) (blocks_pieces s self.new) }
        ensures arity { self.new.arity ≡ self.old.arity }
        ensures count { self.new.count ≡ self.old.count }
        ensures words { length self.new.words ≡ length self.old.words }
        ensures capacity { self.new.capacity ≡ self.old.capacity }
    {
        let arity = self.arity as usize;
        let at = block as usize * arity;
        let words = self.words.as_mut_slice();
        copy(registers, filled, &words[at..at + arity]);
        // Its halves are written apart, so that they needn't be joined first.
        let first = &mut words[at];
        first.tag = FREE;
        first.index = self.free;
        self.free = block;
        filled + arity
    }

    /// Marks the block of an agent as free.
    #[inline(always)]
    fn give_back(&mut self, block: u32)
        requires there { block < self.old.count }
        requires used { ¬ ((first_word self.old block).tag ≡ FREE) }
        ensures freed { (s : ℕ) → Replaced
            (block_piece (agent_word s block) (block_at self.old block)) []
            (blocks_pieces s self.old) (blocks_pieces s self.new) }
        ensures arity { self.new.arity ≡ self.old.arity }
        ensures count { self.new.count ≡ self.old.count }
        ensures len { length self.new.words ≡ length self.old.words }
        ensures capacity { self.new.capacity ≡ self.old.capacity }
    {
        self.words[block as usize * self.arity as usize] = Word {
            tag: FREE,
            index: self.free,
        };
        self.free = block;
    }
}

/// Writes the words of registers, from a place on. Up to three are read before the first one is written, without a loop.
#[inline(always)]
fn write(words: &mut [Word], at: usize, operands: &[u32], registers: &[Word])
    requires some { 1 ≤ length operands.now }
    requires there { at + length operands.now ≤ length words.old }
    requires filled { AllByRecursion (λ k. k < length registers.now) operands.now }
    ensures written { words.new ≡ take at words.old
        ++ (map (register registers.now) operands.now
        ++ drop (at + length operands.now) words.old) }
{
    let count = operands.len();
    if count < 2 {
        words[at] = registers[operands[0] as usize];
    } else if count == 2 {
        let first = registers[operands[0] as usize];
        let second = registers[operands[1] as usize];
        words[at] = first;
        words[at + 1] = second;
    } else if count == 3 {
        let first = registers[operands[0] as usize];
        let second = registers[operands[1] as usize];
        let third = registers[operands[2] as usize];
        words[at] = first;
        words[at + 1] = second;
        words[at + 2] = third;
    } else {
        write_each(words, at, operands, registers);
    }
}

/// The same for any number of words.
#[cold]
#[inline(never)]
fn write_each(words: &mut [Word], at: usize, operands: &[u32], registers: &[Word])
    requires there { at + length operands.now ≤ length words.old }
    requires filled { AllByRecursion (λ k. k < length registers.now) operands.now }
    ensures written { words.new ≡ take at words.old
        ++ (map (register registers.now) operands.now
        ++ drop (at + length operands.now) words.old) }
{
    let mut place = at;
    for operand in operands {
        words[place] = registers[*operand as usize];
        place += 1;
    }
}

/// Puts words at the end, for which there is memory. Up to three are put without a loop.
#[inline(always)]
fn push(words: &mut Vec<Word>, more: &[Word])
    requires room { vec_len words.old + length more.now ≤ vec_capacity words.old }
    ensures pushed { words.new.items ≡ words.old.items ++ more.now }
    ensures capacity { vec_capacity words.new ≡ vec_capacity words.old }
{
    match more {
        [only] => words.push_reserved(*only),
        [first, second] => {
            words.push_reserved(*first);
            words.push_reserved(*second);
        }
        [first, second, third] => {
            words.push_reserved(*first);
            words.push_reserved(*second);
            words.push_reserved(*third);
        }
        _ => push_each(words, more),
    }
}

/// The same for any number of words.
#[cold]
#[inline(never)]
fn push_each(words: &mut Vec<Word>, more: &[Word])
    requires room { vec_len words.old + length more.now ≤ vec_capacity words.old }
    ensures pushed { words.new.items ≡ words.old.items ++ more.now }
    ensures capacity { vec_capacity words.new ≡ vec_capacity words.old }
{
    for word in more {
        words.push_reserved(*word);
    }
}

/// Copies words over those from a place on. Up to three are copied without a loop, one by one: two words that were written
/// one by one just before are read slowly as one of twice the width.
#[inline(always)]
fn copy(words: &mut [Word], at: usize, more: &[Word])
    requires there { at + length more.now ≤ length words.old }
    ensures copied { words.new ≡ take at words.old
        ++ (more.now ++ drop (at + length more.now) words.old) }
{
    match more {
        [only] => words[at] = *only,
        [first, second] => {
            words[at] = *first;
            words[at + 1] = *second;
        }
        [first, second, third] => {
            words[at] = *first;
            words[at + 1] = *second;
            words[at + 2] = *third;
        }
        _ => copy_each(words, at, more),
    }
}

/// The same for any number of words.
#[cold]
#[inline(never)]
fn copy_each(words: &mut [Word], at: usize, more: &[Word])
    requires there { at + length more.now ≤ length words.old }
    ensures copied { words.new ≡ take at words.old
        ++ (more.now ++ drop (at + length more.now) words.old) }
{
    let mut place = at;
    for word in more {
        words[place] = *word;
        place += 1;
    }
}

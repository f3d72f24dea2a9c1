//! What a firing takes, opens and makes.

ghost use Rattle.std.specs.Prelude.{◌≡◌, ℕ, ◌+◌, ◌-◌, ◌^◌, ◌<◌, ◌≤◌, List, [], ◌∷◌, ◌++◌, true, Err, Contains, map, max, take, length, sum_by, vec_len, vec_capacity, OnOk};
ghost use Rattle.std.specs.List.{AllByRecursion};
ghost use Rattle.ic_arena.specs.Piece.{room};
ghost use Rattle.ic_arena.specs.Tables.{blocks_pieces, names_pieces};
ghost use Rattle.ic_arena.specs.declared.word.TheConstants.{GIVEN, IDLE};
ghost use Rattle.ic_machine.specs.Plan.{Made, made_of, AreMade};
ghost use Rattle.ic_machine.specs.Runs.{given_words};
ghost use Rattle.ic_machine.specs.inner.Firing.{heaps_pieces, arities_of, table, Taken, Opened, Makes, SameSize, IsGrown, AreSame, HasBlocks, HasRoom};

use crate::machine::MachineFault;
use crate::plan::Make;
use ic_arena::{GIVEN, Heap, Names, Word};

/// Entries of a table: numbers of names and of blocks are below this.
pub(crate) const MAX_ENTRIES: usize = 0xffff_ffff;

/// Takes the memory for agents.
pub(crate) fn reserve_blocks(heaps: &mut Vec<Heap>, makes: &[Make]) -> Result<(), MachineFault>
    requires known { AllByRecursion (λ m. m.symbol < length heaps.old.items)
        (map made_of makes.now) }
    ensures same { AreSame heaps.old.items heaps.new.items }
    ensures room { OnOk result (AllByRecursion (HasRoom heaps.new.items (length makes.now))
        (map made_of makes.now)) }
    ensures limit { result ≡ Err MachineFault.Limit → (m : Made) × Contains (map made_of makes.now) m
        × (2 ^ 32 ≤ (table heaps.new.items m.symbol).count + length makes.now) }
{
    for make in makes {
        let heap = &mut heaps[make.symbol as usize];
        if makes.len() > MAX_ENTRIES - heap.count() as usize {
            return Err(MachineFault::Limit);
        }
        heap.reserve(makes.len() * heap.arity() as usize)?;
    }
    Ok(())
}

/// Takes the memory for so many agents more of each symbol. Answers false where there are no numbers for them, or memory is
/// refused.
pub(crate) fn reserve_each(heaps: &mut Vec<Heap>, more: usize) -> bool
    requires { more < 2 ^ 32 }
    ensures same { AreSame heaps.old.items heaps.new.items }
    ensures room { result ≡ true → (s : ℕ) → s < length heaps.new.items
        → HasBlocks more (table heaps.new.items s) }
{
    for symbol in 0..heaps.len() {
        let heap = &mut heaps[symbol];
        if more > MAX_ENTRIES - heap.count() as usize {
            return false;
        }
        if heap.reserve(more * heap.arity() as usize).is_err() {
            return false;
        }
    }
    true
}

/// Takes the arguments of an agent out of its block.
#[inline(always)]
pub(crate) fn take(heaps: &mut Vec<Heap>, agent: Word, registers: &mut Vec<Word>)
    requires some { 1 ≤ agent.tag }
    requires symbol { agent.tag ≤ length heaps.old.items }
    requires there { 1 ≤ (table heaps.old.items (agent.tag - 1)).arity
        → 1 ≤ sum_by (room agent) (heaps_pieces 0 heaps.old.items) }
    requires room { vec_len registers.old + (table heaps.old.items (agent.tag - 1)).arity
        ≤ vec_capacity registers.old }
    ensures taken { Taken agent (table heaps.old.items (agent.tag - 1)).arity
        (heaps_pieces 0 heaps.old.items) (heaps_pieces 0 heaps.new.items)
        registers.old.items registers.new.items }
    ensures sizes { (s : ℕ) → SameSize (table heaps.old.items s) (table heaps.new.items s) }
    ensures arities { arities_of heaps.new.items ≡ arities_of heaps.old.items }
    ensures capacity { vec_capacity registers.new ≡ vec_capacity registers.old }
{
    let heap = &mut heaps[agent.tag as usize - 1];
    if heap.arity() > 0 {
        heap.take(agent.index, registers);
    }
}

/// Opens so many names.
#[inline(always)]
pub(crate) fn open_names(names: &mut Names, count: u32, registers: &mut Vec<Word>)
    requires room { length names.old.entries + count ≤ names.old.capacity }
    requires few { length names.old.entries + count < 2 ^ 32 }
    requires registers { vec_len registers.old + count ≤ vec_capacity registers.old }
    ensures opened { Opened count names.old.entries names.new.entries
        registers.old.items registers.new.items }
    ensures few { length names.new.entries ≤ length names.old.entries + count }
    // There are as many as before, or all are in use now.
    ensures places { length names.new.entries
        ≡ max (length names.old.entries) (length (names_pieces 0 names.new.entries)) }
    ensures memory { names.new.capacity ≡ names.old.capacity }
    ensures capacity { vec_capacity registers.new ≡ vec_capacity registers.old }
{
    for opened in 0..count {
        let name = names.open();
        registers.push_reserved(Word::name(name));
    }
}

/// Puts so many given names after what is in registers.
pub(crate) fn push_given(registers: &mut Vec<Word>, given: u32)
    requires { vec_len registers.old + given ≤ vec_capacity registers.old }
    ensures pushed { registers.new.items ≡ registers.old.items ++ given_words given }
    ensures capacity { vec_capacity registers.new ≡ vec_capacity registers.old }
{
    for index in 0..given {
        registers.push_reserved(Word { tag: GIVEN, index });
    }
}

/// Takes the arguments of an agent out of its block into registers, after those that are filled. Answers how many are filled then.
#[inline(always)]
pub(crate) fn take_into(
    heaps: &mut Vec<Heap>,
    agent: Word,
    registers: &mut [Word],
    filled: usize,
) -> usize
    requires some { 1 ≤ agent.tag }
    requires symbol { agent.tag ≤ length heaps.old.items }
    requires there { 1 ≤ (table heaps.old.items (agent.tag - 1)).arity
        → 1 ≤ sum_by (room agent) (heaps_pieces 0 heaps.old.items) }
    requires room { filled + (table heaps.old.items (agent.tag - 1)).arity ≤ length registers.old }
    ensures filled { result ≡ filled + (table heaps.old.items (agent.tag - 1)).arity }
    ensures taken { Taken agent (table heaps.old.items (agent.tag - 1)).arity
        (heaps_pieces 0 heaps.old.items) (heaps_pieces 0 heaps.new.items)
        (take filled registers.old) (take result registers.new) }
    ensures sizes { (s : ℕ) → SameSize (table heaps.old.items s) (table heaps.new.items s) }
    ensures arities { arities_of heaps.new.items ≡ arities_of heaps.old.items }
    ensures len { length registers.new ≡ length registers.old }
{
    let heap = &mut heaps[agent.tag as usize - 1];
    if heap.arity() == 0 {
        return filled;
    }
    heap.take_into(agent.index, registers, filled)
}

/// Opens so many names into registers, after those that are filled. Answers how many are filled then.
#[inline(always)]
pub(crate) fn open_into(
    names: &mut Names,
    count: u32,
    registers: &mut [Word],
    filled: usize,
) -> usize
    requires room { length names.old.entries + count ≤ names.old.capacity }
    requires few { length names.old.entries + count < 2 ^ 32 }
    requires registers { filled + count ≤ length registers.old }
    ensures filled { result ≡ filled + count }
    ensures opened { Opened count names.old.entries names.new.entries
        (take filled registers.old) (take result registers.new) }
    ensures few { length names.new.entries ≤ length names.old.entries + count }
    // There are as many as before, or all are in use now.
    ensures places { length names.new.entries
        ≡ max (length names.old.entries) (length (names_pieces 0 names.new.entries)) }
    ensures memory { names.new.capacity ≡ names.old.capacity }
    ensures len { length registers.new ≡ length registers.old }
{
    let mut next = filled;
    for opened in 0..count {
        registers[next] = Word::name(names.open());
        next += 1;
    }
    next
}

/// Makes agents, with their words in registers after those that are filled. Answers how many are filled then.
#[inline(always)]
pub(crate) fn make_into(
    heaps: &mut Vec<Heap>,
    makes: &[Make],
    registers: &mut [Word],
    filled: usize,
) -> usize
    requires made { AreMade (arities_of heaps.old.items) filled (map made_of makes.now) }
    requires words { AllByRecursion (λ w. w.tag < IDLE) (take filled registers.old) }
    requires symbols { length heaps.old.items < GIVEN }
    requires room { AllByRecursion (HasRoom heaps.old.items (length makes.now))
        (map made_of makes.now) }
    requires registers { filled + length makes.now ≤ length registers.old }
    ensures filled { result ≡ filled + length makes.now }
    ensures made { Makes (map made_of makes.now)
        (heaps_pieces 0 heaps.old.items) (heaps_pieces 0 heaps.new.items)
        (take filled registers.old) (take result registers.new) }
    ensures words { AllByRecursion (λ w. w.tag < IDLE) (take result registers.new) }
    ensures arities { arities_of heaps.new.items ≡ arities_of heaps.old.items }
    ensures sizes { (s : ℕ)
        → IsGrown (length makes.now) (table heaps.old.items s) (table heaps.new.items s) }
    // Of each symbol there are as many as before, or all are in use now.
    ensures places { (s : ℕ) → (table heaps.new.items s).count
        ≡ max (table heaps.old.items s).count (length (blocks_pieces s (table heaps.new.items s))) }
    ensures len { length registers.new ≡ length registers.old }
{
    let mut next = filled;
    for make in makes {
        let symbol = make.symbol;
        let heap = &mut heaps[symbol as usize];
        let block = heap.put(&make.operands, &registers[..next]);
        registers[next] = Word::agent(symbol, block);
        next += 1;
    }
    next
}

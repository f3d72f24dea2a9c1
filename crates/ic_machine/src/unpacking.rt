//! Equations that came from other machines, put into a machine with all that hangs below them.

ghost use Rattle.std.specs.Prelude.{◌≡◌, ◌⊎◌, ℕ, ◌^◌, ◌+◌, ◌-◌, ◌/◌, ◌<◌, ◌≤◌, List, [], ◌∷◌, ◌++◌, true, false, Err, IfOk, OnErr, OnOk, length, map, max, reverse, sum_by};
ghost use Rattle.std.specs.List.{AllByRecursion, range_with_len};
ghost use Rattle.ic_arena.specs.declared.word.TheConstants.{GIVEN, IDLE};
ghost use Rattle.ic_arena.specs.declared.word.Word.{Word as AnyWord};
ghost use Rattle.ic_arena.specs.Word.{name_word};
ghost use Rattle.ic_arena.specs.Piece.{Piece, room};
ghost use Rattle.ic_arena.specs.Tables.{blocks_pieces, names_pieces};
ghost use Rattle.ic_machine.specs.Held.{IsTagOf};
ghost use Rattle.ic_machine.specs.Moving.{end_word, spells_cut, times, worth, AreBordered, AreSpelled, KeepWorth, Side, Spells, Unpacks};
ghost use Rattle.ic_machine.specs.Net.{equated_of, places_of, IsPair};
ghost use Rattle.ic_machine.specs.Plan.{Plans};
ghost use Rattle.ic_machine.specs.Separate.{is_constant_tag, IsSeparate};
ghost use Rattle.ic_machine.specs.Steps.{Steps};
ghost use Rattle.ic_machine.specs.inner.Firing.{heaps_pieces, arities_of};
ghost use Rattle.ic_machine.specs.inner.Linking.{Pushed};
ghost use Rattle.ic_machine.specs.inner.Moving.{side_in};
ghost use Rattle.ic_machine.specs.inner.Unpacking.{pairs_on, AreEntered, AreKept, BlocksGrow, HasFullBlocks, HasFullTable, IsNext, MakesAgent, NamesGrow, PutsAgent, SetsApart, TablesGrow, UnpacksName};

use crate::borders::Borders;
use crate::equation::Equation;
use crate::firing::MAX_ENTRIES;
use crate::linking::link;
use crate::machine::{Machine, MachineFault};
use crate::moving::Parcel;
use crate::stamps::{Carried, Stamps};
use crate::tables::Tables;
use ic_arena::{Heap, IDLE, NAME, Names, Word};
use std::alloc::{AllocError, Global};

impl Machine {
    /// Puts what was taken out of other machines in, and links its equations, the first one last.
    pub fn unpack(
        &mut self,
        alloc: Global,
        borders: &mut Borders,
        parcel: &mut Parcel,
    ) -> Result<(), MachineFault>
        requires bordered { AreBordered self.old borders.old }
        requires spelled { AreSpelled self.old.arities parcel.old.words.items }
        // Where a growth is refused, or a table would be full, that is told, and no more is said of
        // the net: it is dropped.
        ensures unpacks { OnOk result (Unpacks parcel.old.words.items
            self.old self.new borders.old borders.new) }
        ensures bordered { OnOk result (AreBordered self.new borders.new) }
        ensures pairs { OnOk result (AllByRecursion IsPair self.new.pending) }
        ensures worth { OnOk result (KeepWorth borders.old borders.new
            parcel.old.words.items []) }
        // A full table is told only of one that has all the places that it may have, or if as many words came.
        ensures limit { result ≡ Err MachineFault.Limit
            → (2 ^ 32 ≤ length parcel.old.words.items + 1)
            ⊎ ((kind : ℕ) × (2 ^ 32 ≤ places_of kind self.new + 1)) }
    {
        self.tables.spare = 0;
        let mut stack = Vec::new(alloc);
        self.tables.stamps.take_in(&parcel.stamps);
        put_words(
            alloc,
            &mut self.tables,
            &parcel.words,
            &mut parcel.stamps,
            borders,
            &mut stack,
        )?;
        self.tables.pending.reserve(stack.len() / 2)?;
        link_pairs(&mut self.tables, &stack, &parcel.stamps);
        Ok(())
    }
}

/// Makes what words spell, from the last on. The roots are on the stack then, the first on top.
fn put_words(
    alloc: Global,
    tables: &mut Tables,
    words: &[Word],
    stamps: &mut Carried,
    borders: &mut Borders,
    stack: &mut Vec<Word>,
) -> Result<(), MachineFault>
    requires stack { stack.old.items ≡ [] }
    requires few { length tables.old.names.entries < 2 ^ 32 }
    requires symbols { length tables.old.heaps.items < GIVEN }
    requires spelled { AreSpelled (arities_of tables.old.heaps.items) words.now }
    requires separate { IsSeparate (arities_of tables.old.heaps.items)
        (map end_word borders.old.ends) (side_in tables.old borders.old).places }
    ensures spells { OnOk result (Spells (arities_of tables.old.heaps.items)
        (side_in tables.new borders.new) (side_in tables.old borders.old)
        (reverse stack.new.items) words.now) }
    ensures worth { OnOk result (KeepWorth borders.old borders.new words.now []) }
    ensures kept { AreKept (arities_of tables.old.heaps.items)
        (map end_word borders.old.ends) (stack.new.items ++ map end_word borders.new.ends)
        (side_in tables.old borders.old).places (side_in tables.new borders.new).places }
    ensures words { AllByRecursion (λ w. w.tag < IDLE) stack.new.items }
    ensures few { length tables.new.names.entries < 2 ^ 32 }
    ensures arities { arities_of tables.new.heaps.items ≡ arities_of tables.old.heaps.items }
    ensures grow { OnOk result (TablesGrow tables.old tables.new) }
    ensures limit { result ≡ Err MachineFault.Limit
        → (2 ^ 32 ≤ length words.now + 1) ⊎ HasFullTable tables.new }
    ensures same { (tables.new.pending ≡ tables.old.pending)
        × (tables.new.registers ≡ tables.old.registers) × (tables.new.spare ≡ tables.old.spare) }
{
    if words.len() >= MAX_ENTRIES {
        return Err(MachineFault::Limit);
    }
    let mut operands = Vec::new(alloc);
    for i in (0..words.len()).rev() {
        let waited = stamps.take_waited(i);
        unpack_word(tables, words[i], waited, borders, stack, &mut operands)?;
    }
    Ok(())
}

/// Makes what a word spells of the trees on top of the stack. If it has waited with this stamp, it waits for a new name.
fn unpack_word(
    tables: &mut Tables,
    word: Word,
    waited: Option<u32>,
    borders: &mut Borders,
    stack: &mut Vec<Word>,
    operands: &mut Vec<u32>,
) -> Result<(), MachineFault>
    requires few { length tables.old.names.entries < 2 ^ 32 }
    requires symbols { length tables.old.heaps.items < GIVEN }
    requires stack { length stack.old.items < 2 ^ 32 }
    requires words { AllByRecursion (λ w. w.tag < IDLE) stack.old.items }
    requires next { IsNext (arities_of tables.old.heaps.items) (length stack.old.items) word }
    requires separate { IsSeparate (arities_of tables.old.heaps.items)
        (stack.old.items ++ map end_word borders.old.ends) (side_in tables.old borders.old).places }
    ensures spells { OnOk result ((rest : Side) (ts : List AnyWord)
        → Spells (arities_of tables.old.heaps.items) (side_in tables.old borders.old) rest
        (reverse stack.old.items) ts
        → Spells (arities_of tables.old.heaps.items) (side_in tables.new borders.new) rest
        (reverse stack.new.items) (word ∷ ts)) }
    ensures worth { OnOk result ((c : ℕ)
        → worth c borders.new ≡ worth c borders.old + spells_cut c (word ∷ [])) }
    ensures kept { AreKept (arities_of tables.old.heaps.items)
        (stack.old.items ++ map end_word borders.old.ends)
        (stack.new.items ++ map end_word borders.new.ends)
        (side_in tables.old borders.old).places (side_in tables.new borders.new).places }
    ensures words { AllByRecursion (λ w. w.tag < IDLE) stack.new.items }
    ensures len { length stack.new.items ≤ length stack.old.items + 1 }
    ensures few { length tables.new.names.entries < 2 ^ 32 }
    ensures arities { arities_of tables.new.heaps.items ≡ arities_of tables.old.heaps.items }
    ensures grow { OnOk result (TablesGrow tables.old tables.new) }
    ensures limit { result ≡ Err MachineFault.Limit → HasFullTable tables.new }
    ensures same { (tables.new.pending ≡ tables.old.pending)
        × (tables.new.registers ≡ tables.old.registers) × (tables.new.spare ≡ tables.old.spare) }
{
    put_word(tables, word, borders, stack, operands)?;
    set_apart(&mut tables.names, &mut tables.stamps, waited, stack);
    Ok(())
}

/// Makes what a word spells of the trees on top of the stack.
fn put_word(
    tables: &mut Tables,
    word: Word,
    borders: &mut Borders,
    stack: &mut Vec<Word>,
    operands: &mut Vec<u32>,
) -> Result<(), MachineFault>
    requires few { length tables.old.names.entries < 2 ^ 32 }
    requires symbols { length tables.old.heaps.items < GIVEN }
    requires stack { length stack.old.items < 2 ^ 32 }
    requires words { AllByRecursion (λ w. w.tag < IDLE) stack.old.items }
    requires next { IsNext (arities_of tables.old.heaps.items) (length stack.old.items) word }
    requires separate { IsSeparate (arities_of tables.old.heaps.items)
        (stack.old.items ++ map end_word borders.old.ends) (side_in tables.old borders.old).places }
    ensures spells { OnOk result ((rest : Side) (ts : List AnyWord)
        → Spells (arities_of tables.old.heaps.items) (side_in tables.old borders.old) rest
        (reverse stack.old.items) ts
        → Spells (arities_of tables.old.heaps.items) (side_in tables.new borders.new) rest
        (reverse stack.new.items) (word ∷ ts)) }
    ensures worth { OnOk result ((c : ℕ)
        → worth c borders.new ≡ worth c borders.old + spells_cut c (word ∷ [])) }
    ensures kept { AreKept (arities_of tables.old.heaps.items)
        (stack.old.items ++ map end_word borders.old.ends)
        (stack.new.items ++ map end_word borders.new.ends)
        (side_in tables.old borders.old).places (side_in tables.new borders.new).places }
    ensures words { AllByRecursion (λ w. w.tag < IDLE) stack.new.items }
    ensures len { length stack.new.items ≤ length stack.old.items + 1 }
    ensures few { length tables.new.names.entries < 2 ^ 32 }
    ensures arities { arities_of tables.new.heaps.items ≡ arities_of tables.old.heaps.items }
    ensures grow { OnOk result (TablesGrow tables.old tables.new) }
    ensures limit { result ≡ Err MachineFault.Limit → HasFullTable tables.new }
    ensures same { (tables.new.pending ≡ tables.old.pending)
        × (tables.new.registers ≡ tables.old.registers) × (tables.new.spare ≡ tables.old.spare) }
{
    if word.tag == NAME {
        let name = unpack_name(&mut tables.names, word.index, borders)?;
        push(stack, Word::name(name))?;
        Ok(())
    } else {
        unpack_agent(&mut tables.heaps, word, stack, operands)
    }
}

/// Lets the word on top of a stack wait for a new name, which is on top then, if it has waited with this stamp. Where there is no
/// number or no memory for a name, all stays as it is, and stamps are lost.
fn set_apart(names: &mut Names, stamps: &mut Stamps, waited: Option<u32>, stack: &mut Vec<Word>)
    requires few { length names.old.entries < 2 ^ 32 }
    requires words { AllByRecursion (λ w. w.tag < IDLE) stack.old.items }
    ensures apart { SetsApart
        names.old.entries names.new.entries stack.old.items stack.new.items }
    ensures words { AllByRecursion (λ w. w.tag < IDLE) stack.new.items }
    ensures few { length names.new.entries < 2 ^ 32 }
{
    let Some(stamp) = waited else {
        return;
    };
    if names.len() >= MAX_ENTRIES {
        stamps.lose();
        return;
    }
    if names.reserve(1).is_err() {
        stamps.lose();
        return;
    }
    let Some(word) = stack.pop() else {
        return;
    };
    let name = names.open();
    names.put(name, word);
    stack.push_reserved(Word::name(name));
    stamps.mark::<true>(name, stamp);
}

/// The name of a cut: that of its border, if the other end is here, or a new one.
fn unpack_name(names: &mut Names, cut: u32, borders: &mut Borders) -> Result<u32, MachineFault>
    requires few { length names.old.entries < 2 ^ 32 }
    requires room { (i : ℕ) → times i (map (λ e. e.name) borders.old.ends)
        ≤ sum_by (room (name_word i)) (names_pieces 0 names.old.entries) }
    ensures unpacked { IfOk result (λ name. UnpacksName (record { cut = cut; name = name })
        names.old.entries names.new.entries borders.old.ends borders.new.ends) }
    ensures worth { OnOk result ((c : ℕ) → worth c borders.new
        ≡ worth c borders.old + times c (cut ∷ [])) }
    ensures kept { OnErr result ((arities : List ℕ) → AreKept arities
        (map end_word borders.old.ends) (map end_word borders.new.ends)
        (names_pieces 0 names.old.entries) (names_pieces 0 names.new.entries)) }
    ensures few { length names.new.entries < 2 ^ 32 }
    ensures grow { OnOk result (NamesGrow names.old.entries names.new.entries) }
    ensures limit { result ≡ Err MachineFault.Limit → 2 ^ 32 ≤ length names.new.entries + 1 }
{
    if let Some(name) = borders.name_of(cut) {
        borders.remove(cut, name);
        borders.spare(cut)?;
        return Ok(name);
    }
    if names.len() >= MAX_ENTRIES {
        return Err(MachineFault::Limit);
    }
    names.reserve(1)?;
    let name = names.open();
    borders.add(cut, name)?;
    Ok(name)
}

/// Puts an agent onto the stack, and if it has arguments, at a place: they are on top of the stack.
fn unpack_agent(
    heaps: &mut Vec<Heap>,
    agent: Word,
    stack: &mut Vec<Word>,
    operands: &mut Vec<u32>,
) -> Result<(), MachineFault>
    requires word { agent.tag < IDLE }
    requires words { AllByRecursion (λ w. w.tag < IDLE) stack.old.items }
    requires few { length stack.old.items < 2 ^ 32 }
    requires known { is_constant_tag (arities_of heaps.old.items) agent.tag ≡ false
        → (arity : ℕ) × IsTagOf (arities_of heaps.old.items) agent.tag arity
        × (arity ≤ length stack.old.items) }
    ensures plain { OnOk result (is_constant_tag (arities_of heaps.old.items) agent.tag ≡ true
        → (heaps_pieces 0 heaps.new.items ≡ heaps_pieces 0 heaps.old.items)
        × (stack.new.items ≡ stack.old.items ++ agent ∷ [])) }
    ensures made { OnOk result (is_constant_tag (arities_of heaps.old.items) agent.tag ≡ false
        → MakesAgent (arities_of heaps.old.items) agent.tag (heaps_pieces 0 heaps.old.items)
        (heaps_pieces 0 heaps.new.items) stack.old.items stack.new.items) }
    ensures kept { AreKept (arities_of heaps.old.items) stack.old.items stack.new.items
        (heaps_pieces 0 heaps.old.items) (heaps_pieces 0 heaps.new.items) }
    ensures words { AllByRecursion (λ w. w.tag < IDLE) stack.new.items }
    ensures len { length stack.new.items ≤ length stack.old.items + 1 }
    ensures arities { arities_of heaps.new.items ≡ arities_of heaps.old.items }
    ensures grow { OnOk result (BlocksGrow heaps.old.items heaps.new.items) }
    ensures limit { result ≡ Err MachineFault.Limit → HasFullBlocks heaps.new.items }
{
    if heaps.len() < agent.tag as usize {
        push(stack, agent)?;
        return Ok(());
    }
    let heap = &mut heaps[agent.tag as usize - 1];
    if heap.arity() == 0 {
        push(stack, agent)?;
        return Ok(());
    }
    let index = put_agent(heap, stack, operands)?;
    let tag = agent.tag;
    push(stack, Word { tag, index })?;
    Ok(())
}

/// Puts an agent into a block, whose arguments are on top of the stack, the first on top. They
/// are gone from there then.
fn put_agent(
    heap: &mut Heap,
    stack: &mut Vec<Word>,
    operands: &mut Vec<u32>,
) -> Result<u32, MachineFault>
    requires some { 1 ≤ heap.old.arity }
    requires enough { heap.old.arity ≤ length stack.old.items }
    requires few { length stack.old.items < 2 ^ 32 }
    requires words { AllByRecursion (λ w. w.tag < IDLE) stack.old.items }
    ensures put { IfOk result (λ index. PutsAgent index heap.old heap.new
        stack.old.items stack.new.items) }
    ensures same { OnErr result ((stack.new.items ≡ stack.old.items)
        × (heap.new.count ≡ heap.old.count) × (heap.new.words ≡ heap.old.words)) }
    ensures arity { heap.new.arity ≡ heap.old.arity }
    ensures count { OnOk result ((s : ℕ)
        → heap.new.count ≡ max heap.old.count (length (blocks_pieces s heap.new))) }
    ensures limit { result ≡ Err MachineFault.Limit → 2 ^ 32 ≤ heap.new.count + 1 }
{
    let arity = heap.arity() as usize;
    if heap.count() as usize >= MAX_ENTRIES {
        return Err(MachineFault::Limit);
    }
    heap.reserve(arity)?;
    let end = stack.len();
    fill(operands, end, arity)?;
    let block = heap.put(operands, stack);
    stack.truncate(end - arity);
    Ok(block)
}

/// The places of so many words on top of a stack of so many, the top first.
fn fill(operands: &mut Vec<u32>, end: usize, arity: usize) -> Result<(), AllocError>
    requires within { arity ≤ end }
    requires few { end < 2 ^ 32 }
    ensures { OnOk result (operands.new.items ≡ map (λ k. end - (k + 1)) (range_with_len 0 arity)) }
{
    operands.clear();
    for place in 0..arity {
        operands.push((end - (place + 1)) as u32)?;
    }
    Ok(())
}

fn push(stack: &mut Vec<Word>, word: Word) -> Result<(), AllocError>
    ensures pushed { OnOk result (stack.new.items ≡ stack.old.items ++ word ∷ []) }
    ensures same { OnErr result (stack.new.items ≡ stack.old.items) }
{
    stack.push(word)?;
    Ok(())
}

/// Links the words of a stack two by two, those at the bottom first: the upper one of two is the
/// left side.
fn link_pairs(tables: &mut Tables, stack: &[Word], stamps: &Carried)
    requires entered { AreEntered stack.now tables.old.names.entries }
    requires room { length tables.old.pending.items + length stack.now / 2
        ≤ tables.old.pending.capacity }
    ensures steps { (p : Plans) (rest : List Piece) → Steps p []
        (map equated_of (pairs_on stack.now)
        ++ (names_pieces 0 tables.old.names.entries
        ++ (map equated_of tables.old.pending.items ++ rest)))
        (names_pieces 0 tables.new.names.entries
        ++ (map equated_of tables.new.pending.items ++ rest)) }
    ensures pushed { Pushed tables.old.pending.items tables.new.pending.items }
    ensures names { length tables.new.names.entries ≡ length tables.old.names.entries }
    ensures same { (tables.new.heaps ≡ tables.old.heaps)
        × (tables.new.registers ≡ tables.old.registers) × (tables.new.spare ≡ tables.old.spare) }
{
    for place in 0..stack.len() / 2 {
        let equation = Equation {
            left: stack[2 * place + 1],
            right: stack[2 * place],
        };
        tables.stamps.link_carried(stamps, place);
        link::<true>(
            &mut tables.names,
            &mut tables.pending,
            &mut tables.stamps,
            equation,
        );
    }
}

//! What a machine begins with, made name by name and agent by agent.

ghost use Rattle.std.specs.Prelude.{◌≡◌, ℕ, ◌+◌, ◌^◌, ◌<◌, ◌≤◌, List, [], ◌∷◌, ◌++◌, Some, IfOk, OnOk, length, map, slice_get, vec_len, vec_capacity};
ghost use Rattle.std.specs.List.{AllByRecursion};
ghost use Rattle.ic_arena.specs.declared.word.TheConstants.{GIVEN, IDLE};
ghost use Rattle.ic_machine.specs.Building.{Builds, CanBegin};
ghost use Rattle.ic_machine.specs.Net.{pieces};
ghost use Rattle.ic_machine.specs.Plan.{Made};
ghost use Rattle.ic_machine.specs.Runs.{Starts};
ghost use Rattle.ic_machine.specs.Separate.{IsSeparate};
ghost use Rattle.ic_machine.specs.inner.Firing.{arities_of, heaps_pieces, table, AreSame, HasBlocks};
ghost use Rattle.ic_machine.specs.inner.Making.{AreFull, MakesOne};

use crate::firing::{open_names, push_given};
use crate::linking::link_each;
use crate::machine::{Machine, no_counts, words_at};
use crate::plan::{Link, Program};
use crate::tables::Tables;
use ic_arena::{Heap, Word};
use std::alloc::{AllocError, Global};
use std::marker::Model;

/// The names and the agents of a net, before they are linked. Each word is in a register: first the agents without
/// arguments, by symbol, then given names, then the other names, and then the agents, as they are made.
#[derive(Drop)]
pub struct Builder {
    tables: Tables,
}

impl Model for Builder {
    ghost use Rattle.ic_machine.specs.Building.{Building};

    ghost Value = { Building };

    ghost use Rattle.ic_machine.specs.inner.Building.{building_of, IsBuilder};

    ghost view = { building_of };

    ghost invariant = { IsBuilder };
}

impl Builder {
    /// So many given names and so many others, for which nothing waits. It takes the memory for the registers of so many agents more.
    pub fn new(
        alloc: Global,
        program: &Program,
        given: u32,
        names: u32,
        agents: usize,
    ) -> Result<Builder, AllocError>
        requires symbols { length program.now.arities < GIVEN }
        requires few { length program.now.arities + given + names ≤ u32.MAX }
        ensures arities { IfOk result (λ b. b.arities ≡ program.now.arities) }
        ensures builds { IfOk result (Builds given names []) }
        ensures registers { IfOk result (λ b.
            length b.registers ≡ length program.now.arities + given + names) }
    {
        let mut tables = Tables::new(alloc, program.arities())?;
        tables.names.reserve(names as usize)?;
        let named = given as usize + names as usize;
        tables.registers.reserve(named.saturating_add(agents))?;
        push_given(&mut tables.registers, given);
        open_names(&mut tables.names, names, &mut tables.registers);
        Ok(Builder { tables })
    }

    /// Makes an agent of what is in these registers, and answers its own register.
    pub fn make(&mut self, symbol: u32, operands: &[u32]) -> Result<u32, AllocError>
        requires arity { slice_get self.old.arities symbol ≡ Some (length operands.now) }
        requires some { 1 ≤ length operands.now }
        requires filled { AllByRecursion (λ k. k < length self.old.registers) operands.now }
        requires few { length self.old.registers < u32.MAX }
        ensures register { IfOk result (λ k. k ≡ length self.old.registers) }
        ensures made { OnOk result ((given names : ℕ) (made : List Made)
            → Builds given names made self.old → Builds given names
            (made ++ record { symbol = symbol; operands = operands.now } ∷ []) self.new) }
        ensures arities { self.new.arities ≡ self.old.arities }
        ensures registers { OnOk result
            (length self.new.registers ≡ length self.old.registers + 1) }
    {
        let register = self.tables.registers.len() as u32;
        self.tables.registers.reserve(1)?;
        reserve_one(&mut self.tables.heaps, symbol)?;
        make_one(
            &mut self.tables.heaps,
            symbol,
            operands,
            &mut self.tables.registers,
        );
        Ok(register)
    }

    /// The machine that begins with these names and agents, linked in this order. The words of these registers are the
    /// interface. It knows in which rounds the pairs would fire that it runs, if it is to know that.
    pub fn finish(
        self,
        alloc: Global,
        program: &Program,
        links: &[Link],
        interface: &[u32],
        knows_rounds: bool,
    ) -> Result<Machine, AllocError>
        requires arities { self.arities ≡ program.now.arities }
        requires begins { CanBegin links.now interface.now self }
        ensures arities { IfOk result (λ m. m.arities ≡ program.now.arities) }
        ensures starts { IfOk result (λ m. (can : CanBegin links.now interface.now self)
            → Starts program.now can.given can.plan interface.now m) }
        ensures aside { IfOk result (λ m. m.aside ≡ []) }
        ensures interactions { IfOk result (λ m. m.interactions ≡ 0) }
        ensures counts { IfOk result (λ m. m.counts ≡ map (λ plan. 0) program.now.plans) }
        ensures separate { IfOk result (λ m.
            IsSeparate program.now.arities m.interface (pieces m)) }
    {
        let mut tables = self.tables;
        let counts = no_counts(alloc, program.plans())?;
        let interface = words_at(alloc, &tables.registers, interface)?;
        tables.pending.reserve(links.len())?;
        tables.stamps.begin(knows_rounds);
        link_each(
            &mut tables.names,
            &mut tables.pending,
            &mut tables.stamps,
            links,
            &tables.registers,
        );
        tables.registers.truncate(tables.heaps.len());
        tables.registers.shrink_to_fit();
        Ok(Machine {
            interface,
            aside: Vec::new(alloc),
            tables,
            interactions: 0,
            counts,
        })
    }
}

/// Takes the memory for one more agent of a symbol.
fn reserve_one(heaps: &mut Vec<Heap>, symbol: u32) -> Result<(), AllocError>
    requires known { symbol < length heaps.old.items }
    requires few { (table heaps.old.items symbol).count + 1 < 2 ^ 32 }
    ensures same { AreSame heaps.old.items heaps.new.items }
    ensures room { OnOk result (HasBlocks 1 (table heaps.new.items symbol)) }
{
    let heap = &mut heaps[symbol as usize];
    let arity = heap.arity() as usize;
    heap.reserve(arity)?;
    Ok(())
}

/// Makes an agent of what is in registers, for which there is memory, and puts its word after them.
fn make_one(heaps: &mut Vec<Heap>, symbol: u32, operands: &[u32], registers: &mut Vec<Word>)
    requires arity { slice_get (arities_of heaps.old.items) symbol ≡ Some (length operands.now) }
    requires some { 1 ≤ length operands.now }
    requires filled { AllByRecursion (λ k. k < length registers.old.items) operands.now }
    requires words { AllByRecursion (λ w. w.tag < IDLE) registers.old.items }
    requires symbols { length heaps.old.items < GIVEN }
    requires room { HasBlocks 1 (table heaps.old.items symbol) }
    requires registers { vec_len registers.old + 1 ≤ vec_capacity registers.old }
    ensures made { MakesOne (record { symbol = symbol; operands = operands.now })
        (heaps_pieces 0 heaps.old.items) (heaps_pieces 0 heaps.new.items)
        registers.old.items registers.new.items }
    ensures words { AllByRecursion (λ w. w.tag < IDLE) registers.new.items }
    ensures arities { arities_of heaps.new.items ≡ arities_of heaps.old.items }
    ensures full { AreFull heaps.old.items → AreFull heaps.new.items }
    ensures count { (s : ℕ)
        → (table heaps.new.items s).count ≤ (table heaps.old.items s).count + 1 }
{
    let heap = &mut heaps[symbol as usize];
    let block = heap.put(operands, registers);
    registers.push_reserved(Word::agent(symbol, block));
}

//! The tables of a machine.

ghost use Rattle.std.specs.Prelude.{◌≡◌, ℕ, ◌+◌, ◌-◌, ◌*◌, ◌^◌, ◌<◌, ◌≤◌, List, [], ◌∷◌, ◌++◌, Some, Err, map, length, take, slice_get, OnOk, OnErr, IfOk};
ghost use Rattle.std.specs.List.{AllByRecursion};
ghost use Rattle.ic_arena.specs.declared.word.TheConstants.{GIVEN};
ghost use Rattle.ic_machine.specs.Net.{equated_of, IsPair};
ghost use Rattle.ic_machine.specs.Plan.{Plans, planned, made_of, constants};
ghost use Rattle.ic_machine.specs.Separate.{IsSeparate};
ghost use Rattle.ic_machine.specs.inner.Firing.{heaps_pieces, arities_of, AreSame, table};
ghost use Rattle.ic_machine.specs.inner.Linking.{Pushed};
ghost use Rattle.ic_machine.specs.inner.Pairs.{CanFire, IsFirst, IsLast};

use crate::equation::Equation;
use crate::firing::{MAX_ENTRIES, make_into, open_into, reserve_blocks, reserve_each, take_into};
use crate::linking::link_all;
use crate::machine::{MachineFault, count_at};
use crate::plan::{Plan, Program};
use crate::queue::Queue;
use crate::stamps::Stamps;
use ic_arena::{Heap, Names, Word};
use std::alloc::{AllocError, Global};

/// How much of each kind plans may make before more memory is taken.
const SPARE: usize = 1_024;

/// Symbols up to which memory is taken before plans need it: it is taken for each of them.
const SPARE_SYMBOLS: usize = 1_024;

/// What is at each place, the pairs that are still to be looked at, and the registers of the plan that is made.
#[derive(Drop)]
pub(crate) struct Tables {
    pub(crate) names: Names,
    pub(crate) heaps: Vec<Heap>,
    pub(crate) pending: Queue,
    pub(crate) registers: Vec<Word>,
    /// So many names, links, and agents of each symbol can be made with the memory that is there.
    pub(crate) spare: usize,
    /// In which rounds pairs would fire.
    pub(crate) stamps: Stamps,
}

impl Tables {
    ghost use Rattle.ic_machine.specs.inner.Tables.{arguments_of, held, size_at, size_of, HasMemory, HasRoomFor, HasSpare, IsReady, IsMade, IsNumbered, IsTooMuch, FiresBy, FiresEach, FiresFirsts, NeedAtMost};

    /// Tables of nothing, for symbols of these arities. The registers hold the agents without arguments.
    pub(crate) fn new(alloc: Global, arities: &[u32]) -> Result<Tables, AllocError>
        requires { length arities.now < GIVEN }
        ensures names { IfOk result (λ t. t.names.entries ≡ []) }
        ensures arities { IfOk result (λ t. arities_of t.heaps.items ≡ arities.now) }
        ensures heaps { IfOk result (λ t. heaps_pieces 0 t.heaps.items ≡ []) }
        ensures pending { IfOk result (λ t. t.pending.items ≡ []) }
        ensures registers { IfOk result (λ t.
            t.registers.items ≡ constants (length arities.now)) }
        ensures counts { IfOk result (λ t. AllByRecursion (λ b. b.count ≡ 0) t.heaps.items) }
        ensures spare { IfOk result (λ t. t.spare ≡ 0) }
    {
        let mut heaps = Vec::with_capacity(alloc, arities.len())?;
        let mut registers = Vec::with_capacity(alloc, arities.len())?;
        let mut symbol = 0u32;
        for arity in arities {
            heaps.push_reserved(Heap::new(alloc, *arity));
            registers.push_reserved(Word::agent(symbol, 0));
            symbol += 1;
        }
        Ok(Tables {
            names: Names::new(alloc),
            heaps,
            pending: Queue::new(alloc),
            registers,
            spare: 0,
            stamps: Stamps::new(alloc),
        })
    }

    /// Takes all memory that a plan may need with so many arguments, before anything is changed.
    #[cold]
    #[inline(never)]
    pub(crate) fn reserve(&mut self, plan: &Plan, arguments: usize) -> Result<(), MachineFault>
        requires few { length self.old.names.entries < 2 ^ 32 }
        requires arguments { arguments < 2 ^ 33 }
        requires known { AllByRecursion (λ m. m.symbol < length self.old.heaps.items)
            (map made_of plan.now.makes.items) }
        requires wide { length self.old.heaps.items ≤ length self.old.registers.items }
        ensures names { self.new.names.entries ≡ self.old.names.entries }
        ensures heaps { AreSame self.old.heaps.items self.new.heaps.items }
        ensures pending { self.new.pending.items ≡ self.old.pending.items }
        ensures registers { take (length self.old.heaps.items) self.new.registers.items
            ≡ take (length self.old.heaps.items) self.old.registers.items }
        ensures memory { OnOk result (HasMemory (planned plan.now) arguments self.new) }
        ensures limit { result ≡ Err MachineFault.Limit
            → IsTooMuch (planned plan.now) (length self.new.names.entries) self.new.heaps.items }
        ensures range { plan.now.names < 2 ^ 32 }
        ensures spare { self.new.spare ≡ self.old.spare }
    {
        let names = plan.names as usize;
        reserve_blocks(&mut self.heaps, &plan.makes)?;
        if names > MAX_ENTRIES - self.names.len() {
            return Err(MachineFault::Limit);
        }
        self.names.reserve(names)?;
        self.pending.reserve(plan.links.len())?;
        let size = arguments + names + plan.makes.len();
        widen(&mut self.registers, self.heaps.len() + size.max(SPARE))?;
        Ok(())
    }

    /// Takes memory for the plans to come, after one that makes so many names and agents, and so many links. Answers how much of
    /// each kind they may make: nothing where it is refused, there are no numbers for so much, or there are many symbols.
    #[cold]
    #[inline(never)]
    fn take_spare(&mut self, size: usize, links: usize) -> usize
        requires { length self.old.names.entries < 2 ^ 32 }
        ensures names { self.new.names.entries ≡ self.old.names.entries }
        ensures more_names { self.old.names.capacity ≤ self.new.names.capacity }
        ensures heaps { AreSame self.old.heaps.items self.new.heaps.items }
        ensures pending { self.new.pending.items ≡ self.old.pending.items }
        ensures more_pending { self.old.pending.capacity ≤ self.new.pending.capacity }
        ensures registers { self.new.registers ≡ self.old.registers }
        ensures room { 1 ≤ result → HasRoomFor (result + (size + links)) self.new }
    {
        if size > SPARE || links > SPARE || self.heaps.len() > SPARE_SYMBOLS {
            return 0;
        }
        let more = SPARE + size + links;
        if more > MAX_ENTRIES - self.names.len() {
            return 0;
        }
        if self.names.reserve(more).is_err() || self.pending.reserve(more).is_err() {
            return 0;
        }
        if reserve_each(&mut self.heaps, more) {
            SPARE
        } else {
            0
        }
    }

    /// Sees that there is all memory that a plan may need with so many arguments, before anything is changed. What was taken
    /// for earlier plans and is spare is used first.
    #[inline(always)]
    fn prepare(&mut self, plan: &Plan, arguments: usize) -> Result<(), MachineFault>
        requires few { length self.old.names.entries < 2 ^ 32 }
        requires arguments { arguments < 2 ^ 33 }
        requires known { AllByRecursion (λ m. m.symbol < length self.old.heaps.items)
            (map made_of plan.now.makes.items) }
        requires wide { length self.old.heaps.items ≤ length self.old.registers.items }
        requires spare { HasSpare self.old }
        ensures names { self.new.names.entries ≡ self.old.names.entries }
        ensures heaps { AreSame self.old.heaps.items self.new.heaps.items }
        ensures pending { self.new.pending.items ≡ self.old.pending.items }
        ensures registers { take (length self.old.heaps.items) self.new.registers.items
            ≡ take (length self.old.heaps.items) self.old.registers.items }
        ensures memory { OnOk result (HasMemory (planned plan.now) arguments self.new) }
        ensures spare { OnOk result (1 ≤ self.new.spare
            → HasRoomFor (self.new.spare + size_of (planned plan.now)) self.new) }
        ensures none { OnErr result (self.new.spare ≡ 0) }
        ensures limit { result ≡ Err MachineFault.Limit
            → IsTooMuch (planned plan.now) (length self.new.names.entries) self.new.heaps.items }
    {
        let size = plan.names as usize + plan.makes.len();
        let links = plan.links.len();
        let free = self.registers.len() - self.heaps.len();
        if size < self.spare && links < self.spare - size && arguments + size <= free {
            self.spare -= size + links;
            return Ok(());
        }
        self.spare = 0;
        self.reserve(plan, arguments)?;
        self.spare = self.take_spare(size, links);
        Ok(())
    }

    /// Makes what a plan makes of the arguments in the registers, so many of which are filled.
    #[inline(always)]
    pub(crate) fn make<const STAMPED: bool>(&mut self, plan: &Plan, filled: usize)
        requires ready { IsReady (planned plan.now) filled self.old }
        requires memory { HasMemory (planned plan.now) (filled - length self.old.heaps.items)
            self.old }
        ensures made { IsMade (planned plan.now) filled self.old self.new }
        ensures pushed { Pushed self.old.pending.items self.new.pending.items }
        ensures arities { arities_of self.new.heaps.items ≡ arities_of self.old.heaps.items }
        ensures few { length self.new.names.entries < 2 ^ 32 }
        ensures room { (n : ℕ) → HasRoomFor (n + size_of (planned plan.now)) self.old
            → HasRoomFor n self.new }
        ensures width { length self.new.registers.items ≡ length self.old.registers.items }
        ensures spare { self.new.spare ≡ self.old.spare }
    {
        let opened = open_into(&mut self.names, plan.names, &mut self.registers, filled);
        let made = make_into(&mut self.heaps, &plan.makes, &mut self.registers, opened);
        link_all::<STAMPED>(
            &mut self.names,
            &mut self.pending,
            &mut self.stamps,
            &plan.links,
            &self.registers[..made],
        );
    }

    /// Fires the last pending pair. Where memory is refused, it is pending as before.
    pub(crate) fn fire_last<const STAMPED: bool>(
        &mut self,
        pair: Equation,
        plan: &Plan,
    ) -> Result<(), MachineFault>
        requires few { length self.old.names.entries < 2 ^ 32 }
        requires symbols { length self.old.heaps.items < GIVEN }
        requires registers { take (length self.old.heaps.items) self.old.registers.items
            ≡ constants (length self.old.heaps.items) }
        requires last { IsLast pair self.old.pending.items }
        requires plan { CanFire (arities_of self.old.heaps.items) pair (planned plan.now) }
        requires separate { IsSeparate (arities_of self.old.heaps.items) [] (held self.old []) }
        requires spare { HasSpare self.old }
        ensures spare { HasSpare self.new }
        ensures fires { OnOk result ((p : Plans) (i left right : ℕ) (others rest : List Equation)
            → pair.left.tag ≡ left + 1 → pair.right.tag ≡ right + 1
            → p.arities ≡ arities_of self.old.heaps.items
            → IsNumbered p i left right (planned plan.now)
            → AllByRecursion IsPair self.old.pending.items → AllByRecursion IsPair rest
            → self.old.pending.items ≡ others ++ pair ∷ []
            → FiresBy p pair i self.old self.new others rest) }
        ensures pairs { AllByRecursion IsPair self.old.pending.items
            → AllByRecursion IsPair self.new.pending.items }
        ensures pushed { OnOk result ((others : List Equation)
            → self.old.pending.items ≡ others ++ pair ∷ [] → Pushed others self.new.pending.items) }
        ensures pending { OnErr result (self.new.pending.items ≡ self.old.pending.items) }
        ensures same { OnErr result ((rest : List Equation)
            → held self.new (map equated_of rest) ≡ held self.old (map equated_of rest)) }
        ensures places { OnErr result ((kind : ℕ) → size_at kind self.new ≡ size_at kind self.old) }
        ensures arities { arities_of self.new.heaps.items ≡ arities_of self.old.heaps.items }
        ensures few { length self.new.names.entries < 2 ^ 32 }
        ensures registers { take (length self.new.heaps.items) self.new.registers.items
            ≡ constants (length self.new.heaps.items) }
        ensures limit { result ≡ Err MachineFault.Limit
            → IsTooMuch (planned plan.now) (length self.new.names.entries) self.new.heaps.items }
    {
        let arguments = self.arguments(pair);
        self.prepare(plan, arguments)?;
        self.stamps.count_last::<STAMPED>(&self.pending);
        self.pending.pop();
        self.fire::<STAMPED>(pair, plan);
        Ok(())
    }

    /// Fires the first pending pair, without stamps. Where memory is refused, it is pending as before.
    pub(crate) fn fire_first(&mut self, pair: Equation, plan: &Plan) -> Result<(), MachineFault>
        requires few { length self.old.names.entries < 2 ^ 32 }
        requires symbols { length self.old.heaps.items < GIVEN }
        requires registers { take (length self.old.heaps.items) self.old.registers.items
            ≡ constants (length self.old.heaps.items) }
        requires first { IsFirst pair self.old.pending.items }
        requires plan { CanFire (arities_of self.old.heaps.items) pair (planned plan.now) }
        requires separate { IsSeparate (arities_of self.old.heaps.items) [] (held self.old []) }
        requires spare { HasSpare self.old }
        ensures spare { HasSpare self.new }
        ensures fires { OnOk result ((p : Plans) (i left right : ℕ) (others rest : List Equation)
            → pair.left.tag ≡ left + 1 → pair.right.tag ≡ right + 1
            → p.arities ≡ arities_of self.old.heaps.items
            → IsNumbered p i left right (planned plan.now)
            → AllByRecursion IsPair self.old.pending.items → AllByRecursion IsPair rest
            → self.old.pending.items ≡ pair ∷ others
            → FiresBy p pair i self.old self.new others rest) }
        ensures pairs { AllByRecursion IsPair self.old.pending.items
            → AllByRecursion IsPair self.new.pending.items }
        ensures pushed { OnOk result ((others : List Equation)
            → self.old.pending.items ≡ pair ∷ others → Pushed others self.new.pending.items) }
        ensures pending { OnErr result (self.new.pending.items ≡ self.old.pending.items) }
        ensures same { OnErr result ((rest : List Equation)
            → held self.new (map equated_of rest) ≡ held self.old (map equated_of rest)) }
        ensures places { OnErr result ((kind : ℕ) → size_at kind self.new ≡ size_at kind self.old) }
        ensures arities { arities_of self.new.heaps.items ≡ arities_of self.old.heaps.items }
        ensures few { length self.new.names.entries < 2 ^ 32 }
        ensures registers { take (length self.new.heaps.items) self.new.registers.items
            ≡ constants (length self.new.heaps.items) }
        ensures limit { result ≡ Err MachineFault.Limit
            → IsTooMuch (planned plan.now) (length self.new.names.entries) self.new.heaps.items }
    {
        let arguments = self.arguments(pair);
        self.prepare(plan, arguments)?;
        self.pending.take_first();
        self.fire::<false>(pair, plan);
        Ok(())
    }

    /// How many pairs may fire with the memory that is spare, by plans that need so much at most, so many pairs at most. That memory
    /// is theirs then.
    pub(crate) fn spare_for(&mut self, most: usize, times: u64) -> u64
        requires registers { length self.old.heaps.items ≤ length self.old.registers.items }
        requires spare { HasSpare self.old }
        ensures same { self.new ≡ record self.old { spare = self.new.spare } }
        ensures spare { HasSpare self.new }
        ensures within { result ≤ times }
        ensures room { 1 ≤ result → HasRoomFor (self.new.spare + result * most) self.new }
        ensures wide { 1 ≤ result
            → length self.new.heaps.items + most ≤ length self.new.registers.items }
    {
        if most == 0 || self.registers.len() - self.heaps.len() < most {
            return 0;
        }
        let count = ((self.spare / most) as u64).min(times);
        self.spare -= count as usize * most;
        count
    }

    /// Fires the last pending pair, so many times, as long as it has a plan. There is memory for plans that need so much at most.
    /// Answers how many pairs have fired: none where there isn't a count for each plan.
    #[inline(never)]
    pub(crate) fn fire_each<const STAMPED: bool>(
        &mut self,
        program: &Program,
        counts: &mut Vec<u64>,
        most: usize,
        times: u64,
    ) -> u64
        requires arities { arities_of self.old.heaps.items ≡ program.now.arities }
        requires few { length self.old.names.entries < 2 ^ 32 }
        requires symbols { length self.old.heaps.items < GIVEN }
        requires registers { take (length self.old.heaps.items) self.old.registers.items
            ≡ constants (length self.old.heaps.items) }
        requires separate { IsSeparate (arities_of self.old.heaps.items) [] (held self.old []) }
        requires pairs { AllByRecursion IsPair self.old.pending.items }
        requires most { NeedAtMost most program.now }
        requires room { HasRoomFor (self.old.spare + times * most) self.old }
        requires wide { length self.old.heaps.items + most ≤ length self.old.registers.items }
        requires counts { AllByRecursion (λ k. k + times < 2 ^ 64) counts.old.items }
        ensures within { result ≤ times }
        ensures fires { (rest : List Equation) → AllByRecursion IsPair rest
            → FiresEach program.now result counts.old.items counts.new.items self.old self.new rest }
        ensures arities { arities_of self.new.heaps.items ≡ arities_of self.old.heaps.items }
        ensures pairs { AllByRecursion IsPair self.new.pending.items }
        ensures few { length self.new.names.entries < 2 ^ 32 }
        ensures registers { take (length self.new.heaps.items) self.new.registers.items
            ≡ constants (length self.new.heaps.items) }
        ensures left { HasRoomFor (self.new.spare + (times - result) * most) self.new }
    {
        // Each plan is counted, so that this isn't asked for each pair.
        if counts.len() < program.plans().len() {
            return 0;
        }
        for fired in 0..times {
            let Some(pair) = self.pending.last() else {
                return fired;
            };
            let Some(number) = program.number_of_pair(pair) else {
                return fired;
            };
            self.stamps.count_last::<STAMPED>(&self.pending);
            self.pending.pop();
            self.fire::<STAMPED>(pair, program.plan_at(number));
            count_at(counts, number);
        }
        times
    }

    /// Fires the first pending pair, so many times, as long as it has a plan, without stamps. Each of them was pending before. There
    /// is memory for plans that need so much at most. Answers how many pairs have fired: none where there isn't a count for each plan.
    #[inline(never)]
    pub(crate) fn fire_firsts(
        &mut self,
        program: &Program,
        counts: &mut Vec<u64>,
        most: usize,
        times: u64,
    ) -> u64
        requires arities { arities_of self.old.heaps.items ≡ program.now.arities }
        requires few { length self.old.names.entries < 2 ^ 32 }
        requires symbols { length self.old.heaps.items < GIVEN }
        requires registers { take (length self.old.heaps.items) self.old.registers.items
            ≡ constants (length self.old.heaps.items) }
        requires separate { IsSeparate (arities_of self.old.heaps.items) [] (held self.old []) }
        requires pairs { AllByRecursion IsPair self.old.pending.items }
        requires some { times ≤ length self.old.pending.items }
        requires most { NeedAtMost most program.now }
        requires room { HasRoomFor (self.old.spare + times * most) self.old }
        requires wide { length self.old.heaps.items + most ≤ length self.old.registers.items }
        requires counts { AllByRecursion (λ k. k + times < 2 ^ 64) counts.old.items }
        ensures within { result ≤ times }
        ensures fires { (aside : List Equation) → AllByRecursion IsPair aside → FiresFirsts
            program.now result counts.old.items counts.new.items self.old self.new aside }
        ensures arities { arities_of self.new.heaps.items ≡ arities_of self.old.heaps.items }
        ensures pairs { AllByRecursion IsPair self.new.pending.items }
        ensures few { length self.new.names.entries < 2 ^ 32 }
        ensures registers { take (length self.new.heaps.items) self.new.registers.items
            ≡ constants (length self.new.heaps.items) }
        ensures left { HasRoomFor (self.new.spare + (times - result) * most) self.new }
    {
        // Each plan is counted, so that this isn't asked for each pair.
        if counts.len() < program.plans().len() {
            return 0;
        }
        for fired in 0..times {
            let pair = self.pending.first();
            let Some(number) = program.number_of_pair(pair) else {
                return fired;
            };
            self.pending.take_first();
            self.fire::<false>(pair, program.plan_at(number));
            count_at(counts, number);
        }
        times
    }

    /// How many arguments the agents of a pair have.
    #[inline(always)]
    fn arguments(&self, pair: Equation) -> usize
        requires left { (1 ≤ pair.left.tag) × (pair.left.tag ≤ length self.now.heaps.items) }
        requires right { (1 ≤ pair.right.tag) × (pair.right.tag ≤ length self.now.heaps.items) }
        ensures count { result ≡ arguments_of pair self.now.heaps.items }
        ensures few { result < 2 ^ 33 }
    {
        let left = &self.heaps[pair.left.tag as usize - 1];
        let right = &self.heaps[pair.right.tag as usize - 1];
        left.arity() as usize + right.arity() as usize
    }

    /// Fires a pair that is no longer pending, for which there is all memory.
    #[inline(always)]
    fn fire<const STAMPED: bool>(&mut self, pair: Equation, plan: &Plan)
        requires symbols { length self.old.heaps.items < GIVEN }
        requires registers { take (length self.old.heaps.items) self.old.registers.items
            ≡ constants (length self.old.heaps.items) }
        requires plan { CanFire (arities_of self.old.heaps.items) pair (planned plan.now) }
        requires separate { IsSeparate (arities_of self.old.heaps.items) []
            (equated_of pair ∷ held self.old []) }
        requires memory { HasMemory (planned plan.now) (arguments_of pair self.old.heaps.items)
            self.old }
        ensures fires { (p : Plans) (i left right : ℕ) (rest : List Equation)
            → pair.left.tag ≡ left + 1 → pair.right.tag ≡ right + 1
            → p.arities ≡ arities_of self.old.heaps.items
            → IsNumbered p i left right (planned plan.now)
            → AllByRecursion IsPair self.old.pending.items → AllByRecursion IsPair rest
            → FiresBy p pair i self.old self.new self.old.pending.items rest }
        ensures pushed { Pushed self.old.pending.items self.new.pending.items }
        ensures arities { arities_of self.new.heaps.items ≡ arities_of self.old.heaps.items }
        ensures few { length self.new.names.entries < 2 ^ 32 }
        ensures registers { take (length self.new.heaps.items) self.new.registers.items
            ≡ constants (length self.new.heaps.items) }
        ensures room { (n : ℕ) → HasRoomFor (n + size_of (planned plan.now)) self.old
            → HasRoomFor n self.new }
        ensures width { length self.new.registers.items ≡ length self.old.registers.items }
        ensures spare { self.new.spare ≡ self.old.spare }
    {
        let symbols = self.heaps.len();
        let left = take_into(&mut self.heaps, pair.left, &mut self.registers, symbols);
        let both = take_into(&mut self.heaps, pair.right, &mut self.registers, left);
        self.make::<STAMPED>(plan, both);
    }
}

/// Makes registers as many as these, if there are fewer.
#[cold]
#[inline(never)]
fn widen(registers: &mut Vec<Word>, count: usize) -> Result<(), AllocError>
    ensures same { take (length registers.old.items) registers.new.items ≡ registers.old.items }
    ensures wide { OnOk result (count ≤ length registers.new.items) }
{
    if registers.len() < count {
        registers.resize(count, Word { tag: 0, index: 0 })?;
    }
    Ok(())
}

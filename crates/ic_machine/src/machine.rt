//! The machine.

ghost use Rattle.std.specs.Prelude.{◌≡◌, ◌≢◌, ℕ, ◌+◌, ◌^◌, ◌<◌, ◌≤◌, List, [], ◌∷◌, ◌++◌, true, false, Ok, Err, Contains, length, map, slice_index_or, sum, sum_by, IfOk, OnErr, OnOk, IfSome, IfNone, MatchOption};
ghost use Rattle.std.specs.List.{AllByRecursion};
ghost use Rattle.ic_arena.specs.declared.word.Word.{Word as AnyWord};
ghost use Rattle.ic_arena.specs.declared.word.TheConstants.{GIVEN, NAME};
ghost use Rattle.ic_arena.specs.Word.{name_word};
ghost use Rattle.ic_arena.specs.Piece.{Piece as AnyPiece, agent_of, room, waits};
ghost use Rattle.ic_arena.specs.Tables.{register};
ghost use Rattle.ic_machine.specs.Plan.{Plans};
ghost use Rattle.ic_machine.specs.Separate.{IsSeparate};
ghost use Rattle.ic_machine.specs.Runs.{Counted, Ran};
ghost use Rattle.ic_machine.specs.Net.{pieces, equations_left, in_use, ArePutThrough, HasNext, IsActive, IsStuck, IsAtPlace, IsFull, IsPair};
ghost use Rattle.ic_machine.specs.Generations.{beside, TakesFirst};
ghost use Rattle.ic_machine.specs.declared.equation.Equation.{Equation as AnyEquation};
ghost use Rattle.ic_machine.specs.Steps.{Steps};
ghost use Rattle.ic_machine.specs.inner.Pairs.{HasNumber, IsLast, Passed};

use crate::equation::Equation;
use crate::places::{Parts, Places, count_places};
use crate::plan::{Plan, Program};
use crate::queue::Queue;
use crate::sweeping::sweep;
use crate::tables::Tables;
use ic_arena::{IDLE, Word};
use std::alloc::{AllocError, Global};
use std::marker::Model;

/// How a run has ended.
#[derive(Clone, Copy, PartialEq, Eq)]
pub enum Ended {
    /// No pair is left that could fire by the program of the call. Those that were set aside before had no plan in the
    /// program of an earlier call: it is the same if all calls had one program.
    Quiet,
    /// As many pairs have fired as were asked for, and there is one that could fire next.
    Steps,
}

/// Why a run was broken off, with the net as it stood before the next pair.
#[derive(Clone, Copy, PartialEq, Eq)]
pub enum MachineFault {
    /// With as many entries more as the plan makes, a table would have 2^32 or more.
    Limit,
    /// A growth was refused.
    Memory,
}

impl From<AllocError> for MachineFault {
    ghost use Rattle.ic_machine.specs.declared.machine.MachineFault.TheVariants.{Memory};

    ghost from_gives = { λ _ fault. fault ≡ Memory };

    fn from(_error: AllocError) -> MachineFault {
        MachineFault::Memory
    }
}

/// A net in tables.
#[derive(Drop)]
pub struct Machine {
    pub(crate) interface: Vec<Word>,
    pub(crate) aside: Vec<Equation>,
    pub(crate) tables: Tables,
    pub(crate) interactions: u64,
    pub(crate) counts: Vec<u64>,
}

impl Model for Machine {
    ghost use Rattle.ic_machine.specs.Net.{Net};

    ghost Value = { Net };

    ghost use Rattle.ic_machine.specs.inner.Machine.{net_of, IsSound};

    ghost view = { net_of };

    ghost invariant = { IsSound };
}

impl Machine {
    /// A machine that holds nothing.
    pub fn empty(alloc: Global, program: &Program) -> Result<Machine, AllocError>
        requires symbols { length program.now.arities < GIVEN }
        ensures { IfOk result (λ m. m ≡ record {
          arities = program.now.arities;
          interface = [];
          pending = [];
          aside = [];
          places = [];
          interactions = 0;
          names = 0;
          agents = map (λ k. 0) program.now.arities;
          counts = map (λ plan. 0) program.now.plans;
        }) }
    {
        let counts = no_counts(alloc, program.plans())?;
        let tables = Tables::new(alloc, program.arities())?;
        Ok(Machine {
            interface: Vec::new(alloc),
            aside: Vec::new(alloc),
            tables,
            interactions: 0,
            counts,
        })
    }

    /// Fires pairs until none is left, or so many have fired. Where it is broken off, the net is that before the next pair.
    pub fn run(&mut self, program: &Program, steps: u64) -> Result<Ended, MachineFault>
        requires arities { self.old.arities ≡ program.now.arities }
        requires few { self.old.interactions + steps < 2 ^ 64 }
        ensures ran { Ran program.now self.old self.new }
        ensures at_most { self.new.interactions ≤ self.old.interactions + steps }
        ensures quiet { result ≡ Ok Ended.Quiet → self.new.pending ≡ [] }
        ensures all { result ≡ Ok Ended.Steps
            → self.new.interactions ≡ self.old.interactions + steps }
        ensures more { result ≡ Ok Ended.Steps → HasNext program.now self.new.pending }
        ensures separate { IsSeparate self.new.arities self.new.interface (pieces self.new) }
        ensures places { AllByRecursion IsAtPlace self.new.places }
        ensures pairs { AllByRecursion IsPair self.new.pending }
        ensures limit { result ≡ Err MachineFault.Limit
            → (next : HasNext program.now self.new.pending) × IsFull next.active.plan self.new }
        ensures early { result ≡ Err MachineFault.Limit
            → self.new.interactions < self.old.interactions + steps }
        ensures broken { OnErr result (self.new.pending ≢ []) }
    {
        if self.is_stamped() {
            self.run_all::<true>(program, steps)
        } else {
            self.run_all::<false>(program, steps)
        }
    }

    /// Whether it knows in which rounds the pairs would fire that it runs.
    fn is_stamped(&self) -> bool {
        self.tables.stamps.is_on()
    }

    /// The same where it is known whether pairs are stamped.
    fn run_all<const STAMPED: bool>(
        &mut self,
        program: &Program,
        steps: u64,
    ) -> Result<Ended, MachineFault>
        requires arities { self.old.arities ≡ program.now.arities }
        requires few { self.old.interactions + steps < 2 ^ 64 }
        ensures ran { Ran program.now self.old self.new }
        ensures at_most { self.new.interactions ≤ self.old.interactions + steps }
        ensures quiet { result ≡ Ok Ended.Quiet → self.new.pending ≡ [] }
        ensures all { result ≡ Ok Ended.Steps
            → self.new.interactions ≡ self.old.interactions + steps }
        ensures more { result ≡ Ok Ended.Steps → HasNext program.now self.new.pending }
        ensures separate { IsSeparate self.new.arities self.new.interface (pieces self.new) }
        ensures places { AllByRecursion IsAtPlace self.new.places }
        ensures pairs { AllByRecursion IsPair self.new.pending }
        ensures limit { result ≡ Err MachineFault.Limit
            → (next : HasNext program.now self.new.pending) × IsFull next.active.plan self.new }
        ensures early { result ≡ Err MachineFault.Limit
            → self.new.interactions < self.old.interactions + steps }
        ensures broken { OnErr result (self.new.pending ≢ []) }
    {
        let mut left = steps;
        while left > 0 {
            if !self.step::<STAMPED>(program)? {
                return Ok(Ended::Quiet);
            }
            left -= 1;
            left -= self.run_spare::<STAMPED>(program, left);
        }
        if self.is_quiet(program)? {
            Ok(Ended::Quiet)
        } else {
            Ok(Ended::Steps)
        }
    }

    /// Fires the last pending pair, as long as it has a plan and memory is spare, so many times at most. Answers how many have fired.
    fn run_spare<const STAMPED: bool>(&mut self, program: &Program, steps: u64) -> u64
        requires arities { self.old.arities ≡ program.now.arities }
        requires few { self.old.interactions + steps < 2 ^ 64 }
        ensures ran { Ran program.now self.old self.new }
        ensures fired { self.new.interactions ≡ self.old.interactions + result }
        ensures within { result ≤ steps }
    {
        let Some(most) = program.most() else {
            return 0;
        };
        let times = self.tables.spare_for(most, steps);
        if times == 0 {
            return 0;
        }
        let fired = self
            .tables
            .fire_each::<STAMPED>(program, &mut self.counts, most, times);
        // What a pair without a plan left over is spare again.
        self.tables.spare += (times - fired) as usize * most;
        self.interactions += fired;
        fired
    }

    /// Fires the last pending pair that has a plan, if there is one. Those that come after it are set aside.
    fn step<const STAMPED: bool>(&mut self, program: &Program) -> Result<bool, MachineFault>
        requires arities { self.old.arities ≡ program.now.arities }
        requires few { self.old.interactions + 1 < 2 ^ 64 }
        ensures ran { Ran program.now self.old self.new }
        ensures fired { result ≡ Ok true
            → self.new.interactions ≡ self.old.interactions + 1 }
        ensures none { result ≡ Ok false → (self.new.pending ≡ [])
            × (self.new.interactions ≡ self.old.interactions) }
        ensures err { OnErr result (self.new.interactions ≡ self.old.interactions) }
        ensures separate { IsSeparate self.new.arities self.new.interface (pieces self.new) }
        ensures places { AllByRecursion IsAtPlace self.new.places }
        ensures pairs { AllByRecursion IsPair self.new.pending }
        ensures limit { result ≡ Err MachineFault.Limit
            → (next : HasNext program.now self.new.pending) × IsFull next.active.plan self.new }
        ensures broken { OnErr result (self.new.pending ≢ []) }
    {
        let found = find_plan(program, &mut self.tables.pending, &mut self.aside)?;
        let Some((pair, number)) = found else {
            return Ok(false);
        };
        self.tables
            .fire_last::<STAMPED>(pair, program.plan_at(number))?;
        self.interactions += 1;
        count(&mut self.counts, number);
        Ok(true)
    }

    /// Takes the first pending pair: it fires if it has a plan, and is set aside if it has none. Those that come of it stand after
    /// all others. Where it is broken off, the net is that before.
    pub fn take_first(&mut self, program: &Program) -> Result<bool, MachineFault>
        requires arities { self.old.arities ≡ program.now.arities }
        requires few { self.old.interactions + 1 < 2 ^ 64 }
        requires some { 1 ≤ length self.old.pending }
        ensures ran { Ran program.now self.old self.new }
        ensures taken { OnOk result (TakesFirst program.now self.old self.new) }
        ensures fired { result ≡ Ok true
            → self.new.interactions ≡ self.old.interactions + 1 }
        ensures aside { result ≡ Ok false → self.new.interactions ≡ self.old.interactions }
        ensures err { OnErr result (self.new.interactions ≡ self.old.interactions) }
        ensures same { OnErr result (self.new.pending ≡ self.old.pending) }
        ensures held { OnErr result ((later : List AnyEquation)
            → beside later self.new ≡ beside later self.old) }
        ensures separate { IsSeparate self.new.arities self.new.interface (pieces self.new) }
        ensures limit { result ≡ Err MachineFault.Limit → (pair : Equation) × (rest : List Equation)
            × (self.old.pending ≡ pair ∷ rest)
            × ((active : IsActive program.now pair) × IsFull active.plan self.new) }
    {
        let pair = self.tables.pending.first();
        let Some(number) = program.number_for(pair) else {
            set_aside(pair, &mut self.aside)?;
            self.tables.pending.take_first();
            return Ok(false);
        };
        self.tables.fire_first(pair, program.plan_at(number))?;
        self.interactions += 1;
        count(&mut self.counts, number);
        Ok(true)
    }

    /// Whether no pending pair has a plan. Those that come after the last one that has are set aside.
    fn is_quiet(&mut self, program: &Program) -> Result<bool, MachineFault>
        requires arities { self.old.arities ≡ program.now.arities }
        ensures ran { Ran program.now self.old self.new }
        ensures interactions { self.new.interactions ≡ self.old.interactions }
        ensures quiet { result ≡ Ok true → self.new.pending ≡ [] }
        ensures more { result ≡ Ok false → HasNext program.now self.new.pending }
        ensures separate { IsSeparate self.new.arities self.new.interface (pieces self.new) }
        ensures places { AllByRecursion IsAtPlace self.new.places }
        ensures pairs { AllByRecursion IsPair self.new.pending }
        ensures limit { result ≢ Err MachineFault.Limit }
        ensures broken { OnErr result (self.new.pending ≢ []) }
    {
        let found = find_plan(program, &mut self.tables.pending, &mut self.aside)?;
        Ok(found.is_none())
    }

    /// Puts names through: one that waits for another, for which a word waits, waits for this word from now on, and the place
    /// of the other is free. A pass over the names.
    pub fn sweep(&mut self)
        ensures ran { (p : Plans) → Ran p self.old self.new }
        ensures same { self.new ≡ record self.old { places = self.new.places } }
        ensures steps { (p : Plans) (rest : List AnyPiece)
            → Steps p [] (self.old.places ++ rest) (self.new.places ++ rest) }
        ensures through { ArePutThrough self.new.places }
        ensures fewer { length self.new.places ≤ length self.old.places }
        ensures places { AllByRecursion IsAtPlace self.new.places }
        ensures separate { IsSeparate self.new.arities self.new.interface (pieces self.new) }
    {
        sweep(&mut self.tables.names, &mut self.tables.stamps);
    }

    /// How many names there are, the free ones too.
    pub fn names(&self) -> u64
        ensures count { result ≡ self.now.names }
        ensures few { result < 2 ^ 32 }
    {
        self.tables.names.len() as u64
    }

    /// How many names are in use.
    pub fn names_in_use(&self) -> u64
        ensures count { result ≡ in_use NAME self.now.places }
        ensures few { result < 2 ^ 32 }
    {
        self.tables.names.used() as u64
    }

    /// The words of the interface.
    pub fn interface(&self) -> &[Word]
        ensures { result.now ≡ self.now.interface }
    {
        self.interface.as_slice()
    }

    /// The pairs that are still to be looked at.
    pub fn pending(&self) -> &[Equation]
        ensures { result.now ≡ self.now.pending }
    {
        self.tables.pending.as_slice()
    }

    /// The pairs that were set aside, since they have no plan.
    pub fn aside(&self) -> &[Equation]
        ensures { result.now ≡ self.now.aside }
    {
        self.aside.as_slice()
    }

    /// How many pairs have fired.
    pub fn interactions(&self) -> u64
        ensures { result ≡ self.now.interactions }
    {
        self.interactions
    }

    /// How often each plan of the program has fired, by its number.
    pub fn fired(&self) -> &[u64]
        ensures { result.now ≡ self.now.counts }
    {
        self.counts.as_slice()
    }

    /// The word that waits for a name, if one does.
    pub fn waiting(&self, name: u32) -> Option<Word>
        ensures found { IfSome result (λ w. Contains self.now.places (waits (name_word name) w)) }
        ensures none { IfNone result ((w : AnyWord)
            → ¬ Contains self.now.places (waits (name_word name) w)) }
    {
        if self.tables.names.len() <= name as usize {
            return None;
        }
        let word = self.tables.names.get(name);
        if word.tag < IDLE { Some(word) } else { None }
    }

    /// What the arguments of an agent begin with.
    pub fn arguments(&self, agent: Word) -> &[Word]
        requires some { 1 ≤ agent.tag }
        requires known { agent.tag ≤ length self.now.arities }
        requires there { 1 ≤ sum_by (room agent) self.now.places }
        ensures { Contains self.now.places (agent_of agent result.now) }
    {
        self.tables.heaps[agent.tag as usize - 1].get(agent.index)
    }

    /// How many places there are, the free ones too: names, and blocks of agents. A pass over the symbols.
    pub fn places(&self) -> u64
        ensures count { result ≡ self.now.names + sum self.now.agents }
        ensures pieces { length self.now.places ≤ result }
    {
        count_places(&self.tables.names, &self.tables.heaps)
    }

    /// How many equations are left: those that are pending, and those that were set aside.
    pub fn equations_left(&self) -> u64
        ensures { result ≡ equations_left self.now }
    {
        let pending = self.tables.pending.len() as u64;
        let aside = self.aside.len() as u64;
        pending + aside
    }

    /// Counts what another machine has fired as its own.
    pub fn count_also(&mut self, other: &Machine)
        requires few { self.old.interactions + other.now.interactions < 2 ^ 64 }
        requires plans { length other.now.counts ≡ length self.old.counts }
        ensures interactions { self.new.interactions
            ≡ self.old.interactions + other.now.interactions }
        ensures counts { (i : ℕ) → slice_index_or self.new.counts i 0
            ≡ slice_index_or self.old.counts i 0 + slice_index_or other.now.counts i 0 }
        ensures plans { length self.new.counts ≡ length self.old.counts }
        ensures same { self.new ≡ record self.old {
          interactions = self.new.interactions;
          counts = self.new.counts;
        } }
    {
        self.interactions += other.interactions;
        add_each(&mut self.counts, &other.counts);
        self.tables.stamps.add_all(&other.tables.stamps);
    }

    /// How many of the pairs that `run` has fired would have fired in each round, from the first one on, if it knows that: it was
    /// to know it, and memory wasn't refused for that. It is told once.
    pub fn take_rounds(&mut self, alloc: Global) -> Option<Vec<u64>>
        ensures { self.new ≡ self.old }
    {
        self.tables.stamps.take_fired(alloc)
    }

    /// Takes the machine apart.
    pub fn into_parts(self) -> Parts
        ensures interface { result.interface.items ≡ self.interface }
        ensures pending { result.pending.items ≡ self.pending }
        ensures aside { result.aside.items ≡ self.aside }
        ensures arities { result.places.arities ≡ self.arities }
        ensures pieces { result.places.pieces ≡ self.places }
        ensures names { result.places.names ≡ self.names }
        ensures agents { result.places.agents ≡ self.agents }
        ensures counts { result.counts.items ≡ self.counts }
    {
        let tables = self.tables;
        Parts {
            interface: self.interface,
            pending: tables.pending.into_vec(),
            aside: self.aside,
            places: Places::from_tables(tables.names, tables.heaps),
            counts: self.counts,
        }
    }
}

/// The last pending pair that has a plan, with the number of its plan. Those that come after it are set aside.
#[inline(always)]
fn find_plan(
    program: &Program,
    pending: &mut Queue,
    aside: &mut Vec<Equation>,
) -> Result<Option<(Equation, u32)>, MachineFault>
    requires { AllByRecursion IsPair pending.old.items }
    ensures memory { pending.new.capacity ≡ pending.old.capacity }
    ensures passed { Passed program.now
        pending.old.items aside.old.items pending.new.items aside.new.items }
    ensures found { IfOk result (λ o. MatchOption o (pending.new.items ≡ [])
        (λ f. IsLast f.0 pending.new.items × HasNumber program.now f.0 f.1)) }
    ensures limit { result ≢ Err MachineFault.Limit }
    ensures broken { OnErr result (pending.new.items ≢ []) }
{
    while let Some(pair) = pending.last() {
        if let Some(number) = program.number_for(pair) {
            return Ok(Some((pair, number)));
        }
        if aside.push(pair).is_err() {
            return Err(MachineFault::Memory);
        }
        pending.pop();
    }
    Ok(None)
}

/// Sets a pair aside.
fn set_aside(pair: Equation, aside: &mut Vec<Equation>) -> Result<(), MachineFault>
    ensures aside { OnOk result (aside.new.items ≡ aside.old.items ++ pair ∷ []) }
    ensures none { OnErr result (aside.new.items ≡ aside.old.items) }
    ensures limit { result ≢ Err MachineFault.Limit }
{
    if aside.push(pair).is_err() {
        return Err(MachineFault::Memory);
    }
    Ok(())
}

/// Counts a plan that has fired, if it is one of those that are counted.
#[inline(always)]
fn count(counts: &mut Vec<u64>, number: u32)
    requires { AllByRecursion (λ k. k + 1 < 2 ^ 64) counts.old.items }
    ensures { Counted (number ∷ []) counts.old.items counts.new.items }
{
    if (number as usize) < counts.len() {
        counts[number as usize] += 1;
    }
}

/// Counts a plan that has fired, which is one of those that are counted.
#[inline(always)]
pub(crate) fn count_at(counts: &mut Vec<u64>, number: u32)
    requires there { number < length counts.old.items }
    requires few { AllByRecursion (λ k. k + 1 < 2 ^ 64) counts.old.items }
    ensures { Counted (number ∷ []) counts.old.items counts.new.items }
{
    counts[number as usize] += 1;
}

/// Adds numbers to others, place by place.
fn add_each(counts: &mut Vec<u64>, more: &[u64])
    requires len { length more.now ≡ length counts.old.items }
    requires few { (i : ℕ) → slice_index_or counts.old.items i 0
        + slice_index_or more.now i 0 < 2 ^ 64 }
    ensures sums { (i : ℕ) → slice_index_or counts.new.items i 0
        ≡ slice_index_or counts.old.items i 0 + slice_index_or more.now i 0 }
    ensures len { length counts.new.items ≡ length counts.old.items }
{
    for place in 0..counts.len() {
        counts[place] += more[place];
    }
}

/// A count of 0 for each plan.
pub(crate) fn no_counts(alloc: Global, plans: &[Plan]) -> Result<Vec<u64>, AllocError>
    ensures { IfOk result (λ v. v.items ≡ map (λ plan. 0) plans.now) }
{
    let mut counts = Vec::with_capacity(alloc, plans.len())?;
    for plan in plans {
        counts.push_reserved(0u64);
    }
    Ok(counts)
}

/// The words in these registers.
pub(crate) fn words_at(
    alloc: Global,
    registers: &[Word],
    places: &[u32],
) -> Result<Vec<Word>, AllocError>
    requires { AllByRecursion (λ k. k < length registers.now) places.now }
    ensures { IfOk result (λ v. v.items ≡ map (register registers.now) places.now) }
{
    let mut words = Vec::with_capacity(alloc, places.len())?;
    for place in places {
        words.push_reserved(registers[*place as usize]);
    }
    Ok(words)
}

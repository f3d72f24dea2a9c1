//! A part of a net with a machine of its own, which is kept from step to step.

ghost use Rattle.std.specs.Prelude.{◌≡◌, ◌≢◌, ℕ, ◌+◌, ◌^◌, ◌<◌, ◌≤◌, [], None, true, IfOk, length};
ghost use Rattle.ic_arena.specs.declared.word.TheConstants.{GIVEN};
ghost use Rattle.ic_machine.specs.Plan.{ArePlans};
ghost use Rattle.ic_workers.specs.inner.HandsOn.{HasWorked, IsBare};
ghost use Rattle.ic_workers.specs.inner.Keeping.{part_of, parts_in, HandWorked, HasWork, IsKept, IsReady, MayTurn, TakesTurn};

use crate::gain::nanos;
use ic_in_place::{names_until_sweep, sweep_if_due};
use ic_machine::{Borders, Machine, MachineFault, Program, Told};
use std::alloc::{AllocError, Global};
use std::sync::atomic::{AtomicBool, Ordering};
use std::time::Clock;

/// Nodes of a tree are counted up to so many before it is handed on.
pub(crate) const MOST_NODES: usize = 2_000;

/// Interactions of a part at a time, at least.
const LEAST: u64 = 500;

/// Interactions of a part at a time, at most.
const MOST: u64 = 10_000;

/// A part of a net.
#[derive(Drop)]
pub(crate) struct Kept {
    /// The number of its room, and of its slot at the desk.
    pub(crate) number: u32,
    pub(crate) machine: Machine,
    pub(crate) borders: Borders,
    /// Borders for which a word waits since the last step.
    pub(crate) told: Vec<Told>,
    /// Interactions in the last step.
    pub(crate) last: u64,
    /// How many names may be in use before they are put through.
    names: u64,
    /// Its machine has stopped for this.
    pub(crate) fault: Option<MachineFault>,
}

impl Kept {
    pub(crate) fn new(alloc: Global, machine: Machine, number: u32, numbers: u32) -> Kept
        requires { 1 ≤ numbers }
        ensures { part_of result ≡ record {
          number = number;
          net = machine;
          borders = record { ends = []; ended = []; next = number; step = numbers };
        } }
    {
        let names = names_until_sweep(&machine);
        Kept {
            number,
            names,
            machine,
            borders: Borders::new(alloc, number, numbers),
            told: Vec::new(alloc),
            last: u64::MAX,
            fault: None,
        }
    }

    /// Whether something is to be done here.
    pub(crate) fn has_work(&self) -> bool
        ensures { result ≡ true → HasWork self.now }
    {
        self.fault.is_none() && !self.machine.pending().is_empty()
    }

    /// How many interactions it has made in the last step. A part that had no turn may have much to do.
    pub(crate) fn last_made(&self) -> u64 {
        if self.last == 0 { u64::MAX } else { self.last }
    }

    /// Makes so many interactions at most.
    fn run(&mut self, program: &Program, steps: u64) -> u64
        requires sound { ArePlans program.now }
        requires kept { IsKept program.now (part_of self.old) }
        requires few { self.old.machine.interactions + steps < 2 ^ 64 }
        ensures worked { HasWorked program.now (part_of self.old) (part_of self.new) }
        ensures kept { IsKept program.now (part_of self.new) }
        ensures made { self.new.machine.interactions
            ≡ self.old.machine.interactions + result }
        ensures within { result ≤ steps }
        // Where something is still to be done, all that it might make was made.
        ensures all { HasWork self.new → result ≡ steps }
    {
        let before = self.machine.interactions();
        let ended = self.machine.run(program, steps);
        self.names = sweep_if_due(&mut self.machine, self.names);
        self.fault = ended.err().or(self.fault);
        self.machine.interactions() - before
    }

    /// Tells the borders for which a word waits since the last step.
    pub(crate) fn tell(&mut self, alloc: Global)
        ensures { part_of self.new ≡ part_of self.old }
    {
        let told = self
            .machine
            .tell(alloc, &mut self.borders, MOST_NODES, &mut self.told);
        if told.is_err() {
            self.fault = Some(MachineFault::Memory);
        }
    }
}

/// Parts in the hand of a worker, for one step.
#[derive(Drop)]
pub(crate) struct Hand {
    pub(crate) parts: Vec<Kept>,
    /// Interactions of all at most.
    pub(crate) budget: u64,
    /// Interactions that were made.
    pub(crate) made: u64,
    /// Nanoseconds for which parts ran.
    pub(crate) ran: u64,
}

impl Hand {
    pub(crate) fn new(alloc: Global, budget: u64) -> Hand
        ensures none { parts_in result ≡ [] }
        ensures budget { result.budget ≡ budget }
        ensures made { result.made ≡ 0 }
    {
        Hand {
            parts: Vec::new(alloc),
            budget,
            made: 0,
            ran: 0,
        }
    }

    /// Runs the parts in turn, and rings the bell at the end.
    pub(crate) fn work<C: Clock>(
        &mut self,
        alloc: Global,
        program: &Program,
        bell: &AtomicBool,
        clock: &C,
    )
        requires { IsReady program.now self.old }
        ensures { HandWorked program.now self.old self.new }
    {
        self.forget();
        let begun = nanos(clock);
        self.take_turns(program, bell);
        self.ran = nanos(clock).saturating_sub(begun);
        bell.store(true, Ordering::SeqCst);
        self.tell(alloc);
    }

    /// Counts the interactions of the next step from 0 on.
    fn forget(&mut self)
        ensures parts { parts_in self.new ≡ parts_in self.old }
        ensures same { (self.new.budget ≡ self.old.budget) × (self.new.made ≡ self.old.made) }
    {
        for place in 0..self.parts.len() {
            self.parts[place].last = 0;
        }
    }

    /// Takes turns until nothing is left to do, or as many interactions were made as may be, or the bell has rung.
    fn take_turns(&mut self, program: &Program, bell: &AtomicBool)
        requires { IsReady program.now self.old }
        ensures { HandWorked program.now self.old self.new }
    {
        let count = (self.parts.len() as u64).max(1);
        let slice = (self.budget / count).min(MOST).max(LEAST);
        'turns: loop {
            if !self.take_turn(program, slice, bell) {
                break;
            }
        }
    }

    /// Lets each part make so many interactions. Whether there is more to do: not where the bell has rung and an eighth of what
    /// may be made was made.
    fn take_turn(&mut self, program: &Program, slice: u64, bell: &AtomicBool) -> bool
        requires may { MayTurn program.now self.old }
        requires some { 1 ≤ slice }
        ensures turn { TakesTurn program.now self.old self.new }
        // A turn after which there is more to do has made at least one interaction, so turns come to an end.
        ensures more { result ≡ true → self.old.made < self.new.made }
    {
        let mut goes_on = false;
        for place in 0..self.parts.len() {
            if self.made >= self.budget / 8 && bell.load(Ordering::SeqCst) {
                return false;
            }
            let more = self.run_part(program, place, slice);
            goes_on = goes_on || more;
        }
        goes_on
    }

    /// Lets a part make so many interactions. Whether it has more to do.
    fn run_part(&mut self, program: &Program, place: usize, slice: u64) -> bool
        requires there { place < length self.old.parts.items }
        requires may { MayTurn program.now self.old }
        requires some { 1 ≤ slice }
        ensures turn { TakesTurn program.now self.old self.new }
        ensures more { result ≡ true → self.old.made < self.new.made }
    {
        let left = self.budget - self.made;
        if left == 0 || !self.parts[place].has_work() {
            return false;
        }
        let made = self.parts[place].run(program, slice.min(left));
        let last = self.parts[place].last;
        self.parts[place].last = last.saturating_add(made);
        self.made += made;
        self.parts[place].has_work()
    }

    /// Has each part tell its borders for which a word waits.
    fn tell(&mut self, alloc: Global)
        ensures parts { parts_in self.new ≡ parts_in self.old }
        ensures same { (self.new.budget ≡ self.old.budget) × (self.new.made ≡ self.old.made) }
    {
        for place in 0..self.parts.len() {
            self.parts[place].tell(alloc);
        }
    }
}

/// A part with nothing in it.
pub(crate) fn empty_part(
    alloc: Global,
    program: &Program,
    number: usize,
    numbers: u32,
) -> Result<Kept, AllocError>
    requires symbols { length program.now.arities < GIVEN }
    requires few { number < 512 }
    requires numbers { 1 ≤ numbers }
    ensures bare { IfOk result (λ k. IsBare (part_of k)) }
    ensures kept { IfOk result (λ k. IsKept program.now (part_of k)) }
    ensures number { IfOk result (λ k. k.number ≡ number) }
    ensures borders { IfOk result (λ k. k.borders
        ≡ record { ends = []; ended = []; next = number; step = numbers }) }
{
    let machine = Machine::empty(alloc, program)?;
    Ok(Kept::new(alloc, machine, number as u32, numbers))
}

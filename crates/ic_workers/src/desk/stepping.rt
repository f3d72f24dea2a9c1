//! Steps of threads, and what is shared before them.

ghost use Rattle.std.specs.Prelude.{◌≡◌, ℕ, ◌+◌, ◌^◌, ◌<◌, ◌≤◌, ◌++◌, [], ◌∷◌, length, map, IfOk, OnOk, IsPermutation};
ghost use Rattle.std.specs.List.{AllByRecursion};
ghost use Rattle.ic_machine.specs.Net.{IsStuck};
ghost use Rattle.ic_machine.specs.Plan.{ArePlans};
ghost use Rattle.ic_meaning.specs.Plans.{ArePlansOf};
ghost use Rattle.ic_in_place.specs.Stopping.{arities_of, HasCome, IsSound};
ghost use Rattle.ic_workers.specs.inner.HandsOn.{Come, IsAllOf};
ghost use Rattle.ic_workers.specs.inner.Keeping.{parts_at, parts_in_all, slots_at, whole, AreAt, AreFit, HandWorked, HandsWorked, IsDesk, IsIdle, IsKept, IsReady};

use super::{Desk, Due, MOST_PARTS};
use crate::gain::{Gain, Ran, nanos};
use crate::kept::Hand;
use crate::laws::what_parts_come_to_is_reached;
use crate::policy::Policy;
use ic_flat::WideSystem;
use ic_in_place::laws::a_run_that_goes_on_stops_by_the_bounds_of_all;
use ic_in_place::{Bounds, Gauge, Stopped, Watch, no_counts, run_in_pieces, sum_by_rule};
use ic_machine::{Machine, Program};
use ic_plans::{begin, compile};
use std::alloc::{AllocError, Global};
use std::sync::atomic::AtomicBool;
use std::thread::{self, Threads};
use std::time::Clock;

/// Interactions for each worker without which no step is taken.
const LEAST_LEFT: u64 = 1_000;

/// Reduces a system by several threads until an end comes. One thread shares nothing.
pub fn run_by_workers<R: Threads + Sync, C: Clock + Sync, V: Watch>(
    rt: &R,
    clock: &C,
    alloc: Global,
    system: &WideSystem,
    policy: Policy,
    bounds: Bounds,
    watch: &V,
) -> Result<Stopped, AllocError>
    ensures { IfOk result (λ stopped. HasCome system.now bounds stopped.given.items
        stopped.by_rule.items stopped.machine stopped.end) }
{
    let (program, numbers) = compile(alloc, system.rules())?;
    run_compiled(
        rt, clock, alloc, system, &program, &numbers, policy, bounds, watch,
    )
}

/// The same, where the rules of the system are compiled. Its caller drops them: each `?` here would, and make the proof long.
fn run_compiled<R: Threads + Sync, C: Clock + Sync, V: Watch>(
    rt: &R,
    clock: &C,
    alloc: Global,
    system: &WideSystem,
    program: &Program,
    numbers: &[u32],
    policy: Policy,
    bounds: Bounds,
    watch: &V,
) -> Result<Stopped, AllocError>
    requires arities { program.now.arities ≡ arities_of system.now }
    requires sound { ArePlans program.now }
    requires numbers { length numbers.now ≡ length program.now.plans }
    requires plans { ArePlansOf system.now.rules numbers.now program.now }
    ensures { IfOk result (λ stopped. HasCome system.now bounds stopped.given.items
        stopped.by_rule.items stopped.machine stopped.end) }
{
    what_parts_come_to_is_reached();
    a_run_that_goes_on_stops_by_the_bounds_of_all();
    systems_are_sound(system);
    let (machine, first) = begin(alloc, program, system, watch.wants_rounds())?;
    let gauge = Gauge::new(alloc, system, &first, numbers, bounds.nodes)?;
    let mut machine = run_parts(
        rt,
        clock,
        alloc,
        program,
        machine,
        policy,
        &gauge,
        bounds.steps,
        watch,
    )?;
    let shared = machine.interactions();
    let left = bounds.steps.saturating_sub(shared);
    let mut by_rule = no_counts(alloc, system.rules().rules().len())?;
    let end = run_in_pieces(&mut machine, program, &gauge, left, watch);
    sum_by_rule(&mut by_rule, numbers, machine.fired());
    let nodes = gauge.nodes(&machine);
    let by_round = machine.take_rounds(alloc);
    Ok(Stopped {
        machine,
        given: first.given,
        by_rule,
        nodes,
        shared,
        by_round,
        end,
    })
}

/// Has threads run the parts of what a machine has, if there are several threads, by so many interactions at most. It answers a
/// machine that has all parts.
fn run_parts<R: Threads + Sync, C: Clock + Sync, V: Watch>(
    rt: &R,
    clock: &C,
    alloc: Global,
    program: &Program,
    machine: Machine,
    policy: Policy,
    gauge: &Gauge,
    most: u64,
    watch: &V,
) -> Result<Machine, AllocError>
    requires fit { AreFit program.now }
    requires kept { IsKept program.now (whole machine) }
    requires none { machine.interactions ≡ 0 }
    ensures all { IfOk result (IsAllOf program.now (whole machine ∷ [])) }
    ensures kept { IfOk result (λ all. (all.arities ≡ program.now.arities)
        × AllByRecursion (IsStuck program.now) all.aside) }
    ensures within { IfOk result (λ all. all.interactions ≤ most) }
{
    let mut desk = Desk::new(alloc, machine, policy.workers)?;
    desk.run_in_parts(rt, clock, alloc, program, policy, gauge, most, watch)?;
    desk.sharing.tell(watch);
    desk.put_together(alloc)
}

/// Systems keep what their rules and their configurations do.
fn systems_are_sound(system: &WideSystem)
    ensures { IsSound system.now }
{
    let nodes = system.config().nodes();
    let symbols = system.rules().symbols().len();
}

impl Desk {
    /// Divides the net into parts, and has threads run these, if there are several threads.
    fn run_in_parts<R: Threads + Sync, C: Clock + Sync, V: Watch>(
        &mut self,
        rt: &R,
        clock: &C,
        alloc: Global,
        program: &Program,
        policy: Policy,
        gauge: &Gauge,
        most: u64,
        watch: &V,
    ) -> Result<(), AllocError>
        requires desk { IsDesk program.now self.old }
        requires some { 1 ≤ length self.old.parts.items }
        requires within { self.old.made ≤ most }
        ensures come { OnOk result
            (Come program.now (parts_at self.old) (parts_at self.new)) }
        ensures desk { OnOk result (IsDesk program.now self.new) }
        ensures within { OnOk result (self.new.made ≤ most) }
    {
        if policy.workers <= 1 {
            return Ok(());
        }
        let near = policy.early.min(gauge.room(self.nodes(gauge)));
        let steps = near.min(most - self.made);
        self.run_alone(clock, alloc, program, 0, steps)?;
        let each = policy.nodes_each(self.nodes(gauge)) as usize;
        self.spread(alloc, program, policy, each)?;
        self.divide(clock, alloc, program, policy, gauge, most)?;
        self.take_steps(rt, clock, alloc, program, policy, gauge, most, watch)
    }

    /// Gives the oldest pairs of the first part to new ones: to each as many as have fewer nodes below them than each is to get,
    /// or one. So a large net is divided that has few pairs, with much below each.
    fn spread(
        &mut self,
        alloc: Global,
        program: &Program,
        policy: Policy,
        each: usize,
    ) -> Result<(), AllocError>
        requires desk { IsDesk program.now self.old }
        requires some { 1 ≤ length self.old.parts.items }
        ensures come { OnOk result
            (Come program.now (parts_at self.old) (parts_at self.new)) }
        ensures desk { OnOk result (IsDesk program.now self.new) }
        ensures made { self.new.made ≡ self.old.made }
    {
        for _ in 1..policy.large {
            let pairs = self.pending(0);
            let to = self.parts.len();
            if each == 0 || pairs < 2 || to >= MOST_PARTS {
                return Ok(());
            }
            let few = self.within(alloc, 0, pairs - 1, each)?;
            self.add(alloc, program)?;
            self.share(alloc, 0, to, few.max(1))?;
        }
        Ok(())
    }

    /// Makes the first parts, in this thread.
    fn divide<C: Clock>(
        &mut self,
        clock: &C,
        alloc: Global,
        program: &Program,
        policy: Policy,
        gauge: &Gauge,
        most: u64,
    ) -> Result<(), AllocError>
        requires desk { IsDesk program.now self.old }
        requires within { self.old.made ≤ most }
        ensures come { OnOk result
            (Come program.now (parts_at self.old) (parts_at self.new)) }
        ensures desk { OnOk result (IsDesk program.now self.new) }
        ensures within { OnOk result (self.new.made ≤ most) }
    {
        let mut next = 0;
        for _ in 0..policy.parts.saturating_mul(40) {
            if self.parts.len() >= policy.parts.min(MOST_PARTS) {
                return Ok(());
            }
            let Some(part) = self.next_due(next) else {
                return Ok(());
            };
            next = part + 1;
            let some = policy.early.max(self.made_by(part) / 4).max(1);
            let steps = some.min(gauge.room(self.nodes(gauge)));
            if steps == 0 || steps > policy.late || steps > most - self.made {
                return Ok(());
            }
            let pairs = self.first_pairs(alloc, part, policy)?;
            if pairs > 0 {
                let to = self.parts.len();
                self.add(alloc, program)?;
                self.share(alloc, part, to, pairs)?;
            }
            self.run_alone(clock, alloc, program, part, steps)?;
        }
        Ok(())
    }

    /// Runs a part in this thread.
    fn run_alone<C: Clock>(
        &mut self,
        clock: &C,
        alloc: Global,
        program: &Program,
        part: usize,
        steps: u64,
    ) -> Result<(), AllocError>
        requires desk { IsDesk program.now self.old }
        requires there { part < length self.old.parts.items }
        requires few { self.old.made + steps < 2 ^ 64 }
        ensures come { OnOk result
            (Come program.now (parts_at self.old) (parts_at self.new)) }
        ensures desk { OnOk result (IsDesk program.now self.new) }
        ensures within { OnOk result (self.new.made ≤ self.old.made + steps) }
        ensures len { OnOk result
            (length self.new.parts.items ≡ length self.old.parts.items) }
    {
        let mut hand = Hand::new(alloc, steps);
        self.put_in(&mut hand, part)?;
        let bell = AtomicBool::new(false);
        hand.work(alloc, program, &bell, clock);
        self.take_back(hand);
        let mut parts = Vec::new(alloc);
        parts.push(part)?;
        self.meet(alloc, parts)
    }

    /// Shares until as many parts as workers have much to do, as far as there are pairs with little below them.
    fn feed(&mut self, alloc: Global, program: &Program, policy: Policy) -> Result<(), AllocError>
        requires desk { IsDesk program.now self.old }
        ensures come { OnOk result
            (Come program.now (parts_at self.old) (parts_at self.new)) }
        ensures desk { OnOk result (IsDesk program.now self.new) }
        ensures made { self.new.made ≡ self.old.made }
    {
        let mut busy = self.busy_or_due(alloc, policy)?;
        let mut tried = 0;
        for _ in 0..4 * MOST_PARTS {
            if busy.len() >= policy.wanted || tried >= busy.len() {
                return Ok(());
            }
            let part = busy[tried];
            let pairs = self.light(alloc, part, policy, self.few_nodes(part))?;
            if pairs == 0 {
                tried += 1;
            } else {
                let Some(to) = self.spare(alloc, program, part)? else {
                    return Ok(());
                };
                self.share(alloc, part, to, pairs)?;
                busy.push(to)?;
                tried = (tried + 1) % busy.len();
            }
        }
        Ok(())
    }

    /// The parts that have much to do, or if there are none, all that have something to do.
    fn busy_or_due(&self, alloc: Global, policy: Policy) -> Result<Vec<usize>, AllocError>
        ensures { IfOk result (λ parts.
            AllByRecursion (λ k. k < length self.now.parts.items) parts.items) }
    {
        let busy = self.busy(alloc, policy.busy)?;
        if busy.is_empty() {
            return self.busy(alloc, 0);
        }
        Ok(busy)
    }

    /// Takes steps until nothing is left to do, or that brings too little. Before each of them it is seen how many names and
    /// agents all parts have together. A step makes no more interactions than keep to the bound of these.
    fn take_steps<R: Threads + Sync, C: Clock + Sync, V: Watch>(
        &mut self,
        rt: &R,
        clock: &C,
        alloc: Global,
        program: &Program,
        policy: Policy,
        gauge: &Gauge,
        most: u64,
        watch: &V,
    ) -> Result<(), AllocError>
        requires desk { IsDesk program.now self.old }
        requires workers { 1 ≤ policy.workers }
        requires within { self.old.made ≤ most }
        ensures come { OnOk result
            (Come program.now (parts_at self.old) (parts_at self.new)) }
        ensures desk { OnOk result (IsDesk program.now self.new) }
        ensures within { OnOk result (self.new.made ≤ most) }
    {
        let least = LEAST_LEFT.saturating_mul(policy.workers as u64);
        let mut gain = Gain::from(nanos(clock));
        for _ in 0..1_000_000u64 {
            let nodes = self.nodes(gauge);
            self.feed(alloc, program, policy)?;
            let due = self.due(alloc)?;
            let left = gauge.room(nodes).min(most - self.made);
            if due.is_empty() || left < least || self.has_fault() {
                return Ok(());
            }
            watch.saw(self.made, nodes);
            let ran = self.take_step(rt, clock, alloc, program, policy, &due, left)?;
            let took = gain.count(nanos(clock), ran, policy);
            self.sharing.count_time(took, ran, policy);
            if !gain.is_enough(policy) {
                return Ok(());
            }
        }
        Ok(())
    }

    /// Deals the parts that are due to hands, has threads run these, and hands on what was told. All together make so many
    /// interactions at most. Answers how long hands ran.
    fn take_step<R: Threads + Sync, C: Clock + Sync>(
        &mut self,
        rt: &R,
        clock: &C,
        alloc: Global,
        program: &Program,
        policy: Policy,
        due: &[Due],
        left: u64,
    ) -> Result<Ran, AllocError>
        requires desk { IsDesk program.now self.old }
        requires workers { 1 ≤ policy.workers }
        requires some { 1 ≤ length due.now }
        requires there { AllByRecursion (λ d. d.part < length self.old.parts.items) due.now }
        requires few { self.old.made + left < 2 ^ 64 }
        ensures come { OnOk result
            (Come program.now (parts_at self.old) (parts_at self.new)) }
        ensures desk { OnOk result (IsDesk program.now self.new) }
        ensures within { OnOk result (self.new.made ≤ self.old.made + left) }
    {
        let count = policy.workers.min(due.len());
        let most = policy.interactions_after(self.made, due.len());
        let budget = most.min(left / (count as u64).max(1));
        let mut hands = empty_hands(alloc, count, budget)?;
        self.deal(due, &mut hands)?;
        run_hands(rt, clock, alloc, program, &mut hands);
        let ran = ran_in(&hands);
        self.sharing.count(&hands);
        self.take_all_back(hands);
        let parts = parts_of_due(alloc, due)?;
        self.meet(alloc, parts)?;
        Ok(ran)
    }

    /// Deals the parts that are due to hands, there and back.
    fn deal(&mut self, due: &[Due], hands: &mut [Hand]) -> Result<(), AllocError>
        requires some { 1 ≤ length hands.old }
        requires there { AllByRecursion (λ d. d.part < length self.old.parts.items) due.now }
        ensures moved { OnOk result (IsPermutation (parts_in_all hands.new ++ parts_at self.new)
            (parts_in_all hands.old ++ parts_at self.old)) }
        ensures idle { (budget : ℕ) → AllByRecursion (IsIdle budget) hands.old
            → AllByRecursion (IsIdle budget) hands.new }
        ensures slots { AreAt 0 (slots_at self.old) → AreAt 0 (slots_at self.new) }
        ensures len { length self.new.parts.items ≡ length self.old.parts.items }
        ensures made { self.new.made ≡ self.old.made }
    {
        let count = hands.len();
        for place in 0..due.len() {
            let hand = hand_at(place, count);
            self.put_in(&mut hands[hand], due[place].part)?;
        }
        Ok(())
    }
}

/// Which of so many hands the part at this place is dealt to: from the first one to the last one, and back again.
fn hand_at(place: usize, count: usize) -> usize
    requires { 1 ≤ count }
    ensures { result < count }
{
    let round = place % count;
    if place / count % 2 == 0 {
        round
    } else {
        count - 1 - round
    }
}

/// So many hands with nothing in them.
fn empty_hands(alloc: Global, count: usize, budget: u64) -> Result<Vec<Hand>, AllocError>
    ensures len { IfOk result (λ hands. length hands.items ≡ count) }
    ensures none { IfOk result (λ hands. parts_in_all hands.items ≡ []) }
    ensures idle { IfOk result (λ hands. AllByRecursion (IsIdle budget) hands.items) }
{
    let mut hands = Vec::new(alloc);
    for _ in 0..count {
        hands.push(Hand::new(alloc, budget))?;
    }
    Ok(hands)
}

/// Has threads run what is in hands, as many threads as there are hands.
fn run_hands<R: Threads + Sync, C: Clock + Sync>(
    rt: &R,
    clock: &C,
    alloc: Global,
    program: &Program,
    hands: &mut [Hand],
)
    requires some { 1 ≤ length hands.old }
    requires ready { AllByRecursion (IsReady program.now) hands.old }
    ensures { HandsWorked program.now hands.old hands.new }
{
    let count = hands.len();
    let bell = AtomicBool::new(false);
    let bell = &bell;
    thread::for_each_mut(
        rt,
        hands,
        count,
        &move |_place: usize, hand: &mut Hand|
            requires { IsReady program.now hand.now }
            ensures { HandWorked program.entry.now hand.entry.now hand.exit.now }
        { hand.work(alloc, program, bell, clock) },
    );
}

/// The parts that are due.
fn parts_of_due(alloc: Global, due: &[Due]) -> Result<Vec<usize>, AllocError>
    ensures { IfOk result (λ parts. parts.items ≡ map (λ d. d.part) due.now) }
{
    due.iter().map(|one| one.part).collect(alloc)
}

/// How long hands have run.
fn ran_in(hands: &[Hand]) -> Ran {
    let mut ran = Ran::none();
    for hand in hands {
        ran = ran.and(hand.ran);
    }
    ran
}

//! A system reduced in place.

ghost use Rattle.std.specs.Prelude.{◌≡◌, IfOk, length};
ghost use Rattle.ic_term.specs.Configuration.{Configuration};
ghost use Rattle.ic_machine.specs.Plan.{ArePlans};
ghost use Rattle.ic_meaning.specs.Plans.{ArePlansOf};
ghost use Rattle.ic_in_place.specs.declared.running.Bounds.{Bounds as AnyBounds};
ghost use Rattle.ic_in_place.specs.Counting.{TellsNameSteps};
ghost use Rattle.ic_in_place.specs.Reducing.{IsPutTogether, IsReached, Writes};
ghost use Rattle.ic_in_place.specs.Holding.{IsNetOf};
ghost use Rattle.ic_in_place.specs.Reductions.{IsReducedTo};
ghost use Rattle.ic_in_place.specs.Stopping.{HasCome, IsSound, arities_of};
ghost use Rattle.ic_in_place.specs.inner.Unwritten.{WritesAlike};

use crate::counting::{name_steps_at, no_counts, sum_by_rule};
use crate::gauge::Gauge;
use crate::running::{Bounds, End, Watch, run_in_pieces};
use crate::writing::words_of;
use ic_flat::{WideSystem, Word};
use ic_machine::{Machine, Program};
use ic_naming::renumbered_words;
use ic_plans::{begin, compile};
use ic_readback::read_back;
use std::alloc::{AllocError, Global};

/// What a system was reduced to, and how far that went.
#[derive(Drop)]
pub struct Reduced {
    /// The words of what was reached, the interface's before the equations'.
    pub words: Vec<Word>,
    /// How many terms the interface has.
    pub terms: usize,
    /// How many equations there are.
    pub equations: usize,
    /// How many interactions were made.
    pub interactions: u64,
    /// How often each rule fired, in the order of the rules.
    pub by_rule: Vec<u64>,
    /// How many steps put a term for a name, told if the end is quiet. Every order makes as many.
    pub name_steps: Option<u64>,
    /// How many names and agents the net had then.
    pub nodes: u64,
    /// How many equations the machine had left then: those that were pending, and those that were set aside.
    pub left: u64,
    /// How many interactions were made before one machine had all: none by one thread.
    pub shared: u64,
    /// How many pairs each round would have fired, from the first one on, if that was to be known and is. It is tried, not proved.
    pub by_round: Option<Vec<u64>>,
    /// Why the reduction ended.
    pub end: End,
}

/// A machine that has stopped, with the names that it was given.
#[derive(Drop)]
pub struct Stopped {
    /// The machine.
    pub machine: Machine,
    /// The names of the configuration that occur once: the machine's given names, in the order of their numbers.
    pub given: Vec<u64>,
    /// How often each rule fired, in the order of the rules.
    pub by_rule: Vec<u64>,
    /// How many names and agents the net has.
    pub nodes: u64,
    /// How many interactions were made before the machine got all that several threads had: none by one thread.
    pub shared: u64,
    /// How many pairs each round would have fired, from the first one on, if that was to be known and is. It is tried, not proved.
    pub by_round: Option<Vec<u64>>,
    /// Why it stopped.
    pub end: End,
}

/// Reduces a system in place, by interactions in any order, until none is possible, or a bound or a limit is met. What was
/// reached then has its names numbered anew.
pub fn reduce_in_place<V: Watch>(
    alloc: Global,
    system: WideSystem,
    bounds: Bounds,
    watch: &V,
) -> Result<Reduced, AllocError>
    ensures { IfOk result (IsReducedTo system bounds) }
{
    let stopped = run_system(alloc, &system, bounds, watch)?;
    let reduced = read_stopped(alloc, system, stopped)?;
    Ok(reduced)
}

/// Reads back what a machine holds that began with the configuration of a system, and numbers its names anew. The memory of
/// that configuration is free by then.
pub fn read_stopped(
    alloc: Global,
    system: WideSystem,
    stopped: Stopped,
) -> Result<Reduced, AllocError>
    ensures read { IfOk result (λ reduced. (bounds : AnyBounds)
        (come : HasCome system bounds stopped.given.items stopped.by_rule.items
        stopped.machine stopped.end)
        → (answer : Configuration)
        × IsReached system bounds answer reduced.end reduced.interactions reduced.by_rule.items
        × IsPutTogether answer
        × TellsNameSteps system.rules.rules system.config reduced.interactions
        (length answer.equations) reduced.end reduced.name_steps
        × Writes system.rules.symbols reduced.words.items reduced.terms reduced.equations answer
        × IsNetOf come.held.numbers stopped.machine answer) }
    ensures interactions { IfOk result
        (λ reduced. reduced.interactions ≡ stopped.machine.interactions) }
    ensures by_rule { IfOk result (λ reduced. reduced.by_rule.items ≡ stopped.by_rule.items) }
    ensures end { IfOk result (λ reduced. reduced.end ≡ stopped.end) }
{
    let reached = read_words(alloc, system, stopped)?;
    Ok(Reduced {
        words: renumbered_words(alloc, reached.words)?,
        terms: reached.terms,
        equations: reached.equations,
        interactions: reached.interactions,
        by_rule: reached.by_rule,
        name_steps: reached.name_steps,
        nodes: reached.nodes,
        left: reached.left,
        shared: reached.shared,
        by_round: reached.by_round,
        end: reached.end,
    })
}

/// Reads back what a machine holds that began with the configuration of a system. Its names have any numbers.
pub(crate) fn read_words(
    alloc: Global,
    system: WideSystem,
    stopped: Stopped,
) -> Result<Reduced, AllocError>
    ensures read { IfOk result (λ read. (bounds : AnyBounds)
        (come : HasCome system bounds stopped.given.items stopped.by_rule.items
        stopped.machine stopped.end)
        → (answer : Configuration)
        × IsReached system bounds answer read.end read.interactions read.by_rule.items
        × IsPutTogether answer
        × TellsNameSteps system.rules.rules system.config read.interactions
        (length answer.equations) read.end read.name_steps
        × WritesAlike system.rules.symbols read.words.items read.terms read.equations answer
        × IsNetOf come.held.numbers stopped.machine answer) }
    ensures interactions { IfOk result
        (λ read. read.interactions ≡ stopped.machine.interactions) }
    ensures by_rule { IfOk result (λ read. read.by_rule.items ≡ stopped.by_rule.items) }
    ensures end { IfOk result (λ read. read.end ≡ stopped.end) }
{
    ic_reaching::laws::one_net_is_an_equivalence();
    ic_reaching::laws::what_is_reached_is_one_net();
    ic_meaning::laws::what_is_reached_has_the_same_free_names();
    ic_readback::laws::what_is_read_of_stuck_pairs_is_quiet();
    ic_naming::laws::what_is_renumbered_forgets_names();
    ic_reaching::laws::what_is_reached_goes_on();
    ic_reaching::laws::what_is_reached_quiet_is_the_end_of_every_order();
    ic_reaching::laws::where_names_begin_is_all_that_differs();
    let (rules, config) = system.into_parts();
    let equations = config.equations_len();
    drop(config);
    let interactions = stopped.machine.interactions();
    let left = stopped.machine.equations_left();
    let (nodes, shared, end) = (stopped.nodes, stopped.shared, stopped.end);
    let read = read_back(alloc, stopped.machine)?;
    let symbols = rules.symbols();
    let words = words_of(alloc, symbols, &stopped.given, &read.tokens)?;
    let name_steps = name_steps_at(
        end,
        equations,
        rules.rules(),
        &stopped.by_rule,
        interactions,
        read.equations,
    );
    Ok(Reduced {
        words,
        terms: read.terms,
        equations: read.equations,
        interactions,
        by_rule: stopped.by_rule,
        name_steps,
        nodes,
        left,
        shared,
        by_round: stopped.by_round,
        end,
    })
}

/// Begins a machine with the configuration of a system, and runs it until an end comes.
pub(crate) fn run_system<V: Watch>(
    alloc: Global,
    system: &WideSystem,
    bounds: Bounds,
    watch: &V,
) -> Result<Stopped, AllocError>
    ensures { IfOk result (λ stopped. HasCome system.now bounds stopped.given.items
        stopped.by_rule.items stopped.machine stopped.end) }
{
    let (program, numbers) = compile(alloc, system.rules())?;
    run_compiled(alloc, system, &program, &numbers, bounds, watch)
}

/// The same, where the rules of the system are compiled. Its caller drops them: each `?` here would, and make the proof long.
fn run_compiled<V: Watch>(
    alloc: Global,
    system: &WideSystem,
    program: &Program,
    numbers: &[u32],
    bounds: Bounds,
    watch: &V,
) -> Result<Stopped, AllocError>
    requires arities { program.now.arities ≡ arities_of system.now }
    requires sound { ArePlans program.now }
    requires numbers { length numbers.now ≡ length program.now.plans }
    requires plans { ArePlansOf system.now.rules numbers.now program.now }
    ensures { IfOk result (λ stopped. HasCome system.now bounds stopped.given.items
        stopped.by_rule.items stopped.machine stopped.end) }
{
    crate::laws::what_a_machine_holds_is_reached();
    systems_are_sound(system);
    let (mut machine, first) = begin(alloc, program, system, watch.wants_rounds())?;
    let mut by_rule = no_counts(alloc, system.rules().rules().len())?;
    let gauge = Gauge::new(alloc, system, &first, numbers, bounds.nodes)?;
    let end = run_in_pieces(&mut machine, program, &gauge, bounds.steps, watch);
    sum_by_rule(&mut by_rule, numbers, machine.fired());
    let nodes = gauge.nodes(&machine);
    let by_round = machine.take_rounds(alloc);
    Ok(Stopped {
        machine,
        given: first.given,
        by_rule,
        nodes,
        shared: 0,
        by_round,
        end,
    })
}

/// Systems keep what their rules and their configurations do.
pub(crate) fn systems_are_sound(system: &WideSystem)
    ensures { IsSound system.now }
{
    let nodes = system.config().nodes();
    let symbols = system.rules().symbols().len();
}

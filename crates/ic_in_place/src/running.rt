//! How a reduction runs, in pieces, and why it ends.

ghost use Rattle.std.specs.Prelude.{◌≡◌, ◌≢◌, ◌+◌, ◌<◌, ◌≤◌, ◌^◌, ◌++◌, List, [], IfSome, IfNone};
ghost use Rattle.ic_arena.specs.Piece.{Piece};
ghost use Rattle.std.specs.List.{AllByRecursion};
ghost use Rattle.ic_machine.specs.Net.{IsPair};
ghost use Rattle.ic_machine.specs.Plan.{Plans};
ghost use Rattle.ic_machine.specs.Runs.{Ran};
ghost use Rattle.ic_machine.specs.Steps.{Steps};
ghost use Rattle.ic_in_place.specs.Running.{RunsOn};

use crate::gauge::{Gauge, Look};
use ic_machine::{Ended, Machine, MachineFault, Program};

/// How many interactions a piece of a run makes at most.
pub const PIECE: u64 = 4_096;

/// How far a reduction goes.
#[derive(Clone, Copy)]
pub struct Bounds {
    /// Interactions at most.
    pub steps: u64,
    /// Names and agents of the net, at most so many. It is looked at often enough that a sixteenth more isn't passed.
    pub nodes: u64,
}

/// Why a reduction ended.
#[derive(Clone, Copy, PartialEq, Eq)]
pub enum End {
    /// No interaction is possible.
    Quiet,
    /// As many interactions were made as may be, and one is possible.
    Steps,
    /// A look found more names and agents than there may be.
    Nodes,
    /// A table would have 2^32 entries or more.
    Limit,
    /// A growth was refused.
    Memory,
}

/// Who is told between the pieces of a run how far it has come, and how many names and agents the last look found.
pub trait Watch {
    fn saw(&self, interactions: u64, nodes: u64);

    /// Whether it is to be known in which rounds the pairs would fire that fire in any order.
    fn wants_rounds(&self) -> bool;

    /// What several threads did before one machine had all: how many interactions each of them made, how many trees went from one to
    /// another, and for how many nanoseconds they made no interactions, all together.
    fn shared(&self, by_thread: &[u64], handed_on: u64, idle: u64);
}

/// Runs a machine in pieces, until no pair is left or so many interactions are made, a look finds too much, or a limit is met.
pub fn run_in_pieces<V: Watch>(
    machine: &mut Machine,
    program: &Program,
    gauge: &Gauge,
    steps: u64,
    watch: &V,
) -> End
    requires arities { machine.old.arities ≡ program.now.arities }
    requires few { machine.old.interactions + steps < 2 ^ 64 }
    ensures ran { Ran program.now machine.old machine.new }
    ensures ends { RunsOn program.now steps result machine.old machine.new }
    ensures pairs { AllByRecursion IsPair machine.new.pending }
{
    let mut left = steps;
    let mut due = names_until_sweep(machine);
    let mut look = gauge.look_at(gauge.nodes(machine));
    'pieces: loop {
        let piece = piece_of(left, look.until);
        left -= piece;
        if let Some(end) = run_piece(machine, program, piece) {
            return end;
        }
        if left == 0 {
            return End::Steps;
        }
        watch.saw(machine.interactions(), look.nodes);
        due = sweep_if_due(machine, due);
        look = look_if_due(machine, gauge, look, piece);
        if look.is_over {
            return End::Nodes;
        }
    }
}

/// What the last look found, so many interactions before, or what another one finds that is due then.
fn look_if_due(machine: &mut Machine, gauge: &Gauge, last: Look, made: u64) -> Look
    ensures ran { (p : Plans) → Ran p machine.old machine.new }
    ensures same { machine.new ≡ record machine.old { places = machine.new.places } }
{
    if made >= last.until {
        return gauge.look(machine);
    }
    Look {
        nodes: last.nodes,
        is_over: false,
        until: last.until - made,
    }
}

/// How many interactions the next piece makes, where so many are left and so many come before the next look.
fn piece_of(left: u64, until: u64) -> u64
    ensures within { result ≤ left }
    ensures some { 1 ≤ left → 1 ≤ result }
{
    left.min(PIECE).min(until.max(1))
}

/// Puts names through if so many are in use. Answers how many may be in use before that is done next.
pub fn sweep_if_due(machine: &mut Machine, due: u64) -> u64
    ensures ran { (p : Plans) → Ran p machine.old machine.new }
    ensures same { machine.new ≡ record machine.old { places = machine.new.places } }
    ensures steps { (p : Plans) (rest : List Piece)
        → Steps p [] (machine.old.places ++ rest) (machine.new.places ++ rest) }
{
    if machine.names_in_use() < due {
        return due;
    }
    machine.sweep();
    names_until_sweep(machine)
}

/// How many names may be in use before they are put through: the greater of twice as many as are and half of all that there
/// are, and 4,096 more. So at least a quarter as many are opened between two passes as a pass visits.
pub fn names_until_sweep(machine: &Machine) -> u64 {
    let used = 2 * machine.names_in_use();
    used.max(machine.names() / 2) + PIECE
}

/// Runs a piece of so many interactions, and tells why it ended before all were made.
pub(crate) fn run_piece(machine: &mut Machine, program: &Program, steps: u64) -> Option<End>
    requires arities { machine.old.arities ≡ program.now.arities }
    requires few { machine.old.interactions + steps < 2 ^ 64 }
    ensures ran { Ran program.now machine.old machine.new }
    ensures pairs { AllByRecursion IsPair machine.new.pending }
    ensures ended { IfSome result (λ end. RunsOn program.now steps end machine.old machine.new) }
    ensures before { IfSome result (λ end. (end ≢ End.Steps) × (end ≢ End.Nodes)) }
    ensures none { IfNone result (RunsOn program.now steps End.Steps machine.old machine.new) }
{
    match machine.run(program, steps) {
        Ok(Ended::Steps) => None,
        Ok(Ended::Quiet) => Some(End::Quiet),
        Err(MachineFault::Limit) => Some(End::Limit),
        Err(MachineFault::Memory) => Some(End::Memory),
    }
}

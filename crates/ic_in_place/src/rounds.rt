//! Rounds of a machine, in place: its pending pairs are taken in generations.

ghost use Rattle.std.specs.Prelude.{◌≡◌, ◌≢◌, ℕ, ◌+◌, ◌<◌, ◌≤◌, List, [], ◌∷◌, ◌++◌, Option, Some, IfErr, IfOk, IfSome, IfNone, OnOk, length, false, true};
ghost use Rattle.std.specs.List.{AllByRecursion};
ghost use Rattle.ic_machine.specs.declared.generation.Generation.{Generation as AnyGeneration};
ghost use Rattle.ic_machine.specs.Generations.{Advances, IsWithin};
ghost use Rattle.ic_machine.specs.Net.{HasNext, IsStuck};
ghost use Rattle.ic_machine.specs.Plan.{Plans};
ghost use Rattle.ic_machine.specs.Runs.{Ran};
ghost use Rattle.ic_rules.specs.System.{SystemParts};
ghost use Rattle.ic_streams.specs.declared.fault.StreamFault.{StreamFault as AnyFault};
ghost use Rattle.ic_in_place.specs.Rounds.{EndsAfter, GoOn, MayEnd};
ghost use Rattle.ic_in_place.specs.Told.{RoundOver};

use crate::gauge::{Gauge, Look};
use crate::running::{End, PIECE, Watch, names_until_sweep, run_piece, sweep_if_due};
use ic_flat::WideSystem;
use ic_machine::laws::what_a_machine_holds;
use ic_machine::{Generation, Machine, MachineFault, Program};
use ic_streams::StreamFault;
use std::alloc::{AllocError, Global};
use std::io::Write;

/// How far a reduction by rounds goes.
#[derive(Clone, Copy)]
pub struct RoundBounds {
    /// Rounds at most.
    pub rounds: u64,
    /// Names and agents of the net, at most so many, as in `Bounds`.
    pub nodes: u64,
}

/// Who is told of rounds, and may write what there is to say of them.
pub trait Rows<W: Write> {
    /// The faults by which it may be that a round isn't told of.
    ghost fails: { AnyFault → Type 0 };

    /// Rounds of a system, by plans of rules with these numbers, were told so far: who was told of them at first and then, and
    /// what the writer held at first and then.
    ghost tells: { SystemParts → List ℕ → Self → Self → Option (List ℕ) → Option (List ℕ)
        → List RoundOver → Type 0 };

    /// Rounds of a system begin, by plans of rules with these numbers.
    fn begin(
        &mut self,
        alloc: Global,
        system: &WideSystem,
        numbers: &[u32],
    ) -> Result<(), AllocError>
        ensures none { OnOk result ((held : Option (List ℕ))
            → tells system.now numbers.now self.old self.new held held []) };

    /// The round with this number is over, the next one after those that were told. So many pairs fired in it.
    fn over(
        &mut self,
        round: u64,
        pairs: u64,
        machine: &Machine,
        writer: &mut W,
    ) -> Result<(), StreamFault>
        ensures told { (s : SystemParts) (numbers : List ℕ) (first : Self)
            (before : Option (List ℕ)) (told : List RoundOver)
            → tells s numbers first self.old before (W.contents writer.old) told
            → round ≡ length told + 1 → OnOk result (tells s numbers first self.new
            before (W.contents writer.new) (told ++ record {
              round = round;
              pairs = pairs;
              net = machine.now;
            } ∷ [])) }
        ensures untold { IfErr result (λ fault. fails fault) };
}

/// Who isn't told of any round.
#[derive(Clone, Copy)]
pub struct NoRows;

impl<W: Write> Rows<W> for NoRows {
    ghost fails = { λ fault. ⊥ };

    ghost tells = { λ s numbers first rows before now told. Unit };

    fn begin(
        &mut self,
        _alloc: Global,
        _system: &WideSystem,
        _numbers: &[u32],
    ) -> Result<(), AllocError> {
        Ok(())
    }

    fn over(
        &mut self,
        _round: u64,
        _pairs: u64,
        _machine: &Machine,
        _writer: &mut W,
    ) -> Result<(), StreamFault> {
        Ok(())
    }
}

/// How many interactions a reduction by rounds makes at most. No run reaches so many.
const MOST: u64 = 1 << 62;

/// What the last look has found, and when the next one comes.
#[derive(Clone, Copy)]
struct Looks {
    last: Look,
    /// After how many interactions.
    next: u64,
    /// How many names have to be in use then if they are to be put through.
    due: u64,
}

/// Makes rounds of a machine until no pair can fire, as many are made as may be, or enough interactions are made as one is over.
/// The first one takes so many pairs, which are pending first. Tells why it ended, and how many rounds are over.
pub fn run_by_rounds<V: Watch, S: Rows<W>, W: Write>(
    machine: &mut Machine,
    program: &Program,
    pairs: usize,
    gauge: &Gauge,
    rounds: u64,
    enough: Option<u64>,
    watch: &V,
    rows: &mut S,
    writer: &mut W,
) -> Result<(End, u64), StreamFault>
    requires arities { machine.old.arities ≡ program.now.arities }
    requires none { machine.old.interactions ≡ 0 }
    requires within { pairs ≤ length machine.old.pending }
    ensures ended { IfOk result (λ ended.
        (most : ℕ) × MayEnd rounds enough most machine.new.interactions
        × (ends : EndsAfter program.now pairs most ended.1 ended.0 machine.old machine.new)
        × GoOn enough ended.1 ended.0 (length ends.since.fired) ends.told × ((s : SystemParts) (numbers : List ℕ) (first : S) (before : Option (List ℕ))
        → S.tells s numbers first rows.old before (W.contents writer.old) []
        → S.tells s numbers first rows.new before (W.contents writer.new) ends.told)) }
    ensures untold { IfErr result (λ fault. S.fails fault) }
{
    let mut looks = Looks {
        last: gauge.look_at(gauge.nodes(machine)),
        next: 0,
        due: names_until_sweep(machine),
    };
    let mut generation = Generation { end: pairs };
    for round in 0..rounds {
        let before = machine.interactions();
        let broken = take_all(machine, program, &mut generation, gauge, &mut looks, watch);
        if let Some(end) = broken {
            return Ok((end, round));
        }
        let after = machine.interactions();
        what_a_machine_holds(machine);
        rows.over(round + 1, after - before, machine, writer)?;
        if !machine.has_active(program) {
            return Ok((End::Quiet, round + 1));
        }
        if is_enough(enough, after) {
            return Ok((end_of_all(machine, program), round + 1));
        }
        generation = machine.generation();
    }
    Ok((end_of_all(machine, program), rounds))
}

/// Whether so many interactions are enough.
fn is_enough(enough: Option<u64>, interactions: u64) -> bool
    ensures enough { result ≡ true → (n : ℕ) × (enough ≡ Some n) × (n ≤ interactions) }
    ensures more { (n : ℕ) → result ≡ false → enough ≡ Some n → interactions < n }
{
    match enough {
        Some(number) => number <= interactions,
        None => false,
    }
}

/// Whether a pair can fire, where no more rounds may be made.
fn end_of_all(machine: &mut Machine, program: &Program) -> End
    requires arities { machine.old.arities ≡ program.now.arities }
    ensures ran { (ran : Ran program.now machine.old machine.new) × (ran.fired ≡ []) }
    ensures quiet { result ≡ End.Quiet
        → AllByRecursion (IsStuck program.now) machine.new.pending }
    ensures more { result ≡ End.Steps → HasNext program.now machine.new.pending }
    ensures before { (result ≢ End.Nodes) × (result ≢ End.Limit) }
{
    let _interactions = machine.interactions();
    match run_piece(machine, program, 0) {
        Some(end) => end,
        None => End::Steps,
    }
}

/// Takes all pairs of a generation, each once, and looks at the net after each piece of the run. Tells why it was broken off,
/// if it was.
fn take_all<V: Watch>(
    machine: &mut Machine,
    program: &Program,
    generation: &mut Generation,
    gauge: &Gauge,
    looks: &mut Looks,
    watch: &V,
) -> Option<End>
    requires arities { machine.old.arities ≡ program.now.arities }
    requires within { IsWithin generation.old machine.old.pending }
    requires looks { machine.old.interactions ≤ looks.old.next }
    requires room { looks.old.next < MOST }
    ensures advances { Advances program.now generation.old generation.new machine.old machine.new }
    ensures over { IfNone result (generation.new.end ≡ 0) }
    ensures left { IfSome result (λ end. 0 < generation.new.end) }
    ensures within { IsWithin generation.new machine.new.pending }
    ensures broken { IfSome result (λ end. (end ≢ End.Quiet) × (end ≢ End.Steps)) }
    ensures looks { machine.new.interactions ≤ looks.new.next }
    ensures room { IfNone result (looks.new.next < MOST) }
{
    while looks.next < MOST {
        let steps = looks.next - machine.interactions();
        let run = machine.run_generation(program, generation, steps);
        if generation.end == 0 {
            return None;
        }
        match run {
            Ok(_) => {},
            Err(MachineFault::Limit) => return Some(End::Limit),
            Err(MachineFault::Memory) => return Some(End::Memory),
        }
        if look(machine, gauge, looks, watch) {
            return Some(End::Nodes);
        }
    }
    Some(End::Limit)
}

/// Looks at a net: tells of it, and puts names through if they are due. Answers whether it is too large.
fn look<V: Watch>(machine: &mut Machine, gauge: &Gauge, looks: &mut Looks, watch: &V) -> bool
    requires { looks.old.next < MOST }
    ensures stays { (p : Plans) (g : AnyGeneration) → Advances p g g machine.old machine.new }
    ensures same { machine.new ≡ record machine.old { places = machine.new.places } }
    ensures next { looks.old.next < looks.new.next }
{
    watch.saw(machine.interactions(), looks.last.nodes);
    looks.due = sweep_if_due(machine, looks.due);
    looks.last = gauge.look(machine);
    looks.next += looks.last.until.max(1).min(PIECE);
    looks.last.is_over
}

//! A text reduced by rounds, in place.

ghost use Rattle.std.specs.Prelude.{◌≡◌, ◌≢◌, ◌⊎◌, ℕ, Some, IfErr, IfOk, OnOk, length};
ghost use Rattle.std.specs.Io.KnownBytes.{Keeps};
ghost use Rattle.ic_machine.specs.Plan.{ArePlans};
ghost use Rattle.ic_meaning.specs.Plans.{ArePlansOf};
ghost use Rattle.ic_streams.specs.Streams.{FaultOf, IsAnswered, OfText, TakesAtWithin, TakesTextWithin};
ghost use Rattle.ic_in_place.specs.Rounds.{AppendsLineOf, CountsRounds, EndsByRounds, GoOn, HasRounded, IsRoundedTo, MayEnd, ReducesByRounds, stands_still};
ghost use Rattle.ic_in_place.specs.Stopping.{arities_of};

use crate::counting::{no_counts, sum_by_rule};
use crate::gauge::Gauge;
use crate::reducing::{Reduced, Stopped, read_stopped, systems_are_sound};
use crate::rounds::{NoRows, RoundBounds, Rows, run_by_rounds};
use crate::running::{End, Watch};
use crate::stream::{Asked, Outcome, stopped_line};
use ic_diagnostics::{Kind, refused_within};
use ic_flat::WideSystem;
use ic_machine::Program;
use ic_machine::laws::what_a_machine_holds;
use ic_plans::{begin_with_pairs, compile};
use ic_streams::{StreamFault, read_text_within, write_line};
use ic_text::{Limits, find_wide_system};
use std::alloc::{AllocError, Global};
use std::io::{Read, Write};

/// How a text was reduced by rounds.
#[derive(Drop)]
pub struct Rounded {
    /// What is told of it, as of a reduction in any order.
    pub outcome: Outcome,
    /// How many rounds were made.
    pub rounds: u64,
}

/// Makes rounds of the system that the reader gives, in place, until no step is possible, or a bound or a limit is met, and
/// writes the net then as a line, if that is asked for. Answers what is told of it, and how many rounds are over.
pub fn reduce_by_rounds_stream<V: Watch, R: Read, W: Write>(
    alloc: Global,
    limits: Limits,
    bounds: RoundBounds,
    asked: Asked,
    watch: &V,
    reader: &mut R,
    writer: &mut W,
    told: &mut Vec<u8>,
) -> Result<Rounded, StreamFault>
    // There is a text of which this holds: the reader's, where it tells its bytes.
    ensures answered { OfText (R.remaining reader.old)
        (λ text. IsAnswered (ReducesByRounds limits bounds.rounds asked) text result
        (W.contents writer.old) (W.contents writer.new) × IfOk result (λ reached.
        AppendsLineOf limits bounds.rounds asked text reached
        (W.contents writer.old) (W.contents writer.new))) }
    ensures silent { IfErr result (λ fault. fault ≢ StreamFault.Write
        → Keeps (W.contents writer.old) (W.contents writer.new)) }
    ensures taken { OnOk result
        (TakesTextWithin limits (R.remaining reader.old) (R.remaining reader.new)) }
    ensures taken_at_fault { IfErr result
        (λ fault. TakesAtWithin limits fault (R.remaining reader.old) (R.remaining reader.new)) }
    ensures quiet { OnOk result (told.new.items ≡ told.old.items) }
{
    let text = read_text_within(alloc, limits, reader)?;
    let mut rows = NoRows;
    let mut none = Vec::new(alloc);
    let (line, rounded) = reduce_by_rounds(
        alloc, limits, bounds, asked, watch, &mut rows, &mut none, &text, told,
    )?;
    write_line(writer, &line)?;
    Ok(rounded)
}

/// The same of a text, whose line is given. Of each round `rows` is told as it is over.
pub fn reduce_by_rounds<V: Watch, S: Rows<W>, W: Write>(
    alloc: Global,
    limits: Limits,
    bounds: RoundBounds,
    asked: Asked,
    watch: &V,
    rows: &mut S,
    writer: &mut W,
    text: &[u8],
    told: &mut Vec<u8>,
) -> Result<(Vec<u8>, Rounded), StreamFault>
    ensures line { IfOk result (λ answer.
        (ends : EndsByRounds limits bounds.rounds asked text.now answer.1 answer.0.items)
        × S.tells ends.system ends.rounded.come.rule_numbers rows.old rows.new
        (W.contents writer.old) (W.contents writer.new) ends.rounded.ends.told) }
    ensures refused { IfErr result (λ fault.
        (FaultOf (ReducesByRounds limits bounds.rounds asked) text.now fault
        × (fault ≢ StreamFault.Write) × (fault ≢ StreamFault.Read)) ⊎ S.fails fault) }
    ensures silent { IfErr result (λ fault. ¬ S.fails fault → fault ≢ StreamFault.Memory
        → Keeps (W.contents writer.old) (W.contents writer.new)) }
    ensures quiet { OnOk result (told.new.items ≡ told.old.items) }
{
    let system = match find_wide_system(alloc, limits, text) {
        Ok(found) => found,
        Err(misread) => {
            return Err(refused_within(alloc, limits, Kind::System, text, misread, told));
        }
    };
    let (stopped, rounds) = round_system(alloc, &system, bounds, None, watch, rows, writer)?;
    let (line, outcome) = stopped_line(alloc, system, stopped, asked)?;
    let rounds = rounds_made(
        outcome.end,
        outcome.interactions,
        outcome.name_steps,
        rounds,
    );
    Ok((line, Rounded { outcome, rounds }))
}

/// Makes rounds of a system, in place, until no step is possible, a bound or a limit is met, or enough interactions are made as
/// one is over: then it makes no more. What was reached then has its names numbered anew. Answers how many rounds are over, too.
pub fn round_in_place<V: Watch>(
    alloc: Global,
    system: WideSystem,
    bounds: RoundBounds,
    enough: u64,
    watch: &V,
) -> Result<(Reduced, u64), AllocError>
    ensures { IfOk result
        (λ made. IsRoundedTo system bounds.rounds enough made.1 made.0) }
{
    let mut none: Vec<u8> = Vec::new(alloc);
    let mut rows = NoRows;
    let enough = Some(enough);
    match round_system(alloc, &system, bounds, enough, watch, &mut rows, &mut none) {
        Ok((stopped, taken)) => read_rounded(alloc, system, stopped, taken),
        Err(_) => Err(AllocError),
    }
}

/// What a machine holds that has made rounds, and how many were made where it has taken so many.
fn read_rounded(
    alloc: Global,
    system: WideSystem,
    stopped: Stopped,
    taken: u64,
) -> Result<(Reduced, u64), AllocError>
    ensures { (rounds enough most : ℕ)
        → MayEnd rounds (Some enough) most stopped.machine.interactions
        → (rounded : HasRounded system most taken stopped.given.items stopped.by_rule.items
        stopped.machine stopped.end) → GoOn (Some enough) taken stopped.end (length rounded.ends.since.fired) rounded.ends.told
        → IfOk result (λ made. IsRoundedTo system rounds enough made.1 made.0) }
{
    ic_reaching::laws::one_net_is_an_equivalence();
    ic_reaching::laws::what_is_reached_is_one_net();
    ic_reaching::laws::what_is_reached_goes_on();
    ic_reaching::laws::where_names_begin_is_all_that_differs();
    ic_reaching::laws::where_names_begin_is_no_matter();
    ic_reaching::laws::what_is_reached_quiet_is_the_end_of_every_order();
    ic_confluence::laws::same_is_an_equivalence();
    ic_confluence::laws::same_nets_take_the_same_steps();
    ic_meaning::laws::what_fires_in_a_round_is_of_it();
    crate::laws::name_steps_are_those_of_every_order();
    crate::laws::what_is_put_together_has_no_name_step();
    let reduced = read_stopped(alloc, system, stopped)?;
    let rounds = rounds_made(reduced.end, reduced.interactions, reduced.name_steps, taken);
    Ok((reduced, rounds))
}

/// How many rounds were made, where so many generations were taken. Of a text in which no step is possible none is made, but the
/// first generation was taken all the same. Nor is one told of where a bound or a limit came before any pair had fired.
fn rounds_made(end: End, interactions: u64, name_steps: Option<u64>, taken: u64) -> u64
    ensures { CountsRounds end interactions name_steps taken result }
{
    if stands_still(end, interactions, name_steps) {
        0
    } else {
        taken
    }
}

/// Whether no step was possible at all, or a bound or a limit came before any pair had fired.
fn stands_still(end: End, interactions: u64, name_steps: Option<u64>) -> bool
    ensures { result ≡ stands_still end interactions name_steps }
{
    match end {
        End::Quiet => match name_steps {
            Some(steps) => interactions == 0 && steps == 0,
            None => false,
        },
        End::Steps => false,
        End::Nodes | End::Limit | End::Memory => interactions == 0,
    }
}

/// Begins a machine with the configuration of a system, and makes rounds of it until an end comes.
fn round_system<V: Watch, S: Rows<W>, W: Write>(
    alloc: Global,
    system: &WideSystem,
    bounds: RoundBounds,
    enough: Option<u64>,
    watch: &V,
    rows: &mut S,
    writer: &mut W,
) -> Result<(Stopped, u64), StreamFault>
    ensures made { IfOk result (λ made. (most : ℕ)
        × MayEnd bounds.rounds enough most made.0.machine.interactions
        × (rounded : HasRounded system.now most made.1
        made.0.given.items made.0.by_rule.items made.0.machine made.0.end)
        × GoOn enough made.1 made.0.end (length rounded.ends.since.fired) rounded.ends.told
        × S.tells system.now rounded.come.rule_numbers rows.old rows.new
        (W.contents writer.old) (W.contents writer.new) rounded.ends.told) }
    ensures untold { IfErr result (λ fault. (fault ≡ StreamFault.Memory) ⊎ S.fails fault) }
{
    let (program, numbers) = compile(alloc, system.rules())?;
    round_compiled(
        alloc, system, &program, &numbers, bounds, enough, watch, rows, writer,
    )
}

/// The same, where the rules of the system are compiled.
fn round_compiled<V: Watch, S: Rows<W>, W: Write>(
    alloc: Global,
    system: &WideSystem,
    program: &Program,
    numbers: &[u32],
    bounds: RoundBounds,
    enough: Option<u64>,
    watch: &V,
    rows: &mut S,
    writer: &mut W,
) -> Result<(Stopped, u64), StreamFault>
    requires arities { program.now.arities ≡ arities_of system.now }
    requires sound { ArePlans program.now }
    requires numbers { length numbers.now ≡ length program.now.plans }
    requires plans { ArePlansOf system.now.rules numbers.now program.now }
    ensures made { IfOk result (λ made. (most : ℕ)
        × MayEnd bounds.rounds enough most made.0.machine.interactions
        × (rounded : HasRounded system.now most made.1
        made.0.given.items made.0.by_rule.items made.0.machine made.0.end)
        × GoOn enough made.1 made.0.end (length rounded.ends.since.fired) rounded.ends.told
        × S.tells system.now rounded.come.rule_numbers rows.old rows.new
        (W.contents writer.old) (W.contents writer.new) rounded.ends.told) }
    ensures untold { IfErr result (λ fault. (fault ≡ StreamFault.Memory) ⊎ S.fails fault) }
{
    crate::laws::what_a_machine_holds_after_rounds();
    ic_plans::laws::the_first_pairs_are_pending_first();
    systems_are_sound(system);
    let (mut machine, first, pairs) = begin_with_pairs(alloc, program, system)?;
    let mut by_rule = no_counts(alloc, system.rules().rules().len())?;
    let gauge = Gauge::new(alloc, system, &first, numbers, bounds.nodes)?;
    rows.begin(alloc, system, numbers)?;
    let (end, rounds) = run_by_rounds(
        &mut machine,
        program,
        pairs,
        &gauge,
        bounds.rounds,
        enough,
        watch,
        rows,
        writer,
    )?;
    what_a_machine_holds(&machine);
    let _interactions = machine.interactions();
    sum_by_rule(&mut by_rule, numbers, machine.fired());
    let nodes = gauge.nodes(&machine);
    let stopped = Stopped {
        machine,
        given: first.given,
        by_rule,
        nodes,
        shared: 0,
        by_round: None,
        end,
    };
    Ok((stopped, rounds))
}

//! A reduction that goes on from a state, and is kept after each piece that has gone further.

ghost use Rattle.std.specs.Prelude.{◌≡◌, ◌≢◌, ◌⊎◌, ◌↔◌, ◌<◌, ◌+◌, ◌-◌, ◌^◌, ◌≤◌, ℕ, [], None, Some, Ok, Err, IfOk, IfErr, IsNone, OnOk, OnErr, length, max, slice_index_or, true, false, if◌then◌else◌};
ghost use Rattle.std.specs.Arc.{arc_value};
ghost use Rattle.ic_rules.specs.System.{SystemParts};
ghost use Rattle.std.specs.List.{AllByRecursion};
ghost use Rattle.std.specs.Option.{option_map};
ghost use Rattle.ic_streams.specs.Stuck.{stuck_text};
ghost use Rattle.ic_flat.specs.Flat.{configuration_of};
ghost use Rattle.ic_frames.specs.declared.faults.KeepFault.{KeepFault};
ghost use Rattle.ic_in_place.specs.declared.running.Bounds.{Bounds};
ghost use Rattle.ic_in_place.specs.Reductions.{is_written};
ghost use Rattle.ic_kept.specs.Course.{IsKeep};
ghost use Rattle.ic_kept.specs.Keeper.{is_broken};
ghost use Rattle.ic_state.specs.State.{IsKept, Kept, kept_by, state_bytes};
ghost use Rattle.ic_state.specs.Words.{IsKeptWord};
ghost use Rattle.ic_streams.specs.Streams.{line_of};
ghost use Rattle.ic_term.specs.declared.limits.TheConstants.{MAX_WIDE_NODES};
ghost use Rattle.ic_text.specs.SystemText.{ReadsSystemWithin};
ghost use Rattle.ic_keeping.specs.inner.Pieces.{ComesTogether, EndsOnWay, IsMade, IsOfAPiece, IsPiece, IsPieceByRounds, IsPrinted, IsWritten, StopsAPiece, StopsOnWay};
ghost use Rattle.ic_keeping.specs.Life.{EndsBetween, GoesOn, HasAsFar, HasRun, HasState, IsStartOf, IsTold, KeepFails, KeepsOn, StopsARun, StopsFrom, TellsOfKeeper};
ghost use Rattle.ic_keeping.specs.Way.{AreSums, GoesFurther, IsAnswer, IsReachedFrom, IsStateOf};

use crate::beginning::{ResumeFault, Start, bytes_of, handed_back};
use crate::counts::{add_all, are_counts};
use crate::fault::KeepingFault;
use crate::pace::{Pace, Timed, millis_of};
use crate::systems::{states_are_reached, system_of, systems_are_sound};
use ic_disk::Disk;
use ic_flat::WideSystem;
use ic_in_place::{
    Asked, Bounds, End, Reduced, RoundBounds, Watch, circle_text, is_written, round_in_place,
    stuck_text,
};
use ic_kept::Keeper;
use ic_rules::RuleSet;
use ic_state::{State, are_narrow};
use ic_term::{MAX_WIDE_NODES, Symbols};
use ic_text::{Limits, TextFault, find_wide_system, put_words};
use ic_workers::{Policy, reduce_by_workers};
use std::alloc::{AllocError, Global};
use std::mem::replace;
use std::sync::Arc;
use std::thread::Threads;
use std::time::Clock;

/// How a run of a reduction has ended, and what it has come to in all runs.
#[derive(Drop)]
pub struct Ended {
    /// Why it ended.
    pub end: End,
    /// How many names and agents the net had at its end.
    pub nodes: u64,
    /// How many equations it had left then: those that were pending, and those that were set aside.
    pub left: u64,
    /// How many interactions of this run were made before one machine had all of a piece: none by one thread.
    pub shared: u64,
    /// The rules of the text, and its symbols.
    pub rules: Arc<RuleSet>,
    /// What was reached. What is kept goes as far, unless that is within a round.
    pub state: State,
    /// How many rounds are over, where it goes by rounds.
    pub rounds: Option<u64>,
    /// The line of what was reached, where it is asked for.
    pub line: Vec<u8>,
    /// The symbols of the first equation of two agents, where the end is quiet.
    pub stuck: Option<Vec<u8>>,
    /// The symbol at which the first circle is closed, where the end is quiet.
    pub circle: Option<Vec<u8>>,
}

/// The rules of the system that a text is read as.
fn rules_of(alloc: Global, text: &[u8]) -> Result<Arc<RuleSet>, KeepingFault>
    ensures rules { (s : SystemParts) → ReadsSystemWithin Limits.Wide text.now (Ok s)
        → IfOk result (λ rules. arc_value rules ≡ s.rules) }
    ensures read { OnOk result ((s : SystemParts)
        × ReadsSystemWithin Limits.Wide text.now (Ok s)) }
    ensures refused { (s : SystemParts) → ReadsSystemWithin Limits.Wide text.now (Ok s)
        → IfErr result (λ fault. fault ≡ KeepingFault.Memory) }
    ensures only { IfErr result (λ fault. (fault ≡ KeepingFault.Unsound)
        ⊎ (fault ≡ KeepingFault.Memory)) }
{
    ic_text::laws::one_system_reading();
    match find_wide_system(alloc, Limits::Wide, text) {
        Ok(system) => Ok(system.into_parts().0),
        Err(misread) => Err(unread(misread.fault)),
    }
}

/// The rules of the text of a state that has a count for each of them.
pub(crate) fn rules_for(alloc: Global, state: &State) -> Result<Arc<RuleSet>, KeepingFault>
    ensures rules { (s : SystemParts)
        → ReadsSystemWithin Limits.Wide state.now.text.items (Ok s)
        → IfOk result (λ rules. arc_value rules ≡ s.rules) }
    ensures read { OnOk result ((s : SystemParts)
        × ReadsSystemWithin Limits.Wide state.now.text.items (Ok s)
        × (length state.now.by_rule.items ≡ length s.rules.rules)) }
    ensures refused { (s : SystemParts) → IsStateOf s (kept_by state.now)
        → IfErr result (λ fault. fault ≡ KeepingFault.Memory) }
    ensures only { IfErr result (λ fault. (fault ≡ KeepingFault.Unsound)
        ⊎ (fault ≡ KeepingFault.Memory)) }
{
    let rules = rules_of(alloc, &state.text)?;
    if !are_counts(&state.by_rule, rules.rules().len(), state.interactions) {
        return Err(KeepingFault::Unsound);
    }
    Ok(rules)
}

/// Why a text that was kept isn't read.
fn unread(fault: TextFault) -> KeepingFault
    ensures memory { (result ≡ KeepingFault.Memory) ⊎ (fault ≢ TextFault.Memory) }
    ensures only { (result ≡ KeepingFault.Unsound) ⊎ (result ≡ KeepingFault.Memory) }
{
    match fault {
        TextFault::Memory => KeepingFault::Memory,
        _ => KeepingFault::Unsound,
    }
}

/// How a piece of a reduction has ended.
#[derive(Clone, Copy)]
struct Piece {
    end: End,
    nodes: u64,
    left: u64,
    // How many interactions were made before one machine had all.
    shared: u64,
    // How many equations were reached.
    equations: usize,
    // For how many milliseconds it made interactions.
    millis: u64,
    // How many rounds are over, where it goes by rounds.
    rounds: Option<u64>,
}

/// Puts into a state what was reduced, in so many milliseconds in all and so many in which interactions were made. So many rounds
/// are over.
fn take_in(
    state: &mut State,
    reduced: Reduced,
    rounds: Option<u64>,
    all: u64,
    millis: u64,
) -> Result<Piece, KeepingFault>
    ensures text { state.new.text.items ≡ state.old.text.items }
    ensures words { OnOk result (state.new.words.items ≡ reduced.words.items) }
    ensures narrow { OnOk result ((state.new.narrow ≡ true)
        ↔ AllByRecursion (IsKeptWord true) state.new.words.items) }
    ensures terms { OnOk result (state.new.terms ≡ reduced.terms) }
    ensures interactions { OnOk result
        (state.new.interactions ≡ state.old.interactions + reduced.interactions) }
    ensures by_rule { OnOk result
        (AreSums state.old.by_rule.items reduced.by_rule.items state.new.by_rule.items) }
    ensures ended { OnOk result ((state.new.ended ≡ true) ↔ (reduced.end ≡ End.Quiet)) }
    ensures millis { OnOk result (state.old.millis ≤ state.new.millis) }
    ensures between { OnOk result (state.new.rounds ≡ state.old.rounds) }
    ensures end { IfOk result (λ piece. piece.end ≡ reduced.end) }
    ensures rounds { IfOk result (λ piece. piece.rounds ≡ rounds) }
    ensures equations { IfOk result (λ piece. piece.equations ≡ reduced.equations) }
    ensures refused { IfErr result (λ fault. fault ≡ KeepingFault.Limit) }
    ensures limit { length state.old.by_rule.items ≡ length reduced.by_rule.items
        → OnErr result ((2 ^ 64 ≤ state.old.interactions + reduced.interactions)
        ⊎ ((i : ℕ) × (i < length reduced.by_rule.items)
        × (2 ^ 64 ≤ slice_index_or state.old.by_rule.items i 0
        + slice_index_or reduced.by_rule.items i 0))) }
{
    let sum = state.interactions.checked_add(reduced.interactions);
    state.interactions = sum.ok_or(KeepingFault::Limit)?;
    add_all(&mut state.by_rule, &reduced.by_rule).ok_or(KeepingFault::Limit)?;
    state.terms = reduced.terms as u64;
    state.words = reduced.words;
    state.narrow = are_narrow(&state.words);
    // No time is added where what has ended is read once more.
    if !state.ended {
        state.millis = state.millis.saturating_add(all);
    }
    state.ended = is_quiet(reduced.end);
    Ok(Piece {
        end: reduced.end,
        nodes: reduced.nodes,
        left: reduced.left,
        shared: reduced.shared,
        equations: reduced.equations,
        millis,
        rounds,
    })
}

/// Whether no interaction is possible.
fn is_quiet(end: End) -> bool
    ensures { (result ≡ true) ↔ (end ≡ End.Quiet) }
{
    match end {
        End::Quiet => true,
        _ => false,
    }
}

/// How many rounds are over after so many more, where a reduction goes by rounds.
fn rounds_over(before: Option<u64>, made: u64) -> Option<u64>
    ensures any { before ≡ None → result ≡ None }
    ensures over { (n : ℕ) → before ≡ Some n → n + made < 2 ^ 64 → result ≡ Some (n + made) }
{
    match before {
        Some(number) => Some(number.saturating_add(made)),
        None => None,
    }
}

/// How many rounds are over, where a piece has ended as one was, after some before it of so many at most.
fn rounds_between(before: Option<u64>, most: u64, end: End, over: Option<u64>) -> Option<u64>
    ensures any { before ≡ None → result ≡ None }
    ensures between { (n : ℕ) → before ≡ Some n → n < most → (end ≡ End.Quiet) ⊎ (end ≡ End.Steps)
        → result ≡ over }
    ensures only { (n : ℕ) → result ≡ Some n → (over ≡ Some n)
        × ((end ≡ End.Quiet) ⊎ (end ≡ End.Steps))
        × ((m : ℕ) → before ≡ Some m → m < most) }
{
    match (before, end) {
        (Some(number), End::Quiet | End::Steps) if number < most => over,
        _ => None,
    }
}

/// Whether a piece was broken off within a round, where so many were over before it and so many are after it. So it is also where
/// no more may be made.
fn is_broken(before: Option<u64>, after: Option<u64>) -> bool
    ensures broken { result ≡ true → (after ≡ None) × ((n : ℕ) × (before ≡ Some n)) }
    ensures whole { result ≡ false → (before ≡ None) ⊎ ((n : ℕ) × (after ≡ Some n)) }
{
    before.is_some() && after.is_none()
}

/// How many rounds are told of a run that ends so. Where a bound or a limit came before any pair had fired, it is none.
fn rounds_told(end: End, interactions: u64, over: Option<u64>) -> Option<u64>
    ensures between { (end ≡ End.Quiet) ⊎ (end ≡ End.Steps) → result ≡ over }
    ensures any { over ≡ None → result ≡ None }
    ensures some { (n : ℕ) → over ≡ Some n
        → (result ≡ Some n) ⊎ ((result ≡ Some 0) × (interactions ≡ 0)) }
{
    match (over, end) {
        (Some(_), End::Nodes | End::Limit | End::Memory) if interactions == 0 => Some(0),
        _ => over,
    }
}

/// Whether a run of so many interactions at most, or of so many rounds, ends with a piece that has ended so.
fn ends_run(end: End, interactions: u64, most: u64, over: Option<u64>, rounds: u64) -> bool
    ensures ended { result ≡ true → end ≡ End.Steps → over ≡ None → most ≤ interactions }
    ensures all { (n : ℕ) → result ≡ true → end ≡ End.Steps → over ≡ Some n → rounds ≤ n }
    ensures goes_on { result ≡ false → (end ≡ End.Steps) × (over ≡ None → interactions < most) }
    ensures more { (n : ℕ) → result ≡ false → over ≡ Some n → n + 1 < 2 ^ 64 }
    ensures less { (n : ℕ) → result ≡ false → over ≡ Some n → n < rounds }
{
    match (end, over) {
        (End::Steps, Some(number)) => number >= rounds,
        (End::Steps, None) => interactions >= most,
        _ => true,
    }
}

/// Keeps a state, if it goes further than what was kept before: so many interactions, and it had ended or not. Tells whether
/// what is kept now has ended.
fn keep_further<D: Disk>(
    alloc: Global,
    state: &State,
    interactions: u64,
    ended: bool,
    keeper: &mut Keeper<D>,
) -> Result<bool, KeepingFault>
    requires { interactions ≤ state.now.interactions }
    ensures kept { IfOk result (λ now_ended.
        (GoesFurther interactions ended (kept_by state.now) × IsKept (kept_by state.now)
        × (length state.now.words.items ≤ MAX_WIDE_NODES)
        × IsKeep D.keeps D.image D.clock D.left (state_bytes (kept_by state.now)) (Ok tt)
        keeper.old keeper.new × (now_ended ≡ state.now.ended))
        ⊎ ((interactions ≡ state.now.interactions) × (state.now.ended ≡ true → ended ≡ true)
        × (now_ended ≡ ended) × (keeper.new ≡ keeper.old))) }
    ensures ready { OnOk result ((keeper.new ≡ keeper.old)
        ⊎ ((is_broken keeper.old ≡ false) × (is_broken keeper.new ≡ false))) }
    ensures crash { OnErr result ((keeper.new ≡ keeper.old) ⊎ ((fault : KeepFault)
        × GoesFurther interactions ended (kept_by state.now) × IsKept (kept_by state.now)
        × (length state.now.words.items ≤ MAX_WIDE_NODES)
        × IsKeep D.keeps D.image D.clock D.left (state_bytes (kept_by state.now)) (Err fault)
        keeper.old keeper.new)) }
    ensures refused { IfErr result (λ fault. StopsARun fault) }
    ensures limit { IfErr result (λ fault. fault ≡ KeepingFault.Limit
        → (MAX_WIDE_NODES < length state.now.words.items)
        ⊎ ¬ AllByRecursion (IsKeptWord state.now.narrow) state.now.words.items) }
    ensures failed { IfErr result (λ fault. (cause : KeepFault)
        → fault ≡ KeepingFault.Keep cause → KeepFails cause keeper.old keeper.new) }
{
    if goes_further(state, interactions, ended) {
        keep_state(alloc, state, keeper)?;
        return Ok(state.ended);
    }
    Ok(ended)
}

/// Whether a state goes further than what was kept before.
fn goes_further(state: &State, interactions: u64, ended: bool) -> bool
    requires { interactions ≤ state.now.interactions }
    ensures further { result ≡ true → GoesFurther interactions ended (kept_by state.now) }
    ensures as_far { result ≡ false → (interactions ≡ state.now.interactions)
        × (state.now.ended ≡ true → ended ≡ true) }
{
    if interactions < state.interactions {
        return true;
    }
    if state.ended {
        return !ended;
    }
    false
}

/// Keeps a state, unless it has more names and agents than are read: each life that found it would be refused it.
fn keep_state<D: Disk>(
    alloc: Global,
    state: &State,
    keeper: &mut Keeper<D>,
) -> Result<(), KeepingFault>
    ensures keeps { OnOk result (IsKeep D.keeps D.image D.clock D.left
        (state_bytes (kept_by state.now)) (Ok tt) keeper.old keeper.new) }
    ensures sound { OnOk result (IsKept (kept_by state.now)) }
    ensures few { OnOk result (length state.now.words.items ≤ MAX_WIDE_NODES) }
    ensures ready { OnOk result ((is_broken keeper.old ≡ false) × (is_broken keeper.new ≡ false)) }
    ensures crash { OnErr result ((keeper.new ≡ keeper.old) ⊎ ((fault : KeepFault)
        × IsKept (kept_by state.now) × (length state.now.words.items ≤ MAX_WIDE_NODES)
        × IsKeep D.keeps D.image D.clock D.left (state_bytes (kept_by state.now)) (Err fault)
        keeper.old keeper.new)) }
    ensures refused { IfErr result (λ fault. StopsARun fault) }
    ensures limit { IfErr result (λ fault. fault ≡ KeepingFault.Limit
        → (MAX_WIDE_NODES < length state.now.words.items)
        ⊎ ¬ AllByRecursion (IsKeptWord state.now.narrow) state.now.words.items) }
    ensures failed { IfErr result (λ fault. (cause : KeepFault)
        → fault ≡ KeepingFault.Keep cause → KeepFails cause keeper.old keeper.new) }
{
    if state.words.len() as u64 > MAX_WIDE_NODES {
        return Err(KeepingFault::Limit);
    }
    let bytes = bytes_of(alloc, state)?;
    match keeper.keep(&bytes) {
        Ok(()) => Ok(()),
        Err(fault) => Err(KeepingFault::Keep(fault)),
    }
}

/// The line of what a state has reached, with so many equations, or nothing where it isn't asked for.
fn line_of(
    alloc: Global,
    symbols: &Symbols,
    state: &State,
    run: Piece,
    asked: Asked,
) -> Result<Vec<u8>, KeepingFault>
    requires { IsPrinted symbols.now state.now run.equations }
    ensures line { IfOk result (λ line. line.items ≡ if is_written asked run.end
        then line_of symbols.now (configuration_of state.now.words.items state.now.terms 0)
        else []) }
    ensures refused { IfErr result (λ fault. fault ≡ KeepingFault.Memory) }
{
    let mut line = Vec::new(alloc);
    if is_written(asked, run.end) {
        let terms = state.terms as usize;
        put_words(
            alloc,
            symbols,
            &state.words,
            terms,
            run.equations,
            &mut line,
        )?;
        line.push(b'\n')?;
    }
    Ok(line)
}

/// The pair that is stuck in what a state has reached, where a piece ended quiet.
fn stuck_of(
    alloc: Global,
    symbols: &Symbols,
    state: &State,
    run: Piece,
) -> Result<Option<Vec<u8>>, KeepingFault>
    requires { IsPrinted symbols.now state.now run.equations }
    ensures stuck { run.end ≡ End.Quiet
        → IfOk result (λ stuck. option_map (λ text. text.items) stuck
        ≡ stuck_text symbols.now (configuration_of state.now.words.items state.now.terms 0)) }
    ensures unstuck { run.end ≢ End.Quiet → IfOk result (λ stuck. IsNone stuck) }
    ensures refused { IfErr result (λ fault. fault ≡ KeepingFault.Memory) }
{
    match run.end {
        End::Quiet => {
            let terms = state.terms as usize;
            let stuck = stuck_text(alloc, symbols, &state.words, terms, run.equations)?;
            Ok(stuck)
        }
        _ => Ok(None),
    }
}

/// The symbol at which the first circle is closed in what a state has reached, where a piece ended quiet.
fn circle_of(
    alloc: Global,
    symbols: &Symbols,
    state: &State,
    run: Piece,
) -> Result<Option<Vec<u8>>, KeepingFault>
    requires { IsPrinted symbols.now state.now run.equations }
    ensures refused { IfErr result (λ fault. fault ≡ KeepingFault.Memory) }
{
    match run.end {
        End::Quiet => {
            let terms = state.terms as usize;
            let circle = circle_text(alloc, symbols, &state.words, terms, run.equations)?;
            Ok(circle)
        }
        _ => Ok(None),
    }
}

/// What is told of a run that has ended in a state with a piece, of these interactions before one machine had all.
fn end_of(
    alloc: Global,
    rules: Arc<RuleSet>,
    state: State,
    run: Piece,
    shared: u64,
    asked: Asked,
) -> Result<Ended, KeepingFault>
    requires { IsPrinted (arc_value rules).symbols state run.equations }
    ensures state { IfOk result (λ ended. ended.state ≡ state) }
    ensures end { IfOk result (λ ended. ended.end ≡ run.end) }
    ensures told { (s : SystemParts) → arc_value rules ≡ s.rules → IfOk result (IsTold s asked) }
    ensures unstuck { IfOk result (λ ended. ended.end ≢ End.Quiet → IsNone ended.stuck) }
    ensures between { (run.end ≡ End.Quiet) ⊎ (run.end ≡ End.Steps)
        → IfOk result (λ ended. ended.rounds ≡ run.rounds) }
    ensures any { run.rounds ≡ None → IfOk result (λ ended. ended.rounds ≡ None) }
    ensures rounds { (n : ℕ) → run.rounds ≡ Some n → IfOk result (λ ended.
        (ended.rounds ≡ Some n) ⊎ ((ended.rounds ≡ Some 0) × (state.interactions ≡ 0))) }
    ensures refused { IfErr result (λ fault. fault ≡ KeepingFault.Memory) }
{
    let symbols = rules.symbols();
    let line = line_of(alloc, symbols, &state, run, asked)?;
    let stuck = stuck_of(alloc, symbols, &state, run)?;
    let circle = circle_of(alloc, symbols, &state, run)?;
    let rounds = rounds_told(run.end, state.interactions, run.rounds);
    Ok(Ended {
        end: run.end,
        nodes: run.nodes,
        left: run.left,
        shared,
        rules,
        state,
        rounds,
        line,
        stuck,
        circle,
    })
}

/// With what a reduction runs that is kept, and how far.
#[derive(Drop)]
pub struct Run<'a, T, C, V> {
    pub threads: &'a T,
    pub clock: &'a C,
    pub alloc: Global,
    /// How many threads make a piece, and how they share it.
    pub policy: Policy,
    pub bounds: Bounds,
    /// How many rounds are made at most in all, where it goes by rounds. Those have no bound of interactions.
    pub rounds: u64,
    /// How often it is kept.
    pub pace: Pace,
    pub asked: Asked,
    pub watch: &'a V,
}

impl<T: Threads + Sync, C: Clock + Sync, V: Watch> Run<'_, T, C, V> {
    /// Reduces a system by several threads, within these bounds, or by rounds, where so many were made before: then at least so
    /// many interactions are made, unless it ends sooner. Tells how many rounds were made.
    fn reduce_piece(
        &self,
        system: WideSystem,
        rounds: Option<u64>,
        bounds: Bounds,
        watch: &Timed<'_, C, V>,
    ) -> Result<(Reduced, u64), AllocError>
        ensures made { IfOk result (λ made.
            IsMade system bounds self.now.rounds rounds made.0 made.1) }
        ensures few { IfOk result (λ made. (over : ℕ) → rounds ≡ Some over
            → over + made.1 < 2 ^ 64) }
    {
        match rounds {
            Some(over) => {
                let within = RoundBounds {
                    rounds: self.rounds.saturating_sub(over),
                    nodes: bounds.nodes,
                };
                round_in_place(self.alloc, system, within, bounds.steps, watch)
            }
            None => {
                let reduced = reduce_by_workers(
                    self.threads,
                    self.clock,
                    self.alloc,
                    system,
                    self.policy.expecting(bounds.steps),
                    bounds,
                    watch,
                )?;
                Ok((reduced, 0))
            }
        }
    }

    /// Reduces what a state says, by several threads and so many interactions at most, or by rounds, and puts it together. It
    /// tells why no more were made, and how many names and agents there were.
    fn run_piece(
        &self,
        rules: &Arc<RuleSet>,
        state: &mut State,
        bounds: Bounds,
    ) -> Result<Piece, KeepingFault>
        ensures piece { IfOk result (IsPiece (arc_value rules.now).symbols
            bounds state.old state.new) }
        ensures further { (s : SystemParts) (first : Kept) → arc_value rules.now ≡ s.rules
            → IsReachedFrom s first (kept_by state.old)
            → OnOk result (IsReachedFrom s first (kept_by state.new)
            × ComesTogether s first (kept_by state.new)) }
        ensures answer { (s : SystemParts) (most : Bounds) → arc_value rules.now ≡ s.rules
            → IsStateOf s (kept_by state.old) → state.old.rounds ≡ None
            → state.old.interactions + bounds.steps ≤ max most.steps state.old.interactions
            → IfOk result (λ piece. (piece.end ≡ End.Steps → most.steps ≤ state.new.interactions)
            → IsAnswer s most piece.end (kept_by state.new)) }
        // By rounds it is the net after those that are told, and all are made where it has ended at `Steps` and isn't whole.
        ensures by_rounds { (s : SystemParts) (over : ℕ) → arc_value rules.now ≡ s.rules
            → IsStateOf s (kept_by state.old) → state.old.rounds ≡ Some over
            → IfOk result (λ piece. (within : Bounds)
            × (is : IsAnswer s within piece.end (kept_by state.new))
            × IsPieceByRounds s self.now.rounds over is.answer state.new piece) }
        ensures refused { (s : SystemParts) (first : Kept) → arc_value rules.now ≡ s.rules
            → IsReachedFrom s first (kept_by state.old)
            → IfErr result (StopsAPiece s first state.old) }
        ensures only { IfErr result IsOfAPiece }
        // What a piece has reached is never unsound at the next one.
        ensures sound { IsWritten (arc_value rules.now).symbols
            state.old.words.items state.old.terms
            → IfErr result (λ fault. fault ≢ KeepingFault.Unsound) }
    {
        ic_in_place::laws::a_renumbered_net_is_the_same_net();
        ic_reaching::laws::a_name_step_leads_to_one_net();
        ic_reaching::laws::what_is_reached_is_one_net();
        ic_reaching::laws::what_is_reached_goes_on();
        ic_reaching::laws::free_names_stay();
        ic_term::laws::next_is_one_above_the_greatest_name();
        ic_confluence::laws::same_nets_take_the_same_steps();
        ic_round::laws::quiet_is_no_step();
        ic_naming::laws::names_are_told_apart();
        ic_naming::laws::renamed_words_write_renamed_terms();
        ic_naming::laws::renumbered_words_write_the_renumbered_configuration();
        ic_reaching::laws::where_names_begin_is_no_matter();
        ic_reaching::laws::one_net_is_an_equivalence();
        ic_generations::laws::where_names_begin_is_no_matter_to_rounds();
        ic_round::laws::chains_are_steps();
        ic_round::laws::rounds_are_steps();
        let begun = millis_of(self.clock);
        let words = replace(&mut state.words, Vec::new(self.alloc));
        let system = system_of(self.alloc, rules, words, state.terms)?;
        systems_are_sound(&system);
        let timed = Timed::new(self.clock, self.watch, state.interactions);
        let (reduced, made) = self.reduce_piece(system, state.rounds, bounds, &timed)?;
        let over = rounds_over(state.rounds, made);
        state.rounds = rounds_between(state.rounds, self.rounds, reduced.end, over);
        let all = millis_of(self.clock).saturating_sub(begun);
        let piece = take_in(state, reduced, over, all, timed.millis())?;
        Ok(piece)
    }

    /// The bounds of the next piece: as many interactions as it should make, but no more than are left.
    fn bounds_after(&self, interactions: u64, pace: Pace) -> Bounds
        ensures left { result.steps ≤ self.now.bounds.steps - interactions }
        ensures some { interactions < self.now.bounds.steps → 1 ≤ result.steps }
    {
        let left = self.bounds.steps.saturating_sub(interactions);
        Bounds {
            steps: pace.piece.max(1).min(left),
            nodes: self.bounds.nodes,
        }
    }

    /// Goes on with a reduction from a state, in pieces, until it ends. Several threads make a piece. It keeps what each piece
    /// has reached, if that goes further than what was kept last.
    pub fn go_on<D: Disk>(
        &self,
        start: Start,
        keeper: &mut Keeper<D>,
    ) -> Result<Ended, KeepingFault>
        // However often the reduction was stopped before, the answer is one of the system that was read first, and the
        // interactions are those of all runs.
        ensures answer { (s : SystemParts) → IsStartOf s start
            → IfOk result (HasRun s self.now.bounds self.now.rounds self.now.asked
            (kept_by start.state)) }
        ensures on { IfOk result (GoesOn self.now.bounds (kept_by start.state)) }
        // At Ok a state is kept that goes as far, and from which the answer is reached, unless that is within a round.
        ensures kept { (s : SystemParts) → IsStartOf s start → IsKept (kept_by start.state)
            → HasState D.Disk (kept_by start.state) keeper.old
            → IfOk result (λ run. EndsBetween (kept_by start.state) run
            → HasAsFar D.Disk s (kept_by run.state) keeper.new) }
        // It keeps states of this reduction, each of which goes further than the one before it, and no others.
        ensures way { (s : SystemParts) → IsStartOf s start → IsKept (kept_by start.state)
            → KeepsOn D.Disk s (kept_by start.state) keeper.old keeper.new }
        // From a state of a reduction it fails only where memory runs out, at a limit, or where a keep is refused: a disk has
        // failed, or there were as many keeps as are counted. A state that is past no limit isn't refused as it is.
        ensures refused { (s : SystemParts) → IsStartOf s start
            → IfErr result (StopsFrom s (kept_by start.state)) }
        ensures tells { IfErr result (TellsOfKeeper keeper.old keeper.new) }
    {
        states_are_reached();
        let Start { state, rules } = start;
        let mut state = state;
        let mut pace = self.pace;
        let mut kept_ended = state.ended;
        let mut shared: u64 = 0;
        for pieces in 0..u64::MAX {
            let (before, rounds) = (state.interactions, state.rounds);
            let begun = millis_of(self.clock);
            let bounds = self.bounds_after(before, pace);
            let run = self.run_piece(&rules, &mut state, bounds)?;
            if is_broken(rounds, state.rounds) {
                let cut = end_of(self.alloc, rules, state, run, shared, self.asked)?;
                return Ok(cut);
            }
            let now_ended = keep_further(self.alloc, &state, before, kept_ended, keeper)?;
            shared = shared.saturating_add(run.shared);
            let (steps, over) = (self.bounds.steps, state.rounds);
            if ends_run(run.end, state.interactions, steps, over, self.rounds) {
                let ended = end_of(self.alloc, rules, state, run, shared, self.asked)?;
                return Ok(ended);
            }
            kept_ended = now_ended;
            let all = millis_of(self.clock).saturating_sub(begun);
            pace = pace.after(run.millis, all.saturating_sub(run.millis));
        }
        Err(KeepingFault::Limit)
    }

    /// Goes on with a reduction until it ends. A fault hands back the disks of its keeper.
    pub(crate) fn live_on<D: Disk>(
        &self,
        start: Start,
        keeper: Keeper<D>,
    ) -> Result<(Ended, Keeper<D>), ResumeFault<D>>
        ensures ended { IfOk result (λ lived.
            EndsOnWay D.Disk self.now.bounds self.now.rounds self.now.asked start keeper
            lived.0 lived.1) }
        ensures stopped { IfErr result (λ fault. (new : Keeper D)
            × StopsOnWay D.Disk start keeper new fault) }
    {
        let mut keeper = keeper;
        match self.go_on(start, &mut keeper) {
            Ok(ended) => Ok((ended, keeper)),
            Err(cause) => Err(handed_back(keeper, cause)),
        }
    }
}

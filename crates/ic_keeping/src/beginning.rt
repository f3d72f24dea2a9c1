//! The state that a reduction begins with, in two files, and the one with which it goes on.

ghost use Rattle.std.specs.Prelude.{◌≡◌, ◌≢◌, ◌⊎◌, ◌↔◌, ◌≤◌, ℕ, List, [], None, Some, true, false, if◌then◌else◌, Ok, Err, IfOk, IfErr, IsTrue, IsErrOf, OnOk, length, slice_index_or};
ghost use Rattle.std.specs.Arc.{arc_value};
ghost use Rattle.std.specs.List.{AllByRecursion};
ghost use Rattle.ic_disk.specs.Images.{Within};
ghost use Rattle.ic_disk.specs.Time.{OneMore};
ghost use Rattle.ic_frames.specs.declared.faults.OpenCause.{OpenCause};
ghost use Rattle.ic_kept.specs.Course.{HoldOne};
ghost use Rattle.ic_kept.specs.Held.{Answers, Hold};
ghost use Rattle.ic_kept.specs.Keeper.{is_broken, newest_of, other_of};
ghost use Rattle.ic_kept.specs.Sheet.{IsNewest, IsShut};
ghost use Rattle.ic_rules.specs.System.{SystemParts};
ghost use Rattle.ic_state.specs.State.{IsKept, Kept, kept_by, state_bytes};
ghost use Rattle.ic_state.specs.Words.{IsKeptWord};
ghost use Rattle.ic_text.specs.SystemText.{ReadsSystemWithin};
ghost use Rattle.ic_keeping.specs.Life.{AreEmpty, AreRead, HandsBack, HasFailed, HoldAState, IsOpened, IsRead, KeepModel, RefusesFiles, StopsABegin, StopsAnOpening};
ghost use Rattle.ic_keeping.specs.Way.{IsBegun, IsFormOf, IsNoLess, IsStateOf};

use crate::fault::KeepingFault;
use crate::systems::systems_are_sound;
use crate::text::kept_text;
use ic_disk::Disk;
use ic_kept::{CreateFault, Keeper, OpenFault, create};
use ic_rules::RuleSet;
use ic_state::{State, StateFault, are_narrow, decode, encode};
use ic_text::{Limits, Misread, TextFault, find_wide_system};
use std::alloc::{AllocError, Global};
use std::sync::Arc;

/// With what a reduction begins.
#[derive(Drop)]
pub struct Start {
    /// The state of its text, from which no interaction was made.
    pub state: State,
    /// The rules of its text.
    pub rules: Arc<RuleSet>,
}

/// With what the reduction of a text begins, by rounds or in any order.
pub fn begun(alloc: Global, text: &[u8], by_rounds: bool) -> Result<Start, Misread>
    ensures read { IfOk result (λ begun. (s : SystemParts)
        × ReadsSystemWithin Limits.Wide text.now (Ok s) × IsBegun s (kept_by begun.state)
        × (arc_value begun.rules ≡ s.rules)) }
    // The text that is kept with it is read as a system with the same rules, and is no longer.
    ensures short { IfOk result (λ begun. length begun.state.text.items ≤ length text.now) }
    ensures refused { IfErr result (λ misread. misread.fault ≢ TextFault.Memory
        → ReadsSystemWithin Limits.Wide text.now (Err misread.fault)) }
    // Each word has a number, so that no file is refused it.
    ensures numbered { IfOk result (λ begun.
        AllByRecursion (IsKeptWord begun.state.narrow) begun.state.words.items) }
    ensures narrow { IfOk result (λ begun. (begun.state.narrow ≡ true)
        ↔ AllByRecursion (IsKeptWord true) begun.state.words.items) }
    ensures rounds { IfOk result (λ begun.
        begun.state.rounds ≡ if by_rounds then Some 0 else None) }
{
    ic_reaching::laws::what_is_reached_is_one_net();
    ic_reaching::laws::where_names_begin_is_no_matter();
    ic_text::laws::next_is_one_above_the_names();
    let system = find_wide_system(alloc, Limits::Wide, text)?;
    systems_are_sound(&system);
    let (rules, config) = system.into_parts();
    let by_rule = zeros(alloc, rules.rules().len())?;
    let (words, terms, _, _) = config.into_parts();
    let narrow = are_narrow(&words);
    let kept = kept_text(alloc, text, &rules)?;
    let state = State {
        text: kept,
        words,
        terms: terms as u64,
        interactions: 0,
        by_rule,
        ended: false,
        millis: 0,
        rounds: rounds_begun(by_rounds),
        narrow,
    };
    Ok(Start { state, rules })
}

/// How many rounds are over as a reduction begins, where it goes by rounds.
fn rounds_begun(by_rounds: bool) -> Option<u64>
    ensures { result ≡ if by_rounds then Some 0 else None }
{
    if by_rounds { Some(0) } else { None }
}

/// So many counts of nothing.
fn zeros(alloc: Global, rules: usize) -> Result<Vec<u64>, AllocError>
    ensures long { IfOk result (λ counts. length counts.items ≡ rules) }
    ensures none { IfOk result (λ counts. (i : ℕ) → slice_index_or counts.items i 0 ≡ 0) }
{
    let mut counts = Vec::with_capacity(alloc, rules)?;
    counts.resize(rules, 0)?;
    Ok(counts)
}

/// Keeps a state as the first in two files, if both are empty: nothing is written over.
pub fn begin<D: Disk>(
    alloc: Global,
    state: &State,
    first: &mut D,
    second: &mut D,
) -> Result<(), KeepingFault>
    ensures keeps_first { D.keeps first.new ≡ D.keeps first.old }
    ensures keeps_second { D.keeps second.new ≡ D.keeps second.old }

    // A file that holds something is refused, and then nothing is written. Nor is anything at any other answer.
    ensures empty { IsTrue (D.keeps first.old) → IsTrue (D.keeps second.old)
        → OnOk result (AreEmpty D.Disk first.old second.old) }
    ensures spares_first { IsTrue (D.keeps first.old) → IsErrOf result KeepingFault.NotEmpty
        → IsRead D.Disk first.old first.new }
    ensures spares_second { IsTrue (D.keeps second.old) → IsErrOf result KeepingFault.NotEmpty
        → IsRead D.Disk second.old second.new }
    ensures leaves_first { IsTrue (D.keeps first.old) → IsTrue (D.keeps second.old)
        → ¬ AreEmpty D.Disk first.old second.old → IsRead D.Disk first.old first.new }
    ensures leaves_second { IsTrue (D.keeps first.old) → IsTrue (D.keeps second.old)
        → ¬ AreEmpty D.Disk first.old second.old → IsRead D.Disk second.old second.new }
    ensures not_empty { IsTrue (D.keeps first.old) → IsTrue (D.keeps second.old)
        → IsErrOf result KeepingFault.NotEmpty → ¬ AreEmpty D.Disk first.old second.old }

    // There is no other refusal: where a call has failed, where a word of the state has no number, or where memory runs out.
    // After these two the disks are as they were.
    ensures refused { IfErr result StopsABegin }
    ensures device { IsErrOf result KeepingFault.Device
        → OneMore (D.failures first.old) (D.failures first.new)
        ⊎ OneMore (D.failures second.old) (D.failures second.new) }
    ensures limit { IsErrOf result KeepingFault.Limit
        → ¬ AllByRecursion (IsKeptWord state.now.narrow) state.now.words.items }
    ensures untouched { IsErrOf result KeepingFault.Limit ⊎ IsErrOf result KeepingFault.Memory
        → (first.new ≡ first.old) × (second.new ≡ second.old) }

    // At Ok a crash leaves the state in the first file, with the number 1, and the second is shut.
    ensures sound { OnOk result (IsKept (kept_by state.now)) }
    ensures newest { IsTrue (D.keeps first.old) → OnOk result
        (Within (D.image first.new) (IsNewest 1 (state_bytes (kept_by state.now)))) }
    ensures shut { IsTrue (D.keeps second.old) → OnOk result (Within (D.image second.new) IsShut) }

    // So a crash leaves files that hold a state of the reduction.
    ensures kept { (s : SystemParts) → IsStateOf s (kept_by state.now)
        → IsTrue (D.keeps first.old) → IsTrue (D.keeps second.old)
        → OnOk result ((one other : List ℕ) → D.image first.new one → D.image second.new other
        → HoldOne (IsFormOf s) one other) }
{
    let bytes = bytes_of(alloc, state)?;
    match create(first, second, &bytes) {
        Ok(()) => Ok(()),
        Err(CreateFault::NotEmpty) => Err(KeepingFault::NotEmpty),
        Err(CreateFault::Device) => Err(KeepingFault::Device),
    }
}

/// The bytes of a state.
pub(crate) fn bytes_of(alloc: Global, state: &State) -> Result<Vec<u8>, KeepingFault>
    ensures bytes { IfOk result (λ bytes. bytes.items ≡ state_bytes (kept_by state.now)) }
    ensures sound { OnOk result (IsKept (kept_by state.now)) }
    ensures refused { IfErr result (λ fault. (fault ≡ KeepingFault.Memory)
        ⊎ ((fault ≡ KeepingFault.Limit)
        × ¬ AllByRecursion (IsKeptWord state.now.narrow) state.now.words.items)) }
{
    match encode(alloc, state) {
        Ok(bytes) => Ok(bytes),
        Err(StateFault::NotAState) => Err(KeepingFault::Limit),
        Err(StateFault::Memory) => Err(KeepingFault::Memory),
    }
}

/// Two disks on which no state of a reduction was found, in either order, and why.
#[derive(Drop)]
pub struct ResumeFault<D> {
    pub first: D,
    pub second: D,
    pub cause: KeepingFault,
}

/// The state that two files hold, and what keeps the next ones there. It begins with a sync of each, and changes nothing. A
/// fault hands the disks back.
pub fn resume<D: Disk>(
    alloc: Global,
    first: D,
    second: D,
) -> Result<(Keeper<D>, State), ResumeFault<D>>
    // It answers by what reads give, and that state is kept from then on.
    ensures found { KeepModel D.Disk first second
        → IfOk result (λ found. IsOpened D.Disk (kept_by found.1) first second found.0) }
    ensures sound { IfOk result (λ found. IsKept (kept_by found.1)) }
    ensures ready { IfOk result (λ found. is_broken found.0 ≡ false) }

    // Where a state of a reduction was kept, the answer is one of that reduction, unless a call fails or memory runs out.
    ensures state { (s : SystemParts) (from : Kept) → HoldAState D.Disk s from first second
        → IfOk result (λ found. IsStateOf s (kept_by found.1) × IsNoLess from (kept_by found.1)) }
    ensures refused { (s : SystemParts) (from : Kept) → HoldAState D.Disk s from first second
        → IfErr result (λ fault. StopsAnOpening fault.cause) }
    ensures device { IfErr result (λ fault. fault.cause ≡ KeepingFault.Open OpenCause.Device
        → HasFailed D.Disk first second fault) }

    // What it says of the files is pinned, and there is no other refusal. It has only read them.
    ensures named { KeepModel D.Disk first second
        → IfErr result (λ fault. (cause : OpenCause) → fault.cause ≡ KeepingFault.Open cause
        → Answers cause (D.content first) (D.content second)) }
    ensures only { IfErr result (λ fault. RefusesFiles fault.cause) }
    ensures unsound { KeepModel D.Disk first second
        → IfErr result (λ fault. fault.cause ≡ KeepingFault.Unsound → (bytes : List ℕ)
        × Hold bytes (D.content first) (D.content second)
        × ((k : Kept) → IsKept k → bytes ≢ state_bytes k)) }
    ensures reads { KeepModel D.Disk first second → IfErr result (AreRead D.Disk first second) }
{
    ic_kept::laws::one_state_is_held();
    ic_state::laws::each_state_has_its_own_bytes();
    match Keeper::open(alloc, first, second) {
        Ok((keeper, bytes)) => match state_of(alloc, &bytes) {
            Ok(state) => Ok((keeper, state)),
            Err(cause) => Err(handed_back(keeper, cause)),
        },
        Err(fault) => Err(unopened(fault)),
    }
}

/// A fault that hands back the disks of a keeper.
pub(crate) fn handed_back<D: Disk>(keeper: Keeper<D>, cause: KeepingFault) -> ResumeFault<D>
    ensures back { HandsBack keeper result }
    ensures cause { result.cause ≡ cause }
{
    let (first, second) = keeper.close();
    ResumeFault {
        first,
        second,
        cause,
    }
}

/// A fault that hands back two disks on which no state was found.
fn unopened<D: Disk>(fault: OpenFault<D>) -> ResumeFault<D>
    ensures first { result.first ≡ fault.first }
    ensures second { result.second ≡ fault.second }
    ensures cause { result.cause ≡ KeepingFault.Open fault.cause }
{
    let OpenFault {
        first,
        second,
        cause,
    } = fault;
    ResumeFault {
        first,
        second,
        cause: KeepingFault::Open(cause),
    }
}

/// The state of which these bytes are the form.
fn state_of(alloc: Global, bytes: &[u8]) -> Result<State, KeepingFault>
    ensures state { IfOk result (λ state. bytes.now ≡ state_bytes (kept_by state)) }
    ensures sound { IfOk result (λ state. IsKept (kept_by state)) }
    ensures refused { IfErr result (λ fault. (fault ≡ KeepingFault.Memory)
        ⊎ ((kept : Kept) → IsKept kept → bytes.now ≢ state_bytes kept)) }
    ensures unopened { IfErr result (λ fault. (cause : OpenCause)
        → fault ≢ KeepingFault.Open cause) }
    ensures only { IfErr result (λ fault. (fault ≡ KeepingFault.Unsound)
        ⊎ (fault ≡ KeepingFault.Memory)) }
{
    match decode(alloc, bytes) {
        Ok(state) => Ok(state),
        Err(StateFault::NotAState) => Err(KeepingFault::Unsound),
        Err(StateFault::Memory) => Err(KeepingFault::Memory),
    }
}

//! Laws of reductions that are kept.

ghost use Rattle.std.specs.Prelude.{◌≡◌, ◌≢◌, ◌⊎◌, ◌+◌, ◌*◌, ◌-◌, ◌^◌, ◌<◌, ◌≤◌, List, [], ◌++◌, ℕ, true, false, None, Some, Ok, Err, IsNone, IsPermutation, IsTrue, length, max, slice_index_or, if◌then◌else◌};
ghost use Rattle.std.specs.Arc.{arc_value};
ghost use Rattle.std.specs.Option.{option_map};
ghost use Rattle.ic_disk.specs.Images.{Within};
ghost use Rattle.ic_term.specs.Configuration.{Configuration, configuration_nodes};
ghost use Rattle.ic_term.specs.Symbol.{is_over};
ghost use Rattle.ic_term.specs.declared.limits.TheConstants.{MAX_WIDE_NODES};
ghost use Rattle.ic_round.specs.Naming.{HasNames};
ghost use Rattle.ic_round.specs.Quiet.{IsQuiet};
ghost use Rattle.ic_round.specs.Rounds.{iterate};
ghost use Rattle.ic_rules.specs.RuleSet.{IsRuleSet};
ghost use Rattle.ic_confluence.specs.Kinds.{Kind, Chain};
ghost use Rattle.ic_generations.specs.Firings.{rules_of};
ghost use Rattle.ic_reaching.specs.OneNet.{OneNet, SameButNext};
ghost use Rattle.ic_reaching.specs.Reaching.{Reaches, rules_fired};
ghost use Rattle.ic_streams.specs.Stuck.{stuck_text};
ghost use Rattle.ic_flat.specs.Flat.{configuration_of};
ghost use Rattle.ic_flat.specs.Words.{forest, IsWhole};
ghost use Rattle.ic_frames.specs.declared.faults.KeepFault.{KeepFault};
ghost use Rattle.ic_frames.specs.declared.faults.KeepFault.TheVariants as keep;
ghost use Rattle.ic_frames.specs.declared.faults.OpenCause.TheVariants as opening;
ghost use Rattle.ic_frames.specs.declared.faults.OpenCause.{OpenCause};
ghost use Rattle.ic_naming.specs.Naming.{renumbered};
ghost use Rattle.ic_streams.specs.Streams.{line_of};
ghost use Rattle.ic_in_place.specs.declared.running.Bounds.{Bounds};
ghost use Rattle.ic_in_place.specs.declared.running.End.{End};
ghost use Rattle.ic_in_place.specs.declared.running.End.TheVariants.{Limit, Nodes, Quiet, Steps};
ghost use Rattle.ic_in_place.specs.declared.stream.Asked.{Asked};
ghost use Rattle.ic_in_place.specs.Reductions.{is_written, line_reached};
ghost use Rattle.ic_in_place.specs.Counting.{AreCounts, rules_in};
ghost use Rattle.ic_in_place.specs.Reducing.{CanInteract, IsPutTogether};
ghost use Rattle.ic_kept.specs.Course.{HoldOne, HoldOneOf, LeftOnWay};
ghost use Rattle.ic_kept.specs.Held.{Hold};
ghost use Rattle.ic_kept.specs.Keeper.{is_broken, Keeps, KeepsModel, newest_of, number_of, other_of};
ghost use Rattle.ic_kept.specs.Keeping.{CrashInKeeping};
ghost use Rattle.ic_kept.specs.Lives.{AreFound, IsFound, Lives};
ghost use Rattle.ic_kept.specs.Opening.{InSomeOrder};
ghost use Rattle.ic_kept.specs.Sheet.{IsNewest, IsShut};
ghost use Rattle.ic_rules.specs.System.{SystemParts};
ghost use Rattle.ic_state.specs.State.{Kept, IsKept, kept_by, state_bytes};
ghost use Rattle.ic_text.specs.SystemText.{ReadsSystemWithin};
ghost use Rattle.ic_text.specs.declared.limits.Limits.TheVariants.{Wide};
ghost use Rattle.ic_text.specs.declared.limits.TheConstants.{MAX_NAME};
ghost use Rattle.ic_keeping.specs.declared.fault.KeepingFault.{KeepingFault};
ghost use Rattle.ic_keeping.specs.declared.fault.KeepingFault.TheVariants as keeping;
ghost use Rattle.ic_keeping.specs.declared.going.Ended.{Ended};
ghost use Rattle.ic_keeping.specs.Life.{AreEmpty, EndsBetween, GoesOn, HasAsFar, HasEnded, HasFailed, HasLived, HasRun, HasState, HoldAState, IsFirstLife, IsFoundAgain, IsLeftBy, IsNotBegun, IsRead, IsLife, IsTold, KeepFails, KeepModel, KeepsOn, RefusesFiles, StopsABegin, StopsARun, StopsAnOpening, StopsAt, StopsFrom};
ghost use Rattle.ic_keeping.specs.Way.{AreAlike, AreSums, ComesPastLimits, IsAnswer, IsAsFar, IsBegun, IsFormFrom, IsFormOf, IsKeptAfter, IsNoLess, IsOnWay, IsReachedFrom, IsStateOf};

use crate::beginning::ResumeFault;
use ic_disk::Disk;
use ic_kept::Keeper;

/// Stopped at any moment, inside a write or between two, a reduction leaves the state that was kept last, or the one that was
/// coming, which goes further. Both are states of this reduction.
pub fn a_stop_leaves_the_last_state_or_the_next<D: Disk>(keeper: &Keeper<D>)
    ensures held { (s : SystemParts) (first : Kept) (end : Keeper D)
        → HasState D.Disk first keeper.now → (way : KeepsOn D.Disk s first keeper.now end)
        → (kept coming one other : List ℕ)
        → LeftOnWay D.keeps D.image D.clock D.left way kept coming one other
        → HoldOneOf kept coming one other }
    ensures states { (s : SystemParts) (first : Kept) (end : Keeper D) → IsKept first
        → IsStateOf s first → (way : KeepsOn D.Disk s first keeper.now end)
        → (kept coming one other : List ℕ)
        → LeftOnWay D.keeps D.image D.clock D.left way kept coming one other
        → IsFormFrom s first kept
        × ((coming ≡ kept) ⊎ IsKeptAfter s kept coming) }
{
    let _ = keeper;
    ic_state::laws::each_state_has_its_own_bytes();
}

/// However many lives a reduction has had, each of them stopped at any moment, the files hold the state that was kept last, or
/// the one that was coming, and an opening finds one of these. Both are states of the reduction that was begun, and go no
/// less far than the one it began with.
pub fn any_lives_leave_a_state_of_the_reduction<D: Disk>(first: &D, second: &D)
    ensures held { (s : SystemParts) (begun : Kept) (kept coming : List ℕ)
        → Lives D.keeps D.content D.image D.clock D.left (IsKeptAfter s) (state_bytes begun)
        kept coming first.now second.now
        → (one other : List ℕ) → D.image first.now one → D.image second.now other
        → HoldOneOf kept coming one other }
    ensures states { (s : SystemParts) (begun : Kept) (kept coming : List ℕ) → IsKept begun
        → IsStateOf s begun
        → Lives D.keeps D.content D.image D.clock D.left (IsKeptAfter s) (state_bytes begun)
        kept coming first.now second.now
        → IsFormFrom s begun kept
        × ((coming ≡ kept) ⊎ IsKeptAfter s kept coming) }
    ensures opened { (s : SystemParts) (begun found : Kept) (kept coming : List ℕ) → IsKept begun
        → IsStateOf s begun → IsKept found
        → Lives D.keeps D.content D.image D.clock D.left (IsKeptAfter s) (state_bytes begun)
        kept coming first.now second.now
        → Hold (state_bytes found) (D.content first.now) (D.content second.now)
        → IsStateOf s found × ((state_bytes found ≡ kept) ⊎ (state_bytes found ≡ coming)) }
{
    let _ = first;
    let _ = second;
    ic_kept::laws::one_state_is_held();
    ic_state::laws::each_state_has_its_own_bytes();
}

/// Disks are found after lives of a reduction as it begins, and after each more life: one that was stopped as it opened them,
/// or one that opened them and went on. It is no matter which of them is called the first.
pub fn lives_go_on<D: Disk>(first: &D, second: &D)
    // The first file has the state with which it begins, with the number 1, and the second is shut.
    ensures begun { (s : SystemParts) (begun : Kept) → IsKept begun → IsStateOf s begun
        → KeepModel D.Disk first.now second.now
        → Within (D.image first.now) (IsNewest 1 (state_bytes begun))
        → Within (D.image second.now) IsShut → HasLived D.Disk s begun
        (state_bytes begun) (state_bytes begun) first.now second.now }
    // The disks were only read, and are found again in whichever order an opening has handed them out, or back.
    ensures opened { (s : SystemParts) (begun : Kept) (kept coming : List ℕ) (one other : D)
        → HasLived D.Disk s begun kept coming first.now second.now
        → InSomeOrder (IsFoundAgain D.Disk) first.now second.now one other
        → HasLived D.Disk s begun kept coming one other }
    // The images that are found are what a stop on the way of a life has left.
    ensures more { (s : SystemParts) (begun found : Kept) (kept coming last next : List ℕ)
        (one other : D) (k n : Keeper D)
        → HasLived D.Disk s begun kept coming first.now second.now
        → (life : IsLife D.Disk s found first.now second.now k n)
        → IsLeftBy D.Disk life last next one other → HasLived D.Disk s begun last next one other }
    ensures turned { (s : SystemParts) (begun : Kept) (kept coming : List ℕ)
        → HasLived D.Disk s begun kept coming first.now second.now
        → HasLived D.Disk s begun kept coming second.now first.now }
    // Found again is what was only read, and is found after a stop since then. What a stop on the way of a life leaves is left by it.
    ensures again { (read now : D) → IsRead D.Disk first.now read
        → IsFound D.keeps D.content D.image D.clock D.left first.now read now
        → IsFoundAgain D.Disk first.now now }
    ensures left { (s : SystemParts) (found : Kept) (last next : List ℕ) (one other : D)
        (k n : Keeper D) → (life : IsLife D.Disk s found first.now second.now k n)
        → AreFound D.keeps D.content D.image D.clock D.left
        (LeftOnWay D.keeps D.image D.clock D.left life.way last next) one other
        → IsLeftBy D.Disk life last next one other }
{
    let _ = first;
    let _ = second;
}

/// After any lives of a reduction two files hold a state of it, from which `live` goes on: another life may follow.
pub fn another_life_may_follow<D: Disk>(first: &D, second: &D)
    ensures holds { (s : SystemParts) (begun : Kept) (kept coming : List ℕ)
        → HasLived D.Disk s begun kept coming first.now second.now
        → HoldAState D.Disk s begun first.now second.now }
    // So it may at once at the end of a life, also by a fault.
    ensures again { (s : SystemParts) (found : Kept) (k n : Keeper D)
        → IsLife D.Disk s found first.now second.now k n
        → HoldAState D.Disk s found (newest_of n) (other_of n) }
    ensures ended { (s : SystemParts) (bounds : Bounds) (most : ℕ) (asked : Asked) (from : Kept)
        (run : Ended) (n : Keeper D) → HasEnded D.Disk s bounds most asked from first.now second.now run n
        → HoldAState D.Disk s from (newest_of n) (other_of n)
        × (from.interactions ≤ run.state.interactions) }
    ensures stopped { (s : SystemParts) (found : Kept) (k n : Keeper D) (fault : ResumeFault D)
        → IsLife D.Disk s found first.now second.now k n → StopsAt s found k n fault
        → HoldAState D.Disk s found fault.first fault.second }
    ensures stopped_first { (s : SystemParts) (begun : Kept) (n : Keeper D) (fault : ResumeFault D)
        → (life : IsFirstLife D.Disk s begun n) → StopsAt s begun life.keeper n fault
        → HoldAState D.Disk s begun fault.first fault.second }
    // At its end a state is kept that goes as far.
    ensures kept { (s : SystemParts) (k : Kept) (n : Keeper D) → HasAsFar D.Disk s k n
        → (kept : Kept) × IsStateOf s kept × IsAsFar kept k × HasState D.Disk kept n }
    // What was said of the lives of a reduction is said of these.
    ensures lives { (s : SystemParts) (begun : Kept) (kept coming : List ℕ)
        → HasLived D.Disk s begun kept coming first.now second.now
        → IsKept begun × IsStateOf s begun
        × Lives D.keeps D.content D.image D.clock D.left (IsKeptAfter s) (state_bytes begun)
        kept coming first.now second.now }
{
    let _ = first;
    let _ = second;
    ic_kept::laws::one_state_is_held();
    ic_state::laws::each_state_has_its_own_bytes();
}

/// A first life is one of the lives of its reduction: what a stop at any moment of it leaves, after the first state was kept, is
/// found after lives of the reduction, and so another life may follow.
pub fn a_first_life_is_one_of_them<D: Disk>(first: &D, second: &D)
    // Two files were begun so, and opened.
    ensures begun { (s : SystemParts) (begun : Kept) (n : Keeper D)
        → IsFirstLife D.Disk s begun n
        → (one other : D) × (k : Keeper D) × KeepModel D.Disk one other
        × Within (D.image one) (IsNewest 1 (state_bytes begun)) × Within (D.image other) IsShut
        × IsLife D.Disk s begun one other k n }
    ensures stopped { (s : SystemParts) (begun : Kept) (last next : List ℕ) (n : Keeper D)
        → (life : IsFirstLife D.Disk s begun n)
        → IsLeftBy D.Disk life.life last next first.now second.now
        → HasLived D.Disk s begun last next first.now second.now }
    // At its end, also by a fault, its disks hold a state that goes no less far.
    ensures again { (s : SystemParts) (begun : Kept) (n : Keeper D)
        → IsFirstLife D.Disk s begun n
        → HoldAState D.Disk s begun (newest_of n) (other_of n) }
{
    let _ = first;
    let _ = second;
    ic_state::laws::each_state_has_its_own_bytes();
}

/// Where a reduction isn't begun in two files, for want of memory or at a limit, these are handed back as they were: if both were
/// empty, both are. Files that hold something were only read. Nothing else keeps it from being begun but a call that fails.
pub fn what_is_not_begun_is_as_it_was<D: Disk>(first: &D, second: &D)
    ensures same { (fault : ResumeFault D) → IsNotBegun D.Disk first.now second.now fault
        → (fault.cause ≡ keeping.Memory) ⊎ (fault.cause ≡ keeping.Limit)
        → (fault.first ≡ first.now) × (fault.second ≡ second.now) }
    ensures empty { (fault : ResumeFault D) → IsNotBegun D.Disk first.now second.now fault
        → (fault.cause ≡ keeping.Memory) ⊎ (fault.cause ≡ keeping.Limit)
        → AreEmpty D.Disk first.now second.now → AreEmpty D.Disk fault.first fault.second }
    ensures read { (fault : ResumeFault D) → IsNotBegun D.Disk first.now second.now fault
        → fault.cause ≡ keeping.NotEmpty
        → IsRead D.Disk first.now fault.first × IsRead D.Disk second.now fault.second }
    ensures others { (fault : ResumeFault D) → IsNotBegun D.Disk first.now second.now fault
        → (fault.cause ≡ keeping.NotEmpty) ⊎ (fault.cause ≡ keeping.Device)
        ⊎ (fault.cause ≡ keeping.Limit) ⊎ (fault.cause ≡ keeping.Memory) }
    // A call that has failed is counted by its disk, up to 2^64 - 1.
    ensures counted { (fault : ResumeFault D) → HasFailed D.Disk first.now second.now fault
        → (D.failures first.now < D.failures fault.first)
        ⊎ (D.failures second.now < D.failures fault.second)
        ⊎ (D.failures fault.first ≡ 2 ^ 64 - 1) ⊎ (D.failures fault.second ≡ 2 ^ 64 - 1) }
{
    let _ = first;
    let _ = second;
}

/// What a state of a reduction says: its text is read as a system with the same rules, and its interactions lead there. One that has begun is
/// the system's configuration, and of one that has ended no step is possible.
pub fn what_a_kept_state_says()
    ensures reads { (s : SystemParts) (k : Kept) → IsStateOf s k → (read : SystemParts)
        × ReadsSystemWithin Wide k.text (Ok read) × (read.rules ≡ s.rules) }
    ensures sound { (s : SystemParts) (k : Kept) → IsStateOf s k → IsRuleSet s.rules
        × IsTrue (is_over s.rules.symbols s.config) × HasNames s.config }
    ensures way { (s : SystemParts) (k : Kept) → IsStateOf s k → (next : ℕ) × (fired : List ℕ)
        × Reaches s.rules.rules s.config (configuration_of k.words k.terms next) fired
        × (k.interactions ≡ length fired) × AreCounts (length s.rules.rules) fired k.by_rule }
    ensures begun { (s : SystemParts) (k : Kept) → IsBegun s k → IsStateOf s k
        × (configuration_of k.words k.terms s.config.next ≡ s.config)
        × (k.interactions ≡ 0) × (k.ended ≡ false) × (k.millis ≡ 0) }
    ensures ended { (s : SystemParts) (k : Kept) → IsStateOf s k → k.ended ≡ true
        → (next : ℕ) × IsQuiet s.rules.rules (configuration_of k.words k.terms next) }
    // Of one by rounds as many rounds lead there as it tells, and no fewer end quiet. Its interactions are theirs.
    ensures rounds { (s : SystemParts) (k : Kept) (made : ℕ) → IsStateOf s k → k.rounds ≡ Some made
        → ((next : ℕ) × SameButNext (iterate s.rules.rules made s.config)
        (configuration_of k.words k.terms next))
        × ((n : ℕ) → n < made → ¬ IsQuiet s.rules.rules (iterate s.rules.rules n s.config))
        × (k.interactions ≡ length (rules_in s.rules.rules made s.config))
        × AreCounts (length s.rules.rules) (rules_in s.rules.rules made s.config) k.by_rule }
    // Each agent has its arguments, each equation two sides, and the names may stand in a text if there aren't too many words.
    ensures whole { (s : SystemParts) (k : Kept) → IsStateOf s k → IsWhole k.words }
    ensures counted { (s : SystemParts) (k : Kept) → IsStateOf s k
        → (equations : ℕ) × (length (forest k.words) ≡ k.terms + 2 * equations) }
    ensures low { (s : SystemParts) (k : Kept) → IsStateOf s k → length k.words ≤ MAX_WIDE_NODES
        → (next : ℕ) × (fired : List ℕ) × (next ≤ MAX_NAME + 1)
        × Reaches s.rules.rules s.config (configuration_of k.words k.terms next) fired }
{}

/// What the end of a run says that was kept: why there are no more interactions.
pub fn what_a_kept_end_says()
    ensures quiet { (s : SystemParts) (bounds : Bounds) (k : Kept)
        → (is : IsAnswer s bounds Quiet k) → IsQuiet s.rules.rules is.answer }
    ensures steps { (s : SystemParts) (bounds : Bounds) (k : Kept)
        → (is : IsAnswer s bounds Steps k)
        → (bounds.steps ≤ k.interactions) × CanInteract s.rules.rules is.answer }
    ensures nodes { (s : SystemParts) (bounds : Bounds) (k : Kept)
        → IsAnswer s bounds Nodes k → k.interactions < bounds.steps }
    ensures limit { (s : SystemParts) (bounds : Bounds) (k : Kept)
        → IsAnswer s bounds Limit k → k.interactions < bounds.steps }
    // At each end nothing is left that could be put for a name.
    ensures together { (s : SystemParts) (bounds : Bounds) (end : End) (k : Kept)
        → (is : IsAnswer s bounds end k) → IsPutTogether is.answer }
    ensures way { (s : SystemParts) (c : Configuration) (interactions : ℕ) (by_rule : List ℕ)
        → IsOnWay s c interactions by_rule → (fired : List ℕ)
        × Reaches s.rules.rules s.config c fired × (interactions ≡ length fired)
        × AreCounts (length s.rules.rules) fired by_rule }
    ensures sums { (some more all : List ℕ) → AreSums some more all
        → (length more ≡ length some) × (length all ≡ length some)
        × ((i : ℕ) → i < length some
        → slice_index_or all i 0 ≡ slice_index_or some i 0 + slice_index_or more i 0) }
{}

/// Where a reduction is refused at a limit, a net is reached from its state that is past one: the state's own, or one in which
/// nothing is left that could be put for a name.
pub fn what_is_past_a_limit()
    ensures net { (s : SystemParts) (k : Kept) → ComesPastLimits s k → IsStateOf s k × (start : ℕ)
        × (net : Configuration) × (more : List ℕ)
        × Reaches s.rules.rules (configuration_of k.words k.terms start) net more
        × (((next : ℕ) × (net ≡ configuration_of k.words k.terms next)) ⊎ IsPutTogether net)
        × ((MAX_WIDE_NODES < configuration_nodes net)
        ⊎ (2 ^ 64 - 1 ≤ k.interactions + length more)) }
    // A run from a state stops so, for want of memory, or where a keep fails.
    ensures stopped { (s : SystemParts) (k : Kept) (fault : KeepingFault) → StopsFrom s k fault
        → (fault ≡ keeping.Memory) ⊎ ((fault ≡ keeping.Limit) × ComesPastLimits s k)
        ⊎ ((cause : KeepFault) × (fault ≡ keeping.Keep cause)) }
{}

/// What is told at the end of a life: the rules of the system, the line that is asked for, and at a quiet end the first pair
/// that is stuck. A run from a state stops for nothing that stands in its files, and of two files that hold a state an
/// opening is refused by a failing call or for want of memory alone. No reduction fails to begin for what two files keep.
pub fn what_a_life_tells()
    ensures rules { (s : SystemParts) (asked : Asked) (ended : Ended) → IsTold s asked ended
        → arc_value ended.rules ≡ s.rules }
    ensures line { (s : SystemParts) (asked : Asked) (ended : Ended) → IsTold s asked ended
        → ended.line.items ≡ if is_written asked ended.end then line_of s.rules.symbols
        (configuration_of ended.state.words.items ended.state.terms 0) else [] }
    ensures stuck { (s : SystemParts) (asked : Asked) (ended : Ended) → IsTold s asked ended
        → ended.end ≡ Quiet → option_map (λ text. text.items) ended.stuck
        ≡ stuck_text s.rules.symbols
        (configuration_of ended.state.words.items ended.state.terms 0) }
    ensures unstuck { (s : SystemParts) (asked : Asked) (ended : Ended) → IsTold s asked ended
        → ended.end ≢ Quiet → IsNone ended.stuck }
    ensures stops { ¬ StopsARun keeping.Unsound × ¬ StopsARun keeping.NotEmpty
        × ¬ StopsARun keeping.Device × ((cause : OpenCause) → ¬ StopsARun (keeping.Open cause)) }
    ensures opens { ¬ StopsAnOpening keeping.Unsound × ¬ StopsAnOpening keeping.NotEmpty
        × ¬ StopsAnOpening keeping.Limit × ¬ StopsAnOpening keeping.Device
        × ((cause : KeepFault) → ¬ StopsAnOpening (keeping.Keep cause))
        × ((cause : OpenCause) → StopsAnOpening (keeping.Open cause)
        → (cause ≡ opening.Device) ⊎ (cause ≡ opening.Memory)) }
    ensures files { ¬ RefusesFiles keeping.NotEmpty × ¬ RefusesFiles keeping.Limit
        × ¬ RefusesFiles keeping.Device
        × ((cause : KeepFault) → ¬ RefusesFiles (keeping.Keep cause)) }
    ensures begins { ¬ StopsABegin keeping.Unsound
        × ((cause : OpenCause) → ¬ StopsABegin (keeping.Open cause))
        × ((cause : KeepFault) → ¬ StopsABegin (keeping.Keep cause)) }
{}

/// A run goes on from the state that it is given, whatever this is. In any order no more interactions are made in all than may
/// be, if any more are made. The time that is told doesn't fall, and no pair is told to be stuck but at a quiet end.
pub fn a_run_goes_on_within_its_bounds()
    ensures within { (bounds : Bounds) (k : Kept) (run : Ended) → GoesOn bounds k run
        → k.rounds ≡ None → (run.state.interactions ≤ bounds.steps)
        ⊎ (run.state.interactions ≡ k.interactions) }
    ensures millis { (bounds : Bounds) (k : Kept) (run : Ended) → GoesOn bounds k run
        → k.millis ≤ run.state.millis }
    ensures unstuck { (bounds : Bounds) (k : Kept) (run : Ended) → GoesOn bounds k run
        → run.end ≢ Quiet → IsNone run.stuck }
{}

/// Where a life stops after its files were opened, memory ran out, its state leads past a limit, or a keep failed, and its
/// keeper shows how.
pub fn why_a_life_stops<D: Disk>(keeper: &Keeper<D>)
    ensures { (s : SystemParts) (k : Kept) (new : Keeper D) (fault : ResumeFault D)
        → StopsAt s k keeper.now new fault → (fault.cause ≡ keeping.Memory)
        ⊎ ((fault.cause ≡ keeping.Limit) × ComesPastLimits s k)
        ⊎ ((cause : KeepFault) × (fault.cause ≡ keeping.Keep cause)
        × KeepFails cause keeper.now new) }
{
    let _ = keeper;
}

/// What a keep that was refused says of its keeper: it was broken, its number is the last one, or it is broken only now.
pub fn why_a_keep_fails<D: Disk>(keeper: &Keeper<D>)
    ensures broken { (new : Keeper D) → KeepFails keep.Broken keeper.now new
        → (is_broken keeper.now ≡ true) × (new ≡ keeper.now) }
    ensures worn { (new : Keeper D) → KeepFails keep.Worn keeper.now new
        → (is_broken keeper.now ≡ false) × (is_broken new ≡ false)
        × (number_of new ≡ 2 ^ 64 - 1) }
    ensures device { (new : Keeper D) → KeepFails keep.Device keeper.now new
        → (is_broken keeper.now ≡ false) × (is_broken new ≡ true) }
{
    let _ = keeper;
}

/// A keep spares the disk of the file that has the newest state. At `Ok` that is the one which is written next, and whatever
/// is kept then is the next state. At a refusal it has the newest state still.
pub fn a_keep_spares_the_newest_file<D: Disk>(keeper: &Keeper<D>)
    ensures kept { (next : List ℕ) (done : Unit {0}) (new : Keeper D)
        → CrashInKeeping D.keeps D.image D.clock D.left next (Ok done) keeper.now new
        → other_of new ≡ newest_of keeper.now }
    ensures held { (state next : List ℕ) (done : Unit {0}) (new : Keeper D)
        → CrashInKeeping D.keeps D.image D.clock D.left next (Ok done) keeper.now new
        → KeepsModel D.keeps keeper.now → Keeps D.image state keeper.now
        → Keeps D.image next new }
    ensures refused { (next : List ℕ) (fault : KeepFault) (new : Keeper D)
        → CrashInKeeping {T = Unit {0}} D.keeps D.image D.clock D.left next (Err fault)
        keeper.now new → newest_of new ≡ newest_of keeper.now }
{
    let _ = keeper;
}

/// A state that is kept after another one is reached from there. It has more interactions, or as many and has ended where the
/// other hadn't, and no more names and agents than are read. What is kept of a reduction is what is read back as one of its
/// states.
pub fn kept_states_go_on()
    ensures after { (s : SystemParts) (k next : Kept) → IsKept k → IsKept next
        → IsKeptAfter s (state_bytes k) (state_bytes next)
        → IsReachedFrom s k next × ((k.interactions < next.interactions)
        ⊎ ((k.interactions ≡ next.interactions) × (k.ended ≡ false) × (next.ended ≡ true))) }
    ensures rounds { (s : SystemParts) (k next : Kept) → IsKept k → IsKept next
        → IsKeptAfter s (state_bytes k) (state_bytes next) → AreAlike k.rounds next.rounds }
    // By rounds, where it has more interactions, more rounds are over.
    ensures more_rounds { (s : SystemParts) (k next : Kept) (m n : ℕ) → IsKept k → IsKept next
        → IsKeptAfter s (state_bytes k) (state_bytes next) → k.rounds ≡ Some m
        → next.rounds ≡ Some n → k.interactions < next.interactions → m < n }
    ensures few { (s : SystemParts) (k next : Kept) → IsKept k → IsKept next
        → IsKeptAfter s (state_bytes k) (state_bytes next) → length next.words ≤ MAX_WIDE_NODES }
    ensures reached { (s : SystemParts) (k next : Kept) → IsReachedFrom s k next
        → IsStateOf s k × IsStateOf s next × (one : ℕ) × (other : ℕ) × (more : List ℕ)
        × Reaches s.rules.rules (configuration_of k.words k.terms one)
        (configuration_of next.words next.terms other) more
        × (next.interactions ≡ k.interactions + length more)
        × (next.text ≡ k.text) × (k.millis ≤ next.millis) }
    // What a run has come to is reached so from the state that it was given.
    ensures run { (s : SystemParts) (bounds : Bounds) (most : ℕ) (asked : Asked) (k : Kept)
        (run : Ended) → HasRun s bounds most asked k run
        → (one : ℕ) × (other : ℕ) × (more : List ℕ)
        × Reaches s.rules.rules (configuration_of k.words k.terms one)
        (configuration_of run.state.words.items run.state.terms other) more
        × (run.state.interactions ≡ k.interactions + length more)
        × (run.state.text.items ≡ k.text) }
    ensures as_far { (kept k : Kept) → IsAsFar kept k → (kept.interactions ≡ k.interactions)
        × (kept.by_rule ≡ k.by_rule) × (k.ended ≡ true → kept.ended ≡ true) }
    ensures of { (s : SystemParts) (from : Kept) (one other : List ℕ)
        → HoldOne (IsFormFrom s from) one other → HoldOne (IsFormOf s) one other }
    ensures from { (s : SystemParts) (one other : List ℕ)
        → HoldOne (IsFormOf s) one other → (k : Kept) × HoldOne (IsFormFrom s k) one other }
    // A state that two files hold after any lives goes by rounds if the first one did, and by no fewer.
    ensures no_less { (from k : Kept) → IsNoLess from k
        → (from.interactions ≤ k.interactions) × AreAlike from.rounds k.rounds }
{
    ic_state::laws::each_state_has_its_own_bytes();
}

/// What was kept is read back: the state of which its bytes are the form is one of the reduction. So `decode` gives a state
/// from which `go_on` goes on with it.
pub fn what_was_kept_is_read_back()
    ensures { (s : SystemParts) (bytes : List ℕ) (k : Kept) → IsFormOf s bytes → IsKept k
        → bytes ≡ state_bytes k → IsStateOf s k }
{
    ic_state::laws::each_state_has_its_own_bytes();
}

/// Where a reduction that is kept ends quiet, its answer is the net of every order, and each rule fired as often as in every
/// order, however often the reduction was stopped.
pub fn a_kept_answer_is_that_of_every_order()
    ensures net { (s : SystemParts) (bounds : Bounds) (k : Kept) (e : Configuration)
        (kinds : List Kind) → (is : IsAnswer s bounds Quiet k)
        → Chain s.rules.rules kinds s.config e → IsQuiet s.rules.rules e
        → SameButNext is.answer e }
    ensures interactions { (s : SystemParts) (bounds : Bounds) (k : Kept)
        (e : Configuration) (kinds : List Kind) → IsAnswer s bounds Quiet k
        → Chain s.rules.rules kinds s.config e → IsQuiet s.rules.rules e
        → length (rules_fired kinds) ≡ k.interactions }
    ensures by_rule { (s : SystemParts) (bounds : Bounds) (k : Kept)
        (e : Configuration) (kinds : List Kind) → IsAnswer s bounds Quiet k
        → Chain s.rules.rules kinds s.config e → IsQuiet s.rules.rules e
        → AreCounts (length s.rules.rules) (rules_fired kinds) k.by_rule }
    // What is told are the interactions of one chain of steps, and the answer is one net with its end.
    ensures chain { (s : SystemParts) (bounds : Bounds) (end : End) (k : Kept)
        → (is : IsAnswer s bounds end k)
        → (kinds : List Kind) × (e : Configuration) × Chain s.rules.rules kinds s.config e
        × (length (rules_fired kinds) ≡ k.interactions)
        × AreCounts (length s.rules.rules) (rules_fired kinds) k.by_rule × OneNet e is.answer }
{
    ic_reaching::laws::what_is_reached_quiet_is_the_end_of_every_order();
}

/// What is told of an answer is what a reduction that isn't kept tells of it: its line is that of the answer with its names
/// numbered anew, and so is the pair that is stuck at a quiet end.
pub fn a_kept_answer_is_told_as_any_other()
    ensures line { (s : SystemParts) (bounds : Bounds) (end : End) (k : Kept)
        (asked : Asked) → (is : IsAnswer s bounds end k)
        → (if is_written asked end
        then line_of s.rules.symbols (configuration_of k.words k.terms 0) else [])
        ≡ line_reached asked end s.rules.symbols is.answer }
    ensures stuck { (s : SystemParts) (bounds : Bounds) (k : Kept)
        → (is : IsAnswer s bounds Quiet k)
        → stuck_text s.rules.symbols (configuration_of k.words k.terms 0)
        ≡ stuck_text s.rules.symbols (renumbered is.answer) }
    // So a run tells of its answer, and by the rules of the system.
    ensures run { (s : SystemParts) (bounds : Bounds) (most : ℕ) (asked : Asked) (k : Kept)
        (run : Ended) → (has : HasRun s bounds most asked k run)
        → (arc_value run.rules ≡ s.rules) × (run.line.items
        ≡ line_reached asked run.end s.rules.symbols has.answer.answer) }
    ensures run_stuck { (s : SystemParts) (bounds : Bounds) (most : ℕ) (asked : Asked) (k : Kept)
        (run : Ended) → (has : HasRun s bounds most asked k run) → run.end ≡ Quiet
        → option_map (λ text. text.items) run.stuck
        ≡ stuck_text s.rules.symbols (renumbered has.answer.answer) }
{}

/// What a run by rounds tells that has ended as a round was over: how many are over, and the net after them. At a quiet end no step is
/// possible then, and was before each of them; else there are as many as may be, and one more is possible. So it is told of
/// any number of lives as it is of one that isn't stopped.
pub fn what_a_run_by_rounds_tells()
    ensures net { (s : SystemParts) (bounds : Bounds) (most : ℕ) (asked : Asked) (k : Kept)
        (run : Ended) (made : ℕ) → (has : HasRun s bounds most asked k run) → k.rounds ≡ Some made
        → (run.end ≡ Quiet) ⊎ (run.end ≡ Steps) → (rounds : ℕ) × (run.rounds ≡ Some rounds)
        × (rounds ≤ max most made) × OneNet has.answer.answer (iterate s.rules.rules rounds s.config)
        × ((n : ℕ) → n < rounds → ¬ IsQuiet s.rules.rules (iterate s.rules.rules n s.config)) }
    // The interactions are those of these rounds, of each rule too.
    ensures fired { (s : SystemParts) (bounds : Bounds) (most : ℕ) (asked : Asked) (k : Kept)
        (run : Ended) (made : ℕ) → HasRun s bounds most asked k run → k.rounds ≡ Some made
        → (run.end ≡ Quiet) ⊎ (run.end ≡ Steps) → (rounds : ℕ) × (run.rounds ≡ Some rounds)
        × (run.state.interactions ≡ length (rules_in s.rules.rules rounds s.config))
        × AreCounts (length s.rules.rules) (rules_in s.rules.rules rounds s.config)
        run.state.by_rule.items }
    // Broken off within a round, they are those of these rounds, and of pairs since: with the rest of them, these are what the next
    // round fires.
    ensures within { (s : SystemParts) (bounds : Bounds) (most : ℕ) (asked : Asked) (k : Kept)
        (run : Ended) (made : ℕ) → HasRun s bounds most asked k run → k.rounds ≡ Some made
        → (rounds : ℕ) × (run.rounds ≡ Some rounds) × (since : List ℕ)
        × (run.state.interactions ≡ length (rules_in s.rules.rules rounds s.config ++ since))
        × AreCounts (length s.rules.rules) (rules_in s.rules.rules rounds s.config ++ since)
        run.state.by_rule.items × (rest : List ℕ) × IsPermutation (since ++ rest)
        (rules_of s.rules.rules (iterate s.rules.rules rounds s.config).equations) }
    // No fewer are told than were made before, unless a bound or a limit came before any pair had fired.
    ensures no_fewer { (s : SystemParts) (bounds : Bounds) (most : ℕ) (asked : Asked) (k : Kept)
        (run : Ended) (made rounds : ℕ) → HasRun s bounds most asked k run → k.rounds ≡ Some made
        → run.rounds ≡ Some rounds
        → (made ≤ rounds) ⊎ ((rounds ≡ 0) × (run.state.interactions ≡ 0) × (run.end ≢ Quiet)
        × (run.end ≢ Steps)) }
    // In any order none are told, and its answer is one within the bounds that were asked for.
    ensures any_order { (s : SystemParts) (bounds : Bounds) (most : ℕ) (asked : Asked) (k : Kept)
        (run : Ended) → HasRun s bounds most asked k run → k.rounds ≡ None → run.rounds ≡ None }
    ensures bounded { (s : SystemParts) (bounds : Bounds) (most : ℕ) (asked : Asked) (k : Kept)
        (run : Ended) → HasRun s bounds most asked k run → k.rounds ≡ None
        → IsAnswer s bounds run.end (kept_by run.state) }
    ensures steps { (s : SystemParts) (bounds : Bounds) (most : ℕ) (asked : Asked) (k : Kept)
        (run : Ended) (made : ℕ) → (has : HasRun s bounds most asked k run) → k.rounds ≡ Some made
        → run.end ≡ Steps → (rounds : ℕ) × (run.rounds ≡ Some rounds) × (most ≤ rounds)
        × CanInteract s.rules.rules has.answer.answer }
{}

/// As a life ends between two rounds, or in any order, a state is kept that goes as far as what is told: so it is wherever it ends
/// quiet, or as all rounds are made, of which some were to be made.
pub fn a_life_keeps_what_it_tells<D: Disk>(first: &D, second: &D)
    ensures rounds { (s : SystemParts) (bounds : Bounds) (most : ℕ) (asked : Asked) (from : Kept)
        (run : Ended) (n : Keeper D) (made : ℕ)
        → (has : HasEnded D.Disk s bounds most asked from first.now second.now run n)
        → has.found.rounds ≡ Some made → made < most → (run.end ≡ Quiet) ⊎ (run.end ≡ Steps)
        → (run.state.rounds ≡ run.rounds) × HasAsFar D.Disk s (kept_by run.state) n }
    ensures any_order { (s : SystemParts) (bounds : Bounds) (most : ℕ) (asked : Asked) (from : Kept)
        (run : Ended) (n : Keeper D)
        → (has : HasEnded D.Disk s bounds most asked from first.now second.now run n)
        → has.found.rounds ≡ None → HasAsFar D.Disk s (kept_by run.state) n }
    // Of a run by itself the same is known: at these ends it has ended between two rounds.
    ensures between { (s : SystemParts) (bounds : Bounds) (most : ℕ) (asked : Asked) (k : Kept)
        (run : Ended) (made : ℕ) → HasRun s bounds most asked k run → k.rounds ≡ Some made
        → made < most → (run.end ≡ Quiet) ⊎ (run.end ≡ Steps) → EndsBetween k run }
{
    let _ = first;
    let _ = second;
}

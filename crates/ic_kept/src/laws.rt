//! Laws of the definitions that the contracts of this crate cite.

ghost use Rattle.std.specs.Prelude.{◌≡◌, ◌⊎◌, ◌≤◌, ◌-◌, ◌^◌, ℕ, Bool, true, false, List, [], ◌∷◌, Result, Ok, Err, IsTrue, length};
ghost use Rattle.ic_frames.specs.declared.faults.KeepFault.{KeepFault};
ghost use Rattle.ic_frames.specs.declared.faults.KeepFault.TheVariants as keep;
ghost use Rattle.ic_frames.specs.declared.faults.OpenCause.{OpenCause};
ghost use Rattle.ic_frames.specs.declared.faults.OpenCause.TheVariants as opening;
ghost use Rattle.ic_kept.specs.Course.{Course, HoldOneOf, IsKeep, Leads, LeftInCourse, LeftOnWay, Way, last_refused, one_more};
ghost use Rattle.ic_kept.specs.Held.{Answers, Hold, HoldEither};
ghost use Rattle.ic_kept.specs.Keeper.{Keeps, KeepsModel, is_broken, newest_of, number_of, other_of};
ghost use Rattle.ic_kept.specs.Keeping.{FaultLeaves};
ghost use Rattle.ic_kept.specs.Lives.{Lives};
ghost use Rattle.ic_kept.specs.Sheet.{IsNewest};
ghost use Rattle.ic_kept.specs.Worked.{file_by_hand, shut_by_hand};
ghost use Rattle.ic_kept.specs.declared.head.TheConstants.{HEAD};

use crate::Keeper;
use ic_disk::Disk;

/// The fields of a file, by one that is written by hand.
pub fn a_file_by_hand()
    ensures newest { IsNewest 258 (5 ∷ 6 ∷ 7 ∷ []) file_by_hand }
    ensures lengths { (length file_by_hand ≡ 21) × (HEAD ≡ 17) }
{}

/// Which refusal is whose, by three pairs of files that are written by hand: both gates are closed, both open before one
/// number, and one file is empty.
pub fn refusals_by_hand()
    ensures no_slot { Answers opening.NoSlot shut_by_hand shut_by_hand }
    ensures two_alike { Answers opening.TwoAlike file_by_hand file_by_hand }
    ensures damaged { Answers opening.Damaged [] file_by_hand }
{}

/// Two files hold one state at most.
pub fn one_state_is_held()
    ensures { (state other first second : List ℕ) → Hold state first second
        → Hold other first second → state ≡ other }
{}

/// Files that are refused for what stands in them hold no state, and only one refusal is that of two files.
pub fn what_is_refused_holds_no_state()
    ensures none { (cause : OpenCause) (state first second : List ℕ) → Answers cause first second
        → Hold state first second → (cause ≡ opening.Device) ⊎ (cause ≡ opening.Memory) }
    ensures shut { (first second : List ℕ) → Answers opening.NoSlot first second
        → ¬ Answers opening.TwoAlike first second × ¬ Answers opening.Damaged first second }
    ensures alike { (first second : List ℕ) → Answers opening.TwoAlike first second
        → ¬ Answers opening.Damaged first second }
{}

/// Which refusal of a keep comes when. Where none comes, no disk has failed.
pub fn keeps_are_refused_so<D: Disk>(keeper: &Keeper<D>)
    ensures broken { (new : Keeper D) → FaultLeaves {T = Unit {0}} (Err keep.Broken) keeper.now new
        → (is_broken keeper.now ≡ true) × (new ≡ keeper.now) }
    ensures worn { (new : Keeper D) → FaultLeaves {T = Unit {0}} (Err keep.Worn) keeper.now new
        → (is_broken keeper.now ≡ false) × (number_of keeper.now ≡ 2 ^ 64 - 1) × (new ≡ keeper.now) }
    ensures device { (new : Keeper D) → FaultLeaves {T = Unit {0}} (Err keep.Device) keeper.now new
        → (is_broken keeper.now ≡ false) × (is_broken new ≡ true) }
    ensures kept { (new : Keeper D) → FaultLeaves {T = Unit {0}} (Ok tt) keeper.now new
        → (is_broken keeper.now ≡ false) × (is_broken new ≡ false) }
{
    let _ = keeper;
}

/// Files that hold the one state or the next hold one of them and nothing else, whichever file is called the first.
pub fn one_of_two_is_held()
    ensures some { (n : ℕ) (state next newest other : List ℕ) → HoldEither n state next newest other
        → Hold state newest other ⊎ Hold next newest other }
    ensures only { (n : ℕ) (state next newest other held : List ℕ)
        → HoldEither n state next newest other → Hold held newest other
        → (held ≡ state) ⊎ (held ≡ next) }
    ensures either_way { (state first second : List ℕ) → Hold state first second
        → Hold state second first }
{}

/// A stop at any moment of keeps, one after another, leaves the state that was kept last, or the one that was coming. Each of
/// them may come after the one before it.
pub fn a_stop_leaves_the_last_state_or_the_next<D: Disk>(keeper: &Keeper<D>)
    ensures held { (after : (old new : List ℕ) → Bool) (end : Keeper D) (first : List ℕ)
        → KeepsModel D.keeps keeper.now → Keeps D.image first keeper.now
        → (way : Way D.keeps D.image D.clock D.left (λ old new. IsTrue (after old new))
        first keeper.now end)
        → (kept coming one other : List ℕ)
        → LeftOnWay D.keeps D.image D.clock D.left way kept coming one other
        → HoldOneOf kept coming one other }
    ensures led { (after : (old new : List ℕ) → Bool) (end : Keeper D) (first : List ℕ)
        → (way : Way D.keeps D.image D.clock D.left (λ old new. IsTrue (after old new))
        first keeper.now end)
        → (kept coming one other : List ℕ)
        → LeftOnWay D.keeps D.image D.clock D.left way kept coming one other
        → Leads (λ old new. IsTrue (after old new)) first kept
        × ((coming ≡ kept) ⊎ IsTrue (after kept coming)) }
{
    let _ = keeper;
}

/// Each moment is one at which a stop may come: before, between and after keeps, also where the last one is refused, and all
/// that since its beginning a keep has left on the disk that it writes.
pub fn a_stop_may_come_at_each_moment<D: Disk>(keeper: &Keeper<D>)
    ensures between { (after : (old new : List ℕ) → Bool) (first last : List ℕ) (end : Keeper D)
        → (course : Course D.keeps D.image D.clock D.left (λ old new. IsTrue (after old new))
        first keeper.now last end)
        → (one other : List ℕ) → D.image (newest_of end) one → D.image (other_of end) other
        → LeftInCourse D.keeps D.image D.clock D.left course last last one other }
    ensures earlier { (after : (old new : List ℕ) → Bool) (first last next : List ℕ)
        (mid end : Keeper D)
        → (course : Course D.keeps D.image D.clock D.left (λ old new. IsTrue (after old new))
        first keeper.now last mid)
        → (comes : IsTrue (after last next))
        → (keep : IsKeep D.keeps D.image D.clock D.left next (Ok tt) mid end)
        → (kept coming one other : List ℕ)
        → LeftInCourse D.keeps D.image D.clock D.left course kept coming one other
        → LeftInCourse D.keeps D.image D.clock D.left
        (one_more first last next keeper.now mid end course comes keep) kept coming one other }
    ensures midst { (after : (old new : List ℕ) → Bool) (first last next : List ℕ)
        (mid end : Keeper D)
        → (course : Course D.keeps D.image D.clock D.left (λ old new. IsTrue (after old new))
        first keeper.now last mid)
        → (comes : IsTrue (after last next))
        → (keep : IsKeep D.keeps D.image D.clock D.left next (Ok tt) mid end)
        → (t : ℕ) (one other : List ℕ) → D.image (newest_of mid) one → D.clock (other_of mid) ≤ t
        → D.left (newest_of end) t other
        → LeftInCourse D.keeps D.image D.clock D.left
        (one_more first last next keeper.now mid end course comes keep) last next one other }
    ensures refused { (after : (old new : List ℕ) → Bool) (first last next : List ℕ)
        (mid end : Keeper D) (fault : KeepFault)
        → (course : Course D.keeps D.image D.clock D.left (λ old new. IsTrue (after old new))
        first keeper.now last mid)
        → (comes : IsTrue (after last next))
        → (keep : IsKeep D.keeps D.image D.clock D.left next (Err fault) mid end)
        → (t : ℕ) (one other : List ℕ) → D.image (newest_of mid) one → D.clock (other_of mid) ≤ t
        → D.left (other_of end) t other
        → LeftOnWay D.keeps D.image D.clock D.left
        (last_refused first last next keeper.now mid end fault course comes keep)
        last next one other }
    ensures earlier_refused { (after : (old new : List ℕ) → Bool) (first last next : List ℕ)
        (mid end : Keeper D) (fault : KeepFault)
        → (course : Course D.keeps D.image D.clock D.left (λ old new. IsTrue (after old new))
        first keeper.now last mid)
        → (comes : IsTrue (after last next))
        → (keep : IsKeep D.keeps D.image D.clock D.left next (Err fault) mid end)
        → (kept coming one other : List ℕ)
        → LeftInCourse D.keeps D.image D.clock D.left course kept coming one other
        → LeftOnWay D.keeps D.image D.clock D.left
        (last_refused first last next keeper.now mid end fault course comes keep)
        kept coming one other }
{
    let _ = keeper;
}

/// After any list of lives, each stopped at any moment, the files hold the state that was kept last, or the one that was
/// coming, and an opening finds one of these. The states lead from one to another.
pub fn any_lives_leave_a_state_that_was_kept<D: Disk>(first: &D, second: &D)
    ensures held { (after : (old new : List ℕ) → Bool) (begun kept coming : List ℕ)
        → Lives D.keeps D.content D.image D.clock D.left (λ old new. IsTrue (after old new))
        begun kept coming first.now second.now
        → (one other : List ℕ) → D.image first.now one → D.image second.now other
        → HoldOneOf kept coming one other }
    ensures led { (after : (old new : List ℕ) → Bool) (begun kept coming : List ℕ)
        → Lives D.keeps D.content D.image D.clock D.left (λ old new. IsTrue (after old new))
        begun kept coming first.now second.now
        → Leads (λ old new. IsTrue (after old new)) begun kept
        × ((coming ≡ kept) ⊎ IsTrue (after kept coming)) }
    ensures opened { (after : (old new : List ℕ) → Bool) (begun kept coming state : List ℕ)
        → Lives D.keeps D.content D.image D.clock D.left (λ old new. IsTrue (after old new))
        begun kept coming first.now second.now
        → Hold state (D.content first.now) (D.content second.now)
        → (state ≡ kept) ⊎ (state ≡ coming) }
{
    let _ = first;
    let _ = second;
}

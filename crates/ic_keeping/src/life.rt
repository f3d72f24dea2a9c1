//! One life of a reduction that is kept: from the state that two files hold until it ends.

ghost use Rattle.std.specs.Prelude.{◌≡◌, ◌≢◌, ◌⊎◌, ◌↔◌, ℕ, List, Ok, IfOk, IfErr, IsErr, length, true};
ghost use Rattle.ic_frames.specs.declared.faults.KeepFault.{KeepFault};
ghost use Rattle.ic_frames.specs.declared.faults.OpenCause.{OpenCause};
ghost use Rattle.ic_kept.specs.Held.{Answers, Hold};
ghost use Rattle.ic_rules.specs.System.{SystemParts};
ghost use Rattle.ic_state.specs.State.{IsKept, Kept, state_bytes};
ghost use Rattle.ic_text.specs.SystemText.{ReadsSystemWithin};
ghost use Rattle.ic_text.specs.declared.limits.Limits.TheVariants.{Wide};
ghost use Rattle.ic_keeping.specs.declared.fault.KeepingFault.{KeepingFault};
ghost use Rattle.ic_keeping.specs.Life.{AreRead, HasEnded, HasFailed, HoldAState, IsLife, KeepModel, RefusesFiles, StopsAnOpening, StopsAt};
ghost use Rattle.ic_keeping.specs.Way.{IsFormOf};

use crate::beginning::{ResumeFault, Start, handed_back, resume};
use crate::going::{Ended, Run, rules_for};
use ic_disk::Disk;
use ic_in_place::{End, Watch};
use ic_kept::Keeper;
use std::thread::Threads;
use std::time::Clock;

impl<T: Threads + Sync, C: Clock + Sync, V: Watch> Run<'_, T, C, V> {
    /// Finds the state that two files hold, and goes on with its reduction until that ends. A fault hands the disks back.
    pub fn live<D: Disk>(&self, first: D, second: D) -> Result<(Ended, Keeper<D>), ResumeFault<D>>
        // From two files that hold a state of the reduction of a system, as after any lives of it (`laws::lives_go_on`), it is
        // one more of them: it answers that system, and keeps a state that goes as far.
        ensures ended { (s : SystemParts) (from : Kept) → HoldAState D.Disk s from first second
            → IfOk result (λ lived. HasEnded D.Disk s self.now.bounds self.now.rounds
            self.now.asked from first second lived.0 lived.1) }
        ensures quiet { IfOk result (λ lived.
            (lived.0.state.ended ≡ true) ↔ (lived.0.end ≡ End.Quiet)) }
        // So it is where it stops by a fault, unless it has only read the two disks.
        ensures stopped { (s : SystemParts) (from : Kept) → HoldAState D.Disk s from first second
            → IfErr result (λ fault. (AreRead D.Disk first second fault
            × StopsAnOpening fault.cause) ⊎ ((found : Kept) × (k n : Keeper D)
            × IsLife D.Disk s found first second k n × StopsAt s found k n fault)) }
        ensures device { IfErr result (λ fault. fault.cause ≡ KeepingFault.Open OpenCause.Device
            → HasFailed D.Disk first second fault) }
        // A keeper that was opened isn't broken before its first keep.
        ensures usable { IfErr result (λ fault. fault.cause ≢ KeepingFault.Keep KeepFault.Broken) }
        // Of any two files: what it says of them is so, and it doesn't write over what it refuses. It is unsound only if that is
        // no state of a reduction.
        ensures named { KeepModel D.Disk first second
            → IfErr result (λ fault. (cause : OpenCause) → fault.cause ≡ KeepingFault.Open cause
            → Answers cause (D.content first) (D.content second)) }
        ensures unsound { KeepModel D.Disk first second
            → IfErr result (λ fault. fault.cause ≡ KeepingFault.Unsound → (bytes : List ℕ)
            × Hold bytes (D.content first) (D.content second)
            × ((s : SystemParts) → ¬ IsFormOf s bytes)) }
        ensures reads { KeepModel D.Disk first second → IfErr result (λ fault.
            ((cause : OpenCause) × (fault.cause ≡ KeepingFault.Open cause))
            ⊎ (fault.cause ≡ KeepingFault.Unsound) → AreRead D.Disk first second fault) }
        // Files from which no reduction goes on are refused and only read: they hold no state, or one whose text is read as no
        // system with as many rules as it has counts.
        ensures none { KeepModel D.Disk first second
            → ((k : Kept) → IsKept k → Hold (state_bytes k) (D.content first) (D.content second)
            → (s : SystemParts) → ReadsSystemWithin Wide k.text (Ok s)
            → length k.by_rule ≢ length s.rules.rules)
            → IsErr result × IfErr result (λ fault.
            AreRead D.Disk first second fault × RefusesFiles fault.cause) }
    {
        ic_state::laws::each_state_has_its_own_bytes();
        let (keeper, state) = resume(self.alloc, first, second)?;
        match rules_for(self.alloc, &state) {
            Ok(rules) => self.live_on(Start { state, rules }, keeper),
            Err(cause) => Err(handed_back(keeper, cause)),
        }
    }
}

//! The first life of a reduction that is kept: from its text until it ends.

ghost use Rattle.std.specs.Prelude.{◌≡◌, ◌≢◌, ◌⊎◌, IfOk, IfErr, IsErr};
ghost use Rattle.std.specs.List.{AllByRecursion};
ghost use Rattle.ic_frames.specs.declared.faults.KeepFault.{KeepFault};
ghost use Rattle.ic_rules.specs.System.{SystemParts};
ghost use Rattle.ic_state.specs.State.{kept_by};
ghost use Rattle.ic_state.specs.Words.{IsKeptWord};
ghost use Rattle.ic_keeping.specs.declared.fault.KeepingFault.{KeepingFault};
ghost use Rattle.ic_keeping.specs.Life.{AreEmpty, EndsBetween, GoesOn, HasAsFar, HasFailed, HasRun, IsFirstLife, IsNotBegun, IsRead, IsStartOf, KeepModel, StopsABegin, StopsARun, StopsAt};
ghost use Rattle.ic_keeping.specs.Way.{ComesPastLimits};

use crate::beginning::{ResumeFault, Start, begin};
use crate::going::{Ended, Run};
use ic_disk::Disk;
use ic_in_place::Watch;
use ic_kept::Keeper;
use std::thread::Threads;
use std::time::Clock;

impl<T: Threads + Sync, C: Clock + Sync, V: Watch> Run<'_, T, C, V> {
    /// Keeps the state that a text begins with in two files, if both are empty, and goes on with its reduction until that ends.
    /// Nothing of what it has kept is read again. A fault hands the disks back.
    pub fn live_anew<D: Disk>(
        &self,
        start: Start,
        first: D,
        second: D,
    ) -> Result<(Ended, Keeper<D>), ResumeFault<D>>
        // Of a state and rules that `begun` has read it answers their system.
        ensures answer { (s : SystemParts) → IsStartOf s start → IfOk result (λ lived.
            HasRun s self.now.bounds self.now.rounds self.now.asked (kept_by start.state) lived.0) }
        ensures on { IfOk result (λ lived.
            GoesOn self.now.bounds (kept_by start.state) lived.0) }
        // It has begun two files that were empty, as `begin` does, and is the first life of the reduction. A state is kept then
        // that goes as far, unless it has ended within a round.
        ensures life { (s : SystemParts) → IsStartOf s start → KeepModel D.Disk first second
            → IfOk result (λ lived. AreEmpty D.Disk first second
            × IsFirstLife D.Disk s (kept_by start.state) lived.1
            × (EndsBetween (kept_by start.state) lived.0
            → HasAsFar D.Disk s (kept_by lived.0.state) lived.1)) }
        // So it is where it stops by a fault, unless it hasn't begun the files: then they are as `begin` leaves them.
        ensures stopped { (s : SystemParts) → IsStartOf s start → KeepModel D.Disk first second
            → IfErr result (λ fault. IsNotBegun D.Disk first second fault ⊎ ((n : Keeper D)
            × (life : IsFirstLife D.Disk s (kept_by start.state) n)
            × StopsAt s (kept_by start.state) life.keeper n fault)) }
        // Files of which one holds something are only read, and refused.
        ensures not_empty { KeepModel D.Disk first second → ¬ AreEmpty D.Disk first second
            → IsErr result × IfErr result (λ fault.
            IsRead D.Disk first fault.first × IsRead D.Disk second fault.second) }
        ensures refused_so { (s : SystemParts) → IsStartOf s start → KeepModel D.Disk first second
            → IfErr result (λ fault. fault.cause ≡ KeepingFault.NotEmpty
            → ¬ AreEmpty D.Disk first second) }
        // There is no other fault. At a limit a word of the state has no number, as none that `begun` has read, or a net is
        // reached which is past one.
        ensures refused { (s : SystemParts) → IsStartOf s start
            → IfErr result (λ fault. StopsABegin fault.cause ⊎ StopsARun fault.cause) }
        ensures limit { (s : SystemParts) → IsStartOf s start
            → IfErr result (λ fault. fault.cause ≡ KeepingFault.Limit
            → ¬ AllByRecursion (IsKeptWord start.state.narrow) start.state.words.items
            ⊎ ComesPastLimits s (kept_by start.state)) }
        ensures device { (s : SystemParts) → IsStartOf s start
            → IfErr result (λ fault. fault.cause ≡ KeepingFault.Device
            → HasFailed D.Disk first second fault) }
        ensures usable { IfErr result (λ fault. fault.cause ≢ KeepingFault.Keep KeepFault.Broken) }
    {
        let mut first = first;
        let mut second = second;
        match begin(self.alloc, &start.state, &mut first, &mut second) {
            Ok(()) => self.live_on(start, Keeper::made(first, second)),
            Err(cause) => Err(ResumeFault {
                first,
                second,
                cause,
            }),
        }
    }
}

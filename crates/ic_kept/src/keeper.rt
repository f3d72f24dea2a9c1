//! A state that is kept in two files.

ghost use Rattle.std.specs.Prelude.{◌≡◌, ◌↔◌, ◌⊎◌, ◌^◌, ◌+◌, ◌-◌, ◌<◌, ◌≤◌, ℕ, List, true, false, IsTrue, IsErrOf, IfOk, IfErr, OnOk};
ghost use Rattle.ic_disk.specs.Images.{Within};
ghost use Rattle.ic_disk.specs.Time.{OneMore};
ghost use Rattle.ic_frames.specs.Faults.{CountsKeep};
ghost use Rattle.ic_kept.specs.Held.{Answers, Hold};

use crate::finding::{Found, find};
use crate::writing::write_beside;
use ic_disk::Disk;
use ic_frames::{KeepFault, OpenCause};
use std::alloc::Global;
use std::mem::swap;

/// Two files of which one has the state that is kept; the next one is written into the other.
#[derive(Drop)]
pub struct Keeper<D: Disk> {
    newest: D,
    other: D,
    number: u64,
    // Whether the gate of the other is closed.
    closed: bool,
    broken: bool,
}

/// Two disks on which no state was found, and why.
#[derive(Drop)]
pub struct OpenFault<D> {
    pub first: D,
    pub second: D,
    pub cause: OpenCause,
}

impl<D: Disk> Keeper<D> {
    ghost use Rattle.ic_kept.specs.Keeper.{is_broken, is_closed, newest_of, number_of, other_of, Keeps, KeepsModel};
    ghost use Rattle.ic_kept.specs.Keeping.{CrashInKeeping, FaultLeaves, written_disk};
    ghost use Rattle.ic_kept.specs.Lives.{AreOpened};
    ghost use Rattle.ic_kept.specs.Opening.{OnlyReads, Relates};
    ghost use Rattle.ic_kept.specs.Sheet.{IsNewest, IsShut};

    /// Finds the state that two files hold. It begins with a sync of each, and changes nothing. A fault hands the disks back.
    pub fn open(
        alloc: Global,
        mut first: D,
        mut second: D,
    ) -> Result<(Keeper<D>, Vec<u8>), OpenFault<D>>
        // It answers by what reads give.
        ensures opened { IsTrue (D.keeps first) → IsTrue (D.keeps second)
            → IfOk result (λ opened. Hold opened.1.items (D.content first) (D.content second)) }
        ensures refused { IsTrue (D.keeps first) → IsTrue (D.keeps second)
            → IfErr result (λ fault. Answers fault.cause (D.content first) (D.content second)) }

        ensures device { IfErr result (λ fault. fault.cause ≡ OpenCause.Device
            → OneMore (D.failures first) (D.failures fault.first)
            ⊎ OneMore (D.failures second) (D.failures fault.second)) }

        // That state is kept from then on.
        ensures kept { IsTrue (D.keeps first) → IsTrue (D.keeps second)
            → IfOk result (λ opened. KeepsModel D.keeps opened.0 × Keeps D.image opened.1.items opened.0) }
        ensures ready { IfOk result (λ opened. is_broken opened.0 ≡ false) }

        // A crash at any moment leaves what was there.
        ensures reads { IsTrue (D.keeps first) → IsTrue (D.keeps second)
            → Relates (OnlyReads D.keeps D.content D.image D.clock D.left) result first second }
    {
        match find(alloc, &mut first, &mut second) {
            Ok(found) => {
                let Found {
                    in_second,
                    number,
                    closed,
                    state,
                } = found;
                if in_second {
                    return Ok((Keeper::at(second, first, number, closed), state));
                }
                Ok((Keeper::at(first, second, number, closed), state))
            }
            Err(cause) => Err(OpenFault {
                first,
                second,
                cause,
            }),
        }
    }

    /// What keeps the next states in two files in which `create` has just put the first one. It makes no call.
    pub fn made(first: D, second: D) -> Keeper<D>
        ensures newest { newest_of result ≡ first }
        ensures other { other_of result ≡ second }
        ensures ready { is_broken result ≡ false }
        // They are as if they had just been opened, and that state found.
        ensures opened { (state : List ℕ) → IsTrue (D.keeps first) → IsTrue (D.keeps second)
            → Within (D.image first) (IsNewest 1 state) → Within (D.image second) IsShut
            → AreOpened D.keeps D.content D.image D.clock D.left state first second result }
    {
        Keeper {
            newest: first,
            other: second,
            number: 1,
            closed: true,
            broken: false,
        }
    }

    // A keeper of two files that stand so.
    fn at(newest: D, other: D, number: u64, closed: bool) -> Keeper<D>
        ensures newest { newest_of result ≡ newest }
        ensures other { other_of result ≡ other }
        ensures number { number_of result ≡ number }
        ensures closed { is_closed result ≡ closed }
        ensures ready { is_broken result ≡ false }
    {
        Keeper {
            newest,
            other,
            number,
            closed,
            broken: false,
        }
    }

    // Whether it may be written to.
    fn check_usable(&self) -> Result<(), KeepFault>
        ensures broken { IsErrOf result KeepFault.Broken ↔ (is_broken self.now ≡ true) }
        ensures worn { IsErrOf result KeepFault.Worn
            ↔ ((is_broken self.now ≡ false) × (number_of self.now ≡ 2 ^ 64 - 1)) }
        ensures device { ¬ IsErrOf result KeepFault.Device }
        ensures ok { OnOk result ((is_broken self.now ≡ false)
            × (number_of self.now < 2 ^ 64 - 1)) }
    {
        if self.broken {
            return Err(KeepFault::Broken);
        }
        if self.number == u64::MAX {
            return Err(KeepFault::Worn);
        }
        Ok(())
    }

    /// Puts a state in the place of the one that is kept: into the other file, whose gate is closed first and opened last.
    pub fn keep(&mut self, state: &[u8]) -> Result<(), KeepFault>
        ensures fault { FaultLeaves result self.old self.new }
        ensures crash { CrashInKeeping D.keeps D.image D.clock D.left state.now
            result self.old self.new }
        ensures model { KeepsModel D.keeps self.old → KeepsModel D.keeps self.new }
        ensures counted { CountsKeep result (D.failures (other_of self.old))
            (D.failures (written_disk result self.new)) }
        // It makes at most ten calls to the disk that it writes, and eight over a closed gate.
        ensures calls { D.clock (written_disk result self.new) ≤ D.clock (other_of self.old) + 10 }
        ensures few_calls { is_closed self.old ≡ true
            → D.clock (written_disk result self.new) ≤ D.clock (other_of self.old) + 8 }
    {
        self.check_usable()?;
        self.broken = true;
        write_beside(&mut self.other, self.closed, self.number + 1, state)?;
        swap(&mut self.newest, &mut self.other);
        self.number += 1;
        self.closed = false;
        self.broken = false;
        Ok(())
    }

    /// Whether a call to a disk has failed: the two are to be opened again.
    pub fn broken(&self) -> bool
        ensures { result ≡ is_broken self.now }
    {
        self.broken
    }

    /// The disks, the one with the newest state first.
    pub fn close(self) -> (D, D)
        ensures newest { result.0 ≡ newest_of self }
        ensures other { result.1 ≡ other_of self }
    {
        (self.newest, self.other)
    }
}

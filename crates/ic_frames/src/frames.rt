//! Two frames that are kept: a body, and the place for the next.

ghost use Rattle.std.specs.Prelude.{◌≡◌, ◌⊎◌, ◌↔◌, ◌+◌, ◌-◌, ◌^◌, ◌<◌, ◌≤◌, Bool, true, false, length, drop, IsTrue, OnOk, IsErr, IsErrOf, IfOk, IfErr, vec_capacity};
ghost use Rattle.ic_frames.specs.Held.{HasBody, Holds, body_held, the_body};
ghost use Rattle.ic_frames.specs.Staged.{IsStaged};
ghost use Rattle.ic_frames.specs.inner.Standing.{IsKept};
ghost use Rattle.ic_frames.specs.Faults.{CountsOpen};
ghost use Rattle.ic_frames.specs.Opening.{Answers, LeavesAsFound};
ghost use Rattle.ic_frames.specs.declared.frame.TheConstants.{MAX_BODY};

use crate::found::Found;
use crate::frame::fill_head;
use crate::opening::find;
use crate::writes::{write_frame, write_gate};
use crate::{KeepFault, OpenFault, Opened, Slot};
use ic_disk::Disk;
use std::alloc::Global;

// The byte from which on a frame is written: the one after its gate, or the gate where the disk
// isn't made and a gate that was cut off from its head may be 1.
fn written_from(made: bool) -> usize
    ensures which { ((made ≡ true) × (result ≡ 1)) ⊎ ((made ≡ false) × (result ≡ 0)) }
    ensures low { result ≤ 1 }
{
    if made { 1 } else { 0 }
}

/// A disk with two frames, of which the newest has the body that is kept.
#[derive(Drop)]
pub struct Frames<D: Disk> {
    disk: D,
    newest: Slot,
    number: u64,
    // Whether the slot that is written next is closed, and whether a body is written there.
    closed: bool,
    staged: bool,
    // Whether both heads lie within the disk.
    made: bool,
    broken: bool,
    ghost kept: { IsTrue (D.keeps disk) → broken ≡ false
        → IsKept (D.content disk) (D.image disk) newest number closed staged made },
}

impl<D: Disk> Frames<D> {
    ghost use Rattle.ic_frames.specs.Frames.{disk_of, number_of, is_broken, is_closed, is_staged};
    ghost use Rattle.ic_frames.specs.Keeping.{ClosesGate, FaultLeaves, OpensGate, TakesTurns, WritesBody, WritesSlot};
    ghost use Rattle.ic_frames.specs.Crashes.{CrashInClosing, CrashInKeeping, CrashInOpening, CrashInWriting};
    ghost use Rattle.ic_frames.specs.Opened.{disk_after, outcome_of, IsOnNewest};

    /// Finds the newest body of a disk. It begins with a sync, and changes nothing. The frame has the
    /// body, and room for the longest. A fault hands the disk back.
    pub fn open(alloc: Global, mut disk: D) -> Result<Opened<D>, OpenFault<D>>
        // It answers by what reads give.
        ensures opened { IsTrue (D.keeps disk) → IfOk result (λ opened.
            body_held (D.content disk) ≡ the_body (drop 13 opened.frame.items)) }
        ensures refused { IsTrue (D.keeps disk) → IfErr result (λ fault.
            Answers fault.cause (body_held (D.content disk))) }

        // What it says of the newest slot is so.
        ensures newest { IsTrue (D.keeps disk) → IfOk result (λ opened.
            IsOnNewest opened.frames (D.content disk)) }
        ensures ready { IfOk result (λ opened. is_broken opened.frames ≡ false) }

        ensures room { IfOk result (λ opened. 13 + MAX_BODY ≤ vec_capacity opened.frame) }
        ensures head { IfOk result (λ opened. 13 ≤ length opened.frame.items) }

        ensures crash { LeavesAsFound D.keeps D.content D.image D.clock D.left
            (outcome_of result) disk (disk_after result) }
        ensures counted { CountsOpen (outcome_of result)
            (D.failures disk) (D.failures (disk_after result)) }
    {
        match find(alloc, &mut disk) {
            Ok(found) => {
                let Found {
                    newest,
                    made,
                    frame,
                } = found;
                let frames = Frames {
                    disk,
                    newest: newest.slot,
                    number: newest.head.number,
                    closed: newest.alone,
                    staged: false,
                    made,
                    broken: false,
                };
                Ok(Opened { frames, frame })
            }
            Err(cause) => Err(OpenFault { disk, cause }),
        }
    }

    // Whether it may be written to.
    fn check_usable(&self) -> Result<(), KeepFault>
        ensures broken { IsErrOf result KeepFault.Broken ↔ (is_broken self.now ≡ true) }
        ensures worn { IsErrOf result KeepFault.Worn
            ↔ ((is_broken self.now ≡ false) × (number_of self.now ≡ 2 ^ 64 - 1)) }
        ensures device { ¬ IsErrOf result KeepFault.Device }
        ensures ok { OnOk result ((is_broken self.now ≡ false)
            × (number_of self.now < 2 ^ 64 - 1)) }
    {
        if self.broken {
            return Err(KeepFault::Broken);
        }
        if self.number == u64::MAX {
            return Err(KeepFault::Worn);
        }
        Ok(())
    }

    /// Closes the gate of the slot that is written next. Where it is closed no call is made.
    pub fn close_gate(&mut self) -> Result<(), KeepFault>
        ensures fault { FaultLeaves result self.old self.new }
        ensures closes { ClosesGate result self.old self.new }
        ensures crash { CrashInClosing Holds HasBody result self.old self.new }
    {
        self.check_usable()?;
        let closed = self.closed;
        if closed {
            return Ok(());
        }
        self.broken = true;
        write_gate(&mut self.disk, self.newest.other(), 0)?;
        self.closed = true;
        self.broken = false;
        Ok(())
    }

    /// Writes the body of this frame, and the next number, after the closed gate. The head of the
    /// frame is filled in. On a disk that isn't made the gate is written too, as closed.
    pub fn write_body(&mut self, frame: &mut [u8]) -> Result<(), KeepFault>
        requires closed { is_closed self.old ≡ true }
        requires head { 13 ≤ length frame.old }
        requires short { length frame.old ≤ 13 + MAX_BODY }

        ensures fault { FaultLeaves result self.old self.new }
        ensures writes { WritesBody (drop 13 frame.old) result self.old self.new }
        ensures crash { CrashInWriting Holds HasBody IsStaged (drop 13 frame.old)
            result self.old self.new }

        ensures same_body { drop 13 frame.new ≡ drop 13 frame.old }
        ensures same_frame { IsErr result → ¬ IsErrOf result KeepFault.Device
            → frame.new ≡ frame.old }
    {
        self.check_usable()?;
        fill_head(frame, self.number + 1);
        let skip = written_from(self.made);
        self.broken = true;
        write_frame(&mut self.disk, self.newest.other(), skip, frame)?;
        self.staged = true;
        self.made = true;
        self.broken = false;
        Ok(())
    }

    /// Opens the gate of the slot whose body is written, which is then the newest.
    pub fn open_gate(&mut self) -> Result<(), KeepFault>
        requires { is_staged self.old ≡ true }

        ensures fault { FaultLeaves result self.old self.new }
        ensures turns { TakesTurns result self.old self.new }
        ensures opens { OpensGate result self.old self.new }
        ensures crash { CrashInOpening Holds IsStaged result self.old self.new }
    {
        self.check_usable()?;
        self.broken = true;
        let target = self.newest.other();
        write_gate(&mut self.disk, target, 1)?;
        self.newest = target;
        self.number += 1;
        self.closed = false;
        self.staged = false;
        self.broken = false;
        Ok(())
    }

    /// Puts the body of this frame in the place of the one that is kept. It never answers that
    /// memory ran out, and has no allocator in reach but the disk's own.
    pub fn keep(&mut self, frame: &mut [u8]) -> Result<(), KeepFault>
        requires head { 13 ≤ length frame.old }
        requires short { length frame.old ≤ 13 + MAX_BODY }

        ensures fault { FaultLeaves result self.old self.new }
        ensures turns { TakesTurns result self.old self.new }
        ensures slot { WritesSlot (drop 13 frame.old) result self.old self.new }
        ensures crash { CrashInKeeping Holds HasBody (drop 13 frame.old)
            result self.old self.new }

        ensures same_body { drop 13 frame.new ≡ drop 13 frame.old }
        ensures same_frame { IsErr result → ¬ IsErrOf result KeepFault.Device
            → frame.new ≡ frame.old }
    {
        self.close_gate()?;
        self.write_body(frame)?;
        self.open_gate()
    }

    /// Whether a call to the disk has failed: the disk is to be opened again.
    pub fn broken(&self) -> bool
        ensures { result ≡ is_broken self.now }
    {
        self.broken
    }

    /// Whether the numbers of the slots are used up.
    pub fn worn(&self) -> bool
        ensures { IsTrue result ↔ (number_of self.now ≡ 2 ^ 64 - 1) }
    {
        self.number == u64::MAX
    }

    /// The disk.
    pub fn close(self) -> D
        ensures { result ≡ disk_of self }
    {
        self.disk
    }
}

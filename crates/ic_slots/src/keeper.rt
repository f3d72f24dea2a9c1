//! A table that is kept on a disk.

ghost use Rattle.std.specs.Prelude.{◌≡◌, ◌↔◌, ◌+◌, ◌-◌, ◌^◌, ◌≤◌, true, false, length, drop, IsTrue, OnOk, IsErrOf, IfOk, IfErr, vec_capacity};
ghost use Rattle.ic_jobs.specs.Table.{IsTable};
ghost use Rattle.ic_codec.specs.Tables.{table_bytes};
ghost use Rattle.ic_frames.specs.Crashes.{CrashInClosing, CrashInKeeping, CrashInOpening, CrashInWriting};
ghost use Rattle.ic_frames.specs.Faults.{CountsOpen};
ghost use Rattle.ic_frames.specs.Held.{HasBody, Holds};
ghost use Rattle.ic_frames.specs.Keeping.{ClosesGate, FaultLeaves, OpensGate, TakesTurns, WritesBody, WritesSlot};
ghost use Rattle.ic_frames.specs.Opened.{IsOnNewest};
ghost use Rattle.ic_frames.specs.Opening.{LeavesAsFound};
ghost use Rattle.ic_frames.specs.Staged.{IsStaged};
ghost use Rattle.ic_frames.specs.declared.frame.TheConstants.{MAX_BODY};
ghost use Rattle.ic_slots.specs.Held.{HasTable, HoldsTable, IsStagedTable, IsHeld, the_table};
ghost use Rattle.ic_slots.specs.Opening.{Says};

use ic_codec::{CodecFault, decode, encode_into};
use ic_disk::Disk;
use ic_frames::laws::one_body_is_kept;
use ic_frames::{Frames, HEAD, KeepFault, OpenCause, OpenFault, Opened};
use ic_jobs::Table;
use std::alloc::Global;

/// A disk on which a table is kept, and the room to write the next one.
#[derive(Drop)]
pub struct Keeper<D: Disk> {
    frames: Frames<D>,
    // Room for a head and the longest table.
    frame: Vec<u8>,
    ghost room: { 13 + MAX_BODY ≤ vec_capacity frame },
    ghost head: { 13 ≤ length frame.items },
}

impl<D: Disk> Keeper<D> {
    ghost use Rattle.ic_slots.specs.Keeper.{frames_of, disk_of, number_of, is_broken, is_closed, is_staged};
    ghost use Rattle.ic_slots.specs.Opened.{disk_after, outcome_of};

    /// Finds the table that a disk holds, and makes the room for all later keeps. It begins with a
    /// sync, and changes nothing. A fault hands the disk back.
    pub fn open(alloc: Global, disk: D) -> Result<(Keeper<D>, Table), OpenFault<D>>
        // It answers by what reads give.
        ensures opened { IsTrue (D.keeps disk) → IfOk result (λ opened.
            IsHeld (the_table opened.1) (D.content disk)) }
        ensures refused { IsTrue (D.keeps disk) → IfErr result (λ fault.
            Says fault.cause (D.content disk)) }

        // What it says of the newest slot is so.
        ensures newest { IsTrue (D.keeps disk) → IfOk result (λ opened.
            IsOnNewest (frames_of opened.0) (D.content disk)) }
        ensures ready { IfOk result (λ opened. is_broken opened.0 ≡ false) }

        ensures crash { LeavesAsFound D.keeps D.content D.image D.clock D.left
            (outcome_of result) disk (disk_after result) }
        ensures counted { CountsOpen (outcome_of result)
            (D.failures disk) (D.failures (disk_after result)) }
    {
        match Frames::open(alloc, disk) {
            Ok(opened) => {
                let Opened { frames, frame } = opened;
                match decode(alloc, &frame[HEAD..]) {
                    Ok(table) => Ok((Keeper { frames, frame }, table)),
                    Err(fault) => Err(OpenFault {
                        disk: frames.close(),
                        cause: cause_of(fault),
                    }),
                }
            }
            Err(fault) => Err(fault),
        }
    }

    /// Closes the gate of the slot that is written next. Where it is closed no call is made.
    pub fn close_gate(&mut self) -> Result<(), KeepFault>
        ensures fault { FaultLeaves result (frames_of self.old) (frames_of self.new) }
        ensures closes { ClosesGate result (frames_of self.old) (frames_of self.new) }
        ensures crash { CrashInClosing HoldsTable HasTable
            result (frames_of self.old) (frames_of self.new) }
        // To the byte: a crash leaves the form that was kept.
        ensures bodies { CrashInClosing Holds HasBody
            result (frames_of self.old) (frames_of self.new) }
    {
        one_body_is_kept(&self.frames);
        self.frames.close_gate()
    }

    /// Writes this table, and the next number, after the closed gate. On a disk that isn't made the
    /// gate is written too, as closed.
    pub fn write_body(&mut self, table: &Table) -> Result<(), KeepFault>
        requires { is_closed self.old ≡ true }

        ensures fault { FaultLeaves result (frames_of self.old) (frames_of self.new) }
        ensures writes { WritesBody (table_bytes table.now)
            result (frames_of self.old) (frames_of self.new) }
        ensures crash { CrashInWriting HoldsTable HasTable IsStagedTable table.now
            result (frames_of self.old) (frames_of self.new) }
        // To the byte: a crash leaves the form that was kept.
        ensures bodies { CrashInWriting Holds HasBody IsStaged (table_bytes table.now)
            result (frames_of self.old) (frames_of self.new) }
    {
        one_body_is_kept(&self.frames);
        lay(&mut self.frame, table);
        self.frames.write_body(&mut self.frame)
    }

    /// Opens the gate of the slot whose table is written, which is then the newest.
    pub fn open_gate(&mut self) -> Result<(), KeepFault>
        requires { is_staged self.old ≡ true }

        ensures fault { FaultLeaves result (frames_of self.old) (frames_of self.new) }
        ensures turns { TakesTurns result (frames_of self.old) (frames_of self.new) }
        ensures opens { OpensGate result (frames_of self.old) (frames_of self.new) }
        ensures crash { CrashInOpening HoldsTable IsStagedTable
            result (frames_of self.old) (frames_of self.new) }
        // To the byte: a crash leaves the form that was kept or the one that was written.
        ensures bodies { CrashInOpening Holds IsStaged
            result (frames_of self.old) (frames_of self.new) }
    {
        one_body_is_kept(&self.frames);
        self.frames.open_gate()
    }

    /// Puts this table in the place of the one that is kept. It never answers that memory ran out.
    pub fn keep(&mut self, table: &Table) -> Result<(), KeepFault>
        ensures fault { FaultLeaves result (frames_of self.old) (frames_of self.new) }
        ensures turns { TakesTurns result (frames_of self.old) (frames_of self.new) }
        ensures slot { WritesSlot (table_bytes table.now)
            result (frames_of self.old) (frames_of self.new) }
        ensures crash { CrashInKeeping HoldsTable HasTable table.now
            result (frames_of self.old) (frames_of self.new) }
        // To the byte: a crash leaves the form that was kept or the one that is written.
        ensures bodies { CrashInKeeping Holds HasBody (table_bytes table.now)
            result (frames_of self.old) (frames_of self.new) }
    {
        one_body_is_kept(&self.frames);
        lay(&mut self.frame, table);
        self.frames.keep(&mut self.frame)
    }

    /// Whether a call to the disk has failed: the disk is to be opened again.
    pub fn broken(&self) -> bool
        ensures { result ≡ is_broken self.now }
    {
        self.frames.broken()
    }

    /// Whether the numbers of the slots are used up.
    pub fn worn(&self) -> bool
        ensures { IsTrue result ↔ (number_of self.now ≡ 2 ^ 64 - 1) }
    {
        self.frames.worn()
    }

    /// The disk.
    pub fn close(self) -> D
        ensures { result ≡ disk_of self }
    {
        self.frames.close()
    }
}

// Why a body that gives no table isn't opened.
fn cause_of(fault: CodecFault) -> OpenCause
    ensures damaged { fault ≡ CodecFault.NotATable → result ≡ OpenCause.Damaged }
    ensures memory { fault ≡ CodecFault.Memory → result ≡ OpenCause.Memory }
{
    match fault {
        CodecFault::NotATable => OpenCause::Damaged,
        CodecFault::Memory => OpenCause::Memory,
    }
}

// A table after the head of a frame, in the room that the frame has.
fn lay(frame: &mut Vec<u8>, table: &Table)
    requires room { 13 + MAX_BODY ≤ vec_capacity frame.old }
    requires head { 13 ≤ length frame.old.items }
    ensures room { 13 + MAX_BODY ≤ vec_capacity frame.new }
    ensures head { 13 ≤ length frame.new.items }
    ensures short { length frame.new.items ≤ 13 + MAX_BODY }
    ensures body { drop 13 frame.new.items ≡ table_bytes table.now }
    ensures sound { IsTable table.now }
{
    let _jobs = table.jobs();
    frame.truncate(HEAD);
    encode_into(table, frame);
}

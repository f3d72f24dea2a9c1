//! Laws of the definitions that the contracts of this crate cite.

ghost use Rattle.std.specs.Prelude.{◌≡◌, ◌+◌, ◌<◌, ◌≤◌, ℕ, List, [], ◌∷◌, Option, Some, Contains, IfOk, OnOk, drop, length, map, false, true};
ghost use Rattle.ic_disk.specs.Images.{Torn};
ghost use Rattle.ic_jobs.specs.Job.{JobParts};
ghost use Rattle.ic_frames.specs.declared.frame.TheConstants.{HEAD, MAX_BODY};
ghost use Rattle.ic_frames.specs.declared.slot.Slot.{Slot};
ghost use Rattle.ic_frames.specs.declared.slot.Slot.TheVariants.{First};
ghost use Rattle.ic_frames.specs.declared.slot.TheConstants.{SECOND_AT};
ghost use Rattle.ic_frames.specs.Fields.{number, body, is_open, IsMade};
ghost use Rattle.ic_frames.specs.Frames.{content_of, target_of, number_of, is_closed, is_staged, KeepsModel};
ghost use Rattle.ic_frames.specs.Held.{IsClosedIn, IsNewest};
ghost use Rattle.ic_frames.specs.Opened.{IsOnNewest};
ghost use Rattle.ic_frames.specs.Places.{place, other};
ghost use Rattle.ic_frames.specs.Staged.{IsStaged};
ghost use Rattle.ic_slots.specs.Held.{IsHeld, the_table};
ghost use Rattle.ic_inspect.specs.declared.fault.InspectFault.{InspectFault};
ghost use Rattle.ic_inspect.specs.declared.seen.Body.TheVariants.{TooLong, CutShort};
ghost use Rattle.ic_inspect.specs.declared.seen.Looked.{Looked};
ghost use Rattle.ic_inspect.specs.declared.seen.Seen.{Seen};
ghost use Rattle.ic_inspect.specs.Moments.{AreHeadsRead, AreSlotsRead, IsServed, IsServerStep, IsWholeNewest};
ghost use Rattle.ic_inspect.specs.Seeing.{IsLookedAt, IsSeen, all_inspect_faults, inspect_fault_number};
ghost use Rattle.ic_inspect.specs.Slots.{file_of, is_one_file, slot_read, HaveChanged};

use crate::fault::InspectFault;
use crate::inspecting::look;
use crate::reading::read_slots;
use crate::seen::Looked;
use ic_disk::Disk;
use ic_frames::laws::{one_body_is_kept, the_newest_slot_is_held};
use ic_frames::{Frames, KeepFault};
use std::alloc::Global;
use std::io::Read;

/// Files by hand, and what is seen of them. The first one has an open gate, the number 258, the length 3 and two bytes of a
/// body. The gate of the other one is closed, and its body would be longer than a body may be. Both end within their first
/// slot.
pub fn files_by_hand()
    ensures cut_short { (seen : Option Seen) → IsSeen First seen
        (1 ∷ 0 ∷ 0 ∷ 0 ∷ 0 ∷ 0 ∷ 0 ∷ 1 ∷ 2 ∷ 0 ∷ 0 ∷ 0 ∷ 3 ∷ 5 ∷ 6 ∷ [])
        → seen ≡ Some (record { opened = true; number = 258; size = 3; body = CutShort }) }
    ensures too_long { (seen : Option Seen) → IsSeen First seen
        (0 ∷ 0 ∷ 0 ∷ 0 ∷ 0 ∷ 0 ∷ 0 ∷ 0 ∷ 1 ∷ 255 ∷ 255 ∷ 255 ∷ 255 ∷ [])
        → seen ≡ Some (record { opened = false; number = 1; size = 4294967295; body = TooLong }) }
{}

/// What is read of the two slots of a file may be of one file, and what is seen of that is seen of the file.
pub fn the_slots_are_seen_as_the_file()
    ensures one_file { (file : List ℕ)
        → is_one_file (slot_read file) (slot_read (drop SECOND_AT file)) ≡ true }
    ensures looked { (looked : Looked) (file : List ℕ)
        → IsLookedAt looked (file_of (slot_read file) (slot_read (drop SECOND_AT file)))
        → IsLookedAt looked file }
{
    ic_frames::laws::a_slot_is_open_or_whole();
}

/// A file that stays as it is, is read as it is, at any moment, and isn't told as changed. A server that does nothing leaves
/// it so.
pub fn a_file_that_stays_is_read_as_it_is()
    ensures read { (file : List ℕ) (from until : ℕ) → from ≤ until
        → AreSlotsRead (λ moment. file) from until file (drop SECOND_AT file) }
    ensures unchanged { (file : List ℕ) → ¬ HaveChanged
        (slot_read file) (slot_read (drop SECOND_AT file)) (Some file) (Some (drop SECOND_AT file)) }
    ensures served { (slot : Slot) (file : List ℕ) → IsNewest slot file
        → IsServed (λ moment. file) }
{
    ic_frames::laws::a_slot_is_open_or_whole();
}

/// A reading of the slots of a file over time, and one of their heads that begins where the first has ended. What is seen is
/// seen of a file that has the slots of the first reading. A server may write the file meanwhile: where that file holds a
/// table, this table stood in the file at a moment of the two readings. Where none is held there, the file may hold one all
/// the same.
pub fn a_table_that_is_shown_stood<R: Read, S: Read, T: Read, U: Read>(
    alloc: Global,
    first: &mut R,
    second: &mut S,
    first_again: &mut T,
    second_again: &mut U,
) -> Result<Looked, InspectFault>
    ensures looked { (one two : List ℕ) → R.remaining first.old ≡ Some one
        → S.remaining second.old ≡ Some two → IfOk result
        (λ looked. IsLookedAt looked (file_of (slot_read one) (slot_read two))) }
    ensures stood { (at : ℕ → List ℕ) (from between later until : ℕ)
        (one two one_later two_later : List ℕ) (t : List JobParts) → IsServed at
        → R.remaining first.old ≡ Some one → S.remaining second.old ≡ Some two
        → T.remaining first_again.old ≡ Some one_later
        → U.remaining second_again.old ≡ Some two_later
        → AreSlotsRead at from between one two → between ≤ later
        → AreHeadsRead at later until one_later two_later
        → IsHeld (the_table t) (file_of (slot_read one) (slot_read two)) → OnOk result
        ((m : ℕ) × (from ≤ m) × (m ≤ until) × IsHeld (the_table t) (at m)) }
{
    ic_frames::laws::a_slot_is_open_or_whole();
    the_newest_slot_is_held();
    ic_slots::laws::the_newest_table_is_held();
    let slots = read_slots(alloc, first, second)?;
    look(alloc, &slots, first_again, second_again)
}

/// What a keep writes beside a newest slot that is whole is a step of a server, and so is what stands in the midst of
/// it: any bytes in the range that is written.
pub fn the_writes_of_a_keep_are_steps()
    ensures closing { (target : Slot) (old new : List ℕ) → IsWholeNewest (other target) old
        → is_open (place target) old ≡ true → length new ≡ length old
        → Torn (place target) 1 old new → IsServerStep old new }

    // With a closed gate, any file in the midst of a write may become any other one, the last one too.
    ensures writing { (target : Slot) (count : ℕ) (old amid later : List ℕ)
        → IsWholeNewest (other target) old → IsClosedIn target old → IsMade old
        → count < HEAD + MAX_BODY → Torn (place target + 1) count old amid
        → Torn (place target + 1) count old later → IsServerStep amid later }

    ensures opening { (target : Slot) (n : ℕ) (next old new : List ℕ)
        → IsWholeNewest (other target) old → IsClosedIn target old → IsStaged target n next old
        → number (place (other target)) old < n
        → Torn (place target) 1 old new → IsServerStep old new }
{}

/// The first phase of a keep is one step of a server, and leaves the frames on the newest slot.
pub fn closing_a_gate_is_a_step<D: Disk>(frames: &mut Frames<D>) -> Result<(), KeepFault>
    ensures step { KeepsModel frames.old → IsOnNewest frames.old (content_of frames.old)
        → OnOk result (IsServerStep (content_of frames.old) (content_of frames.new)) }
    ensures newest { KeepsModel frames.old → IsOnNewest frames.old (content_of frames.old)
        → OnOk result (IsOnNewest frames.new (content_of frames.new)) }
{
    one_body_is_kept(frames);
    the_newest_slot_is_held();
    frames.close_gate()
}

/// The second phase is one step too, also on a disk that isn't made. After it the next body is staged.
pub fn writing_a_body_is_a_step<D: Disk>(
    frames: &mut Frames<D>,
    frame: &mut [u8],
) -> Result<(), KeepFault>
    requires closed { is_closed frames.old ≡ true }
    requires head { 13 ≤ length frame.old }
    requires short { length frame.old ≤ 13 + MAX_BODY }
    ensures step { KeepsModel frames.old → IsOnNewest frames.old (content_of frames.old)
        → OnOk result (IsServerStep (content_of frames.old) (content_of frames.new)) }
    ensures newest { KeepsModel frames.old → IsOnNewest frames.old (content_of frames.old)
        → OnOk result (IsOnNewest frames.new (content_of frames.new)) }
    ensures staged { KeepsModel frames.old → OnOk result
        (IsStaged (target_of frames.new) (number_of frames.new + 1) (drop 13 frame.old)
        (content_of frames.new)) }
{
    one_body_is_kept(frames);
    the_newest_slot_is_held();
    frames.write_body(frame)
}

/// The third phase is one step too, and leaves the frames on the slot that it opens.
pub fn opening_a_gate_is_a_step<D: Disk>(frames: &mut Frames<D>) -> Result<(), KeepFault>
    requires staged { is_staged frames.old ≡ true }
    ensures step { (next : List ℕ) → KeepsModel frames.old → is_closed frames.old ≡ true
        → IsOnNewest frames.old (content_of frames.old)
        → IsStaged (target_of frames.old) (number_of frames.old + 1) next (content_of frames.old)
        → OnOk result (IsServerStep (content_of frames.old) (content_of frames.new)) }
    ensures newest { KeepsModel frames.old
        → OnOk result (IsOnNewest frames.new (content_of frames.new)) }
{
    one_body_is_kept(frames);
    the_newest_slot_is_held();
    frames.open_gate()
}

/// The lasting numbers of the faults, which are all that there are.
pub fn numbers_are_lasting()
    ensures all { (fault : InspectFault) → Contains all_inspect_faults fault }
    ensures numbers { map inspect_fault_number all_inspect_faults ≡ 1 ∷ 2 ∷ 3 ∷ 4 ∷ [] }
{}

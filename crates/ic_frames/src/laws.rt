//! Laws of the definitions that the contracts of this crate cite.

ghost use Rattle.std.specs.Prelude.{◌≡◌, ◌⊎◌, ◌↔◌, ◌+◌, ◌-◌, ◌^◌, ◌<◌, ◌≤◌, true, false, List, [], ◌∷◌, ◌++◌, ℕ, codes, length, map, slice_index, Contains, IsErrOf, Result, Err};
ghost use Rattle.ic_disk.specs.Content.{bytes_at};
ghost use Rattle.ic_disk.specs.Model.{Write};
ghost use Rattle.ic_frames.specs.Creation.{IsMadeInPart, IsTornBy};
ghost use Rattle.ic_frames.specs.declared.faults.KeepFault.{KeepFault};
ghost use Rattle.ic_frames.specs.declared.faults.KeepFault.TheVariants.{Device as KeepDevice};
ghost use Rattle.ic_frames.specs.declared.faults.OpenCause.{OpenCause};
ghost use Rattle.ic_frames.specs.declared.faults.OpenCause.TheVariants.{Device as OpenDevice, NoSlot, TwoAlike, Damaged};
ghost use Rattle.ic_frames.specs.declared.frame.TheConstants.{HEAD, MAX_BODY};
ghost use Rattle.ic_frames.specs.declared.slot.Slot.{Slot};
ghost use Rattle.ic_frames.specs.declared.slot.Slot.TheVariants.{First, Second};
ghost use Rattle.ic_frames.specs.declared.slot.TheConstants.{SECOND_AT};
ghost use Rattle.ic_frames.specs.Places.{place, other};
ghost use Rattle.ic_frames.specs.Frames.{target_of, number_of, is_broken, is_closed, KeepsModel};
ghost use Rattle.ic_frames.specs.Opened.{IsOnNewest, KeepsOneBody};
ghost use Rattle.ic_frames.specs.Faults.{CountsKeep, CountsOpen};
ghost use Rattle.ic_frames.specs.Fields.{number, size, is_open, is_whole, body, IsMade};
ghost use Rattle.ic_frames.specs.Layout.{slot_bytes, AreBytes};
ghost use Rattle.ic_frames.specs.Numbers.{all_keep_faults, all_open_causes, keep_fault_number, open_cause_number};
ghost use Rattle.ic_frames.specs.Opening.{Answers};
ghost use Rattle.ic_frames.specs.Staged.{IsStaged};
ghost use Rattle.ic_frames.specs.Held.{Held, IsNewest, IsShut, HasTwoAlike, HasSameHeads, body_held, the_body, no_slot, two_alike, damaged};

use crate::Frames;
use ic_disk::Disk;

/// What a disk holds is the body of its newest slot: it holds a body exactly where one slot is the
/// newest and has that body whole.
pub fn the_newest_slot_is_held()
    ensures one_of_three { (file : List ℕ)
        → IsShut file ⊎ (HasTwoAlike file ⊎ ((slot : Slot) × IsNewest slot file)) }
    ensures held { (slot : Slot) (file : List ℕ) → IsNewest slot file
        → is_whole (place slot) file ≡ true → body_held file ≡ the_body (body (place slot) file) }
    ensures only { (file kept : List ℕ) → body_held file ≡ the_body kept
        → (slot : Slot) × IsNewest slot file × (is_whole (place slot) file ≡ true)
        × (body (place slot) file ≡ kept) }
    ensures damaged { (slot : Slot) (file : List ℕ) → IsNewest slot file
        → is_whole (place slot) file ≡ false → body_held file ≡ damaged }
    ensures shut { (file : List ℕ) → IsShut file → body_held file ≡ no_slot }
    ensures alike { (file : List ℕ) → HasTwoAlike file → body_held file ≡ two_alike }
{}

/// Which slot is the newest is up to the thirteen bytes at the beginning of each, and to no body.
pub fn the_heads_say_which_is_newest()
    ensures { (slot : Slot) (old new : List ℕ) → HasSameHeads old new
        → IsNewest slot old → IsNewest slot new }
{}

/// A slot is its bytes: 1 at the gate, the number in eight bytes and the length of the body in four,
/// both big endian, and the body. Where these stand the slot is open and whole, with that number
/// and that body. In a file that is a list of bytes, nothing else is.
pub fn a_slot_is_its_bytes()
    ensures written { (slot : Slot) (n : ℕ) (held file : List ℕ) → n < 2 ^ 64
        → length held ≤ MAX_BODY → bytes_at (place slot) (13 + length held) file ≡ slot_bytes n held
        → (is_open (place slot) file ≡ true) × IsStaged slot n held file }
    ensures only { (slot : Slot) (n : ℕ) (held file : List ℕ) → AreBytes file
        → is_open (place slot) file ≡ true → IsStaged slot n held file
        → bytes_at (place slot) (13 + length held) file ≡ slot_bytes n held }
    ensures example { slot_bytes 1 (codes "ICT1" ++ 0 ∷ [])
        ≡ 1 ∷ 0 ∷ 0 ∷ 0 ∷ 0 ∷ 0 ∷ 0 ∷ 0 ∷ 1 ∷ 0 ∷ 0 ∷ 0 ∷ 5 ∷ 0x49 ∷ 0x43 ∷ 0x54 ∷ 0x31 ∷ 0 ∷ [] }
{}

/// When a slot is open, and when its body is whole. A whole body is as long as its slot says.
pub fn a_slot_is_open_or_whole()
    ensures opened { (at : ℕ) (file : List ℕ) → (is_open at file ≡ true)
        ↔ ((at + HEAD ≤ length file) × (slice_index file at ≡ 1)) }
    ensures whole { (at : ℕ) (file : List ℕ) → (is_whole at file ≡ true)
        ↔ ((size at file ≤ MAX_BODY) × (at + HEAD + size at file ≤ length file)) }
    ensures long { (at : ℕ) (file : List ℕ) → is_whole at file ≡ true
        → length (body at file) ≡ size at file }
{}

/// Where the disk is told to have failed, one more failure is counted, up to the end of the count.
/// Otherwise none is.
pub fn a_failure_is_counted()
    ensures keep_failed { (old new : ℕ) → CountsKeep {T = Unit {0}} (Err KeepDevice) old new
        → (new ≡ old + 1) ⊎ ((old ≡ 2 ^ 64 - 1) × (new ≡ old)) }
    ensures keep_else { (result : Result (Unit {0}) KeepFault) (old new : ℕ)
        → CountsKeep result old new → ¬ IsErrOf result KeepDevice → new ≡ old }
    ensures open_failed { (old new : ℕ) → CountsOpen {T = Unit {0}} (Err OpenDevice) old new
        → (new ≡ old + 1) ⊎ ((old ≡ 2 ^ 64 - 1) × (new ≡ old)) }
    ensures open_else { (result : Result (Unit {0}) OpenCause) (old new : ℕ)
        → CountsOpen result old new → ¬ IsErrOf result OpenDevice → new ≡ old }
{}

/// The lasting numbers of the faults.
pub fn numbers_are_lasting()
    ensures keep_all { (fault : KeepFault) → Contains all_keep_faults fault }
    ensures keep_numbers { map keep_fault_number all_keep_faults ≡ 1 ∷ 2 ∷ 3 ∷ [] }
    ensures open_all { (cause : OpenCause) → Contains all_open_causes cause }
    ensures open_numbers { map open_cause_number all_open_causes ≡ 1 ∷ 2 ∷ 3 ∷ 4 ∷ 5 ∷ [] }
{}

/// A refusal to open says what the disk holds.
pub fn a_refusal_says_what_is_held()
    ensures shut { (held : Held) → Answers NoSlot held → held ≡ no_slot }
    ensures alike { (held : Held) → Answers TwoAlike held → held ≡ two_alike }
    ensures spoiled { (held : Held) → Answers Damaged held → held ≡ damaged }
{}

/// What frames that are on the newest slot of a file say of it.
pub fn frames_tell_the_newest<D: Disk>(frames: &Frames<D>)
    ensures newest { (file : List ℕ) → IsOnNewest frames.now file
        → IsNewest (other (target_of frames.now)) file }
    ensures number { (file : List ℕ) → IsOnNewest frames.now file
        → number (place (other (target_of frames.now))) file ≡ number_of frames.now }
    ensures closed { (file : List ℕ) → IsOnNewest frames.now file → (is_closed frames.now ≡ true)
        ↔ (is_open (place (target_of frames.now)) file ≡ false) }
{
    let _ = frames;
}

/// Until a call has failed reads give one body, and each image has it. So where several bodies mean
/// one thing, what is said of each body is said of that thing.
pub fn one_body_is_kept<D: Disk>(frames: &Frames<D>)
    ensures { KeepsModel frames.now → is_broken frames.now ≡ false → KeepsOneBody frames.now }
{
    let _ = frames;
}

/// The places and limits by their names. A head and the longest body fit in the room of a slot.
pub fn limits_are()
    ensures head { HEAD ≡ 13 }
    ensures body { MAX_BODY ≡ 3036677 }
    ensures room { place First + HEAD + MAX_BODY ≤ place Second }
    ensures first { place First ≡ 0 }
    ensures second { SECOND_AT ≡ place Second }
    ensures second_at { SECOND_AT ≡ 4194304 }
    ensures made { (file : List ℕ) → IsMade file ↔ (place Second + HEAD ≤ length file) }
{}

/// A write that is made in part is one of those that have torn their file.
pub fn a_write_in_part_has_torn()
    ensures { (w : Write) (old new : List ℕ) → IsMadeInPart w old new → IsTornBy w old new }
{}

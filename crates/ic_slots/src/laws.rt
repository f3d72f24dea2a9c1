//! Laws of the definitions that the contracts of this crate cite.

ghost use Rattle.std.specs.Prelude.{◌≡◌, ◌⊎◌, ◌+◌, ◌-◌, ◌^◌, ◌<◌, ◌≤◌, true, List, [], ◌∷◌, ℕ, map, Contains, IsErrOf, Result, Err, ◌++◌, codes, length, replicate, slice_index};
ghost use Rattle.ic_jobs.specs.Job.{JobParts};
ghost use Rattle.ic_jobs.specs.Table.{IsTable};
ghost use Rattle.ic_codec.specs.Tables.{table_bytes, old_table_bytes, HasNoBudgets, IsFormOf};
ghost use Rattle.ic_codec.specs.declared.form.TheConstants.{MAX_BYTES};
ghost use Rattle.ic_frames.specs.declared.frame.TheConstants.{MAX_BODY, HEAD};
ghost use Rattle.ic_frames.specs.declared.slot.Slot.{Slot};
ghost use Rattle.ic_frames.specs.Creation.{writes_of_create, IsInOneOf, IsMadeInPart};
ghost use Rattle.ic_frames.specs.Places.{place};
ghost use Rattle.ic_frames.specs.Fields.{is_whole, size, body};
ghost use Rattle.ic_frames.specs.Held.{IsNewest, HasBody, HoldsEither};
ghost use Rattle.ic_frames.specs.declared.faults.OpenCause.TheVariants.{NoSlot, TwoAlike, Damaged};
ghost use Rattle.ic_slots.specs.declared.fault.CreateFault.{CreateFault};
ghost use Rattle.ic_slots.specs.declared.fault.CreateFault.TheVariants.{Device as CreateDevice};
ghost use Rattle.ic_slots.specs.Faults.{CountsCreate};
ghost use Rattle.ic_slots.specs.Held.{Held, HoldsEitherTable, HoldsTable, IsHeld, the_table, no_slot, two_alike, damaged};
ghost use Rattle.ic_slots.specs.Numbers.{all_create_faults, create_fault_number};
ghost use Rattle.ic_slots.specs.Opening.{Says};
ghost use Rattle.ic_disk.specs.Content.{laid};
ghost use Rattle.ic_frames.specs.declared.slot.TheConstants.{SECOND_AT};
ghost use Rattle.ic_slots.specs.Unused.{IsBegun, IsUnused, first_bytes};

use ic_codec::laws::{each_table_has_its_own_bytes, forms_are_short};
use ic_frames::laws::{a_slot_is_its_bytes, a_slot_is_open_or_whole, the_newest_slot_is_held};

/// A file holds one table at most, or is refused for one reason.
pub fn one_is_held()
    ensures { (file : List ℕ) (one other : Held) → IsHeld one file → IsHeld other file
        → one ≡ other }
{
    each_table_has_its_own_bytes();
}

/// Where the newest slot is whole and its body a byte form of a table, that table is held, whatever
/// the other slot has, and in whatever form. Where its body is the form of no table, or longer than
/// the longest form, the disk is damaged.
pub fn the_newest_table_is_held()
    ensures held { (slot : Slot) (file : List ℕ) (t : List JobParts) → IsNewest slot file
        → is_whole (place slot) file ≡ true → IsTable t
        → IsFormOf t (body (place slot) file) → IsHeld (the_table t) file }
    ensures spoiled { (slot : Slot) (file : List ℕ) → IsNewest slot file
        → ((t : List JobParts) → IsTable t → ¬ IsFormOf t (body (place slot) file))
        → IsHeld damaged file }
    ensures long { (slot : Slot) (file : List ℕ) → IsNewest slot file
        → MAX_BYTES < size (place slot) file → IsHeld damaged file }
{
    the_newest_slot_is_held();
    a_slot_is_open_or_whole();
    forms_are_short();
}

/// A table is held in the form that is written, or, where it has no budgets, in the old one. What
/// holds a body of the old form holds its table, and nothing else.
pub fn the_old_form_is_held()
    ensures new { (t : List JobParts) (file : List ℕ) → IsTable t
        → HasBody (table_bytes t) file → IsHeld (the_table t) file }
    ensures old { (t : List JobParts) (file : List ℕ) → IsTable t → HasNoBudgets t
        → HasBody (old_table_bytes t) file → IsHeld (the_table t) file }
    ensures alone { (t : List JobParts) (held : Held) (file : List ℕ) → IsTable t
        → HasNoBudgets t → HasBody (old_table_bytes t) file → IsHeld held file
        → held ≡ the_table t }
    ensures only { (t : List JobParts) (file : List ℕ) → IsHeld (the_table t) file
        → HasBody (table_bytes t) file
        ⊎ (HasNoBudgets t × HasBody (old_table_bytes t) file) }
{
    each_table_has_its_own_bytes();
}

/// What a stop in a keep leaves, whether the program writes the old form or the new one. Where a
/// made file has one of two bodies, each a form of a table, it holds one of the two tables. So a
/// keep of either form over either form leaves the old table or the new one.
pub fn one_of_two_forms_is_one_of_two_tables()
    ensures either { (t u : List JobParts) (one other file : List ℕ) → IsTable t → IsTable u
        → IsFormOf t one → IsFormOf u other → HoldsEither one other file
        → HoldsEitherTable t u file }
    ensures old { (t u : List JobParts) (file : List ℕ) → IsTable t → IsTable u
        → HasNoBudgets t → HasNoBudgets u
        → HoldsEither (old_table_bytes t) (old_table_bytes u) file → HoldsEitherTable t u file }
    ensures mixed { (t u : List JobParts) (file : List ℕ) → IsTable t → IsTable u
        → HasNoBudgets t
        → HoldsEither (old_table_bytes t) (table_bytes u) file → HoldsEitherTable t u file }
{}

/// A refusal to open says what the file holds.
pub fn a_refusal_says_what_is_held()
    ensures shut { (file : List ℕ) → Says NoSlot file → IsHeld no_slot file }
    ensures alike { (file : List ℕ) → Says TwoAlike file → IsHeld two_alike file }
    ensures spoiled { (file : List ℕ) → Says Damaged file → IsHeld damaged file }
{}

/// Where `create` tells that the disk has failed, one more failure is counted, up to the end of the
/// count. Otherwise none is.
pub fn a_failure_is_counted()
    ensures create_failed { (old new : ℕ) → CountsCreate {T = Unit {0}} (Err CreateDevice) old new
        → (new ≡ old + 1) ⊎ ((old ≡ 2 ^ 64 - 1) × (new ≡ old)) }
    ensures create_else { (result : Result (Unit {0}) CreateFault) (old new : ℕ)
        → CountsCreate result old new → ¬ IsErrOf result CreateDevice → new ≡ old }
{}

/// The lasting numbers of the faults of `create`.
pub fn numbers_are_lasting()
    ensures all { (fault : CreateFault) → Contains all_create_faults fault }
    ensures numbers { map create_fault_number all_create_faults ≡ 1 ∷ 2 ∷ [] }
{}

/// The longest byte form of a table fits in a slot.
pub fn a_table_fits_in_a_slot()
    ensures { MAX_BYTES ≤ MAX_BODY }
{}

/// What a stopped `create` leaves of an empty file has no open slot.
pub fn what_is_begun_is_shut()
    ensures { (file : List ℕ) → IsBegun file → IsHeld no_slot file }
{
    a_slot_is_open_or_whole();
    the_newest_slot_is_held();
}

/// No job is lost where a disk that may be made anew is made anew: a table that it holds has none. An
/// empty file may be, and so may a file that holds the empty table.
pub fn no_job_is_lost()
    ensures lost { (file : List ℕ) (t : List JobParts)
        → IsUnused file → IsHeld (the_table t) file → t ≡ [] }
    ensures nothing { IsUnused [] }
    ensures empty { (file : List ℕ) → IsHeld (the_table []) file → IsUnused file }
{
    one_is_held();
    what_is_begun_is_shut();
}

/// What a stopped `create` leaves ends with the head of the second slot at the latest, is closed, and has
/// zeros after the 18 bytes of an empty table. Each byte of it is 0, or the one that a `create` writes
/// there.
pub fn what_is_begun_is_nearly_empty()
    ensures short { (file : List ℕ) → IsBegun file → length file ≤ SECOND_AT + HEAD }
    ensures closed { (file : List ℕ) → IsBegun file → slice_index file 0 ≡ 0 }
    ensures zeros { (file : List ℕ) (i : ℕ) → IsBegun file → 18 ≤ i → slice_index file i ≡ 0 }
    ensures bytes { (file : List ℕ) (i : ℕ) → IsBegun file → (slice_index file i ≡ 0)
        ⊎ ((slice_index file i ≡ slice_index (first_bytes (table_bytes [])) i)
        ⊎ (slice_index file i ≡ slice_index (first_bytes (old_table_bytes [])) i)) }
{}

/// The bytes that a `create` writes in the first slot before it opens the gate. They are a gate that is
/// closed, the number 1 in eight bytes, the length 5 in four, the name of the form, and that there are no
/// jobs.
pub fn the_first_bytes_are()
    ensures ict2 { first_bytes (table_bytes [])
        ≡ 0 ∷ 0 ∷ 0 ∷ 0 ∷ 0 ∷ 0 ∷ 0 ∷ 0 ∷ 1 ∷ 0 ∷ 0 ∷ 0 ∷ 5 ∷ codes "ICT2" ++ 0 ∷ [] }
    ensures ict1 { first_bytes (old_table_bytes [])
        ≡ 0 ∷ 0 ∷ 0 ∷ 0 ∷ 0 ∷ 0 ∷ 0 ∷ 0 ∷ 1 ∷ 0 ∷ 0 ∷ 0 ∷ 5 ∷ codes "ICT1" ++ 0 ∷ [] }
{}

/// After each write of a `create` of an empty file, except for the last one, which opens the gate,
/// the file is what a stopped `create` leaves. Such writes are that of the second head and that of
/// the first slot.
pub fn each_write_of_create_is_begun()
    ensures head { IsBegun (laid SECOND_AT (replicate HEAD 0) []) }
    ensures slot { IsBegun (laid 0 (first_bytes (table_bytes []))
        (laid SECOND_AT (replicate HEAD 0) [])) }
{}

/// A `create` of an empty file may be done again wherever it was stopped, on a file system that fills
/// up with zeros: whichever of its writes was made in part, the file is what `is_unused` takes for a
/// stopped `create`, or a made one with the empty table.
pub fn a_stopped_create_may_be_done_again()
    ensures left { (file : List ℕ)
        → IsInOneOf IsMadeInPart (writes_of_create (table_bytes [])) [] (λ f. f ≡ []) file
        → IsBegun file ⊎ HoldsTable [] file }
    ensures unused { (file : List ℕ)
        → IsInOneOf IsMadeInPart (writes_of_create (table_bytes [])) [] (λ f. f ≡ []) file
        → IsUnused file }
{
    a_slot_is_its_bytes();
    a_slot_is_open_or_whole();
    the_newest_table_is_held();
}

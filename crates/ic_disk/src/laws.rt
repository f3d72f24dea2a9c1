//! What any disk that keeps the model is good for, proved from the clauses of its calls alone, and
//! laws of the definitions that those cite.

ghost use Rattle.std.specs.Prelude.{◌≡◌, ◌⊎◌, ◌+◌, ◌-◌, ◌^◌, ◌<◌, ◌≤◌, ◌↔◌, [], ◌∷◌, List, ℕ, length, max, slice_index, IsTrue, OnOk, OnErr, Result};
ghost use Rattle.ic_disk.specs.Content.{laid};
ghost use Rattle.ic_disk.specs.Course.{Course, IsCourse, MayRead, MaySync, MayTell, MayWrite, after_call, calls_in, content_in, failures_in, first_course, image_in, keeps_in, left_in};
ghost use Rattle.ic_disk.specs.Crash.{Takes};
ghost use Rattle.ic_disk.specs.DiskCalls.{ChangesNothing, IsDiskSync, IsDiskWrite, ReadsBytes, TellsLength};
ghost use Rattle.ic_disk.specs.Images.{Only, TornFrom, Within};
ghost use Rattle.ic_disk.specs.PlainImages.{AgreesOutside, AgreesWithAny, TornInTurn, one_range, two_ranges};
ghost use Rattle.ic_disk.specs.Model.{IsImageIn, IsInState, State, Write, after, begun, write, write_of};
ghost use Rattle.ic_disk.specs.Time.{CountsFailure, LeavesOnly, LeftSince, OneCallAtMost};
ghost use Rattle.ic_disk.specs.declared.disk.DiskFault.{DiskFault};
ghost use Rattle.ic_disk.specs.declared.mem.Choice.{Choice};

use crate::{Disk, DiskFault};

/// Writes these bytes and waits until they are on the disk for good.
pub fn write_synced<D: Disk>(disk: &mut D, at: u64, bytes: &[u8]) -> Result<(), DiskFault>
    ensures keeps { D.keeps disk.new ≡ D.keeps disk.old }
    ensures counted { CountsFailure result (D.failures disk.old) (D.failures disk.new) }

    ensures written { IsTrue (D.keeps disk.old) → OnOk result
        (D.content disk.new ≡ laid at bytes.now (D.content disk.old)) }
    ensures durable { IsTrue (D.keeps disk.old) → OnOk result
        (Only (laid at bytes.now (D.content disk.old)) (D.image disk.new)) }

    // At Err the images from before are there still, or the bytes are on the disk for good.
    ensures failed { IsTrue (D.keeps disk.old) → OnErr result
        (Within (D.image disk.old) (D.image disk.new)
        ⊎ Only (laid at bytes.now (D.content disk.old)) (D.image disk.new)) }

    // A crash at any moment leaves an image from before, torn by the write.
    ensures any_moment { IsTrue (D.keeps disk.old) → LeavesOnly D.clock D.left disk.old disk.new
        (TornFrom at (length bytes.now) (D.image disk.old)) }

    // It makes at most two calls.
    ensures calls { D.clock disk.new ≤ D.clock disk.old + 2 }
{
    disk.write_at(at, bytes)?;
    disk.sync()
}

/// Writes some bytes and then one more byte, each synced before the next call.
pub fn write_and_mark<D: Disk>(
    disk: &mut D,
    at: u64,
    bytes: &[u8],
    mark_at: u64,
    mark: u8,
) -> Result<(), DiskFault>
    ensures keeps { D.keeps disk.new ≡ D.keeps disk.old }
    ensures counted { CountsFailure result (D.failures disk.old) (D.failures disk.new) }

    // At Ok a crash leaves the content so written, and nothing else.
    ensures durable { IsTrue (D.keeps disk.old) → OnOk result
        (Only (laid mark_at (mark ∷ []) (laid at bytes.now (D.content disk.old)))
        (D.image disk.new)) }

    // Whatever the answer, a crash at any moment leaves what agrees with an image from before,
    // outside the two ranges.
    ensures any_moment { IsTrue (D.keeps disk.old) → LeavesOnly D.clock D.left disk.old disk.new
        (AgreesWithAny (two_ranges at (length bytes.now) mark_at 1) (D.image disk.old)) }

    // So it agrees with the content from before, where a sync had been the last call.
    ensures settled { IsTrue (D.keeps disk.old) → Only (D.content disk.old) (D.image disk.old)
        → LeavesOnly D.clock D.left disk.old disk.new
        (AgreesOutside (two_ranges at (length bytes.now) mark_at 1) (D.content disk.old)) }

    // The mark isn't begun before the bytes are there to stay: a crash leaves an image from before
    // torn by the write of the bytes, or the content with all of them, torn where the mark is.
    ensures ordered { IsTrue (D.keeps disk.old) → LeavesOnly D.clock D.left disk.old disk.new
        (TornInTurn at bytes.now mark_at 1 (D.content disk.old) (D.image disk.old)) }

    // It makes at most four calls.
    ensures calls { D.clock disk.new ≤ D.clock disk.old + 4 }
{
    write_synced(disk, at, bytes)?;
    write_synced(disk, mark_at, &[mark])
}

/// A disk whose content is the only image is as one that begins with it.
pub fn settled_disk_begins<D: Disk>(disk: &D)
    ensures { Only (D.content disk.now) (D.image disk.now)
        → IsInState D.content D.image disk.now (begun (D.content disk.now)) }
{
    let _ = disk;
}

/// Writes, as `write_at` does: what that does to the state of the written model.
pub fn write_as_modelled<D: Disk>(disk: &mut D, at: u64, bytes: &[u8]) -> Result<(), DiskFault>
    ensures counted { CountsFailure result (D.failures disk.old) (D.failures disk.new) }

    // At Err nothing has changed, or the range is pending and the content torn there.
    ensures may { (s : State) → IsTrue (D.keeps disk.old) → IsInState D.content D.image disk.old s
        → (now : State) × MayWrite (record { at = at; bytes = bytes.now }) result s now
        × IsInState D.content D.image disk.new now }

    // A crash in the midst of it may leave all that it may leave before and after it, and nothing
    // but what it leaves with the range pending.
    ensures reached { IsTrue (D.keeps disk.old) → (file : List ℕ)
        → D.image disk.old file ⊎ D.image disk.new file
        → LeftSince (D.left disk.new) (D.clock disk.old) file }
    ensures midst { (s : State) → IsTrue (D.keeps disk.old) → IsInState D.content D.image disk.old s
        → (file : List ℕ) → LeftSince (D.left disk.new) (D.clock disk.old) file
        → IsImageIn (after (write_of at bytes.now) s) file }

    // Where all was synced, an image is whatever agrees with what was there outside the range.
    ensures settled { IsTrue (D.keeps disk.old) → Only (D.content disk.old) (D.image disk.old)
        → OnOk result ((file : List ℕ) → D.image disk.new file
        ↔ AgreesOutside (one_range at (length bytes.now)) (D.content disk.old) file) }
{
    disk.write_at(at, bytes)
}

/// Syncs, as `sync` does: what that does to the state of the written model.
pub fn sync_as_modelled<D: Disk>(disk: &mut D) -> Result<(), DiskFault>
    ensures counted { CountsFailure result (D.failures disk.old) (D.failures disk.new) }
    ensures may { (s : State) → IsTrue (D.keeps disk.old) → IsInState D.content D.image disk.old s
        → (now : State) × MaySync result s now × IsInState D.content D.image disk.new now }
    ensures reached { IsTrue (D.keeps disk.old) → (file : List ℕ)
        → D.image disk.old file ⊎ D.image disk.new file
        → LeftSince (D.left disk.new) (D.clock disk.old) file }
    ensures midst { (s : State) → IsTrue (D.keeps disk.old) → IsInState D.content D.image disk.old s
        → (file : List ℕ) → LeftSince (D.left disk.new) (D.clock disk.old) file → IsImageIn s file }
{
    disk.sync()
}

/// Asks for the length, as `len` does, which changes nothing in the written model.
pub fn len_as_modelled<D: Disk>(disk: &mut D) -> Result<u64, DiskFault>
    ensures counted { CountsFailure result (D.failures disk.old) (D.failures disk.new) }
    ensures may { (s : State) → IsTrue (D.keeps disk.old) → IsInState D.content D.image disk.old s
        → MayTell result s }
    ensures same { (s : State) → IsTrue (D.keeps disk.old) → IsInState D.content D.image disk.old s
        → IsInState D.content D.image disk.new s }
    ensures midst { (s : State) → IsTrue (D.keeps disk.old) → IsInState D.content D.image disk.old s
        → (file : List ℕ) → LeftSince (D.left disk.new) (D.clock disk.old) file → IsImageIn s file }
{
    disk.len()
}

/// Reads, as `read` does, which changes nothing in the written model.
pub fn read_as_modelled<D: Disk>(disk: &mut D, at: u64, into: &mut [u8]) -> Result<(), DiskFault>
    requires { IsTrue (D.keeps disk.old) → at + length into.old ≤ length (D.content disk.old) }
    ensures counted { CountsFailure result (D.failures disk.old) (D.failures disk.new) }
    ensures may { (s : State) → IsTrue (D.keeps disk.old) → IsInState D.content D.image disk.old s
        → MayRead at result into.old into.new s }
    ensures same { (s : State) → IsTrue (D.keeps disk.old) → IsInState D.content D.image disk.old s
        → IsInState D.content D.image disk.new s }
    ensures midst { (s : State) → IsTrue (D.keeps disk.old) → IsInState D.content D.image disk.old s
        → (file : List ℕ) → LeftSince (D.left disk.new) (D.clock disk.old) file → IsImageIn s file }
{
    disk.read(at, into)
}

/// The trait asks no more of a disk than the written model allows: whatever that lets a call do, at
/// Ok and at Err, the clauses of the trait say of it. In the midst of a write its range is pending.
pub fn the_written_model_is_a_disk<T, E>(answer: &Result<T, E>)
    // Of each call.
    ensures keeps { (c : Course) (midst now : State)
        → keeps_in (after_call answer.now midst now c) ≡ keeps_in c }
    ensures counted { (c : Course) (midst now : State) → IsCourse c → CountsFailure answer.now
        (failures_in c) (failures_in (after_call answer.now midst now c)) }
    ensures one_call { (c : Course) (midst now : State)
        → OneCallAtMost (calls_in c) (calls_in (after_call answer.now midst now c)) }

    // Of a call for the length, and of one that reads.
    ensures length { (told : Result ℕ DiskFault) (c : Course) → MayTell told c.state
        → TellsLength (content_in c) told }
    ensures bytes { (at : ℕ) (old new : List ℕ) (c : Course)
        → MayRead at answer.now old new c.state
        → ReadsBytes at (content_in c) answer.now old new }
    ensures unchanged { (c : Course) → ChangesNothing content_in image_in calls_in left_in
        c (after_call answer.now c.state c.state c) }

    // Of a write and of a sync.
    ensures writes { (w : Write) (c : Course) (now : State) → MayWrite w answer.now c.state now
        → IsDiskWrite content_in image_in calls_in left_in w.at w.bytes answer.now
        c (after_call answer.now (after (write w) c.state) now c) }
    ensures syncs { (c : Course) (now : State) → IsCourse c → MaySync answer.now c.state now
        → IsDiskSync content_in image_in calls_in left_in answer.now
        c (after_call answer.now c.state now c) }

    // The laws of the trait.
    ensures content_is_image { (c : Course) → IsCourse c → image_in c (content_in c) }
    ensures image_is_left { (c : Course) (t : ℕ) (file : List ℕ)
        → t ≤ calls_in c → image_in c file → LeftSince (left_in c) t file }
    ensures left_is_image { (c : Course) (file : List ℕ) → IsCourse c
        → LeftSince (left_in c) (calls_in c) file → image_in c file }
{
    let _ = answer;
}

/// A disk of the written model begins with its bytes, and goes on by calls.
pub fn courses_go_on<T, E>(answer: &Result<T, E>)
    ensures begins { (file : List ℕ) → IsCourse (first_course file) }
    ensures writes { (w : Write) (c : Course) (now : State) → IsCourse c
        → MayWrite w answer.now c.state now
        → IsCourse (after_call answer.now (after (write w) c.state) now c) }
    ensures syncs { (c : Course) (now : State) → IsCourse c → MaySync answer.now c.state now
        → IsCourse (after_call answer.now c.state now c) }
    ensures reads { (c : Course) → IsCourse c
        → IsCourse (after_call answer.now c.state c.state c) }

    // A crash during a call may leave what it might before it, in its midst and after it; and what it
    // might have left is never forgotten.
    ensures moments { (c : Course) (midst now : State) (file : List ℕ)
        → image_in c file ⊎ (IsImageIn midst file ⊎ IsImageIn now file)
        → LeftSince (left_in (after_call answer.now midst now c)) (calls_in c) file }
    ensures past { (c : Course) (midst now : State) (t : ℕ) (file : List ℕ)
        → left_in c t file → left_in (after_call answer.now midst now c) t file }
{
    let _ = answer;
}

/// A write lays its bytes over a file. Each place of its range has the byte for it, each other place
/// of the file keeps its byte, and each place between the file's end and the range has a 0. The file
/// is then as long as it was, or reaches to the range's end.
pub fn a_write_lays_its_bytes()
    ensures inside { (at : ℕ) (bytes file : List ℕ) (i : ℕ) → i < length bytes
        → slice_index (laid at bytes file) (at + i) ≡ slice_index bytes i }
    ensures outside { (at : ℕ) (bytes file : List ℕ) (i : ℕ) → i < length file
        → (i < at) ⊎ (at + length bytes ≤ i)
        → slice_index (laid at bytes file) i ≡ slice_index file i }
    ensures gap { (at : ℕ) (bytes file : List ℕ) (i : ℕ) → length file ≤ i → i < at
        → slice_index (laid at bytes file) i ≡ 0 }
    ensures length { (at : ℕ) (bytes file : List ℕ)
        → length (laid at bytes file) ≡ max (length file) (at + length bytes) }
{}

/// The count of failures rises by one where a call failed, until it is at its end.
pub fn failures_rise<T, E>(answer: &Result<T, E>)
    ensures stays { (old new : ℕ) → CountsFailure answer.now old new
        → OnOk answer.now (new ≡ old) }
    ensures rises { (old new : ℕ) → CountsFailure answer.now old new → old < 2 ^ 64 - 1
        → OnErr answer.now (new ≡ old + 1) }
    ensures ends { (new : ℕ) → CountsFailure answer.now (2 ^ 64 - 1) new → new ≡ 2 ^ 64 - 1 }
{
    let _ = answer;
}

/// In each state of the model a choice at a crash takes one list of bytes.
pub fn choice_takes_one()
    ensures { (choice : Choice) (s : State) (left other : List ℕ)
        → Takes choice s left → Takes choice s other → left ≡ other }
{}

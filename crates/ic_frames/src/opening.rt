//! Finding the newest body of a disk.

ghost use Rattle.std.specs.Prelude.{◌≡◌, ◌⊎◌, ◌+◌, ◌≤◌, ◌<◌, ℕ, List, true, false, length, drop, IsTrue, IfOk, IfErr, IsErrOf, OnOk, OnErr, vec_capacity};
ghost use Rattle.ic_disk.specs.Content.{bytes_at};
ghost use Rattle.ic_disk.specs.Images.{Only};
ghost use Rattle.ic_disk.specs.Time.{CountsFailure};
ghost use Rattle.ic_frames.specs.Places.{place};
ghost use Rattle.ic_frames.specs.Held.{body_held};
ghost use Rattle.ic_frames.specs.Faults.{CountsOpen};
ghost use Rattle.ic_frames.specs.inner.Reading.{OnlyReads};
ghost use Rattle.ic_frames.specs.Opening.{Answers};
ghost use Rattle.ic_frames.specs.inner.Finding.{IsHeadOf, Chooses, IsFound, IsOfSlots, IsOfCalls, IsDamage};

use crate::found::{Found, Head, Newest};
use crate::{HEAD, MAX_BODY, OpenCause, SECOND_AT, Slot};
use ic_disk::{Disk, DiskFault};
use std::alloc::Global;

// The bytes of the disk from this place on.
fn read_bytes<D: Disk, const N: usize>(disk: &mut D, at: u64) -> Result<[u8; N], DiskFault>
    requires { IsTrue (D.keeps disk.old) → at + N ≤ length (D.content disk.old) }
    ensures keeps { D.keeps disk.new ≡ D.keeps disk.old }
    ensures counted { CountsFailure result (D.failures disk.old) (D.failures disk.new) }
    ensures bytes { IsTrue (D.keeps disk.old)
        → IfOk result (λ bytes. bytes ≡ bytes_at at N (D.content disk.old)) }
    ensures reads { IsTrue (D.keeps disk.old)
        → OnlyReads D.content D.image D.clock D.left disk.old disk.new }
{
    let mut bytes = [0; N];
    disk.read(at, &mut bytes)?;
    Ok(bytes)
}

// The head of this slot, where it is open.
fn read_head<D: Disk>(disk: &mut D, slot: Slot, len: u64) -> Result<Option<Head>, DiskFault>
    requires { IsTrue (D.keeps disk.old) → len ≡ length (D.content disk.old) }
    ensures keeps { D.keeps disk.new ≡ D.keeps disk.old }
    ensures counted { CountsFailure result (D.failures disk.old) (D.failures disk.new) }
    ensures head { IsTrue (D.keeps disk.old)
        → IfOk result (λ head. IsHeadOf slot head (D.content disk.old)) }
    ensures reads { IsTrue (D.keeps disk.old)
        → OnlyReads D.content D.image D.clock D.left disk.old disk.new }
{
    let at = slot.place();
    if len < at + HEAD as u64 {
        return Ok(None);
    }
    let gate = read_bytes::<D, 1>(disk, at)?;
    if gate[0] != 1 {
        return Ok(None);
    }
    let number = u64::from_be_bytes(read_bytes(disk, at + 1)?);
    let size = u32::from_be_bytes(read_bytes(disk, at + 9)?);
    Ok(Some(Head { number, size }))
}

// The newest of the open slots.
fn newest_of(first: Option<Head>, second: Option<Head>) -> Result<Newest, OpenCause>
    ensures chosen { (file : List ℕ) → IsHeadOf Slot.First first file
        → IsHeadOf Slot.Second second file → Chooses result file }
    ensures cause { IfErr result IsOfSlots }
{
    match (first, second) {
        (None, None) => Err(OpenCause::NoSlot),
        (Some(head), None) => Ok(Newest {
            slot: Slot::First,
            head,
            alone: true,
        }),
        (None, Some(head)) => Ok(Newest {
            slot: Slot::Second,
            head,
            alone: true,
        }),
        (Some(first), Some(second)) if first.number == second.number => Err(OpenCause::TwoAlike),
        (Some(first), Some(second)) if first.number > second.number => {
            Ok(Newest {
                slot: Slot::First,
                head: first,
                alone: false,
            })
        }
        (Some(_), Some(head)) => Ok(Newest {
            slot: Slot::Second,
            head,
            alone: false,
        }),
    }
}

// The newest slot, where its body is no longer than it may be and lies within a disk of this
// length. Where it isn't, the other slot isn't tried: it is older.
fn whole_of(newest: Newest, len: u64) -> Result<Newest, OpenCause>
    ensures same { IfOk result (λ whole. whole ≡ newest) }
    ensures ok { IfOk result (λ whole. (whole.head.size ≤ MAX_BODY)
        × (place whole.slot + 13 + whole.head.size ≤ len)) }
    ensures err { OnErr result ((MAX_BODY < newest.head.size)
        ⊎ (len < place newest.slot + 13 + newest.head.size)) }
    ensures cause { IfErr result IsDamage }
{
    let size = newest.head.size;
    if size as usize > MAX_BODY || newest.slot.place() + HEAD as u64 + size as u64 > len {
        return Err(OpenCause::Damaged);
    }
    Ok(newest)
}

// A frame with the body of this slot, with room for the longest.
fn read_frame<D: Disk>(
    alloc: Global,
    disk: &mut D,
    slot: Slot,
    size: usize,
) -> Result<Vec<u8>, OpenCause>
    requires short { size ≤ MAX_BODY }
    requires within { IsTrue (D.keeps disk.old)
        → place slot + 13 + size ≤ length (D.content disk.old) }
    ensures keeps { D.keeps disk.new ≡ D.keeps disk.old }
    ensures counted { CountsOpen result (D.failures disk.old) (D.failures disk.new) }
    ensures body { IsTrue (D.keeps disk.old) → IfOk result (λ frame. drop 13 frame.items
        ≡ bytes_at (place slot + 13) size (D.content disk.old)) }
    ensures long { IfOk result (λ frame. length frame.items ≡ 13 + size) }
    ensures room { IfOk result (λ frame. 13 + MAX_BODY ≤ vec_capacity frame) }
    ensures cause { IfErr result IsOfCalls }
    ensures reads { IsTrue (D.keeps disk.old)
        → OnlyReads D.content D.image D.clock D.left disk.old disk.new }
{
    let mut frame = Vec::with_capacity(alloc, HEAD + MAX_BODY)?;
    frame.resize(HEAD + size, 0)?;
    disk.read(slot.place() + HEAD as u64, &mut frame[HEAD..])?;
    Ok(frame)
}

// A synced disk, its length and the heads of its two slots.
fn look<D: Disk>(disk: &mut D) -> Result<(u64, Option<Head>, Option<Head>), DiskFault>
    ensures keeps { D.keeps disk.new ≡ D.keeps disk.old }
    ensures counted { CountsFailure result (D.failures disk.old) (D.failures disk.new) }
    ensures settled { IsTrue (D.keeps disk.old)
        → OnOk result (Only (D.content disk.old) (D.image disk.new)) }
    ensures length { IsTrue (D.keeps disk.old)
        → IfOk result (λ seen. seen.0 ≡ length (D.content disk.old)) }
    ensures first { IsTrue (D.keeps disk.old)
        → IfOk result (λ seen. IsHeadOf Slot.First seen.1 (D.content disk.old)) }
    ensures second { IsTrue (D.keeps disk.old)
        → IfOk result (λ seen. IsHeadOf Slot.Second seen.2 (D.content disk.old)) }
    ensures reads { IsTrue (D.keeps disk.old)
        → OnlyReads D.content D.image D.clock D.left disk.old disk.new }
{
    disk.sync()?;
    let len = disk.len()?;
    let first = read_head(disk, Slot::First, len)?;
    let second = read_head(disk, Slot::Second, len)?;
    Ok((len, first, second))
}

// The newest body of the disk.
pub(crate) fn find<D: Disk>(alloc: Global, disk: &mut D) -> Result<Found, OpenCause>
    ensures keeps { D.keeps disk.new ≡ D.keeps disk.old }
    ensures counted { CountsOpen result (D.failures disk.old) (D.failures disk.new) }
    ensures found { IsTrue (D.keeps disk.old)
        → IfOk result (λ found. IsFound found (D.content disk.old)) }
    ensures settled { IsTrue (D.keeps disk.old)
        → OnOk result (Only (D.content disk.old) (D.image disk.new)) }
    ensures synced { IsTrue (D.keeps disk.old) → ¬ IsErrOf result OpenCause.Device
        → Only (D.content disk.old) (D.image disk.new) }
    ensures room { IfOk result (λ found. 13 + MAX_BODY ≤ vec_capacity found.frame) }
    ensures head { IfOk result (λ found. 13 ≤ length found.frame.items) }
    ensures refused { IsTrue (D.keeps disk.old)
        → IfErr result (λ cause. Answers cause (body_held (D.content disk.old))) }
    ensures reads { IsTrue (D.keeps disk.old)
        → OnlyReads D.content D.image D.clock D.left disk.old disk.new }
{
    let (len, first, second) = look(disk)?;
    let newest = newest_of(first, second)?;
    let whole = whole_of(newest, len)?;
    let frame = read_frame(alloc, disk, whole.slot, whole.head.size as usize)?;
    let made = len >= SECOND_AT + HEAD as u64;
    Ok(Found {
        newest: whole,
        made,
        frame,
    })
}

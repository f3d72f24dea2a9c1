//! Reading the slots of a file.

ghost use Rattle.std.specs.Prelude.{◌≡◌, ◌≢◌, ◌⊎◌, ◌+◌, true, take, IfOk, IfErr, OnOk};
ghost use Rattle.std.specs.Io.KnownBytes.{Consumes};
ghost use Rattle.std.specs.Str.{bytes_eq};
ghost use Rattle.ic_frames.specs.declared.frame.TheConstants.{HEAD, MAX_BODY};
ghost use Rattle.ic_inspect.specs.Slots.{HasHead, HasOtherHead, HaveChanged, IsSlotOf, TakesAtMost, is_one_file};
ghost use Rattle.ic_inspect.specs.inner.Fronts.{IsFrontOf};

use crate::fault::InspectFault;
use crate::looking::body_room;
use ic_frames::HEAD;
use std::alloc::Global;
use std::io::{ErrorKind, Read};

/// How many bytes are read at a time.
const CHUNK: usize = 8_192;

/// What was read of the two slots of a file: of each its head and its body.
#[derive(Drop)]
pub struct Slots {
    pub first: Vec<u8>,
    pub second: Vec<u8>,
}

/// Reads as many bytes, or all that the reader has.
fn read_front<R: Read>(alloc: Global, limit: usize, reader: &mut R) -> Result<Vec<u8>, InspectFault>
    ensures front { IfOk result (λ front. IsFrontOf limit front.items (R.remaining reader.old)) }
    ensures taken { IfOk result (λ front.
        Consumes (R.remaining reader.old) (R.remaining reader.new) front.items) }
    ensures few { TakesAtMost limit (R.remaining reader.old) (R.remaining reader.new) }
    ensures sort { IfErr result
        (λ fault. (fault ≡ InspectFault.Read) ⊎ (fault ≡ InspectFault.Memory)) }
{
    let mut front = Vec::new(alloc);
    let mut chunk = [0u8; CHUNK];
    for _ in 0..u64::MAX {
        if front.len() >= limit {
            return Ok(front);
        }
        let room = CHUNK.min(limit - front.len());
        match reader.read(&mut chunk[..room]) {
            Ok(0) => return Ok(front),
            Ok(count) => front.extend_from_slice(&chunk[..count])?,
            Err(error) if error.kind() == ErrorKind::Interrupted => {}
            Err(_) => return Err(InspectFault::Read),
        }
    }
    Err(InspectFault::Read)
}

/// Reads a slot whose bytes the reader has from its place on: its head, and then its body, unless that is too long.
fn read_slot<R: Read>(alloc: Global, reader: &mut R) -> Result<Vec<u8>, InspectFault>
    ensures slot { IfOk result (λ slot. IsSlotOf slot.items (R.remaining reader.old)) }
    ensures taken { IfOk result (λ slot.
        Consumes (R.remaining reader.old) (R.remaining reader.new) slot.items) }
    ensures few { TakesAtMost (HEAD + MAX_BODY) (R.remaining reader.old) (R.remaining reader.new) }
    ensures sort { IfErr result
        (λ fault. (fault ≡ InspectFault.Read) ⊎ (fault ≡ InspectFault.Memory)) }
{
    let mut slot = read_front(alloc, HEAD, reader)?;
    let room = body_room(&slot);
    let body = read_front(alloc, room, reader)?;
    slot.extend_from_slice(&body)?;
    Ok(slot)
}

/// Reads the two slots of a file once, the first one and then the second one. Each reader has the file's bytes from the
/// place of its slot on.
pub fn read_slots<R: Read, S: Read>(
    alloc: Global,
    first: &mut R,
    second: &mut S,
) -> Result<Slots, InspectFault>
    ensures first { IfOk result
        (λ slots. IsSlotOf slots.first.items (R.remaining first.old)) }
    ensures second { IfOk result
        (λ slots. IsSlotOf slots.second.items (S.remaining second.old)) }
    // At Ok these bytes are taken, and whatever the answer no more than a slot has.
    ensures first_taken { IfOk result (λ slots.
        Consumes (R.remaining first.old) (R.remaining first.new) slots.first.items) }
    ensures second_taken { IfOk result (λ slots.
        Consumes (S.remaining second.old) (S.remaining second.new) slots.second.items) }
    ensures first_few { TakesAtMost (HEAD + MAX_BODY)
        (R.remaining first.old) (R.remaining first.new) }
    ensures second_few { TakesAtMost (HEAD + MAX_BODY)
        (S.remaining second.old) (S.remaining second.new) }
    ensures sort { IfErr result
        (λ fault. (fault ≡ InspectFault.Read) ⊎ (fault ≡ InspectFault.Memory)) }
{
    let first = read_slot(alloc, first)?;
    let second = read_slot(alloc, second)?;
    Ok(Slots { first, second })
}

/// Reads the heads of both slots again, that of the first one first. They are to be the same, and the slots those of one
/// file.
pub(crate) fn read_again<R: Read, S: Read>(
    alloc: Global,
    slots: &Slots,
    first: &mut R,
    second: &mut S,
) -> Result<(), InspectFault>
    ensures first { OnOk result (HasHead slots.now.first.items (R.remaining first.old)) }
    ensures second { OnOk result (HasHead slots.now.second.items (S.remaining second.old)) }
    ensures one_file { OnOk result
        (is_one_file slots.now.first.items slots.now.second.items ≡ true) }
    ensures changed { IfErr result (λ fault. fault ≡ InspectFault.Changed
        → HaveChanged slots.now.first.items slots.now.second.items
        (R.remaining first.old) (S.remaining second.old)) }
    ensures first_few { TakesAtMost HEAD (R.remaining first.old) (R.remaining first.new) }
    ensures second_few { TakesAtMost HEAD (S.remaining second.old) (S.remaining second.new) }
    ensures sort { IfErr result (λ fault. fault ≢ InspectFault.Write) }
{
    head_again(alloc, &slots.first, first)?;
    head_again(alloc, &slots.second, second)?;
    if is_one_file(&slots.first, &slots.second) {
        return Ok(());
    }
    Err(InspectFault::Changed)
}

/// Whether these may be the slots of one file, which has no second slot where it ends within the first one.
fn is_one_file(first: &[u8], second: &[u8]) -> bool
    ensures { result ≡ is_one_file first.now second.now }
{
    second.is_empty() || first.len() >= HEAD + body_room(first)
}

/// Reads the head of a slot again, which is to be the same.
fn head_again<R: Read>(alloc: Global, slot: &[u8], again: &mut R) -> Result<(), InspectFault>
    ensures same { OnOk result (HasHead slot.now (R.remaining again.old)) }
    ensures changed { IfErr result (λ fault. fault ≡ InspectFault.Changed
        → HasOtherHead slot.now (R.remaining again.old)) }
    ensures few { TakesAtMost HEAD (R.remaining again.old) (R.remaining again.new) }
    ensures sort { IfErr result (λ fault. fault ≢ InspectFault.Write) }
{
    let later = read_front(alloc, HEAD, again)?;
    let same = are_same(head_of(slot), later.as_slice());
    if same {
        return Ok(());
    }
    Err(InspectFault::Changed)
}

/// The head of a slot, as far as these bytes have it.
fn head_of(slot: &[u8]) -> &[u8]
    ensures { result.now ≡ take HEAD slot.now }
{
    if slot.len() < HEAD {
        return slot;
    }
    &slot[..HEAD]
}

/// Whether these are the same bytes.
fn are_same(file: &[u8], later: &[u8]) -> bool
    ensures { result ≡ bytes_eq file.now later.now }
{
    file == later
}

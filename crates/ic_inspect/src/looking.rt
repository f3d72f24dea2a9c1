//! Looking at the bytes of a slot.

ghost use Rattle.std.specs.Prelude.{◌≡◌, ◌+◌, ◌≤◌, length, IfOk};
ghost use Rattle.ic_frames.specs.declared.frame.TheConstants.{MAX_BODY};
ghost use Rattle.ic_frames.specs.Fields.{number, size, is_open};
ghost use Rattle.ic_inspect.specs.Seeing.{IsSeenAt, IsBodySeen};
ghost use Rattle.ic_inspect.specs.Slots.{body_room};

use crate::seen::{Body, Seen};
use ic_codec::{CodecFault, decode};
use ic_frames::{HEAD, MAX_BODY};
use std::alloc::{AllocError, Global};

/// What is seen of a slot with which these bytes begin, where they have its head.
pub(crate) fn see(alloc: Global, slot: &[u8]) -> Result<Option<Seen>, AllocError>
    ensures { IfOk result (λ seen. IsSeenAt 0 seen slot.now) }
{
    if slot.len() < HEAD {
        return Ok(None);
    }
    let size = size_at(slot, 0);
    let body = body_at(alloc, slot, 0, size as usize)?;
    Ok(Some(Seen {
        opened: is_open(slot, 0),
        number: number_at(slot, 0),
        size,
        body,
    }))
}

/// How many bytes of a slot's body are read, where it begins with these bytes.
pub(crate) fn body_room(slot: &[u8]) -> usize
    ensures is { result ≡ body_room slot.now }
    ensures few { result ≤ MAX_BODY }
{
    if slot.len() < HEAD {
        return 0;
    }
    let size = size_at(slot, 0) as usize;
    if size > MAX_BODY { 0 } else { size }
}

/// Whether the slot whose head begins here is open.
fn is_open(file: &[u8], at: usize) -> bool
    requires { at + 13 ≤ length file.now }
    ensures { result ≡ is_open at file.now }
{
    file[at] == 1
}

/// The number in the head that begins here.
fn number_at(file: &[u8], at: usize) -> u64
    requires { at + 13 ≤ length file.now }
    ensures { result ≡ number at file.now }
{
    let (_, rest) = file.split_at(at + 1);
    let (front, _) = rest.split_at(8);
    let mut bytes = [0u8; 8];
    bytes.copy_from_slice(front);
    u64::from_be_bytes(bytes)
}

/// The length of the body that the head that begins here tells.
fn size_at(file: &[u8], at: usize) -> u32
    requires { at + 13 ≤ length file.now }
    ensures { result ≡ size at file.now }
{
    let (_, rest) = file.split_at(at + 9);
    let (front, _) = rest.split_at(4);
    let mut bytes = [0u8; 4];
    bytes.copy_from_slice(front);
    u32::from_be_bytes(bytes)
}

/// What the body of this length is that follows the head at this place.
fn body_at(alloc: Global, file: &[u8], at: usize, count: usize) -> Result<Body, AllocError>
    requires head { at + 13 ≤ length file.now }
    requires count { count ≡ size at file.now }
    ensures { IfOk result (λ body. IsBodySeen at body file.now) }
{
    ic_frames::laws::a_slot_is_open_or_whole();
    if count > MAX_BODY {
        return Ok(Body::TooLong);
    }
    let (_, rest) = file.split_at(at + HEAD);
    if count > rest.len() {
        return Ok(Body::CutShort);
    }
    let (front, _) = rest.split_at(count);
    match decode(alloc, front) {
        Ok(table) => Ok(Body::Holds(table)),
        Err(CodecFault::NotATable) => Ok(Body::NoTable),
        Err(CodecFault::Memory) => Err(AllocError),
    }
}

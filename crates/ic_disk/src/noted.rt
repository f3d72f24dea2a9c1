//! The calls that a disk in memory notes, and making their writes once more.

ghost use Rattle.std.specs.Prelude.{◌≡◌, ◌-◌, map, take, length, IfOk, OnOk};
ghost use Rattle.ic_disk.specs.inner.Noted.{call_of};
ghost use Rattle.ic_disk.specs.Crash.{after_bytes, fronted};
ghost use Rattle.ic_disk.specs.inner.Writes.{EndWithin, filled_all, laid_all, writes_of};

use crate::bytes::{fill_range, lay};
use std::alloc::AllocError;

// A call that was made, with a copy of what it wrote.
#[derive(Drop)]
pub(crate) enum Noted {
    Write { at: usize, bytes: Vec<u8> },
    Sync,
}

// Lays the writes among these calls over the content, in order.
pub(crate) fn lay_all(content: &mut Vec<u8>, calls: &[Noted]) -> Result<(), AllocError>
    ensures ok { OnOk result (content.new.items
        ≡ laid_all (writes_of (map call_of calls.now)) content.old.items) }
{
    for call in calls {
        if let Noted::Write { at, bytes } = call {
            lay(content, *at, bytes)?;
        }
    }
    Ok(())
}

// Lays the first bytes of all the writes over the content, in order.
pub(crate) fn lay_front(
    content: &mut Vec<u8>,
    calls: &[Noted],
    mut left: u64,
) -> Result<(), AllocError>
    ensures ok { OnOk result (content.new.items
        ≡ fronted left (writes_of (map call_of calls.now)) content.old.items) }
{
    for call in calls {
        if let Noted::Write { at, bytes } = call {
            left = lay_some(content, *at, bytes, left)?;
        }
    }
    Ok(())
}

// Lays as many of these bytes as are left to take, and says how many are left then. A write of
// which no byte is taken has not begun, so it fills up nothing.
#[tactic(auto, using(crate::proofs::CrashLemmas::some_bytes))]
fn lay_some(content: &mut Vec<u8>, at: usize, bytes: &[u8], left: u64) -> Result<u64, AllocError>
    ensures left { IfOk result (λ rest. rest ≡ left - length bytes.now) }
    ensures ok { OnOk result (content.new.items
        ≡ after_bytes at (take left bytes.now) content.old.items) }
{
    let taken = left.min(bytes.len() as u64) as usize;
    if taken > 0 {
        lay(content, at, &bytes[..taken])?;
    }
    Ok(left - taken as u64)
}

// Fills the range of each write with a byte.
pub(crate) fn fill_all(content: &mut [u8], calls: &[Noted], byte: u8)
    requires { EndWithin (length content.old) (writes_of (map call_of calls.now)) }
    ensures { content.new ≡ filled_all byte (writes_of (map call_of calls.now)) content.old }
{
    for call in calls {
        if let Noted::Write { at, bytes } = call {
            fill_range(content, *at, bytes.len(), byte);
        }
    }
}

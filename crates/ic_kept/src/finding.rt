//! Finding the state that two files hold.

ghost use Rattle.std.specs.Prelude.{◌≡◌, ◌≢◌, ◌⊎◌, ◌+◌, ◌<◌, ◌≤◌, ℕ, List, length, IsTrue, IfOk, IfErr, OnOk};
ghost use Rattle.ic_disk.specs.Content.{bytes_at};
ghost use Rattle.ic_disk.specs.Images.{Only};
ghost use Rattle.ic_disk.specs.Time.{CountsFailure, OneMore};
ghost use Rattle.ic_frames.specs.Faults.{CountsOpen};
ghost use Rattle.ic_kept.specs.Held.{Answers};
ghost use Rattle.ic_kept.specs.Opening.{OnlyReads};
ghost use Rattle.ic_kept.specs.Sheet.{IsMade};
ghost use Rattle.ic_kept.specs.inner.Finding.{Chooses, IsFound, IsHeadOf, Spoils};
ghost use Rattle.ic_kept.specs.declared.head.TheConstants.{HEAD};

use crate::HEAD;
use crate::head::Head;
use ic_disk::{Disk, DiskFault};
use ic_frames::OpenCause;
use std::alloc::Global;

// Bytes of a disk from this place on.
fn read_bytes<D: Disk, const N: usize>(disk: &mut D, at: u64) -> Result<[u8; N], DiskFault>
    requires { IsTrue (D.keeps disk.old) → at + N ≤ length (D.content disk.old) }
    ensures keeps { D.keeps disk.new ≡ D.keeps disk.old }
    ensures counted { CountsFailure result (D.failures disk.old) (D.failures disk.new) }
    ensures bytes { IsTrue (D.keeps disk.old)
        → IfOk result (λ bytes. bytes ≡ bytes_at at N (D.content disk.old)) }
    ensures reads { IsTrue (D.keeps disk.old)
        → OnlyReads D.keeps D.content D.image D.clock D.left disk.old disk.new }
{
    let mut bytes = [0; N];
    disk.read(at, &mut bytes)?;
    Ok(bytes)
}

// Syncs a disk, and asks for its length.
fn measure<D: Disk>(disk: &mut D) -> Result<u64, DiskFault>
    ensures keeps { D.keeps disk.new ≡ D.keeps disk.old }
    ensures counted { CountsFailure result (D.failures disk.old) (D.failures disk.new) }
    ensures length { IsTrue (D.keeps disk.old)
        → IfOk result (λ len. len ≡ length (D.content disk.old)) }
    ensures settled { IsTrue (D.keeps disk.old)
        → OnOk result (Only (D.content disk.old) (D.image disk.new)) }
    ensures reads { IsTrue (D.keeps disk.old)
        → OnlyReads D.keeps D.content D.image D.clock D.left disk.old disk.new }
{
    disk.sync()?;
    let len = disk.len()?;
    Ok(len)
}

// The head of a file that has one, if its gate is open.
fn read_head<D: Disk>(disk: &mut D) -> Result<Option<Head>, DiskFault>
    requires { IsTrue (D.keeps disk.old) → IsMade (D.content disk.old) }
    ensures keeps { D.keeps disk.new ≡ D.keeps disk.old }
    ensures counted { CountsFailure result (D.failures disk.old) (D.failures disk.new) }
    ensures head { IsTrue (D.keeps disk.old)
        → IfOk result (λ head. IsHeadOf head (D.content disk.old)) }
    ensures reads { IsTrue (D.keeps disk.old)
        → OnlyReads D.keeps D.content D.image D.clock D.left disk.old disk.new }
{
    let gate = read_bytes::<D, 1>(disk, 0)?;
    if gate[0] != 1 {
        return Ok(None);
    }
    let number = u64::from_be_bytes(read_bytes(disk, 1)?);
    let size = u64::from_be_bytes(read_bytes(disk, 9)?);
    Ok(Some(Head { number, size }))
}

// The head of a file, after a sync, if its gate is open.
fn look<D: Disk>(disk: &mut D) -> Result<Option<Head>, OpenCause>
    ensures keeps { D.keeps disk.new ≡ D.keeps disk.old }
    ensures counted { CountsOpen result (D.failures disk.old) (D.failures disk.new) }
    ensures made { IsTrue (D.keeps disk.old) → OnOk result (IsMade (D.content disk.old)) }
    ensures head { IsTrue (D.keeps disk.old)
        → IfOk result (λ head. IsHeadOf head (D.content disk.old)) }
    ensures settled { IsTrue (D.keeps disk.old)
        → OnOk result (Only (D.content disk.old) (D.image disk.new)) }
    ensures refused { IsTrue (D.keeps disk.old)
        → IfErr result (λ cause. Spoils cause (length (D.content disk.old) < HEAD)) }
    ensures reads { IsTrue (D.keeps disk.old)
        → OnlyReads D.keeps D.content D.image D.clock D.left disk.old disk.new }
{
    let len = measure(disk)?;
    if len < HEAD {
        return Err(OpenCause::Damaged);
    }
    let head = read_head(disk)?;
    Ok(head)
}

// Which of two files has the newest state, and what its head says.
#[derive(Clone, Copy)]
pub(crate) struct Chosen {
    pub(crate) in_second: bool,
    pub(crate) head: Head,
    // Whether the gate of the other is closed.
    pub(crate) closed: bool,
}

// The newest state of two files.
#[derive(Drop)]
pub(crate) struct Found {
    pub(crate) in_second: bool,
    pub(crate) number: u64,
    pub(crate) closed: bool,
    pub(crate) state: Vec<u8>,
}

// The file to take, by the heads of both.
fn choose(first: Option<Head>, second: Option<Head>) -> Result<Chosen, OpenCause>
    ensures of_heads { IfErr result (λ cause. cause ≢ OpenCause.Device) }
    ensures chosen { (one other : List ℕ) → IsMade one → IsMade other
        → IsHeadOf first one → IsHeadOf second other → Chooses result one other }
{
    match (first, second) {
        (None, None) => Err(OpenCause::NoSlot),
        (Some(head), None) => Ok(Chosen {
            in_second: false,
            head,
            closed: true,
        }),
        (None, Some(head)) => Ok(Chosen {
            in_second: true,
            head,
            closed: true,
        }),
        (Some(first), Some(second)) if first.number == second.number => Err(OpenCause::TwoAlike),
        (Some(first), Some(second)) if first.number > second.number => Ok(Chosen {
            in_second: false,
            head: first,
            closed: false,
        }),
        (Some(_), Some(head)) => Ok(Chosen {
            in_second: true,
            head,
            closed: false,
        }),
    }
}

// The state of a file of this length, if it lies within the file.
fn read_state<D: Disk>(alloc: Global, disk: &mut D, size: u64) -> Result<Vec<u8>, OpenCause>
    ensures keeps { D.keeps disk.new ≡ D.keeps disk.old }
    ensures counted { CountsOpen result (D.failures disk.old) (D.failures disk.new) }
    ensures long { IfOk result (λ state. length state.items ≡ size) }
    ensures within { IsTrue (D.keeps disk.old)
        → OnOk result (HEAD + size ≤ length (D.content disk.old)) }
    ensures state { IsTrue (D.keeps disk.old)
        → IfOk result (λ state. state.items ≡ bytes_at HEAD size (D.content disk.old)) }
    ensures refused { IsTrue (D.keeps disk.old)
        → IfErr result (λ cause. Spoils cause (length (D.content disk.old) < HEAD + size)) }
    ensures reads { IsTrue (D.keeps disk.old)
        → OnlyReads D.keeps D.content D.image D.clock D.left disk.old disk.new }
{
    let len = disk.len()?;
    if len < HEAD || len - HEAD < size {
        return Err(OpenCause::Damaged);
    }
    let mut state = Vec::new(alloc);
    state.resize(size as usize, 0)?;
    disk.read(HEAD, &mut state)?;
    Ok(state)
}

// The state that two files hold. It begins with a sync of each, and changes nothing.
pub(crate) fn find<D: Disk>(
    alloc: Global,
    first: &mut D,
    second: &mut D,
) -> Result<Found, OpenCause>
    ensures keeps_first { D.keeps first.new ≡ D.keeps first.old }
    ensures keeps_second { D.keeps second.new ≡ D.keeps second.old }
    ensures device { IfErr result (λ cause. cause ≡ OpenCause.Device
        → OneMore (D.failures first.old) (D.failures first.new)
        ⊎ OneMore (D.failures second.old) (D.failures second.new)) }
    ensures found { IsTrue (D.keeps first.old) → IsTrue (D.keeps second.old)
        → IfOk result (λ found. IsFound found (D.content first.old) (D.content second.old)) }
    ensures refused { IsTrue (D.keeps first.old) → IsTrue (D.keeps second.old)
        → IfErr result (λ cause. Answers cause (D.content first.old) (D.content second.old)) }
    ensures settled_first { IsTrue (D.keeps first.old)
        → OnOk result (Only (D.content first.old) (D.image first.new)) }
    ensures settled_second { IsTrue (D.keeps second.old)
        → OnOk result (Only (D.content second.old) (D.image second.new)) }
    ensures reads_first { IsTrue (D.keeps first.old)
        → OnlyReads D.keeps D.content D.image D.clock D.left first.old first.new }
    ensures reads_second { IsTrue (D.keeps second.old)
        → OnlyReads D.keeps D.content D.image D.clock D.left second.old second.new }
{
    let one = look(first)?;
    let other = look(second)?;
    let chosen = choose(one, other)?;
    if chosen.in_second {
        let state = read_state(alloc, second, chosen.head.size)?;
        return Ok(found_as(chosen, state));
    }
    let state = read_state(alloc, first, chosen.head.size)?;
    Ok(found_as(chosen, state))
}

// What was found, by the file that was chosen.
fn found_as(chosen: Chosen, state: Vec<u8>) -> Found
    ensures file { result.in_second ≡ chosen.in_second }
    ensures number { result.number ≡ chosen.head.number }
    ensures closed { result.closed ≡ chosen.closed }
    ensures state { result.state.items ≡ state.items }
{
    Found {
        in_second: chosen.in_second,
        number: chosen.head.number,
        closed: chosen.closed,
        state,
    }
}

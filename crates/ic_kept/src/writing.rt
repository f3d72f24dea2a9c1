//! Writing a state into one file, each part on the disk for good before the next.

ghost use Rattle.std.specs.Prelude.{◌≡◌, ◌⊎◌, ◌+◌, ◌≤◌, ℕ, true, List, IsTrue, OnOk};
ghost use Rattle.ic_disk.specs.Images.{Within};
ghost use Rattle.ic_disk.specs.Time.{CountsFailure, LeavesOnly};
ghost use Rattle.ic_kept.specs.Sheet.{IsAfterGate, IsBelow, IsBeside, IsNewest, IsOlder, IsShut};

use crate::HEAD;
use ic_disk::laws::write_synced;
use ic_disk::{Disk, DiskFault};

// Closes the gate.
fn close_gate<D: Disk>(disk: &mut D) -> Result<(), DiskFault>
    ensures keeps { D.keeps disk.new ≡ D.keeps disk.old }
    ensures counted { CountsFailure result (D.failures disk.old) (D.failures disk.new) }
    ensures calls { D.clock disk.new ≤ D.clock disk.old + 2 }
    ensures any_moment { (n : ℕ) → IsTrue (D.keeps disk.old) → Within (D.image disk.old) (IsBelow n)
        → LeavesOnly D.clock D.left disk.old disk.new (IsBelow n) }
    ensures shut { (n : ℕ) → IsTrue (D.keeps disk.old) → Within (D.image disk.old) (IsBelow n)
        → OnOk result (Within (D.image disk.new) IsShut) }
{
    write_synced(disk, 0, &[0])?;
    Ok(())
}

// Writes a state, its length and its number after a closed gate.
pub(crate) fn write_state<D: Disk>(disk: &mut D, number: u64, state: &[u8]) -> Result<(), DiskFault>
    ensures keeps { D.keeps disk.new ≡ D.keeps disk.old }
    ensures counted { CountsFailure result (D.failures disk.old) (D.failures disk.new) }
    ensures calls { D.clock disk.new ≤ D.clock disk.old + 6 }
    ensures any_moment { IsTrue (D.keeps disk.old) → Within (D.image disk.old) IsShut
        → LeavesOnly D.clock D.left disk.old disk.new IsShut }
    ensures shut { IsTrue (D.keeps disk.old) → Within (D.image disk.old) IsShut
        → OnOk result (Within (D.image disk.new) IsShut) }
    ensures after { IsTrue (D.keeps disk.old) → Within (D.image disk.old) IsShut
        → OnOk result (Within (D.image disk.new) (IsAfterGate number state.now)) }
{
    write_synced(disk, HEAD, state)?;
    write_synced(disk, 9, &(state.len() as u64).to_be_bytes())?;
    write_synced(disk, 1, &number.to_be_bytes())?;
    Ok(())
}

// Opens the gate.
pub(crate) fn open_gate<D: Disk>(disk: &mut D) -> Result<(), DiskFault>
    ensures keeps { D.keeps disk.new ≡ D.keeps disk.old }
    ensures counted { CountsFailure result (D.failures disk.old) (D.failures disk.new) }
    ensures calls { D.clock disk.new ≤ D.clock disk.old + 2 }
    ensures any_moment { (n : ℕ) (state : List ℕ) → IsTrue (D.keeps disk.old)
        → Within (D.image disk.old) (IsAfterGate n state)
        → LeavesOnly D.clock D.left disk.old disk.new (λ file. IsShut file ⊎ IsNewest n state file) }
    ensures opened { (n : ℕ) (state : List ℕ) → IsTrue (D.keeps disk.old)
        → Within (D.image disk.old) (IsAfterGate n state)
        → OnOk result (Within (D.image disk.new) (IsNewest n state)) }
{
    write_synced(disk, 0, &[1])?;
    Ok(())
}

// Puts a state with this number into a file whose gate is closed.
fn write_shut<D: Disk>(disk: &mut D, number: u64, state: &[u8]) -> Result<(), DiskFault>
    ensures keeps { D.keeps disk.new ≡ D.keeps disk.old }
    ensures counted { CountsFailure result (D.failures disk.old) (D.failures disk.new) }
    ensures calls { D.clock disk.new ≤ D.clock disk.old + 8 }
    ensures any_moment { IsTrue (D.keeps disk.old) → Within (D.image disk.old) IsShut
        → LeavesOnly D.clock D.left disk.old disk.new
        (λ file. IsShut file ⊎ IsNewest number state.now file) }
    ensures written { IsTrue (D.keeps disk.old) → Within (D.image disk.old) IsShut
        → OnOk result (Within (D.image disk.new) (IsNewest number state.now)) }
{
    write_state(disk, number, state)?;
    open_gate(disk)?;
    Ok(())
}

// Puts a state with this number into a file, whose gate is closed first where it isn't.
pub(crate) fn write_beside<D: Disk>(
    disk: &mut D,
    closed: bool,
    number: u64,
    state: &[u8],
) -> Result<(), DiskFault>
    ensures keeps { D.keeps disk.new ≡ D.keeps disk.old }
    ensures counted { CountsFailure result (D.failures disk.old) (D.failures disk.new) }
    ensures calls { D.clock disk.new ≤ D.clock disk.old + 10 }
    ensures few_calls { closed ≡ true → D.clock disk.new ≤ D.clock disk.old + 8 }
    ensures any_moment { (n : ℕ) → IsTrue (D.keeps disk.old)
        → Within (D.image disk.old) (IsBeside closed n)
        → LeavesOnly D.clock D.left disk.old disk.new
        (λ file. IsOlder n file ⊎ IsNewest number state.now file) }
    ensures written { (n : ℕ) → IsTrue (D.keeps disk.old)
        → Within (D.image disk.old) (IsBeside closed n)
        → OnOk result (Within (D.image disk.new) (IsNewest number state.now)) }
{
    if closed {
        return write_shut(disk, number, state);
    }
    close_gate(disk)?;
    write_shut(disk, number, state)
}

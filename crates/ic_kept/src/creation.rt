//! The first state of two files.

ghost use Rattle.std.specs.Prelude.{◌≡◌, ◌↔◌, ◌⊎◌, [], IsTrue, IsErrOf, IfOk, OnOk, OnErr};
ghost use Rattle.ic_disk.specs.Images.{Within};
ghost use Rattle.ic_disk.specs.Time.{CountsFailure, OneMore};
ghost use Rattle.ic_kept.specs.Opening.{OnlyReads};
ghost use Rattle.ic_kept.specs.Sheet.{IsNewest, IsShut};

use crate::HEAD;
use crate::fault::CreateFault;
use crate::writing::{open_gate, write_state};
use ic_disk::laws::write_synced;
use ic_disk::{Disk, DiskFault};

/// Writes a state as the first of two disks, if both are empty: nothing is written over.
///
/// After `Device` either may hold a part of it, and where only the last sync has failed, the whole.
pub fn create<D: Disk>(first: &mut D, second: &mut D, state: &[u8]) -> Result<(), CreateFault>
    ensures keeps_first { D.keeps first.new ≡ D.keeps first.old }
    ensures keeps_second { D.keeps second.new ≡ D.keeps second.old }

    // A disk that holds something is refused, and then neither is written. Nor is either at any other answer.
    ensures empty { IsTrue (D.keeps first.old) → IsTrue (D.keeps second.old)
        → OnOk result ((D.content first.old ≡ []) × (D.content second.old ≡ [])) }
    ensures refused { IsTrue (D.keeps first.old) → IsTrue (D.keeps second.old)
        → IsErrOf result CreateFault.NotEmpty
        → ¬ ((D.content first.old ≡ []) × (D.content second.old ≡ [])) }
    ensures spares_first { IsTrue (D.keeps first.old) → IsErrOf result CreateFault.NotEmpty
        → OnlyReads D.keeps D.content D.image D.clock D.left first.old first.new }
    ensures spares_second { IsTrue (D.keeps second.old) → IsErrOf result CreateFault.NotEmpty
        → OnlyReads D.keeps D.content D.image D.clock D.left second.old second.new }
    ensures leaves_first { IsTrue (D.keeps first.old) → IsTrue (D.keeps second.old)
        → ¬ ((D.content first.old ≡ []) × (D.content second.old ≡ []))
        → OnlyReads D.keeps D.content D.image D.clock D.left first.old first.new }
    ensures leaves_second { IsTrue (D.keeps first.old) → IsTrue (D.keeps second.old)
        → ¬ ((D.content first.old ≡ []) × (D.content second.old ≡ []))
        → OnlyReads D.keeps D.content D.image D.clock D.left second.old second.new }

    // `Device` is answered only where a call has failed.
    ensures device { IsErrOf result CreateFault.Device
        → OneMore (D.failures first.old) (D.failures first.new)
        ⊎ OneMore (D.failures second.old) (D.failures second.new) }

    // At Ok a crash leaves it in the first file, with the number 1, and the second is shut.
    ensures newest { IsTrue (D.keeps first.old)
        → OnOk result (Within (D.image first.new) (IsNewest 1 state.now)) }
    ensures shut { IsTrue (D.keeps second.old) → OnOk result (Within (D.image second.new) IsShut) }
{
    let one = is_empty(first)?;
    let other = is_empty(second)?;
    if !one || !other {
        return Err(CreateFault::NotEmpty);
    }
    write_first(first, second, state)?;
    Ok(())
}

// Whether a disk has no bytes.
fn is_empty<D: Disk>(disk: &mut D) -> Result<bool, DiskFault>
    ensures keeps { D.keeps disk.new ≡ D.keeps disk.old }
    ensures counted { CountsFailure result (D.failures disk.old) (D.failures disk.new) }
    ensures empty { IsTrue (D.keeps disk.old)
        → IfOk result (λ empty. IsTrue empty ↔ (D.content disk.old ≡ [])) }
    ensures reads { IsTrue (D.keeps disk.old)
        → OnlyReads D.keeps D.content D.image D.clock D.left disk.old disk.new }
{
    let len = disk.len()?;
    Ok(len == 0)
}

// Writes a state as the first of two disks, whatever they had.
fn write_first<D: Disk>(first: &mut D, second: &mut D, state: &[u8]) -> Result<(), DiskFault>
    ensures keeps_first { D.keeps first.new ≡ D.keeps first.old }
    ensures keeps_second { D.keeps second.new ≡ D.keeps second.old }
    ensures device { OnErr result (OneMore (D.failures first.old) (D.failures first.new)
        ⊎ OneMore (D.failures second.old) (D.failures second.new)) }
    ensures newest { IsTrue (D.keeps first.old)
        → OnOk result (Within (D.image first.new) (IsNewest 1 state.now)) }
    ensures shut { IsTrue (D.keeps second.old) → OnOk result (Within (D.image second.new) IsShut) }
{
    write_synced(second, 0, &[0; HEAD as usize])?;
    write_synced(first, 0, &[0; HEAD as usize])?;
    write_state(first, 1, state)?;
    open_gate(first)?;
    Ok(())
}

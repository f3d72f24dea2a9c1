//! What a crash leaves of a disk that is made, or looked at.

ghost use Rattle.std.specs.Prelude.{◌≡◌, ◌⊎◌, ◌+◌, ◌≤◌, ℕ, List, [], ◌∷◌, Bool, Result, IsErrOf, IsTrue, length};
ghost use Rattle.ic_disk.specs.Content.{laid};
ghost use Rattle.ic_disk.specs.Images.{Only, Torn, TornFrom};
ghost use Rattle.ic_disk.specs.Model.{Write};
ghost use Rattle.ic_frames.specs.Creation.{KeepPace};
ghost use Rattle.ic_frames.specs.Opening.{LeavesAsFound};
ghost use Rattle.ic_slots.specs.Unused.{looking_of};

use ic_disk::Disk;
use ic_slots::CreateFault;

/// Of two writes that keep pace the first is there to stay after two calls, and the second after four. Meanwhile a crash leaves
/// a file that one of them has torn.
pub fn two_writes_keep_pace<D: Disk>(old: &D, new: &D)
    ensures at_first { (v w : Write) (k : ℕ) (file : List ℕ)
        → KeepPace (D.left new.now) (D.clock old.now) (v ∷ w ∷ []) (D.content old.now)
        (D.image old.now) → D.clock old.now ≤ k → D.left new.now k file
        → TornFrom v.at (length v.bytes) (D.image old.now) file
        ⊎ Torn w.at (length w.bytes) (laid v.at v.bytes (D.content old.now)) file }
    ensures after_two { (v w : Write) (k : ℕ) (file : List ℕ)
        → KeepPace (D.left new.now) (D.clock old.now) (v ∷ w ∷ []) (D.content old.now)
        (D.image old.now) → D.clock old.now + 2 ≤ k → D.left new.now k file
        → Torn w.at (length w.bytes) (laid v.at v.bytes (D.content old.now)) file }
    ensures after_four { (v w : Write) (k : ℕ) (file : List ℕ)
        → KeepPace (D.left new.now) (D.clock old.now) (v ∷ w ∷ []) (D.content old.now)
        (D.image old.now) → D.clock old.now + 4 ≤ k → D.left new.now k file
        → file ≡ laid w.at w.bytes (laid v.at v.bytes (D.content old.now)) }
{
    let _ = old;
    let _ = new;
}

/// After a look whether a disk is unused a crash leaves what reads give, unless the device failed.
pub fn a_look_leaves_what_reads_give<D: Disk>(old: &D, new: &D)
    ensures { (result : Result Bool CreateFault)
        → LeavesAsFound D.keeps D.content D.image D.clock D.left (looking_of result) old.now new.now
        → IsTrue (D.keeps old.now) → ¬ IsErrOf result CreateFault.Device
        → Only (D.content old.now) (D.image new.now) }
{
    let _ = old;
    let _ = new;
}

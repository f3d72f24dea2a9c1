//! Looking at what a file holds, and telling it.

ghost use Rattle.std.specs.Prelude.{◌≡◌, ◌≢◌, ◌⊎◌, List, ℕ, [], true, IfOk, IfErr, OnOk};
ghost use Rattle.std.specs.Io.KnownBytes.{Appends, Keeps};
ghost use Rattle.ic_output.specs.Output.{AppendsFront};
ghost use Rattle.ic_inspect.specs.Seeing.{IsLookedAt};
ghost use Rattle.ic_frames.specs.declared.frame.TheConstants.{HEAD};
ghost use Rattle.ic_inspect.specs.Slots.{HasHead, HaveChanged, TakesAtMost, file_of, is_one_file};

use crate::fault::InspectFault;
use crate::looking::see;
use crate::objects::objects;
use crate::reading::{Slots, read_again};
use crate::seen::Looked;
use crate::telling::report;
use ic_output::write_flushed;
use std::alloc::{AllocError, Global};
use std::io::{Read, Write};

/// How it is told what a file holds.
#[derive(Clone, Copy)]
pub enum Layout {
    /// In lines of words.
    Words,
    /// As objects of JSON, one a line.
    Objects,
}

/// What is seen of the slots of a file that were read, if a second reading gives the same heads of them.
///
/// Each reader has the file's bytes from the place of its slot on. The first reading has ended before the second one
/// begins. Where that gives another head, or the file ended within the first slot and had the second one later, the file
/// was written meanwhile.
pub fn look<R: Read, S: Read>(
    alloc: Global,
    slots: &Slots,
    first: &mut R,
    second: &mut S,
) -> Result<Looked, InspectFault>
    ensures looked { IfOk result (λ looked.
        IsLookedAt looked (file_of slots.now.first.items slots.now.second.items)) }
    ensures first { OnOk result (HasHead slots.now.first.items (R.remaining first.old)) }
    ensures second { OnOk result (HasHead slots.now.second.items (S.remaining second.old)) }
    ensures one_file { OnOk result
        (is_one_file slots.now.first.items slots.now.second.items ≡ true) }
    ensures changed { IfErr result (λ fault. fault ≡ InspectFault.Changed
        → HaveChanged slots.now.first.items slots.now.second.items
        (R.remaining first.old) (S.remaining second.old)) }
    // Of each slot no more is read again than its head.
    ensures first_few { TakesAtMost HEAD (R.remaining first.old) (R.remaining first.new) }
    ensures second_few { TakesAtMost HEAD (S.remaining second.old) (S.remaining second.new) }
    ensures sort { IfErr result (λ fault. fault ≢ InspectFault.Write) }
{
    read_again(alloc, slots, first, second)?;
    Ok(look_at(alloc, slots)?)
}

/// What is seen of these slots of one file.
fn look_at(alloc: Global, slots: &Slots) -> Result<Looked, AllocError>
    requires { is_one_file slots.now.first.items slots.now.second.items ≡ true }
    ensures { IfOk result (λ looked.
        IsLookedAt looked (file_of slots.now.first.items slots.now.second.items)) }
{
    ic_frames::laws::a_slot_is_open_or_whole();
    let first = see(alloc, &slots.first)?;
    let second = see(alloc, &slots.second)?;
    Ok(Looked { first, second })
}

/// Writes what is seen of a file: each slot, which of them is held, and the jobs of its table. Nothing is written before all
/// of it is there. Where the writer fails a front of it is written. What is told, trials look at.
pub fn tell<W: Write>(
    alloc: Global,
    layout: Layout,
    looked: &Looked,
    writer: &mut W,
) -> Result<(), InspectFault>
    ensures written { OnOk result ((lines : List ℕ)
        × Appends (W.contents writer.old) (W.contents writer.new) lines) }
    ensures silent { IfErr result (λ fault. fault ≢ InspectFault.Write
        → Keeps (W.contents writer.old) (W.contents writer.new)) }
    ensures cut { IfErr result (λ fault. fault ≡ InspectFault.Write → (lines : List ℕ)
        × AppendsFront (W.contents writer.old) (W.contents writer.new) [] lines) }
    ensures sort { IfErr result
        (λ fault. (fault ≡ InspectFault.Memory) ⊎ (fault ≡ InspectFault.Write)) }
{
    let lines = match layout {
        Layout::Words => report(alloc, looked)?,
        Layout::Objects => objects(alloc, looked)?,
    };
    match write_flushed(writer, &lines) {
        Ok(()) => Ok(()),
        Err(_) => Err(InspectFault::Write),
    }
}

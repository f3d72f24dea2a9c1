//! Reading scripts, one after the other.

ghost use Rattle.std.specs.Prelude.{◌≡◌, OnOk, OnErr, IfErr, length, map, vec_items};
ghost use Rattle.ic_scripts.specs.Reading.{AddsScript, IsRefusal};

use crate::fault::ScriptsFault;
use ic_jobs::Command;
use ic_lines::read_script;
use ic_text::TextFault;
use std::alloc::Global;

/// Reads a text as the script after these, and adds its commands. At a fault the scripts are as
/// before.
pub fn add_script(
    alloc: Global,
    text: &[u8],
    scripts: &mut Vec<Vec<Command>>,
) -> Result<(), ScriptsFault>
    ensures added { OnOk result (AddsScript text.now
        (map vec_items scripts.old.items) (map vec_items scripts.new.items)) }
    ensures kept { OnErr result (scripts.new.items ≡ scripts.old.items) }
    ensures refused { IfErr result (IsRefusal text.now (length scripts.old.items)) }
{
    match read_script(alloc, text) {
        Ok(commands) => {
            scripts.push(commands)?;
            Ok(())
        }
        Err(refusal) if refusal.fault == TextFault::Memory => Err(ScriptsFault::Memory),
        Err(refusal) => Err(ScriptsFault::Script(scripts.len(), refusal)),
    }
}

//! Dumping the table that a disk holds.

ghost use Rattle.std.specs.Prelude.{◌≡◌, ◌≢◌, IfErr, OnOk};
ghost use Rattle.std.specs.Io.KnownBytes.{Keeps};
ghost use Rattle.ic_frames.specs.Faults.{CountsOpen};
ghost use Rattle.ic_frames.specs.Opening.{LeavesAsFound};
ghost use Rattle.ic_dump.specs.Dumping.{SaysOf, WritesFound, WritesFoundPart, opening_of};

use crate::dumping::dump_jobs;
use crate::fault::{DiskDumpFault, DumpFault};
use ic_disk::Disk;
use ic_frames::OpenFault;
use ic_rules::JobName;
use ic_slots::Keeper;
use std::alloc::Global;
use std::io::Write;

/// Writes the line of each job of these names, or of each job where no name is given, of the table that a disk holds.
///
/// The disk is opened as by `Keeper::open`, and handed back with nothing changed except for a sync. Nothing is
/// written before all lines are made, and a front of them where the writer fails.
pub fn dump_disk<D: Disk, W: Write>(
    alloc: Global,
    disk: D,
    names: &[JobName],
    writer: &mut W,
) -> (D, Result<(), DiskDumpFault>)
    // There is a table of which this holds: the one that the disk holds, where it keeps the model.
    ensures written { OnOk result.1 (WritesFound names.now (D.keeps disk) (D.content disk)
        (W.contents writer.old) (W.contents writer.new)) }
    ensures refused { IfErr result.1 (SaysOf names.now (D.keeps disk) (D.content disk)) }
    ensures silent { IfErr result.1 (λ fault. fault ≢ DiskDumpFault.Dump DumpFault.Write
        → Keeps (W.contents writer.old) (W.contents writer.new)) }
    ensures cut { IfErr result.1 (λ fault. fault ≡ DiskDumpFault.Dump DumpFault.Write
        → WritesFoundPart names.now (D.keeps disk) (D.content disk)
        (W.contents writer.old) (W.contents writer.new)) }

    // The disk stays as it is.
    ensures crash { LeavesAsFound D.keeps D.content D.image D.clock D.left
        (opening_of result.1) disk result.0 }
    ensures counted { CountsOpen (opening_of result.1) (D.failures disk) (D.failures result.0) }
{
    match Keeper::open(alloc, disk) {
        Ok((keeper, table)) => {
            let disk = keeper.close();
            let _jobs = table.jobs();
            match dump_jobs(alloc, &table, names, writer) {
                Ok(()) => (disk, Ok(())),
                Err(fault) => (disk, Err(DiskDumpFault::Dump(fault))),
            }
        }
        Err(OpenFault { disk, cause }) => (disk, Err(DiskDumpFault::Open(cause))),
    }
}

//! The program's word `inspect`: what a disk's file holds, or two files in which a reduction is kept, on standard output.

use crate::others::{is_second, other_at};
use crate::standing::stand_ins;
use crate::{HostFile, kept};
use ic_args::ReportFormat;
use ic_causes::{NotedFiles, NotedOutput, Notes, Target};
use ic_disk::{DiskFault, open_plain};
use ic_exits::{Failure, Other, second_missing};
use ic_frames::{HEAD, SECOND_AT};
use ic_inspect::{InspectFault, Layout, read_slots};
use std::fs::OpenOptions;
use std::io::{self, Write};

/// How often a file is looked at, at most, that is written meanwhile.
const LOOKS: u32 = 200;

/// Prints what the file of this path holds, which stays as it is, in this format. No lock is taken, so a server may
/// have it open. Standard error is told where it is known to be no disk.
pub(crate) fn inspect(
    rt: &HostRuntime,
    path: &str,
    format: ReportFormat,
    notes: &Notes,
) -> Result<(), Failure> {
    let layout = match format {
        ReportFormat::Text => Layout::Words,
        ReportFormat::Json => Layout::Objects,
    };
    if let Some(fronts) = kept::read_fronts(rt, path, notes)? {
        return inspect_kept(rt, path, fronts, format, notes);
    }
    for _ in 0..LOOKS {
        if look(rt, path, layout, notes)? {
            return Ok(());
        }
    }
    Err(Failure::Inspect(InspectFault::Changed))
}

/// Prints what two files hold in which a reduction is kept, if two readings in turn give the same. Standard error is told
/// where the second file isn't there, as of one who names the second.
fn inspect_kept(
    rt: &HostRuntime,
    path: &str,
    fronts: kept::Fronts,
    format: ReportFormat,
    notes: &Notes,
) -> Result<(), Failure> {
    let mut seen = fronts;
    for _ in 0..LOOKS {
        let Some(again) = kept::read_fronts(rt, path, notes)? else {
            continue;
        };
        if kept::are_same(&seen, &again) {
            kept::tell(rt, &again, format, notes)?;
            if again.is_alone() {
                tell_alone(rt, path);
            }
            return Ok(());
        }
        seen = again;
    }
    Err(Failure::Inspect(InspectFault::Changed))
}

/// Reads the slots of the file and then their heads again, and prints what it holds, if both times are alike.
fn look(rt: &HostRuntime, path: &str, layout: Layout, notes: &Notes) -> Result<bool, Failure> {
    let Ok(file) = open_to_read(rt, path, notes) else {
        return Err(Failure::Disk(DiskFault));
    };
    let (mut first, mut second) = (file.at(0), file.at(SECOND_AT));
    let slots = read_slots(rt.alloc(), &mut first, &mut second).map_err(Failure::Inspect)?;
    let (mut first, mut second) = (file.at(0), file.at(SECOND_AT));
    let looked = match ic_inspect::look(rt.alloc(), &slots, &mut first, &mut second) {
        Ok(looked) => looked,
        Err(InspectFault::Changed) => return Ok(false),
        Err(fault) => return Err(Failure::Inspect(fault)),
    };
    let mut output = NotedOutput::new(io::writer(rt), notes);
    ic_inspect::tell(rt.alloc(), layout, &looked, &mut output).map_err(Failure::Inspect)?;
    // Where the first slot has a body, the file isn't another one.
    if slots.first.len() <= HEAD {
        tell_other(rt, path);
    }
    Ok(true)
}

/// Tells on standard error that no reduction goes on with the file of this path alone.
fn tell_alone(rt: &HostRuntime, path: &str) {
    let told = if is_second(rt, path) {
        Other::Second.line(rt.alloc(), path.as_bytes())
    } else {
        second_missing(rt.alloc(), path.as_bytes())
    };
    if let Ok(line) = told {
        let _ = rt.stderr().write_all(&line);
    }
}

/// Tells on standard error what the file of this path is, where that is known and it is no disk.
fn tell_other(rt: &HostRuntime, path: &str) {
    if let Some(other) = other_at(rt, path) {
        if let Ok(line) = other.line(rt.alloc(), path.as_bytes()) {
            let _ = rt.stderr().write_all(&line);
        }
    }
}

/// Opens the file of this path, which has to be a plain one, since others may keep who reads waiting.
/// A folder can be opened, and isn't read.
pub(crate) fn open_to_read<'a>(
    rt: &HostRuntime,
    path: &str,
    notes: &'a Notes,
) -> io::Result<HostFile<'a>> {
    open_to_read_as(rt, path, Target::File, notes)
}

/// The same, where calls to the file that fail are noted as of this target.
pub(crate) fn open_to_read_as<'a>(
    rt: &HostRuntime,
    path: &str,
    target: Target,
    notes: &'a Notes,
) -> io::Result<HostFile<'a>> {
    let _stand_ins = stand_ins(rt, notes)?;
    let files = NotedFiles {
        rt,
        path,
        target,
        notes,
    };
    let mut how = OpenOptions::new();
    how.read(true);
    open_plain(&files, &how, path)
}

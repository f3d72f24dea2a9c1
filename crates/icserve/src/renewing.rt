//! Making a file of a reduction anew that is lost or damaged, where the other one is whole.

use crate::kept::{Lost, Place, lost_of, newest_at};
use crate::others::is_second;
use crate::{NotedDisk, open_disk_as};
use ic_causes::{Notes, Target, shown_path};
use ic_disk::DiskFault;
use ic_disk::laws::write_synced;
use ic_exits::Failure;
use ic_keeping::KeepingFault;
use ic_kept::HEAD;
use std::alloc::AllocError;
use std::io::Write;

/// The paths of the two files of a reduction.
#[derive(Clone, Copy)]
pub(crate) struct Paths<'a> {
    /// That of the first one.
    pub(crate) first: &'a str,
    /// That of the second one.
    pub(crate) second: &'a str,
}

impl Paths<'_> {
    /// The path of one of them.
    fn at(&self, place: Place) -> &str {
        match place {
            Place::First => self.first,
            Place::Second => self.second,
        }
    }
}

/// Makes a file anew that is lost or damaged, where the other one is whole, if nothing that was kept is lost by that, or if it is
/// asked for. That is told on standard error.
pub(crate) fn renew_lost(
    rt: &HostRuntime,
    paths: Paths<'_>,
    asked: bool,
    notes: &Notes,
) -> Result<(), Failure> {
    let Some(lost) = lost_of(rt, paths) else {
        return Ok(());
    };
    if !(lost.is_older || asked) || is_second(rt, paths.first) {
        return Ok(());
    }
    let _whole = open_one(rt, paths, lost.place.other(), false, notes)?;
    let mut disk = open_one(rt, paths, lost.place, true, notes)?;
    // Another process may have kept something there before it was locked.
    if !is_lost_still(rt, paths, lost) {
        return Ok(());
    }
    shut(&mut disk)?;
    let _ = tell_renewed(rt, paths, lost);
    Ok(())
}

/// Whether the same file is lost or damaged as before.
fn is_lost_still(rt: &HostRuntime, paths: Paths<'_>, lost: Lost) -> bool {
    match lost_of(rt, paths) {
        Some(now) => now.place == lost.place,
        None => false,
    }
}

/// Makes the newest of two files anew, in which no state is read.
pub(crate) fn renew_newest(
    rt: &HostRuntime,
    paths: Paths<'_>,
    notes: &Notes,
) -> Result<(), Failure> {
    let Some(place) = newest_at(rt, paths) else {
        return Ok(());
    };
    let _whole = open_one(rt, paths, place.other(), false, notes)?;
    let mut disk = open_one(rt, paths, place, false, notes)?;
    shut(&mut disk)?;
    let lost = Lost {
        place,
        is_older: false,
    };
    let _ = tell_renewed(rt, paths, lost);
    Ok(())
}

/// Opens the disk in one of the files.
fn open_one<'a>(
    rt: &HostRuntime,
    paths: Paths<'_>,
    place: Place,
    create: bool,
    notes: &'a Notes,
) -> Result<NotedDisk<'a>, Failure> {
    let target = match place {
        Place::First => Target::File,
        Place::Second => Target::Second,
    };
    open_disk_as(rt, paths.at(place), target, create, notes)
}

/// Writes an empty head: nothing is kept there.
fn shut(disk: &mut NotedDisk<'_>) -> Result<(), Failure> {
    let done: Result<(), DiskFault> = write_synced(disk, 0, &[0; HEAD as usize]);
    match done {
        Ok(()) => Ok(()),
        Err(_) => Err(Failure::Kept(KeepingFault::Device)),
    }
}

/// Tells which file was made anew, and whether anything is lost by that.
fn tell_renewed(rt: &HostRuntime, paths: Paths<'_>, lost: Lost) -> Result<(), AllocError> {
    let file = shown_path(rt.alloc(), paths.at(lost.place).as_bytes())?;
    let whole = shown_path(rt.alloc(), paths.at(lost.place.other()).as_bytes())?;
    let mut line = file;
    let holds = if lost.is_older {
        " holds the end of the reduction, so nothing is lost\n"
    } else {
        " holds the last keep or the one before, from which the reduction goes on\n"
    };
    line.extend_from_slice(b": made anew: ")?;
    line.extend_from_slice(&whole)?;
    line.extend_from_slice(holds.as_bytes())?;
    let _ = rt.stderr().write_all(&line);
    Ok(())
}

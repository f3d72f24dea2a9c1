//! What a stop within the first keep of a reduction leaves in its two files: no state that is kept.

use crate::others::{front_of_as, is_of_reduction};
use ic_causes::{NotedFiles, Notes, Target};
use ic_disk::open_plain;
use ic_exits::Failure;
use ic_keeping::KeepingFault;
use ic_kept::HEAD;
use std::fs::{OpenFile, OpenOptions};
use std::io::{self, ErrorKind};

/// Refuses a file of this path that holds something, unless this is what a stop within the first keep may have left there. This
/// process has it locked.
pub(crate) fn check_unbegun(
    rt: &HostRuntime,
    path: &str,
    target: Target,
    notes: &Notes,
) -> Result<(), Failure> {
    let front = match front_of_as(rt, path, target, notes) {
        Ok(front) => front,
        Err(error) => return Err(read_failure(error)),
    };
    let is_unbegun = match target {
        Target::Second => may_be_second(&front),
        _ => may_be_first(&front),
    };
    if is_unbegun {
        return Ok(());
    }
    Err(Failure::Kept(KeepingFault::NotEmpty))
}

fn read_failure(error: io::Error) -> Failure {
    if error.kind() == ErrorKind::OutOfMemory {
        return Failure::Kept(KeepingFault::Memory);
    }
    Failure::Kept(KeepingFault::Device)
}

/// Whether a first file that begins so may be one in which nothing is kept yet: its gate is closed, its number is none or the
/// first, and after its head stands that which a state begins with, if anything does.
fn may_be_first(front: &[u8]) -> bool {
    if are_zeros(front) && front.len() <= HEAD as usize {
        return true;
    }
    let (number, _) = front.split_at(front.len().min(9));
    match number.split_last() {
        Some((last, others)) => is_of_reduction(front)
            && number.len() == 9
            && *last <= 1
            && are_zeros(others),
        None => false,
    }
}

/// Whether a second file that begins so may be one in which nothing is kept yet: it has no more than an empty head.
fn may_be_second(front: &[u8]) -> bool {
    are_zeros(front) && front.len() <= HEAD as usize
}

fn are_zeros(bytes: &[u8]) -> bool {
    for byte in bytes {
        if *byte != 0 {
            return false;
        }
    }
    true
}

/// Takes all bytes out of the file of this path. This process has it locked.
pub(crate) fn empty(
    rt: &HostRuntime,
    path: &str,
    target: Target,
    notes: &Notes,
) -> Result<(), Failure> {
    match cut(rt, path, target, notes) {
        Ok(()) => Ok(()),
        Err(_) => Err(Failure::Kept(KeepingFault::Device)),
    }
}

/// The same, unless a call fails. A file that has no bytes isn't touched.
fn cut(rt: &HostRuntime, path: &str, target: Target, notes: &Notes) -> io::Result<()> {
    let files = NotedFiles {
        rt,
        path,
        target,
        notes,
    };
    let mut how = OpenOptions::new();
    how.write(true);
    let file = open_plain(&files, &how, path)?;
    if file.metadata()?.len() == 0 {
        return Ok(());
    }
    file.set_len(0)
}

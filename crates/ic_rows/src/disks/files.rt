//! Scripts of a disk in a file of the system.

use crate::disks::calls::call;
use crate::disks::told::Told;
use crate::disks::words::{body_of, first_of, number_and_rest};
use ic_disk::{Disk, DiskFile, FileDisk};
use std::alloc::AllocError;
use std::fs::{self, OpenOptions};
use std::rt::Files;

/// What the words of a script over a file of this name are answered.
pub fn in_file(rt: &HostRuntime, path: &str, script: &str) -> Result<Vec<u8>, AllocError> {
    let mut told = Told::new(rt.alloc());
    let mut disk = None;
    for word in script.split(", ") {
        let (verb, rest) = first_of(word);
        match verb {
            "cut" => told.outcome(cut(rt, path))?,
            "there" => told.whether(fs::exists(rt, path).unwrap_or(false))?,
            _ => tell_word(rt, path, &mut disk, &mut told, verb, rest)?,
        }
    }
    let _ = fs::remove_file(rt, path);
    Ok(told.into_line())
}

/// Whether a disk is opened at this path, without making it and with.
pub fn opens(rt: &HostRuntime, path: &str) -> Result<Vec<u8>, AllocError> {
    let mut told = Told::new(rt.alloc());
    told.outcome(FileDisk::open(rt, path, false).is_ok())?;
    told.outcome(FileDisk::open(rt, path, true).is_ok())?;
    Ok(told.into_line())
}

/// Cuts the file short, as somebody else may.
fn cut(rt: &HostRuntime, path: &str) -> bool {
    let mut how = OpenOptions::new();
    how.write(true).truncate(true);
    how.open(rt, path).is_ok()
}

fn tell_word<F: DiskFile, R: Files<File = F>>(
    files: &R,
    path: &str,
    disk: &mut Option<FileDisk<F>>,
    told: &mut Told,
    verb: &str,
    rest: &str,
) -> Result<(), AllocError> {
    match (verb, &mut *disk) {
        ("open" | "create", _) => told.outcome(is_opened(files, path, disk, verb == "create")),
        ("shut", _) => {
            *disk = None;
            Ok(())
        }
        ("read", Some(disk)) => tell_bytes(disk, told, rest),
        (_, Some(disk)) => call(told.alloc(), told, disk, verb, rest),
        (_, None) => told.say("none"),
    }
}

/// Opens the disk. A second one is shut at once.
fn is_opened<F: DiskFile, R: Files<File = F>>(
    files: &R,
    path: &str,
    disk: &mut Option<FileDisk<F>>,
    create: bool,
) -> bool {
    match FileDisk::open(files, path, create) {
        Ok(opened) => {
            if disk.is_none() {
                *disk = Some(opened);
            }
            true
        }
        Err(_) => false,
    }
}

/// As many bytes as these, from a place on.
fn tell_bytes<F: DiskFile>(
    disk: &mut FileDisk<F>,
    told: &mut Told,
    text: &str,
) -> Result<(), AllocError> {
    let (at, rest) = number_and_rest(text);
    let mut into = body_of(told.alloc(), rest)?;
    if disk.read(at, &mut into).is_ok() {
        told.bytes(&into)
    } else {
        told.outcome(false)
    }
}

//! Calls of any disk, through its bound.

use crate::disks::told::Told;
use crate::disks::words::{body_of, byte, first_of, number_and_rest};
use ic_disk::laws::{write_and_mark, write_synced};
use ic_disk::{Disk, DiskFault};
use std::alloc::{AllocError, Global};

/// Makes a call of a disk, and tells its answer.
pub fn call<D: Disk>(
    alloc: Global,
    told: &mut Told,
    disk: &mut D,
    verb: &str,
    rest: &str,
) -> Result<(), AllocError> {
    match verb {
        "sync" => told.outcome(disk.sync().is_ok()),
        "len" => tell_length(told, disk.len()),
        "touch" => told.outcome(disk.read(0, &mut []).is_ok()),
        "look" => look(alloc, told, disk, rest),
        "mark" => mark(alloc, told, disk, rest),
        _ => write(alloc, told, disk, verb, rest),
    }
}

/// Tells a length.
pub fn tell_length(told: &mut Told, answer: Result<u64, DiskFault>) -> Result<(), AllocError> {
    match answer {
        Ok(length) => told.number(length),
        Err(_) => told.outcome(false),
    }
}

/// How long the disk is. The bytes at a place are read, where it has as many.
fn read_there<D: Disk>(disk: &mut D, at: u64, into: &mut [u8]) -> Result<u64, DiskFault> {
    let len = disk.len()?;
    if at <= len && into.len() as u64 <= len - at {
        disk.read(at, into)?;
    }
    Ok(len)
}

fn look<D: Disk>(
    alloc: Global,
    told: &mut Told,
    disk: &mut D,
    text: &str,
) -> Result<(), AllocError> {
    let (at, count) = number_and_rest(text);
    let mut into = body_of(alloc, count)?;
    tell_length(told, read_there(disk, at, &mut into))?;
    told.bytes(&into)
}

fn mark<D: Disk>(
    alloc: Global,
    told: &mut Told,
    disk: &mut D,
    text: &str,
) -> Result<(), AllocError> {
    let (mark_at, rest) = number_and_rest(text);
    let (mark, rest) = first_of(rest);
    let (at, rest) = number_and_rest(rest);
    let bytes = body_of(alloc, rest)?;
    told.outcome(write_and_mark(disk, at, &bytes, mark_at, byte(mark)).is_ok())
}

fn write<D: Disk>(
    alloc: Global,
    told: &mut Told,
    disk: &mut D,
    verb: &str,
    text: &str,
) -> Result<(), AllocError> {
    let (at, rest) = number_and_rest(text);
    let bytes = body_of(alloc, rest)?;
    match verb {
        "write" => told.outcome(disk.write_at(at, &bytes).is_ok()),
        "synced" => told.outcome(write_synced(disk, at, &bytes).is_ok()),
        _ => told.say("unknown"),
    }
}

//! The calls that are laws of any disk: they are the disk's own.

use crate::disks::calls::tell_length;
use crate::disks::told::Told;
use ic_disk::laws::{
    failures_rise, len_as_modelled, read_as_modelled, settled_disk_begins, sync_as_modelled,
    write_as_modelled,
};
use ic_disk::{Disk, MemDisk};
use std::alloc::{AllocError, Global};

/// What each of them answers on an empty disk, made in turn.
pub fn of_the_laws(alloc: Global) -> Result<Vec<u8>, AllocError> {
    let mut told = Told::new(alloc);
    tell_laws(&mut told, &mut MemDisk::new(alloc))?;
    Ok(told.into_line())
}

fn tell_laws(told: &mut Told, disk: &mut MemDisk) -> Result<(), AllocError> {
    tell_write(told, disk)?;
    tell_sync(told, disk)?;
    tell_length(told, len_as_modelled(disk))?;
    tell_read(told, disk)?;
    tell_failures(told, disk)
}

fn tell_write(told: &mut Told, disk: &mut MemDisk) -> Result<(), AllocError> {
    settled_disk_begins(disk);
    told.outcome(write_as_modelled(disk, 0, b"ab").is_ok())
}

fn tell_sync(told: &mut Told, disk: &mut MemDisk) -> Result<(), AllocError> {
    told.outcome(sync_as_modelled(disk).is_ok())
}

fn tell_read(told: &mut Told, disk: &mut MemDisk) -> Result<(), AllocError> {
    let mut into = [0; 2];
    let is_read = match disk.len() {
        Ok(2) => read_as_modelled(disk, 0, &mut into).is_ok(),
        _ => false,
    };
    told.outcome(is_read)?;
    told.bytes(&into)
}

fn tell_failures(told: &mut Told, disk: &mut MemDisk) -> Result<(), AllocError> {
    let answer = disk.sync();
    failures_rise(&answer);
    told.outcome(answer.is_ok())
}

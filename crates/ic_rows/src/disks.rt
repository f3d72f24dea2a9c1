//! What is answered to rows of disks and of the frames on them.
//!
//! A script is words with `, ` between two, each of which is answered in turn: `o` or `e` says that a call went well or
//! was refused, `y` or `n` whether something is so. Bytes are hexadecimal digits, `-` none, and `[COUNT DIGITS]` so
//! many times. What is read is written over the bytes that a word names.
//!
//! - `memory SCRIPT`: over an empty disk in memory. `has BYTES` puts another in its place, all synced.
//!   `fuse CALL BLOW THEN` lets a call fail, counted from 1: `before` it is made, `after` it or torn after so many
//!   bytes; and then `stop` or go `on`. `crash CHOICE` leaves what a crash leaves, and `bytes` tells the bytes.
//! - `file SCRIPT`: over a file. `open` and `create` open the disk in it, and `shut` closes it. `read PLACE BYTES`
//!   tells as many bytes. `cut` makes the file empty, and `there` tells whether it is there.
//! - Of any disk: `write PLACE BYTES`, `sync`, `len`, `synced PLACE BYTES` for a write and a sync,
//!   `mark PLACE BYTE PLACE BYTES` for those of the bytes and then of the byte, `touch` for a read of nothing,
//!   `look PLACE BYTES` for the length and as many bytes.
//! - Of the frames on a disk in memory: `begin BODY` makes the first, `find` opens them, `keep BODY` keeps one,
//!   `stage BODY` writes it after a closed gate, `usable` tells whether they are neither broken nor worn, `leave`
//!   closes them. `holds BODY` tells what was found.
//! - `opens PATH`: whether a disk is opened there, without making it and with. `laws`: the calls that are laws.

mod calls;
mod files;
mod laws;
mod memory;
mod told;
mod words;

use crate::disks::files::{in_file, opens};
use crate::disks::laws::of_the_laws;
use crate::disks::memory::in_memory;
use ic_notation::Row;
use std::alloc::AllocError;

/// What is answered to a row of a disk.
pub fn of_disks(rt: &HostRuntime, row: &Row<'_>) -> Result<Vec<u8>, AllocError> {
    match row.kind {
        "memory" => in_memory(rt.alloc(), row.text),
        "laws" => of_the_laws(rt.alloc()),
        "file" => in_file(rt, row.name, row.text),
        _ => opens(rt, row.text),
    }
}

//! A writer that takes all and fails when it is flushed, and what a dump and a look at a disk answer then.

use ic_dump::dump_jobs;
use ic_inspect::{Layout, Slots, look, tell};
use ic_jobs::Table;
use ic_notation::Trouble;
use std::alloc::Global;
use std::io::{self, ErrorKind, Write};

/// Flushes nothing.
#[derive(Clone, Copy)]
struct Unflushed;

impl Write for Unflushed {
    fn write(&mut self, buf: &[u8]) -> io::Result<usize> {
        Ok(buf.len())
    }

    fn flush(&mut self) -> io::Result<()> {
        Err(io::Error::from(ErrorKind::Other))
    }
}

/// The number of the fault of a dump, 0 for none.
pub fn undumped(alloc: Global) -> Result<Vec<u8>, Trouble> {
    let number = match dump_jobs(alloc, &Table::new(alloc), &[], &mut Unflushed) {
        Ok(()) => 0,
        Err(fault) => fault.number(),
    };
    Ok(format!(in alloc; "{number}")?.into_bytes())
}

/// The number of the fault of a look at no bytes, 0 for none.
pub fn unshown(alloc: Global) -> Result<Vec<u8>, Trouble> {
    let slots = Slots {
        first: Vec::new(alloc),
        second: Vec::new(alloc),
    };
    let mut first: &[u8] = &[];
    let mut second: &[u8] = &[];
    let told = look(alloc, &slots, &mut first, &mut second).and_then(|looked| tell(
        alloc,
        Layout::Words,
        &looked,
        &mut Unflushed,
    ));
    let number = match told {
        Ok(()) => 0,
        Err(fault) => fault.number(),
    };
    Ok(format!(in alloc; "{number}")?.into_bytes())
}

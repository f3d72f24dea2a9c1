//! Files in the places of standard streams that are closed.

use ic_causes::{FileCall, Notes, Target};
use std::fs::File;
use std::io;
use std::os::fd::AsFd;

/// The number of the error that says that a file isn't open.
const NOT_OPEN: i32 = 9;

/// Files that stand where standard input, output or error is closed, one for each that is.
#[derive(Drop)]
pub(crate) struct StandIns {
    input: Option<File>,
    output: Option<File>,
    error: Option<File>,
}

/// Opens a file for each standard stream that is closed. While they are open no disk is opened there: what is written to
/// standard output would be written to the disk. One that can't be opened is noted.
pub(crate) fn stand_ins(rt: &HostRuntime, notes: &Notes) -> io::Result<StandIns> {
    let input = stand_in(rt, &rt.stdin(), notes)?;
    let output = stand_in(rt, &rt.stdout(), notes)?;
    let error = stand_in(rt, &rt.stderr(), notes)?;
    Ok(StandIns {
        input,
        output,
        error,
    })
}

/// A file in the place of this stream, where it is closed and those before it are open: the system
/// gives a file the lowest number that is free.
fn stand_in<S: AsFd>(rt: &HostRuntime, stream: &S, notes: &Notes) -> io::Result<Option<File>> {
    if !is_closed(stream) {
        return Ok(None);
    }
    let opened = File::open(rt, "/dev/null");
    notes.note(Target::StandIn, FileCall::Open, &opened);
    Ok(Some(opened?))
}

/// Whether a stream is closed, as an attempt at a second handle of it shows.
fn is_closed<S: AsFd>(stream: &S) -> bool {
    match stream.as_fd().try_clone_to_owned() {
        Ok(_) => false,
        Err(error) => error.raw_os_error() == Some(NOT_OPEN),
    }
}

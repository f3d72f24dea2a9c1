//! The line that tells why a call to a file has failed.

ghost use Rattle.std.specs.Prelude.{◌≡◌, IfOk};
ghost use Rattle.ic_causes.specs.Causes.{shown_byte, shown_path};

use crate::{Cause, FileCall, Reason, Target};
use std::alloc::{AllocError, Global};

/// The line that tells of the file of this path why the last call to it has failed, with its line
/// feed.
pub fn cause_line(alloc: Global, path: &[u8], cause: Option<Cause>) -> Result<Vec<u8>, AllocError> {
    let mut line = cause_words(alloc, path, cause)?;
    line.push(b'\n')?;
    Ok(line)
}

/// A path as a line shows it: a byte for each byte, all of them printable.
pub fn shown_path(alloc: Global, path: &[u8]) -> Result<Vec<u8>, AllocError>
    ensures { IfOk result (λ shown. shown.items ≡ shown_path path.now) }
{
    path.iter().map(|byte| shown_byte(*byte)).collect(alloc)
}

/// A byte of a path as a line shows it.
fn shown_byte(byte: u8) -> u8
    ensures { result ≡ shown_byte byte }
{
    if byte >= 32 && byte < 127 { byte } else { b'?' }
}

/// The call that failed, what it was made on, and why.
fn cause_words(alloc: Global, path: &[u8], cause: Option<Cause>) -> Result<Vec<u8>, AllocError> {
    let Some(cause) = cause else {
        let mut words = shown_path(alloc, path)?;
        words.extend_from_slice(b": a call to it has failed")?;
        return Ok(words);
    };
    let mut words = target_words(alloc, path, cause.target)?;
    words.extend_from_slice(b": ")?;
    words.extend_from_slice(call_word(cause.call))?;
    words.extend_from_slice(b": ")?;
    words.extend_from_slice(&reason_words(alloc, cause.reason)?)?;
    Ok(words)
}

/// What a call was made on, where the file is that of this path.
fn target_words(alloc: Global, path: &[u8], target: Target) -> Result<Vec<u8>, AllocError> {
    match target {
        Target::File => shown_path(alloc, path),
        Target::Second => {
            let mut words = shown_path(alloc, path)?;
            words.extend_from_slice(b".2")?;
            Ok(words)
        }
        Target::Folder => {
            let mut words = shown_path(alloc, path)?;
            words.extend_from_slice(b": its folder")?;
            Ok(words)
        }
        Target::StandIn => b"/dev/null, in the place of a closed standard stream".to_vec(alloc),
        Target::Input => b"standard input".to_vec(alloc),
        Target::Output => b"standard output".to_vec(alloc),
    }
}

fn call_word(call: FileCall) -> &'static [u8] {
    match call {
        FileCall::Open => b"open",
        FileCall::Lock => b"lock",
        FileCall::Length => b"length",
        FileCall::Seek => b"seek",
        FileCall::Read => b"read",
        FileCall::Write => b"write",
        FileCall::Sync => b"sync",
    }
}

fn reason_words(alloc: Global, reason: Reason) -> Result<Vec<u8>, AllocError> {
    match reason {
        Reason::Missing => b"no such file or folder".to_vec(alloc),
        Reason::Folder => b"is a folder".to_vec(alloc),
        Reason::SomeDevice => b"is a device".to_vec(alloc),
        Reason::Pipe => b"is a pipe".to_vec(alloc),
        Reason::Socket => b"is a socket".to_vec(alloc),
        Reason::NoFolder => b"a name on the way to it is no folder's".to_vec(alloc),
        Reason::LongName => b"the name is too long".to_vec(alloc),
        Reason::Links => b"too many symbolic links".to_vec(alloc),
        Reason::NoRights => b"no rights".to_vec(alloc),
        Reason::ReadOnly => b"the file system takes no writes".to_vec(alloc),
        Reason::Locked => b"another process has it open".to_vec(alloc),
        Reason::NoWait => b"nothing is there yet, and it is set not to wait".to_vec(alloc),
        Reason::Running => b"is a program that runs".to_vec(alloc),
        Reason::InUse => b"something else uses it".to_vec(alloc),
        Reason::Closed => b"is closed".to_vec(alloc),
        Reason::ManyFiles => b"too many files are open in this process".to_vec(alloc),
        Reason::ManyFilesInAll => b"too many files are open on this machine".to_vec(alloc),
        Reason::Gone => b"the file is gone".to_vec(alloc),
        Reason::NoDevice => b"there is no such device".to_vec(alloc),
        Reason::NoRoom => b"no room left on the device".to_vec(alloc),
        Reason::NoShare => b"no room left of the quota".to_vec(alloc),
        Reason::TooLong => b"the file may grow no further".to_vec(alloc),
        Reason::TooShort => b"the file ends before".to_vec(alloc),
        Reason::NotPossible => b"not possible with such a file".to_vec(alloc),
        Reason::NoReader => b"nobody reads it any more".to_vec(alloc),
        Reason::NoMemory => b"no memory".to_vec(alloc),
        Reason::Device => b"input/output error of the device".to_vec(alloc),
        Reason::Other(number) => number_words(alloc, number),
        Reason::Untold => b"the system told no reason".to_vec(alloc),
    }
}

fn number_words(alloc: Global, number: u32) -> Result<Vec<u8>, AllocError> {
    let mut words = b"error ".to_vec(alloc)?;
    words.extend_from_slice(number.to_string(alloc)?.as_bytes())?;
    words.extend_from_slice(b" of the system")?;
    Ok(words)
}

//! Which call to a file has failed, and why.

ghost use Rattle.std.specs.Prelude.{◌≡◌, ◌&&◌, false};
ghost use Rattle.std.specs.IoError.{error_kind};
ghost use Rattle.ic_causes.specs.Locks.{is_lock, is_locked, would_wait};

use std::fs::Metadata;
use std::io::{self, ErrorKind};
use std::os::unix::fs::MetadataExt;

/// What a call is made on.
#[derive(Clone, Copy, PartialEq, Eq)]
pub enum Target {
    /// The file of a disk, a script or a text.
    File,
    /// The second file in which a reduction is kept.
    Second,
    /// The folder in which that file stands.
    Folder,
    /// What is opened in the place of a standard stream that is closed: `/dev/null`.
    StandIn,
    /// Standard input.
    Input,
    /// Standard output.
    Output,
}

/// A call to a file.
#[derive(Clone, Copy)]
pub enum FileCall {
    Open,
    Lock,
    Length,
    Seek,
    Read,
    Write,
    Sync,
}

/// Why the system refused a call to a file.
#[derive(Clone, Copy, PartialEq, Eq)]
pub enum Reason {
    /// There is no file of that path, or no folder on the way to it.
    Missing,
    /// It is a folder.
    Folder,
    /// It is a device.
    SomeDevice,
    /// It is a pipe.
    Pipe,
    /// It is a socket.
    Socket,
    /// Something on the way to it is no folder.
    NoFolder,
    /// Its name is longer than the system allows.
    LongName,
    /// There are too many symbolic links on the way to it.
    Links,
    /// Who runs the program may not do that.
    NoRights,
    /// The file system takes no writes.
    ReadOnly,
    /// Another open of the file holds its lock.
    Locked,
    /// There is nothing to be had yet, and the call may not wait.
    NoWait,
    /// It is a program that runs.
    Running,
    /// Something else uses it, and it can't be shared.
    InUse,
    /// It is closed.
    Closed,
    /// The program has as many files open as it may.
    ManyFiles,
    /// All processes together have as many files open as they may.
    ManyFilesInAll,
    /// No file stands at its path any more, or another one.
    Gone,
    /// There is no such device.
    NoDevice,
    /// The device is full.
    NoRoom,
    /// Who runs the program has used up its share of the device.
    NoShare,
    /// The file is as long as a file may be.
    TooLong,
    /// The file ends before.
    TooShort,
    /// The file is none that this can be done with.
    NotPossible,
    /// Whoever read it has gone.
    NoReader,
    /// Memory is wanting.
    NoMemory,
    /// The device can't be read or written.
    Device,
    /// Another error of the system, with its number.
    Other(u32),
    /// The system told no reason.
    Untold,
}

impl Reason {
    /// The reason of an error of this call. That another open of the file holds its lock is told of a lock alone, and of each
    /// lock that would have to wait.
    pub fn of(call: FileCall, error: &io::Error) -> Reason
        ensures locked { is_locked result ≡ (would_wait (error_kind error.now) && is_lock call) }
    {
        match error.kind() {
            ErrorKind::NotFound => Reason::Missing,
            ErrorKind::IsADirectory => Reason::Folder,
            ErrorKind::NotADirectory => Reason::NoFolder,
            ErrorKind::InvalidFilename => Reason::LongName,
            ErrorKind::FilesystemLoop => Reason::Links,
            ErrorKind::PermissionDenied => Reason::NoRights,
            ErrorKind::ReadOnlyFilesystem => Reason::ReadOnly,
            ErrorKind::WouldBlock => reason_of_wait(call),
            ErrorKind::ExecutableFileBusy => Reason::Running,
            ErrorKind::ResourceBusy => Reason::InUse,
            ErrorKind::StaleNetworkFileHandle => Reason::Gone,
            ErrorKind::StorageFull => Reason::NoRoom,
            ErrorKind::QuotaExceeded => Reason::NoShare,
            ErrorKind::FileTooLarge => Reason::TooLong,
            ErrorKind::UnexpectedEof => Reason::TooShort,
            ErrorKind::InvalidInput | ErrorKind::NotSeekable | ErrorKind::Unsupported => {
                Reason::NotPossible
            }
            ErrorKind::BrokenPipe => Reason::NoReader,
            ErrorKind::OutOfMemory => Reason::NoMemory,
            _ => match error.raw_os_error() {
                Some(number) => reason_of_number(number.unsigned_abs()),
                None => Reason::Untold,
            },
        }
    }

    /// Why what is so is neither read nor written: none of a plain file. Nor is there one of a
    /// folder, since the call that fails says that it is one.
    pub fn of_special(about: &Metadata) -> Option<Reason> {
        match about.mode() & 0o170000 {
            0o100000 | 0o040000 => None,
            0o060000 | 0o020000 => Some(Reason::SomeDevice),
            0o010000 => Some(Reason::Pipe),
            0o140000 => Some(Reason::Socket),
            _ => Some(Reason::NotPossible),
        }
    }
}

/// The reason of a call that would have to wait: a lock alone is then held by another open of the
/// file.
fn reason_of_wait(call: FileCall) -> Reason
    ensures { is_locked result ≡ is_lock call }
{
    match call {
        FileCall::Lock => Reason::Locked,
        FileCall::Open
        | FileCall::Length
        | FileCall::Seek
        | FileCall::Read
        | FileCall::Write
        | FileCall::Sync => Reason::NoWait,
    }
}

/// The reason of an error of no kind that has a reason of its own, by its number.
fn reason_of_number(number: u32) -> Reason
    ensures { is_locked result ≡ false }
{
    match number {
        5 => Reason::Device,
        6 | 19 => Reason::NoDevice,
        9 => Reason::Closed,
        23 => Reason::ManyFilesInAll,
        24 => Reason::ManyFiles,
        _ => Reason::Other(number),
    }
}

/// A call that failed, what it was made on, and why.
#[derive(Clone, Copy)]
pub struct Cause {
    pub target: Target,
    pub call: FileCall,
    pub reason: Reason,
}

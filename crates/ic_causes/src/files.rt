//! The files of a runtime, of which calls that fail are noted.

ghost use Rattle.std.specs.Prelude.{◌≡◌};

use crate::{FileCall, Notes, Target};
use ic_disk::DiskFile;
use std::alloc::Allocator;
use std::fs::{File, Metadata, OpenFile, OpenOptions};
use std::io::{self, ErrorKind, Read, Seek, SeekFrom, Write};
use std::os::unix::fs::{FileExt, MetadataExt};
use std::rt::Files;

/// The files of a runtime, while the disk in the file of this path is opened, which is noted as this target. A call to a file
/// that fails is noted as `Notes` says, and so is a special file that is looked at; what is opened by
/// another path is the folder of that file.
#[derive(Drop)]
pub struct NotedFiles<'a, 'n, R> {
    pub rt: &'a R,
    pub path: &'a str,
    pub target: Target,
    pub notes: &'n Notes,
}

/// A file whose calls answer as the file's do, and are noted where they fail. A sync of a gate that was opened also fails where the
/// file is gone: nobody could open what was kept.
#[derive(Drop)]
pub struct NotedFile<'n> {
    file: File,
    target: Target,
    notes: &'n Notes,
    // Whether what was written last opens a gate, which is the last write of a keep.
    opened: bool,
}

/// The byte of a gate that is open.
const OPEN: u8 = 1;

impl<'n> NotedFile<'n> {
    /// Its bytes from this place on.
    pub fn at(&self, at: u64) -> NotedFrom<'_, 'n> {
        NotedFrom { file: self, at }
    }

    /// The answer, which is noted where the call has failed.
    fn noted<T: Drop>(&self, call: FileCall, answer: io::Result<T>) -> io::Result<T>
        ensures { result ≡ answer }
    {
        self.notes.note(self.target, call, &answer);
        answer
    }
}

/// The bytes of a file from a place on. Reading them doesn't move the place of the file itself, so several of these can
/// read one file.
#[derive(Drop)]
pub struct NotedFrom<'f, 'n> {
    file: &'f NotedFile<'n>,
    at: u64,
}

impl Read for NotedFrom<'_, '_> {
    fn read(&mut self, buf: &mut [u8]) -> io::Result<usize> {
        let answer = self.file.file.read_at(buf, self.at);
        let count = self.file.noted(FileCall::Read, answer)?;
        self.at = self.at.saturating_add(count as u64);
        Ok(count)
    }
}

impl<R> NotedFiles<'_, '_, R> {
    /// What a call by this path is made on.
    fn target_of(&self, path: &str) -> Target {
        if path == self.path {
            self.target
        } else {
            Target::Folder
        }
    }
}

impl Read for NotedFile<'_> {
    fn read(&mut self, buf: &mut [u8]) -> io::Result<usize> {
        let answer = self.file.read(buf);
        self.noted(FileCall::Read, answer)
    }
}

impl Write for NotedFile<'_> {
    fn write(&mut self, buf: &[u8]) -> io::Result<usize> {
        self.opened = buf.len() == 1 && buf[0] == OPEN;
        let answer = self.file.write(buf);
        self.noted(FileCall::Write, answer)
    }

    fn flush(&mut self) -> io::Result<()> {
        let answer = self.file.flush();
        self.noted(FileCall::Write, answer)
    }
}

impl Seek for NotedFile<'_> {
    fn seek(&mut self, to: SeekFrom) -> io::Result<u64> {
        let answer = self.file.seek(to);
        self.noted(FileCall::Seek, answer)
    }
}

impl NotedFile<'_> {
    /// Refuses a file that is gone: no name leads to it any more.
    fn refuse_gone(&self) -> io::Result<()> {
        let about = self.noted(FileCall::Length, self.file.metadata())?;
        if about.nlink() > 0 {
            return Ok(());
        }
        let gone = Err(ErrorKind::StaleNetworkFileHandle.into());
        self.noted(FileCall::Sync, gone)
    }
}

impl OpenFile for NotedFile<'_> {
    fn metadata(&self) -> io::Result<Metadata> {
        let answer = self.file.metadata();
        self.notes.note_kind(self.target, &answer);
        self.noted(FileCall::Length, answer)
    }

    fn set_len(&self, size: u64) -> io::Result<()> {
        self.noted(FileCall::Write, self.file.set_len(size))
    }

    fn sync_all(&self) -> io::Result<()> {
        self.noted(FileCall::Sync, self.file.sync_all())
    }

    fn sync_data(&self) -> io::Result<()> {
        self.noted(FileCall::Sync, self.file.sync_data())?;
        // Each look makes the next write cost more, so there is one a keep.
        if self.opened {
            self.refuse_gone()
        } else {
            Ok(())
        }
    }
}

impl DiskFile for NotedFile<'_> {
    fn lock_alone(&self) -> io::Result<()> {
        self.noted(FileCall::Lock, self.file.lock_alone())
    }
}

impl<'n, R: Files<File = File>> Files for NotedFiles<'_, 'n, R> {
    type File = NotedFile<'n>;

    type Dir = R::Dir;

    fn open_file(&self, how: &OpenOptions, path: &str) -> io::Result<NotedFile<'n>> {
        let target = self.target_of(path);
        let answer = self.rt.open_file(how, path);
        self.notes.note(target, FileCall::Open, &answer);
        Ok(NotedFile {
            file: answer?,
            target,
            notes: self.notes,
            opened: false,
        })
    }

    fn open_dir(&self, path: &str) -> io::Result<R::Dir> {
        self.rt.open_dir(path)
    }

    fn metadata(&self, path: &str) -> io::Result<Metadata> {
        let answer = self.rt.metadata(path);
        self.notes.note_kind(self.target_of(path), &answer);
        answer
    }

    fn symlink_metadata(&self, path: &str) -> io::Result<Metadata> {
        self.rt.symlink_metadata(path)
    }

    fn copy(&self, from: &str, to: &str) -> io::Result<u64> {
        self.rt.copy(from, to)
    }

    fn rename(&self, from: &str, to: &str) -> io::Result<()> {
        self.rt.rename(from, to)
    }

    fn remove_file(&self, path: &str) -> io::Result<()> {
        self.rt.remove_file(path)
    }

    fn create_dir(&self, path: &str) -> io::Result<()> {
        self.rt.create_dir(path)
    }

    fn remove_dir(&self, path: &str) -> io::Result<()> {
        self.rt.remove_dir(path)
    }

    fn remove_dir_all<B: Allocator>(&self, alloc: B, path: &str) -> io::Result<()> {
        self.rt.remove_dir_all(alloc, path)
    }
}

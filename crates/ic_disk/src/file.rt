//! A disk in a file of the operating system. Nothing is claimed of its bytes.

ghost use Rattle.std.specs.Prelude.{◌≡◌, ◌↔◌, [], false, not, is_ok, IsTrue, IsOk, IsErr, IfOk};
ghost use Rattle.std.specs.Fs.{file_type};
ghost use Rattle.ic_disk.specs.FileDisk.{IsFileOrFolder};
ghost use Rattle.ic_disk.specs.Time.{CountsFailure, one_call_more};

use crate::disk::{count, count_call};
use crate::{Disk, DiskFault};
use std::fs::{File, Metadata, OpenFile, OpenOptions};
use std::io;
use std::io::{Read, Seek, SeekFrom, Write};
use std::rt::Files;

/// A file that a disk can be in: one from which its other opens can be kept out.
pub trait DiskFile: Read + Write + Seek + OpenFile + Drop {
    /// Locks the file for as long as it is open. An error where another open of it is locked.
    fn lock_alone(&self) -> io::Result<()>;
}

impl DiskFile for File {
    fn lock_alone(&self) -> io::Result<()> {
        self.try_lock()?;
        Ok(())
    }
}

/// A disk in an open file. It makes the calls of a disk and counts those that fail, and it claims
/// nothing of the bytes: whether it keeps the model is up to the system and the device. Once a sync
/// has failed no later one is tried, and each is an `Err`: the system may have dropped what was
/// written and still answer the next sync with success.
#[derive(Drop)]
pub struct FileDisk<F = File> {
    file: F,
    calls: u64,
    failures: u64,
    sync_failed: bool,
}

impl<F: DiskFile> FileDisk<F> {
    ghost use Rattle.ic_disk.specs.FileDisk.{calls_of, failures_of, has_lost_sync};

    /// Opens the file to read and write, and locks it (by an advisory lock on the whole file) for
    /// as long as the disk lives: a second open of it is an error meanwhile, in this process too.
    /// With `create` a file that is missing is made, one that is there stays as it is.
    ///
    /// The file is synced with all that the system keeps of it, and with `create` its folder is. A
    /// folder, a device, a pipe, a socket, or a file that may not be read, written and synced, is
    /// an error.
    pub fn open<R: Files<File = F>>(
        rt: &R,
        path: &str,
        create: bool,
    ) -> Result<FileDisk<F>, DiskFault>
        ensures calls { IfOk result (λ disk. calls_of disk ≡ 0) }
        ensures failures { IfOk result (λ disk. failures_of disk ≡ 0) }
        ensures syncs { IfOk result (λ disk. has_lost_sync disk ≡ false) }
    {
        match open_alone(rt, path, create) {
            Ok(file) => Ok(FileDisk {
                file,
                calls: 0,
                failures: 0,
                sync_failed: false,
            }),
            Err(_) => Err(DiskFault),
        }
    }
}

// The file, locked and wholly synced: what a process that was killed has written may not be there for
// good yet. Nor may a file that it made be in its folder, so with `create` that is synced even where
// the file was there. The folder is opened first: where that fails, no file is made.
fn open_alone<F: DiskFile, R: Files<File = F>>(rt: &R, path: &str, create: bool) -> io::Result<F> {
    let mut how = OpenOptions::new();
    how.read(true).write(true).create(create);
    let folder = if create {
        Some(File::open(rt, folder_of(path))?)
    } else {
        None
    };
    let file = open_plain(rt, &how, path)?;
    file.lock_alone()?;
    file.sync_all()?;
    if let Some(folder) = folder {
        folder.sync_all()?;
    }
    Ok(file)
}

/// Opens a file unless it is a device, a pipe, a socket or another special file. To open such a file
/// may wait or set something off, so the path is looked at before. What was opened is looked at too,
/// since the path may lead to another file by then. A folder may be opened where it is only read.
pub fn open_plain<R: Files>(rt: &R, how: &OpenOptions, path: &str) -> io::Result<R::File> {
    if let Ok(about) = rt.metadata(path) {
        refuse_special(&about)?;
    }
    let file = how.open(rt, path)?;
    refuse_special(&file.metadata()?)?;
    Ok(file)
}

// Whether this is a plain file or a folder.
fn refuse_special(about: &Metadata) -> io::Result<()>
    ensures { IsOk result ↔ IsFileOrFolder (file_type about.now) }
{
    if about.is_file() || about.is_dir() {
        return Ok(());
    }
    Err(io::ErrorKind::InvalidInput.into())
}

// The folder in which a path's last name is.
fn folder_of(path: &str) -> &str {
    match path.rsplit_once('/') {
        Some(("", _)) => "/",
        Some((folder, _)) => folder,
        None => ".",
    }
}

fn len_of<F: OpenFile>(file: &F) -> io::Result<u64> {
    Ok(file.metadata()?.len())
}

// The whole range, where the file has it.
fn read_range<F: Read + Seek + OpenFile>(file: &mut F, at: u64, into: &mut [u8]) -> io::Result<()> {
    let len = len_of(file)?;
    if at > len || into.len() as u64 > len - at {
        return Err(io::ErrorKind::UnexpectedEof.into());
    }
    file.seek(SeekFrom::Start(at))?;
    file.read_exact(into)
}

// All the bytes. The system fills up with zeros what is in between, where there are any.
fn write_range<F: Write + Seek + OpenFile>(file: &mut F, at: u64, bytes: &[u8]) -> io::Result<()> {
    if bytes.is_empty() {
        return fill_to(file, at);
    }
    file.seek(SeekFrom::Start(at))?;
    file.write_all(bytes)
}

fn fill_to<F: OpenFile>(file: &F, end: u64) -> io::Result<()> {
    if len_of(file)? < end {
        file.set_len(end)?;
    }
    Ok(())
}

// Syncs the file's bytes and its length, unless a sync has failed before. Its times are left to the
// system: by fdatasync(2) only what is needed to read the bytes again is written.
fn sync_once<F: OpenFile>(file: &F, failed: &mut bool) -> io::Result<()>
    ensures refuses { IsTrue failed.old → IsErr result }
    ensures remembers { failed.new ≡ not (is_ok result) }
{
    if *failed {
        return Err(io::ErrorKind::Other.into());
    }
    let outcome = file.sync_data();
    *failed = outcome.is_err();
    outcome
}

impl<F: DiskFile> Disk for FileDisk<F> {
    ghost use Rattle.ic_disk.specs.FileDisk.{calls_of, failures_of, has_lost_sync};

    ghost keeps = { λ _. false };

    ghost content = { λ _. [] };

    ghost image = { λ _ _. Unit {0} };

    ghost clock = { λ f. f.calls };

    ghost left = { λ _ _ _. Unit {0} };

    ghost failures = { λ f. f.failures };

    ghost content_is_image = { λ _. tt };

    ghost image_is_left = { λ f _ _ come _. (f.calls, come, tt) };

    ghost left_is_image = { λ _ _ _. tt };

    fn len(&mut self) -> Result<u64, DiskFault>
        ensures counted { CountsFailure result (failures_of self.old) (failures_of self.new) }
        ensures calls { calls_of self.new ≡ one_call_more (calls_of self.old) }
        ensures syncs { has_lost_sync self.new ≡ has_lost_sync self.old }
    {
        count_call(&mut self.calls);
        count(len_of(&self.file), &mut self.failures)
    }

    fn read(&mut self, at: u64, into: &mut [u8]) -> Result<(), DiskFault>
        ensures counted { CountsFailure result (failures_of self.old) (failures_of self.new) }
        ensures calls { calls_of self.new ≡ one_call_more (calls_of self.old) }
        ensures syncs { has_lost_sync self.new ≡ has_lost_sync self.old }
    {
        count_call(&mut self.calls);
        count(read_range(&mut self.file, at, into), &mut self.failures)
    }

    fn write_at(&mut self, at: u64, bytes: &[u8]) -> Result<(), DiskFault>
        ensures counted { CountsFailure result (failures_of self.old) (failures_of self.new) }
        ensures calls { calls_of self.new ≡ one_call_more (calls_of self.old) }
        ensures syncs { has_lost_sync self.new ≡ has_lost_sync self.old }
    {
        count_call(&mut self.calls);
        count(write_range(&mut self.file, at, bytes), &mut self.failures)
    }

    fn sync(&mut self) -> Result<(), DiskFault>
        ensures counted { CountsFailure result (failures_of self.old) (failures_of self.new) }
        ensures calls { calls_of self.new ≡ one_call_more (calls_of self.old) }

        // Once one has failed, each later one does.
        ensures refuses { IsTrue (has_lost_sync self.old) → IsErr result }
        ensures remembers { has_lost_sync self.new ≡ not (is_ok result) }
    {
        count_call(&mut self.calls);
        let outcome = sync_once(&self.file, &mut self.sync_failed);
        count(outcome, &mut self.failures)
    }
}

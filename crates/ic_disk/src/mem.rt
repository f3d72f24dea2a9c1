//! A disk in memory, which keeps the model, and may be crashed as a test likes.

ghost use Rattle.std.specs.Prelude.{◌≡◌, ◌≤◌, [], List, ℕ, map, ◌+◌, ◌-◌, length, IsOk, OnOk, OnErr, IfOk, true};
ghost use Rattle.ic_disk.specs.Content.{bytes_at};
ghost use Rattle.ic_disk.specs.Model.{write_of, sync};
ghost use Rattle.ic_disk.specs.History.{fresh, content_of, with_call, with_failure, state, image_of, clock_of, IsLeftAt, IsSynced, IsWritten};
ghost use Rattle.ic_disk.specs.Images.{Only};
ghost use Rattle.ic_disk.specs.Time.{CountsFailure};
ghost use Rattle.ic_disk.specs.lemmas.HistoryLaws as laws;
ghost use Rattle.ic_disk.specs.inner.Noted.{call_of, first_of};
ghost use Rattle.ic_disk.specs.inner.Writes.{EndWithin, filled_all, filled_past, writes_of};

use crate::bytes::{fill_range, lay};
use crate::disk::count;
use crate::noted::{Noted, fill_all, lay_all, lay_front};
use crate::{Disk, DiskFault};
use std::alloc::{AllocError, Global};
use std::marker::Model;

/// What a crash leaves: all as it was synced, all as it was written, what was written with this
/// byte wherever a write is pending, or what was synced with this many bytes of the writes since.
#[derive(Clone, Copy, PartialEq, Eq)]
pub enum Choice {
    Synced,
    Written,
    Fill(u8),
    Front(u64),
}

/// A disk in memory. Writes are laid over its bytes in place, and a copy of each is kept, from
/// which what a crash may have left at any moment can be told. So a write takes time in its own
/// bytes (the first one copies the disk), a sync none, and a crash time in all that was ever
/// written.
#[derive(Drop)]
pub struct MemDisk {
    content: Vec<u8>,
    // As it began. Until the first write it is the content.
    first: Option<Vec<u8>>,
    calls: Vec<Noted>,
    // How many of the calls there were up to the last sync, and how long the disk was then.
    synced_calls: usize,
    synced_len: usize,
    failures: u64,
}

impl Model for MemDisk {
    ghost use Rattle.ic_disk.specs.History.{History};

    ghost Value = { History };

    ghost use Rattle.ic_disk.specs.inner.MemDisk.{history, IsKept};

    ghost view = { history };

    ghost invariant = { IsKept };
}

impl MemDisk {
    ghost use Rattle.ic_disk.specs.Crash.{Takes};

    /// An empty disk.
    pub fn new(alloc: Global) -> MemDisk
        ensures { result ≡ fresh [] }
    {
        MemDisk::from_bytes(Vec::new(alloc))
    }

    /// A disk with these bytes, all of them synced.
    #[tactic(auto, using(crate::specs::lemmas::ImageLaws::image_settled))]
    pub fn from_bytes(bytes: Vec<u8>) -> MemDisk
        ensures value { result ≡ fresh bytes.items }
        ensures settled { Only bytes.items (image_of result) }
    {
        MemDisk {
            first: None,
            calls: Vec::new(*bytes.allocator()),
            synced_calls: 0,
            synced_len: bytes.len(),
            failures: 0,
            content: bytes,
        }
    }

    // The allocator of its bytes.
    pub(crate) fn allocator(&self) -> Global {
        *self.content.allocator()
    }

    /// What reads give.
    pub fn bytes(&self) -> &[u8]
        ensures { result.now ≡ content_of self.now }
    {
        &self.content
    }

    /// Begins anew with what a crash at this moment leaves, as chosen among the images. A growth
    /// may be refused where what was synced has to be made again, at `Synced` and `Front`.
    pub fn crash(self, choice: Choice) -> Result<MemDisk, AllocError>
        ensures anew { IfOk result (λ disk. disk ≡ fresh (content_of disk)) }
        ensures left { IfOk result (λ disk. Takes choice (state self) (content_of disk)) }
        ensures image { IfOk result (λ disk. image_of self (content_of disk)) }
        ensures settled { IfOk result (λ disk. Only (content_of disk) (image_of disk)) }

        // These two aren't refused.
        ensures written { choice ≡ Choice.Written → IsOk result }
        ensures filled { (byte : ℕ) → choice ≡ Choice.Fill byte → IsOk result }
    {
        let MemDisk {
            mut content,
            first,
            calls,
            synced_calls,
            synced_len,
            failures: _,
        } = self;
        let (synced, pending) = calls.split_at(synced_calls);
        match choice {
            Choice::Written => {}
            Choice::Fill(byte) => fill_unsynced(&mut content, pending, synced_len, byte),
            Choice::Synced => {
                content = began(first, content);
                lay_all(&mut content, synced)?;
            }
            Choice::Front(n) => {
                content = began(first, content);
                lay_all(&mut content, synced)?;
                lay_front(&mut content, pending, n)?;
            }
        }
        Ok(MemDisk::from_bytes(content))
    }
}

// How a disk began, of which this was kept.
fn began(first: Option<Vec<u8>>, content: Vec<u8>) -> Vec<u8>
    ensures { result.items ≡ first_of first content.items }
{
    first.unwrap_or(content)
}

// Fills with a byte what is not sure to stay: the range of each of these writes, and all that is
// past the end of what was synced.
fn fill_unsynced(content: &mut [u8], pending: &[Noted], synced_len: usize, byte: u8)
    requires ends { EndWithin (length content.old) (writes_of (map call_of pending.now)) }
    requires synced { synced_len ≤ length content.old }
    ensures { content.new ≡ filled_past byte synced_len
        (filled_all byte (writes_of (map call_of pending.now)) content.old) }
{
    fill_all(content, pending, byte);
    fill_range(content, synced_len, content.len() - synced_len, byte);
}

// Keeps a copy of how the disk began, before its content changes for the first time.
fn keep_first(first: &mut Option<Vec<u8>>, content: &Vec<u8>) -> Result<(), AllocError>
    ensures ok { OnOk result ((later : List ℕ)
        → first_of first.new later ≡ first_of first.old content.now.items) }
    ensures err { OnErr result (first.new ≡ first.old) }
{
    if first.is_none() {
        *first = Some(Vec::from_slice(*content.allocator(), content)?);
    }
    Ok(())
}

impl MemDisk {
    fn try_write(&mut self, at: usize, bytes: &[u8]) -> Result<(), AllocError>
        ensures ok { OnOk result (self.new ≡ with_call (write_of at bytes.now) self.old) }
        ensures err { OnErr result (self.new ≡ self.old) }
    {
        let alloc = *self.content.allocator();
        let noted = Noted::Write {
            at,
            bytes: Vec::from_slice(alloc, bytes)?,
        };
        keep_first(&mut self.first, &self.content)?;
        self.calls.reserve(1)?;
        lay(&mut self.content, at, bytes)?;
        self.calls.push_reserved(noted);
        Ok(())
    }

    fn try_sync(&mut self) -> Result<(), AllocError>
        ensures ok { OnOk result (self.new ≡ with_call sync self.old) }
        ensures err { OnErr result (self.new ≡ self.old) }
    {
        self.calls.push(Noted::Sync)?;
        self.synced_calls = self.calls.len();
        self.synced_len = self.content.len();
        Ok(())
    }

    fn make_write(&mut self, at: usize, bytes: &[u8]) -> Result<(), DiskFault>
        ensures ok { OnOk result (self.new ≡ with_call (write_of at bytes.now) self.old) }
        ensures err { OnErr result (self.new ≡ with_failure self.old) }
        ensures counted { CountsFailure result self.old.failures self.new.failures }
    {
        let outcome = self.try_write(at, bytes);
        count(outcome, &mut self.failures)
    }

    fn make_sync(&mut self) -> Result<(), DiskFault>
        ensures ok { OnOk result (self.new ≡ with_call sync self.old) }
        ensures err { OnErr result (self.new ≡ with_failure self.old) }
        ensures counted { CountsFailure result self.old.failures self.new.failures }
    {
        let outcome = self.try_sync();
        count(outcome, &mut self.failures)
    }
}

impl Disk for MemDisk {
    ghost keeps = { λ _. true };

    ghost content = { content_of };

    ghost image = { image_of };

    ghost clock = { clock_of };

    ghost left = { IsLeftAt };

    ghost failures = { λ h. h.failures };

    ghost content_is_image = { laws.content_image };

    ghost image_is_left = { laws.image_left };

    ghost left_is_image = { laws.left_image };

    fn len(&mut self) -> Result<u64, DiskFault>
        ensures length { IfOk result (λ n. n ≡ length (content_of self.old)) }
        ensures succeeds { IsOk result }
        ensures unchanged { self.new ≡ self.old }
    {
        Ok(self.content.len() as u64)
    }

    fn read(&mut self, at: u64, into: &mut [u8]) -> Result<(), DiskFault>
        requires { at + length into.old ≤ length (content_of self.old) }
        ensures bytes { into.new ≡ bytes_at at (length into.old) (content_of self.old) }
        ensures succeeds { IsOk result }
        ensures unchanged { self.new ≡ self.old }
    {
        let at = at as usize;
        into.copy_from_slice(&self.content[at..at + into.len()]);
        Ok(())
    }

    fn write_at(&mut self, at: u64, bytes: &[u8]) -> Result<(), DiskFault>
        ensures ok { OnOk result (self.new ≡ with_call (write_of at bytes.now) self.old) }
        ensures err { OnErr result (self.new ≡ with_failure self.old) }

        // What follows, in the words of the trait.
        ensures counted { CountsFailure result self.old.failures self.new.failures }
        ensures writes { IsWritten at bytes.now result self.old self.new }
    {
        self.make_write(at as usize, bytes)
    }

    fn sync(&mut self) -> Result<(), DiskFault>
        ensures ok { OnOk result (self.new ≡ with_call sync self.old) }
        ensures err { OnErr result (self.new ≡ with_failure self.old) }

        // What follows, in the words of the trait.
        ensures counted { CountsFailure result self.old.failures self.new.failures }
        ensures syncs { IsSynced result self.old self.new }
    {
        self.make_sync()
    }
}

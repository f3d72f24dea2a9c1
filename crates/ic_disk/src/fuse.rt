//! A disk in memory of which some call fails, as a test likes.

ghost use Rattle.std.specs.Prelude.{◌≡◌, ◌⊎◌, ◌+◌, ◌≤◌, true, length, IfOk, OnOk};
ghost use Rattle.ic_disk.specs.Content.{bytes_at};
ghost use Rattle.ic_disk.specs.Fuse.{turn_of, torn_bytes, Answers, AnswersRead, IsTorn};
ghost use Rattle.ic_disk.specs.Model.{write_of, sync};
ghost use Rattle.ic_disk.specs.History.{content_of, image_of, clock_of, IsLeftAt, IsSynced, IsWritten};
ghost use Rattle.ic_disk.specs.lemmas.HistoryLaws as laws;
ghost use Rattle.ic_disk.specs.Time.{CountsFailure, one_call_more};

use crate::disk::count;
use crate::{Disk, DiskFault, MemDisk};
use std::alloc::{AllocError, Global};

/// Whether the call that fails is made all the same. A write may be torn: its range is written with
/// so many of its bytes and zeros in place of the rest. No other call is made then.
#[derive(Clone, Copy, PartialEq, Eq)]
pub enum Blow {
    Before,
    After,
    Torn(u64),
}

/// Whether all later calls fail too, unmade.
#[derive(Clone, Copy, PartialEq, Eq)]
pub enum Then {
    Stop,
    GoOn,
}

#[derive(Clone, Copy)]
struct Fuse {
    at: u64,
    blow: Blow,
    after: Then,
}

// What becomes of a call.
enum Turn {
    Make,
    Skip,
    MakeAndFail,
    Tear(u64),
}

/// A disk in memory behind a fuse, which counts the calls of all four kinds.
#[derive(Drop)]
pub struct FuseDisk {
    disk: MemDisk,
    fuse: Fuse,
    calls: u64,
    failures: u64,
}

impl FuseDisk {
    ghost use Rattle.ic_disk.specs.FuseDisk.{disk_of, fuse_of, calls_of, failures_of, next_turn, Spends};

    /// Call `at`, counted from 1, fails. With 0 the fuse has blown before the first call.
    pub fn new(disk: MemDisk, at: u64, blow: Blow, then: Then) -> FuseDisk
        ensures disk { disk_of result ≡ disk }
        ensures fuse { fuse_of result ≡ record { at = at; blow = blow; after = then } }
        ensures calls { calls_of result ≡ 0 }
        ensures failures { failures_of result ≡ 0 }
    {
        FuseDisk {
            disk,
            fuse: Fuse {
                at,
                blow,
                after: then,
            },
            calls: 0,
            failures: 0,
        }
    }

    /// The disk without the fuse.
    pub fn into_inner(self) -> MemDisk
        ensures { result ≡ disk_of self }
    {
        self.disk
    }

    fn make_write(&mut self, at: u64, bytes: &[u8]) -> Result<(), DiskFault>
        ensures fuse { Answers (next_turn self.old) (write_of at bytes.now) result
            (disk_of self.old) (disk_of self.new) }
        ensures spent { Spends self.old self.new }
        ensures counted { CountsFailure result (failures_of self.old) (failures_of self.new) }
    {
        let outcome = match take_turn(self.fuse, &mut self.calls) {
            Turn::Make => self.disk.write_at(at, bytes),
            Turn::Skip => Err(DiskFault),
            Turn::MakeAndFail => {
                let _ = self.disk.write_at(at, bytes);
                Err(DiskFault)
            }
            Turn::Tear(n) => {
                tear(&mut self.disk, at, bytes, n);
                Err(DiskFault)
            }
        };
        count(outcome, &mut self.failures)
    }

    fn make_sync(&mut self) -> Result<(), DiskFault>
        ensures fuse { Answers (next_turn self.old) sync result
            (disk_of self.old) (disk_of self.new) }
        ensures spent { Spends self.old self.new }
        ensures counted { CountsFailure result (failures_of self.old) (failures_of self.new) }
    {
        let outcome = match take_turn(self.fuse, &mut self.calls) {
            Turn::Make => self.disk.sync(),
            Turn::Skip | Turn::Tear(_) => Err(DiskFault),
            Turn::MakeAndFail => {
                let _ = self.disk.sync();
                Err(DiskFault)
            }
        };
        count(outcome, &mut self.failures)
    }
}

// Counts a call, and says what becomes of it.
fn take_turn(fuse: Fuse, calls: &mut u64) -> Turn
    ensures turn { result ≡ turn_of (calls.old + 1) fuse }
    ensures counted { calls.new ≡ one_call_more calls.old }
{
    let before = *calls;
    *calls = before.saturating_add(1);
    if before >= fuse.at {
        return match fuse.after {
            Then::Stop => Turn::Skip,
            Then::GoOn => Turn::Make,
        };
    }
    if before + 1 < fuse.at {
        return Turn::Make;
    }
    match fuse.blow {
        Blow::Before => Turn::Skip,
        Blow::After => Turn::MakeAndFail,
        Blow::Torn(n) => Turn::Tear(n),
    }
}

// The first so many of these bytes, and zeros in place of the rest.
fn torn(alloc: Global, bytes: &[u8], n: u64) -> Result<Vec<u8>, AllocError>
    ensures { IfOk result (λ torn. torn.items ≡ torn_bytes n bytes.now) }
{
    let left = n.min(bytes.len() as u64) as usize;
    let mut torn = Vec::from_slice(alloc, &bytes[..left])?;
    torn.resize(bytes.len(), 0)?;
    Ok(torn)
}

// Writes these bytes torn, where there is memory for that.
fn tear(disk: &mut MemDisk, at: u64, bytes: &[u8], n: u64)
    ensures { IsTorn n (write_of at bytes.now) disk.old disk.new }
{
    if let Ok(torn) = torn(disk.allocator(), bytes, n) {
        let _ = disk.write_at(at, &torn);
    }
}

impl Disk for FuseDisk {
    ghost use Rattle.ic_disk.specs.FuseDisk.{disk_of, failures_of, next_turn, Spends};

    ghost keeps = { λ _. true };

    ghost content = { λ f. content_of (disk_of f) };

    ghost image = { λ f. image_of (disk_of f) };

    ghost clock = { λ f. clock_of (disk_of f) };

    ghost left = { λ f. IsLeftAt (disk_of f) };

    ghost failures = { failures_of };

    ghost content_is_image = { λ f. laws.content_image (disk_of f) };

    ghost image_is_left = { λ f. laws.image_left (disk_of f) };

    ghost left_is_image = { λ f. laws.left_image (disk_of f) };

    fn len(&mut self) -> Result<u64, DiskFault>
        ensures fuse { AnswersRead (next_turn self.old) result }
        ensures unchanged { disk_of self.new ≡ disk_of self.old }
        ensures spent { Spends self.old self.new }
        ensures counted { CountsFailure result (failures_of self.old) (failures_of self.new) }
        ensures length { IfOk result (λ n. n ≡ length (content_of (disk_of self.old))) }
    {
        let outcome = match take_turn(self.fuse, &mut self.calls) {
            Turn::Make => self.disk.len(),
            Turn::Skip | Turn::MakeAndFail | Turn::Tear(_) => Err(DiskFault),
        };
        count(outcome, &mut self.failures)
    }

    fn read(&mut self, at: u64, into: &mut [u8]) -> Result<(), DiskFault>
        requires { at + length into.old ≤ length (content_of (disk_of self.old)) }
        ensures fuse { AnswersRead (next_turn self.old) result }
        ensures unchanged { disk_of self.new ≡ disk_of self.old }
        ensures spent { Spends self.old self.new }
        ensures counted { CountsFailure result (failures_of self.old) (failures_of self.new) }
        ensures bytes { OnOk result
            (into.new ≡ bytes_at at (length into.old) (content_of (disk_of self.old))) }
    {
        let outcome = match take_turn(self.fuse, &mut self.calls) {
            Turn::Make => self.disk.read(at, into),
            Turn::Skip | Turn::Tear(_) => Err(DiskFault),
            Turn::MakeAndFail => {
                let _ = self.disk.read(at, into);
                Err(DiskFault)
            }
        };
        count(outcome, &mut self.failures)
    }

    fn write_at(&mut self, at: u64, bytes: &[u8]) -> Result<(), DiskFault>
        ensures fuse { Answers (next_turn self.old) (write_of at bytes.now) result
            (disk_of self.old) (disk_of self.new) }
        ensures spent { Spends self.old self.new }

        // What follows, in the words of the trait.
        ensures counted { CountsFailure result (failures_of self.old) (failures_of self.new) }
        ensures writes { IsWritten at bytes.now result (disk_of self.old) (disk_of self.new) }
    {
        self.make_write(at, bytes)
    }

    fn sync(&mut self) -> Result<(), DiskFault>
        ensures fuse { Answers (next_turn self.old) sync result
            (disk_of self.old) (disk_of self.new) }
        ensures spent { Spends self.old self.new }

        // What follows, in the words of the trait.
        ensures counted { CountsFailure result (failures_of self.old) (failures_of self.new) }
        ensures syncs { IsSynced result (disk_of self.old) (disk_of self.new) }
    {
        self.make_sync()
    }
}

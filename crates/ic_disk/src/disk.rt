//! A disk as its callers see it: what reads give, and what a crash may leave.

ghost use Rattle.std.specs.Prelude.{◌≡◌, ◌+◌, ◌-◌, ◌^◌, ◌≤◌, ℕ, Bool, List, length, min, is_ok, IsTrue, Some, codes, IfOk, OnOk, OnErr};
ghost use Rattle.ic_disk.specs.DiskCalls.{ChangesNothing, IsDiskSync, IsDiskWrite, ReadsBytes, TellsLength};
ghost use Rattle.ic_disk.specs.Time.{CountsFailure, LeftSince, OneCallAtMost, one_call_more};

use std::error::Error;
use std::fmt;

/// A call to the disk has failed. What it may have changed is said at the call.
#[derive(Clone, Copy, Debug, PartialEq, Eq)]
pub struct DiskFault;

impl fmt::Display for DiskFault {
    ghost output = { λ _. Some (codes "a call to the disk has failed") };

    fn fmt<W: fmt::Write>(&self, f: &mut fmt::Formatter<W>) -> fmt::Result {
        f.write_str("a call to the disk has failed")
    }
}

impl Error for DiskFault {}

/// A list of bytes that is read and written at places, and what a crash may leave of it. The
/// clauses on content, images and time are claimed of a disk that keeps the model.
pub trait Disk {
    /// Whether the disk keeps the model.
    ghost keeps: { Self → Bool };

    /// What reads give.
    ghost content: { Self → List ℕ };

    /// What a crash at this moment may leave.
    ghost image: { Self → List ℕ → Type 0 };

    /// How many calls there have been. One that changes nothing may be left out, and so may all
    /// that come once the count is at its end.
    ghost clock: { Self → ℕ };

    /// What a crash at this time of the clock may have left, between two calls or in the midst of
    /// one.
    ghost left: { Self → ℕ → List ℕ → Type 0 };

    /// How many calls have failed, up to 2^64 - 1.
    ghost failures: { Self → ℕ };

    /// How many bytes the disk has.
    fn len(&mut self) -> Result<u64, DiskFault>
        ensures keeps { keeps self.new ≡ keeps self.old }
        ensures counted { CountsFailure result (failures self.old) (failures self.new) }
        ensures one_call { OneCallAtMost (clock self.old) (clock self.new) }

        ensures length { IsTrue (keeps self.old) → TellsLength (content self.old) result }
        ensures unchanged { IsTrue (keeps self.old)
            → ChangesNothing content image clock left self.old self.new };

    /// Reads the bytes from `at` on until `into` is full. At `Err` it may hold any bytes.
    fn read(&mut self, at: u64, into: &mut [u8]) -> Result<(), DiskFault>
        requires { IsTrue (keeps self.old) → at + length into.old ≤ length (content self.old) }

        ensures keeps { keeps self.new ≡ keeps self.old }
        ensures counted { CountsFailure result (failures self.old) (failures self.new) }
        ensures one_call { OneCallAtMost (clock self.old) (clock self.new) }

        ensures bytes { IsTrue (keeps self.old)
            → ReadsBytes at (content self.old) result into.old into.new }
        ensures unchanged { IsTrue (keeps self.old)
            → ChangesNothing content image clock left self.old self.new };

    /// Writes these bytes at `at`, with zeros in between where the disk was shorter. Until a sync
    /// a crash may leave any bytes in the range and past the end.
    fn write_at(&mut self, at: u64, bytes: &[u8]) -> Result<(), DiskFault>
        ensures keeps { keeps self.new ≡ keeps self.old }
        ensures counted { CountsFailure result (failures self.old) (failures self.new) }
        ensures one_call { OneCallAtMost (clock self.old) (clock self.new) }

        ensures writes { IsTrue (keeps self.old) → IsDiskWrite content image clock left
            at bytes.now result self.old self.new };

    /// Waits until all that was written is on the disk for good.
    fn sync(&mut self) -> Result<(), DiskFault>
        ensures keeps { keeps self.new ≡ keeps self.old }
        ensures counted { CountsFailure result (failures self.old) (failures self.new) }
        ensures one_call { OneCallAtMost (clock self.old) (clock self.new) }

        ensures syncs { IsTrue (keeps self.old) → IsDiskSync content image clock left
            result self.old self.new };

    /// A crash may leave all that was written.
    ghost content_is_image: { (disk : Self) → image disk (content disk) };

    /// This moment is one of those since an earlier time.
    ghost image_is_left: { (disk : Self) (t : ℕ) (file : List ℕ)
        → t ≤ clock disk → image disk file → LeftSince (left disk) t file };

    /// Since this time there is no other moment.
    ghost left_is_image: { (disk : Self) (file : List ℕ)
        → LeftSince (left disk) (clock disk) file → image disk file };
}

// Counts a call that failed.
pub(crate) fn count<T, E: Drop>(outcome: Result<T, E>, failures: &mut u64) -> Result<T, DiskFault>
    ensures ok { IfOk result (λ value. outcome ≡ Ok value) }
    ensures variant { is_ok result ≡ is_ok outcome }
    ensures counted { CountsFailure result failures.old failures.new }
    ensures stays { OnOk result (failures.new ≡ failures.old) }
    ensures rises { OnErr result (failures.new ≡ min (failures.old + 1) (2 ^ 64 - 1)) }
{
    match outcome {
        Ok(value) => Ok(value),
        Err(_) => {
            *failures = failures.saturating_add(1);
            Err(DiskFault)
        }
    }
}

// Counts a call.
pub(crate) fn count_call(calls: &mut u64)
    ensures { calls.new ≡ one_call_more calls.old }
{
    *calls = calls.saturating_add(1);
}

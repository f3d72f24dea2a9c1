//! The disk: bytes that are read and written at places, and what a crash may leave of them.
//!
//! `Disk` is what the crates above build on, by its clauses alone: what each call does to the
//! content and to what a crash may leave, in the midst of a call too, and that failures are
//! counted.
//!
//! A `FileDisk` runs the same calls on a file and claims nothing of its bytes. A `MemDisk` keeps
//! the model, and a test crashes it as it likes; a `FuseDisk` is one of which some call fails.
//! `laws` has what any disk that keeps the model is good for.
#![tactic(auto)]

mod bytes;
mod disk;
mod file;
mod fuse;
pub mod laws;
mod mem;
mod noted;

pub use disk::{Disk, DiskFault};
pub use file::{DiskFile, FileDisk, open_plain};
pub use fuse::{Blow, FuseDisk, Then};
pub use mem::{Choice, MemDisk};

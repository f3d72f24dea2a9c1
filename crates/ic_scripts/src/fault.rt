//! Why scripts aren't attended to, or not in full.

ghost use Rattle.std.specs.Prelude.{◌≡◌};
ghost use Rattle.ic_book.specs.Book.{disk_of};
ghost use Rattle.ic_scripts.specs.inner.Without.{disk_left, fault_of_attendance};

use ic_attend::{AttendFault, Attended};
use ic_book::{BookFault, OpenCause};
use ic_disk::Disk;
use ic_frames::OpenFault;
use ic_lines::ScriptFault;
use ic_pool::PoolFault;
use std::alloc::{AllocError, AllocFailed};

/// Why scripts aren't attended to, or not in full.
#[derive(Clone, Copy, PartialEq, Eq)]
pub enum ScriptsFault {
    /// A file can't be read.
    Read,
    /// The script of this place, from 0, is refused.
    Script(usize, ScriptFault),
    /// The disk isn't opened.
    Open(OpenCause),
    /// A thread could not be started.
    NoThread,
    /// The history is not the one that the threads were answered.
    Torn,
    /// A client or a runner was refused by the book, or the last keep was.
    Book(BookFault),
    /// A runner could not make a round.
    Pool(PoolFault),
    /// A growth was refused.
    Memory,
    /// The answers can't be written.
    Write,
}

impl From<AllocError> for ScriptsFault {
    ghost use Rattle.ic_scripts.specs.declared.fault.ScriptsFault.TheVariants.{Memory};

    ghost from_gives = { λ _ e. e ≡ Memory };

    fn from(_error: AllocError) -> ScriptsFault {
        ScriptsFault::Memory
    }
}

impl<T: Drop> From<AllocFailed<T>> for ScriptsFault {
    ghost use Rattle.ic_scripts.specs.declared.fault.ScriptsFault.TheVariants.{Memory};

    ghost from_gives = { λ _ e. e ≡ Memory };

    fn from(_failed: AllocFailed<T>) -> ScriptsFault {
        ScriptsFault::Memory
    }
}

/// The disk that an attendance without a history leaves, and its fault. A book is closed as it is.
pub(crate) fn without_history<D: Disk>(fault: AttendFault<D>) -> (D, ScriptsFault)
    ensures disk { result.0 ≡ disk_left fault }
    ensures cause { result.1 ≡ fault_of_attendance fault }
{
    match fault {
        AttendFault::Open(OpenFault { disk, cause }) => (disk, ScriptsFault::Open(cause)),
        AttendFault::NoThread(attended) => (close(attended), ScriptsFault::NoThread),
        AttendFault::Memory(book) => (book.close(), ScriptsFault::Memory),
        AttendFault::Torn(attended) => (close(attended), ScriptsFault::Torn),
    }
}

/// Closes the book that was attended to, as it is.
fn close<D: Disk>(attended: Attended<D>) -> D
    ensures { result ≡ disk_of attended.book }
{
    attended.book.close()
}

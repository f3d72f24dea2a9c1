//! Why an attendance gives no history.

use crate::attended::Attended;
use ic_book::{Book, OpenFault};
use ic_disk::Disk;

/// Why an attendance gives no history.
#[derive(Drop)]
pub enum AttendFault<D: Disk> {
    /// The disk could not be opened.
    Open(OpenFault<D>),
    /// A thread could not be started. Those that were started were told to stop and joined. A client
    /// without an end, and an idle runner, may have been stopped or not started.
    NoThread(Attended<D>),
    /// A growth was refused before any thread was started.
    Memory(Book<D>),
    /// The history is not the one that the threads were answered, or a refusal isn't true of the book,
    /// or the book began with another table than the one that was opened.
    Torn(Attended<D>),
}

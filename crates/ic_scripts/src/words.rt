//! The words for why a call on a book was refused.

ghost use Rattle.std.specs.Prelude.{◌≡◌};
ghost use Rattle.ic_scripts.specs.Telling.{book_word};

use ic_book::BookFault;

/// The words that tell why a call on a book was refused.
pub fn book_word(fault: BookFault) -> &'static [u8]
    ensures { result.now ≡ book_word fault }
{
    match fault {
        BookFault::Broken => b"broken",
        BookFault::LogFull => b"log full",
        BookFault::Worn => b"worn",
        BookFault::Memory => b"memory",
        BookFault::Device => b"device",
    }
}

//! Why a text is refused.

ghost use Rattle.std.specs.Prelude.{◌≡◌};
ghost use Rattle.ic_text.specs.declared.fault.TextFault.TheVariants.{Memory};

use std::alloc::{AllocError, AllocFailed};

/// Why a text is refused, in the order in which it is tried, except that a text too long is `Limit` before it
/// is `Syntax`. An index counts the rules of the text from 0.
#[derive(Clone, Copy, PartialEq, Eq)]
pub enum TextFault {
    /// The tokens are no phrase of the grammar.
    Syntax,
    /// A limit is passed.
    Limit,
    /// A symbol occurs with two arities.
    Arity,
    /// The first rule with a name that doesn't occur exactly twice in it.
    NameCount(u32),
    /// The first name of the configuration to occur a third time.
    Name(u64),
    /// The first rule whose unordered pair of symbols an earlier rule has.
    Twice(u32),
    /// The first rule of a symbol with itself that isn't its own swap.
    Lopsided(u32),
    /// A growth was refused.
    Memory,
}

impl TextFault {
    ghost use Rattle.ic_text.specs.FaultNumber.{fault_number};

    /// The lasting number of the refusal.
    pub fn number(self) -> u8
        ensures { result ≡ fault_number self }
    {
        match self {
            TextFault::Syntax => 1,
            TextFault::Limit => 2,
            TextFault::Arity => 3,
            TextFault::NameCount(_) => 4,
            TextFault::Name(_) => 5,
            TextFault::Twice(_) => 6,
            TextFault::Lopsided(_) => 7,
            TextFault::Memory => 8,
        }
    }
}

impl From<AllocError> for TextFault {
    ghost from_gives = { λ _ e. e ≡ Memory };

    fn from(_error: AllocError) -> TextFault {
        TextFault::Memory
    }
}

impl<T: Drop> From<AllocFailed<T>> for TextFault {
    ghost from_gives = { λ _ e. e ≡ Memory };

    fn from(_failed: AllocFailed<T>) -> TextFault {
        TextFault::Memory
    }
}

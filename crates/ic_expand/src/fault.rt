//! Why a text isn't expanded.

ghost use Rattle.std.specs.Prelude.{◌≡◌};
ghost use Rattle.ic_expand.specs.declared.fault.ExpandFault.TheVariants.{Memory};

use std::alloc::{AllocError, AllocFailed};

/// Why a text is refused.
#[derive(Clone, Copy, PartialEq, Eq)]
pub enum Reason {
    /// It has too many bytes.
    TextBytes,
    /// It begins neither with `{` nor with `<`.
    NoText,
    /// After `copy` or `erase` no symbol stands.
    NotSymbol,
    /// After `copy` or `erase` a symbol stands that no term of the text has.
    NoSymbol,
    /// The symbol after `copy` has not two, but so many arguments where it stands first.
    NoCopier(usize),
    /// The symbol after `erase` has so many arguments where it stands first, and not none.
    NoEraser(usize),
    /// An earlier `copy` or `erase` has the symbol.
    Again,
    /// Each rule for which this `copy` or `erase` would stand is given, or an earlier one stands for it.
    NoRules,
    /// After the symbol of a `copy` or an `erase` neither `;` nor `}` stands.
    NoEnd,
}

/// Why a text isn't expanded.
#[derive(Clone, Copy)]
pub enum ExpandFault {
    /// It is refused, at this place of the text without its comments.
    Refused(Reason, usize),
    /// A growth was refused.
    Memory,
}

impl From<AllocError> for ExpandFault {
    ghost from_gives = { λ _ e. e ≡ Memory };

    fn from(_error: AllocError) -> ExpandFault {
        ExpandFault::Memory
    }
}

impl<T: Drop> From<AllocFailed<T>> for ExpandFault {
    ghost from_gives = { λ _ e. e ≡ Memory };

    fn from(_failed: AllocFailed<T>) -> ExpandFault {
        ExpandFault::Memory
    }
}

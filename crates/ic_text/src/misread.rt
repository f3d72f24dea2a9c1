//! A refusal of a text, and its place.

ghost use Rattle.std.specs.Prelude.{◌≡◌, None};
ghost use Rattle.ic_text.specs.declared.fault.TextFault.TheVariants.{Memory};
ghost use Rattle.ic_text.specs.declared.misread.Detail.TheVariants.{Nothing};

use crate::fault::TextFault;
use std::alloc::AllocError;

/// A limit that a text may pass.
#[derive(Clone, Copy, PartialEq, Eq)]
pub enum Limit {
    /// Bytes of the text.
    TextBytes,
    /// Bytes of a symbol.
    SymbolBytes,
    /// Arguments of a symbol.
    Arguments,
    /// The number of a name.
    NameNumber,
    /// Symbols of different texts.
    Symbols,
    /// Rules.
    Rules,
    /// Nodes in the arguments of all rules where they are served, and otherwise of one rule.
    RuleNodes,
    /// Terms of the interface.
    Interface,
    /// Nodes of the configuration.
    Nodes,
}

/// What more is known of a refusal.
#[derive(Clone, Copy, PartialEq, Eq)]
pub enum Detail {
    Nothing,
    /// The limit that is passed.
    Passed(Limit),
    /// How many arguments a symbol has where it is used first, and how many at the place.
    Arities(usize, usize),
}

/// Why a text is refused, and where.
#[derive(Clone, Copy, PartialEq, Eq)]
pub struct Misread {
    pub fault: TextFault,
    /// How many bytes of the text stand before the fault, if that is told.
    pub place: Option<usize>,
    pub detail: Detail,
}

impl From<Misread> for TextFault {
    ghost from_gives = { λ misread fault. fault ≡ misread.fault };

    fn from(misread: Misread) -> TextFault {
        misread.fault
    }
}

impl From<AllocError> for Misread {
    ghost from_gives = { λ _ misread.
        misread ≡ record { fault = Memory; place = None; detail = Nothing } };

    fn from(_error: AllocError) -> Misread {
        Misread {
            fault: TextFault::Memory,
            place: None,
            detail: Detail::Nothing,
        }
    }
}

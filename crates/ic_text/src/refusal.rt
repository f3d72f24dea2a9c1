//! A refusal of what is written, and at which of its words.

ghost use Rattle.std.specs.Prelude.{◌≡◌, ◌≤◌, IfSome, length};
ghost use Rattle.ic_text.specs.declared.fault.TextFault.TheVariants.{Memory};

use crate::fault::TextFault;
use crate::misread::{Detail, Limit, Misread};
use crate::place::word_place;
use std::alloc::{AllocError, AllocFailed};

/// Why what is written is refused.
#[derive(Clone, Copy)]
pub(crate) struct Refusal {
    pub fault: TextFault,
    /// How many words stand before the one at which it is found, if that is told.
    pub word: Option<usize>,
    pub detail: Detail,
}

impl Refusal {
    /// A refusal of which no word is told.
    pub(crate) fn untold(fault: TextFault) -> Refusal
        ensures { result.fault ≡ fault }
    {
        Refusal {
            fault,
            word: None,
            detail: Detail::Nothing,
        }
    }

    /// A refusal that is found at this word.
    pub(crate) fn at(fault: TextFault, word: usize) -> Refusal
        ensures { result.fault ≡ fault }
    {
        Refusal {
            fault,
            word: Some(word),
            detail: Detail::Nothing,
        }
    }

    /// A limit that is passed at this word.
    pub(crate) fn passed(word: usize, limit: Limit) -> Refusal
        ensures { result.fault ≡ TextFault.Limit }
    {
        Refusal {
            fault: TextFault::Limit,
            word: Some(word),
            detail: Detail::Passed(limit),
        }
    }

    /// A symbol that has another arity at this word than at its first use.
    pub(crate) fn two_arities(word: usize, before: usize, here: usize) -> Refusal
        ensures { result.fault ≡ TextFault.Arity }
    {
        Refusal {
            fault: TextFault::Arity,
            word: Some(word),
            detail: Detail::Arities(before, here),
        }
    }

    /// The refusal with its place in the text.
    pub(crate) fn in_text(self, text: &[u8]) -> Misread
        ensures fault { result.fault ≡ self.fault }
        ensures placed { IfSome result.place (λ at. at ≤ length text.now) }
    {
        match self.word {
            Some(word) => Misread {
                fault: self.fault,
                place: Some(word_place(text, word)),
                detail: self.detail,
            },
            None => Misread {
                fault: self.fault,
                place: None,
                detail: self.detail,
            },
        }
    }
}

impl From<AllocError> for Refusal {
    ghost from_gives = { λ _ refusal. refusal.fault ≡ Memory };

    fn from(_error: AllocError) -> Refusal {
        Refusal::untold(TextFault::Memory)
    }
}

impl<T: Drop> From<AllocFailed<T>> for Refusal {
    ghost from_gives = { λ _ refusal. refusal.fault ≡ Memory };

    fn from(_failed: AllocFailed<T>) -> Refusal {
        Refusal::untold(TextFault::Memory)
    }
}

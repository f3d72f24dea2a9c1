//! Why a text isn't unfolded.

use crate::written::Written;
use std::alloc::{AllocError, AllocFailed};

/// What is amiss at a place.
#[derive(Clone, Copy)]
pub enum Reason {
    /// A rule by an arrow, or a term, isn't written so.
    Rule(RuleReason),
    /// The names or equations of a rule by an arrow lead to no plain rule.
    Wire(WireReason),
    /// Rules with patterns can't be split.
    Nest(NestReason),
    /// A number, a list, a pair or their declaration isn't written so.
    Shorthand(ShorthandReason),
    /// A `let` isn't written so, or names what it may not.
    Let(LetReason),
    /// A file can't be used.
    Use(UseReason),
    /// It is written as in Inpla.
    Foreign(ForeignReason),
    /// What is written has too many bytes.
    TooLong,
}

/// What is amiss in the form of a rule by an arrow, or of a term.
#[derive(Clone, Copy)]
pub enum RuleReason {
    /// No side of a rule by an arrow stands here: a symbol, maybe with names in parentheses.
    NoSide,
    /// An argument of such a side is no name.
    NoName,
    /// After the first side `><` is looked for.
    NoMeeting,
    /// After the second side `=>` is looked for.
    NoArrow,
    /// A term is looked for.
    NoTerm,
    /// The sign between two terms is looked for.
    NoSign,
    /// Within a term `,` or a closing mark is looked for.
    NoClosing,
    /// After an equation `,` or the end of the rule is looked for.
    NoEnd,
}

/// What is amiss in the names and equations of a rule by an arrow.
#[derive(Clone, Copy)]
pub enum WireReason {
    /// A name stands twice on the left side.
    TwiceLeft,
    /// A name of the left side doesn't stand on the right.
    NotRight,
    /// A name of the left side stands on the right twice.
    TwiceRight,
    /// A name of the right side alone stands there once.
    OnceRight,
    /// A name of the right side alone stands there a third time.
    ThriceRight,
    /// Two agents meet on the right side.
    Meeting,
    /// An equation leads round to itself.
    Circle,
}

/// What is amiss in rules with patterns.
#[derive(Clone, Copy)]
pub enum NestReason {
    /// The patterns of a rule overlap those of another one, which begins at this place.
    Overlap(usize),
    /// Of two rules, of which the other one begins at this place, no argument may be looked at first.
    Unordered(usize),
    /// A symbol has another number of arguments in an earlier rule.
    Arity,
    /// An agent that waits would have too many arguments.
    Wide,
    /// A symbol meets itself.
    Itself,
}

/// What is amiss in a number, a list, a pair, or their declaration.
#[derive(Clone, Copy)]
pub enum ShorthandReason {
    /// A declaration needs a symbol.
    NoSymbol,
    /// After a declaration the end of the rule is looked for.
    NoEndOfRule,
    /// An earlier declaration is of the same sort.
    Again,
    /// No declaration says what a list stands for.
    NoList,
    /// No declaration says what a pair stands for.
    NoPair,
    /// A pair has two terms.
    NotTwo,
    /// A list is to be closed.
    NoListEnd,
    /// No list is open.
    NoListOpen,
    /// After `^` a number and `(` are looked for.
    NoPower,
}

/// What is amiss in a `let`.
#[derive(Clone, Copy)]
pub enum LetReason {
    /// After `let` a name is looked for.
    NoName,
    /// After its name `=` is looked for.
    NoSign,
    /// After its term another `let` or the configuration is looked for.
    NoEnd,
    /// A term by `let` has a name.
    NotClosed,
    /// An earlier `let` has the name.
    Again,
    /// Its term is too long.
    Long,
}

/// What is amiss in a `use`.
#[derive(Clone, Copy)]
pub enum UseReason {
    /// After `use` a path in quotes is looked for.
    NoPath,
    /// The file that is named can't be read.
    NoFile,
    /// Too many files are named.
    ManyFiles,
    /// The file that is named uses this one, too.
    Circle,
}

/// What is Inpla's own.
#[derive(Clone, Copy)]
pub enum ForeignReason {
    /// A number inside an agent, or what is reckoned with it.
    Number,
    /// A comment that begins with `//` or `/*`.
    Comment,
    /// `<<` or `>>`.
    Naming,
    /// `x:xs`.
    Colon,
    /// `use` outside of the braces of rules.
    Use,
    /// A net after the rules that is no configuration.
    Net,
}

impl Reason {
    /// The place of another rule that is told beside it.
    pub(crate) fn other(self) -> Option<usize> {
        match self {
            Reason::Nest(NestReason::Overlap(at) | NestReason::Unordered(at)) => Some(at),
            _ => None,
        }
    }

    /// The same, where the place of the other rule comes from that of a text that is written.
    pub(crate) fn moved(self, written: &Written) -> Reason {
        match self {
            Reason::Nest(NestReason::Overlap(at)) => {
                Reason::Nest(NestReason::Overlap(written.place_of(at)))
            }
            Reason::Nest(NestReason::Unordered(at)) => {
                Reason::Nest(NestReason::Unordered(written.place_of(at)))
            }
            other => other,
        }
    }

    /// Whether a limit is passed.
    pub fn is_limit(self) -> bool {
        matches!(self, Reason::TooLong | Reason::Let(LetReason::Long))
    }
}

/// Why a text isn't unfolded.
#[derive(Clone, Copy)]
pub enum RichFault {
    /// It is refused, at this place.
    Refused(Reason, usize),
    /// A growth was refused.
    Memory,
}

impl RuleReason {
    /// The refusal at a place.
    pub(crate) fn at(self, place: usize) -> RichFault {
        RichFault::Refused(Reason::Rule(self), place)
    }
}

impl WireReason {
    /// The refusal at a place.
    pub(crate) fn at(self, place: usize) -> RichFault {
        RichFault::Refused(Reason::Wire(self), place)
    }
}

impl NestReason {
    /// The refusal at a place.
    pub(crate) fn at(self, place: usize) -> RichFault {
        RichFault::Refused(Reason::Nest(self), place)
    }
}

impl ShorthandReason {
    /// The refusal at a place.
    pub(crate) fn at(self, place: usize) -> RichFault {
        RichFault::Refused(Reason::Shorthand(self), place)
    }
}

impl LetReason {
    /// The refusal at a place.
    pub(crate) fn at(self, place: usize) -> RichFault {
        RichFault::Refused(Reason::Let(self), place)
    }
}

impl From<AllocError> for RichFault {
    fn from(_error: AllocError) -> RichFault {
        RichFault::Memory
    }
}

impl<T: Drop> From<AllocFailed<T>> for RichFault {
    fn from(_failed: AllocFailed<T>) -> RichFault {
        RichFault::Memory
    }
}

//! Where in its rules a text is, piece by piece.

ghost use Rattle.std.specs.Prelude.{◌≡◌};
ghost use Rattle.ic_expand.specs.Spots.{after, after_first, after_other, opens_rule};

use crate::pieces::first_byte;
use ic_text::is_blank;

/// What a generic rule makes of its symbol.
#[derive(Clone, Copy, PartialEq, Eq)]
pub enum Kind {
    /// It copies what it meets.
    Copier,
    /// It erases what it meets.
    Eraser,
}

/// Where in its rules a text is.
#[derive(Clone, Copy, PartialEq, Eq)]
pub(crate) enum Spot {
    /// Within a rule, or in no rules.
    Elsewhere,
    /// After `{` or `;`, where a rule begins.
    Opening,
    /// After `copy` or `erase`, where its symbol stands.
    Asked(Kind),
    /// After that symbol.
    Given,
}

/// Whether a rule begins after this byte.
fn opens_rule(byte: u8) -> bool
    ensures { result ≡ opens_rule byte }
{
    byte == b'{' || byte == b';'
}

/// What follows the first word of a rule.
pub(crate) fn after_first(piece: &[u8]) -> Spot
    ensures { result ≡ after_first piece.now }
{
    if piece == b"copy".as_slice() {
        Spot::Asked(Kind::Copier)
    } else if piece == b"erase".as_slice() {
        Spot::Asked(Kind::Eraser)
    } else {
        Spot::Elsewhere
    }
}

impl Spot {
    /// What follows a piece that begins no rule.
    fn after_other(self, piece: &[u8]) -> Spot
        ensures { result ≡ after_other self piece.now }
    {
        match self {
            Spot::Opening => after_first(piece),
            Spot::Asked(_) => Spot::Given,
            Spot::Given | Spot::Elsewhere => Spot::Elsewhere,
        }
    }

    /// Where the text is after a piece.
    pub(crate) fn after(self, piece: &[u8]) -> Spot
        ensures { result ≡ after self piece.now }
    {
        let first = first_byte(piece);
        if is_blank(first) {
            self
        } else if opens_rule(first) {
            Spot::Opening
        } else {
            self.after_other(piece)
        }
    }
}

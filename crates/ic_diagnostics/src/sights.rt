//! What stands where a text doesn't go on.

use crate::stands::{Spot, Stand};
use crate::words::{
    after_word, are_blank, begins_as_name, first_byte, first_word, is_command, is_dashed,
    is_misnamed, is_spread, is_symbol, last_byte, last_word, trimmed,
};
use ic_text::is_word_byte;

/// What stands at a place of a text, as far as it tells what is amiss there.
#[derive(Clone, Copy, PartialEq, Eq)]
pub(crate) enum Sight {
    /// The end of a text of blanks alone.
    Blank,
    /// The end of any other text.
    End,
    /// At the front, the mark with which a system begins.
    SystemMark,
    /// At the front, the mark with which a configuration begins.
    ConfigMark,
    /// At the front, a word with which a command begins.
    CommandWord,
    /// What begins a comment in other languages.
    Comment,
    /// At the front, a byte order mark.
    OrderMark,
    /// Where a term may stand, a word that begins as a name does and isn't one; or a word that goes on with `_`, `'` or a
    /// byte past ASCII.
    NoName,
    /// Where a term may stand, a word that begins as a symbol does and has a `-`; or a symbol that goes on with `_`, `'` or
    /// a byte past ASCII.
    NoSymbol,
    /// Where one of the two symbols of a rule may stand, a word that begins with a small letter.
    Small,
    /// There, `copy` or `erase` before another word, as in texts for `expand`.
    Expanded,
    /// A word that begins with a small letter before `(`, or `(` after a name.
    Applied,
    /// `)` right after `(`.
    Empty,
    /// `}` after `;`.
    Ended,
    /// A mark with which a list ends, after a comma.
    Trailing,
    /// A comma after a rule.
    Listed,
    /// `=` after a term of the interface.
    Equated,
    /// `{` after the configuration.
    Late,
    /// Anything else, after a term in an agent's parentheses, and whether the term may have arguments.
    Argument(bool),
    /// Anything else, after a term that stands there, and whether the term may have arguments.
    After(Stand, bool),
    /// In a rule anything else, after `>`.
    Crossing,
    /// Anything else, after `><`.
    Crossed,
    /// At the front, anything else.
    Front,
    /// Further on anything else, after this byte, which is the last one before it that is no blank.
    AfterMark(u8),
}

/// Whether a comment begins with a text, as in other languages.
pub fn opens_comment(text: &[u8]) -> bool {
    text.starts_with(b"#".as_slice())
        || text.starts_with(b"//".as_slice())
        || text.starts_with(b"/*".as_slice())
        || text.starts_with(b"--".as_slice())
        || text.starts_with(b"(*".as_slice())
}

/// Whether a text begins with a byte order mark.
pub fn opens_order_mark(text: &[u8]) -> bool {
    text.starts_with(b"\xef\xbb\xbf".as_slice())
}

/// Whether a word at the end of a text goes on with a byte of no text, which it was mostly meant to have.
pub fn is_joined(front: &[u8], rest: &[u8]) -> bool {
    match (front.last(), rest.first()) {
        (Some(before), Some(here)) => is_word_byte(*before)
            && matches!(*here, b'_' | b'\'' | 128..),
        _ => false,
    }
}

/// Whether a text begins with a word for which `expand` writes rules, and goes on with another word.
fn opens_spread(text: &[u8]) -> bool {
    match first_byte(after_word(text)) {
        Some(byte) => is_word_byte(byte) && is_spread(first_word(text)),
        None => false,
    }
}

/// Whether a text begins with a word that begins as names do and is given arguments.
fn opens_applied(text: &[u8]) -> bool {
    begins_as_name(first_word(text)) && first_byte(after_word(text)) == Some(b'(')
}

/// A text at a place.
#[derive(Clone, Copy)]
struct Place<'t> {
    /// What stands before the place.
    front: &'t [u8],
    /// What stands from it on.
    rest: &'t [u8],
}

impl Place<'_> {
    /// Whether a term or an agent may come here.
    fn is_term_due(self) -> bool {
        matches!(
            last_byte(self.front),
            Some(b'{' | b'<' | b'|' | b'=' | b',' | b';' | b'(')
        )
    }

    /// Whether a word is to stand here that is no symbol, or a symbol goes on here.
    fn is_no_symbol(self) -> bool {
        (self.is_term_due() && is_dashed(first_word(self.rest)))
            || (is_joined(self.front, self.rest) && is_symbol(last_word(self.front)))
    }

    /// Whether a word begins with a small letter, where one of the two symbols of a rule may stand.
    fn is_small(self) -> bool {
        let spot = Spot::of(self.front);
        self.is_term_due()
            && (spot.is_at(Stand::First) || spot.is_at(Stand::Second))
            && begins_as_name(first_word(self.rest))
    }

    /// Whether a word that begins as names do is given arguments, where a term may stand or before this place.
    fn is_applied(self) -> bool {
        (self.is_term_due() && opens_applied(self.rest))
            || (self.rest.starts_with(b"(".as_slice())
                && begins_as_name(last_word(trimmed(self.front))))
    }

    /// Whether a word is to stand here, or goes on here, that is no name.
    fn is_no_name(self) -> bool {
        (self.is_term_due() && is_misnamed(first_word(self.rest)))
            || is_joined(self.front, self.rest)
    }

    /// What stands here, where it is at the front of a text.
    fn front_sight(self) -> Sight {
        match self.rest.first() {
            None => Sight::Front,
            Some(b'{') => Sight::SystemMark,
            Some(b'<') => Sight::ConfigMark,
            Some(_) if is_command(first_word(self.rest)) => Sight::CommandWord,
            Some(_) if opens_comment(self.rest) => Sight::Comment,
            Some(_) if opens_order_mark(self.rest) => Sight::OrderMark,
            Some(_) => Sight::Front,
        }
    }

    /// What stands here, where it is further on.
    fn inner_sight(self) -> Sight {
        if opens_comment(self.rest) {
            Sight::Comment
        } else if self.is_no_symbol() {
            Sight::NoSymbol
        } else if self.is_small() {
            if opens_spread(self.rest) {
                Sight::Expanded
            } else {
                Sight::Small
            }
        } else if self.is_applied() {
            Sight::Applied
        } else if self.is_no_name() {
            Sight::NoName
        } else {
            self.marked_sight()
        }
    }

    /// What stands here, where no word is amiss.
    fn marked_sight(self) -> Sight {
        let spot = Spot::of(self.front);
        let here = self.rest.first().copied().unwrap_or(0);
        match (last_byte(self.front), here) {
            (Some(b'('), b')') => Sight::Empty,
            (Some(b';'), b'}') => Sight::Ended,
            (Some(b','), b'>' | b'|' | b')') => Sight::Trailing,
            (Some(byte), _) if is_word_byte(byte) || byte == b')' => self.term_sight(spot, here),
            (Some(b'>'), b'{') if spot.stand == Stand::Over => Sight::Late,
            (Some(b'>'), _) if spot.stand == Stand::Second => Sight::Crossing,
            (Some(b'<'), _) if spot.stand == Stand::Second => Sight::Crossed,
            (Some(byte), _) => Sight::AfterMark(byte),
            (None, _) => Sight::Front,
        }
    }

    /// What stands here, after a term that stands at this spot.
    fn term_sight(self, spot: Spot, here: u8) -> Sight {
        let opens = is_symbol(last_word(trimmed(self.front)));
        if here == b',' && spot.is_at(Stand::Second) {
            Sight::Listed
        } else if here == b'=' && spot.is_at(Stand::Interface) {
            Sight::Equated
        } else if spot.depth == 0 {
            Sight::After(spot.stand, opens)
        } else {
            Sight::Argument(opens)
        }
    }
}

/// What stands at a place of a text.
pub(crate) fn sight_at(text: &[u8], at: usize) -> Sight {
    let (front, rest) = text.split_at(at.min(text.len()));
    let place = Place { front, rest };
    match (are_blank(front), rest.is_empty()) {
        (true, true) => Sight::Blank,
        (false, true) => Sight::End,
        (true, false) => place.front_sight(),
        (false, false) => place.inner_sight(),
    }
}

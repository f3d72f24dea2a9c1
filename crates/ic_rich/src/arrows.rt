//! Rules by arrows, written as rules of the calculus.

use crate::fault::RichFault;
use crate::reader::Reader;
use crate::spans::{Equation, Side, Span};
use crate::tokens::{Kind, Token, joins, tokens_of};
use crate::wires::{End, Wires};
use crate::written::Written;
use std::alloc::Global;

/// What the tokens of a rule by an arrow spell.
#[derive(Drop)]
struct Form {
    sides: [Side; 2],
    /// The place of the arrow.
    arrow: usize,
    equations: Vec<Equation>,
}

/// A rule by an arrow.
#[derive(Drop)]
pub(crate) struct Arrow<'t> {
    tokens: Vec<Token<'t>>,
    form: Form,
}

/// A side as it is written: its symbol, the place from which that comes, and the names that are its arguments.
#[derive(Clone, Copy)]
pub(crate) struct Head<'s> {
    pub(crate) symbol: &'s [u8],
    pub(crate) at: usize,
    pub(crate) args: &'s [Span],
}

/// Whether a part of a text has an arrow.
pub(crate) fn has_arrow(part: &[u8]) -> bool {
    let mut before = 0u8;
    for byte in part {
        if before == b'=' && *byte == b'>' {
            return true;
        }
        before = *byte;
    }
    false
}

/// Whether a side of a rule by an arrow has a pattern: a symbol within parentheses.
pub(crate) fn has_pattern(part: &[u8]) -> bool {
    let (mut depth, mut before) = (0u64, 0u8);
    for byte in part {
        match *byte {
            b'>' if before == b'=' => return false,
            b'(' => depth = depth.saturating_add(1),
            b')' => depth = depth.saturating_sub(1),
            b'A'..=b'Z' | b'0'..=b'9' if depth > 0 && !joins(before) => return true,
            _ => {}
        }
        before = *byte;
    }
    false
}

impl Form {
    /// What these tokens spell, where the rule ends at a place.
    fn read(alloc: Global, tokens: &[Token], end: usize) -> Result<Form, RichFault> {
        let mut reader = Reader::new(tokens, end);
        let left = reader.side(alloc)?;
        reader.meeting()?;
        let right = reader.side(alloc)?;
        let arrow = reader.arrow()?;
        let equations = reader.equations(alloc)?;
        Ok(Form {
            sides: [left, right],
            arrow,
            equations,
        })
    }
}

impl<'t> Arrow<'t> {
    /// The rule that a part of a text spells, which begins at a place.
    pub(crate) fn read(alloc: Global, part: &'t [u8], from: usize) -> Result<Arrow<'t>, RichFault> {
        let tokens = tokens_of(alloc, part, from)?;
        let form = Form::read(alloc, &tokens, from.saturating_add(part.len()))?;
        Ok(Arrow { tokens, form })
    }

    /// Its tokens.
    pub(crate) fn tokens(&self) -> &[Token<'t>] {
        &self.tokens
    }

    /// Its sides, as they are written.
    pub(crate) fn sides(&self) -> [&Side; 2] {
        let [left, right] = &self.form.sides;
        [left, right]
    }

    /// The text of the token at a place, and where it stands.
    fn token_at(&self, place: usize) -> (&'t [u8], usize) {
        match self.tokens.get(place) {
            Some(token) => (token.text, token.at),
            None => (b"".as_slice(), 0),
        }
    }

    /// A side as it stands.
    fn head_of<'s>(&'s self, side: &'s Side) -> Head<'s> {
        let (symbol, at) = self.token_at(side.symbol);
        Head {
            symbol,
            at,
            args: &side.args,
        }
    }

    /// Both sides as they stand.
    pub(crate) fn heads(&self) -> [Head<'_>; 2] {
        let [left, right] = &self.form.sides;
        [self.head_of(left), self.head_of(right)]
    }

    /// Writes the token at a place.
    fn put_token(&self, place: usize, written: &mut Written) -> Result<(), RichFault> {
        let (text, at) = self.token_at(place);
        written.put(text, at)
    }

    /// Whether the token at a place is a name.
    fn is_name(&self, place: usize) -> bool {
        match self.tokens.get(place) {
            Some(token) => token.kind == Kind::Name,
            None => false,
        }
    }

    /// Writes a term, with what its wires lead to in the place of its names.
    fn put_term(
        &self,
        alloc: Global,
        wires: &mut Wires,
        term: Span,
        written: &mut Written,
    ) -> Result<(), RichFault> {
        let mut waiting = vec![in alloc; term]?;
        for _ in 0..u64::MAX {
            let Some(span) = waiting.pop() else {
                break;
            };
            if span.from < span.to {
                waiting.push(Span {
                    from: span.from + 1,
                    to: span.to,
                })?;
                if let Some(inner) = self.put_next(wires, span.from, written)? {
                    waiting.push(inner)?;
                }
            }
        }
        Ok(())
    }

    /// Writes a token, or answers the term to which the wire of its name leads.
    fn put_next(
        &self,
        wires: &mut Wires,
        place: usize,
        written: &mut Written,
    ) -> Result<Option<Span>, RichFault> {
        if !self.is_name(place) {
            self.put_token(place, written)?;
            return Ok(None);
        }
        match wires.follow(&self.tokens, place) {
            End::Term(term) => Ok(Some(term)),
            End::Name(end) => {
                self.put_token(place.min(end), written)?;
                Ok(None)
            }
        }
    }

    /// Writes a side, with what its wires lead to in the place of its names.
    fn put_head(
        &self,
        alloc: Global,
        wires: &mut Wires,
        head: Head,
        written: &mut Written,
    ) -> Result<(), RichFault> {
        written.put_made(head.symbol, head.at)?;
        let mut mark = b"(".as_slice();
        for arg in head.args {
            written.put_made(mark, head.at)?;
            self.put_term(alloc, wires, *arg, written)?;
            mark = b",".as_slice();
        }
        if head.args.is_empty() {
            return Ok(());
        }
        written.put_made(b")".as_slice(), head.at)
    }

    /// Writes the rule of the calculus for which it stands, with these sides.
    pub(crate) fn put(
        &self,
        alloc: Global,
        heads: [Head; 2],
        written: &mut Written,
    ) -> Result<(), RichFault> {
        let (tokens, equations) = (&self.tokens, &self.form.equations);
        let mut wires = Wires::new(alloc, tokens, self.form.arrow, equations)?;
        let [left, right] = heads;
        self.put_head(alloc, &mut wires, left, written)?;
        written.put_made(b"><".as_slice(), right.at)?;
        self.put_head(alloc, &mut wires, right, written)?;
        wires.refused_rest(tokens, equations)
    }
}

/// Writes the ends of the lines of a part of a text that begins at a place.
pub(crate) fn put_line_ends(
    part: &[u8],
    from: usize,
    written: &mut Written,
) -> Result<(), RichFault> {
    for (place, byte) in part.iter().enumerate() {
        if *byte == b'\n' {
            written.put(b"\n".as_slice(), from.saturating_add(place))?;
        }
    }
    Ok(())
}

/// Writes the rule of the calculus for which a part of a text stands that begins at a place. The ends of its lines follow.
pub(crate) fn put_rule(
    alloc: Global,
    part: &[u8],
    from: usize,
    written: &mut Written,
) -> Result<(), RichFault> {
    let rule = Arrow::read(alloc, part, from)?;
    rule.put(alloc, rule.heads(), written)?;
    put_line_ends(part, from, written)
}

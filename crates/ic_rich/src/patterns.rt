//! The patterns of a rule by an arrow: the terms that stand left of it.

use crate::arrows::Arrow;
use crate::spans::{Side, Span};
use crate::tokens::{Kind, Token};
use std::alloc::{AllocError, Global};

/// A rule by an arrow whose sides may have patterns.
#[derive(Drop)]
pub(crate) struct Pattern<'t> {
    pub(crate) rule: Arrow<'t>,
    /// For each token that opens arguments the place after the one that closes them.
    closes: Vec<usize>,
    /// Whether its sides stand the other way round than those of the first rule of its symbols.
    is_turned: bool,
}

/// Notes that the arguments that a token opens are closed by one at a place.
fn note_close(closes: &mut [usize], from: usize, place: usize) {
    if let Some(close) = closes.get_mut(from) {
        *close = place.saturating_add(1);
    }
}

/// For each token that opens arguments the place after the one that closes them.
fn closes_of(alloc: Global, tokens: &[Token]) -> Result<Vec<usize>, AllocError> {
    let mut closes = vec![in alloc; 0usize; tokens.len()]?;
    let mut open: Vec<usize> = Vec::new(alloc);
    for (place, token) in tokens.iter().enumerate() {
        if token.kind == Kind::Mark(b'(') {
            open.push(place)?;
        } else if token.kind == Kind::Mark(b')') {
            if let Some(from) = open.pop() {
                note_close(&mut closes, from, place);
            }
        }
    }
    Ok(closes)
}

impl<'t> Pattern<'t> {
    pub(crate) fn new(alloc: Global, rule: Arrow<'t>) -> Result<Pattern<'t>, AllocError> {
        let closes = closes_of(alloc, rule.tokens())?;
        Ok(Pattern {
            rule,
            closes,
            is_turned: false,
        })
    }

    /// Turns its sides if this symbol isn't that of the left one.
    pub(crate) fn turn(&mut self, left: &[u8]) {
        let [side, _] = self.rule.sides();
        self.is_turned = self.text(side.symbol) != left;
    }

    /// Its sides, in the order of the first rule of its symbols.
    pub(crate) fn sides(&self) -> [&Side; 2] {
        let [left, right] = self.rule.sides();
        if self.is_turned {
            [right, left]
        } else {
            [left, right]
        }
    }

    /// The text of the token at a place.
    pub(crate) fn text(&self, place: usize) -> &'t [u8] {
        match self.rule.tokens().get(place) {
            Some(token) => token.text,
            None => b"".as_slice(),
        }
    }

    /// Where a token stands in the text.
    pub(crate) fn place_of(&self, place: usize) -> usize {
        match self.rule.tokens().get(place) {
            Some(token) => token.at,
            None => 0,
        }
    }

    /// Where the rule begins in the text.
    pub(crate) fn at(&self) -> usize {
        self.place_of(0)
    }

    /// Whether a term is a name.
    pub(crate) fn is_name(&self, term: Span) -> bool {
        match self.rule.tokens().get(term.from) {
            Some(token) => token.kind == Kind::Name,
            None => true,
        }
    }

    /// Where the term ends that begins at a place.
    fn end_of(&self, place: usize) -> usize {
        let next = place.saturating_add(1);
        match self.closes.get(next) {
            Some(close) if *close > next => *close,
            _ => next,
        }
    }

    /// The arguments of a term.
    pub(crate) fn args_of(&self, alloc: Global, term: Span) -> Result<Vec<Span>, AllocError> {
        let mut args = Vec::new(alloc);
        let end = self.end_of(term.from);
        let mut from = term.from.saturating_add(2);
        for _ in term.from..end {
            if from >= end {
                break;
            }
            let to = self.end_of(from);
            args.push(Span { from, to })?;
            from = to.saturating_add(1);
        }
        Ok(args)
    }

    /// What stands left of the arrow, with a symbol in the place of the term that begins at a place.
    pub(crate) fn sides_with(
        &self,
        alloc: Global,
        place: usize,
        symbol: &[u8],
    ) -> Result<Vec<u8>, AllocError> {
        let mut out = Vec::new(alloc);
        let end = self.end_of(place);
        for (next, token) in self.rule.tokens().iter().enumerate() {
            if token.kind == Kind::Arrow {
                break;
            }
            if next == place {
                out.extend_from_slice(symbol)?;
            } else if next < place || next >= end {
                out.extend_from_slice(token.text)?;
            }
        }
        Ok(out)
    }
}

/// Appends the terms that stand in the same places.
fn push_pairs(
    waiting: &mut Vec<(Span, Span)>,
    ones: &[Span],
    others: &[Span],
) -> Result<(), AllocError> {
    for (one, other) in ones.iter().zip(others.iter()) {
        waiting.push((*one, *other))?;
    }
    Ok(())
}

/// Whether some arguments are as two patterns say, each of which has these arguments.
pub(crate) fn overlap(
    alloc: Global,
    one: (&Pattern, &[Span]),
    other: (&Pattern, &[Span]),
) -> Result<bool, AllocError> {
    let mut waiting = Vec::new(alloc);
    push_pairs(&mut waiting, one.1, other.1)?;
    let (one, other) = (one.0, other.0);
    for _ in 0..u64::MAX {
        let Some((left, right)) = waiting.pop() else {
            break;
        };
        if !one.is_name(left) && !other.is_name(right) {
            if one.text(left.from) != other.text(right.from) {
                return Ok(false);
            }
            let ones = one.args_of(alloc, left)?;
            push_pairs(&mut waiting, &ones, &other.args_of(alloc, right)?)?;
        }
    }
    Ok(true)
}

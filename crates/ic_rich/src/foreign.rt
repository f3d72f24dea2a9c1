//! What Inpla writes and rich texts don't have: it is told as what it is.

use crate::fault::{ForeignReason, Reason, RichFault};
use crate::segments::{Segment, after_blanks};
use crate::signs::declares;
use crate::tokens::{Kind, Token, first_token, first_word};
use ic_text::is_blank;

/// Whether a token is a mark that follows right after another one.
fn follows(token: Option<&Token>, place: usize, marks: [u8; 2]) -> bool {
    match token {
        Some(token) if token.at == place.saturating_add(1) => {
            token.kind == Kind::Mark(marks[0]) || token.kind == Kind::Mark(marks[1])
        }
        _ => false,
    }
}

/// What of Inpla's a token is, by the one that follows it.
fn foreign_at(token: &Token, next: Option<&Token>) -> Option<ForeignReason> {
    match token.kind {
        Kind::Name if token.text == b"int".as_slice() => match next {
            Some(next) if next.kind == Kind::Name => Some(ForeignReason::Number),
            _ => None,
        },
        Kind::Mark(b'/') if follows(next, token.at, [b'/', b'*']) => Some(ForeignReason::Comment),
        Kind::Mark(b'+' | b'*' | b'/' | b'%') => Some(ForeignReason::Number),
        Kind::Mark(b':') => Some(ForeignReason::Colon),
        Kind::Mark(b'<') if follows(next, token.at, [b'<', b'<']) => Some(ForeignReason::Naming),
        Kind::Mark(b'>') if follows(next, token.at, [b'>', b'>']) => Some(ForeignReason::Naming),
        _ => None,
    }
}

/// Refuses a token that is Inpla's own, by the one that follows it.
fn refuse_at(token: Option<&Token>, next: Option<&Token>) -> Result<(), RichFault> {
    let Some(token) = token else {
        return Ok(());
    };
    match foreign_at(token, next) {
        Some(reason) => Err(RichFault::Refused(Reason::Foreign(reason), token.at)),
        None => Ok(()),
    }
}

/// Refuses the first token of Inpla's own in a part of a text that begins at a place.
fn refuse_in(part: &[u8], from: usize) -> Result<(), RichFault> {
    let mut before: Option<Token> = None;
    let mut left = 0usize;
    for (place, byte) in part.iter().enumerate() {
        if left > 0 {
            left -= 1;
        } else if !is_blank(*byte) {
            let token = first_token(&part[place..], from.saturating_add(place));
            left = token.text.len().saturating_sub(1);
            refuse_at(before.as_ref(), Some(&token))?;
            before = Some(token);
        }
    }
    refuse_at(before.as_ref(), None)
}

/// What a part of a text is that stands outside of rules, or after them, if it begins as Inpla's.
fn outer_reason(word: &[u8], is_after: bool) -> Option<ForeignReason> {
    if word == b"use".as_slice() {
        Some(ForeignReason::Use)
    } else if is_after && !word.is_empty() && word != b"let".as_slice() {
        Some(ForeignReason::Net)
    } else {
        None
    }
}

/// Refuses a part of a text outside of rules, or after them, that begins as Inpla's.
fn refuse_outer(text: &[u8], segment: Segment) -> Result<(), RichFault> {
    let rest = after_blanks(segment.part_of(text));
    match outer_reason(first_word(rest), segment.from > 0) {
        Some(reason) => {
            let at = segment.to.saturating_sub(rest.len());
            Err(RichFault::Refused(Reason::Foreign(reason), at))
        }
        None => Ok(()),
    }
}

/// Refuses what is Inpla's own in a text.
pub(crate) fn refuse_foreign(text: &[u8], segments: &[Segment]) -> Result<(), RichFault> {
    for segment in segments {
        if !segment.within {
            refuse_outer(text, *segment)?;
        }
        if !declares(text, *segment) {
            refuse_in(segment.part_of(text), segment.from)?;
        }
    }
    Ok(())
}

/// What is said of it.
pub(crate) fn foreign_words(reason: ForeignReason) -> (&'static [u8], &'static [u8]) {
    match reason {
        ForeignReason::Number => (
            b"numbers inside agents are Inpla's own; here a number is a net: number S Z, and rules of S and Z",
            b"",
        ),
        ForeignReason::Comment => (b"a comment begins with # here", b""),
        ForeignReason::Naming => (
            b"<< and >> are Inpla's own; here r << Add(x,y) is written as the equation Add(r,x) ~ y",
            b"",
        ),
        ForeignReason::Colon => (
            b"x:xs is Inpla's own; here it is [x|xs], after list Cons Nil among the rules",
            b"",
        ),
        ForeignReason::Use => (
            b"use stands among the rules, within their braces: { use \"lib/nat.rich\"; .. }",
            b"",
        ),
        ForeignReason::Net => (
            b"a configuration is looked for here: what is shown, and then the equations, as in <r | Add(r,1) ~ 2>",
            b"",
        ),
    }
}

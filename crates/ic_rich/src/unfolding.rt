//! Texts without the forms that stand for others.

use crate::arrows::{has_arrow, put_rule};
use crate::fault::RichFault;
use crate::foreign::refuse_foreign;
use crate::holes::Hole;
use crate::nests::Nests;
use crate::restoring::Waiters;
use crate::segments::{Segment, after_blanks, part_of, segments_of};
use crate::shorthands::Shorthands;
use crate::signs::{Signs, signs_of};
use crate::wording::Wording;
use crate::written::Written;
use std::alloc::{AllocError, Global};

/// Whether it is noted whence each part of what is written comes. That may take much memory, and serves what is told of places.
#[derive(Clone, Copy)]
pub enum Places {
    Noted,
    Left,
}

/// A text without forms, and whence it comes.
#[derive(Drop)]
pub struct Unfolded<'t> {
    /// What the text declares.
    signs: Signs<'t>,
    /// What the text is without shorthands, where places are noted.
    long: Option<Written>,
    /// What that is without rules by arrows.
    plain: Written,
    /// The holes of its patterns.
    holes: Vec<Hole>,
    /// The agents that wait for what stands in patterns.
    waiters: Waiters,
}

impl Unfolded<'_> {
    /// The text.
    pub fn text(&self) -> &[u8] {
        self.plain.text()
    }

    /// The place from which comes what stands at a place of the text, where places are noted.
    pub fn place_of(&self, at: usize) -> usize {
        let place = self.plain.place_of(at);
        match &self.long {
            Some(long) => long.place_of(place),
            None => place,
        }
    }

    /// The holes of its patterns.
    pub(crate) fn holes(&self) -> &[Hole] {
        &self.holes
    }

    /// The symbols of agents that wait.
    pub(crate) fn waiting(&self, alloc: Global) -> Result<Vec<Vec<u8>>, AllocError> {
        let mut symbols = Vec::new(alloc);
        for (symbol, _) in &self.waiters {
            symbols.push(symbol.to_vec(alloc)?)?;
        }
        Ok(symbols)
    }

    /// The words of the text, which is written as this plain one.
    pub fn into_wording(self, alloc: Global, plain: &[u8]) -> Result<Wording, AllocError> {
        let Unfolded {
            signs,
            long: _,
            plain: written,
            holes: _,
            waiters,
        } = self;
        Wording::of_signs(alloc, signs, waiters, written.text(), plain)
    }
}

/// Writes a rule, or what stands outside of rules, without arrows. A rule with patterns has a number.
fn put_segment(
    alloc: Global,
    text: &[u8],
    segment: Segment,
    nests: &Nests,
    number: Option<usize>,
    written: &mut Written,
) -> Result<(), RichFault> {
    let part = segment.part_of(text);
    if !segment.within || !has_arrow(part) {
        return written.put(part, segment.from);
    }
    let rule = after_blanks(part);
    let from = segment.to.saturating_sub(rule.len());
    written.put(part_of(text, segment.from, from), segment.from)?;
    match number {
        Some(number) => nests.put(alloc, number, rule, from, written),
        None => put_rule(alloc, rule, from, written),
    }
}

/// Writes a text with rules of the calculus in the place of those by arrows.
fn put_text(
    alloc: Global,
    text: &[u8],
    segments: &[Segment],
    nests: &Nests,
    written: &mut Written,
) -> Result<(), RichFault> {
    for (place, segment) in segments.iter().enumerate() {
        put_segment(
            alloc,
            text,
            *segment,
            nests,
            nests.number_of(place),
            written,
        )?;
        let end = part_of(text, segment.to, segment.to.saturating_add(1));
        written.put(end, segment.to)?;
    }
    Ok(())
}

/// What is written of a text: without arrows, with the holes of patterns, and the agents that wait.
type WithoutArrows = (Written, Vec<Hole>, Waiters);

/// A text with rules of the calculus in the place of those by arrows.
fn without_arrows(
    alloc: Global,
    text: &[u8],
    signs: Signs,
    notes: bool,
) -> Result<WithoutArrows, RichFault> {
    let segments = segments_of(alloc, text)?;
    let nests = Nests::of_text(alloc, text, &segments, signs)?;
    let mut written = Written::new(alloc, notes);
    put_text(alloc, text, &segments, &nests, &mut written)?;
    let (holes, waiters) = nests.into_parts();
    Ok((written, holes, waiters))
}

/// A text without comments and without forms, where places are noted or not. Where they aren't, those of refusals mean nothing.
fn unfold_noting<'t>(
    alloc: Global,
    text: &'t [u8],
    notes: bool,
) -> Result<Unfolded<'t>, RichFault> {
    let segments = segments_of(alloc, text)?;
    refuse_foreign(text, &segments)?;
    let signs = signs_of(alloc, text, &segments)?;
    let long = Shorthands::new(alloc, text, signs, notes).put_all(&segments)?;
    match without_arrows(alloc, long.text(), signs, notes) {
        Ok((plain, mut holes, waiters)) => {
            for hole in holes.iter_mut() {
                hole.at = long.place_of(hole.at);
            }
            Ok(Unfolded {
                signs,
                long: notes.then_some(long),
                plain,
                holes,
                waiters,
            })
        }
        Err(RichFault::Refused(reason, at)) => {
            let reason = reason.moved(&long);
            Err(RichFault::Refused(reason, long.place_of(at)))
        }
        Err(RichFault::Memory) => Err(RichFault::Memory),
    }
}

/// A text without comments and without forms. First numbers, lists, pairs and names by `let` are written as the terms for which they
/// stand.
pub fn unfold<'t>(
    alloc: Global,
    text: &'t [u8],
    places: Places,
) -> Result<Unfolded<'t>, RichFault> {
    match unfold_noting(alloc, text, matches!(places, Places::Noted)) {
        Err(RichFault::Refused(_, _)) => unfold_noting(alloc, text, true),
        other => other,
    }
}

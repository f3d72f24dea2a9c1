//! The rules of a text by arrows that have patterns, with the others of the same symbols.

use crate::arrows::{Arrow, Head, has_arrow, has_pattern, put_line_ends};
use crate::fault::{NestReason, RichFault};
use crate::fresh::Fresh;
use crate::holes::Hole;
use crate::patterns::Pattern;
use crate::restoring::Waiters;
use crate::segments::{Segment, after_blanks, leading_word, second_of};
use crate::signs::Signs;
use crate::splitting::Splitting;
use crate::written::Written;
use std::alloc::{AllocError, Global};
use std::collections::BTreeMap;

/// The rules of two symbols, of which one has patterns.
#[derive(Drop)]
struct Group {
    /// The numbers of those by arrows.
    rules: Vec<usize>,
    /// Where one without an arrow stands.
    plain: Option<usize>,
}

/// The symbols of rules with patterns, and their groups.
#[derive(Drop)]
struct Groups {
    places: BTreeMap<Vec<u8>, usize>,
    all: Vec<Group>,
}

/// The rules with patterns of a text, and what is written of them.
#[derive(Drop)]
pub(crate) struct Nests<'t> {
    splitting: Splitting<'t>,
    /// For each segment the number of its rule, if it has one. It is empty if the text has no patterns.
    numbers: Vec<Option<usize>>,
}

/// Two symbols as a key.
fn key_of(alloc: Global, one: &[u8], other: &[u8]) -> Result<Vec<u8>, AllocError> {
    let mut key = one.to_vec(alloc)?;
    key.push(b' ')?;
    key.extend_from_slice(other)?;
    Ok(key)
}

impl Groups {
    /// The group of a rule, whose symbols may stand the other way round.
    fn place_of(&self, alloc: Global, part: &[u8]) -> Result<Option<usize>, AllocError> {
        let (one, other) = (leading_word(part), second_of(part));
        let place = self
            .places
            .get(key_of(alloc, one, other)?.as_slice())
            .copied();
        if place.is_some() {
            return Ok(place);
        }
        Ok(
            self.places
                .get(key_of(alloc, other, one)?.as_slice())
                .copied(),
        )
    }

    /// Adds a group of the symbols of a rule, unless there is one.
    fn add(&mut self, alloc: Global, part: &[u8]) -> Result<(), RichFault> {
        if self.place_of(alloc, part)?.is_some() {
            return Ok(());
        }
        let key = key_of(alloc, leading_word(part), second_of(part))?;
        self.places.insert(key, self.all.len())?;
        self.all.push(Group {
            rules: Vec::new(alloc),
            plain: None,
        })?;
        Ok(())
    }

    /// The groups of the rules of a text that have patterns, without their rules.
    fn of_text(alloc: Global, text: &[u8], segments: &[Segment]) -> Result<Groups, RichFault> {
        let mut groups = Groups {
            places: BTreeMap::new(alloc),
            all: Vec::new(alloc),
        };
        for segment in segments {
            let part = segment.part_of(text);
            if segment.within && has_arrow(part) && has_pattern(part) {
                groups.add(alloc, part)?;
            }
        }
        Ok(groups)
    }
}

impl<'t> Nests<'t> {
    /// The rules with patterns of a text.
    pub(crate) fn of_text(
        alloc: Global,
        text: &'t [u8],
        segments: &[Segment],
        signs: Signs<'t>,
    ) -> Result<Nests<'t>, RichFault> {
        let mut nests = Nests {
            splitting: Splitting::new(alloc, signs),
            numbers: Vec::new(alloc),
        };
        let mut groups = Groups::of_text(alloc, text, segments)?;
        if groups.all.is_empty() {
            return Ok(nests);
        }
        for segment in segments {
            let number = nests.read(alloc, text, *segment, &mut groups)?;
            nests.numbers.push(number)?;
        }
        let mut fresh = Fresh::of_text(alloc, text)?;
        for group in &groups.all {
            nests.split(group, &mut fresh)?;
        }
        Ok(nests)
    }

    /// Reads a rule of a group, if a segment is one, and answers its number.
    fn read(
        &mut self,
        alloc: Global,
        text: &'t [u8],
        segment: Segment,
        groups: &mut Groups,
    ) -> Result<Option<usize>, RichFault> {
        let part = segment.part_of(text);
        if !segment.within {
            return Ok(None);
        }
        let Some(place) = groups.place_of(alloc, part)? else {
            return Ok(None);
        };
        let Some(group) = groups.all.get_mut(place) else {
            return Ok(None);
        };
        let rule = after_blanks(part);
        let from = segment.to.saturating_sub(rule.len());
        if !has_arrow(rule) {
            group.plain = Some(from);
            return Ok(None);
        }
        let pattern = Pattern::new(alloc, Arrow::read(alloc, rule, from)?)?;
        let number = self.splitting.add(pattern)?;
        group.rules.push(number)?;
        Ok(Some(number))
    }

    /// Splits the rules of a group, beside which none without an arrow stands.
    fn split(&mut self, group: &Group, fresh: &mut Fresh<'t>) -> Result<(), RichFault> {
        if let (Some(plain), Some(rule)) = (group.plain, group.rules.first()) {
            if let Some((pattern, _)) = self.splitting.get(*rule) {
                return Err(NestReason::Overlap(pattern.at()).at(plain));
            }
        }
        self.splitting.split(&group.rules, fresh)
    }

    /// The number of the rule of a segment, if it is one of these.
    pub(crate) fn number_of(&self, segment: usize) -> Option<usize> {
        self.numbers.get(segment).copied().flatten()
    }

    /// The holes of the rules, and the agents that wait, alone.
    pub(crate) fn into_parts(self) -> (Vec<Hole>, Waiters) {
        let Nests {
            splitting,
            numbers: _,
        } = self;
        splitting.into_parts()
    }

    /// Writes what a rule is split into, which is this part of the text. The ends of its lines follow.
    pub(crate) fn put(
        &self,
        alloc: Global,
        number: usize,
        part: &[u8],
        from: usize,
        written: &mut Written,
    ) -> Result<(), RichFault> {
        let Some((pattern, share)) = self.splitting.get(number) else {
            return Ok(());
        };
        let at = pattern.at();
        written.put_made(&share.before, at)?;
        if let Some(leaf) = &share.leaf {
            let (left, right) = leaf.args.split_at(leaf.left.min(leaf.args.len()));
            let [one, other] = &leaf.symbols;
            let heads = [
                Head {
                    symbol: one,
                    at,
                    args: left,
                },
                Head {
                    symbol: other,
                    at,
                    args: right,
                },
            ];
            pattern.rule.put(alloc, heads, written)?;
        }
        put_line_ends(part, from, written)
    }
}

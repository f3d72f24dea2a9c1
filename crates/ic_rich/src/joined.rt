//! A text with the rules of the files that it uses.

use crate::arrows::{has_arrow, has_pattern};
use crate::fault::{Reason, RichFault};
use crate::holes::Hole;
use crate::segments::{
    Segment, after_blanks, after_meeting, count_of, leading_word, part_of, second_of,
};
use crate::sentences::sentence;
use crate::signs::is_line;
use crate::tokens::tokens_of;
use crate::unfolding::{Places, unfold};
use crate::uses::{Files, Place, Source, Sources, UseFault, use_at};
use ic_text::MAX_WIDE_TEXT;
use std::alloc::{AllocError, Global};
use std::collections::BTreeMap;

/// From this place on what is written comes from that place of a text on.
#[derive(Clone, Copy)]
struct Part {
    written: usize,
    from: Place,
}

/// What is written of texts, and whence each part of it comes.
#[derive(Drop)]
struct Woven {
    text: Vec<u8>,
    parts: Vec<Part>,
}

/// A text with the rules of others.
#[derive(Drop)]
pub struct Joined {
    pub(crate) sources: Vec<Source>,
    woven: Woven,
}

/// A refusal, at a place of the text that is read.
#[derive(Drop)]
pub struct JoinRefusal {
    pub text: Vec<u8>,
    pub at: usize,
    pub sentence: Vec<u8>,
}

/// Why texts aren't joined.
#[derive(Drop)]
pub enum JoinFault {
    Refused(JoinRefusal),
    /// A growth was refused.
    Memory,
}

/// What rules and lines are told by, each with the place at which it stands first.
type Heads = BTreeMap<Vec<u8>, Place>;

/// The words of a line with one blank between.
fn words_of(alloc: Global, part: &[u8]) -> Result<Vec<u8>, AllocError> {
    let mut words = Vec::new(alloc);
    for token in &tokens_of(alloc, part, 0)? {
        words.extend_from_slice(token.text)?;
        words.push(b' ')?;
    }
    Ok(words)
}

/// What stands before a mark, or all of a part.
fn before_mark<'t>(part: &'t [u8], mark: &[u8]) -> &'t [u8] {
    for place in 0..part.len() {
        if part[place..].starts_with(mark) {
            return &part[..place];
        }
    }
    part
}

/// Whether a side of a rule is a symbol, and names if it has arguments.
fn is_plain_side(side: &[u8]) -> bool {
    let is_formed = side.contains(&b'[') || side.contains(&b'^');
    !is_formed && count_of(side, b'(') < 2 && !has_pattern(side) && !leading_word(side).is_empty()
}

/// What the sides of a rule are told by.
fn sides_of(alloc: Global, part: &[u8]) -> Result<(Vec<u8>, Vec<u8>), AllocError> {
    let left = before_mark(part, b">".as_slice());
    let right = before_mark(after_meeting(part), b"=>".as_slice());
    if has_arrow(part) && !(is_plain_side(left) && is_plain_side(right)) {
        return Ok((words_of(alloc, left)?, words_of(alloc, right)?));
    }
    let (one, other) = (leading_word(part), second_of(part));
    Ok((one.to_vec(alloc)?, other.to_vec(alloc)?))
}

/// What a segment of a text is told by: all words of a line such as `copy Dup`, or the two symbols of a rule, or its sides where
/// these have patterns, in an order of their own.
fn head_of(alloc: Global, text: &[u8], segment: Segment) -> Result<Vec<u8>, AllocError> {
    let part = segment.part_of(text);
    if is_line(text, segment) {
        return words_of(alloc, part);
    }
    let (one, other) = sides_of(alloc, part)?;
    let (mut head, last) = if one <= other {
        (one, other)
    } else {
        (other, one)
    };
    // A rule differs from a line by this mark, which stands in no side.
    head.push(b'\n')?;
    head.extend_from_slice(&last)?;
    Ok(head)
}

/// The place of the first word of a segment.
fn place_in(source: usize, text: &[u8], segment: Segment) -> Place {
    let rest = after_blanks(segment.part_of(text));
    let at = segment.to.saturating_sub(rest.len());
    Place { source, at }
}

/// The line of a place in a text, from 1.
pub(crate) fn line_of(text: &[u8], at: usize) -> usize {
    count_of(part_of(text, 0, at), b'\n').saturating_add(1)
}

/// Appends the file of a place and its line.
fn put_place(
    alloc: Global,
    sources: &[Source],
    place: Place,
    words: &mut Vec<u8>,
) -> Result<(), AllocError> {
    if let Some(source) = sources.get(place.source) {
        let line = line_of(&source.text, place.at);
        words.extend_from_slice(&source.path)?;
        if !source.path.is_empty() {
            words.extend_from_slice(b", ")?;
        }
        let told = format!(in alloc; "line {line}")?;
        words.extend_from_slice(told.as_bytes())?;
    }
    Ok(())
}

/// What is said at a place, after the file and the line if it isn't one of the text that is read.
fn said_at(
    alloc: Global,
    sources: &[Source],
    place: Place,
    words: &[u8],
) -> Result<Vec<u8>, AllocError> {
    let mut said = Vec::new(alloc);
    if place.source > 0 {
        said.extend_from_slice(b"in ")?;
        put_place(alloc, sources, place, &mut said)?;
        said.extend_from_slice(b": ")?;
    }
    said.extend_from_slice(words)?;
    Ok(said)
}

/// The place of the text that is read at which another one is told.
fn told_at(sources: &[Source], place: Place) -> usize {
    match sources.get(place.source) {
        Some(source) if place.source > 0 => source.root,
        _ => place.at,
    }
}

/// A refusal at a place, of which this is said.
fn refusal(
    alloc: Global,
    sources: &[Source],
    place: Place,
    words: &[u8],
) -> Result<JoinRefusal, AllocError> {
    let text = match sources.first() {
        Some(source) => source.text.to_vec(alloc)?,
        None => Vec::new(alloc),
    };
    Ok(JoinRefusal {
        text,
        at: told_at(sources, place),
        sentence: said_at(alloc, sources, place, words)?,
    })
}

impl Woven {
    /// Writes bytes that stand at a place.
    fn put(&mut self, bytes: &[u8], from: Place) -> Result<(), UseFault> {
        let written = self.text.len();
        if written.saturating_add(bytes.len()) > MAX_WIDE_TEXT {
            return Err(UseFault::Refused(Reason::TooLong, from));
        }
        self.parts.push(Part { written, from })?;
        Ok(self.text.extend_from_slice(bytes)?)
    }

    /// Writes a rule of another text after a `;`, with blanks in the place of ends of lines.
    fn put_rule(&mut self, alloc: Global, part: &[u8], from: Place) -> Result<(), UseFault> {
        let mut flat = Vec::new(alloc);
        for byte in part {
            let is_end = *byte == b'\n' || *byte == b'\r';
            flat.push(if is_end { b' ' } else { *byte })?;
        }
        self.put(b";".as_slice(), from)?;
        self.put(&flat, from)
    }

    /// The text and the place from which comes what stands at a place.
    fn source_of(&self, at: usize) -> Place {
        for part in self.parts.iter().rev() {
            if part.written <= at {
                let more = at.saturating_sub(part.written);
                return Place {
                    source: part.from.source,
                    at: part.from.at.saturating_add(more),
                };
            }
        }
        Place { source: 0, at }
    }
}

impl Joined {
    /// The text with the rules of others.
    pub fn text(&self) -> &[u8] {
        &self.woven.text
    }

    /// The refusal at a place of it for a reason, with the place of another rule if one is told beside it.
    pub fn refused_for(
        &self,
        alloc: Global,
        reason: Reason,
        at: usize,
    ) -> Result<JoinRefusal, AllocError> {
        let text = self.text();
        let (_, rest) = text.split_at(at.min(text.len()));
        let mut words = sentence(alloc, reason, rest)?;
        if let Some(other) = reason.other() {
            put_place(
                alloc,
                &self.sources,
                self.woven.source_of(other),
                &mut words,
            )?;
        }
        self.refused(alloc, at, &words)
    }

    /// Appends the file and the line of a place of it.
    pub(crate) fn put_line(
        &self,
        alloc: Global,
        at: usize,
        out: &mut Vec<u8>,
    ) -> Result<(), AllocError> {
        put_place(alloc, &self.sources, self.woven.source_of(at), out)
    }

    /// The holes of its patterns, each with the place of the text that is read at which it is told, and the symbols of agents that
    /// wait. A text that is refused has none.
    pub(crate) fn patterns(&self, alloc: Global) -> Result<(Vec<Hole>, Vec<Vec<u8>>), AllocError> {
        let unfolded = match unfold(alloc, self.text(), Places::Noted) {
            Ok(unfolded) => unfolded,
            Err(RichFault::Memory) => return Err(AllocError),
            Err(RichFault::Refused(_, _)) => return Ok((Vec::new(alloc), Vec::new(alloc))),
        };
        let mut holes = Vec::new(alloc);
        for hole in unfolded.holes() {
            let place = self.woven.source_of(hole.at);
            holes.push(Hole {
                at: told_at(&self.sources, place),
                words: said_at(alloc, &self.sources, place, &hole.words)?,
            })?;
        }
        Ok((holes, unfolded.waiting(alloc)?))
    }

    /// The refusal at a place of it, of which this is said.
    pub fn refused(
        &self,
        alloc: Global,
        at: usize,
        words: &[u8],
    ) -> Result<JoinRefusal, AllocError> {
        refusal(alloc, &self.sources, self.woven.source_of(at), words)
    }
}

/// Whether a segment has a rule, or a line such as `copy Dup`.
pub(crate) fn is_told(text: &[u8], segment: Segment) -> bool {
    let is_empty = after_blanks(segment.part_of(text)).is_empty();
    segment.within && !is_empty && use_at(text, segment).is_none()
}

/// What the rules of a text are told by.
fn heads_of(alloc: Global, source: &Source) -> Result<Heads, AllocError> {
    let mut heads = BTreeMap::new(alloc);
    for segment in &source.segments {
        if is_told(&source.text, *segment) {
            add_head(alloc, &mut heads, source, 0, *segment)?;
        }
    }
    Ok(heads)
}

/// Notes what a segment is told by, unless that is there. It answers where that stands first, if so.
fn add_head(
    alloc: Global,
    heads: &mut Heads,
    source: &Source,
    number: usize,
    segment: Segment,
) -> Result<Option<Place>, AllocError> {
    let head = head_of(alloc, &source.text, segment)?;
    let found = heads.get(head.as_slice()).copied();
    if found.is_none() {
        let place = place_in(number, &source.text, segment);
        match heads.insert(head, place) {
            Ok(_) => {}
            Err(_) => return Err(AllocError),
        }
    }
    Ok(found)
}

/// Whether a segment of a text isn't there yet. A rule that is there is refused.
fn is_new(
    alloc: Global,
    heads: &mut Heads,
    source: &Source,
    number: usize,
    segment: Segment,
) -> Result<bool, UseFault> {
    match add_head(alloc, heads, source, number, segment)? {
        None => Ok(true),
        Some(_) if is_line(&source.text, segment) => Ok(false),
        Some(other) => {
            let place = place_in(number, &source.text, segment);
            Err(UseFault::Same(place, other))
        }
    }
}

/// Writes the rules of a text that aren't there yet.
fn weave_source(
    alloc: Global,
    source: &Source,
    number: usize,
    heads: &mut Heads,
    woven: &mut Woven,
) -> Result<(), UseFault> {
    for segment in &source.segments {
        if is_told(&source.text, *segment) && is_new(alloc, heads, source, number, *segment)? {
            let from = Place {
                source: number,
                at: segment.from,
            };
            woven.put_rule(alloc, segment.part_of(&source.text), from)?;
        }
    }
    Ok(())
}

/// Writes the rules of the texts that came by the `use` at a place.
fn weave_used(
    alloc: Global,
    sources: &[Source],
    root: usize,
    heads: &mut Heads,
    woven: &mut Woven,
) -> Result<(), UseFault> {
    for number in 1..sources.len() {
        if let Some(source) = sources.get(number) {
            if source.root == root {
                weave_source(alloc, source, number, heads, woven)?;
            }
        }
    }
    Ok(())
}

/// Writes the first text, with the rules of the others after each `use`.
fn weave(alloc: Global, sources: &[Source]) -> Result<Woven, UseFault> {
    let mut woven = Woven {
        text: Vec::new(alloc),
        parts: Vec::new(alloc),
    };
    let Some(first) = sources.first() else {
        return Ok(woven);
    };
    let mut heads = heads_of(alloc, first)?;
    for segment in &first.segments {
        let from = Place {
            source: 0,
            at: segment.from,
        };
        woven.put(segment.part_of(&first.text), from)?;
        if let Some(at) = use_at(&first.text, *segment) {
            weave_used(alloc, sources, at, &mut heads, &mut woven)?;
        }
        let end = Place {
            source: 0,
            at: segment.to,
        };
        let mark = part_of(&first.text, segment.to, segment.to.saturating_add(1));
        woven.put(mark, end)?;
    }
    Ok(woven)
}

/// What is said where two rules have the same symbols.
fn same_sentence(alloc: Global, sources: &[Source], other: Place) -> Result<Vec<u8>, AllocError> {
    let mut words = Vec::from_slice(alloc, b"this rule's two symbols have a rule already: ")?;
    put_place(alloc, sources, other, &mut words)?;
    Ok(words)
}

/// A refusal, as it is told.
fn told(alloc: Global, sources: &[Source], fault: UseFault) -> JoinFault {
    let (place, words) = match fault {
        UseFault::Memory => return JoinFault::Memory,
        UseFault::Same(place, other) => (place, same_sentence(alloc, sources, other)),
        UseFault::Refused(reason, place) => (place, sentence(alloc, reason, b"".as_slice())),
    };
    let Ok(words) = words else {
        return JoinFault::Memory;
    };
    match refusal(alloc, sources, place, &words) {
        Ok(refused) => JoinFault::Refused(refused),
        Err(_) => JoinFault::Memory,
    }
}

/// A text without comments, with the rules of the files that it uses.
pub fn join<F: Files>(alloc: Global, text: Vec<u8>, files: &F) -> Result<Joined, JoinFault> {
    let mut sources = Sources::new(alloc);
    if let Err(fault) = sources.find(alloc, text, files) {
        return Err(told(alloc, &sources.all, fault));
    }
    match weave(alloc, &sources.all) {
        Ok(woven) => Ok(Joined {
            sources: sources.all,
            woven,
        }),
        Err(fault) => Err(told(alloc, &sources.all, fault)),
    }
}

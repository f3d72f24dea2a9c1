//! Texts with several configurations after one set of rules, and the text of each one alone.

use crate::comments::without_comments;
use crate::limits::MAX_RICH_TEXT;
use crate::reading::leading_word;
use std::alloc::{AllocError, Global};

/// How many configurations a text has at most.
pub const MAX_SEVERAL: usize = 4_096;

/// A configuration of a text.
#[derive(Clone, Copy)]
pub(crate) struct Net {
    /// Where its `<` stands.
    pub(crate) from: usize,
    /// What follows its first `>`, or where the text ends.
    pub(crate) end: usize,
    /// What follows all that belongs to it: the next one, or the `let` before that.
    pub(crate) after: usize,
}

/// The configurations of a text, each with its place.
#[derive(Drop)]
pub struct Several {
    /// The text without its comments.
    pub(crate) body: Vec<u8>,
    pub(crate) nets: Vec<Net>,
}

/// The bytes of a text from a place up to another one.
pub(crate) fn part_of(text: &[u8], from: usize, to: usize) -> &[u8] {
    let (front, _) = text.split_at(to.min(text.len()));
    let (_, part) = front.split_at(from.min(front.len()));
    part
}

/// Where the configurations of a text may begin: after its last `}`, and nowhere if rules are open there.
pub(crate) fn after_rules(body: &[u8]) -> usize {
    let closed = after_last(body, b'}');
    if closed == 0 && body.contains(&b'{') {
        return body.len();
    }
    closed
}

/// The place after the last such byte of a text, or its beginning.
pub(crate) fn after_last(text: &[u8], byte: u8) -> usize {
    for place in (0..text.len()).rev() {
        if text[place] == byte {
            return place + 1;
        }
    }
    0
}

/// The place after the first `>` of a text, or its end.
fn after_closing(text: &[u8]) -> usize {
    for (place, byte) in text.iter().enumerate() {
        if *byte == b'>' {
            return place.saturating_add(1);
        }
    }
    text.len()
}

/// The places of each `<` of a text from a place on, but for `<<`, which is Inpla's.
fn openings(alloc: Global, body: &[u8], from: usize) -> Result<Vec<usize>, AllocError> {
    let mut places = Vec::new(alloc);
    let mut before = 0u8;
    for (place, byte) in body.iter().enumerate() {
        let next = body.get(place.saturating_add(1)).copied();
        let is_single = before != b'<' && next != Some(b'<');
        if place >= from && *byte == b'<' && is_single {
            places.push(place)?;
        }
        before = *byte;
    }
    Ok(places)
}

/// The configuration of a text that begins at a place, before the next one, if there is one.
fn net_of(body: &[u8], from: usize, next: Option<usize>) -> Net {
    let limit = next.unwrap_or(body.len());
    let end = from.saturating_add(after_closing(part_of(body, from, limit)));
    let lets = next.is_some() && leading_word(part_of(body, end, limit)) == b"let".as_slice();
    Net {
        from,
        end,
        after: if lets { end } else { limit },
    }
}

/// Whether a `>` stands between each two of these places.
fn are_closed(body: &[u8], places: &[usize]) -> bool {
    for (number, from) in places.iter().enumerate() {
        if let Some(next) = places.get(number.saturating_add(1)) {
            let part = part_of(body, *from, *next);
            if !part.contains(&b'>') {
                return false;
            }
        }
    }
    true
}

/// The configurations of a text, or none if one isn't closed before the next one.
fn nets_of(alloc: Global, body: &[u8]) -> Result<Vec<Net>, AllocError> {
    let places = openings(alloc, body, after_rules(body))?;
    let mut nets = Vec::new(alloc);
    if !are_closed(body, &places) {
        return Ok(nets);
    }
    for (number, from) in places.iter().enumerate() {
        let next = places.get(number.saturating_add(1)).copied();
        nets.push(net_of(body, *from, next))?;
    }
    Ok(nets)
}

/// Appends ends of lines and blanks in the place of a text, so that what follows has its line and its column.
fn put_blanks(text: &[u8], out: &mut Vec<u8>) -> Result<(), AllocError> {
    let last = after_last(text, b'\n');
    for (place, byte) in text.iter().enumerate() {
        if *byte == b'\n' {
            out.push(b'\n')?;
        } else if place >= last && (*byte < 128 || *byte >= 192) {
            out.push(b' ')?;
        }
    }
    Ok(())
}

impl Several {
    /// The configurations of a text. One that is too long has none.
    pub fn of(alloc: Global, text: &[u8]) -> Result<Several, AllocError> {
        if text.len() > MAX_RICH_TEXT {
            let (body, nets) = (Vec::new(alloc), Vec::new(alloc));
            return Ok(Several { body, nets });
        }
        let body = without_comments(alloc, text)?;
        let nets = nets_of(alloc, &body)?;
        Ok(Several { body, nets })
    }

    /// How many there are.
    pub fn count(&self) -> usize {
        self.nets.len()
    }

    /// The text without its comments, in which their places are.
    pub fn body(&self) -> &[u8] {
        &self.body
    }

    /// The place of the one with this number, from 0.
    pub fn place_of(&self, number: usize) -> usize {
        match self.nets.get(number) {
            Some(net) => net.from,
            None => self.body.len(),
        }
    }

    /// The rules, each `let` before the one with this number, and this one alone, at its line and column.
    pub fn text_of(&self, alloc: Global, number: usize) -> Result<Vec<u8>, AllocError> {
        let mut out = part_of(&self.body, 0, self.place_of(0)).to_vec(alloc)?;
        let mut from = self.place_of(0);
        for earlier in 0..number {
            let next = self.place_of(earlier.saturating_add(1));
            let after = self.after(earlier);
            if after < next {
                put_blanks(part_of(&self.body, from, after), &mut out)?;
                out.extend_from_slice(part_of(&self.body, after, next))?;
                from = next;
            }
        }
        let place = self.place_of(number);
        put_blanks(part_of(&self.body, from, place), &mut out)?;
        out.extend_from_slice(part_of(&self.body, place, self.after(number)))?;
        Ok(out)
    }

    /// What follows all that belongs to the one with this number.
    pub(crate) fn after(&self, number: usize) -> usize {
        match self.nets.get(number) {
            Some(net) => net.after,
            None => self.body.len(),
        }
    }
}

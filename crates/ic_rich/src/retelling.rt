//! Refusals of a plain text, told at that place of the rich text from which what stands there comes, and in its words.

use crate::joined::{JoinRefusal, Joined, line_of};
use crate::segments::{last_of, part_of};
use crate::tokens::{first_word, joins};
use crate::unfolding::{Places, Unfolded, unfold};
use crate::whence::{Generic, Names, rule_start, whence_of};
use std::alloc::{AllocError, Global};

/// The rich text for which a plain one stands.
#[derive(Drop)]
pub enum Origin {
    /// A text with forms, and the rules of the files that it uses.
    Formed(Joined),
    /// A text without forms and without its comments.
    Body(Vec<u8>),
}

/// What is said before the names that are told of a rule.
const FRONT: &[u8] = b"stands exactly twice: ";

/// What is said after them.
const END: &[u8] = b" stand";

/// What stands before the number of a rule.
const RULE: &[u8] = b"rule ";

/// What is said of a rule that has the symbols of another one, of which the number stands before.
const SAME: &[u8] = b" is of the same two symbols";

/// The place after some words in a text.
fn after_words(text: &[u8], words: &[u8]) -> Option<usize> {
    for place in 0..text.len() {
        if part_of(text, place, text.len()).starts_with(words) {
            return Some(place.saturating_add(words.len()));
        }
    }
    None
}

/// The number with which a text begins.
fn number_of(text: &[u8]) -> usize {
    let mut number = 0usize;
    for byte in text {
        if !byte.is_ascii_digit() {
            break;
        }
        let digit = usize::from(byte.saturating_sub(b'0'));
        number = number.saturating_mul(10).saturating_add(digit);
    }
    number
}

/// A sentence without the number of its rule, and without how many columns before something stands.
fn without_places(sentence: &[u8]) -> &[u8] {
    let from = match after_words(sentence, b": ".as_slice()) {
        Some(place) if sentence.starts_with(RULE) => place,
        _ => 0,
    };
    let is_far = sentence.ends_with(b" columns before") || sentence.ends_with(b" column before");
    let to = match last_of(sentence, b',') {
        Some(place) if is_far => place,
        _ => sentence.len(),
    };
    part_of(sentence, from, to)
}

/// Appends a text with the names for which those stand that are in it.
fn put_names(names: &Names, text: &[u8], out: &mut Vec<u8>) -> Result<(), AllocError> {
    let mut left = 0usize;
    for (place, byte) in text.iter().enumerate() {
        if left > 0 {
            left -= 1;
        } else if joins(*byte) {
            let word = first_word(part_of(text, place, text.len()));
            out.extend_from_slice(names.get(word).copied().unwrap_or(word))?;
            left = word.len().saturating_sub(1);
        } else {
            out.push(*byte)?;
        }
    }
    Ok(())
}

/// Appends a sentence with the names of the rich text.
fn put_sentence(names: &Names, sentence: &[u8], out: &mut Vec<u8>) -> Result<(), AllocError> {
    let Some(from) = after_words(sentence, FRONT) else {
        return out.extend_from_slice(sentence);
    };
    let rest = part_of(sentence, from, sentence.len());
    let to = match after_words(rest, END) {
        Some(place) => from.saturating_add(place.saturating_sub(END.len())),
        None => from,
    };
    out.extend_from_slice(part_of(sentence, 0, from))?;
    put_first_names(names, part_of(sentence, from, to), out)?;
    out.extend_from_slice(part_of(sentence, to, sentence.len()))
}

/// Appends names that are told one after the other: `x`, `x and y` or `x, y and z`.
fn put_first_names(names: &Names, told: &[u8], out: &mut Vec<u8>) -> Result<(), AllocError> {
    match after_words(told, b" and ".as_slice()) {
        Some(place) => {
            let and = place.saturating_sub(b" and ".len());
            put_names(names, part_of(told, 0, and), out)?;
            out.extend_from_slice(part_of(told, and, place))?;
            put_names(names, part_of(told, place, told.len()), out)
        }
        None => put_names(names, told, out),
    }
}

/// The symbols of a line and of the rule for which it stands, as they are told before a sentence.
fn put_generic(generic: Generic, out: &mut Vec<u8>) -> Result<(), AllocError> {
    out.extend_from_slice(generic.word)?;
    out.push(b' ')?;
    out.extend_from_slice(generic.symbol)?;
    out.extend_from_slice(b", for ".as_slice())?;
    out.extend_from_slice(generic.other)?;
    out.extend_from_slice(b": ".as_slice())
}

/// A rich text, what it is without forms if it has some, and its plain text.
#[derive(Drop)]
struct Retelling<'r> {
    origin: &'r Origin,
    unfolded: Option<Unfolded<'r>>,
    plain: &'r [u8],
}

impl Retelling<'_> {
    /// The text without forms.
    fn text(&self) -> &[u8] {
        match (&self.unfolded, self.origin) {
            (Some(unfolded), _) => unfolded.text(),
            (None, Origin::Body(text)) => text,
            (None, Origin::Formed(joined)) => joined.text(),
        }
    }

    /// The place of the rich text from which comes what stands at one of the text without forms.
    fn place_of(&self, at: usize) -> usize {
        match &self.unfolded {
            Some(unfolded) => unfolded.place_of(at),
            None => at,
        }
    }

    /// Appends where the rule with this number stands, if it is found.
    fn put_rule(&self, alloc: Global, number: usize, out: &mut Vec<u8>) -> Result<(), AllocError> {
        let start = rule_start(self.plain, number);
        let Some((found, _)) = whence_of(alloc, self.text(), self.plain, start)? else {
            return out.extend_from_slice(b"another rule".as_slice());
        };
        out.extend_from_slice(b"the rule in ".as_slice())?;
        let place = self.place_of(found.at);
        match self.origin {
            Origin::Formed(joined) => joined.put_line(alloc, place, out),
            Origin::Body(text) => {
                let line = line_of(text, place);
                let told = format!(in alloc; "line {line}")?;
                out.extend_from_slice(told.as_bytes())
            }
        }
    }

    /// What is said of a place in the words of the rich text.
    fn said(
        &self,
        alloc: Global,
        generic: Option<Generic>,
        names: &Names,
        sentence: &[u8],
    ) -> Result<Vec<u8>, AllocError> {
        let mut out = Vec::new(alloc);
        if let Some(generic) = generic {
            put_generic(generic, &mut out)?;
        }
        let told = without_places(sentence);
        if told.ends_with(SAME) && told.starts_with(RULE) {
            let number = number_of(part_of(told, RULE.len(), told.len()));
            self.put_rule(alloc, number, &mut out)?;
            out.extend_from_slice(SAME)?;
        } else {
            put_sentence(names, told, &mut out)?;
        }
        Ok(out)
    }
}

impl Origin {
    /// The refusal at a place of the text, of which this is said.
    fn refused(&self, alloc: Global, at: usize, words: &[u8]) -> Result<JoinRefusal, AllocError> {
        match self {
            Origin::Formed(joined) => joined.refused(alloc, at, words),
            Origin::Body(text) => Ok(JoinRefusal {
                text: text.to_vec(alloc)?,
                at,
                sentence: words.to_vec(alloc)?,
            }),
        }
    }

    /// The refusal of a place of its plain text, of which a sentence is said there, or nothing where that can't be gone through.
    pub(crate) fn retold(
        &self,
        alloc: Global,
        plain: &[u8],
        at: usize,
        sentence: &[u8],
    ) -> Result<Option<JoinRefusal>, AllocError> {
        let unfolded = match self {
            Origin::Body(_) => None,
            Origin::Formed(joined) => match unfold(alloc, joined.text(), Places::Noted) {
                Ok(unfolded) => Some(unfolded),
                Err(_) => return Ok(None),
            },
        };
        let retelling = Retelling {
            origin: self,
            unfolded,
            plain,
        };
        let Some((found, names)) = whence_of(alloc, retelling.text(), plain, at)? else {
            return Ok(None);
        };
        let words = retelling.said(alloc, found.generic, &names, sentence)?;
        let refused = self.refused(alloc, retelling.place_of(found.at), &words)?;
        Ok(Some(refused))
    }
}

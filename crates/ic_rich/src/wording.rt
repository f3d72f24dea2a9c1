//! The words of a text, in which the nets to which it comes and the refusals of its plain text are told.

use crate::joined::JoinRefusal;
use crate::restoring::{Waiters, name_number};
use crate::retelling::Origin;
use crate::segments::after_blanks;
use crate::signs::{Sign, Signs};
use crate::tokens::first_word;
use ic_text::is_word_byte;
use std::alloc::{AllocError, Global};
use std::collections::BTreeMap;

/// The symbols of a form. One that the text has with another number of arguments is nothing.
#[derive(Drop)]
pub(crate) struct Form {
    pub(crate) more: Vec<u8>,
    pub(crate) none: Vec<u8>,
}

/// The words of a text: its numbers, lists and pairs, and the long names that are free in its net.
#[derive(Drop)]
pub struct Wording {
    pub(crate) number: Form,
    pub(crate) list: Form,
    pub(crate) pair: Form,
    /// What stands in the text for a name of its plain text, or nothing where that is a wire.
    pub(crate) names: BTreeMap<Vec<u8>, Option<Vec<u8>>>,
    /// The agents that wait for what stands in patterns.
    pub(crate) waiters: Waiters,
    /// The text itself, if it is kept.
    origin: Option<Origin>,
}

/// How many arguments stand in parentheses with which a text begins, if any do.
fn arguments_at(text: &[u8]) -> u64 {
    let (mut depth, mut count) = (0u64, 0u64);
    for byte in after_blanks(text) {
        match *byte {
            b'(' => {
                count = count.max(1);
                depth = depth.saturating_add(1);
            }
            b')' => depth = depth.saturating_sub(1),
            b',' if depth == 1 => count = count.saturating_add(1),
            _ => {}
        }
        if depth == 0 {
            break;
        }
    }
    count
}

/// How many arguments a symbol has where it first stands in a plain text, if it stands there.
fn arity_in(plain: &[u8], symbol: &[u8]) -> Option<u64> {
    let mut was_word = false;
    for (place, byte) in plain.iter().enumerate() {
        let is_word = is_word_byte(*byte);
        if is_word && !was_word {
            let rest = &plain[place..];
            let (word, rest) = rest.split_at(first_word(rest).len().min(rest.len()));
            if word == symbol {
                return Some(arguments_at(rest));
            }
        }
        was_word = is_word;
    }
    None
}

/// A symbol that a plain text has with so many arguments, or nothing.
fn with_arity(
    alloc: Global,
    plain: &[u8],
    symbol: &[u8],
    arity: u64,
) -> Result<Vec<u8>, AllocError> {
    if arity_in(plain, symbol) == Some(arity) {
        symbol.to_vec(alloc)
    } else {
        Ok(Vec::new(alloc))
    }
}

impl Form {
    /// The form of a sign, of which the first symbol has so many arguments, and the other one has none.
    fn new(
        alloc: Global,
        sign: Option<Sign>,
        arity: u64,
        plain: &[u8],
    ) -> Result<Form, AllocError> {
        match sign {
            Some(sign) => Ok(Form {
                more: with_arity(alloc, plain, sign.more, arity)?,
                none: with_arity(alloc, plain, sign.none, 0)?,
            }),
            None => Ok(Form {
                more: Vec::new(alloc),
                none: Vec::new(alloc),
            }),
        }
    }
}

/// What follows the rules of a text.
fn after_rules(text: &[u8]) -> &[u8] {
    for place in (0..text.len()).rev() {
        if text[place] == b'}' {
            return &text[place..];
        }
    }
    text
}

/// What stands in a text for each other name of its plain text, after the rules.
fn names_of(
    alloc: Global,
    text: &[u8],
    plain: &[u8],
) -> Result<BTreeMap<Vec<u8>, Option<Vec<u8>>>, AllocError> {
    let mut names = BTreeMap::new(alloc);
    let text = after_rules(text);
    let mut rest = after_rules(plain);
    let mut left = 0usize;
    for place in 0..text.len() {
        if left > 0 {
            left -= 1;
        } else {
            let word = first_word(&text[place..]);
            left = word.len().saturating_sub(1);
            let (other, more) = rest.split_at(first_word(rest).len().max(1).min(rest.len()));
            if !word.is_empty() && word != other {
                note(alloc, &mut names, word, other)?;
            }
            rest = more;
        }
    }
    Ok(names)
}

/// Notes what stands for a name. Where that stands a second time, it is a wire, whose name an answer may give to another one.
fn note(
    alloc: Global,
    names: &mut BTreeMap<Vec<u8>, Option<Vec<u8>>>,
    word: &[u8],
    other: &[u8],
) -> Result<(), AllocError> {
    let is_again = names.get(other).is_some();
    let told = if is_again {
        None
    } else {
        Some(word.to_vec(alloc)?)
    };
    match names.insert(other.to_vec(alloc)?, told) {
        Ok(_) => Ok(()),
        Err(_) => Err(AllocError),
    }
}

impl Wording {
    /// The words of a text without forms, of which these are declared, and which is written as this plain text.
    pub(crate) fn of_signs(
        alloc: Global,
        signs: Signs,
        waiters: Waiters,
        text: &[u8],
        plain: &[u8],
    ) -> Result<Wording, AllocError> {
        Ok(Wording {
            number: Form::new(alloc, signs.number, 1, plain)?,
            list: Form::new(alloc, signs.list, 2, plain)?,
            pair: Form::new(alloc, signs.pair, 2, plain)?,
            names: names_of(alloc, text, plain)?,
            waiters,
            origin: None,
        })
    }

    /// The same, where the text is kept.
    pub fn with_origin(self, origin: Origin) -> Wording {
        let Wording {
            number,
            list,
            pair,
            names,
            waiters,
            origin: _,
        } = self;
        Wording {
            number,
            list,
            pair,
            names,
            waiters,
            origin: Some(origin),
        }
    }

    /// The refusal at a place of its plain text, of which a sentence is said, as it is told of the text, if that is kept.
    pub fn retold(
        &self,
        alloc: Global,
        plain: &[u8],
        at: usize,
        sentence: &[u8],
    ) -> Result<Option<JoinRefusal>, AllocError> {
        match &self.origin {
            Some(origin) => origin.retold(alloc, plain, at, sentence),
            None => Ok(None),
        }
    }

    /// The words of a text without forms that is written as this plain text: its long names.
    pub fn of_names(alloc: Global, text: &[u8], plain: &[u8]) -> Result<Wording, AllocError> {
        Wording::of_signs(alloc, Signs::new(), BTreeMap::new(alloc), text, plain)
    }

    /// One more than the greatest number of a name for which another one stands in the text.
    pub(crate) fn next_name(&self) -> u64 {
        let mut next = 0u64;
        for (name, _) in &self.names {
            next = next.max(name_number(name).saturating_add(1));
        }
        next
    }

    /// What stands in the text for a free name of its plain text, if that is another one.
    pub(crate) fn name_of(&self, name: &[u8]) -> Option<&Vec<u8>> {
        match self.names.get(name) {
            Some(Some(word)) => Some(word),
            _ => None,
        }
    }
}

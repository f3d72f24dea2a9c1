//! The names of a text, and what they are written as.

ghost use Rattle.std.specs.Prelude.{◌≡◌, ◌++◌, IfOk, OnOk};
ghost use Rattle.std.specs.List.{list_all};
ghost use Rattle.ic_text.specs.Name.{is_name, name_text};
ghost use Rattle.ic_expand.specs.Pieces.{pieces};
ghost use Rattle.ic_expand.specs.Names.{is_name_byte, is_named, is_rich_name, is_among, is_spelt, names_of, spare_of, told_word};

use crate::pieces::split_piece;
use crate::spot::Spot;
use crate::words::Words;
use ic_text::{is_numeral, put_name};
use std::alloc::{AllocError, Global};

/// How a name is spelt.
#[derive(Clone, Copy)]
pub(crate) enum Spelling {
    /// As a name of the calculus is.
    Short,
    /// In another way.
    Long,
}

fn is_name_byte(byte: u8) -> bool
    ensures { result ≡ is_name_byte byte }
{
    byte.is_ascii_alphanumeric() || byte == b'_'
}

fn are_name_bytes(text: &[u8]) -> bool
    ensures { result ≡ list_all is_name_byte text.now }
{
    for byte in text {
        if !is_name_byte(*byte) {
            return false;
        }
    }
    true
}

/// Whether a piece is a name of the calculus.
fn is_name(piece: &[u8]) -> bool
    ensures { result ≡ is_name piece.now }
{
    match piece.split_first() {
        None => false,
        Some((letter, rest)) => letter.is_ascii_lowercase() && is_numeral(rest),
    }
}

/// Whether a piece is a small letter, and then letters, digits and `_`.
fn is_rich_name(piece: &[u8]) -> bool
    ensures { result ≡ is_rich_name piece.now }
{
    match piece.split_first() {
        None => false,
        Some((letter, rest)) => letter.is_ascii_lowercase() && are_name_bytes(rest),
    }
}

impl Spelling {
    /// Whether a piece is a name that is spelt so.
    fn is_of(self, piece: &[u8]) -> bool
        ensures { result ≡ is_spelt self piece.now }
    {
        match self {
            Spelling::Short => is_name(piece),
            Spelling::Long => is_rich_name(piece) && !is_name(piece),
        }
    }
}

impl Spot {
    /// Whether a name that is spelt so stands here.
    fn is_named(self, spelling: Spelling, piece: &[u8]) -> bool
        ensures { result ≡ is_named spelling self piece.now }
    {
        match self {
            Spot::Opening => false,
            Spot::Elsewhere | Spot::Asked(_) | Spot::Given => spelling.is_of(piece),
        }
    }
}

/// The names of a text that are spelt so, by first occurrence.
pub(crate) fn names_of<'a>(
    alloc: Global,
    spelling: Spelling,
    text: &'a [u8],
) -> Result<Words<'a>, AllocError>
    ensures { IfOk result (λ names. names ≡ names_of spelling (pieces text.now)) }
{
    let mut names = Words::new(alloc);
    let mut spot = Spot::Elsewhere;
    let mut rest = text;
    while !rest.is_empty() {
        let (piece, more) = split_piece(rest);
        let next = spot.after(piece);
        if spot.is_named(spelling, piece) {
            names.add(piece)?;
        }
        spot = next;
        rest = more;
    }
    Ok(names)
}

/// Whether the name with this number is one of these.
fn is_taken(alloc: Global, shorts: &Words, number: u64) -> Result<bool, AllocError>
    ensures { IfOk result (λ taken. taken ≡ is_among (name_text number) shorts.now) }
{
    let mut name = Vec::new(alloc);
    put_name(number, &mut name)?;
    Ok(shorts.has(&name))
}

/// Numbers whose names aren't among the short ones: as many as there are long ones, or more.
pub(crate) fn spare_of(alloc: Global, shorts: &Words, longs: &Words) -> Result<Vec<u64>, AllocError>
    ensures { IfOk result (λ spare. spare.items ≡ spare_of shorts.now longs.now) }
{
    let mut spare = Vec::new(alloc);
    for number in 0..shorts.len() as u64 + longs.len() as u64 {
        if !is_taken(alloc, shorts, number)? {
            spare.push(number)?;
        }
    }
    Ok(spare)
}

/// Appends what a word is written as, by the long names and the spare numbers.
pub(crate) fn put_word(
    longs: &Words,
    spare: &[u64],
    word: &[u8],
    out: &mut Vec<u8>,
) -> Result<(), AllocError>
    ensures { OnOk result
        (out.new.items ≡ out.old.items ++ told_word longs.now spare.now word.now) }
{
    match longs.place(word) {
        None => out.extend_from_slice(word),
        Some(place) => put_name(spare.get(place).copied().unwrap_or(0), out),
    }
}

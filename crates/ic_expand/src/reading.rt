//! The symbols of a text.

ghost use Rattle.std.specs.Prelude.{◌≡◌, ◌<◌, ◌-◌, ◌^◌, IfOk, OnOk, get_or, length, map};
ghost use Rattle.std.specs.List.{fold};
ghost use Rattle.ic_term.specs.Symbol.{texts};
ghost use Rattle.ic_expand.specs.Pieces.{pieces};
ghost use Rattle.ic_expand.specs.Reading.{asked, asked_by, is_head, is_use, leading_word, noted, symbols_of, used_symbols};
ghost use Rattle.ic_expand.specs.declared.spot.Spot.TheVariants.{Elsewhere};
ghost use Rattle.ic_expand.specs.inner.Ahead.{arguments_by};
ghost use Rattle.ic_expand.specs.inner.Sheets.{symbol_in};

use crate::ahead::{counts_of, pass};
use crate::pieces::{run_len, split_piece};
use crate::spot::Spot;
use crate::words::Words;
use ic_term::{MAX_WIDE_SYMBOLS, is_symbol};
use ic_text::is_blank;
use std::alloc::{AllocError, Global};

/// A symbol, with its number of arguments where it stands first.
#[derive(Drop)]
pub(crate) struct Use {
    pub(crate) text: Vec<u8>,
    pub(crate) arity: usize,
}

/// How many commas the first `(` of a text has, by those of each `(`.
fn first_count(counts: &[usize]) -> usize
    ensures { result ≡ get_or counts.now (length counts.now - 1) 0 }
{
    match counts.last() {
        Some(count) => *count,
        None => 0,
    }
}

/// The number of arguments with which a text goes on after a symbol, where its first `(` has so many commas.
fn arguments(count: usize, text: &[u8]) -> usize
    requires { count < 2 ^ 63 }
    ensures { result ≡ arguments_by count text.now }
{
    for byte in text {
        if !is_blank(*byte) {
            return if *byte == b'(' { 1 + count } else { 0 };
        }
    }
    0
}

impl Spot {
    /// Whether a piece is a symbol in a term.
    fn is_use(self, piece: &[u8]) -> bool
        ensures { result ≡ is_use self piece.now }
    {
        match self {
            Spot::Asked(_) => false,
            Spot::Elsewhere | Spot::Opening | Spot::Given => is_symbol(piece),
        }
    }

    /// Whether a piece is the first symbol of a rule.
    pub(crate) fn is_head(self, piece: &[u8]) -> bool
        ensures { result ≡ is_head self piece.now }
    {
        match self {
            Spot::Opening => is_symbol(piece),
            Spot::Elsewhere | Spot::Asked(_) | Spot::Given => false,
        }
    }
}

/// Notes a symbol after which a text goes on with so many arguments, among those with these texts.
fn note<'a>(
    alloc: Global,
    symbols: &mut Vec<Use>,
    known: &mut Words<'a>,
    text: &'a [u8],
    arity: usize,
) -> Result<(), AllocError>
    requires { known.old ≡ texts (map symbol_in symbols.old.items) }
    ensures noted { OnOk result (map symbol_in symbols.new.items
        ≡ noted (map symbol_in symbols.old.items) (record { text = text.now; arity = arity })) }
    ensures known { OnOk result (known.new ≡ texts (map symbol_in symbols.new.items)) }
{
    if symbols.len() >= MAX_WIDE_SYMBOLS {
        return Ok(());
    }
    if known.has(text) {
        return Ok(());
    }
    known.add(text)?;
    symbols.push(Use {
        text: Vec::from_slice(alloc, text)?,
        arity,
    })?;
    Ok(())
}

/// The symbols of a text, those of terms by first occurrence, and their texts.
pub(crate) fn symbols_of(alloc: Global, text: &[u8]) -> Result<(Vec<Use>, Words<'_>), AllocError>
    ensures symbols { IfOk result
        (λ found. map symbol_in found.0.items ≡ symbols_of (pieces text.now)) }
    ensures known { IfOk result (λ found. found.1 ≡ texts (symbols_of (pieces text.now))) }
{
    let (mut symbols, mut known) = used_symbols(alloc, text)?;
    note_asked(alloc, &mut symbols, &mut known, text)?;
    Ok((symbols, known))
}

/// Notes the symbols of a text that `copy` and `erase` name, among those with these texts.
fn note_asked<'a>(
    alloc: Global,
    symbols: &mut Vec<Use>,
    known: &mut Words<'a>,
    text: &'a [u8],
) -> Result<(), AllocError>
    requires { known.old ≡ texts (map symbol_in symbols.old.items) }
    ensures noted { OnOk result (map symbol_in symbols.new.items
        ≡ fold noted (map symbol_in symbols.old.items) (asked Elsewhere (pieces text.now))) }
    ensures known { OnOk result (known.new ≡ texts (map symbol_in symbols.new.items)) }
{
    let mut spot = Spot::Elsewhere;
    let mut rest = text;
    while !rest.is_empty() {
        let (piece, more) = split_piece(rest);
        let next = spot.after(piece);
        note_at(alloc, symbols, known, spot, piece)?;
        spot = next;
        rest = more;
    }
    Ok(())
}

/// Notes a piece, if it is the symbol that `copy` or `erase` names.
fn note_at<'a>(
    alloc: Global,
    symbols: &mut Vec<Use>,
    known: &mut Words<'a>,
    spot: Spot,
    piece: &'a [u8],
) -> Result<(), AllocError>
    requires { known.old ≡ texts (map symbol_in symbols.old.items) }
    ensures noted { OnOk result (map symbol_in symbols.new.items
        ≡ fold noted (map symbol_in symbols.old.items) (asked_by spot piece.now)) }
    ensures known { OnOk result (known.new ≡ texts (map symbol_in symbols.new.items)) }
{
    match spot {
        Spot::Asked(kind) if is_symbol(piece) => note(alloc, symbols, known, piece, kind.arity()),
        Spot::Asked(_) | Spot::Elsewhere | Spot::Opening | Spot::Given => Ok(()),
    }
}

/// The symbols of terms by first occurrence, and their texts.
fn used_symbols(alloc: Global, text: &[u8]) -> Result<(Vec<Use>, Words<'_>), AllocError>
    ensures symbols { IfOk result
        (λ found. map symbol_in found.0.items ≡ used_symbols (pieces text.now)) }
    ensures known { IfOk result (λ found. found.1 ≡ texts (used_symbols (pieces text.now))) }
{
    let mut symbols = Vec::new(alloc);
    let mut known = Words::new(alloc);
    let mut counts = counts_of(alloc, text)?;
    let mut spot = Spot::Elsewhere;
    let mut rest = text;
    while !rest.is_empty() {
        let (piece, more) = split_piece(rest);
        let next = spot.after(piece);
        pass(b'(', piece, &mut counts);
        if spot.is_use(piece) {
            let arity = arguments(first_count(&counts), more);
            note(alloc, &mut symbols, &mut known, piece, arity)?;
        }
        spot = next;
        rest = more;
    }
    Ok((symbols, known))
}

/// The word with which a text begins after its blanks.
pub(crate) fn leading_word(text: &[u8]) -> &[u8]
    ensures { result.now ≡ leading_word text.now }
{
    for (place, byte) in text.iter().enumerate() {
        if !is_blank(*byte) {
            let rest = &text[place..];
            let (word, _) = rest.split_at(run_len(rest));
            return word;
        }
    }
    &text[text.len()..]
}

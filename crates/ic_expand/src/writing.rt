//! Writing the text of the calculus for which a text stands.

ghost use Rattle.std.specs.Prelude.{◌≡◌, ◌≢◌, ◌++◌, true, is_some, None, IfErr, IfOk, OnOk, Ok, Err};
ghost use Rattle.ic_expand.specs.Generic.{in_row};
ghost use Rattle.ic_expand.specs.Names.{is_among};
ghost use Rattle.ic_expand.specs.Spots.{after_first};
ghost use Rattle.ic_expand.specs.Expanding.{arity_in, expanded, is_for, kept_word, lack_of, piece_text, refusal, refused_at, rules_of, sheet_of, unknown, unless_some, wanted, with_generic, written_pieces};
ghost use Rattle.ic_expand.specs.declared.spot.Spot.TheVariants.{Asked};
ghost use Rattle.ic_expand.specs.Pieces.{pieces};
ghost use Rattle.ic_expand.specs.inner.Sheets.{IsSheet, sheet_in};

use crate::agents::put_in_row;
use crate::begin::{begins, blanks_before};
use crate::comments::without_comments;
use crate::fault::{ExpandFault, Reason};
use crate::given::{Given, given_of};
use crate::limits::MAX_RICH_TEXT;
use crate::names::{Spelling, names_of, put_word, spare_of};
use crate::pieces::{first_byte, split_piece};
use crate::reading::{Use, symbols_of};
use crate::spot::{Kind, Spot, after_first};
use crate::words::Words;
use ic_term::is_symbol;
use ic_text::is_blank;
use std::alloc::{AllocError, Global};

/// A text, and what it says of its symbols, of the rules that it gives, and of its names.
#[derive(Drop)]
pub(crate) struct Sheet<'a> {
    pub(crate) text: &'a [u8],
    pub(crate) symbols: Vec<Use>,
    /// Their texts.
    pub(crate) known: Words<'a>,
    pub(crate) given: Given,
    pub(crate) longs: Words<'a>,
    pub(crate) spare: Vec<u64>,
}

/// What is amiss with a piece that no term has.
fn unknown(piece: &[u8]) -> Reason
    ensures { result ≡ unknown piece.now }
{
    if is_symbol(piece) {
        Reason::NoSymbol
    } else {
        Reason::NotSymbol
    }
}

/// Whether a copier or an eraser has so many arguments.
fn is_for(kind: Kind, arity: Option<usize>) -> bool
    ensures { result ≡ is_for kind arity }
{
    match arity {
        None => false,
        Some(count) => count == kind.arity(),
    }
}

/// What is amiss with a piece that isn't the symbol that is looked for, by how many arguments it has in a term.
fn lack_of(kind: Kind, piece: &[u8], arity: Option<usize>) -> Reason
    ensures { result ≡ lack_of kind piece.now arity }
{
    match (kind, arity) {
        (Kind::Copier, Some(count)) => Reason::NoCopier(count),
        (Kind::Eraser, Some(count)) => Reason::NoEraser(count),
        (Kind::Copier | Kind::Eraser, None) => unknown(piece),
    }
}

impl<'a> Sheet<'a> {
    fn new(alloc: Global, text: &'a [u8]) -> Result<Sheet<'a>, AllocError>
        ensures sound { IfOk result (λ sheet. IsSheet sheet) }
        ensures text { IfOk result (λ sheet. sheet_in sheet ≡ sheet_of (pieces text.now)) }
    {
        let (symbols, known) = symbols_of(alloc, text)?;
        let given = given_of(alloc, &known, text)?;
        let shorts = names_of(alloc, Spelling::Short, text)?;
        let longs = names_of(alloc, Spelling::Long, text)?;
        let spare = spare_of(alloc, &shorts, &longs)?;
        Ok(Sheet {
            text,
            symbols,
            known,
            given,
            longs,
            spare,
        })
    }

    /// How many arguments a text has with this symbol where that stands first, if it stands in a term.
    fn arity_in(&self, text: &[u8]) -> Option<usize>
        requires { IsSheet self.now }
        ensures { result ≡ arity_in (sheet_in self.now).symbols text.now }
    {
        match self.known.place(text) {
            None => None,
            Some(place) => Some(self.symbols[place].arity),
        }
    }

    /// Why a copier or an eraser gets no rules, if it gets none.
    fn lacks_rules(&self, earlier: &Words, generic: &[u8]) -> Option<Reason>
        requires sheet { IsSheet self.now }
        requires known { is_some (arity_in (sheet_in self.now).symbols generic.now) ≡ true }
        ensures { result ≡ unless_some (is_among generic.now earlier.now)
            (wanted (sheet_in self.now) earlier.now generic.now) }
    {
        if earlier.has(generic) {
            return Some(Reason::Again);
        }
        match self.known.place(generic) {
            None => Some(Reason::NoRules),
            Some(place) => {
                if self.wants_some(earlier, place) {
                    None
                } else {
                    Some(Reason::NoRules)
                }
            }
        }
    }

    /// Why the symbol after `copy` or `erase` is refused, if it is.
    fn refused_symbol(&self, earlier: &Words, kind: Kind, piece: &[u8]) -> Option<Reason>
        requires { IsSheet self.now }
        ensures { result ≡ refused_at (sheet_in self.now) earlier.now (Asked kind) piece.now }
    {
        let arity = self.arity_in(piece);
        if is_for(kind, arity) {
            self.lacks_rules(earlier, piece)
        } else {
            Some(lack_of(kind, piece, arity))
        }
    }

    /// Why a piece is refused, if it is.
    fn refusal(&self, earlier: &Words, spot: Spot, piece: &[u8]) -> Option<Reason>
        requires { IsSheet self.now }
        ensures { result ≡ refusal (sheet_in self.now) earlier.now spot piece.now }
    {
        let first = first_byte(piece);
        if is_blank(first) {
            return None;
        }
        match spot {
            Spot::Elsewhere | Spot::Opening => None,
            Spot::Given if first == b';' || first == b'}' => None,
            Spot::Given => Some(Reason::NoEnd),
            Spot::Asked(kind) => self.refused_symbol(earlier, kind, piece),
        }
    }

    /// Appends the rules of a copier or an eraser that isn't refused.
    fn put_rules(
        &self,
        alloc: Global,
        earlier: &Words,
        kind: Kind,
        generic: &[u8],
        out: &mut Vec<u8>,
    ) -> Result<(), AllocError>
        requires sheet { IsSheet self.now }
        requires asked { refused_at (sheet_in self.now) earlier.now (Asked kind) generic.now ≡ None }
        ensures { OnOk result (out.new.items ≡ out.old.items
            ++ in_row true (rules_of (sheet_in self.now) earlier.now kind generic.now)) }
    {
        match self.known.place(generic) {
            None => Ok(()),
            Some(place) => {
                let rules = self.rules_with(alloc, earlier, kind, generic, place)?;
                put_in_row(&rules, out)
            }
        }
    }

    /// Appends what a piece is written as that isn't refused.
    fn put_piece(
        &self,
        alloc: Global,
        earlier: &Words,
        spot: Spot,
        piece: &[u8],
        out: &mut Vec<u8>,
    ) -> Result<(), AllocError>
        requires sheet { IsSheet self.now }
        requires fine { refusal (sheet_in self.now) earlier.now spot piece.now ≡ None }
        ensures { OnOk result (out.new.items
            ≡ out.old.items ++ piece_text (sheet_in self.now) earlier.now spot piece.now) }
    {
        match spot {
            Spot::Elsewhere | Spot::Given => put_word(&self.longs, &self.spare, piece, out),
            Spot::Opening => put_first(piece, out),
            Spot::Asked(kind) => {
                if is_blank(first_byte(piece)) {
                    out.extend_from_slice(piece)
                } else {
                    self.put_rules(alloc, earlier, kind, piece, out)
                }
            }
        }
    }
}

/// Appends the first word of a rule, unless it is `copy` or `erase`.
fn put_first(piece: &[u8], out: &mut Vec<u8>) -> Result<(), AllocError>
    ensures { OnOk result (out.new.items
        ≡ out.old.items ++ kept_word (after_first piece.now) piece.now) }
{
    match after_first(piece) {
        Spot::Asked(_) => Ok(()),
        Spot::Elsewhere | Spot::Opening | Spot::Given => out.extend_from_slice(piece),
    }
}

/// Adds the symbol of a `copy` or an `erase`, if the piece is one.
fn add_generic<'a>(earlier: &mut Words<'a>, spot: Spot, piece: &'a [u8]) -> Result<(), AllocError>
    ensures { OnOk result (earlier.new ≡ with_generic earlier.old spot piece.now) }
{
    match spot {
        Spot::Asked(_) if !is_blank(first_byte(piece)) => earlier.add(piece),
        Spot::Elsewhere | Spot::Opening | Spot::Asked(_) | Spot::Given => Ok(()),
    }
}

/// What the pieces of a text are written as.
fn written_pieces(alloc: Global, text: &[u8]) -> Result<Vec<u8>, ExpandFault>
    ensures written { IfOk result (λ out. written_pieces (pieces text.now) ≡ Ok out.items) }
    ensures refused { IfErr result (λ fault. fault ≢ ExpandFault.Memory
        → written_pieces (pieces text.now) ≡ Err fault) }
{
    let sheet = Sheet::new(alloc, text)?;
    let mut out = Vec::with_capacity(alloc, text.len())?;
    let mut earlier = Words::new(alloc);
    let mut spot = Spot::Elsewhere;
    let mut rest = text;
    while !rest.is_empty() {
        let (piece, more) = split_piece(rest);
        let next = spot.after(piece);
        if let Some(reason) = sheet.refusal(&earlier, spot, piece) {
            return Err(ExpandFault::Refused(reason, text.len() - rest.len()));
        }
        sheet.put_piece(alloc, &earlier, spot, piece, &mut out)?;
        add_generic(&mut earlier, spot, piece)?;
        spot = next;
        rest = more;
    }
    Ok(out)
}

/// The text of the calculus for which a text stands. It takes a number of steps that grows as n log n, where n is the number
/// of bytes that are read and written.
pub fn expand(alloc: Global, text: &[u8]) -> Result<Vec<u8>, ExpandFault>
    ensures written { IfOk result (λ out. expanded text.now ≡ Ok out.items) }
    ensures refused { IfErr result (λ fault. fault ≢ ExpandFault.Memory
        → expanded text.now ≡ Err fault) }
{
    if text.len() > MAX_RICH_TEXT {
        return Err(ExpandFault::Refused(Reason::TextBytes, MAX_RICH_TEXT));
    }
    let body = without_comments(alloc, text)?;
    let at = blanks_before(&body);
    if !begins(&body[at..]) {
        return Err(ExpandFault::Refused(Reason::NoText, at));
    }
    written_pieces(alloc, &body)
}

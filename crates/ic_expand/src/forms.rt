//! Whether a text has forms that stand for others.

ghost use Rattle.std.specs.Prelude.{◌≡◌, IfOk};
ghost use Rattle.ic_expand.specs.Forms.{after_piece, are_form, goes_on, has_form, have_form, is_form};
ghost use Rattle.ic_expand.specs.Pieces.{pieces};
ghost use Rattle.ic_expand.specs.declared.spot.Spot.TheVariants.{Elsewhere};

use crate::comments::without_comments;
use crate::limits::MAX_RICH_TEXT;
use crate::pieces::{first_byte, split_piece};
use crate::spot::Spot;
use ic_text::is_blank;
use std::alloc::{AllocError, Global};

/// Whether two marks stand so in forms alone.
fn are_form(before: u8, byte: u8) -> bool
    ensures { result ≡ are_form before byte }
{
    (before == b'=' && byte == b'>')
        || (before == b';' && byte == b'}')
        || (before == b',' && byte == b'>')
}

/// Whether a piece is a mark or a word of a form.
fn is_form(piece: &[u8]) -> bool
    ensures { result ≡ is_form piece.now }
{
    piece == b"[".as_slice()
        || piece == b"^".as_slice()
        || piece == b"~".as_slice()
        || piece == b"number".as_slice()
        || piece == b"list".as_slice()
        || piece == b"pair".as_slice()
        || piece == b"let".as_slice()
        || piece == b"use".as_slice()
}

/// Whether a byte has a `copy` or an `erase` go on with a further symbol.
fn goes_on(spot: Spot, byte: u8) -> bool
    ensures { result ≡ goes_on spot byte }
{
    match spot {
        Spot::Given => byte == b',',
        Spot::Elsewhere | Spot::Opening | Spot::Asked(_) => false,
    }
}

/// The byte that stands before what follows a piece, blanks apart.
fn after_piece(before: u8, piece: &[u8]) -> u8
    ensures { result ≡ after_piece before piece.now }
{
    let first = first_byte(piece);
    if is_blank(first) { before } else { first }
}

/// Whether the pieces of a text without comments have a form.
fn have_form(text: &[u8]) -> bool
    ensures { result ≡ have_form 0 Elsewhere (pieces text.now) }
{
    let mut before = 0u8;
    let mut spot = Spot::Elsewhere;
    let mut rest = text;
    while !rest.is_empty() {
        let (piece, more) = split_piece(rest);
        let first = first_byte(piece);
        if are_form(before, first) || is_form(piece) || goes_on(spot, first) {
            return true;
        }
        before = after_piece(before, piece);
        spot = spot.after(piece);
        rest = more;
    }
    false
}

/// Whether a text that isn't too long has a form, outside its comments.
pub(crate) fn has_form(alloc: Global, text: &[u8]) -> Result<bool, AllocError>
    ensures { IfOk result (λ has. has ≡ has_form text.now) }
{
    if text.len() > MAX_RICH_TEXT {
        return Ok(false);
    }
    let body = without_comments(alloc, text)?;
    Ok(have_form(&body))
}

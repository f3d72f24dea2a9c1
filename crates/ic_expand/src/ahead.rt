//! What stands ahead in a text: the commas of each `(`, and the symbol for each `>`. It is found once, from the last byte
//! on, so that no place is looked for again from each symbol before it.

ghost use Rattle.std.specs.Prelude.{◌≡◌, ◌==◌, ◌-◌, ◌<◌, ◌^◌, [], ◌∷◌, ◌++◌, IfOk, OnOk, drop, get_or, length, reverse, take, if◌then◌else◌};
ghost use Rattle.std.specs.List.{position};
ghost use Rattle.std.specs.Str.{bytes_eq};
ghost use Rattle.ic_expand.specs.Pieces.{first_byte};
ghost use Rattle.ic_expand.specs.Reading.{leading_word};
ghost use Rattle.ic_expand.specs.inner.Ahead.{counts_of, sides_of, with_level};

use crate::pieces::first_byte;
use crate::reading::leading_word;
use crate::words::Words;
use std::alloc::{AllocError, Global};

/// The innermost of these, which is taken away, or 0.
fn take_level(levels: &mut Vec<usize>) -> usize
    ensures level { result ≡ get_or (reverse levels.old.items) 0 0 }
    ensures rest { reverse levels.new.items ≡ drop 1 (reverse levels.old.items) }
{
    levels.pop().unwrap_or(0)
}

/// Notes a byte before those that are noted: how many commas each parenthesis has that is open before it.
fn note_byte(byte: u8, levels: &mut Vec<usize>, counts: &mut Vec<usize>) -> Result<(), AllocError>
    requires few { get_or (reverse levels.old.items) 0 0 < 2 ^ 63 }
    ensures levels { OnOk result
        (reverse levels.new.items ≡ with_level byte (reverse levels.old.items)) }
    ensures counts { OnOk result (counts.new.items ≡ if byte == 40
        then counts.old.items ++ get_or (reverse levels.old.items) 0 0 ∷ [] else counts.old.items) }
{
    match byte {
        b'(' => counts.push(take_level(levels))?,
        b')' => levels.push(0)?,
        b',' => {
            let commas = take_level(levels);
            levels.push(commas + 1)?;
        }
        _ => {}
    }
    Ok(())
}

/// For each `(` of a text, of the last one first, the commas before the `)` that closes it.
pub(crate) fn counts_of(alloc: Global, text: &[u8]) -> Result<Vec<usize>, AllocError>
    ensures { IfOk result (λ counts. counts.items ≡ counts_of text.now) }
{
    let mut counts = Vec::new(alloc);
    let mut levels = Vec::new(alloc);
    for place in (0..text.len()).rev() {
        note_byte(text[place], &mut levels, &mut counts)?;
    }
    Ok(counts)
}

/// The place among these words of the one after the next `<`, where a byte stands before more.
fn side_before(known: &Words, byte: u8, more: &[u8], side: Option<usize>) -> Option<usize>
    ensures { result ≡ if byte == 60 then position (bytes_eq (leading_word more.now)) known.now
        else side }
{
    if byte == b'<' {
        known.place(leading_word(more))
    } else {
        side
    }
}

/// Adds what is told of a byte, if it is a `>`.
fn note_side(
    byte: u8,
    side: Option<usize>,
    sides: &mut Vec<Option<usize>>,
) -> Result<(), AllocError>
    ensures { OnOk result (sides.new.items
        ≡ if byte == 62 then sides.old.items ++ side ∷ [] else sides.old.items) }
{
    if byte == b'>' {
        sides.push(side)?;
    }
    Ok(())
}

/// For each `>` of a text, of the last one first, the place among these words of the one after the next `<`.
pub(crate) fn sides_of(
    alloc: Global,
    known: &Words,
    text: &[u8],
) -> Result<Vec<Option<usize>>, AllocError>
    ensures { IfOk result (λ sides. sides.items ≡ sides_of known.now text.now) }
{
    let mut sides = Vec::new(alloc);
    let mut side = known.place(b"");
    for place in (0..text.len()).rev() {
        note_side(text[place], side, &mut sides)?;
        side = side_before(known, text[place], &text[place + 1..], side);
    }
    Ok(sides)
}

/// Takes the last of these away, where a piece begins with such a mark.
pub(crate) fn pass<T: Copy>(mark: u8, piece: &[u8], marks: &mut Vec<T>)
    ensures { marks.new.items ≡ if first_byte piece.now == mark
        then take (length marks.old.items - 1) marks.old.items else marks.old.items }
{
    if first_byte(piece) == mark {
        marks.pop();
    }
}

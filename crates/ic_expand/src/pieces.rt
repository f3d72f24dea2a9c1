//! The pieces of a text: its words, and each other byte by itself.

ghost use Rattle.std.specs.Prelude.{◌≡◌, ◌<◌, ◌⊎◌, [], ◌++◌, ◌∷◌, true, length};
ghost use Rattle.std.specs.List.{list_all, prefix_len};
ghost use Rattle.ic_expand.specs.Pieces.{first_byte, joins, pieces};

use ic_text::is_word_byte;

/// Whether a byte is of a word: a letter, a digit, `-` or `_`.
fn joins(byte: u8) -> bool
    ensures { result ≡ joins byte }
{
    is_word_byte(byte) || byte == b'_'
}

/// How many bytes of words a text begins with.
pub(crate) fn run_len(text: &[u8]) -> usize
    ensures { result ≡ prefix_len joins text.now }
{
    for (place, byte) in text.iter().enumerate() {
        if !joins(*byte) {
            return place;
        }
    }
    text.len()
}

/// The first byte of a piece.
pub(crate) fn first_byte(piece: &[u8]) -> u8
    ensures { result ≡ first_byte piece.now }
{
    match piece.first() {
        Some(byte) => *byte,
        None => 0,
    }
}

/// The first piece of a text, and what follows it.
pub(crate) fn split_piece(text: &[u8]) -> (&[u8], &[u8])
    requires { 0 < length text.now }
    ensures pieces { pieces text.now ≡ result.0.now ∷ pieces result.1.now }
    ensures whole { text.now ≡ result.0.now ++ result.1.now }
    ensures sort { (result.0.now ≡ first_byte result.0.now ∷ [])
        ⊎ (list_all joins result.0.now ≡ true) }
    ensures shorter { length result.1.now < length text.now }
{
    let run = run_len(text);
    if run == 0 {
        text.split_at(1)
    } else {
        text.split_at(run)
    }
}

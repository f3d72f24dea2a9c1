//! The place of a word in a text.

ghost use Rattle.std.specs.Prelude.{◌≤◌, length};

use crate::token::is_word_byte;

/// How many bytes of a text stand before the word that so many words stand before.
pub(crate) fn word_place(text: &[u8], word: usize) -> usize
    ensures { result ≤ length text.now }
{
    let mut left = word;
    let mut within = false;
    for (place, byte) in text.iter().enumerate() {
        let is_word = is_word_byte(*byte);
        if is_word && !within {
            if left == 0 {
                return place;
            }
            left -= 1;
        }
        within = is_word;
    }
    text.len()
}

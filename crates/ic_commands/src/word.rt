//! The words that a text begins with.

ghost use Rattle.std.specs.Prelude.{◌≡◌, ◌≢◌, ◌≤◌, ℕ, List, [], ◌∷◌, Some, IfSome, IfNone, length};
ghost use Rattle.ic_text.specs.Token.{word, is_blank, word_of, before, tokens};
ghost use Rattle.ic_commands.specs.inner.Line.{HasNoWord, BeginsApart, is_nothing};

use ic_text::{is_blank, is_word_byte};

/// A text without the blanks at its front.
fn without_blanks(text: &[u8]) -> &[u8]
    ensures same { tokens result.now ≡ tokens text.now }
    ensures apart { BeginsApart is_blank result.now }
    ensures shorter { length result.now ≤ length text.now }
{
    for (place, byte) in text.iter().enumerate() {
        if !is_blank(*byte) {
            return &text[place..];
        }
    }
    &[]
}

/// The first word of a text, after its blanks, and the text after the word. The word is empty where there is none.
pub(crate) fn split_word(text: &[u8]) -> (&[u8], &[u8])
    ensures tokens { tokens text.now ≡ before (word_of result.0.now) (tokens result.1.now) }
    ensures front { result.0.now ≡ [] → HasNoWord result.1.now (tokens result.1.now) }
    ensures shorter { length result.1.now ≤ length text.now }
{
    let front = without_blanks(text);
    for (place, byte) in front.iter().enumerate() {
        if !is_word_byte(*byte) {
            return (&front[..place], &front[place..]);
        }
    }
    (front, &[])
}

/// Whether a text has blanks at most.
pub(crate) fn is_nothing(text: &[u8]) -> bool
    ensures { result ≡ is_nothing (tokens text.now) }
{
    let (word, rest) = split_word(text);
    word.is_empty() && rest.is_empty()
}

/// The word of a text of one word, or None where it has none or more.
pub(crate) fn only_word(text: &[u8]) -> Option<&[u8]>
    ensures one { IfSome result (λ w. tokens text.now ≡ Some (word w.now ∷ [])) }
    ensures none { IfNone result ((w : List ℕ) → tokens text.now ≢ Some (word w ∷ [])) }
{
    let (word, rest) = split_word(text);
    if word.is_empty() {
        return None;
    }
    if is_nothing(rest) { Some(word) } else { None }
}

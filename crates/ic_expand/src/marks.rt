//! Whether a text says of itself that it is rich.

ghost use Rattle.std.specs.Prelude.{◌≡◌};
ghost use Rattle.ic_expand.specs.Marks.{ends_word, is_marked};

use ic_text::is_blank;

/// How many bytes tell whether a text is marked.
pub(crate) const TELLING: usize = 6;

/// Whether a word ends before this byte of a text, or before its end.
fn ends_word(after: &[u8]) -> bool
    ensures { result ≡ ends_word after.now }
{
    match after.first() {
        Some(byte) => is_blank(*byte),
        None => true,
    }
}

/// Whether a text begins with the word `#rich`.
pub fn is_marked(text: &[u8]) -> bool
    ensures { result ≡ is_marked text.now }
{
    let (word, after) = text.split_at(text.len().min(5));
    word == b"#rich".as_slice() && ends_word(after)
}

//! With what a text begins.

ghost use Rattle.std.specs.Prelude.{◌≡◌, ◌≤◌, length};
ghost use Rattle.ic_expand.specs.Begins.{begins, blanks_before};

use ic_text::is_blank;

/// How many blanks a text begins with.
pub(crate) fn blanks_before(text: &[u8]) -> usize
    ensures count { result ≡ blanks_before text.now }
    ensures within { result ≤ length text.now }
{
    for (place, byte) in text.iter().enumerate() {
        if !is_blank(*byte) {
            return place;
        }
    }
    text.len()
}

/// Whether a text begins as rules and configurations do, or has no bytes.
pub(crate) fn begins(text: &[u8]) -> bool
    ensures { result ≡ begins text.now }
{
    match text.first() {
        Some(byte) => *byte == b'{' || *byte == b'<',
        None => true,
    }
}

//! Keys of symbols' texts.

ghost use Rattle.std.specs.Prelude.{◌≡◌, ◌≤◌, length};
ghost use Rattle.ic_term.specs.inner.Keys.{key_of, packed};

/// How many bytes one number holds.
const HALF: usize = 16;

/// A text as two numbers. No two symbols' texts have one key.
pub(crate) type Key = (u128, u128);

/// The key of a text.
pub(crate) fn key_of(text: &[u8]) -> Key
    requires { length text.now ≤ 32 }
    ensures { result ≡ key_of text.now }
{
    let (head, tail) = text.split_at(text.len().min(HALF));
    (packed(head), packed(tail))
}

/// Bytes as digits of a number, the first one the lowest.
fn packed(bytes: &[u8]) -> u128
    requires { length bytes.now ≤ 16 }
    ensures { result ≡ packed bytes.now }
{
    let mut number = 0u128;
    for i in (0..bytes.len()).rev() {
        number = number * 256 + u128::from(bytes[i]);
    }
    number
}

//! Bytes of a text: those of words, marks that stand by themselves, and blanks.

ghost use Rattle.std.specs.Prelude.{◌≡◌};
ghost use Rattle.ic_text.specs.Token.{is_blank, is_word_byte, mark_of};

/// A byte that is a token by itself.
#[derive(Clone, Copy)]
pub(crate) enum Mark {
    LeftBrace,
    RightBrace,
    Less,
    Greater,
    Bar,
    Equals,
    Comma,
    Semicolon,
    Open,
    Close,
}

/// Whether a byte is dropped between words: a space, a tab, a line feed or a carriage return.
pub fn is_blank(byte: u8) -> bool
    ensures { result ≡ is_blank byte }
{
    byte == b' ' || byte == b'\t' || byte == b'\n' || byte == b'\r'
}

/// A `1` for each byte of a word.
static WORD_BYTES: [u8; 256] = *b"\
    00000000000000000000000000000000\
    00000000000001001111111111000000\
    01111111111111111111111111100000\
    01111111111111111111111111100000\
    00000000000000000000000000000000\
    00000000000000000000000000000000\
    00000000000000000000000000000000\
    00000000000000000000000000000000";

/// Whether a byte is of a word: a letter, a digit or `-`. A table tells it in fewer instructions than tests do.
pub fn is_word_byte(byte: u8) -> bool
    ensures { result ≡ is_word_byte byte }
{
    WORD_BYTES[byte as usize] == b'1'
}

pub(crate) fn mark_of(byte: u8) -> Option<Mark>
    ensures { result ≡ mark_of byte }
{
    match byte {
        b'{' => Some(Mark::LeftBrace),
        b'}' => Some(Mark::RightBrace),
        b'<' => Some(Mark::Less),
        b'>' => Some(Mark::Greater),
        b'|' => Some(Mark::Bar),
        b'=' => Some(Mark::Equals),
        b',' => Some(Mark::Comma),
        b';' => Some(Mark::Semicolon),
        b'(' => Some(Mark::Open),
        b')' => Some(Mark::Close),
        _ => None,
    }
}

//! Names: a letter, and a number where it has one; and what digits write.

ghost use Rattle.std.specs.Prelude.{◌≡◌, ◌||◌, IsTrue};
ghost use Rattle.std.specs.List.{list_all};
ghost use Rattle.std.specs.Char.{is_ascii_digit};
ghost use Rattle.ic_term.specs.Symbol.{is_symbol_text};
ghost use Rattle.ic_text.specs.Name.{is_name, is_numeral, number_in, name_number, up_to};

use crate::limits::MAX_NAME;

#[inline(always)]
fn are_digits(text: &[u8]) -> bool
    ensures { result ≡ list_all is_ascii_digit text.now }
{
    for byte in text {
        if !byte.is_ascii_digit() {
            return false;
        }
    }
    true
}

/// Whether a byte list is nothing, or digits without a leading zero.
#[inline(always)]
pub fn is_numeral(text: &[u8]) -> bool
    ensures { result ≡ is_numeral text.now }
{
    match text.split_first() {
        None => true,
        Some((first, _)) => *first != b'0' && are_digits(text),
    }
}

/// Whether a name or a symbol is a name: its first byte tells.
#[inline(always)]
#[tactic(auto, using(crate::proofs::FirstByte::first_tells))]
pub(crate) fn begins_name(text: &[u8]) -> bool
    requires word { IsTrue (is_name text.now || is_symbol_text text.now) }
    ensures { result ≡ is_name text.now }
{
    match text.split_first() {
        None => false,
        Some((letter, _)) => letter.is_ascii_lowercase(),
    }
}

/// Whether a word is a name.
#[inline(always)]
pub(crate) fn is_name(text: &[u8]) -> bool
    ensures { result ≡ is_name text.now }
{
    match text.split_first() {
        None => false,
        Some((letter, rest)) => letter.is_ascii_lowercase() && is_numeral(rest),
    }
}

/// The number that digits write, where it is at most the greatest number of a name.
pub fn number_in(digits: &[u8]) -> Option<u64>
    requires { IsTrue (list_all is_ascii_digit digits.now) }
    ensures { result ≡ up_to MAX_NAME (number_in digits.now) }
{
    let mut number = 0;
    for digit in digits {
        number = number * 10 + u64::from(*digit - b'0');
        if number > MAX_NAME {
            return None;
        }
    }
    Some(number)
}

/// The number of a name, where it isn't too great.
#[inline(always)]
pub(crate) fn name_number(text: &[u8]) -> Option<u64>
    requires { IsTrue (is_name text.now) }
    ensures { result ≡ up_to MAX_NAME (name_number text.now) }
{
    let (letter, digits) = text.split_first()?;
    let number = 26 * number_in(digits)? + u64::from(*letter - b'a');
    if number > MAX_NAME {
        return None;
    }
    Some(number)
}

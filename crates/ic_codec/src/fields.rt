//! The fields of the form: bytes, numbers and texts.

ghost use Rattle.std.specs.Prelude.{◌≡◌, ◌≢◌, ◌<◌, ◌^◌, ◌∷◌, ◌++◌, [], ℕ, List, IfOk, IfErr, length};
ghost use Rattle.ic_codec.specs.inner.Room.{Fits, Appended};
ghost use Rattle.ic_codec.specs.Texts.{text_bytes};
ghost use Rattle.ic_codec.specs.Numbers.{two_bytes, eight_bytes};
ghost use Rattle.ic_codec.specs.declared.fault.CodecFault.TheVariants.{NotATable};

use crate::fault::CodecFault;

/// The first byte, and those after it.
pub(crate) fn byte_at(bytes: &[u8]) -> Result<(u8, &[u8]), CodecFault>
    ensures read { IfOk result (λ r. bytes.now ≡ r.0 ∷ r.1.now) }
    ensures refused { IfErr result (λ fault. (fault ≡ NotATable) × (bytes.now ≡ [])) }
{
    match bytes.split_first() {
        None => Err(CodecFault::NotATable),
        Some((first, rest)) => Ok((*first, rest)),
    }
}

/// A number in two bytes, and the bytes after it.
pub(crate) fn two_bytes_at(bytes: &[u8]) -> Result<(u16, &[u8]), CodecFault>
    ensures read { IfOk result (λ r. bytes.now ≡ two_bytes r.0 ++ r.1.now) }
    ensures small { IfOk result (λ r. r.0 < 2 ^ 16) }
    ensures refused { IfErr result (λ fault. (fault ≡ NotATable) × (length bytes.now < 2)) }
{
    if bytes.len() < 2 {
        return Err(CodecFault::NotATable);
    }
    let (front, rest) = bytes.split_at(2);
    Ok((u16::from_be_bytes([front[0], front[1]]), rest))
}

/// A number in eight bytes, and the bytes after it.
pub(crate) fn eight_bytes_at(bytes: &[u8]) -> Result<(u64, &[u8]), CodecFault>
    ensures read { IfOk result (λ r. bytes.now ≡ eight_bytes r.0 ++ r.1.now) }
    ensures small { IfOk result (λ r. r.0 < 2 ^ 64) }
    ensures refused { IfErr result (λ fault. (fault ≡ NotATable) × (length bytes.now < 8)) }
{
    if bytes.len() < 8 {
        return Err(CodecFault::NotATable);
    }
    let (front, rest) = bytes.split_at(8);
    let number = u64::from_be_bytes([
        front[0], front[1], front[2], front[3], front[4], front[5], front[6], front[7],
    ]);
    Ok((number, rest))
}

/// A text of the length that stands before it, and the bytes after it.
pub(crate) fn text_at(bytes: &[u8]) -> Result<(&[u8], &[u8]), CodecFault>
    ensures read { IfOk result (λ r. bytes.now ≡ text_bytes r.0.now ++ r.1.now) }
    ensures refused { IfErr result (λ fault. fault ≡ NotATable
        → (text rest : List ℕ) → bytes.now ≢ text_bytes text ++ rest) }
{
    let (count, rest) = byte_at(bytes)?;
    let count = count as usize;
    if rest.len() < count {
        return Err(CodecFault::NotATable);
    }
    Ok(rest.split_at(count))
}

/// Appends a byte.
pub(crate) fn put_byte(byte: u8, out: &mut Vec<u8>)
    requires { Fits out.old (byte ∷ []) }
    ensures { Appended out.old out.new (byte ∷ []) }
{
    out.push_reserved(byte);
}

/// Appends bytes in order.
#[inline(always)]
pub(crate) fn put_bytes(bytes: &[u8], out: &mut Vec<u8>)
    requires { Fits out.old bytes.now }
    ensures { Appended out.old out.new bytes.now }
{
    for byte in bytes {
        put_byte(*byte, out);
    }
}

/// Appends a number in two bytes.
pub(crate) fn put_two_bytes(number: u16, out: &mut Vec<u8>)
    requires { Fits out.old (two_bytes number) }
    ensures { Appended out.old out.new (two_bytes number) }
{
    put_bytes(&number.to_be_bytes(), out);
}

/// Appends a number in eight bytes.
pub(crate) fn put_eight_bytes(number: u64, out: &mut Vec<u8>)
    requires { Fits out.old (eight_bytes number) }
    ensures { Appended out.old out.new (eight_bytes number) }
{
    put_bytes(&number.to_be_bytes(), out);
}

/// Appends the length of a text, then the text.
pub(crate) fn put_text(text: &[u8], out: &mut Vec<u8>)
    requires { Fits out.old (text_bytes text.now) }
    ensures { Appended out.old out.new (text_bytes text.now) }
{
    put_byte(text.len() as u8, out);
    put_bytes(text, out);
}

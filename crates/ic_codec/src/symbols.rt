//! Symbols as bytes, and back.

ghost use Rattle.std.specs.Prelude.{◌≡◌, ◌≢◌, ◌<◌, ◌∷◌, ◌++◌, [], ℕ, List, length, slice_get, IfSome, IfOk, IfErr, OnOk};
ghost use Rattle.std.specs.List.{flat_map};
ghost use Rattle.ic_term.specs.Symbol.{Symbol, AreSymbols};
ghost use Rattle.ic_codec.specs.inner.Forms.{HaveSymbolBytes};
ghost use Rattle.ic_codec.specs.inner.Fronts.{BeginsWith, BeginsWithNone};
ghost use Rattle.ic_codec.specs.declared.fault.CodecFault.TheVariants.{NotATable};
ghost use Rattle.ic_codec.specs.inner.Room.{Fits, Appended};
ghost use Rattle.ic_codec.specs.Symbols.{symbol_bytes, symbols_bytes};

use crate::fault::CodecFault;
use crate::fields::{byte_at, put_byte, put_text, text_at};
use ic_term::laws::numbering_makes_exactly_such_symbols;
use ic_term::{MAX_SYMBOLS, SymbolFault, Symbols, is_symbol};
use std::alloc::Global;

/// Appends the number of symbols, then each of them in order.
pub(crate) fn put_symbols(symbols: &Symbols, out: &mut Vec<u8>)
    requires { Fits out.old (symbols_bytes symbols.now) }
    ensures { Appended out.old out.new (symbols_bytes symbols.now) }
{
    let count = symbols.len();
    put_byte(count as u8, out);
    for sym in 0..count {
        put_symbol(symbols, sym as u32, out);
    }
}

fn put_symbol(symbols: &Symbols, sym: u32, out: &mut Vec<u8>)
    requires there { sym < length symbols.now }
    requires fits { IfSome (slice_get symbols.now sym) (λ s. Fits out.old (symbol_bytes s)) }
    ensures { IfSome (slice_get symbols.now sym) (λ s. Appended out.old out.new (symbol_bytes s)) }
{
    put_text(symbols.text(sym), out);
    put_byte(symbols.arity(sym) as u8, out);
}

/// Symbols, their number first, and the bytes after them.
pub(crate) fn symbols_at(alloc: Global, bytes: &[u8]) -> Result<(Symbols, &[u8]), CodecFault>
    ensures read { IfOk result
        (λ r. BeginsWith HaveSymbolBytes symbols_bytes bytes.now r.0 r.1.now) }
    ensures refused { IfErr result (λ fault. fault ≡ NotATable
        → BeginsWithNone HaveSymbolBytes symbols_bytes bytes.now) }
{
    numbering_makes_exactly_such_symbols();
    let (count, mut rest) = byte_at(bytes)?;
    if count as usize > MAX_SYMBOLS {
        return Err(CodecFault::NotATable);
    }
    let mut symbols = Symbols::new(alloc);
    for _ in 0..count {
        rest = append_symbol_at(&mut symbols, rest)?;
    }
    // Read for the proof: what each value of the type keeps is known once it was read.
    let _count = symbols.len();
    Ok((symbols, rest))
}

/// Numbers the symbol that the bytes begin with as the next one, and answers the bytes after it.
fn append_symbol_at<'a>(symbols: &mut Symbols, bytes: &'a [u8]) -> Result<&'a [u8], CodecFault>
    ensures read { IfOk result (λ rest. (s : Symbol)
        × ((symbols.new ≡ symbols.old ++ s ∷ []) × (bytes.now ≡ symbol_bytes s ++ rest.now))) }
    ensures refused { IfErr result (λ fault. fault ≡ NotATable
        → (s : Symbol) (rest : List ℕ) → AreSymbols (symbols.old ++ s ∷ [])
        → bytes.now ≢ symbol_bytes s ++ rest) }
{
    let (text, rest) = text_at(bytes)?;
    let (arity, rest) = byte_at(rest)?;
    append_symbol(symbols, text, arity as usize)?;
    Ok(rest)
}

/// Numbers a symbol as the next one, if it can be the next.
fn append_symbol(symbols: &mut Symbols, text: &[u8], arity: usize) -> Result<(), CodecFault>
    ensures appended { OnOk result
        (symbols.new ≡ symbols.old ++ record { text = text.now; arity = arity } ∷ []) }
    ensures refused { IfErr result (λ fault. fault ≡ NotATable
        → ¬ AreSymbols (symbols.old ++ record { text = text.now; arity = arity } ∷ [])) }
{
    numbering_makes_exactly_such_symbols();
    let number = symbols.len();
    if !is_symbol(text) {
        return Err(CodecFault::NotATable);
    }
    match symbols.number(text, arity) {
        Ok(known) => {
            if known as usize == number {
                Ok(())
            } else {
                Err(CodecFault::NotATable)
            }
        }
        Err(SymbolFault::Memory) => Err(CodecFault::Memory),
        Err(_) => Err(CodecFault::NotATable),
    }
}

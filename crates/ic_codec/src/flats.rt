//! Configurations in flat form as bytes, and back.

ghost use Rattle.std.specs.Prelude.{◌≡◌, ◌≢◌, ◌+◌, ◌*◌, ◌≤◌, Ok, length, IfOk, IfErr};
ghost use Rattle.ic_term.specs.Configuration.{Configuration, restored};
ghost use Rattle.ic_flat.specs.Words.{forest, IsWhole};
ghost use Rattle.ic_flat.specs.Flat.{configuration_of};
ghost use Rattle.ic_codec.specs.inner.Fronts.{BeginsWith, BeginsWithNone, IsConfigurationOver};
ghost use Rattle.ic_codec.specs.inner.Room.{Fits, Appended};
ghost use Rattle.ic_codec.specs.Configurations.{configuration_bytes};
ghost use Rattle.ic_codec.specs.declared.fault.CodecFault.TheVariants.{NotATable};

use crate::fault::CodecFault;
use crate::fields::{byte_at, put_byte, put_two_bytes, two_bytes_at};
use crate::words::{put_words, words_at};
use ic_flat::{Flat, Word};
use ic_term::laws::restore_takes_configurations;
use ic_term::{ConfigFault, Symbols};
use std::alloc::Global;

/// Appends the interface and the equations, their numbers first.
pub(crate) fn put_flat(flat: &Flat, out: &mut Vec<u8>)
    requires { Fits out.old (configuration_bytes flat.now) }
    ensures { Appended out.old out.new (configuration_bytes flat.now) }
{
    put_byte(flat.interface_len() as u8, out);
    put_two_bytes(flat.equations_len() as u16, out);
    put_words(flat.words(), out);
}

/// A configuration over these symbols, with this `next`, and the bytes after it.
pub(crate) fn flat_at<'a>(
    alloc: Global,
    symbols: &Symbols,
    next: u64,
    bytes: &'a [u8],
) -> Result<(Flat, &'a [u8]), CodecFault>
    requires { length symbols.now ≤ 64 }
    ensures read { IfOk result (λ r.
        BeginsWith (IsConfigurationOver symbols.now next) configuration_bytes bytes.now
        r.0 r.1.now) }
    ensures refused { IfErr result (λ fault. fault ≡ NotATable
        → BeginsWithNone (IsConfigurationOver symbols.now next) configuration_bytes bytes.now) }
{
    restore_takes_configurations();
    let (terms, rest) = byte_at(bytes)?;
    let (pairs, rest) = two_bytes_at(rest)?;
    let (words, rest) = words_at(alloc, symbols, terms as usize + 2 * pairs as usize, rest)?;
    let flat = restore(alloc, words, terms as usize, pairs as usize, next)?;
    Ok((flat, rest))
}

/// The configuration that these words write, if they write one.
fn restore(
    alloc: Global,
    words: Vec<Word>,
    terms: usize,
    equations: usize,
    next: u64,
) -> Result<Flat, CodecFault>
    requires whole { IsWhole words.items }
    requires counted { length (forest words.items) ≡ terms + 2 * equations }
    ensures restored { IfOk result (λ flat. Ok flat
        ≡ restored (configuration_of words.items terms next)) }
    ensures refused { IfErr result (λ fault. fault ≡ NotATable → (c : Configuration)
        → restored (configuration_of words.items terms next) ≢ Ok c) }
{
    match Flat::restore(alloc, words, terms, equations, next) {
        Ok(flat) => Ok(flat),
        Err(ConfigFault::Memory) => Err(CodecFault::Memory),
        Err(_) => Err(CodecFault::NotATable),
    }
}

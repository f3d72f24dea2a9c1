//! Words as bytes, and back.

ghost use Rattle.std.specs.Prelude.{◌≡◌, ◌≤◌, Some, None, IfOk, IfErr, length, if◌then◌else◌};
ghost use Rattle.std.specs.List.{flat_map, list_all};
ghost use Rattle.ic_codec.specs.inner.Room.{AreBytes, Fits, Appended};
ghost use Rattle.ic_codec.specs.inner.Fronts.{BeginsWith, BeginsWithNone};
ghost use Rattle.ic_codec.specs.inner.WordFronts.{word_bytes, is_agent, HasWordBytes, BeginsWithWords, BeginsWithNoWords};
ghost use Rattle.ic_codec.specs.declared.fault.CodecFault.TheVariants.{NotATable};
ghost use Rattle.ic_codec.specs.declared.words.TheConstants.{GROUP};

use crate::fault::CodecFault;
use crate::fields::{byte_at, eight_bytes_at, put_byte, put_bytes, put_eight_bytes};
use crate::terms::NAME;
use ic_flat::Word;
use ic_term::{MAX_NODES, Symbols};
use std::alloc::Global;

/// So many words are written at a time.
const GROUP: usize = 16;

/// Appends words in order.
pub(crate) fn put_words(words: &[Word], out: &mut Vec<u8>)
    requires { Fits out.old (flat_map word_bytes words.now) }
    ensures { Appended out.old out.new (flat_map word_bytes words.now) }
{
    let mut place = 0;
    while words.len() - place >= GROUP {
        put_group(&words[place..place + GROUP], out);
        place += GROUP;
    }
    put_each(&words[place..], out);
}

/// Appends so many words in order. Where all are agents, as in a long term, their bytes are known before the first is
/// written.
#[inline(always)]
fn put_group(words: &[Word], out: &mut Vec<u8>)
    requires many { length words.now ≡ GROUP }
    requires fits { Fits out.old (flat_map word_bytes words.now) }
    ensures { Appended out.old out.new (flat_map word_bytes words.now) }
{
    match agent_bytes(words) {
        Some(bytes) => put_bytes(&bytes, out),
        None => put_each(words, out),
    }
}

/// The bytes of so many words, if all are agents.
#[inline(always)]
fn agent_bytes(words: &[Word]) -> Option<[u8; GROUP]>
    requires many { length words.now ≡ GROUP }
    requires bytes { AreBytes (flat_map word_bytes words.now) }
    ensures { result
        ≡ (if list_all is_agent words.now then Some (flat_map word_bytes words.now) else None) }
{
    let mut bytes = [0; GROUP];
    for place in 0..GROUP {
        match words[place] {
            Word::Agent(sym, _) => bytes[place] = sym as u8,
            Word::Name(_) => return None,
        }
    }
    Some(bytes)
}

/// Appends words in order, one by one.
#[inline(never)]
fn put_each(words: &[Word], out: &mut Vec<u8>)
    requires { Fits out.old (flat_map word_bytes words.now) }
    ensures { Appended out.old out.new (flat_map word_bytes words.now) }
{
    for word in words {
        put_word(*word, out);
    }
}

fn put_word(word: Word, out: &mut Vec<u8>)
    requires { Fits out.old (word_bytes word) }
    ensures { Appended out.old out.new (word_bytes word) }
{
    match word {
        Word::Name(name) => {
            put_byte(NAME, out);
            put_eight_bytes(name, out);
        }
        Word::Agent(sym, _) => put_byte(sym as u8, out),
    }
}

/// A word over known symbols, and the bytes after it.
fn word_at<'a>(symbols: &Symbols, bytes: &'a [u8]) -> Result<(Word, &'a [u8]), CodecFault>
    requires { length symbols.now ≤ 64 }
    ensures read { IfOk result (λ r.
        BeginsWith (HasWordBytes symbols.now) word_bytes bytes.now r.0 r.1.now) }
    ensures refused { IfErr result (λ fault. fault ≡ NotATable
        → BeginsWithNone (HasWordBytes symbols.now) word_bytes bytes.now) }
{
    let (first, rest) = byte_at(bytes)?;
    if first == NAME {
        let (name, rest) = eight_bytes_at(rest)?;
        return Ok((Word::Name(name), rest));
    }
    let sym = first as u32;
    if sym as usize >= symbols.len() {
        return Err(CodecFault::NotATable);
    }
    Ok((Word::Agent(sym, symbols.arity(sym)), rest))
}

/// The words of so many terms, at most 8,192 words, and the bytes after them.
pub(crate) fn words_at<'a>(
    alloc: Global,
    symbols: &Symbols,
    terms: usize,
    bytes: &'a [u8],
) -> Result<(Vec<Word>, &'a [u8]), CodecFault>
    requires { length symbols.now ≤ 64 }
    ensures read { IfOk result (λ r.
        BeginsWithWords symbols.now terms bytes.now r.0.items r.1.now) }
    ensures refused { IfErr result (λ fault. fault ≡ NotATable
        → BeginsWithNoWords symbols.now terms 8192 bytes.now) }
{
    let most = MAX_NODES as usize;
    if terms > most {
        return Err(CodecFault::NotATable);
    }
    let mut words = Vec::new(alloc);
    let mut due = terms;
    let mut spare = most - terms;
    let mut rest = bytes;
    while due > 0 {
        let (word, now_rest) = word_at(symbols, rest)?;
        let arguments = word.arguments();
        if arguments > spare {
            return Err(CodecFault::NotATable);
        }
        words.push(word)?;
        due = due - 1 + arguments;
        spare -= arguments;
        rest = now_rest;
    }
    Ok((words, rest))
}

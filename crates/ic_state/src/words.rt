//! Words as numbers, and back, in a narrow form or in the wide one.

ghost use Rattle.std.specs.Prelude.{◌≡◌, ◌↔◌, ◌<◌, ◌*◌, ◌++◌, true, IfOk, IfErr, IfSome, IsNone, OnOk, length, map};
ghost use Rattle.std.specs.List.{flat_map, AllByRecursion};
ghost use Rattle.ic_state.specs.Words.{agents_from, number_bytes, symbol_room, width, word_bytes, word_number, IsKeptWord};
ghost use Rattle.ic_state.specs.declared.fault.StateFault.TheVariants.{NotAState};

use crate::fault::StateFault;
use crate::fields::{number_at, short_number_at};
use ic_flat::Word;
use std::alloc::Global;

/// The number of the first agent in the wide form. Those below are of names.
pub(crate) const AGENTS: u64 = 9_223_372_036_854_775_808;

/// How many symbols have one number of arguments in the wide form.
pub(crate) const SYMBOLS: u64 = 4_294_967_296;

/// The number of the first agent in the narrow form.
pub(crate) const NARROW_AGENTS: u64 = 2_147_483_648;

/// How many symbols have one number of arguments in the narrow form.
pub(crate) const NARROW_SYMBOLS: u64 = 16_777_216;

/// The number of the first agent.
fn agents_from(narrow: bool) -> u64
    ensures { result ≡ agents_from narrow }
{
    if narrow { NARROW_AGENTS } else { AGENTS }
}

/// How many symbols have one number of arguments.
fn symbol_room(narrow: bool) -> u64
    ensures { result ≡ symbol_room narrow }
{
    if narrow { NARROW_SYMBOLS } else { SYMBOLS }
}

/// In how many bytes a word stands.
pub(crate) fn width(narrow: bool) -> usize
    ensures { result ≡ width narrow }
{
    if narrow { 4 } else { 8 }
}

/// The word of a number.
pub(crate) fn word_of(narrow: bool, number: u64) -> Word
    requires { number < 2 * agents_from narrow }
    ensures number { number ≡ word_number narrow result }
    ensures kept { IsKeptWord narrow result }
{
    let agents = agents_from(narrow);
    if number < agents {
        return Word::Name(number);
    }
    let symbols = symbol_room(narrow);
    let agent = number - agents;
    Word::Agent((agent % symbols) as u32, (agent / symbols) as usize)
}

/// The number of a word, if it has one: its name is below the first agent, and it has no symbol and no number of arguments beyond
/// those that have numbers.
fn number_of(narrow: bool, word: Word) -> Option<u64>
    ensures some { IfSome result (λ number.
        (number ≡ word_number narrow word) × IsKeptWord narrow word) }
    ensures none { IsNone result → ¬ IsKeptWord narrow word }
{
    let agents = agents_from(narrow);
    let symbols = symbol_room(narrow);
    match word {
        Word::Name(name) if name < agents => Some(name),
        Word::Agent(symbol, arguments)
            if (symbol as u64) < symbols && (arguments as u64) < agents / symbols => {
            Some(agents + arguments as u64 * symbols + symbol as u64)
        }
        _ => None,
    }
}

/// Whether each word has a number in the narrow form.
pub fn are_narrow(words: &[Word]) -> bool
    ensures { (result ≡ true) ↔ AllByRecursion (IsKeptWord true) words.now }
{
    for word in words {
        if number_of(true, *word).is_none() {
            return false;
        }
    }
    true
}

/// The number of a word, and the bytes after it.
fn word_number_at(narrow: bool, bytes: &[u8]) -> Result<(u64, &[u8]), StateFault>
    ensures read { IfOk result (λ r. bytes.now ≡ number_bytes narrow r.0 ++ r.1.now) }
    ensures small { IfOk result (λ r. r.0 < 2 * agents_from narrow) }
    ensures refused { IfErr result (λ fault. (fault ≡ NotAState)
        × (length bytes.now < width narrow)) }
{
    if narrow {
        let (number, rest) = short_number_at(bytes)?;
        return Ok((number as u64, rest));
    }
    number_at(bytes)
}

/// So many words, and the bytes after them.
pub(crate) fn words_at(
    alloc: Global,
    narrow: bool,
    count: u64,
    bytes: &[u8],
) -> Result<(Vec<Word>, &[u8]), StateFault>
    ensures count { IfOk result (λ r. length r.0.items ≡ count) }
    ensures read { IfOk result (λ r.
        bytes.now ≡ flat_map (word_bytes narrow) r.0.items ++ r.1.now) }
    ensures kept { IfOk result (λ r. AllByRecursion (IsKeptWord narrow) r.0.items) }
    ensures refused { IfErr result (λ fault. fault ≡ NotAState
        → length bytes.now < width narrow * count) }
{
    if count > (bytes.len() / width(narrow)) as u64 {
        return Err(StateFault::NotAState);
    }
    let mut words = Vec::with_capacity(alloc, count as usize)?;
    let mut rest = bytes;
    for _ in 0..count {
        let (number, now_rest) = word_number_at(narrow, rest)?;
        words.push(word_of(narrow, number))?;
        rest = now_rest;
    }
    Ok((words, rest))
}

/// How many words are spelled at a time.
const GROUP: usize = 512;

/// Appends words in order, if each has a number.
pub(crate) fn put_words(
    alloc: Global,
    narrow: bool,
    words: &[Word],
    out: &mut Vec<u8>,
) -> Result<(), StateFault>
    ensures appended { OnOk result
        (out.new.items ≡ out.old.items ++ flat_map (word_bytes narrow) words.now) }
    ensures kept { OnOk result (AllByRecursion (IsKeptWord narrow) words.now) }
    ensures refused { IfErr result (λ fault. fault ≡ NotAState
        → ¬ AllByRecursion (IsKeptWord narrow) words.now) }
{
    if narrow {
        put_groups::<4>(alloc, true, words, out)
    } else {
        put_groups::<8>(alloc, false, words, out)
    }
}

/// Appends words in order, group by group, if each has a number in so many bytes.
fn put_groups<const N: usize>(
    alloc: Global,
    narrow: bool,
    words: &[Word],
    out: &mut Vec<u8>,
) -> Result<(), StateFault>
    requires { N ≡ width narrow }
    ensures appended { OnOk result
        (out.new.items ≡ out.old.items ++ flat_map (word_bytes narrow) words.now) }
    ensures kept { OnOk result (AllByRecursion (IsKeptWord narrow) words.now) }
    ensures refused { IfErr result (λ fault. fault ≡ NotAState
        → ¬ AllByRecursion (IsKeptWord narrow) words.now) }
{
    let mut numbers = Vec::new(alloc);
    let mut place = 0;
    while place < words.len() {
        let end = words.len().min(place + GROUP);
        put_group::<N>(narrow, &words[place..end], &mut numbers, out)?;
        place = end;
    }
    Ok(())
}

/// Appends words in order by way of a list of their numbers, if each has one.
fn put_group<const N: usize>(
    narrow: bool,
    words: &[Word],
    numbers: &mut Vec<[u8; N]>,
    out: &mut Vec<u8>,
) -> Result<(), StateFault>
    requires { N ≡ width narrow }
    ensures appended { OnOk result
        (out.new.items ≡ out.old.items ++ flat_map (word_bytes narrow) words.now) }
    ensures kept { OnOk result (AllByRecursion (IsKeptWord narrow) words.now) }
    ensures refused { IfErr result (λ fault. fault ≡ NotAState
        → ¬ AllByRecursion (IsKeptWord narrow) words.now) }
{
    number_all(narrow, words, numbers)?;
    out.extend_from_slice(numbers.as_flattened())?;
    Ok(())
}

/// Makes this the list of the numbers of words in order, in so many bytes each, if each has one.
fn number_all<const N: usize>(
    narrow: bool,
    words: &[Word],
    numbers: &mut Vec<[u8; N]>,
) -> Result<(), StateFault>
    requires { N ≡ width narrow }
    ensures numbers { OnOk result (numbers.new.items ≡ map (word_bytes narrow) words.now) }
    ensures kept { OnOk result (AllByRecursion (IsKeptWord narrow) words.now) }
    ensures refused { IfErr result (λ fault. fault ≡ NotAState
        → ¬ AllByRecursion (IsKeptWord narrow) words.now) }
{
    numbers.clear();
    numbers.reserve(words.len())?;
    for word in words {
        let Some(bytes) = bytes_of::<N>(narrow, *word) else {
            return Err(StateFault::NotAState);
        };
        numbers.push_reserved(bytes);
    }
    Ok(())
}

/// The number of a word in so many bytes, if it has one.
fn bytes_of<const N: usize>(narrow: bool, word: Word) -> Option<[u8; N]>
    requires { N ≡ width narrow }
    ensures some { IfSome result (λ bytes.
        (bytes ≡ word_bytes narrow word) × IsKeptWord narrow word) }
    ensures none { IsNone result → ¬ IsKeptWord narrow word }
{
    let number = number_of(narrow, word)?;
    let mut bytes = [0; N];
    bytes.copy_from_slice(&number.to_be_bytes()[8 - N..]);
    Some(bytes)
}

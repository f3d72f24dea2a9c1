//! Words of a text as words in flat form, symbols as numbers: the limits of words, and the arities of symbols.

ghost use Rattle.std.specs.Prelude.{◌≡◌, ◌≢◌, ◌≤◌, ◌++◌, List, Ok, length, IfErr, IfOk, IfSome, OnOk, Some, slice_get};
ghost use Rattle.std.specs.List.{AllByRecursion};
ghost use Rattle.std.specs.Str.{bytes_eq};
ghost use Rattle.ic_term.specs.Symbol.{AreSymbols, Symbol};
ghost use Rattle.ic_text.specs.Limits.{most_symbols};
ghost use Rattle.ic_text.specs.inner.Prefix.{head_words, node_of, nodes_of};
ghost use Rattle.ic_text.specs.inner.Numbered.{IsWord, WordAnswers, word_found, table_with, counted_words, numbered_words, Gives};
ghost use Rattle.ic_text.specs.inner.Refused.{Takes, Stops, bare};

use crate::excess::{Excess, limit_at};
use crate::fault::TextFault;
use crate::limits::Limits;
use crate::misread::Limit;
use crate::name::{begins_name, is_name, name_number};
use crate::prefix::{Head, Node};
use crate::refusal::Refusal;
use ic_flat::Word;
use ic_term::{MAX_ARITY, MAX_SYMBOL_TEXT, SymbolFault, Symbols, is_symbol};
use std::alloc::Global;

/// How many symbols are remembered at most.
const REMEMBERED: usize = 1_024;

/// Where the number of a symbol is remembered. Several symbols may share a place.
fn place_of(text: &[u8]) -> usize {
    let mut hash = 0u32;
    for byte in text {
        hash = hash.wrapping_mul(31).wrapping_add(u32::from(*byte));
    }
    hash as usize % REMEMBERED
}

/// Remembers a number at a place, if there is such a place.
fn remember(numbers: &mut Vec<u32>, place: usize, number: u32) {
    if place < numbers.len() {
        numbers[place] = number;
    }
}

/// A number, if a node is the symbol that has it.
fn number_again(symbols: &Symbols, number: u32, node: &Node) -> Option<u32>
    ensures number { IfSome result
        (λ number. slice_get symbols.now number ≡ Some (node_of node.now)) }
    ensures sound { AreSymbols symbols.now }
{
    if number as usize >= symbols.len() {
        return None;
    }
    let same = are_same(symbols.text(number), node.text) && symbols.arity(number) == node.arity;
    same.then_some(number)
}

/// Whether these are the same bytes, compared one by one. For symbols, which are short, this takes fewer instructions
/// than `==` of slices.
#[inline(always)]
fn are_same(left: &[u8], right: &[u8]) -> bool
    ensures { result ≡ bytes_eq left.now right.now }
{
    if left.len() != right.len() {
        return false;
    }
    for i in 0..left.len() {
        if left[i] != right[i] {
            return false;
        }
    }
    true
}

/// A word with its number, which a symbol gets from the table, or from the numbers that are remembered.
fn number_word(
    limits: Limits,
    symbols: &mut Symbols,
    numbers: &mut Vec<u32>,
    node: &Node,
) -> Result<Word, SymbolFault>
    requires word { IsWord (node_of node.now) }
    requires few { length symbols.old ≤ most_symbols limits }
    ensures word { WordAnswers result (word_found limits symbols.old (node_of node.now)) }
    ensures symbols { OnOk result (symbols.new ≡ table_with symbols.old (node_of node.now)) }
    ensures same { IfErr result (λ fault. fault ≢ SymbolFault.Limit → symbols.new ≡ symbols.old) }
{
    if begins_name(node.text) {
        return match name_number(node.text) {
            Some(name) => Ok(Word::Name(name)),
            None => Err(SymbolFault::Limit),
        };
    }
    let place = place_of(node.text);
    let known = numbers.get(place).copied().unwrap_or(0);
    if let Some(number) = number_again(symbols, known, node) {
        return Ok(Word::Agent(number, node.arity));
    }
    let number = symbols.number(node.text, node.arity)?;
    if number as usize >= limits.symbols() {
        return Err(SymbolFault::Limit);
    }
    remember(numbers, place, number);
    Ok(Word::Agent(number, node.arity))
}

/// Whether a word passes a limit after those whose symbols are in the table.
fn passes_limit(
    limits: Limits,
    symbols: &mut Symbols,
    numbers: &mut Vec<u32>,
    node: &Node,
) -> bool {
    if !is_name(node.text) && !is_symbol(node.text) || symbols.len() > limits.symbols() {
        return false;
    }
    matches!(
        number_word(limits, symbols, numbers, node),
        Err(SymbolFault::Limit)
    )
}

/// The refusal of words of which there are too many: at the first one with which a limit is passed.
pub(crate) fn first_passed(
    alloc: Global,
    limits: Limits,
    nodes: &[Node],
    excess: Option<Excess>,
) -> Refusal
    ensures { result.fault ≡ TextFault.Limit }
{
    let Ok(mut numbers) = vec![in alloc; 0; REMEMBERED] else {
        return Refusal::untold(TextFault::Limit);
    };
    let mut symbols = Symbols::new(alloc);
    for (word, node) in nodes.iter().enumerate() {
        if let Some(limit) = limit_at(excess, word) {
            return Refusal::passed(word, limit);
        }
        if passes_limit(limits, &mut symbols, &mut numbers, node) {
            return Refusal::passed(word, limit_of(node));
        }
    }
    Refusal::untold(TextFault::Limit)
}

/// A symbol with two arities.
#[derive(Clone, Copy)]
pub(crate) struct Clash {
    word: usize,
    first: usize,
    second: usize,
}

/// The limit that a word passes which has no number.
fn limit_of(node: &Node) -> Limit {
    if is_name(node.text) {
        Limit::NameNumber
    } else if node.text.len() > MAX_SYMBOL_TEXT {
        Limit::SymbolBytes
    } else if node.arity > MAX_ARITY {
        Limit::Arguments
    } else {
        Limit::Symbols
    }
}

/// The arity of a symbol by its number, or 0 where there is none.
fn arity_of(symbols: &Symbols, number: u32) -> usize {
    if number as usize >= symbols.len() {
        return 0;
    }
    symbols.arity(number)
}

/// Words on their way to numbers: the symbols and the words so far, numbers of symbols by the places at which they are
/// remembered, and the first symbol that has two arities.
#[derive(Drop)]
pub(crate) struct Numbering {
    symbols: Symbols,
    words: Vec<Word>,
    numbers: Vec<u32>,
    clash: Option<Clash>,
}

impl Numbering {
    /// Numbers the word after so many others. Goes on after a symbol that has two arities, since limits come before
    /// arities.
    #[inline(always)]
    fn take(&mut self, limits: Limits, word: usize, node: &Node) -> Result<(), Refusal>
        requires word { IsWord (node_of node.now) }
        requires few { length self.old.symbols ≤ most_symbols limits }
        ensures went { OnOk result (Takes (node_of node.now)
            (word_found limits self.old.symbols (node_of node.now)) self.old self.new) }
        ensures stopped { IfErr result (λ refusal. Stops
            (word_found limits self.old.symbols (node_of node.now)) refusal.fault) }
    {
        match number_word(limits, &mut self.symbols, &mut self.numbers, node) {
            Ok(numbered) => {
                self.words.push(numbered)?;
                Ok(())
            }
            Err(SymbolFault::Limit) => Err(Refusal::passed(word, limit_of(node))),
            Err(SymbolFault::Arity(symbol)) => {
                self.clash = self.clash.or(Some(Clash {
                    word,
                    first: arity_of(&self.symbols, symbol),
                    second: node.arity,
                }));
                Ok(())
            }
            Err(SymbolFault::Memory) => Err(Refusal::untold(TextFault::Memory)),
        }
    }
}

/// The words with their numbers, and the table of symbols, unless a limit of how many they are is passed: then they are
/// numbered no further than to the word with which it is.
pub(crate) fn number_words(
    alloc: Global,
    limits: Limits,
    nodes: &[Node],
    excess: Option<Excess>,
) -> Result<(Symbols, Vec<Word>), Refusal>
    requires { AllByRecursion IsWord (nodes_of nodes.now) }
    ensures { Gives (λ v. (v.0, v.1.items)) (bare result)
        (counted_words limits excess (nodes_of nodes.now)) }
{
    let words = Vec::with_capacity(alloc, nodes.len())?;
    let numbers = vec![in alloc; 0; REMEMBERED]?;
    let symbols = Symbols::new(alloc);
    let mut numbering = Numbering {
        symbols,
        words,
        numbers,
        clash: None,
    };
    for (word, node) in nodes.iter().enumerate() {
        if let Some(limit) = limit_at(excess, word) {
            return Err(Refusal::passed(word, limit));
        }
        numbering.take(limits, word, node)?;
    }
    if let Some(excess) = excess {
        return Err(Refusal::passed(excess.word, excess.limit));
    }
    let Numbering {
        symbols,
        words,
        clash,
        ..
    } = numbering;
    match clash {
        Some(clash) => Err(Refusal::two_arities(clash.word, clash.first, clash.second)),
        None => Ok((symbols, words)),
    }
}

/// The same after words that are numbered already, of words that begin at places of a text. A refusal tells no word.
pub(crate) fn number_heads(
    alloc: Global,
    limits: Limits,
    symbols: Symbols,
    mut words: Vec<Word>,
    text: &[u8],
    heads: &[Head],
) -> Result<(Symbols, Vec<Word>), Refusal>
    requires words { AllByRecursion IsWord (head_words text.now heads.now) }
    requires few { length symbols ≤ most_symbols limits }
    ensures { IfOk result (λ v. (ws : List Symbol) →
        Ok (symbols, words.items) ≡ numbered_words limits ws →
        Ok (v.0, v.1.items) ≡ numbered_words limits (ws ++ head_words text.now heads.now)) }
{
    words.reserve(heads.len())?;
    let numbers = vec![in alloc; 0; REMEMBERED]?;
    let mut numbering = Numbering {
        symbols,
        words,
        numbers,
        clash: None,
    };
    for head in heads {
        let node = head.node(text);
        numbering.take(limits, 0, &node)?;
    }
    let Numbering {
        symbols,
        words,
        clash,
        ..
    } = numbering;
    match clash {
        Some(_) => Err(Refusal::untold(TextFault::Arity)),
        None => Ok((symbols, words)),
    }
}

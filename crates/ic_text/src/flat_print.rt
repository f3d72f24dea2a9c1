//! Printing a configuration in flat form, word by word.

ghost use Rattle.std.specs.Prelude.{◌≡◌, ◌+◌, ◌*◌, ◌<◌, ◌≤◌, ◌++◌, [], length, take, drop, reverse, vec_capacity, vec_len, IfOk, OnOk, IsTrue};
ghost use Rattle.std.specs.List.{list_all};
ghost use Rattle.ic_term.specs.Symbol.{is_over};
ghost use Rattle.ic_flat.specs.Words.{arguments, forest, IsWhole, is_word_over};
ghost use Rattle.ic_flat.specs.Flat.{configuration_of, pairs_of};
ghost use Rattle.ic_text.specs.Text.{term_text, printed};
ghost use Rattle.ic_text.specs.inner.Printing.{terms_text, equation_text, equations_text};
ghost use Rattle.ic_text.specs.inner.WordTexts.{word_text, closing, lacking, after_word, Begins, comma_before, first_text};

use crate::print::put_name;
use ic_flat::{Flat, Word};
use ic_term::Symbols;
use std::alloc::{AllocError, Global};

/// Up to so many bytes are put one by one.
const FEW: usize = 8;

/// Appends the text of a symbol, and takes memory for a byte more. Most have a few bytes, and putting these takes less than a
/// copy does.
#[inline(always)]
fn put_symbol(text: &[u8], out: &mut Vec<u8>) -> Result<(), AllocError>
    ensures text { OnOk result (out.new.items ≡ out.old.items ++ text.now) }
    ensures room { OnOk result (vec_len out.new < vec_capacity out.new) }
{
    if text.len() > FEW {
        out.extend_from_slice(text)?;
        return out.reserve(1);
    }
    out.reserve(text.len() + 1)?;
    for byte in text {
        out.push_reserved(*byte);
    }
    Ok(())
}

/// Appends what follows a term, up to the next one: closes each agent that has all its arguments. Tells whether a
/// further term comes.
#[inline(always)]
fn close(due: &mut Vec<usize>, out: &mut Vec<u8>) -> Result<bool, AllocError>
    ensures { IfOk result (λ more. Begins (closing (reverse due.old.items))
        (lacking (reverse due.old.items)) out.old.items out.new.items more
        (reverse due.new.items)) }
{
    while let Some(left) = due.pop() {
        if left > 0 {
            due.push(left - 1)?;
            out.push(b',')?;
            return Ok(true);
        }
        out.push(b')')?;
    }
    Ok(false)
}

/// Appends what follows a word of so many arguments, up to the next one. Tells whether a further term comes. There is memory for
/// a byte.
#[inline(always)]
fn put_mark(arguments: usize, due: &mut Vec<usize>, out: &mut Vec<u8>) -> Result<bool, AllocError>
    requires { vec_len out.old < vec_capacity out.old }
    ensures { IfOk result (λ more. Begins (after_word arguments (reverse due.old.items))
        (arguments + lacking (reverse due.old.items)) out.old.items out.new.items more
        (reverse due.new.items)) }
{
    if arguments > 0 {
        due.push(arguments - 1)?;
        out.push_reserved(b'(');
        return Ok(true);
    }
    close(due, out)
}

/// Appends a word, and what follows it up to the next one. Tells whether a further term comes.
fn put_word(
    symbols: &Symbols,
    word: Word,
    due: &mut Vec<usize>,
    out: &mut Vec<u8>,
) -> Result<bool, AllocError>
    requires { IsTrue (is_word_over symbols.now word) }
    ensures { IfOk result (λ more. Begins (λ texts. word_text symbols.now word
        ++ after_word (arguments word) (reverse due.old.items) texts)
        (arguments word + lacking (reverse due.old.items)) out.old.items out.new.items more
        (reverse due.new.items)) }
{
    match word {
        Word::Name(name) => {
            put_name(name, out)?;
            close(due, out)
        }
        Word::Agent(sym, arguments) => {
            put_symbol(symbols.text(sym), out)?;
            put_mark(arguments, due, out)
        }
    }
}

/// Appends the term that begins at a place, and tells the place after it. The list is empty before and after: it holds
/// how many arguments each agent that is open lacks.
fn put_term(
    symbols: &Symbols,
    words: &[Word],
    place: usize,
    due: &mut Vec<usize>,
    out: &mut Vec<u8>,
) -> Result<usize, AllocError>
    requires whole { IsWhole words.now }
    requires over { IsTrue (list_all (is_word_over symbols.now) words.now) }
    requires there { place < length words.now }
    requires none_open { due.old.items ≡ [] }
    ensures text { OnOk result (out.new.items ≡ out.old.items
        ++ first_text (term_text symbols.now) (forest (drop place words.now))) }
    ensures rest { IfOk result (λ end. forest (drop end words.now)
        ≡ drop 1 (forest (drop place words.now))) }
    ensures none_open { OnOk result (due.new.items ≡ []) }
{
    let mut end = place;
    let mut more = true;
    while more {
        more = put_word(symbols, words[end], due, out)?;
        end += 1;
    }
    Ok(end)
}

/// Appends the comma before the element at a place of a list.
fn put_comma(place: usize, out: &mut Vec<u8>) -> Result<(), AllocError>
    ensures { OnOk result (out.new.items ≡ out.old.items ++ comma_before place) }
{
    if place > 0 {
        out.push(b',')?;
    }
    Ok(())
}

/// Appends so many terms from the first one on, and tells the place after them.
fn put_interface(
    symbols: &Symbols,
    words: &[Word],
    count: usize,
    due: &mut Vec<usize>,
    out: &mut Vec<u8>,
) -> Result<usize, AllocError>
    requires whole { IsWhole words.now }
    requires over { IsTrue (list_all (is_word_over symbols.now) words.now) }
    requires there { count ≤ length (forest words.now) }
    requires none_open { due.old.items ≡ [] }
    ensures text { OnOk result (out.new.items ≡ out.old.items
        ++ terms_text symbols.now (take count (forest words.now))) }
    ensures rest { IfOk result (λ end. forest (drop end words.now)
        ≡ drop count (forest words.now)) }
    ensures none_open { OnOk result (due.new.items ≡ []) }
{
    let mut end = 0;
    for i in 0..count {
        put_comma(i, out)?;
        end = put_term(symbols, words, end, due, out)?;
    }
    Ok(end)
}

/// Appends the equation whose left side begins at a place, and tells the place after it.
fn put_equation(
    symbols: &Symbols,
    words: &[Word],
    place: usize,
    due: &mut Vec<usize>,
    out: &mut Vec<u8>,
) -> Result<usize, AllocError>
    requires whole { IsWhole words.now }
    requires over { IsTrue (list_all (is_word_over symbols.now) words.now) }
    requires there { 2 ≤ length (forest (drop place words.now)) }
    requires none_open { due.old.items ≡ [] }
    ensures text { OnOk result (out.new.items ≡ out.old.items
        ++ first_text (equation_text symbols.now) (pairs_of (forest (drop place words.now)))) }
    ensures rest { IfOk result (λ end. forest (drop end words.now)
        ≡ drop 2 (forest (drop place words.now))) }
    ensures none_open { OnOk result (due.new.items ≡ []) }
{
    let right = put_term(symbols, words, place, due, out)?;
    out.push(b'=')?;
    put_term(symbols, words, right, due, out)
}

/// Appends so many equations, all that there are from a place on.
fn put_equations(
    symbols: &Symbols,
    words: &[Word],
    place: usize,
    count: usize,
    due: &mut Vec<usize>,
    out: &mut Vec<u8>,
) -> Result<(), AllocError>
    requires whole { IsWhole words.now }
    requires over { IsTrue (list_all (is_word_over symbols.now) words.now) }
    requires counted { length (forest (drop place words.now)) ≡ 2 * count }
    requires none_open { due.old.items ≡ [] }
    ensures { OnOk result (out.new.items ≡ out.old.items
        ++ equations_text symbols.now (pairs_of (forest (drop place words.now)))) }
{
    let mut end = place;
    for i in 0..count {
        put_comma(i, out)?;
        end = put_equation(symbols, words, end, due, out)?;
    }
    Ok(())
}

/// Appends the text of the configuration that words write, so many of their terms in its interface, the others as the
/// sides of so many equations. Where a growth is refused a part of it may stand there.
pub fn put_words(
    alloc: Global,
    symbols: &Symbols,
    words: &[Word],
    terms: usize,
    equations: usize,
    out: &mut Vec<u8>,
) -> Result<(), AllocError>
    requires whole { IsWhole words.now }
    requires over { IsTrue (list_all (is_word_over symbols.now) words.now) }
    requires counted { length (forest words.now) ≡ terms + 2 * equations }
    ensures { OnOk result (out.new.items
        ≡ out.old.items ++ printed symbols.now (configuration_of words.now terms 0)) }
{
    let mut due = Vec::new(alloc);
    out.push(b'<')?;
    let place = put_interface(symbols, words, terms, &mut due, out)?;
    out.push(b'|')?;
    put_equations(symbols, words, place, equations, &mut due, out)?;
    out.push(b'>')?;
    Ok(())
}

/// Appends the text of a configuration, as `print_flat` writes it. Where a growth is refused a part of it may stand
/// there.
pub fn put_flat(
    alloc: Global,
    symbols: &Symbols,
    flat: &Flat,
    out: &mut Vec<u8>,
) -> Result<(), AllocError>
    requires { IsTrue (is_over symbols.now flat.now) }
    ensures { OnOk result (out.new.items ≡ out.old.items ++ printed symbols.now flat.now) }
{
    let (terms, equations) = (flat.interface_len(), flat.equations_len());
    put_words(alloc, symbols, flat.words(), terms, equations, out)
}

/// The text of a configuration without blanks, each name in its one spelling: what `print_config` writes of the same
/// configuration. Takes memory for as many agents as stand in one another.
pub fn print_flat(alloc: Global, symbols: &Symbols, flat: &Flat) -> Result<Vec<u8>, AllocError>
    requires { IsTrue (is_over symbols.now flat.now) }
    ensures { IfOk result (λ text. text.items ≡ printed symbols.now flat.now) }
{
    let mut out = Vec::new(alloc);
    put_flat(alloc, symbols, flat, &mut out)?;
    Ok(out)
}

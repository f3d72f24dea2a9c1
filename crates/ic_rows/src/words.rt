//! Words of rows.

use ic_flat::{Flat, Word, end_of_term, terms_in};
use ic_notation::{Trouble, decimal, expanded};
use std::alloc::{AllocError, Global};

/// A number in decimal.
fn number(text: &str) -> Result<u64, Trouble> {
    match u64::from_str_radix(text, 10) {
        Ok(number) => Ok(number),
        Err(_) => Err(Trouble("no number")),
    }
}

/// The first word as a number, and what follows it.
pub fn number_first(text: &str) -> Result<(u64, &str), Trouble> {
    let (first, rest) = text.split_once(' ').unwrap_or((text, ""));
    Ok((number(first)?, rest))
}

fn word_of(text: &str) -> Result<Word, Trouble> {
    match text.split_once('/') {
        None => Ok(Word::Name(number(text)?)),
        Some((sym, arity)) => match u32::from_str_radix(sym, 10) {
            Ok(sym) => Ok(Word::Agent(sym, number(arity)? as usize)),
            Err(_) => Err(Trouble("no symbol")),
        },
    }
}

/// The words of a text, with blanks between them.
fn words_of(alloc: Global, text: &str) -> Result<Vec<Word>, Trouble> {
    match str::from_utf8(&expanded(alloc, text)?) {
        Ok(text) => words_in(alloc, text),
        Err(_) => Err(Trouble("no text")),
    }
}

fn words_in(alloc: Global, text: &str) -> Result<Vec<Word>, Trouble> {
    let mut words = Vec::new(alloc);
    for part in text.split_whitespace() {
        words.push(word_of(part)?)?;
    }
    Ok(words)
}

fn put_word(line: &mut Vec<u8>, word: Word) -> Result<(), AllocError> {
    match word {
        Word::Name(name) => decimal(line, name),
        Word::Agent(sym, arity) => {
            decimal(line, u64::from(sym))?;
            line.push(b'/')?;
            decimal(line, arity as u64)
        }
    }
}

/// The words of a configuration and its numbers.
pub fn described(alloc: Global, flat: &Flat) -> Result<Vec<u8>, Trouble> {
    let mut line = Vec::new(alloc);
    for word in flat.words() {
        put_word(&mut line, *word)?;
        line.push(b' ')?;
    }
    line.push(b';')?;
    let counts = [
        flat.interface_len() as u64,
        flat.equations_len() as u64,
        flat.nodes(),
        flat.next(),
    ];
    for count in counts {
        line.push(b' ')?;
        decimal(&mut line, count)?;
    }
    Ok(line)
}

/// The configuration of words with so many terms in its interface, or why there is none.
pub fn made(
    alloc: Global,
    terms: usize,
    next: Option<u64>,
    text: &str,
) -> Result<Vec<u8>, Trouble> {
    let words = words_of(alloc, text)?;
    let Some(count) = terms_in(&words) else {
        return Ok(Vec::from_slice(alloc, b"not whole")?);
    };
    if count < terms || (count - terms) % 2 != 0 {
        return Ok(Vec::from_slice(alloc, b"another count")?);
    }
    let equations = (count - terms) / 2;
    let answer = match next {
        Some(next) => Flat::restore(alloc, words, terms, equations, next),
        None => Flat::new(alloc, words, terms, equations),
    };
    match answer {
        Ok(flat) => described(alloc, &flat),
        Err(fault) => Ok(format!(in alloc; "{fault:?}")?.into_bytes()),
    }
}

/// The places after the terms that words write.
pub fn ends(alloc: Global, text: &str) -> Result<Vec<u8>, Trouble> {
    ends_in(alloc, &words_of(alloc, text)?)
}

fn ends_in(alloc: Global, words: &[Word]) -> Result<Vec<u8>, Trouble> {
    let Some(count) = terms_in(words) else {
        return Err(Trouble("not whole"));
    };
    let mut line = Vec::new(alloc);
    let mut place = 0;
    for _ in 0..count {
        if place < words.len() {
            place = end_of_term(words, place);
            decimal(&mut line, place as u64)?;
            line.push(b' ')?;
        }
    }
    Ok(line)
}

//! Nets told in the words of a text: what `put_words` of `ic_text` writes of one, and what `dot` of `ic_nets` draws.
//!
//! A line is read byte by byte, and each term is told as it comes. What is open stands on a stack, on which a list is one entry, and so
//! is a number.

use crate::restoring::restored;
use crate::segments::last_of;
use crate::shorthands::is_number;
use crate::tokens::first_word;
use crate::wording::Wording;
use std::alloc::{AllocError, Global};

/// What is open.
#[derive(Clone, Copy)]
enum Open {
    /// The arguments of a symbol or of a pair.
    Arguments,
    /// A symbol that is told with a number: so many `)` follow, and the last one is told.
    Power(u64),
    /// What is told as a whole: so many `)` follow, and none is told.
    Told(u64),
    /// A list with so many entries, before the `,` after the last one.
    Entry(u64),
    /// The same after it.
    Rest(u64),
    /// A list with so many entries, after `|`.
    Tail(u64),
}

/// What is told of a line.
#[derive(Drop)]
struct Telling<'w> {
    alloc: Global,
    wording: &'w Wording,
    open: Vec<Open>,
    /// How often the symbol of one more stands before what is told next.
    counted: u64,
    out: Vec<u8>,
}

/// A line of a net in these words.
pub fn told_line(alloc: Global, wording: &Wording, line: &[u8]) -> Result<Vec<u8>, AllocError> {
    match restored(alloc, &wording.waiters, wording.next_name(), line)? {
        Some(line) => told_in(alloc, wording, &line),
        None => told_in(alloc, wording, line),
    }
}

/// A line of a net, in which no agent waits, in these words.
fn told_in(alloc: Global, wording: &Wording, line: &[u8]) -> Result<Vec<u8>, AllocError> {
    let mut telling = Telling {
        alloc,
        wording,
        open: Vec::new(alloc),
        counted: 0,
        out: Vec::new(alloc),
    };
    let mut left = 0usize;
    for place in 0..line.len() {
        if left > 0 {
            left -= 1;
        } else {
            let read = telling.tell(&line[place..])?;
            left = read.saturating_sub(1);
        }
    }
    Ok(telling.out)
}

impl Telling<'_> {
    /// Tells what a line begins with. It answers of how many bytes that is.
    fn tell(&mut self, line: &[u8]) -> Result<usize, AllocError> {
        let word = first_word(line);
        if word.is_empty() {
            let (mark, _) = line.split_at(line.len().min(1));
            self.tell_mark(mark)?;
            return Ok(1);
        }
        let opens = line.get(word.len()).copied() == Some(b'(');
        match self.open.pop() {
            Some(Open::Rest(count)) => self.tell_rest(count, word, opens)?,
            Some(open) => {
                self.open.push(open)?;
                self.tell_term(word, opens)?;
            }
            None => self.tell_term(word, opens)?,
        }
        Ok(word.len().saturating_add(usize::from(opens)))
    }

    /// Tells the word with which a list goes on, and whether it opens arguments.
    fn tell_rest(&mut self, count: u64, word: &[u8], opens: bool) -> Result<(), AllocError> {
        let list = &self.wording.list;
        if opens && word == list.more.as_slice() {
            self.open.push(Open::Entry(count.saturating_add(1)))?;
            Ok(self.out.push(b',')?)
        } else if !opens && word == list.none.as_slice() {
            self.open.push(Open::Told(count))?;
            Ok(self.out.push(b']')?)
        } else {
            self.open.push(Open::Tail(count))?;
            self.out.push(b'|')?;
            self.tell_term(word, opens)
        }
    }

    /// Tells the word with which a term begins. The symbol of one more is counted.
    fn tell_term(&mut self, word: &[u8], opens: bool) -> Result<(), AllocError> {
        let number = &self.wording.number;
        if opens && word == number.more.as_slice() {
            self.counted = self.counted.saturating_add(1);
            return Ok(());
        }
        let count = self.counted;
        self.counted = 0;
        if count > 0 && !opens && word == number.none.as_slice() {
            self.open.push(Open::Told(count))?;
            return self.put_number(count);
        }
        if count > 0 {
            self.put_power(count)?;
        }
        self.tell_agent(word, opens)
    }

    fn put_number(&mut self, number: u64) -> Result<(), AllocError> {
        let digits = number.to_string(self.alloc)?;
        self.out.extend_from_slice(digits.as_bytes())
    }

    /// Puts the symbol of one more as often, by `^` unless once is enough. One of digits would be a number then.
    fn put_power(&mut self, count: u64) -> Result<(), AllocError> {
        let symbol = &self.wording.number.more;
        let is_number = is_number(symbol);
        self.out.extend_from_slice(symbol)?;
        if count > 1 || is_number {
            self.out.push(b'^')?;
            self.put_number(count)?;
        }
        self.out.push(b'(')?;
        Ok(self.open.push(Open::Power(count))?)
    }

    /// Tells the word with which another term begins.
    fn tell_agent(&mut self, word: &[u8], opens: bool) -> Result<(), AllocError> {
        if !opens {
            return self.tell_leaf(word);
        }
        if word == self.wording.list.more.as_slice() {
            self.open.push(Open::Entry(1))?;
            return Ok(self.out.push(b'[')?);
        }
        if word != self.wording.pair.more.as_slice() {
            self.out.extend_from_slice(word)?;
        }
        self.open.push(Open::Arguments)?;
        Ok(self.out.push(b'(')?)
    }

    /// Tells a name, or a symbol without arguments.
    fn tell_leaf(&mut self, word: &[u8]) -> Result<(), AllocError> {
        if word == self.wording.number.none.as_slice() {
            return Ok(self.out.push(b'0')?);
        }
        if word == self.wording.list.none.as_slice() {
            return self.out.extend_from_slice(b"[]".as_slice());
        }
        match self.wording.name_of(word) {
            Some(name) => self.out.extend_from_slice(name),
            None => self.out.extend_from_slice(word),
        }
    }

    /// Tells a byte that is of no word.
    fn tell_mark(&mut self, mark: &[u8]) -> Result<(), AllocError> {
        match mark.first() {
            Some(b')') => self.tell_end(mark),
            Some(b',') => self.tell_comma(mark),
            _ => self.out.extend_from_slice(mark),
        }
    }

    /// Tells a `,`, but none of a list.
    fn tell_comma(&mut self, mark: &[u8]) -> Result<(), AllocError> {
        match self.open.pop() {
            Some(Open::Entry(count)) => Ok(self.open.push(Open::Rest(count))?),
            Some(open) => {
                self.open.push(open)?;
                self.out.extend_from_slice(mark)
            }
            None => self.out.extend_from_slice(mark),
        }
    }

    /// Tells a `)`, or what closes a list.
    fn tell_end(&mut self, mark: &[u8]) -> Result<(), AllocError> {
        match self.open.pop() {
            Some(Open::Power(count)) if count > 1 => Ok(self.open.push(Open::Power(count - 1))?),
            Some(Open::Told(count)) => self.leave(count),
            Some(Open::Tail(count)) => {
                self.out.push(b']')?;
                self.leave(count)
            }
            _ => self.out.extend_from_slice(mark),
        }
    }

    /// Passes one of so many `)` of what is told.
    fn leave(&mut self, count: u64) -> Result<(), AllocError> {
        if count > 1 {
            self.open.push(Open::Told(count - 1))?;
        }
        Ok(())
    }
}

/// A graph of a net, of which each free name has that label which it has in these words.
pub fn told_graph(alloc: Global, wording: &Wording, graph: &[u8]) -> Result<Vec<u8>, AllocError> {
    let mut out = Vec::new(alloc);
    let end = last_of(graph, b'}').unwrap_or(graph.len());
    let (front, end) = graph.split_at(end.min(graph.len()));
    out.extend_from_slice(front)?;
    for (name, word) in &wording.names {
        if let Some(word) = word {
            out.extend_from_slice(name)?;
            out.extend_from_slice(b" [label=\"".as_slice())?;
            out.extend_from_slice(word)?;
            out.extend_from_slice(b"\"]\n".as_slice())?;
        }
    }
    out.extend_from_slice(end)?;
    Ok(out)
}

//! Nets in which agents that wait are told as the two agents that they were.

use crate::segments::{last_of, part_of};
use crate::tokens::first_word;
use std::alloc::{AllocError, Global};
use std::collections::BTreeMap;

/// How many agents within one another are told of one that waits at most. One of more is told as it is.
const MAX_DEPTH: usize = 64;

/// An agent that waits: what two agents became.
#[derive(Drop)]
pub(crate) struct Waiter {
    pub(crate) symbols: [Vec<u8>; 2],
    /// How many arguments the left one has.
    pub(crate) left: usize,
    /// For which of their arguments it waits.
    pub(crate) column: usize,
}

/// Agents that wait by their symbols.
pub(crate) type Waiters = BTreeMap<Vec<u8>, Waiter>;

/// What is open in a line.
#[derive(Drop)]
enum Open {
    /// The arguments of a symbol.
    Arguments,
    /// Those of an agent that waits with this symbol: the ones that are read.
    Waiting(Vec<u8>, Vec<Vec<u8>>),
}

/// A line that is written anew.
#[derive(Drop)]
struct Restoring<'w> {
    alloc: Global,
    waiters: &'w Waiters,
    open: Vec<Open>,
    /// The argument of each agent that waits and is open, as far as it is written, after the line.
    parts: Vec<Vec<u8>>,
    equations: Vec<Vec<u8>>,
    /// The number of the next name.
    next: u64,
}

/// The number of a name of the calculus, or 0.
pub(crate) fn name_number(word: &[u8]) -> u64 {
    let Some((letter, digits)) = word.split_first() else {
        return 0;
    };
    if !letter.is_ascii_lowercase() {
        return 0;
    }
    let mut number = 0u64;
    for digit in digits {
        number = number
            .saturating_mul(10)
            .saturating_add(u64::from(digit.saturating_sub(b'0')));
    }
    let place = u64::from(letter.saturating_sub(b'a'));
    number.saturating_mul(26).saturating_add(place)
}

/// The name of the calculus with a number.
fn name_of(alloc: Global, number: u64) -> Result<Vec<u8>, AllocError> {
    let letters = b"abcdefghijklmnopqrstuvwxyz".as_slice();
    let place = usize::try_from(number % 26).unwrap_or(0);
    let mut name = Vec::new(alloc);
    name.push(letters.get(place).copied().unwrap_or(b'a'))?;
    if number >= 26 {
        let digits = (number / 26).to_string(alloc)?;
        name.extend_from_slice(digits.as_bytes())?;
    }
    Ok(name)
}

/// One more than the greatest number of a name in a line.
fn next_name(line: &[u8]) -> u64 {
    let (mut next, mut left) = (0u64, 0usize);
    for place in 0..line.len() {
        if left > 0 {
            left -= 1;
        } else {
            let word = first_word(&line[place..]);
            left = word.len().saturating_sub(1);
            next = next.max(name_number(word).saturating_add(1));
        }
    }
    next
}

/// Whether a line has an agent that waits.
fn has_waiter(waiters: &Waiters, line: &[u8]) -> bool {
    let mut left = 0usize;
    for place in 0..line.len() {
        if left > 0 {
            left -= 1;
        } else {
            let word = first_word(&line[place..]);
            left = word.len().saturating_sub(1);
            if waiters.get(word).is_some() {
                return true;
            }
        }
    }
    false
}

/// An agent of a symbol and arguments.
fn agent(alloc: Global, symbol: &[u8], args: &[Vec<u8>]) -> Result<Vec<u8>, AllocError> {
    let mut out = symbol.to_vec(alloc)?;
    let mut mark = b'(';
    for arg in args {
        out.push(mark)?;
        out.extend_from_slice(arg)?;
        mark = b',';
    }
    if !args.is_empty() {
        out.push(b')')?;
    }
    Ok(out)
}

/// Arguments with one more at a place.
fn with_arg(
    alloc: Global,
    args: Vec<Vec<u8>>,
    column: usize,
    arg: Vec<u8>,
) -> Result<Vec<Vec<u8>>, AllocError> {
    let mut out = Vec::new(alloc);
    let mut left = Some(arg);
    for (place, other) in args.into_iter().enumerate() {
        if place == column {
            if let Some(arg) = left.take() {
                out.push(arg)?;
            }
        }
        out.push(other)?;
    }
    if let Some(arg) = left.take() {
        out.push(arg)?;
    }
    Ok(out)
}

impl Restoring<'_> {
    /// Writes bytes.
    fn put(&mut self, bytes: &[u8]) -> Result<(), AllocError> {
        match self.parts.last_mut() {
            Some(part) => part.extend_from_slice(bytes),
            None => Ok(()),
        }
    }

    /// Writes a word, whose arguments may follow.
    fn put_word(&mut self, word: &[u8], opens: bool) -> Result<(), AllocError> {
        if self.waiters.get(word).is_none() || self.depth_of(word) > MAX_DEPTH {
            if opens {
                self.open.push(Open::Arguments)?;
            }
            self.put(word)?;
            return if opens {
                self.put(b"(".as_slice())
            } else {
                Ok(())
            };
        }
        if !opens {
            return self.put_equation(word, Vec::new(self.alloc));
        }
        let symbol = word.to_vec(self.alloc)?;
        self.open.push(Open::Waiting(symbol, Vec::new(self.alloc)))?;
        Ok(self.parts.push(Vec::new(self.alloc))?)
    }

    /// Of how many agents one was made that waits, at most one more than are told.
    fn depth_of(&self, symbol: &[u8]) -> usize {
        let mut symbol = symbol;
        for depth in 0..=MAX_DEPTH {
            match self.waiters.get(symbol) {
                Some(waiter) => {
                    let [one, _] = &waiter.symbols;
                    symbol = one.as_slice();
                }
                None => return depth,
            }
        }
        MAX_DEPTH.saturating_add(1)
    }

    /// Ends with an argument of an agent that waits.
    fn end_argument(&mut self, args: &mut Vec<Vec<u8>>) -> Result<(), AllocError> {
        match self.parts.pop() {
            Some(part) => Ok(args.push(part)?),
            None => Ok(()),
        }
    }

    /// Writes a byte that is of no word.
    fn put_mark(&mut self, mark: u8) -> Result<(), AllocError> {
        let is_end = mark == b')';
        if !is_end && mark != b',' {
            return self.put(&[mark]);
        }
        match self.open.pop() {
            Some(Open::Waiting(symbol, mut args)) => {
                self.end_argument(&mut args)?;
                if is_end {
                    return self.put_equation(&symbol, args);
                }
                self.open.push(Open::Waiting(symbol, args))?;
                Ok(self.parts.push(Vec::new(self.alloc))?)
            }
            Some(Open::Arguments) if !is_end => {
                self.open.push(Open::Arguments)?;
                self.put(&[mark])
            }
            Some(Open::Arguments) | None => self.put(&[mark]),
        }
    }

    /// Writes a name in the place of an agent that waits, and notes the equation of the agents that it was.
    fn put_equation(&mut self, symbol: &[u8], args: Vec<Vec<u8>>) -> Result<(), AllocError> {
        let name = name_of(self.alloc, self.next)?;
        self.next = self.next.saturating_add(1);
        self.put(&name)?;
        let mut symbol = symbol.to_vec(self.alloc)?;
        let (mut args, mut right) = (args, name);
        for _ in 0..=MAX_DEPTH {
            let Some(waiter) = self.waiters.get(symbol.as_slice()) else {
                break;
            };
            let [one, other] = &waiter.symbols;
            let all = with_arg(self.alloc, args, waiter.column, right)?;
            let (front, rest) = all.split_at(waiter.left.min(all.len()));
            right = agent(self.alloc, other, rest)?;
            args = copied(self.alloc, front)?;
            symbol = one.to_vec(self.alloc)?;
        }
        let mut equation = agent(self.alloc, &symbol, &args)?;
        equation.push(b'=')?;
        equation.extend_from_slice(&right)?;
        Ok(self.equations.push(equation)?)
    }

    /// Writes the word or the byte with which a line begins. It answers how many bytes more that is.
    fn step(&mut self, line: &[u8], byte: u8) -> Result<usize, AllocError> {
        let word = first_word(line);
        if word.is_empty() {
            self.put_mark(byte)?;
            return Ok(0);
        }
        let opens = line.get(word.len()).copied() == Some(b'(');
        self.put_word(word, opens)?;
        Ok(
            word.len()
                .saturating_add(usize::from(opens))
                .saturating_sub(1),
        )
    }

    /// The line, with the equations at its end.
    fn ended(self) -> Result<Vec<u8>, AllocError> {
        let Restoring {
            alloc,
            waiters: _,
            open: _,
            parts,
            equations,
            next: _,
        } = self;
        let mut out = Vec::new(alloc);
        for part in &parts {
            out.extend_from_slice(part)?;
        }
        let at = last_of(&out, b'>').unwrap_or(out.len());
        let end = part_of(&out, at, out.len()).to_vec(alloc)?;
        out.truncate(at);
        for equation in &equations {
            if out.last().copied() != Some(b'|') {
                out.push(b',')?;
            }
            out.extend_from_slice(equation)?;
        }
        out.extend_from_slice(&end)?;
        Ok(out)
    }
}

/// Copies of some texts.
fn copied(alloc: Global, texts: &[Vec<u8>]) -> Result<Vec<Vec<u8>>, AllocError> {
    let mut out = Vec::new(alloc);
    for text in texts {
        out.push(text.to_vec(alloc)?)?;
    }
    Ok(out)
}

/// A line of a net, in which each agent that waits is a name, and what it was is an equation; or nothing, if none waits. No new name
/// is one of the others.
pub(crate) fn restored(
    alloc: Global,
    waiters: &Waiters,
    others: u64,
    line: &[u8],
) -> Result<Option<Vec<u8>>, AllocError> {
    if !has_waiter(waiters, line) {
        return Ok(None);
    }
    let mut parts = Vec::new(alloc);
    parts.push(Vec::new(alloc))?;
    let mut restoring = Restoring {
        alloc,
        waiters,
        open: Vec::new(alloc),
        parts,
        equations: Vec::new(alloc),
        next: next_name(line).max(others),
    };
    let mut left = 0usize;
    for (place, byte) in line.iter().enumerate() {
        if left > 0 {
            left -= 1;
        } else {
            left = restoring.step(&line[place..], *byte)?;
        }
    }
    Ok(Some(restoring.ended()?))
}

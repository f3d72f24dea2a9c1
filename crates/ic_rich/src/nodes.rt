//! Rules with patterns that have the same two symbols, and the rule by which their agents become one that waits.

use crate::spans::Span;
use std::alloc::{AllocError, Global};

/// How many arguments an agent has at most.
pub(crate) const MAX_ARGUMENTS: usize = 15;

/// The names of a rule that is made. It has at most one more than an agent has arguments.
const NAMES: &[u8] = b"abcdefghijklmnop";

/// What is left of the sides of a rule: its arguments, those of the left side first.
#[derive(Drop)]
pub(crate) struct Row {
    /// Which rule it is.
    pub(crate) rule: usize,
    pub(crate) args: Vec<Span>,
}

/// Rules of two symbols, of which the left one has so many arguments.
#[derive(Drop)]
pub(crate) struct Node {
    pub(crate) symbols: [Vec<u8>; 2],
    pub(crate) left: usize,
    pub(crate) rows: Vec<Row>,
}

/// Appends the names from one place up to another one. In one place the agent that waits stands, or nothing if that has no bytes.
fn put_names(
    out: &mut Vec<u8>,
    places: (usize, usize),
    column: usize,
    waiter: &[u8],
) -> Result<(), AllocError> {
    let mut mark = b'(';
    for place in places.0..places.1 {
        let is_waiter = place == column;
        if !is_waiter || !waiter.is_empty() {
            out.push(mark)?;
            mark = b',';
        }
        if is_waiter {
            out.extend_from_slice(waiter)?;
        } else {
            out.push(NAMES.get(place).copied().unwrap_or(b'z'))?;
        }
    }
    if mark == b',' {
        out.push(b')')?;
    }
    Ok(())
}

/// The arguments but for that of a place, and that one.
pub(crate) fn without(
    alloc: Global,
    args: &[Span],
    column: usize,
) -> Result<(Vec<Span>, Option<Span>), AllocError> {
    let mut others = Vec::new(alloc);
    let mut found = None;
    for (place, arg) in args.iter().enumerate() {
        if place == column {
            found = Some(*arg);
        } else {
            others.push(*arg)?;
        }
    }
    Ok((others, found))
}

impl Row {
    /// The token with which the argument at a place begins.
    pub(crate) fn token_at(&self, column: usize) -> usize {
        match self.args.get(column) {
            Some(arg) => arg.from,
            None => 0,
        }
    }
}

impl Node {
    /// Two symbols without rows, of which the left one has so many arguments.
    pub(crate) fn new(alloc: Global, symbols: [&[u8]; 2], left: usize) -> Result<Node, AllocError> {
        let [one, other] = symbols;
        Ok(Node {
            symbols: [one.to_vec(alloc)?, other.to_vec(alloc)?],
            left,
            rows: Vec::new(alloc),
        })
    }

    /// How many arguments both sides have.
    pub(crate) fn width(&self) -> usize {
        match self.rows.first() {
            Some(row) => row.args.len(),
            None => 0,
        }
    }

    /// Its rows alone.
    pub(crate) fn into_rows(self) -> Vec<Row> {
        let Node {
            symbols: _,
            left: _,
            rows,
        } = self;
        rows
    }

    /// The rule by which both agents become a new one, which waits for what stands at a place.
    pub(crate) fn meeting(
        &self,
        alloc: Global,
        column: usize,
        waiter: &[u8],
    ) -> Result<Vec<u8>, AllocError> {
        let width = self.width();
        let mut agent = waiter.to_vec(alloc)?;
        put_names(&mut agent, (0, width), column, b"".as_slice())?;
        let [left, right] = &self.symbols;
        let mut out = left.to_vec(alloc)?;
        put_names(&mut out, (0, self.left), column, &agent)?;
        out.extend_from_slice(b"><".as_slice())?;
        out.extend_from_slice(right)?;
        put_names(&mut out, (self.left, width), column, &agent)?;
        out.push(b';')?;
        Ok(out)
    }
}

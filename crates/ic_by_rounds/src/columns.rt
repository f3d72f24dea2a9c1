//! Columns of a picture, each for one round or for several.

ghost use Rattle.std.specs.Prelude.{◌≤◌};

use crate::row::Row;
use std::alloc::{AllocError, Global};

/// The columns of a picture, at most: as many as its bars have pixels.
const MOST: usize = 640;

/// What the rounds of a column did.
#[derive(Clone, Copy)]
pub(crate) struct Column {
    /// How many pairs they fired.
    pub(crate) pairs: u64,
    /// How many nodes there were at most after one of them.
    pub(crate) nodes: u64,
}

/// The columns of a picture.
#[derive(Drop)]
pub(crate) struct Columns {
    columns: Vec<Column>,
    /// How many rounds a column is for.
    width: u64,
    /// How many more the last one is for.
    room: u64,
    ghost some: { 1 ≤ width },
}

impl Columns {
    pub(crate) fn new(alloc: Global) -> Columns {
        Columns {
            columns: Vec::new(alloc),
            width: 1,
            room: 0,
        }
    }

    pub(crate) fn as_slice(&self) -> &[Column] {
        self.columns.as_slice()
    }

    /// How many rounds a column is for, the last one perhaps for fewer.
    pub(crate) fn width(&self) -> u64 {
        self.width
    }

    /// Adds a round. If there is no room for it, two columns become one.
    pub(crate) fn add(&mut self, row: Row) -> Result<(), AllocError> {
        let round = Column {
            pairs: row.pairs,
            nodes: row.nodes,
        };
        if self.room > 0 {
            self.room -= 1;
            if let Some(last) = self.columns.last_mut() {
                *last = both(*last, round);
            }
            return Ok(());
        }
        if self.columns.len() >= MOST {
            self.halve();
        }
        self.columns.push(round)?;
        self.room = self.width - 1;
        Ok(())
    }

    /// Makes one column of two.
    fn halve(&mut self) {
        let half = self.columns.len() / 2;
        for place in 0..half {
            let column = both(self.columns[2 * place], self.columns[2 * place + 1]);
            self.columns[place] = column;
        }
        self.columns.truncate(half);
        self.width = self.width.saturating_mul(2);
    }
}

/// A column for the rounds of two.
fn both(first: Column, second: Column) -> Column {
    Column {
        pairs: first.pairs.saturating_add(second.pairs),
        nodes: first.nodes.max(second.nodes),
    }
}

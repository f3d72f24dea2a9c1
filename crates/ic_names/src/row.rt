//! Rows of names, in each of which the names are told by their columns.

ghost use Rattle.std.specs.Prelude.{◌≡◌, ◌==◌, ◌&&◌, ◌<◌, ℕ, Some, is_some, if◌then◌else◌, IfOk};
ghost use Rattle.ic_names.specs.Row.{column_of, row_of};
ghost use Rattle.ic_names.specs.Table.{slot_in};
ghost use Rattle.ic_names.specs.inner.Rows.{IsBlank};

use std::alloc::{AllocError, Global};

/// The mark that a name has no number.
pub(crate) const NONE: u32 = u32::MAX;

/// The names below this one are those of texts: 26 times a number, and a letter.
const LETTERED: u64 = 1 << 32;

const LETTERS: u64 = 26;

/// How many rows there are: one for each letter, and one for all other names.
pub(crate) const ROWS: usize = 27;

/// The row that a name stands in, and where it stands there.
#[inline(always)]
pub(crate) fn place_of(name: u64) -> (usize, u64)
    ensures row { result.0 ≡ row_of name }
    ensures within { result.0 < ROWS }
    ensures column { result.1 ≡ column_of name }
{
    if name < LETTERED {
        ((name % LETTERS) as usize, name / LETTERS)
    } else {
        (LETTERS as usize, name)
    }
}

/// The numbers of names that stand one after another in one row.
#[derive(Drop)]
pub(crate) struct Row {
    /// The column of the first of them.
    pub(crate) first: u64,
    /// For each of them its number, or the mark that it has none.
    pub(crate) slots: Vec<u32>,
}

impl Row {
    /// So many names without numbers.
    pub(crate) fn blank(alloc: Global, first: u64, width: usize) -> Result<Row, AllocError>
        ensures { IfOk result IsBlank }
    {
        let slots = vec![in alloc; NONE; width]?;
        Ok(Row { first, slots })
    }

    /// What stands at a column, if that is one of these.
    pub(crate) fn slot(&self, column: u64) -> Option<u32>
        ensures { result ≡ slot_in self.now column }
    {
        let place = column.checked_sub(self.first)?;
        self.slots.get(place as usize).copied()
    }

    /// Puts a number at a column, if that is one of these, and tells whether it is.
    pub(crate) fn fill(&mut self, column: u64, number: u32) -> bool
        ensures there { result ≡ is_some (slot_in self.old column) }
        ensures filled { (c : ℕ) → slot_in self.new c
            ≡ (if result && (column == c) then Some number else slot_in self.old c) }
    {
        if column < self.first {
            return false;
        }
        let place = (column - self.first) as usize;
        if self.slots.len() <= place {
            return false;
        }
        self.slots[place] = number;
        true
    }
}

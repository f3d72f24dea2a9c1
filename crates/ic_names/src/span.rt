//! Where in their rows some names stand.

ghost use Rattle.std.specs.Prelude.{◌≡◌, ◌<◌, length, IfOk};
ghost use Rattle.std.specs.List.{AllByRecursion};
ghost use Rattle.ic_names.specs.inner.Rows.{IsBlank};

use crate::row::{ROWS, Row, place_of};
use std::alloc::{AllocError, Global};

/// How many slots a row has for each name that was counted in it, at most.
const SLOTS_A_NAME: u64 = 4;

/// How many names stand in a row, and the first and the last of their columns.
#[derive(Clone, Copy)]
struct Span {
    count: u64,
    first: u64,
    last: u64,
}

impl Span {
    fn new() -> Span {
        Span {
            count: 0,
            first: u64::MAX,
            last: 0,
        }
    }

    /// The same, with a name more.
    fn with(self, column: u64) -> Span {
        Span {
            count: self.count.saturating_add(1),
            first: self.first.min(column),
            last: self.last.max(column),
        }
    }

    /// How many slots these names get: one for each column, or none where these would be too many.
    fn width(self) -> usize {
        let beyond = self.last.saturating_sub(self.first);
        if beyond / SLOTS_A_NAME < self.count {
            beyond.saturating_add(1) as usize
        } else {
            0
        }
    }
}

/// Rows without numbers, in which these names have places, unless there would be too many.
pub(crate) fn rows_for(alloc: Global, names: &[u64]) -> Result<Vec<Row>, AllocError>
    ensures { IfOk result (λ rows. AllByRecursion IsBlank rows.items) }
{
    let spans = spans_of(alloc, names)?;
    let mut rows = Vec::with_capacity(alloc, ROWS)?;
    for span in &spans {
        rows.push(Row::blank(alloc, span.first, span.width())?)?;
    }
    Ok(rows)
}

/// What names stand in each row.
fn spans_of(alloc: Global, names: &[u64]) -> Result<Vec<Span>, AllocError> {
    let mut spans = vec![in alloc; Span::new(); ROWS]?;
    for name in names {
        let (row, column) = place_of(*name);
        spans[row] = spans[row].with(column);
    }
    Ok(spans)
}

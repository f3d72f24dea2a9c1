//! How many pairs each round would fire, where rounds aren't made, as a table and as a picture.

use crate::columns::Columns;
use crate::picture::picture;
use crate::row::Row;
use crate::summary::Summary;
use ic_in_place::End;
use std::alloc::{AllocError, Global};
use std::fmt::Write;

/// The table of rounds that would fire so many pairs each: a line for each, with a tab between its numbers, after one that names
/// them.
pub fn profile_table(alloc: Global, pairs: &[u64]) -> Result<Vec<u8>, AllocError> {
    let mut out = String::new(alloc);
    out.push_str("round\tpairs\n")?;
    for (place, fired) in pairs.iter().enumerate() {
        let round = place.saturating_add(1);
        write!(out, "{round}\t{fired}\n")?;
    }
    Ok(out.into_bytes())
}

/// The picture of these rounds, of a reduction that ended so: bars, as in the picture of a trace.
pub fn profile_picture(alloc: Global, pairs: &[u64], end: End) -> Result<Vec<u8>, AllocError> {
    let mut columns = Columns::new(alloc);
    for (place, fired) in pairs.iter().enumerate() {
        columns.add(Row {
            round: (place as u64).saturating_add(1),
            pairs: *fired,
            nodes: 0,
            equations: 0,
            names: 0,
        })?;
    }
    picture(alloc, None, &columns, Summary::of_pairs(pairs).ended(end))
}

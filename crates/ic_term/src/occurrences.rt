//! Names that occur too often.

ghost use Rattle.std.specs.Prelude.{◌≡◌, IfOk};
ghost use Rattle.ic_term.specs.Configuration.{third_occurrence};

use ic_names::NameTable;
use std::alloc::{AllocError, Global};

/// The first name of a list that occurs there for the third time. Takes time in proportion to the
/// list.
pub fn third_occurrence(alloc: Global, names: &[u64]) -> Result<Option<u64>, AllocError>
    ensures { IfOk result (λ name. name ≡ third_occurrence names.now) }
{
    let mut counts = NameTable::new(alloc, names)?;
    for name in names {
        let before = counts.get(*name).unwrap_or(0);
        if before >= 2 {
            return Ok(Some(*name));
        }
        counts.set(*name, before + 1)?;
    }
    Ok(None)
}

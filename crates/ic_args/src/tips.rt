//! The names that are like a refused word: the likest first.

use std::alloc::{AllocError, Global};

/// What stands before them in the parser's text, which has the likest last.
const LIKE: &str = "some similar subcommands exist: ";

/// The parser's text of a refusal, where it has such names with these in the other order.
pub(crate) fn likest_first(alloc: Global, text: &str) -> Result<String, AllocError> {
    let Some((front, rest)) = text.rsplit_once(LIKE) else {
        return String::from_str(alloc, text);
    };
    let (names, after) = rest.split_once('\n').unwrap_or((rest, ""));
    let mut told = String::from_str(alloc, front)?;
    told.push_str(LIKE)?;
    let mut is_first = true;
    for name in names.rsplit(", ") {
        if !is_first {
            told.push_str(", ")?;
        }
        is_first = false;
        told.push_str(name)?;
    }
    told.push('\n')?;
    told.push_str(after)?;
    Ok(told)
}

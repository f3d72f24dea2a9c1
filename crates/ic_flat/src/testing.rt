//! Whether words write a configuration.

ghost use Rattle.std.specs.Prelude.{◌≡◌, ◌+◌, ◌*◌, length, min, nat_lt, IfOk};
ghost use Rattle.std.specs.List.{flat_map, list_all};
ghost use Rattle.ic_term.specs.Configuration.{one_above};
ghost use Rattle.ic_flat.specs.Words.{forest, word_names};
ghost use Rattle.ic_flat.specs.Flat.{configuration_of};
ghost use Rattle.ic_flat.specs.inner.Testing.{Tests};

use crate::word::Word;
use ic_term::{ConfigFault, MAX_NEXT, MAX_WIDE_NODES, third_occurrence};
use std::alloc::{AllocError, Global};

/// Whether words write a wide configuration, or why not.
pub(crate) fn test_words(
    alloc: Global,
    words: &[Word],
    terms: usize,
    equations: usize,
    next: u64,
) -> Result<(), ConfigFault>
    requires { length (forest words.now) ≡ terms + 2 * equations }
    ensures { Tests result (configuration_of words.now terms next) }
{
    if words.len() as u64 > MAX_WIDE_NODES || next > MAX_NEXT {
        return Err(ConfigFault::Limit);
    }
    let names = names_of(alloc, words)?;
    if !are_below(&names, next) {
        return Err(ConfigFault::Limit);
    }
    match third_occurrence(alloc, &names)? {
        Some(name) => Err(ConfigFault::Name(name)),
        None => Ok(()),
    }
}

/// The names among words.
fn names_of(alloc: Global, words: &[Word]) -> Result<Vec<u64>, AllocError>
    ensures { IfOk result (λ names. names.items ≡ flat_map word_names words.now) }
{
    let mut names = Vec::with_capacity(alloc, words.len())?;
    for word in words {
        if let Word::Name(name) = *word {
            names.push(name)?;
        }
    }
    Ok(names)
}

fn are_below(names: &[u64], next: u64) -> bool
    ensures { result ≡ list_all (λ n. nat_lt n next) names.now }
{
    names.iter().all(|name| *name < next)
}

/// One above the greatest name among words, or 0 without names; 2^64 - 1 stands for 2^64.
pub(crate) fn one_above(words: &[Word]) -> u64
    ensures { result ≡ min (one_above (flat_map word_names words.now)) u64.MAX }
{
    let mut next = 0u64;
    for word in words {
        if let Word::Name(name) = *word {
            next = next.max(name.saturating_add(1));
        }
    }
    next
}

//! Terms that stood by themselves when they were read.

ghost use Rattle.std.specs.Prelude.{◌≡◌, IfOk, map};
ghost use Rattle.ic_readback.specs.inner.Writing.{key_of, AreIndexed};

use crate::token::Token;
use ic_arena::Word;
use std::alloc::{AllocError, Global};
use std::collections::HashMap;

/// How many places have one tag at most.
const SPAN: u64 = 1 << 32;

/// A term that no other one had when it was read, and the place that it was read for.
#[derive(Drop)]
pub(crate) struct Loose {
    pub(crate) place: Word,
    /// The tokens of the term, the last one first.
    pub(crate) reversed: Vec<Token>,
    /// Whether the term was written since.
    pub(crate) written: bool,
}

/// The number of a place.
pub(crate) fn key(place: Word) -> u64
    ensures { result ≡ key_of place }
{
    u64::from(place.tag) * SPAN + u64::from(place.index)
}

/// Which term was read for each place. No place has two.
pub(crate) fn index_places(
    alloc: Global,
    loose: &[Loose],
) -> Result<HashMap<u64, usize>, AllocError>
    ensures { IfOk result (λ indices. AreIndexed indices (map (λ l. l.place) loose.now)) }
{
    let mut indices = HashMap::new(alloc);
    for index in 0..loose.len() {
        let before = indices.insert(key(loose[index].place), index)?;
        if before.is_some() {
            return Err(AllocError);
        }
    }
    Ok(indices)
}

//! Symbols that stand nowhere in a text.

use crate::fault::RichFault;
use crate::tokens::{Kind, first_word, kind_of};
use std::alloc::Global;
use std::collections::BTreeMap;

/// How many bytes of the symbols it is made of a new one has at most. With a number after them it has as many as a symbol may.
const MAX_FRONT: usize = 24;

/// The symbols that are taken.
#[derive(Drop)]
pub(crate) struct Fresh<'t> {
    /// Those of the text.
    words: BTreeMap<&'t [u8], usize>,
    /// Those that were made.
    made: BTreeMap<Vec<u8>, usize>,
    /// The number that was put after one last.
    number: u64,
}

impl<'t> Fresh<'t> {
    /// The symbols of a text.
    pub(crate) fn of_text(alloc: Global, text: &'t [u8]) -> Result<Fresh<'t>, RichFault> {
        let mut words = BTreeMap::new(alloc);
        let mut left = 0usize;
        for place in 0..text.len() {
            if left > 0 {
                left -= 1;
            } else {
                let word = first_word(&text[place..]);
                left = word.len().saturating_sub(1);
                if kind_of(word) == Kind::Symbol {
                    words.insert(word, place)?;
                }
            }
        }
        Ok(Fresh {
            words,
            made: BTreeMap::new(alloc),
            number: 0,
        })
    }

    /// Whether a symbol is taken.
    fn is_taken(&self, symbol: &[u8]) -> bool {
        self.words.get(symbol).is_some() || self.made.get(symbol).is_some()
    }

    /// A new symbol: two others one after the other, and a number if that is taken.
    pub(crate) fn symbol(
        &mut self,
        alloc: Global,
        one: &[u8],
        other: &[u8],
    ) -> Result<Vec<u8>, RichFault> {
        let mut front = one.to_vec(alloc)?;
        front.extend_from_slice(other)?;
        front.truncate(MAX_FRONT);
        let mut symbol = front.to_vec(alloc)?;
        for _ in 0..u64::MAX {
            if !self.is_taken(&symbol) {
                break;
            }
            self.number = self.number.saturating_add(1);
            symbol = front.to_vec(alloc)?;
            symbol.extend_from_slice(self.number.to_string(alloc)?.as_bytes())?;
        }
        let kept = symbol.to_vec(alloc)?;
        self.made.insert(kept, 0)?;
        Ok(symbol)
    }
}

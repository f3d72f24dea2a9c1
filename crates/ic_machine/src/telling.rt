//! What a machine tells of the words that wait for its borders.

ghost use Rattle.std.specs.Prelude.{◌≡◌, ◌≤◌, ◌++◌, List, IfOk, OnOk, length};
ghost use Rattle.std.specs.List.{AllByRecursion};
ghost use Rattle.ic_machine.specs.declared.telling.Told.{Told as AnyTold};
ghost use Rattle.ic_machine.specs.Moving.{IsTold};

use crate::borders::Borders;
use crate::machine::Machine;
use ic_arena::{NAME, Word};
use std::alloc::{AllocError, Global};

/// A cut for which a word waits, with so many nodes below it, or at least as many.
#[derive(Clone, Copy)]
pub struct Told {
    pub cut: u32,
    pub size: usize,
}

impl Machine {
    /// Tells the borders for which a word waits that were not told before, with the nodes below it
    /// up to so many.
    pub fn tell(
        &self,
        alloc: Global,
        borders: &mut Borders,
        most: usize,
        told: &mut Vec<Told>,
    ) -> Result<(), AllocError>
        ensures told { OnOk result ((more : List AnyTold)
            × (told.new.items ≡ told.old.items ++ more)
            × AllByRecursion (IsTold self.now borders.old) more) }
        ensures same { borders.new ≡ borders.old }
    {
        let mut stack = Vec::new(alloc);
        for cut in &borders.untold_of(alloc, self)? {
            self.tell_one(*cut, borders, most, &mut stack, told)?;
        }
        Ok(())
    }

    /// How many of the first so many pending pairs have fewer than so many nodes together.
    pub fn pairs_within(
        &self,
        alloc: Global,
        pairs: usize,
        most: usize,
    ) -> Result<usize, AllocError>
        ensures { IfOk result (λ found. (found ≤ pairs) × (found ≤ length self.now.pending)) }
    {
        let mut left = most;
        let mut stack = Vec::new(alloc);
        let pending = self.pending();
        for place in 0..pairs.min(pending.len()) {
            let pair = pending[place];
            left -= self.size(pair.left, left, &mut stack)?;
            left -= self.size(pair.right, left, &mut stack)?;
            if left == 0 {
                return Ok(place);
            }
        }
        Ok(pairs.min(pending.len()))
    }

    /// Tells a border, if a word waits for it and it was not told before.
    fn tell_one(
        &self,
        cut: u32,
        borders: &mut Borders,
        most: usize,
        stack: &mut Vec<Word>,
        told: &mut Vec<Told>,
    ) -> Result<(), AllocError>
        ensures told { OnOk result ((more : List AnyTold)
            × (told.new.items ≡ told.old.items ++ more)
            × AllByRecursion (IsTold self.now borders.old) more) }
        ensures same { borders.new ≡ borders.old }
    {
        let Some(name) = borders.untold(cut) else {
            return Ok(());
        };
        if let Some(waiting) = self.waiting(name) {
            borders.mark(cut)?;
            let size = self.size(waiting, most, stack)?;
            told.push(Told { cut, size })?;
        }
        Ok(())
    }

    /// How many nodes are below a word, up to so many.
    fn size(&self, word: Word, most: usize, stack: &mut Vec<Word>) -> Result<usize, AllocError>
        ensures { IfOk result (λ nodes. nodes ≤ most) }
    {
        stack.clear();
        stack.push(word)?;
        for nodes in 0..most {
            let Some(next) = stack.pop() else {
                return Ok(nodes);
            };
            self.push_below(next, stack)?;
        }
        Ok(most)
    }

    /// Puts what hangs right below a word onto a stack.
    fn push_below(&self, word: Word, stack: &mut Vec<Word>) -> Result<(), AllocError> {
        if word.tag == NAME {
            if let Some(waiting) = self.waiting(word.index) {
                stack.push(waiting)?;
            }
            return Ok(());
        }
        if let Some(heap) = self.tables.heaps.get(word.tag as usize - 1) {
            if word.index < heap.count() {
                stack.extend_from_slice(heap.get(word.index))?;
            }
        }
        Ok(())
    }
}

//! Parts that works are dealt to.

ghost use Rattle.std.specs.Prelude.{◌≡◌, ◌<◌, [], map, length, vec_len, replicate, IfOk, OnOk};
ghost use Rattle.ic_round.specs.WorkViews.{work_of};
ghost use Rattle.ic_crew.specs.Dealing.{IsLeast};
ghost use Rattle.ic_crew.specs.WorkLists.{works_of};

use crate::weighing::Weighed;
use ic_round::Work;
use std::alloc::{AllocError, Global};

/// Parts of the works: what is dealt to each, and the sizes of that together.
#[derive(Drop)]
pub(crate) struct Parts {
    pub sizes: Vec<u64>,
    pub works: Vec<Vec<Work>>,
    pub ghost even: { vec_len sizes ≡ vec_len works },
}

impl Parts {
    ghost use Rattle.ic_crew.specs.inner.Parts.{TakesWork, lists_of};

    /// So many parts without works.
    pub fn empty(alloc: Global, count: usize) -> Result<Parts, AllocError>
        ensures sizes { IfOk result (λ parts. parts.sizes.items ≡ replicate count 0) }
        ensures works { IfOk result (λ parts. lists_of parts ≡ replicate count []) }
    {
        let sizes = vec![in alloc; 0; count]?;
        let works = empty_lists(alloc, count)?;
        Ok(Parts { sizes, works })
    }

    /// Puts a work to the least part.
    pub fn put(&mut self, weighed: Weighed) -> Result<(), AllocError>
        requires { 0 < vec_len self.old.works }
        ensures { OnOk result (TakesWork weighed.size (work_of weighed.work) self.old self.new) }
    {
        let place = place_of_least(&self.sizes);
        self.works[place].push(weighed.work)?;
        self.sizes[place] = self.sizes[place].saturating_add(weighed.size);
        Ok(())
    }
}

/// So many lists without works.
fn empty_lists(alloc: Global, count: usize) -> Result<Vec<Vec<Work>>, AllocError>
    ensures lists { IfOk result (λ lists. map works_of lists.items ≡ replicate count []) }
    ensures count { IfOk result (λ lists. vec_len lists ≡ count) }
{
    let mut lists = Vec::with_capacity(alloc, count)?;
    for _ in 0..count {
        lists.push(Vec::new(alloc))?;
    }
    Ok(lists)
}

/// The place of the least size, the first where several are.
fn place_of_least(sizes: &[u64]) -> usize
    requires { 0 < length sizes.now }
    ensures { IsLeast sizes.now result }
{
    let mut least = 0;
    for i in 1..sizes.len() {
        if sizes[i] < sizes[least] {
            least = i;
        }
    }
    least
}

//! The borders of a machine: its names that are ends of cuts.

ghost use Rattle.std.specs.Prelude.{◌≡◌, ℕ, ◌+◌, ◌*◌, ◌≤◌, List, [], ◌∷◌, ◌++◌, Contains, IfOk, IfSome, IfNone, OnOk, OnErr, IsPermutation, length, map};
ghost use Rattle.ic_machine.specs.Moving.{times, worth};

use crate::machine::Machine;
use std::alloc::{AllocError, Global};
use std::collections::HashMap;
use std::marker::Model;

/// A name that stands once in a machine, and once in another one as the other end of the same cut.
#[derive(Clone, Copy)]
struct Border {
    name: u32,
    /// Whether it was told that a word waits for it.
    told: bool,
}

/// The borders of a machine, found by their cuts and by their names.
#[derive(Drop)]
pub struct Borders {
    by_cut: HashMap<u32, Border>,
    /// The cut of each name that is a border.
    by_name: HashMap<u32, u32>,
    /// The number of the next cut that is made here, and how far apart these numbers are.
    next: u32,
    step: u32,
    /// Numbers of cuts that have ended here, which are used first.
    ended: Vec<u32>,
}

impl Model for Borders {
    ghost use Rattle.ic_machine.specs.Moving.{Ends};

    ghost Value = { Ends };

    ghost use Rattle.ic_machine.specs.inner.Borders.{ends_of, AreListed};

    ghost view = { ends_of };

    ghost invariant = { AreListed };
}

impl Borders {
    /// No borders. Cuts that are made here have these numbers.
    pub fn new(alloc: Global, next: u32, step: u32) -> Borders
        requires { 1 ≤ step }
        ensures { result ≡ record { ends = []; ended = []; next = next; step = step } }
    {
        Borders {
            by_cut: HashMap::new(alloc),
            by_name: HashMap::new(alloc),
            next,
            step,
            ended: Vec::new(alloc),
        }
    }

    /// How many borders there are.
    pub fn len(&self) -> usize
        ensures { result ≡ length self.now.ends }
    {
        self.by_cut.len()
    }

    /// No two borders have one cut, or one name.
    pub(crate) fn are_once(&self)
        ensures cuts { (c : ℕ) → times c (map (λ e. e.cut) self.now.ends) ≤ 1 }
        ensures names { (n : ℕ) → times n (map (λ e. e.name) self.now.ends) ≤ 1 }
    {
        let _by_cut = &self.by_cut;
    }

    /// The numbers of the cuts that have ends here.
    pub(crate) fn cuts(&self, alloc: Global) -> Result<Vec<u32>, AllocError>
        ensures { IfOk result (λ cuts. cuts.items ≡ map (λ e. e.cut) self.now.ends) }
    {
        let mut cuts = Vec::new(alloc);
        for cut in self.by_cut.keys() {
            cuts.push(*cut)?;
        }
        Ok(cuts)
    }

    /// The name that is the end of a cut here, if there is one.
    pub(crate) fn name_of(&self, cut: u32) -> Option<u32>
        ensures found { IfSome result (λ name.
            Contains self.now.ends (record { cut = cut; name = name })) }
        ensures none { IfNone result (times cut (map (λ e. e.cut) self.now.ends) ≡ 0) }
    {
        match self.by_cut.get(&cut) {
            Some(border) => Some(border.name),
            None => None,
        }
    }

    /// The cut of which a name is the end here, if it is one.
    pub(crate) fn cut_of(&self, name: u32) -> Option<u32>
        ensures found { IfSome result (λ cut.
            Contains self.now.ends (record { cut = cut; name = name })) }
        ensures none { IfNone result (times name (map (λ e. e.name) self.now.ends) ≡ 0) }
    {
        match self.by_name.get(&name) {
            Some(cut) => Some(*cut),
            None => None,
        }
    }

    /// Makes a name the border of a new cut.
    pub(crate) fn add_new(&mut self, name: u32) -> Result<u32, AllocError>
        requires new { times name (map (λ e. e.name) self.old.ends) ≡ 0 }
        requires numbers { (c : ℕ) → worth c self.old ≤ 2 }
        ensures added { IfOk result (λ cut. IsPermutation self.new.ends
            (record { cut = cut; name = name } ∷ self.old.ends)) }
        ensures worth { IfOk result (λ cut. (c : ℕ)
            → worth c self.new + times c (cut ∷ []) ≡ worth c self.old) }
    {
        let cut = self.next_number()?;
        self.add(cut, name)?;
        Ok(cut)
    }

    /// A number that is spare: one that has ended here, or one that no cut had.
    fn next_number(&mut self) -> Result<u32, AllocError>
        ensures ends { self.new.ends ≡ self.old.ends }
        ensures worth { IfOk result (λ cut. (c : ℕ)
            → worth c self.new + 2 * times c (cut ∷ []) ≡ worth c self.old) }
    {
        match self.ended.pop() {
            Some(ended) => Ok(ended),
            None => self.open(),
        }
    }

    /// A number that no cut had.
    fn open(&mut self) -> Result<u32, AllocError>
        ensures opened { IfOk result (λ cut. cut ≡ self.old.next) }
        ensures next { OnOk result (self.new
            ≡ record self.old { next = self.old.next + self.old.step }) }
        ensures same { OnErr result (self.new ≡ self.old) }
    {
        let cut = self.next;
        let Some(next) = cut.checked_add(self.step) else {
            return Err(AllocError);
        };
        self.next = next;
        Ok(cut)
    }

    /// Adds a border with a number and a name that no other one has. If a growth is refused, it
    /// isn't there.
    pub(crate) fn add(&mut self, cut: u32, name: u32) -> Result<(), AllocError>
        requires cut { times cut (map (λ e. e.cut) self.old.ends) ≡ 0 }
        requires name { times name (map (λ e. e.name) self.old.ends) ≡ 0 }
        ensures added { OnOk result (IsPermutation self.new.ends
            (record { cut = cut; name = name } ∷ self.old.ends)) }
        ensures numbers { self.new ≡ record self.old { ends = self.new.ends } }
        ensures same { OnErr result (self.new ≡ self.old) }
    {
        self.by_name.reserve(1)?;
        self.by_cut.insert(cut, Border { name, told: false })?;
        self.by_name.insert(name, cut)?;
        Ok(())
    }

    /// Takes a border out.
    pub(crate) fn remove(&mut self, cut: u32, name: u32)
        requires { Contains self.old.ends (record { cut = cut; name = name }) }
        ensures removed { IsPermutation self.old.ends
            (record { cut = cut; name = name } ∷ self.new.ends) }
        ensures numbers { self.new ≡ record self.old { ends = self.new.ends } }
    {
        self.by_cut.remove(&cut);
        self.by_name.remove(&name);
    }

    /// Lets a number be given to a cut again.
    pub(crate) fn spare(&mut self, cut: u32) -> Result<(), AllocError>
        ensures spare { OnOk result (self.new
            ≡ record self.old { ended = self.old.ended ++ cut ∷ [] }) }
        ensures ends { self.new.ends ≡ self.old.ends }
    {
        self.ended.push(cut)?;
        Ok(())
    }

    /// The name that is the end of a cut here, if it was not told that a word waits for it.
    pub(crate) fn untold(&self, cut: u32) -> Option<u32>
        ensures { IfSome result (λ name.
            Contains self.now.ends (record { cut = cut; name = name })) }
    {
        match self.by_cut.get(&cut) {
            Some(border) => if border.told { None } else { Some(border.name) },
            None => None,
        }
    }

    /// The cuts of the borders for which a word waits in a machine, but of which that was not told.
    pub(crate) fn untold_of(
        &self,
        alloc: Global,
        machine: &Machine,
    ) -> Result<Vec<u32>, AllocError> {
        let mut cuts = Vec::new(alloc);
        for (cut, border) in self.by_cut.iter() {
            if !border.told && machine.waiting(border.name).is_some() {
                cuts.push(*cut)?;
            }
        }
        Ok(cuts)
    }

    /// Remembers that it was told that a word waits for a border.
    pub(crate) fn mark(&mut self, cut: u32) -> Result<(), AllocError>
        ensures { self.new ≡ self.old }
    {
        let Some(border) = self.by_cut.get(&cut).copied() else {
            return Ok(());
        };
        let told = Border {
            name: border.name,
            told: true,
        };
        self.by_cut.insert(cut, told)?;
        Ok(())
    }
}

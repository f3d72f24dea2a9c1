//! The lists that rounds are made in.

ghost use Rattle.std.specs.Prelude.{◌≡◌, ℕ, ◌+◌, List, [], length, vec_len, if◌then◌else◌, IfOk, OnOk, OnErr, IsTrue};
ghost use Rattle.ic_term.specs.Symbol.{Symbol, is_over};
ghost use Rattle.ic_term.specs.Configuration.{Configuration};
ghost use Rattle.ic_settle.specs.Settling.{settled};
ghost use Rattle.ic_settle.specs.NameSteps.{NameStep, NameSteps};
ghost use Rattle.ic_flat.specs.Flat.{configuration_of, IsAfterTerms, IsFlat};
ghost use Rattle.ic_round.specs.Steps.{Steps};
ghost use Rattle.ic_round.specs.Rounds.{round, iterate, unless_unfit};
ghost use Rattle.ic_round.specs.RoundAnswers.{Answers};
ghost use Rattle.ic_flat_round.specs.InPlace.{left_by};

use crate::bound::Bound;
use crate::containers::Containers;
use crate::fired::fire_onto;
use crate::pass::{Kept, pass};
use crate::rebuilding::{Span, put_equations, put_terms};
use ic_flat::{Flat, Word};
use ic_flat_rules::FlatRules;
use ic_round::RoundFault;
use std::alloc::{AllocError, Global};
use std::mem;

/// Lists that are kept from one round to the next, so that rounds take memory only for trees of names once they are long
/// enough.
#[derive(Drop)]
pub struct Workspace {
    fired: Vec<Word>,
    settled: Vec<Word>,
    containers: Containers,
    bound: Bound,
    kept: Vec<Kept>,
    stack: Vec<Span>,
}

impl Workspace {
    /// Takes no memory.
    pub fn new(alloc: Global) -> Workspace {
        Workspace {
            fired: Vec::new(alloc),
            settled: Vec::new(alloc),
            containers: Containers::new(alloc),
            bound: Bound::new(alloc),
            kept: Vec::new(alloc),
            stack: Vec::new(alloc),
        }
    }

    /// The configuration, settled. Takes time nearly in proportion to its nodes, and memory only where a list is too
    /// short, and for trees of names.
    pub fn settle(&mut self, alloc: Global, flat: &Flat) -> Result<Flat, AllocError>
        ensures settled { IfOk result (λ after. after ≡ settled flat.now) }
        ensures reached { IfOk result (λ after. NameSteps flat.now after) }
        ensures ended { IfOk result (λ after. (next : Configuration) → ¬ NameStep after next) }
        ensures over { IfOk result (λ after. (symbols : List Symbol)
            → IsTrue (is_over symbols flat.now) → IsTrue (is_over symbols after)) }
    {
        let place = self.settle_words(flat)?;
        let words = mem::replace(&mut self.settled, Vec::new(alloc));
        let terms = flat.interface_len();
        let equations = self.kept.len();
        Ok(Flat::with_place(words, terms, equations, flat.next(), place))
    }

    /// Settles a configuration into the list of settled words, with as many equations as are kept, and tells the place
    /// where these begin.
    fn settle_words(&mut self, flat: &Flat) -> Result<usize, AllocError>
        ensures flat { OnOk result (IsFlat self.new.settled.items
            (length flat.now.interface) (vec_len self.new.kept) flat.now.next) }
        ensures settled { OnOk result (configuration_of self.new.settled.items
            (length flat.now.interface) flat.now.next ≡ settled flat.now) }
        ensures place { IfOk result
            (IsAfterTerms self.new.settled.items (length flat.now.interface)) }
    {
        let words = flat.words();
        let terms = flat.interface_len();
        pass(flat, &mut self.containers, &mut self.bound, &mut self.kept)?;
        self.settled.clear();
        self.settled.reserve(words.len())?;
        self.stack.clear();
        let interface = Span {
            place: 0,
            count: terms,
        };
        put_terms(
            words,
            interface,
            &mut self.bound,
            &mut self.stack,
            &mut self.settled,
        )?;
        let place = self.settled.len();
        put_equations(
            words,
            &self.kept,
            &mut self.bound,
            &mut self.stack,
            &mut self.settled,
        )?;
        Ok(place)
    }

    /// Makes a round of a configuration, in its place. Where it is refused, the configuration stays.
    pub fn round(
        &mut self,
        alloc: Global,
        rules: &FlatRules,
        flat: &mut Flat,
    ) -> Result<(), RoundFault>
        requires { IsTrue (is_over rules.now.symbols flat.old) }
        ensures round { Answers (left_by result flat.new)
            (unless_unfit rules.now.rules flat.old (round rules.now.rules flat.old)) }
        ensures reached { OnOk result (Steps rules.now.rules flat.old flat.new) }
        ensures over { OnOk result (IsTrue (is_over rules.now.symbols flat.new)) }
        ensures counted { OnOk result ((start : Configuration) (n : ℕ)
            → flat.old ≡ iterate rules.now.rules n start
            → flat.new ≡ iterate rules.now.rules (n + 1) start) }
        ensures same { OnErr result (flat.new ≡ flat.old) }
    {
        let words = mem::replace(&mut self.fired, Vec::new(alloc));
        let fired = fire_onto(rules, flat, words)?;
        let after = self.settle(alloc, &fired)?;
        let before = mem::replace(flat, after);
        let (fired, _, _, _) = fired.into_parts();
        let (settled, _, _, _) = before.into_parts();
        self.fired = fired;
        self.settled = settled;
        Ok(())
    }

    /// The configuration after one round, in a list of its own that is at most a quarter longer than its words.
    pub fn next(
        &mut self,
        alloc: Global,
        rules: &FlatRules,
        flat: &Flat,
    ) -> Result<Flat, RoundFault>
        requires { IsTrue (is_over rules.now.symbols flat.now) }
        ensures round { Answers result
            (unless_unfit rules.now.rules flat.now (round rules.now.rules flat.now)) }
        ensures reached { IfOk result (λ after. Steps rules.now.rules flat.now after) }
        ensures over { IfOk result (λ after. IsTrue (is_over rules.now.symbols after)) }
        ensures counted { IfOk result (λ after. (start : Configuration) (n : ℕ)
            → flat.now ≡ iterate rules.now.rules n start
            → after ≡ iterate rules.now.rules (n + 1) start) }
    {
        let words = mem::replace(&mut self.fired, Vec::new(alloc));
        let fired = fire_onto(rules, flat, words)?;
        let after = self.settle_apart(alloc, &fired)?;
        let (fired, _, _, _) = fired.into_parts();
        self.fired = fired;
        Ok(after)
    }

    /// The configuration, settled, in a list of its own that is at most a quarter longer than its words. It is copied into
    /// one only if the list that it is made in is longer than that.
    fn settle_apart(&mut self, alloc: Global, flat: &Flat) -> Result<Flat, AllocError>
        ensures { IfOk result (λ after. after ≡ settled flat.now) }
    {
        let words = flat.words().len();
        let is_short = self.settled.capacity() < words;
        if is_short {
            self.settled = Vec::new(alloc);
        }
        let place = self.settle_words(flat)?;
        let len = self.settled.len();
        let is_close = is_short && words.saturating_sub(len) <= len / 4;
        let settled = taken_or_copied(alloc, &mut self.settled, is_close)?;
        let terms = flat.interface_len();
        let equations = self.kept.len();
        Ok(Flat::with_place(settled, terms, equations, flat.next(), place))
    }
}

/// The words of a list, in a list of their own: the list itself, which leaves an empty one, or else a copy.
fn taken_or_copied(
    alloc: Global,
    words: &mut Vec<Word>,
    is_taken: bool,
) -> Result<Vec<Word>, AllocError>
    ensures own { IfOk result (λ own. own.items ≡ words.old.items) }
    ensures left { words.new.items ≡ (if is_taken then [] else words.old.items) }
{
    if is_taken {
        return Ok(mem::replace(words, Vec::new(alloc)));
    }
    Vec::from_slice(alloc, words)
}

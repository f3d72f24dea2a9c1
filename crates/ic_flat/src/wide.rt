//! Wide configurations in flat form: how they are made, read and copied.

ghost use Rattle.std.specs.Prelude.{◌≡◌, ◌+◌, ◌*◌, length, IfOk};
ghost use Rattle.ic_term.specs.Configuration.{IsWide, configuration_nodes, configured, wide_restored};
ghost use Rattle.ic_term.specs.ConfigFault.{Answers};
ghost use Rattle.ic_flat.specs.Words.{forest, IsWhole};
ghost use Rattle.ic_flat.specs.Flat.{configuration_of, configuration_words, IsAfterTerms, IsWideFlat};

use crate::places::end_of_terms;
use crate::testing::{one_above, test_words};
use crate::word::Word;
use ic_term::ConfigFault;
use ic_term::laws::wide_ones_are_configurations_but_for_their_limits;
use std::alloc::{AllocError, Global};
use std::marker::Model;

/// A wide configuration as the list of its words, the interface before the equations, each term in prefix order.
#[derive(Drop)]
pub struct WideFlat {
    words: Vec<Word>,
    terms: usize,
    equations: usize,
    next: u64,
    /// Where the words of the equations begin.
    place: usize,
}

impl Model for WideFlat {
    ghost use Rattle.ic_term.specs.Configuration.{Configuration};
    ghost use Rattle.ic_term.specs.lemmas.Codings.{coded_configuration};
    ghost use Rattle.ic_flat.specs.Flat.{configuration_of, IsAfterTerms, IsWideFlat};

    ghost Value = { Configuration };

    ghost coded = { coded_configuration };

    ghost view = { λ f. configuration_of f.words.items f.terms f.next };

    ghost invariant = { λ f. IsWideFlat f.words.items f.terms f.equations f.next
        × IsAfterTerms f.words.items f.terms f.place };
}

impl WideFlat {
    /// The configuration that words write with this `next`, so many of their terms in its interface, the others as the
    /// sides of so many equations. `terms_in` tells whether words are whole, and how many terms they write.
    pub fn restore(
        alloc: Global,
        words: Vec<Word>,
        terms: usize,
        equations: usize,
        next: u64,
    ) -> Result<WideFlat, ConfigFault>
        requires whole { IsWhole words.items }
        requires counted { length (forest words.items) ≡ terms + 2 * equations }
        ensures { Answers result (wide_restored (configuration_of words.items terms next)) }
    {
        wide_ones_are_configurations_but_for_their_limits();
        test_words(alloc, &words, terms, equations, next)?;
        let place = end_of_terms(&words, terms);
        Ok(WideFlat {
            words,
            terms,
            equations,
            next,
            place,
        })
    }

    /// The same, with a `next` that is one above the greatest name.
    pub fn new(
        alloc: Global,
        words: Vec<Word>,
        terms: usize,
        equations: usize,
    ) -> Result<WideFlat, ConfigFault>
        requires whole { IsWhole words.items }
        requires counted { length (forest words.items) ≡ terms + 2 * equations }
        ensures { let c = configuration_of words.items terms 0
            in Answers result (wide_restored (configured c.interface c.equations)) }
    {
        let next = one_above(&words);
        WideFlat::restore(alloc, words, terms, equations, next)
    }

    /// The configuration of words that are known to write one.
    pub fn from_parts(words: Vec<Word>, terms: usize, equations: usize, next: u64) -> WideFlat
        requires { IsWideFlat words.items terms equations next }
        ensures { result ≡ configuration_of words.items terms next }
    {
        let place = end_of_terms(&words, terms);
        WideFlat::with_place(words, terms, equations, next, place)
    }

    /// The same, where the words of the equations are known to begin at this place. Takes a few steps.
    pub fn with_place(
        words: Vec<Word>,
        terms: usize,
        equations: usize,
        next: u64,
        place: usize,
    ) -> WideFlat
        requires flat { IsWideFlat words.items terms equations next }
        requires place { IsAfterTerms words.items terms place }
        ensures { result ≡ configuration_of words.items terms next }
    {
        WideFlat {
            words,
            terms,
            equations,
            next,
            place,
        }
    }

    /// What each of them keeps, for proofs.
    pub(crate) fn is_wide(&self)
        ensures { IsWide self.now }
    {
        let _ = &self.words;
    }

    /// The words, how many terms of the interface and how many equations they write, and `next`.
    pub fn into_parts(self) -> (Vec<Word>, usize, usize, u64)
        ensures flat { IsWideFlat result.0.items result.1 result.2 result.3 }
        ensures same { configuration_of result.0.items result.1 result.3 ≡ self }
    {
        (self.words, self.terms, self.equations, self.next)
    }

    /// The words in the order of the text, the interface's before the equations'.
    pub fn words(&self) -> &[Word]
        ensures words { result.now ≡ configuration_words self.now }
        ensures sound { IsWide self.now }
    {
        self.words.as_slice()
    }

    /// How many terms the interface has.
    pub fn interface_len(&self) -> usize
        ensures terms { result ≡ length self.now.interface }
        ensures sound { IsWide self.now }
    {
        self.terms
    }

    /// The place after the words of the interface, where those of the equations begin.
    pub fn equations_place(&self) -> usize
        ensures place { IsAfterTerms (configuration_words self.now) (length self.now.interface) result }
        ensures sound { IsWide self.now }
    {
        self.place
    }

    /// How many equations there are.
    pub fn equations_len(&self) -> usize
        ensures equations { result ≡ length self.now.equations }
        ensures sound { IsWide self.now }
    {
        self.equations
    }

    pub fn next(&self) -> u64
        ensures next { result ≡ self.now.next }
        ensures sound { IsWide self.now }
    {
        self.next
    }

    /// How many names and agents there are, without counting them.
    pub fn nodes(&self) -> u64
        ensures nodes { result ≡ configuration_nodes self.now }
        ensures sound { IsWide self.now }
    {
        self.words.len() as u64
    }

    /// A copy, equal to its source.
    pub fn copy(&self, alloc: Global) -> Result<WideFlat, AllocError>
        ensures { IfOk result (λ copy. copy ≡ self.now) }
    {
        Ok(WideFlat {
            words: Vec::from_slice(alloc, &self.words)?,
            terms: self.terms,
            equations: self.equations,
            next: self.next,
            place: self.place,
        })
    }
}

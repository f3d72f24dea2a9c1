//! Configurations in flat form: how they are made, read and copied.

ghost use Rattle.std.specs.Prelude.{◌≡◌, ◌+◌, ◌*◌, ◌<◌, ◌≤◌, ◌↔◌, ◌⊎◌, IsTrue, length, IfOk};
ghost use Rattle.ic_term.specs.Configuration.{IsConfiguration, configuration_nodes, configured, restored};
ghost use Rattle.ic_term.specs.declared.limits.TheConstants.{MAX_NODES, MAX_INTERFACE};
ghost use Rattle.ic_term.specs.ConfigFault.{Answers};
ghost use Rattle.ic_flat.specs.Words.{forest, IsWhole};
ghost use Rattle.ic_flat.specs.Flat.{configuration_of, configuration_words, IsAfterTerms, IsFlat};

use crate::reading::{take_equations, take_terms, terms_of};
use crate::wide::WideFlat;
use crate::word::Word;
use crate::writing::words_of;
use ic_term::laws::wide_ones_are_configurations_but_for_their_limits;
use ic_term::{Config, ConfigFault, MAX_INTERFACE, MAX_NODES};
use std::alloc::{AllocError, Global};
use std::marker::Model;

/// A configuration as the list of its words, the interface before the equations, each term in prefix order.
#[derive(Drop)]
pub struct Flat {
    wide: WideFlat,
}

impl Model for Flat {
    ghost use Rattle.ic_term.specs.Configuration.{Configuration, IsConfiguration};
    ghost use Rattle.ic_term.specs.lemmas.Codings.{coded_configuration};

    ghost Value = { Configuration };

    ghost coded = { coded_configuration };

    ghost view = { λ f. f.wide };

    ghost invariant = { λ f. IsConfiguration f.wide };
}

impl Flat {
    /// The same configuration in flat form. Takes time and memory in proportion to its nodes.
    pub fn from_config(alloc: Global, config: &Config) -> Result<Flat, AllocError>
        ensures { IfOk result (λ flat. flat ≡ config.now) }
    {
        let words = words_of(alloc, config)?;
        let terms = config.interface().len();
        let equations = config.equations().len();
        Ok(Flat::from_parts(words, terms, equations, config.next()))
    }

    /// The same configuration as terms and equations. Takes time and memory in proportion to its nodes.
    pub fn to_config(&self, alloc: Global) -> Result<Config, AllocError>
        ensures { IfOk result (λ config. config ≡ self.now) }
    {
        let mut stack = terms_of(alloc, self.words())?;
        let interface = take_terms(alloc, &mut stack, self.interface_len())?;
        let equations = take_equations(alloc, stack)?;
        Ok(Config::from_parts(interface, equations, self.next()))
    }

    /// The configuration that words write with this `next`, so many of their terms in its interface, the others as the
    /// sides of so many equations. `terms_in` tells whether words are whole, and how many terms they write.
    pub fn restore(
        alloc: Global,
        words: Vec<Word>,
        terms: usize,
        equations: usize,
        next: u64,
    ) -> Result<Flat, ConfigFault>
        requires whole { IsWhole words.items }
        requires counted { length (forest words.items) ≡ terms + 2 * equations }
        ensures { Answers result (restored (configuration_of words.items terms next)) }
    {
        wide_ones_are_configurations_but_for_their_limits();
        if passes_a_limit(&words, terms) {
            return Err(ConfigFault::Limit);
        }
        let wide = WideFlat::restore(alloc, words, terms, equations, next)?;
        Ok(Flat { wide })
    }

    /// The same, with a `next` that is one above the greatest name.
    pub fn new(
        alloc: Global,
        words: Vec<Word>,
        terms: usize,
        equations: usize,
    ) -> Result<Flat, ConfigFault>
        requires whole { IsWhole words.items }
        requires counted { length (forest words.items) ≡ terms + 2 * equations }
        ensures { let c = configuration_of words.items terms 0
            in Answers result (restored (configured c.interface c.equations)) }
    {
        wide_ones_are_configurations_but_for_their_limits();
        if passes_a_limit(&words, terms) {
            return Err(ConfigFault::Limit);
        }
        let wide = WideFlat::new(alloc, words, terms, equations)?;
        Ok(Flat { wide })
    }

    /// The configuration of words that are known to write one.
    pub fn from_parts(words: Vec<Word>, terms: usize, equations: usize, next: u64) -> Flat
        requires { IsFlat words.items terms equations next }
        ensures { result ≡ configuration_of words.items terms next }
    {
        let wide = WideFlat::from_parts(words, terms, equations, next);
        Flat { wide }
    }

    /// The same, where the words of the equations are known to begin at this place. Takes a few steps.
    pub fn with_place(
        words: Vec<Word>,
        terms: usize,
        equations: usize,
        next: u64,
        place: usize,
    ) -> Flat
        requires flat { IsFlat words.items terms equations next }
        requires place { IsAfterTerms words.items terms place }
        ensures { result ≡ configuration_of words.items terms next }
    {
        let wide = WideFlat::with_place(words, terms, equations, next, place);
        Flat { wide }
    }

    /// The words, how many terms of the interface and how many equations they write, and `next`.
    pub fn into_parts(self) -> (Vec<Word>, usize, usize, u64)
        ensures flat { IsFlat result.0.items result.1 result.2 result.3 }
        ensures same { configuration_of result.0.items result.1 result.3 ≡ self }
    {
        self.wide.into_parts()
    }

    /// The same configuration, if it keeps the limits of a configuration. Moves it.
    pub fn from_wide(wide: WideFlat) -> Flat
        requires few { configuration_nodes wide ≤ MAX_NODES }
        requires interface { length wide.interface ≤ MAX_INTERFACE }
        ensures { result ≡ wide }
    {
        wide_ones_are_configurations_but_for_their_limits();
        wide.is_wide();
        Flat { wide }
    }

    /// The same configuration as a wide one. Moves it.
    pub fn into_wide(self) -> WideFlat
        ensures { result ≡ self }
    {
        self.wide
    }

    /// The words in the order of the text, the interface's before the equations'.
    pub fn words(&self) -> &[Word]
        ensures words { result.now ≡ configuration_words self.now }
        ensures sound { IsConfiguration self.now }
    {
        self.wide.words()
    }

    /// How many terms the interface has.
    pub fn interface_len(&self) -> usize
        ensures terms { result ≡ length self.now.interface }
        ensures sound { IsConfiguration self.now }
    {
        self.wide.interface_len()
    }

    /// The place after the words of the interface, where those of the equations begin.
    pub fn equations_place(&self) -> usize
        ensures place { IsAfterTerms (configuration_words self.now) (length self.now.interface) result }
        ensures sound { IsConfiguration self.now }
    {
        self.wide.equations_place()
    }

    /// How many equations there are.
    pub fn equations_len(&self) -> usize
        ensures equations { result ≡ length self.now.equations }
        ensures sound { IsConfiguration self.now }
    {
        self.wide.equations_len()
    }

    pub fn next(&self) -> u64
        ensures next { result ≡ self.now.next }
        ensures sound { IsConfiguration self.now }
    {
        self.wide.next()
    }

    /// How many names and agents there are, without counting them.
    pub fn nodes(&self) -> u64
        ensures nodes { result ≡ configuration_nodes self.now }
        ensures sound { IsConfiguration self.now }
    {
        self.wide.nodes()
    }

    /// A copy, equal to its source.
    pub fn copy(&self, alloc: Global) -> Result<Flat, AllocError>
        ensures { IfOk result (λ copy. copy ≡ self.now) }
    {
        let wide = self.wide.copy(alloc)?;
        Ok(Flat { wide })
    }
}

/// Whether there are too many words, or too many terms in the interface.
fn passes_a_limit(words: &[Word], terms: usize) -> bool
    ensures { IsTrue result ↔ ((MAX_NODES < length words.now) ⊎ (MAX_INTERFACE < terms)) }
{
    words.len() as u64 > MAX_NODES || terms > MAX_INTERFACE
}

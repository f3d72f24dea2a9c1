//! Configurations: how they are made, taken apart and copied, and why terms and equations are none.

ghost use Rattle.std.specs.Prelude.{◌≡◌, ℕ, ◌++◌, ◌<◌, ◌≤◌, ◌&&◌, ◌↔◌, ◌⊎◌, map, min, length, sum_by, true, false, nat_le, nat_lt, IfOk, IfErr, IsTrue, OnOk};
ghost use Rattle.std.specs.List.{list_all, flat_map};
ghost use Rattle.ic_term.specs.Tree.{nodes, names as names_of_term, pair_nodes, pair_names};
ghost use Rattle.ic_term.specs.Term.{tree, pair};
ghost use Rattle.ic_term.specs.Configuration.{IsConfiguration, configuration_nodes, nodes_in, names_in, one_above, is_small_enough, configured, restored};
ghost use Rattle.ic_term.specs.ConfigFault.{Answers};
ghost use Rattle.ic_term.specs.declared.config.ConfigFault.TheVariants.{Limit, Memory};

use crate::limits::{MAX_INTERFACE, MAX_NEXT, MAX_NODES};
use crate::occurrences::third_occurrence;
use crate::term::{Equation, Term};
use crate::terms::{append_names, copy_terms, nodes_of_terms};
use std::alloc::{AllocError, Global};
use std::marker::Model;

/// Why terms and equations are no configuration, in the order in which it is tried.
#[derive(Clone, Copy, Debug, PartialEq, Eq)]
pub enum ConfigFault {
    /// A limit is passed, or a name isn't below `next`.
    Limit,
    /// The first name that occurs for the third time, the interface before the equations.
    Name(u64),
    /// A growth was refused.
    Memory,
}

impl From<AllocError> for ConfigFault {
    ghost from_gives = { λ _ fault. fault ≡ Memory };

    fn from(_error: AllocError) -> ConfigFault {
        ConfigFault::Memory
    }
}

/// A configuration: an interface, a list of equations, and a number above each of its names.
#[derive(Drop)]
pub struct Config {
    interface: Vec<Term>,
    equations: Vec<Equation>,
    next: u64,
}

impl Model for Config {
    ghost use Rattle.std.specs.Prelude.{map};
    ghost use Rattle.ic_term.specs.Term.{tree, pair};
    ghost use Rattle.ic_term.specs.Configuration.{Configuration, IsConfiguration};
    ghost use Rattle.ic_term.specs.lemmas.Codings.{coded_configuration};

    ghost Value = { Configuration };

    ghost coded = { coded_configuration };

    ghost view = { λ c. record {
      interface = map tree c.interface.items;
      equations = map pair c.equations.items;
      next = c.next;
    } };

    ghost invariant = { λ c. IsConfiguration
        (record {
          interface = map tree c.interface.items;
          equations = map pair c.equations.items;
          next = c.next;
        }) };
}

impl Config {
    /// The configuration of these terms and equations. Its `next` is one above the greatest name.
    pub fn new(
        alloc: Global,
        interface: Vec<Term>,
        equations: Vec<Equation>,
    ) -> Result<Config, ConfigFault>
        ensures { Answers result
            (restored (configured (map tree interface.items) (map pair equations.items))) }
    {
        let names = small_names(alloc, &interface, &equations)?;
        let next = one_above(&names);
        Config::of_names(alloc, interface, equations, next, &names)
    }

    /// The configuration of these terms, equations and `next`.
    pub fn restore(
        alloc: Global,
        interface: Vec<Term>,
        equations: Vec<Equation>,
        next: u64,
    ) -> Result<Config, ConfigFault>
        ensures { Answers result
            (restored (record {
              interface = map tree interface.items;
              equations = map pair equations.items;
              next = next;
            })) }
    {
        let names = small_names(alloc, &interface, &equations)?;
        Config::of_names(alloc, interface, equations, next, &names)
    }

    /// The same, where the nodes and interface terms are few enough and these are the names.
    fn of_names(
        alloc: Global,
        interface: Vec<Term>,
        equations: Vec<Equation>,
        next: u64,
        names: &[u64],
    ) -> Result<Config, ConfigFault>
        requires small { IsTrue
            (is_small_enough (map tree interface.items) (map pair equations.items)) }
        requires names { names.now
            ≡ names_in (map tree interface.items) (map pair equations.items) }
        ensures { Answers result
            (restored (record {
              interface = map tree interface.items;
              equations = map pair equations.items;
              next = next;
            })) }
    {
        if next > MAX_NEXT || !are_below(names, next) {
            return Err(ConfigFault::Limit);
        }
        match third_occurrence(alloc, names)? {
            Some(name) => Err(ConfigFault::Name(name)),
            None => Ok(Config {
                interface,
                equations,
                next,
            }),
        }
    }

    /// The configuration of parts that are known to make one.
    pub fn from_parts(interface: Vec<Term>, equations: Vec<Equation>, next: u64) -> Config
        requires { IsConfiguration
            (record {
              interface = map tree interface.items;
              equations = map pair equations.items;
              next = next;
            }) }
        ensures { result
            ≡ record {
              interface = map tree interface.items;
              equations = map pair equations.items;
              next = next;
            } }
    {
        Config {
            interface,
            equations,
            next,
        }
    }

    /// The interface, the equations and `next`.
    pub fn into_parts(self) -> (Vec<Term>, Vec<Equation>, u64)
        ensures interface { map tree result.0.items ≡ self.interface }
        ensures equations { map pair result.1.items ≡ self.equations }
        ensures next { result.2 ≡ self.next }
        ensures sound { IsConfiguration self }
    {
        (self.interface, self.equations, self.next)
    }

    pub fn interface(&self) -> &[Term]
        ensures terms { map tree result.now ≡ self.now.interface }
        ensures sound { IsConfiguration self.now }
    {
        self.interface.as_slice()
    }

    pub fn equations(&self) -> &[Equation]
        ensures equations { map pair result.now ≡ self.now.equations }
        ensures sound { IsConfiguration self.now }
    {
        self.equations.as_slice()
    }

    pub fn next(&self) -> u64
        ensures next { result ≡ self.now.next }
        ensures sound { IsConfiguration self.now }
    {
        self.next
    }

    /// How many names and agents there are, counted anew on each call.
    pub fn nodes(&self) -> u64
        ensures nodes { result ≡ configuration_nodes self.now }
        ensures sound { IsConfiguration self.now }
    {
        nodes_in(&self.interface, &self.equations)
    }

    /// A copy, equal to its source.
    pub fn copy(&self, alloc: Global) -> Result<Config, AllocError>
        ensures { IfOk result (λ copy. copy ≡ self.now) }
    {
        Ok(Config {
            interface: copy_terms(alloc, &self.interface)?,
            equations: copy_equations(alloc, &self.equations)?,
            next: self.next,
        })
    }
}

/// The names of terms and equations, unless there are too many nodes or interface terms.
fn small_names(
    alloc: Global,
    interface: &[Term],
    equations: &[Equation],
) -> Result<Vec<u64>, ConfigFault>
    ensures small { IfOk result
        (λ _. IsTrue (is_small_enough (map tree interface.now) (map pair equations.now))) }
    ensures names { IfOk result
        (λ names. names.items ≡ names_in (map tree interface.now) (map pair equations.now)) }
    ensures limit { result ≡ Err ConfigFault.Limit
        → is_small_enough (map tree interface.now) (map pair equations.now) ≡ false }
    ensures name { IfErr result
        (λ fault. (fault ≡ ConfigFault.Limit) ⊎ (fault ≡ ConfigFault.Memory)) }
{
    if nodes_in(interface, equations) > MAX_NODES || interface.len() > MAX_INTERFACE {
        return Err(ConfigFault::Limit);
    }
    let mut names = Vec::new(alloc);
    append_names(interface, &mut names)?;
    append_equation_names(equations, &mut names)?;
    Ok(names)
}

/// How many names and agents there are, or 2^64 - 1 where there are more.
fn nodes_in(interface: &[Term], equations: &[Equation]) -> u64
    ensures { result ≡ min (nodes_in (map tree interface.now) (map pair equations.now)) u64.MAX }
{
    nodes_of_terms(interface).saturating_add(nodes_of_equations(equations))
}

fn nodes_of_equations(equations: &[Equation]) -> u64
    ensures { result ≡ min (sum_by pair_nodes (map pair equations.now)) u64.MAX }
{
    let mut count = 0u64;
    for equation in equations {
        count = count.saturating_add(equation.nodes());
    }
    count
}

fn append_equation_names(equations: &[Equation], names: &mut Vec<u64>) -> Result<(), AllocError>
    ensures { OnOk result
        (names.new.items ≡ names.old.items ++ flat_map pair_names (map pair equations.now)) }
{
    for equation in equations {
        equation.append_names(names)?;
    }
    Ok(())
}

/// One above the greatest name, or 0 without names; 2^64 - 1 stands for 2^64.
fn one_above(names: &[u64]) -> u64
    ensures { result ≡ min (one_above names.now) u64.MAX }
{
    let mut next = 0u64;
    for name in names {
        next = next.max(name.saturating_add(1));
    }
    next
}

fn are_below(names: &[u64], next: u64) -> bool
    ensures { result ≡ list_all (λ n. nat_lt n next) names.now }
{
    names.iter().all(|name| *name < next)
}

fn copy_equations(alloc: Global, equations: &[Equation]) -> Result<Vec<Equation>, AllocError>
    ensures { IfOk result (λ copies. map pair copies.items ≡ map pair equations.now) }
{
    let mut copies = Vec::with_capacity(alloc, equations.len())?;
    for equation in equations {
        copies.push(equation.copy(alloc)?)?;
    }
    Ok(copies)
}

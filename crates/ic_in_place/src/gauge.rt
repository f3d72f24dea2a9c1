//! How many names and agents a net has while it is reduced. Nothing is claimed of these figures: trials look at them.

ghost use Rattle.std.specs.Prelude.{◌≡◌, ◌++◌, List, []};
ghost use Rattle.ic_arena.specs.Piece.{Piece};
ghost use Rattle.ic_machine.specs.Plan.{Plans};
ghost use Rattle.ic_machine.specs.Runs.{Ran};
ghost use Rattle.ic_machine.specs.Steps.{Steps};

use ic_flat::WideSystem;
use ic_machine::Machine;
use ic_plans::First;
use ic_rules::Rule;
use ic_term::nodes_of_terms;
use std::alloc::{AllocError, Global};

/// Interactions between two looks, at most.
const FAR: u64 = 65_536;

/// What counts the names and agents of a net while machines reduce it. A name that occurs twice counts once.
#[derive(Drop)]
pub struct Gauge {
    /// Names and agents, at most so many.
    most: u64,
    /// The agents with which the net begins, and its names that occur once.
    begun: u64,
    /// The agents that each plan makes, by its number.
    made: Vec<u64>,
    /// The names and agents that an interaction adds, at most.
    growth: u64,
}

/// What a look at a net has found.
#[derive(Clone, Copy)]
pub struct Look {
    /// How many names and agents there are.
    pub nodes: u64,
    /// Whether these are too many.
    pub is_over: bool,
    /// Interactions until the next look, at least one.
    pub until: u64,
}

impl Gauge {
    /// Of the net of a system that begins with these names, by plans of rules with these numbers, and with at most so many names and agents.
    pub fn new(
        alloc: Global,
        system: &WideSystem,
        first: &First,
        numbers: &[u32],
        most: u64,
    ) -> Result<Gauge, AllocError> {
        let rules = system.rules().rules();
        let mut made = Vec::with_capacity(alloc, numbers.len())?;
        let mut growth = 1;
        for number in numbers {
            let (names, agents) = sizes_at(rules, *number);
            growth = growth.max(names.saturating_add(agents).saturating_sub(2));
            made.push(agents)?;
        }
        let bound = u64::from(first.names).saturating_mul(2);
        Ok(Gauge {
            most,
            begun: system.config().nodes().saturating_sub(bound),
            made,
            growth,
        })
    }

    /// How many names and agents a machine has that holds the whole net.
    pub fn nodes(&self, machine: &Machine) -> u64 {
        self.nodes_with(self.added(machine))
    }

    /// How many there are in all, where machines have added so many.
    pub fn nodes_with(&self, added: u64) -> u64 {
        self.begun.wrapping_add(added)
    }

    /// The names of a machine, and the agents that its interactions have made less those that they have taken. Modulo 2^64: a
    /// machine may take agents that another one has made.
    pub fn added(&self, machine: &Machine) -> u64 {
        let taken = machine.interactions().wrapping_mul(2);
        let mut added = machine.names_in_use().wrapping_sub(taken);
        for (made, count) in self.made.iter().zip(machine.fired()) {
            added = added.wrapping_add(made.wrapping_mul(*count));
        }
        added
    }

    /// Looks at a machine that holds the whole net. If there are too many names and agents, names are put through, and those that
    /// are left are counted.
    pub fn look(&self, machine: &mut Machine) -> Look
        ensures ran { (p : Plans) → Ran p machine.old machine.new }
        ensures same { machine.new ≡ record machine.old { places = machine.new.places } }
        ensures steps { (p : Plans) (rest : List Piece)
            → Steps p [] (machine.old.places ++ rest) (machine.new.places ++ rest) }
    {
        let found = self.look_at(self.nodes(machine));
        if !found.is_over {
            return found;
        }
        machine.sweep();
        self.look_at(self.nodes(machine))
    }

    /// What a look finds that finds so many names and agents.
    pub fn look_at(&self, nodes: u64) -> Look {
        let far = FAR.max(self.made.len() as u64);
        Look {
            nodes,
            is_over: nodes > self.most,
            until: self.room(nodes).clamp(1, far),
        }
    }

    /// How many interactions don't pass a sixteenth more than there may be, where there are so many names and agents.
    pub fn room(&self, nodes: u64) -> u64 {
        let most = self.most.saturating_add(self.most / 16);
        most.saturating_sub(nodes) / self.growth.max(1)
    }
}

/// How many names the rule with this number has, and agents in its arguments.
fn sizes_at(rules: &[Rule], number: u32) -> (u64, u64) {
    match rules.get(number as usize) {
        Some(rule) => (rule.names() as u64, agents_of(rule)),
        None => (0, 0),
    }
}

/// How many agents the arguments of a rule have. Each of its names occurs twice.
fn agents_of(rule: &Rule) -> u64 {
    let names = (rule.names() as u64).saturating_mul(2);
    nodes_of_terms(rule.left_args())
        .saturating_add(nodes_of_terms(rule.right_args()))
        .saturating_sub(names)
}

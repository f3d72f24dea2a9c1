//! Nets: agents, and wires between their ports.

ghost use Rattle.std.specs.Prelude.{◌≡◌, IfOk};
ghost use Rattle.ic_nets.specs.Nets.{IsNet};

use crate::port::Port;
use crate::sketch::sketch_of;
use crate::wiring::{name_wires, parted};
use ic_rules::RuleSet;
use ic_term::Config;
use std::alloc::{AllocError, Global};

/// An agent: the number of its symbol, and how many auxiliary ports it has.
#[derive(Clone, Copy)]
pub struct Agent {
    pub sym: u32,
    pub arity: usize,
}

/// A wire between two ports, and whether it joins the agents of an active pair.
#[derive(Clone, Copy)]
pub struct Wire {
    pub from: Port,
    pub to: Port,
    pub active: bool,
}

/// A net: how many places its interface has, its agents, how many equations of two names there are, and its wires.
#[derive(Drop)]
pub struct Net {
    pub interface: usize,
    /// Each agent's number is its place.
    pub agents: Vec<Agent>,
    pub joints: usize,
    pub wires: Vec<Wire>,
}

/// The net of a configuration. Takes time and memory in proportion to its nodes, and recurses on nothing.
pub fn net_of(alloc: Global, rules: &RuleSet, config: &Config) -> Result<Net, AllocError>
    ensures { IfOk result (IsNet rules.now.rules config.now) }
{
    let sketch = sketch_of(alloc, rules, config)?;
    let (mut wires, standings, joints) = parted(alloc, &sketch.links)?;
    let mut named = name_wires(alloc, &standings)?;
    wires.append(&mut named)?;
    Ok(Net {
        interface: config.interface().len(),
        agents: sketch.agents,
        joints,
        wires,
    })
}

//! Nets as graphs in Graphviz's DOT.

use crate::net::{Agent, Net, Wire};
use crate::port::Port;
use ic_rules::RuleSet;
use ic_term::Symbols;
use ic_text::{put_decimal, put_name};
use std::alloc::{AllocError, Global};

/// A net as a graph: a vertex for each agent, with its ports in order, and an edge for each wire.
///
/// The principal port is at the symbol, where an edge has an arrow head. Where an agent has more than two auxiliary
/// ports, each has its number. The places of the interface and free names are small vertices, and an equation of two
/// names is a point. An agent whose symbol is unknown has no text. An active pair is thick and, where there are rules, a
/// pair without one is dashed. A wire from an agent to itself goes round it.
pub fn dot(alloc: Global, rules: &RuleSet, net: &Net) -> Result<Vec<u8>, AllocError> {
    let has_rules = !rules.rules().is_empty();
    let mut out = Vec::new(alloc);
    put_head(&mut out)?;
    put_agents(rules.symbols(), &net.agents, &mut out)?;
    put_joints(net.joints, &mut out)?;
    put_wires(&net.wires, has_rules, &mut out)?;
    out.extend_from_slice(b"}\n")?;
    Ok(out)
}

/// Appends how a graph begins.
fn put_head(out: &mut Vec<u8>) -> Result<(), AllocError> {
    out.extend_from_slice(
        b"graph net {\n\
          node [shape=plaintext, width=0, height=0]\n\
          edge [arrowsize=0.7]\n",
    )
}

/// Appends the vertices of agents.
fn put_agents(symbols: &Symbols, agents: &[Agent], out: &mut Vec<u8>) -> Result<(), AllocError> {
    for (number, agent) in agents.iter().enumerate() {
        put_agent(symbols, number, agent, out)?;
    }
    Ok(())
}

/// The text of a symbol, if it is known.
fn text_of(symbols: &Symbols, sym: u32) -> &[u8] {
    if (sym as usize) < symbols.len() {
        symbols.text(sym)
    } else {
        b""
    }
}

/// Appends the vertex of an agent.
fn put_agent(
    symbols: &Symbols,
    number: usize,
    agent: &Agent,
    out: &mut Vec<u8>,
) -> Result<(), AllocError> {
    put_numbered(b"A", number, out)?;
    out.extend_from_slice(b" [shape=record, label=\"{<0>")?;
    out.extend_from_slice(text_of(symbols, agent.sym))?;
    put_ports(agent.arity, out)?;
    out.extend_from_slice(b"}\"]\n")
}

/// Appends a text and a number in digits.
fn put_numbered(text: &[u8], number: usize, out: &mut Vec<u8>) -> Result<(), AllocError> {
    out.extend_from_slice(text)?;
    put_decimal(number as u64, out)
}

/// Appends the auxiliary ports of an agent, in order.
fn put_ports(arity: usize, out: &mut Vec<u8>) -> Result<(), AllocError> {
    for i in 0..arity {
        put_cell(arity, i + 1, out)?;
    }
    if arity > 0 {
        out.push(b'}')?;
    }
    Ok(())
}

/// Appends the auxiliary port with this number, of so many: its place, and its number where there are more than two.
fn put_cell(arity: usize, port: usize, out: &mut Vec<u8>) -> Result<(), AllocError> {
    let opening = if port == 1 {
        b"|{<".as_slice()
    } else {
        b"|<".as_slice()
    };
    put_numbered(opening, port, out)?;
    if arity > 2 {
        put_numbered(b">", port, out)
    } else {
        out.extend_from_slice(b">")
    }
}

/// Appends the points of so many equations of two names.
fn put_joints(joints: usize, out: &mut Vec<u8>) -> Result<(), AllocError> {
    for joint in 0..joints {
        put_numbered(b"J", joint, out)?;
        out.extend_from_slice(b" [shape=point, width=0.05, height=0.05]\n")?;
    }
    Ok(())
}

/// Appends the edges of wires.
fn put_wires(wires: &[Wire], has_rules: bool, out: &mut Vec<u8>) -> Result<(), AllocError> {
    for wire in wires {
        put_wire(wire, has_rules, out)?;
    }
    Ok(())
}

/// Appends the edge of a wire.
fn put_wire(wire: &Wire, has_rules: bool, out: &mut Vec<u8>) -> Result<(), AllocError> {
    put_end(wire, wire.from, out)?;
    out.extend_from_slice(b" -- ")?;
    put_end(wire, wire.to, out)?;
    out.extend_from_slice(style_of(wire, has_rules))?;
    out.extend_from_slice(b"\n")
}

/// Appends an end of a wire: the port and, where both ends are at one agent, the side of its box.
fn put_end(wire: &Wire, port: Port, out: &mut Vec<u8>) -> Result<(), AllocError> {
    put_port(port, out)?;
    let side = match (is_loop(wire), is_principal(port)) {
        (false, _) => b"".as_slice(),
        (true, true) => b":n".as_slice(),
        (true, false) => b":s".as_slice(),
    };
    out.extend_from_slice(side)
}

/// Whether both ends of a wire are at one agent.
fn is_loop(wire: &Wire) -> bool {
    match (agent_at(wire.from), agent_at(wire.to)) {
        (Some(one), Some(other)) => one == other,
        _ => false,
    }
}

/// The agent whose port this is, if it is one's.
fn agent_at(port: Port) -> Option<usize> {
    match port {
        Port::Principal(agent) | Port::Auxiliary(agent, _) => Some(agent),
        _ => None,
    }
}

/// How the edge of a wire is drawn: with an arrow head at each principal port, thick at an active pair, and dashed at a pair
/// for which none of the rules is.
fn style_of(wire: &Wire, has_rules: bool) -> &'static [u8] {
    match (wire.active, is_principal(wire.from), is_principal(wire.to)) {
        (true, _, _) => b" [dir=both, penwidth=3]",
        (false, true, true) => pair_style(has_rules),
        (false, true, false) => b" [dir=back]",
        (false, false, true) => b" [dir=forward]",
        (false, false, false) => b"",
    }
}

/// How a pair is drawn that isn't active.
fn pair_style(has_rules: bool) -> &'static [u8] {
    if has_rules {
        b" [dir=both, style=dashed]"
    } else {
        b" [dir=both]"
    }
}

fn is_principal(port: Port) -> bool {
    match port {
        Port::Principal(_) => true,
        _ => false,
    }
}

/// Appends a port, as an edge names it.
fn put_port(port: Port, out: &mut Vec<u8>) -> Result<(), AllocError> {
    match port {
        Port::Interface(place) => put_numbered(b"I", place, out),
        Port::Principal(agent) => put_agents_port(agent, 0, out),
        Port::Auxiliary(agent, port) => put_agents_port(agent, port, out),
        Port::Left(joint) | Port::Right(joint) => put_numbered(b"J", joint, out),
        Port::Free(name) => put_name(name, out),
    }
}

/// Appends the port of an agent with this number, from 0.
fn put_agents_port(agent: usize, port: usize, out: &mut Vec<u8>) -> Result<(), AllocError> {
    put_numbered(b"A", agent, out)?;
    put_numbered(b":", port, out)
}

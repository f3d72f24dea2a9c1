//! The agents of a configuration, and what it joins, in the order of the text.

ghost use Rattle.std.specs.Prelude.{◌≡◌, ◌+◌, ◌++◌, ◌∷◌, [], IfOk, OnOk, length, map, sum_by};
ghost use Rattle.ic_term.specs.Tree.{nodes, trees_of};
ghost use Rattle.ic_term.specs.Term.{tree, cell_tree, pair};
ghost use Rattle.ic_round.specs.Firing.{rule_of_sides};
ghost use Rattle.std.specs.Prelude.{is_some};
ghost use Rattle.ic_nets.specs.Nets.{agents_in, agents_of, end_of, equation_link, inside, links_of, pair_agents, pair_links, joined, pairs_agents};
ghost use Rattle.ic_nets.specs.inner.Hanging.{agents_hung, coming, hung_at, links_hung};
ghost use Rattle.ic_nets.specs.declared.port.Port.TheVariants.{Interface, Auxiliary};

use crate::links::{End, Link};
use crate::net::Agent;
use crate::port::Port;
use ic_rules::RuleSet;
use ic_term::{Cell, Config, Equation, Term};
use std::alloc::{AllocError, Global};

/// Agents, and what is joined.
#[derive(Drop)]
pub(crate) struct Sketch {
    pub agents: Vec<Agent>,
    pub links: Vec<Link>,
}

/// The agents of a configuration, and what it joins.
pub(crate) fn sketch_of(
    alloc: Global,
    rules: &RuleSet,
    config: &Config,
) -> Result<Sketch, AllocError>
    ensures agents { IfOk result (λ sketch. sketch.agents.items ≡ agents_of config.now) }
    ensures links { IfOk result
        (λ sketch. sketch.links.items ≡ links_of rules.now.rules config.now) }
{
    let mut agents = Vec::new(alloc);
    let mut links = Vec::new(alloc);
    let mut stack = Vec::new(alloc);
    put_interface(config.interface(), &mut stack)?;
    add_hung(stack, &mut agents, &mut links)?;
    add_equations(alloc, rules, config.equations(), &mut agents, &mut links)?;
    Ok(Sketch { agents, links })
}

/// Puts the terms of an interface on a stack, the first one on top, each with its port.
fn put_interface<'a>(terms: &'a [Term], stack: &mut Vec<(Port, &'a Term)>) -> Result<(), AllocError>
    ensures { OnOk result (coming stack.new.items
        ≡ hung_at Interface 1 (map tree terms.now) ++ coming stack.old.items) }
{
    for i in (0..terms.len()).rev() {
        stack.push((Port::Interface(i + 1), &terms[i]))?;
    }
    Ok(())
}

/// Puts the arguments of an agent on a stack, the first one on top, each with its port.
fn put_arguments<'a>(
    agent: usize,
    terms: &'a [Term],
    stack: &mut Vec<(Port, &'a Term)>,
) -> Result<(), AllocError>
    ensures { OnOk result (coming stack.new.items
        ≡ hung_at (Auxiliary agent) 1 (map tree terms.now) ++ coming stack.old.items) }
{
    for i in (0..terms.len()).rev() {
        stack.push((Port::Auxiliary(agent, i + 1), &terms[i]))?;
    }
    Ok(())
}

/// What a term is joined by: its agent's principal port, which has this number, or its name.
fn end_of(number: usize, term: &Term) -> End
    ensures { result ≡ end_of number (tree term.now) }
{
    match term {
        Term::Name(name) => End::Named(*name),
        Term::Agent(_) => End::At(Port::Principal(number)),
    }
}

/// Adds the agent that a term is, if it is one, and puts its arguments on the stack.
fn open<'a>(
    term: &'a Term,
    agents: &mut Vec<Agent>,
    stack: &mut Vec<(Port, &'a Term)>,
) -> Result<(), AllocError>
    ensures agents { OnOk result (agents.new.items ++ agents_hung (coming stack.new.items)
        ≡ agents.old.items ++ (agents_in (tree term.now) ++ agents_hung (coming stack.old.items))) }
    ensures links { OnOk result (links_hung (length agents.new.items) (coming stack.new.items)
        ≡ inside (length agents.old.items) (tree term.now)
        ++ links_hung (length agents.old.items + length (agents_in (tree term.now)))
        (coming stack.old.items)) }
    ensures fewer { OnOk result (sum_by (λ h. nodes h.1) (coming stack.new.items) + 1
        ≡ nodes (tree term.now) + sum_by (λ h. nodes h.1) (coming stack.old.items)) }
{
    match term {
        Term::Name(_) => {}
        Term::Agent(cell) => {
            let number = agents.len();
            agents.push(Agent {
                sym: cell.sym,
                arity: cell.args.len(),
            })?;
            put_arguments(number, &cell.args, stack)?;
        }
    }
    Ok(())
}

/// Adds the agents of all terms of a stack, from the top on, and what joins them and their ports.
fn add_hung<'a>(
    mut stack: Vec<(Port, &'a Term)>,
    agents: &mut Vec<Agent>,
    links: &mut Vec<Link>,
) -> Result<(), AllocError>
    ensures agents { OnOk result
        (agents.new.items ≡ agents.old.items ++ agents_hung (coming stack.entry.items)) }
    ensures links { OnOk result (links.new.items ≡ links.old.items
        ++ links_hung (length agents.old.items) (coming stack.entry.items)) }
{
    while let Some((port, term)) = stack.pop() {
        links.push(Link {
            from: End::At(port),
            to: end_of(agents.len(), term),
            active: false,
        })?;
        open(term, agents, &mut stack)?;
    }
    Ok(())
}

/// Adds the agents of a term, and what joins them below it.
fn add_inside(
    alloc: Global,
    term: &Term,
    agents: &mut Vec<Agent>,
    links: &mut Vec<Link>,
) -> Result<(), AllocError>
    ensures agents { OnOk result
        (agents.new.items ≡ agents.old.items ++ agents_in (tree term.now)) }
    ensures links { OnOk result (links.new.items
        ≡ links.old.items ++ inside (length agents.old.items) (tree term.now)) }
{
    let mut stack = Vec::new(alloc);
    open(term, agents, &mut stack)?;
    add_hung(stack, agents, links)
}

/// Whether two terms are the agents of an active pair.
fn is_active(rules: &RuleSet, left: &Term, right: &Term) -> bool
    ensures { result ≡ is_some (rule_of_sides rules.now.rules (tree left.now) (tree right.now)) }
{
    match (left, right) {
        (Term::Agent(left), Term::Agent(right)) => rules.find(left.sym, right.sym).is_some(),
        _ => false,
    }
}

/// Adds the agents of an equation, and what it joins.
fn add_equation(
    alloc: Global,
    rules: &RuleSet,
    equation: &Equation,
    agents: &mut Vec<Agent>,
    links: &mut Vec<Link>,
) -> Result<(), AllocError>
    ensures agents { OnOk result
        (agents.new.items ≡ agents.old.items ++ pair_agents (pair equation.now)) }
    ensures links { OnOk result (links.new.items ≡ links.old.items
        ++ pair_links rules.now.rules (length agents.old.items) (pair equation.now)) }
{
    let from = end_of(agents.len(), &equation.left);
    add_inside(alloc, &equation.left, agents, links)?;
    links.push(Link {
        from,
        to: end_of(agents.len(), &equation.right),
        active: is_active(rules, &equation.left, &equation.right),
    })?;
    add_inside(alloc, &equation.right, agents, links)
}

/// Adds the agents of equations, and what they join.
fn add_equations(
    alloc: Global,
    rules: &RuleSet,
    equations: &[Equation],
    agents: &mut Vec<Agent>,
    links: &mut Vec<Link>,
) -> Result<(), AllocError>
    ensures agents { OnOk result
        (agents.new.items ≡ agents.old.items ++ pairs_agents (map pair equations.now)) }
    ensures links { OnOk result (links.new.items ≡ links.old.items
        ++ joined rules.now.rules (length agents.old.items) (map pair equations.now)) }
{
    for equation in equations {
        add_equation(alloc, rules, equation, agents, links)?;
    }
    Ok(())
}

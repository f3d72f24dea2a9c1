//! A machine that begins with a configuration of which the first generation of pairs is known.

ghost use Rattle.std.specs.Prelude.{◌≡◌, ◌↔◌, ℕ, ◌≤◌, ◌++◌, ◌||◌, ◌&&◌, [], not, map, length, nat_lt, nat_le, filter, IfOk};
ghost use Rattle.std.specs.List.{Contains};
ghost use Rattle.ic_term.specs.Configuration.{configuration_nodes, configuration_names, occurrences};
ghost use Rattle.ic_machine.specs.Net.{pieces};
ghost use Rattle.ic_machine.specs.Separate.{IsSeparate};
ghost use Rattle.ic_meaning.specs.First.{holds_agent, joins_agents, LinksPairsFirst};
ghost use Rattle.ic_plans.specs.Beginning.{BeginsWith};

use crate::first::{First, Laid, lay_out};
use ic_flat::WideSystem;
use ic_machine::{Link, Machine, Program};
use std::alloc::{AllocError, Global};

/// The machine that begins with a configuration and links its equations of two agents before all others, and how many these
/// are: it has these pairs pending first. Else it is as that of `begin`.
pub fn begin_with_pairs(
    alloc: Global,
    program: &Program,
    system: &WideSystem,
) -> Result<(Machine, First, usize), AllocError>
    requires arities { program.now.arities ≡ map (λ s. s.arity) system.now.rules.symbols }
    ensures begins { IfOk result (λ begun. (begins : BeginsWith system.now program.now
        begun.1.given.items begun.0)
        × LinksPairsFirst (map (λ s. s.arity) system.now.rules.symbols)
        (length begun.1.given.items) begins.plan begun.2) }
    ensures given { IfOk result (λ begun. (x : ℕ)
        → (occurrences x (configuration_names system.now.config) ≡ 1)
        ↔ Contains begun.1.given.items x) }
    ensures few { IfOk result (λ begun. length begun.1.given.items
        ≤ configuration_nodes system.now.config) }
    ensures arities { IfOk result (λ begun. begun.0.arities ≡ program.now.arities) }
    ensures aside { IfOk result (λ begun. begun.0.aside ≡ []) }
    ensures interactions { IfOk result (λ begun. begun.0.interactions ≡ 0) }
    ensures counts { IfOk result (λ begun.
        begun.0.counts ≡ map (λ plan. 0) program.now.plans) }
    ensures separate { IfOk result (λ begun.
        IsSeparate program.now.arities begun.0.interface (pieces begun.0)) }
{
    let Laid {
        builder,
        first,
        interface,
        links,
    } = lay_out(alloc, program, system)?;
    let constants = system.rules().symbols().len();
    let made = constants + first.given.len() + first.names as usize;
    let (links, pairs) = agents_first(alloc, &links, constants, made)?;
    let machine = builder.finish(alloc, program, &links, &interface, false)?;
    Ok((machine, first, pairs))
}

/// Links of two agents before the others, each of both in their order, and how many the first are.
fn agents_first(
    alloc: Global,
    links: &[Link],
    constants: usize,
    made: usize,
) -> Result<(Vec<Link>, usize), AllocError>
    ensures links { IfOk result (λ sorted. sorted.0.items
        ≡ filter (joins_agents constants made) links.now
        ++ filter (λ l. not (joins_agents constants made l)) links.now) }
    ensures pairs { IfOk result (λ sorted. sorted.1
        ≡ length (filter (joins_agents constants made) links.now)) }
{
    let mut pairs = Vec::new(alloc);
    let mut others = Vec::new(alloc);
    for link in links {
        if joins(*link, constants, made) {
            pairs.push(*link)?;
        } else {
            others.push(*link)?;
        }
    }
    let count = pairs.len();
    pairs.extend_from_slice(&others)?;
    Ok((pairs, count))
}

/// Whether a link makes two agents equal.
fn joins(link: Link, constants: usize, made: usize) -> bool
    ensures { result ≡ joins_agents constants made link }
{
    holds(link.left, constants, made) && holds(link.right, constants, made)
}

/// Whether a register holds an agent.
fn holds(register: u32, constants: usize, made: usize) -> bool
    ensures { result ≡ holds_agent constants made register }
{
    (register as usize) < constants || made <= register as usize
}

//! What the agents of a net amount to, and what rules change of it as they fire: modulo 2^64.

ghost use Rattle.std.specs.Prelude.{◌≡◌, ℕ, ◌+◌, ◌*◌, ◌^◌, ◌%◌, ◌<◌, ◌≤◌, List, IfOk, length, map};
ghost use Rattle.std.specs.List.{flat_map};
ghost use Rattle.ic_flat.specs.Words.{word_names};
ghost use Rattle.ic_generations.specs.Figures.{amount, arity_of};
ghost use Rattle.ic_rules.specs.Rule.{rule_names, rule_nodes};
ghost use Rattle.ic_rules.specs.System.{SystemParts};
ghost use Rattle.ic_rules.specs.declared.limits.TheConstants.{MAX_RULE_NODES};
ghost use Rattle.ic_by_rounds.specs.inner.Amounts.{AreChanges, AreOrigins, IsChange, Tells, one_each, products};

use ic_flat::{WideSystem, Word};
use ic_rules::{Rule, RuleSet};
use ic_term::{names_of_terms, nodes_of_terms};
use std::alloc::{AllocError, Global};

/// What agents amount to, modulo 2^64: their arities added up, and how many there are.
#[derive(Clone, Copy, PartialEq, Eq)]
pub(crate) struct Amounts {
    arities: u64,
    agents: u64,
}

/// How many nodes a net has, and how many of these are names, modulo 2^64.
#[derive(Clone, Copy, PartialEq, Eq)]
pub(crate) struct Figures {
    pub(crate) nodes: u64,
    pub(crate) names: u64,
}

/// No agents.
const NOTHING: Amounts = Amounts {
    arities: 0,
    agents: 0,
};

/// What the figures of a net that is reduced come from.
#[derive(Drop)]
pub(crate) struct Origins {
    /// How many terms the interface has.
    terms: usize,
    /// What the agents of the text amount to.
    begun: Amounts,
    /// What each plan adds to that as it fires, less what it takes.
    changes: Vec<Amounts>,
}

impl Origins {
    /// Of a net without agents.
    pub(crate) fn new(alloc: Global) -> Origins {
        Origins {
            terms: 0,
            begun: NOTHING,
            changes: Vec::new(alloc),
        }
    }

    /// Of the net of a system, by plans of rules with these numbers. A pass over its words.
    pub(crate) fn of(
        alloc: Global,
        system: &WideSystem,
        numbers: &[u32],
    ) -> Result<Origins, AllocError>
        ensures { IfOk result (λ origins. AreOrigins system.now numbers.now origins) }
    {
        let changes = changes_of(alloc, system.rules(), numbers)?;
        Ok(Origins {
            terms: system.config().interface_len(),
            begun: amounts_of(system),
            changes,
        })
    }

    /// The figures of the net with so many equations left, whose plans have fired so often. Circles are left out.
    pub(crate) fn figures(&self, equations: u64, fired: &[u64]) -> Figures
        ensures { (s : SystemParts) (numbers : List ℕ) → AreOrigins s numbers self.now
            → length fired.now ≡ length numbers
            → Tells s numbers equations fired.now result.nodes result.names }
    {
        let amounts = self.after(fired);
        let roots = (self.terms as u64).wrapping_add(equations.wrapping_mul(2));
        let nodes = roots.wrapping_add(amounts.arities);
        Figures {
            nodes,
            names: nodes.wrapping_sub(amounts.agents),
        }
    }

    /// What the agents amount to once the plans have fired so often. Takes time by the plans.
    fn after(&self, fired: &[u64]) -> Amounts
        ensures arities { length fired.now ≤ length self.now.changes.items → result.arities
            ≡ (self.now.begun.arities + products fired.now
            (map (λ change. change.arities) self.now.changes.items)) % 2 ^ 64 }
        ensures agents { length fired.now ≤ length self.now.changes.items → result.agents
            ≡ (self.now.begun.agents + products fired.now
            (map (λ change. change.agents) self.now.changes.items)) % 2 ^ 64 }
    {
        let mut added = NOTHING;
        for (plan, times) in fired.iter().enumerate() {
            if let Some(change) = self.changes.get(plan) {
                added = added.plus(*times, *change);
            }
        }
        self.begun.plus(1, added)
    }
}

impl Amounts {
    /// So often as much more.
    fn plus(self, times: u64, each: Amounts) -> Amounts
        ensures arities { result.arities ≡ (self.arities + times * each.arities) % 2 ^ 64 }
        ensures agents { result.agents ≡ (self.agents + times * each.agents) % 2 ^ 64 }
    {
        Amounts {
            arities: self.arities.wrapping_add(times.wrapping_mul(each.arities)),
            agents: self.agents.wrapping_add(times.wrapping_mul(each.agents)),
        }
    }
}

/// The amounts of a configuration. Nodes are its terms, two for each equation, and the arities of its agents; those that are no
/// names are agents.
fn amounts_of(system: &WideSystem) -> Amounts
    ensures arities { result.arities
        ≡ amount (arity_of system.now.rules.symbols) system.now.config }
    ensures agents { result.agents ≡ amount one_each system.now.config }
{
    ic_generations::laws::figures_add_up_over_agents();
    ic_flat::laws::words_say_what_their_configuration_says();
    let config = system.config();
    let nodes = config.nodes();
    let roots = (config.interface_len() as u64).wrapping_add(
        (config.equations_len() as u64).wrapping_mul(2),
    );
    Amounts {
        arities: nodes.wrapping_sub(roots),
        agents: nodes.wrapping_sub(names_among(config.words())),
    }
}

/// How many of these words are names.
fn names_among(words: &[Word]) -> u64
    ensures { result ≡ length (flat_map word_names words.now) }
{
    let mut names = 0u64;
    for word in words {
        if let Word::Name(_) = word {
            names += 1;
        }
    }
    names
}

/// What the plans of rules with these numbers change, as they fire.
fn changes_of(alloc: Global, rules: &RuleSet, numbers: &[u32]) -> Result<Vec<Amounts>, AllocError>
    ensures { IfOk result (λ changes. AreChanges rules.now numbers.now changes.items) }
{
    let mut changes = Vec::with_capacity(alloc, numbers.len())?;
    for number in numbers {
        changes.push(change_at(alloc, rules, *number)?)?;
    }
    Ok(changes)
}

/// What the rule with this number changes as it fires: nothing if there is none.
fn change_at(alloc: Global, rules: &RuleSet, number: u32) -> Result<Amounts, AllocError>
    ensures { IfOk result (λ change. IsChange rules.now number change) }
{
    ic_generations::laws::figures_add_up_over_agents();
    match rules.rules().get(number as usize) {
        Some(rule) => change_of(alloc, rule),
        None => Ok(NOTHING),
    }
}

/// What a rule changes as it fires: it makes the agents of its arguments, and takes two, with as many arguments.
fn change_of(alloc: Global, rule: &Rule) -> Result<Amounts, AllocError>
    requires { rule_nodes rule.now ≤ MAX_RULE_NODES }
    ensures arities { IfOk result (λ change.
        (change.arities + 2 * (length rule.now.left_args + length rule.now.right_args)) % 2 ^ 64
        ≡ rule_nodes rule.now % 2 ^ 64) }
    ensures agents { IfOk result (λ change.
        (change.agents + 2 + length (rule_names rule.now)) % 2 ^ 64
        ≡ rule_nodes rule.now % 2 ^ 64) }
{
    let (left, right) = (rule.left_args(), rule.right_args());
    let nodes = nodes_of_terms(left).wrapping_add(nodes_of_terms(right));
    let left_names = names_of_terms(alloc, left)?.len() as u64;
    let right_names = names_of_terms(alloc, right)?.len() as u64;
    let names = left_names.wrapping_add(right_names);
    let arguments = (left.len() as u64).wrapping_add(right.len() as u64);
    Ok(Amounts {
        arities: nodes.wrapping_sub(arguments.wrapping_mul(2)),
        agents: nodes.wrapping_sub(names).wrapping_sub(2),
    })
}

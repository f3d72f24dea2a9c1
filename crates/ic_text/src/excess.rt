//! With which word too much is written: the limits of rules, of nodes and of terms of the interface. That a limit is
//! passed is proved; the word is tried.

ghost use Rattle.std.specs.Prelude.{◌≡◌, ◌&&◌, ◌+◌, ◌-◌, ◌*◌, ◌<◌, ◌^◌, None, length, nat_le, sum_by, true};
ghost use Rattle.ic_rules.specs.declared.limits.TheConstants.{MAX_RULE_NODES};
ghost use Rattle.ic_text.specs.Limits.{most_interface, most_nodes, most_rules};
ghost use Rattle.ic_text.specs.SystemSource.{SystemPhrase};
ghost use Rattle.ic_text.specs.inner.Counted.{IsCounted, due_after, each_keeps, fits, is_kept, rule_nodes_keep};
ghost use Rattle.ic_text.specs.inner.Prefix.{nodes_of};

use crate::limits::Limits;
use crate::misread::Limit;
use crate::prefix::Node;
use ic_rules::MAX_RULE_NODES;

/// A limit that is passed, and how many words stand before the one that passes it.
#[derive(Clone, Copy)]
pub(crate) struct Excess {
    pub word: usize,
    pub limit: Limit,
}

/// The limit that is passed with a word, if one is.
pub(crate) fn limit_at(excess: Option<Excess>, word: usize) -> Option<Limit>
    ensures { excess ≡ None → result ≡ None }
{
    match excess {
        Some(excess) => (excess.word == word).then_some(excess.limit),
        None => None,
    }
}

/// Which of two comes first, if there is one.
fn earlier(one: Option<Excess>, other: Option<Excess>) -> Option<Excess>
    ensures { is_kept result ≡ (is_kept one && is_kept other) }
{
    match (one, other) {
        (Some(first), Some(second)) => {
            if second.word < first.word {
                Some(second)
            } else {
                Some(first)
            }
        }
        (Some(first), None) => Some(first),
        (None, other) => other,
    }
}

/// How many terms are due after a word, if so many were due before it: none in front of a term that no other one holds.
fn due_after(due: usize, arity: usize) -> usize
    ensures { due + arity < 2 ^ 64 → result ≡ due_after due arity }
{
    due.saturating_sub(1).saturating_add(arity)
}

/// How many words stand before the one with which more than so many are counted: the first words of terms that no other
/// one holds, or all others.
fn word_past(nodes: &[Node], outer: bool, most: usize) -> usize {
    let mut due = 0;
    let mut left = most;
    for (word, node) in nodes.iter().enumerate() {
        if outer == (due == 0) {
            if left == 0 {
                return word;
            }
            left -= 1;
        }
        due = due_after(due, node.arity);
    }
    nodes.len()
}

/// Whether there are too many rules, and with which word, where so many agents are their sides.
fn too_many_rules(limits: Limits, nodes: &[Node], agents: usize) -> Option<Excess>
    ensures { is_kept result ≡ nat_le agents (2 * most_rules limits) }
{
    let most = 2 * limits.rules();
    if agents <= most {
        return None;
    }
    Some(Excess {
        word: word_past(nodes, true, most),
        limit: Limit::Rules,
    })
}

/// Whether there are too many nodes in the arguments of all rules, and with which word.
fn too_many_served_nodes(nodes: &[Node], agents: usize) -> Option<Excess>
    ensures { is_kept result ≡ nat_le (length nodes.now - agents) MAX_RULE_NODES }
{
    if nodes.len().saturating_sub(agents) <= MAX_RULE_NODES as usize {
        return None;
    }
    Some(Excess {
        word: word_past(nodes, false, MAX_RULE_NODES as usize),
        limit: Limit::RuleNodes,
    })
}

/// The first node too many in the arguments of one rule.
fn too_long_rule(nodes: &[Node]) -> Option<Excess>
    requires { sum_by (λ w. w.arity) (nodes_of nodes.now) < 2 ^ 64 }
    ensures { is_kept result ≡ each_keeps 0 true 0 (nodes_of nodes.now) }
{
    let mut due = 0;
    let mut second = true;
    let mut found = 0u64;
    for (word, node) in nodes.iter().enumerate() {
        if due > 0 {
            if found == MAX_RULE_NODES {
                return Some(Excess {
                    word,
                    limit: Limit::RuleNodes,
                });
            }
            found += 1;
        } else {
            if second {
                found = 0;
            }
            second = !second;
        }
        due = due_after(due, node.arity);
    }
    None
}

/// Whether there are too many nodes in the arguments of rules, and with which word.
fn too_many_rule_nodes(limits: Limits, nodes: &[Node], agents: usize) -> Option<Excess>
    requires { sum_by (λ w. w.arity) (nodes_of nodes.now) < 2 ^ 64 }
    ensures { is_kept result ≡ rule_nodes_keep limits agents (nodes_of nodes.now) }
{
    match limits {
        Limits::Served => too_many_served_nodes(nodes, agents),
        Limits::Wide => too_long_rule(nodes),
    }
}

/// The limit that rules pass first, if they pass one, and with which word.
fn rules_excess(limits: Limits, nodes: &[Node], agents: usize) -> Option<Excess>
    requires { sum_by (λ w. w.arity) (nodes_of nodes.now) < 2 ^ 64 }
    ensures { is_kept result ≡ (nat_le agents (2 * most_rules limits)
        && rule_nodes_keep limits agents (nodes_of nodes.now)) }
{
    earlier(
        too_many_rules(limits, nodes, agents),
        too_many_rule_nodes(limits, nodes, agents),
    )
}

/// Whether there are too many terms in an interface, which stands first, and with which word.
fn too_many_terms(limits: Limits, nodes: &[Node], terms: usize) -> Option<Excess>
    ensures { is_kept result ≡ nat_le terms (most_interface limits) }
{
    let most = limits.interface_terms();
    if terms <= most {
        return None;
    }
    Some(Excess {
        word: word_past(nodes, true, most),
        limit: Limit::Interface,
    })
}

/// The first node too many of a configuration.
fn too_many_nodes(limits: Limits, nodes: &[Node]) -> Option<Excess>
    ensures { is_kept result ≡ nat_le (length nodes.now) (most_nodes limits) }
{
    let most = limits.nodes();
    if nodes.len() as u64 <= most {
        return None;
    }
    Some(Excess {
        word: most as usize,
        limit: Limit::Nodes,
    })
}

/// The limit that a configuration passes first, if it passes one, and with which word.
pub(crate) fn config_excess(limits: Limits, nodes: &[Node], terms: usize) -> Option<Excess>
    ensures { is_kept result ≡ (nat_le terms (most_interface limits)
        && nat_le (length nodes.now) (most_nodes limits)) }
{
    earlier(
        too_many_terms(limits, nodes, terms),
        too_many_nodes(limits, nodes),
    )
}

/// The limit of how much is written that is passed first, if one is, and with which word. So many words are those of
/// the rules, so many agents are their sides, and the interface has so many terms.
pub(crate) fn excess_of(
    limits: Limits,
    nodes: &[Node],
    rules: usize,
    agents: usize,
    terms: usize,
) -> Option<Excess>
    requires { (s : SystemPhrase) × IsCounted s (nodes_of nodes.now) rules agents terms }
    ensures { (s : SystemPhrase) → IsCounted s (nodes_of nodes.now) rules agents terms →
        is_kept result ≡ fits limits s }
{
    match rules_excess(limits, &nodes[..rules], agents) {
        Some(excess) => Some(excess),
        None => match config_excess(limits, &nodes[rules..], terms) {
            Some(excess) => Some(Excess {
                word: rules.saturating_add(excess.word),
                limit: excess.limit,
            }),
            None => None,
        },
    }
}

/// Whether a configuration has neither too many terms in its interface nor too many words.
fn config_is_within(limits: Limits, words: usize, terms: usize) -> bool
    ensures { result ≡ (nat_le terms (most_interface limits)
        && nat_le words (most_nodes limits)) }
{
    terms <= limits.interface_terms() && words as u64 <= limits.nodes()
}

/// Whether no limit is passed of how much is written: so many agents are the sides of the rules, which have these words,
/// and the configuration has so many words, and so many terms in its interface.
pub(crate) fn is_within(
    limits: Limits,
    rules: &[Node],
    agents: usize,
    words: usize,
    terms: usize,
) -> bool
    requires { sum_by (λ w. w.arity) (nodes_of rules.now) < 2 ^ 64 }
    ensures { result ≡ ((nat_le agents (2 * most_rules limits)
        && rule_nodes_keep limits agents (nodes_of rules.now))
        && (nat_le terms (most_interface limits) && nat_le words (most_nodes limits))) }
{
    match rules_excess(limits, rules, agents) {
        Some(_) => false,
        None => config_is_within(limits, words, terms),
    }
}

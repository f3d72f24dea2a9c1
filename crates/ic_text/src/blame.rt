//! At which word a configuration or rules are refused, once limits and arities are settled. What is told is tried, not
//! proved.

ghost use Rattle.std.specs.Prelude.{◌≡◌, ◌≤◌, length};

use crate::fault::TextFault;
use crate::name::{is_name, name_number};
use crate::prefix::Node;
use crate::refusal::Refusal;

/// How many words have this text.
fn uses(nodes: &[Node], text: &[u8]) -> usize {
    let mut found: usize = 0;
    for node in nodes {
        if node.text == text {
            found = found.saturating_add(1);
        }
    }
    found
}

/// Whether a word is this name.
fn is_named(node: &Node, name: u64) -> bool {
    if !is_name(node.text) {
        return false;
    }
    match name_number(node.text) {
        Some(number) => number == name,
        None => false,
    }
}

/// How many words stand before the one that is this name for the third time.
fn third_word(nodes: &[Node], name: u64) -> usize
    ensures { result ≤ length nodes.now }
{
    let mut left: usize = 2;
    for (word, node) in nodes.iter().enumerate() {
        if is_named(node, name) {
            if left == 0 {
                return word;
            }
            left -= 1;
        }
    }
    nodes.len()
}

/// How many words of a rule stand before the first name that stands only there in the rule, or there for the third
/// time. Takes as many steps as the square of the words.
fn first_miscounted(nodes: &[Node]) -> usize
    ensures { result ≤ length nodes.now }
{
    for (word, node) in nodes.iter().enumerate() {
        let text = node.text;
        if is_name(text) && (uses(nodes, text) == 1 || uses(&nodes[..word], text) == 2) {
            return word;
        }
    }
    nodes.len()
}

/// How many words of rules stand before the beginning of a rule, or are there in all. Other words may follow the rules.
fn rule_begin(nodes: &[Node], rule: usize) -> usize
    ensures { result ≤ length nodes.now }
{
    let mut due: usize = 0;
    let mut left = rule;
    for (word, node) in nodes.iter().enumerate() {
        if due == 0 {
            if left == 0 {
                return word;
            }
            left -= 1;
            due = 2;
        }
        due = (due - 1).saturating_add(node.arity);
    }
    nodes.len()
}

/// How many words of rules stand before the first one that is a name's only or third one in this rule.
fn miscounted_word(nodes: &[Node], rule: u32) -> usize {
    let begin = rule_begin(nodes, rule as usize);
    let end = rule_begin(nodes, rule as usize + 1).max(begin);
    begin + first_miscounted(&nodes[begin..end])
}

/// The refusal of a system with these words, of which so many are those of its rules; of a configuration none are.
pub(crate) fn refusal_of(fault: TextFault, nodes: &[Node], rules: usize) -> Refusal
    requires { rules ≤ length nodes.now }
    ensures { result.fault ≡ fault }
{
    match fault {
        TextFault::NameCount(rule) => Refusal::at(fault, miscounted_word(nodes, rule)),
        TextFault::Name(name) => Refusal::at(fault, rules + third_word(&nodes[rules..], name)),
        TextFault::Twice(rule) | TextFault::Lopsided(rule) => {
            Refusal::at(fault, rule_begin(nodes, rule as usize))
        }
        TextFault::Syntax | TextFault::Limit | TextFault::Arity | TextFault::Memory => {
            Refusal::untold(fault)
        }
    }
}

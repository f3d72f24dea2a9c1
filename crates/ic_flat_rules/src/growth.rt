//! How large a fired configuration is, in flat form.

ghost use Rattle.std.specs.Prelude.{◌≡◌, ◌≤◌, min, true, IfSome, IsTrue};
ghost use Rattle.ic_term.specs.Tree.{pair_nodes};
ghost use Rattle.ic_term.specs.declared.limits.TheConstants.{MAX_NODES};
ghost use Rattle.ic_term.specs.Symbol.{is_over, is_pair_over};
ghost use Rattle.ic_term.specs.Configuration.{configuration_nodes};
ghost use Rattle.ic_rules.specs.RuleSet.{IsRuleSet};
ghost use Rattle.ic_round.specs.Firing.{rule_of_sides, names_taken, fired};
ghost use Rattle.ic_round.specs.lemmas.Sizes.{fired_nodes};
ghost use Rattle.ic_flat_rules.specs.Standing.{tree_at, pair_at, AreSides, IsEquationsPlace};

use crate::places::{Sides, sides_at};
use ic_flat::{Flat, Word};
use ic_rules::RuleSet;
use ic_term::nodes_of_terms;

/// Nodes and names, each at most 2^64 - 1, which stands for all above.
#[derive(Clone, Copy)]
pub(crate) struct Size {
    pub nodes: u64,
    pub names: u64,
}

/// The place of the rule of an equation's sides, and whether they are turned round in it.
pub fn rule_of(rules: &RuleSet, words: &[Word], sides: Sides) -> Option<(usize, bool)>
    requires { AreSides words.now sides }
    ensures rule { result ≡ rule_of_sides rules.now.rules
        (tree_at words.now sides.left) (tree_at words.now sides.right) }
    ensures sound { IfSome result (λ _. IsRuleSet rules.now) }
{
    match words[sides.left] {
        Word::Name(_) => None,
        Word::Agent(left, _) => match words[sides.right] {
            Word::Name(_) => None,
            Word::Agent(right, _) => rules.find(left, right),
        },
    }
}

/// The nodes of an equation once it has fired, if it is active, and how many fresh names it takes.
fn fired_size_of(rules: &RuleSet, words: &[Word], sides: Sides) -> Size
    requires sides { AreSides words.now sides }
    requires over { is_pair_over rules.now.symbols (pair_at words.now sides) ≡ true }
    requires small { pair_nodes (pair_at words.now sides) ≤ MAX_NODES }
    ensures nodes { result.nodes
        ≡ min (fired_nodes rules.now.rules (pair_at words.now sides)) u64.MAX }
    ensures names { result.names ≡ names_taken rules.now.rules (pair_at words.now sides) }
{
    let nodes = (sides.end - sides.left) as u64;
    match rule_of(rules, words, sides) {
        None => Size { nodes, names: 0 },
        Some((place, _)) => {
            let rule = &rules.rules()[place];
            Size {
                nodes: nodes
                    .saturating_sub(2)
                    .saturating_add(nodes_of_terms(rule.left_args()))
                    .saturating_add(nodes_of_terms(rule.right_args())),
                names: rule.names() as u64,
            }
        }
    }
}

/// The nodes of a configuration once its active equations have fired, and its `next` then, where the equations begin at
/// this place. Takes time linear in the nodes and in those of the rules that fire.
pub(crate) fn fired_size(rules: &RuleSet, flat: &Flat, place: usize) -> Size
    requires over { IsTrue (is_over rules.now.symbols flat.now) }
    requires place { IsEquationsPlace flat.now place }
    ensures nodes { result.nodes
        ≡ min (configuration_nodes (fired rules.now.rules flat.now)) u64.MAX }
    ensures names { result.names ≡ min (fired rules.now.rules flat.now).next u64.MAX }
{
    let words = flat.words();
    let mut place = place;
    let mut nodes = place as u64;
    let mut names = flat.next();
    while place < words.len() {
        let sides = sides_at(words, place);
        let size = fired_size_of(rules, words, sides);
        nodes = nodes.saturating_add(size.nodes);
        names = names.saturating_add(size.names);
        place = sides.end;
    }
    Size { nodes, names }
}

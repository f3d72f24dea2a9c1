//! How large a fired configuration is.

ghost use Rattle.std.specs.Prelude.{◌≡◌, ◌+◌, ◌≤◌, min, true, IfSome, IsTrue};
ghost use Rattle.ic_term.specs.Tree.{pair_nodes};
ghost use Rattle.ic_term.specs.declared.limits.TheConstants.{MAX_NODES};
ghost use Rattle.ic_term.specs.Term.{tree, pair};
ghost use Rattle.ic_term.specs.Symbol.{is_over, is_pair_over};
ghost use Rattle.ic_term.specs.Configuration.{configuration_nodes};
ghost use Rattle.ic_rules.specs.RuleSet.{IsRuleSet};
ghost use Rattle.ic_round.specs.Firing.{rule_of_sides, names_taken, fired};
ghost use Rattle.ic_round.specs.lemmas.Sizes.{fired_nodes};

use ic_rules::RuleSet;
use ic_term::{Config, Equation, Term, nodes_of_terms};

/// Nodes and names, each at most 2^64 - 1, which stands for all above.
#[derive(Clone, Copy)]
pub(crate) struct Size {
    pub nodes: u64,
    pub names: u64,
}

/// The place of the rule of an equation's sides, and whether they are turned round in it.
pub(crate) fn rule_of(rules: &RuleSet, equation: &Equation) -> Option<(usize, bool)>
    ensures rule { result
        ≡ rule_of_sides rules.now.rules (tree equation.now.left) (tree equation.now.right) }
    ensures sound { IfSome result (λ _. IsRuleSet rules.now) }
{
    match (&equation.left, &equation.right) {
        (Term::Agent(left), Term::Agent(right)) => rules.find(left.sym, right.sym),
        _ => None,
    }
}

/// The nodes of an equation once it has fired, if it is active, and how many fresh names it takes.
pub(crate) fn fired_size_of(rules: &RuleSet, equation: &Equation) -> Size
    requires over { is_pair_over rules.now.symbols (pair equation.now) ≡ true }
    requires small { pair_nodes (pair equation.now) ≤ MAX_NODES }
    ensures nodes { result.nodes ≡ min (fired_nodes rules.now.rules (pair equation.now)) u64.MAX }
    ensures names { result.names ≡ names_taken rules.now.rules (pair equation.now) }
{
    let nodes = equation.nodes();
    match rule_of(rules, equation) {
        None => Size { nodes, names: 0 },
        Some((place, _)) => {
            let rule = &rules.rules()[place];
            Size {
                nodes: nodes
                    .saturating_sub(2)
                    .saturating_add(nodes_of_terms(rule.left_args()))
                    .saturating_add(nodes_of_terms(rule.right_args())),
                names: rule.names() as u64,
            }
        }
    }
}

/// The nodes of a configuration once its active equations have fired, and its `next` then. Takes
/// time linear in the nodes and in those of the rules that fire.
pub(crate) fn fired_size(rules: &RuleSet, config: &Config) -> Size
    requires { IsTrue (is_over rules.now.symbols config.now) }
    ensures nodes { result.nodes
        ≡ min (configuration_nodes (fired rules.now.rules config.now)) u64.MAX }
    ensures names { result.names ≡ min (fired rules.now.rules config.now).next u64.MAX }
{
    let mut nodes = nodes_of_terms(config.interface());
    let mut names = config.next();
    for equation in config.equations() {
        let size = fired_size_of(rules, equation);
        nodes = nodes.saturating_add(size.nodes);
        names = names.saturating_add(size.names);
    }
    Size { nodes, names }
}

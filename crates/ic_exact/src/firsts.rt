//! What comes first in a list: a name that occurs for the third time, and a fault of rules.

ghost use Rattle.std.specs.Prelude.{◌≡◌, ◌↔◌, ℕ, List, Ok, Err};
ghost use Rattle.ic_term.specs.Configuration.{IsFirstThird};
ghost use Rattle.ic_term.specs.Symbol.{Symbol};
ghost use Rattle.ic_rules.specs.Rule.{Rule};
ghost use Rattle.ic_rules.specs.Refusals.{IsRefusal, IsTaken};
ghost use Rattle.ic_rules.specs.RuleSet.{Rules, built};
ghost use Rattle.ic_rules.specs.declared.rule_set.RuleFault.{RuleFault};

/// One name of a list occurs there for the third time first, at one place.
pub fn the_first_third_is_one()
    ensures { (n m : ℕ) (ns before after front rest : List ℕ)
        → IsFirstThird n ns before after → IsFirstThird m ns front rest
        → (n ≡ m) × (before ≡ front) × (after ≡ rest) }
{}

/// Just the rules that have no fault are taken, and others are refused for just the one that is said to come first.
pub fn rules_are_refused_exactly_so()
    ensures taken { (ss : List Symbol) (rs : List Rule) (set : Rules)
        → (built ss rs ≡ Ok set) ↔ IsTaken ss rs set }
    ensures refused { (ss : List Symbol) (rs : List Rule) (fault : RuleFault)
        → (built ss rs ≡ Err fault) ↔ IsRefusal ss rs fault }
{
    ic_rules::laws::refusals_come_in_order();
}

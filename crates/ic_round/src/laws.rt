//! Laws of the definitions that the contracts of this crate cite.

ghost use Rattle.std.specs.Prelude.{◌≡◌, ◌↔◌, ℕ, ◌<◌, ◌≤◌, Bool, List, None, Some, Ok, count_by, is_some, map, IsPermutation, IsTrue};
ghost use Rattle.std.specs.List.{AllByRecursion, list_any};
ghost use Rattle.ic_term.specs.Tree.{Tree, name, agent, Pair, Trees};
ghost use Rattle.ic_term.specs.Symbol.{Symbol, is_over};
ghost use Rattle.ic_term.specs.Configuration.{Configuration, IsConfiguration, configuration_names, occurrences};
ghost use Rattle.ic_rules.specs.Rule.{Rule};
ghost use Rattle.ic_rules.specs.RuleSet.{Rules, IsRuleSet, has_pair};
ghost use Rattle.ic_settle.specs.NameSteps.{NameStep, NameSteps};
ghost use Rattle.ic_settle.specs.Settling.{settled};
ghost use Rattle.ic_round.specs.Completing.{Completes};
ghost use Rattle.ic_round.specs.Firing.{Active, active_pair, fired};
ghost use Rattle.ic_round.specs.Gathering.{gapped, gathered};
ghost use Rattle.ic_round.specs.Interactions.{Interactions, active_equations};
ghost use Rattle.ic_round.specs.Naming.{HasNames};
ghost use Rattle.ic_round.specs.Plans.{PlainPlan, planned};
ghost use Rattle.ic_round.specs.Quiet.{is_quiet, IsQuiet};
ghost use Rattle.ic_round.specs.Rounds.{round, iterate, fits, unless_unfit};
ghost use Rattle.ic_round.specs.Steps.{Steps};
ghost use Rattle.ic_round.specs.CountedSteps.{IsStepsFrom};
ghost use Rattle.ic_round.specs.Turning.{IsTurnedRight};
ghost use Rattle.ic_round.specs.Works.{PlainFired, result_of, works_from};

/// In a configuration whose active equations have fired, each name is below `next` and occurs at
/// most twice.
pub fn firing_keeps_names()
    ensures below { (rs : Rules) (c : Configuration)
        → IsRuleSet rs → IsTrue (is_over rs.symbols c) → IsConfiguration c
        → AllByRecursion (λ n. n < (fired rs.rules c).next)
        (configuration_names (fired rs.rules c)) }
    ensures twice { (rs : Rules) (c : Configuration)
        → IsRuleSet rs → IsTrue (is_over rs.symbols c) → IsConfiguration c
        → (n : ℕ) → occurrences n (configuration_names (fired rs.rules c)) ≤ 2 }
{}

/// The results of a configuration's works, in any order, fill its gaps to the fired configuration.
pub fn results_come_in_any_order()
    ensures { (rs : List Rule) (c : Configuration) (fs : List PlainFired)
        → IsPermutation (map (result_of rs) (works_from rs 0 c.next c.equations)) fs
        → gathered (gapped rs c) fs ≡ Ok (fired rs c) }
{}

/// What comes of a configuration that fits by firing, by settling and by a whole round is again a
/// configuration over the same symbols.
pub fn rounds_keep_configurations()
    ensures fired { (rs : Rules) (c : Configuration) → IsRuleSet rs → IsConfiguration c
        → IsTrue (is_over rs.symbols c) → IsTrue (fits rs.rules c)
        → IsConfiguration (fired rs.rules c) }
    ensures fired_over { (rs : Rules) (c : Configuration) → IsRuleSet rs
        → IsTrue (is_over rs.symbols c) → IsTrue (is_over rs.symbols (fired rs.rules c)) }
    ensures settled { (c : Configuration) → IsConfiguration c → IsConfiguration (settled c) }
    ensures settled_over { (ss : List Symbol) (c : Configuration)
        → IsTrue (is_over ss c) → IsTrue (is_over ss (settled c)) }
    ensures round { (rs : Rules) (c : Configuration) → IsRuleSet rs → IsConfiguration c
        → IsTrue (is_over rs.symbols c) → IsTrue (fits rs.rules c)
        → IsConfiguration (round rs.rules c) }
    ensures round_over { (rs : Rules) (c : Configuration) → IsRuleSet rs
        → IsTrue (is_over rs.symbols c) → IsTrue (is_over rs.symbols (round rs.rules c)) }
{}

/// The test of a quiet configuration holds exactly where no step is possible.
pub fn quiet_is_no_step()
    ensures { (rs : List Rule) (c : Configuration) → IsTrue (is_quiet rs c) ↔ IsQuiet rs c }
{}

/// From a plan, by results of its works in any order, to what a round answers.
pub fn a_plan_leads_to_the_round()
    ensures { (rs : List Rule) (c : Configuration) (plan : PlainPlan) (fs : List PlainFired)
        → Ok plan ≡ unless_unfit rs c (planned rs c) → IsConfiguration (fired rs c)
        → IsPermutation (map (result_of rs) plan.works) fs → Completes rs c plan.rest fs }
{}

/// A chain of steps never lowers `next`, stays over the symbols, and keeps that each name is below
/// `next` and occurs at most twice. And chains are only what single steps make: there is one just
/// where some number of steps leads from its beginning to its end.
pub fn chains_are_steps()
    ensures next { (rs : List Rule) (c d : Configuration) → Steps rs c d → c.next ≤ d.next }
    ensures over { (rs : Rules) (c d : Configuration) → IsRuleSet rs
        → IsTrue (is_over rs.symbols c) → Steps rs.rules c d → IsTrue (is_over rs.symbols d) }
    ensures names { (rs : Rules) (c d : Configuration) → IsRuleSet rs
        → IsTrue (is_over rs.symbols c) → HasNames c → Steps rs.rules c d → HasNames d }
    ensures single_steps { (rs : List Rule) (c d : Configuration)
        → Steps rs c d ↔ ((n : ℕ) × IsStepsFrom rs n c d) }
{}

/// A round is a chain of steps, and so is each number of rounds, which begins with none.
pub fn rounds_are_steps()
    ensures round { (rs : List Rule) (c : Configuration) → Steps rs c (round rs c) }
    ensures none { (rs : List Rule) (c : Configuration) → iterate rs 0 c ≡ c }
    ensures iterate { (rs : List Rule) (n : ℕ) (c : Configuration) → Steps rs c (iterate rs n c) }
{}

/// A round fires what is active at its start: interactions lead to the fired configuration, one for
/// each active equation, in their order, and no other. Wherever such interactions lead, it is this
/// configuration, up to the order of its equations. Then name steps lead to the round's end, where
/// none is possible.
pub fn a_round_fires_what_was_active()
    ensures fires { (rs : List Rule) (c : Configuration)
        → Interactions rs (active_equations rs c) c (fired rs c) }

    // There is no other end but for the order of equations: each is there as often.
    ensures interface { (rs : List Rule) (c d : Configuration)
        → Interactions rs (active_equations rs c) c d → d.interface ≡ (fired rs c).interface }
    ensures equations { (rs : List Rule) (c d : Configuration)
        → Interactions rs (active_equations rs c) c d → (test : Pair → Bool)
        → count_by test d.equations ≡ count_by test (fired rs c).equations }
    ensures next { (rs : List Rule) (c d : Configuration)
        → Interactions rs (active_equations rs c) c d → d.next ≡ (fired rs c).next }

    ensures settles { (rs : List Rule) (c : Configuration) → NameSteps (fired rs c) (round rs c) }
    ensures settled { (rs : List Rule) (c d : Configuration) → ¬ NameStep (round rs c) d }
{}

/// An equation of two agents is active exactly where the rules hold one of its two symbols, and one
/// with a name as a side never is. It is turned round only where the rule doesn't stand as it does.
pub fn active_equations_have_a_rule()
    ensures agents { (rs : List Rule) (a b : ℕ) (ts us : Trees)
        → is_some (active_pair rs (record { left = agent a ts; right = agent b us }))
        ≡ list_any (has_pair a b) rs }
    ensures left_name { (rs : List Rule) (n : ℕ) (t : Tree)
        → active_pair rs (record { left = name n; right = t }) ≡ None }
    ensures right_name { (rs : List Rule) (t : Tree) (n : ℕ)
        → active_pair rs (record { left = t; right = name n }) ≡ None }
    ensures turned { (rs : List Rule) (a b : ℕ) (ts us : Trees) (found : Active)
        → active_pair rs (record { left = agent a ts; right = agent b us }) ≡ Some found
        → IsTurnedRight rs a b ts us found }
{}

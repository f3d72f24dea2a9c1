//! Laws of the definitions that the contracts of this crate cite.

ghost use Rattle.std.specs.Prelude.{◌≡◌, ◌↔◌, ℕ, suc, ◌+◌, ◌<◌, List, None, Some, false, get_or, length, sum_by};
ghost use Rattle.std.specs.List.{AllByRecursion, find};
ghost use Rattle.ic_term.specs.Tree.{Pair};
ghost use Rattle.ic_term.specs.Configuration.{Configuration, configuration_names, configuration_nodes};
ghost use Rattle.ic_term.specs.Symbol.{Symbol};
ghost use Rattle.ic_rules.specs.Rule.{Rule};
ghost use Rattle.ic_round.specs.Firing.{rule_of_sides};
ghost use Rattle.ic_round.specs.ActivePlaces.{active};
ghost use Rattle.ic_round.specs.Rounds.{iterate};
ghost use Rattle.ic_round.specs.Quiet.{IsQuiet};
ghost use Rattle.ic_round.specs.Steps.{Steps};
ghost use Rattle.ic_by_rounds.specs.Interacting.{interactions_of};
ghost use Rattle.ic_streams.specs.Stuck.{is_of_agents, stuck_text};
ghost use Rattle.ic_by_rounds.specs.Tracing.{active_count, rows_of};
ghost use Rattle.ic_by_rounds.specs.declared.row.Row.{Row};

/// Where no step is possible, rounds change nothing.
pub fn quiet_configurations_stay()
    ensures { (rs : List Rule) (c : Configuration) (n : ℕ)
        → IsQuiet rs c → iterate rs n c ≡ c }
{}

/// Where no step is possible, the first equation of two agents has no rule; and none is told where
/// each equation has a name as a side.
pub fn stuck_pairs_have_no_rule()
    ensures no_rule { (rs : List Rule) (c : Configuration) (p : Pair) → IsQuiet rs c
        → find is_of_agents c.equations ≡ Some p → rule_of_sides rs p.left p.right ≡ None }
    ensures none { (symbols : List Symbol) (c : Configuration)
        → (stuck_text symbols c ≡ None)
        ↔ AllByRecursion (λ p. is_of_agents p ≡ false) c.equations }
{}

/// There is a row for each round. The equations that rounds fire are, all together, the interactions
/// of a chain of steps to the configuration after the rounds; and a round fires the equations at its
/// active places.
pub fn rows_count_interactions()
    ensures rows { (rs : List Rule) (c : Configuration) (n : ℕ) → length (rows_of rs c n) ≡ n }
    ensures chain { (rs : List Rule) (c : Configuration) (n : ℕ)
        → (steps : Steps rs c (iterate rs n c))
        × (interactions_of rs c (iterate rs n c) steps
        ≡ sum_by (λ row. row.pairs) (rows_of rs c n)) }
    ensures places { (rs : List Rule) (c : Configuration)
        → active_count rs c ≡ length (active rs c) }
{}

/// The row at a place is that of the round with this number: how many equations were active before it, and what the
/// configuration after it has.
pub fn each_row_is_of_its_round()
    ensures { (rs : List Rule) (c : Configuration) (n k : ℕ) (other : Row) → k < n
        → get_or (rows_of rs c n) k other ≡ record {
          round = k + 1;
          pairs = active_count rs (iterate rs k c);
          nodes = configuration_nodes (iterate rs (suc k) c);
          equations = length (iterate rs (suc k) c).equations;
          names = length (configuration_names (iterate rs (suc k) c));
        } }
{}

//! Laws of rounds whose equations fire one after another.

ghost use Rattle.std.specs.Prelude.{◌≡◌, ◌≤◌, ◌+◌, ◌*◌, ◌++◌, ℕ, List, [], IsPermutation, IsTrue, length, sum_by};
ghost use Rattle.std.specs.List.{list_all};
ghost use Rattle.ic_term.specs.Tree.{Tree, Pair};
ghost use Rattle.ic_term.specs.Configuration.{Configuration, configuration_nodes, configuration_names};
ghost use Rattle.ic_term.specs.Symbol.{Symbol, is_over};
ghost use Rattle.ic_rules.specs.RuleSet.{Rules, IsRuleSet};
ghost use Rattle.ic_settle.specs.Settling.{settled};
ghost use Rattle.ic_settle.specs.NameSteps.{NameStep, NameSteps};
ghost use Rattle.ic_round.specs.Naming.{HasNames};
ghost use Rattle.ic_round.specs.Firing.{fired};
ghost use Rattle.ic_round.specs.Interactions.{active_equations};
ghost use Rattle.ic_round.specs.Quiet.{is_inert};
ghost use Rattle.ic_round.specs.Rounds.{round, iterate};
ghost use Rattle.ic_confluence.specs.Agents.{configuration_symbols};
ghost use Rattle.ic_confluence.specs.Sameness.{Same};
ghost use Rattle.ic_reaching.specs.FreshNames.{Fires};
ghost use Rattle.ic_reaching.specs.OneNet.{OneNet, SameButNext};
ghost use Rattle.ic_generations.specs.Figures.{amount, amount_made, amount_spent, arity_of};
ghost use Rattle.ic_generations.specs.Firings.{FireInTurn, rules_of};
ghost use Rattle.ic_generations.specs.Generations.{Generation, whole, without_now, Goes};
ghost use Rattle.ic_generations.specs.Waiting.{are_agents, arguments_in};

/// The active equations of a configuration fire one after another, each once, in any order and by
/// any fresh names: this makes the net in which all of them have fired at once. Each order is
/// possible. Which fresh names one of them takes doesn't matter.
pub fn active_equations_fire_in_any_order()
    ensures fired { (rs : Rules) (es : List Pair) (c d : Configuration) → IsRuleSet rs
        → IsTrue (is_over rs.symbols c) → HasNames c
        → IsPermutation (active_equations rs.rules c) es → FireInTurn rs.rules es c d
        → SameButNext d (fired rs.rules c) }
    ensures one { (rs : Rules) (c d e : Configuration) (i j : ℕ) → IsRuleSet rs
        → IsTrue (is_over rs.symbols c) → HasNames c
        → (s : Fires rs.rules c d i) → (t : Fires rs.rules c e j) → s.equation ≡ t.equation
        → SameButNext d e }
    ensures possible { (rs : Rules) (es : List Pair) (c : Configuration) → IsRuleSet rs
        → IsTrue (is_over rs.symbols c) → HasNames c
        → IsPermutation (active_equations rs.rules c) es
        → (d : Configuration) × FireInTurn rs.rules es c d }
{
    ic_confluence::laws::same_nets_take_the_same_name_steps();
    ic_confluence::laws::same_nets_have_the_same_rounds();
    ic_reaching::laws::where_names_begin_is_no_matter();
    ic_reaching::laws::what_is_reached_is_one_net();
    ic_reaching::laws::what_is_reached_goes_on();
}

/// Configurations that are the same net wherever fresh names begin are so once they are settled,
/// once all their active equations have fired, and after a round or several. As many of their
/// equations are active, by each rule.
pub fn where_names_begin_is_no_matter_to_rounds()
    ensures settled { (c d : Configuration) → HasNames c → SameButNext c d
        → SameButNext (settled c) (settled d) }
    ensures fired { (rs : Rules) (c d : Configuration) → IsRuleSet rs
        → IsTrue (is_over rs.symbols c) → HasNames c → HasNames d → SameButNext c d
        → SameButNext (fired rs.rules c) (fired rs.rules d) }
    ensures round { (rs : Rules) (c d : Configuration) → IsRuleSet rs
        → IsTrue (is_over rs.symbols c) → HasNames c → HasNames d → SameButNext c d
        → SameButNext (round rs.rules c) (round rs.rules d) }
    ensures rounds { (rs : Rules) (n : ℕ) (c d : Configuration) → IsRuleSet rs
        → IsTrue (is_over rs.symbols c) → HasNames c → HasNames d → SameButNext c d
        → SameButNext (iterate rs.rules n c) (iterate rs.rules n d) }
    ensures rules { (rs : Rules) (c d : Configuration) → IsRuleSet rs
        → IsTrue (is_over rs.symbols c) → HasNames c → SameButNext c d
        → IsPermutation (rules_of rs.rules c.equations) (rules_of rs.rules d.equations) }
{
    ic_confluence::laws::same_nets_take_the_same_name_steps();
    ic_confluence::laws::same_nets_take_the_same_steps();
    ic_confluence::laws::same_nets_have_the_same_rounds();
    ic_reaching::laws::where_names_begin_is_no_matter();
    ic_reaching::laws::what_is_reached_is_one_net();
    ic_reaching::laws::what_is_reached_goes_on();
}

/// Indirections and collects never make fewer equations active. Those that make no more may be
/// taken before the active equations fire, or after. While they are taken, equations of two agents
/// may stand by their arguments in the interface: if no other equation is active in the end, as
/// many are active as at first.
pub fn name_steps_may_wait_for_a_round()
    ensures active { (rs : Rules) (c d : Configuration) → NameSteps c d
        → length (active_equations rs.rules c) ≤ length (active_equations rs.rules d) }
    ensures fired { (rs : Rules) (c d : Configuration) → IsRuleSet rs
        → IsTrue (is_over rs.symbols c) → HasNames c → NameSteps c d
        → length (active_equations rs.rules d) ≡ length (active_equations rs.rules c)
        → NameSteps (fired rs.rules c) (fired rs.rules d) }
    ensures rules { (rs : Rules) (c d : Configuration) → NameSteps c d
        → length (active_equations rs.rules d) ≡ length (active_equations rs.rules c)
        → rules_of rs.rules d.equations ≡ rules_of rs.rules c.equations }
    ensures round { (rs : Rules) (c d : Configuration) → IsRuleSet rs
        → IsTrue (is_over rs.symbols c) → HasNames c → NameSteps c d
        → length (active_equations rs.rules d) ≡ length (active_equations rs.rules c)
        → Same (round rs.rules c) (round rs.rules d) }
    ensures elsewhere { (rs : Rules) (ts : List Tree) (es rest : List Pair) (next : ℕ)
        (end : Configuration) → IsTrue (list_all are_agents es)
        → NameSteps (record {
          interface = arguments_in es ++ ts;
          equations = rest;
          next = next;
        }) end → ((f : Configuration) → ¬ NameStep end f) → IsTrue (is_inert rs.rules end)
        → (d : Configuration)
        × NameSteps (record { interface = ts; equations = es ++ rest; next = next }) d
        × ((f : Configuration) → ¬ NameStep d f)
        × (length (active_equations rs.rules d) ≡ length (active_equations rs.rules (record {
          interface = ts;
          equations = es;
          next = next;
        }))) }
{
    ic_confluence::laws::every_order_settles_to_the_same_net();
}

/// A round may fire its equations one after another, and put names meanwhile. As the generation
/// begins, no equation of the rest is active; as it ends, none of its own is left. By then it has
/// made the net in which all active equations have fired at once. That is the net of the round, if
/// indirections and collects lead from the given net to one that the round begins with, and make
/// no equation active. Then as many equations have fired by each rule as are active in that round.
pub fn a_generation_is_a_round()
    ensures fired { (rs : Rules) (rules : List ℕ) (g h : Generation) → IsRuleSet rs
        → IsTrue (is_over rs.symbols (whole g)) → HasNames (whole g)
        → IsTrue (is_inert rs.rules (without_now g)) → Goes rs.rules rules g h → h.now ≡ []
        → OneNet (fired rs.rules (whole g)) (whole h) }
    ensures round { (rs : Rules) (rules : List ℕ) (g h : Generation) (c d : Configuration)
        → IsRuleSet rs → IsTrue (is_over rs.symbols (whole g)) → HasNames (whole g)
        → IsTrue (is_inert rs.rules (without_now g)) → Goes rs.rules rules g h → h.now ≡ []
        → NameSteps (whole g) c
        → length (active_equations rs.rules c) ≡ length (active_equations rs.rules (whole g))
        → SameButNext c d → HasNames d
        → OneNet (round rs.rules d) (whole h)
        × IsPermutation rules (rules_of rs.rules d.equations) }
{
    ic_confluence::laws::same_nets_take_the_same_name_steps();
    ic_confluence::laws::same_nets_take_the_same_steps();
    ic_confluence::laws::same_nets_have_the_same_rounds();
    ic_reaching::laws::where_names_begin_is_no_matter();
    ic_reaching::laws::one_net_is_an_equivalence();
    ic_reaching::laws::what_is_reached_is_one_net();
    ic_reaching::laws::what_is_reached_goes_on();
    ic_reaching::laws::what_a_part_reaches_the_whole_reaches();
}

/// The nodes of a configuration are its interface terms, two for each equation, and the arities of
/// its agents. All nodes but the agents are names. Where each agent amounts to something by its
/// symbol, a round changes what all of them amount to by a constant of each rule that fires.
pub fn figures_add_up_over_agents()
    ensures nodes { (ss : List Symbol) (c : Configuration) → IsTrue (is_over ss c)
        → configuration_nodes c
        ≡ length c.interface + 2 * length c.equations + amount (arity_of ss) c }
    ensures names { (c : Configuration)
        → length (configuration_names c) + length (configuration_symbols c)
        ≡ configuration_nodes c }
    ensures settled { (f : ℕ → ℕ) (c : Configuration) → HasNames c
        → amount f (settled c) ≡ amount f c }
    ensures round { (f : ℕ → ℕ) (rs : Rules) (c : Configuration) → IsRuleSet rs
        → IsTrue (is_over rs.symbols c) → HasNames c
        → amount f (round rs.rules c)
        + sum_by (amount_spent f rs.rules) (rules_of rs.rules c.equations)
        ≡ amount f c + sum_by (amount_made f rs.rules) (rules_of rs.rules c.equations) }
{}

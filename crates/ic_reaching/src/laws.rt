//! Laws of what is reached.

ghost use Rattle.std.specs.Prelude.{◌≡◌, ◌↔◌, ◌≤◌, ◌<◌, ◌++◌, ◌∷◌, ℕ, Bool, List, [], IsPermutation, IsTrue, length, map};
ghost use Rattle.std.specs.List.{flat_map, AllByRecursion};
ghost use Rattle.ic_term.specs.Tree.{Tree, Pair, names, pair_names};
ghost use Rattle.ic_term.specs.Configuration.{Configuration, configuration_names, configuration_nodes, names_in, occurrences};
ghost use Rattle.ic_term.specs.Symbol.{is_over};
ghost use Rattle.ic_rules.specs.Rule.{Rule};
ghost use Rattle.ic_rules.specs.RuleSet.{Rules, IsRuleSet};
ghost use Rattle.ic_settle.specs.Settling.{Binding, subst, subst_in, subst_pair};
ghost use Rattle.ic_settle.specs.NameSteps.{NameStep, NameSteps};
ghost use Rattle.ic_round.specs.Naming.{HasNames};
ghost use Rattle.ic_round.specs.Rounds.{iterate};
ghost use Rattle.ic_round.specs.Quiet.{IsQuiet};
ghost use Rattle.ic_round.specs.Steps.{Interaction};
ghost use Rattle.ic_confluence.specs.Agents.{configuration_symbols};
ghost use Rattle.ic_confluence.specs.Kinds.{Kind, Chain, firings};
ghost use Rattle.ic_confluence.specs.Sameness.{Same, turned};
ghost use Rattle.ic_reaching.specs.OneNet.{OneNet, SameButNext, raised};
ghost use Rattle.ic_reaching.specs.Reaching.{Reaches, rules_fired};
ghost use Rattle.ic_reaching.specs.FreshNames.{Fires};
ghost use Rattle.ic_reaching.specs.Beside.{beside, together, all_together, IsApart, PartRun, HasRun};
ghost use Rattle.ic_reaching.specs.Pieces.{AreNew, OccurInTurn, piece, piece_of, put_in_turn};

/// To be one net, wherever terms stand, is an equivalence of configurations that have names.
pub fn one_net_is_an_equivalence()
    ensures itself { (c : Configuration) → HasNames c → OneNet c c }
    ensures other_way { (c d : Configuration) → OneNet c d → OneNet d c }
    ensures through { (c d e : Configuration) → OneNet c d → OneNet d e → OneNet c e }
{
    ic_confluence::laws::same_is_an_equivalence();
    ic_confluence::laws::same_nets_take_the_same_name_steps();
    ic_confluence::laws::every_order_settles_to_the_same_net();
}

/// To be the same net wherever fresh names begin is an equivalence, and where they begin doesn't
/// matter to it.
pub fn where_names_begin_is_no_matter()
    ensures same { (c d : Configuration) → Same c d → SameButNext c d }
    ensures next { (c : Configuration) (next : ℕ) → SameButNext c (record c { next = next }) }
    ensures other_way { (c d : Configuration) → SameButNext c d → SameButNext d c }
    ensures through { (c d e : Configuration) → SameButNext c d → SameButNext d e
        → SameButNext c e }
{
    ic_confluence::laws::same_is_an_equivalence();
    ic_confluence::laws::same_nets_take_the_same_name_steps();
}

/// Configurations that are the same net wherever fresh names begin have the same free names, as
/// many nodes and equations, and the same agents, each as often. One without equations, in which
/// each name occurs at most once, is such a net with itself only, except for where they begin.
pub fn where_names_begin_is_all_that_differs()
    ensures free { (c d : Configuration) → SameButNext c d → (n : ℕ)
        → (occurrences n (configuration_names c) ≡ 1)
        ↔ (occurrences n (configuration_names d) ≡ 1) }
    ensures nodes { (c d : Configuration) → SameButNext c d
        → configuration_nodes d ≡ configuration_nodes c }
    ensures equations { (c d : Configuration) → SameButNext c d
        → length d.equations ≡ length c.equations }
    ensures agents { (c d : Configuration) → SameButNext c d
        → IsPermutation (configuration_symbols c) (configuration_symbols d) }
    ensures text { (c d : Configuration) → SameButNext c d → c.equations ≡ []
        → ((n : ℕ) → occurrences n (configuration_names c) ≤ 1)
        → (d.interface ≡ c.interface) × (d.equations ≡ []) }
{
    ic_confluence::laws::same_nets_have_one_shape();
    ic_confluence::laws::same_nets_have_the_same_agents();
}

/// The same net is one net; so is what a name step leads to, and where fresh names begin doesn't
/// matter. Only these make configurations one net: what none of them changes is the same of both.
pub fn a_name_step_leads_to_one_net()
    ensures same { (c d : Configuration) → HasNames c → Same c d → OneNet c d }
    ensures step { (c d : Configuration) → HasNames c → NameStep c d → OneNet c d }
    ensures next { (c : Configuration) (next : ℕ) → HasNames c → HasNames (record c { next = next })
        → OneNet c (record c { next = next }) }
    ensures least { (holds : Configuration → Bool)
        → ((c d : Configuration) → Same c d → holds c ≡ holds d)
        → ((c d : Configuration) → NameStep c d → holds c ≡ holds d)
        → ((more : ℕ) (c : Configuration) → holds c ≡ holds (raised more c))
        → (c d : Configuration) → OneNet c d → holds c ≡ holds d }
{
    ic_confluence::laws::same_is_an_equivalence();
    ic_confluence::laws::same_nets_take_the_same_name_steps();
}

/// Each configuration with names is reached from itself, and what is one net with what is reached
/// is reached too. It has names, and is over the symbols.
pub fn what_is_reached_is_one_net()
    ensures itself { (rs : List Rule) (c : Configuration) → HasNames c → Reaches rs c c [] }
    ensures net { (rs : List Rule) (c d e : Configuration) (fired : List ℕ)
        → Reaches rs c d fired → OneNet d e → Reaches rs c e fired }
    ensures names { (rs : List Rule) (c d : Configuration) (fired : List ℕ)
        → Reaches rs c d fired → HasNames d }
    ensures over { (rs : Rules) (c d : Configuration) (fired : List ℕ) → IsRuleSet rs
        → IsTrue (is_over rs.symbols c) → HasNames c → Reaches rs.rules c d fired
        → IsTrue (is_over rs.symbols d) }
{
    ic_confluence::laws::same_is_an_equivalence();
    ic_confluence::laws::same_nets_take_the_same_name_steps();
    ic_confluence::laws::every_order_settles_to_the_same_net();
}

/// What is reached goes on: by an interaction, whichever fresh names that takes, by any chain of
/// steps, and by what is reached from it.
pub fn what_is_reached_goes_on()
    ensures interaction { (rs : Rules) (c d e : Configuration) (fired : List ℕ) (place : ℕ)
        → IsRuleSet rs → IsTrue (is_over rs.symbols c) → HasNames c → Reaches rs.rules c d fired
        → (step : Interaction rs.rules d e place)
        → Reaches rs.rules c e (fired ++ step.active.rule ∷ []) }
    ensures fires { (rs : Rules) (c d e : Configuration) (fired : List ℕ) (rule : ℕ)
        → IsRuleSet rs → IsTrue (is_over rs.symbols c) → HasNames c → Reaches rs.rules c d fired
        → Fires rs.rules d e rule → Reaches rs.rules c e (fired ++ rule ∷ []) }
    ensures chain { (rs : Rules) (c d e : Configuration) (fired : List ℕ) (kinds : List Kind)
        → IsRuleSet rs → IsTrue (is_over rs.symbols c) → HasNames c → Reaches rs.rules c d fired
        → Chain rs.rules kinds d e → Reaches rs.rules c e (fired ++ rules_fired kinds) }
    ensures reached { (rs : Rules) (c d e : Configuration) (fired also : List ℕ)
        → IsRuleSet rs → IsTrue (is_over rs.symbols c) → HasNames c → Reaches rs.rules c d fired
        → Reaches rs.rules d e also → Reaches rs.rules c e (fired ++ also) }
{
    ic_confluence::laws::same_is_an_equivalence();
    ic_confluence::laws::same_nets_take_the_same_name_steps();
    ic_confluence::laws::every_order_settles_to_the_same_net();
    ic_confluence::laws::same_nets_take_the_same_steps();
    ic_confluence::laws::two_steps_meet();
}

/// Where what is reached is quiet, it is the net of every order, wherever its fresh names begin. A
/// chain of steps ends in it; each chain that ends quiet ends in it, with as many interactions of
/// each rule; and where rounds end, they end in it, and some number of rounds does.
pub fn what_is_reached_quiet_is_the_end_of_every_order()
    ensures end { (rs : Rules) (c d : Configuration) (fired : List ℕ) → IsRuleSet rs
        → IsTrue (is_over rs.symbols c) → HasNames c
        → Reaches rs.rules c d fired → IsQuiet rs.rules d
        → (kinds : List Kind) × (end : Configuration) × Chain rs.rules kinds c end
        × (rules_fired kinds ≡ fired) × IsQuiet rs.rules end × SameButNext end d }
    ensures every_order { (rs : Rules) (c d e : Configuration) (fired : List ℕ) (kinds : List Kind)
        → IsRuleSet rs → IsTrue (is_over rs.symbols c) → HasNames c
        → Reaches rs.rules c d fired → IsQuiet rs.rules d
        → Chain rs.rules kinds c e → IsQuiet rs.rules e
        → SameButNext d e × IsPermutation fired (rules_fired kinds) }
    ensures rounds { (rs : Rules) (n : ℕ) (c d : Configuration) (fired : List ℕ) → IsRuleSet rs
        → IsTrue (is_over rs.symbols c) → HasNames c
        → Reaches rs.rules c d fired → IsQuiet rs.rules d
        → IsQuiet rs.rules (iterate rs.rules n c) → SameButNext d (iterate rs.rules n c) }
    ensures some_rounds { (rs : Rules) (c d : Configuration) (fired : List ℕ) → IsRuleSet rs
        → IsTrue (is_over rs.symbols c) → HasNames c
        → Reaches rs.rules c d fired → IsQuiet rs.rules d
        → (n : ℕ) × IsQuiet rs.rules (iterate rs.rules n c) }
    ensures count { (kinds : List Kind) → length (rules_fired kinds) ≡ firings kinds }
{
    ic_confluence::laws::same_is_an_equivalence();
    ic_confluence::laws::same_nets_take_the_same_name_steps();
    ic_confluence::laws::every_order_settles_to_the_same_net();
    ic_confluence::laws::same_nets_take_the_same_steps();
    ic_confluence::laws::two_steps_meet();
    ic_confluence::laws::steps_are_of_kinds();
    ic_confluence::laws::every_order_ends_in_the_same_net();
    ic_confluence::laws::rounds_end_in_the_net_of_every_order();
}

/// What is reached, quiet or not, goes on by name steps to a net that a chain of steps leads to as
/// well, wherever fresh names begin. And every order of steps from what is reached ends in the same
/// net as from the beginning, with the interactions that are left.
pub fn what_is_reached_has_the_same_end()
    ensures further { (rs : List Rule) (c d : Configuration) (fired : List ℕ) → Reaches rs c d fired
        → (kinds : List Kind) × (end : Configuration) × (other : Configuration)
        × Chain rs kinds c end × (rules_fired kinds ≡ fired)
        × NameSteps d other × SameButNext end other }
    ensures end { (rs : Rules) (c d e f : Configuration) (fired : List ℕ) (ks ls : List Kind)
        → IsRuleSet rs → IsTrue (is_over rs.symbols c) → HasNames c → Reaches rs.rules c d fired
        → Chain rs.rules ks c e → IsQuiet rs.rules e → Chain rs.rules ls d f → IsQuiet rs.rules f
        → SameButNext e f × IsPermutation (rules_fired ks) (fired ++ rules_fired ls) }
{
    ic_confluence::laws::same_is_an_equivalence();
    ic_confluence::laws::same_nets_take_the_same_name_steps();
    ic_confluence::laws::every_order_settles_to_the_same_net();
    ic_confluence::laws::same_nets_take_the_same_steps();
    ic_confluence::laws::two_steps_meet();
    ic_confluence::laws::steps_are_of_kinds();
    ic_confluence::laws::every_order_ends_in_the_same_net();
    ic_confluence::laws::rounds_end_in_the_net_of_every_order();
}

/// Equations in another order, and an equation turned round, are one net with what they were.
pub fn the_order_of_equations_is_no_matter()
    ensures order { (c : Configuration) (es : List Pair) → HasNames c
        → IsPermutation c.equations es → OneNet c (record c { equations = es }) }
    ensures turned { (c : Configuration) (p : Pair) (others : List Pair) → HasNames c
        → IsPermutation c.equations (p ∷ others)
        → OneNet c (record c { equations = turned p ∷ others }) }
{
    ic_confluence::laws::same_is_an_equivalence();
    ic_confluence::laws::same_nets_take_the_same_name_steps();
    ic_confluence::laws::every_order_settles_to_the_same_net();
}

/// A piece is put where its name occurs: wherever that is, in one equation, or in the interface.
pub fn a_piece_is_put_for_its_name()
    ensures anywhere { (c : Configuration) (x : ℕ) (t : Tree) (others : List Pair) → HasNames c
        → IsPermutation c.equations (piece x t ∷ others)
        → 1 ≤ occurrences x (names_in c.interface others)
        → OneNet c (subst_in x t (record c { equations = others })) }
    ensures equation { (c : Configuration) (x : ℕ) (t : Tree) (p : Pair) (others : List Pair)
        → HasNames c → IsPermutation c.equations (piece x t ∷ p ∷ others)
        → 1 ≤ occurrences x (pair_names p)
        → OneNet c (record c { equations = subst_pair x t p ∷ others }) }
    ensures interface { (c : Configuration) (x : ℕ) (t : Tree) (others : List Pair) → HasNames c
        → IsPermutation c.equations (piece x t ∷ others)
        → 1 ≤ occurrences x (flat_map names c.interface)
        → OneNet c (record c { interface = map (subst x t) c.interface; equations = others }) }
{
    ic_confluence::laws::same_is_an_equivalence();
    ic_confluence::laws::same_nets_take_the_same_name_steps();
    ic_confluence::laws::every_order_settles_to_the_same_net();
}

/// A term is taken out of an equation or of the interface, as a piece of a name that doesn't occur.
pub fn a_term_becomes_a_piece()
    ensures equation { (c : Configuration) (x next : ℕ) (t : Tree) (p : Pair) (others : List Pair)
        → HasNames c → IsPermutation c.equations (subst_pair x t p ∷ others)
        → occurrences x (pair_names p) ≡ 1 → occurrences x (configuration_names c) ≡ 0
        → c.next ≤ next → x < next
        → OneNet c (record c { equations = piece x t ∷ p ∷ others; next = next }) }
    ensures interface { (c : Configuration) (x next : ℕ) (t : Tree) (ts : List Tree)
        → HasNames c → c.interface ≡ map (subst x t) ts
        → occurrences x (flat_map names ts) ≡ 1 → occurrences x (configuration_names c) ≡ 0
        → c.next ≤ next → x < next
        → OneNet c (record { interface = ts; equations = piece x t ∷ c.equations; next = next }) }
{
    ic_confluence::laws::same_is_an_equivalence();
    ic_confluence::laws::same_nets_take_the_same_name_steps();
    ic_confluence::laws::every_order_settles_to_the_same_net();
}

/// Pieces are put one after another, each where its name occurs once as its turn comes; and a net
/// is taken apart into such pieces, whose names are new.
pub fn pieces_are_put_in_turn()
    ensures put { (c : Configuration) (bs : List Binding) (others : List Pair) → HasNames c
        → IsPermutation c.equations (map piece_of bs ++ others)
        → OccurInTurn bs (record c { equations = others })
        → OneNet c (put_in_turn bs (record c { equations = others })) }
    ensures taken { (c rest : Configuration) (bs : List Binding) (next : ℕ) → HasNames c
        → c ≡ put_in_turn bs rest → OccurInTurn bs rest → AreNew c next bs → c.next ≤ next
        → OneNet c (record {
          interface = rest.interface;
          equations = map piece_of bs ++ rest.equations;
          next = next;
        }) }
{
    ic_confluence::laws::same_is_an_equivalence();
    ic_confluence::laws::same_nets_take_the_same_name_steps();
    ic_confluence::laws::every_order_settles_to_the_same_net();
}

/// One net has the same free names, which occur once, and so has what is reached.
pub fn free_names_stay()
    ensures net { (c d : Configuration) → OneNet c d → (n : ℕ)
        → (occurrences n (configuration_names c) ≡ 1)
        ↔ (occurrences n (configuration_names d) ≡ 1) }
    ensures reached { (rs : Rules) (c d : Configuration) (fired : List ℕ) → IsRuleSet rs
        → IsTrue (is_over rs.symbols c) → HasNames c → Reaches rs.rules c d fired → (n : ℕ)
        → (occurrences n (configuration_names c) ≡ 1)
        ↔ (occurrences n (configuration_names d) ≡ 1) }
{
    ic_confluence::laws::same_is_an_equivalence();
    ic_confluence::laws::same_nets_have_one_shape();
    ic_confluence::laws::steps_keep_free_names();
    ic_confluence::laws::same_nets_take_the_same_name_steps();
}

/// What a part reaches by itself, the whole reaches by the same interactions: with these terms and
/// equations beside both, where none of their names occurs twice in what is reached. And with them
/// beside both, one net is one net.
pub fn what_a_part_reaches_the_whole_reaches()
    ensures reaches { (rs : Rules) (c d : Configuration) (ts : List Tree) (es : List Pair)
        (fired : List ℕ) → IsRuleSet rs → IsTrue (is_over rs.symbols c) → HasNames c
        → Reaches rs.rules c d fired → HasNames (beside c ts es) → IsApart d ts es
        → Reaches rs.rules (beside c ts es) (beside d ts es) fired }
    ensures net { (c d : Configuration) (ts : List Tree) (es : List Pair) → OneNet c d
        → HasNames (beside c ts es) → IsApart d ts es → OneNet (beside c ts es) (beside d ts es) }
{
    ic_confluence::laws::same_is_an_equivalence();
    ic_confluence::laws::same_nets_have_one_shape();
    ic_confluence::laws::same_nets_take_the_same_name_steps();
    ic_confluence::laws::every_order_settles_to_the_same_net();
    ic_confluence::laws::same_nets_take_the_same_steps();
    ic_confluence::laws::two_steps_meet();
}

/// Parts run side by side, each by itself. The whole reaches what they have reached, by the
/// interactions of the first, then those of the second, and so on. Of two parts it is enough that
/// a name of both occurs in each once.
pub fn parts_run_side_by_side()
    ensures all { (rs : Rules) (runs : List PartRun) → IsRuleSet rs
        → AllByRecursion (HasRun rs) runs
        → HasNames (all_together (map (λ run. run.given) runs))
        → HasNames (all_together (map (λ run. run.reached) runs))
        → Reaches rs.rules (all_together (map (λ run. run.given) runs))
        (all_together (map (λ run. run.reached) runs)) (flat_map (λ run. run.fired) runs) }
    ensures two { (rs : Rules) (c d e f : Configuration) (fired also : List ℕ) → IsRuleSet rs
        → IsTrue (is_over rs.symbols c) → IsTrue (is_over rs.symbols d) → HasNames c → HasNames d
        → Reaches rs.rules c e fired → Reaches rs.rules d f also → HasNames (together c d)
        → IsApart e f.interface f.equations → IsApart f e.interface e.equations
        → Reaches rs.rules (together c d) (together e f) (fired ++ also) }
{
    ic_confluence::laws::same_is_an_equivalence();
    ic_confluence::laws::same_nets_have_one_shape();
    ic_confluence::laws::steps_keep_free_names();
    ic_confluence::laws::same_nets_take_the_same_name_steps();
    ic_confluence::laws::every_order_settles_to_the_same_net();
    ic_confluence::laws::same_nets_take_the_same_steps();
    ic_confluence::laws::two_steps_meet();
}

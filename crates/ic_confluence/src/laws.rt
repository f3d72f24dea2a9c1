//! Laws of the order of steps.

ghost use Rattle.std.specs.Prelude.{◌≡◌, ◌↔◌, ◌⊎◌, ◌≤◌, ◌++◌, ◌∷◌, ℕ, suc, Bool, List, [], IsPermutation, IsTrue, count_by, length};
ghost use Rattle.ic_term.specs.Tree.{Pair};
ghost use Rattle.ic_term.specs.Configuration.{Configuration, configuration_names, configuration_nodes, occurrences};
ghost use Rattle.ic_term.specs.Symbol.{is_over};
ghost use Rattle.ic_rules.specs.Rule.{Rule};
ghost use Rattle.ic_rules.specs.RuleSet.{Rules, IsRuleSet};
ghost use Rattle.ic_settle.specs.Settling.{settled};
ghost use Rattle.ic_settle.specs.NameSteps.{NameStep, NameSteps};
ghost use Rattle.ic_round.specs.Naming.{HasNames};
ghost use Rattle.ic_round.specs.Firing.{fired};
ghost use Rattle.ic_round.specs.Rounds.{round, iterate};
ghost use Rattle.ic_round.specs.Quiet.{IsQuiet};
ghost use Rattle.ic_round.specs.Steps.{Interaction, Step, Steps};
ghost use Rattle.ic_confluence.specs.Kinds.{Kind, StepOf, Chain, firings};
ghost use Rattle.ic_confluence.specs.Agents.{configuration_symbols, way_round};
ghost use Rattle.ic_confluence.specs.Circle.{uncut, of_equations, cut_at_x, cut_at_y, circle_of};
ghost use Rattle.ic_confluence.specs.Sameness.{Same, renamed_pair, turned};

/// To be the same net is an equivalence, and configurations of one net have the same `next`.
pub fn same_is_an_equivalence()
    ensures itself { (c : Configuration) → Same c c }
    ensures other_way { (c d : Configuration) → Same c d → Same d c }
    ensures through { (c d e : Configuration) → Same c d → Same d e → Same c e }
    ensures next { (c d : Configuration) → Same c d → d.next ≡ c.next }
{}

/// No step changes which names occur once: those are the free names of a net.
pub fn steps_keep_free_names()
    ensures { (rs : Rules) (c d : Configuration) → IsRuleSet rs
        → IsTrue (is_over rs.symbols c) → HasNames c → Step rs.rules c d → (n : ℕ)
        → (occurrences n (configuration_names c) ≡ 1)
        ↔ (occurrences n (configuration_names d) ≡ 1) }
{}

/// Configurations of one net have the same free names, and as many nodes and equations. One without
/// equations, in which each name occurs at most once, is the same net as itself only.
pub fn same_nets_have_one_shape()
    ensures free { (c d : Configuration) → Same c d → (n : ℕ)
        → (occurrences n (configuration_names c) ≡ 1)
        ↔ (occurrences n (configuration_names d) ≡ 1) }
    ensures nodes { (c d : Configuration) → Same c d
        → configuration_nodes d ≡ configuration_nodes c }
    ensures equations { (c d : Configuration) → Same c d
        → length d.equations ≡ length c.equations }
    ensures text { (c d : Configuration) → Same c d → c.equations ≡ []
        → ((n : ℕ) → occurrences n (configuration_names c) ≤ 1) → d ≡ c }
{}

/// Configurations of one net have the same agents, each as often. And they have the same circles:
/// what holds of the way round a circle, wherever that begins, holds of as many equations of both.
/// Where each has one equation only, their ways round are the same except for where they begin.
pub fn same_nets_have_the_same_agents()
    ensures agents { (c d : Configuration) → Same c d
        → IsPermutation (configuration_symbols c) (configuration_symbols d) }
    ensures circles { (holds : List (ℕ × ℕ) → Bool)
        → ((front back : List (ℕ × ℕ)) → holds (front ++ back) ≡ holds (back ++ front))
        → (c d : Configuration) → Same c d
        → count_by (λ p. holds (way_round p)) d.equations
        ≡ count_by (λ p. holds (way_round p)) c.equations }
    ensures one_circle { (c d : Configuration) (p q : Pair) → Same c d
        → c.equations ≡ p ∷ [] → d.equations ≡ q ∷ []
        → (front : List (ℕ × ℕ)) × (back : List (ℕ × ℕ))
        × (way_round p ≡ front ++ back) × (way_round q ≡ back ++ front) }
{}

/// `<|x=A(A(x))>` and `<|x=B(B(x))>` are two nets, and so are `<|x=A(B(C(x)))>` and
/// `<|x=A(C(B(x)))>`, where A, B and C are three symbols.
pub fn circles_may_differ()
    ensures agents { (a b : ℕ) → ¬ (a ≡ b)
        → ¬ Same (of_equations (circle_of (a ∷ a ∷ []) ∷ []))
        (of_equations (circle_of (b ∷ b ∷ []) ∷ [])) }
    ensures order { (a b c : ℕ) → ¬ (a ≡ b) → ¬ (b ≡ c) → ¬ (c ≡ a)
        → ¬ Same (of_equations (circle_of (a ∷ b ∷ c ∷ []) ∷ []))
        (of_equations (circle_of (a ∷ c ∷ b ∷ []) ∷ [])) }
{}

/// Configurations of one net keep the same of names, and where one has an indirection or a collect
/// the other has one too, to the same net.
pub fn same_nets_take_the_same_name_steps()
    ensures names { (c d : Configuration) → Same c d → HasNames c → HasNames d }
    ensures steps { (c d after : Configuration) → HasNames c → Same c d → NameStep c after
        → (end : Configuration) × NameStep d end × Same after end }
{}

/// Two indirections or collects from one configuration lead to the same net at once, or one more
/// on each side leads to one configuration.
pub fn two_name_steps_meet()
    ensures { (c d e : Configuration) → HasNames c → NameStep c d → NameStep c e
        → Same d e ⊎ ((f : Configuration) × NameStep d f × NameStep e f) }
{}

/// `<|x=A(y),y=B(x)>` steps to `<|y=B(A(y))>` and to `<|x=A(B(x))>`. That is one net, and no
/// renaming makes these equations equal, as they stand or turned round, where A and B are two
/// symbols.
pub fn a_circle_is_cut_anywhere()
    ensures at_y { (a b : ℕ) → NameStep (uncut a b) (of_equations (cut_at_y a b ∷ [])) }
    ensures at_x { (a b : ℕ) → NameStep (uncut a b) (of_equations (cut_at_x a b ∷ [])) }
    ensures same { (a b : ℕ)
        → Same (of_equations (cut_at_y a b ∷ [])) (of_equations (cut_at_x a b ∷ [])) }
    ensures apart { (a b : ℕ) → ¬ (a ≡ b) → (f : ℕ → ℕ)
        → ¬ (renamed_pair f (cut_at_y a b) ≡ cut_at_x a b) }
    ensures turned { (a b : ℕ) (f : ℕ → ℕ)
        → ¬ (renamed_pair f (cut_at_y a b) ≡ turned (cut_at_x a b)) }
{}

/// Whatever order indirections and collects have, where no more are possible the net is the same:
/// that of the settled configuration. And each chain of them goes on to this net.
pub fn every_order_settles_to_the_same_net()
    ensures ends { (c d e : Configuration) → HasNames c → NameSteps c d → NameSteps c e
        → ((f : Configuration) → ¬ NameStep d f) → ((f : Configuration) → ¬ NameStep e f)
        → Same d e }
    ensures settled { (c d : Configuration) → HasNames c → NameSteps c d
        → ((f : Configuration) → ¬ NameStep d f) → Same d (settled c) }
    ensures goes_on { (c d : Configuration) → HasNames c → NameSteps c d
        → (end : Configuration) × NameSteps d end × Same (settled c) end }
{}

/// The kinds leave out no step, and no chain of steps.
pub fn steps_are_of_kinds()
    ensures of_kind { (rs : List Rule) (c d : Configuration)
        → Step rs c d → (kind : Kind) × StepOf rs kind c d }
    ensures step { (rs : List Rule) (kind : Kind) (c d : Configuration)
        → StepOf rs kind c d → Step rs c d }
    ensures chains { (rs : List Rule) (c d : Configuration)
        → Steps rs c d ↔ ((kinds : List Kind) × Chain rs kinds c d) }
{}

/// Configurations of one net take the same steps, to the same net, kind by kind. So one is quiet
/// where the other is.
pub fn same_nets_take_the_same_steps()
    ensures steps { (rs : Rules) (kind : Kind) (c d after : Configuration) → IsRuleSet rs
        → IsTrue (is_over rs.symbols c) → HasNames c → Same c d → StepOf rs.rules kind c after
        → (end : Configuration) × StepOf rs.rules kind d end × Same after end }
    ensures quiet { (rs : Rules) (c d : Configuration) → IsRuleSet rs
        → IsTrue (is_over rs.symbols c) → HasNames c → Same c d
        → IsQuiet rs.rules c → IsQuiet rs.rules d }
{}

/// Configurations of one net are one net once they are settled, once all their active equations
/// have fired, and after a round or several.
pub fn same_nets_have_the_same_rounds()
    ensures settled { (c d : Configuration) → HasNames c → Same c d
        → Same (settled c) (settled d) }
    ensures fired { (rs : Rules) (c d : Configuration) → IsRuleSet rs
        → IsTrue (is_over rs.symbols c) → HasNames c → Same c d
        → Same (fired rs.rules c) (fired rs.rules d) }
    ensures round { (rs : Rules) (c d : Configuration) → IsRuleSet rs
        → IsTrue (is_over rs.symbols c) → HasNames c → Same c d
        → Same (round rs.rules c) (round rs.rules d) }
    ensures rounds { (rs : Rules) (n : ℕ) (c d : Configuration) → IsRuleSet rs
        → IsTrue (is_over rs.symbols c) → HasNames c → Same c d
        → Same (iterate rs.rules n c) (iterate rs.rules n d) }
{}

/// An interaction, and an indirection or collect, lead to one configuration in either order.
pub fn an_interaction_and_a_name_step_commute()
    ensures { (rs : Rules) (c d e : Configuration) (place : ℕ) → IsRuleSet rs
        → IsTrue (is_over rs.symbols c) → HasNames c
        → NameStep c d → Interaction rs.rules c e place
        → (f : Configuration) × (later : ℕ) × Interaction rs.rules d f later × NameStep e f }
{}

/// Two steps from one configuration are of one kind and lead to the same net at once, or one more
/// on each side, of the other one's kind, leads to the same net.
pub fn two_steps_meet()
    ensures { (rs : Rules) (k l : Kind) (c d e : Configuration) → IsRuleSet rs
        → IsTrue (is_over rs.symbols c) → HasNames c
        → StepOf rs.rules k c d → StepOf rs.rules l c e
        → ((k ≡ l) × Same d e)
        ⊎ ((f : Configuration) × (g : Configuration)
        × StepOf rs.rules l d f × StepOf rs.rules k e g × Same f g) }
{}

/// Confluence: any two chains of steps from one configuration go on to the same net, with as many
/// steps of each kind in all.
pub fn any_two_chains_join()
    ensures { (rs : Rules) (ks ls : List Kind) (c d e : Configuration) → IsRuleSet rs
        → IsTrue (is_over rs.symbols c) → HasNames c
        → Chain rs.rules ks c d → Chain rs.rules ls c e
        → (more : List Kind) × (others : List Kind) × (f : Configuration) × (g : Configuration)
        × Chain rs.rules more d f × Chain rs.rules others e g × Same f g
        × IsPermutation (ks ++ more) (ls ++ others) }
{}

/// Whatever order steps have, where no step is possible the net is the same, and as many steps of
/// each kind were made. Where one order ends, each chain of steps goes on to that net, with the
/// kinds that are left, so that none is longer.
pub fn every_order_ends_in_the_same_net()
    ensures ends { (rs : Rules) (ks ls : List Kind) (c d e : Configuration) → IsRuleSet rs
        → IsTrue (is_over rs.symbols c) → HasNames c
        → Chain rs.rules ks c d → IsQuiet rs.rules d
        → Chain rs.rules ls c e → IsQuiet rs.rules e → Same d e × IsPermutation ks ls }
    ensures goes_on { (rs : Rules) (ks ls : List Kind) (c d e : Configuration) → IsRuleSet rs
        → IsTrue (is_over rs.symbols c) → HasNames c
        → Chain rs.rules ks c d → IsQuiet rs.rules d → Chain rs.rules ls c e
        → (rest : List Kind) × (end : Configuration)
        × Chain rs.rules rest e end × Same d end × IsPermutation ks (ls ++ rest) }
    ensures longest { (rs : Rules) (ks ls : List Kind) (c d e : Configuration) → IsRuleSet rs
        → IsTrue (is_over rs.symbols c) → HasNames c
        → Chain rs.rules ks c d → IsQuiet rs.rules d → Chain rs.rules ls c e
        → length ls ≤ length ks }
{}

/// An end without equations, in which each name occurs at most once, is the end of every order as
/// it stands.
pub fn every_order_ends_in_one_answer()
    ensures { (rs : Rules) (c d e : Configuration) → IsRuleSet rs
        → IsTrue (is_over rs.symbols c) → HasNames c
        → Steps rs.rules c d → IsQuiet rs.rules d → d.equations ≡ []
        → ((n : ℕ) → occurrences n (configuration_names d) ≤ 1)
        → Steps rs.rules c e → IsQuiet rs.rules e → e ≡ d }
{}

/// Where some chain of steps ends, some number of rounds does, and at most as many; where no chain
/// does, no number of rounds does. And where rounds end, they end in the net of every order.
pub fn rounds_end_in_the_net_of_every_order()
    ensures reached { (rs : Rules) (ks : List Kind) (c d : Configuration) → IsRuleSet rs
        → IsTrue (is_over rs.symbols c) → HasNames c → Chain rs.rules ks c d → IsQuiet rs.rules d
        → (n : ℕ) × (n ≤ length ks) × IsQuiet rs.rules (iterate rs.rules n c) }
    ensures exactly { (rs : Rules) (c : Configuration) → IsRuleSet rs
        → IsTrue (is_over rs.symbols c) → HasNames c
        → ((d : Configuration) × Steps rs.rules c d × IsQuiet rs.rules d)
        ↔ ((n : ℕ) × IsQuiet rs.rules (iterate rs.rules n c)) }
    ensures end { (rs : Rules) (n : ℕ) (c d : Configuration) → IsRuleSet rs
        → IsTrue (is_over rs.symbols c) → HasNames c → Steps rs.rules c d → IsQuiet rs.rules d
        → IsQuiet rs.rules (iterate rs.rules n c) → Same d (iterate rs.rules n c) }
{}

/// A chain with n interactions goes on to the net of n rounds and one more, and of n rounds where
/// it begins settled.
pub fn rounds_overtake_every_order()
    ensures one_more { (rs : Rules) (ks : List Kind) (c d : Configuration) → IsRuleSet rs
        → IsTrue (is_over rs.symbols c) → HasNames c → Chain rs.rules ks c d
        → (end : Configuration) × Steps rs.rules d end
        × Same end (iterate rs.rules (suc (firings ks)) c) }
    ensures settled { (rs : Rules) (ks : List Kind) (c d : Configuration) → IsRuleSet rs
        → IsTrue (is_over rs.symbols c) → HasNames c
        → ((e : Configuration) → ¬ NameStep c e) → Chain rs.rules ks c d
        → (end : Configuration) × Steps rs.rules d end
        × Same end (iterate rs.rules (firings ks) c) }
{}

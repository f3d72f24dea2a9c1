//! Laws of the definitions that the contracts of this crate cite.

ghost use Rattle.std.specs.Prelude.{◌≡◌, ◌↔◌, ℕ, ◌+◌, ◌^◌, ◌==◌, List, [], Bool, None, Some, Ok, Err, ◌∷◌, ◌++◌, true, false, slice_get, length, map, IsTrue};
ghost use Rattle.std.specs.List.{list_any, range_with_len, AllByRecursion};
ghost use Rattle.ic_term.specs.Tree.{name, agent, no_trees, trees_of, nodes};
ghost use Rattle.ic_term.specs.Symbol.{Symbol};
ghost use Rattle.ic_rules.specs.Renaming.{first_occurrences, number_among, are_paired};
ghost use Rattle.ic_rules.specs.Rule.{Rule, rule_eq, rule_nodes, numbered, is_lopsided, IsNumbered};
ghost use Rattle.ic_rules.specs.Mirror.{IsOwnMirror};
ghost use Rattle.ic_rules.specs.Refusals.{IsRefusal, IsTaken};
ghost use Rattle.ic_rules.specs.declared.rule_set.RuleFault.{RuleFault};
ghost use Rattle.ic_rules.specs.RuleSet.{Rules, rules_eq, rule_for, first_unfit, IsRuleFor, IsRuleSet, IsRuleOver, built, first_repeated, has_pair};
ghost use Rattle.ic_rules.specs.FirstRepeated.{IsFirstRepeated};
ghost use Rattle.ic_rules.specs.declared.limits.TheConstants.{MAX_RULES, MAX_RULE_NODES, MAX_WIDE_RULES};

/// The rule that `find` answers has the pair of symbols, turned round or not; where it answers none, no rule has the
/// pair; and in a rule set no other rule has it.
pub fn find_is_the_one_rule()
    ensures found { (rs : List Rule) (a b i : ℕ) (turned : Bool)
        → rule_for rs a b ≡ Some (i, turned) → IsRuleFor rs a b i turned }
    ensures none { (rs : List Rule) (a b : ℕ) → rule_for rs a b ≡ None
        → list_any (has_pair a b) rs ≡ false }
    ensures single { (before after : List Rule) (r : Rule)
        → first_repeated (before ++ r ∷ after) ≡ None
        → list_any (has_pair r.left r.right) before ≡ false }
{}

/// The limits of rule sets.
pub fn limits_are()
    ensures rules { MAX_RULES ≡ 256 }
    ensures nodes { MAX_RULE_NODES ≡ 2048 }
    ensures wide { MAX_WIDE_RULES ≡ 2 ^ 31 }
{}

/// The nodes of a rule are those of the arguments of both its sides, however deep they nest: as terms, its two agents
/// have two nodes more.
pub fn rule_nodes_are_those_of_both_sides()
    ensures agents { (r : Rule) → nodes (agent r.left (trees_of r.left_args))
        + nodes (agent r.right (trees_of r.right_args)) ≡ rule_nodes r + 2 }
    ensures nested { rule_nodes
        (record {
          left = 0;
          right = 1;
          left_args = name 0 ∷ [];
          right_args = agent 2 (trees_of (agent 3 no_trees ∷ name 0 ∷ [])) ∷ [];
          names = 1;
        }) ≡ 4 }
{}

/// What `RuleSet::build` takes as they are, are exactly the rule sets; and the rule for which it answers `Twice` has a
/// pair that an earlier one has, and none before it has such a pair.
pub fn build_takes_rule_sets()
    ensures taken { (rs : Rules) → (built rs.symbols rs.rules ≡ Ok rs) ↔ IsRuleSet rs }
    ensures twice { (rs : List Rule) (i : ℕ) → first_repeated rs ≡ Some i
        → IsFirstRepeated [] rs i }
{}

/// A name that stands nowhere before has as its number how many different names stand before it.
pub fn names_are_numbered_by_first_occurrence()
    ensures { (before after : List ℕ) (n : ℕ) → list_any (λ m. n == m) before ≡ false
        → number_among (first_occurrences (before ++ n ∷ after)) n
        ≡ length (first_occurrences before) }
{}

/// A rule of a symbol with itself is taken exactly where exchanging its sides and renaming its names one-to-one gives
/// the rule back; a rule of two symbols is never lopsided.
pub fn level_rules_are_their_own_mirrors()
    ensures same { (r : Rule) → r.left ≡ r.right
        → (is_lopsided (numbered r) ≡ false) ↔ IsOwnMirror r }
    ensures two { (r : Rule) → (r.left ≡ r.right → ⊥) → is_lopsided (numbered r) ≡ false }
{}

/// `RuleSet::build` refuses rules for the first of their faults in the order of `RuleFault`, and takes them where there
/// is none.
pub fn refusals_come_in_order()
    ensures refused { (ss : List Symbol) (rs : List Rule) (fault : RuleFault)
        → built ss rs ≡ Err fault → IsRefusal ss rs fault }
    ensures taken { (ss : List Symbol) (rs : List Rule) (set : Rules)
        → built ss rs ≡ Ok set → IsTaken ss rs set }
{}

/// Where no agent of rules is unfit, the symbols of each are known and each agent has as many arguments as its arity,
/// and only there.
pub fn rules_fit_where_each_is_over_the_symbols()
    ensures { (ss : List Symbol) (rs : List Rule)
        → (first_unfit ss rs ≡ None) ↔ AllByRecursion (IsRuleOver ss) rs }
{}

/// Numbering keeps exactly the rules whose names are 0, 1, .. already; so `RuleSet::build` leaves rules as they are
/// written exactly where each of them is such a one.
pub fn numbered_rules_stay()
    ensures rule { (r : Rule) → (numbered r ≡ r) ↔ IsNumbered r }
    ensures rules { (ss : List Symbol) (rs : List Rule) (set : Rules)
        → built ss rs ≡ Ok set → (set.rules ≡ rs) ↔ AllByRecursion IsNumbered rs }
{}

/// Numbering the names of a list by first occurrence gives 0, 1, .. in the order of their first occurrences, and keeps
/// that each name occurs there exactly twice.
pub fn numbering_counts_up()
    ensures order { (ns : List ℕ)
        → first_occurrences (map (number_among (first_occurrences ns)) ns)
        ≡ range_with_len 0 (length (first_occurrences ns)) }
    ensures paired { (ns : List ℕ)
        → are_paired (map (number_among (first_occurrences ns)) ns) ≡ are_paired ns }
{}

/// The tests of equality tell exactly whether two rules, or two rule sets, are the same.
pub fn equality_is_exact()
    ensures rules { (r s : Rule) → IsTrue (rule_eq r s) ↔ (r ≡ s) }
    ensures rule_sets { (r s : Rules) → IsTrue (rules_eq r s) ↔ (r ≡ s) }
{}

//! What is proved of the definitions alone: each law is the contract of a function that does nothing, or calls the laws
//! that it comes of.

ghost use Rattle.std.specs.Prelude.{◌≡◌, ◌≢◌, ◌≤◌, ◌+◌, ◌==◌, ◌&&◌, ◌∷◌, ◌++◌, ℕ, List, [], Bool, Some, IsTrue, codes, slice_get, false, true};
ghost use Rattle.std.specs.List.{AllByRecursion, list_all};
ghost use Rattle.ic_term.specs.Configuration.{Configuration};
ghost use Rattle.ic_term.specs.Symbol.{is_over};
ghost use Rattle.ic_term.specs.Tree.{Pair};
ghost use Rattle.ic_rules.specs.Rule.{Rule};
ghost use Rattle.ic_rules.specs.RuleSet.{IsRuleSet, Rules};
ghost use Rattle.ic_round.specs.Firing.{Active, active_pair};
ghost use Rattle.ic_round.specs.Rounds.{iterate};
ghost use Rattle.ic_round.specs.Steps.{Interaction, Steps};
ghost use Rattle.ic_text.specs.Token.{is_blank};
ghost use Rattle.ic_check.specs.declared.texts.Form.TheVariants as form;
ghost use Rattle.ic_check.specs.declared.warnings.Warnings.{Warnings};
ghost use Rattle.ic_check.specs.Faults.{ScriptHasFault, TextHasFault, form_of};
ghost use Rattle.ic_confluence.specs.Agents.{configuration_symbols};
ghost use Rattle.ic_check.specs.Warnings.{Has, HasNoRule, faces, facing, are_apart, has_use, AllAmong, IsReach, IsTakenBy, AreWarnings, ruleless, unused};

/// A text has a fault or has none, and never both, and so has a script. A verdict on texts that are given says which.
pub fn a_text_has_a_fault_or_none()
    ensures text { (text : List ℕ) → (faulty : Bool) × TextHasFault text faulty }
    ensures one { (text : List ℕ) (a b : Bool) → TextHasFault text a → TextHasFault text b → a ≡ b }
    ensures script { (text : List ℕ) → (faulty : Bool) × ScriptHasFault text faulty }
    ensures one_script { (text : List ℕ) (a b : Bool)
        → ScriptHasFault text a → ScriptHasFault text b → a ≡ b }
{
    ic_text::laws::one_reading();
    ic_text::laws::one_system_reading();
    ic_commands::laws::one_line_reading();
    ic_commands::laws::one_script_line_reading();
}

/// A file is a system where `{` follows the blanks with which it begins, a configuration where `<` does, one that begins
/// with a comment where `#` does, and lines for a server in all other cases, also where it has nothing but blanks.
pub fn forms_are_told_by_their_first_byte()
    ensures system { (blanks rest : List ℕ) → list_all is_blank blanks ≡ true
        → form_of (blanks ++ codes "{" ++ rest) ≡ form.System }
    ensures config { (blanks rest : List ℕ) → list_all is_blank blanks ≡ true
        → form_of (blanks ++ codes "<" ++ rest) ≡ form.Config }
    ensures comment { (blanks rest : List ℕ) → list_all is_blank blanks ≡ true
        → form_of (blanks ++ codes "#" ++ rest) ≡ form.Commented }
    ensures lines { (blanks rest : List ℕ) (b : ℕ) → list_all is_blank blanks ≡ true
        → is_blank b ≡ false → (b == 123) ≡ false → (b == 60) ≡ false → (b == 35) ≡ false
        → form_of (blanks ++ b ∷ rest) ≡ form.Lines }
    ensures empty { (blanks : List ℕ) → list_all is_blank blanks ≡ true
        → form_of blanks ≡ form.Lines }
{}

/// An equation is one without a rule exactly where both sides are agents and no rule is of their two symbols. Then it is
/// stuck: no interaction takes it, in whatever configuration it stands, and no step takes away an equation of two such
/// agents, so none of them is lost in any number of rounds.
pub fn pairs_without_a_rule_are_stuck()
    ensures found { (rs : List Rule) (p : Pair) (a b : ℕ) → faces a b p ≡ true → HasNoRule rs a b
        → ruleless rs p.left p.right ≡ (a, b) ∷ [] }
    ensures silent { (rs : List Rule) (p : Pair)
        → ((a b : ℕ) → faces a b p ≡ true → ¬ HasNoRule rs a b)
        → ruleless rs p.left p.right ≡ [] }
    ensures idle { (rs : List Rule) (c d : Configuration) (i a b : ℕ) (p : Pair)
        → faces a b p ≡ true → HasNoRule rs a b → slice_get c.equations i ≡ Some p
        → ¬ Interaction rs c d i }
    ensures stays { (rs : List Rule) (c d : Configuration) (a b : ℕ) → HasNoRule rs a b
        → Steps rs c d → facing a b c.equations ≤ facing a b d.equations }
    ensures rounds { (rs : List Rule) (c : Configuration) (a b n : ℕ) → HasNoRule rs a b
        → facing a b c.equations ≤ facing a b (iterate rs n c).equations }
{
    ic_round::laws::rounds_are_steps();
}

/// Each warning that speaks of pairs and rules is among those of its system: the symbols of an equation of two agents that
/// no rule is of, the place of a rule whose symbols can't both come to stand in the configuration, and that no two agents
/// can meet, where a rule may be used as far as its symbols tell.
pub fn each_warning_is_found()
    ensures ruleless { (rs : Rules) (c : Configuration) (w : Warnings) (i a b : ℕ) (p : Pair)
        → AreWarnings rs c w → slice_get c.equations i ≡ Some p → faces a b p ≡ true
        → HasNoRule rs.rules a b → Has w.ruleless.items (a, b) }
    ensures unused { (rs : Rules) (c : Configuration) (w : Warnings) (among : ℕ → Bool) (i : ℕ)
        (r : Rule) → AreWarnings rs c w → IsReach rs.rules c among
        → slice_get rs.rules i ≡ Some r → (among r.left && among r.right) ≡ false
        → Has w.unused.items i }
    ensures meeting { (rs : Rules) (c : Configuration) (w : Warnings) (among : ℕ → Bool)
        → AreWarnings rs c w → IsReach rs.rules c among
        → w.none_meet ≡ (has_use among rs.rules && are_apart c.equations) }
{}

/// Where no two agents can meet, none ever do: whatever steps are made, no interaction comes to be possible, and none is
/// before any round.
pub fn where_none_meet_none_ever_do()
    ensures steps { (rs : List Rule) (c d e : Configuration) (i : ℕ)
        → IsTrue (are_apart c.equations) → Steps rs c d → ¬ Interaction rs d e i }
    ensures rounds { (rs : List Rule) (c d : Configuration) (n i : ℕ)
        → IsTrue (are_apart c.equations) → ¬ Interaction rs (iterate rs n c) d i }
{
    ic_round::laws::rounds_are_steps();
}

/// A rule that is one which is never used is used by no round: after any number of rounds no equation is active by it.
/// The symbols that may come to stand in the configuration are all that ever do, and which they are is settled.
pub fn unused_rules_are_never_used()
    ensures unused { (rs : Rules) (c : Configuration) (among : ℕ → Bool) (i n : ℕ) (r : Rule)
        → IsRuleSet rs → IsTrue (is_over rs.symbols c) → IsReach rs.rules c among
        → slice_get rs.rules i ≡ Some r → unused among i r ≢ []
        → AllByRecursion (λ p. ¬ IsTakenBy rs.rules i p) (iterate rs.rules n c).equations }
    ensures symbols { (rs : Rules) (c : Configuration) (among : ℕ → Bool) (n : ℕ) → IsRuleSet rs
        → IsTrue (is_over rs.symbols c) → IsReach rs.rules c among
        → AllAmong among (configuration_symbols (iterate rs.rules n c)) }
    ensures one { (rs : List Rule) (c : Configuration) (among other : ℕ → Bool)
        → IsReach rs c among → IsReach rs c other → (s : ℕ) → among s ≡ other s }
{}

/// What is said of equations does hold of some. One of two symbols is counted once, and no other one, and one that is active
/// by a rule is taken by that rule.
pub fn what_stands_there_is_found()
    ensures faced { (a b : ℕ) (p : Pair) (es : List Pair) → faces a b p ≡ true
        → facing a b (p ∷ es) ≡ facing a b es + 1 }
    ensures other { (a b : ℕ) (p : Pair) (es : List Pair) → faces a b p ≡ false
        → facing a b (p ∷ es) ≡ facing a b es }
    ensures taken { (rs : List Rule) (i : ℕ) (p : Pair) (a : Active)
        → active_pair rs p ≡ Some a → a.rule ≡ i → IsTakenBy rs i p }
{}

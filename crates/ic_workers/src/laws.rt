//! Laws of parts that hand on, for functions of this crate.

ghost use Rattle.std.specs.Prelude.{◌≡◌, ◌⊎◌, ℕ, ◌<◌, ◌≤◌, List, [], ◌∷◌, ◌++◌, IsTrue, length, map, slice_index_or, sum_by};
ghost use Rattle.ic_term.specs.Configuration.{Configuration};
ghost use Rattle.ic_term.specs.Symbol.{is_over};
ghost use Rattle.ic_rules.specs.RuleSet.{Rules, IsRuleSet};
ghost use Rattle.ic_round.specs.Naming.{HasNames};
ghost use Rattle.ic_arena.specs.declared.word.Word.{Word};
ghost use Rattle.ic_arena.specs.declared.word.TheConstants.{GIVEN};
ghost use Rattle.ic_machine.specs.declared.equation.Equation.{Equation};
ghost use Rattle.ic_machine.specs.Moving.{Ends, KeepWorth, times, worth};
ghost use Rattle.ic_machine.specs.Net.{Net, pieces};
ghost use Rattle.ic_machine.specs.Plan.{Planned, Plans, ArePlans, IsPlan};
ghost use Rattle.ic_machine.specs.Runs.{IsStart, Ran, Starts};
ghost use Rattle.ic_machine.specs.Separate.{IsSeparate};
ghost use Rattle.ic_meaning.specs.Plans.{ArePlansOf, StandsForNet};
ghost use Rattle.ic_in_place.specs.Holding.{AreGiven};
ghost use Rattle.ic_workers.specs.Parts.{Part, Hold};
ghost use Rattle.ic_workers.specs.inner.HandsOn.{Come, HandsOn, IsAllOf};
ghost use Rattle.ic_workers.specs.inner.Sent.{Gave, GaveAll, Shipped, Took, SameCounts, CountsAlso, HasAll};

/// Where one part sends equations to another one, what waits for a cut, or all that it has, what all parts stand for stays one
/// net.
pub(crate) fn what_a_part_sends_stays_one_net()
    ensures given { (arities : List ℕ) (a c b d : Part) (qs : List Part) (es : List Equation)
        (words : List Word)
        → Gave arities es words a c → SameCounts a c → Took arities words b d → SameCounts b d
        → KeepWorth a.borders c.borders [] words → KeepWorth b.borders d.borders words []
        → ((x : ℕ) → times x (map (λ e. e.cut) c.borders.ends) ≤ 1)
        → ((x : ℕ) → times x (map (λ e. e.cut) d.borders.ends) ≤ 1)
        → HandsOn arities (a ∷ b ∷ qs) (c ∷ d ∷ qs) }
    ensures shipped { (arities : List ℕ) (a c b d : Part) (qs : List Part) (words : List Word)
        → Shipped arities words a c → SameCounts a c → Took arities words b d → SameCounts b d
        → KeepWorth a.borders c.borders [] words → KeepWorth b.borders d.borders words []
        → ((x : ℕ) → times x (map (λ e. e.cut) c.borders.ends) ≤ 1)
        → ((x : ℕ) → times x (map (λ e. e.cut) d.borders.ends) ≤ 1)
        → HandsOn arities (a ∷ b ∷ qs) (c ∷ d ∷ qs) }
    ensures gathered { (arities : List ℕ) (a c b d : Part) (qs : List Part) (words : List Word)
        → GaveAll arities words a c → KeepWorth a.borders c.borders [] words
        → Took arities words b d → KeepWorth b.borders d.borders words [] → CountsAlso b a d
        → ((x : ℕ) → times x (map (λ e. e.cut) d.borders.ends) ≤ 1)
        → HandsOn arities (b ∷ a ∷ qs) (d ∷ qs) }
{
    ic_reaching::laws::one_net_is_an_equivalence();
    ic_reaching::laws::a_name_step_leads_to_one_net();
    ic_reaching::laws::the_order_of_equations_is_no_matter();
    ic_reaching::laws::a_piece_is_put_for_its_name();
    ic_reaching::laws::what_is_reached_is_one_net();
    ic_meaning::laws::steps_that_fire_nothing_keep_the_net();
    ic_meaning::laws::steps_of_pieces_are_steps_of_the_net();
    ic_meaning::laws::what_is_reached_has_the_same_free_names();
}

/// The first part holds the configuration with which its machine begins. What one machine has in the end that all parts had,
/// whatever they did in turn, is reached from it. So it is after that machine has run on.
pub(crate) fn what_parts_come_to_is_reached()
    ensures begun { (rs : Rules) (p : Plans) (c : Configuration) (given : List ℕ) (plan : Planned)
        (operands : List ℕ) (m : Net) (b : Ends) → HasNames c → ArePlans p → length p.arities < GIVEN
        → IsPlan p.arities (length given) plan → StandsForNet p.arities given c plan operands
        → IsStart p.arities (length given) plan operands → Starts p (length given) plan operands m
        → IsSeparate p.arities m.interface (pieces m) → m.arities ≡ p.arities → b.ends ≡ []
        → ((x : ℕ) → (worth x b ≡ 0) ⊎ (worth x b ≡ 2))
        → Hold rs p c given [] (record { number = 0; net = m; borders = b } ∷ []) }
    ensures all { (rs : Rules) (numbers : List ℕ) (p : Plans) (c : Configuration) (given : List ℕ)
        (first : Part) (m : Net) → IsRuleSet rs → IsTrue (is_over rs.symbols c) → HasNames c
        → ArePlans p → ArePlansOf rs numbers p → AreGiven given c → Hold rs p c given [] (first ∷ [])
        → first.net.interactions ≡ 0 → ((i : ℕ) → slice_index_or first.net.counts i 0 ≡ 0)
        → length first.net.counts ≡ length p.plans
        → IsAllOf p (first ∷ []) m
        → HasAll rs numbers p c given m }
    ensures ran { (rs : Rules) (numbers : List ℕ) (p : Plans) (c : Configuration) (given : List ℕ)
        (m n : Net) → IsRuleSet rs → IsTrue (is_over rs.symbols c) → HasNames c → ArePlans p
        → ArePlansOf rs numbers p → AreGiven given c → (has : HasAll rs numbers p c given m)
        → (run : Ran p m n) → (now : HasAll rs numbers p c given n)
        × (now.fired ≡ has.fired ++ run.fired) }
    ensures further { (p : Plans) (qs rs ss : List Part) → Come p qs rs → Come p rs ss → Come p qs ss }
{
    ic_reaching::laws::what_is_reached_is_one_net();
    ic_meaning::laws::steps_that_fire_nothing_keep_the_net();
    ic_meaning::laws::steps_of_pieces_are_steps_of_the_net();
    ic_meaning::laws::what_is_reached_has_the_same_free_names();
    ic_meaning::laws::a_machine_begins_with_its_configuration();
}

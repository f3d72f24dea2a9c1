//! Laws of the net that several parts hold. No program calls them.

ghost use Rattle.std.specs.Prelude.{◌≡◌, ◌⊎◌, ℕ, ◌+◌, ◌<◌, ◌≤◌, List, [], ◌∷◌, ◌++◌, Contains, IsTrue, length, map};
ghost use Rattle.std.specs.List.{AllByRecursion};
ghost use Rattle.ic_term.specs.Configuration.{Configuration};
ghost use Rattle.ic_term.specs.Symbol.{is_over};
ghost use Rattle.ic_rules.specs.RuleSet.{Rules, IsRuleSet};
ghost use Rattle.ic_round.specs.Naming.{HasNames};
ghost use Rattle.ic_arena.specs.declared.word.TheConstants.{GIVEN};
ghost use Rattle.ic_machine.specs.Moving.{CutEnd, Ends, times, worth};
ghost use Rattle.ic_machine.specs.Net.{Net, pieces};
ghost use Rattle.ic_machine.specs.Plan.{Planned, Plans, ArePlans, IsPlan};
ghost use Rattle.ic_machine.specs.Runs.{IsStart, Ran, Starts};
ghost use Rattle.ic_machine.specs.Separate.{IsSeparate};
ghost use Rattle.ic_meaning.specs.Plans.{ArePlansOf, StandsForNet, rule_number};
ghost use Rattle.ic_in_place.specs.Holding.{AreGiven, Holds};
ghost use Rattle.ic_workers.specs.Parts.{Part, ArePlaced, Hold, cuts_of};

/// What parts hold. A machine that begins with a configuration holds it, as the only part. If one part runs by itself, all
/// hold what is reached by the rules of the plans that fire. What the only part holds its machine does. It has no cut, as each
/// cut has an end in another part. All machines are for the symbols of the plans.
pub fn what_parts_hold()
    ensures begun { (rs : Rules) (p : Plans) (c : Configuration) (given : List ℕ) (plan : Planned)
        (operands : List ℕ) (m : Net) (b : Ends) → HasNames c → ArePlans p → length p.arities < GIVEN
        → IsPlan p.arities (length given) plan → StandsForNet p.arities given c plan operands
        → IsStart p.arities (length given) plan operands → Starts p (length given) plan operands m
        → IsSeparate p.arities m.interface (pieces m) → m.arities ≡ p.arities → b.ends ≡ []
        → ((x : ℕ) → (worth x b ≡ 0) ⊎ (worth x b ≡ 2))
        → Hold rs p c given [] (record { number = 0; net = m; borders = b } ∷ []) }
    ensures runs { (rs : Rules) (numbers : List ℕ) (p : Plans) (c : Configuration)
        (given fired : List ℕ) (q : Part) (qs : List Part) (n : Net) → IsRuleSet rs
        → IsTrue (is_over rs.symbols c) → HasNames c → ArePlans p → ArePlansOf rs numbers p
        → Hold rs p c given fired (q ∷ qs) → (ran : Ran p q.net n)
        → Hold rs p c given (fired ++ map (rule_number numbers) ran.fired)
        (record q { net = n } ∷ qs) }
    ensures alone { (rs : Rules) (p : Plans) (c : Configuration) (given fired : List ℕ) (q : Part)
        → IsRuleSet rs → IsTrue (is_over rs.symbols c) → HasNames c → AreGiven given c
        → Hold rs p c given fired (q ∷ []) → Holds rs p c given fired q.net
        × (q.borders.ends ≡ []) }
    ensures ends { (arities cuts : List ℕ) (q : Part) (qs : List Part) (e : CutEnd)
        → ArePlaced arities cuts (q ∷ qs) → Contains q.borders.ends e
        → 1 ≤ times e.cut (cuts_of qs) }
    ensures symbols { (rs : Rules) (p : Plans) (c : Configuration) (given fired : List ℕ)
        (qs : List Part) → Hold rs p c given fired qs
        → AllByRecursion (λ q. q.net.arities ≡ p.arities) qs }
{
    ic_reaching::laws::what_is_reached_is_one_net();
    ic_meaning::laws::steps_that_fire_nothing_keep_the_net();
    ic_meaning::laws::steps_of_pieces_are_steps_of_the_net();
    ic_meaning::laws::what_is_reached_has_the_same_free_names();
    ic_meaning::laws::a_machine_begins_with_its_configuration();
}

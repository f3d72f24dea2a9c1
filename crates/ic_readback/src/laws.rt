//! Laws of what is read back.

ghost use Rattle.std.specs.Prelude.{◌≡◌, ◌↔◌, ℕ, ◌+◌, ◌*◌, ◌++◌, List, [], Some, length, slice_get};
ghost use Rattle.std.specs.List.{AllByRecursion};
ghost use Rattle.ic_term.specs.Configuration.{configuration_names, occurrences};
ghost use Rattle.ic_rules.specs.RuleSet.{Rules, IsRuleSet};
ghost use Rattle.ic_round.specs.Naming.{HasNames};
ghost use Rattle.ic_round.specs.Quiet.{IsQuiet};
ghost use Rattle.ic_machine.specs.Net.{Net, IsStuck};
ghost use Rattle.ic_machine.specs.Plan.{Plans};
ghost use Rattle.ic_flat.specs.Words.{forest};
ghost use Rattle.ic_meaning.specs.Words.{Numbers, AreNumbers};
ghost use Rattle.ic_meaning.specs.Plans.{ArePlansOf};
ghost use Rattle.ic_readback.specs.declared.token.Token.{Token};
ghost use Rattle.ic_readback.specs.Reading.{flat_words, configuration_read, sides_of, BeginAs, AreCirclesAfter};

/// Where no pair is pending, and each one that was set aside is stuck, no step of what was read is possible. The names
/// that occur in it once are to be those that were given.
pub fn what_is_read_of_stuck_pairs_is_quiet()
    ensures { (rs : Rules) (numbers : List ℕ) (p : Plans) (n : Numbers) (m : Net) (ts : List Token)
        (equations : ℕ) → let c = configuration_read n ts (length m.interface) in
        IsRuleSet rs → ArePlansOf rs numbers p → AreNumbers n
        → m.pending ≡ [] → AllByRecursion (IsStuck p) m.aside
        → BeginAs n (m.interface ++ (sides_of m.pending ++ sides_of m.aside))
        (forest (flat_words n ts))
        → length (forest (flat_words n ts)) ≡ length m.interface + 2 * equations
        → HasNames c → AreCirclesAfter n (length m.pending + length m.aside) c
        → ((x : ℕ) → (occurrences x (configuration_names c) ≡ 1)
        ↔ ((j : ℕ) × (slice_get n.given j ≡ Some x)))
        → IsQuiet rs.rules c }
{}

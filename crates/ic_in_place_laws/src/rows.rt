//! Laws of the rows that are told of rounds.

ghost use Rattle.std.specs.Prelude.{◌≡◌, ℕ, suc, ◌^◌, ◌<◌, List, Option, Ok};
ghost use Rattle.std.specs.Io.KnownBytes.{Appends};
ghost use Rattle.ic_term.specs.Configuration.{Configuration, configuration_nodes};
ghost use Rattle.ic_rules.specs.Rule.{Rule};
ghost use Rattle.ic_rules.specs.System.{SystemParts};
ghost use Rattle.ic_round.specs.Rounds.{iterate};
ghost use Rattle.ic_meaning.specs.Circles.{circles};
ghost use Rattle.ic_text.specs.SystemText.{ReadsSystemWithin};
ghost use Rattle.ic_text.specs.declared.limits.Limits.{Limits};
ghost use Rattle.ic_by_rounds.specs.Tables.{table_of};
ghost use Rattle.ic_by_rounds.specs.Traces.{IsTraced};
ghost use Rattle.ic_by_rounds.specs.Tracing.{rows_of, told_rows};
ghost use Rattle.ic_by_rounds.specs.declared.stream.Traced.{Traced};
ghost use Rattle.ic_by_rounds.specs.declared.tracing.Format.TheVariants.{Table};

/// The table that is written of a text has the rows of the rounds of the system that the text is read as. Where no round leaves a
/// circle, or 2^64 nodes or more, these are the rows of rounds.
pub fn told_rows_are_rows_of_rounds()
    ensures table { (limits : Limits) (most : ℕ) (input : List ℕ) (traced : Traced)
        (s : SystemParts) (before after : Option (List ℕ))
        → IsTraced limits most Table input (Ok traced) before after
        → ReadsSystemWithin limits input (Ok s) → Appends before after
        (table_of (told_rows s.rules.rules s.config traced.reached.rounds)) }
    ensures rows { (rs : List Rule) (c : Configuration) (n : ℕ)
        → ((k : ℕ) → k < n → circles (iterate rs (suc k) c) ≡ 0)
        → ((k : ℕ) → k < n → configuration_nodes (iterate rs (suc k) c) < 2 ^ 64)
        → told_rows rs c n ≡ rows_of rs c n }
{
    ic_text::laws::one_system_reading();
    ic_in_place::laws::amounts_are_those_of_rounds();
    ic_by_rounds::laws::rows_count_interactions();
}

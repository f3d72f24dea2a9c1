//! What a text that spells something is read as.

ghost use Rattle.std.specs.Prelude.{◌≡◌, ℕ, List, Result};
ghost use Rattle.ic_term.specs.Configuration.{Configuration};
ghost use Rattle.ic_term.specs.Symbol.{Symbol};
ghost use Rattle.ic_rules.specs.System.{SystemParts};
ghost use Rattle.ic_text.specs.Sense.{sense, sense_within};
ghost use Rattle.ic_text.specs.SystemSense.{system_sense, system_sense_within};
ghost use Rattle.ic_text.specs.SystemText.{IsSystemText, IsSystemTextWithin, ReadsSystem, ReadsSystemWithin};
ghost use Rattle.ic_text.specs.Text.{IsConfigText, IsConfigTextWithin, Reads, ReadsWithin};
ghost use Rattle.ic_text.specs.declared.fault.TextFault.{TextFault};
ghost use Rattle.ic_text.specs.declared.limits.Limits.{Limits};

/// A text that spells a configuration, or a system, and isn't too long is read as what it spells.
pub fn what_is_spelled_is_read()
    ensures config { (limits : Limits) (text : List ℕ)
        (answer : Result (List Symbol × Configuration) TextFault)
        → (is : IsConfigTextWithin limits text) → ReadsWithin limits text answer
        → answer ≡ sense_within limits is.1.0 }
    ensures system { (limits : Limits) (text : List ℕ) (answer : Result SystemParts TextFault)
        → (is : IsSystemTextWithin limits text) → ReadsSystemWithin limits text answer
        → answer ≡ system_sense_within limits is.1.0 }
    // So it is with the limits of what is served.
    ensures served_config { (text : List ℕ)
        (answer : Result (List Symbol × Configuration) TextFault)
        → (is : IsConfigText text) → Reads text answer → answer ≡ sense is.1.0 }
    ensures served_system { (text : List ℕ) (answer : Result SystemParts TextFault)
        → (is : IsSystemText text) → ReadsSystem text answer → answer ≡ system_sense is.1.0 }
{}

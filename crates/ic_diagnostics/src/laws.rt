//! What is proved of the definitions alone: each law is the contract of a function that does nothing.

ghost use Rattle.std.specs.Prelude.{◌≡◌, ℕ, List, [], ◌∷◌, ◌++◌, true, Ok};
ghost use Rattle.ic_term.specs.Configuration.{Configuration};
ghost use Rattle.ic_term.specs.Symbol.{Symbol};
ghost use Rattle.ic_rules.specs.System.{SystemParts};
ghost use Rattle.ic_text.specs.Text.{Reads, printed};
ghost use Rattle.ic_text.specs.SystemText.{ReadsSystem};
ghost use Rattle.ic_round.specs.Settling.{settled};
ghost use Rattle.ic_round.specs.Rounds.{fits, round};
ghost use Rattle.ic_streams.specs.Streams.{Rounds, Settles};

/// The line that is answered is that of the text: of its configuration settled, or of the one after a round, where that
/// fits. So a text has one answer.
pub fn what_is_answered_is_of_the_text()
    ensures settled { (input line : List ℕ) (symbols : List Symbol) (c : Configuration)
        → Reads input (Ok (symbols, c)) → Settles input (Ok line)
        → line ≡ printed symbols (settled c) ++ 10 ∷ [] }
    ensures rounded { (input line : List ℕ) (s : SystemParts) → ReadsSystem input (Ok s)
        → Rounds input (Ok line) → (fits s.rules.rules s.config ≡ true)
        × (line ≡ printed s.rules.symbols (round s.rules.rules s.config) ++ 10 ∷ []) }
{
    ic_text::laws::one_reading();
    ic_text::laws::one_system_reading();
}

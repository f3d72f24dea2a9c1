//! What a command writes of the text that it answers, and which texts it refuses.

ghost use Rattle.std.specs.Prelude.{◌≡◌, ℕ, List, [], ◌∷◌, ◌++◌, Bool, true, Option, Result, Some, Ok, Err};
ghost use Rattle.ic_term.specs.Configuration.{Configuration};
ghost use Rattle.ic_term.specs.Symbol.{Symbol};
ghost use Rattle.ic_rules.specs.System.{SystemParts};
ghost use Rattle.ic_round.specs.Rounds.{round, unless_unfit};
ghost use Rattle.ic_round.specs.Settling.{settled};
ghost use Rattle.ic_round.specs.declared.round_fault.RoundFault.{RoundFault};
ghost use Rattle.ic_text.specs.SystemText.{ReadsSystem};
ghost use Rattle.ic_text.specs.Text.{Reads, printed};
ghost use Rattle.ic_text.specs.declared.fault.TextFault.{TextFault};
ghost use Rattle.ic_streams.specs.Streams.{IsAnswered, Rounds, Settles};
ghost use Rattle.ic_streams.specs.declared.fault.StreamFault.{StreamFault};
ghost use Rattle.ic_streams.specs.declared.fault.StreamFault.TheVariants.{Round, Text, Write};

/// Whatever a command answers to texts: at `Ok` the line of the text follows what was written before, and where the writer
/// fails a front of it does. Nothing else is written. A text is refused, or its round is, only with a fault that is its answer.
pub fn a_text_is_answered_so()
    ensures line { (answers : List ℕ → Result (List ℕ) StreamFault → Bool) (value : ℕ)
        (text before after : List ℕ)
        → IsAnswered (λ t a. answers t a ≡ true) text (Ok value) (Some before) (Some after)
        → (line : List ℕ) × (answers text (Ok line) ≡ true) × (after ≡ before ++ line) }
    ensures front { (answers : List ℕ → Result (List ℕ) StreamFault → Bool)
        (text before after : List ℕ)
        → IsAnswered {T = ℕ} (λ t a. answers t a ≡ true) text (Err Write) (Some before) (Some after)
        → (front : List ℕ) × (rest : List ℕ) × (answers text (Ok (front ++ rest)) ≡ true)
        × (after ≡ before ++ front) }
    ensures text { (answers : List ℕ → Result (List ℕ) StreamFault → Bool) (text : List ℕ)
        (fault : TextFault) (old new : Option (List ℕ))
        → IsAnswered {T = ℕ} (λ t a. answers t a ≡ true) text (Err (Text fault)) old new
        → answers text (Err (Text fault)) ≡ true }
    ensures round { (answers : List ℕ → Result (List ℕ) StreamFault → Bool) (text : List ℕ)
        (fault : RoundFault) (old new : Option (List ℕ))
        → IsAnswered {T = ℕ} (λ t a. answers t a ≡ true) text (Err (Round fault)) old new
        → answers text (Err (Round fault)) ≡ true }
{}

/// `settle` writes the configuration of its text settled, and `once` the one after a round, each with a line feed. A text is
/// refused only with the fault with which it is read. `once` refuses a round only where the text is a system, with the fault of
/// this round, and `settle` refuses none.
pub fn settle_and_once_write_so()
    ensures settled { (text before after : List ℕ) (done : Unit {0})
        (symbols : List Symbol) (c : Configuration)
        → IsAnswered Settles text (Ok done) (Some before) (Some after)
        → Reads text (Ok (symbols, c))
        → after ≡ before ++ (printed symbols (settled c) ++ 10 ∷ []) }
    ensures rounded { (text before after : List ℕ) (done : Unit {0}) (s : SystemParts)
        → IsAnswered Rounds text (Ok done) (Some before) (Some after) → ReadsSystem text (Ok s)
        → after ≡ before
        ++ (printed s.rules.symbols (round s.rules.rules s.config) ++ 10 ∷ []) }
    ensures unsettled { (text : List ℕ) (fault : TextFault) (old new : Option (List ℕ))
        → IsAnswered {T = Unit {0}} Settles text (Err (Text fault)) old new
        → Reads text (Err fault) }
    ensures unrounded { (text : List ℕ) (fault : TextFault) (old new : Option (List ℕ))
        → IsAnswered {T = Unit {0}} Rounds text (Err (Text fault)) old new
        → ReadsSystem text (Err fault) }
    ensures unfit { (text : List ℕ) (fault : RoundFault) (s : SystemParts)
        (old new : Option (List ℕ))
        → IsAnswered {T = Unit {0}} Rounds text (Err (Round fault)) old new
        → ReadsSystem text (Ok s)
        → unless_unfit s.rules.rules s.config (round s.rules.rules s.config) ≡ Err fault }
    ensures read { (text : List ℕ) (fault : RoundFault) (old new : Option (List ℕ))
        → IsAnswered {T = Unit {0}} Rounds text (Err (Round fault)) old new
        → (s : SystemParts) × ReadsSystem text (Ok s) }
    ensures no_round { (text : List ℕ) (fault : RoundFault) (old new : Option (List ℕ))
        → ¬ IsAnswered {T = Unit {0}} Settles text (Err (Round fault)) old new }
{
    ic_text::laws::one_system_reading();
    ic_diagnostics::laws::what_is_answered_is_of_the_text();
}

//! Laws of the definitions that the contracts of this crate cite.

ghost use Rattle.std.specs.Prelude.{◌≡◌, ◌↔◌, ℕ, List, [], ◌∷◌, Bool, true, Option, None, Some, Contains, map};
ghost use Rattle.ic_text.specs.declared.fault.TextFault.{TextFault};
ghost use Rattle.ic_round.specs.declared.round_fault.RoundFault.{RoundFault};
ghost use Rattle.ic_streams.specs.declared.fault.StreamFault.{StreamFault};
ghost use Rattle.ic_streams.specs.Faults.{all_stream_faults, stream_fault_number};
ghost use Rattle.ic_streams.specs.Streams.{OfText};

/// What is said of a reader's text is said of its bytes, where it tells them, and of some text where
/// it doesn't.
pub fn a_text_is_that_of_the_reader()
    ensures known { (text : List ℕ) (p : List ℕ → Bool)
        → OfText (Some text) (λ t. p t ≡ true) ↔ (p text ≡ true) }
    ensures unknown { (p : List ℕ → Bool)
        → OfText None (λ t. p t ≡ true) ↔ ((text : List ℕ) × (p text ≡ true)) }
{}

/// The lasting numbers of the faults.
pub fn numbers_are_lasting()
    ensures all { (fault : StreamFault) → (text : TextFault) × (round : RoundFault)
        × Contains (all_stream_faults text round) fault }
    ensures numbers { (text : TextFault) (round : RoundFault)
        → map stream_fault_number (all_stream_faults text round)
        ≡ 1 ∷ 2 ∷ 3 ∷ 4 ∷ 5 ∷ [] }
{}

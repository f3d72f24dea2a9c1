//! What is taken from a reader.

ghost use Rattle.std.specs.Prelude.{◌≡◌, ◌≢◌, ◌+◌, ◌≤◌, ℕ, List, Some, None, drop};
ghost use Rattle.ic_text.specs.Limits.{most_bytes};
ghost use Rattle.ic_text.specs.declared.limits.Limits.{Limits};
ghost use Rattle.ic_streams.specs.Streams.{TakesAtWithin, TakesTextWithin};
ghost use Rattle.ic_streams.specs.declared.fault.StreamFault.{StreamFault};
ghost use Rattle.ic_streams.specs.declared.fault.StreamFault.TheVariants.{Memory, Read};

/// A reader's bytes are taken to their end, or if they are more than a text may have, up to one more than that. No more are
/// ever taken, and fewer only where reading failed or memory ran out.
pub fn a_text_is_taken_from_its_front()
    ensures text { (limits : Limits) (text rest : List ℕ)
        → TakesTextWithin limits (Some text) (Some rest)
        → rest ≡ drop (most_bytes limits + 1) text }
    ensures at_fault { (limits : Limits) (fault : StreamFault) (text rest : List ℕ)
        → TakesAtWithin limits fault (Some text) (Some rest) → fault ≢ Read → fault ≢ Memory
        → rest ≡ drop (most_bytes limits + 1) text }
    ensures front { (limits : Limits) (fault : StreamFault) (text rest : List ℕ)
        → TakesAtWithin limits fault (Some text) (Some rest)
        → (n : ℕ) × (n ≤ most_bytes limits + 1) × (rest ≡ drop n text) }
    ensures known { (limits : Limits) (fault : StreamFault) (text : List ℕ)
        → ¬ TakesAtWithin limits fault (Some text) None }
{}

//! What is said by the first bytes of a state.

ghost use Rattle.std.specs.Prelude.{◌≡◌, ◌≢◌, ◌≤◌, ◌++◌, ◌∷◌, List, [], ℕ, Err, IfOk, flat_map, length};
ghost use Rattle.ic_state.specs.Numbers.{eight_bytes};
ghost use Rattle.ic_state.specs.State.{Kept, IsHeadOf, IsKept, ended_number, format_number, front_length, rounds_numbers, state_bytes};
ghost use Rattle.ic_state.specs.declared.fault.StateFault.TheVariants.{NotAState};

use crate::fault::StateFault;
use crate::fields::numbers_at;
use crate::form::{HEAD, narrow_of};
use crate::rounds::rounds_at;
use crate::state::StateHead;
use std::alloc::Global;

/// What is said by bytes with which a state begins, if they are 56 or more, or 72 of one by rounds. Takes constant time.
pub fn head_of(alloc: Global, bytes: &[u8]) -> Result<StateHead, StateFault>
    ensures told { (kept : Kept) (rest : List ℕ) → IsKept kept → bytes.now ++ rest ≡ state_bytes kept
        → IfOk result (λ head. IsHeadOf head kept) }
    // At Ok they begin so, whatever follows, and there is a number of terms that isn't told.
    ensures front { IfOk result (λ head. (terms : ℕ) × (rest : List ℕ)
        × (bytes.now ≡ flat_map eight_bytes (rounds_numbers head.rounds)
        ++ (flat_map eight_bytes (format_number head.narrow ∷ terms ∷ head.interactions
        ∷ ended_number head.ended ∷ head.rules ∷ head.words ∷ head.millis ∷ []) ++ rest))) }
    ensures refused { result ≡ Err NotAState → (kept : Kept) (rest : List ℕ) → IsKept kept
        → front_length kept.rounds ≤ length bytes.now → bytes.now ++ rest ≢ state_bytes kept }
{
    let (rounds, plain) = rounds_at(bytes)?;
    let (head, _) = numbers_at(alloc, HEAD, plain)?;
    let Some(narrow) = narrow_of(head[0]) else {
        return Err(StateFault::NotAState);
    };
    if head[3] > 1 {
        return Err(StateFault::NotAState);
    }
    Ok(StateHead {
        interactions: head[2],
        ended: head[3] == 1,
        rules: head[4],
        words: head[5],
        millis: head[6],
        rounds,
        narrow,
    })
}

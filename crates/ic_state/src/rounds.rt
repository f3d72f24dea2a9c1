//! What a state says first where a reduction goes by rounds, as bytes and back.

ghost use Rattle.std.specs.Prelude.{◌≡◌, ◌<◌, ◌^◌, ◌++◌, ℕ, List, IfErr, IfOk, IfSome, OnOk, length};
ghost use Rattle.std.specs.List.{flat_map};
ghost use Rattle.ic_state.specs.Numbers.{eight_bytes};
ghost use Rattle.ic_state.specs.State.{Kept, IsKept, front_length, plain_bytes, rounds_numbers, state_bytes};

use crate::fault::StateFault;
use crate::fields::{number_at, put_numbers};
use std::alloc::AllocError;

/// What the bytes of a state by rounds begin with: the letters `ICROUND1`, as a number.
pub const BY_ROUNDS: u64 = 0x4943_524f_554e_4431;

/// Appends what is said of rounds.
pub(crate) fn put_rounds(rounds: Option<u64>, out: &mut Vec<u8>) -> Result<(), AllocError>
    ensures appended { OnOk result
        (out.new.items ≡ out.old.items ++ flat_map eight_bytes (rounds_numbers rounds)) }
    ensures small { IfSome rounds (λ n. n < 2 ^ 64) }
{
    match rounds {
        Some(made) => put_numbers(&[BY_ROUNDS, made], out),
        None => Ok(()),
    }
}

/// What is said of rounds, and the bytes after that.
pub(crate) fn rounds_at(bytes: &[u8]) -> Result<(Option<u64>, &[u8]), StateFault>
    ensures read { IfOk result
        (λ r. bytes.now ≡ flat_map eight_bytes (rounds_numbers r.0) ++ r.1.now) }
    ensures small { IfOk result (λ r. IfSome r.0 (λ n. n < 2 ^ 64)) }
    ensures told { IfOk result (λ r. (kept : Kept) (rest : List ℕ) → IsKept kept
        → bytes.now ++ rest ≡ state_bytes kept
        → (r.0 ≡ kept.rounds) × (r.1.now ++ rest ≡ plain_bytes kept)) }
    ensures refused { IfErr result (λ fault. (kept : Kept) (rest : List ℕ) → IsKept kept
        → bytes.now ++ rest ≡ state_bytes kept → length bytes.now < front_length kept.rounds) }
{
    let (format, after) = number_at(bytes)?;
    if format != BY_ROUNDS {
        return Ok((None, bytes));
    }
    let (made, plain) = number_at(after)?;
    Ok((Some(made), plain))
}

//! A state as bytes, and back.

ghost use Rattle.std.specs.Prelude.{◌≡◌, ◌≢◌, ◌<◌, ◌^◌, Bool, Err, IfOk, IfSome, IsNone};
ghost use Rattle.std.specs.List.{AllByRecursion};
ghost use Rattle.ic_state.specs.State.{Kept, IsKept, ended_number, format_number, kept_by, plain_bytes, state_bytes};
ghost use Rattle.ic_state.specs.Words.{IsKeptWord};
ghost use Rattle.ic_state.specs.declared.fault.StateFault.TheVariants.{NotAState};

use crate::fault::StateFault;
use crate::fields::{numbers_at, numbers_fit, put_numbers};
use crate::rounds::{put_rounds, rounds_at};
use crate::state::State;
use crate::words::{put_words, width, words_at};
use std::alloc::Global;

/// What the bytes of a state begin with whose words are wide: the letters `ICKEPT01`, as a number.
pub const FORMAT: u64 = 0x4943_4b45_5054_3031;

/// What the bytes of a state begin with whose words are narrow: the letters `ICKEPT02`, as a number.
pub const NARROW_FORMAT: u64 = 0x4943_4b45_5054_3032;

/// How many numbers stand before the lists of a state, after what is said of rounds.
pub(crate) const HEAD: u64 = 7;

/// How many numbers stand before the lists at most, with what is said of rounds.
const FRONT: usize = 9;

/// The byte form of a state, if each of its words has a number. Takes linear time.
pub fn encode(alloc: Global, state: &State) -> Result<Vec<u8>, StateFault>
    ensures bytes { IfOk result (λ bytes. bytes.items ≡ state_bytes (kept_by state.now)) }
    ensures sound { IfOk result (λ _. IsKept (kept_by state.now)) }
    ensures refused { result ≡ Err NotAState
        → ¬ AllByRecursion (IsKeptWord state.now.narrow) state.now.words.items }
{
    let head = [
        format_number(state.narrow),
        state.terms,
        state.interactions,
        ended_number(state.ended),
        state.by_rule.len() as u64,
        state.words.len() as u64,
        state.millis,
    ];
    numbers_fit(&head);
    numbers_fit(&state.by_rule);
    let mut out = Vec::with_capacity(alloc, room_of(state))?;
    put_rounds(state.rounds, &mut out)?;
    put_numbers(&head, &mut out)?;
    put_numbers(&state.by_rule, &mut out)?;
    put_words(alloc, state.narrow, &state.words, &mut out)?;
    out.extend_from_slice(&state.text)?;
    Ok(out)
}

/// For how many bytes room is made: no fewer than a state has, unless these are more than there may be.
fn room_of(state: &State) -> usize {
    let numbers = state.by_rule.len().saturating_add(FRONT).saturating_mul(8);
    let words = state.words.len().saturating_mul(width(state.narrow));
    numbers
        .saturating_add(words)
        .saturating_add(state.text.len())
}

fn format_number(narrow: bool) -> u64
    ensures { result ≡ format_number narrow }
{
    if narrow { NARROW_FORMAT } else { FORMAT }
}

/// Whether words are narrow in a state that begins with this number, if one does.
pub(crate) fn narrow_of(format: u64) -> Option<bool>
    ensures some { IfSome result (λ narrow. format ≡ format_number narrow) }
    ensures none { IsNone result → (narrow : Bool) → format ≢ format_number narrow }
{
    match format {
        FORMAT => Some(false),
        NARROW_FORMAT => Some(true),
        _ => None,
    }
}

fn ended_number(ended: bool) -> u64
    ensures { result ≡ ended_number ended }
{
    if ended { 1 } else { 0 }
}

/// The state of which these bytes are the form. Takes linear time.
pub fn decode(alloc: Global, bytes: &[u8]) -> Result<State, StateFault>
    ensures state { IfOk result (λ state. bytes.now ≡ state_bytes (kept_by state)) }
    ensures sound { IfOk result (λ state. IsKept (kept_by state)) }
    ensures refused { result ≡ Err NotAState → (kept : Kept) → IsKept kept
        → bytes.now ≢ state_bytes kept }
{
    let (rounds, plain) = rounds_at(bytes)?;
    let state = decode_after(alloc, rounds, plain)?;
    Ok(state)
}

/// The state of which these bytes are the form, after what is said of rounds.
fn decode_after(alloc: Global, rounds: Option<u64>, bytes: &[u8]) -> Result<State, StateFault>
    requires small { IfSome rounds (λ n. n < 2 ^ 64) }
    ensures state { IfOk result (λ state. bytes.now ≡ plain_bytes (kept_by state)) }
    ensures rounds { IfOk result (λ state. state.rounds ≡ rounds) }
    ensures sound { IfOk result (λ state. IsKept (kept_by state)) }
    ensures refused { result ≡ Err NotAState → (kept : Kept) → IsKept kept
        → bytes.now ≢ plain_bytes kept }
{
    let (head, rest) = numbers_at(alloc, HEAD, bytes)?;
    let Some(narrow) = narrow_of(head[0]) else {
        return Err(StateFault::NotAState);
    };
    if head[3] > 1 {
        return Err(StateFault::NotAState);
    }
    let (by_rule, rest) = numbers_at(alloc, head[4], rest)?;
    let (words, rest) = words_at(alloc, narrow, head[5], rest)?;
    let text = rest.to_vec(alloc)?;
    Ok(State {
        text,
        words,
        terms: head[1],
        interactions: head[2],
        by_rule,
        ended: head[3] == 1,
        millis: head[6],
        rounds,
        narrow,
    })
}

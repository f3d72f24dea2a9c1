//! Numbers as bytes, and back.

ghost use Rattle.std.specs.Prelude.{◌≡◌, ◌<◌, ◌*◌, ◌^◌, ◌++◌, IfOk, IfErr, OnOk, length};
ghost use Rattle.std.specs.List.{flat_map, AllByRecursion};
ghost use Rattle.ic_state.specs.Numbers.{eight_bytes, four_bytes};
ghost use Rattle.ic_state.specs.declared.fault.StateFault.TheVariants.{NotAState};

use crate::fault::StateFault;
use std::alloc::{AllocError, Global};

/// A number in eight bytes, and the bytes after it.
pub(crate) fn number_at(bytes: &[u8]) -> Result<(u64, &[u8]), StateFault>
    ensures read { IfOk result (λ r. bytes.now ≡ eight_bytes r.0 ++ r.1.now) }
    ensures small { IfOk result (λ r. r.0 < 2 ^ 64) }
    ensures refused { IfErr result (λ fault. (fault ≡ NotAState) × (length bytes.now < 8)) }
{
    if bytes.len() < 8 {
        return Err(StateFault::NotAState);
    }
    let (front, rest) = bytes.split_at(8);
    let number = u64::from_be_bytes([
        front[0], front[1], front[2], front[3], front[4], front[5], front[6], front[7],
    ]);
    Ok((number, rest))
}

/// A number in four bytes, and the bytes after it.
pub(crate) fn short_number_at(bytes: &[u8]) -> Result<(u32, &[u8]), StateFault>
    ensures read { IfOk result (λ r. bytes.now ≡ four_bytes r.0 ++ r.1.now) }
    ensures small { IfOk result (λ r. r.0 < 2 ^ 32) }
    ensures refused { IfErr result (λ fault. (fault ≡ NotAState) × (length bytes.now < 4)) }
{
    if bytes.len() < 4 {
        return Err(StateFault::NotAState);
    }
    let (front, rest) = bytes.split_at(4);
    let number = u32::from_be_bytes([front[0], front[1], front[2], front[3]]);
    Ok((number, rest))
}

/// So many numbers, and the bytes after them.
pub(crate) fn numbers_at(
    alloc: Global,
    count: u64,
    bytes: &[u8],
) -> Result<(Vec<u64>, &[u8]), StateFault>
    ensures count { IfOk result (λ r. length r.0.items ≡ count) }
    ensures read { IfOk result (λ r. bytes.now ≡ flat_map eight_bytes r.0.items ++ r.1.now) }
    ensures small { IfOk result (λ r. AllByRecursion (λ n. n < 2 ^ 64) r.0.items) }
    ensures refused { IfErr result (λ fault. fault ≡ NotAState → length bytes.now < 8 * count) }
{
    if count > (bytes.len() / 8) as u64 {
        return Err(StateFault::NotAState);
    }
    let mut numbers = Vec::with_capacity(alloc, count as usize)?;
    let mut rest = bytes;
    for _ in 0..count {
        let (number, now_rest) = number_at(rest)?;
        numbers.push(number)?;
        rest = now_rest;
    }
    Ok((numbers, rest))
}

/// Appends a number in eight bytes.
pub(crate) fn put_number(number: u64, out: &mut Vec<u8>) -> Result<(), AllocError>
    ensures { OnOk result (out.new.items ≡ out.old.items ++ eight_bytes number) }
{
    out.extend_from_slice(&number.to_be_bytes())?;
    Ok(())
}

/// Appends numbers in order.
pub(crate) fn put_numbers(numbers: &[u64], out: &mut Vec<u8>) -> Result<(), AllocError>
    ensures { OnOk result (out.new.items ≡ out.old.items ++ flat_map eight_bytes numbers.now) }
{
    for number in numbers {
        put_number(*number, out)?;
    }
    Ok(())
}

/// Each number fits its eight bytes.
pub(crate) fn numbers_fit(numbers: &[u64])
    ensures { AllByRecursion (λ n. n < 2 ^ 64) numbers.now }
{
    let _ = numbers;
}

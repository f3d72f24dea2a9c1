//! Terms whose agents are made in a builder, from the last word to the first.

ghost use Rattle.std.specs.Prelude.{◌≡◌, ℕ, ◌+◌, ◌<◌, ◌≤◌, ◌∷◌, ◌++◌, [], List, Some, length, reverse, slice_get, take, drop, vec_len, IfOk, OnOk};
ghost use Rattle.std.specs.List.{flat_map, AllByRecursion};
ghost use Rattle.ic_flat.specs.Words.{arguments, forest, word_names, IsWhole};
ghost use Rattle.ic_machine.specs.Building.{Builds};
ghost use Rattle.ic_machine.specs.Plan.{Made};
ghost use Rattle.ic_plans.specs.inner.Flattening.{IsRead};
ghost use Rattle.ic_plans.specs.inner.Laying.{AreLaid, CanLay, IsKnown};

use crate::flattening::{names_in, register_at};
use ic_flat::Word;
use ic_machine::Builder;
use std::alloc::{AllocError, Global};

/// Turns the registers after so many first ones round, where there is more than one of them.
fn turn(operands: &mut Vec<u32>, first: usize)
    requires { first ≤ vec_len operands.old }
    ensures { operands.new.items
        ≡ take first operands.old.items ++ reverse (drop first operands.old.items) }
{
    if operands.len() - first > 1 {
        operands[first..].reverse();
    }
}

/// Makes an agent of as many registers from the top of the stack, and answers its own register.
fn make_agent(
    symbol: u32,
    arity: usize,
    builder: &mut Builder,
    operands: &mut Vec<u32>,
) -> Result<u32, AllocError>
    requires known { slice_get builder.old.arities symbol ≡ Some arity }
    requires some { 1 ≤ arity }
    requires there { arity ≤ length operands.old.items }
    requires filled { AllByRecursion (λ k. k < length builder.old.registers)
        (reverse operands.old.items) }
    requires few { length builder.old.registers < u32.MAX }
    ensures register { IfOk result (λ k. k ≡ length builder.old.registers) }
    ensures made { OnOk result ((given names : ℕ) (made : List Made)
        → Builds given names made builder.old → Builds given names (made
        ++ record { symbol = symbol; operands = take arity (reverse operands.old.items) } ∷ [])
        builder.new) }
    ensures left { OnOk result
        (reverse operands.new.items ≡ drop arity (reverse operands.old.items)) }
    ensures arities { OnOk result (builder.new.arities ≡ builder.old.arities) }
    ensures registers { OnOk result
        (length builder.new.registers ≡ length builder.old.registers + 1) }
{
    let rest = operands.len() - arity;
    turn(operands, rest);
    let register = builder.make(symbol, &operands[rest..])?;
    operands.truncate(rest);
    Ok(register)
}

/// Puts the register of a word's term on the stack, which is told of a name, and makes its agent of those on top.
fn put_word(
    word: Word,
    read: u32,
    builder: &mut Builder,
    operands: &mut Vec<u32>,
) -> Result<(), AllocError>
    requires there { arguments word ≤ length operands.old.items }
    requires known { IsKnown builder.old.arities word }
    requires filled { AllByRecursion (λ k. k < length builder.old.registers)
        (reverse operands.old.items) }
    requires few { length builder.old.registers < u32.MAX + length (word_names word) }
    ensures count { OnOk result
        (length operands.new.items + arguments word ≡ length operands.old.items + 1) }
    ensures few { OnOk result (length builder.new.registers + length (word_names word)
        ≤ length builder.old.registers + 1) }
    ensures laid { OnOk result ((arities : List ℕ) (registers : ℕ → ℕ) (given names : ℕ)
        (ws : List Word) → AllByRecursion (λ x. registers x ≡ read) (word_names word)
        → AreLaid arities registers given names ws builder.old (reverse operands.old.items)
        → AreLaid arities registers given names (word ∷ ws) builder.new
        (reverse operands.new.items)) }
{
    let register = match word {
        Word::Name(_) => read,
        Word::Agent(symbol, 0) => symbol,
        Word::Agent(symbol, arity) => make_agent(symbol, arity, builder, operands)?,
    };
    operands.push(register)?;
    Ok(())
}

/// Makes the agents of terms, and answers the registers of the terms. Those of the names are told in their order.
pub(crate) fn lay(
    alloc: Global,
    words: &[Word],
    reads: &[u32],
    builder: &mut Builder,
) -> Result<Vec<u32>, AllocError>
    requires whole { IsWhole words.now }
    requires can { CanLay reads.now words.now builder.old }
    requires room { length builder.old.registers + length words.now
        ≤ u32.MAX + length (flat_map word_names words.now) }
    ensures count { IfOk result (λ operands. length operands.items ≡ length (forest words.now)) }
    ensures laid { IfOk result (λ operands. (can : CanLay reads.now words.now builder.old)
        → AreLaid builder.old.arities can.registers can.given can.names words.now builder.new
        operands.items) }
{
    let mut operands = Vec::new(alloc);
    let mut left = reads.len();
    for i in (0..words.len()).rev() {
        left -= names_in(words[i]);
        let read = register_at(reads, left);
        put_word(words[i], read, builder, &mut operands)?;
    }
    operands.reverse();
    Ok(operands)
}

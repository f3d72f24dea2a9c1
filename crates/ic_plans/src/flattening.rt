//! Terms as agents that are made one after another, from the last word to the first.

ghost use Rattle.std.specs.Prelude.{◌≡◌, ℕ, ◌+◌, ◌<◌, ◌≤◌, ◌∷◌, ◌++◌, [], List, map, length, reverse, slice_index_or, take, drop, IfOk, OnOk};
ghost use Rattle.std.specs.List.{flat_map, AllByRecursion};
ghost use Rattle.ic_flat.specs.Words.{arguments, forest, word_names, IsWhole};
ghost use Rattle.ic_machine.specs.Plan.{made_of};
ghost use Rattle.ic_plans.specs.inner.Flattening.{WouldBeFlat};

use ic_flat::Word;
use ic_machine::Make;
use smallvec::SmallVec;
use std::alloc::{AllocError, Global};

/// Has an agent made of as many registers from the top of the stack.
fn make_agent(
    symbol: u32,
    arity: usize,
    makes: &mut Vec<Make>,
    operands: &mut Vec<u32>,
) -> Result<(), AllocError>
    requires { arity ≤ length operands.old.items }
    ensures made { OnOk result (map made_of makes.new.items
        ≡ map made_of makes.old.items
        ++ record { symbol = symbol; operands = take arity (reverse operands.old.items) } ∷ []) }
    ensures left { OnOk result
        (reverse operands.new.items ≡ drop arity (reverse operands.old.items)) }
{
    let rest = operands.len() - arity;
    let mut taken = SmallVec::from_slice(*operands.allocator(), &operands[rest..])?;
    taken.reverse();
    operands.truncate(rest);
    makes.push(Make {
        symbol,
        operands: taken,
    })?;
    Ok(())
}

/// Puts the register of a word's term on the stack, which is told of a name, and has its agent made of those on top.
fn put_word(
    word: Word,
    read: u32,
    first: u32,
    makes: &mut Vec<Make>,
    operands: &mut Vec<u32>,
) -> Result<(), AllocError>
    requires there { arguments word ≤ length operands.old.items }
    requires room { first + length makes.old.items < u32.MAX + length (word_names word) }
    ensures count { OnOk result
        (length operands.new.items + arguments word ≡ length operands.old.items + 1) }
    ensures few { OnOk result
        (length makes.new.items + length (word_names word) ≤ length makes.old.items + 1) }
    ensures flat { OnOk result
        ((arities : List ℕ) (registers : ℕ → ℕ) (ws : List Word)
        → AllByRecursion (λ x. registers x ≡ read) (word_names word)
        → WouldBeFlat arities registers first ws
        (map made_of makes.old.items) (reverse operands.old.items)
        → WouldBeFlat arities registers first (word ∷ ws)
        (map made_of makes.new.items) (reverse operands.new.items)) }
{
    let register = match word {
        Word::Name(_) => read,
        Word::Agent(symbol, 0) => symbol,
        Word::Agent(symbol, arity) => {
            let register = first + makes.len() as u32;
            make_agent(symbol, arity, makes, operands)?;
            register
        }
    };
    operands.push(register)?;
    Ok(())
}

/// How many names a word is.
pub(crate) fn names_in(word: Word) -> usize
    ensures { result ≡ length (word_names word) }
{
    match word {
        Word::Name(_) => 1,
        Word::Agent(_, _) => 0,
    }
}

/// The register at a place, or zero.
pub(crate) fn register_at(registers: &[u32], place: usize) -> u32
    ensures { result ≡ slice_index_or registers.now place 0 }
{
    match registers.get(place) {
        Some(register) => *register,
        None => 0,
    }
}

/// The agents that terms are made of, the first of which goes to this register, and the registers of the terms. Those of the
/// names are told in their order.
pub(crate) fn flatten(
    alloc: Global,
    words: &[Word],
    reads: &[u32],
    first: u32,
) -> Result<(Vec<Make>, Vec<u32>), AllocError>
    requires whole { IsWhole words.now }
    requires told { length reads.now ≡ length (flat_map word_names words.now) }
    requires room { first + length words.now
        ≤ u32.MAX + length (flat_map word_names words.now) }
    ensures count { IfOk result (λ flat. length flat.1.items ≡ length (forest words.now)) }
    ensures few { IfOk result (λ flat. length flat.0.items ≤ length words.now) }
    ensures flat { IfOk result
        (λ flat. (arities : List ℕ) (registers : ℕ → ℕ)
        → reads.now ≡ map registers (flat_map word_names words.now)
        → WouldBeFlat arities registers first words.now
        (map made_of flat.0.items) flat.1.items) }
{
    let mut makes = Vec::new(alloc);
    let mut operands = Vec::new(alloc);
    let mut left = reads.len();
    for i in (0..words.len()).rev() {
        left -= names_in(words[i]);
        let read = register_at(reads, left);
        put_word(words[i], read, first, &mut makes, &mut operands)?;
    }
    operands.reverse();
    Ok((makes, operands))
}

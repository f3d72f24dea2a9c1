//! Agents and rules as texts.

ghost use Rattle.std.specs.Prelude.{◌≡◌, ◌+◌, ◌++◌, ◌^◌, ◌<◌, [], ◌∷◌, true, IfOk, OnOk, map, replicate};
ghost use Rattle.ic_text.specs.Name.{name_text};
ghost use Rattle.ic_expand.specs.Generic.{agent_text, copies, in_row, names_from, rule_text};

use ic_text::put_name;
use std::alloc::{AllocError, Global};

/// An agent of this symbol with these arguments.
pub(crate) fn agent(alloc: Global, symbol: &[u8], args: &[Vec<u8>]) -> Result<Vec<u8>, AllocError>
    ensures { IfOk result
        (λ out. out.items ≡ agent_text symbol.now (map (λ a. a.items) args.now)) }
{
    let mut out = Vec::from_slice(alloc, symbol)?;
    let mut sign = b'(';
    for arg in args {
        out.push(sign)?;
        out.extend_from_slice(arg)?;
        sign = b',';
    }
    if sign != b'(' {
        out.push(b')')?;
    }
    Ok(out)
}

/// A rule of these two sides.
pub(crate) fn rule(alloc: Global, left: &[u8], right: &[u8]) -> Result<Vec<u8>, AllocError>
    ensures { IfOk result (λ out. out.items ≡ rule_text left.now right.now) }
{
    let mut out = Vec::from_slice(alloc, left)?;
    out.extend_from_slice(b"><")?;
    out.extend_from_slice(right)?;
    Ok(out)
}

/// The text of a name.
fn name(alloc: Global, number: u64) -> Result<Vec<u8>, AllocError>
    ensures { IfOk result (λ out. out.items ≡ name_text number) }
{
    let mut out = Vec::new(alloc);
    put_name(number, &mut out)?;
    Ok(out)
}

/// Names with numbers from this one on.
pub(crate) fn names_from(
    alloc: Global,
    first: u64,
    count: usize,
) -> Result<Vec<Vec<u8>>, AllocError>
    requires { first + count < 2 ^ 64 }
    ensures { IfOk result (λ names. map (λ w. w.items) names.items ≡ names_from first count) }
{
    let mut names = Vec::new(alloc);
    for number in first..first + count as u64 {
        names.push(name(alloc, number)?)?;
    }
    Ok(names)
}

/// Agents of a copier, each with the two names of its place.
pub(crate) fn copies(alloc: Global, copier: &[u8], count: usize) -> Result<Vec<Vec<u8>>, AllocError>
    requires { count < 2 ^ 32 }
    ensures { IfOk result (λ agents. map (λ a. a.items) agents.items ≡ copies copier.now count) }
{
    let mut agents = Vec::new(alloc);
    for number in 0..count as u64 {
        agents.push(copy_at(alloc, copier, number)?)?;
    }
    Ok(agents)
}

/// A copier with the two names of a place.
fn copy_at(alloc: Global, copier: &[u8], number: u64) -> Result<Vec<u8>, AllocError>
    requires { number < 2 ^ 32 }
    ensures { IfOk result (λ out. out.items
        ≡ agent_text copier.now (name_text number ∷ name_text (number + 26) ∷ [])) }
{
    pair_of(
        alloc,
        copier,
        name(alloc, number)?,
        name(alloc, number + 26)?,
    )
}

/// An agent of this symbol with two arguments.
pub(crate) fn pair_of(
    alloc: Global,
    symbol: &[u8],
    first: Vec<u8>,
    second: Vec<u8>,
) -> Result<Vec<u8>, AllocError>
    ensures { IfOk result (λ out. out.items
        ≡ agent_text symbol.now (first.items ∷ second.items ∷ [])) }
{
    let mut args = Vec::new(alloc);
    args.push(first)?;
    args.push(second)?;
    agent(alloc, symbol, &args)
}

/// A text as often as this.
pub(crate) fn repeated(alloc: Global, text: &[u8], count: usize) -> Result<Vec<Vec<u8>>, AllocError>
    ensures { IfOk result (λ texts. map (λ t. t.items) texts.items ≡ replicate count text.now) }
{
    let mut texts = Vec::new(alloc);
    for _ in 0..count {
        texts.push(Vec::from_slice(alloc, text)?)?;
    }
    Ok(texts)
}

/// Appends rules with `;` between them.
pub(crate) fn put_in_row(rules: &[Vec<u8>], out: &mut Vec<u8>) -> Result<(), AllocError>
    ensures { OnOk result (out.new.items
        ≡ out.old.items ++ in_row true (map (λ r. r.items) rules.now)) }
{
    let mut first = true;
    for rule in rules {
        if !first {
            out.push(b';')?;
        }
        out.extend_from_slice(rule)?;
        first = false;
    }
    Ok(())
}

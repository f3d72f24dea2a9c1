//! A writer, which puts terms that stood by themselves together.

ghost use Rattle.std.specs.Prelude.{◌≡◌, ◌<◌, ◌≤◌, [], ◌∷◌, None, length, map, reverse, IfOk, IfSome, OnOk};
ghost use Rattle.ic_readback.specs.inner.Writing.{IsOpen, IsOpenAt, AreIndexed, part_of};
ghost use Rattle.ic_readback.specs.inner.Mending.{WritesLoose};

use crate::loose::{Loose, index_places, key};
use crate::token::Token;
use ic_arena::Word;
use std::alloc::{AllocError, Global};
use std::collections::HashMap;

/// What was written of a net, and what is left to write.
#[derive(Drop)]
pub(crate) struct Writer {
    /// The terms that are left.
    loose: Vec<Loose>,
    /// Which of them was read for each place.
    indices: HashMap<u64, usize>,
    /// The tokens that are still to be written, the first on top.
    stack: Vec<Token>,
    pub(crate) tokens: Vec<Token>,
    /// How many equations have been begun.
    pub(crate) equations: usize,
}

impl Writer {
    ghost use Rattle.ic_readback.specs.inner.Mending.{parts_left, places_left, Wrote, WroteOne, HasWritten, Mends};

    /// Writes each term that no other one has: an equation of the name of its place with the term, in which those are put
    /// that it leads to.
    fn write_all(&mut self) -> Result<(), AllocError>
        requires empty { self.old.stack.items ≡ [] }
        requires few { self.old.equations ≤ length self.old.tokens.items }
        requires indexed { AreIndexed self.old.indices (places_left self.old) }
        ensures mends { OnOk result (Mends self.old self.new) }
        ensures all { OnOk result (self.new.loose.items ≡ []) }
    {
        while let Some(term) = self.loose.pop() {
            self.write_term(term)?;
        }
        Ok(())
    }

    /// Writes a term as an equation, unless it was written before.
    fn write_term(&mut self, term: Loose) -> Result<(), AllocError>
        requires empty { self.old.stack.items ≡ [] }
        requires few { self.old.equations ≤ length self.old.tokens.items }
        requires indexed { AreIndexed self.old.indices (places_left self.old) }
        ensures { OnOk result (HasWritten (part_of term) self.old self.new) }
    {
        if term.written {
            return Ok(());
        }
        self.tokens.push(Token::Name(term.place))?;
        self.equations += 1;
        self.stack.extend_from_slice(&term.reversed)?;
        self.write_stack()?;
        Ok(())
    }

    /// Writes all tokens of the stack.
    fn write_stack(&mut self) -> Result<(), AllocError>
        requires { AreIndexed self.old.indices (places_left self.old) }
        ensures wrote { OnOk result (Wrote (reverse self.old.stack.items) self.old self.new) }
        ensures empty { OnOk result (self.new.stack.items ≡ []) }
    {
        while let Some(token) = self.stack.pop() {
            self.write_token(token)?;
        }
        Ok(())
    }

    /// Writes a token. Where it is the name of a place for which a term is left, the term is put in its stead.
    fn write_token(&mut self, token: Token) -> Result<(), AllocError>
        requires { AreIndexed self.old.indices (places_left self.old) }
        ensures { OnOk result
            (WroteOne (token ∷ reverse self.old.stack.items) self.old self.new) }
    {
        if let Token::Name(name) = token {
            if let Some(index) = self.find(name) {
                self.stack.extend_from_slice(&self.loose[index].reversed)?;
                self.loose[index].written = true;
                return Ok(());
            }
        }
        self.tokens.push(token)?;
        Ok(())
    }

    /// The term that was read for a place and isn't written yet, if there is one.
    fn find(&self, name: Word) -> Option<usize>
        requires { AreIndexed self.now.indices (places_left self.now) }
        ensures within { IfSome result (λ i. i < length self.now.loose.items) }
        ensures there { IfSome result (λ i. IsOpenAt name i self.now.loose.items) }
        ensures none { result ≡ None → ¬ IsOpen name (parts_left self.now) }
    {
        let index = *self.indices.get(&key(name))?;
        if self.loose.len() <= index {
            return None;
        }
        let term = &self.loose[index];
        if term.written || term.place.tag != name.tag || term.place.index != name.index {
            return None;
        }
        Some(index)
    }
}

/// Puts terms together that stood by themselves when they were read, and writes them after these tokens. Each one that
/// none has is an equation of the name of its place.
pub(crate) fn write_loose(
    alloc: Global,
    loose: Vec<Loose>,
    tokens: Vec<Token>,
    equations: usize,
) -> Result<Writer, AllocError>
    requires { equations ≤ length tokens.items }
    ensures { IfOk result (WritesLoose (map part_of loose.items) tokens.items equations) }
{
    let indices = index_places(alloc, &loose)?;
    let mut writer = Writer {
        loose,
        indices,
        stack: Vec::new(alloc),
        tokens,
        equations,
    };
    writer.write_all()?;
    Ok(writer)
}

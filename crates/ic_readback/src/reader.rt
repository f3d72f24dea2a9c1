//! A reader, which puts words together to terms.

ghost use Rattle.std.specs.Prelude.{◌≡◌, ℕ, ◌+◌, ◌^◌, ◌<◌, ◌≤◌, List, [], ◌∷◌, ◌++◌, true, false, Some, length, reverse, slice_get, Contains, OnOk};
ghost use Rattle.std.specs.List.{AllByRecursion};
ghost use Rattle.ic_arena.specs.declared.word.Word.{Word as AnyWord};
ghost use Rattle.ic_arena.specs.Word.{name_word};
ghost use Rattle.ic_arena.specs.Piece.{waits, agent_of};
ghost use Rattle.ic_machine.specs.Held.{IsHeld};
ghost use Rattle.ic_readback.specs.Reading.{sides_of};
ghost use Rattle.ic_readback.specs.inner.Expanding.{state, Step, Steps, IsIdle};

use crate::loose::Loose;
use crate::token::Token;
use ic_arena::{NAME, Word};
use ic_machine::{Equation, Places};
use std::alloc::{AllocError, Global};
use std::mem;

/// What was read of a net, and what is left to read.
#[derive(Drop)]
pub(crate) struct Reader {
    /// What each place holds that was not read yet.
    pub(crate) places: Places,
    /// The words that are still to be put together, the first on top.
    pub(crate) stack: Vec<Word>,
    pub(crate) tokens: Vec<Token>,
    /// How many equations have been begun.
    pub(crate) equations: usize,
}

impl Reader {
    ghost use Rattle.ic_readback.specs.inner.Reading.{HasRead, Gathers, Keeps, HoldOnce};

    /// Puts together the words of an interface and the sides of equations.
    pub(crate) fn expand_all(
        &mut self,
        interface: &[Word],
        pending: &[Equation],
        aside: &[Equation],
    ) -> Result<(), AllocError>
        requires empty { self.old.stack.items ≡ [] }
        requires few { self.old.equations ≤ length self.old.tokens.items }
        ensures read { OnOk result (HasRead (interface.now
            ++ (sides_of pending.now ++ sides_of aside.now)) self.old self.new) }
        ensures counted { OnOk result (self.new.equations
            ≡ self.old.equations + (length pending.now + length aside.now)) }
        ensures few { OnOk result (self.new.equations ≤ length self.new.tokens.items) }
    {
        self.expand_each(interface)?;
        self.expand_sides(pending)?;
        self.expand_sides(aside)?;
        Ok(())
    }

    /// Reads what no term had, as terms by themselves, until nothing is left.
    pub(crate) fn read_left(
        &mut self,
        alloc: Global,
        loose: &mut Vec<Loose>,
    ) -> Result<(), AllocError>
        requires empty { self.old.stack.items ≡ [] }
        requires none { self.old.tokens.items ≡ [] }
        ensures read { OnOk result (Gathers self.old self.new loose.old.items loose.new.items) }
        ensures idle { OnOk result (HoldOnce self.old.places.pieces
            → AllByRecursion IsIdle self.new.places.pieces) }
    {
        self.read_names(alloc, loose)?;
        self.read_agents(alloc, loose)?;
        Ok(())
    }

    /// Puts a word together one step: what waits for a name, or the arguments of an agent, go onto the stack, and all else
    /// is written. No symbol has the tag of a given name.
    fn expand_word(&mut self, word: Word) -> Result<(), AllocError>
        ensures step { OnOk result (Step self.old.places.arities
            (state self.old.tokens.items (word ∷ reverse self.old.stack.items)
            self.old.places.pieces)
            (state self.new.tokens.items (reverse self.new.stack.items) self.new.places.pieces)) }
        ensures arities { self.new.places.arities ≡ self.old.places.arities }
        ensures equations { self.new.equations ≡ self.old.equations }
    {
        if word.tag == NAME {
            match self.places.take_waiting(word.index) {
                Some(waiting) => self.stack.push(waiting)?,
                None => self.tokens.push(Token::Name(word))?,
            }
        } else if self.places.symbols() < word.tag {
            self.tokens.push(Token::Name(word))?;
        } else if self.places.take_arguments(word, &mut self.stack)? {
            self.tokens.push(Token::Agent(word.tag - 1))?;
        } else if self.is_plain(word.tag - 1) {
            self.tokens.push(Token::Agent(word.tag - 1))?;
        } else {
            self.tokens.push(Token::Name(word))?;
        }
        Ok(())
    }

    /// Whether a symbol is known, and its agents have no arguments.
    fn is_plain(&self, symbol: u32) -> bool
        ensures plain { result ≡ true → slice_get self.now.places.arities symbol ≡ Some 0 }
        ensures other { result ≡ false → ¬ (slice_get self.now.places.arities symbol ≡ Some 0) }
    {
        match self.places.arity(symbol) {
            Some(arity) => arity == 0,
            None => false,
        }
    }

    /// Puts all words of the stack together.
    fn expand_stack(&mut self) -> Result<(), AllocError>
        ensures steps { OnOk result (Steps self.old.places.arities
            (state self.old.tokens.items (reverse self.old.stack.items) self.old.places.pieces)
            (state self.new.tokens.items [] self.new.places.pieces)) }
        ensures empty { OnOk result (self.new.stack.items ≡ []) }
        ensures arities { self.new.places.arities ≡ self.old.places.arities }
        ensures equations { self.new.equations ≡ self.old.equations }
    {
        while let Some(word) = self.stack.pop() {
            self.expand_word(word)?;
        }
        Ok(())
    }

    /// Puts a word together.
    fn expand(&mut self, word: Word) -> Result<(), AllocError>
        requires empty { self.old.stack.items ≡ [] }
        ensures read { OnOk result (HasRead (word ∷ []) self.old self.new) }
        ensures equations { self.new.equations ≡ self.old.equations }
    {
        self.stack.push(word)?;
        self.expand_stack()
    }

    /// Puts each of some words together.
    fn expand_each(&mut self, words: &[Word]) -> Result<(), AllocError>
        requires empty { self.old.stack.items ≡ [] }
        ensures read { OnOk result (HasRead words.now self.old self.new) }
        ensures equations { self.new.equations ≡ self.old.equations }
    {
        for word in words {
            self.expand(*word)?;
        }
        Ok(())
    }

    /// Puts the sides of equations together.
    fn expand_sides(&mut self, equations: &[Equation]) -> Result<(), AllocError>
        requires empty { self.old.stack.items ≡ [] }
        requires few { self.old.equations ≤ length self.old.tokens.items }
        ensures read { OnOk result (HasRead (sides_of equations.now) self.old self.new) }
        ensures equations { OnOk result
            (self.new.equations ≡ self.old.equations + length equations.now) }
    {
        for equation in equations {
            self.expand(equation.left)?;
            self.expand(equation.right)?;
            self.equations += 1;
        }
        Ok(())
    }

    /// Reads what waits for names that no term had: each is a term by itself.
    fn read_names(&mut self, alloc: Global, loose: &mut Vec<Loose>) -> Result<(), AllocError>
        requires empty { self.old.stack.items ≡ [] }
        requires none { self.old.tokens.items ≡ [] }
        ensures read { OnOk result (Gathers self.old self.new loose.old.items loose.new.items) }
        ensures none { OnOk result ((x u : AnyWord) → ¬ Contains self.new.places.pieces (waits x u)) }
    {
        for index in 0..self.places.names() {
            self.read_name(alloc, index, loose)?;
        }
        Ok(())
    }

    /// Reads what still waits for a name, if something does.
    fn read_name(
        &mut self,
        alloc: Global,
        index: u32,
        loose: &mut Vec<Loose>,
    ) -> Result<(), AllocError>
        requires empty { self.old.stack.items ≡ [] }
        requires none { self.old.tokens.items ≡ [] }
        ensures read { OnOk result (Gathers self.old self.new loose.old.items loose.new.items) }
        ensures none { OnOk result ((u : AnyWord)
            → ¬ Contains self.new.places.pieces (waits (name_word index) u)) }
    {
        if let Some(word) = self.places.take_waiting(index) {
            self.expand(word)?;
            self.keep(alloc, Word::name(index), loose)?;
        }
        Ok(())
    }

    /// Reads the agents that no term had: each is a term by itself.
    fn read_agents(&mut self, alloc: Global, loose: &mut Vec<Loose>) -> Result<(), AllocError>
        requires empty { self.old.stack.items ≡ [] }
        requires none { self.old.tokens.items ≡ [] }
        ensures read { OnOk result (Gathers self.old self.new loose.old.items loose.new.items) }
        ensures held { OnOk result
            (AllByRecursion (IsHeld self.new.places.arities) self.new.places.pieces) }
        ensures none { OnOk result (HoldOnce self.old.places.pieces
            → (a : AnyWord) (vs : List AnyWord)
            → ¬ Contains self.new.places.pieces (agent_of a vs)) }
    {
        for symbol in 0..self.places.symbols() {
            self.read_agents_of(alloc, symbol, loose)?;
        }
        Ok(())
    }

    /// Reads the agents of a symbol that no term had.
    fn read_agents_of(
        &mut self,
        alloc: Global,
        symbol: u32,
        loose: &mut Vec<Loose>,
    ) -> Result<(), AllocError>
        requires empty { self.old.stack.items ≡ [] }
        requires none { self.old.tokens.items ≡ [] }
        requires held { AllByRecursion (IsHeld self.old.places.arities) self.old.places.pieces }
        requires symbol { symbol + 1 < 2 ^ 32 }
        ensures read { OnOk result (Gathers self.old self.new loose.old.items loose.new.items) }
        ensures none { OnOk result (HoldOnce self.old.places.pieces
            → (a : AnyWord) (vs : List AnyWord) → a.tag ≡ symbol + 1
            → ¬ Contains self.new.places.pieces (agent_of a vs)) }
    {
        for index in 0..self.places.agents(symbol) {
            self.read_agent(alloc, Word::agent(symbol, index), loose)?;
        }
        Ok(())
    }

    /// Reads an agent, if it is still at its place.
    fn read_agent(
        &mut self,
        alloc: Global,
        agent: Word,
        loose: &mut Vec<Loose>,
    ) -> Result<(), AllocError>
        requires empty { self.old.stack.items ≡ [] }
        requires none { self.old.tokens.items ≡ [] }
        requires held { AllByRecursion (IsHeld self.old.places.arities) self.old.places.pieces }
        requires tag { 1 ≤ agent.tag }
        ensures read { OnOk result (Gathers self.old self.new loose.old.items loose.new.items) }
        ensures none { OnOk result (HoldOnce self.old.places.pieces → (vs : List AnyWord)
            → ¬ Contains self.new.places.pieces (agent_of agent vs)) }
    {
        if self.places.take_arguments(agent, &mut self.stack)? {
            self.tokens.push(Token::Agent(agent.tag - 1))?;
            self.expand_stack()?;
            self.keep(alloc, agent, loose)?;
        }
        Ok(())
    }

    /// Keeps the tokens that were read as a term for a place.
    fn keep(&mut self, alloc: Global, place: Word, loose: &mut Vec<Loose>) -> Result<(), AllocError>
        ensures { OnOk result (Keeps place self.old self.new loose.old.items loose.new.items) }
    {
        let mut reversed = mem::replace(&mut self.tokens, Vec::new(alloc));
        reversed.reverse();
        let written = false;
        loose.push(Loose {
            place,
            reversed,
            written,
        })?;
        Ok(())
    }
}

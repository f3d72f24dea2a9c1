//! Tokens: what terms are written of.

use ic_arena::Word;

/// A token of a text in prefix order.
#[derive(Clone, Copy)]
pub enum Token {
    /// A name: that of a place, or one that was given.
    Name(Word),
    /// The symbol of an agent, before its arguments.
    Agent(u32),
}

/// The net of a machine as terms: so many of an interface, and then the sides of so many equations.
#[derive(Drop)]
pub struct ReadBack {
    pub tokens: Vec<Token>,
    pub terms: usize,
    pub equations: usize,
}

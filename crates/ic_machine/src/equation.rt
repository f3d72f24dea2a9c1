//! Equations between words.

use ic_arena::Word;

/// Two words that are to be made equal.
#[derive(Clone, Copy)]
pub struct Equation {
    pub left: Word,
    pub right: Word,
}

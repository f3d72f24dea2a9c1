//! What the words of a script are answered.

use ic_notation::{decimal, digits_of};
use std::alloc::{AllocError, Global};

/// The answers of the words so far, each with a blank after it.
#[derive(Drop)]
pub struct Told {
    line: Vec<u8>,
}

impl Told {
    /// No answer yet.
    pub fn new(alloc: Global) -> Told {
        Told {
            line: Vec::new(alloc),
        }
    }

    /// The line of all answers.
    pub fn into_line(mut self) -> Vec<u8> {
        self.line.pop();
        self.line
    }

    /// What it takes memory from.
    pub fn alloc(&self) -> Global {
        *self.line.allocator()
    }

    /// A word.
    pub fn say(&mut self, word: &str) -> Result<(), AllocError> {
        self.line.extend_from_slice(word.as_bytes())?;
        self.line.extend_from_slice(b" ")
    }

    /// `o` for a call that went well, and `e` for one that was refused.
    pub fn outcome(&mut self, went_well: bool) -> Result<(), AllocError> {
        self.say(if went_well { "o" } else { "e" })
    }

    /// `y` or `n`.
    pub fn whether(&mut self, is: bool) -> Result<(), AllocError> {
        self.say(if is { "y" } else { "n" })
    }

    /// A number in decimal.
    pub fn number(&mut self, number: u64) -> Result<(), AllocError> {
        decimal(&mut self.line, number)?;
        self.line.extend_from_slice(b" ")
    }

    /// Bytes in hexadecimal digits, `-` for none.
    pub fn bytes(&mut self, bytes: &[u8]) -> Result<(), AllocError> {
        if bytes.is_empty() {
            return self.say("-");
        }
        let mut digits = digits_of(*self.line.allocator(), bytes)?;
        self.line.append(&mut digits)?;
        self.line.extend_from_slice(b" ")
    }
}

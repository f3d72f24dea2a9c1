//! The first words of a text that has too many, so that it is told where. That is tried, not proved.

use crate::prefix::{Node, Prefix};
use crate::token::is_word_byte;
use std::alloc::{AllocError, Global};

/// What is known of the first words of a text, at most so many: the words, which of them have a list open, how many
/// lists of later words are open in these, and the terms outside all parentheses before a `|`.
#[derive(Drop)]
struct Front<'a> {
    most: usize,
    nodes: Vec<Node<'a>>,
    is_full: bool,
    open: Vec<usize>,
    deep: usize,
    terms: usize,
    barred: bool,
}

impl<'a> Front<'a> {
    /// Takes the word that a run of word bytes makes, if it has a byte.
    fn take_run(&mut self, run: &'a [u8]) -> Result<(), AllocError> {
        if run.is_empty() {
            return Ok(());
        }
        if self.nodes.len() >= self.most {
            self.is_full = true;
            return Ok(());
        }
        if self.open.is_empty() && !self.barred {
            self.terms = self.terms.saturating_add(1);
        }
        self.nodes.push(Node {
            text: run,
            arity: 0,
        })?;
        Ok(())
    }

    /// One more argument of a word.
    fn add_argument(&mut self, word: usize) {
        if word < self.nodes.len() {
            self.nodes[word].arity = self.nodes[word].arity.saturating_add(1);
        }
    }

    /// Takes a byte that is no word byte.
    fn take_byte(&mut self, byte: u8) -> Result<(), AllocError> {
        match byte {
            b'(' if self.is_full => self.deep = self.deep.saturating_add(1),
            b'(' => {
                let word = self.nodes.len().saturating_sub(1);
                self.add_argument(word);
                self.open.push(word)?;
            }
            b')' if self.deep > 0 => self.deep -= 1,
            b')' => {
                self.open.pop();
            }
            b',' if self.deep == 0 => {
                if let Some(word) = self.open.last().copied() {
                    self.add_argument(word);
                }
            }
            b'|' => self.barred = true,
            _ => {}
        }
        Ok(())
    }
}

/// The first words of a text, at most so many, with their arguments, and how many terms of the interface these write.
/// Of what follows no more is gone over than till their lists are closed.
pub(crate) fn front_of(alloc: Global, text: &[u8], most: usize) -> Result<Prefix, AllocError> {
    let mut front = Front {
        most,
        nodes: Vec::new(alloc),
        is_full: false,
        open: Vec::new(alloc),
        deep: 0,
        terms: 0,
        barred: false,
    };
    let mut run_start = 0;
    for (place, byte) in text.iter().enumerate() {
        if !is_word_byte(*byte) {
            front.take_run(&text[run_start..place])?;
            if front.is_full && front.open.is_empty() {
                break;
            }
            front.take_byte(*byte)?;
            run_start = place + 1;
        }
    }
    let Front { nodes, terms, .. } = front;
    Ok(Prefix { nodes, terms })
}

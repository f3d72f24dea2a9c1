//! What is answered to a row, by its kind. A fault of a call is told by its name in the code.
//!
//! - `task WORDS`: the task that words after the program's name ask for, as its fields are named in the code.
//! - `find PAIR SYSTEM`: the place of the rule of two symbols, whose numbers are digits, and whether it is turned.
//!   `restored NEXT SYSTEM`: `next` of the system's configuration, made with this one. `paired A + B`: whether there is
//!   a system of the rules of A and the configuration of B. `symbol ARITY SYMBOL + CONFIGURATION`: the number of a symbol
//!   after those of a configuration. `text_fault NUMBER WORD`: the line of a fault that no text has.
//! - `words CONFIGURATION`: its words in flat form, and after `;` how many terms its interface has, how many equations
//!   and nodes there are, and `next`. A name is its number, and an agent its symbol's number, `/` and how many
//!   arguments it has. `same A + B`: whether two configurations are the same in flat form. `over A + B`: whether the
//!   second is over the first's symbols.
//! - `restore TERMS NEXT WORDS`, `new TERMS WORDS`: the configuration of words with so many terms in its interface.
//!   `term_ends WORDS`: the places after the terms.
//! - `interact PLACE SYSTEM`, `indirect PLACE SYSTEM`, `collect PLACE SYSTEM`: the text after a single step.
//!   `gathered RESULTS`: what gathering refuses.
//! - `alike ROUNDS SYSTEM`: the text after at most so many rounds, by terms and by words the same.
//! - `memory`, `file`, `opens`, `laws`: of disks, as `disks` says.

use crate::disks::of_disks;
use crate::engines::alike;
use crate::flat::{are_over, are_same, words};
use crate::gathering::gathered;
use crate::steps::step;
use crate::task::task;
use crate::values::{fault_line, found, numbered, paired, restored};
use crate::words::{ends, made, number_first};
use ic_notation::{Answers, Row, Trouble, expanded};
use std::alloc::Global;

/// The kinds of these rows.
#[derive(Drop)]
pub struct Kinds<'a> {
    /// What has the files.
    pub rt: &'a HostRuntime,
}

impl Answers for Kinds<'_> {
    fn answer(&self, alloc: Global, row: &Row<'_>) -> Result<Vec<u8>, Trouble> {
        match row.kind {
            "task" => task(alloc, row.text),
            "words" => words(alloc, row.text),
            "term_ends" => ends(alloc, row.text),
            "gathered" => gathered(alloc, row.text),
            "paired" | "same" | "over" => of_two(alloc, row),
            "memory" | "file" | "opens" | "laws" => Ok(of_disks(self.rt, row)?),
            _ => after_number(alloc, row),
        }
    }
}

/// What is answered to two texts, with ` + ` between them.
fn of_two(alloc: Global, row: &Row<'_>) -> Result<Vec<u8>, Trouble> {
    let (one, other) = row.text.split_once(" + ").unwrap_or((row.text, ""));
    match row.kind {
        "same" => are_same(alloc, one, other),
        "over" => are_over(alloc, one, other),
        _ => paired(alloc, one, other),
    }
}

/// What is answered to a text after a number.
fn after_number(alloc: Global, row: &Row<'_>) -> Result<Vec<u8>, Trouble> {
    let (number, rest) = number_first(row.text)?;
    match row.kind {
        "new" => made(alloc, number as usize, None, rest),
        "restore" => {
            let (next, words) = number_first(rest)?;
            made(alloc, number as usize, Some(next), words)
        }
        "symbol" => numbered(alloc, number as usize, rest),
        _ => of_text(alloc, row.kind, number, &expanded(alloc, rest)?),
    }
}

fn of_text(alloc: Global, kind: &str, number: u64, text: &[u8]) -> Result<Vec<u8>, Trouble> {
    match kind {
        "alike" => alike(alloc, number, text),
        "find" => found(alloc, small(number), text),
        "restored" => restored(alloc, number, text),
        "text_fault" => fault_line(alloc, small(number), text),
        "interact" | "indirect" | "collect" => step(alloc, kind, number as usize, text),
        _ => Err(Trouble("no such kind")),
    }
}

fn small(number: u64) -> u32 {
    u32::try_from(number).unwrap_or(u32::MAX)
}

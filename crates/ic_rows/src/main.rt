//! The worked rows of values that are made by calls, of their words in flat form, of single steps, of the task that words
//! after the program's name ask for, and of disks and the two slots, in memory and in files. `answers` says what a row
//! may ask. What the built program shows of texts,
//! settling, rounds and refused words is in `trials/rows`.
#![tactic(auto)]

mod answers;
mod disks;
mod engines;
mod flat;
mod gathering;
mod steps;
mod task;
mod values;
mod words;

use crate::answers::Kinds;
use ic_notation::check_rows;
use std::io;

fn main(rt: HostRuntime) -> io::Result<()> {
    check_rows(&rt, rt.alloc(), &Kinds { rt: &rt })
}

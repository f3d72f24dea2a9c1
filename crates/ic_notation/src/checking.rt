//! What the programs of rows do: each row of standard input is answered, and the answer compared.

use crate::row::Row;
use crate::trouble::Trouble;
use std::alloc::Global;
use std::io::{self, Write};

/// What a program answers to the kinds of rows that it knows.
pub trait Answers {
    /// What is answered to a row.
    fn answer(&self, alloc: Global, row: &Row<'_>) -> Result<Vec<u8>, Trouble>;
}

/// How many rows were compared, and how many of them have another answer.
#[derive(Drop)]
pub struct Tally {
    rows: u64,
    wrong: u64,
}

impl Tally {
    /// No row yet.
    pub fn new() -> Tally {
        Tally { rows: 0, wrong: 0 }
    }

    /// Counts a row, and prints what is found where that is another answer.
    pub fn compare<R: Print>(
        &mut self,
        rt: &R,
        alloc: Global,
        row: &Row<'_>,
        found: Result<Vec<u8>, Trouble>,
    ) -> io::Result<()> {
        self.rows = self.rows.saturating_add(1);
        if let Some(found) = row.other_answer(alloc, found) {
            self.wrong = self.wrong.saturating_add(1);
            print!(rt; "{}: ", row.name)?;
            io::writer(rt).write_all(&found)?;
            println!(rt; "")?;
        }
        Ok(())
    }

    /// Prints the counts.
    pub fn finish<R: Print>(&self, rt: &R) -> io::Result<()> {
        println!(rt; "{} rows, {} with another answer", self.rows, self.wrong)
    }
}

/// Answers each row of standard input. A line that is empty, or begins with `--`, says nothing. It prints each row with
/// another answer, and how many rows there are.
pub fn check_rows<R: Input + Print, A: Answers>(
    rt: &R,
    alloc: Global,
    answers: &A,
) -> io::Result<()> {
    let mut tally = Tally::new();
    for line in rt.lines(alloc) {
        let line = line?;
        if let Some(row) = Row::of(&line) {
            tally.compare(rt, alloc, &row, answers.answer(alloc, &row))?;
        }
    }
    tally.finish(rt)
}

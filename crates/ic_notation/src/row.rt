//! A row, taken from its line and compared.

use crate::expansion::expanded;
use crate::trouble::Trouble;
use std::alloc::Global;

/// A row as it stands on a line.
#[derive(Drop)]
pub struct Row<'a> {
    pub name: &'a str,
    pub kind: &'a str,
    pub text: &'a str,
    pub answer: &'a str,
}

impl<'a> Row<'a> {
    /// The row of a line, where there is one. A line that begins with `--` has none.
    pub fn of(line: &'a str) -> Option<Row<'a>> {
        if line.starts_with("--") {
            return None;
        }
        let (name, rest) = line.split_once(": ")?;
        let (asked, answer) = rest.rsplit_once(" => ")?;
        let (kind, text) = asked.split_once(' ').unwrap_or((asked, ""));
        Some(Row {
            name,
            kind,
            text,
            answer,
        })
    }

    /// What is found, where it isn't what the row says.
    pub fn other_answer(&self, alloc: Global, found: Result<Vec<u8>, Trouble>) -> Option<Vec<u8>> {
        match self.compared(alloc, found) {
            Ok(found) => found,
            Err(trouble) => Vec::from_slice(alloc, trouble.0.as_bytes()).ok(),
        }
    }

    fn compared(
        &self,
        alloc: Global,
        found: Result<Vec<u8>, Trouble>,
    ) -> Result<Option<Vec<u8>>, Trouble> {
        let wanted = expanded(alloc, self.answer)?;
        let found = found?;
        Ok((found.as_slice() != wanted.as_slice()).then_some(found))
    }
}

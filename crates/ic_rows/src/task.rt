//! The words after the program's name.

use ic_args::table::table;
use ic_args::{Argument, Entry, Request, Values, read_words};
use ic_notation::Trouble;
use std::alloc::{AllocError, Global};

/// What words ask for: a word of the program, and after it what is given for each of its rows; or the first line of what is
/// shown.
pub fn task(alloc: Global, line: &str) -> Result<Vec<u8>, Trouble> {
    let words = words_of(alloc, line)?;
    let table = table();
    match read_words(alloc, table.as_slice(), words.as_slice()) {
        Ok(Request::Shown(text)) => Ok(first_line(alloc, text.as_str())?.into_bytes()),
        Ok(Request::Word(word, values)) => {
            let mut told = format!(in alloc; "{word:?}")?;
            for entry in &table {
                if line.split_whitespace().next() == Some(entry.name) {
                    tell_all(alloc, &mut told, entry, &values)?;
                }
            }
            Ok(told.into_bytes())
        }
        Err(_) => Err(Trouble("the words are refused")),
    }
}

/// The words of a line.
fn words_of(alloc: Global, line: &str) -> Result<Vec<String>, AllocError> {
    let mut words = Vec::new(alloc);
    for word in line.split_whitespace() {
        words.push(String::from_str(alloc, word)?)?;
    }
    Ok(words)
}

fn first_line(alloc: Global, text: &str) -> Result<String, AllocError> {
    String::from_str(alloc, text.lines().next().unwrap_or(""))
}

fn tell_all(
    alloc: Global,
    told: &mut String,
    entry: &Entry,
    values: &Values,
) -> Result<(), AllocError> {
    for row in entry.arguments {
        tell(alloc, told, row, values)?;
    }
    Ok(())
}

/// Tells the name of a row and its value, if one is given.
fn tell(
    alloc: Global,
    told: &mut String,
    row: &Argument,
    values: &Values,
) -> Result<(), AllocError> {
    match row {
        Argument::Flag(row) if values.flag(row) => write!(told, " {}", row.name),
        Argument::Text(row) if values.is_given(row.name) => {
            write!(told, " {}={:?}", row.name, values.text(row).unwrap_or(""))
        }
        Argument::Number(row) if values.is_given(row.name) => {
            write!(told, " {}={}", row.name, values.number(row))
        }
        Argument::Choice(row) if values.is_given(row.name) => {
            write!(told, " {}={}", row.name, values.choice(row))
        }
        Argument::Place(row) if values.is_given(row.name) => {
            write!(told, " {}={:?}", row.name, values.words(alloc, row)?)
        }
        _ => Ok(()),
    }
}

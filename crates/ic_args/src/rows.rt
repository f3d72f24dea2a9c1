//! What a row of the table says of an option, or of what stands after the options.

use crate::table::Word;

/// An option `--name`.
#[derive(Clone, Copy)]
pub struct Flag {
    /// Its name.
    pub name: &'static str,
    /// What it does.
    pub help: &'static str,
}

/// An option `--name <SHOWN>` with a text.
#[derive(Clone, Copy)]
pub struct Text {
    /// Its name.
    pub name: &'static str,
    /// What its value is called.
    pub shown: &'static str,
    /// Whether it has to be given.
    pub needed: bool,
    /// The names of what it may not stand beside.
    pub apart: &'static [&'static str],
    /// What it does.
    pub help: &'static str,
}

/// An option `--name <SHOWN>` with a number.
#[derive(Clone, Copy)]
pub struct Number {
    /// Its name.
    pub name: &'static str,
    /// What its value is called.
    pub shown: &'static str,
    /// The least number.
    pub least: u64,
    /// The most.
    pub most: u64,
    /// The number that stands where none is given, in digits, or none.
    pub default: Option<&'static str>,
    /// The names of what it may not stand beside.
    pub apart: &'static [&'static str],
    /// What it does.
    pub help: &'static str,
}

/// An option `--name <SHOWN>` with one of several words.
#[derive(Clone, Copy)]
pub struct Choice {
    /// Its name.
    pub name: &'static str,
    /// What its value is called.
    pub shown: &'static str,
    /// The words.
    pub among: &'static [&'static str],
    /// The one that stands where none is given.
    pub default: &'static str,
    /// What it does.
    pub help: &'static str,
}

/// What stands after the options.
#[derive(Clone, Copy)]
pub struct Place {
    /// Its name.
    pub name: &'static str,
    /// What it is called.
    pub shown: &'static str,
    /// Whether it has to be given.
    pub needed: bool,
    /// Whether several may be given.
    pub several: bool,
    /// What it is.
    pub help: &'static str,
}

/// A row: an option, or what stands after the options.
#[derive(Clone, Copy)]
pub enum Argument {
    /// `--name`.
    Flag(Flag),
    /// `--name <SHOWN>` with a text.
    Text(Text),
    /// `--name <SHOWN>` with a number.
    Number(Number),
    /// `--name <SHOWN>` with one of several words.
    Choice(Choice),
    /// What stands after the options.
    Place(Place),
}

/// A word of the program with its rows.
#[derive(Clone, Copy)]
pub struct Entry {
    /// The word.
    pub word: Word,
    /// Its name.
    pub name: &'static str,
    /// What it does.
    pub about: &'static str,
    /// What may stand after it.
    pub arguments: &'static [Argument],
}

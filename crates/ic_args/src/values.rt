//! The values that a word of the program is given, by the rows of the table.

ghost use Rattle.std.specs.Prelude.{◌≡◌, ◌≤◌, ◌↔◌, ℕ, Some, None, IfOk, IfSome, IfNone, codes, map, option_map, string_bytes, unwrap_or};
ghost use Rattle.ic_args.specs.Words.{IsDecimal, IsNumberOf, file_of, is_given, is_text, text_met, texts_met};

use crate::rows::{Choice, Flag, Number, Place, Text};
use clap::ArgMatches;
use clap::parser::ValueSource;
use std::alloc::{AllocError, Global};

/// What names standard input where a file is named.
const STANDARD: &str = "-";

/// The values that a word of the program is given.
#[derive(Drop)]
pub struct Values<'a> {
    /// What the parser met after the word.
    pub met: ArgMatches<'a>,
}

impl<'a> Values<'a> {
    /// The text of an option, or none.
    pub fn text(&self, row: &Text) -> Option<&'a str>
        ensures { option_map (λ text. text.now) result ≡ text_met self.now row.now.name.now }
    {
        self.met.get_str(row.name)
    }

    /// The word that stands at a place, or none.
    pub fn word(&self, row: &Place) -> Option<&'a str>
        ensures { option_map (λ text. text.now) result ≡ text_met self.now row.now.name.now }
    {
        self.met.get_str(row.name)
    }

    /// The path that stands at a place, or none where standard input is meant.
    pub fn file(&self, row: &Place) -> Option<&'a str>
        ensures { option_map (λ text. text.now) result ≡ file_of (text_met self.now row.now.name.now) }
    {
        match self.word(row) {
            Some(STANDARD) => None,
            path => path,
        }
    }

    /// The words that stand at a place, in their order.
    pub fn words(&self, alloc: Global, row: &Place) -> Result<Vec<String>, AllocError>
        ensures { IfOk result (λ words. map string_bytes words.items ≡ texts_met self.now row.now.name.now) }
    {
        match self.met.get_raw(row.name) {
            Some(words) => texts(alloc, words),
            None => Ok(Vec::new(alloc)),
        }
    }

    /// Whether a flag is given.
    pub fn flag(&self, row: &Flag) -> bool
        ensures { result ≡ is_text (codes "true") (text_met self.now row.now.name.now) }
    {
        self.met.get_str(row.name) == Some("true")
    }

    /// The word that is chosen, or the row's default.
    pub fn choice(&self, row: &Choice) -> &'a str
        ensures { result.now ≡ unwrap_or (text_met self.now row.now.name.now) row.now.default.now }
    {
        self.met.get_str(row.name).unwrap_or(row.default)
    }

    /// The number of an option, or the row's default, within the row's bounds.
    pub fn number(&self, row: &Number) -> u64
        ensures least { row.now.least ≤ row.now.most → row.now.least ≤ result }
        ensures most { result ≤ row.now.most }
        ensures value { IsNumberOf row.now (text_met self.now row.now.name.now) result }
    {
        let text = self.met.get_str(row.name).or(row.default).unwrap_or("");
        within(text, row.least, row.most)
    }

    /// The same, none where the option has no value.
    pub fn number_met(&self, row: &Number) -> Option<u64>
        ensures none { IfNone result (text_met self.now row.now.name.now ≡ None) }
        ensures least { IfSome result (λ number. row.now.least ≤ row.now.most
            → row.now.least ≤ number) }
        ensures most { IfSome result (λ number. number ≤ row.now.most) }
        ensures value { IfSome result (IsNumberOf row.now (text_met self.now row.now.name.now)) }
    {
        let text = self.met.get_str(row.name)?;
        Some(within(text, row.least, row.most))
    }

    /// Whether an option is given, so that its value is no default.
    pub fn is_given(&self, name: &str) -> bool
        ensures { result ≡ is_given self.now name.now }
    {
        matches!(self.met.value_source(name), Some(ValueSource::CommandLine))
    }
}

/// The number that a text is, within bounds. The parser has refused any other text, so the bounds change nothing.
fn within(text: &str, least: u64, most: u64) -> u64
    ensures least { least ≤ most → least ≤ result }
    ensures most { result ≤ most }
    ensures value { (n : ℕ) → IsDecimal text.now n → least ≤ n → n ≤ most → result ≡ n }
{
    u64::from_str_radix(text, 10)
        .unwrap_or(least)
        .max(least)
        .min(most)
}

/// Texts that own their bytes.
fn texts(alloc: Global, borrowed: &[&str]) -> Result<Vec<String>, AllocError>
    ensures { IfOk result (λ owned. map string_bytes owned.items
        ≡ map (λ text. text.now) borrowed.now) }
{
    let mut owned = Vec::new(alloc);
    for text in borrowed {
        owned.push(String::from_str(alloc, text)?)?;
    }
    Ok(owned)
}

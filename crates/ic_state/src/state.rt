//! How far a reduction has come.

use ic_flat::Word;

/// A text with the rules of a reduction, and how far it has come.
#[derive(Drop)]
pub struct State {
    /// A text that has the rules and the symbols of the system that is reduced.
    pub text: Vec<u8>,
    /// The words of the configuration that was reached, the interface's before the equations'.
    pub words: Vec<Word>,
    /// How many terms its interface has.
    pub terms: u64,
    /// How many interactions were made.
    pub interactions: u64,
    /// How often each rule fired, in the order of the rules.
    pub by_rule: Vec<u64>,
    /// Whether the reduction has ended, with no interaction left.
    pub ended: bool,
    /// For how many milliseconds it has gone on.
    pub millis: u64,
    /// How many rounds are over, where it is reduced by rounds.
    pub rounds: Option<u64>,
    /// Whether each word is written in four bytes, as `are_narrow` allows. Else each is in eight.
    pub narrow: bool,
}

/// What the first numbers of a state say.
#[derive(Clone, Copy)]
pub struct StateHead {
    /// How many interactions were made.
    pub interactions: u64,
    /// Whether the reduction has ended.
    pub ended: bool,
    /// How many rules there are.
    pub rules: u64,
    /// How many words there are.
    pub words: u64,
    /// For how many milliseconds it has gone on.
    pub millis: u64,
    /// How many rounds are over, where it is reduced by rounds.
    pub rounds: Option<u64>,
    /// Whether each word is written in four bytes, in place of eight.
    pub narrow: bool,
}

//! A first pass over the bytes of a text: whether they are a phrase of the grammar, and of how many words. It takes
//! no memory, so that a text that is no phrase fills none.

ghost use Rattle.std.specs.Prelude.{◌≡◌, ◌≤◌, ◌+◌, ◌-◌, ◌^◌, [], ◌∷◌, Some, None, IfErr, length};
ghost use Rattle.std.specs.Bool.{OnTrue, OnFalse};
ghost use Rattle.ic_text.specs.inner.Survey.{IsWithin, HasRisen, taken, taken_at, counted, counts_in, surveyed, Tells};
ghost use Rattle.ic_text.specs.Source.{IsPhrase, phrase_words};
ghost use Rattle.ic_text.specs.SystemSource.{SystemPhrase, IsSystemPhrase, system_words};
ghost use Rattle.ic_text.specs.SystemText.{SpellsSystem};
ghost use Rattle.ic_text.specs.Token.{word, word_of, tokens};

use crate::syntax::{Part, State};
use crate::token::{Mark, is_blank, is_word_byte, mark_of};

/// How many words a text has.
#[derive(Clone, Copy)]
pub(crate) struct Counts {
    pub words: usize,
}

/// A check of syntax that is on its way over a text, and what it has counted so far. It is changed in place, since a
/// byte takes less than a copy.
#[derive(Clone, Copy)]
pub(crate) struct Progress {
    state: State,
    counts: Counts,
}

impl Progress {
    /// Takes a word, if the grammar has such a word there.
    #[inline(always)]
    fn take_word(&mut self, text: &[u8]) -> bool
        requires { IsWithin (2 ^ 64 - 2) self.old }
        ensures taken { OnTrue result (Some self.new ≡ taken (Some self.old) (word text.now ∷ [])) }
        ensures refused { OnFalse result (None ≡ taken (Some self.old) (word text.now ∷ [])) }
        ensures words { self.new.counts.words ≡ self.old.counts.words + 1 }
        ensures depth { self.new.state.depth ≡ self.old.state.depth }
    {
        self.counts.words += 1;
        self.state.take_word(text)
    }

    /// Takes the word that a run of word bytes makes, if it has a byte.
    #[inline(always)]
    fn take_run(&mut self, run: &[u8]) -> bool
        requires { IsWithin (2 ^ 64 - 2) self.old }
        ensures taken { OnTrue result (Some self.new ≡ taken (Some self.old) (word_of run.now)) }
        ensures refused { OnFalse result (None ≡ taken (Some self.old) (word_of run.now)) }
        ensures risen { OnTrue result (HasRisen (length run.now) self.old self.new) }
    {
        run.is_empty() || self.take_word(run)
    }

    /// Takes a byte that is no word byte: a mark or a blank.
    fn take_other(&mut self, byte: u8) -> bool
        requires { IsWithin (2 ^ 64 - 2) self.old }
        ensures taken { OnTrue result (Some self.new ≡ taken_at self.old byte) }
        ensures refused { OnFalse result (None ≡ taken_at self.old byte) }
        ensures risen { OnTrue result (HasRisen 1 self.old self.new) }
    {
        match mark_of(byte) {
            Some(mark) => self.state.take_mark(mark),
            None => is_blank(byte),
        }
    }

    /// The same, with the commonest bytes tested first.
    #[inline(always)]
    fn take_byte(&mut self, byte: u8) -> bool
        requires { IsWithin (2 ^ 64 - 2) self.old }
        ensures taken { OnTrue result (Some self.new ≡ taken_at self.old byte) }
        ensures refused { OnFalse result (None ≡ taken_at self.old byte) }
        ensures risen { OnTrue result (HasRisen 1 self.old self.new) }
    {
        match byte {
            b'(' => self.state.take_mark(Mark::Open),
            b')' => self.state.take_mark(Mark::Close),
            b',' => self.state.take_mark(Mark::Comma),
            b'=' => self.state.take_mark(Mark::Equals),
            b' ' => true,
            _ => self.take_other(byte),
        }
    }

    /// What was counted, if the check has come to the end of the grammar.
    fn finish(self) -> Option<Counts>
        ensures { result ≡ counted (Some self) }
    {
        matches!(self.state.part, Part::End).then_some(self.counts)
    }
}

/// How many words a text has that leads from the beginning of a part to the end, or the place from where on the
/// grammar has no such text. Takes one pass, and no memory.
#[inline(never)]
fn survey(part: Part, text: &[u8]) -> Result<Counts, usize>
    ensures counts { counts_in result ≡ surveyed part (tokens text.now) }
    ensures placed { IfErr result (λ at. at ≤ length text.now) }
{
    let mut progress = Progress {
        state: State::new(part),
        counts: Counts { words: 0 },
    };
    let mut start = 0;
    for (place, byte) in text.iter().enumerate() {
        if !is_word_byte(*byte) {
            if !progress.take_run(&text[start..place]) {
                return Err(start);
            }
            if !progress.take_byte(*byte) {
                return Err(place);
            }
            start = place + 1;
        }
    }
    if !progress.take_run(&text[start..]) {
        return Err(start);
    }
    match progress.finish() {
        Some(counts) => Ok(counts),
        None => Err(text.len()),
    }
}

/// How many words a configuration has, or where a text that spells none has its fault.
pub(crate) fn survey_config(text: &[u8]) -> Result<Counts, usize>
    ensures counts { Tells IsPhrase phrase_words text.now (counts_in result) }
    ensures placed { IfErr result (λ at. at ≤ length text.now) }
{
    survey(Part::Begin, text)
}

/// How many words a system has, or where a text that spells none has its fault.
pub(crate) fn survey_system(text: &[u8]) -> Result<Counts, usize>
    ensures counts { Tells IsSystemPhrase system_words text.now (counts_in result) }
    ensures placed { IfErr result (λ at. at ≤ length text.now) }
{
    survey(Part::Start, text)
}

/// Whether a text spells a system, whatever it means. Takes one pass, and no memory.
pub fn is_system(text: &[u8]) -> bool
    ensures spelled { OnTrue result ((s : SystemPhrase) × SpellsSystem text.now s) }
    ensures none { OnFalse result ((s : SystemPhrase) → ¬ SpellsSystem text.now s) }
{
    survey_system(text).is_ok()
}

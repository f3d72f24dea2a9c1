//! The grammar: what may come next in a configuration or a system, without a stack of what is open.

ghost use Rattle.std.specs.Prelude.{◌≡◌, ◌+◌, ◌<◌, ◌≤◌, ◌^◌, Some, None};
ghost use Rattle.std.specs.Bool.{OnTrue, OnFalse};
ghost use Rattle.ic_text.specs.inner.Braces.{split_at_brace};
ghost use Rattle.ic_text.specs.inner.Syntax.{agent_spot, word_spot, end_step, empty_step, part_step};
ghost use Rattle.ic_text.specs.inner.Syntax.{word_step, inner_step, mark_step, at_beginning};

use crate::name::is_name;
use crate::token::Mark;
use ic_term::is_symbol;

/// The part of a system or a configuration that comes next.
#[derive(Clone, Copy)]
pub(crate) enum Part {
    /// A system, from its `{` on.
    Start,
    /// The left side of a rule.
    RuleLeft,
    /// The `<` of a rule, after its `>`.
    Turn,
    /// The right side of a rule.
    RuleRight,
    /// A configuration, from its `<` on.
    Begin,
    /// The interface.
    Interface,
    /// The left side of an equation.
    Left,
    /// The right side of an equation.
    Right,
    /// Nothing.
    End,
}

/// What may come next within a part.
#[derive(Clone, Copy)]
pub(crate) enum Spot {
    /// A term, or the end of the part.
    First,
    /// A term.
    Due,
    /// An agent, or the end of the part.
    FirstAgent,
    /// An agent.
    DueAgent,
    /// What follows a symbol.
    Symbol,
    /// What follows a term.
    After,
}

/// How far a check has come. `depth` counts the parentheses that are open.
#[derive(Clone, Copy)]
pub(crate) struct State {
    pub part: Part,
    spot: Spot,
    depth: usize,
}

/// What follows a word where an agent may begin.
#[inline(always)]
fn agent_spot(text: &[u8]) -> Option<Spot>
    ensures { result ≡ agent_spot text.now }
{
    is_symbol(text).then_some(Spot::Symbol)
}

/// What follows a word where a term may begin.
fn word_spot(text: &[u8]) -> Option<Spot>
    ensures { result ≡ word_spot text.now }
{
    if is_name(text) {
        Some(Spot::After)
    } else {
        agent_spot(text)
    }
}

/// What follows a term outside all parentheses.
fn end_step(part: Part, mark: Mark) -> Option<(Part, Spot)>
    ensures { result ≡ end_step part mark }
{
    match (part, mark) {
        (Part::Start, Mark::LeftBrace) => Some((Part::RuleLeft, Spot::FirstAgent)),
        (Part::RuleLeft, Mark::Greater) => Some((Part::Turn, Spot::After)),
        (Part::Turn, Mark::Less) => Some((Part::RuleRight, Spot::DueAgent)),
        (Part::RuleRight, Mark::Semicolon) => Some((Part::RuleLeft, Spot::DueAgent)),
        (Part::RuleRight, Mark::RightBrace) => Some((Part::Begin, Spot::After)),
        (Part::Begin, Mark::Less) => Some((Part::Interface, Spot::First)),
        (Part::Interface, Mark::Bar) => Some((Part::Left, Spot::First)),
        (Part::Interface, Mark::Comma) => Some((Part::Interface, Spot::Due)),
        (Part::Left, Mark::Equals) => Some((Part::Right, Spot::Due)),
        (Part::Right, Mark::Comma) => Some((Part::Left, Spot::Due)),
        (Part::Right, Mark::Greater) => Some((Part::End, Spot::After)),
        _ => None,
    }
}

/// What follows where a part may be empty.
fn empty_step(part: Part, mark: Mark) -> Option<(Part, Spot)>
    ensures { result ≡ empty_step part mark }
{
    match (part, mark) {
        (Part::RuleLeft, Mark::RightBrace) => Some((Part::Begin, Spot::After)),
        (Part::Interface, Mark::Bar) => Some((Part::Left, Spot::First)),
        (Part::Left, Mark::Greater) => Some((Part::End, Spot::After)),
        _ => None,
    }
}

/// A mark outside all parentheses.
fn part_step(part: Part, spot: Spot, mark: Mark) -> Option<(Part, Spot)>
    ensures { result ≡ part_step part spot mark }
{
    match spot {
        Spot::First | Spot::FirstAgent => empty_step(part, mark),
        Spot::Due | Spot::DueAgent => None,
        Spot::Symbol | Spot::After => end_step(part, mark),
    }
}

impl State {
    /// Where the check of a part begins, in front of its first mark.
    pub(crate) fn new(part: Part) -> State
        ensures { result ≡ at_beginning part }
    {
        State {
            part,
            spot: Spot::After,
            depth: 0,
        }
    }

    /// Takes a word, if the grammar has such a word here.
    #[inline(always)]
    pub(crate) fn take_word(&mut self, text: &[u8]) -> bool
        ensures taken { OnTrue result (Some self.new ≡ word_step self.old text.now) }
        ensures refused { OnFalse result (None ≡ word_step self.old text.now) }
        ensures depth { self.new.depth ≡ self.old.depth }
    {
        let found = match self.spot {
            Spot::First | Spot::Due => word_spot(text),
            Spot::FirstAgent | Spot::DueAgent => agent_spot(text),
            Spot::Symbol | Spot::After => None,
        };
        let Some(spot) = found else {
            return false;
        };
        self.spot = spot;
        true
    }

    /// Takes a mark, if a term has such a mark here: `(` after its symbol, `,` or `)` within parentheses.
    #[inline(always)]
    fn take_inside(&mut self, mark: Mark) -> bool
        requires { self.old.depth + 1 < 2 ^ 64 }
        ensures taken { OnTrue result
            (Some (self.new.spot, self.new.depth) ≡ inner_step self.old mark) }
        ensures refused { OnFalse result (None ≡ inner_step self.old mark) }
        ensures left { OnFalse result (self.new ≡ self.old) }
        ensures part { self.new.part ≡ self.old.part }
        ensures rises { self.new.depth ≤ self.old.depth + 1 }
    {
        match (self.spot, mark) {
            (Spot::Symbol, Mark::Open) => {
                self.spot = Spot::Due;
                self.depth += 1;
                true
            }
            (Spot::Symbol | Spot::After, Mark::Comma) if self.depth > 0 => {
                self.spot = Spot::Due;
                true
            }
            (Spot::Symbol | Spot::After, Mark::Close) if self.depth > 0 => {
                self.spot = Spot::After;
                self.depth -= 1;
                true
            }
            _ => false,
        }
    }

    /// Takes a mark outside all parentheses, if the grammar has such a mark here.
    #[inline(always)]
    fn take_outside(&mut self, mark: Mark) -> bool
        requires { self.old.depth ≡ 0 }
        ensures taken { OnTrue result
            (Some (self.new.part, self.new.spot) ≡ part_step self.old.part self.old.spot mark) }
        ensures refused { OnFalse result (None ≡ part_step self.old.part self.old.spot mark) }
        ensures depth { self.new.depth ≡ 0 }
    {
        let Some((part, spot)) = part_step(self.part, self.spot, mark) else {
            return false;
        };
        self.part = part;
        self.spot = spot;
        true
    }

    /// Takes a mark, if the grammar has such a mark here: within a term, or outside all parentheses.
    #[inline(always)]
    pub(crate) fn take_mark(&mut self, mark: Mark) -> bool
        requires { self.old.depth + 1 < 2 ^ 64 }
        ensures taken { OnTrue result (Some self.new ≡ mark_step self.old mark) }
        ensures refused { OnFalse result (None ≡ mark_step self.old mark) }
        ensures rises { self.new.depth ≤ self.old.depth + 1 }
    {
        self.take_inside(mark) || (self.depth == 0 && self.take_outside(mark))
    }
}

/// The bytes before the first `}`, and those after it.
pub(crate) fn split_at_brace(text: &[u8]) -> (&[u8], &[u8])
    ensures { (result.0.now, result.1.now) ≡ split_at_brace text.now }
{
    for (place, byte) in text.iter().enumerate() {
        if *byte == b'}' {
            return (&text[..place], &text[place + 1..]);
        }
    }
    (text, &[])
}

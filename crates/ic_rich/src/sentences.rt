//! What is said of a text that isn't unfolded.

use crate::fault::{
    LetReason, NestReason, Reason, RuleReason, ShorthandReason, UseReason, WireReason,
};
use crate::foreign::foreign_words;
use std::alloc::{AllocError, Global};

/// What is amiss at the place of a refusal, where a text goes on so.
pub(crate) fn sentence(alloc: Global, reason: Reason, rest: &[u8]) -> Result<Vec<u8>, AllocError> {
    let (before, after) = words_of(reason);
    let mut sentence = before.to_vec(alloc)?;
    if !after.is_empty() {
        sentence.extend_from_slice(name_at(rest))?;
        sentence.extend_from_slice(after)?;
    }
    Ok(sentence)
}

/// The name with which a text begins.
fn name_at(rest: &[u8]) -> &[u8] {
    for (place, byte) in rest.iter().enumerate() {
        if !byte.is_ascii_alphanumeric() && *byte != b'_' {
            return &rest[..place];
        }
    }
    rest
}

/// What is said before the name that stands at the place, and after it, if it is told.
type Words = (&'static [u8], &'static [u8]);

/// What is said of a text for this reason.
fn words_of(reason: Reason) -> Words {
    match reason {
        Reason::Rule(reason) => rule_words(reason),
        Reason::Wire(reason) => wire_words(reason),
        Reason::Nest(reason) => nest_words(reason),
        Reason::Shorthand(reason) => shorthand_words(reason),
        Reason::Let(reason) => let_words(reason),
        Reason::Use(reason) => use_words(reason),
        Reason::Foreign(reason) => foreign_words(reason),
        Reason::TooLong => (
            b"what this stands for is too long: a text has at most 8589934592 bytes",
            b"",
        ),
    }
}

/// What is said of the form of a rule by an arrow, or of a term.
fn rule_words(reason: RuleReason) -> Words {
    match reason {
        RuleReason::NoSide => (
            b"a rule by => begins as A(x,y) >< B(z): a symbol is looked for here, which begins with A to Z or 0 to 9",
            b"",
        ),
        RuleReason::NoName => (
            b"left of => an argument is a name, or a pattern as S(x): one is looked for here",
            b"",
        ),
        RuleReason::NoMeeting => (
            b">< is looked for here, between the two sides of a rule",
            b"",
        ),
        RuleReason::NoArrow => (b"=> is looked for here, after both sides of a rule", b""),
        RuleReason::NoTerm => (
            b"a term is looked for here: a name, or a symbol, which may have arguments",
            b"",
        ),
        RuleReason::NoSign => (b"~ or = is looked for here, between two terms", b""),
        RuleReason::NoClosing => (b", or ) is looked for here", b""),
        RuleReason::NoEnd => (b", or the end of the rule is looked for here", b""),
    }
}

/// What is said of the names and equations of a rule by an arrow.
fn wire_words(reason: WireReason) -> Words {
    match reason {
        WireReason::TwiceLeft => (
            b"left of => each name stands once: ",
            b" stands there twice",
        ),
        WireReason::NotRight => (
            b"a name left of => stands once right of it, and this one doesn't: to erase it, write ",
            b" ~ Era",
        ),
        WireReason::TwiceRight => (
            b"a name left of => stands once right of it, and this one twice: to copy it, write ",
            b" ~ Dup(y,z)",
        ),
        WireReason::OnceRight => (
            b"a name that isn't left of => stands right of it twice: ",
            b" stands once",
        ),
        WireReason::ThriceRight => (
            b"a name that isn't left of => stands right of it twice: ",
            b" stands three times",
        ),
        WireReason::Meeting => (
            b"right of => no two agents meet: write what these two come to, or one agent more, which has rules of its own",
            b"",
        ),
        WireReason::Circle => (
            b"right of => this equation leads round to itself, and to no name left of it",
            b"",
        ),
    }
}

/// What is said of rules with patterns.
fn nest_words(reason: NestReason) -> Words {
    match reason {
        NestReason::Overlap(_) => (b"some agents fit two rules, this one and that in ", b""),
        NestReason::Unordered(_) => (
            b"no argument is a pattern in each rule of these symbols, in this one and in that in ",
            b"",
        ),
        NestReason::Arity => (
            b"a symbol has one number of arguments, and an earlier pattern has another one",
            b"",
        ),
        NestReason::Wide => (
            b"what waits for this pattern would be an agent of more than 15 arguments",
            b"",
        ),
        NestReason::Itself => (
            b"where a symbol meets itself the arguments left of => are names",
            b"",
        ),
    }
}

/// What is said of a number, a list, a pair, or their declaration.
fn shorthand_words(reason: ShorthandReason) -> Words {
    match reason {
        ShorthandReason::NoSymbol => (
            b"a symbol is looked for here: number S Z, list Cons Nil and pair Pair say what numbers, lists and pairs stand for",
            b"",
        ),
        ShorthandReason::NoEndOfRule => (b"; or } is looked for here", b""),
        ShorthandReason::Again => (b"an earlier ", b" says what these stand for"),
        ShorthandReason::NoList => (
            b"write list Cons Nil among the rules, which says what a list stands for",
            b"",
        ),
        ShorthandReason::NoPair => (
            b"write pair Pair among the rules, which says what a pair stands for",
            b"",
        ),
        ShorthandReason::NotTwo => (b"a pair has two terms, as (a,b)", b""),
        ShorthandReason::NoListEnd => (
            b", or ] is looked for here, and after the term that follows | only ]",
            b"",
        ),
        ShorthandReason::NoListOpen => (b"no list is open here", b""),
        ShorthandReason::NoPower => (
            b"after ^ a number and a term in parentheses are looked for, as in S^12(x)",
            b"",
        ),
    }
}

/// What is said of a `let`.
fn let_words(reason: LetReason) -> Words {
    match reason {
        LetReason::NoName => (b"a name is looked for here, as in let two = S(S(Z))", b""),
        LetReason::NoSign => (b"= is looked for here, as in let two = S(S(Z))", b""),
        LetReason::NoEnd => (
            b"after the term of a let another let or the configuration is looked for",
            b"",
        ),
        LetReason::NotClosed => (
            b"what let names has no names but those of an earlier let: ",
            b" is none",
        ),
        LetReason::Again => (b"an earlier let names ", b" already"),
        LetReason::Long => (b"a term that let names has at most 16777216 bytes", b""),
    }
}

/// What is said of a `use`.
fn use_words(reason: UseReason) -> Words {
    match reason {
        UseReason::NoPath => (
            b"a path in quotes is looked for here, as in use \"nat.rich\"",
            b"",
        ),
        UseReason::NoFile => (b"the file that is named here can't be read", b""),
        UseReason::ManyFiles => (b"a text uses at most 63 files", b""),
        UseReason::Circle => (b"the file that is named here uses this one, too", b""),
    }
}

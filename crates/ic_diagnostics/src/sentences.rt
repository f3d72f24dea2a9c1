//! What is amiss at a place, in one sentence.

use crate::sights::Sight;
use crate::stands::Stand;
use crate::telling::Kind;
use ic_text::{Limit, Limits};

/// What names and symbols are, where a word is neither.
const NAMES: &[u8] = b"a name is a letter a to z, maybe with a number from 1 on, \
and a symbol begins with A to Z or 0 to 9; `icserve expand` takes long names";

/// What names and symbols are, where a name is given arguments.
const NO_ARGUMENTS: &[u8] = b"a name has no arguments: names begin with a to z, and symbols, \
which may have them, with A to Z or 0 to 9";

/// What is looked for after a symbol that stands there, if it is told.
fn after_symbol(stand: Stand) -> Option<&'static [u8]> {
    match stand {
        Stand::First => Some(b"( or >< is looked for here"),
        Stand::Second => Some(b"( or ; or } is looked for here"),
        Stand::Interface => Some(b"( or , or | is looked for here"),
        Stand::Left => Some(b"( or = is looked for here"),
        Stand::Right => Some(b"( or , or > is looked for here"),
        Stand::Front | Stand::Rules | Stand::Over => None,
    }
}

/// What is looked for after any other term that stands there, if it is told.
fn after_term(stand: Stand) -> Option<&'static [u8]> {
    match stand {
        Stand::First => Some(b">< is looked for here"),
        Stand::Second => Some(b"; or } is looked for here"),
        Stand::Interface => Some(b", or | is looked for here"),
        Stand::Left => Some(b"= is looked for here"),
        Stand::Right => Some(b", or > is looked for here"),
        Stand::Front | Stand::Rules | Stand::Over => None,
    }
}

/// What is looked for after a mark, if it is told.
fn after_mark(kind: Kind, byte: u8) -> Option<&'static [u8]> {
    match (byte, kind) {
        (b'(' | b',' | b'=', _) => Some(b"a term is looked for here"),
        (b'|', _) => Some(b"a term or > is looked for here"),
        (b'<', _) => Some(b"a term or | is looked for here"),
        (b'>', _) => Some(b"nothing may follow a configuration"),
        (b'{', Kind::System) => Some(b"a symbol or } is looked for here"),
        (b';', Kind::System) => Some(b"a symbol is looked for here"),
        (b'}', Kind::System) => Some(b"< is looked for here"),
        _ => None,
    }
}

/// What is amiss in a text of either kind, if it is told by what stands there alone.
fn common_sentence(sight: Sight) -> Option<&'static [u8]> {
    match sight {
        Sight::Comment => {
            Some(b"there are no comments; `icserve expand` takes out those that begin with #")
        }
        Sight::OrderMark => Some(b"a byte order mark stands before the text: take it out"),
        Sight::NoName => Some(NAMES),
        Sight::NoSymbol => Some(b"a symbol has letters and digits only"),
        Sight::Applied => Some(NO_ARGUMENTS),
        Sight::Empty => Some(b"a symbol without arguments has no parentheses"),
        Sight::Trailing => Some(b"there is no , at the end of a list"),
        Sight::Equated => { Some(b"the interface and | come before the equations: <r|Add(r,Z)=Z>") }
        Sight::Late => Some(b"the rules come before the configuration"),
        Sight::Argument(true) => Some(b"( or , or ) is looked for here"),
        Sight::Argument(false) => Some(b", or ) is looked for here"),
        Sight::After(stand, true) => after_symbol(stand),
        Sight::After(stand, false) => after_term(stand),
        _ => None,
    }
}

/// What is amiss where a configuration doesn't go on.
fn config_sentence(sight: Sight) -> &'static [u8] {
    match sight {
        Sight::Blank => b"the text is empty: a configuration is <INTERFACE|EQUATIONS>",
        Sight::End => b"the text ends before its configuration does: <INTERFACE|EQUATIONS>",
        Sight::SystemMark => b"a configuration begins with <, and this is a system",
        Sight::CommandWord => b"a configuration begins with <, and commands are served",
        Sight::After(_, _) | Sight::AfterMark(_) => b"no configuration goes on with this",
        _ => b"a configuration begins with <",
    }
}

/// What is amiss where a system doesn't go on.
fn system_sentence(sight: Sight) -> &'static [u8] {
    match sight {
        Sight::Blank => b"the text is empty: a system is {RULES} <INTERFACE|EQUATIONS>",
        Sight::End => b"the text ends before its system does: {RULES} <INTERFACE|EQUATIONS>",
        Sight::ConfigMark => {
            b"a system begins with {, and this is a configuration: {} before it makes it a system"
        }
        Sight::CommandWord => b"a system begins with {, and commands are served",
        Sight::Small => b"both symbols of a rule begin with A to Z or 0 to 9",
        Sight::Expanded => b"`icserve expand` writes the rules for which copy and erase stand",
        Sight::Ended => b"there is no ; before }",
        Sight::Listed => b"rules are separated by ;",
        Sight::Crossing => b"< is looked for here",
        Sight::Crossed => b"a symbol is looked for here",
        Sight::After(_, _) | Sight::AfterMark(_) => b"no system goes on with this",
        _ => b"a system begins with {",
    }
}

/// What is amiss where no text of a kind goes on.
pub(crate) fn syntax_sentence(kind: Kind, sight: Sight) -> &'static [u8] {
    let told = match sight {
        Sight::AfterMark(byte) => after_mark(kind, byte),
        _ => common_sentence(sight),
    };
    match (told, kind) {
        (Some(words), _) => words,
        (None, Kind::Config) => config_sentence(sight),
        (None, Kind::System) => system_sentence(sight),
    }
}

/// What is amiss where a limit of what is served is passed.
fn served_sentence(limit: Limit) -> &'static [u8] {
    match limit {
        Limit::TextBytes => b"a text has at most 262144 bytes",
        Limit::SymbolBytes => b"a symbol has at most 32 bytes",
        Limit::Arguments => b"a symbol has at most 15 arguments",
        Limit::NameNumber => b"the number of a name is at most 4294967295",
        Limit::Symbols => b"a text has at most 64 different symbols",
        Limit::Rules => b"a system has at most 256 rules",
        Limit::RuleNodes => b"the arguments of all rules together have at most 2048 nodes",
        Limit::Interface => b"an interface has at most 64 terms",
        Limit::Nodes => b"a configuration has at most 8192 nodes",
    }
}

/// What is amiss where a wide limit is passed.
fn wide_sentence(limit: Limit) -> &'static [u8] {
    match limit {
        Limit::TextBytes => b"a text has at most 8589934592 bytes",
        Limit::Interface => b"an interface has at most 2147483648 terms",
        Limit::Nodes => b"a configuration has at most 2147483648 nodes",
        Limit::Symbols => b"a text has at most 65536 different symbols",
        Limit::Rules => b"a system has at most 2147483648 rules",
        Limit::RuleNodes => b"the arguments of one rule have at most 2048 nodes",
        Limit::SymbolBytes | Limit::Arguments | Limit::NameNumber => served_sentence(limit),
    }
}

/// What is amiss where a limit is passed, one of these.
pub(crate) fn limit_sentence(limits: Limits, limit: Limit) -> &'static [u8] {
    match limits {
        Limits::Served => served_sentence(limit),
        Limits::Wide => wide_sentence(limit),
    }
}

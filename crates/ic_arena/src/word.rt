//! Words: what a term begins with.

ghost use Rattle.std.specs.Prelude.{◌≡◌, ◌+◌, ◌<◌, ◌^◌};
ghost use Rattle.ic_arena.specs.Word.{name_word, agent_word};

/// The tag of a name.
pub const NAME: u32 = 0;

/// The tag of a name that the given configuration has once. It stays to the end, as an agent without a rule does.
pub const GIVEN: u32 = 0xffff_fffd;

/// The mark of a name for which nothing waits. No term begins with it.
pub const IDLE: u32 = 0xffff_fffe;

/// The mark of a place that is free. No term begins with it.
pub const FREE: u32 = 0xffff_ffff;

/// No place: the list of free places ends.
pub(crate) const NONE: u32 = 0xffff_ffff;

/// What a term begins with: a name, or an agent with the place of its arguments. An agent without arguments has none.
#[derive(Clone, Copy)]
pub struct Word {
    pub tag: u32,
    pub index: u32,
}

impl Word {
    pub fn name(index: u32) -> Word
        ensures { result ≡ name_word index }
    {
        Word { tag: NAME, index }
    }

    /// An agent of a symbol, with the place of its arguments. Its tag is the symbol's number and one.
    pub fn agent(symbol: u32, index: u32) -> Word
        requires { symbol + 1 < 2 ^ 32 }
        ensures { result ≡ agent_word symbol index }
    {
        Word {
            tag: symbol + 1,
            index,
        }
    }
}

//! Memory for words that are to come.

ghost use Rattle.std.specs.Prelude.{◌≡◌, ◌+◌, ◌≤◌, length, take, OnOk};

use crate::word::{FREE, Word};
use std::alloc::AllocError;

/// Besides what is asked for, a part of the words that are used, so large, is taken.
const SPARE_PART: usize = 64;

/// Sees that so many words more stand behind those that are used. Where that is refused, they stay as they are.
#[inline(always)]
pub(crate) fn grow(words: &mut Vec<Word>, used: usize, more: usize) -> Result<(), AllocError>
    requires { used ≤ length words.old.items }
    ensures used { take used words.new.items ≡ take used words.old.items }
    ensures longer { length words.old.items ≤ length words.new.items }
    ensures room { OnOk result (used + more ≤ length words.new.items) }
{
    let room = words.len() - used;
    if more <= room {
        return Ok(());
    }
    lengthen(words, more - room, used / SPARE_PART)
}

/// Makes words more by so many, which lack, and by some besides, so that this comes seldom where few are asked for at a time.
#[cold]
#[inline(never)]
fn lengthen(words: &mut Vec<Word>, lack: usize, besides: usize) -> Result<(), AllocError>
    ensures same { take (length words.old.items) words.new.items ≡ words.old.items }
    ensures longer { length words.old.items ≤ length words.new.items }
    ensures room { OnOk result (length words.old.items + lack ≤ length words.new.items) }
{
    let more = lack.saturating_add(besides);
    words.reserve(more)?;
    let spare = Word {
        tag: FREE,
        index: 0,
    };
    words.resize(words.len() + more, spare)
}

//! Whether settling makes no step.

ghost use Rattle.std.specs.Prelude.{◌≡◌, ◌+◌, ◌++◌, ◌≤◌, ◌<◌, length, is_none};
ghost use Rattle.std.specs.List.{flat_map, list_any};
ghost use Rattle.std.specs.List.Sorted.{IsNonDecreasing};
ghost use Rattle.ic_settle.specs.Settling.{settling_step};
ghost use Rattle.ic_settle.specs.lemmas.Ended.{is_applicable, has_applicable};
ghost use Rattle.ic_flat.specs.Words.{IsWhole, word_names};
ghost use Rattle.ic_flat_rules.specs.Standing.{tree_at, IsTermAt};

use crate::places::{equations_place, sides_at};
use arrayvec::ArrayVec;
use ic_flat::{Flat, Word};
use ic_settle::is_twice_in;

/// The names of a configuration, each as often as it occurs: no more than its nodes.
type Names = ArrayVec<u64, 8_192>;

/// Whether settling takes no step. Takes n log n steps for n nodes, and no memory except for a
/// table of names on the stack (64 KiB); where there is no equation, one step and no table.
pub fn is_settled(flat: &Flat) -> bool
    ensures { result ≡ is_none (settling_step flat.now) }
{
    flat.equations_len() == 0 || has_no_applicable(flat)
}

/// The same, by a table of the names. It isn't inlined, since who calls it would pay for the stack of that table.
#[inline(never)]
fn has_no_applicable(flat: &Flat) -> bool
    ensures { result ≡ is_none (settling_step flat.now) }
{
    let mut names = ArrayVec::new();
    push_names(flat.words(), &mut names);
    names.sort_unstable();
    !any_applicable(names.as_slice(), flat)
}

/// Appends the names of words, each as often as it occurs.
fn push_names(words: &[Word], names: &mut Names)
    requires { length names.old.items + length words.now ≤ 8192 }
    ensures { names.new.items ≡ names.old.items ++ flat_map word_names words.now }
{
    for word in words {
        if let Word::Name(name) = *word {
            names.push(name);
        }
    }
}

fn any_applicable(names: &[u64], flat: &Flat) -> bool
    requires { IsNonDecreasing names.now }
    ensures { result ≡ list_any (has_applicable names.now) flat.now.equations }
{
    let words = flat.words();
    let mut place = equations_place(flat);
    while place < words.len() {
        let sides = sides_at(words, place);
        if is_applicable(names, words, sides.left, sides.right, sides.end)
            || is_applicable(names, words, sides.right, sides.left, sides.right)
        {
            return true;
        }
        place = sides.end;
    }
    false
}

/// Whether the side at a place is a name that occurs outside of its equation, where these are all
/// names by their numbers and the other side stands between these places.
fn is_applicable(names: &[u64], words: &[Word], side: usize, other: usize, end: usize) -> bool
    requires sorted { IsNonDecreasing names.now }
    requires whole { IsWhole words.now }
    requires there { side < length words.now }
    requires other { IsTermAt words.now other end }
    ensures { result ≡ is_applicable names.now (tree_at words.now side) (tree_at words.now other) }
{
    match words[side] {
        Word::Name(name) => {
            !words[other..end].contains(&Word::Name(name)) && is_twice_in(names, name)
        },
        Word::Agent(_, _) => false,
    }
}

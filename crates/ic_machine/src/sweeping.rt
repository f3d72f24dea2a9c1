//! Names that wait for names, put through.

ghost use Rattle.std.specs.Prelude.{◌≡◌, ℕ, ◌^◌, ◌<◌, ◌≤◌, List, [], ◌++◌, length};
ghost use Rattle.ic_arena.specs.Piece.{Piece};
ghost use Rattle.ic_arena.specs.Tables.{names_pieces};
ghost use Rattle.ic_machine.specs.Plan.{Plans};
ghost use Rattle.ic_machine.specs.Steps.{Steps};
ghost use Rattle.ic_machine.specs.inner.Sweeping.{IsThrough, IsRoomy};

use crate::stamps::Stamps;
use ic_arena::{IDLE, NAME, Names};

/// Puts each name through.
pub(crate) fn sweep(names: &mut Names, stamps: &mut Stamps)
    requires few { length names.old.entries < 2 ^ 32 }
    requires room { IsRoomy names.old.entries }
    ensures steps { (p : Plans) (rest : List Piece) → Steps p []
        (names_pieces 0 names.old.entries ++ rest) (names_pieces 0 names.new.entries ++ rest) }
    ensures through { (i : ℕ) → IsThrough names.new.entries i }
    ensures fewer { length (names_pieces 0 names.new.entries)
        ≤ length (names_pieces 0 names.old.entries) }
    ensures names { length names.new.entries ≡ length names.old.entries }
    ensures memory { names.new.capacity ≡ names.old.capacity }
{
    for name in 0..names.len() {
        put_through(names, stamps, name as u32);
    }
}

/// Lets a name that waits for another one wait for what waits for that, which is free then. So it goes on until the name
/// waits for no other name, or for one for which nothing waits.
fn put_through(names: &mut Names, stamps: &mut Stamps, name: u32)
    requires there { name < length names.old.entries }
    requires room { IsRoomy names.old.entries }
    ensures steps { (p : Plans) (rest : List Piece) → Steps p []
        (names_pieces 0 names.old.entries ++ rest) (names_pieces 0 names.new.entries ++ rest) }
    ensures room { IsRoomy names.new.entries }
    ensures through { IsThrough names.new.entries name }
    ensures others { (i : ℕ) → IsThrough names.old.entries i → IsThrough names.new.entries i }
    ensures fewer { length (names_pieces 0 names.new.entries)
        ≤ length (names_pieces 0 names.old.entries) }
    ensures names { length names.new.entries ≡ length names.old.entries }
    ensures memory { names.new.capacity ≡ names.old.capacity }
{
    'join: loop {
        let between = names.get(name);
        if between.tag != NAME || between.index == name {
            return;
        }
        let waiting = names.get(between.index);
        if waiting.tag >= IDLE {
            return;
        }
        stamps.put_through(name, between.index);
        names.free(between.index);
        names.replace(name, waiting);
    }
}

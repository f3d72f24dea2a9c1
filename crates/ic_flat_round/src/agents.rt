//! The first equation of two agents.

ghost use Rattle.std.specs.Prelude.{◌≡◌};
ghost use Rattle.ic_flat_round.specs.Facing.{symbols_of, first_facing};
ghost use Rattle.ic_flat_rules.specs.Standing.{tree_at, AreSides};

use ic_flat::{Flat, Word};
use ic_flat_rules::{Sides, equations_place, sides_at};

/// The symbols of the first equation of two agents. Takes time linear in the nodes, and no memory.
pub fn facing(flat: &Flat) -> Option<(u32, u32)>
    ensures { result ≡ first_facing flat.now.equations }
{
    let words = flat.words();
    let mut place = equations_place(flat);
    while place < words.len() {
        let sides = sides_at(words, place);
        let symbols = symbols_of(words, sides);
        if symbols.is_some() {
            return symbols;
        }
        place = sides.end;
    }
    None
}

/// The symbols of the sides of an equation, if both are agents.
fn symbols_of(words: &[Word], sides: Sides) -> Option<(u32, u32)>
    requires { AreSides words.now sides }
    ensures { result ≡ symbols_of (tree_at words.now sides.left) (tree_at words.now sides.right) }
{
    match (words[sides.left], words[sides.right]) {
        (Word::Agent(left, _), Word::Agent(right, _)) => Some((left, right)),
        _ => None,
    }
}

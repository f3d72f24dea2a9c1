//! Equations that are linked into the net.

ghost use Rattle.std.specs.Prelude.{◌≡◌, ◌+◌, ◌<◌, ◌≤◌, List, [], ◌∷◌, ◌++◌, map, length, sum_by, IfSome, IfNone};
ghost use Rattle.std.specs.List.{AllByRecursion};
ghost use Rattle.ic_arena.specs.Piece.{Piece, room};
ghost use Rattle.ic_arena.specs.Tables.{names_pieces};
ghost use Rattle.ic_machine.specs.Plan.{Plans, linked};
ghost use Rattle.ic_machine.specs.Net.{equated_of, IsPair};
ghost use Rattle.ic_machine.specs.Runs.{HaveHead};
ghost use Rattle.ic_machine.specs.Steps.{Steps};
ghost use Rattle.ic_machine.specs.inner.Linking.{AreNamed, AreLinks, IsEnd, IsTaken, Pushed};

use crate::equation::Equation;
use crate::plan::Link;
use crate::queue::Queue;
use crate::stamps::Stamps;
use ic_arena::{IDLE, NAME, Names, Word};

/// Links equations whose sides are in registers. They are stamped if equations are to be.
pub(crate) fn link_each(
    names: &mut Names,
    pending: &mut Queue,
    stamps: &mut Stamps,
    links: &[Link],
    registers: &[Word],
)
    requires links { AreLinks links.now registers.now names.old.entries }
    requires room { length pending.old.items + length links.now ≤ pending.old.capacity }
    ensures steps { (p : Plans) (rest : List Piece) → Steps p []
        (map (linked registers.now) links.now
        ++ (names_pieces 0 names.old.entries ++ (map equated_of pending.old.items ++ rest)))
        (names_pieces 0 names.new.entries ++ (map equated_of pending.new.items ++ rest)) }
    ensures pushed { Pushed pending.old.items pending.new.items }
    ensures bare { (p : Plans) (rest : List Piece) (more : List Equation)
        → pending.new.items ≡ pending.old.items ++ more → Steps p []
        (map (linked registers.now) links.now ++ (names_pieces 0 names.old.entries ++ rest))
        (names_pieces 0 names.new.entries ++ (map equated_of more ++ rest)) }
    ensures head { HaveHead links.now registers.now pending.old.items pending.new.items }
    ensures len { length pending.new.items ≤ length pending.old.items + length links.now }
    ensures capacity { pending.new.capacity ≡ pending.old.capacity }
    ensures names { length names.new.entries ≡ length names.old.entries }
    ensures memory { names.new.capacity ≡ names.old.capacity }
{
    if stamps.is_on() {
        link_all::<true>(names, pending, stamps, links, registers);
    } else {
        link_all::<false>(names, pending, stamps, links, registers);
    }
}

/// The same where it is known whether they are stamped.
#[inline(always)]
pub(crate) fn link_all<const STAMPED: bool>(
    names: &mut Names,
    pending: &mut Queue,
    stamps: &mut Stamps,
    links: &[Link],
    registers: &[Word],
)
    requires links { AreLinks links.now registers.now names.old.entries }
    requires room { length pending.old.items + length links.now ≤ pending.old.capacity }
    ensures steps { (p : Plans) (rest : List Piece) → Steps p []
        (map (linked registers.now) links.now
        ++ (names_pieces 0 names.old.entries ++ (map equated_of pending.old.items ++ rest)))
        (names_pieces 0 names.new.entries ++ (map equated_of pending.new.items ++ rest)) }
    ensures pushed { Pushed pending.old.items pending.new.items }
    ensures bare { (p : Plans) (rest : List Piece) (more : List Equation)
        → pending.new.items ≡ pending.old.items ++ more → Steps p []
        (map (linked registers.now) links.now ++ (names_pieces 0 names.old.entries ++ rest))
        (names_pieces 0 names.new.entries ++ (map equated_of more ++ rest)) }
    ensures head { HaveHead links.now registers.now pending.old.items pending.new.items }
    ensures len { length pending.new.items ≤ length pending.old.items + length links.now }
    ensures capacity { pending.new.capacity ≡ pending.old.capacity }
    ensures names { length names.new.entries ≡ length names.old.entries }
    ensures memory { names.new.capacity ≡ names.old.capacity }
{
    for each in links {
        let left = &registers[each.left as usize];
        let right = &registers[each.right as usize];
        let equation = Equation {
            left: Word {
                tag: left.tag,
                index: left.index,
            },
            right: Word {
                tag: right.tag,
                index: right.index,
            },
        };
        link::<STAMPED>(names, pending, stamps, equation);
    }
}

/// Links an equation: if a word waits for a side that is a name, it takes the place of that, as long as one does. Then one
/// side waits for the other, if that is a name. Two sides that are no names are pending. The greatest stamp on the way is that of
/// what waits, or is pending.
#[inline(always)]
pub(crate) fn link<const STAMPED: bool>(
    names: &mut Names,
    pending: &mut Queue,
    stamps: &mut Stamps,
    equation: Equation,
)
    requires named { AreNamed equation.left equation.right names.old.entries }
    requires room { length pending.old.items < pending.old.capacity }
    ensures steps { (p : Plans) (rest : List Piece) → Steps p []
        (equated_of equation
        ∷ (names_pieces 0 names.old.entries ++ (map equated_of pending.old.items ++ rest)))
        (names_pieces 0 names.new.entries ++ (map equated_of pending.new.items ++ rest)) }
    ensures pushed { Pushed pending.old.items pending.new.items }
    ensures bare { (p : Plans) (rest : List Piece) (more : List Equation)
        → pending.new.items ≡ pending.old.items ++ more → Steps p []
        (equated_of equation ∷ (names_pieces 0 names.old.entries ++ rest))
        (names_pieces 0 names.new.entries ++ (map equated_of more ++ rest)) }
    ensures pair { IsPair equation → pending.new.items ≡ pending.old.items ++ equation ∷ [] }
    ensures len { length pending.new.items ≤ length pending.old.items + 1 }
    ensures capacity { pending.new.capacity ≡ pending.old.capacity }
    ensures names { length names.new.entries ≡ length names.old.entries }
    ensures memory { names.new.capacity ≡ names.old.capacity }
{
    let mut left = equation.left;
    let mut right = equation.right;
    let mut stamp = stamps.made();
    // Each end stands by itself, so that no word is asked twice whether it is a name.
    'follow: loop {
        if left.tag == NAME {
            if let Some(waiting) = taken(names, left) {
                stamp = stamps.joined::<STAMPED>(stamp, left.index);
                left = waiting;
                continue 'follow;
            }
            if let Some(waiting) = taken(names, right) {
                stamp = stamps.joined::<STAMPED>(stamp, right.index);
                right = waiting;
                continue 'follow;
            }
            settle::<STAMPED>(names, pending, stamps, Equation { left, right }, stamp);
            return;
        }
        if right.tag == NAME {
            if let Some(waiting) = taken(names, right) {
                stamp = stamps.joined::<STAMPED>(stamp, right.index);
                right = waiting;
                continue 'follow;
            }
            settle::<STAMPED>(names, pending, stamps, Equation { left, right }, stamp);
            return;
        }
        settle::<STAMPED>(names, pending, stamps, Equation { left, right }, stamp);
        return;
    }
}

/// Takes what waits for a word, if that is a name for which a word waits. The name is gone then.
#[inline(always)]
fn taken(names: &mut Names, word: Word) -> Option<Word>
    requires room { word.tag ≡ NAME → 1 ≤ sum_by (room word) (names_pieces 0 names.old.entries) }
    ensures taken { IfSome result (IsTaken word names.old.entries names.new.entries) }
    ensures none { IfNone result (IsEnd word names.old.entries) }
    ensures same { IfNone result (names.new ≡ names.old) }
    ensures names { length names.new.entries ≡ length names.old.entries }
    ensures memory { names.new.capacity ≡ names.old.capacity }
{
    if word.tag != NAME {
        return None;
    }
    let waiting = names.get(word.index);
    if waiting.tag == IDLE {
        return None;
    }
    names.free(word.index);
    Some(waiting)
}

/// Lets one side of an equation of this stamp wait for the other, if that is a name. Nothing waits for either of them.
#[inline(always)]
fn settle<const STAMPED: bool>(
    names: &mut Names,
    pending: &mut Queue,
    stamps: &mut Stamps,
    equation: Equation,
    stamp: u32,
)
    requires named { AreNamed equation.left equation.right names.old.entries }
    requires left { IsEnd equation.left names.old.entries }
    requires right { IsEnd equation.right names.old.entries }
    requires room { length pending.old.items < pending.old.capacity }
    ensures steps { (p : Plans) (rest : List Piece) → Steps p []
        (equated_of equation
        ∷ (names_pieces 0 names.old.entries ++ (map equated_of pending.old.items ++ rest)))
        (names_pieces 0 names.new.entries ++ (map equated_of pending.new.items ++ rest)) }
    ensures pushed { Pushed pending.old.items pending.new.items }
    ensures bare { (p : Plans) (rest : List Piece) (more : List Equation)
        → pending.new.items ≡ pending.old.items ++ more → Steps p []
        (equated_of equation ∷ (names_pieces 0 names.old.entries ++ rest))
        (names_pieces 0 names.new.entries ++ (map equated_of more ++ rest)) }
    ensures pair { IsPair equation → pending.new.items ≡ pending.old.items ++ equation ∷ [] }
    ensures len { length pending.new.items ≤ length pending.old.items + 1 }
    ensures capacity { pending.new.capacity ≡ pending.old.capacity }
    ensures names { length names.new.entries ≡ length names.old.entries }
    ensures memory { names.new.capacity ≡ names.old.capacity }
{
    if equation.left.tag == NAME {
        stamps.mark::<STAMPED>(equation.left.index, stamp);
        names.put(equation.left.index, equation.right);
    } else if equation.right.tag == NAME {
        stamps.mark::<STAMPED>(equation.right.index, stamp);
        names.put(equation.right.index, equation.left);
    } else {
        stamps.push::<STAMPED>(pending.len(), stamp);
        pending.push_reserved(equation);
    }
}

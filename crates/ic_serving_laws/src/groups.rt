//! Laws of groups: lines that are answered at once.

ghost use Rattle.std.specs.Prelude.{◌≡◌, ◌≢◌, ◌≤◌, ◌+◌, ◌-◌, ◌^◌, ℕ, List, false, flat_map, length, map};
ghost use Rattle.std.specs.List.{AllByRecursion};
ghost use Rattle.ic_jobs.specs.declared.event.Event.TheVariants.{Command as by_command};
ghost use Rattle.ic_lines.specs.Serving.{IsServed};
ghost use Rattle.ic_book.specs.Book.{disk_of, is_broken, number_of, table_of};
ghost use Rattle.ic_serving.specs.Answered.{IsGroupAnswered};
ghost use Rattle.ic_serving.specs.Booked.{IsAllKept};
ghost use Rattle.ic_serving.specs.Grown.{GoesOn, HasRoom, HasSpare};
ghost use Rattle.ic_serving.specs.InTurn.{AreServedInTurn};

use ic_book::Book;
use ic_disk::Disk;

/// The lines that are answered in turn are those of their groups, one group after the other, each of at
/// most so many lines.
pub fn lines_are_parted_into_groups<D: Disk>(old: &Book<D>, new: &Book<D>)
    ensures lines { (limit most : ℕ) (ls : List (List ℕ))
        (turns : AreServedInTurn limit most ls old.now new.now)
        → ls ≡ flat_map (λ group. group) turns.groups }
    ensures few { (limit most : ℕ) (ls : List (List ℕ))
        (turns : AreServedInTurn limit most ls old.now new.now)
        → AllByRecursion (λ group. length group ≤ most) turns.groups }
{
    let _ = old;
    let _ = new;
}

/// A group of lines is served: this answers it, and it leaves this table, all of it kept, in a book that
/// isn't broken. It is answered over none whose slots' numbers are used up. Where the page has
/// room, its events stand after those before, and no more calls to the disk are made than one keep makes.
pub fn a_group_is_answered_as_it_is_served<D: Disk>(before: &Book<D>, after: &Book<D>)
    ensures served { (limit : ℕ) (ls : List (List ℕ)) (bytes : List ℕ)
        → IsGroupAnswered limit ls bytes before.now after.now
        → IsServed (table_of before.now) ls bytes (table_of after.now) }
    ensures kept { (limit : ℕ) (ls : List (List ℕ)) (bytes : List ℕ)
        → IsGroupAnswered limit ls bytes before.now after.now → IsAllKept after.now }
    ensures whole { (limit : ℕ) (ls : List (List ℕ)) (bytes : List ℕ)
        → IsGroupAnswered limit ls bytes before.now after.now → is_broken after.now ≡ false }
    ensures fresh { (limit : ℕ) (ls : List (List ℕ)) (bytes : List ℕ)
        → IsGroupAnswered limit ls bytes before.now after.now
        → number_of before.now ≢ 2 ^ 64 - 1 }
    ensures page { (limit : ℕ) (ls : List (List ℕ)) (bytes : List ℕ)
        (is : IsGroupAnswered limit ls bytes before.now after.now)
        → HasRoom limit (map by_command is.commands) before.now
        → GoesOn (map by_command is.commands) before.now after.now }
    ensures calls { (limit : ℕ) (ls : List (List ℕ)) (bytes : List ℕ)
        → IsGroupAnswered limit ls bytes before.now after.now → HasSpare limit before.now
        → D.clock (disk_of after.now) ≤ D.clock (disk_of before.now) + 6 }
{
    let _ = before;
    let _ = after;
}

//! Laws of steps.

ghost use Rattle.std.specs.Prelude.{◌≡◌, ◌≢◌, ◌⊎◌, ◌+◌, ◌++◌, ◌<◌, ◌≤◌, ℕ, List, [], false, Ok, Contains, length, map, sum, sum_by};
ghost use Rattle.std.specs.List.{AllByRecursion};
ghost use Rattle.ic_arena.specs.declared.word.Word.{Word};
ghost use Rattle.ic_arena.specs.Word.{name_word};
ghost use Rattle.ic_arena.specs.Piece.{Piece, waits};
ghost use Rattle.ic_machine.specs.declared.telling.Told.{Told as AnyTold};
ghost use Rattle.ic_machine.specs.Moving.{Ends, side_of, spells_cut, times, worth, AreBordered, IsTold, KeepWorth, NothingWaits, Ships, Unpacks};
ghost use Rattle.ic_machine.specs.Net.{Net, all_places, equations_in, equations_left, in_use, pieces, places_of, IsAtPlace, IsPair};
ghost use Rattle.ic_machine.specs.Plan.{Planned, Plans, ArePlans, links_made_by, places_made_by};
ghost use Rattle.ic_machine.specs.Runs.{Ran, Starts};
ghost use Rattle.ic_machine.specs.Rooms.{ROOMS, pieces_in, IsOutside};
ghost use Rattle.ic_machine.specs.Separate.{IsSeparate};
ghost use Rattle.ic_machine.specs.Steps.{Steps};
ghost use Rattle.ic_machine.specs.Worked.{arities_by_hand, closed_by_hand, closed_words, cut_by_hand, empty_by_hand, ends_after, ends_before, open_by_hand, open_words};

use crate::borders::Borders;
use crate::machine::Machine;
use crate::moving::Parcel;
use crate::telling::Told;
use std::alloc::AllocError;

/// What is separate stays separate over steps, whatever pairs they fire and in whatever order.
pub fn steps_keep_places_apart()
    ensures { (p : Plans) (fired : List ℕ) (interface : List Word) (xs ys : List Piece)
        → ArePlans p → Steps p fired xs ys
        → IsSeparate p.arities interface xs → IsSeparate p.arities interface ys }
{}

/// Of each kind a machine has as many places as were in use as it began, or at some moment later, as a pair had fired: no
/// fewer, and no more.
pub fn places_are_those_that_were_in_use()
    ensures begun { (p : Plans) (given : ℕ) (plan : Planned) (operands : List ℕ) (n : Net)
        (kind : ℕ) → Starts p given plan operands n → in_use kind (pieces n) ≤ places_of kind n }
    ensures still { (p : Plans) (old new : Net) (kind : ℕ) → Ran p old new
        → in_use kind (pieces old) ≤ places_of kind old
        → in_use kind (pieces new) ≤ places_of kind new }
    ensures enough { (p : Plans) (old new : Net) (kind : ℕ) (run : Ran p old new)
        (moment : List Piece) → Contains run.moments moment
        → in_use kind moment ≤ places_of kind new }
    ensures kept { (p : Plans) (old new : Net) (kind : ℕ) → Ran p old new
        → places_of kind old ≤ places_of kind new }
    ensures no_more { (p : Plans) (old new : Net) (kind : ℕ) (run : Ran p old new)
        → (places_of kind new ≡ places_of kind old) ⊎ ((moment : List Piece)
        × Contains run.moments moment × (in_use kind moment ≡ places_of kind new)) }
{}

/// A machine begins with a place for each name and for each agent that its plan makes. Each pair that fires adds at most as
/// many places as its plan makes names and agents.
pub fn places_are_made_by_plans()
    ensures names { (p : Plans) (given : ℕ) (plan : Planned) (operands : List ℕ) (n : Net)
        → Starts p given plan operands n → n.names ≡ plan.names }
    ensures agents { (p : Plans) (given : ℕ) (plan : Planned) (operands : List ℕ) (n : Net)
        → Starts p given plan operands n → sum n.agents ≡ length plan.made }
    ensures fired { (p : Plans) (old new : Net) (run : Ran p old new)
        → ((kind : ℕ) → in_use kind (pieces old) ≤ places_of kind old)
        → all_places new ≤ all_places old + sum_by (places_made_by p) run.fired }
{}

/// A machine begins with at most the equations that its plan links. Each pair that fires is one less, and makes at most those
/// that its plan links. All equations are left, pending or set aside, if none is at a place.
pub fn equations_are_made_by_plans()
    ensures begun { (p : Plans) (given : ℕ) (plan : Planned) (operands : List ℕ) (n : Net)
        → Starts p given plan operands n → equations_in (pieces n) ≤ length plan.links }
    ensures fired { (p : Plans) (old new : Net) (run : Ran p old new)
        → equations_in (pieces new) + length run.fired
        ≤ equations_in (pieces old) + sum_by (links_made_by p) run.fired }
    ensures all { (n : Net) → AllByRecursion IsAtPlace n.places
        → equations_left n ≡ equations_in (pieces n) }
    ensures least { (n : Net) → equations_left n ≤ equations_in (pieces n) }
{}

/// Several machines are one net whose pieces are in rooms, each machine's in one of its own. What is fresh to one of them is
/// fresh to all, and its steps are steps of all: they fire the same pairs, and what is in other rooms stays.
pub fn steps_of_one_machine_are_steps_of_all()
    ensures steps { (p : Plans) (k : ℕ) (fired : List ℕ) (xs ys others : List Piece)
        → ArePlans p → IsOutside p.arities k others → Steps p fired xs ys
        → Steps p fired (pieces_in p.arities k xs ++ others) (pieces_in p.arities k ys ++ others) }
    ensures apart { (arities : List ℕ) (k l : ℕ) (ps : List Piece) → k < ROOMS → l < ROOMS → k ≢ l
        → IsOutside arities k (pieces_in arities l ps) }
{}

/// No side of an equation that a machine has pending or aside is a name, and no equation is at a place. It has a table for
/// each symbol. Of each kind it has as many places as are in use, or more.
pub fn what_a_machine_holds(machine: &Machine)
    ensures pairs { AllByRecursion IsPair machine.now.pending }
    ensures aside { AllByRecursion IsPair machine.now.aside }
    ensures places { AllByRecursion IsAtPlace machine.now.places }
    ensures symbols { length machine.now.agents ≡ length machine.now.arities }
    ensures room { (kind : ℕ) → in_use kind machine.now.places ≤ places_of kind machine.now }
{
    let _tables = &machine.tables;
}

/// No two borders of a machine have one cut, or one name.
pub fn what_borders_hold(borders: &Borders)
    ensures cuts { (c : ℕ) → times c (map (λ e. e.cut) borders.now.ends) ≤ 1 }
    ensures names { (n : ℕ) → times n (map (λ e. e.name) borders.now.ends) ≤ 1 }
{
    borders.are_once();
}

/// Of each cut a machine can tell that a word waits for its end there, or nothing waits for it. As long as it has one end of
/// the cut at most, it is never both. What was shipped could be told.
pub fn a_word_waits_for_a_cut_or_nothing_does()
    ensures is_so { (n : Net) (b : Ends) (t : AnyTold) → IsTold n b t → (name : ℕ) × (word : Word)
        × Contains b.ends (record { cut = t.cut; name = name })
        × Contains n.places (waits (name_word name) word) }
    ensures tells { (n : Net) (b : Ends) (t : AnyTold) (name : ℕ) (word : Word)
        → Contains b.ends (record { cut = t.cut; name = name })
        → Contains n.places (waits (name_word name) word) → IsTold n b t }
    ensures either { (n : Net) (b : Ends) (t : AnyTold)
        → IsTold n b t ⊎ NothingWaits t.cut (side_of n b) }
    ensures never_both { (n : Net) (b : Ends) (t : AnyTold)
        → times t.cut (map (λ e. e.cut) b.ends) ≤ 1 → IsTold n b t
        → ¬ NothingWaits t.cut (side_of n b) }
    ensures shipped { (n m : Net) (b d : Ends) (cut size : ℕ) (before after : List Word)
        → Ships n.arities cut (side_of n b) (side_of m d) before after
        → IsTold n b (record { cut = cut; size = size }) }
{}

/// What is put into a machine takes free places first. Of each kind there are as many places as before, or as were in use when
/// all was there and nothing was linked yet.
pub fn what_is_unpacked_takes_free_places_first()
    ensures kept { (words : List Word) (old new : Net) (before after : Ends) (kind : ℕ)
        → Unpacks words old new before after → places_of kind old ≤ places_of kind new }
    ensures enough { (words : List Word) (old new : Net) (before after : Ends) (kind : ℕ)
        → (is : Unpacks words old new before after) → in_use kind is.places ≤ places_of kind new }
    ensures no_more { (words : List Word) (old new : Net) (before after : Ends) (kind : ℕ)
        → (is : Unpacks words old new before after) → (places_of kind new ≡ places_of kind old)
        ⊎ (in_use kind is.places ≡ places_of kind new) }
    ensures symbols { (words : List Word) (old new : Net) (before after : Ends)
        → Unpacks words old new before after → length new.agents ≡ length old.agents }
{}

/// What a machine tells of a border is shipped if that is asked for, as long as memory lasts: it isn't answered that no word
/// waits.
pub fn what_is_told_is_shipped(
    machine: &mut Machine,
    told: Told,
    borders: &mut Borders,
    parcel: &mut Parcel,
) -> Result<bool, AllocError>
    requires told { IsTold machine.old borders.old told }
    requires bordered { AreBordered machine.old borders.old }
    requires numbers { (c : ℕ) → worth c borders.old
        + spells_cut c parcel.old.words.items ≤ 2 }
    ensures { result ≢ Ok false }
{
    what_borders_hold(borders);
    machine.ship(told.cut, borders, parcel)
}

/// What is shipped, by two machines that are written by hand. In one of them `S(S(Z))` waits for the end of a cut, and nothing
/// is left. In the other one `S(t)` does, and nothing waits for `t`. It becomes the end of a cut, whose number was spare.
pub fn what_is_shipped_by_hand()
    ensures whole { Ships arities_by_hand 7 closed_by_hand empty_by_hand [] closed_words }
    ensures cut { Ships arities_by_hand 7 open_by_hand cut_by_hand [] open_words }
    ensures waits { (¬ NothingWaits 7 open_by_hand) × NothingWaits 9 open_by_hand
        × NothingWaits 9 cut_by_hand }
    ensures before { (worth 7 ends_before ≡ 1) × (worth 9 ends_before ≡ 2) }
    ensures after { (worth 7 ends_after ≡ 0) × (worth 9 ends_after ≡ 1) }
    ensures spelled { (spells_cut 7 open_words ≡ 1) × (spells_cut 9 open_words ≡ 1) }
    ensures worth { KeepWorth ends_before ends_after [] open_words }
{}

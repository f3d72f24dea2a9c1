//! Equations that move from one machine to another, with all that hangs below them.
//!
//! What moves are words: trees in prefix order, in which a name is the number of a cut. A cut is a name that two machines have,
//! once each. In each of them it is a border: a name of its own.

ghost use Rattle.std.specs.Prelude.{◌≡◌, ℕ, ◌^◌, ◌+◌, ◌<◌, ◌≤◌, List, [], ◌∷◌, ◌++◌, true, false, Ok, IfOk, OnOk, OnErr, length, map, take, drop, sum_by};
ghost use Rattle.std.specs.List.{AllByRecursion};
ghost use Rattle.ic_arena.specs.declared.word.Word.{Word as AnyWord};
ghost use Rattle.ic_arena.specs.Word.{name_word};
ghost use Rattle.ic_arena.specs.Piece.{room};
ghost use Rattle.ic_arena.specs.Tables.{blocks_pieces, entry, names_pieces};
ghost use Rattle.ic_machine.specs.Moving.{times, worth, spells_cut, side_of, sides_of, AreBordered, AreOpened, AreShipped, GivesAll, IsIdle, KeepWorth, NothingWaits, Packs, Ships};
ghost use Rattle.ic_machine.specs.Separate.{is_constant_tag};
ghost use Rattle.ic_machine.specs.inner.Firing.{heaps_pieces, arities_of};
ghost use Rattle.ic_machine.specs.inner.Moving.{places_in, side_in, AreInHand, AreLeft, Cuts, HasMoreNames, IsAsLarge, PacksAgent, PacksName, PacksTree};

use crate::borders::Borders;
use crate::equation::Equation;
use crate::firing::{MAX_ENTRIES, take};
use crate::machine::Machine;
use crate::places::turn;
use crate::queue::Queue;
use crate::stamps::Carried;
use crate::tables::Tables;
use ic_arena::{FREE, GIVEN, Heap, IDLE, NAME, Names, Word};
use std::alloc::{AllocError, Global};
use std::mem::replace;

/// Equations on their way from one machine to another.
#[derive(Drop)]
pub struct Parcel {
    /// The sides of the equations, each a tree in prefix order.
    pub words: Vec<Word>,
    /// Words that are still to be packed, the first on top. What is here between two calls means nothing.
    stack: Vec<Word>,
    pub(crate) stamps: Carried,
}

impl Parcel {
    pub fn new(alloc: Global) -> Parcel
        ensures { result.words.items ≡ [] }
    {
        Parcel {
            words: Vec::new(alloc),
            stack: Vec::new(alloc),
            stamps: Carried::new(alloc),
        }
    }
}

impl Machine {
    /// Takes so many pending pairs out, the oldest.
    pub fn give(
        &mut self,
        pairs: usize,
        borders: &mut Borders,
        parcel: &mut Parcel,
    ) -> Result<(), AllocError>
        requires there { pairs ≤ length self.old.pending }
        requires bordered { AreBordered self.old borders.old }
        requires numbers { (c : ℕ) → worth c borders.old
            + spells_cut c parcel.old.words.items ≤ 2 }
        ensures packs { OnOk result (Packs self.old.arities (take pairs self.old.pending)
            (side_of self.old borders.old) (side_of self.new borders.new)
            parcel.old.words.items parcel.new.words.items) }
        ensures pending { OnOk result (self.new.pending ≡ drop pairs self.old.pending) }
        ensures same { OnOk result (self.new ≡ record self.old {
          pending = self.new.pending;
          places = self.new.places;
        }) }
        ensures bordered { OnOk result (AreBordered self.new borders.new) }
        ensures worth { OnOk result (KeepWorth borders.old borders.new
            parcel.old.words.items parcel.new.words.items) }
    {
        self.tables.spare = 0;
        let rest = self.tables.pending.split_off(pairs)?;
        let given = replace(&mut self.tables.pending, rest);
        let left = self.tables.pending.len();
        self.tables
            .stamps
            .carry_pairs(pairs, left, &mut parcel.stamps);
        pack_each(&mut self.tables, given.as_slice(), borders, parcel)?;
        Ok(())
    }

    /// Takes the equation of a cut with the word that waits for it out. Answers false where no word does.
    pub fn ship(
        &mut self,
        cut: u32,
        borders: &mut Borders,
        parcel: &mut Parcel,
    ) -> Result<bool, AllocError>
        requires bordered { AreBordered self.old borders.old }
        requires numbers { (c : ℕ) → worth c borders.old
            + spells_cut c parcel.old.words.items ≤ 2 }
        ensures ships { result ≡ Ok true → Ships self.old.arities cut
            (side_of self.old borders.old) (side_of self.new borders.new)
            parcel.old.words.items parcel.new.words.items }
        ensures none { result ≡ Ok false → NothingWaits cut (side_of self.old borders.old) }
        ensures unchanged { result ≡ Ok false → (self.new ≡ self.old)
            × (borders.new ≡ borders.old)
            × (parcel.new.words.items ≡ parcel.old.words.items) }
        ensures same { OnOk result
            (self.new ≡ record self.old { places = self.new.places }) }
        ensures bordered { OnOk result (AreBordered self.new borders.new) }
        ensures worth { OnOk result (KeepWorth borders.old borders.new
            parcel.old.words.items parcel.new.words.items) }
    {
        self.tables.spare = 0;
        let shipped = ship_from(&mut self.tables, cut, borders, parcel)?;
        Ok(shipped)
    }

    /// Takes all out: what waits for borders, and all equations.
    pub fn give_all(
        &mut self,
        alloc: Global,
        borders: &mut Borders,
        parcel: &mut Parcel,
    ) -> Result<(), AllocError>
        requires bordered { AreBordered self.old borders.old }
        requires numbers { (c : ℕ) → worth c borders.old
            + spells_cut c parcel.old.words.items ≤ 2 }
        ensures gives { OnOk result (GivesAll self.old.arities
            (self.old.pending ++ self.old.aside)
            (side_of self.old borders.old) (side_of self.new borders.new)
            parcel.old.words.items parcel.new.words.items) }
        ensures all { OnOk result ((self.new.pending ≡ []) × (self.new.aside ≡ [])
            × AllByRecursion IsIdle self.new.places) }
        ensures same { OnOk result (self.new ≡ record self.old {
          pending = [];
          aside = [];
          places = self.new.places;
          names = self.new.names;
        }) }
        ensures bordered { OnOk result (AreBordered self.new borders.new) }
        ensures worth { OnOk result (KeepWorth borders.old borders.new
            parcel.old.words.items parcel.new.words.items) }
    {
        self.tables.spare = 0;
        let cuts = borders.cuts(alloc)?;
        let pending = replace(&mut self.tables.pending, Queue::new(alloc));
        let aside = replace(&mut self.aside, Vec::new(alloc));
        give_tables(
            &mut self.tables,
            &cuts,
            pending.as_slice(),
            &aside,
            borders,
            parcel,
        )?;
        Ok(())
    }
}

/// Takes all out of tables.
fn give_tables(
    tables: &mut Tables,
    cuts: &[u32],
    pending: &[Equation],
    aside: &[Equation],
    borders: &mut Borders,
    parcel: &mut Parcel,
) -> Result<(), AllocError>
    requires few { length tables.old.names.entries < 2 ^ 32 }
    requires cuts { cuts.now ≡ map (λ e. e.cut) borders.old.ends }
    requires numbers { (c : ℕ) → worth c borders.old
        + spells_cut c parcel.old.words.items ≤ 2 }
    requires named { AreInHand [] (sides_of pending.now ++ sides_of aside.now)
        tables.old borders.old }
    ensures gives { OnOk result (GivesAll (arities_of tables.old.heaps.items)
        (pending.now ++ aside.now)
        (side_in tables.old borders.old) (side_in tables.new borders.new)
        parcel.old.words.items parcel.new.words.items) }
    ensures idle { OnOk result (AllByRecursion IsIdle (places_in tables.new)) }
    ensures named { OnOk result ((others : List AnyWord)
        → AreInHand [] (sides_of pending.now ++ (sides_of aside.now ++ others))
        tables.old borders.old
        → AreInHand [] others tables.new borders.new) }
    ensures left { (others : List AnyWord)
        → AreInHand [] (sides_of pending.now ++ (sides_of aside.now ++ others))
        tables.old borders.old
        → AreLeft others tables.new }
    ensures worth { OnOk result (KeepWorth borders.old borders.new
        parcel.old.words.items parcel.new.words.items) }
    ensures size { HasMoreNames tables.old tables.new }
{
    ship_each(tables, cuts, borders, parcel)?;
    tables
        .stamps
        .carry_pairs(pending.len(), 0, &mut parcel.stamps);
    pack_each(tables, pending, borders, parcel)?;
    tables.stamps.carry_stuck(aside.len(), &mut parcel.stamps);
    pack_each(tables, aside, borders, parcel)?;
    pack_circles(tables, borders, parcel)?;
    // Each agent hangs below a side or a word that waits, as the names of places occur twice. That is tested.
    if !is_idle(tables) {
        return Err(AllocError);
    }
    Ok(())
}

/// Takes equations out that were pending or aside, in order.
fn pack_each(
    tables: &mut Tables,
    equations: &[Equation],
    borders: &mut Borders,
    parcel: &mut Parcel,
) -> Result<(), AllocError>
    requires numbers { (c : ℕ) → worth c borders.old
        + spells_cut c parcel.old.words.items ≤ 2 }
    requires named { AreInHand (sides_of equations.now) [] tables.old borders.old }
    ensures packs { OnOk result (Packs (arities_of tables.old.heaps.items) equations.now
        (side_in tables.old borders.old) (side_in tables.new borders.new)
        parcel.old.words.items parcel.new.words.items) }
    ensures named { OnOk result ((others : List AnyWord)
        → AreInHand (sides_of equations.now) others tables.old borders.old
        → AreInHand [] others tables.new borders.new) }
    ensures left { (others : List AnyWord)
        → AreInHand (sides_of equations.now) others tables.old borders.old
        → AreLeft others tables.new }
    ensures worth { OnOk result (KeepWorth borders.old borders.new
        parcel.old.words.items parcel.new.words.items) }
    ensures size { IsAsLarge tables.old tables.new }
{
    for equation in equations {
        pack_equation(tables, *equation, borders, parcel)?;
    }
    Ok(())
}

/// Takes an equation out: its left side, and then its right one.
fn pack_equation(
    tables: &mut Tables,
    equation: Equation,
    borders: &mut Borders,
    parcel: &mut Parcel,
) -> Result<(), AllocError>
    requires numbers { (c : ℕ) → worth c borders.old
        + spells_cut c parcel.old.words.items ≤ 2 }
    requires named { AreInHand (equation.left ∷ equation.right ∷ []) []
        tables.old borders.old }
    ensures packs { OnOk result (Packs (arities_of tables.old.heaps.items) (equation ∷ [])
        (side_in tables.old borders.old) (side_in tables.new borders.new)
        parcel.old.words.items parcel.new.words.items) }
    ensures named { OnOk result ((others : List AnyWord)
        → AreInHand (equation.left ∷ equation.right ∷ []) others tables.old borders.old
        → AreInHand [] others tables.new borders.new) }
    ensures left { (others : List AnyWord)
        → AreInHand (equation.left ∷ equation.right ∷ []) others tables.old borders.old
        → AreLeft others tables.new }
    ensures worth { OnOk result (KeepWorth borders.old borders.new
        parcel.old.words.items parcel.new.words.items) }
    ensures size { IsAsLarge tables.old tables.new }
{
    pack(tables, equation.left, borders, parcel)?;
    pack(tables, equation.right, borders, parcel)?;
    Ok(())
}

/// Takes the tree of a word out of its places. A name in it for which nothing waits becomes a cut.
fn pack(
    tables: &mut Tables,
    word: Word,
    borders: &mut Borders,
    parcel: &mut Parcel,
) -> Result<(), AllocError>
    requires numbers { (c : ℕ) → worth c borders.old
        + spells_cut c parcel.old.words.items ≤ 2 }
    requires named { AreInHand (word ∷ []) [] tables.old borders.old }
    ensures packs { OnOk result (PacksTree (arities_of tables.old.heaps.items) word
        (side_in tables.old borders.old) (side_in tables.new borders.new)
        parcel.old.words.items parcel.new.words.items) }
    ensures named { OnOk result ((others : List AnyWord)
        → AreInHand (word ∷ []) others tables.old borders.old
        → AreInHand [] others tables.new borders.new) }
    ensures left { (others : List AnyWord)
        → AreInHand (word ∷ []) others tables.old borders.old → AreLeft others tables.new }
    ensures worth { OnOk result (KeepWorth borders.old borders.new
        parcel.old.words.items parcel.new.words.items) }
    ensures size { IsAsLarge tables.old tables.new }
{
    parcel.stack.clear();
    parcel.stack.push(word)?;
    while let Some(next) = parcel.stack.pop() {
        if next.tag == NAME {
            let place = parcel.words.len();
            let stamps = &mut parcel.stamps;
            tables
                .stamps
                .carry_waiting(&tables.names, next.index, place, stamps);
            pack_name(&mut tables.names, next.index, borders, parcel)?;
        } else {
            pack_agent(&mut tables.heaps, next, parcel)?;
        }
    }
    Ok(())
}

/// Takes a name out. The word that waits for it is next. Where none does, the name is cut.
fn pack_name(
    names: &mut Names,
    name: u32,
    borders: &mut Borders,
    parcel: &mut Parcel,
) -> Result<(), AllocError>
    requires there { 1 ≤ sum_by (room (name_word name)) (names_pieces 0 names.old.entries) }
    requires numbers { (c : ℕ) → worth c borders.old
        + spells_cut c parcel.old.words.items ≤ 2 }
    ensures packed { OnOk result (PacksName name names.old.entries names.new.entries
        borders.old.ends borders.new.ends parcel.old.words.items parcel.new.words.items
        parcel.old.stack.items parcel.new.stack.items) }
    ensures worth { OnOk result (KeepWorth borders.old borders.new
        parcel.old.words.items parcel.new.words.items) }
    ensures same { OnErr result (names.new ≡ names.old) }
    ensures len { length names.new.entries ≡ length names.old.entries }
{
    let waiting = names.get(name);
    if waiting.tag != IDLE {
        parcel.stack.reserve(1)?;
        names.free(name);
        parcel.stack.push_reserved(waiting);
        return Ok(());
    }
    parcel.words.reserve(1)?;
    let cut = cut_name(names, name, borders)?;
    parcel.words.push_reserved(Word {
        tag: NAME,
        index: cut,
    });
    Ok(())
}

/// Cuts a name for which nothing waits, and answers the number of the cut. If it was an end of one, it is gone. Else it is one
/// from then on.
fn cut_name(names: &mut Names, name: u32, borders: &mut Borders) -> Result<u32, AllocError>
    requires there { name < length names.old.entries }
    requires idle { (entry names.old.entries name).tag ≡ IDLE }
    requires numbers { (c : ℕ) → worth c borders.old ≤ 2 }
    ensures cuts { IfOk result (λ cut. Cuts name cut names.old.entries names.new.entries
        borders.old.ends borders.new.ends) }
    ensures worth { IfOk result (λ cut. (c : ℕ)
        → worth c borders.new + times c (cut ∷ []) ≡ worth c borders.old) }
    ensures same { OnErr result (names.new ≡ names.old) }
    ensures len { length names.new.entries ≡ length names.old.entries }
{
    let Some(cut) = borders.cut_of(name) else {
        let cut = borders.add_new(name)?;
        return Ok(cut);
    };
    borders.remove(cut, name);
    names.put(
        name,
        Word {
            tag: GIVEN,
            index: 0,
        },
    );
    names.free(name);
    Ok(cut)
}

/// Takes an agent out of its place. It is written before its arguments, which are next. One without arguments is written as it
/// is.
fn pack_agent(heaps: &mut Vec<Heap>, agent: Word, parcel: &mut Parcel) -> Result<(), AllocError>
    requires some { 1 ≤ agent.tag }
    requires there { is_constant_tag (arities_of heaps.old.items) agent.tag ≡ false
        → 1 ≤ sum_by (room agent) (heaps_pieces 0 heaps.old.items) }
    ensures packed { OnOk result (PacksAgent agent (arities_of heaps.old.items)
        (heaps_pieces 0 heaps.old.items) (heaps_pieces 0 heaps.new.items)
        parcel.old.words.items parcel.new.words.items
        parcel.old.stack.items parcel.new.stack.items) }
    ensures same { OnErr result (heaps.new ≡ heaps.old) }
    ensures counts { map (λ b. b.count) heaps.new.items ≡ map (λ b. b.count) heaps.old.items }
    ensures arities { arities_of heaps.new.items ≡ arities_of heaps.old.items }
{
    parcel.words.reserve(1)?;
    if heaps.len() < agent.tag as usize {
        parcel.words.push_reserved(agent);
        return Ok(());
    }
    let arity = heaps[agent.tag as usize - 1].arity() as usize;
    if arity == 0 {
        parcel.words.push_reserved(agent);
        return Ok(());
    }
    parcel.stack.reserve(arity)?;
    let first = parcel.stack.len();
    take(heaps, agent, &mut parcel.stack);
    turn(&mut parcel.stack, first);
    parcel.words.push_reserved(Word {
        tag: agent.tag,
        index: 0,
    });
    Ok(())
}

/// Takes the equation of a cut with the word that waits for it out. Answers false where no word does.
fn ship_from(
    tables: &mut Tables,
    cut: u32,
    borders: &mut Borders,
    parcel: &mut Parcel,
) -> Result<bool, AllocError>
    requires numbers { (c : ℕ) → worth c borders.old
        + spells_cut c parcel.old.words.items ≤ 2 }
    requires named { AreInHand [] [] tables.old borders.old }
    ensures ships { result ≡ Ok true → Ships (arities_of tables.old.heaps.items) cut
        (side_in tables.old borders.old) (side_in tables.new borders.new)
        parcel.old.words.items parcel.new.words.items }
    ensures none { result ≡ Ok false → NothingWaits cut (side_in tables.old borders.old) }
    ensures unchanged { result ≡ Ok false → (tables.new ≡ tables.old)
        × (borders.new ≡ borders.old)
        × (parcel.new.words.items ≡ parcel.old.words.items) }
    ensures named { OnOk result ((others : List AnyWord)
        → AreInHand [] others tables.old borders.old
        → AreInHand [] others tables.new borders.new) }
    ensures left { (others : List AnyWord)
        → AreInHand [] others tables.old borders.old → AreLeft others tables.new }
    ensures worth { OnOk result (KeepWorth borders.old borders.new
        parcel.old.words.items parcel.new.words.items) }
    ensures size { IsAsLarge tables.old tables.new }
{
    let Some(name) = borders.name_of(cut) else {
        return Ok(false);
    };
    let waiting = tables.names.get(name);
    if waiting.tag >= IDLE {
        return Ok(false);
    }
    parcel.words.reserve(1)?;
    tables.stamps.carry_name(name, &mut parcel.stamps);
    borders.remove(cut, name);
    tables.names.free(name);
    parcel.words.push_reserved(Word {
        tag: NAME,
        index: cut,
    });
    pack(tables, waiting, borders, parcel)?;
    Ok(true)
}

/// Takes the equations of cuts out for which a word waits.
fn ship_each(
    tables: &mut Tables,
    cuts: &[u32],
    borders: &mut Borders,
    parcel: &mut Parcel,
) -> Result<(), AllocError>
    requires numbers { (c : ℕ) → worth c borders.old
        + spells_cut c parcel.old.words.items ≤ 2 }
    requires named { AreInHand [] [] tables.old borders.old }
    ensures ships { OnOk result (AreShipped (arities_of tables.old.heaps.items) cuts.now
        (side_in tables.old borders.old) (side_in tables.new borders.new)
        parcel.old.words.items parcel.new.words.items) }
    ensures named { OnOk result ((others : List AnyWord)
        → AreInHand [] others tables.old borders.old
        → AreInHand [] others tables.new borders.new) }
    ensures left { (others : List AnyWord)
        → AreInHand [] others tables.old borders.old → AreLeft others tables.new }
    ensures worth { OnOk result (KeepWorth borders.old borders.new
        parcel.old.words.items parcel.new.words.items) }
    ensures size { IsAsLarge tables.old tables.new }
{
    for cut in cuts {
        ship_from(tables, *cut, borders, parcel)?;
    }
    Ok(())
}

/// Takes out what still waits for names, where all else is taken out: circles, with what hangs at them.
fn pack_circles(
    tables: &mut Tables,
    borders: &mut Borders,
    parcel: &mut Parcel,
) -> Result<(), AllocError>
    requires few { length tables.old.names.entries < 2 ^ 32 }
    requires numbers { (c : ℕ) → worth c borders.old
        + spells_cut c parcel.old.words.items ≤ 2 }
    requires named { AreInHand [] [] tables.old borders.old }
    ensures opened { OnOk result (AreOpened (arities_of tables.old.heaps.items)
        (side_in tables.old borders.old) (side_in tables.new borders.new)
        parcel.old.words.items parcel.new.words.items) }
    ensures named { OnOk result ((others : List AnyWord)
        → AreInHand [] others tables.old borders.old
        → AreInHand [] others tables.new borders.new) }
    ensures left { (others : List AnyWord)
        → AreInHand [] others tables.old borders.old → AreLeft others tables.new }
    ensures worth { OnOk result (KeepWorth borders.old borders.new
        parcel.old.words.items parcel.new.words.items) }
    ensures size { HasMoreNames tables.old tables.new }
{
    for index in 0..tables.names.len() {
        pack_circle(tables, index as u32, borders, parcel)?;
    }
    Ok(())
}

/// Takes the word out that waits for a name, if one does. The name waits for a new one from then on, which is equal to that
/// word.
fn pack_circle(
    tables: &mut Tables,
    name: u32,
    borders: &mut Borders,
    parcel: &mut Parcel,
) -> Result<(), AllocError>
    requires few { length tables.old.names.entries < 2 ^ 32 }
    requires there { name < length tables.old.names.entries }
    requires numbers { (c : ℕ) → worth c borders.old
        + spells_cut c parcel.old.words.items ≤ 2 }
    requires named { AreInHand [] [] tables.old borders.old }
    ensures opened { OnOk result (AreOpened (arities_of tables.old.heaps.items)
        (side_in tables.old borders.old) (side_in tables.new borders.new)
        parcel.old.words.items parcel.new.words.items) }
    ensures named { OnOk result ((others : List AnyWord)
        → AreInHand [] others tables.old borders.old
        → AreInHand [] others tables.new borders.new) }
    ensures left { (others : List AnyWord)
        → AreInHand [] others tables.old borders.old → AreLeft others tables.new }
    ensures worth { OnOk result (KeepWorth borders.old borders.new
        parcel.old.words.items parcel.new.words.items) }
    ensures size { HasMoreNames tables.old tables.new }
{
    let right = tables.names.get(name);
    if right.tag >= IDLE {
        return Ok(());
    }
    if tables.names.len() >= MAX_ENTRIES {
        return Err(AllocError);
    }
    tables.names.reserve(1)?;
    let left = Word::name(tables.names.open());
    tables.names.replace(name, left);
    tables.stamps.carry_name(name, &mut parcel.stamps);
    pack_equation(tables, Equation { left, right }, borders, parcel)?;
    Ok(())
}

/// Whether nothing is at the places of tables but names for which no word waits. A pass over all places.
fn is_idle(tables: &Tables) -> bool
    requires { length tables.now.names.entries < 2 ^ 32 }
    ensures { result ≡ true → AllByRecursion IsIdle (places_in tables.now) }
{
    !has_waiting(&tables.names) && !has_agents(&tables.heaps)
}

/// Whether a word waits for a name.
fn has_waiting(names: &Names) -> bool
    requires { length names.now.entries < 2 ^ 32 }
    ensures { result ≡ false → AllByRecursion IsIdle (names_pieces 0 names.now.entries) }
{
    for index in 0..names.len() {
        if names.get(index as u32).tag < IDLE {
            return true;
        }
    }
    false
}

/// Whether an agent is at a place of these tables.
fn has_agents(heaps: &[Heap]) -> bool
    ensures { result ≡ false → heaps_pieces 0 heaps.now ≡ [] }
{
    for heap in heaps {
        if has_agent(heap) {
            return true;
        }
    }
    false
}

/// Whether an agent is at a place of this table.
fn has_agent(heap: &Heap) -> bool
    ensures { result ≡ false → (s : ℕ) → blocks_pieces s heap.now ≡ [] }
{
    for block in 0..heap.count() {
        if heap.get(block)[0].tag != FREE {
            return true;
        }
    }
    false
}

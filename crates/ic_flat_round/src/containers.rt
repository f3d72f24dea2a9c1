//! The equations in which a name stands.

ghost use Rattle.std.specs.Prelude.{◌≡◌, ℕ, ◌+◌, ◌<◌, ◌≤◌, None, IfSome, OnOk, length, drop, slice_index};
ghost use Rattle.std.specs.List.{flat_map};
ghost use Rattle.ic_settle.specs.lemmas.Containers.{IsLinked, IsRoot, AreUnlinkedFrom, AreKnown, IsChosen, noted_in, noted_equations, noted_from, elsewhere};
ghost use Rattle.ic_flat.specs.Words.{IsWhole, word_names};
ghost use Rattle.ic_flat_rules.specs.Standing.{pairs_at, AreInTwos, IsEquationsPlace};
ghost use Rattle.ic_flat_round.specs.inner.Heads.{head, heads, told_at, told, IsTarget};
ghost use Rattle.ic_flat_round.specs.inner.Places.{found};

use crate::places::Places;
use ic_flat::{Flat, Word};
use ic_flat_rules::sides_at;
use ic_settle::{Applicable, Side};
use std::alloc::{AllocError, Global};

/// Where each name occurs while equations are removed. What a removed equation holds goes to another container, by a
/// link from its number.
#[derive(Drop)]
pub(crate) struct Containers {
    links: Vec<usize>,
    places: Places,
}

#[inline(always)]
fn note_word(places: &mut Places, word: Word, place: usize) -> Result<(), AllocError>
    ensures { OnOk result ((y : ℕ) → found places.new y
        ≡ noted_in y place (word_names word) (found places.old y)) }
{
    match word {
        Word::Name(name) => places.note(name, place),
        Word::Agent(_, _) => Ok(()),
    }
}

/// Notes the names among words that occur in a container.
#[inline(always)]
fn note_words(places: &mut Places, words: &[Word], place: usize) -> Result<(), AllocError>
    ensures { OnOk result ((y : ℕ) → found places.new y
        ≡ noted_in y place (flat_map word_names words.now) (found places.old y)) }
{
    for word in words {
        note_word(places, *word, place)?;
    }
    Ok(())
}

/// Notes the names of the equations from a place on, numbered from 0.
fn note_equations(places: &mut Places, words: &[Word], from: usize) -> Result<(), AllocError>
    requires whole { IsWhole words.now }
    requires within { from ≤ length words.now }
    requires twos { AreInTwos words.now from }
    ensures { OnOk result ((y : ℕ) → found places.new y
        ≡ noted_equations y 0 (pairs_at words.now from) (found places.old y)) }
{
    let mut place = from;
    let mut number = 0;
    while place < words.len() {
        let sides = sides_at(words, place);
        note_words(places, &words[sides.left..sides.end], number)?;
        place = sides.end;
        number += 1;
    }
    Ok(())
}

/// Makes so many containers of a list, none with a link.
fn unlink(links: &mut Vec<usize>, count: usize) -> Result<(), AllocError>
    ensures length { OnOk result (length links.new.items ≡ count) }
    ensures own { OnOk result ((e : ℕ) → e < count → slice_index links.new.items e ≡ e) }
{
    links.clear();
    links.reserve(count)?;
    for place in 0..count {
        links.push_reserved(place);
    }
    Ok(())
}

/// Where the links from a container end. Halves the way there.
#[inline(always)]
fn root(links: &mut [usize], from: usize) -> usize
    requires inside { from < length links.old }
    requires linked { IsLinked links.old }
    ensures inside { result < length links.old }
    ensures linked { IsLinked links.new }
    ensures end { slice_index links.new result ≡ result }
    ensures root { (r : ℕ → ℕ) → IsRoot links.old r → (result ≡ r from) × IsRoot links.new r }
    ensures unlinked { (e : ℕ) → slice_index links.old e ≡ e → slice_index links.new e ≡ e }
{
    let mut place = from;
    while links[place] != place {
        let next = links[links[place]];
        links[place] = next;
        place = next;
    }
    place
}

/// The name at the top of a side, if it occurs outside of the container with this number, and the container in which it
/// occurs.
#[inline(always)]
fn find_outlet(
    links: &mut [usize],
    places: &Places,
    word: Word,
    side: Side,
    place: usize,
) -> Option<(Applicable, usize)>
    requires linked { IsLinked links.old }
    requires known { AreKnown links.old (found places.now) }
    ensures linked { IsLinked links.new }
    ensures root { (r : ℕ → ℕ) → IsRoot links.old r
        → (result ≡ told_at (λ y. elsewhere r place (found places.now y)) side (head word))
        × IsRoot links.new r }
    ensures target { IfSome result (λ o. IsTarget links.new place o.1) }
    ensures unlinked { (e : ℕ) → slice_index links.old e ≡ e → slice_index links.new e ≡ e }
{
    let Word::Name(name) = word else {
        return None;
    };
    let (first, last) = places.get(name)?;
    let target = root(links, first);
    if target != place {
        return Some((Applicable { name, side }, target));
    }
    let target = root(links, last);
    if target != place {
        return Some((Applicable { name, side }, target));
    }
    None
}

/// The first side of an equation that is a name which occurs outside of it, and the container in which it occurs.
#[inline(always)]
fn first_outlet(
    links: &mut [usize],
    places: &Places,
    left: Word,
    right: Word,
    place: usize,
) -> Option<(Applicable, usize)>
    requires linked { IsLinked links.old }
    requires known { AreKnown links.old (found places.now) }
    ensures linked { IsLinked links.new }
    ensures root { (r : ℕ → ℕ) → IsRoot links.old r
        → (result ≡ told (λ y. elsewhere r place (found places.now y))
        (head left) (head right))
        × IsRoot links.new r }
    ensures target { IfSome result (λ o. IsTarget links.new place o.1) }
    ensures unlinked { (e : ℕ) → slice_index links.old e ≡ e → slice_index links.new e ≡ e }
{
    match find_outlet(links, places, left, Side::Left, place) {
        Some(outlet) => Some(outlet),
        None => find_outlet(links, places, right, Side::Right, place),
    }
}

impl Containers {
    /// No containers. Takes no memory.
    pub fn new(alloc: Global) -> Containers {
        Containers {
            links: Vec::new(alloc),
            places: Places::new(alloc),
        }
    }

    /// Makes each equation and the interface a container of its own, where the equations begin at this place. Keeps the
    /// memory of those before.
    pub fn refill(&mut self, flat: &Flat, from: usize) -> Result<(), AllocError>
        requires { IsEquationsPlace flat.now from }
        ensures length { OnOk result (length self.new.links.items ≡ length flat.now.equations + 1) }
        ensures own { OnOk result ((e : ℕ) → e < length flat.now.equations + 1
            → slice_index self.new.links.items e ≡ e) }
        ensures places { OnOk result ((y : ℕ) → found self.new.places y
            ≡ noted_from y 0 flat.now.equations flat.now.interface None) }
    {
        let words = flat.words();
        let count = flat.equations_len();
        self.places.clear(words.len())?;
        note_equations(&mut self.places, words, from)?;
        note_words(&mut self.places, &words[..from], count)?;
        unlink(&mut self.links, count + 1)?;
        Ok(())
    }

    /// The applicable side of an equation whose resolved sides begin with these words, the left one if both are. What
    /// the equation holds then goes to the container in which the name occurs besides.
    #[inline(always)]
    pub fn applicable(&mut self, left: Word, right: Word, place: usize) -> Option<Applicable>
        requires inside { place < length self.old.links.items }
        requires linked { IsLinked self.old.links.items }
        requires free { AreUnlinkedFrom place self.old.links.items }
        requires known { AreKnown self.old.links.items (found self.old.places) }
        ensures linked { IsLinked self.new.links.items }
        ensures length { length self.new.links.items ≡ length self.old.links.items }
        ensures free { AreUnlinkedFrom (place + 1) self.new.links.items }
        ensures places { self.new.places ≡ self.old.places }
        ensures chosen { (r : ℕ → ℕ) → IsRoot self.old.links.items r
            → IsChosen r place (found self.old.places) (heads left right)
            self.new.links.items result }
    {
        let (applicable, target) = first_outlet(&mut self.links, &self.places, left, right, place)?;
        self.links[place] = target;
        Some(applicable)
    }
}

//! Words with their names numbered anew.

ghost use Rattle.std.specs.Prelude.{◌≡◌, ◌==◌, ◌<◌, ℕ, false, get_or, length, map, if◌then◌else◌, IfOk};
ghost use Rattle.std.specs.List.{flat_map};
ghost use Rattle.ic_flat.specs.Words.{word_names};
ghost use Rattle.ic_naming.specs.Naming.{renamed_word, renumbered_words};
ghost use Rattle.ic_naming.specs.inner.Numbering.{AreListed, AreSpare, told_by};

use ic_flat::Word;
use ic_names::NameTable;
use ic_text::MAX_NAME;
use std::alloc::{AllocError, Global};

/// The words with names that may stand in a text: a name that occurs once keeps its number where that may stand there,
/// and all others are numbered by first occurrence, in place. Memory is said to have run out where there are 2^32 - 1
/// names or more.
pub fn renumbered_words(alloc: Global, words: Vec<Word>) -> Result<Vec<Word>, AllocError>
    ensures { IfOk result (λ out. out.items ≡ renumbered_words words.items) }
{
    let names = names_of(alloc, &words)?;
    let numbering = Numbering::new(alloc, &names)?;
    let mut words = words;
    number_words(&mut words, &numbering);
    Ok(words)
}

/// The names among words in their order, each as often as it occurs.
fn names_of(alloc: Global, words: &[Word]) -> Result<Vec<u64>, AllocError>
    ensures { IfOk result (λ names. names.items ≡ flat_map word_names words.now) }
{
    let mut names = Vec::with_capacity(alloc, words.len())?;
    for word in words {
        if let Word::Name(name) = *word {
            names.push(name)?;
        }
    }
    Ok(names)
}

/// Different names by their places in the order of their first occurrences, how many these are, and of each whether it occurs
/// once.
#[derive(Drop)]
struct Listed {
    places: NameTable,
    firsts: u32,
    single: Vec<bool>,
}

impl Listed {
    ghost use Rattle.ic_naming.specs.inner.Numbering.{is_listed_kept, place_in};

    /// The place of a name, or that after all.
    #[inline(always)]
    fn place(&self, name: u64) -> u32
        ensures { result ≡ place_in self.now name }
    {
        self.places.get(name).unwrap_or(self.firsts)
    }

    /// Whether a name with this place is kept.
    #[inline(always)]
    fn is_kept(&self, name: u64, place: u32) -> bool
        requires { place ≡ place_in self.now name }
        ensures { result ≡ is_listed_kept self.now name }
    {
        name <= MAX_NAME && self.single.get(place as usize).copied().unwrap_or(false)
    }
}

/// What some names are numbered by: their places, and the first numbers that are no names which are kept.
#[derive(Drop)]
struct Numbering {
    listed: Listed,
    spare: Vec<u64>,
}

impl Numbering {
    ghost use Rattle.ic_naming.specs.inner.Numbering.{IsNumbering, told_by};

    fn new(alloc: Global, names: &[u64]) -> Result<Numbering, AllocError>
        ensures { IfOk result (IsNumbering names.now) }
    {
        if names.len() >= u32::MAX as usize {
            return Err(AllocError);
        }
        let listed = list_names(alloc, names)?;
        let spare = spare_numbers(alloc, names, &listed)?;
        Ok(Numbering { listed, spare })
    }

    /// The name that a name is told by, among these. It is looked up once.
    fn told_name(&self, name: u64) -> u64
        ensures { result ≡ told_by self.now name }
    {
        let place = self.listed.place(name);
        if self.listed.is_kept(name, place) {
            return name;
        }
        self.spare.get(place as usize).copied().unwrap_or(0)
    }
}

/// The different names of a list.
fn list_names(alloc: Global, names: &[u64]) -> Result<Listed, AllocError>
    requires { length names.now < u32.MAX }
    ensures { IfOk result (AreListed names.now) }
{
    let mut places = NameTable::new(alloc, names)?;
    let mut firsts = 0u32;
    let mut single = Vec::new(alloc);
    for name in names {
        if let Some(place) = places.get(*name) {
            note_again(&mut single, place);
        } else {
            places.set(*name, firsts)?;
            firsts += 1;
            single.push(true)?;
        }
    }
    Ok(Listed {
        places,
        firsts,
        single,
    })
}

/// Notes that the name at a place occurs again.
fn note_again(single: &mut Vec<bool>, place: u32)
    ensures len { length single.new.items ≡ length single.old.items }
    ensures each { (j : ℕ) → get_or single.new.items j false
        ≡ if place == j then false else get_or single.old.items j false }
{
    if (place as usize) < single.len() {
        single[place as usize] = false;
    }
}

/// The first numbers that are no names which are kept, among names that are listed so: one more than the names that are
/// different, or all.
fn spare_numbers(alloc: Global, names: &[u64], listed: &Listed) -> Result<Vec<u64>, AllocError>
    requires { AreListed names.now listed.now }
    ensures { IfOk result (λ spare. AreSpare names.now listed.now.firsts spare.items) }
{
    let firsts = listed.firsts as usize;
    let mut spare = Vec::with_capacity(alloc, firsts.saturating_add(1))?;
    for number in 0..names.len() as u64 + names.len() as u64 {
        if spare.len() > firsts {
            return Ok(spare);
        }
        let place = listed.place(number);
        if !listed.is_kept(number, place) {
            spare.push(number)?;
        }
    }
    Ok(spare)
}

/// Turns the names of words into those that they are told by.
fn number_words(words: &mut Vec<Word>, numbering: &Numbering)
    ensures { words.new.items ≡ map (renamed_word (told_by numbering.now)) words.old.items }
{
    for place in 0..words.len() {
        words[place] = number_word(words[place], numbering);
    }
}

fn number_word(word: Word, numbering: &Numbering) -> Word
    ensures { result ≡ renamed_word (told_by numbering.now) word }
{
    match word {
        Word::Name(name) => Word::Name(numbering.told_name(name)),
        Word::Agent(sym, arity) => Word::Agent(sym, arity),
    }
}

//! A machine that begins with a configuration.

ghost use Rattle.std.specs.Prelude.{◌≡◌, ◌==◌, ◌↔◌, ℕ, ◌+◌, ◌<◌, ◌≤◌, [], false, not, map, length, take, drop, slice_index_or, if◌then◌else◌, IfOk};
ghost use Rattle.std.specs.List.{count_by, flat_map, Contains};
ghost use Rattle.ic_term.specs.Configuration.{configuration_nodes, configuration_names, occurrences};
ghost use Rattle.ic_flat.specs.Words.{word_names};
ghost use Rattle.ic_machine.specs.Net.{pieces};
ghost use Rattle.ic_machine.specs.Separate.{IsSeparate};
ghost use Rattle.ic_plans.specs.Beginning.{BeginsWith};
ghost use Rattle.ic_plans.specs.inner.Given.{AreListed, HaveRegisters, numbers_from, operand_links, singles};
ghost use Rattle.ic_plans.specs.inner.Laying.{IsLaidOut};

use crate::laying::lay;
use ic_flat::{WideSystem, Word};
use ic_machine::{Builder, Link, Machine, Program};
use ic_names::NameTable;
use std::alloc::{AllocError, Global};

/// The names of a machine that begins with a configuration.
#[derive(Drop)]
pub struct First {
    /// How many it has, besides those that are given.
    pub names: u32,
    /// Those that are given to it, in the order of their numbers.
    pub given: Vec<u64>,
}

/// The names and agents of a configuration, and what is to be linked.
#[derive(Drop)]
pub(crate) struct Laid {
    pub(crate) builder: Builder,
    pub(crate) first: First,
    pub(crate) interface: Vec<u32>,
    pub(crate) links: Vec<Link>,
}

/// The machine that begins with a configuration. It is given the names that occur once. It knows in which rounds the pairs would
/// fire that it runs, if it is to know that. Takes time and memory in proportion to the nodes.
pub fn begin(
    alloc: Global,
    program: &Program,
    system: &WideSystem,
    knows_rounds: bool,
) -> Result<(Machine, First), AllocError>
    requires arities { program.now.arities ≡ map (λ s. s.arity) system.now.rules.symbols }
    ensures begins { IfOk result (λ begun. BeginsWith system.now program.now
        begun.1.given.items begun.0) }
    ensures given { IfOk result (λ begun. (x : ℕ)
        → (occurrences x (configuration_names system.now.config) ≡ 1)
        ↔ Contains begun.1.given.items x) }
    ensures few { IfOk result (λ begun. length begun.1.given.items
        ≤ configuration_nodes system.now.config) }
    ensures arities { IfOk result (λ begun. begun.0.arities ≡ program.now.arities) }
    ensures aside { IfOk result (λ begun. begun.0.aside ≡ []) }
    ensures interactions { IfOk result (λ begun. begun.0.interactions ≡ 0) }
    ensures counts { IfOk result (λ begun.
        begun.0.counts ≡ map (λ plan. 0) program.now.plans) }
    ensures separate { IfOk result (λ begun.
        IsSeparate program.now.arities begun.0.interface (pieces begun.0)) }
{
    let Laid {
        builder,
        first,
        interface,
        links,
    } = lay_out(alloc, program, system)?;
    let machine = builder.finish(alloc, program, &links, &interface, knows_rounds)?;
    Ok((machine, first))
}

/// Makes the names and agents of a configuration.
pub(crate) fn lay_out(
    alloc: Global,
    program: &Program,
    system: &WideSystem,
) -> Result<Laid, AllocError>
    requires arities { program.now.arities ≡ map (λ s. s.arity) system.now.rules.symbols }
    ensures laid { IfOk result (λ laid. IsLaidOut (map (λ s. s.arity) system.now.rules.symbols)
        laid.first.given.items system.now.config laid.first.names laid.interface.items
        laid.links.items laid.builder) }
    ensures given { IfOk result (λ laid. (x : ℕ)
        → (occurrences x (configuration_names system.now.config) ≡ 1)
        ↔ Contains laid.first.given.items x) }
    ensures few { IfOk result (λ laid. length laid.first.given.items
        ≤ configuration_nodes system.now.config) }
{
    let config = system.config();
    let words = config.words();
    let count = system.rules().symbols().len() as u32;
    let occurring = names_of(alloc, words)?;
    let all = occurring.as_slice();
    let agents = words.len().saturating_sub(all.len());
    let (given, names, registers) = give_registers(alloc, all, count)?;
    drop(occurring);
    let mut builder = Builder::new(alloc, program, given.len() as u32, names, agents)?;
    let reads = registers.as_slice();
    let operands = lay(alloc, words, reads, &mut builder)?;
    let (interface, links) = split_operands(alloc, &operands, config.interface_len())?;
    let first = First { names, given };
    Ok(Laid {
        builder,
        first,
        interface,
        links,
    })
}

/// The names among words in their order, each as often as it occurs.
fn names_of(alloc: Global, words: &[Word]) -> Result<Vec<u64>, AllocError>
    ensures { IfOk result (λ names. names.items ≡ flat_map word_names words.now) }
{
    let mut names = Vec::with_capacity(alloc, words.len())?;
    for word in words {
        if let Word::Name(name) = *word {
            names.push(name)?;
        }
    }
    Ok(names)
}

/// The names of a list that occur once, how many others there are, and the register of each name of the list: those of names
/// that occur once from `start` on, and then those of the others.
fn give_registers(
    alloc: Global,
    names: &[u64],
    start: u32,
) -> Result<(Vec<u64>, u32, Vec<u32>), AllocError>
    requires { start + length names.now < u32.MAX }
    ensures { IfOk result
        (λ made. HaveRegisters names.now start made.0.items made.1 made.2.items) }
{
    let Listed {
        firsts,
        single,
        places,
    } = list_names(alloc, names)?;
    let different = firsts.as_slice();
    let marks = single.as_slice();
    let given = singles_of(alloc, different, marks)?;
    let others = firsts.len() - given.len();
    drop(firsts);
    let middle = start + given.len() as u32;
    let numbers = number_marks(alloc, marks, start, middle)?;
    let table = numbers.as_slice();
    let stands = places.as_slice();
    let registers = read_registers(alloc, stands, table)?;
    Ok((given, others as u32, registers))
}

/// Different names in the order of their first occurrences in a list, of each whether it occurs there once, and for each name
/// of the list its place among them.
#[derive(Drop)]
struct Listed {
    firsts: Vec<u64>,
    single: Vec<bool>,
    places: Vec<u32>,
}

/// The different names of a list.
fn list_names(alloc: Global, names: &[u64]) -> Result<Listed, AllocError>
    requires { length names.now < u32.MAX }
    ensures { IfOk result (λ listed. AreListed names.now listed.firsts.items listed.single.items
        listed.places.items) }
{
    let mut table = NameTable::new(alloc, names)?;
    let mut firsts = Vec::new(alloc);
    let mut single = Vec::new(alloc);
    let mut places = Vec::with_capacity(alloc, names.len())?;
    for name in names {
        if let Some(place) = table.get(*name) {
            note_again(&mut single, place);
            places.push(place)?;
        } else {
            let place = firsts.len() as u32;
            table.set(*name, place)?;
            firsts.push(*name)?;
            single.push(true)?;
            places.push(place)?;
        }
    }
    Ok(Listed {
        firsts,
        single,
        places,
    })
}

/// Notes that the name at a place occurs again.
fn note_again(single: &mut Vec<bool>, place: u32)
    ensures len { length single.new.items ≡ length single.old.items }
    ensures each { (j : ℕ) → slice_index_or single.new.items j false
        ≡ if place == j then false else slice_index_or single.old.items j false }
{
    if (place as usize) < single.len() {
        single[place as usize] = false;
    }
}

/// Whether there is a mark at a place.
fn is_marked(marks: &[bool], place: usize) -> bool
    ensures { result ≡ slice_index_or marks.now place false }
{
    match marks.get(place) {
        Some(mark) => *mark,
        None => false,
    }
}

/// The names that are marked.
fn singles_of(alloc: Global, names: &[u64], marks: &[bool]) -> Result<Vec<u64>, AllocError>
    requires { length marks.now ≡ length names.now }
    ensures { IfOk result (λ found. found.items ≡ singles names.now marks.now) }
{
    let mut found = Vec::new(alloc);
    for (place, name) in names.iter().enumerate() {
        if is_marked(marks, place) {
            found.push(*name)?;
        }
    }
    Ok(found)
}

/// A number for each mark: from `first` on for those that are set, and from `other` on for the others.
fn number_marks(
    alloc: Global,
    marks: &[bool],
    first: u32,
    other: u32,
) -> Result<Vec<u32>, AllocError>
    requires first { first + length marks.now < u32.MAX }
    requires other { other + count_by (λ mark. not mark) marks.now < u32.MAX }
    ensures { IfOk result (λ numbers. numbers.items ≡ numbers_from first other marks.now) }
{
    let mut numbers = Vec::with_capacity(alloc, marks.len())?;
    let mut set = first;
    let mut unset = other;
    for mark in marks {
        if *mark {
            numbers.push(set)?;
            set += 1;
        } else {
            numbers.push(unset)?;
            unset += 1;
        }
    }
    Ok(numbers)
}

/// The number at a place, or zero.
fn number_at(numbers: &[u32], place: u32) -> u32
    ensures { result ≡ slice_index_or numbers.now place 0 }
{
    match numbers.get(place as usize) {
        Some(number) => *number,
        None => 0,
    }
}

/// The numbers at some places.
fn read_registers(alloc: Global, places: &[u32], numbers: &[u32]) -> Result<Vec<u32>, AllocError>
    ensures { IfOk result (λ registers. registers.items
        ≡ map (λ place. slice_index_or numbers.now place 0) places.now) }
{
    let mut registers = Vec::with_capacity(alloc, places.len())?;
    for place in places {
        registers.push(number_at(numbers, *place))?;
    }
    Ok(registers)
}

/// The registers of so many terms, and those of the others two by two, as the sides of equations.
fn split_operands(
    alloc: Global,
    operands: &[u32],
    terms: usize,
) -> Result<(Vec<u32>, Vec<Link>), AllocError>
    requires { terms ≤ length operands.now }
    ensures interface { IfOk result (λ parts. parts.0.items ≡ take terms operands.now) }
    ensures links { IfOk result (λ parts. parts.1.items
        ≡ operand_links (drop terms operands.now)) }
{
    let interface = Vec::from_slice(alloc, &operands[..terms])?;
    let links = links_of_pairs(alloc, &operands[terms..])?;
    Ok((interface, links))
}

/// Registers two by two, as the sides of equations.
fn links_of_pairs(alloc: Global, operands: &[u32]) -> Result<Vec<Link>, AllocError>
    ensures { IfOk result (λ links. links.items ≡ operand_links operands.now) }
{
    let mut links = Vec::with_capacity(alloc, operands.len() / 2)?;
    for i in 0..operands.len() / 2 {
        links.push(Link {
            left: operands[2 * i],
            right: operands[2 * i + 1],
        })?;
    }
    Ok(links)
}

//! The plan of a rule: the registers of its names, its agents, and what is linked.

ghost use Rattle.std.specs.Prelude.{◌≡◌, ℕ, ◌+◌, ◌*◌, ◌<◌, ◌≤◌, ◌++◌, ◌∷◌, [], List, map, length, sum_by, IfOk, OnOk, IsSome, IsTrue};
ghost use Rattle.std.specs.List.{flat_map, list_all, AllByRecursion};
ghost use Rattle.ic_term.specs.Tree.{Tree, nodes};
ghost use Rattle.ic_term.specs.Term.{tree};
ghost use Rattle.ic_term.specs.Symbol.{Symbol, is_tree_over};
ghost use Rattle.ic_rules.specs.Rule.{Rule, rule_names};
ghost use Rattle.ic_rules.specs.Renaming.{are_paired};
ghost use Rattle.ic_flat.specs.Words.{tree_words, word_names};
ghost use Rattle.ic_machine.specs.Plan.{planned};
ghost use Rattle.ic_meaning.specs.Plans.{Argument, arguments_from, is_read};
ghost use Rattle.ic_plans.specs.inner.Registers.{AreFreshNames, AreRegisters, IsPlanFor, found, links_of, register_of};

use crate::flattening::flatten;
use ic_flat::{Word, write_terms};
use ic_machine::{Link, Plan};
use ic_names::NameTable;
use ic_term::Term;
use std::alloc::{AllocError, Global};

/// Has a name that is an argument by itself read from the argument's register, if it has none yet.
fn read_argument(term: &Term, own: u32, registers: &mut NameTable) -> Result<(), AllocError>
    requires { own < u32.MAX }
    ensures { OnOk result
        ((arguments : List Argument) (start : ℕ) → AllByRecursion (λ a. a.register < own) arguments
        → AreRegisters arguments start 0 registers.old
        → AreRegisters (arguments ++ record { register = own; term = tree term.now } ∷ []) start 0
        registers.new) }
{
    if let Term::Name(name) = term {
        if registers.get(*name).is_none() {
            registers.set(*name, own)?;
        }
    }
    Ok(())
}

/// The same of arguments, the first of which is in the register `from`.
fn read_arguments(terms: &[Term], from: u32, registers: &mut NameTable) -> Result<(), AllocError>
    requires { from + length terms.now ≤ u32.MAX }
    ensures { OnOk result
        ((count start : ℕ) (before : List Tree) → from ≡ count + length before
        → AreRegisters (arguments_from count before) start 0 registers.old
        → AreRegisters (arguments_from count (before ++ map tree terms.now)) start 0
        registers.new) }
{
    for (i, term) in terms.iter().enumerate() {
        read_argument(term, from + i as u32, registers)?;
    }
    Ok(())
}

/// Gives each name that has no register a fresh one, the first of which is `start`, and tells how many these are.
fn add_fresh(names: usize, start: u32, registers: &mut NameTable) -> Result<u32, AllocError>
    requires { start + names ≤ u32.MAX }
    ensures few { IfOk result (λ fresh. fresh ≤ names) }
    ensures all { OnOk result ((x : ℕ) → x < names → IsSome (found registers.new x)) }
    ensures used { IfOk result (λ fresh. AreFreshNames names start fresh registers.new) }
    ensures registers { IfOk result
        (λ fresh. (arguments : List Argument) → AllByRecursion (λ a. a.register < start) arguments
        → AreRegisters arguments start 0 registers.old
        → AreRegisters arguments start fresh registers.new) }
{
    let mut fresh = 0u32;
    for number in 0..names {
        let name = number as u64;
        if registers.get(name).is_none() {
            registers.set(name, start + fresh)?;
            fresh += 1;
        }
    }
    Ok(fresh)
}

/// Whether an argument is a name that is read from the argument's register.
fn is_read(term: &Term, own: u32, registers: &NameTable) -> bool
    ensures { result
        ≡ is_read (register_of registers.now) (record { register = own; term = tree term.now }) }
{
    match term {
        Term::Name(name) => registers.get(*name).unwrap_or(0) == own,
        Term::Agent(_) => false,
    }
}

/// Links arguments, the first of which is in the register `from`, with the registers of their terms.
fn link_arguments(
    terms: &[Term],
    from: u32,
    registers: &NameTable,
    operands: &[u32],
    links: &mut Vec<Link>,
) -> Result<(), AllocError>
    requires counted { length operands.now ≡ length terms.now }
    requires room { from + length terms.now ≤ u32.MAX }
    ensures { OnOk result (links.new.items
        ≡ links.old.items ++ links_of (register_of registers.now)
        (arguments_from from (map tree terms.now)) operands.now) }
{
    for (i, term) in terms.iter().enumerate() {
        let own = from + i as u32;
        if !is_read(term, own, registers) {
            links.push(Link {
                left: own,
                right: operands[i],
            })?;
        }
    }
    Ok(())
}

/// The plan of a rule with these arguments and so many names, the agents without arguments being in so many registers.
pub(crate) fn plan_of_arguments(
    alloc: Global,
    constants: u32,
    names: usize,
    left: &[Term],
    right: &[Term],
) -> Result<Plan, AllocError>
    requires room { constants + length left.now + length right.now + names
        + sum_by nodes (map tree left.now ++ map tree right.now) ≤ u32.MAX }
    ensures { IfOk result
        (λ plan. (ss : List Symbol) (r : Rule) → length ss ≡ constants → r.names ≡ names
        → r.left_args ≡ map tree left.now → r.right_args ≡ map tree right.now
        → AllByRecursion (λ x. x < names) (rule_names r) → IsTrue (are_paired (rule_names r))
        → IsTrue (list_all (is_tree_over ss) (r.left_args ++ r.right_args))
        → IsPlanFor (map (λ s. s.arity) ss) r (planned plan)) }
{
    let (registers, fresh) = registers_of(alloc, constants, names, left, right)?;
    let words = words_of_sides(alloc, left, right)?;
    let first = constants + left.len() as u32 + right.len() as u32 + fresh;
    let sides = words.as_slice();
    let reads = read_names(alloc, sides, &registers)?;
    let told = reads.as_slice();
    let (makes, operands) = flatten(alloc, sides, told, first)?;
    let links = links_of_sides(alloc, constants, left, right, &registers, &operands)?;
    Ok(Plan {
        names: fresh,
        makes,
        links,
    })
}

/// The register of each name, and how many of these are fresh.
fn registers_of(
    alloc: Global,
    constants: u32,
    names: usize,
    left: &[Term],
    right: &[Term],
) -> Result<(NameTable, u32), AllocError>
    requires room { constants + length left.now + length right.now + names ≤ u32.MAX }
    ensures few { IfOk result (λ made. made.1 ≤ names) }
    ensures all { IfOk result (λ made. (x : ℕ) → x < names → IsSome (found made.0 x)) }
    ensures used { IfOk result (λ made. AreFreshNames names
        (constants + length left.now + length right.now) made.1 made.0) }
    ensures registers { IfOk result (λ made. AreRegisters
        (arguments_from constants (map tree left.now ++ map tree right.now))
        (constants + length left.now + length right.now) made.1 made.0) }
{
    let middle = constants + left.len() as u32;
    let start = middle + right.len() as u32;
    let mut registers = NameTable::new(alloc, &[])?;
    read_arguments(left, constants, &mut registers)?;
    read_arguments(right, middle, &mut registers)?;
    let fresh = add_fresh(names, start, &mut registers)?;
    Ok((registers, fresh))
}

/// The words of the arguments of both sides.
fn words_of_sides(alloc: Global, left: &[Term], right: &[Term]) -> Result<Vec<Word>, AllocError>
    ensures { IfOk result (λ words. words.items
        ≡ flat_map tree_words (map tree left.now ++ map tree right.now)) }
{
    let mut words = Vec::new(alloc);
    write_terms(alloc, left, &mut words)?;
    write_terms(alloc, right, &mut words)?;
    Ok(words)
}

/// The register of a name, or zero.
fn register_for(registers: &NameTable, name: u64) -> u32
    ensures { result ≡ register_of registers.now name }
{
    registers.get(name).unwrap_or(0)
}

/// The registers of the names among words, in their order.
fn read_names(alloc: Global, words: &[Word], registers: &NameTable) -> Result<Vec<u32>, AllocError>
    ensures { IfOk result (λ reads. reads.items
        ≡ map (register_of registers.now) (flat_map word_names words.now)) }
{
    let mut reads = Vec::new(alloc);
    for word in words {
        if let Word::Name(name) = *word {
            reads.push(register_for(registers, name))?;
        }
    }
    Ok(reads)
}

/// The arguments of both sides, linked with the registers of their terms.
fn links_of_sides(
    alloc: Global,
    constants: u32,
    left: &[Term],
    right: &[Term],
    registers: &NameTable,
    operands: &[u32],
) -> Result<Vec<Link>, AllocError>
    requires counted { length operands.now ≡ length left.now + length right.now }
    requires room { constants + length left.now + length right.now ≤ u32.MAX }
    ensures { IfOk result (λ links. links.items
        ≡ links_of (register_of registers.now)
        (arguments_from constants (map tree left.now ++ map tree right.now)) operands.now) }
{
    let middle = left.len();
    let mut links = Vec::new(alloc);
    link_arguments(left, constants, registers, &operands[..middle], &mut links)?;
    let from = constants + middle as u32;
    link_arguments(right, from, registers, &operands[middle..], &mut links)?;
    Ok(links)
}

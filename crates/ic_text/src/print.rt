//! Printing a configuration, and the line of a refusal.

ghost use Rattle.std.specs.Prelude.{◌≡◌, ◌+◌, ◌++◌, IfOk, OnOk, IsTrue, map};
ghost use Rattle.std.specs.Fmt.{decimal};
ghost use Rattle.std.specs.List.{list_all};
ghost use Rattle.ic_term.specs.Symbol.{is_tree_over, is_pair_over, is_over};
ghost use Rattle.ic_term.specs.Term.{tree, cell_tree, pair};
ghost use Rattle.ic_text.specs.Name.{name_text};
ghost use Rattle.ic_text.specs.inner.Printing.{terms_text, equation_text, equations_text};
ghost use Rattle.ic_text.specs.Text.{term_text, printed, fault_text};

use crate::fault::TextFault;
use ic_term::{Cell, Config, Equation, Symbols, Term};
use itoa::Buffer;
use std::alloc::{AllocError, Global};

/// Appends a number in digits. A single digit is pushed in place, since most numbers are small.
#[inline(always)]
pub fn put_decimal(number: u64, out: &mut Vec<u8>) -> Result<(), AllocError>
    ensures { OnOk result (out.new.items ≡ out.old.items ++ decimal number) }
{
    if number < 10 {
        out.push(b'0' + number as u8)?;
        return Ok(());
    }
    put_digits(number, out)
}

/// Appends a number in digits.
#[inline(never)]
fn put_digits(number: u64, out: &mut Vec<u8>) -> Result<(), AllocError>
    ensures { OnOk result (out.new.items ≡ out.old.items ++ decimal number) }
{
    let mut digits = Buffer::new();
    out.extend_from_slice(digits.format(number).as_bytes())
}

/// Appends the text of a name.
pub fn put_name(name: u64, out: &mut Vec<u8>) -> Result<(), AllocError>
    ensures { OnOk result (out.new.items ≡ out.old.items ++ name_text name) }
{
    out.push(b'a' + (name % 26) as u8)?;
    if name >= 26 {
        put_decimal(name / 26, out)?;
    }
    Ok(())
}

/// Appends a term.
#[cycle(put)]
fn put_term(symbols: &Symbols, term: &Term, out: &mut Vec<u8>) -> Result<(), AllocError>
    requires { IsTrue (is_tree_over symbols.now (tree term.now)) }
    ensures { OnOk result (out.new.items ≡ out.old.items ++ term_text symbols.now (tree term.now)) }
{
    match term {
        Term::Name(name) => put_name(*name, out),
        Term::Agent(cell) => put_cell(symbols, cell, out),
    }
}

/// Appends the text of an agent. Recurses on nesting, which the number of its nodes bounds. Where a growth is refused a part
/// of it may stand there.
#[cycle(put)]
pub fn put_cell(symbols: &Symbols, cell: &Cell, out: &mut Vec<u8>) -> Result<(), AllocError>
    requires { IsTrue (is_tree_over symbols.now (cell_tree cell.now)) }
    ensures { OnOk result
        (out.new.items ≡ out.old.items ++ term_text symbols.now (cell_tree cell.now)) }
{
    out.extend_from_slice(symbols.text(cell.sym))?;
    let mut sign = b'(';
    for term in &cell.args {
        out.push(sign)?;
        put_term(symbols, term, out)?;
        sign = b',';
    }
    if !cell.args.is_empty() {
        out.push(b')')?;
    }
    Ok(())
}

/// Appends the terms of an interface.
fn put_interface(symbols: &Symbols, terms: &[Term], out: &mut Vec<u8>) -> Result<(), AllocError>
    requires { IsTrue (list_all (is_tree_over symbols.now) (map tree terms.now)) }
    ensures { OnOk result
        (out.new.items ≡ out.old.items ++ terms_text symbols.now (map tree terms.now)) }
{
    for (place, term) in terms.iter().enumerate() {
        if place > 0 {
            out.push(b',')?;
        }
        put_term(symbols, term, out)?;
    }
    Ok(())
}

/// Appends an equation.
fn put_equation(symbols: &Symbols, equation: &Equation, out: &mut Vec<u8>) -> Result<(), AllocError>
    requires { IsTrue (is_pair_over symbols.now (pair equation.now)) }
    ensures { OnOk result
        (out.new.items ≡ out.old.items ++ equation_text symbols.now (pair equation.now)) }
{
    put_term(symbols, &equation.left, out)?;
    out.push(b'=')?;
    put_term(symbols, &equation.right, out)
}

/// Appends equations.
fn put_equations(
    symbols: &Symbols,
    equations: &[Equation],
    out: &mut Vec<u8>,
) -> Result<(), AllocError>
    requires { IsTrue (list_all (is_pair_over symbols.now) (map pair equations.now)) }
    ensures { OnOk result
        (out.new.items ≡ out.old.items ++ equations_text symbols.now (map pair equations.now)) }
{
    for (place, equation) in equations.iter().enumerate() {
        if place > 0 {
            out.push(b',')?;
        }
        put_equation(symbols, equation, out)?;
    }
    Ok(())
}

/// Appends the text of a configuration, as `print_config` writes it. Recurses on nesting, which the number of its nodes
/// bounds. Where a growth is refused a part of it may stand there.
pub fn put_config(symbols: &Symbols, config: &Config, out: &mut Vec<u8>) -> Result<(), AllocError>
    requires { IsTrue (is_over symbols.now config.now) }
    ensures { OnOk result (out.new.items ≡ out.old.items ++ printed symbols.now config.now) }
{
    out.push(b'<')?;
    put_interface(symbols, config.interface(), out)?;
    out.push(b'|')?;
    put_equations(symbols, config.equations(), out)?;
    out.push(b'>')?;
    Ok(())
}

/// The text of a configuration without blanks, each name in its one spelling. Recurses on nesting, which the
/// number of its nodes bounds.
pub fn print_config(
    alloc: Global,
    symbols: &Symbols,
    config: &Config,
) -> Result<Vec<u8>, AllocError>
    requires { IsTrue (is_over symbols.now config.now) }
    ensures { IfOk result (λ text. text.items ≡ printed symbols.now config.now) }
{
    let mut out = Vec::new(alloc);
    put_config(symbols, config, &mut out)?;
    Ok(out)
}

/// The line of a refusal, without its end.
pub fn print_fault(alloc: Global, fault: &TextFault) -> Result<Vec<u8>, AllocError>
    ensures { IfOk result (λ text. text.items ≡ fault_text fault.now) }
{
    match *fault {
        TextFault::Syntax => Vec::from_slice(alloc, b"bad syntax"),
        TextFault::Limit => Vec::from_slice(alloc, b"bad limit"),
        TextFault::Arity => Vec::from_slice(alloc, b"bad arity"),
        TextFault::NameCount(rule) => place_line(alloc, b"bad namecount ", rule),
        TextFault::Name(name) => {
            let mut out = Vec::from_slice(alloc, b"bad name ")?;
            put_name(name, &mut out)?;
            Ok(out)
        }
        TextFault::Twice(rule) => place_line(alloc, b"bad twice ", rule),
        TextFault::Lopsided(rule) => place_line(alloc, b"bad lopsided ", rule),
        TextFault::Memory => Vec::from_slice(alloc, b"bad memory"),
    }
}

/// A text and the place of a rule, counted from 1.
fn place_line(alloc: Global, text: &[u8], rule: u32) -> Result<Vec<u8>, AllocError>
    ensures { IfOk result (λ line. line.items ≡ text.now ++ decimal (rule + 1)) }
{
    let mut line = Vec::from_slice(alloc, text)?;
    put_decimal(u64::from(rule) + 1, &mut line)?;
    Ok(line)
}

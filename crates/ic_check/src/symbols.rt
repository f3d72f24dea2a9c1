//! The symbols of terms, rules and configurations, in the order of the text.

ghost use Rattle.std.specs.Prelude.{◌≡◌, ◌++◌, map, IfOk, OnOk};
ghost use Rattle.std.specs.List.{flat_map};
ghost use Rattle.ic_term.specs.Term.{cell_tree, pair, tree};
ghost use Rattle.ic_confluence.specs.Agents.{symbols, pair_symbols, configuration_symbols};
ghost use Rattle.ic_check.specs.Warnings.{made_symbols};

use ic_rules::Rule;
use ic_term::{Cell, Config, Equation, Term};
use std::alloc::{AllocError, Global};

/// Appends the symbols of a term. It recurses as deep as the term.
#[cycle(put)]
fn put_term(term: &Term, out: &mut Vec<u32>) -> Result<(), AllocError>
    ensures { OnOk result (out.new.items ≡ out.old.items ++ symbols (tree term.now)) }
{
    match term {
        Term::Name(_) => Ok(()),
        Term::Agent(cell) => put_cell(cell, out),
    }
}

#[cycle(put)]
fn put_cell(cell: &Cell, out: &mut Vec<u32>) -> Result<(), AllocError>
    ensures { OnOk result (out.new.items ≡ out.old.items ++ symbols (cell_tree cell.now)) }
{
    out.push(cell.sym)?;
    for term in &cell.args {
        put_term(term, out)?;
    }
    Ok(())
}

/// Appends the symbols of terms.
fn put_terms(terms: &[Term], out: &mut Vec<u32>) -> Result<(), AllocError>
    ensures { OnOk result
        (out.new.items ≡ out.old.items ++ flat_map symbols (map tree terms.now)) }
{
    for term in terms {
        put_term(term, out)?;
    }
    Ok(())
}

fn put_equation(equation: &Equation, out: &mut Vec<u32>) -> Result<(), AllocError>
    ensures { OnOk result
        (out.new.items ≡ out.old.items ++ pair_symbols (pair equation.now)) }
{
    put_term(&equation.left, out)?;
    put_term(&equation.right, out)
}

/// Appends the symbols of equations.
fn put_equations(equations: &[Equation], out: &mut Vec<u32>) -> Result<(), AllocError>
    ensures { OnOk result
        (out.new.items ≡ out.old.items ++ flat_map pair_symbols (map pair equations.now)) }
{
    for equation in equations {
        put_equation(equation, out)?;
    }
    Ok(())
}

/// Appends the symbols of a configuration.
pub(crate) fn put_config(config: &Config, out: &mut Vec<u32>) -> Result<(), AllocError>
    ensures { OnOk result (out.new.items ≡ out.old.items ++ configuration_symbols config.now) }
{
    put_terms(config.interface(), out)?;
    put_equations(config.equations(), out)
}

/// Appends the symbols of a rule's arguments.
fn put_made(rule: &Rule, out: &mut Vec<u32>) -> Result<(), AllocError>
    ensures { OnOk result (out.new.items ≡ out.old.items ++ made_symbols rule.now) }
{
    put_terms(rule.left_args(), out)?;
    put_terms(rule.right_args(), out)
}

/// The symbols of a rule's arguments.
pub(crate) fn made_symbols(alloc: Global, rule: &Rule) -> Result<Vec<u32>, AllocError>
    ensures { IfOk result (λ made. made.items ≡ made_symbols rule.now) }
{
    let mut made = Vec::new(alloc);
    put_made(rule, &mut made)?;
    Ok(made)
}

/// Appends the symbols of a rule.
fn put_rule(rule: &Rule, out: &mut Vec<u32>) -> Result<(), AllocError> {
    out.push(rule.left())?;
    out.push(rule.right())?;
    put_made(rule, out)
}

/// Appends the symbols of rules.
fn put_rules(rules: &[Rule], out: &mut Vec<u32>) -> Result<(), AllocError> {
    for rule in rules {
        put_rule(rule, out)?;
    }
    Ok(())
}

/// The symbols of rules and a configuration.
pub(crate) fn text_symbols(
    alloc: Global,
    rules: &[Rule],
    config: &Config,
) -> Result<Vec<u32>, AllocError> {
    let mut all = Vec::new(alloc);
    put_rules(rules, &mut all)?;
    put_config(config, &mut all)?;
    Ok(all)
}

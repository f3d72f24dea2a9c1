//! Rules as text.

ghost use Rattle.std.specs.Prelude.{◌≡◌, ◌++◌, map, IfOk, OnOk};
ghost use Rattle.std.specs.List.{AllByRecursion};
ghost use Rattle.ic_term.specs.Term.{tree, cell_tree};
ghost use Rattle.ic_term.specs.Tree.{agent, trees_of};
ghost use Rattle.ic_term.specs.Configuration.{Configuration};
ghost use Rattle.ic_rules.specs.RuleSet.{IsRuleOver};
ghost use Rattle.ic_text.specs.Text.{printed};
ghost use Rattle.ic_dump.specs.Telling.{rules_text, system_text};
ghost use Rattle.ic_dump.specs.inner.Printing.{rule_text, rules_list_text};

use ic_rules::{Rule, RuleSet};
use ic_term::{Cell, Symbols, Term, copy_terms};
use ic_text::put_cell;
use std::alloc::{AllocError, Global};

/// What stands before a configuration in the text of a system: the rules and a space.
pub fn front_of_system(alloc: Global, rules: &RuleSet) -> Result<Vec<u8>, AllocError>
    ensures { IfOk result (λ front. (c : Configuration)
        → front.items ++ printed rules.now.symbols c
        ≡ system_text (record { rules = rules.now; config = c })) }
{
    let mut front = Vec::new(alloc);
    put_rules(alloc, rules, &mut front)?;
    front.push(b' ')?;
    Ok(front)
}

/// Appends the rules, in braces and with `;` between them.
pub(crate) fn put_rules(alloc: Global, rules: &RuleSet, out: &mut Vec<u8>) -> Result<(), AllocError>
    ensures { OnOk result (out.new.items ≡ out.old.items ++ rules_text rules.now) }
{
    out.push(b'{')?;
    put_rule_list(alloc, rules.symbols(), rules.rules(), out)?;
    out.push(b'}')?;
    Ok(())
}

/// Appends rules with `;` between them.
fn put_rule_list(
    alloc: Global,
    symbols: &Symbols,
    rules: &[Rule],
    out: &mut Vec<u8>,
) -> Result<(), AllocError>
    requires { AllByRecursion (IsRuleOver symbols.now) rules.now }
    ensures { OnOk result (out.new.items ≡ out.old.items ++ rules_list_text symbols.now rules.now) }
{
    for (place, rule) in rules.iter().enumerate() {
        if place > 0 {
            out.push(b';')?;
        }
        put_rule(alloc, symbols, rule, out)?;
    }
    Ok(())
}

/// Appends a rule.
fn put_rule(
    alloc: Global,
    symbols: &Symbols,
    rule: &Rule,
    out: &mut Vec<u8>,
) -> Result<(), AllocError>
    requires { IsRuleOver symbols.now rule.now }
    ensures { OnOk result (out.new.items ≡ out.old.items ++ rule_text symbols.now rule.now) }
{
    let left = cell_of(alloc, rule.left(), rule.left_args())?;
    put_cell(symbols, &left, out)?;
    out.extend_from_slice(b"><")?;
    let right = cell_of(alloc, rule.right(), rule.right_args())?;
    put_cell(symbols, &right, out)
}

/// An agent of this symbol with copies of these arguments.
fn cell_of(alloc: Global, sym: u32, args: &[Term]) -> Result<Cell, AllocError>
    ensures { IfOk result (λ cell. cell_tree cell ≡ agent sym (trees_of (map tree args.now))) }
{
    Ok(Cell {
        sym,
        args: copy_terms(alloc, args)?,
    })
}

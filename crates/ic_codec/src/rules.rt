//! Rules as bytes, and back.

ghost use Rattle.std.specs.Prelude.{◌≡◌, ◌≢◌, ◌≤◌, ◌<◌, ◌∷◌, ◌++◌, ℕ, List, Ok, length, map, IfOk, IfErr};
ghost use Rattle.ic_rules.specs.Rule.{rule_nodes};
ghost use Rattle.ic_rules.specs.RuleSet.{Rules, built};
ghost use Rattle.ic_rules.specs.Written.{written};
ghost use Rattle.ic_codec.specs.inner.Fronts.{BeginsWithOne, BeginsWithNoOne, BeginsWithMany, BeginsWithNoMany, BeginsWith, BeginsWithNone, IsRuleSetOver, set_bytes};
ghost use Rattle.ic_codec.specs.declared.fault.CodecFault.TheVariants.{NotATable};
ghost use Rattle.std.specs.List.{flat_map};
ghost use Rattle.ic_codec.specs.inner.Room.{Fits, Appended};
ghost use Rattle.ic_codec.specs.Rules.{rule_bytes, rules_bytes};
ghost use Rattle.ic_codec.specs.inner.Forms.{HasRuleBytes};

use crate::fault::CodecFault;
use crate::fields::{byte_at, put_byte, put_two_bytes, two_bytes_at};
use crate::terms::{put_terms, terms_at};
use ic_rules::laws::{build_takes_rule_sets, refusals_come_in_order};
use ic_rules::{MAX_RULE_NODES, MAX_RULES, Rule, RuleFault, RuleSet, has_numbered_names};
use ic_term::{Cell, Symbols};
use std::alloc::Global;

/// Appends the number of rules, then each of them in order.
pub(crate) fn put_rules(rules: &[Rule], out: &mut Vec<u8>)
    requires few { length rules.now ≤ 256 }
    requires fits { Fits out.old (rules_bytes rules.now) }
    ensures { Appended out.old out.new (rules_bytes rules.now) }
{
    put_two_bytes(rules.len() as u16, out);
    for rule in rules {
        put_rule(rule, out);
    }
}

fn put_rule(rule: &Rule, out: &mut Vec<u8>)
    requires { Fits out.old (rule_bytes rule.now) }
    ensures { Appended out.old out.new (rule_bytes rule.now) }
{
    put_byte(rule.left() as u8, out);
    put_byte(rule.right() as u8, out);
    put_terms(rule.left_args(), out);
    put_terms(rule.right_args(), out);
}

/// A rule set over these symbols, the number of its rules first, and the bytes after it.
pub(crate) fn rule_set_at(
    alloc: Global,
    symbols: Symbols,
    bytes: &[u8],
) -> Result<(RuleSet, &[u8]), CodecFault>
    requires { length symbols ≤ 64 }
    ensures read { IfOk result (λ r.
        BeginsWith (IsRuleSetOver symbols) set_bytes bytes.now r.0 r.1.now) }
    ensures refused { IfErr result (λ fault. fault ≡ NotATable
        → BeginsWithNone (IsRuleSetOver symbols) set_bytes bytes.now) }
{
    build_takes_rule_sets();
    refusals_come_in_order();
    let (count, rest) = two_bytes_at(bytes)?;
    if count as usize > MAX_RULES {
        return Err(CodecFault::NotATable);
    }
    let (rules, _, rest) = rules_at(alloc, &symbols, count as usize, rest)?;
    let set = build(alloc, symbols, rules)?;
    Ok((set, rest))
}

/// The rule set of rules, if they make one.
fn build(alloc: Global, symbols: Symbols, rules: Vec<(Cell, Cell)>) -> Result<RuleSet, CodecFault>
    ensures built { IfOk result (λ set. Ok set ≡ built symbols (map written rules.items)) }
    ensures refused { IfErr result (λ fault. fault ≡ NotATable
        → (set : Rules) → built symbols (map written rules.items) ≢ Ok set) }
{
    match RuleSet::build(alloc, symbols, rules) {
        Ok(set) => Ok(set),
        Err(RuleFault::Memory) => Err(CodecFault::Memory),
        Err(_) => Err(CodecFault::NotATable),
    }
}

/// So many rules with at most 2,048 nodes together, how many are left, and the bytes after them.
fn rules_at<'a>(
    alloc: Global,
    symbols: &Symbols,
    count: usize,
    bytes: &'a [u8],
) -> Result<(Vec<(Cell, Cell)>, u64, &'a [u8]), CodecFault>
    requires { length symbols.now ≤ 64 }
    ensures read { IfOk result (λ r.
        BeginsWithMany (HasRuleBytes symbols.now) rule_bytes rule_nodes count 2048 bytes.now
        (map written r.0.items) r.1 r.2.now) }
    ensures refused { IfErr result (λ fault. fault ≡ NotATable
        → BeginsWithNoMany (HasRuleBytes symbols.now) rule_bytes rule_nodes count 2048 bytes.now) }
{
    let mut rules = Vec::with_capacity(alloc, count.min(MAX_RULES))?;
    let mut left = MAX_RULE_NODES;
    let mut rest = bytes;
    for _ in 0..count {
        let (rule, now_left, now_rest) = rule_at(alloc, symbols, left, rest)?;
        rules.push(rule)?;
        left = now_left;
        rest = now_rest;
    }
    Ok((rules, left, rest))
}

/// A rule whose arguments have at most so many nodes, how many are left, and the bytes after it.
fn rule_at<'a>(
    alloc: Global,
    symbols: &Symbols,
    budget: u64,
    bytes: &'a [u8],
) -> Result<((Cell, Cell), u64, &'a [u8]), CodecFault>
    requires { length symbols.now ≤ 64 }
    ensures read { IfOk result (λ r.
        BeginsWithOne (HasRuleBytes symbols.now) rule_bytes rule_nodes budget bytes.now
        (written r.0) r.1 r.2.now) }
    ensures refused { IfErr result (λ fault. fault ≡ NotATable
        → BeginsWithNoOne (HasRuleBytes symbols.now) rule_bytes rule_nodes budget bytes.now) }
{
    let (left, rest) = symbol_at(symbols, bytes)?;
    let (right, rest) = symbol_at(symbols, rest)?;
    let (left_args, budget, rest) = terms_at(alloc, symbols, symbols.arity(left), budget, rest)?;
    let (right_args, budget, rest) = terms_at(alloc, symbols, symbols.arity(right), budget, rest)?;
    let rule = (
        Cell {
            sym: left,
            args: left_args,
        },
        Cell {
            sym: right,
            args: right_args,
        },
    );
    let numbered = has_numbered_names(alloc, &rule.0, &rule.1)?;
    if numbered {
        return Ok((rule, budget, rest));
    }
    Err(CodecFault::NotATable)
}

/// The number of a known symbol, and the bytes after it.
fn symbol_at<'a>(symbols: &Symbols, bytes: &'a [u8]) -> Result<(u32, &'a [u8]), CodecFault>
    ensures read { IfOk result (λ r. bytes.now ≡ r.0 ∷ r.1.now) }
    ensures known { IfOk result (λ r. r.0 < length symbols.now) }
    ensures refused { IfErr result (λ fault. fault ≡ NotATable
        → (sym : ℕ) (rest : List ℕ) → sym < length symbols.now → bytes.now ≢ sym ∷ rest) }
{
    let (sym, rest) = byte_at(bytes)?;
    if sym as usize >= symbols.len() {
        return Err(CodecFault::NotATable);
    }
    Ok((sym as u32, rest))
}

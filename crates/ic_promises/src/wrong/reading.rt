//! Readers that take what is to be refused, and a builder of rule sets that does.

ghost use Rattle.std.specs.Prelude.{◌≡◌, ◌≢◌, ℕ, List, ◌⊎◌, [], IfOk, IfErr, Ok, Err, map};
ghost use Rattle.ic_rules.specs.RuleFault.{Answers};
ghost use Rattle.ic_rules.specs.RuleSet.{built};
ghost use Rattle.ic_rules.specs.Written.{written};
ghost use Rattle.ic_text.specs.SystemText.{ReadsSystem, IsSystemText};

use ic_rules::{RuleFault, RuleSet, System};
use ic_term::{Cell, Symbols};
use ic_text::{TextFault, read_system};
use std::alloc::{AllocError, Global};

/// Reads a text without its empty parentheses, where its syntax is refused: so `A()` is taken as `A`.
pub fn takes_empty_parentheses(alloc: Global, text: &[u8]) -> Result<System, TextFault>
    ensures another { IfOk result (λ system. (other : List ℕ) × ReadsSystem other (Ok system)) }
    ensures refused { IfErr result
        (λ fault. fault ≢ TextFault.Memory → ReadsSystem text.now (Err fault)) }
    ensures memory { result ≡ Err TextFault.Memory → IsSystemText text.now }
{
    let other = without_empty_parentheses(alloc, text);
    match (read_system(alloc, text), other) {
        (Err(TextFault::Syntax), Ok(other)) => read_or_refuse(alloc, &other, TextFault::Syntax),
        (answer, _) => answer,
    }
}

/// Reads a text without each `0` after a small letter, where its syntax is refused: so `x0` is taken as `x`.
pub fn takes_leading_zero(alloc: Global, text: &[u8]) -> Result<System, TextFault>
    ensures another { IfOk result (λ system. (other : List ℕ) × ReadsSystem other (Ok system)) }
    ensures refused { IfErr result
        (λ fault. fault ≢ TextFault.Memory → ReadsSystem text.now (Err fault)) }
    ensures memory { result ≡ Err TextFault.Memory → IsSystemText text.now }
{
    let other = without_leading_zeros(alloc, text);
    match (read_system(alloc, text), other) {
        (Err(TextFault::Syntax), Ok(other)) => read_or_refuse(alloc, &other, TextFault::Syntax),
        (answer, _) => answer,
    }
}

/// Reads a text without its rules, where one of them is lopsided.
pub fn takes_lopsided_rule(alloc: Global, text: &[u8]) -> Result<System, TextFault>
    ensures another { IfOk result (λ system. (other : List ℕ) × ReadsSystem other (Ok system)) }
    ensures refused { IfErr result
        (λ fault. fault ≢ TextFault.Memory → ReadsSystem text.now (Err fault)) }
    ensures memory { result ≡ Err TextFault.Memory → IsSystemText text.now }
{
    let other = without_rules(alloc, text);
    match (read_system(alloc, text), other) {
        (Err(TextFault::Lopsided(rule)), Ok(other)) => {
            read_or_refuse(alloc, &other, TextFault::Lopsided(rule))
        }
        (answer, _) => answer,
    }
}

/// The system that a text is read as, or this refusal.
fn read_or_refuse(alloc: Global, text: &[u8], fault: TextFault) -> Result<System, TextFault>
    ensures read { IfOk result (λ system. ReadsSystem text.now (Ok system)) }
    ensures refused { IfErr result (λ it. it ≡ fault) }
{
    match read_system(alloc, text) {
        Ok(system) => Ok(system),
        Err(_) => Err(fault),
    }
}

/// A text without each `()` in it.
fn without_empty_parentheses(alloc: Global, text: &[u8]) -> Result<Vec<u8>, AllocError> {
    let mut kept = Vec::new(alloc);
    for byte in text {
        if *byte == b')' && kept.last() == Some(&b'(') {
            kept.pop();
        } else {
            kept.push(*byte)?;
        }
    }
    Ok(kept)
}

/// A text without each `0` after a small letter.
fn without_leading_zeros(alloc: Global, text: &[u8]) -> Result<Vec<u8>, AllocError> {
    let mut kept: Vec<u8> = Vec::new(alloc);
    for byte in text {
        let is_after_letter = kept.last().is_some_and(|last| last.is_ascii_lowercase());
        if *byte != b'0' || !is_after_letter {
            kept.push(*byte)?;
        }
    }
    Ok(kept)
}

/// The text of a system with no rule between its braces.
fn without_rules(alloc: Global, text: &[u8]) -> Result<Vec<u8>, AllocError> {
    let mut kept = Vec::new(alloc);
    for byte in text {
        if *byte == b'}' {
            kept.clear();
            kept.push(b'{')?;
        }
        kept.push(*byte)?;
    }
    Ok(kept)
}

/// Builds a rule set of no symbols and no rules, where one of the rules is lopsided.
pub fn takes_a_lopsided_rule(
    alloc: Global,
    symbols: Symbols,
    rules: Vec<(Cell, Cell)>,
) -> Result<RuleSet, RuleFault>
    ensures { Answers result (built symbols (map written rules.items))
        ⊎ IfOk result (λ none. none ≡ record { symbols = []; rules = [] }) }
{
    match RuleSet::build(alloc, symbols, rules) {
        Err(RuleFault::Lopsided(_)) => RuleSet::build(alloc, Symbols::new(alloc), Vec::new(alloc)),
        answer => answer,
    }
}

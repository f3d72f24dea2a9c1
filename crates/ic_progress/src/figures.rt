//! The figures of a reduction in place, as lines and as an object of JSON.

ghost use Rattle.std.specs.Prelude.{IfOk, OnOk, codes, ◌++◌};
ghost use Rattle.std.specs.Fmt.{decimal};
ghost use Rattle.ic_progress.specs.Figures.{StandsIn};

use crate::line::a_second;
use crate::shares::Shares;
use ic_by_rounds::Summary;
use ic_in_place::{End, Outcome};
use ic_rules::{Rule, RuleSet};
use ic_term::Symbols;
use ic_text::put_decimal;
use std::alloc::{AllocError, Global};
use std::fmt::Write;

/// The lines that tell the figures of a reduction by so many threads that took so many milliseconds: how many steps were
/// made, how many names and agents there were and equations were left, how many rounds were made if it is reduced by rounds,
/// the threads, how fast it was, how often each rule fired, and how several threads shared it.
pub fn figures_lines(
    alloc: Global,
    outcome: &Outcome,
    rounds: Option<u64>,
    threads: usize,
    shares: &Shares,
    millis: u64,
) -> Result<Vec<u8>, AllocError>
    // The interactions that are told are those that were made.
    ensures told { IfOk result (λ lines. StandsIn
        (codes "interactions " ++ decimal outcome.now.interactions) lines.items) }
{
    let rest = rest_of_lines(alloc, outcome, rounds, threads, shares, millis)?;
    let mut lines = b"icserve: ".to_vec(alloc)?;
    put_told(
        b"interactions ",
        outcome.interactions,
        rest.as_bytes(),
        &mut lines,
    )?;
    Ok(lines)
}

/// The same figures as an object of JSON on a line.
pub fn figures_object(
    alloc: Global,
    outcome: &Outcome,
    rounds: Option<u64>,
    threads: usize,
    shares: &Shares,
    millis: u64,
) -> Result<Vec<u8>, AllocError>
    // The interactions that are told are those that were made.
    ensures told { IfOk result (λ object. StandsIn
        (codes "\"interactions\":" ++ decimal outcome.now.interactions) object.items) }
{
    let rest = rest_of_object(alloc, outcome, rounds, threads, shares, millis)?;
    let mut object = front_of_object(alloc, outcome)?.into_bytes();
    put_told(
        b"\"interactions\":",
        outcome.interactions,
        rest.as_bytes(),
        &mut object,
    )?;
    Ok(object)
}

/// Appends a number after its label, and what comes after it.
fn put_told(label: &[u8], number: u64, after: &[u8], out: &mut Vec<u8>) -> Result<(), AllocError>
    ensures { OnOk result (StandsIn (label.now ++ decimal number) out.new.items) }
{
    out.extend_from_slice(label)?;
    put_decimal(number, out)?;
    out.extend_from_slice(after)?;
    Ok(())
}

/// What the lines tell after the interactions.
fn rest_of_lines(
    alloc: Global,
    outcome: &Outcome,
    rounds: Option<u64>,
    threads: usize,
    shares: &Shares,
    millis: u64,
) -> Result<String, AllocError> {
    let mut out = String::new(alloc);
    if let Some(count) = outcome.name_steps {
        write!(out, ", name steps {count}")?;
    }
    let (nodes, left, shared) = (outcome.nodes, outcome.left, outcome.shared);
    write!(out, ", nodes {nodes}, equations {left}")?;
    if let Some(rounds) = rounds {
        write!(out, ", rounds {rounds}")?;
    }
    put_span(outcome, &mut out)?;
    write!(out, ", threads {threads}, shared {shared}")?;
    let (seconds, thousandths) = (millis / 1_000, millis % 1_000);
    write!(out, ", seconds {seconds}.{thousandths:03}")?;
    if millis > 0 {
        let pace = a_second(outcome.interactions, millis);
        write!(out, ", interactions a second {pace}")?;
    }
    out.push_str("\nicserve: ")?;
    put_rules(&outcome.rules, &outcome.by_rule, &mut out)?;
    out.push('\n')?;
    if shared > 0 {
        shares.put_line(&mut out)?;
    }
    Ok(out)
}

/// Appends what is known of the rounds in which pairs would fire. What was cut has fired a part of them.
fn put_span(outcome: &Outcome, out: &mut String) -> Result<(), AllocError> {
    let Some(pairs) = &outcome.by_round else {
        return Ok(());
    };
    let summary = Summary::of_pairs(pairs).ended(outcome.end);
    let (span, greatest, (whole, tenth)) = (summary.rounds, summary.greatest, summary.average());
    let partial = if summary.is_partial { "partial " } else { "" };
    write!(
        out,
        ", {partial}span {span}, pairs at once {whole}.{tenth} on average, {greatest} at most"
    )
}

/// The same as members of an object.
fn put_span_members(outcome: &Outcome, out: &mut String) -> Result<(), AllocError> {
    let Some(pairs) = &outcome.by_round else {
        return Ok(());
    };
    let summary = Summary::of_pairs(pairs).ended(outcome.end);
    let (span, greatest, (whole, tenth)) = (summary.rounds, summary.greatest, summary.average());
    let partial = summary.is_partial;
    write!(
        out,
        ",\"span\":{span},\"average\":{whole}.{tenth},\"greatest\":{greatest},\"partial\":{partial}"
    )
}

/// Appends how often each rule fired that did.
fn put_rules(rules: &RuleSet, counts: &[u64], out: &mut String) -> Result<(), AllocError> {
    let mut is_first = true;
    for (place, count) in counts.iter().enumerate() {
        if *count > 0 {
            if !is_first {
                out.push_str(", ")?;
            }
            is_first = false;
            put_firings(rules, place, *count, out)?;
        }
    }
    if is_first {
        out.push_str("no interactions")?;
    }
    Ok(())
}

/// Appends how often the rule at a place fired. Rules are named by their numbers, from 1 on.
fn put_firings(
    rules: &RuleSet,
    place: usize,
    count: u64,
    out: &mut String,
) -> Result<(), AllocError> {
    let number = place.saturating_add(1);
    write!(out, "rule {number} ")?;
    put_rule(rules, place, out)?;
    let plural = if count == 1 { "" } else { "s" };
    write!(out, ": {count} interaction{plural}")
}

/// Appends the two symbols of the rule at a place.
fn put_rule(rules: &RuleSet, place: usize, out: &mut String) -> Result<(), AllocError> {
    match rules.rules().get(place) {
        Some(rule) => put_pair(rules.symbols(), rule, out),
        None => Ok(()),
    }
}

/// Appends the two symbols of a rule.
fn put_pair(symbols: &Symbols, rule: &Rule, out: &mut String) -> Result<(), AllocError> {
    put_bytes(symbol_text(symbols, rule.left()), out)?;
    out.push_str("><")?;
    put_bytes(symbol_text(symbols, rule.right()), out)
}

/// The text of a symbol, where there is one of this number.
fn symbol_text(symbols: &Symbols, symbol: u32) -> &[u8] {
    if (symbol as usize) < symbols.len() {
        symbols.text(symbol)
    } else {
        b""
    }
}

/// Appends a text of ASCII.
fn put_bytes(bytes: &[u8], out: &mut String) -> Result<(), AllocError> {
    for byte in bytes {
        out.push(char::from(*byte))?;
    }
    Ok(())
}

/// What the object tells before the interactions: how the reduction ended, the pair that is stuck and the circle.
fn front_of_object(alloc: Global, outcome: &Outcome) -> Result<String, AllocError> {
    let end = end_word(outcome.end);
    let mut out = format!(in alloc; "{{\"end\":\"{end}\",\"stuck\":")?;
    put_some(&outcome.stuck, &mut out)?;
    out.push_str(",\"circle\":")?;
    put_some(&outcome.circle, &mut out)?;
    out.push(',')?;
    Ok(out)
}

/// Appends a text of ASCII as a string, or null.
fn put_some(text: &Option<Vec<u8>>, out: &mut String) -> Result<(), AllocError> {
    match text {
        Some(text) => {
            out.push('"')?;
            put_bytes(text, out)?;
            out.push('"')
        }
        None => out.push_str("null"),
    }
}

/// What the object tells after the interactions.
fn rest_of_object(
    alloc: Global,
    outcome: &Outcome,
    rounds: Option<u64>,
    threads: usize,
    shares: &Shares,
    millis: u64,
) -> Result<String, AllocError> {
    let mut out = String::new(alloc);
    if let Some(count) = outcome.name_steps {
        write!(out, ",\"name_steps\":{count}")?;
    }
    let (nodes, left, shared) = (outcome.nodes, outcome.left, outcome.shared);
    write!(out, ",\"nodes\":{nodes},\"equations\":{left}")?;
    if let Some(rounds) = rounds {
        write!(out, ",\"rounds\":{rounds}")?;
    }
    put_span_members(outcome, &mut out)?;
    write!(out, ",\"threads\":{threads},\"shared\":{shared}")?;
    if shared > 0 {
        shares.put_fields(&mut out)?;
    }
    write!(out, ",\"milliseconds\":{millis},\"interactions_a_second\":")?;
    if millis > 0 {
        let pace = a_second(outcome.interactions, millis);
        write!(out, "{pace}")?;
    } else {
        out.push_str("null")?;
    }
    out.push_str(",\"by_rule\":[")?;
    put_rule_objects(&outcome.rules, &outcome.by_rule, &mut out)?;
    out.push_str("]}\n")?;
    Ok(out)
}

/// Appends how often each rule fired, as objects with commas between them.
fn put_rule_objects(rules: &RuleSet, counts: &[u64], out: &mut String) -> Result<(), AllocError> {
    for (place, count) in counts.iter().enumerate() {
        if place > 0 {
            out.push(',')?;
        }
        out.push_str("{\"rule\":\"")?;
        put_rule(rules, place, out)?;
        write!(out, "\",\"interactions\":{count}}}")?;
    }
    Ok(())
}

/// Why a reduction ended, in a word.
fn end_word(end: End) -> &'static str {
    match end {
        End::Quiet => "quiet",
        End::Steps => "steps",
        End::Nodes => "nodes",
        End::Limit => "limit",
        End::Memory => "memory",
    }
}

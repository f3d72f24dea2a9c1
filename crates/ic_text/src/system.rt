//! Reading a system.

ghost use Rattle.std.specs.Prelude.{◌≡◌, ◌≢◌, ◌≤◌, length, IfOk, IfErr, IfSome, Ok, Err, Some};
ghost use Rattle.ic_term.specs.Configuration.{configuration_nodes};
ghost use Rattle.ic_rules.specs.RuleSet.{AreServed};
ghost use Rattle.ic_text.specs.inner.Numbered.{Gives};
ghost use Rattle.ic_text.specs.inner.Refused.{bare, faulted};
ghost use Rattle.ic_text.specs.inner.Survey.{Tells};
ghost use Rattle.ic_text.specs.Limits.{most_interface, most_nodes};
ghost use Rattle.ic_text.specs.SystemSense.{system_sense_within};
ghost use Rattle.ic_text.specs.SystemSource.{SystemPhrase, IsSystemPhrase, system_words};
ghost use Rattle.ic_text.specs.SystemText.{SpellsSystem, ReadsSystem, ReadsSystemWithin};
ghost use Rattle.ic_text.specs.SystemText.{IsSystemText, IsSystemTextWithin};

use crate::blame::refusal_of;
use crate::build::system_of;
use crate::excess::{excess_of, is_within};
use crate::fault::TextFault;
use crate::limits::Limits;
use crate::misread::{Detail, Limit, Misread};
use crate::number::{number_heads, number_words};
use crate::prefix::{outline_of, prefix_of};
use crate::refusal::Refusal;
use crate::survey::{Counts, survey_system};
use crate::syntax::split_at_brace;
use ic_flat::{FlatSystem, WideSystem};
use ic_rules::System;
use std::alloc::Global;

/// The sense of a text that spells a system of so many words. Of the words of its configuration no more is kept than where
/// they begin, so a refusal tells no word.
fn sense_by_heads(
    alloc: Global,
    limits: Limits,
    text: &[u8],
    counts: Counts,
) -> Result<WideSystem, Refusal>
    requires { Tells IsSystemPhrase system_words text.now (Some counts) }
    ensures { IfOk result (λ system. (s : SystemPhrase) → SpellsSystem text.now s →
        Ok system ≡ system_sense_within limits s) }
{
    let (front, rest) = split_at_brace(text);
    let rules = prefix_of(alloc, front, front.len().min(counts.words))?;
    let config = outline_of(alloc, rest, counts.words)?;
    let before = rules.words();
    let many = config.words();
    let terms = config.terms;
    if !is_within(limits, &rules.nodes, rules.terms, many, terms) {
        return Err(Refusal::untold(TextFault::Limit));
    }
    let (table, numbered) = number_words(alloc, limits, &rules.nodes, None)?;
    let (symbols, words) = number_heads(alloc, limits, table, numbered, rest, &config.heads)?;
    drop(config);
    match system_of(alloc, symbols, words, before, terms) {
        Ok(system) => Ok(system),
        Err(fault) => Err(Refusal::untold(fault)),
    }
}

/// The same by nodes for all words, so that a refusal is told with its word. Every limit is tested before a term is built.
fn sense_by_nodes(
    alloc: Global,
    limits: Limits,
    text: &[u8],
    counts: Counts,
) -> Result<WideSystem, Refusal>
    requires { Tells IsSystemPhrase system_words text.now (Some counts) }
    ensures sense { (s : SystemPhrase) → SpellsSystem text.now s →
        Gives (λ system. system) (bare result) (system_sense_within limits s) }
    ensures nodes { IfOk result (λ s. configuration_nodes s.config ≤ most_nodes limits) }
    ensures interface { IfOk result (λ s. length s.config.interface ≤ most_interface limits) }
    ensures served { IfOk result (λ s. limits ≡ Limits.Served → AreServed s.rules) }
{
    let (rules, config) = split_at_brace(text);
    let mut rules = prefix_of(alloc, rules, counts.words)?;
    let mut config = prefix_of(alloc, config, counts.words)?;
    let before = rules.words();
    let terms = config.terms;
    rules.nodes.append(&mut config.nodes)?;
    drop(config);
    let excess = excess_of(limits, &rules.nodes, before, rules.terms, terms);
    let (symbols, words) = number_words(alloc, limits, &rules.nodes, excess)?;
    match system_of(alloc, symbols, words, before, terms) {
        Ok(system) => Ok(system),
        Err(fault) => Err(refusal_of(fault, &rules.nodes, before)),
    }
}

/// The sense of a text that spells a system of so many words.
fn sense_of(
    alloc: Global,
    limits: Limits,
    text: &[u8],
    counts: Counts,
) -> Result<WideSystem, Refusal>
    requires { Tells IsSystemPhrase system_words text.now (Some counts) }
    ensures sense { (s : SystemPhrase) → SpellsSystem text.now s →
        Gives (λ system. system) (bare result) (system_sense_within limits s) }
    ensures nodes { IfOk result (λ s. configuration_nodes s.config ≤ most_nodes limits) }
    ensures interface { IfOk result (λ s. length s.config.interface ≤ most_interface limits) }
    ensures served { IfOk result (λ s. limits ≡ Limits.Served → AreServed s.rules) }
{
    match sense_by_heads(alloc, limits, text, counts) {
        Ok(system) => Ok(system),
        Err(_) => sense_by_nodes(alloc, limits, text, counts),
    }
}

/// The same, with the place of the refusal in the text.
fn system_at(
    alloc: Global,
    limits: Limits,
    text: &[u8],
    counts: Counts,
) -> Result<WideSystem, Misread>
    requires { Tells IsSystemPhrase system_words text.now (Some counts) }
    ensures sense { (s : SystemPhrase) → SpellsSystem text.now s →
        Gives (λ system. system) (faulted result) (system_sense_within limits s) }
    ensures nodes { IfOk result (λ s. configuration_nodes s.config ≤ most_nodes limits) }
    ensures interface { IfOk result (λ s. length s.config.interface ≤ most_interface limits) }
    ensures served { IfOk result (λ s. limits ≡ Limits.Served → AreServed s.rules) }
    ensures placed { IfErr result (λ misread. IfSome misread.place (λ at. at ≤ length text.now)) }
{
    match sense_of(alloc, limits, text, counts) {
        Ok(found) => Ok(found),
        Err(refusal) => Err(refusal.in_text(text)),
    }
}

/// The system that a text means in flat form, or the first refusal and its place. Symbols are numbered by first
/// occurrence, rules first, and so are the names of each rule; `next` is one above the greatest name of the
/// configuration. Takes n log n steps. Nothing recurses on the nesting of the configuration.
pub fn find_wide_system(alloc: Global, limits: Limits, text: &[u8]) -> Result<WideSystem, Misread>
    ensures read { IfOk result (λ system. ReadsSystemWithin limits text.now (Ok system)) }
    ensures spelled { IfOk result (λ _. (s : SystemPhrase) × SpellsSystem text.now s) }
    ensures few { IfOk result
        (λ system. configuration_nodes system.config ≤ most_nodes limits) }
    ensures interface { IfOk result
        (λ system. length system.config.interface ≤ most_interface limits) }
    ensures served { IfOk result (λ system. limits ≡ Limits.Served → AreServed system.rules) }
    ensures refused { IfErr result (λ misread. misread.fault ≢ TextFault.Memory →
        ReadsSystemWithin limits text.now (Err misread.fault)) }
    ensures placed { IfErr result (λ misread. IfSome misread.place (λ at. at ≤ length text.now)) }
    ensures memory { IfErr result (λ misread. misread.fault ≡ TextFault.Memory →
        IsSystemTextWithin limits text.now) }
{
    let most = limits.text_bytes();
    if text.len() > most {
        return Err(Misread {
            fault: TextFault::Limit,
            place: Some(most),
            detail: Detail::Passed(Limit::TextBytes),
        });
    }
    match survey_system(text) {
        Ok(counts) => Ok(system_at(alloc, limits, text, counts)?),
        Err(place) => Err(Misread {
            fault: TextFault::Syntax,
            place: Some(place),
            detail: Detail::Nothing,
        }),
    }
}

/// The system that `find_wide_system` answers with the limits of what is served, or its refusal.
pub fn find_flat_system(alloc: Global, text: &[u8]) -> Result<FlatSystem, Misread>
    ensures read { IfOk result (λ system. ReadsSystem text.now (Ok system)) }
    ensures spelled { IfOk result (λ _. (s : SystemPhrase) × SpellsSystem text.now s) }
    ensures refused { IfErr result
        (λ misread. misread.fault ≢ TextFault.Memory → ReadsSystem text.now (Err misread.fault)) }
    ensures placed { IfErr result (λ misread. IfSome misread.place (λ at. at ≤ length text.now)) }
    ensures memory { IfErr result
        (λ misread. misread.fault ≡ TextFault.Memory → IsSystemText text.now) }
{
    let system = find_wide_system(alloc, Limits::Served, text)?;
    Ok(FlatSystem::from_wide(system))
}

/// The system that `find_flat_system` answers, with its configuration as terms and equations, or its refusal.
pub fn find_system(alloc: Global, text: &[u8]) -> Result<System, Misread>
    ensures read { IfOk result (λ system. ReadsSystem text.now (Ok system)) }
    ensures refused { IfErr result
        (λ misread. misread.fault ≢ TextFault.Memory → ReadsSystem text.now (Err misread.fault)) }
    ensures placed { IfErr result (λ misread. IfSome misread.place (λ at. at ≤ length text.now)) }
    ensures memory { IfErr result
        (λ misread. misread.fault ≡ TextFault.Memory → IsSystemText text.now) }
{
    let system = find_flat_system(alloc, text)?;
    Ok(system.to_system(alloc)?)
}

/// The system that `find_flat_system` answers, or its refusal without the place.
pub fn read_flat_system(alloc: Global, text: &[u8]) -> Result<FlatSystem, TextFault>
    ensures read { IfOk result (λ system. ReadsSystem text.now (Ok system)) }
    ensures refused { IfErr result
        (λ fault. fault ≢ TextFault.Memory → ReadsSystem text.now (Err fault)) }
    ensures memory { result ≡ Err TextFault.Memory → IsSystemText text.now }
{
    Ok(find_flat_system(alloc, text)?)
}

/// The system that `find_system` answers, or its refusal without the place.
pub fn read_system(alloc: Global, text: &[u8]) -> Result<System, TextFault>
    ensures read { IfOk result (λ system. ReadsSystem text.now (Ok system)) }
    ensures refused { IfErr result
        (λ fault. fault ≢ TextFault.Memory → ReadsSystem text.now (Err fault)) }
    ensures memory { result ≡ Err TextFault.Memory → IsSystemText text.now }
{
    Ok(find_system(alloc, text)?)
}

//! Reading a configuration.

ghost use Rattle.std.specs.Prelude.{◌≡◌, ◌≢◌, ◌≤◌, length, IfOk, IfErr, IfSome, IsTrue, Ok, Err, Some};
ghost use Rattle.ic_term.specs.Symbol.{is_over};
ghost use Rattle.ic_term.specs.Configuration.{configuration_nodes};
ghost use Rattle.ic_text.specs.inner.Numbered.{Gives};
ghost use Rattle.ic_text.specs.inner.Refused.{bare, faulted};
ghost use Rattle.ic_text.specs.inner.Survey.{Tells};
ghost use Rattle.ic_text.specs.Limits.{most_interface, most_nodes};
ghost use Rattle.ic_text.specs.Sense.{sense_within};
ghost use Rattle.ic_text.specs.Source.{Phrase, IsPhrase, phrase_words};
ghost use Rattle.ic_text.specs.Text.{IsConfigText, IsConfigTextWithin, Reads, ReadsWithin, Spells};

use crate::blame::refusal_of;
use crate::build::wide_of;
use crate::excess::config_excess;
use crate::fault::TextFault;
use crate::front::front_of;
use crate::limits::Limits;
use crate::misread::{Detail, Limit, Misread};
use crate::number::{first_passed, number_words};
use crate::prefix::prefix_of;
use crate::refusal::Refusal;
use crate::survey::{Counts, survey_config};
use ic_flat::{Flat, WideFlat};
use ic_term::{Config, Symbols};
use std::alloc::Global;

/// The refusal of a configuration of too many nodes. Only the first words are looked at, with one of which a limit is
/// passed.
fn crowded(alloc: Global, limits: Limits, text: &[u8]) -> Refusal
    ensures { result.fault ≡ TextFault.Limit }
{
    let Ok(front) = front_of(alloc, text, limits.nodes() as usize + 1) else {
        return Refusal::untold(TextFault::Limit);
    };
    let excess = config_excess(limits, &front.nodes, front.terms);
    first_passed(alloc, limits, &front.nodes, excess)
}

/// The sense of a text that spells a configuration of so many words. Every limit is tested before they are numbered.
fn sense_of(
    alloc: Global,
    limits: Limits,
    text: &[u8],
    counts: Counts,
) -> Result<(Symbols, WideFlat), Refusal>
    requires { Tells IsPhrase phrase_words text.now (Some counts) }
    ensures sense { (p : Phrase) → Spells text.now p →
        Gives (λ v. v) (bare result) (sense_within limits p) }
    ensures over { IfOk result (λ v. IsTrue (is_over v.0 v.1)) }
    ensures nodes { IfOk result (λ v. configuration_nodes v.1 ≤ most_nodes limits) }
    ensures interface { IfOk result (λ v. length v.1.interface ≤ most_interface limits) }
{
    if counts.words as u64 > limits.nodes() {
        return Err(crowded(alloc, limits, text));
    }
    let prefix = prefix_of(alloc, text, counts.words)?;
    let excess = config_excess(limits, &prefix.nodes, prefix.terms);
    let (symbols, words) = number_words(alloc, limits, &prefix.nodes, excess)?;
    match wide_of(alloc, words, prefix.terms) {
        Ok(config) => Ok((symbols, config)),
        Err(fault) => Err(refusal_of(fault, &prefix.nodes, 0)),
    }
}

/// The same, with the place of the refusal in the text.
fn config_at(
    alloc: Global,
    limits: Limits,
    text: &[u8],
    counts: Counts,
) -> Result<(Symbols, WideFlat), Misread>
    requires { Tells IsPhrase phrase_words text.now (Some counts) }
    ensures sense { (p : Phrase) → Spells text.now p →
        Gives (λ v. v) (faulted result) (sense_within limits p) }
    ensures over { IfOk result (λ v. IsTrue (is_over v.0 v.1)) }
    ensures nodes { IfOk result (λ v. configuration_nodes v.1 ≤ most_nodes limits) }
    ensures interface { IfOk result (λ v. length v.1.interface ≤ most_interface limits) }
    ensures placed { IfErr result (λ misread. IfSome misread.place (λ at. at ≤ length text.now)) }
{
    match sense_of(alloc, limits, text, counts) {
        Ok(found) => Ok(found),
        Err(refusal) => Err(refusal.in_text(text)),
    }
}

/// The configuration that a text means in flat form, with its symbols numbered by first occurrence and `next` one above
/// its greatest name, or the first refusal and its place. Takes n log n steps. Nothing recurses on nesting.
pub fn find_wide_config(
    alloc: Global,
    limits: Limits,
    text: &[u8],
) -> Result<(Symbols, WideFlat), Misread>
    ensures read { IfOk result (λ v. ReadsWithin limits text.now (Ok v)) }
    ensures spelled { IfOk result (λ _. IsConfigTextWithin limits text.now) }
    ensures over { IfOk result (λ v. IsTrue (is_over v.0 v.1)) }
    ensures few { IfOk result (λ v. configuration_nodes v.1 ≤ most_nodes limits) }
    ensures interface { IfOk result (λ v. length v.1.interface ≤ most_interface limits) }
    ensures refused { IfErr result (λ misread. misread.fault ≢ TextFault.Memory →
        ReadsWithin limits text.now (Err misread.fault)) }
    ensures placed { IfErr result (λ misread. IfSome misread.place (λ at. at ≤ length text.now)) }
    ensures memory { IfErr result (λ misread. misread.fault ≡ TextFault.Memory →
        IsConfigTextWithin limits text.now) }
{
    let most = limits.text_bytes();
    if text.len() > most {
        return Err(Misread {
            fault: TextFault::Limit,
            place: Some(most),
            detail: Detail::Passed(Limit::TextBytes),
        });
    }
    match survey_config(text) {
        Ok(counts) => Ok(config_at(alloc, limits, text, counts)?),
        Err(place) => Err(Misread {
            fault: TextFault::Syntax,
            place: Some(place),
            detail: Detail::Nothing,
        }),
    }
}

/// The configuration that `find_wide_config` answers with the limits of what is served, or its refusal.
pub fn find_flat_config(alloc: Global, text: &[u8]) -> Result<(Symbols, Flat), Misread>
    ensures read { IfOk result (λ v. Reads text.now (Ok v)) }
    ensures spelled { IfOk result (λ _. IsConfigText text.now) }
    ensures over { IfOk result (λ v. IsTrue (is_over v.0 v.1)) }
    ensures refused { IfErr result
        (λ misread. misread.fault ≢ TextFault.Memory → Reads text.now (Err misread.fault)) }
    ensures placed { IfErr result (λ misread. IfSome misread.place (λ at. at ≤ length text.now)) }
    ensures memory { IfErr result
        (λ misread. misread.fault ≡ TextFault.Memory → IsConfigText text.now) }
{
    let (symbols, config) = find_wide_config(alloc, Limits::Served, text)?;
    Ok((symbols, Flat::from_wide(config)))
}

/// The configuration that `find_flat_config` answers, as terms and equations, or its refusal. Limits are settled before
/// a term is made.
pub fn find_config(alloc: Global, text: &[u8]) -> Result<(Symbols, Config), Misread>
    ensures read { IfOk result (λ v. Reads text.now (Ok v)) }
    ensures over { IfOk result (λ v. IsTrue (is_over v.0 v.1)) }
    ensures refused { IfErr result
        (λ misread. misread.fault ≢ TextFault.Memory → Reads text.now (Err misread.fault)) }
    ensures placed { IfErr result (λ misread. IfSome misread.place (λ at. at ≤ length text.now)) }
    ensures memory { IfErr result
        (λ misread. misread.fault ≡ TextFault.Memory → IsConfigText text.now) }
{
    let (symbols, config) = find_flat_config(alloc, text)?;
    Ok((symbols, config.to_config(alloc)?))
}

/// The configuration that `find_config` answers, or its refusal without the place.
pub fn read_config(alloc: Global, text: &[u8]) -> Result<(Symbols, Config), TextFault>
    ensures read { IfOk result (λ v. Reads text.now (Ok v)) }
    ensures over { IfOk result (λ v. IsTrue (is_over v.0 v.1)) }
    ensures refused { IfErr result
        (λ fault. fault ≢ TextFault.Memory → Reads text.now (Err fault)) }
    ensures memory { result ≡ Err TextFault.Memory → IsConfigText text.now }
{
    Ok(find_config(alloc, text)?)
}

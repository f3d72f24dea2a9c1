//! The systems that a reduction leads through: one set of rules, with a configuration after another.

ghost use Rattle.std.specs.Prelude.{◌≡◌, ◌≢◌, ◌⊎◌, ◌+◌, ◌*◌, ◌<◌, ◌≤◌, ℕ, IfOk, IfErr, IfSome, IsNone, IsSome, IsTrue, length};
ghost use Rattle.std.specs.Arc.{arc_value};
ghost use Rattle.ic_term.specs.Configuration.{configuration_names, configuration_nodes, occurrences, one_above};
ghost use Rattle.ic_term.specs.Symbol.{AreSymbols, is_over};
ghost use Rattle.ic_flat.specs.Flat.{configuration_of};
ghost use Rattle.ic_flat.specs.Words.{forest, IsWhole};
ghost use Rattle.ic_keeping.specs.inner.Pieces.{IsOfAPiece};
ghost use Rattle.ic_keeping.specs.Way.{IsReachedFrom, IsSound, IsStateOf};
ghost use Rattle.ic_round.specs.Naming.{HasNames};
ghost use Rattle.ic_rules.specs.System.{SystemParts};
ghost use Rattle.ic_state.specs.State.{Kept};
ghost use Rattle.ic_term.specs.declared.limits.TheConstants.{MAX_NEXT, MAX_WIDE_NODES};
ghost use Rattle.ic_text.specs.declared.limits.TheConstants.{MAX_NAME};

use crate::fault::KeepingFault;
use ic_flat::{WideFlat, WideSystem, Word, terms_in};
use ic_rules::RuleSet;
use ic_term::ConfigFault;
use ic_text::MAX_NAME;
use std::alloc::Global;
use std::sync::Arc;

/// The system of these rules and of the configuration that words write, so many of their terms in its interface.
pub(crate) fn system_of(
    alloc: Global,
    rules: &Arc<RuleSet>,
    words: Vec<Word>,
    terms: u64,
) -> Result<WideSystem, KeepingFault>
    ensures rules { IfOk result (λ system. system.rules ≡ arc_value rules.now) }
    ensures interface { IfOk result (λ system. system.config.interface
        ≡ (configuration_of words.items terms 0).interface) }
    ensures equations { IfOk result (λ system. system.config.equations
        ≡ (configuration_of words.items terms 0).equations) }
    ensures low { IfOk result (λ system. system.config.next ≤ MAX_NAME + 1) }
    ensures names { IfOk result (λ system. HasNames system.config) }
    // Words that write a configuration over the symbols are refused only for their size, or where memory runs out.
    ensures refused { (equations : ℕ) → IsWhole words.items
        → length (forest words.items) ≡ terms + 2 * equations
        → ((n : ℕ) → occurrences n (configuration_names (configuration_of words.items terms 0)) ≤ 2)
        → IsTrue (is_over (arc_value rules.now).symbols (configuration_of words.items terms 0))
        → IfErr result (λ fault. (fault ≡ KeepingFault.Memory) ⊎ (fault ≡ KeepingFault.Limit)) }
    // There are too many of them then, or a name is too high.
    ensures limit { ((n : ℕ) → occurrences n (configuration_names (configuration_of words.items terms 0)) ≤ 2)
        → IfErr result (λ fault. fault ≡ KeepingFault.Limit
        → (MAX_WIDE_NODES < configuration_nodes (configuration_of words.items terms 0))
        ⊎ (MAX_NAME + 1 < one_above (configuration_names (configuration_of words.items terms 0)))) }
    ensures only { IfErr result IsOfAPiece }
{
    let config = config_of(alloc, words, terms)?;
    if config.next() > MAX_NAME + 1 {
        return Err(KeepingFault::Limit);
    }
    match WideSystem::new(rules.clone()?, config) {
        Some(system) => Ok(system),
        None => Err(KeepingFault::Unsound),
    }
}

/// The configuration that words write, so many of their terms in its interface, if they write one.
fn config_of(alloc: Global, words: Vec<Word>, terms: u64) -> Result<WideFlat, KeepingFault>
    ensures interface { IfOk result (λ config. config.interface
        ≡ (configuration_of words.items terms 0).interface) }
    ensures equations { IfOk result (λ config. config.equations
        ≡ (configuration_of words.items terms 0).equations) }
    ensures refused { (equations : ℕ) → IsWhole words.items
        → length (forest words.items) ≡ terms + 2 * equations
        → ((n : ℕ) → occurrences n (configuration_names (configuration_of words.items terms 0)) ≤ 2)
        → IfErr result (λ fault. (fault ≡ KeepingFault.Memory) ⊎ (fault ≡ KeepingFault.Limit)) }
    ensures next { IfOk result (λ config. config.next
        ≡ one_above (configuration_names (configuration_of words.items terms 0))) }
    ensures limit { ((n : ℕ) → occurrences n (configuration_names (configuration_of words.items terms 0)) ≤ 2)
        → IfErr result (λ fault. fault ≡ KeepingFault.Limit
        → (MAX_WIDE_NODES < configuration_nodes (configuration_of words.items terms 0))
        ⊎ (MAX_NEXT < one_above (configuration_names (configuration_of words.items terms 0)))) }
    ensures only { IfErr result IsOfAPiece }
{
    ic_term::laws::next_is_one_above_the_greatest_name();
    ic_term::laws::wide_ones_are_configurations_but_for_their_limits();
    ic_term::laws::third_occurrence_is_the_first();
    let terms = terms as usize;
    match equations_in(&words, terms) {
        None => Err(KeepingFault::Unsound),
        Some(equations) => match WideFlat::new(alloc, words, terms, equations) {
            Ok(config) => Ok(config),
            Err(ConfigFault::Limit) => Err(KeepingFault::Limit),
            Err(ConfigFault::Name(_)) => Err(KeepingFault::Unsound),
            Err(ConfigFault::Memory) => Err(KeepingFault::Memory),
        },
    }
}

/// How many equations words write after so many terms, if each of their agents has its arguments, and each equation two sides.
fn equations_in(words: &[Word], terms: usize) -> Option<usize>
    ensures whole { IsSome result → IsWhole words.now }
    ensures counted { IfSome result (λ equations.
        length (forest words.now) ≡ terms + 2 * equations) }
    ensures none { IsNone result → IsWhole words.now
        → (equations : ℕ) → length (forest words.now) ≢ terms + 2 * equations }
{
    let all = terms_in(words)?;
    if all < terms || (all - terms) % 2 != 0 {
        return None;
    }
    Some((all - terms) / 2)
}

/// Each state of a reduction is reached from itself, by no interactions.
pub(crate) fn states_are_reached()
    ensures { (s : SystemParts) (k : Kept) → IsStateOf s k → IsReachedFrom s k k }
{
    ic_reaching::laws::what_is_reached_is_one_net();
}

/// Systems keep what their rules and their configurations do.
pub(crate) fn systems_are_sound(system: &WideSystem)
    ensures sound { IsSound system.now }
    ensures symbols { AreSymbols system.now.rules.symbols }
{
    let nodes = system.config().nodes();
    let symbols = system.rules().symbols().len();
}

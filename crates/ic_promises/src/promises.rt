//! Promises of public calls, word for word, each kept by the call.

ghost use Rattle.std.specs.Prelude.{◌≡◌, ◌≢◌, ℕ, ◌+◌, ◌<◌, List, IsTrue, IfOk, IfErr, Ok, Err, map};
ghost use Rattle.ic_term.specs.Symbol.{Symbol, is_over};
ghost use Rattle.ic_term.specs.Configuration.{Configuration};
ghost use Rattle.ic_rules.specs.RuleFault.{Answers as RuleAnswers};
ghost use Rattle.ic_rules.specs.RuleSet.{built};
ghost use Rattle.ic_rules.specs.Written.{written};
ghost use Rattle.ic_text.specs.SystemText.{ReadsSystem, IsSystemText};
ghost use Rattle.ic_settle.specs.Settling.{settled};
ghost use Rattle.ic_settle.specs.NameSteps.{NameStep, NameSteps};
ghost use Rattle.ic_round.specs.Steps.{Steps};
ghost use Rattle.ic_round.specs.Rounds.{round, iterate, unless_unfit};
ghost use Rattle.ic_round.specs.RoundAnswers.{Answers};
ghost use Rattle.ic_pool.specs.Workers.{ByWorkers, round_or_refusal};

use ic_pool::{Gate, PoolFault};
use ic_round::RoundFault;
use ic_rules::{RuleFault, RuleSet, System};
use ic_term::{Cell, Config, Symbols};
use ic_text::TextFault;
use std::alloc::{AllocError, Global};
use std::sync::Wait;
use std::thread::Threads;

/// What `ic_text::read_system` promises: a text is read as exactly what it means.
pub fn read_system(alloc: Global, text: &[u8]) -> Result<System, TextFault>
    ensures read { IfOk result (λ system. ReadsSystem text.now (Ok system)) }
    ensures refused { IfErr result
        (λ fault. fault ≢ TextFault.Memory → ReadsSystem text.now (Err fault)) }
    ensures memory { result ≡ Err TextFault.Memory → IsSystemText text.now }
{
    ic_text::read_system(alloc, text)
}

/// What `ic_rules::RuleSet::build` promises: the rule set of rules, or the first refusal.
pub fn build(
    alloc: Global,
    symbols: Symbols,
    rules: Vec<(Cell, Cell)>,
) -> Result<RuleSet, RuleFault>
    ensures { RuleAnswers result (built symbols (map written rules.items)) }
{
    RuleSet::build(alloc, symbols, rules)
}

/// What `ic_reference::settle` promises: a configuration is settled, by steps of the calculus, as far as they go.
pub fn settle(alloc: Global, config: Config) -> Result<Config, AllocError>
    ensures settled { IfOk result (λ after. after ≡ settled config) }
    ensures reached { IfOk result (λ after. NameSteps config after) }
    ensures ended { IfOk result (λ after. (next : Configuration) → ¬ NameStep after next) }
    ensures over { IfOk result (λ after. (symbols : List Symbol)
        → IsTrue (is_over symbols config) → IsTrue (is_over symbols after)) }
{
    ic_reference::settle(alloc, config)
}

/// What `ic_reference::round` promises: each equation that is active at the start is fired, and then all is settled.
pub fn round(alloc: Global, rules: &RuleSet, config: Config) -> Result<Config, RoundFault>
    requires { IsTrue (is_over rules.now.symbols config) }
    ensures round { Answers result
        (unless_unfit rules.now.rules config (round rules.now.rules config)) }
    ensures reached { IfOk result (λ after. Steps rules.now.rules config after) }
    ensures over { IfOk result (λ after. IsTrue (is_over rules.now.symbols after)) }
    ensures counted { IfOk result (λ after. (start : Configuration) (n : ℕ)
        → config ≡ iterate rules.now.rules n start
        → after ≡ iterate rules.now.rules (n + 1) start) }
{
    ic_reference::round(alloc, rules, config)
}

/// What `ic_pool::round_by_workers` promises: the same round, by however many workers it is made.
pub fn round_by_workers<R: Threads + Wait, G: Gate>(
    rt: &R,
    alloc: Global,
    rules: &RuleSet,
    config: Config,
    workers: usize,
    gate: &G,
) -> Result<Config, PoolFault>
    requires over { IsTrue (is_over rules.now.symbols config) }
    requires some { 0 < workers }
    ensures round { ByWorkers result (round_or_refusal rules.now.rules config) }
    ensures over { IfOk result (λ after. IsTrue (is_over rules.now.symbols after)) }
{
    ic_pool::round_by_workers(rt, alloc, rules, config, workers, gate)
}

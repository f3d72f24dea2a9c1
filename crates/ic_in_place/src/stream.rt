//! Reducing in place what a reader gives.

ghost use Rattle.std.specs.Prelude.{◌≡◌, ◌≢◌, ◌+◌, ◌*◌, ◌∷◌, ◌++◌, [], IfOk, IfErr, IsTrue, OnOk, length, if◌then◌else◌};
ghost use Rattle.std.specs.List.{list_all};
ghost use Rattle.std.specs.Option.{option_map};
ghost use Rattle.std.specs.Io.KnownBytes.{Keeps};
ghost use Rattle.ic_flat.specs.Words.{forest, is_word_over, IsWhole};
ghost use Rattle.ic_flat.specs.Flat.{configuration_of};
ghost use Rattle.ic_streams.specs.Streams.{OfText, IsAnswered, FaultOf, TakesAtWithin, TakesTextWithin, line_of};
ghost use Rattle.ic_in_place.specs.Reductions.{EndsAs, EndsOf, ReducesInPlace, Tells, is_written};
ghost use Rattle.ic_in_place.specs.declared.running.Bounds.{Bounds as AnyBounds};
ghost use Rattle.ic_in_place.specs.Holding.{IsNetOf};
ghost use Rattle.ic_in_place.specs.Stopping.{HasCome};
ghost use Rattle.ic_in_place.specs.inner.Told.{words_stuck};
ghost use Rattle.ic_in_place.specs.inner.Unwritten.{IsTold};

use crate::circle::circle_text;
use crate::reducing::{Reduced, Stopped, read_stopped, read_words, run_system};
use crate::running::{Bounds, End, Watch};
use crate::stuck::stuck_text;
use ic_diagnostics::{Kind, refused_within};
use ic_flat::WideSystem;
use ic_rules::RuleSet;
use ic_streams::{StreamFault, read_text_within, write_line};
use ic_term::Symbols;
use ic_text::{Limits, find_wide_system, put_words};
use std::alloc::{AllocError, Global};
use std::io::{Read, Write};
use std::sync::Arc;

/// How many bytes a word of a large net is written with at most, mostly: a name of ten, or a symbol, and a mark.
const BYTES_A_WORD: usize = 12;

/// What of a reduction is asked for, as a line.
#[derive(Clone, Copy)]
pub enum Asked {
    /// What is reached, unless the bound of what is held or a limit is met, or memory runs out.
    Answer,
    /// What is reached then, too.
    AlsoPart,
    /// Nothing.
    Nothing,
}

/// How a text was reduced.
#[derive(Drop)]
pub struct Outcome {
    /// Why the reduction ended.
    pub end: End,
    /// How many interactions were made.
    pub interactions: u64,
    /// The rules of the text, and its symbols.
    pub rules: Arc<RuleSet>,
    /// How often each rule fired, in the order of the rules.
    pub by_rule: Vec<u64>,
    /// How many steps put a term for a name, told if the end is quiet. Every order makes as many.
    pub name_steps: Option<u64>,
    /// How many names and agents the net had at the end.
    pub nodes: u64,
    /// How many equations the machine had left then: those that were pending, and those that were set aside.
    pub left: u64,
    /// How many interactions were made before all that several threads had was put together: none by one thread.
    pub shared: u64,
    /// How many pairs each round would have fired, from the first one on, if that was to be known and is. It is tried, not proved.
    pub by_round: Option<Vec<u64>>,
    /// The symbols of the first equation of two agents, where the end is quiet.
    pub stuck: Option<Vec<u8>>,
    /// The symbol at which the first circle is closed, where the end is quiet.
    pub circle: Option<Vec<u8>>,
}

/// Reduces the system that the reader gives in place, and writes what was reached as a line, if that is asked for. What is
/// told of it is of the same kind whatever is asked for.
///
/// Nothing is written before the text is read and reduced. A text that passes these limits is `TextFault::Limit`, and at most
/// one byte more is read than a text may have. Where the text is refused, the lines that tell of it are appended to `told`.
pub fn reduce_in_place_stream<V: Watch, R: Read, W: Write>(
    alloc: Global,
    limits: Limits,
    bounds: Bounds,
    asked: Asked,
    watch: &V,
    reader: &mut R,
    writer: &mut W,
    told: &mut Vec<u8>,
) -> Result<Outcome, StreamFault>
    // There is a text of which this holds: the reader's, where it tells its bytes.
    ensures answered { OfText (R.remaining reader.old)
        (λ text. IsAnswered (ReducesInPlace limits bounds asked) text result
        (W.contents writer.old) (W.contents writer.new) × IfOk result (λ outcome. Tells limits
        bounds asked text outcome (W.contents writer.old) (W.contents writer.new))) }
    ensures silent { IfErr result (λ fault. fault ≢ StreamFault.Write
        → Keeps (W.contents writer.old) (W.contents writer.new)) }
    ensures taken { OnOk result
        (TakesTextWithin limits (R.remaining reader.old) (R.remaining reader.new)) }
    ensures taken_at_fault { IfErr result
        (λ fault. TakesAtWithin limits fault (R.remaining reader.old) (R.remaining reader.new)) }
    ensures quiet { OnOk result (told.new.items ≡ told.old.items) }
{
    let text = read_text_within(alloc, limits, reader)?;
    let (line, outcome) = reached_line(alloc, limits, bounds, asked, watch, text, told)?;
    write_line(writer, &line)?;
    Ok(outcome)
}

/// The line of a text that is reduced in place, and how that ended. Where the line isn't to be written, it is empty. The memory
/// of the text is free once it is read.
fn reached_line<V: Watch>(
    alloc: Global,
    limits: Limits,
    bounds: Bounds,
    asked: Asked,
    watch: &V,
    text: Vec<u8>,
    told: &mut Vec<u8>,
) -> Result<(Vec<u8>, Outcome), StreamFault>
    ensures line { IfOk result
        (λ answer. EndsAs limits bounds asked text.items answer.1 answer.0.items) }
    ensures refused { IfErr result
        (λ fault. FaultOf (ReducesInPlace limits bounds asked) text.items fault) }
    ensures quiet { OnOk result (told.new.items ≡ told.old.items) }
    ensures sort { IfErr result
        (λ fault. (fault ≢ StreamFault.Write) × (fault ≢ StreamFault.Read)) }
{
    let system = match find_wide_system(alloc, limits, &text) {
        Ok(found) => found,
        Err(misread) => {
            return Err(refused_within(alloc, limits, Kind::System, &text, misread, told));
        }
    };
    drop(text);
    let stopped = run_system(alloc, &system, bounds, watch)?;
    let answer = stopped_line(alloc, system, stopped, asked)?;
    Ok(answer)
}

/// The line of what a machine holds that has stopped, and what is told of it: the figures are those of this machine. Where the
/// line isn't to be written, it is empty.
pub fn stopped_line(
    alloc: Global,
    system: WideSystem,
    stopped: Stopped,
    asked: Asked,
) -> Result<(Vec<u8>, Outcome), AllocError>
    requires { (bounds : AnyBounds)
        × HasCome system bounds stopped.given.items stopped.by_rule.items
        stopped.machine stopped.end }
    ensures of { IfOk result (λ answer. (bounds : AnyBounds)
        (come : HasCome system bounds stopped.given.items stopped.by_rule.items
        stopped.machine stopped.end)
        → (ends : EndsOf system bounds asked answer.1 answer.0.items)
        × IsNetOf come.held.numbers stopped.machine ends.answer) }
    ensures interactions { IfOk result
        (λ answer. answer.1.interactions ≡ stopped.machine.interactions) }
    ensures by_rule { IfOk result (λ answer. answer.1.by_rule.items ≡ stopped.by_rule.items) }
    ensures end { IfOk result (λ answer. answer.1.end ≡ stopped.end) }
{
    if !is_written(asked, stopped.end) {
        let outcome = unwritten(alloc, system, stopped)?;
        return Ok((Vec::new(alloc), outcome));
    }
    let shared = stopped.shared;
    let rules = system.rules().clone()?;
    let reduced = read_stopped(alloc, system, stopped)?;
    let symbols = rules.symbols();
    let line = line_reached(alloc, symbols, &reduced, asked)?;
    let at_end = left_at_end(alloc, symbols, &reduced)?;
    let outcome = Outcome {
        end: reduced.end,
        interactions: reduced.interactions,
        rules,
        by_rule: reduced.by_rule,
        name_steps: reduced.name_steps,
        nodes: reduced.nodes,
        left: reduced.left,
        shared,
        by_round: reduced.by_round,
        stuck: at_end.stuck,
        circle: at_end.circle,
    };
    Ok((line, outcome))
}

/// Whether what was reached is written.
pub fn is_written(asked: Asked, end: End) -> bool
    ensures { result ≡ is_written asked end }
{
    match asked {
        Asked::Nothing => false,
        Asked::AlsoPart => true,
        Asked::Answer => match end {
            End::Quiet | End::Steps => true,
            End::Nodes | End::Limit | End::Memory => false,
        },
    }
}

/// What is told of a reduction whose line isn't written. Its names aren't numbered anew, and it is read back only where its
/// end is one of an answer.
fn unwritten(alloc: Global, system: WideSystem, stopped: Stopped) -> Result<Outcome, AllocError>
    requires { (bounds : AnyBounds)
        × HasCome system bounds stopped.given.items stopped.by_rule.items
        stopped.machine stopped.end }
    ensures told { IfOk result (λ outcome. (bounds : AnyBounds)
        (come : HasCome system bounds stopped.given.items stopped.by_rule.items
        stopped.machine stopped.end)
        → (told : IsTold system bounds outcome)
        × IsNetOf come.held.numbers stopped.machine told.answer) }
    ensures interactions { IfOk result
        (λ outcome. outcome.interactions ≡ stopped.machine.interactions) }
    ensures by_rule { IfOk result (λ outcome. outcome.by_rule.items ≡ stopped.by_rule.items) }
    ensures end { IfOk result (λ outcome. outcome.end ≡ stopped.end) }
{
    ic_reaching::laws::one_net_is_an_equivalence();
    if is_written(Asked::Answer, stopped.end) {
        return read_unwritten(alloc, system, stopped);
    }
    let left = stopped.machine.equations_left();
    let (rules, _) = system.into_parts();
    Ok(Outcome {
        end: stopped.end,
        interactions: stopped.machine.interactions(),
        rules,
        by_rule: stopped.by_rule,
        name_steps: None,
        nodes: stopped.nodes,
        left,
        shared: stopped.shared,
        by_round: stopped.by_round,
        stuck: None,
        circle: None,
    })
}

/// The same, where it is read back.
fn read_unwritten(
    alloc: Global,
    system: WideSystem,
    stopped: Stopped,
) -> Result<Outcome, AllocError>
    requires { (bounds : AnyBounds)
        × HasCome system bounds stopped.given.items stopped.by_rule.items
        stopped.machine stopped.end }
    ensures told { IfOk result (λ outcome. (bounds : AnyBounds)
        (come : HasCome system bounds stopped.given.items stopped.by_rule.items
        stopped.machine stopped.end)
        → (told : IsTold system bounds outcome)
        × IsNetOf come.held.numbers stopped.machine told.answer) }
    ensures interactions { IfOk result
        (λ outcome. outcome.interactions ≡ stopped.machine.interactions) }
    ensures by_rule { IfOk result (λ outcome. outcome.by_rule.items ≡ stopped.by_rule.items) }
    ensures end { IfOk result (λ outcome. outcome.end ≡ stopped.end) }
{
    let shared = stopped.shared;
    let rules = system.rules().clone()?;
    let read = read_words(alloc, system, stopped)?;
    let at_end = left_at_end(alloc, rules.symbols(), &read)?;
    Ok(Outcome {
        end: read.end,
        interactions: read.interactions,
        rules,
        by_rule: read.by_rule,
        name_steps: read.name_steps,
        nodes: read.nodes,
        left: read.left,
        shared,
        by_round: read.by_round,
        stuck: at_end.stuck,
        circle: at_end.circle,
    })
}

/// The line of what was reached, or nothing.
fn line_reached(
    alloc: Global,
    symbols: &Symbols,
    reduced: &Reduced,
    asked: Asked,
) -> Result<Vec<u8>, AllocError>
    requires whole { IsWhole reduced.now.words.items }
    requires over { IsTrue (list_all (is_word_over symbols.now) reduced.now.words.items) }
    requires counted { length (forest reduced.now.words.items)
        ≡ reduced.now.terms + 2 * reduced.now.equations }
    ensures { IfOk result (λ line. line.items
        ≡ if is_written asked reduced.now.end
        then line_of symbols.now (configuration_of reduced.now.words.items reduced.now.terms 0)
        else []) }
{
    let mut line = Vec::new(alloc);
    if is_written(asked, reduced.end) {
        let (terms, equations) = (reduced.terms, reduced.equations);
        make_room(&mut line, reduced.words.len());
        put_words(alloc, symbols, &reduced.words, terms, equations, &mut line)?;
        line.push(b'\n')?;
    }
    Ok(line)
}

/// Makes room for the text of so many words, if there is memory for it: the line isn't moved then as it grows.
fn make_room(line: &mut Vec<u8>, words: usize)
    ensures { line.new.items ≡ line.old.items }
{
    let _ = line.reserve(words.saturating_mul(BYTES_A_WORD));
}

/// What is left at a quiet end for which no step is possible.
#[derive(Drop)]
struct AtEnd {
    /// The symbols of the first equation of two agents.
    stuck: Option<Vec<u8>>,
    /// The symbol at which the first circle is closed.
    circle: Option<Vec<u8>>,
}

/// What is left of this kind, where the end is quiet.
fn left_at_end(alloc: Global, symbols: &Symbols, reduced: &Reduced) -> Result<AtEnd, AllocError>
    requires whole { IsWhole reduced.now.words.items }
    requires over { IsTrue (list_all (is_word_over symbols.now) reduced.now.words.items) }
    requires counted { length (forest reduced.now.words.items)
        ≡ reduced.now.terms + 2 * reduced.now.equations }
    ensures { IfOk result (λ left. option_map (λ text. text.items) left.stuck
        ≡ words_stuck reduced.now.end symbols.now
        (configuration_of reduced.now.words.items reduced.now.terms 0)) }
{
    match reduced.end {
        End::Quiet => {
            let (terms, equations) = (reduced.terms, reduced.equations);
            let stuck = stuck_text(alloc, symbols, &reduced.words, terms, equations)?;
            let circle = circle_text(alloc, symbols, &reduced.words, terms, equations)?;
            Ok(AtEnd { stuck, circle })
        }
        _ => Ok(AtEnd {
            stuck: None,
            circle: None,
        }),
    }
}

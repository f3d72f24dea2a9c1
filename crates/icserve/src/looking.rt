//! What the program does for whoever looks at nets, on its input and standard output: `trace` and `draw`. Where the text is
//! refused, the lines that tell its place are appended to `told`.

use crate::reducing::{of_memory, put_system, reached_of};
use ic_args::TraceFormat;
use ic_by_rounds::{Format, Summary, Traced, summary_line, summary_object, trace_stream};
use ic_causes::{NotedOutput, Notes};
use ic_exits::{Failure, circle_line, reduce_ending, stuck_line};
use ic_expand::{Opened, Shape, Wording, write_told};
use ic_in_place::{Asked, End, Outcome, RoundBounds, Rounded, reduce_by_rounds_stream};
use ic_nets::draw_stream;
use ic_progress::{Watching, WipedFirst};
use ic_streams::StreamFault;
use ic_text::{Limits, TextFault};
use std::alloc::Global;
use std::io::{self, Read, Write};

/// Tells on standard error which pair is stuck.
fn tell_stuck(rt: &HostRuntime, pair: &[u8]) {
    if let Ok(line) = stuck_line(rt.alloc(), pair) {
        let _ = rt.stderr().write_all(&line);
    }
}

/// Tells on standard error at which symbol a circle is closed.
fn tell_circle(rt: &HostRuntime, symbol: &[u8]) {
    if let Ok(line) = circle_line(rt.alloc(), symbol) {
        let _ = rt.stderr().write_all(&line);
    }
}

/// What is wanted of a trace.
#[derive(Clone, Copy)]
pub(crate) struct Wanted {
    /// How the rounds are told.
    pub(crate) format: TraceFormat,
    /// Whether it is told what all of them did.
    pub(crate) is_summed: bool,
}

/// Prints what each round does, as it is over, up to the first one that a bound or a limit breaks off. What all of them did is
/// told on standard error, if that is wanted.
pub(crate) fn trace<R: Read>(
    rt: &HostRuntime,
    limits: Limits,
    bounds: RoundBounds,
    wanted: Wanted,
    input: &mut R,
    notes: &Notes,
    told: &mut Vec<u8>,
) -> Result<(), Failure> {
    let format = match wanted.format {
        TraceFormat::Tsv => Format::Table,
        TraceFormat::Svg => Format::Picture,
        TraceFormat::Json => Format::Objects,
    };
    let watching = Watching::new(rt);
    let mut output = WipedFirst::watching(&watching, NotedOutput::new(io::writer(rt), notes));
    let traced = trace_stream(
        rt.alloc(),
        limits,
        bounds,
        format,
        &watching,
        input,
        &mut output,
        told,
    );
    watching.wipe();
    let traced = traced.map_err(Failure::Stream)?;
    if wanted.is_summed {
        tell_summary(rt, traced.summary, format);
    }
    trace_ending(rt, &traced, bounds.nodes)
}

/// Tells on standard error what all rounds did.
fn tell_summary(rt: &HostRuntime, summary: Summary, format: Format) {
    let told = match format {
        Format::Objects => summary_object(rt.alloc(), summary),
        Format::Table | Format::Picture => summary_line(rt.alloc(), summary),
    };
    if let Ok(told) = told {
        let _ = rt.stderr().write_all(&told);
    }
}

/// How the program ends. A trace of as many rounds as it may tell of is no failure, but standard error is told where a step is
/// still possible, and what is stuck or goes in a circle where none is.
fn trace_ending(rt: &HostRuntime, traced: &Traced, nodes: u64) -> Result<(), Failure> {
    match traced.reached.outcome.end {
        End::Quiet => {
            tell_left(rt, &traced.reached.outcome);
            Ok(())
        }
        End::Steps => {
            tell_not_done(rt);
            Ok(())
        }
        end => reduce_ending(
            end,
            reached_of(&traced.reached.outcome, Some(traced.reached.rounds)),
            nodes,
        ),
    }
}

/// Tells on standard error the pair that is stuck, and the circle, where there is one.
pub(crate) fn tell_left(rt: &HostRuntime, outcome: &Outcome) {
    if let Some(pair) = &outcome.stuck {
        tell_stuck(rt, pair);
    }
    if let Some(symbol) = &outcome.circle {
        tell_circle(rt, symbol);
    }
}

/// Tells on standard error that a step is still possible.
fn tell_not_done(rt: &HostRuntime) {
    if let Ok(line) = Failure::NotDone.line(rt.alloc()) {
        let _ = rt.stderr().write_all(&line);
    }
}

/// How many names and agents a net has at most while rounds are made of it that is then drawn.
const DRAWN_NODES: u64 = 134_217_728;

/// Makes at most so many rounds of the system, and prints the net then as a graph.
pub(crate) fn draw_after<R: Read>(
    rt: &HostRuntime,
    rounds: u64,
    input: &mut Opened<R>,
    notes: &Notes,
    told: &mut Vec<u8>,
) -> Result<(), Failure> {
    let bounds = RoundBounds {
        rounds,
        nodes: DRAWN_NODES,
    };
    let watching = Watching::new(rt);
    let mut line = Vec::new(rt.alloc());
    let made = reduce_by_rounds_stream(
        rt.alloc(),
        Limits::Wide,
        bounds,
        Asked::Answer,
        &watching,
        input,
        &mut line,
        told,
    );
    watching.wipe();
    let made = made.map_err(of_memory).map_err(Failure::Stream)?;
    match made.outcome.end {
        End::Quiet | End::Steps => draw_line(rt, &made, &line, input.wording(), notes, told),
        end => {
            let reached = reached_of(&made.outcome, Some(made.rounds));
            reduce_ending(end, reached, DRAWN_NODES)
        }
    }
}

/// Prints the net of a line as a graph, which so many rounds have come to, with free names in these words.
fn draw_line(
    rt: &HostRuntime,
    made: &Rounded,
    line: &[u8],
    wording: Option<&Wording>,
    notes: &Notes,
    told: &mut Vec<u8>,
) -> Result<(), Failure> {
    let mut text = Vec::new(rt.alloc());
    put_system(rt.alloc(), &made.outcome.rules, line, &mut text)
        .map_err(of_memory)
        .map_err(Failure::Stream)?;
    let (mut graph, mut unseen) = (Vec::new(rt.alloc()), Vec::new(rt.alloc()));
    let mut bytes = text.as_slice();
    let drawn = draw_stream(rt.alloc(), &mut bytes, &mut graph, &mut unseen);
    if let Err(StreamFault::Text(TextFault::Limit)) = drawn {
        tell_too_large(rt.alloc(), made.rounds, told).map_err(Failure::Stream)?;
    }
    drawn.map_err(of_memory).map_err(Failure::Stream)?;
    write_graph(rt, wording, &graph, notes)
}

/// Writes a graph, with free names in these words.
fn write_graph(
    rt: &HostRuntime,
    wording: Option<&Wording>,
    graph: &[u8],
    notes: &Notes,
) -> Result<(), Failure> {
    let mut output = NotedOutput::new(io::writer(rt), notes);
    write_told(rt.alloc(), wording, Shape::Graph, graph, &mut output).map_err(Failure::Stream)
}

/// Appends why a net isn't drawn that so many rounds have come to.
fn tell_too_large(alloc: Global, rounds: u64, told: &mut Vec<u8>) -> Result<(), StreamFault> {
    let line = format!(in alloc;
        "after {rounds} rounds the net, or its rules, pass the limits of what is drawn: icserve help limits\n"
    )?;
    told.extend_from_slice(line.as_bytes())?;
    Ok(())
}

/// Prints the net of the configuration as a graph.
pub(crate) fn draw<R: Read>(
    rt: &HostRuntime,
    input: &mut Opened<R>,
    notes: &Notes,
    told: &mut Vec<u8>,
) -> Result<(), Failure> {
    let mut graph = Vec::new(rt.alloc());
    let drawn = draw_stream(rt.alloc(), input, &mut graph, told);
    drawn.map_err(of_memory).map_err(Failure::Stream)?;
    write_graph(rt, input.wording(), &graph, notes)
}

//! The table of the words of the program: the one place where a word and its options stand.

ghost use Rattle.std.specs.Prelude.{◌≡◌, true};
ghost use Rattle.std.specs.List.{AllByRecursion};
ghost use Rattle.clap.specs.Words.{is_simple};
ghost use Rattle.ic_args.specs.Words.{IsFirst, command_line};
ghost use Rattle.ic_args.specs.inner.Making.{are_found};

use crate::rows::{Argument, Choice, Entry, Flag, Number, Place, Text};

/// The most interactions of `reduce`, which it may make where no number is said, and the most names and agents of its
/// net: 2^62 - 1.
pub const MAX_STEPS: u64 = 4_611_686_018_427_387_903;

/// The most rounds, which `batch` may make where no number is said: 2^62.
pub const MAX_ROUNDS: u64 = 4_611_686_018_427_387_904;

/// A word of the program.
#[derive(Clone, Copy, Debug)]
pub enum Word {
    /// Reduce a system until no step is possible.
    Reduce,
    /// Tell what its rounds do.
    Trace,
    /// Draw the net of a configuration.
    Draw,
    /// Make one round of a system.
    Once,
    /// Settle a configuration.
    Settle,
    /// Tell the faults of texts, and what in them is mostly a mistake.
    Check,
    /// Write a text with comments, long names and generic rules as one without.
    Expand,
    /// Make a file an empty disk.
    Create,
    /// Serve the lines of standard input over a disk.
    Serve,
    /// Give the commands of scripts to a disk, each script by a client of its own.
    Attend,
    /// Bring the jobs of a file of lines to their ends.
    Batch,
    /// Print jobs of a disk as lines that submit them.
    Dump,
    /// Tell what a file holds.
    Inspect,
    /// Show a help.
    Help,
}

/// The table: all words, in the order in which the program's help tells of them. The parser can tell them
/// apart, and meets each where its name stands first.
pub fn table() -> [Entry; 14]
    ensures apart { is_simple (command_line result) ≡ true }
    ensures first { AllByRecursion (IsFirst result) result }
{
    words()
}

/// The same, of which a computation tells as much.
#[tactic(auto, unfolding(clap::proofs::OnLiterals::clap_on_literals))]
fn words() -> [Entry; 14]
    ensures apart { is_simple (command_line result) ≡ true }
    ensures found { are_found result ≡ true }
{
    WORDS
}

const WORDS: [Entry; 14] = [
    Entry {
        word: Word::Reduce,
        name: "reduce",
        about: "Reduces a system until no step is possible, and prints the configuration",
        arguments: REDUCE,
    },
    Entry {
        word: Word::Trace,
        name: "trace",
        about: "Tells what each round of a system does, as a table or a picture",
        arguments: TRACE,
    },
    Entry {
        word: Word::Draw,
        name: "draw",
        about: "Draws the net of a configuration as a graph in Graphviz's DOT",
        arguments: DRAW,
    },
    Entry {
        word: Word::Once,
        name: "once",
        about: "Makes one round of a system, and prints the configuration",
        arguments: TEXT,
    },
    Entry {
        word: Word::Settle,
        name: "settle",
        about: "Settles a configuration: names that only join two terms are removed",
        arguments: TEXT,
    },
    Entry {
        word: Word::Check,
        name: "check",
        about: "Prints the faults of texts with their places, and warns of what is mostly a mistake",
        arguments: CHECK,
    },
    Entry {
        word: Word::Expand,
        name: "expand",
        about: "Writes a text with comments, long names, copy and erase as a plain one",
        arguments: &[Argument::Place(FILE)],
    },
    Entry {
        word: Word::Create,
        name: "create",
        about: "Makes the file F an empty disk, on which jobs outlive a crash",
        arguments: CREATE,
    },
    Entry {
        word: Word::Serve,
        name: "serve",
        about: "Serves the lines of standard input over the disk in the file F",
        arguments: SERVE,
    },
    Entry {
        word: Word::Attend,
        name: "attend",
        about: "Tries legal histories of the disk in the file F, with a script for each client",
        arguments: ATTEND,
    },
    Entry {
        word: Word::Batch,
        name: "batch",
        about: "Brings the jobs that lines submit to their ends, over the disk in the file F",
        arguments: BATCH,
    },
    Entry {
        word: Word::Dump,
        name: "dump",
        about: "Prints jobs of the disk in the file F, as lines that submit them",
        arguments: DUMP,
    },
    Entry {
        word: Word::Inspect,
        name: "inspect",
        about: "Tells what the file F holds, which a server may have open",
        arguments: INSPECT,
    },
    Entry {
        word: Word::Help,
        name: "help",
        about: "Shows the help of a word, or of the program",
        arguments: &[Argument::Place(TOPIC)],
    },
];

/// The path of a disk.
pub const DISK: Text = Text {
    name: "disk",
    shown: "F",
    needed: true,
    apart: &[],
    help: "The path of the file, which has to be a disk",
};

/// The path of a disk that is made where it is missing.
const NEW_DISK: Text = Text {
    name: "disk",
    shown: "F",
    needed: true,
    apart: &[],
    help: "The path of the file, which is made where it is missing",
};

/// The path of a file that is looked at.
const SEEN_DISK: Text = Text {
    name: "disk",
    shown: "F",
    needed: true,
    apart: &[],
    help: "The path of the file, which stays as it is",
};

/// For how many seconds a disk is awaited that another process has.
pub const WAIT: Number = Number {
    name: "wait",
    shown: "N",
    least: 0,
    most: 86_400,
    default: Some("0"),
    apart: &[],
    help: "Try again for N seconds if the disk is locked, from 0 to 86400",
};

/// The path of a text.
pub const FILE: Place = Place {
    name: "file",
    shown: "FILE",
    needed: false,
    several: false,
    help: "The path of the text; where there is none, or -, standard input is read",
};

/// Whether the text is rich, whatever it is called and begins with.
pub const RICH: Flag = Flag {
    name: "rich",
    help: "Read a rich text, as one is that begins with #rich, or in a file *.rich",
};

/// Whether what comes of a rich text is told as of the text for which it stands.
pub const PLAIN: Flag = Flag {
    name: "plain",
    help: "Print no numbers, lists, pairs and long names, but what they stand for",
};

/// A text that may be rich, to which a net comes.
const TEXT: &[Argument] = &[
    Argument::Place(FILE),
    Argument::Flag(RICH),
    Argument::Flag(PLAIN),
];

/// How many threads make the rounds of several jobs.
pub const WORKERS: Number = Number {
    name: "workers",
    shown: "N",
    least: 1,
    most: 64,
    default: None,
    apart: &[],
    help: "Threads for rounds of several jobs, from 1 to 64; else processors",
};

/// After how many rounds they are kept.
pub const EVERY: Number = Number {
    name: "every",
    shown: "K",
    least: 1,
    most: 1_000_000,
    default: Some("100"),
    apart: &[],
    help: "After how many rounds they are kept, from 1 to 1000000",
};

/// How many commands are kept at once.
pub const GROUP: Number = Number {
    name: "group",
    shown: "N",
    least: 1,
    most: 64,
    default: Some("1"),
    apart: &[],
    help: "How many commands that have come are kept at once, from 1 to 64",
};

/// What the history of a server may take before it is dropped.
pub const PAGE_BYTES: Number = Number {
    name: "page-bytes",
    shown: "N",
    least: 1_024,
    most: 67_108_864,
    default: Some("67108864"),
    apart: &[],
    help: "Bytes that its history may take, from 1024 to 67108864",
};

/// How it is told what is found.
pub const REPORT: Choice = Choice {
    name: "format",
    shown: "FORMAT",
    among: &["text", "json"],
    default: "text",
    help: "How it is told",
};

/// How many interactions are made at most.
pub const STEPS: Number = Number {
    name: "steps",
    shown: "N",
    least: 0,
    most: MAX_STEPS,
    default: None,
    apart: &[],
    help: "Make at most N interactions, from 0 to 4611686018427387903 (the default)",
};

/// How many names and agents the net has at most.
pub const NODES: Number = Number {
    name: "nodes",
    shown: "N",
    least: 0,
    most: MAX_STEPS,
    default: Some("134217728"),
    apart: &[],
    help: "At most so many nodes, from 0 to 4611686018427387903",
};

/// The limits of the text.
pub const LIMITS: Choice = Choice {
    name: "limits",
    shown: "L",
    among: &["served", "wide"],
    default: "wide",
    help: "The text's limits",
};

/// Whether the configuration is printed where the net or memory ends the reduction.
pub const PARTIAL: Flag = Flag {
    name: "partial",
    help: "Print the configuration too where the net or memory ends it",
};

/// Whether the rules are printed too.
pub const RULES_TOO: Flag = Flag {
    name: "with-rules",
    help: "Print the rules before the configuration, so that both are a text again",
};

/// Whether no configuration is printed.
pub const QUIET: Flag = Flag {
    name: "quiet-answer",
    help: "Print no configuration, where only figures or the exit status are wanted",
};

/// Whether figures are told.
pub const STATS: Flag = Flag {
    name: "stats",
    help: "Tell how many interactions were made, by each rule too, and how fast",
};

/// How figures are told.
pub const FIGURES: Choice = Choice {
    name: "format",
    shown: "FORMAT",
    among: &["lines", "json"],
    default: "lines",
    help: "How --stats tells it",
};

/// Whether it is told how many rounds there would be.
pub const SPAN: Flag = Flag {
    name: "span",
    help: "Tell these figures with the span, and how many pairs could fire at once",
};

/// Where it is written how many pairs each round would fire.
pub const PROFILE: Text = Text {
    name: "profile",
    shown: "TO",
    needed: false,
    apart: &[],
    help: "Write how many pairs each round would fire: a picture if TO ends in .svg",
};

/// Where a reduction is kept that begins.
pub const KEEP: Text = Text {
    name: "keep",
    shown: "F",
    needed: false,
    apart: &["resume", "limits", "span", "profile"],
    help: "Keep what is reached in the new files F and F.2, also at the end",
};

/// Where a reduction is kept that goes on.
pub const RESUME: Text = Text {
    name: "resume",
    shown: "F",
    needed: false,
    apart: &["limits", "file", "span", "profile"],
    help: "Go on with what is kept in F and F.2, and keep it there",
};

/// Whether a reduction goes on from one file, where the other is lost or damaged.
pub const ONE_FILE: Flag = Flag {
    name: "from-one-file",
    help: "Go on with one file, if the other is lost or damaged, and make that anew",
};

/// How many seconds are between two keeps.
pub const SECONDS: Number = Number {
    name: "seconds",
    shown: "N",
    least: 1,
    most: 86_400,
    default: Some("30"),
    apart: &[],
    help: "Keep after some N seconds, from 1 to 86400",
};

/// How many rounds `reduce` makes at most.
pub const ROUNDS: Number = Number {
    name: "rounds",
    shown: "N",
    least: 0,
    most: MAX_ROUNDS,
    default: None,
    apart: &["steps", "workers", "span", "profile"],
    help: "Make rounds, and at most so many, from 0 to 4611686018427387904",
};

/// How many threads reduce.
pub const REDUCERS: Number = Number {
    name: "workers",
    shown: "N",
    least: 1,
    most: 64,
    default: None,
    apart: &[],
    help: "Threads, from 1 to 64; else processors, 1 with --steps",
};

const REDUCE: &[Argument] = &[
    Argument::Place(FILE),
    Argument::Flag(RICH),
    Argument::Flag(PLAIN),
    Argument::Number(STEPS),
    Argument::Number(NODES),
    Argument::Choice(LIMITS),
    Argument::Flag(PARTIAL),
    Argument::Flag(RULES_TOO),
    Argument::Flag(QUIET),
    Argument::Flag(STATS),
    Argument::Choice(FIGURES),
    Argument::Flag(SPAN),
    Argument::Text(PROFILE),
    Argument::Text(KEEP),
    Argument::Text(RESUME),
    Argument::Flag(ONE_FILE),
    Argument::Number(SECONDS),
    Argument::Number(ROUNDS),
    Argument::Number(REDUCERS),
];

/// How many rounds `trace` tells of at most.
pub const TRACED: Number = Number {
    name: "rounds",
    shown: "N",
    least: 0,
    most: MAX_ROUNDS,
    default: Some("1000000"),
    apart: &[],
    help: "Make at most N rounds, from 0 to 4611686018427387904",
};

/// How a trace is told.
pub const TABLE: Choice = Choice {
    name: "format",
    shown: "FORMAT",
    among: &["tsv", "svg", "json"],
    default: "tsv",
    help: "How it is told",
};

/// Whether it is told what all rounds did.
pub const SUMS: Flag = Flag {
    name: "stats",
    help: "Tell work, span, and how many pairs could fire at once",
};

const TRACE: &[Argument] = &[
    Argument::Place(FILE),
    Argument::Flag(RICH),
    Argument::Number(TRACED),
    Argument::Number(NODES),
    Argument::Choice(LIMITS),
    Argument::Flag(SUMS),
    Argument::Choice(TABLE),
];

/// After how many rounds a net is drawn.
pub const DRAWN: Number = Number {
    name: "rounds",
    shown: "N",
    least: 0,
    most: MAX_ROUNDS,
    default: None,
    apart: &[],
    help: "Make rounds before, and at most N, from 0 to 4611686018427387904",
};

const DRAW: &[Argument] = &[
    Argument::Place(FILE),
    Argument::Flag(RICH),
    Argument::Flag(PLAIN),
    Argument::Number(DRAWN),
];

/// The paths of the texts of `check`.
pub const CHECKED: Place = Place {
    name: "files",
    shown: "FILE",
    needed: true,
    several: true,
    help: "The paths of the texts, one at least; for - standard input is read",
};

/// Whether these are scripts.
pub const SCRIPTS: Flag = Flag {
    name: "script",
    help: "The files are scripts of attend, in which no run may stand",
};

/// Whether a warning counts as a fault.
pub const STRICT: Flag = Flag {
    name: "strict",
    help: "Count warnings as faults: the status is 1 where one is told",
};

const CHECK: &[Argument] = &[
    Argument::Place(CHECKED),
    Argument::Flag(RICH),
    Argument::Choice(REPORT),
    Argument::Flag(SCRIPTS),
    Argument::Flag(STRICT),
];

/// Whether what a file holds is overwritten.
pub const OVERWRITE: Flag = Flag {
    name: "overwrite",
    help: "Whatever the file holds, jobs too",
};

const CREATE: &[Argument] = &[
    Argument::Text(NEW_DISK),
    Argument::Flag(OVERWRITE),
    Argument::Number(WAIT),
];

/// Whether it is told what is wrong with each refused line.
pub const EXPLAIN: Flag = Flag {
    name: "explain",
    help: "Tells on standard error where each line with a fault has it, and what it is",
};

const SERVE: &[Argument] = &[
    Argument::Text(DISK),
    Argument::Number(WORKERS),
    Argument::Number(EVERY),
    Argument::Number(GROUP),
    Argument::Number(PAGE_BYTES),
    Argument::Flag(EXPLAIN),
    Argument::Number(WAIT),
];

/// The paths of scripts.
pub const SCRIPT: Place = Place {
    name: "script",
    shown: "SCRIPT",
    needed: false,
    several: true,
    help: "The paths of files of commands, one in a line",
};

/// How many runners make rounds.
pub const RUNNERS: Number = Number {
    name: "runners",
    shown: "R",
    least: 0,
    most: 64,
    default: Some("2"),
    apart: &[],
    help: "Threads that take rounds of running jobs, from 0 to 64",
};

/// How many rounds each runner may take once all scripts have ended.
pub const TURNS: Number = Number {
    name: "turns",
    shown: "T",
    least: 0,
    most: 1_000_000,
    default: Some("0"),
    apart: &[],
    help: "Rounds that each makes after the scripts, from 0 to 1000000",
};

/// How many threads make a round of a runner.
pub const HELPERS: Number = Number {
    name: "workers",
    shown: "N",
    least: 1,
    most: 64,
    default: Some("2"),
    apart: &[],
    help: "Threads for each round, from 1 to 64",
};

const ATTEND: &[Argument] = &[
    Argument::Place(SCRIPT),
    Argument::Text(DISK),
    Argument::Number(RUNNERS),
    Argument::Number(TURNS),
    Argument::Number(HELPERS),
    Argument::Number(WAIT),
];

/// The path of the lines of `batch`.
pub const LINES: Place = Place {
    name: "lines",
    shown: "LINES",
    needed: true,
    several: false,
    help: "The path of the lines, each of which submits a job",
};

/// How many rounds a job of `batch` makes at most.
pub const TAKEN: Number = Number {
    name: "rounds",
    shown: "N",
    least: 0,
    most: MAX_ROUNDS,
    default: None,
    apart: &[],
    help: "A job makes at most N rounds, from 0 to 4611686018427387904 (the default)",
};

const BATCH: &[Argument] = &[
    Argument::Place(LINES),
    Argument::Text(NEW_DISK),
    Argument::Number(TAKEN),
    Argument::Number(EVERY),
    Argument::Number(WORKERS),
    Argument::Number(WAIT),
];

/// The names of jobs.
pub const NAMES: Place = Place {
    name: "name",
    shown: "NAME",
    needed: false,
    several: true,
    help: "The names of the jobs; all jobs, where none is given",
};

const DUMP: &[Argument] = &[
    Argument::Place(NAMES),
    Argument::Text(DISK),
    Argument::Number(WAIT),
];

const INSPECT: &[Argument] = &[Argument::Text(SEEN_DISK), Argument::Choice(REPORT)];

/// What a help is asked for.
pub const TOPIC: Place = Place {
    name: "word",
    shown: "WORD",
    needed: false,
    several: false,
    help: "The word, language, limits or keep; without it the program's help is shown",
};

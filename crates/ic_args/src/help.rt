//! What the helps say after the options, and what `help` shows. The parser writes what stands before by the table.

use crate::parser::command;
use crate::rows::Entry;
use crate::table::Word;
use crate::tips::likest_first;
use crate::words::{WordsFault, refusal_of, word_named};
use clap::error::{Error, ErrorKind};
use std::alloc::{AllocError, Global};

/// What stands at the end of the program's help.
pub(crate) const PROGRAM: &str = "\
To look at a system, which is read from a file or from standard input: reduce, trace, draw, once,
settle, check and expand. To run jobs, which outlive a crash: create, serve, attend, batch, dump
and inspect.
icserve help language tells how texts are written, icserve help limits how large they may be, and
icserve help keep how a reduction is kept.
The repository's docs/ say more, and its film shows a net round by round.

Example, two and two:
  $ echo '{Add(x,x)><Z; Add(S(x),y)><S(Add(x,y))} <r|Add(r,S(S(Z)))=S(S(Z))>' > sum.ic
  $ icserve reduce sum.ic
  <S(S(S(S(Z))))|>";

/// What `help language` shows.
const LANGUAGE: &str = "\
Tells how systems and configurations are written

The language:
  {Add(x,x)><Z; Add(S(x),y)><S(Add(x,y))}  rules, separated by ;
  <r|Add(r,S(Z))=S(Z)>      a configuration: its interface | its equations, separated by ,
  {..} <..|..>              a system: rules, or {}, and a configuration
  x, y, r, a1               names: a small letter, maybe a number; in a rule each stands twice
  Add, S, Z, 0              symbols: A to Z or 0 to 9 first; each has a fixed number of arguments
  Add(x,x)><Z               where Add meets Z, the two arguments of Add are joined
  Add(S(x),y)><S(Add(x,y))  what stands at the argument of S is Add(x,y)
  Add(r,n)=S(m)             two agents meet: they fire where a rule has their symbols
  x=t                       t takes the place of the other x; a name that stands once is free

An agent meets what stands on the other side of an equation. So the sum of m and n is Add(r,n)=m,
and comes out at r. In r=Add(m,n), or in another term, Add(m,n) only names a term: nothing fires.
A text has no comments. icserve expand takes out those that begin with #, takes long names, and
writes rules that copy and erase. icserve help limits tells how large a text may be.

Example:
  $ echo '{Add(x,x)><Z; Add(S(x),y)><S(Add(x,y))} <r|Add(r,S(Z))=S(Z)>' | icserve reduce
  <S(S(Z))|>
";

/// What `help keep` shows.
const KEEP: &str = "\
Tells how a reduction is kept, so that it goes on after a stop

The commands:
  icserve reduce --keep F FILE   begins it, and keeps what is reached in the new files F and F.2
  icserve reduce --resume F      goes on with what is kept there, and reads no text
  icserve inspect --disk F       tells what is kept, also while a reduction goes on

A stop at any moment loses what was done since the last keep. Keeps come after about as many
seconds as --seconds says, or ten times as long as the last one took, and 4194304 interactions at
least. The end is kept too, and --resume prints the answer again. --steps counts the interactions
of all runs. One with --rounds is kept and resumed between two rounds, at most N with --rounds N.
F and F.2 belong together: move or copy both, while neither is open, and give the name F.
After a stop in the very first keep mostly nothing is kept: give the same --keep again.
If one of them is lost or damaged, --resume with --from-one-file goes on with what the other one
holds, the last keep or the one before, and makes the lost one anew. No flag is needed at the end.

Example:
  $ echo '{Add(x,x)><Z; Add(S(x),y)><S(Add(x,y))} <r|Add(r,S(Z))=S(Z)>' > sum.ic
  $ icserve reduce --keep sum.keep sum.ic
  <S(S(Z))|>
  $ icserve reduce --resume sum.keep
  <S(S(Z))|>
";

/// What `help limits` shows.
const LIMITS: &str = "\
Tells how large texts, nets and disks may be

A text                                served          wide
  nodes of the net                    8192            2147483648
  terms before |                      64              2147483648
  symbols                             64              65536
  rules                               256             2147483648
  nodes of the arguments of rules     2048 in all     2048 in each rule
  bytes                               262144          8589934592
  bytes of a symbol                   32              32
  arguments of a symbol               15              15
  number of a name                    4294967295      4294967295

A name is a node, and an agent is a node and those of its arguments. Texts of reduce and trace are
wide, or served with --limits served, and those of draw --rounds are wide. Those of jobs and of
other commands are served, and their nets have at most 8192 nodes after each round. A rich text has
at most 8589934592 bytes.

A disk of jobs
  jobs                                32
  bytes of a job's name               16
  rounds of one run                   1000
  budget of a job                     4294967295 rounds
  lines of a serving                  1000000, of 262144 bytes each
  commands of a script of attend      65536, in 16777216 bytes

A reduction in place
  --steps                             4611686018427387903 interactions, also where it isn't given
  --nodes                             134217728, where it isn't given
  agents of a symbol, names           4294967295
  threads                             64

Example:
  $ echo '{} <r|r=S(Z)>' | icserve reduce --limits served
  <S(Z)|>
";

/// What stands at the end of the help of a word.
pub(crate) fn after(word: Word) -> &'static str {
    match word {
        Word::Reduce => REDUCE,
        Word::Trace => TRACE,
        Word::Draw => DRAW,
        Word::Once => ONCE,
        Word::Settle => SETTLE,
        Word::Check => CHECK,
        Word::Expand => EXPAND,
        Word::Create => CREATE,
        Word::Serve => SERVE,
        Word::Attend => ATTEND,
        Word::Batch => BATCH,
        Word::Dump => DUMP,
        Word::Inspect => INSPECT,
        Word::Help => HELP,
    }
}

const REDUCE: &str = "\
A round fires all active pairs at once, and then removes names that only join two terms.
--rounds takes no --steps or --workers: one thread makes rounds, and keeps between two of them.
--keep and --resume take no --limits. None of the three takes --span or --profile: these tell, in
any order and by any number of threads, what rounds would do. Of a reduction that is cut they count
only the pairs that have fired.
Without --workers and --steps as many threads reduce as the process may use processors, at most 64.
Several may leave the same equations in another order and with other names each time.
Compare the seconds of --stats with those of --workers 1 to see whether several were faster.
Without --stats or --span, --format changes nothing. The limits served are those of a job's text.
What --nodes bounds are the names and agents that the net has at a time; a name counts once. They
are counted often enough that it is passed by a sixteenth and one interaction at most, unless the
text itself has more.
If two agents are left that have no rule, the first pair is told: icserve: stuck A><B
If an equation is left of a name and a term that has it, so is that: icserve: circle at A
A rule that --stats doesn't name never fired; an agent inside another term meets nothing.

Exit statuses:
  0  no step is possible
  1  the text is refused, or the net is too large
  2  the arguments are refused
  3  the files of --keep or --resume can't be begun or opened
  4  memory ran out, or something can't be read, written or kept
  5  a step is still possible after the last interaction or round
  6  another process has the files of --keep or --resume

icserve help language tells how a text is written, and icserve help limits how large it may be: with
--limits served, as in jobs and other commands, it has the served limits.
icserve help keep tells how a reduction is kept, and goes on after a stop.

Example:
  $ echo '{Add(x,x)><Z; Add(S(x),y)><S(Add(x,y))} <r|Add(r,S(Z))=S(Z)>' > sum.ic
  $ icserve reduce sum.ic
  <S(S(Z))|>";

const TRACE: &str = "\
The format tsv is a table with tabs, svg a picture, and json has objects of JSON, one a line.
A round fires all active pairs at once, and then removes names that only join two terms.
Where a step is still possible after the last round, standard error says icserve: not done, and
figures and a picture say partial. Where none is, it says which pair is stuck, and at which symbol
a circle is left.
Of more than 640 rounds a bar of the picture is the sum of several. A row is printed as its round
is over. --stats tells what all did: work, span, and how many pairs could fire at once.

Example:
  $ echo '{Add(x,x)><Z; Add(S(x),y)><S(Add(x,y))} <r|Add(r,S(Z))=S(Z)>' > sum.ic
  $ icserve trace sum.ic | /usr/bin/expand
  round   pairs   nodes   equations       names
  1       1       7       1       2
  2       1       3       0       0";

const DRAW: &str = "\
Rules may stand before the configuration: active pairs stand out then.

Example:
  $ echo '<|A=B>' | icserve draw | tail -n 2
  A0:0 -- A1:0 [dir=both]
  }";

const ONCE: &str = "\
Example:
  $ echo '{Add(x,x)><Z; Add(S(x),y)><S(Add(x,y))} <r|Add(r,S(Z))=S(Z)>' | icserve once
  <S(s)|Z=Add(s,S(Z))>";

const SETTLE: &str = "\
Example:
  $ echo '<r|r=S(s),s=Z>' | icserve settle
  <S(Z)|>";

const CHECK: &str = "\
The format json has objects of JSON, one a line.
A file begins with { if it is a system, and with < if it is a configuration; else it has lines.
Each text is held to the limits of a job's text. The fault of a larger text is told by
icserve reduce --steps 0 --quiet-answer FILE

Example:
  $ echo '{A><B} <x|A=C>' > net.ic
  $ icserve check net.ic
  net.ic: warning: no rule for A><C
  net.ic: warning: symbols that stand only once: B, C
  net.ic: warning: rule 1, A><B, is never used
  net.ic: warning: the name x stands only once";

const EXPAND: &str = "\
A comment is # and the rest of its line. A name is a small letter, and then letters, digits and _.
Among the rules `copy S` stands for the rules by which S(x,y) copies each symbol of the text, and
`erase S` for those by which S erases each. A rule that is given is not written again.

Example:
  $ echo '{copy D} <one,two|D(one,two)=S(Z)>  # twice' | icserve expand | icserve reduce
  <S(Z),S(Z)|>";

const CREATE: &str = "\
Example:
  $ icserve create --disk jobs.disk
  $ echo list | icserve serve --disk jobs.disk
  jobs";

const SERVE: &str = "\
Lines, and what is answered where they aren't refused:
  submit NAME {RULES} <CONFIG>         accepted
  submit NAME BUDGET {RULES} <CONFIG>  accepted: it makes at most BUDGET rounds
  copy OLD NEW                         accepted: NEW goes on where OLD stands
  run K                                ran N: the rounds that were made of running jobs, in turn
  fetch NAME                           NAME STATE ROUNDS CONFIG
  list                                 jobs NAME:STATE:ROUNDS ..
  pause NAME, resume NAME              ok
  cancel NAME                          ok: the job is removed
A NAME is a small letter, and then small letters, digits and -, 16 in all at most.
A BUDGET is 1 to 4294967295, and K is at most 1000. A disk has at most 32 jobs.
A STATE is running, paused, done where no step is possible, halted where the next round can't be
made, or spent where the budget is used up. icserve inspect tells which pair is stuck.
A line with a fault is answered by bad, and one that can't be done by refused and why: taken (a
job has the name), full (there are 32 jobs), nojob, notrunning or notpaused.
Where standard error is a terminal, faults are told without --explain; if standard input is one
too, a prompt stands there. The end of the input ends it: at a terminal, Ctrl-D.

Example:
  $ icserve create --disk jobs.disk
  $ echo 'submit two {Add(x,x)><Z; Add(S(x),y)><S(Add(x,y))} <r|Add(r,S(Z))=S(Z)>' > lines
  $ echo 'run 10' >> lines
  $ echo 'fetch two' >> lines
  $ icserve serve --disk jobs.disk < lines
  accepted
  ran 2
  two done 2 <S(S(Z))|>";

const ATTEND: &str = "\
Example:
  $ icserve create --disk jobs.disk
  $ echo list > script
  $ icserve attend --disk jobs.disk script
  client 0
  jobs";

const BATCH: &str = "\
It may be stopped at any moment and called again with the same words.
A greater K is faster; after a stop more rounds may have to be made again.

Example:
  $ echo 'submit two {Add(x,x)><Z; Add(S(x),y)><S(Add(x,y))} <r|Add(r,S(Z))=S(Z)>' > lines
  $ icserve batch --disk jobs.disk lines
  two done 2 <S(S(Z))|>";

const DUMP: &str = "\
Example:
  $ icserve create --disk jobs.disk
  $ echo 'submit one {A(x)><B(x)} <r|A(r)=B(Z)>' | icserve serve --disk jobs.disk
  accepted
  $ icserve dump --disk jobs.disk one
  submit one {A(a)><B(a)} <r|A(r)=B(Z)>";

const INSPECT: &str = "\
The format json has objects of JSON, one a line.
F may be a disk, of which the two slots are told, or the first file of a reduction that
icserve reduce --keep F keeps: then file 1 is F, and file 2 is F.2.

Example:
  $ icserve create --disk jobs.disk
  $ icserve inspect --disk jobs.disk
  slot 1: open, number 1, body 5, a table
  slot 2: closed, number 0, body 0, no table
  held: slot 1";

const HELP: &str = "\
Example:
  $ icserve help settle
  (what icserve settle --help prints)";

/// What else `help` tells of, and how.
const TOPICS: [(&str, &str); 3] = [("language", LANGUAGE), ("limits", LIMITS), ("keep", KEEP)];

/// What `help` shows of a word of the program, of what else it tells of, or of the program where there is no word. Another
/// word is refused, and those that are like it are told.
pub fn help_of(alloc: Global, table: &[Entry], word: Option<&str>) -> Result<String, WordsFault> {
    let Some(word) = word else {
        return shown(alloc, table, &["--help"]);
    };
    if let Some((_, text)) = TOPICS.iter().find(|topic| topic.0 == word) {
        return Ok(String::from_str(alloc, text)?);
    }
    if word_named(table, word).is_some() {
        return shown(alloc, table, &[word, "--help"]);
    }
    Err(no_help(alloc, table, &[word])?)
}

/// What the parser shows at words that ask for a help.
fn shown(alloc: Global, table: &[Entry], words: &[&str]) -> Result<String, WordsFault> {
    match error_of(alloc, table, words)? {
        Some(error) => Ok(error.to_string(alloc)?),
        None => Ok(String::new(alloc)),
    }
}

/// What the parser answers words where it takes nothing from them.
fn error_of(alloc: Global, table: &[Entry], words: &[&str]) -> Result<Option<Error>, AllocError> {
    match command(alloc, table)?.try_get_matches_from(words) {
        Ok(_) => Ok(None),
        Err(error) => Ok(Some(error)),
    }
}

/// The refusal of a word of which there is no help, which stands alone here.
fn no_help(alloc: Global, table: &[Entry], words: &[&str]) -> Result<WordsFault, AllocError> {
    let told = parsers_text(alloc, &with_topics(alloc, table)?, words)?;
    let front = match told.as_str().rsplit_once("\n\nUsage: ") {
        Some((front, _)) => front,
        None => "error: unrecognized subcommand",
    };
    let text = format!(in alloc;
        "{front}\n\nUsage: icserve help [WORD]\n\nFor more information, try '--help'.\n"
    )?;
    Ok(refusal_of(alloc, text.as_str()))
}

/// The table, in which what else `help` tells of stands as words.
fn with_topics(alloc: Global, table: &[Entry]) -> Result<Vec<Entry>, AllocError> {
    let mut all = table.to_vec(alloc)?;
    for topic in &TOPICS {
        all.push(Entry {
            word: Word::Help,
            name: topic.0,
            about: "",
            arguments: &[],
        })?;
    }
    Ok(all)
}

/// What the parser tells of words that begin with none that has a help, with those that are like it.
fn parsers_text(alloc: Global, table: &[Entry], words: &[&str]) -> Result<String, AllocError> {
    match error_of(alloc, table, words)? {
        Some(error) => refusal_text(alloc, &error),
        None => Ok(String::new(alloc)),
    }
}

/// What the parser tells of a refusal: nothing where it would show a help.
fn refusal_text(alloc: Global, error: &Error) -> Result<String, AllocError> {
    match error.kind() {
        ErrorKind::DisplayHelp => Ok(String::new(alloc)),
        _ => likest_first(alloc, error.to_string(alloc)?.as_str()),
    }
}

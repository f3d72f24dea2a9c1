//! Why the program doesn't do what it is asked, and what it makes of it.

ghost use Rattle.std.specs.Prelude.{◌≡◌, ◌++◌, IfOk};
ghost use Rattle.ic_exits.specs.Endings.{status_of, scripts_status, failure_line, told};
ghost use Rattle.ic_exits.specs.Endings.{stream_word, round_word, create_word, open_word, serve_word, stuck_line};
ghost use Rattle.ic_exits.specs.Endings.{batch_status, batch_word, cause_text, jobs_status, jobs_word, line_words, opening_failure};
ghost use Rattle.ic_exits.specs.Endings.{dump_status, dump_word, inspect_status, inspect_word, scripts_word, script_words};
ghost use Rattle.ic_exits.specs.Endings.{keep_word, kept_status, kept_word, reduce_ending};

use ic_args::WordsFault;
use ic_batch::{BatchFault, JobsCause, JobsFault};
use ic_causes::{Cause, Reason};
use ic_commands::print_reply;
use ic_disk::DiskFault;
use ic_dump::{DiskDumpFault, DumpFault};
use ic_frames::KeepFault;
use ic_in_place::End;
use ic_inspect::InspectFault;
use ic_jobs::Reply;
use ic_keeping::KeepingFault;
use ic_lines::ScriptFault;
use ic_round::RoundFault;
use ic_rules::JobName;
use ic_scripts::{ScriptsFault, book_word};
use ic_serving::ServeFault;
use ic_slots::{CreateFault, OpenCause};
use ic_streams::StreamFault;
use ic_text::print_fault;
use std::alloc::{AllocError, Global};

/// How far a net has come that is reduced in place.
#[derive(Clone, Copy)]
pub struct Reached {
    /// How many interactions were made.
    pub interactions: u64,
    /// How many names and agents the net has.
    pub nodes: u64,
    /// How many equations of it are left: those that are pending, and those that were set aside.
    pub left: u64,
    /// How many rounds are over, if it is reduced by rounds.
    pub rounds: Option<u64>,
}

/// Why the program doesn't do what it is asked, or not all of it.
#[derive(Drop)]
pub enum Failure {
    /// The words after its name ask for nothing.
    Words(WordsFault),
    /// What stands on standard input, or in a file that is looked over, isn't answered.
    Stream(StreamFault),
    /// The file of a disk can't be opened or locked.
    Disk(DiskFault),
    /// Another server has the disk.
    Locked,
    /// No empty disk is made.
    Create(CreateFault),
    /// No empty disk is made, since the file holds something that would be lost.
    NotEmpty,
    /// The disk isn't opened.
    Open(OpenCause),
    /// A serving ended before the end of its lines.
    Serve(ServeFault),
    /// Scripts aren't attended to, or not in full.
    Attend(ScriptsFault),
    /// Jobs aren't printed.
    Dump(DumpFault),
    /// It isn't told what a file holds.
    Inspect(InspectFault),
    /// Lines give no jobs.
    Jobs(JobsFault),
    /// Jobs aren't brought to their ends, or not told.
    Batch(BatchFault),
    /// The ends of jobs are written, and some of these were halted, as these lines tell.
    Halted(Vec<u8>),
    /// A text that was looked over has a fault.
    Faults,
    /// All rounds or interactions were made of what was to be reduced, and a step is still possible.
    NotDone,
    /// A net that is reduced in place has more names and agents than so many.
    Overgrown(Reached, u64),
    /// A table of a net that is reduced in place is full.
    TableFull(Reached),
    /// Memory ran out as a net was reduced in place.
    OutOfMemory(Reached),
    /// A reduction isn't kept in two files, or doesn't go on from there.
    Kept(KeepingFault),
    /// One is kept that goes by rounds, or one that doesn't, and the other is asked for.
    OtherOrder(bool),
}

impl Failure {
    /// The exit status of the program: 1 for a refused text, round, script or job and for a net that
    /// is too large, 2 for refused words, 3 for a disk, 5 for rounds or interactions that didn't
    /// suffice, 6 for a disk that another process has, 7 for jobs that were halted, and 4 for all else.
    pub fn status(&self) -> u8
        ensures { result ≡ status_of self.now }
    {
        match self {
            Failure::Words(WordsFault::Words(_)) => 2,
            Failure::Words(WordsFault::Memory) => 4,
            Failure::Stream(StreamFault::Text(_) | StreamFault::Round(_)) => 1,
            Failure::Stream(StreamFault::Read | StreamFault::Memory | StreamFault::Write) => 4,
            Failure::Disk(_) | Failure::Create(_) | Failure::NotEmpty | Failure::Open(_) => 3,
            Failure::Serve(_) => 4,
            Failure::Attend(fault) => scripts_status(*fault),
            Failure::Dump(fault) => dump_status(*fault),
            Failure::Inspect(fault) => inspect_status(*fault),
            Failure::Jobs(fault) => jobs_status(*fault),
            Failure::Batch(fault) => batch_status(*fault),
            Failure::Locked => 6,
            Failure::Halted(_) => 7,
            Failure::Faults => 1,
            Failure::NotDone => 5,
            Failure::Overgrown(_, _) | Failure::TableFull(_) => 1,
            Failure::OutOfMemory(_) => 4,
            Failure::Kept(fault) => kept_status(*fault),
            Failure::OtherOrder(_) => 3,
        }
    }

    /// The line for standard error, with its line feed. Of refused words it is the text that says
    /// what is wrong with them, and of halted jobs the lines that tell of them.
    pub fn line(&self, alloc: Global) -> Result<Vec<u8>, AllocError>
        ensures { IfOk result (λ line. line.items ≡ failure_line self.now) }
    {
        match self {
            Failure::Words(WordsFault::Words(text)) => text.as_bytes().to_vec(alloc),
            Failure::Words(WordsFault::Memory) => told(alloc, b"memory"),
            Failure::Stream(fault) => stream_line(alloc, *fault),
            Failure::Disk(_) => told(alloc, b"device"),
            Failure::Locked => told(alloc, b"locked"),
            Failure::Create(fault) => told(alloc, create_word(*fault)),
            Failure::NotEmpty => told(alloc, b"not empty"),
            Failure::Open(cause) => told(alloc, open_word(*cause)),
            Failure::Serve(fault) => told(alloc, serve_word(*fault)),
            Failure::Attend(fault) => scripts_line(alloc, *fault),
            Failure::Dump(fault) => dump_line(alloc, *fault),
            Failure::Inspect(fault) => told(alloc, inspect_word(*fault)),
            Failure::Jobs(fault) => jobs_line(alloc, *fault),
            Failure::Batch(fault) => batch_line(alloc, *fault),
            Failure::Halted(lines) => lines.to_vec(alloc),
            Failure::Faults => told(alloc, b"faults"),
            Failure::NotDone => told(alloc, b"not done"),
            Failure::Overgrown(_, _) => told(alloc, b"overgrown"),
            Failure::TableFull(_) => told(alloc, b"table full"),
            Failure::OutOfMemory(_) => told(alloc, b"memory"),
            Failure::Kept(fault) => told(alloc, kept_word(*fault)),
            Failure::OtherOrder(_) => told(alloc, b"other order"),
        }
    }
}

impl From<DiskDumpFault> for Failure {
    ghost use Rattle.ic_exits.specs.Endings.{failure_of_dump};

    ghost from_gives = { λ fault e. e ≡ failure_of_dump fault };

    fn from(fault: DiskDumpFault) -> Failure {
        match fault {
            DiskDumpFault::Open(cause) => Failure::Open(cause),
            DiskDumpFault::Dump(refused) => Failure::Dump(refused),
        }
    }
}

/// Why a disk isn't opened or locked, by the last call to its file that has failed.
pub fn opening_failure(fault: DiskFault, cause: Option<Cause>) -> Failure
    ensures { result ≡ opening_failure fault cause }
{
    match cause {
        Some(
            Cause {
                reason: Reason::Locked,
                ..
            },
        ) => Failure::Locked,
        _ => Failure::Disk(fault),
    }
}

/// How the program ends where a net was reduced in place, by why that ended, how far it came and how
/// many names and agents its net may have.
pub fn reduce_ending(end: End, reached: Reached, nodes: u64) -> Result<(), Failure>
    ensures { result ≡ reduce_ending end reached nodes }
{
    match end {
        End::Quiet => Ok(()),
        End::Steps => Err(Failure::NotDone),
        End::Nodes => Err(Failure::Overgrown(reached, nodes)),
        End::Limit => Err(Failure::TableFull(reached)),
        End::Memory => Err(Failure::OutOfMemory(reached)),
    }
}

/// The line for standard error that tells a stuck pair, with its line feed. It is no failure.
pub fn stuck_line(alloc: Global, pair: &[u8]) -> Result<Vec<u8>, AllocError>
    ensures { IfOk result (λ line. line.items ≡ stuck_line pair.now) }
{
    let mut words = b"stuck ".to_vec(alloc)?;
    words.extend_from_slice(pair)?;
    told(alloc, &words)
}

/// The line for standard error that tells the symbol at which a circle is closed, with its line feed. It is no failure.
pub fn circle_line(alloc: Global, symbol: &[u8]) -> Result<Vec<u8>, AllocError> {
    let mut words = b"circle at ".to_vec(alloc)?;
    words.extend_from_slice(symbol)?;
    told(alloc, &words)
}

/// The line for standard error where there are rules and none was used, with its line feed. It is no failure.
pub fn idle_line(alloc: Global) -> Result<Vec<u8>, AllocError> {
    told(
        alloc,
        b"no two agents met, so no rule was used; `icserve check` warns where none can",
    )
}

/// The line that tells a word.
fn told(alloc: Global, word: &[u8]) -> Result<Vec<u8>, AllocError>
    ensures { IfOk result (λ line. line.items ≡ told word.now) }
{
    let mut line = b"icserve: ".to_vec(alloc)?;
    line.extend_from_slice(word)?;
    line.push(b'\n')?;
    Ok(line)
}

/// The line that tells why a stream isn't answered.
fn stream_line(alloc: Global, fault: StreamFault) -> Result<Vec<u8>, AllocError>
    ensures { IfOk result (λ line. line.items ≡ told (stream_word fault)) }
{
    match fault {
        StreamFault::Read => told(alloc, b"read"),
        StreamFault::Text(refused) => told(alloc, &print_fault(alloc, &refused)?),
        StreamFault::Round(refused) => told(alloc, round_word(refused)),
        StreamFault::Memory => told(alloc, b"memory"),
        StreamFault::Write => told(alloc, b"write"),
    }
}

/// The words that tell why a round isn't made.
fn round_word(fault: RoundFault) -> &'static [u8]
    ensures { result.now ≡ round_word fault }
{
    match fault {
        RoundFault::Overgrown => b"overgrown",
        RoundFault::NamesOut => b"names out",
        RoundFault::Memory => b"memory",
    }
}

/// The words that tell why no disk is made.
fn create_word(fault: CreateFault) -> &'static [u8]
    ensures { result.now ≡ create_word fault }
{
    match fault {
        CreateFault::Device => b"device",
        CreateFault::Memory => b"memory",
    }
}

/// The words that tell why a disk isn't opened.
fn open_word(cause: OpenCause) -> &'static [u8]
    ensures { result.now ≡ open_word cause }
{
    match cause {
        OpenCause::Device => b"device",
        OpenCause::NoSlot => b"no slot",
        OpenCause::TwoAlike => b"two alike",
        OpenCause::Damaged => b"damaged",
        OpenCause::Memory => b"memory",
    }
}

/// The exit status of a reduction that is kept.
fn kept_status(fault: KeepingFault) -> u8
    ensures { result ≡ kept_status fault }
{
    match fault {
        KeepingFault::NotEmpty | KeepingFault::Device => 3,
        KeepingFault::Open(_) | KeepingFault::Unsound => 3,
        KeepingFault::Limit => 1,
        KeepingFault::Memory | KeepingFault::Keep(_) => 4,
    }
}

/// The words that tell why a reduction that is kept doesn't go on.
fn kept_word(fault: KeepingFault) -> &'static [u8]
    ensures { result.now ≡ kept_word fault }
{
    match fault {
        KeepingFault::NotEmpty => b"not empty",
        KeepingFault::Device => b"device",
        KeepingFault::Open(cause) => open_word(cause),
        KeepingFault::Unsound => b"damaged",
        KeepingFault::Limit => b"limit",
        KeepingFault::Memory => b"memory",
        KeepingFault::Keep(refused) => keep_word(refused),
    }
}

/// The words that tell why a state isn't kept.
fn keep_word(fault: KeepFault) -> &'static [u8]
    ensures { result.now ≡ keep_word fault }
{
    match fault {
        KeepFault::Broken => b"broken",
        KeepFault::Worn => b"worn",
        KeepFault::Device => b"device",
    }
}

/// The words that tell why a serving ended.
fn serve_word(fault: ServeFault) -> &'static [u8]
    ensures { result.now ≡ serve_word fault }
{
    match fault {
        ServeFault::Read => b"read",
        ServeFault::Write => b"write",
        ServeFault::TooManyLines => b"too many lines",
        ServeFault::Book(refused) => book_word(refused),
        ServeFault::Pool(_) => b"pool",
        ServeFault::LongLine => b"long line",
        ServeFault::Memory => b"memory",
    }
}

/// The exit status of `attend`.
fn scripts_status(fault: ScriptsFault) -> u8
    ensures { result ≡ scripts_status fault }
{
    match fault {
        ScriptsFault::Script(_, _) => 1,
        ScriptsFault::Open(_) => 3,
        ScriptsFault::Read | ScriptsFault::NoThread | ScriptsFault::Torn => 4,
        ScriptsFault::Book(_) | ScriptsFault::Pool(_) => 4,
        ScriptsFault::Memory | ScriptsFault::Write => 4,
    }
}

/// The line that tells why scripts aren't attended to.
fn scripts_line(alloc: Global, fault: ScriptsFault) -> Result<Vec<u8>, AllocError>
    ensures { IfOk result (λ line. line.items ≡ told (scripts_word fault)) }
{
    match fault {
        ScriptsFault::Read => told(alloc, b"read"),
        ScriptsFault::Script(place, refusal) => told(alloc, &script_words(alloc, place, refusal)?),
        ScriptsFault::Open(cause) => told(alloc, open_word(cause)),
        ScriptsFault::NoThread => told(alloc, b"no thread"),
        ScriptsFault::Torn => told(alloc, b"torn"),
        ScriptsFault::Book(refused) => told(alloc, book_word(refused)),
        ScriptsFault::Pool(_) => told(alloc, b"pool"),
        ScriptsFault::Memory => told(alloc, b"memory"),
        ScriptsFault::Write => told(alloc, b"write"),
    }
}

/// The exit status of `dump`.
fn dump_status(fault: DumpFault) -> u8
    ensures { result ≡ dump_status fault }
{
    match fault {
        DumpFault::NoJob(_) | DumpFault::TooLong(_) => 1,
        DumpFault::Memory | DumpFault::Write => 4,
    }
}

/// The line that tells why jobs aren't dumped.
fn dump_line(alloc: Global, fault: DumpFault) -> Result<Vec<u8>, AllocError>
    ensures { IfOk result (λ line. line.items ≡ told (dump_word fault)) }
{
    match fault {
        DumpFault::NoJob(name) => told(alloc, &job_words(alloc, b"no job ", name)?),
        DumpFault::TooLong(name) => told(alloc, &job_words(alloc, b"too long ", name)?),
        DumpFault::Memory => told(alloc, b"memory"),
        DumpFault::Write => told(alloc, b"write"),
    }
}

/// The exit status of `inspect`.
fn inspect_status(fault: InspectFault) -> u8
    ensures { result ≡ inspect_status fault }
{
    match fault {
        InspectFault::Read | InspectFault::Changed => 3,
        InspectFault::Memory | InspectFault::Write => 4,
    }
}

/// The words that tell why it isn't told what a file holds.
fn inspect_word(fault: InspectFault) -> &'static [u8]
    ensures { result.now ≡ inspect_word fault }
{
    match fault {
        InspectFault::Read => b"device",
        InspectFault::Changed => b"changed while read",
        InspectFault::Memory => b"memory",
        InspectFault::Write => b"write",
    }
}

/// Words, and a job's name after them.
fn job_words(alloc: Global, words: &[u8], name: JobName) -> Result<Vec<u8>, AllocError>
    ensures { IfOk result (λ all. all.items ≡ words.now ++ name) }
{
    let mut all = words.to_vec(alloc)?;
    all.extend_from_slice(name.as_bytes())?;
    Ok(all)
}

/// The words that tell at which line the script of a place is refused, and for what.
fn script_words(alloc: Global, place: usize, refusal: ScriptFault) -> Result<Vec<u8>, AllocError>
    ensures { IfOk result (λ words. words.items ≡ script_words place refusal) }
{
    let mut words = b"script ".to_vec(alloc)?;
    words.extend_from_slice(place.to_string(alloc)?.as_bytes())?;
    words.extend_from_slice(b" line ")?;
    words.extend_from_slice(refusal.line.to_string(alloc)?.as_bytes())?;
    words.extend_from_slice(b": ")?;
    words.extend_from_slice(&print_fault(alloc, &refusal.fault)?)?;
    Ok(words)
}

/// The exit status of `batch` where its lines give no jobs.
fn jobs_status(fault: JobsFault) -> u8
    ensures { result ≡ jobs_status fault }
{
    match fault {
        JobsFault::Line(_, _) => 1,
        JobsFault::Read | JobsFault::Memory => 4,
    }
}

/// The line that tells why lines give no jobs.
fn jobs_line(alloc: Global, fault: JobsFault) -> Result<Vec<u8>, AllocError>
    ensures { IfOk result (λ line. line.items ≡ told (jobs_word fault)) }
{
    match fault {
        JobsFault::Line(line, cause) => told(alloc, &line_words(alloc, line, cause)?),
        JobsFault::Read => told(alloc, b"read"),
        JobsFault::Memory => told(alloc, b"memory"),
    }
}

/// The words that tell which line gives no job, and why.
fn line_words(alloc: Global, line: usize, cause: JobsCause) -> Result<Vec<u8>, AllocError>
    ensures { IfOk result (λ words. words.items ≡ line_words line cause) }
{
    let mut words = b"line ".to_vec(alloc)?;
    words.extend_from_slice(line.to_string(alloc)?.as_bytes())?;
    words.extend_from_slice(b": ")?;
    words.extend_from_slice(&cause_text(alloc, cause)?)?;
    Ok(words)
}

/// Why a line gives no job: what is wrong with it, or the refusal that answers it on a new disk.
fn cause_text(alloc: Global, cause: JobsCause) -> Result<Vec<u8>, AllocError>
    ensures { IfOk result (λ text. text.items ≡ cause_text cause) }
{
    match cause {
        JobsCause::Text(fault) => print_fault(alloc, &fault),
        JobsCause::Refused(refusal) => print_reply(alloc, &Reply::Refused(refusal)),
    }
}

/// The exit status of `batch` where jobs aren't brought to their ends.
fn batch_status(fault: BatchFault) -> u8
    ensures { result ≡ batch_status fault }
{
    match fault {
        BatchFault::Taken(_, _) | BatchFault::Full => 1,
        BatchFault::Serve(_) => 4,
    }
}

/// The line that tells why jobs aren't brought to their ends.
fn batch_line(alloc: Global, fault: BatchFault) -> Result<Vec<u8>, AllocError>
    ensures { IfOk result (λ line. line.items ≡ told (batch_word fault)) }
{
    match fault {
        BatchFault::Taken(name, _) => told(alloc, &job_words(alloc, b"taken ", name)?),
        BatchFault::Full => told(alloc, b"full"),
        BatchFault::Serve(fault) => told(alloc, serve_word(fault)),
    }
}

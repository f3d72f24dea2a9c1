//! What a command line asks, and the words that it begins with.

use ic_jobs::Command;

/// What a command line asks.
#[derive(Drop)]
pub enum Line {
    /// Nothing: the line has blanks at most.
    Blank,
    /// A command to the job table.
    Command(Command),
    /// So many rounds and halts of jobs, or as many as there are to be made.
    Run(u64),
}

/// What is asked of a job by its name alone.
#[derive(Clone, Copy)]
pub(crate) enum Verb {
    Pause,
    Resume,
    Cancel,
    Fetch,
}

/// What the first word of a line asks for.
#[derive(Clone, Copy)]
pub(crate) enum Opening {
    Submit,
    Copy,
    About(Verb),
    List,
    Run,
}

//! What is told of a line that gives no job, after the line of the failure.

use crate::after::shown;
use ic_batch::JobsCause;
use ic_jobs::Refusal;
use ic_text::TextFault;
use std::alloc::{AllocError, Global};

/// What is said of too many jobs.
const MANY: &str = "a batch has at most 32 jobs; `cluster/cut` parts more into shards";

/// The line that says why the line of this number, from 1, of the file of a path gives no job, where it can be read.
pub fn refused_job_line(
    alloc: Global,
    path: &[u8],
    line: usize,
    cause: JobsCause,
) -> Result<Vec<u8>, AllocError> {
    let file = shown(alloc, path)?;
    let sentence = sentence_of(cause);
    let told = format!(in alloc; "{file}:{line}: {sentence}\n")?;
    Ok(told.into_bytes())
}

/// Why a line that can be read gives no job: there are more commands than a script has, it submits nothing, or the job isn't
/// taken after those of the lines before.
fn sentence_of(cause: JobsCause) -> &'static str {
    match cause {
        JobsCause::Text(TextFault::Limit) | JobsCause::Refused(Refusal::Full) => MANY,
        JobsCause::Text(_) => "each line submits a job",
        JobsCause::Refused(Refusal::Taken) => "a line before submits a job of this name",
        JobsCause::Refused(_) => "a disk without jobs refuses it",
    }
}

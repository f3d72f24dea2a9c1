//! The program's word `dump`: jobs of a disk as lines that submit them, on standard output.

use crate::{DiskAt, await_disk};
use ic_args::WordsFault;
use ic_causes::{NotedOutput, Notes};
use ic_dump::dump_disk;
use ic_exits::Failure;
use ic_rules::JobName;
use std::alloc::{AllocError, Global};
use std::io;

/// Prints the line of each job of these names, or of each job where there are none, that a disk holds. The disk stays as it
/// is, and is locked until all is printed.
pub(crate) fn dump(
    rt: &HostRuntime,
    at: DiskAt<'_>,
    words: &[String],
    notes: &Notes,
) -> Result<(), Failure> {
    let names = names_of(rt.alloc(), words).map_err(Failure::Words)?;
    let disk = await_disk(rt, at, false, notes)?;
    let mut output = NotedOutput::new(io::writer(rt), notes);
    let (_disk, dumped) = dump_disk(rt.alloc(), disk, &names, &mut output);
    dumped.map_err(Failure::from)
}

/// The names that words are, or the refusal of the first that is none.
fn names_of(alloc: Global, words: &[String]) -> Result<Vec<JobName>, WordsFault> {
    let mut names = Vec::new(alloc);
    for word in words {
        let Some(name) = JobName::new(word.as_bytes()) else {
            return Err(no_name(alloc, word.as_str())?);
        };
        if names.push(name).is_err() {
            return Err(WordsFault::Memory);
        }
    }
    Ok(names)
}

/// The refusal of a word that is no job's name.
fn no_name(alloc: Global, word: &str) -> Result<WordsFault, AllocError> {
    Ok(WordsFault::Words(format!(in alloc;
        "error: invalid value '{word}' for '[NAME]...': no job has such a name\n\n\
         For more information, try '--help'.\n"
    )?))
}

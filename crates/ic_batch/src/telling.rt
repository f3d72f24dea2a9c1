//! What jobs have come to, told in lines.

ghost use Rattle.std.specs.Prelude.{◌≡◌, ◌++◌, IfOk, OnOk};
ghost use Rattle.ic_batch.specs.Way.{fetched, fetched_all};

use crate::jobs::NewJob;
use ic_commands::print_reply;
use ic_jobs::{Command, Table};
use std::alloc::{AllocError, Global};

/// For each of the jobs the line that a serving answers to its fetch, with its line feed.
pub(crate) fn told(alloc: Global, table: &Table, jobs: &[NewJob]) -> Result<Vec<u8>, AllocError>
    ensures { IfOk result (λ text. text.items ≡ fetched_all jobs.now table.now) }
{
    let mut copy = table.copy(alloc)?;
    let mut text = Vec::new(alloc);
    for new in jobs {
        put_fetched(alloc, &mut copy, new, &mut text)?;
    }
    Ok(text)
}

/// Appends the line of one job.
fn put_fetched(
    alloc: Global,
    table: &mut Table,
    new: &NewJob,
    text: &mut Vec<u8>,
) -> Result<(), AllocError>
    ensures line { OnOk result (text.new.items ≡ text.old.items ++ fetched table.old new.now) }
    ensures table { OnOk result (table.new ≡ table.old) }
{
    let reply = table.apply(Command::Fetch(new.name))?;
    text.extend_from_slice(&print_reply(alloc, &reply)?)?;
    text.push(b'\n')?;
    Ok(())
}

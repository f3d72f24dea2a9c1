//! A table of jobs as bytes, and back.

ghost use Rattle.std.specs.Prelude.{◌≡◌, ◌+◌, ◌≤◌, ◌++◌, List, Err, length, vec_len, vec_capacity, IfOk, IfErr};
ghost use Rattle.ic_jobs.specs.Job.{JobParts};
ghost use Rattle.ic_jobs.specs.Table.{IsTable};
ghost use Rattle.ic_codec.specs.declared.form.TheConstants.{MAX_BYTES};
ghost use Rattle.ic_codec.specs.declared.fault.CodecFault.TheVariants.{NotATable};
ghost use Rattle.ic_codec.specs.Tables.{table_bytes, IsFormOf};

use crate::fault::CodecFault;
use crate::fields::{byte_at, put_byte};
use crate::form::{form_at, put_head};
use crate::jobs::{jobs_at, put_jobs};
use ic_jobs::{Job, Table};
use std::alloc::Global;

/// Appends the byte form of a table, and leaves what stood before. It never answers that memory ran
/// out: the room is there.
pub fn encode_into(table: &Table, out: &mut Vec<u8>)
    requires { vec_len out.old + MAX_BYTES ≤ vec_capacity out.old }
    ensures bytes { out.new.items ≡ out.old.items ++ table_bytes table.now }
    ensures len { vec_len out.new ≡ vec_len out.old + length (table_bytes table.now) }
    ensures capacity { vec_capacity out.new ≡ vec_capacity out.old }
    ensures short { length (table_bytes table.now) ≤ MAX_BYTES }
{
    let jobs = table.jobs();
    put_head(out);
    put_byte(jobs.len() as u8, out);
    put_jobs(jobs, out);
}

/// The table of which these bytes are a form: the one that is written, or the old one, in which no job
/// has a budget. As it is written it takes linear time, and n log n where names or pairs of symbols are
/// looked up.
pub fn decode(alloc: Global, bytes: &[u8]) -> Result<Table, CodecFault>
    ensures table { IfOk result (λ table. IsFormOf table bytes.now) }
    ensures sound { IfOk result IsTable }
    ensures refused { result ≡ Err NotATable
        → (t : List JobParts) → IsTable t → ¬ IsFormOf t bytes.now }
{
    let (form, rest) = form_at(bytes)?;
    let (count, rest) = byte_at(rest)?;
    let (jobs, rest) = jobs_at(alloc, form, count as usize, rest)?;
    let table = restore(jobs)?;
    if rest.is_empty() {
        return Ok(table);
    }
    Err(CodecFault::NotATable)
}

fn restore(jobs: Vec<Job>) -> Result<Table, CodecFault>
    ensures table { IfOk result (λ table. table ≡ jobs.items) }
    ensures sound { IfOk result IsTable }
    ensures refused { IfErr result (λ fault. fault ≡ NotATable → ¬ IsTable jobs.items) }
{
    match Table::restore(jobs) {
        Some(table) => Ok(table),
        None => Err(CodecFault::NotATable),
    }
}

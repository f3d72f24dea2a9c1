//! Jobs as bytes, and back.

ghost use Rattle.std.specs.Prelude.{◌≡◌, ◌≤◌, IfOk, IfErr};
ghost use Rattle.std.specs.Arc.{arc_value};
ghost use Rattle.std.specs.List.{flat_map};
ghost use Rattle.ic_codec.specs.inner.Room.{Fits, Appended};
ghost use Rattle.ic_codec.specs.Jobs.{job_bytes};
ghost use Rattle.ic_codec.specs.inner.Forms.{HasJobBytes};
ghost use Rattle.ic_codec.specs.declared.form.Form.TheVariants.{Ict2};
ghost use Rattle.ic_codec.specs.inner.Fronts.{BeginsWith, BeginsWithNone, BeginsWithMany, BeginsWithNoMany, uncounted};
ghost use Rattle.ic_codec.specs.declared.fault.CodecFault.TheVariants.{NotATable};

use crate::fault::CodecFault;
use crate::flats::{flat_at, put_flat};
use crate::form::{Form, Heading, heading_at, put_heading};
use crate::rules::{put_rules, rule_set_at};
use crate::symbols::{put_symbols, symbols_at};
use ic_flat_rules::FlatRules;
use ic_jobs::Job;
use ic_rules::RuleSet;
use std::alloc::{AllocError, Global};
use std::sync::Arc;

/// Appends jobs in order.
pub(crate) fn put_jobs(jobs: &[Job], out: &mut Vec<u8>)
    requires { Fits out.old (flat_map (job_bytes Ict2) jobs.now) }
    ensures { Appended out.old out.new (flat_map (job_bytes Ict2) jobs.now) }
{
    for job in jobs {
        put_job(job, out);
    }
}

fn put_job(job: &Job, out: &mut Vec<u8>)
    requires { Fits out.old (job_bytes Ict2 job.now) }
    ensures { Appended out.old out.new (job_bytes Ict2 job.now) }
{
    let rules = job.rules();
    put_heading(Heading::of(job), out);
    put_symbols(rules.symbols(), out);
    put_rules(rules.rules(), out);
    put_flat(job.config(), out);
}

/// So many jobs, and the bytes after them.
pub(crate) fn jobs_at(
    alloc: Global,
    form: Form,
    count: usize,
    bytes: &[u8],
) -> Result<(Vec<Job>, &[u8]), CodecFault>
    ensures read { IfOk result (λ r. BeginsWithMany (HasJobBytes form) (job_bytes form)
        uncounted count 0 bytes.now r.0.items 0 r.1.now) }
    ensures refused { IfErr result (λ fault. fault ≡ NotATable
        → BeginsWithNoMany (HasJobBytes form) (job_bytes form) uncounted count 0 bytes.now) }
{
    let mut jobs = Vec::new(alloc);
    let mut rest = bytes;
    for _ in 0..count {
        let (job, now_rest) = match job_at(alloc, form, rest) {
            Ok((job, rest)) => (job, rest),
            Err(fault) => return Err(fault),
        };
        jobs.push(job)?;
        rest = now_rest;
    }
    Ok((jobs, rest))
}

/// Rules with their words, to be shared.
fn shared_rules(alloc: Global, rules: RuleSet) -> Result<Arc<FlatRules>, AllocError>
    ensures { IfOk result (λ shared. arc_value shared ≡ rules) }
{
    let rules = Arc::new(alloc, rules)?;
    Ok(Arc::new(alloc, FlatRules::new(alloc, rules)?)?)
}

fn job_at(alloc: Global, form: Form, bytes: &[u8]) -> Result<(Job, &[u8]), CodecFault>
    ensures read { IfOk result (λ r.
        BeginsWith (HasJobBytes form) (job_bytes form) bytes.now r.0 r.1.now) }
    ensures refused { IfErr result (λ fault. fault ≡ NotATable
        → BeginsWithNone (HasJobBytes form) (job_bytes form) bytes.now) }
{
    let (heading, rest) = match heading_at(form, bytes) {
        Ok((heading, rest)) => (heading, rest),
        Err(fault) => return Err(fault),
    };
    let (symbols, rest) = match symbols_at(alloc, rest) {
        Ok((symbols, rest)) => (symbols, rest),
        Err(fault) => return Err(fault),
    };
    let (rules, rest) = match rule_set_at(alloc, symbols, rest) {
        Ok((rules, rest)) => (rules, rest),
        Err(fault) => return Err(fault),
    };
    let (config, rest) = match flat_at(alloc, rules.symbols(), heading.next, rest) {
        Ok((config, rest)) => (config, rest),
        Err(fault) => return Err(fault),
    };
    let rules = shared_rules(alloc, rules)?;
    let config = Arc::new(alloc, config)?;
    match Job::restore(
        heading.name,
        rules,
        config,
        heading.rounds,
        heading.state,
        heading.budget,
    ) {
        Some(job) => Ok((job, rest)),
        None => Err(CodecFault::NotATable),
    }
}

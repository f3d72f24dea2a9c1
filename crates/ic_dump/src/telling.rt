//! The line that submits a job.

ghost use Rattle.std.specs.Prelude.{◌≡◌, ◌++◌, IfOk, OnOk, IsTrue};
ghost use Rattle.ic_term.specs.Symbol.{is_over};
ghost use Rattle.ic_text.specs.Text.{printed};
ghost use Rattle.ic_commands.specs.LinePlain.{budget_text};
ghost use Rattle.ic_dump.specs.Telling.{told, job_line};

use crate::naming::{has_names_of_texts, renumbered};
use crate::printing::put_rules;
use ic_flat::Flat;
use ic_jobs::{Budget, Job};
use ic_term::Symbols;
use ic_text::{put_decimal, put_flat};
use std::alloc::{AllocError, Global};

/// The line that submits a job, without its end. Its budget is told as it is, whatever rounds were made of it. Names
/// are told as they are where all of them may stand in a text, else numbered by first occurrence. It may be longer than
/// a line may be.
pub fn job_line(alloc: Global, job: &Job) -> Result<Vec<u8>, AllocError>
    ensures { IfOk result (λ line. line.items ≡ job_line job.now) }
{
    let mut line = Vec::from_slice(alloc, b"submit ")?;
    line.extend_from_slice(job.name().as_bytes())?;
    line.push(b' ')?;
    put_budget(job.budget(), &mut line)?;
    put_rules(alloc, job.rules(), &mut line)?;
    line.push(b' ')?;
    put_told(alloc, job.rules().symbols(), job.config(), &mut line)?;
    Ok(line)
}

/// Appends a budget and a space, where there is one.
fn put_budget(budget: Option<Budget>, out: &mut Vec<u8>) -> Result<(), AllocError>
    ensures { OnOk result (out.new.items ≡ out.old.items ++ budget_text budget) }
{
    if let Some(budget) = budget {
        put_decimal(budget.rounds(), out)?;
        out.push(b' ')?;
    }
    Ok(())
}

/// Appends a configuration as it is told.
fn put_told(
    alloc: Global,
    symbols: &Symbols,
    flat: &Flat,
    out: &mut Vec<u8>,
) -> Result<(), AllocError>
    requires { IsTrue (is_over symbols.now flat.now) }
    ensures { OnOk result
        (out.new.items ≡ out.old.items ++ printed symbols.now (told flat.now)) }
{
    if has_names_of_texts(flat) {
        return put_flat(alloc, symbols, flat, out);
    }
    let numbered = renumbered(alloc, flat)?;
    put_flat(alloc, symbols, &numbered, out)
}

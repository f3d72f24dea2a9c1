//! Writing what is told of a file.

ghost use Rattle.std.specs.Prelude.{◌≡◌, ◌⊎◌, IfErr};
ghost use Rattle.ic_check.specs.Files.{Grows};

use crate::findings::{Finding, Layout, put_finding};
use ic_output::write_whole;
use ic_streams::StreamFault;
use std::alloc::{AllocError, Global};
use std::io::Write;

/// How the findings in a file are told, and by which name of the file.
#[derive(Clone, Copy)]
pub(crate) struct Style<'a> {
    pub layout: Layout,
    pub file: &'a [u8],
}

/// For so many bytes beside a path and a sentence room is made at once.
const ROOM: usize = 64;

/// What is told of a finding.
fn told_of(alloc: Global, style: Style<'_>, finding: &Finding) -> Result<Vec<u8>, AllocError> {
    let length = style.file.len().saturating_add(finding.words.len());
    let mut told = Vec::with_capacity(alloc, length.saturating_add(ROOM))?;
    put_finding(alloc, style.layout, style.file, finding, &mut told)?;
    Ok(told)
}

/// Writes what is told of a finding.
fn write_finding<W: Write>(
    alloc: Global,
    style: Style<'_>,
    finding: &Finding,
    writer: &mut W,
) -> Result<(), StreamFault>
    ensures grows { Grows (W.contents writer.old) (W.contents writer.new) }
    ensures sort { IfErr result
        (λ fault. (fault ≡ StreamFault.Memory) ⊎ (fault ≡ StreamFault.Write)) }
{
    let told = told_of(alloc, style, finding)?;
    match write_whole(writer, &told) {
        Ok(()) => Ok(()),
        Err(_) => Err(StreamFault::Write),
    }
}

/// Writes what is told of findings, one after the other.
pub(crate) fn write_findings<W: Write>(
    alloc: Global,
    style: Style<'_>,
    findings: &[Finding],
    writer: &mut W,
) -> Result<(), StreamFault>
    ensures grows { Grows (W.contents writer.old) (W.contents writer.new) }
    ensures sort { IfErr result
        (λ fault. (fault ≡ StreamFault.Memory) ⊎ (fault ≡ StreamFault.Write)) }
{
    for finding in findings {
        write_finding(alloc, style, finding, writer)?;
    }
    Ok(())
}

/// Flushes what was written.
pub(crate) fn flush<W: Write>(writer: &mut W) -> Result<(), StreamFault>
    ensures grows { Grows (W.contents writer.old) (W.contents writer.new) }
    ensures sort { IfErr result (λ fault. fault ≡ StreamFault.Write) }
{
    writer.flush().map_err(|_| StreamFault::Write)
}

//! Looking over a text by its form, and a script.

ghost use Rattle.std.specs.Prelude.{◌≡◌, ◌≢◌, ◌⊎◌, true, IfErr, IfOk};
ghost use Rattle.ic_text.specs.SystemText.{ReadsSystem};
ghost use Rattle.ic_text.specs.Text.{Reads};
ghost use Rattle.ic_check.specs.Faults.{FormHasFault, HasFault, TextHasFault, first_of, form_of};
ghost use Rattle.ic_check.specs.Files.{Grows};
ghost use Rattle.ic_check.specs.inner.Verdicts.{ContentHasFault, content_by};

use crate::files::Refused;
use crate::findings::Findings;
use crate::lines::check_lines;
use crate::places::blanks_before;
use crate::remarks::{NO_COMMENTS, known, placed, text_fault};
use crate::warnings::told_warnings;
use crate::writing::{Style, flush, write_findings};
use ic_diagnostics::Kind;
use ic_streams::StreamFault;
use ic_text::{TextFault, find_config, find_system, is_blank};
use std::alloc::{AllocError, Global};
use std::io::Write;

/// What a text holds.
#[derive(Clone, Copy)]
pub enum Form {
    System,
    Config,
    /// What begins with a comment.
    Commented,
    /// Lines for a server.
    Lines,
}

/// The first byte that is no blank.
fn first_byte(text: &[u8]) -> Option<u8>
    ensures { result ≡ first_of text.now }
{
    for byte in text {
        if !is_blank(*byte) {
            return Some(*byte);
        }
    }
    None
}

/// The form of a text, which its first byte that is no blank tells.
fn form_of(text: &[u8]) -> Form
    ensures { result ≡ form_of text.now }
{
    match first_byte(text) {
        Some(b'{') => Form::System,
        Some(b'<') => Form::Config,
        Some(b'#') => Form::Commented,
        _ => Form::Lines,
    }
}

/// What is found in a system that a whole text is.
fn look_at_system(alloc: Global, text: &[u8]) -> Result<Findings, AllocError>
    ensures { IfOk result (λ findings. HasFault (ReadsSystem text.now) findings.is_faulty) }
{
    match find_system(alloc, text) {
        Ok(system) => {
            let warnings = told_warnings(alloc, None, system.rules(), system.config())?;
            Ok(Findings::of_warnings(warnings))
        }
        Err(misread) => {
            known(misread.fault)?;
            Findings::of_fault(alloc, text_fault(alloc, Kind::System, text, misread)?)
        }
    }
}

/// What is found in a configuration that a whole text is: a fault, or nothing.
fn look_at_config(alloc: Global, text: &[u8]) -> Result<Findings, AllocError>
    ensures { IfOk result (λ findings. HasFault (Reads text.now) findings.is_faulty) }
{
    match find_config(alloc, text) {
        Ok(_) => Ok(Findings::of_warnings(Vec::new(alloc))),
        Err(misread) => {
            known(misread.fault)?;
            Findings::of_fault(alloc, text_fault(alloc, Kind::Config, text, misread)?)
        }
    }
}

/// The comment with which a text begins. What follows it isn't looked at.
fn look_at_comment(alloc: Global, text: &[u8]) -> Result<Findings, AllocError>
    ensures { IfOk result (λ findings. findings.is_faulty ≡ true) }
{
    let words = Vec::from_slice(alloc, NO_COMMENTS)?;
    let at = blanks_before(text);
    Findings::of_fault(alloc, placed(text, None, at, TextFault::Syntax, words))
}

/// What is found in a text of this form, which isn't lines.
fn look_at_whole(alloc: Global, form: Form, text: &[u8]) -> Result<Findings, AllocError>
    requires { form ≢ Form.Lines }
    ensures { IfOk result (λ findings. FormHasFault form text.now findings.is_faulty) }
{
    match form {
        Form::System => look_at_system(alloc, text),
        Form::Config => look_at_config(alloc, text),
        Form::Commented | Form::Lines => look_at_comment(alloc, text),
    }
}

/// Writes what is told of a text of this form, which isn't lines, and tells whether it has a fault.
fn check_whole<W: Write>(
    alloc: Global,
    style: Style<'_>,
    form: Form,
    text: &[u8],
    writer: &mut W,
) -> Result<bool, StreamFault>
    requires { form ≢ Form.Lines }
    ensures faulty { IfOk result (FormHasFault form text.now) }
    ensures grows { Grows (W.contents writer.old) (W.contents writer.new) }
    ensures sort { IfErr result
        (λ fault. (fault ≡ StreamFault.Memory) ⊎ (fault ≡ StreamFault.Write)) }
{
    let findings = look_at_whole(alloc, form, text)?;
    write_findings(alloc, style, &findings.list, writer)?;
    Ok(findings.is_faulty)
}

/// Writes what is told of a text, and tells whether it has a fault.
fn check_text<W: Write>(
    alloc: Global,
    style: Style<'_>,
    text: &[u8],
    writer: &mut W,
) -> Result<bool, StreamFault>
    ensures faulty { IfOk result (TextHasFault text.now) }
    ensures grows { Grows (W.contents writer.old) (W.contents writer.new) }
    ensures sort { IfErr result
        (λ fault. (fault ≡ StreamFault.Memory) ⊎ (fault ≡ StreamFault.Write)) }
{
    match form_of(text) {
        Form::Lines => check_lines(alloc, style, false, text, writer),
        form => check_whole(alloc, style, form, text, writer),
    }
}

/// Writes what is told of a text or a script, and tells whether it has a fault.
fn check_bytes<W: Write>(
    alloc: Global,
    style: Style<'_>,
    is_script: bool,
    text: &[u8],
    writer: &mut W,
) -> Result<bool, StreamFault>
    ensures faulty { IfOk result (ContentHasFault (content_by is_script text.now)) }
    ensures grows { Grows (W.contents writer.old) (W.contents writer.new) }
    ensures sort { IfErr result
        (λ fault. (fault ≡ StreamFault.Memory) ⊎ (fault ≡ StreamFault.Write)) }
{
    if is_script {
        check_lines(alloc, style, true, text, writer)
    } else {
        check_text(alloc, style, text, writer)
    }
}

/// Writes what is told of a text or script, flushes it, and tells whether it has a fault.
pub(crate) fn check_given<W: Write>(
    alloc: Global,
    style: Style<'_>,
    is_script: bool,
    text: &[u8],
    writer: &mut W,
) -> Result<bool, StreamFault>
    ensures faulty { IfOk result (ContentHasFault (content_by is_script text.now)) }
    ensures grows { Grows (W.contents writer.old) (W.contents writer.new) }
    ensures sort { IfErr result
        (λ fault. (fault ≡ StreamFault.Memory) ⊎ (fault ≡ StreamFault.Write)) }
{
    let is_faulty = check_bytes(alloc, style, is_script, text, writer)?;
    flush(writer)?;
    Ok(is_faulty)
}

/// Writes what is told of a rich text that stands for none, and flushes it.
pub(crate) fn check_refused<W: Write>(
    alloc: Global,
    style: Style<'_>,
    refused: Refused,
    writer: &mut W,
) -> Result<(), StreamFault>
    ensures grows { Grows (W.contents writer.old) (W.contents writer.new) }
    ensures sort { IfErr result
        (λ fault. (fault ≡ StreamFault.Memory) ⊎ (fault ≡ StreamFault.Write)) }
{
    let Refused {
        text,
        at,
        fault,
        words,
    } = refused;
    let fault = placed(&text, None, at, fault, words);
    let findings = Findings::of_fault(alloc, fault)?;
    write_findings(alloc, style, &findings.list, writer)?;
    flush(writer)
}

//! Writing what clients were answered.

ghost use Rattle.std.specs.Prelude.{◌≡◌, ◌⊎◌, ◌++◌, ◌∷◌, [], IfOk, IfErr, OnOk, OnErr};
ghost use Rattle.std.specs.List.{flat_map};
ghost use Rattle.std.specs.Io.KnownBytes.{Appends};
ghost use Rattle.ic_commands.specs.ReplyText.{reply_text};
ghost use Rattle.ic_output.specs.Output.{AppendsFront};
ghost use Rattle.ic_scripts.specs.Telling.{answer_line, client_line, stop_line, told, told_client};

use crate::fault::ScriptsFault;
use crate::words::book_word;
use ic_attend::ClientRun;
use ic_book::BookFault;
use ic_commands::print_reply;
use ic_jobs::{Command, Reply};
use ic_output::write_whole;
use std::alloc::{AllocError, Global};
use std::io::Write;

/// Writes for each client its number, a line for each of its answers, and why it stopped, if it
/// did. At a fault a front of that is written.
pub fn tell<W: Write>(alloc: Global, runs: &[ClientRun], writer: &mut W) -> Result<(), ScriptsFault>
    ensures told { OnOk result
        (Appends (W.contents writer.old) (W.contents writer.new) (told runs.now)) }
    ensures cut { OnErr result
        (AppendsFront (W.contents writer.old) (W.contents writer.new) [] (told runs.now)) }
    ensures fault { IfErr result
        (λ fault. (fault ≡ ScriptsFault.Write) ⊎ (fault ≡ ScriptsFault.Memory)) }
{
    for (place, run) in runs.iter().enumerate() {
        tell_client(alloc, place, run, writer)?;
    }
    match writer.flush() {
        Ok(()) => Ok(()),
        Err(_) => Err(ScriptsFault::Write),
    }
}

/// Writes what a client was answered, after its number.
fn tell_client<W: Write>(
    alloc: Global,
    place: usize,
    run: &ClientRun,
    writer: &mut W,
) -> Result<(), ScriptsFault>
    ensures told { OnOk result
        (Appends (W.contents writer.old) (W.contents writer.new) (told_client place run.now)) }
    ensures cut { OnErr result (AppendsFront (W.contents writer.old) (W.contents writer.new) []
        (told_client place run.now)) }
    ensures fault { IfErr result
        (λ fault. (fault ≡ ScriptsFault.Write) ⊎ (fault ≡ ScriptsFault.Memory)) }
{
    let number = print_client(alloc, place)?;
    write_bytes(writer, &number)?;
    tell_answers(alloc, &run.answers, writer)?;
    let stop = print_stop(alloc, run.end)?;
    write_bytes(writer, &stop)
}

/// Writes a line for each answer.
fn tell_answers<W: Write>(
    alloc: Global,
    answers: &[(Command, Reply)],
    writer: &mut W,
) -> Result<(), ScriptsFault>
    ensures told { OnOk result (Appends (W.contents writer.old) (W.contents writer.new)
        (flat_map answer_line answers.now)) }
    ensures cut { OnErr result (AppendsFront (W.contents writer.old) (W.contents writer.new) []
        (flat_map answer_line answers.now)) }
    ensures fault { IfErr result
        (λ fault. (fault ≡ ScriptsFault.Write) ⊎ (fault ≡ ScriptsFault.Memory)) }
{
    for answer in answers {
        let line = print_answer(alloc, &answer.1)?;
        write_bytes(writer, &line)?;
    }
    Ok(())
}

/// The line of an answer.
fn print_answer(alloc: Global, reply: &Reply) -> Result<Vec<u8>, AllocError>
    ensures { IfOk result (λ line. line.items ≡ reply_text reply.now ++ 10 ∷ []) }
{
    let mut line = print_reply(alloc, reply)?;
    line.push(b'\n')?;
    Ok(line)
}

/// The line of a client's number.
fn print_client(alloc: Global, place: usize) -> Result<Vec<u8>, AllocError>
    ensures { IfOk result (λ line. line.items ≡ client_line place) }
{
    let mut line = b"client ".to_vec(alloc)?;
    line.extend_from_slice(place.to_string(alloc)?.as_bytes())?;
    line.push(b'\n')?;
    Ok(line)
}

/// The line that says why a client stopped, or nothing where it didn't.
fn print_stop(alloc: Global, end: Option<BookFault>) -> Result<Vec<u8>, AllocError>
    ensures { IfOk result (λ line. line.items ≡ stop_line end) }
{
    let Some(fault) = end else {
        return Ok(Vec::new(alloc));
    };
    let mut line = b"stopped ".to_vec(alloc)?;
    line.extend_from_slice(book_word(fault))?;
    line.push(b'\n')?;
    Ok(line)
}

/// Writes bytes. Where the writer fails, a front of them is written.
fn write_bytes<W: Write>(writer: &mut W, bytes: &[u8]) -> Result<(), ScriptsFault>
    ensures written { OnOk result
        (Appends (W.contents writer.old) (W.contents writer.new) bytes.now) }
    ensures cut { OnErr result
        (AppendsFront (W.contents writer.old) (W.contents writer.new) [] bytes.now) }
    ensures fault { IfErr result (λ fault. fault ≡ ScriptsFault.Write) }
{
    match write_whole(writer, bytes) {
        Ok(()) => Ok(()),
        Err(_) => Err(ScriptsFault::Write),
    }
}

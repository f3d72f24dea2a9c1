//! A client: it gives the commands of its script, one by one, and gathers the answers.

ghost use Rattle.std.specs.Prelude.{◌≡◌, ◌++◌, ◌∷◌, [], None, Some, OnOk, OnErr, IfErr, true, false};
ghost use Rattle.ic_jobs.specs.declared.reply.Reply.{Reply as Answer};
ghost use Rattle.ic_attend.specs.inner.Speech.{Speaks};

use crate::attended::ClientRun;
use crate::desk::Desk;
use crate::signs::Signs;
use ic_book::BookFault;
use ic_disk::Disk;
use ic_jobs::{Command, Reply};
use ic_pool::Gate;
use std::alloc::Global;
use std::sync::Wait;

/// What a client's thread hands over: what it was answered, and whether it was told to stop.
#[derive(Drop)]
pub(crate) struct Speech {
    pub run: ClientRun,
    pub stopped: bool,
}

/// A command that was refused, and why.
#[derive(Drop)]
struct Refusal {
    command: Command,
    fault: BookFault,
}

impl Refusal {
    fn new(command: Command, fault: BookFault) -> Refusal
        ensures { result ≡ record { command = command; fault = fault } }
    {
        Refusal { command, fault }
    }
}

impl Speech {
    fn new(answers: Vec<(Command, Reply)>, stopped: bool) -> Speech
        ensures answers { result.run.answers.items ≡ answers.items }
        ensures end { result.run.end ≡ None }
        ensures refused { result.run.refused ≡ None }
        ensures stopped { result.stopped ≡ stopped }
    {
        Speech {
            run: ClientRun {
                answers,
                end: None,
                refused: None,
            },
            stopped,
        }
    }

    /// The speech of a client that was refused a command.
    fn refused(answers: Vec<(Command, Reply)>, refusal: Refusal) -> Speech
        ensures answers { result.run.answers.items ≡ answers.items }
        ensures end { result.run.end ≡ Some refusal.fault }
        ensures refused { result.run.refused ≡ Some refusal.command }
        ensures stopped { result.stopped ≡ false }
    {
        Speech {
            run: ClientRun {
                answers,
                end: Some(refusal.fault),
                refused: Some(refusal.command),
            },
            stopped: false,
        }
    }

    /// The speech of a client whose thread wasn't started.
    pub(crate) fn none(alloc: Global) -> Speech
        ensures answers { result.run.answers.items ≡ [] }
        ensures end { result.run.end ≡ None }
        ensures refused { result.run.refused ≡ None }
        ensures stopped { result.stopped ≡ true }
    {
        Speech::new(Vec::new(alloc), true)
    }
}

/// Gives the commands of a script, until one is refused or the threads are told to stop. The gate is
/// told of each answer.
pub(crate) fn speak<R: Wait, D: Disk, G: Gate>(
    rt: &R,
    alloc: Global,
    desk: &Desk<D>,
    signs: &Signs,
    gate: &G,
    who: u64,
    script: Vec<Command>,
) -> Speech
    ensures { Speaks script.items result }
{
    let mut answers = Vec::new(alloc);
    for command in script {
        if signs.are_told_to_stop() {
            return Speech::new(answers, true);
        }
        match ask(rt, alloc, desk, who, command, &mut answers) {
            Ok(()) => gate.answered(who),
            Err(refusal) => return Speech::refused(answers, refusal),
        }
    }
    Speech::new(answers, false)
}

/// Gives a command, and appends it with its reply to the answers. The copy and the room are made
/// first, so a command that is answered is never lost. At Err it is handed back.
fn ask<R: Wait, D: Disk>(
    rt: &R,
    alloc: Global,
    desk: &Desk<D>,
    who: u64,
    command: Command,
    answers: &mut Vec<(Command, Reply)>,
) -> Result<(), Refusal>
    ensures answered { OnOk result ((reply : Answer)
        × (answers.new.items ≡ answers.old.items ++ (command, reply) ∷ [])) }
    ensures refused { OnErr result (answers.new.items ≡ answers.old.items) }
    ensures handed { IfErr result (λ refusal. refusal.command ≡ command) }
{
    let Ok(copy) = command.copy(alloc) else {
        return Err(Refusal::new(command, BookFault::Memory));
    };
    let Ok(()) = answers.reserve(1) else {
        return Err(Refusal::new(command, BookFault::Memory));
    };
    match desk.command(rt, alloc, who, command) {
        Ok(reply) => {
            answers.push_reserved((copy, reply));
            Ok(())
        }
        Err(fault) => Err(Refusal::new(copy, fault)),
    }
}

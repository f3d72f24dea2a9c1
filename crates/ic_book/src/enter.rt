//! Entries that are added to a history, with the change of the table that they tell.

ghost use Rattle.std.specs.Prelude.{◌≡◌, ◌≢◌, ◌<◌, ◌++◌, ◌∷◌, [], Ok, false, IfOk, OnErr, IsTrue, vec_len, vec_capacity};
ghost use Rattle.ic_flights.specs.Flight.{is_blocked};
ghost use Rattle.ic_jobs.specs.Landing.{Awaits, RunsNamed};
ghost use Rattle.ic_jobs.specs.declared.event.Event.TheVariants.{Command as by_command};
ghost use Rattle.ic_jobs.specs.declared.landed.Landed.TheVariants.{Moved};
ghost use Rattle.ic_jobs.specs.declared.reply.Reply.TheVariants as reply;
ghost use Rattle.ic_book.specs.Entries.{AddsCommand, round_entry};
ghost use Rattle.ic_book.specs.Moves.{as_landed};
ghost use Rattle.ic_book.specs.inner.Entering.{EntersRound};

use crate::log::Log;
use ic_flat_round::Workspace;
use ic_flights::{Flight, Played};
use ic_jobs::{Command, Entry, Event, Landed, Reply, Table};
use ic_rules::JobName;
use std::alloc::{AllocError, Global};

// Does what a command asks, and puts it with its reply at the end of the log.
pub(crate) fn enter_command(
    alloc: Global,
    log: &mut Log,
    table: &mut Table,
    who: u64,
    command: Command,
) -> Result<Reply, AllocError>
    ensures added { IfOk result (λ reply. AddsCommand who command reply
        log.old.entries.items log.new.entries.items table.old table.new) }
    ensures same_log { OnErr result (log.new.entries.items ≡ log.old.entries.items) }
    ensures same_table { OnErr result (table.new ≡ table.old) }
{
    log.reserve()?;
    let event = Event::Command(command.copy(alloc)?);
    answer_in_room(log, table, who, event, command)
}

// Does what a command asks, and puts its event with the reply in a log that has room.
fn answer_in_room(
    log: &mut Log,
    table: &mut Table,
    who: u64,
    event: Event,
    command: Command,
) -> Result<Reply, AllocError>
    requires room { vec_len log.old.entries < vec_capacity log.old.entries }
    requires asked { event ≡ by_command command }
    ensures added { IfOk result (λ reply. AddsCommand who command reply
        log.old.entries.items log.new.entries.items table.old table.new) }
    ensures same_log { OnErr result (log.new.entries.items ≡ log.old.entries.items) }
    ensures same_table { OnErr result (table.new ≡ table.old) }
{
    let answer = table.apply(command)?;
    let reply = answer.copy()?;
    log.push(Entry { who, event, reply });
    Ok(answer)
}

// Puts a round at the end of the log, which has room.
fn enter_round(log: &mut Log, name: JobName, reply: Reply)
    requires { vec_len log.old.entries < vec_capacity log.old.entries }
    ensures { log.new.entries.items ≡ log.old.entries.items ++ round_entry name reply ∷ [] }
{
    let event = Event::Round(name);
    log.push(Entry {
        who: 0,
        event,
        reply,
    });
}

// Puts a round that was made, with its entry, unless it is stale.
pub(crate) fn enter_played(
    log: &mut Log,
    table: &mut Table,
    played: Played,
) -> Result<Landed, AllocError>
    ensures { EntersRound (round_entry played.name reply.Moved)
        (Awaits table.old played.name played.rules played.before played.rounds)
        result log.old.entries.items log.new.entries.items table.old table.new }
{
    if log.has_room() {
        return Ok(land_in_room(log, table, played));
    }
    let name = played.name();
    if !table.awaits(name, played.rules(), played.before(), played.rounds()) {
        return Ok(Landed::Stale);
    }
    log.reserve()?;
    Ok(land_in_room(log, table, played))
}

// Puts a round that was made, with its entry, in a log that has room, unless it is stale.
fn land_in_room(log: &mut Log, table: &mut Table, played: Played) -> Landed
    requires { vec_len log.old.entries < vec_capacity log.old.entries }
    ensures { EntersRound {E = Unit {0}} (round_entry played.name reply.Moved)
        (Awaits table.old played.name played.rules played.before played.rounds)
        (Ok result) log.old.entries.items log.new.entries.items table.old table.new }
{
    let name = played.name();
    let landed = table.land(played);
    match landed {
        Landed::Moved => enter_round(log, name, Reply::Moved),
        Landed::Stale => {}
    }
    landed
}

// Puts a round that is awaited, with its entry.
pub(crate) fn land_entered(
    log: &mut Log,
    table: &mut Table,
    played: Played,
) -> Result<Landed, AllocError>
    requires { Awaits table.old played.name played.rules played.before played.rounds }
    ensures enters { EntersRound (round_entry played.name reply.Moved)
        (Awaits table.old played.name played.rules played.before played.rounds)
        result log.old.entries.items log.new.entries.items table.old table.new }
    ensures moves { IfOk result (λ landed. landed ≡ Moved) }
{
    let name = played.name();
    log.reserve()?;
    table.land_awaited(played);
    enter_round(log, name, Reply::Moved);
    Ok(Landed::Moved)
}

// Makes the round of a running job in the lists of its own configuration, with its entry, if the
// table does.
pub(crate) fn round_entered(
    alloc: Global,
    log: &mut Log,
    table: &mut Table,
    name: JobName,
    workspace: &mut Workspace,
) -> Result<bool, AllocError>
    requires { RunsNamed table.old name }
    // It is expected wherever it isn't left to be made outside.
    ensures { EntersRound (round_entry name reply.Moved) (result ≢ Ok false) (as_landed result)
        log.old.entries.items log.new.entries.items table.old table.new }
{
    log.reserve()?;
    if !table.round_awaited(alloc, name, workspace) {
        return Ok(false);
    }
    enter_round(log, name, Reply::Moved);
    Ok(true)
}

// Halts a job whose round can't be made, with its entry, unless the flight is stale.
pub(crate) fn enter_halted(
    log: &mut Log,
    table: &mut Table,
    flight: &Flight,
) -> Result<Landed, AllocError>
    requires { IsTrue (is_blocked flight.now) }
    ensures { EntersRound (round_entry flight.now.name reply.Halted)
        (Awaits table.old
        flight.now.name flight.now.rules flight.now.config flight.now.rounds)
        result log.old.entries.items log.new.entries.items table.old table.new }
{
    if log.has_room() {
        return Ok(halt_in_room(log, table, flight));
    }
    let name = flight.name();
    if !table.awaits(name, flight.rules(), flight.config(), flight.rounds()) {
        return Ok(Landed::Stale);
    }
    log.reserve()?;
    Ok(halt_in_room(log, table, flight))
}

// Halts a job, with its entry, in a log that has room, unless the flight is stale.
fn halt_in_room(log: &mut Log, table: &mut Table, flight: &Flight) -> Landed
    requires room { vec_len log.old.entries < vec_capacity log.old.entries }
    requires blocked { IsTrue (is_blocked flight.now) }
    ensures { EntersRound {E = Unit {0}} (round_entry flight.now.name reply.Halted)
        (Awaits table.old
        flight.now.name flight.now.rules flight.now.config flight.now.rounds)
        (Ok result) log.old.entries.items log.new.entries.items table.old table.new }
{
    let name = flight.name();
    let landed = table.halt(flight);
    match landed {
        Landed::Moved => enter_round(log, name, Reply::Halted),
        Landed::Stale => {}
    }
    landed
}

// Halts a job whose round can't be made and is awaited, with its entry.
pub(crate) fn halt_entered(
    log: &mut Log,
    table: &mut Table,
    flight: &Flight,
) -> Result<Landed, AllocError>
    requires blocked { IsTrue (is_blocked flight.now) }
    requires awaited { Awaits table.old
        flight.now.name flight.now.rules flight.now.config flight.now.rounds }
    ensures enters { EntersRound (round_entry flight.now.name reply.Halted)
        (Awaits table.old
        flight.now.name flight.now.rules flight.now.config flight.now.rounds)
        result log.old.entries.items log.new.entries.items table.old table.new }
    ensures moves { IfOk result (λ landed. landed ≡ Moved) }
{
    let name = flight.name();
    log.reserve()?;
    table.halt_awaited(flight);
    enter_round(log, name, Reply::Halted);
    Ok(Landed::Moved)
}

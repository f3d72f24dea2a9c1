//! One round over a book.

ghost use Rattle.std.specs.Prelude.{true, false, ◌≡◌, ◌≢◌, ◌↔◌, ◌⊎◌, ◌<◌, ◌≤◌, ◌+◌, ◌-◌, ◌^◌, [], ◌∷◌, ◌++◌, length, None, Some, IsTrue, IsSome, IsOk, IsErrOf, OnOk, OnErr, IfOk, IfErr, IfSome, IfNone};
ghost use Rattle.std.specs.Option.{option_map};
ghost use Rattle.ic_flights.specs.Flight.{FlightParts, is_blocked};
ghost use Rattle.ic_jobs.specs.declared.event.Event.TheVariants.{Round};
ghost use Rattle.ic_jobs.specs.declared.reply.Reply.{Reply};
ghost use Rattle.ic_jobs.specs.declared.limits.TheConstants.{MAX_JOBS};
ghost use Rattle.ic_jobs.specs.Landing.{due, Awaits, RunsNamed};
ghost use Rattle.ic_book.specs.declared.limits.TheConstants.{MAX_ENTRIES};
ghost use Rattle.ic_book.specs.Book.{is_broken, start_of, table_of, log_of, kept_of, number_of, keeper_of, disk_of, IsUnchanged};
ghost use Rattle.ic_book.specs.Entries.{round_entry};
ghost use Rattle.ic_book.specs.Weight.{weight_of};
ghost use Rattle.ic_serving.specs.Booked.{last_kept, unkept_of, IsAllKept, Advances, MakesRound, StaysPut};
ghost use Rattle.ic_book.specs.ByCalls.{IsByCalls};
ghost use Rattle.ic_book.specs.Moves.{keeps};
ghost use Rattle.ic_book.specs.declared.fault.BookFault.TheVariants as of_book;
ghost use Rattle.ic_serving.specs.Answered.{EndsWith};
ghost use Rattle.ic_serving.specs.Faults.{ComesAlone, ComesBroken, ComesInLine, ComesUnmade, ComesWithoutRound};
ghost use Rattle.ic_serving.specs.Grown.{HasSpare, IsLimit, IsSamePage};
ghost use Rattle.ic_serving.specs.Moments.{FaultLeaves, Leaves, IsKeptOrNow};

use crate::fault::ServeFault;
use crate::makers::Makers;
use ic_book::Book;
use ic_disk::Disk;
use ic_flights::Flight;
use ic_rules::JobName;
use std::alloc::Global;
use std::sync::Wait;
use std::thread::Threads;

/// Begins a new page where the entries of this one weigh so much, so that one more event can come.
pub(crate) fn make_room<D: Disk>(
    alloc: Global,
    book: &mut Book<D>,
    limit: u64,
) -> Result<(), ServeFault>
    requires limit { IsLimit limit }
    ensures stays { StaysPut limit book.old book.new }
    ensures fault { FaultLeaves ComesInLine result book.old book.new }
    ensures alone { IfErr result ComesAlone }
    ensures fewer { unkept_of book.new ≤ unkept_of book.old }
    ensures comes { IfErr result ComesWithoutRound }
    ensures broken { is_broken book.old ≡ true → IfErr result ComesBroken }
    ensures still { OnOk result (is_broken book.new ≡ is_broken book.old) }
    ensures spare { OnOk result (HasSpare limit book.new) }
    ensures short { OnOk result (length (log_of book.new) < MAX_ENTRIES) }
    ensures idle { HasSpare limit book.old → IsOk result }
    ensures room { HasSpare limit book.old → IsUnchanged book.old book.new }
    ensures turned { limit ≤ weight_of (log_of book.old)
        → OnOk result (log_of book.new ≡ []) }
    ensures begins { limit ≤ weight_of (log_of book.old)
        → OnOk result (start_of book.new ≡ table_of book.new) }
    ensures worn { OnOk result (number_of book.old ≡ 2 ^ 64 - 1
        → number_of book.new ≡ 2 ^ 64 - 1) }
    ensures crash { Leaves book.old book.new (IsKeptOrNow book.old) }
{
    book.facts();
    let weight = book.weight();
    if weight < limit {
        return Ok(());
    }
    book.new_page(alloc)?;
    Ok(())
}

/// Keeps what isn't kept, for a loop of one's own. Where all is kept it makes no call to the disk.
pub fn keep_all<D: Disk>(book: &mut Book<D>) -> Result<(), ServeFault>
    ensures table { table_of book.new ≡ table_of book.old }
    ensures kept { OnOk result (IsAllKept book.new) }
    ensures whole { OnOk result (is_broken book.new ≡ false) }
    ensures last { OnOk result (last_kept book.new ≡ table_of book.old) }
    ensures made { OnOk result (EndsWith keeps book.old book.new) }
    ensures unkept { OnErr result (last_kept book.new ≡ last_kept book.old) }
    ensures page { IsSamePage book.old book.new }
    ensures fault { FaultLeaves ComesInLine result book.old book.new }
    ensures broken { IsErrOf result (ServeFault.Book of_book.Broken)
        ↔ (is_broken book.old ≡ true) }
    ensures worn { IsErrOf result (ServeFault.Book of_book.Worn)
        ↔ ((is_broken book.old ≡ false) × (kept_of book.old < length (log_of book.old))
        × (number_of book.old ≡ 2 ^ 64 - 1)) }
    ensures others { IfErr result (λ fault. fault ≢ ServeFault.Book of_book.Broken
        → fault ≢ ServeFault.Book of_book.Worn → fault ≡ ServeFault.Book of_book.Device) }
    ensures ready { IsAllKept book.old → is_broken book.old ≡ false → IsOk result }
    ensures idle { IsAllKept book.old → keeper_of book.new ≡ keeper_of book.old }
    ensures calls { D.clock (disk_of book.new) ≤ D.clock (disk_of book.old) + 6 }
    ensures alone { IfErr result ComesAlone }
    ensures fewer { unkept_of book.new ≤ unkept_of book.old }
    ensures crash { Leaves book.old book.new (IsKeptOrNow book.old) }
{
    book.facts();
    book.keep()?;
    Ok(())
}

/// Makes the round of the job that is due from a place on, or halts it where it can't make one, for a
/// loop of one's own. Answers its place, or none where nothing is due. A page that weighs `limit` ends
/// before. The round isn't kept yet.
pub fn make_round<T: Threads + Wait + Copy + Send + 'static, D: Disk>(
    rt: &T,
    alloc: Global,
    book: &mut Book<D>,
    after: usize,
    workers: usize,
    limit: u64,
    makers: &mut Makers,
) -> Result<Option<usize>, ServeFault>
    requires workers { 1 ≤ workers }
    requires limit { IsLimit limit }
    ensures idle { IfOk result (λ place. IfNone place (due (table_of book.old) after ≡ None)) }
    ensures stays { IfOk result (λ place. IfNone place (IsUnchanged book.old book.new)) }
    ensures made { IfOk result (λ place. IfSome place (λ here.
        MakesRound limit after here book.old book.new)) }
    ensures low { IfOk result (λ place. IfSome place (λ here. here < MAX_JOBS)) }
    ensures refused { OnErr result (StaysPut limit book.old book.new) }
    ensures broken { IsErrOf result (ServeFault.Book of_book.Broken)
        ↔ (is_broken book.old ≡ true) }
    ensures nothing { due (table_of book.old) after ≡ None → IfErr result (λ fault.
        (fault ≡ ServeFault.Book of_book.Broken) ⊎ (fault ≡ ServeFault.Book of_book.Memory)) }
    ensures blocked { (flight : FlightParts) → due (table_of book.old) after ≡ Some flight
        → IsTrue (is_blocked flight) → IfErr result ComesUnmade }
    ensures fault { FaultLeaves ComesInLine result book.old book.new }
    ensures alone { IfErr result ComesAlone }
    ensures one { unkept_of book.new ≤ unkept_of book.old + 1 }
    ensures still { HasSpare limit book.old → keeper_of book.new ≡ keeper_of book.old }
    ensures crash { Leaves book.old book.new (IsKeptOrNow book.old) }
{
    book.facts();
    ic_jobs::laws::due_is_the_next_running_job();
    let _jobs = book.table().jobs();
    makers.look_ahead(rt, alloc, book, after, workers);
    let Some(job) = book.due_name(after)? else {
        return Ok(None);
    };
    make_room(alloc, book, limit)?;
    round_due(rt, alloc, book, after, job.1, makers)?;
    Ok(Some(job.0))
}

/// Makes the round that is due, or halts its job where it can't be made: in the lists of the job's own configuration, if
/// nobody else holds that, and else outside of the book.
fn round_due<T: Wait, D: Disk>(
    rt: &T,
    alloc: Global,
    book: &mut Book<D>,
    after: usize,
    name: JobName,
    makers: &mut Makers,
) -> Result<(), ServeFault>
    requires room { length (log_of book.old) < MAX_ENTRIES }
    requires runs { RunsNamed (table_of book.old) name }
    requires due { option_map (λ f. f.name) (due (table_of book.old) after) ≡ Some name }
    ensures advances { OnOk result (Advances (Round name) book.old book.new) }
    ensures added { OnOk result ((reply : Reply)
        × (log_of book.new ≡ log_of book.old ++ round_entry name reply ∷ [])) }
    ensures start { start_of book.new ≡ start_of book.old }
    ensures refused { OnErr result (IsUnchanged book.old book.new) }
    ensures blocked { (flight : FlightParts) → due (table_of book.old) after ≡ Some flight
        → IsTrue (is_blocked flight) → IfErr result ComesUnmade }
    ensures fault { FaultLeaves ComesInLine result book.old book.new }
    ensures alone { IfErr result ComesAlone }
    ensures one { unkept_of book.new ≤ unkept_of book.old + 1 }
    ensures keeper { keeper_of book.new ≡ keeper_of book.old }
    ensures done { IsByCalls book.old book.new }
{
    book.facts();
    let made = makers.make_own(alloc, book, name)?;
    if made {
        return Ok(());
    }
    round_outside(rt, alloc, book, after, makers)
}

/// Makes the round that is due outside of the book and lands it, or halts its job where it can't be made.
fn round_outside<T: Wait, D: Disk>(
    rt: &T,
    alloc: Global,
    book: &mut Book<D>,
    after: usize,
    makers: &mut Makers,
) -> Result<(), ServeFault>
    requires room { length (log_of book.old) < MAX_ENTRIES }
    requires due { IsSome (due (table_of book.old) after) }
    ensures advances { (flight : FlightParts) → due (table_of book.old) after ≡ Some flight
        → OnOk result (Advances (Round flight.name) book.old book.new) }
    ensures added { (flight : FlightParts) → due (table_of book.old) after ≡ Some flight
        → OnOk result ((reply : Reply)
        × (log_of book.new ≡ log_of book.old ++ round_entry flight.name reply ∷ [])) }
    ensures start { start_of book.new ≡ start_of book.old }
    ensures refused { OnErr result (IsUnchanged book.old book.new) }
    ensures blocked { (flight : FlightParts) → due (table_of book.old) after ≡ Some flight
        → IsTrue (is_blocked flight) → IfErr result ComesUnmade }
    ensures fault { FaultLeaves ComesInLine result book.old book.new }
    ensures alone { IfErr result ComesAlone }
    ensures one { unkept_of book.new ≤ unkept_of book.old + 1 }
    ensures keeper { keeper_of book.new ≡ keeper_of book.old }
    ensures done { IsByCalls book.old book.new }
{
    book.facts();
    ic_jobs::laws::what_is_due_is_awaited();
    let _jobs = book.table().jobs();
    let Some(flight) = book.due(after)? else {
        return Ok(());
    };
    land_or_halt(rt, alloc, book, &flight, makers)
}

/// Makes a round that the book awaits and lands it, or halts its job where it can't be made.
fn land_or_halt<T: Wait, D: Disk>(
    rt: &T,
    alloc: Global,
    book: &mut Book<D>,
    flight: &Flight,
    makers: &mut Makers,
) -> Result<(), ServeFault>
    requires room { length (log_of book.old) < MAX_ENTRIES }
    requires awaits { Awaits (table_of book.old) flight.now.name flight.now.rules flight.now.config
        flight.now.rounds }
    ensures advances { OnOk result (Advances (Round flight.now.name) book.old book.new) }
    ensures added { OnOk result ((reply : Reply)
        × (log_of book.new ≡ log_of book.old ++ round_entry flight.now.name reply ∷ [])) }
    ensures start { start_of book.new ≡ start_of book.old }
    ensures refused { OnErr result (IsUnchanged book.old book.new) }
    ensures blocked { IsTrue (is_blocked flight.now) → IfErr result ComesUnmade }
    ensures fault { FaultLeaves ComesInLine result book.old book.new }
    ensures alone { IfErr result ComesAlone }
    ensures one { unkept_of book.new ≤ unkept_of book.old + 1 }
    ensures keeper { keeper_of book.new ≡ keeper_of book.old }
    ensures done { IsByCalls book.old book.new }
{
    book.facts();
    ic_pool::laws::refused_flights_are_blocked();
    ic_pool::laws::workers_answer_so();
    let played = match makers.play(rt, alloc, flight) {
        Ok(played) => played,
        Err(fault) => {
            if !fault.is_of_flight() {
                return Err(ServeFault::Pool(fault));
            }
            book.halt_awaited(flight)?;
            return Ok(());
        }
    };
    book.land_awaited(played)?;
    Ok(())
}

//! Laws of calls at a desk: what the words come to in which their clauses tell of a book.

ghost use Rattle.std.specs.Prelude.{◌≡◌, ◌≢◌, ◌+◌, ◌-◌, ◌^◌, ◌≤◌, ℕ, List, Option, Result, Ok, Err, IsTrue, false, true, length};
ghost use Rattle.ic_disk.specs.Images.{Within};
ghost use Rattle.ic_disk.specs.Time.{LeavesOnly};
ghost use Rattle.ic_frames.specs.Fields.{IsMade};
ghost use Rattle.ic_term.specs.Configuration.{Configuration};
ghost use Rattle.ic_rules.specs.RuleSet.{Rules};
ghost use Rattle.ic_flights.specs.Flight.{FlightParts};
ghost use Rattle.ic_jobs.specs.declared.command.Command.{Command};
ghost use Rattle.ic_jobs.specs.declared.landed.Landed.{Landed};
ghost use Rattle.ic_jobs.specs.declared.landed.Landed.TheVariants.{Moved, Stale};
ghost use Rattle.ic_jobs.specs.declared.reply.Reply.{Reply};
ghost use Rattle.ic_jobs.specs.Landing.{due, Awaits};
ghost use Rattle.ic_book.specs.declared.fault.BookFault.{BookFault};
ghost use Rattle.ic_book.specs.declared.fault.BookFault.TheVariants.{Broken, LogFull, Worn, Memory};
ghost use Rattle.ic_book.specs.Book.{IsUnchanged, disk_of, is_broken, keeper_of, kept_of, log_of, number_of, start_of, table_of};
ghost use Rattle.ic_book.specs.Entries.{Adds, leaves_table, round_entry};
ghost use Rattle.ic_book.specs.Left.{HoldsKeptOrAll};
ghost use Rattle.ic_attend.specs.Desk.{IsCommanded, IsLanded, IsTaken};

use ic_disk::Disk;

/// A command at a desk that is answered leaves a book that isn't broken, on the page that it had. Where
/// the table has changed, the disk is made. Where all was kept and the table stays, the disk isn't
/// touched.
///
/// Whatever it is answered, it makes at most six calls to the disk. A crash at any moment of them leaves
/// the table that was kept, or the one after all entries.
pub fn a_command_at_a_desk_is_answered_so<D: Disk>(disk: &D)
    ensures ready { (who : ℕ) (command : Command) (reply : Reply)
        (call : IsCommanded D.Disk who command (Ok reply))
        → (is_broken call.new ≡ false) × (start_of call.new ≡ start_of call.old) }
    ensures made { (who : ℕ) (command : Command) (reply : Reply)
        (call : IsCommanded D.Disk who command (Ok reply)) → IsTrue (D.keeps (disk_of call.old))
        → leaves_table reply ≡ false → Within (D.image (disk_of call.new)) IsMade }
    ensures idle { (who : ℕ) (command : Command) (reply : Reply)
        (call : IsCommanded D.Disk who command (Ok reply))
        → kept_of call.old ≡ length (log_of call.old) → IsTrue (leaves_table reply)
        → keeper_of call.new ≡ keeper_of call.old }
    ensures calls { (who : ℕ) (command : Command) (result : Result Reply BookFault)
        (call : IsCommanded D.Disk who command result)
        → D.clock (disk_of call.new) ≤ D.clock (disk_of call.old) + 6 }
    ensures crash { (who : ℕ) (command : Command) (result : Result Reply BookFault)
        (call : IsCommanded D.Disk who command result) → IsTrue (D.keeps (disk_of call.old))
        → Within (D.image (disk_of call.old)) IsMade
        → LeavesOnly D.clock D.left (disk_of call.old) (disk_of call.new)
        (HoldsKeptOrAll (start_of call.old) (log_of call.new) (kept_of call.old)) }
{
    let _ = disk;
}

/// A command at a desk is refused as broken or full where the book was, and as worn where the numbers
/// of its slots are used up. What is taken is what is due of a book. Where nothing is taken, that book
/// was broken, or memory ran out.
pub fn a_desk_refuses_so<D: Disk>(disk: &D)
    ensures broken { (who : ℕ) (command : Command)
        (call : IsCommanded D.Disk who command (Err Broken)) → is_broken call.old ≡ true }
    ensures full { (who : ℕ) (command : Command)
        (call : IsCommanded D.Disk who command (Err LogFull)) → length (log_of call.old) ≡ 65536 }
    ensures worn { (who : ℕ) (command : Command)
        (call : IsCommanded D.Disk who command (Err Worn)) → number_of call.old ≡ 2 ^ 64 - 1 }
    ensures taken { (after : ℕ) (flight : Option FlightParts)
        (call : IsTaken D.Disk after (Ok flight))
        → (flight ≡ due (table_of call.book) after) × ¬ (is_broken call.book ≡ true) }
    ensures not_taken { (after : ℕ) (call : IsTaken D.Disk after (Err Broken))
        → is_broken call.book ≡ true }
    ensures wanting { (after : ℕ) (fault : BookFault) → IsTaken D.Disk after (Err fault)
        → fault ≢ Broken → fault ≡ Memory }
{
    let _ = disk;
}

/// A round at a desk stands at the end of the log exactly where the job was as it is said. Where it
/// wasn't, or where the round is refused, nothing has changed.
pub fn a_round_at_a_desk_lands_so<D: Disk>(disk: &D)
    ensures moved { (name : List ℕ) (rules : Rules) (config : Configuration) (rounds : ℕ)
        (reply : Reply) (call : IsLanded D.Disk name rules config rounds reply (Ok Moved))
        → Awaits (table_of call.old) name rules config rounds
        × Adds (round_entry name reply) (log_of call.old) (log_of call.new)
        (table_of call.old) (table_of call.new) }
    ensures stale { (name : List ℕ) (rules : Rules) (config : Configuration) (rounds : ℕ)
        (reply : Reply) (call : IsLanded D.Disk name rules config rounds reply (Ok Stale))
        → ¬ Awaits (table_of call.old) name rules config rounds × IsUnchanged call.old call.new }
    ensures refused { (name : List ℕ) (rules : Rules) (config : Configuration) (rounds : ℕ)
        (reply : Reply) (fault : BookFault)
        (call : IsLanded D.Disk name rules config rounds reply (Err fault))
        → IsUnchanged call.old call.new }
    ensures crash { (name : List ℕ) (rules : Rules) (config : Configuration) (rounds : ℕ)
        (reply : Reply) (result : Result Landed BookFault)
        (call : IsLanded D.Disk name rules config rounds reply result)
        → IsTrue (D.keeps (disk_of call.old)) → Within (D.image (disk_of call.old)) IsMade
        → LeavesOnly D.clock D.left (disk_of call.old) (disk_of call.new)
        (HoldsKeptOrAll (start_of call.old) (log_of call.new) (kept_of call.old)) }
{
    let _ = disk;
}

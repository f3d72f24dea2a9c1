//! Laws of one serving: what the definitions that the contracts of `ic_serving` cite come to.

ghost use Rattle.std.specs.Prelude.{IsTrue, false, ◌-◌, ◌^◌, ◌≡◌, ◌≢◌, ◌⊎◌, ◌↔◌, ◌<◌, ◌≤◌, ◌+◌, ℕ, List, [], ◌∷◌, ◌++◌, Bool, true, Option, None, Some, Ok, Err, length, map, take, drop};
ghost use Rattle.std.specs.List.{AllByRecursion};
ghost use Rattle.std.specs.Io.KnownBytes.{Appends};
ghost use Rattle.ic_disk.specs.Time.{LeavesOnly, OneMore};
ghost use Rattle.ic_flights.specs.Flight.{FlightParts, is_blocked};
ghost use Rattle.ic_pool.specs.declared.fault.PoolFault.{PoolFault};
ghost use Rattle.ic_pool.specs.declared.fault.PoolFault.TheVariants as pool_fault;
ghost use Rattle.ic_jobs.specs.declared.command.Command.{Command};
ghost use Rattle.ic_jobs.specs.declared.event.Entry.{Entry};
ghost use Rattle.ic_jobs.specs.declared.event.Event.{Event};
ghost use Rattle.ic_jobs.specs.declared.event.Event.TheVariants.{Command as by_command, Round};
ghost use Rattle.ic_jobs.specs.declared.reply.Reply.TheVariants.{Moved, Halted};
ghost use Rattle.ic_jobs.specs.Job.{JobParts};
ghost use Rattle.ic_jobs.specs.History.{table_after, replay, IsLegal};
ghost use Rattle.ic_jobs.specs.Landing.{due};
ghost use Rattle.ic_jobs.specs.Table.{IsTable};
ghost use Rattle.ic_slots.specs.Held.{HoldsTable};
ghost use Rattle.ic_text.specs.declared.fault.TextFault.{TextFault};
ghost use Rattle.ic_commands.specs.declared.line.Line.TheVariants.{Blank, Command as Asks, Run};
ghost use Rattle.ic_commands.specs.LineText.{ReadsLine};
ghost use Rattle.ic_lines.specs.declared.buffer.LineFault.TheVariants as line_fault;
ghost use Rattle.ic_lines.specs.Answers.{Reading, events};
ghost use Rattle.ic_lines.specs.Lines.{lines};
ghost use Rattle.ic_lines.specs.Turns.{turns, after_events};
ghost use Rattle.ic_lines.specs.Serving.{IsServed};
ghost use Rattle.ic_book.specs.declared.fault.BookFault.{BookFault};
ghost use Rattle.ic_book.specs.declared.fault.BookFault.TheVariants as book_fault;
ghost use Rattle.ic_disk.specs.Images.{Within};
ghost use Rattle.ic_frames.specs.Fields.{IsMade};
ghost use Rattle.ic_book.specs.ByCalls.{IsOnMadeDisk};
ghost use Rattle.ic_book.specs.Book.{is_broken, number_of, start_of, log_of, table_of, kept_of, disk_of, IsUnchanged};
ghost use Rattle.ic_book.specs.Weight.{weigh, weight_of};
ghost use Rattle.ic_serving.specs.declared.fault.ServeFault.{ServeFault};
ghost use Rattle.ic_serving.specs.declared.fault.ServeFault.TheVariants.{Read, Write, TooManyLines, Book as by_book, Pool, LongLine, Memory};
ghost use Rattle.ic_serving.specs.Answered.{IsAnswered, IsBegun};
ghost use Rattle.ic_serving.specs.Booked.{last_kept, unkept_of, IsAllKept};
ghost use Rattle.ic_serving.specs.Faults.{fault_of_line, ComesAlone, ComesBroken, ComesInLine, ComesUnmade, ComesWithoutRound, MayCome, CountsServe, StaysReady};
ghost use Rattle.ic_serving.specs.Grown.{GoesOn, GoesOnWithin, HasRoom};
ghost use Rattle.ic_serving.specs.Moments.{FaultLeaves, Leaves, IsKeptInLine};
ghost use Rattle.ic_serving.specs.Parts.{IsBeforeRound, IsPart, IsKeptWithin, IsInFew, IsInLine, IsInFirst};
ghost use Rattle.ic_serving.specs.Served.{OfLines, IsReadOut, MayBeServed, AreAnswered, AppendsFront, SaysOf, IsLeftBy, IsEnded, IsCut};
ghost use Rattle.ic_serving.specs.Serving.{IsServing};
ghost use Rattle.ic_serving.specs.Stopped.{IsReached, MayStand};

use ic_book::Book;
use ic_disk::Disk;

/// A part of some events is a front of them: the first so many have come to the table, and nothing
/// else has. What is kept within them is what was kept before, or such a part.
pub fn a_part_is_a_front()
    ensures part { (t u : List JobParts) (es : List Event) → IsPart t es u
        ↔ ((n : ℕ) × (n ≤ length es) × (u ≡ after_events t (take n es))) }
    ensures kept { (t kept u : List JobParts) (es : List Event) → IsKeptWithin t kept es u
        ↔ ((u ≡ kept) ⊎ IsPart t es u) }
{}

/// A table is the one before a round among events where a front of them leads to it, and it answers
/// the next of them by `Moved`. So in a legal history the entries before one that says `Moved` lead
/// to it, and there is none in a history that only halts jobs. In a run it is the table now, where
/// the job whose turn it is isn't blocked, or one in what is left of the run after that turn.
pub fn tables_before_rounds_are()
    ensures none { (t u : List JobParts) → ¬ IsBeforeRound t [] u }
    ensures part { (t u : List JobParts) (es : List Event)
        → IsBeforeRound t es u → IsPart t es u }
    ensures joined { (t u : List JobParts) (es more : List Event)
        → IsBeforeRound t (es ++ more) u
        ↔ (IsBeforeRound t es u ⊎ IsBeforeRound (after_events t es) more u) }
    ensures history { (t u : List JobParts) (h : List Entry) → IsLegal t h
        → IsBeforeRound t (map (λ (e : Entry). e.event) h) u
        ↔ ((front : List Entry) × (e : Entry) × (rest : List Entry) × (h ≡ front ++ e ∷ rest)
        × (e.reply ≡ Moved) × (u ≡ replay t front)) }
    ensures halts { (t u : List JobParts) (h : List Entry) → IsLegal t h
        → AllByRecursion (λ (e : Entry). e.reply ≡ Halted) h
        → ¬ IsBeforeRound t (map (λ (e : Entry). e.event) h) u }
    ensures run { (k place : ℕ) (t u v : List JobParts) (f : FlightParts) → IsTable t
        → due t place ≡ Some f → v ≡ table_after t (Round f.name)
        → IsBeforeRound t (turns (k + 1) place t) u
        ↔ (((u ≡ t) × (is_blocked f ≡ false)) ⊎ IsBeforeRound v (turns k (f.place + 1) v) u) }
{
    ic_jobs::laws::what_is_due_is_awaited();
    ic_lines::laws::runs_are_rounds_in_turn();
}

/// Within a run are the tables that runs of at most as many rounds leave; within a command the
/// table before it and the one after it; within a blank or refused line only the table before it.
/// Where no line is to come, the table stays.
pub fn tables_within_a_line_are()
    ensures run { (t u : List JobParts) (line : List ℕ) (k : ℕ) → ReadsLine line (Ok (Run k))
        → IsInLine t line u ↔ ((n : ℕ) × (n ≤ k) × (u ≡ after_events t (turns n 0 t))) }
    ensures command { (t u : List JobParts) (line : List ℕ) (c : Command)
        → ReadsLine line (Ok (Asks c))
        → IsInLine t line u ↔ ((u ≡ t) ⊎ (u ≡ table_after t (by_command c))) }
    ensures blank { (t u : List JobParts) (line : List ℕ) → ReadsLine line (Ok Blank)
        → IsInLine t line u ↔ (u ≡ t) }
    ensures refused { (t u : List JobParts) (line : List ℕ) (fault : TextFault)
        → ReadsLine line (Err fault) → IsInLine t line u ↔ (u ≡ t) }
    ensures first { (t u : List JobParts) (line : List ℕ) (more : List (List ℕ))
        → IsInFirst t (line ∷ more) u ↔ IsInLine t line u }
    ensures none { (t u : List JobParts) → IsInFirst t [] u ↔ (u ≡ t) }
{
    ic_commands::laws::one_line_reading();
    ic_lines::laws::runs_are_rounds_in_turn();
}

/// What is said of a reader's lines is said of those of its bytes, where it tells them, and of some
/// lines where it doesn't. Bytes that it tells are read out where none are left.
pub fn lines_are_those_of_the_reader()
    ensures known { (text : List ℕ) (p : List (List ℕ) → Bool)
        → OfLines (Some text) (λ ls. p ls ≡ true) ↔ (p (lines text) ≡ true) }
    ensures unknown { (p : List (List ℕ) → Bool)
        → OfLines None (λ ls. p ls ≡ true) ↔ ((ls : List (List ℕ)) × (p ls ≡ true)) }
    ensures read_out { (text : List ℕ) (new : Option (List ℕ))
        → IsReadOut (Some text) new → new ≡ Some [] }
{}

/// Lines that are answered are at most 1,000,000, each of at most 262,144 bytes. What answers them
/// is appended to what was written, and this in just one way: no two tables or texts are left.
pub fn answers_are_appended()
    ensures few { (ls : List (List ℕ)) (t u : List JobParts) (old new : Option (List ℕ))
        → AreAnswered ls t u old new → length ls ≤ 1000000 }
    ensures short { (ls : List (List ℕ)) (t u : List JobParts) (old new : Option (List ℕ))
        → AreAnswered ls t u old new → AllByRecursion (λ line. length line ≤ 262144) ls }
    ensures appended { (ls : List (List ℕ)) (t u : List JobParts) (a b : List ℕ)
        → AreAnswered ls t u (Some a) (Some b)
        → (answers : List ℕ) × IsServed t ls answers u × (b ≡ a ++ answers) }
    ensures one_table { (ls : List (List ℕ)) (t u v : List JobParts) (a b c d : Option (List ℕ))
        → AreAnswered ls t u a b → AreAnswered ls t v c d → u ≡ v }
    ensures one_text { (ls : List (List ℕ)) (t u v : List JobParts) (a b c : List ℕ)
        → AreAnswered ls t u (Some a) (Some b) → AreAnswered ls t v (Some a) (Some c) → b ≡ c }
{
    ic_lines::laws::lines_are_served_in_one_way();
}

/// `LongLine` says that fewer than 1,000,000 lines are answered and that the line after them has
/// more than 262,144 bytes, and `TooManyLines` that 1,000,000 are answered and one more is to come.
/// Some faults of the book and of the pool never come, nor any of other threads, and where no round
/// and no halt is to be made none of the pool. Where only halts are, that memory ran out is all that
/// comes of the pool. Over a broken book comes none of the pool, and of the book `Broken` alone.
pub fn faults_say()
    ensures long_line { (t left : List JobParts) (front rest : List (List ℕ))
        → SaysOf LongLine t left front rest
        → (line : List ℕ) × (more : List (List ℕ)) × (rest ≡ line ∷ more)
        × (length front < 1000000) × (262144 < length line) }
    ensures too_many_lines { (t left : List JobParts) (front rest : List (List ℕ))
        → SaysOf TooManyLines t left front rest
        → (line : List ℕ) × (more : List (List ℕ)) × (rest ≡ line ∷ more)
        × (length front ≡ 1000000) }
    ensures in_line { (fault : ServeFault) → ComesInLine fault
        → MayCome fault × (fault ≢ Read) × (fault ≢ Write) × (fault ≢ TooManyLines)
        × (fault ≢ LongLine) }
    ensures never { AllByRecursion (λ fault. ¬ MayCome fault) (by_book book_fault.LogFull
        ∷ Pool pool_fault.NoWorkers ∷ Pool pool_fault.RoundsOut ∷ Pool pool_fault.Overgrown
        ∷ Pool pool_fault.NamesOut ∷ []) }
    ensures alone { AllByRecursion (λ fault. ¬ ComesAlone fault) (Pool pool_fault.NoThread
        ∷ Pool pool_fault.Lost ∷ Pool pool_fault.Stranger ∷ []) }
    ensures no_round { (fault : ServeFault) → ComesWithoutRound fault
        → ComesInLine fault × ((of_pool : PoolFault) → fault ≢ Pool of_pool) }
    ensures unmade { (fault : ServeFault) → ComesUnmade fault → ComesInLine fault }
    ensures unmade_pool { (fault : PoolFault) → ComesUnmade (Pool fault)
        ↔ (fault ≡ pool_fault.Memory) }
    ensures broken { (fault : BookFault) → ComesBroken (by_book fault)
        → fault ≡ book_fault.Broken }
    ensures broken_pool { (fault : PoolFault) → ¬ ComesBroken (Pool fault) }
    ensures of_line { map fault_of_line
        (line_fault.Read ∷ line_fault.Write ∷ line_fault.LongLine ∷ line_fault.Memory ∷ [])
        ≡ Read ∷ Write ∷ LongLine ∷ Memory ∷ [] }
{}

/// Whatever fault ends a serving, the table is within one of the next lines, of at most so many; and
/// where no line was taken, the table is the one that the lines before them leave. Where a group is one
/// line, it is within the next.
pub fn faults_leave()
    ensures within { (fault : ServeFault) (most : ℕ) (t u : List JobParts) (ls : List (List ℕ))
        → 1 ≤ most → IsLeftBy fault most t ls u → IsInFew most t ls u }
    ensures few { (most : ℕ) (t u : List JobParts) (ls : List (List ℕ)) → IsInFew most t ls u
        → (front : List (List ℕ)) × (rest : List (List ℕ)) × (answers : List ℕ)
        × (v : List JobParts) × (ls ≡ front ++ rest) × (length front < most)
        × IsServed t front answers v × IsInFirst v rest u }
    ensures one { (t u : List JobParts) (ls : List (List ℕ)) → IsInFew 1 t ls u
        → IsInFirst t ls u }
    ensures untaken { (most : ℕ) (t u : List JobParts) (ls : List (List ℕ))
        → AllByRecursion (λ fault. IsLeftBy fault most t ls u → u ≡ t)
        (Read ∷ LongLine ∷ TooManyLines ∷ []) }
{
    ic_commands::laws::one_line_reading();
}

/// A fault ends a serving after a front of the lines, which are answered. The table is within the group
/// of at most so many lines after them, as is the one that was kept last, where all was kept when it
/// began.
pub fn a_fault_ends_a_serving()
    ensures within { (fault : ServeFault) (most : ℕ) (all : Bool) (front rest : List (List ℕ))
        (t u kept : List JobParts) (old new : Option (List ℕ))
        → 1 ≤ most → IsEnded fault most (all ≡ true) front rest t u kept old new
        → (answers : List ℕ) × (v : List JobParts) × IsServed t front answers v
        × Appends old new answers × IsInFew most v rest u
        × (all ≡ true → IsInFew most v rest kept) }
    ensures read { (most : ℕ) (all : Bool) (front rest : List (List ℕ)) (t u kept : List JobParts)
        (old new : Option (List ℕ)) → IsEnded Read most (all ≡ true) front rest t u kept old new
        → (answers : List ℕ) × IsServed t front answers u × Appends old new answers
        × (all ≡ true → kept ≡ u) }
    ensures long_line { (most : ℕ) (all : Bool) (front rest : List (List ℕ)) (t u kept : List JobParts)
        (old new : Option (List ℕ)) → IsEnded LongLine most (all ≡ true) front rest t u kept old new
        → (line : List ℕ) × (more : List (List ℕ)) × (answers : List ℕ)
        × (rest ≡ line ∷ more) × (length front < 1000000) × (262144 < length line)
        × IsServed t front answers u × Appends old new answers × (all ≡ true → kept ≡ u) }
    ensures too_many_lines { (most : ℕ) (all : Bool) (front rest : List (List ℕ)) (t u kept : List JobParts)
        (old new : Option (List ℕ))
        → IsEnded TooManyLines most (all ≡ true) front rest t u kept old new
        → (line : List ℕ) × (more : List (List ℕ)) × (answers : List ℕ)
        × (rest ≡ line ∷ more) × (length front ≡ 1000000)
        × IsServed t front answers u × Appends old new answers × (all ≡ true → kept ≡ u) }
{
    ic_commands::laws::one_line_reading();
}

/// A fault comes for what a line asks. Where this is nothing, memory ran out. None of the pool comes
/// at a command, and one at a run only where a round is due. Unless memory ran out, it comes at a
/// round that can be made, and leaves the table before that round.
pub fn a_fault_comes_for_what_a_line_asks<D: Disk>(before: &Book<D>, after: &Book<D>)
    ensures blank { (limit : ℕ) (line : List ℕ) (fault : ServeFault) → ReadsLine line (Ok Blank)
        → IsBegun limit line fault before.now after.now → fault ≡ Memory }
    ensures refused { (limit : ℕ) (line : List ℕ) (why : TextFault) (fault : ServeFault)
        → ReadsLine line (Err why) → IsBegun limit line fault before.now after.now
        → fault ≡ Memory }
    ensures command { (limit : ℕ) (line : List ℕ) (c : Command) (fault : PoolFault)
        → ReadsLine line (Ok (Asks c)) → ¬ IsBegun limit line (Pool fault) before.now after.now }
    ensures run { (limit : ℕ) (line : List ℕ) (k : ℕ) (fault : PoolFault)
        → ReadsLine line (Ok (Run k))
        → IsBegun limit line (Pool fault) before.now after.now
        → turns k 0 (table_of before.now) ≢ [] }
    ensures round { (limit : ℕ) (line : List ℕ) (k : ℕ) (fault : PoolFault)
        → ReadsLine line (Ok (Run k))
        → IsBegun limit line (Pool fault) before.now after.now → (fault ≡ pool_fault.Memory)
        ⊎ IsBeforeRound (table_of before.now) (turns k 0 (table_of before.now))
        (table_of after.now) }
{
    ic_commands::laws::one_line_reading();
    let _ = before;
    let _ = after;
}

/// A fault of the book ends a serving at a line that asks for something, and one of the pool at a run
/// for which a round is due. Unless memory ran out, this comes at a round that can be made, and the
/// table before that round is left.
pub fn a_serving_ends_for_what_a_line_asks()
    ensures book { (fault : BookFault) (most : ℕ) (all : Bool) (front rest : List (List ℕ))
        (t u kept : List JobParts) (old new : Option (List ℕ))
        → IsEnded (by_book fault) most (all ≡ true) front rest t u kept old new
        → (line : List ℕ) × (more : List (List ℕ)) × (rest ≡ line ∷ more)
        × (¬ ReadsLine line (Ok Blank)) × ((why : TextFault) → ¬ ReadsLine line (Err why)) }
    ensures pool { (fault : PoolFault) (most : ℕ) (all : Bool) (front rest : List (List ℕ))
        (t u kept : List JobParts) (old new : Option (List ℕ))
        → IsEnded (Pool fault) most (all ≡ true) front rest t u kept old new
        → (line : List ℕ) × (more : List (List ℕ)) × (k : ℕ) × (answers : List ℕ)
        × (v : List JobParts) × (rest ≡ line ∷ more) × ReadsLine line (Ok (Run k))
        × IsServed t front answers v × (turns k 0 v ≢ [])
        × ((fault ≡ pool_fault.Memory) ⊎ IsBeforeRound v (turns k 0 v) u) }
{
    ic_commands::laws::one_line_reading();
}

/// A failing writer ends a serving after a front of the lines, which are done. All of them are
/// answered but at most a last group of them, of whose answers a front was written.
pub fn a_failing_writer_cuts_a_serving()
    ensures sent { (before after a b : List ℕ) → AppendsFront (Some a) (Some b) before after
        → (n : ℕ) × (n ≤ length after) × (b ≡ a ++ (before ++ take n after)) }
    ensures answered { (most : ℕ) (front : List (List ℕ)) (t u : List JobParts) (old new : Option (List ℕ))
        → IsCut most front t u old new
        → (whole : List (List ℕ)) × (last : List (List ℕ)) × (answers : List ℕ)
        × (more : List ℕ) × (v : List JobParts) × (front ≡ whole ++ last) × (length last ≤ most)
        × IsServed t whole answers v × IsServed v last more u
        × AppendsFront old new answers more }
    ensures done { (most : ℕ) (front : List (List ℕ)) (t u : List JobParts) (old new : Option (List ℕ))
        → IsCut most front t u old new
        → (answers : List ℕ) × MayBeServed front × IsServed t front answers u }
{
    ic_lines::laws::lines_are_served_in_one_way();
}

/// A serving that ends well has answered all lines, and where all was kept before it, all is kept after
/// it. Any other has answered a front of them: a failing writer cuts their answers short and takes
/// nothing back, and what any other fault leaves is what `a_fault_ends_a_serving` says.
pub fn a_serving_ends_so<D: Disk>(before: &Book<D>, after: &Book<D>)
    ensures all { (limit most : ℕ) (done : Unit {0}) (ls : List (List ℕ))
        (old new : Option (List ℕ))
        (is : IsServing limit most (Ok done) ls before.now after.now old new) → is.front ≡ ls }
    ensures served { (limit most : ℕ) (done : Unit {0}) (ls : List (List ℕ))
        (old new : Option (List ℕ))
        → IsServing limit most (Ok done) ls before.now after.now old new
        → AreAnswered ls (table_of before.now) (table_of after.now) old new }
    ensures kept { (limit most : ℕ) (done : Unit {0}) (ls : List (List ℕ))
        (old new : Option (List ℕ))
        → IsServing limit most (Ok done) ls before.now after.now old new
        → IsAllKept before.now → IsAllKept after.now }
    ensures front { (limit most : ℕ) (fault : ServeFault) (ls : List (List ℕ))
        (old new : Option (List ℕ))
        (is : IsServing {T = Unit {0}} limit most (Err fault) ls before.now after.now old new)
        → ls ≡ is.front ++ is.rest }
    ensures fault { (limit most : ℕ) (fault : ServeFault) (ls : List (List ℕ))
        (old new : Option (List ℕ))
        → fault ≢ Write
        → (is : IsServing {T = Unit {0}} limit most (Err fault) ls before.now after.now old new)
        → IsEnded fault most (IsAllKept before.now) is.front is.rest (table_of before.now)
        (table_of after.now) (last_kept after.now) old new }
    ensures cut { (limit most : ℕ) (ls : List (List ℕ)) (old new : Option (List ℕ))
        (is : IsServing {T = Unit {0}} limit most (Err Write) ls before.now after.now old new)
        → IsCut most is.front (table_of before.now) (table_of after.now) old new }
    ensures kept_at_cut { (limit most : ℕ) (ls : List (List ℕ)) (old new : Option (List ℕ))
        → IsServing {T = Unit {0}} limit most (Err Write) ls before.now after.now old new
        → IsAllKept before.now → IsAllKept after.now }
{
    let _ = before;
    let _ = after;
}

/// All of a book is kept where each of its entries is; then its table is the one that was kept
/// last. Those that are kept and those that aren't are all.
pub fn all_is_kept_where_each_entry_is<D: Disk>(book: &Book<D>)
    ensures all { IsAllKept book.now ↔ (kept_of book.now ≡ length (log_of book.now)) }
    ensures last { last_kept book.now
        ≡ replay (start_of book.now) (take (kept_of book.now) (log_of book.now)) }
    ensures table { IsAllKept book.now → last_kept book.now ≡ table_of book.now }
    ensures unkept { kept_of book.now + unkept_of book.now ≡ length (log_of book.now) }
{
    book.facts();
}

/// A line that is answered is served: this answers it, and it leaves this table. After a command and
/// a run all is kept; after a blank and a refused line nothing has changed. Where a line was only
/// begun, the table is within it, and what is kept is what was kept before it, or within it too.
pub fn a_line_is_answered_as_it_is_served<D: Disk>(before: &Book<D>, after: &Book<D>)
    ensures served { (limit : ℕ) (line bytes : List ℕ)
        → IsAnswered limit line bytes before.now after.now
        → IsServed (table_of before.now) (line ∷ []) bytes (table_of after.now) }
    ensures kept { (limit : ℕ) (line bytes : List ℕ)
        → IsAnswered limit line bytes before.now after.now
        → IsAllKept after.now ⊎ IsUnchanged before.now after.now }
    ensures blank { (limit : ℕ) (line bytes : List ℕ) → ReadsLine line (Ok Blank)
        → IsAnswered limit line bytes before.now after.now → IsUnchanged before.now after.now }
    ensures refused { (limit : ℕ) (line bytes : List ℕ) (fault : TextFault)
        → ReadsLine line (Err fault)
        → IsAnswered limit line bytes before.now after.now → IsUnchanged before.now after.now }
    ensures command { (limit : ℕ) (line bytes : List ℕ) (c : Command) → ReadsLine line (Ok (Asks c))
        → IsAnswered limit line bytes before.now after.now → IsAllKept after.now }
    ensures run { (limit : ℕ) (line bytes : List ℕ) (k : ℕ) → ReadsLine line (Ok (Run k))
        → IsAnswered limit line bytes before.now after.now → IsAllKept after.now }
    ensures begun { (limit : ℕ) (line : List ℕ) (fault : ServeFault)
        → IsBegun limit line fault before.now after.now
        → IsInLine (table_of before.now) line (table_of after.now) }
    ensures kept_within { (limit : ℕ) (line : List ℕ) (fault : ServeFault)
        → IsBegun limit line fault before.now after.now
        → IsKeptInLine (table_of before.now) (last_kept before.now) line (last_kept after.now) }
    ensures within { (t kept u : List JobParts) (line : List ℕ) → IsKeptInLine t kept line u
        ↔ ((u ≡ kept) ⊎ IsInLine t line u) }
{
    ic_commands::laws::one_line_reading();
}

/// A command or a run is answered over no broken book, and a command over none whose slots' numbers
/// are used up. A line's events stand after the log of the page, where there is room for them.
pub fn an_answered_line_tells_of_its_book<D: Disk>(before: &Book<D>, after: &Book<D>)
    ensures whole { (limit : ℕ) (line bytes : List ℕ) (c : Command) → ReadsLine line (Ok (Asks c))
        → IsAnswered limit line bytes before.now after.now → is_broken after.now ≡ false }
    ensures whole_run { (limit : ℕ) (line bytes : List ℕ) (k : ℕ) → ReadsLine line (Ok (Run k))
        → IsAnswered limit line bytes before.now after.now → is_broken after.now ≡ false }
    ensures fresh { (limit : ℕ) (line bytes : List ℕ) (c : Command) → ReadsLine line (Ok (Asks c))
        → IsAnswered limit line bytes before.now after.now → number_of before.now ≢ 2 ^ 64 - 1 }
    ensures page { (limit : ℕ) (line bytes : List ℕ) (a : Reading) → ReadsLine line a
        → IsAnswered limit line bytes before.now after.now
        → HasRoom limit (events (table_of before.now) a) before.now
        → GoesOn (events (table_of before.now) a) before.now after.now }
    ensures begun_page { (limit : ℕ) (line : List ℕ) (fault : ServeFault) (a : Reading)
        → ReadsLine line a
        → IsBegun limit line fault before.now after.now
        → HasRoom limit (events (table_of before.now) a) before.now
        → GoesOnWithin (events (table_of before.now) a) before.now after.now }
{
    ic_commands::laws::one_line_reading();
}

/// A page that goes on begins with the table that it began with, and its log is the one that it had
/// with the entries of these events after it, one for each, in their order, sent by 0. So the old
/// log is a front of the new one. It goes on within events by the first so many of them. It has room
/// for events where they and its entries weigh less than the limit, in units of 1,024 bytes.
pub fn a_page_goes_on<D: Disk>(before: &Book<D>, after: &Book<D>)
    ensures start { (es : List Event) → GoesOn es before.now after.now
        → start_of after.now ≡ start_of before.now }
    ensures front { (es : List Event) → GoesOn es before.now after.now
        → take (length (log_of before.now)) (log_of after.now) ≡ log_of before.now }
    ensures events { (es : List Event) → GoesOn es before.now after.now
        → map (λ (e : Entry). e.event) (drop (length (log_of before.now)) (log_of after.now)) ≡ es }
    ensures senders { (es : List Event) → GoesOn es before.now after.now
        → AllByRecursion (λ (e : Entry). e.who ≡ 0)
        (drop (length (log_of before.now)) (log_of after.now)) }
    ensures within { (es : List Event) → GoesOnWithin es before.now after.now
        → (n : ℕ) × (n ≤ length es) × GoesOn (take n es) before.now after.now }
    ensures room { (limit : ℕ) (es : List Event) → HasRoom limit es before.now
        ↔ (weight_of (log_of before.now) + weigh es < limit) }
{}

/// `Device` says that one more failure of the disk was counted, or that the count is at its end, and
/// no other fault does. Only `Device` breaks a book; `Broken` is told of none that wasn't broken, and
/// `Worn` only where the numbers of the slots are used up.
pub fn causes_say()
    ensures device { (old new : ℕ) → CountsServe {T = Unit {0}} (Err (by_book book_fault.Device)) old new
        ↔ OneMore old new }
    ensures others { (fault : ServeFault) (old new : ℕ) → fault ≢ by_book book_fault.Device
        → CountsServe {T = Unit {0}} (Err fault) old new → new ≡ old }
    ensures breaks { (broken : Bool) (number : ℕ)
        → StaysReady (by_book book_fault.Device) broken number ↔ (broken ≡ true) }
    ensures stays { (fault : ServeFault) (broken : Bool) (number : ℕ)
        → fault ≢ by_book book_fault.Device → StaysReady fault broken number → broken ≡ false }
    ensures broken { (broken : Bool) (number : ℕ)
        → ¬ StaysReady (by_book book_fault.Broken) broken number }
    ensures worn { (broken : Bool) (number : ℕ)
        → StaysReady (by_book book_fault.Worn) broken number → number ≡ 2 ^ 64 - 1 }
{}

/// At Ok a call counts no failure of the disk, and breaks no book. At a fault it is one that may come,
/// and failures are counted and the book is broken as `causes_say` tells of it.
pub fn a_call_leaves_by_its_answer<D: Disk>(before: &Book<D>, after: &Book<D>)
    ensures well { (may : ServeFault → Bool) (done : Unit {0})
        → FaultLeaves (λ fault. may fault ≡ true) (Ok done) before.now after.now
        → (D.failures (disk_of after.now) ≡ D.failures (disk_of before.now))
        × (is_broken before.now ≡ false → is_broken after.now ≡ false) }
    ensures may { (may : ServeFault → Bool) (fault : ServeFault)
        → FaultLeaves {T = Unit {0}} (λ fault. may fault ≡ true) (Err fault) before.now after.now
        → may fault ≡ true }
    ensures counted { (may : ServeFault → Bool) (fault : ServeFault)
        → FaultLeaves {T = Unit {0}} (λ fault. may fault ≡ true) (Err fault) before.now after.now
        → CountsServe {T = Unit {0}} (Err fault) (D.failures (disk_of before.now))
        (D.failures (disk_of after.now)) }
    ensures ready { (may : ServeFault → Bool) (fault : ServeFault)
        → FaultLeaves {T = Unit {0}} (λ fault. may fault ≡ true) (Err fault) before.now after.now
        → is_broken before.now ≡ false
        → StaysReady fault (is_broken after.now) (number_of after.now) }
{
    let _ = before;
    let _ = after;
}

/// What a stop in the midst of a call leaves is claimed of a disk that keeps the model and is made:
/// a file that holds one of these tables. After the call it keeps the model where it did before,
/// and is made.
pub fn a_stop_leaves_one_of_these_tables<D: Disk>(before: &Book<D>, after: &Book<D>)
    ensures made { IsOnMadeDisk before.now
        ↔ (IsTrue (D.keeps (disk_of before.now)) × Within (D.image (disk_of before.now)) IsMade) }
    ensures crash { (p : List JobParts → Bool) → Leaves before.now after.now (λ t. p t ≡ true)
        → IsOnMadeDisk before.now
        → LeavesOnly D.clock D.left (disk_of before.now) (disk_of after.now)
        (λ file. (t : List JobParts) × (p t ≡ true) × HoldsTable t file) }
    ensures stays { (p : List JobParts → Bool) → Leaves before.now after.now (λ t. p t ≡ true)
        → IsOnMadeDisk before.now → IsOnMadeDisk after.now }
    ensures keeps { (p : List JobParts → Bool) → Leaves before.now after.now (λ t. p t ≡ true)
        → D.keeps (disk_of after.now) ≡ D.keeps (disk_of before.now) }
{}

/// A stop in the midst of a serving leaves a table that lines reach: a front of them is served, and
/// the table is within the line after them. Only where not all was kept when it began, the table
/// may be the one that was.
pub fn a_stop_is_within_the_lines()
    ensures reached { (t u : List JobParts) (ls : List (List ℕ)) → IsReached t ls u
        → (front : List (List ℕ)) × (rest : List (List ℕ)) × (answers : List ℕ)
        × (v : List JobParts) × (ls ≡ front ++ rest) × MayBeServed front
        × IsServed t front answers v × IsInFirst v rest u }
    ensures all_kept { (kept t u : List JobParts) (ls : List (List ℕ))
        → MayStand (true ≡ true) kept t ls u → IsReached t ls u }
    ensures others { (all : Bool) (kept t u : List JobParts) (ls : List (List ℕ))
        → MayStand (all ≡ true) kept t ls u → IsReached t ls u ⊎ (u ≡ kept) }
{}

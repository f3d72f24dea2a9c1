//! Laws of the definitions that the contracts of this crate cite.

ghost use Rattle.std.specs.Prelude.{◌≡◌, ◌↔◌, ◌⊎◌, ◌<◌, ◌≤◌, ℕ, List, [], ◌∷◌, ◌++◌, None, Some, IfSome, IsTrue, true, false, length, map, Option, slice_get, ◌^◌, ◌+◌};
ghost use Rattle.std.specs.List.{Contains};
ghost use Rattle.ic_term.specs.Configuration.{Configuration};
ghost use Rattle.ic_rules.specs.RuleSet.{Rules};
ghost use Rattle.ic_rules.specs.System.{SystemParts};
ghost use Rattle.ic_round.specs.Quiet.{IsQuiet};
ghost use Rattle.ic_flights.specs.Flight.{FlightParts};
ghost use Rattle.ic_jobs.specs.declared.state.State.{State};
ghost use Rattle.ic_jobs.specs.declared.state.State.TheVariants.{Running, Done, Spent};
ghost use Rattle.ic_jobs.specs.declared.command.Command.{Command};
ghost use Rattle.ic_jobs.specs.declared.command.Command.TheVariants.{Submit, CopyJob, Cancel};
ghost use Rattle.ic_jobs.specs.declared.reply.Reply.{Reply};
ghost use Rattle.ic_jobs.specs.declared.reply.Reply.TheVariants.{Accepted, Okay, Shown, Listed, Refused, Moved};
ghost use Rattle.ic_jobs.specs.declared.reply.Refusal.{Refusal};
ghost use Rattle.ic_jobs.specs.declared.event.Event.{Event};
ghost use Rattle.ic_jobs.specs.declared.event.Event.TheVariants.{Command as by_command, Round};
ghost use Rattle.ic_jobs.specs.declared.event.Entry.{Entry};
ghost use Rattle.ic_jobs.specs.declared.limits.TheConstants.{MAX_JOBS, MAX_BUDGET};
ghost use Rattle.ic_jobs.specs.Job.{JobParts, open_state, state_after, begun, system_of, moved, in_state, job_eq, table_eq};
ghost use Rattle.ic_jobs.specs.Refusal.{refusal_number, all_refusals};
ghost use Rattle.ic_jobs.specs.Table.{IsTable, job_names, job_named};
ghost use Rattle.ic_jobs.specs.Shown.{ShownParts, shown, listed};
ghost use Rattle.ic_jobs.specs.Events.{Outcome, IsAnswered, after_command, apply};
ghost use Rattle.ic_jobs.specs.Commands.{IsEvent};
ghost use Rattle.ic_jobs.specs.Replies.{is_accepted, is_okay};
ghost use Rattle.ic_jobs.specs.Names.{mentions, event_names, names_after};
ghost use Rattle.ic_jobs.specs.Transitions.{EventLeads};
ghost use Rattle.ic_jobs.specs.Memory.{takes_memory, is_submit, tells_jobs};
ghost use Rattle.ic_jobs.specs.History.{table_after, replay, IsLegal};
ghost use Rattle.ic_jobs.specs.Landing.{due, Awaits};
ghost use Rattle.ic_jobs.specs.Turns.{RunsAt, IsFlightOf, HasFlight};
ghost use Rattle.ic_jobs.specs.Life.{Life, life, IsAsLived};

/// The limits of a job table.
pub fn limits_are()
    ensures jobs { MAX_JOBS ≡ 32 }
    ensures budget { MAX_BUDGET + 1 ≡ 2 ^ 32 }
{}

/// A history that is legal from the empty table leaves a job of a name exactly where the name's
/// life is some rules, a configuration and a number of rounds. Then the job has these rules and
/// rounds, and its configuration is the iterate, after so many rounds, of the one that it began
/// with.
pub fn life_law()
    ensures { (name : List ℕ) (h : List Entry) → IsLegal [] h
        → IsAsLived (job_named name (replay [] h)) (life name h) }
{}

/// The life of a name, entry by entry. There is none before the first entry. An accepted submit
/// begins it with the submitted system; an accepted copy begins it with the rules and the
/// configuration that the copied job has in the replay of the entries before. Each round that is
/// made counts one, a cancel ends the life, and an entry that doesn't mention the name leaves it.
pub fn lives_go_so()
    ensures none { (name : List ℕ) → life name [] ≡ None }
    ensures submitted { (name : List ℕ) (h : List Entry) (e : Entry) (s : SystemParts)
        (budget : Option ℕ) → e.event ≡ by_command (Submit name s budget) → e.reply ≡ Accepted
        → life name (h ++ e ∷ [])
        ≡ Some (record { rules = s.rules; first = s.config; rounds = 0 }) }
    ensures copied { (old name : List ℕ) (h : List Entry) (e : Entry) (j : JobParts)
        → e.event ≡ by_command (CopyJob old name) → e.reply ≡ Accepted
        → job_named old (replay [] h) ≡ Some j → life name (h ++ e ∷ [])
        ≡ Some (record { rules = j.rules; first = j.config; rounds = 0 }) }
    ensures moved { (name : List ℕ) (h : List Entry) (e : Entry) (l : Life)
        → e.event ≡ Round name → e.reply ≡ Moved → life name h ≡ Some l
        → life name (h ++ e ∷ []) ≡ Some (record l { rounds = l.rounds + 1 }) }
    ensures ended { (name : List ℕ) (h : List Entry) (e : Entry)
        → e.event ≡ by_command (Cancel name) → e.reply ≡ Okay
        → life name (h ++ e ∷ []) ≡ None }
    ensures other { (name : List ℕ) (h : List Entry) (e : Entry)
        → mentions name e.event ≡ false → life name (h ++ e ∷ []) ≡ life name h }
{}

/// A history is legal where its first part is, and the rest is from the table that the first part
/// leaves.
pub fn histories_split_and_join()
    ensures table { (t : List JobParts) (h k : List Entry)
        → replay t (h ++ k) ≡ replay (replay t h) k }
    ensures legal { (t : List JobParts) (h k : List Entry)
        → IsLegal t (h ++ k) ↔ (IsLegal t h × IsLegal (replay t h) k) }
{}

/// An entry is legal exactly where its event is defined and is answered by the entry's reply. It
/// leaves the table that its event leaves, and an event that isn't defined leaves the table as it
/// is. The empty history is legal and leaves the table as it is.
pub fn one_entry_is_legal_where_it_is_answered()
    ensures empty { (t : List JobParts) → IsLegal t [] }
    ensures empty_stays { (t : List JobParts) → replay t [] ≡ t }
    ensures legal { (t : List JobParts) (e : Entry)
        → IsLegal t (e ∷ []) ↔ IsAnswered t e.event e.reply }
    ensures table { (t : List JobParts) (e : Entry) (o : Outcome)
        → apply t e.event ≡ Some o → replay t (e ∷ []) ≡ o.table }
    ensures undefined { (t : List JobParts) (e : Entry)
        → apply t e.event ≡ None → replay t (e ∷ []) ≡ t }
{}

/// Every event leaves a table.
pub fn events_leave_tables()
    ensures { (t : List JobParts) (e : Event) → IsTable t → IsEvent e
        → IfSome (apply t e) (λ o. IsTable o.table) }
{}

/// An event leaves the jobs of all names that it doesn't mention.
pub fn other_jobs_stay()
    ensures { (t : List JobParts) (e : Event) (name : List ℕ) → mentions name e ≡ false
        → job_named name (table_after t e) ≡ job_named name t }
{}

/// An event mentions exactly its own names. Every round is an event, as every command is
/// (`Command::copy`).
pub fn events_mention_their_names()
    ensures names { (name : List ℕ) (e : Event)
        → IsTrue (mentions name e) ↔ Contains (event_names e) name }
    ensures rounds { (n : List ℕ) → IsEvent (Round n) }
{}

/// What each event answers, and the state in which it leaves the job of its name, go by the tables
/// of specs/Transitions. They go row by row for each command, and for a round, which is an event of
/// a running job only.
///
/// A job begins done where its configuration is quiet, and else it runs. After a round it is done
/// where its configuration is quiet; else it is spent where its rounds are its budget, and else it
/// runs.
pub fn events_change_states_so()
    ensures events { (t : List JobParts) (e : Event) → EventLeads t e }
    ensures done { (rules : Rules) (c : Configuration)
        → IsQuiet rules.rules c → open_state rules c ≡ Done }
    ensures running { (rules : Rules) (c : Configuration)
        → ¬ IsQuiet rules.rules c → open_state rules c ≡ Running }
    ensures done_after { (rules : Rules) (c : Configuration) (rounds : ℕ) (budget : Option ℕ)
        → IsQuiet rules.rules c → state_after rules c rounds budget ≡ Done }
    ensures spent_after { (rules : Rules) (c : Configuration) (rounds : ℕ) (budget : Option ℕ)
        → ¬ IsQuiet rules.rules c → budget ≡ Some rounds
        → state_after rules c rounds budget ≡ Spent }
    ensures running_after { (rules : Rules) (c : Configuration) (rounds : ℕ) (budget : Option ℕ)
        → ¬ IsQuiet rules.rules c → ¬ (budget ≡ Some rounds)
        → state_after rules c rounds budget ≡ Running }
{}

/// A command that is answered with a new job, or with what it tells of jobs, is one that takes
/// memory; one that is answered `Okay` takes none. A copy of a command takes memory only where it
/// is a submit, and a copy of a reply only where it tells of jobs.
pub fn memory_is_taken_by()
    ensures submitting { (t : List JobParts) (c : Command)
        → is_accepted (after_command t c).reply ≡ true → takes_memory c ≡ true }
    ensures telling { (t : List JobParts) (c : Command)
        → tells_jobs (after_command t c).reply ≡ true → takes_memory c ≡ true }
    ensures changing { (t : List JobParts) (c : Command)
        → is_okay (after_command t c).reply ≡ true → takes_memory c ≡ false }
    ensures copies { (c : Command)
        → IsTrue (is_submit c)
        ↔ ((n : List ℕ) × (s : SystemParts) × (b : Option ℕ) × (c ≡ Submit n s b)) }
    ensures replies { (r : Reply) → IsTrue (tells_jobs r)
        ↔ (((s : ShownParts) × (r ≡ Shown s))
        ⊎ ((l : List (List ℕ × State × ℕ)) × (r ≡ Listed l))) }
{}

/// An accepted copy begins its job with the rules and the whole configuration that the copied job
/// has, with no rounds made and no budget, done where it is quiet and else running. The new job goes
/// last, after all jobs as they were.
pub fn copies_begin_so()
    ensures accepted { (t : List JobParts) (old new : List ℕ) (j : JobParts)
        → job_named old t ≡ Some j
        → (after_command t (CopyJob old new)).reply ≡ Accepted
        → (after_command t (CopyJob old new)).table ≡ t ++ begun new (system_of j) None ∷ [] }
    ensures begun { (new : List ℕ) (j : JobParts) → begun new (system_of j) None ≡ record {
      name = new;
      rules = j.rules;
      config = j.config;
      rounds = 0;
      state = open_state j.rules j.config;
      budget = None;
    } }
{}

/// A job has the budget that it was submitted with, and a copied one has none: while a job of a name
/// is there, no event changes its budget, nor does a round or a change of its state.
pub fn budgets_are_kept()
    ensures events { (t : List JobParts) (e : Event) (name : List ℕ) (j k : JobParts)
        → job_named name t ≡ Some j → job_named name (table_after t e) ≡ Some k
        → k.budget ≡ j.budget }
    ensures begun { (name : List ℕ) (s : SystemParts) (budget : Option ℕ)
        → (begun name s budget).budget ≡ budget }
    ensures moved { (j : JobParts) → (moved j).budget ≡ j.budget }
    ensures in_state { (s : State) (j : JobParts) → (in_state s j).budget ≡ j.budget }
{}

/// The names of a table are in the order in which their jobs began: an accepted submit or copy puts
/// the new name last, a cancel takes its name out, and any other event leaves all names as they are.
/// What is refused leaves the whole table.
pub fn names_keep_their_order()
    ensures names { (t : List JobParts) (e : Event) (o : Outcome)
        → apply t e ≡ Some o → job_names o.table ≡ names_after (job_names t) e o.reply }
    ensures refused { (t : List JobParts) (e : Event) (o : Outcome) (r : Refusal)
        → apply t e ≡ Some o → o.reply ≡ Refused r → o.table ≡ t }
{}

/// A shown job has the name, state, rounds, rules and configuration of the job. A list has a line
/// for each job, at its place, with its name, state and rounds.
pub fn jobs_are_told_so()
    ensures shown { (j : JobParts) → shown j ≡ record {
      name = j.name;
      state = j.state;
      rounds = j.rounds;
      rules = j.rules;
      config = j.config;
    } }
    ensures lines { (t : List JobParts) → length (listed t) ≡ length t }
    ensures line { (t : List JobParts) (k : ℕ) (j : JobParts) → slice_get t k ≡ Some j
        → slice_get (listed t) k ≡ Some (j.name, j.state, j.rounds) }
{}

/// The lasting numbers of the refusals.
pub fn numbers_are_lasting()
    ensures all { (refusal : Refusal) → Contains all_refusals refusal }
    ensures numbers { map refusal_number all_refusals ≡ 1 ∷ 2 ∷ 3 ∷ 4 ∷ 5 ∷ [] }
{}

/// The tests of equality tell exactly whether two jobs, or two tables, are the same.
pub fn equality_is_exact()
    ensures jobs { (j k : JobParts) → IsTrue (job_eq j k) ↔ (j ≡ k) }
    ensures tables { (t u : List JobParts) → IsTrue (table_eq t u) ↔ (t ≡ u) }
{}

/// What is due is the flight of a running job. It is the first from the place on; where none runs
/// from there on, it is the first of all. Nothing is due exactly where no job runs.
pub fn due_is_the_next_running_job()
    ensures none { (t : List JobParts) (after : ℕ)
        → (due t after ≡ None) ↔ ((k : ℕ) → ¬ RunsAt t k) }
    ensures job { (t : List JobParts) (after : ℕ) (f : FlightParts)
        → due t after ≡ Some f → IsFlightOf t f }
    ensures first_from_there { (t : List JobParts) (after : ℕ) (f : FlightParts)
        → due t after ≡ Some f → after ≤ f.place
        → (k : ℕ) → RunsAt t k → after ≤ k → f.place ≤ k }
    ensures first_of_all { (t : List JobParts) (after : ℕ) (f : FlightParts)
        → due t after ≡ Some f → f.place < after
        → (k : ℕ) → RunsAt t k → (f.place ≤ k) × (k < after) }
{}

/// What is due is awaited, and of a name at most one round. Exactly the next rounds of the running
/// jobs of a table are awaited.
pub fn what_is_due_is_awaited()
    ensures due { (t : List JobParts) (after : ℕ) (f : FlightParts) → IsTable t
        → due t after ≡ Some f → Awaits t f.name f.rules f.config f.rounds }
    ensures one { (t : List JobParts) (name : List ℕ) (r q : Rules) (a b : Configuration)
        (m n : ℕ) → Awaits t name r a m → Awaits t name q b n
        → (r ≡ q) × (a ≡ b) × (m ≡ n) }
    ensures running { (t : List JobParts) (name : List ℕ) (r : Rules) (a : Configuration)
        (n : ℕ) → IsTable t → Awaits t name r a n ↔ HasFlight t name r a n }
{}

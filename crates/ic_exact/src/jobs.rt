//! What an event leads to.

ghost use Rattle.std.specs.Prelude.{◌≡◌, ℕ, List, Option, None, Some, map};
ghost use Rattle.ic_jobs.specs.Job.{JobParts};
ghost use Rattle.ic_jobs.specs.Events.{Outcome, apply};
ghost use Rattle.ic_jobs.specs.Names.{command_names};
ghost use Rattle.ic_jobs.specs.Table.{job_named};
ghost use Rattle.ic_jobs.specs.Transitions.{LeadsEach, Row, command_row, leaves, round_row, state_of, tells};
ghost use Rattle.ic_jobs.specs.declared.command.Command.{Command};
ghost use Rattle.ic_jobs.specs.declared.event.Event.TheVariants.{Command as by_command, Round};
ghost use Rattle.ic_jobs.specs.declared.reply.Reply.{Reply};
ghost use Rattle.ic_jobs.specs.declared.state.State.{State};

/// The outcome of a command has the reply that is said, and jobs of these names in the states that are said.
pub fn a_command_leads_where_it_is_said_to()
    ensures { (t : List JobParts) (c : Command) (r : Reply) (names : List (List ℕ))
        (after : List (Option State)) (o : Outcome) → LeadsEach t c r names after
        → apply t (by_command c) ≡ Some o
        → (o.reply ≡ r) × (map (λ name. state_of name o.table) names ≡ after) }
{}

/// Each event leads by its row in the tables of specs/Transitions: it is defined, it has the reply of the row, and the jobs that
/// it names are left in the states of the row. A command that only tells leaves the table. A round that has no row isn't
/// defined.
pub fn events_lead_by_their_rows()
    ensures leaves { (t : List JobParts) (c : Command) (r : Reply) (after : List (Option State))
        → command_row t c ≡ leaves r after
        → (o : Outcome) × (apply t (by_command c) ≡ Some o) × (o.reply ≡ r)
        × (map (λ name. state_of name o.table) (command_names c) ≡ after) }
    ensures tells { (t : List JobParts) (c : Command) (r : Reply) → command_row t c ≡ tells r
        → (o : Outcome) × (apply t (by_command c) ≡ Some o) × (o.reply ≡ r) × (o.table ≡ t) }
    ensures round { (t : List JobParts) (name : List ℕ) (row : Row)
        → round_row (job_named name t) ≡ Some row
        → (o : Outcome) × (apply t (Round name) ≡ Some o) × (o.reply ≡ row.reply)
        × (state_of name o.table ≡ row.after) }
    ensures no_round { (t : List JobParts) (name : List ℕ) → round_row (job_named name t) ≡ None
        → apply t (Round name) ≡ None }
{
    ic_jobs::laws::events_change_states_so();
}

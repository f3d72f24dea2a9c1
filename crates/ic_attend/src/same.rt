//! Whether two commands, or two replies, are the same. It takes no memory.

ghost use Rattle.std.specs.Prelude.{◌≡◌, ◌↔◌, IsTrue};
ghost use Rattle.ic_jobs.specs.declared.state.State.{State as JobState};

use ic_flat::FlatSystem;
use ic_jobs::{Budget, Command, Reply, ShownJob, State};
use ic_rules::JobName;

fn same_name(left: &JobName, right: &JobName) -> bool
    ensures { IsTrue result ↔ (left.now ≡ right.now) }
{
    left.as_bytes() == right.as_bytes()
}

fn same_system(left: &FlatSystem, right: &FlatSystem) -> bool
    ensures { IsTrue result ↔ (left.now ≡ right.now) }
{
    ic_term::laws::equality_is_exact();
    ic_rules::laws::equality_is_exact();
    *left.config() == *right.config() && **left.rules() == **right.rules()
}

fn same_budget(left: &Option<Budget>, right: &Option<Budget>) -> bool
    ensures { IsTrue result ↔ (left.now ≡ right.now) }
{
    match (left, right) {
        (Some(left), Some(right)) => left.rounds() == right.rounds(),
        (None, None) => true,
        _ => false,
    }
}

pub(crate) fn same_command(left: &Command, right: &Command) -> bool
    ensures { IsTrue result ↔ (left.now ≡ right.now) }
{
    match left {
        Command::Submit(name, system, budget) => match right {
            Command::Submit(other, twin, most) => {
                same_name(name, other) && same_system(system, twin) && same_budget(budget, most)
            }
            _ => false,
        },
        Command::CopyJob(old, new) => match right {
            Command::CopyJob(other, twin) => same_name(old, other) && same_name(new, twin),
            _ => false,
        },
        Command::Pause(name) => match right {
            Command::Pause(other) => same_name(name, other),
            _ => false,
        },
        Command::Resume(name) => match right {
            Command::Resume(other) => same_name(name, other),
            _ => false,
        },
        Command::Cancel(name) => match right {
            Command::Cancel(other) => same_name(name, other),
            _ => false,
        },
        Command::Fetch(name) => match right {
            Command::Fetch(other) => same_name(name, other),
            _ => false,
        },
        Command::List => matches!(right, Command::List),
    }
}

fn same_state(left: State, right: State) -> bool
    ensures { IsTrue result ↔ (left ≡ right) }
{
    left == right
}

fn same_shown(left: &ShownJob, right: &ShownJob) -> bool
    ensures { IsTrue result ↔ (left.now ≡ right.now) }
{
    ic_term::laws::equality_is_exact();
    ic_rules::laws::equality_is_exact();
    same_name(&left.name(), &right.name())
        && same_state(left.state(), right.state())
        && left.rounds() == right.rounds()
        && *left.config() == *right.config()
        && *left.rules() == *right.rules()
}

fn same_line(left: &(JobName, State, u64), right: &(JobName, State, u64)) -> bool
    ensures { IsTrue result ↔ (left.now ≡ right.now) }
{
    same_name(&left.0, &right.0) && same_state(left.1, right.1) && left.2 == right.2
}

fn same_lines(left: &[(JobName, State, u64)], right: &[(JobName, State, u64)]) -> bool
    ensures { IsTrue result ↔ (left.now ≡ right.now) }
{
    if left.len() != right.len() {
        return false;
    }
    for place in 0..left.len() {
        if !same_line(&left[place], &right[place]) {
            return false;
        }
    }
    true
}

pub(crate) fn same_reply(left: &Reply, right: &Reply) -> bool
    ensures { IsTrue result ↔ (left.now ≡ right.now) }
{
    match left {
        Reply::Accepted => matches!(right, Reply::Accepted),
        Reply::Okay => matches!(right, Reply::Okay),
        Reply::Shown(shown) => match right {
            Reply::Shown(other) => same_shown(shown, other),
            _ => false,
        },
        Reply::Listed(list) => match right {
            Reply::Listed(other) => same_lines(list.as_slice(), other.as_slice()),
            _ => false,
        },
        Reply::Refused(refusal) => match right {
            Reply::Refused(other) => refusal == other,
            _ => false,
        },
        Reply::Moved => matches!(right, Reply::Moved),
        Reply::Halted => matches!(right, Reply::Halted),
    }
}

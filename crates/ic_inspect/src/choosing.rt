//! Which slot is the newest open one.

ghost use Rattle.std.specs.Prelude.{◌≡◌};
ghost use Rattle.ic_inspect.specs.inner.Held.{open_number, newer, newest_of};

use crate::seen::Seen;

/// The newest open slot, or why there is none.
#[derive(Clone, Copy, PartialEq, Eq)]
pub enum Newest {
    NoSlot,
    TwoAlike,
    First,
    Second,
}

/// The newest open slot of two.
pub(crate) fn newest_of(first: &Option<Seen>, second: &Option<Seen>) -> Newest
    ensures { result ≡ newest_of first.now second.now }
{
    match (open_number(first), open_number(second)) {
        (None, None) => Newest::NoSlot,
        (Some(_), None) => Newest::First,
        (None, Some(_)) => Newest::Second,
        (Some(one), Some(other)) => newer(one, other),
    }
}

/// The newer one of two open slots of these numbers.
fn newer(first: u64, second: u64) -> Newest
    ensures { result ≡ newer first second }
{
    if first == second {
        Newest::TwoAlike
    } else if second < first {
        Newest::First
    } else {
        Newest::Second
    }
}

/// The number of a slot, where it is open.
fn open_number(seen: &Option<Seen>) -> Option<u64>
    ensures { result ≡ open_number seen.now }
{
    match seen {
        Some(seen) if seen.opened => Some(seen.number),
        _ => None,
    }
}

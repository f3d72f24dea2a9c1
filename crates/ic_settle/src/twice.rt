//! Whether a name occurs twice in a list that rises.

ghost use Rattle.std.specs.Prelude.{◌≡◌, nat_le};
ghost use Rattle.std.specs.List.Sorted.{IsNonDecreasing};
ghost use Rattle.ic_term.specs.Configuration.{occurrences};

/// Whether a name occurs at least twice in a list that rises.
pub fn is_twice_in(names: &[u64], name: u64) -> bool
    requires { IsNonDecreasing names.now }
    ensures { result ≡ nat_le 2 (occurrences name names.now) }
{
    let first = names.partition_point(|other| *other < name);
    first + 1 < names.len() && names[first + 1] == name
}

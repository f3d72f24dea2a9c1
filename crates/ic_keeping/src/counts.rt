//! Counts of each rule: whether they are those of a state, and added up.

ghost use Rattle.std.specs.Prelude.{◌≡◌, ◌+◌, ◌^◌, ◌<◌, ◌≤◌, ℕ, IsNone, IsSome, length, slice_index_or, true};
ghost use Rattle.ic_keeping.specs.Way.{AreSums};

/// Whether there is a count for each of so many rules, and none is above so many interactions.
pub(crate) fn are_counts(counts: &[u64], rules: usize, interactions: u64) -> bool
    ensures long { result ≡ true → length counts.now ≡ rules }
    ensures told { length counts.now ≡ rules
        → ((i : ℕ) → i < rules → slice_index_or counts.now i 0 ≤ interactions) → result ≡ true }
{
    if counts.len() != rules {
        return false;
    }
    for i in 0..counts.len() {
        if counts[i] > interactions {
            return false;
        }
    }
    true
}

/// Adds counts to others, if there are as many of both and no sum passes 2^64 - 1.
pub(crate) fn add_all(counts: &mut [u64], more: &[u64]) -> Option<()>
    ensures sums { IsSome result → AreSums counts.old more.now counts.new }
    ensures none { IsNone result → length counts.old ≡ length more.now
        → (i : ℕ) × (i < length more.now)
        × (2 ^ 64 ≤ slice_index_or counts.old i 0 + slice_index_or more.now i 0) }
{
    if counts.len() != more.len() {
        return None;
    }
    for i in 0..more.len() {
        let sum = counts[i].checked_add(more[i])?;
        counts[i] = sum;
    }
    Some(())
}

//! How works are dealt out to workers.

ghost use Rattle.std.specs.Prelude.{◌≡◌, ℕ, ◌+◌, ◌<◌, ◌≤◌, List, [], Contains, IsPermutation, length, replicate, slice_index_or};
ghost use Rattle.ic_rules.specs.Rule.{Rule};
ghost use Rattle.ic_round.specs.Works.{PlainWork};
ghost use Rattle.ic_crew.specs.Dealing.{AreDealt, IsDealing};
ghost use Rattle.ic_crew.specs.Sizes.{work_size};

/// Works in an order are dealt in one way. The order of a dealing has all works, each once. In it no work is larger than the one
/// before it, and where it is as large it stands at no earlier place. So there is one dealing of works that stand at places of
/// their own.
pub fn works_in_order_are_dealt_in_one_way()
    ensures one { (rs : List Rule) (ws : List PlainWork) (before after other : List (List PlainWork))
        → AreDealt rs before ws after → AreDealt rs before ws other → after ≡ other }
    ensures all { (rs : List Rule) (n : ℕ) (ws : List PlainWork) (parts : List (List PlainWork))
        → (is : IsDealing rs n ws parts)
        → IsPermutation ws is.order × AreDealt rs (replicate n []) is.order parts }
    ensures larger { (rs : List Rule) (n k : ℕ) (ws : List PlainWork) (d : PlainWork)
        (parts : List (List PlainWork)) → (is : IsDealing rs n ws parts) → k + 1 < length is.order
        → work_size rs (slice_index_or is.order (k + 1) d)
        ≤ work_size rs (slice_index_or is.order k d) }
    ensures earlier { (rs : List Rule) (n k : ℕ) (ws : List PlainWork) (d : PlainWork)
        (parts : List (List PlainWork)) → (is : IsDealing rs n ws parts) → k + 1 < length is.order
        → work_size rs (slice_index_or is.order k d)
        ≡ work_size rs (slice_index_or is.order (k + 1) d)
        → (slice_index_or is.order k d).place ≤ (slice_index_or is.order (k + 1) d).place }
    ensures alone { (rs : List Rule) (n : ℕ) (ws : List PlainWork)
        (parts other : List (List PlainWork))
        → ((v w : PlainWork) → Contains ws v → Contains ws w → v.place ≡ w.place → v ≡ w)
        → IsDealing rs n ws parts → IsDealing rs n ws other → parts ≡ other }
{
    ic_crew::laws::equality_is_exact();
}

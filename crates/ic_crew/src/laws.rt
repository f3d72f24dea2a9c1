//! Laws of the definitions that the contracts of this crate cite.

ghost use Rattle.std.specs.Prelude.{◌≡◌, ◌≤◌, ◌<◌, ◌⊎◌, ℕ, List, Result, Err, IsPermutation, IsTrue, ◌↔◌, false, length};
ghost use Rattle.std.specs.List.{AllByRecursion};
ghost use Rattle.ic_rules.specs.Rule.{Rule};
ghost use Rattle.ic_round.specs.Works.{PlainWork};
ghost use Rattle.ic_flights.specs.Flight.{FlightParts, is_blocked};
ghost use Rattle.ic_flights.specs.Played.{PlayedParts};
ghost use Rattle.ic_pool.specs.Played.{played};
ghost use Rattle.ic_pool.specs.PoolFault.{Answers};
ghost use Rattle.ic_pool.specs.declared.fault.PoolFault.{PoolFault};
ghost use Rattle.ic_pool.specs.declared.fault.PoolFault.TheVariants.{Memory, Lost, Stranger};
ghost use Rattle.ic_crew.specs.Crews.{is_spending, ByCrew};
ghost use Rattle.ic_crew.specs.Dealing.{IsDealing, joined};
ghost use Rattle.ic_crew.specs.Matching.{work_eq};

/// What is dealt to so many parts is all that there was, each work once. Where there are at least as
/// many works as parts, none is left empty.
pub fn dealing_is_fair()
    ensures count { (rs : List Rule) (n : ℕ) (ws : List PlainWork) (parts : List (List PlainWork))
        → IsDealing rs n ws parts → length parts ≡ n }
    ensures each_once { (rs : List Rule) (n : ℕ) (ws : List PlainWork)
        (parts : List (List PlainWork)) → IsDealing rs n ws parts → IsPermutation ws (joined parts) }
    ensures none_empty { (rs : List Rule) (n : ℕ) (ws : List PlainWork)
        (parts : List (List PlainWork)) → IsDealing rs n ws parts → n ≤ length ws
        → AllByRecursion (λ part. 0 < length part) parts }
{}

/// The test of equality tells exactly whether two works are the same.
pub fn equality_is_exact()
    ensures { (v w : PlainWork) → IsTrue (work_eq v w) ↔ (v ≡ w) }
{}

/// A crew is spent where memory ran out and where results are lost or strange, and by no other fault.
pub fn crews_are_spent_so()
    ensures { (fault : PoolFault) → IsTrue (is_spending fault)
        ↔ ((fault ≡ Memory) ⊎ ((fault ≡ Lost) ⊎ (fault ≡ Stranger))) }
{}

/// A crew that isn't spent answers what one thread does, and where a round is to be made also that a
/// result was lost or strange.
pub fn crews_answer_so()
    ensures { (f : FlightParts) (r : Result PlayedParts PoolFault) → ByCrew r (played f)
        ↔ (Answers r (played f)
        ⊎ ((is_blocked f ≡ false) × ((r ≡ Err Lost) ⊎ (r ≡ Err Stranger)))) }
{
    ic_pool::laws::workers_answer_so();
}

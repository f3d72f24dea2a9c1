//! Budgets: the greatest number of rounds that a job makes.

ghost use Rattle.std.specs.Prelude.{◌≡◌, ◌↔◌, ◌≤◌, IsTrue, IsSome, IfSome};
ghost use Rattle.ic_jobs.specs.Budget.{IsBudget, is_used_up};

use crate::limits::MAX_BUDGET;
use std::marker::Model;

/// The greatest number of rounds that a job makes: 1 to 4,294,967,295.
#[derive(Clone, Copy, PartialEq, Eq)]
pub struct Budget {
    rounds: u64,
}

impl Model for Budget {
    ghost use Rattle.std.specs.Prelude.{ℕ};
    ghost use Rattle.ic_jobs.specs.Budget.{IsBudget};

    ghost Value = { ℕ };

    ghost view = { λ b. b.rounds };

    ghost invariant = { λ b. IsBudget b.rounds };

    ghost inverse = { λ n. record { rounds = n } };
}

impl Budget {
    /// The budget of so many rounds, if they are 1 to 4,294,967,295.
    pub fn new(rounds: u64) -> Option<Budget>
        ensures budget { IsSome result ↔ IsBudget rounds }
        ensures rounds { IfSome result (λ budget. budget ≡ rounds) }
    {
        if rounds == 0 || rounds > MAX_BUDGET {
            return None;
        }
        Some(Budget { rounds })
    }

    pub fn rounds(self) -> u64
        ensures rounds { result ≡ self }
        ensures sound { IsBudget self }
    {
        self.rounds
    }
}

/// Whether so many rounds are at most the budget, where there is one.
pub(crate) fn is_within(budget: &Option<Budget>, rounds: u64) -> bool
    ensures within { IsTrue result ↔ IfSome budget.now (λ most. rounds ≤ most) }
    ensures sound { IfSome budget.now IsBudget }
{
    match budget {
        Some(budget) => rounds <= budget.rounds(),
        None => true,
    }
}

/// Whether so many rounds are the budget.
pub(crate) fn is_used_up(budget: &Option<Budget>, rounds: u64) -> bool
    ensures { result ≡ is_used_up budget.now rounds }
{
    match budget {
        Some(budget) => rounds == budget.rounds(),
        None => false,
    }
}

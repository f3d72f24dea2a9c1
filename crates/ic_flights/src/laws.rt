//! Laws of the definitions that the contracts of this crate cite.

ghost use Rattle.std.specs.Prelude.{◌≡◌, ◌^◌};
ghost use Rattle.ic_flights.specs.declared.limits.TheConstants.{MAX_ROUNDS};

/// The limit of rounds.
pub fn limits_are()
    ensures rounds { MAX_ROUNDS ≡ 2 ^ 62 }
{}

//! Whether a round that was made is the one that is asked for.

ghost use Rattle.std.specs.Prelude.{◌≡◌, ◌↔◌, true, Ok};
ghost use Rattle.ic_flights.specs.Played.{IsPlayed, round_of};
ghost use Rattle.ic_pool.specs.Played.{played};
ghost use Rattle.ic_laps.specs.inner.Agreeing.{agrees};

use ic_flights::{Flight, Played};

/// Whether a round that was made is the round of a flight. If it is, it's what playing the flight answers.
pub fn is_round_of(made: &Played, flight: &Flight) -> bool
    ensures round { (result ≡ true) ↔ (made.now ≡ round_of flight.now) }
    ensures answer { result ≡ true → Ok made.now ≡ played flight.now }
{
    agrees(made, flight)
}

/// Whether it was made for such a job: what is soon told apart is compared first.
fn agrees(made: &Played, flight: &Flight) -> bool
    ensures agrees { result ≡ agrees made.now flight.now }
    ensures sound { IsPlayed made.now }
{
    made.rounds() == flight.rounds()
        && made.name() == flight.name()
        && *made.before() == *flight.config()
        && *made.rules() == *flight.rules()
}

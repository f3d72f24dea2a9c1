//! Rounds that were made for a flight, and the flight after one.

ghost use Rattle.std.specs.Prelude.{◌≡◌, ◌+◌, ◌<◌, IsTrue, IfOk};
ghost use Rattle.ic_term.specs.Symbol.{is_over};
ghost use Rattle.ic_round.specs.Rounds.{fits, round};
ghost use Rattle.ic_flights.specs.Played.{round_of};
ghost use Rattle.ic_flights.specs.declared.limits.TheConstants.{MAX_ROUNDS};

use crate::flight::Flight;
use crate::played::Played;
use ic_flat::Flat;
use ic_flat_rules::quiet;
use std::alloc::{AllocError, Global};

/// The round of a flight, from the configuration after it. It looks whether that is quiet.
pub fn made_for(alloc: Global, flight: &Flight, after: Flat) -> Result<Played, AllocError>
    requires counted { flight.now.rounds < MAX_ROUNDS }
    requires fitting { IsTrue (fits flight.now.rules.rules flight.now.config) }
    requires made { after ≡ round flight.now.rules.rules flight.now.config }
    requires over { IsTrue (is_over flight.now.rules.symbols after) }
    ensures { IfOk result (λ played. played ≡ round_of flight.now) }
{
    let before = flight.shared_config().clone()?;
    let rules = flight.shared_rules().clone()?;
    let rounds = flight.rounds();
    let quiet = quiet(flight.rules(), &after);
    Ok(Played::new(alloc, flight.name(), rules, before, after, rounds, quiet)?)
}

/// The flight of the next round of a job at a place, after one that was made.
pub fn next_flight(place: usize, made: &Played) -> Result<Flight, AllocError>
    ensures { IfOk result (λ next. next ≡ record {
      place = place;
      name = made.now.name;
      rules = made.now.rules;
      config = made.now.after;
      rounds = made.now.rounds + 1;
    }) }
{
    let rules = made.shared_rules().clone()?;
    let config = made.shared_after().clone()?;
    Ok(Flight::new(place, made.name(), rules, config, made.rounds() + 1))
}

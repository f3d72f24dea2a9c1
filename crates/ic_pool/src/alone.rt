//! A round made by the calling thread alone.

ghost use Rattle.ic_pool.specs.Played.{played};
ghost use Rattle.ic_pool.specs.PoolFault.{Answers};

use crate::fault::PoolFault;
use ic_flat_round::Workspace;
use ic_flights::{Flight, MAX_ROUNDS, Played, made_for};
use std::alloc::Global;

/// The round of a flight, made by the calling thread alone. Its faults are tried in the order
/// `RoundsOut`, `Overgrown`, `NamesOut`; `Memory` comes where a growth is refused.
pub fn play_alone(alloc: Global, flight: &Flight) -> Result<Played, PoolFault>
    ensures { Answers result (played flight.now) }
{
    let mut workspace = Workspace::new(alloc);
    play_in(alloc, flight, &mut workspace)
}

/// The same, in lists that are kept from one round to the next.
pub fn play_in(
    alloc: Global,
    flight: &Flight,
    workspace: &mut Workspace,
) -> Result<Played, PoolFault>
    ensures { Answers result (played flight.now) }
{
    if flight.rounds() == MAX_ROUNDS {
        return Err(PoolFault::RoundsOut);
    }
    let after = workspace.next(alloc, flight.shared_rules(), flight.config())?;
    Ok(made_for(alloc, flight, after)?)
}

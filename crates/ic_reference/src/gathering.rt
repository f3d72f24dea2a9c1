//! A configuration from its rest and the results of its works.

ghost use Rattle.std.specs.Prelude.{◌≡◌, Ok, map};
ghost use Rattle.ic_term.specs.Configuration.{Configuration, IsConfiguration};
ghost use Rattle.ic_round.specs.WorkViews.{fired_of};
ghost use Rattle.ic_round.specs.Gathering.{gathered, Answers};

use crate::rest::Rest;
use crate::slots::{join, put, slots_of};
use ic_round::{Fired, GatherFault};
use ic_term::Config;
use std::alloc::Global;

/// The configuration that a rest is once each awaited place has its products. The results may come
/// in any order.
pub fn gather(alloc: Global, rest: Rest, results: Vec<Fired>) -> Result<Config, GatherFault>
    requires { (config : Configuration)
        → gathered rest (map fired_of results.items) ≡ Ok config → IsConfiguration config }
    ensures { Answers result (gathered rest (map fired_of results.items)) }
{
    let (interface, equations, next) = rest.into_parts();
    let mut slots = slots_of(alloc, equations)?;
    let mut strange = false;
    for fired in results {
        if !put(&mut slots, fired.place, fired.products) {
            strange = true;
        }
    }
    let Some(equations) = join(alloc, slots)? else {
        return Err(GatherFault::Lost);
    };
    if strange {
        return Err(GatherFault::Stranger);
    }
    Ok(Config::from_parts(interface, equations, next))
}

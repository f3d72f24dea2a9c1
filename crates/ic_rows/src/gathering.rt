//! What gathering refuses: results that are missing, and results for no gap.

ghost use Rattle.std.specs.Prelude.{◌≡◌, None, [], ◌∷◌, IfOk};
ghost use Rattle.ic_round.specs.WorkViews.{fired_of};

use ic_notation::Trouble;
use ic_reference::{Rest, gather};
use ic_round::{Fired, GatherFault};
use ic_term::Config;
use std::alloc::{AllocError, Global};

/// A result without products.
fn nothing_at(alloc: Global, place: u64) -> Fired
    ensures { fired_of result ≡ record { place = place; products = [] } }
{
    Fired {
        place,
        products: Vec::new(alloc),
    }
}

/// A rest that awaits the places 0 and 1.
fn two_gaps(alloc: Global) -> Result<Rest, AllocError>
    ensures { IfOk result (λ rest.
        rest ≡ record { interface = []; equations = None ∷ None ∷ []; next = 0 }) }
{
    let mut gaps = Vec::new(alloc);
    gaps.push(None)?;
    gaps.push(None)?;
    Ok(Rest::new(Vec::new(alloc), gaps, 0))
}

/// Why gaps aren't filled.
fn told(answer: Result<Config, GatherFault>) -> Result<&'static str, Trouble> {
    match answer {
        Ok(_) => Ok("filled"),
        Err(GatherFault::Lost) => Ok("lost"),
        Err(GatherFault::Stranger) => Ok("stranger"),
        Err(GatherFault::Memory) => Err(Trouble("no memory")),
    }
}

fn without_results(alloc: Global) -> Result<&'static str, Trouble> {
    told(gather(alloc, two_gaps(alloc)?, Vec::new(alloc)))
}

fn with_one_twice(alloc: Global) -> Result<&'static str, Trouble> {
    let mut results = Vec::new(alloc);
    results.push(nothing_at(alloc, 1))?;
    results.push(nothing_at(alloc, 1))?;
    told(gather(alloc, two_gaps(alloc)?, results))
}

fn with_one_again(alloc: Global) -> Result<&'static str, Trouble> {
    let mut results = Vec::new(alloc);
    results.push(nothing_at(alloc, 1))?;
    results.push(nothing_at(alloc, 0))?;
    results.push(nothing_at(alloc, 1))?;
    told(gather(alloc, two_gaps(alloc)?, results))
}

fn with_one_for_no_gap(alloc: Global) -> Result<&'static str, Trouble> {
    let mut results = Vec::new(alloc);
    results.push(nothing_at(alloc, 1))?;
    results.push(nothing_at(alloc, 0))?;
    results.push(nothing_at(alloc, 2))?;
    told(gather(alloc, two_gaps(alloc)?, results))
}

/// Why two gaps aren't filled: by no result, by one twice, by both and one again, by both and one for another place.
pub fn gathered(alloc: Global, results: &str) -> Result<Vec<u8>, Trouble> {
    let line = match results {
        "none" => without_results(alloc)?,
        "1 1" => with_one_twice(alloc)?,
        "1 0 1" => with_one_again(alloc)?,
        _ => with_one_for_no_gap(alloc)?,
    };
    Ok(Vec::from_slice(alloc, line.as_bytes())?)
}

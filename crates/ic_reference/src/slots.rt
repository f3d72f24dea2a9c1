//! Places that await products.

ghost use Rattle.std.specs.Prelude.{◌≡◌, ◌++◌, [], map, option_map, IfOk, is_none};
ghost use Rattle.ic_term.specs.Term.{pair};
ghost use Rattle.ic_reference.specs.inner.Slots.{slot_of, slots_from, put_in, joined};

use ic_term::Equation;
use std::alloc::{AllocError, Global};

/// A place of a list of equations while results come in.
#[derive(Drop)]
pub(crate) enum Slot {
    Kept(Equation),
    Awaited,
    Filled(Vec<Equation>),
}

impl Slot {
    ghost use Rattle.ic_reference.specs.inner.Slots.{slot_of};

    fn is_awaited(&self) -> bool
        ensures { result ≡ is_none (slot_of self.now) }
    {
        match self {
            Slot::Awaited => true,
            Slot::Kept(_) | Slot::Filled(_) => false,
        }
    }
}

/// The places of equations with gaps, before any result has come.
pub(crate) fn slots_of(
    alloc: Global,
    equations: Vec<Option<Equation>>,
) -> Result<Vec<Slot>, AllocError>
    ensures { IfOk result (λ slots. map slot_of slots.items
        ≡ slots_from 0 (map (option_map pair) equations.items) []) }
{
    let mut slots = Vec::with_capacity(alloc, equations.len())?;
    for equation in equations {
        slots.push(match equation {
            Some(equation) => Slot::Kept(equation),
            None => Slot::Awaited,
        })?;
    }
    Ok(slots)
}

/// Puts products in their place, and tells whether it awaits them. Otherwise the place stays as it
/// is.
pub(crate) fn put(slots: &mut [Slot], place: u64, products: Vec<Equation>) -> bool
    ensures { put_in place (map pair products.items) (map slot_of slots.old)
        ≡ (map slot_of slots.new, result) }
{
    let place = place as usize;
    if place >= slots.len() {
        return false;
    }
    if !slots[place].is_awaited() {
        return false;
    }
    slots[place] = Slot::Filled(products);
    true
}

/// What stands in all places, in their order, if none is awaited.
pub(crate) fn join(alloc: Global, slots: Vec<Slot>) -> Result<Option<Vec<Equation>>, AllocError>
    ensures { IfOk result (λ all. option_map (λ es. map pair es.items) all
        ≡ joined (map slot_of slots.items)) }
{
    let mut equations = Vec::with_capacity(alloc, slots.len())?;
    for slot in slots {
        match slot {
            Slot::Kept(equation) => equations.push(equation)?,
            Slot::Awaited => return Ok(None),
            Slot::Filled(mut products) => equations.append(&mut products)?,
        }
    }
    Ok(Some(equations))
}

//! The first equation of two agents, told by their symbols, and the first circle.

ghost use Rattle.std.specs.Prelude.{◌≡◌, IfOk, IsTrue};
ghost use Rattle.std.specs.Option.{option_map};
ghost use Rattle.ic_term.specs.Symbol.{is_over};
ghost use Rattle.ic_streams.specs.Stuck.{stuck_text};

use ic_flat::Flat;
use ic_flat_round::facing;
use ic_term::Symbols;
use std::alloc::{AllocError, Global};

/// The text `A><B` of the symbols of the first equation of two agents. Where no step is possible, no rule has them.
pub fn stuck_text(
    alloc: Global,
    symbols: &Symbols,
    flat: &Flat,
) -> Result<Option<Vec<u8>>, AllocError>
    requires { IsTrue (is_over symbols.now flat.now) }
    ensures { IfOk result
        (λ stuck. option_map (λ text. text.items) stuck ≡ stuck_text symbols.now flat.now) }
{
    let Some((left, right)) = facing(flat) else {
        return Ok(None);
    };
    let mut text = symbols.text(left).to_vec(alloc)?;
    text.extend_from_slice(b"><")?;
    text.extend_from_slice(symbols.text(right))?;
    Ok(Some(text))
}

/// The symbol at which the first circle is closed: an equation of a name with a term that has it.
pub fn circle_text(
    alloc: Global,
    symbols: &Symbols,
    flat: &Flat,
) -> Result<Option<Vec<u8>>, AllocError> {
    let (terms, equations) = (flat.interface_len(), flat.equations_len());
    ic_in_place::circle_text(alloc, symbols, flat.words(), terms, equations)
}

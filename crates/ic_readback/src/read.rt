//! Reading a net back.

ghost use Rattle.std.specs.Prelude.{◌≡◌, ℕ, ◌+◌, ◌*◌, ◌++◌, [], length, reverse, IfOk};
ghost use Rattle.ic_round.specs.Naming.{HasNames};
ghost use Rattle.ic_reaching.specs.OneNet.{OneNet};
ghost use Rattle.ic_machine.specs.Net.{pieces, Net as AnyNet};
ghost use Rattle.ic_flat.specs.Words.{forest, IsWhole};
ghost use Rattle.ic_meaning.specs.Words.{Numbers, AreNumbers};
ghost use Rattle.ic_meaning.specs.Nets.{net_of, AreNetPieces};
ghost use Rattle.ic_readback.specs.Reading.{flat_words, configuration_read, AreGiven, BeginAs, sides_of, AreCirclesAfter};
ghost use Rattle.ic_readback.specs.inner.Parted.{IsParted, ReadsNet};

use crate::reader::Reader;
use crate::token::{ReadBack, Token};
use crate::writer::{Writer, write_loose};
use ic_arena::Word;
use ic_machine::{Equation, Machine, Places};
use std::alloc::{AllocError, Global};
use std::mem;

/// Reads the net of a machine back into terms: those of its interface, then the sides of its pairs, and last an equation
/// of a name with a term for each circle. Of the pairs that were set aside the last comes first: a machine that is planned of
/// these terms sets them aside in the same order, and goes on as this one would.
pub fn read_back(alloc: Global, machine: Machine) -> Result<ReadBack, AllocError>
    ensures terms { IfOk result (λ r. r.terms ≡ length machine.interface) }
    ensures whole { IfOk result (λ r. (n : Numbers) → n.arities ≡ machine.arities
        → IsWhole (flat_words n r.tokens.items)) }
    ensures counted { IfOk result (λ r. (n : Numbers) → n.arities ≡ machine.arities
        → length (forest (flat_words n r.tokens.items)) ≡ r.terms + 2 * r.equations) }
    ensures net { IfOk result (λ r. (n : Numbers) → n.arities ≡ machine.arities → AreNumbers n
        → AreNetPieces n.arities machine.interface (pieces machine)
        → AreGiven n.given machine.interface (pieces machine)
        → HasNames (net_of n machine.interface (pieces machine))
        → OneNet (net_of n machine.interface (pieces machine))
        (configuration_read n r.tokens.items r.terms)) }
    ensures heads { IfOk result (λ r. (n : Numbers) → n.arities ≡ machine.arities
        → AreNetPieces n.arities machine.interface (pieces machine)
        → AreGiven n.given machine.interface (pieces machine)
        → BeginAs n (machine.interface
        ++ (sides_of machine.pending ++ sides_of (reverse machine.aside)))
        (forest (flat_words n r.tokens.items))) }
    ensures circles { IfOk result (λ r. (n : Numbers) → n.arities ≡ machine.arities → AreNumbers n
        → AreNetPieces n.arities machine.interface (pieces machine)
        → AreGiven n.given machine.interface (pieces machine)
        → AreCirclesAfter n (length machine.pending + length machine.aside)
        (configuration_read n r.tokens.items r.terms)) }
{
    ic_reaching::laws::one_net_is_an_equivalence();
    ic_reaching::laws::a_name_step_leads_to_one_net();
    ic_reaching::laws::the_order_of_equations_is_no_matter();
    ic_reaching::laws::a_piece_is_put_for_its_name();
    let mut parts = machine.into_parts();
    parts.aside.reverse();
    let written = read_parts(
        alloc,
        parts.places,
        &parts.interface,
        &parts.pending,
        &parts.aside,
    )?;
    Ok(ReadBack {
        tokens: written.tokens,
        terms: parts.interface.len(),
        equations: written.equations,
    })
}

/// The same, where the machine was taken apart. Its caller drops the parts: each `?` here would, and make the proof long.
fn read_parts(
    alloc: Global,
    places: Places,
    interface: &[Word],
    pending: &[Equation],
    aside: &[Equation],
) -> Result<Writer, AllocError>
    ensures { IfOk result (λ w. (m : AnyNet)
        → IsParted m interface.now pending.now aside.now places
        → ReadsNet m.arities m w.tokens.items w.equations) }
{
    let sides = pending.len().saturating_add(aside.len()).saturating_mul(2);
    let tokens = list_for(
        alloc,
        most_tokens(&places, interface.len().saturating_add(sides)),
    );
    let mut reader = Reader {
        places,
        stack: Vec::new(alloc),
        tokens,
        equations: 0,
    };
    reader.expand_all(interface, pending, aside)?;
    let tokens = mem::replace(&mut reader.tokens, Vec::new(alloc));
    let mut loose = Vec::new(alloc);
    reader.read_left(alloc, &mut loose)?;
    let written = write_loose(alloc, loose, tokens, reader.equations)?;
    Ok(written)
}

/// How many tokens so many terms have at most, if no circle is left: one each, and one for each argument of an agent.
fn most_tokens(places: &Places, terms: usize) -> usize {
    let mut most = terms;
    for symbol in 0..places.symbols() {
        let arity = places.arity(symbol).unwrap_or(0) as usize;
        let agents = places.agents(symbol) as usize;
        most = most.saturating_add(agents.saturating_mul(arity));
    }
    most
}

/// A list without tokens, with room for so many if there is memory for them: it isn't moved then as it grows.
fn list_for(alloc: Global, tokens: usize) -> Vec<Token>
    ensures { result.items ≡ [] }
{
    match Vec::with_capacity(alloc, tokens) {
        Ok(list) => list,
        Err(_) => Vec::new(alloc),
    }
}

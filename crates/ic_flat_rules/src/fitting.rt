//! Whether a round stays within the limits.

ghost use Rattle.std.specs.Prelude.{◌≡◌, false, Err, IsTrue};
ghost use Rattle.ic_term.specs.Symbol.{is_over};
ghost use Rattle.ic_round.specs.Firing.{fired};
ghost use Rattle.ic_round.specs.Rounds.{fits, unless_unfit};
ghost use Rattle.ic_flat_rules.specs.Standing.{IsEquationsPlace};

use crate::growth::fired_size;
use crate::places::equations_place;
use ic_flat::Flat;
use ic_round::RoundFault;
use ic_rules::RuleSet;
use ic_term::{MAX_NEXT, MAX_NODES};

/// Whether the configuration stays within the limits when all its active equations fire.
pub fn fits(rules: &RuleSet, flat: &Flat) -> bool
    requires { IsTrue (is_over rules.now.symbols flat.now) }
    ensures { result ≡ fits rules.now.rules flat.now }
{
    fits_from(rules, flat, equations_place(flat))
}

/// The same, where the equations begin at this place.
pub fn fits_from(rules: &RuleSet, flat: &Flat, place: usize) -> bool
    requires over { IsTrue (is_over rules.now.symbols flat.now) }
    requires place { IsEquationsPlace flat.now place }
    ensures { result ≡ fits rules.now.rules flat.now }
{
    let size = fired_size(rules, flat, place);
    size.nodes <= MAX_NODES && size.names <= MAX_NEXT
}

/// Why a round refuses a configuration that doesn't fit, where its equations begin at this place.
pub fn refusal(rules: &RuleSet, flat: &Flat, place: usize) -> RoundFault
    requires over { IsTrue (is_over rules.now.symbols flat.now) }
    requires place { IsEquationsPlace flat.now place }
    requires unfit { fits rules.now.rules flat.now ≡ false }
    ensures { Err result ≡ unless_unfit rules.now.rules flat.now (fired rules.now.rules flat.now) }
{
    let size = fired_size(rules, flat, place);
    if size.nodes > MAX_NODES {
        RoundFault::Overgrown
    } else {
        RoundFault::NamesOut
    }
}

//! Whether no step is possible.

ghost use Rattle.std.specs.Prelude.{◌≡◌, ◌↔◌, IsTrue};
ghost use Rattle.ic_round.specs.Quiet.{is_inert, is_quiet, IsQuiet};

use crate::ended::is_settled;
use crate::growth::rule_of;
use crate::places::{equations_place, sides_at};
use ic_flat::Flat;
use ic_rules::RuleSet;

/// Whether no interaction, indirection or collect is possible. Takes n log n steps for n nodes, and
/// no memory but on the stack (`is_settled`).
pub fn quiet(rules: &RuleSet, flat: &Flat) -> bool
    ensures test { result ≡ is_quiet rules.now.rules flat.now }
    ensures no_step { IsTrue result ↔ IsQuiet rules.now.rules flat.now }
{
    is_inert(rules, flat) && is_settled(flat)
}

/// Whether no equation is active.
fn is_inert(rules: &RuleSet, flat: &Flat) -> bool
    ensures { result ≡ is_inert rules.now.rules flat.now }
{
    let words = flat.words();
    let mut place = equations_place(flat);
    while place < words.len() {
        let sides = sides_at(words, place);
        if rule_of(rules, words, sides).is_some() {
            return false;
        }
        place = sides.end;
    }
    true
}

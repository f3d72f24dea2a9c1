//! How many equations are active.

ghost use Rattle.std.specs.Prelude.{◌≡◌, count_by, is_some};
ghost use Rattle.ic_round.specs.Firing.{rule_of_sides};

use ic_flat::Flat;
use ic_flat_rules::{equations_place, rule_of, sides_at};
use ic_rules::RuleSet;

/// How many equations are active. Takes time linear in the nodes, and no memory.
pub fn active_equations(rules: &RuleSet, flat: &Flat) -> u64
    ensures { result
        ≡ count_by (λ e. is_some (rule_of_sides rules.now.rules e.left e.right)) flat.now.equations }
{
    let words = flat.words();
    let mut place = equations_place(flat);
    let mut count = 0u64;
    while place < words.len() {
        let sides = sides_at(words, place);
        if rule_of(rules, words, sides).is_some() {
            count += 1;
        }
        place = sides.end;
    }
    count
}

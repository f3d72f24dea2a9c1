//! Whether two configurations are the same.

ghost use Rattle.std.specs.Prelude.{◌≡◌};
ghost use Rattle.std.specs.Cmp.Lexicographic.{pointwise};
ghost use Rattle.ic_flat.specs.Words.{word_eq};

use crate::flat::Flat;
use crate::word::Word;

impl PartialEq for Flat {
    ghost use Rattle.std.specs.Cmp.{partial_equiv_from_equiv};
    ghost use Rattle.ic_term.specs.lemmas.ConfigurationEq.{configuration_eq-equivalence};
    ghost use Rattle.ic_term.specs.Configuration.{configuration_eq};

    ghost eq = { configuration_eq };

    ghost laws = { partial_equiv_from_equiv configuration_eq-equivalence };

    fn eq(&self, other: &Flat) -> bool {
        self.next() == other.next()
            && self.interface_len() == other.interface_len()
            && are_same(self.words(), other.words())
    }
}

impl Eq for Flat {
    ghost use Rattle.ic_term.specs.lemmas.ConfigurationEq.{configuration_eq-equivalence};

    ghost laws = { configuration_eq-equivalence };
}

/// Whether words are the same, one after the other. It takes two thirds of the instructions that slices take.
fn are_same(left: &[Word], right: &[Word]) -> bool
    ensures { result ≡ pointwise word_eq left.now right.now }
{
    if left.len() != right.len() {
        return false;
    }
    for i in 0..left.len() {
        if left[i] != right[i] {
            return false;
        }
    }
    true
}

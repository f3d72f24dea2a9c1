//! Whether two configurations are the same.

ghost use Rattle.std.specs.Prelude.{◌≡◌, map};
ghost use Rattle.std.specs.Cmp.Lexicographic.{pointwise};
ghost use Rattle.ic_term.specs.Tree.{pair_eq};
ghost use Rattle.ic_term.specs.Term.{pair};

use crate::config::Config;
use crate::term::Equation;
use crate::terms::same_terms;

impl PartialEq for Config {
    ghost use Rattle.std.specs.Cmp.{partial_equiv_from_equiv};
    ghost use Rattle.ic_term.specs.lemmas.ConfigurationEq.{configuration_eq-equivalence};
    ghost use Rattle.ic_term.specs.Configuration.{configuration_eq};

    ghost eq = { configuration_eq };

    ghost laws = { partial_equiv_from_equiv configuration_eq-equivalence };

    fn eq(&self, other: &Config) -> bool {
        self.next() == other.next()
            && same_terms(self.interface(), other.interface())
            && same_equations(self.equations(), other.equations())
    }
}

impl Eq for Config {
    ghost use Rattle.ic_term.specs.lemmas.ConfigurationEq.{configuration_eq-equivalence};

    ghost laws = { configuration_eq-equivalence };
}

fn same_equations(left: &[Equation], right: &[Equation]) -> bool
    ensures { result ≡ pointwise pair_eq (map pair left.now) (map pair right.now) }
{
    left == right
}

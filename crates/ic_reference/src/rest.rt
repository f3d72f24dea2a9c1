//! What is left of a configuration whose active equations were taken out.

use ic_term::{Equation, Term};
use std::marker::Model;

/// A configuration with a gap in the place of each equation that fires.
#[derive(Drop)]
pub struct Rest {
    interface: Vec<Term>,
    equations: Vec<Option<Equation>>,
    next: u64,
}

impl Model for Rest {
    ghost use Rattle.std.specs.Prelude.{map, option_map};
    ghost use Rattle.ic_term.specs.Term.{tree, pair};
    ghost use Rattle.ic_round.specs.Gathering.{Gapped, coded_gapped};

    ghost Value = { Gapped };

    ghost coded = { coded_gapped };

    ghost view = { λ r. record {
      interface = map tree r.interface.items;
      equations = map (option_map pair) r.equations.items;
      next = r.next;
    } };
}

impl Rest {
    ghost use Rattle.std.specs.Prelude.{◌≡◌, map, option_map};
    ghost use Rattle.ic_term.specs.Term.{tree, pair};

    /// A rest of these parts, as a decoder makes it.
    pub fn new(interface: Vec<Term>, equations: Vec<Option<Equation>>, next: u64) -> Rest
        ensures { result ≡ record {
          interface = map tree interface.items;
          equations = map (option_map pair) equations.items;
          next = next;
        } }
    {
        Rest {
            interface,
            equations,
            next,
        }
    }

    pub(crate) fn into_parts(self) -> (Vec<Term>, Vec<Option<Equation>>, u64)
        ensures interface { map tree result.0.items ≡ self.interface }
        ensures equations { map (option_map pair) result.1.items ≡ self.equations }
        ensures next { result.2 ≡ self.next }
    {
        (self.interface, self.equations, self.next)
    }
}

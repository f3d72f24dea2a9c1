//! Laws of plans.

ghost use Rattle.std.specs.Prelude.{◌≡◌, ◌++◌, ℕ, List, map, take};
ghost use Rattle.ic_machine.specs.declared.equation.Equation.{Equation};
ghost use Rattle.ic_machine.specs.Generations.{IsWithin};
ghost use Rattle.ic_machine.specs.Net.{Net};
ghost use Rattle.ic_machine.specs.Plan.{Planned, Plans, IsPlan};
ghost use Rattle.ic_machine.specs.Runs.{Starts, equation_at, first_registers};
ghost use Rattle.ic_meaning.specs.First.{LinksPairsFirst};

/// A machine that begins with a plan whose links of two agents come first has their pairs pending
/// first. So these are a generation.
pub fn the_first_pairs_are_pending_first()
    ensures pending { (given : ℕ) (p : Plans) (plan : Planned) (operands : List ℕ) (n : Net)
        (pairs : ℕ) → IsPlan p.arities given plan → LinksPairsFirst p.arities given plan pairs
        → (starts : Starts p given plan operands n)
        → (more : List Equation) × (n.pending
        ≡ map (equation_at (first_registers p.arities given starts.begins.names
        starts.begins.made)) (take pairs plan.links) ++ more) }
    ensures within { (given : ℕ) (p : Plans) (plan : Planned) (operands : List ℕ) (n : Net)
        (pairs : ℕ) → IsPlan p.arities given plan → LinksPairsFirst p.arities given plan pairs
        → Starts p given plan operands n
        → IsWithin (record { end = pairs }) n.pending }
{}

//! Laws of settling.

ghost use Rattle.std.specs.Prelude.{◌≡◌, ◌↔◌, ◌+◌, ◌∷◌, [], None, Some, length};
ghost use Rattle.std.specs.List.{AllByRecursion};
ghost use Rattle.ic_term.specs.Configuration.{Configuration};
ghost use Rattle.ic_settle.specs.NameSteps.{NameStep, NameSteps};
ghost use Rattle.ic_settle.specs.Settling.{Choice, settling_step, first_choice, applied, settled};
ghost use Rattle.ic_settle.specs.Bindings.{replaced, bound_names, IsSideIn, ReplacesFirst};

/// Nothing is replaced exactly where no step is possible. Each step replaces its name, in the order
/// of the steps, and removes one equation. The first takes the other side of its equation, and the
/// others are those of the settling after it, where its term is put for its name. Each term is a
/// side of an equation as it is given.
pub fn each_step_replaces_its_name()
    ensures none { (c : Configuration) → (replaced c ≡ []) ↔ (settling_step c ≡ None) }
    ensures names { (c : Configuration) (choice : Choice)
        → first_choice c.interface [] c.equations ≡ Some choice
        → bound_names (replaced c)
        ≡ choice.bound.name ∷ bound_names (replaced (applied c choice)) }
    ensures terms { (c : Configuration) (choice : Choice)
        → first_choice c.interface [] c.equations ≡ Some choice → ReplacesFirst c choice }
    ensures given { (c : Configuration)
        → AllByRecursion (λ b. IsSideIn c.equations b.term) (replaced c) }
    ensures count { (c : Configuration)
        → length (replaced c) + length (settled c).equations ≡ length c.equations }
{}

/// A settled configuration is reached by name steps (indirection and collect), and none is possible
/// in it.
pub fn settling_goes_on_to_its_end()
    ensures reached { (c : Configuration) → NameSteps c (settled c) }
    ensures ended { (c d : Configuration) → ¬ NameStep (settled c) d }
{}

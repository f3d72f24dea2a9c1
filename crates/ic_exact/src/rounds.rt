//! What results of works come to, and steps that lead too far.

ghost use Rattle.std.specs.Prelude.{◌≡◌, ℕ, List, false, Ok};
ghost use Rattle.ic_term.specs.Configuration.{Configuration, IsConfiguration};
ghost use Rattle.ic_rules.specs.Rule.{Rule};
ghost use Rattle.ic_round.specs.Completing.{Completes};
ghost use Rattle.ic_round.specs.Gathering.{Gapped, gathered};
ghost use Rattle.ic_round.specs.Rounds.{round, unless_unfit};
ghost use Rattle.ic_round.specs.Steps.{Step};
ghost use Rattle.ic_round.specs.Works.{PlainFired};
ghost use Rattle.ic_settle.specs.Settling.{settled};
ghost use Rattle.ic_reference.specs.SingleSteps.{is_within};
ghost use Rattle.ic_reference.specs.StepAnswers.{Outgrows};

/// Results that complete a plan fill its gaps in one way, whatever their order. What comes of it is a configuration which,
/// settled, is the round, and that is answered.
pub fn a_plan_is_completed_in_one_way()
    ensures same { (rs : List Rule) (c : Configuration) (rest : Gapped) (fs gs : List PlainFired)
        → Completes rs c rest fs → Completes rs c rest gs → gathered rest fs ≡ gathered rest gs }
    ensures answered { (rs : List Rule) (c : Configuration) (rest : Gapped) (fs : List PlainFired)
        → Completes rs c rest fs → (d : Configuration) × (gathered rest fs ≡ Ok d)
        × IsConfiguration d × (settled d ≡ round rs c)
        × (unless_unfit rs c (round rs c) ≡ Ok (settled d)) }
{}

/// A step that is refused for its size leads to a configuration that passes a limit.
pub fn a_step_that_is_refused_leads_too_far()
    ensures { (rs : List Rule) (c : Configuration) (place : ℕ) → Outgrows rs c place
        → (d : Configuration) × Step rs c d × (is_within d ≡ false) }
{}

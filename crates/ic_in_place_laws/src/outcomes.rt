//! Laws of what an outcome tells of the system that was read.

ghost use Rattle.std.specs.Prelude.{◌≡◌, ◌≢◌, ℕ, ◌+◌, ◌^◌, ◌<◌, List, [], true, false, Option, None, SomeIff, length};
ghost use Rattle.std.specs.Arc.{arc_value};
ghost use Rattle.std.specs.Option.{option_map};
ghost use Rattle.ic_term.specs.Configuration.{Configuration};
ghost use Rattle.ic_rules.specs.System.{SystemParts};
ghost use Rattle.ic_round.specs.Quiet.{IsQuiet};
ghost use Rattle.ic_confluence.specs.Kinds.{Kind, Chain};
ghost use Rattle.ic_reaching.specs.OneNet.{OneNet, SameButNext};
ghost use Rattle.ic_reaching.specs.Reaching.{Reaches, rules_fired};
ghost use Rattle.ic_naming.specs.Naming.{renumbered};
ghost use Rattle.ic_streams.specs.Streams.{line_of};
ghost use Rattle.ic_streams.specs.Stuck.{stuck_text};
ghost use Rattle.ic_in_place.specs.declared.running.Bounds.{Bounds};
ghost use Rattle.ic_in_place.specs.declared.running.End.TheVariants.{Quiet, Steps};
ghost use Rattle.ic_in_place.specs.declared.stream.Asked.{Asked};
ghost use Rattle.ic_in_place.specs.declared.stream.Outcome.{Outcome};
ghost use Rattle.ic_in_place.specs.Counting.{name_steps};
ghost use Rattle.ic_in_place.specs.Reducing.{IsPutTogether};
ghost use Rattle.ic_in_place.specs.Reductions.{EndsOf, is_written};

/// At a quiet end the net, its interactions and its name steps are those of every order, and the stuck pair is the net's first.
pub fn a_quiet_outcome_is_that_of_every_order()
    ensures net { (s : SystemParts) (bounds : Bounds) (asked : Asked) (outcome : Outcome)
        (line : List ℕ) (e : Configuration) (kinds : List Kind)
        → (is : EndsOf s bounds asked outcome line) → outcome.end ≡ Quiet
        → Chain s.rules.rules kinds s.config e → IsQuiet s.rules.rules e
        → OneNet is.answer e × (length (rules_fired kinds) ≡ outcome.interactions) }
    ensures name_steps { (s : SystemParts) (bounds : Bounds) (asked : Asked) (outcome : Outcome)
        (line : List ℕ) (e : Configuration) (kinds : List Kind)
        → (is : EndsOf s bounds asked outcome line) → outcome.end ≡ Quiet
        → Chain s.rules.rules kinds s.config e → IsQuiet s.rules.rules e
        → SomeIff outcome.name_steps (name_steps kinds + outcome.interactions
        + length is.answer.equations < 2 ^ 64) (name_steps kinds) }
    ensures stuck { (s : SystemParts) (bounds : Bounds) (asked : Asked) (outcome : Outcome)
        (line : List ℕ) → (is : EndsOf s bounds asked outcome line) → outcome.end ≡ Quiet
        → option_map (λ text. text.items) outcome.stuck
        ≡ stuck_text s.rules.symbols (renumbered is.answer) }
{
    ic_in_place::laws::a_quiet_end_is_that_of_every_order();
    ic_in_place::laws::name_steps_are_those_of_every_order();
}

/// At any end the line is of a configuration that as many interactions reach as are told. Where it is written, no name of that
/// is left to replace; else there is no line. The rules are those of the system. At other ends than a quiet one, neither name
/// steps nor a stuck pair are told. That is so by however many threads.
pub fn an_outcome_says_what_was_reached()
    ensures reached { (s : SystemParts) (bounds : Bounds) (asked : Asked) (outcome : Outcome)
        (line : List ℕ) → (is : EndsOf s bounds asked outcome line)
        → (fired : List ℕ) × Reaches s.rules.rules s.config is.answer fired
        × (length fired ≡ outcome.interactions) }
    ensures written { (s : SystemParts) (bounds : Bounds) (asked : Asked) (outcome : Outcome)
        (line : List ℕ) → (is : EndsOf s bounds asked outcome line)
        → is_written asked outcome.end ≡ true → IsPutTogether is.answer
        × (line ≡ line_of s.rules.symbols (renumbered is.answer)) }
    ensures unwritten { (s : SystemParts) (bounds : Bounds) (asked : Asked) (outcome : Outcome)
        (line : List ℕ) → EndsOf s bounds asked outcome line
        → is_written asked outcome.end ≡ false → line ≡ [] }
    ensures rules { (s : SystemParts) (bounds : Bounds) (asked : Asked) (outcome : Outcome)
        (line : List ℕ) → EndsOf s bounds asked outcome line → arc_value outcome.rules ≡ s.rules }
    ensures neither { (s : SystemParts) (bounds : Bounds) (asked : Asked) (outcome : Outcome)
        (line : List ℕ) → EndsOf s bounds asked outcome line → outcome.end ≢ Quiet
        → (outcome.name_steps ≡ None)
        × (option_map (λ text. text.items) outcome.stuck ≡ None) }
{}

/// Where some order ends quiet by at most as many interactions as may be made, that bound ends no reduction: at `Steps` each
/// order that ends quiet takes more. That is so by however many threads.
pub fn an_order_within_the_bound_is_not_cut()
    ensures { (s : SystemParts) (bounds : Bounds) (asked : Asked) (outcome : Outcome)
        (line : List ℕ) (e : Configuration) (kinds : List Kind)
        → EndsOf s bounds asked outcome line → outcome.end ≡ Steps
        → Chain s.rules.rules kinds s.config e → IsQuiet s.rules.rules e
        → bounds.steps < length (rules_fired kinds) }
{
    ic_in_place::laws::what_a_stop_says();
    ic_confluence::laws::every_order_ends_in_the_same_net();
}

/// A reduction may be cut and gone on with, by however many threads each time. What is reached from an answer, or from what is
/// one net with it, is reached from the beginning, and the interactions add up. Where it ends quiet, it is the net of every
/// order, wherever fresh names begin.
pub fn a_reduction_that_was_cut_is_told_of()
    ensures reached { (s t : SystemParts) (bounds more : Bounds) (asked then : Asked)
        (cut last : Outcome) (line after : List ℕ) → (first : EndsOf s bounds asked cut line)
        → t.rules ≡ s.rules → OneNet first.answer t.config
        → (second : EndsOf t more then last after)
        → (fired : List ℕ) × Reaches s.rules.rules s.config second.answer fired
        × (length fired ≡ cut.interactions + last.interactions) }
    ensures every_order { (s t : SystemParts) (bounds more : Bounds) (asked then : Asked)
        (cut last : Outcome) (line after : List ℕ) (e : Configuration) (kinds : List Kind)
        → (first : EndsOf s bounds asked cut line)
        → t.rules ≡ s.rules → OneNet first.answer t.config
        → (second : EndsOf t more then last after) → last.end ≡ Quiet
        → Chain s.rules.rules kinds s.config e → IsQuiet s.rules.rules e
        → SameButNext second.answer e
        × (length (rules_fired kinds) ≡ cut.interactions + last.interactions) }
{
    ic_reaching::laws::what_is_reached_is_one_net();
    ic_reaching::laws::what_is_reached_goes_on();
    ic_reaching::laws::what_is_reached_quiet_is_the_end_of_every_order();
}

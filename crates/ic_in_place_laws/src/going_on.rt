//! Laws of where rounds end, and of rounds that are cut between two of them and gone on with.

ghost use Rattle.std.specs.Prelude.{◌≡◌, ◌≢◌, ◌⊎◌, ◌↔◌, ℕ, ◌+◌, ◌^◌, ◌<◌, ◌≤◌, List, None, Ok, IsPermutation, IsTrue, SomeIff, length};
ghost use Rattle.ic_term.specs.Configuration.{Configuration};
ghost use Rattle.ic_term.specs.Symbol.{is_over};
ghost use Rattle.ic_rules.specs.RuleSet.{IsRuleSet, Rules};
ghost use Rattle.ic_rules.specs.System.{SystemParts};
ghost use Rattle.ic_round.specs.ActivePlaces.{active};
ghost use Rattle.ic_round.specs.Naming.{HasNames};
ghost use Rattle.ic_round.specs.Quiet.{IsQuiet};
ghost use Rattle.ic_round.specs.Rounds.{iterate};
ghost use Rattle.ic_confluence.specs.Kinds.{Kind, Chain};
ghost use Rattle.ic_generations.specs.Firings.{rules_of};
ghost use Rattle.ic_reaching.specs.OneNet.{SameButNext};
ghost use Rattle.ic_streams.specs.Streams.{line_of};
ghost use Rattle.ic_text.specs.SystemText.{ReadsSystemWithin};
ghost use Rattle.ic_text.specs.declared.limits.Limits.{Limits};
ghost use Rattle.ic_in_place.specs.declared.reducing.Reduced.{Reduced};
ghost use Rattle.ic_in_place.specs.declared.rounded.Rounded.{Rounded};
ghost use Rattle.ic_in_place.specs.declared.running.End.TheVariants.{Quiet, Steps};
ghost use Rattle.ic_in_place.specs.declared.stream.Asked.{Asked};
ghost use Rattle.ic_in_place.specs.declared.stream.Asked.TheVariants.{Nothing};
ghost use Rattle.ic_in_place.specs.Counting.{name_steps, rules_in};
ghost use Rattle.ic_in_place.specs.Rounds.{EndsByRounds, IsRoundedTo};

/// Rounds that end as enough interactions are made make few more. All that were made are those of so many rounds, fewer than are
/// enough, and no more than one round fires after these.
pub fn rounds_end_soon_after_enough()
    ensures { (s : SystemParts) (most enough rounds : ℕ) (reduced : Reduced)
        → IsRoundedTo s most enough rounds reduced → 1 ≤ enough → (n : ℕ) × (n ≤ rounds)
        × (length (rules_in s.rules.rules n s.config) < enough)
        × (reduced.interactions ≤ length (rules_in s.rules.rules n s.config)
        + length (active s.rules.rules (iterate s.rules.rules n s.config))) }
{}

/// Rounds end at `Steps` no sooner than that: as many are over as may be made, or enough pairs have fired in those that are.
pub fn rounds_end_no_sooner()
    ensures { (s : SystemParts) (most enough rounds : ℕ) (reduced : Reduced)
        → IsRoundedTo s most enough rounds reduced → reduced.end ≡ Steps → (rounds ≡ most)
        ⊎ (enough ≤ length (rules_in s.rules.rules rounds s.config)) }
{}

/// Of rounds that end quiet as many steps are told that put a term for a name as every order has, unless these are too many. At
/// another end none are told.
pub fn rounds_tell_the_name_steps_of_every_order()
    ensures quiet { (s : SystemParts) (most enough rounds : ℕ) (reduced : Reduced)
        (e : Configuration) (kinds : List Kind) → IsRuleSet s.rules
        → IsTrue (is_over s.rules.symbols s.config) → HasNames s.config
        → (is : IsRoundedTo s most enough rounds reduced) → reduced.end ≡ Quiet
        → Chain s.rules.rules kinds s.config e → IsQuiet s.rules.rules e
        → SomeIff reduced.name_steps (name_steps kinds + reduced.interactions
        + length is.answer.equations < 2 ^ 64) (name_steps kinds) }
    ensures other { (s : SystemParts) (most enough rounds : ℕ) (reduced : Reduced)
        → IsRoundedTo s most enough rounds reduced → reduced.end ≢ Quiet
        → reduced.name_steps ≡ None }
{
    ic_in_place::laws::name_steps_are_those_of_every_order();
}

/// Rounds may be cut as one is over, and gone on with from a configuration that is the same net, wherever fresh names begin. Its
/// rounds make the nets of the later rounds, by as many pairs of each rule. The line of a text after one round or more is that of
/// such a configuration.
pub fn rounds_go_on_between_two()
    ensures net { (rs : Rules) (n m : ℕ) (c d : Configuration) → IsRuleSet rs
        → IsTrue (is_over rs.symbols c) → HasNames c → HasNames d
        → SameButNext (iterate rs.rules n c) d
        → SameButNext (iterate rs.rules (m + n) c) (iterate rs.rules m d) }
    ensures rules { (rs : Rules) (n m : ℕ) (c d : Configuration) → IsRuleSet rs
        → IsTrue (is_over rs.symbols c) → HasNames c → HasNames d
        → SameButNext (iterate rs.rules n c) d
        → IsPermutation (rules_of rs.rules (iterate rs.rules (m + n) c).equations)
        (rules_of rs.rules (iterate rs.rules m d).equations) }
    ensures pairs { (rs : Rules) (n m : ℕ) (c d : Configuration) → IsRuleSet rs
        → IsTrue (is_over rs.symbols c) → HasNames c → HasNames d
        → SameButNext (iterate rs.rules n c) d
        → length (active rs.rules (iterate rs.rules m d))
        ≡ length (active rs.rules (iterate rs.rules (m + n) c)) }
    ensures line { (limits : Limits) (most : ℕ) (asked : Asked) (input line : List ℕ)
        (reached : Rounded) (s : SystemParts) (m : ℕ)
        → EndsByRounds limits most asked input reached line
        → (reached.outcome.end ≡ Quiet) ⊎ (reached.outcome.end ≡ Steps) → asked ≢ Nothing
        → ReadsSystemWithin limits input (Ok s) → 1 ≤ reached.rounds
        → (written : Configuration) × (line ≡ line_of s.rules.symbols written)
        × HasNames written × SameButNext
        (iterate s.rules.rules (m + reached.rounds) s.config)
        (iterate s.rules.rules m written) }
{
    ic_text::laws::one_system_reading();
    ic_round::laws::chains_are_steps();
    ic_round::laws::rounds_are_steps();
    ic_confluence::laws::same_nets_take_the_same_name_steps();
    ic_generations::laws::where_names_begin_is_no_matter_to_rounds();
    ic_in_place::laws::a_line_by_rounds_is_the_net_after_them();
}

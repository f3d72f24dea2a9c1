//! Laws of the meaning of the machine.

ghost use Rattle.std.specs.Prelude.{◌≡◌, ◌↔◌, ℕ, ◌+◌, ◌<◌, ◌++◌, List, [], ◌∷◌, Some, IsPermutation, IsTrue, length, map, slice_get};
ghost use Rattle.std.specs.List.{AllByRecursion};
ghost use Rattle.ic_term.specs.Configuration.{Configuration, configuration_names, occurrences};
ghost use Rattle.ic_term.specs.Symbol.{is_over};
ghost use Rattle.ic_rules.specs.RuleSet.{Rules, IsRuleSet};
ghost use Rattle.ic_round.specs.Naming.{HasNames};
ghost use Rattle.ic_settle.specs.NameSteps.{NameStep};
ghost use Rattle.ic_round.specs.Quiet.{IsQuiet};
ghost use Rattle.ic_round.specs.Rounds.{round, iterate};
ghost use Rattle.ic_reaching.specs.OneNet.{OneNet};
ghost use Rattle.ic_reaching.specs.Reaching.{Reaches};
ghost use Rattle.ic_arena.specs.declared.word.Word.{Word};
ghost use Rattle.ic_arena.specs.declared.word.TheConstants.{GIVEN};
ghost use Rattle.ic_arena.specs.Piece.{Piece};
ghost use Rattle.ic_machine.specs.Plan.{Planned, Plans, ArePlans, IsPlan};
ghost use Rattle.ic_machine.specs.Runs.{Begins, Starts};
ghost use Rattle.ic_machine.specs.Separate.{IsSeparate};
ghost use Rattle.ic_machine.specs.Steps.{Turns, Puts, Meets, Joins, Fires, Step, Steps};
ghost use Rattle.ic_meaning.specs.Words.{Numbers, AreNumbers};
ghost use Rattle.ic_meaning.specs.Nets.{net_of, ArePieces, AreNetPieces, IsStuckPiece};
ghost use Rattle.ic_meaning.specs.Plans.{ArePlansOf, StandsFor, StandsForNet, rule_number};
ghost use Rattle.ic_machine.specs.declared.equation.Equation.{Equation};
ghost use Rattle.ic_machine.specs.Net.{Net, equated_of, equations_left, pieces, IsAtPlace, IsPair};
ghost use Rattle.ic_meaning.specs.Circles.{circles};
ghost use Rattle.ic_generations.specs.Firings.{rules_of};
ghost use Rattle.ic_machine.specs.Generations.{Takes};
ghost use Rattle.ic_machine.specs.declared.generation.Generation.{Generation};
ghost use Rattle.ic_meaning.specs.Generations.{KeepsNet, FireAsRounds};
ghost use Rattle.ic_meaning.specs.First.{LinksPairsFirst};
ghost use Rattle.ic_meaning.specs.InPlace.{AreRounds};
ghost use Rattle.ic_meaning.specs.Example.{addition_arities, addition_plan, addition_rule};

/// The order of pieces doesn't matter to the net that they are, and steps that fire nothing keep it.
pub fn steps_that_fire_nothing_keep_the_net()
    ensures order { (n : Numbers) (i : List Word) (xs ys : List Piece) → HasNames (net_of n i xs)
        → IsPermutation xs ys → OneNet (net_of n i xs) (net_of n i ys) }
    ensures turns { (n : Numbers) (i : List Word) (xs ys : List Piece) → HasNames (net_of n i xs)
        → Turns xs ys → OneNet (net_of n i xs) (net_of n i ys) }
    ensures puts { (n : Numbers) (i : List Word) (xs ys : List Piece) → HasNames (net_of n i xs)
        → ArePieces n.arities xs → Puts xs ys → OneNet (net_of n i xs) (net_of n i ys) }
    ensures meets { (n : Numbers) (i : List Word) (xs ys : List Piece) → HasNames (net_of n i xs)
        → ArePieces n.arities xs → Meets xs ys → OneNet (net_of n i xs) (net_of n i ys) }
    ensures joins { (n : Numbers) (i : List Word) (xs ys : List Piece) → HasNames (net_of n i xs)
        → ArePieces n.arities xs → Joins xs ys → OneNet (net_of n i xs) (net_of n i ys) }
    ensures linked { (p : Plans) (n : Numbers) (i : List Word) (xs ys : List Piece)
        → HasNames (net_of n i xs) → ArePieces n.arities xs → Steps p [] xs ys
        → OneNet (net_of n i xs) (net_of n i ys) }
{
    ic_reaching::laws::one_net_is_an_equivalence();
    ic_reaching::laws::a_name_step_leads_to_one_net();
    ic_reaching::laws::the_order_of_equations_is_no_matter();
    ic_reaching::laws::a_piece_is_put_for_its_name();
    ic_reaching::laws::pieces_are_put_in_turn();
}

/// Where a pair fires by a plan of a rule set, the net that is reached fires by the rule of that
/// plan.
pub fn a_plan_fires_as_its_rule()
    ensures { (rs : Rules) (numbers : List ℕ) (p : Plans) (n : Numbers) (c : Configuration)
        (i : List Word) (xs ys : List Piece) (before : List ℕ) (place : ℕ)
        → IsRuleSet rs → IsTrue (is_over rs.symbols c) → HasNames c
        → ArePlans p → ArePlansOf rs numbers p → AreNumbers n → n.arities ≡ p.arities
        → AreNetPieces n.arities i xs → Reaches rs.rules c (net_of n i xs) before
        → Fires p place xs ys
        → (number : ℕ) × (slice_get numbers place ≡ Some number)
        × Reaches rs.rules c (net_of n i ys) (before ++ number ∷ []) }
{
    ic_reaching::laws::one_net_is_an_equivalence();
    ic_reaching::laws::a_name_step_leads_to_one_net();
    ic_reaching::laws::the_order_of_equations_is_no_matter();
    ic_reaching::laws::a_piece_is_put_for_its_name();
    ic_reaching::laws::pieces_are_put_in_turn();
    ic_reaching::laws::what_is_reached_is_one_net();
    ic_reaching::laws::what_is_reached_goes_on();
}

/// What steps of pieces lead to is reached, by interactions of the rules of the plans that fired.
/// And pieces keep what they are to keep.
pub fn steps_of_pieces_are_steps_of_the_net()
    ensures reached { (rs : Rules) (numbers : List ℕ) (p : Plans) (n : Numbers) (c : Configuration)
        (i : List Word) (fired : List ℕ) (xs ys : List Piece) (before : List ℕ)
        → IsRuleSet rs → IsTrue (is_over rs.symbols c) → HasNames c
        → ArePlans p → ArePlansOf rs numbers p → AreNumbers n → n.arities ≡ p.arities
        → AreNetPieces n.arities i xs → Reaches rs.rules c (net_of n i xs) before
        → Steps p fired xs ys
        → Reaches rs.rules c (net_of n i ys) (before ++ map (rule_number numbers) fired) }
    ensures kept { (p : Plans) (i : List Word) (fired : List ℕ) (xs ys : List Piece) → ArePlans p
        → AreNetPieces p.arities i xs → Steps p fired xs ys → AreNetPieces p.arities i ys }
{
    ic_reaching::laws::one_net_is_an_equivalence();
    ic_reaching::laws::a_name_step_leads_to_one_net();
    ic_reaching::laws::the_order_of_equations_is_no_matter();
    ic_reaching::laws::a_piece_is_put_for_its_name();
    ic_reaching::laws::pieces_are_put_in_turn();
    ic_reaching::laws::what_is_reached_is_one_net();
    ic_reaching::laws::what_is_reached_goes_on();
}

/// What a machine begins with, by a plan that stands for a configuration, is the net of that, for
/// some numbers of places.
pub fn a_machine_begins_with_its_configuration()
    ensures net { (arities given : List ℕ) (c : Configuration) (p : Planned) (operands : List ℕ)
        (interface : List Word) (ps : List Piece) → length arities < GIVEN → HasNames c
        → IsPlan arities (length given) p → StandsForNet arities given c p operands
        → Begins arities (length given) p operands interface ps
        → (n : Numbers) × (n.arities ≡ arities) × (n.given ≡ given) × AreNumbers n
        × OneNet c (net_of n interface ps) }
    ensures pieces { (arities : List ℕ) (given : ℕ) (p : Planned) (operands : List ℕ)
        (interface : List Word) (ps : List Piece) → IsPlan arities given p
        → Begins arities given p operands interface ps → IsSeparate arities interface ps
        → AreNetPieces arities interface ps }
{
    ic_reaching::laws::one_net_is_an_equivalence();
    ic_reaching::laws::a_name_step_leads_to_one_net();
    ic_reaching::laws::the_order_of_equations_is_no_matter();
    ic_reaching::laws::a_piece_is_put_for_its_name();
    ic_reaching::laws::pieces_are_put_in_turn();
}

/// Where no step of a pair is possible, the net is one with a quiet one, in which terms are put for
/// the names of their places. A circle, whose places are named within it alone, stays an equation
/// of a name with a term that has it, of which no step is possible. The names that occur once are
/// to be those that were given.
pub fn where_all_pairs_are_stuck_the_net_is_quiet()
    ensures { (rs : Rules) (numbers : List ℕ) (p : Plans) (n : Numbers) (i : List Word)
        (ps : List Piece) → IsRuleSet rs → ArePlansOf rs numbers p → AreNumbers n
        → AreNetPieces n.arities i ps → HasNames (net_of n i ps)
        → AllByRecursion (IsStuckPiece p) ps
        → ((x : ℕ) → (occurrences x (configuration_names (net_of n i ps)) ≡ 1)
        ↔ ((j : ℕ) × (slice_get n.given j ≡ Some x)))
        → (e : Configuration) × OneNet (net_of n i ps) e × IsQuiet rs.rules e }
{
    ic_reaching::laws::one_net_is_an_equivalence();
    ic_reaching::laws::a_name_step_leads_to_one_net();
    ic_reaching::laws::the_order_of_equations_is_no_matter();
    ic_reaching::laws::a_piece_is_put_for_its_name();
    ic_reaching::laws::pieces_are_put_in_turn();
}

/// The equations that a machine has left are those of its net that are no circles, once terms are put for all names for which
/// they can be.
pub fn equations_left_are_all_but_circles()
    ensures { (n : Numbers) (m : Net) (d : Configuration) → AreNumbers n
        → AreNetPieces n.arities m.interface (pieces m)
        → HasNames (net_of n m.interface (pieces m))
        → ((x : ℕ) → (occurrences x (configuration_names (net_of n m.interface (pieces m))) ≡ 1)
        ↔ ((j : ℕ) × (slice_get n.given j ≡ Some x)))
        → AllByRecursion IsPair m.pending → AllByRecursion IsPair m.aside
        → AllByRecursion IsAtPlace m.places
        → OneNet (net_of n m.interface (pieces m)) d → ((f : Configuration) → ¬ NameStep d f)
        → equations_left m + circles d ≡ length d.equations }
{
    ic_reaching::laws::one_net_is_an_equivalence();
    ic_reaching::laws::a_name_step_leads_to_one_net();
    ic_reaching::laws::the_order_of_equations_is_no_matter();
    ic_reaching::laws::a_piece_is_put_for_its_name();
    ic_reaching::laws::pieces_are_put_in_turn();
}

/// What is reached has the free names that were given.
pub fn what_is_reached_has_the_same_free_names()
    ensures { (rs : Rules) (c d : Configuration) (fired : List ℕ) → IsRuleSet rs
        → IsTrue (is_over rs.symbols c) → HasNames c → Reaches rs.rules c d fired → (x : ℕ)
        → (occurrences x (configuration_names c) ≡ 1)
        ↔ (occurrences x (configuration_names d) ≡ 1) }
{
    ic_confluence::laws::steps_keep_free_names();
    ic_reaching::laws::where_names_begin_is_all_that_differs();
    ic_reaching::laws::one_net_is_an_equivalence();
    ic_reaching::laws::a_name_step_leads_to_one_net();
    ic_reaching::laws::what_is_reached_is_one_net();
    ic_reaching::laws::what_is_reached_goes_on();
}

/// A machine begins with a configuration, whose free names are those that were given, and takes
/// steps until all pairs are stuck. What it then holds is one net with a quiet configuration that
/// is reached by the rules of the plans that fired. So it is the end of every order
/// (`ic_reaching`).
pub fn a_run_that_ends_has_the_net_of_every_order()
    ensures { (rs : Rules) (numbers : List ℕ) (p : Plans) (n : Numbers) (c : Configuration)
        (i : List Word) (fired : List ℕ) (xs ys : List Piece)
        → IsRuleSet rs → IsTrue (is_over rs.symbols c) → HasNames c
        → ArePlans p → ArePlansOf rs numbers p → AreNumbers n → n.arities ≡ p.arities
        → ((x : ℕ) → (occurrences x (configuration_names c) ≡ 1)
        ↔ ((j : ℕ) × (slice_get n.given j ≡ Some x)))
        → AreNetPieces n.arities i xs → OneNet c (net_of n i xs) → Steps p fired xs ys
        → AllByRecursion (IsStuckPiece p) ys
        → (e : Configuration) × OneNet (net_of n i ys) e × IsQuiet rs.rules e
        × Reaches rs.rules c e (map (rule_number numbers) fired) }
{
    steps_of_pieces_are_steps_of_the_net();
    where_all_pairs_are_stuck_the_net_is_quiet();
    what_is_reached_has_the_same_free_names();
    ic_reaching::laws::what_is_reached_is_one_net();
}

/// An example: the plan of `S(Add(y,r))><Add(y,S(r))`, in which y is read from an argument.
pub fn the_plan_of_addition_stands_for_its_rule()
    ensures { StandsFor addition_arities addition_rule addition_plan }
{}

/// Pairs of a generation are taken one after another, beside other pieces, whose equations are
/// stuck. In the end they have made a round of what the net settles to, by as many interactions of
/// each rule.
pub fn generations_of_pairs_are_rounds()
    ensures { (rs : Rules) (numbers : List ℕ) (p : Plans) (n : Numbers) (i : List Word)
        (now : List Equation) (fired : List ℕ) (xs ys : List Piece) (d : Configuration)
        → IsRuleSet rs → ArePlans p → ArePlansOf rs numbers p → AreNumbers n
        → n.arities ≡ p.arities → KeepsNet rs n i (map equated_of now ++ xs)
        → AllByRecursion (IsStuckPiece p) xs → Takes p now [] fired xs ys
        → OneNet (net_of n i (map equated_of now ++ xs)) d
        → ((f : Configuration) → ¬ NameStep d f)
        → OneNet (round rs.rules d) (net_of n i ys)
        × IsPermutation (map (rule_number numbers) fired) (rules_of rs.rules d.equations)
        × KeepsNet rs n i ys }
{
    ic_confluence::laws::every_order_settles_to_the_same_net();
    ic_reaching::laws::where_names_begin_is_no_matter();
    ic_reaching::laws::where_names_begin_is_all_that_differs();
    ic_reaching::laws::one_net_is_an_equivalence();
    ic_reaching::laws::a_name_step_leads_to_one_net();
    ic_reaching::laws::the_order_of_equations_is_no_matter();
    ic_reaching::laws::a_piece_is_put_for_its_name();
    ic_reaching::laws::pieces_are_put_in_turn();
    ic_reaching::laws::free_names_stay();
    ic_reaching::laws::what_is_reached_is_one_net();
    ic_reaching::laws::what_is_reached_goes_on();
    ic_generations::laws::active_equations_fire_in_any_order();
    ic_generations::laws::where_names_begin_is_no_matter_to_rounds();
    ic_generations::laws::name_steps_may_wait_for_a_round();
    ic_generations::laws::a_generation_is_a_round();
}

/// A machine begins with a configuration, and takes generations of pairs one after another. The
/// first are the equations of two agents, whether the configuration is settled or not; each later
/// one is all that is pending as the one before it is over. After each of them the net is that of
/// the configuration after as many rounds, and as many pairs have fired by each rule.
pub fn rounds_in_place_are_rounds()
    ensures { (rs : Rules) (numbers given operands : List ℕ) (p : Plans) (c : Configuration)
        (plan : Planned) (pairs : ℕ) (first m : Net) (over : List (List ℕ)) (now : List ℕ)
        (g : Generation) → IsRuleSet rs → IsTrue (is_over rs.symbols c) → HasNames c
        → ArePlans p → ArePlansOf rs numbers p → length p.arities < GIVEN
        → IsPlan p.arities (length given) plan → StandsForNet p.arities given c plan operands
        → ((x : ℕ) → (occurrences x (configuration_names c) ≡ 1)
        ↔ ((j : ℕ) × (slice_get given j ≡ Some x)))
        → LinksPairsFirst p.arities (length given) plan pairs
        → Starts p (length given) plan operands first
        → IsSeparate p.arities first.interface (pieces first) → first.aside ≡ []
        → AreRounds p first pairs over now g m → g.end ≡ 0
        → (n : Numbers) × (n.arities ≡ p.arities) × (n.given ≡ given) × AreNumbers n
        × OneNet c (net_of n first.interface (pieces first))
        × KeepsNet rs n m.interface (pieces m)
        × OneNet (net_of n m.interface (pieces m)) (iterate rs.rules (length over + 1) c)
        × FireAsRounds rs.rules numbers (over ++ now ∷ []) c }
{
    ic_confluence::laws::every_order_settles_to_the_same_net();
    ic_reaching::laws::where_names_begin_is_no_matter();
    ic_reaching::laws::where_names_begin_is_all_that_differs();
    ic_reaching::laws::one_net_is_an_equivalence();
    ic_reaching::laws::a_name_step_leads_to_one_net();
    ic_reaching::laws::the_order_of_equations_is_no_matter();
    ic_reaching::laws::a_piece_is_put_for_its_name();
    ic_reaching::laws::pieces_are_put_in_turn();
    ic_reaching::laws::free_names_stay();
    ic_reaching::laws::what_is_reached_is_one_net();
    ic_reaching::laws::what_is_reached_goes_on();
    ic_generations::laws::active_equations_fire_in_any_order();
    ic_generations::laws::where_names_begin_is_no_matter_to_rounds();
    ic_generations::laws::name_steps_may_wait_for_a_round();
    ic_generations::laws::a_generation_is_a_round();
}

/// What has fired in a round that is under way is a part of what the round fires: with others, it is
/// as many pairs of each rule.
pub fn what_fires_in_a_round_is_of_it()
    ensures { (rs : Rules) (numbers given operands : List ℕ) (p : Plans) (c : Configuration)
        (plan : Planned) (pairs : ℕ) (first m : Net) (over : List (List ℕ)) (now : List ℕ)
        (g : Generation) → IsRuleSet rs → IsTrue (is_over rs.symbols c) → HasNames c
        → ArePlans p → ArePlansOf rs numbers p → length p.arities < GIVEN
        → IsPlan p.arities (length given) plan → StandsForNet p.arities given c plan operands
        → ((x : ℕ) → (occurrences x (configuration_names c) ≡ 1)
        ↔ ((j : ℕ) × (slice_get given j ≡ Some x)))
        → LinksPairsFirst p.arities (length given) plan pairs
        → Starts p (length given) plan operands first
        → IsSeparate p.arities first.interface (pieces first) → first.aside ≡ []
        → AreRounds p first pairs over now g m → AllByRecursion IsPair m.pending
        → FireAsRounds rs.rules numbers over c × ((rest : List ℕ)
        × IsPermutation (map (rule_number numbers) now ++ rest)
        (rules_of rs.rules (iterate rs.rules (length over) c).equations)) }
{
    ic_confluence::laws::every_order_settles_to_the_same_net();
    ic_reaching::laws::where_names_begin_is_no_matter();
    ic_reaching::laws::where_names_begin_is_all_that_differs();
    ic_reaching::laws::one_net_is_an_equivalence();
    ic_reaching::laws::a_name_step_leads_to_one_net();
    ic_reaching::laws::the_order_of_equations_is_no_matter();
    ic_reaching::laws::a_piece_is_put_for_its_name();
    ic_reaching::laws::pieces_are_put_in_turn();
    ic_reaching::laws::free_names_stay();
    ic_reaching::laws::what_is_reached_is_one_net();
    ic_reaching::laws::what_is_reached_goes_on();
    ic_generations::laws::active_equations_fire_in_any_order();
    ic_generations::laws::where_names_begin_is_no_matter_to_rounds();
    ic_generations::laws::name_steps_may_wait_for_a_round();
    ic_generations::laws::a_generation_is_a_round();
}

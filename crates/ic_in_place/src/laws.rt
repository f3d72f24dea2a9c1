//! Laws of what a machine holds, and of what is answered.

ghost use Rattle.std.specs.Prelude.{◌≡◌, ◌≢◌, ◌⊎◌, ℕ, ◌+◌, ◌*◌, ◌^◌, ◌<◌, ◌≤◌, List, [], ◌∷◌, Option, SomeIff, Ok, IsTrue, length, map, sum, sum_by};
ghost use Rattle.std.specs.List.{AllByRecursion};
ghost use Rattle.ic_term.specs.Configuration.{Configuration, configuration_names, configuration_nodes, occurrences};
ghost use Rattle.ic_term.specs.Symbol.{is_over};
ghost use Rattle.ic_rules.specs.RuleSet.{Rules, IsRuleSet};
ghost use Rattle.ic_naming.specs.Naming.{renumbered};
ghost use Rattle.ic_round.specs.Naming.{HasNames};
ghost use Rattle.ic_rules.specs.System.{SystemParts};
ghost use Rattle.ic_settle.specs.NameSteps.{NameStep};
ghost use Rattle.ic_text.specs.SystemText.{ReadsSystemWithin};
ghost use Rattle.ic_text.specs.declared.limits.Limits.{Limits};
ghost use Rattle.ic_text.specs.declared.limits.TheConstants.{MAX_NAME};
ghost use Rattle.ic_streams.specs.Streams.{line_of};
ghost use Rattle.ic_round.specs.Rounds.{iterate};
ghost use Rattle.ic_round.specs.Quiet.{IsQuiet};
ghost use Rattle.ic_confluence.specs.Agents.{configuration_symbols};
ghost use Rattle.ic_confluence.specs.Kinds.{Kind, Chain};
ghost use Rattle.ic_generations.specs.Figures.{amount, amount_made, amount_spent, arity_of};
ghost use Rattle.ic_reaching.specs.OneNet.{OneNet, SameButNext};
ghost use Rattle.ic_reaching.specs.Reaching.{Reaches, rules_fired};
ghost use Rattle.ic_machine.specs.Net.{Net, pieces};
ghost use Rattle.ic_machine.specs.Plan.{Planned, Plans};
ghost use Rattle.ic_machine.specs.Runs.{Ran};
ghost use Rattle.ic_meaning.specs.Nets.{net_of};
ghost use Rattle.ic_meaning.specs.First.{LinksPairsFirst};
ghost use Rattle.ic_meaning.specs.Generations.{FireAsRounds};
ghost use Rattle.ic_meaning.specs.Plans.{rule_number};
ghost use Rattle.ic_in_place.specs.declared.running.Bounds.{Bounds};
ghost use Rattle.ic_in_place.specs.declared.running.End.{End};
ghost use Rattle.ic_in_place.specs.declared.running.End.TheVariants.{Quiet, Steps, Nodes, Limit};
ghost use Rattle.ic_in_place.specs.declared.stream.Asked.{Asked};
ghost use Rattle.ic_in_place.specs.declared.stream.Asked.TheVariants.{Nothing};
ghost use Rattle.ic_in_place.specs.declared.stream.Outcome.{Outcome};
ghost use Rattle.ic_in_place.specs.Amounts.{all_made, all_spent, by_counts};
ghost use Rattle.ic_in_place.specs.Counting.{AreCounts, AreNameSteps, AreOfRounds, TellsNameSteps, arguments_at, name_steps};
ghost use Rattle.ic_in_place.specs.Reducing.{IsPutTogether, IsReached};
ghost use Rattle.ic_in_place.specs.Reductions.{EndsAs};
ghost use Rattle.ic_in_place.specs.Holding.{AreCompiled, HasRun, Holds, HasEnded, IsNetOf};
ghost use Rattle.ic_in_place.specs.Running.{RunsOn};
ghost use Rattle.ic_in_place.specs.Rounds.{EndsAfter, EndsByRounds};
ghost use Rattle.ic_in_place.specs.Told.{figures_by, figures_of};
ghost use Rattle.ic_in_place.specs.declared.rounded.Rounded.{Rounded};
ghost use Rattle.ic_in_place.specs.Stopping.{IsBegun, StopsBy};

/// Runs go on: what a run leads to, and what a run from there leads to.
pub fn runs_go_on()
    ensures { (p : Plans) (a b c : Net) → Ran p a b → Ran p b c → Ran p a c }
{}

/// What a machine holds is reached from the configuration that it began with, by the rules of the plans that fired. Where no
/// pair is left, it is one net with a quiet configuration.
pub fn what_a_machine_holds_is_reached()
    ensures reached { (rs : Rules) (numbers : List ℕ) (p : Plans) (c : Configuration)
        (given : List ℕ) (plan : Planned) (operands : List ℕ) (m : Net)
        → IsRuleSet rs → IsTrue (is_over rs.symbols c) → HasNames c
        → AreCompiled rs numbers p c given plan operands
        → (run : HasRun p (length given) plan operands m)
        → Holds rs p c given (map (rule_number numbers) run.ran.fired) m }
    ensures ends { (rs : Rules) (numbers : List ℕ) (p : Plans) (c : Configuration)
        (given fired : List ℕ) (plan : Planned) (operands : List ℕ) (m : Net)
        → IsRuleSet rs → AreCompiled rs numbers p c given plan operands
        → HasRun p (length given) plan operands m → HasEnded m
        → (held : Holds rs p c given fired m)
        → (e : Configuration) × OneNet (net_of held.numbers m.interface (pieces m)) e
        × IsQuiet rs.rules e }
{
    ic_meaning::laws::a_machine_begins_with_its_configuration();
    ic_meaning::laws::steps_of_pieces_are_steps_of_the_net();
    ic_meaning::laws::where_all_pairs_are_stuck_the_net_is_quiet();
    ic_meaning::laws::what_is_reached_has_the_same_free_names();
    ic_reaching::laws::what_is_reached_is_one_net();
}

/// A machine that has made rounds of a configuration, whose equations of two agents came first, holds what is reached. As the
/// last round is over, that is the net of the configuration after as many rounds. Each of them has fired as many pairs by each rule.
pub fn what_a_machine_holds_after_rounds()
    ensures { (rs : Rules) (numbers : List ℕ) (p : Plans) (c : Configuration) (given : List ℕ)
        (plan : Planned) (operands : List ℕ) (pairs most rounds : ℕ) (end : End) (first m : Net)
        → IsRuleSet rs → IsTrue (is_over rs.symbols c) → HasNames c
        → AreCompiled rs numbers p c given plan operands
        → IsBegun p (length given) plan operands first
        → LinksPairsFirst p.arities (length given) plan pairs
        → (ends : EndsAfter p pairs most rounds end first m)
        → (held : Holds rs p c given (map (rule_number numbers) ends.ran.fired) m)
        × (ends.since.fired ≡ [] → IsNetOf held.numbers m (iterate rs.rules rounds c))
        × FireAsRounds rs.rules numbers ends.made c }
{
    ic_meaning::laws::a_machine_begins_with_its_configuration();
    ic_meaning::laws::steps_of_pieces_are_steps_of_the_net();
    ic_meaning::laws::where_all_pairs_are_stuck_the_net_is_quiet();
    ic_meaning::laws::what_is_reached_has_the_same_free_names();
    ic_meaning::laws::steps_that_fire_nothing_keep_the_net();
    ic_meaning::laws::rounds_in_place_are_rounds();
    ic_reaching::laws::what_is_reached_is_one_net();
    ic_reaching::laws::one_net_is_an_equivalence();
}

/// Where a reduction ends quiet, its answer is the net of every order: each chain of steps that ends quiet ends in it, with
/// as many interactions. Some number of rounds ends quiet, and does so in this net, wherever fresh names begin.
pub fn a_quiet_end_is_that_of_every_order()
    ensures every_order { (s : SystemParts) (bounds : Bounds) (answer e : Configuration)
        (interactions : ℕ) (by_rule : List ℕ) (kinds : List Kind)
        → IsRuleSet s.rules → IsTrue (is_over s.rules.symbols s.config) → HasNames s.config
        → IsReached s bounds answer Quiet interactions by_rule
        → Chain s.rules.rules kinds s.config e → IsQuiet s.rules.rules e
        → OneNet answer e × (length (rules_fired kinds) ≡ interactions) }
    ensures rounds { (s : SystemParts) (bounds : Bounds) (answer : Configuration)
        (interactions n : ℕ) (by_rule : List ℕ)
        → IsRuleSet s.rules → IsTrue (is_over s.rules.symbols s.config) → HasNames s.config
        → IsReached s bounds answer Quiet interactions by_rule
        → IsQuiet s.rules.rules (iterate s.rules.rules n s.config)
        → SameButNext answer (iterate s.rules.rules n s.config) }
    ensures some_rounds { (s : SystemParts) (bounds : Bounds) (answer : Configuration)
        (interactions : ℕ) (by_rule : List ℕ)
        → IsRuleSet s.rules → IsTrue (is_over s.rules.symbols s.config) → HasNames s.config
        → IsReached s bounds answer Quiet interactions by_rule
        → (n : ℕ) × IsQuiet s.rules.rules (iterate s.rules.rules n s.config) }
{
    ic_reaching::laws::what_is_reached_is_one_net();
    ic_reaching::laws::what_is_reached_goes_on();
    ic_reaching::laws::what_is_reached_quiet_is_the_end_of_every_order();
}

/// Where a reduction ends quiet and leaves no equation, its answer is written as the end of every order is.
pub fn without_equations_every_order_has_one_text()
    ensures { (s : SystemParts) (bounds : Bounds) (answer e : Configuration)
        (interactions : ℕ) (by_rule : List ℕ) (kinds : List Kind)
        → IsRuleSet s.rules → IsTrue (is_over s.rules.symbols s.config) → HasNames s.config
        → IsReached s bounds answer Quiet interactions by_rule → answer.equations ≡ []
        → Chain s.rules.rules kinds s.config e → IsQuiet s.rules.rules e
        → renumbered answer ≡ renumbered e }
{
    a_quiet_end_is_that_of_every_order();
    ic_confluence::laws::same_nets_have_one_shape();
    ic_naming::laws::what_is_renumbered_forgets_names();
}

/// Where a reduction ends quiet, no step of its answer is possible: no interaction, and no term can be put for a name.
pub fn at_a_quiet_end_no_step_is_possible()
    ensures { (s : SystemParts) (bounds : Bounds) (answer : Configuration)
        (interactions : ℕ) (by_rule : List ℕ)
        → IsReached s bounds answer Quiet interactions by_rule
        → IsQuiet s.rules.rules answer }
{}

/// A reduction may be cut and gone on with. What is reached from an answer, or from what is one net with it, is reached from
/// the beginning, and the interactions add up. Where it ends quiet, it is the net of every order.
pub fn a_reduction_that_was_cut_goes_on()
    ensures reached { (s t : SystemParts) (bounds more : Bounds) (middle answer : Configuration)
        (end last : End) (i j : ℕ) (p q : List ℕ)
        → IsRuleSet s.rules → IsTrue (is_over s.rules.symbols s.config) → HasNames s.config
        → IsReached s bounds middle end i p → t.rules ≡ s.rules → OneNet middle t.config
        → IsReached t more answer last j q
        → (fired : List ℕ) × Reaches s.rules.rules s.config answer fired
        × (length fired ≡ i + j) }
    ensures every_order { (s t : SystemParts) (bounds more : Bounds)
        (middle answer e : Configuration) (end : End) (i j : ℕ) (p q : List ℕ) (kinds : List Kind)
        → IsRuleSet s.rules → IsTrue (is_over s.rules.symbols s.config) → HasNames s.config
        → IsReached s bounds middle end i p → t.rules ≡ s.rules → OneNet middle t.config
        → IsReached t more answer Quiet j q
        → Chain s.rules.rules kinds s.config e → IsQuiet s.rules.rules e
        → OneNet answer e × (length (rules_fired kinds) ≡ i + j) }
{
    ic_reaching::laws::what_is_reached_is_one_net();
    ic_reaching::laws::what_is_reached_goes_on();
    ic_reaching::laws::what_is_reached_quiet_is_the_end_of_every_order();
}

/// What is told of each rule is together what is told in all. Where a reduction ends quiet, each rule fires as often in
/// every order that does.
pub fn interactions_by_rule_are_all()
    ensures all { (s : SystemParts) (bounds : Bounds) (answer : Configuration) (end : End)
        (interactions : ℕ) (by_rule : List ℕ)
        → IsRuleSet s.rules → IsTrue (is_over s.rules.symbols s.config) → HasNames s.config
        → IsReached s bounds answer end interactions by_rule
        → sum by_rule ≡ interactions }
    ensures every_order { (s : SystemParts) (bounds : Bounds) (answer e : Configuration)
        (interactions : ℕ) (by_rule : List ℕ) (kinds : List Kind)
        → IsRuleSet s.rules → IsTrue (is_over s.rules.symbols s.config) → HasNames s.config
        → IsReached s bounds answer Quiet interactions by_rule
        → Chain s.rules.rules kinds s.config e → IsQuiet s.rules.rules e
        → AreCounts (length s.rules.rules) (rules_fired kinds) by_rule }
{
    ic_reaching::laws::what_is_reached_is_one_net();
    ic_reaching::laws::what_is_reached_goes_on();
    ic_reaching::laws::what_is_reached_quiet_is_the_end_of_every_order();
}

/// Every order that ends quiet has as many steps that put a term for a name. They are the equations that were given or made,
/// one of each argument of a rule that fired, less one for each interaction and those that are left.
pub fn name_steps_are_those_of_every_order()
    ensures every_order { (rs : Rules) (c e : Configuration) (n : ℕ) (kinds : List Kind)
        → IsRuleSet rs → IsTrue (is_over rs.symbols c) → HasNames c
        → AreNameSteps rs.rules c n → Chain rs.rules kinds c e → IsQuiet rs.rules e
        → name_steps kinds ≡ n }
    ensures told { (rs : Rules) (c e : Configuration) (interactions left : ℕ) (told : Option ℕ)
        (kinds : List Kind) → IsRuleSet rs → IsTrue (is_over rs.symbols c) → HasNames c
        → TellsNameSteps rs.rules c interactions left Quiet told
        → Chain rs.rules kinds c e → IsQuiet rs.rules e
        → SomeIff told (name_steps kinds + interactions + left < 2 ^ 64) (name_steps kinds) }
    ensures equations { (rs : Rules) (c e : Configuration) (kinds : List Kind)
        → IsRuleSet rs → IsTrue (is_over rs.symbols c) → HasNames c
        → Chain rs.rules kinds c e
        → length e.equations + (name_steps kinds + length (rules_fired kinds))
        ≡ length c.equations + sum_by (arguments_at rs.rules) (rules_fired kinds) }
{
    ic_confluence::laws::every_order_ends_in_the_same_net();
    ic_reaching::laws::what_is_reached_is_one_net();
    ic_reaching::laws::what_is_reached_goes_on();
}

/// Where an answer is put together, no term can be put for a name: each name of a circle occurs in it alone.
pub fn what_is_put_together_has_no_name_step()
    ensures { (c d : Configuration) → HasNames c → IsPutTogether c → ¬ NameStep c d }
{}

/// What a stop says, by however many threads. No more interactions were made than may be. Where as many were made, one more is
/// possible. Where a look found too many names and agents, or a table would be full, fewer were made.
pub fn what_a_stop_says()
    ensures within { (s : SystemParts) (bounds : Bounds) (answer : Configuration) (end : End)
        (interactions : ℕ) (by_rule : List ℕ)
        → IsReached s bounds answer end interactions by_rule → interactions ≤ bounds.steps }
    ensures steps { (s : SystemParts) (bounds : Bounds) (answer : Configuration)
        (interactions : ℕ) (by_rule : List ℕ)
        → IsRuleSet s.rules → IsTrue (is_over s.rules.symbols s.config) → HasNames s.config
        → IsReached s bounds answer Steps interactions by_rule
        → (d : Configuration) × (fired : List ℕ) × Reaches s.rules.rules s.config d fired
        × (length fired ≡ bounds.steps + 1) }
    ensures nodes { (s : SystemParts) (bounds : Bounds) (answer : Configuration)
        (interactions : ℕ) (by_rule : List ℕ)
        → IsReached s bounds answer Nodes interactions by_rule → interactions < bounds.steps }
    ensures limit { (s : SystemParts) (bounds : Bounds) (answer : Configuration)
        (interactions : ℕ) (by_rule : List ℕ)
        → IsReached s bounds answer Limit interactions by_rule → interactions < bounds.steps }
{
    ic_reaching::laws::what_is_reached_goes_on();
}

/// Counts say how often each rule fired: rules 0, 1 and 1 are counted as 1 and 2. What fired has one list of counts.
pub fn counts_are_how_often_each_rule_fired()
    ensures example { AreCounts 2 (0 ∷ 1 ∷ 1 ∷ []) (1 ∷ 2 ∷ []) }
    ensures one { (rules : ℕ) (fired a b : List ℕ) → AreCounts rules fired a → AreCounts rules fired b
        → a ≡ b }
{}

/// A configuration with its names numbered anew is the same net, wherever fresh names begin, if its free names may stand in
/// texts. It is one net with each that has its terms and equations, and fresh names above all of its own.
pub fn a_renumbered_net_is_the_same_net()
    ensures same { (c : Configuration)
        → ((x : ℕ) → occurrences x (configuration_names c) ≡ 1 → x ≤ MAX_NAME)
        → SameButNext c (renumbered c) }
    ensures net { (c d : Configuration) → HasNames c
        → AllByRecursion (λ x. x < d.next) (configuration_names d)
        → ((x : ℕ) → occurrences x (configuration_names c) ≡ 1 → x ≤ MAX_NAME)
        → d.interface ≡ (renumbered c).interface → d.equations ≡ (renumbered c).equations
        → OneNet c d }
{
    ic_naming::laws::names_are_told_apart();
}

/// Where a text is reduced to a quiet end, by however many threads, and its line is asked for, this is the line of the net in
/// which every order of steps ends, of the system that the text is read as. The line is that of a configuration which is the same net as the end
/// of any order, wherever fresh names begin. Where no equation is left in that net, the line is written as the end of any
/// order is. Whatever is asked for, the interactions that are told are those of every order.
pub fn a_line_is_the_net_of_every_order()
    ensures net { (limits : Limits) (bounds : Bounds) (asked : Asked) (input line : List ℕ)
        (outcome : Outcome) (s : SystemParts) (e : Configuration) (kinds : List Kind)
        → EndsAs limits bounds asked input outcome line → outcome.end ≡ Quiet
        → asked ≢ Nothing → ReadsSystemWithin limits input (Ok s)
        → Chain s.rules.rules kinds s.config e → IsQuiet s.rules.rules e
        → (answer : Configuration) × (line ≡ line_of s.rules.symbols (renumbered answer))
        × OneNet answer e × (length (rules_fired kinds) ≡ outcome.interactions) }
    ensures written { (limits : Limits) (bounds : Bounds) (asked : Asked) (input line : List ℕ)
        (outcome : Outcome) (s : SystemParts) (e : Configuration) (kinds : List Kind)
        → EndsAs limits bounds asked input outcome line → outcome.end ≡ Quiet
        → asked ≢ Nothing → ReadsSystemWithin limits input (Ok s)
        → Chain s.rules.rules kinds s.config e → IsQuiet s.rules.rules e
        → (written : Configuration) × (line ≡ line_of s.rules.symbols written)
        × SameButNext written e }
    ensures text { (limits : Limits) (bounds : Bounds) (asked : Asked) (input line : List ℕ)
        (outcome : Outcome) (s : SystemParts) (e : Configuration) (kinds : List Kind)
        → EndsAs limits bounds asked input outcome line → outcome.end ≡ Quiet
        → asked ≢ Nothing → ReadsSystemWithin limits input (Ok s)
        → Chain s.rules.rules kinds s.config e → IsQuiet s.rules.rules e → e.equations ≡ []
        → line ≡ line_of s.rules.symbols (renumbered e) }
    ensures counted { (limits : Limits) (bounds : Bounds) (asked : Asked) (input line : List ℕ)
        (outcome : Outcome) (s : SystemParts) (e : Configuration) (kinds : List Kind)
        → EndsAs limits bounds asked input outcome line → outcome.end ≡ Quiet
        → ReadsSystemWithin limits input (Ok s)
        → Chain s.rules.rules kinds s.config e → IsQuiet s.rules.rules e
        → length (rules_fired kinds) ≡ outcome.interactions }
    ensures rounds { (limits : Limits) (bounds : Bounds) (asked : Asked) (input line : List ℕ)
        (outcome : Outcome) (s : SystemParts)
        → EndsAs limits bounds asked input outcome line → outcome.end ≡ Quiet
        → ReadsSystemWithin limits input (Ok s)
        → (n : ℕ) × IsQuiet s.rules.rules (iterate s.rules.rules n s.config) }
{
    ic_text::laws::one_system_reading();
    ic_reaching::laws::what_is_reached_quiet_is_the_end_of_every_order();
    ic_reaching::laws::where_names_begin_is_all_that_differs();
    ic_reaching::laws::where_names_begin_is_no_matter();
    ic_reaching::laws::free_names_stay();
    a_renumbered_net_is_the_same_net();
    a_quiet_end_is_that_of_every_order();
    without_equations_every_order_has_one_text();
}

/// A machine that has made interactions may run on, by as many as are left of those that may be made in all. Then its stop is
/// by the bounds of all: at `Steps` it has made as many as may be, at `Nodes` and at `Limit` fewer.
pub fn a_run_that_goes_on_stops_by_the_bounds_of_all()
    ensures { (bounds : Bounds) (steps : ℕ) (p : Plans) (old new : Net) (end : End)
        → bounds.steps ≡ old.interactions + steps → RunsOn p steps end old new
        → StopsBy bounds p new end }
{}

/// Where rounds of a text are over, and it is quiet then or as many were made as may be, the line is that of the net after as many
/// rounds. After one round or more it is the same net, wherever fresh names begin, and so is the configuration that is written.
pub fn a_line_by_rounds_is_the_net_after_them()
    ensures net { (limits : Limits) (most : ℕ) (asked : Asked) (input line : List ℕ) (reached : Rounded)
        (s : SystemParts) → EndsByRounds limits most asked input reached line
        → (reached.outcome.end ≡ Quiet) ⊎ (reached.outcome.end ≡ Steps) → asked ≢ Nothing
        → ReadsSystemWithin limits input (Ok s)
        → (answer : Configuration) × (line ≡ line_of s.rules.symbols (renumbered answer))
        × OneNet answer (iterate s.rules.rules reached.rounds s.config)
        × (1 ≤ reached.rounds
        → SameButNext answer (iterate s.rules.rules reached.rounds s.config)) }
    ensures written { (limits : Limits) (most : ℕ) (asked : Asked) (input line : List ℕ)
        (reached : Rounded) (s : SystemParts) → EndsByRounds limits most asked input reached line
        → (reached.outcome.end ≡ Quiet) ⊎ (reached.outcome.end ≡ Steps) → asked ≢ Nothing
        → ReadsSystemWithin limits input (Ok s) → 1 ≤ reached.rounds
        → (written : Configuration) × (line ≡ line_of s.rules.symbols written)
        × SameButNext (iterate s.rules.rules reached.rounds s.config) written }
{
    ic_text::laws::one_system_reading();
    ic_reaching::laws::free_names_stay();
    ic_confluence::laws::same_is_an_equivalence();
    ic_reaching::laws::where_names_begin_is_no_matter();
    ic_reaching::laws::one_net_is_an_equivalence();
    a_renumbered_net_is_the_same_net();
    what_is_put_together_has_no_name_step();
}

/// Of the rounds of a text these are told, in order: their numbers, as many pairs as are active in the configuration before
/// each, and as many equations as are no circles in that after it. As many are told as are made, but one in which no pair fired may be told where none is made.
pub fn what_is_told_of_rounds()
    ensures figures { (limits : Limits) (most : ℕ) (asked : Asked) (input line : List ℕ)
        (reached : Rounded) → (is : EndsByRounds limits most asked input reached line)
        → map figures_of is.rounded.ends.told ≡ figures_by is.system.rules.rules is.system.config
        (length is.rounded.ends.told) }
    ensures many { (limits : Limits) (most : ℕ) (asked : Asked) (input line : List ℕ)
        (reached : Rounded) → (is : EndsByRounds limits most asked input reached line)
        → (length is.rounded.ends.told ≡ reached.rounds) ⊎ ((reached.rounds ≡ 0)
        × (length is.rounded.ends.told ≤ 1)
        × (sum_by (λ o. o.pairs) is.rounded.ends.told ≡ 0)) }
    // The interactions that are told, in all and by each rule, are those of as many rounds, and of what fired since.
    ensures fired { (limits : Limits) (most : ℕ) (asked : Asked) (input line : List ℕ)
        (reached : Rounded) → (is : EndsByRounds limits most asked input reached line)
        → AreOfRounds is.system.rules.rules is.system.config reached.rounds reached.outcome.end
        reached.outcome.interactions reached.outcome.by_rule.items }
    // Where some pairs have fired since, one is pending that the round they are of hasn't taken yet.
    ensures under_way { (limits : Limits) (most : ℕ) (asked : Asked) (input line : List ℕ)
        (reached : Rounded) → (is : EndsByRounds limits most asked input reached line)
        → (is.rounded.ends.since.fired ≡ []) ⊎ (1 ≤ length is.machine.pending) }
{
    ic_reaching::laws::what_is_reached_is_one_net();
    ic_reaching::laws::what_is_reached_goes_on();
    ic_meaning::laws::rounds_in_place_are_rounds();
    ic_meaning::laws::what_fires_in_a_round_is_of_it();
    ic_meaning::laws::equations_left_are_all_but_circles();
}

/// Rounds of a text are made as long as a step is possible, at most so many. Before each but the first a pair could fire. The first
/// one was needed too: of a text in which no step is possible none is told.
pub fn rounds_are_made_while_a_step_is_possible()
    ensures within { (limits : Limits) (most : ℕ) (asked : Asked) (input line : List ℕ)
        (reached : Rounded) → EndsByRounds limits most asked input reached line
        → reached.rounds ≤ most }
    ensures later { (limits : Limits) (most : ℕ) (asked : Asked) (input line : List ℕ)
        (reached : Rounded) (n : ℕ) → (is : EndsByRounds limits most asked input reached line)
        → 1 ≤ n → n < reached.rounds
        → ¬ IsQuiet is.system.rules.rules (iterate is.system.rules.rules n is.system.config) }
    ensures first { (limits : Limits) (most : ℕ) (asked : Asked) (input line : List ℕ)
        (reached : Rounded) → (is : EndsByRounds limits most asked input reached line)
        → 1 ≤ reached.rounds → ¬ IsQuiet is.system.rules.rules is.system.config }
    ensures quiet { (limits : Limits) (most : ℕ) (asked : Asked) (input line : List ℕ)
        (reached : Rounded) → (is : EndsByRounds limits most asked input reached line)
        → reached.outcome.end ≡ Quiet → 1 ≤ most → IsQuiet is.system.rules.rules
        (iterate is.system.rules.rules reached.rounds is.system.config) }
    ensures steps { (limits : Limits) (most : ℕ) (asked : Asked) (input line : List ℕ)
        (reached : Rounded) → (is : EndsByRounds limits most asked input reached line)
        → reached.outcome.end ≡ Steps → (reached.rounds ≡ most)
        × (¬ IsQuiet is.system.rules.rules
        (iterate is.system.rules.rules most is.system.config)) }
{
    ic_confluence::laws::same_nets_take_the_same_steps();
    ic_reaching::laws::one_net_is_an_equivalence();
    ic_reaching::laws::where_names_begin_is_all_that_differs();
    ic_reaching::laws::what_is_reached_is_one_net();
    ic_reaching::laws::what_is_reached_goes_on();
    ic_reaching::laws::what_is_reached_quiet_is_the_end_of_every_order();
    name_steps_are_those_of_every_order();
    what_is_put_together_has_no_name_step();
}

/// What agents amount to, each by its symbol, is after rounds what it was before, with what the rules that fired make, less what
/// they spend. Nodes are the terms of the interface, two for each equation, and the arities of agents. Those that are no agents are
/// names.
pub fn amounts_are_those_of_rounds()
    ensures amounts { (f : ℕ → ℕ) (rs : Rules) (numbers : List ℕ) (made : List (List ℕ))
        (c : Configuration) → IsRuleSet rs → IsTrue (is_over rs.symbols c) → HasNames c
        → FireAsRounds rs.rules numbers made c
        → amount f (iterate rs.rules (length made) c) + all_spent f rs.rules numbers made
        ≡ amount f c + all_made f rs.rules numbers made }
    ensures nodes { (rs : Rules) (n : ℕ) (c : Configuration) → IsRuleSet rs
        → IsTrue (is_over rs.symbols c) → configuration_nodes (iterate rs.rules n c)
        ≡ length (iterate rs.rules n c).interface + 2 * length (iterate rs.rules n c).equations
        + amount (arity_of rs.symbols) (iterate rs.rules n c) }
    ensures names { (c : Configuration) → length (configuration_names c)
        + length (configuration_symbols c) ≡ configuration_nodes c }
{
    ic_round::laws::chains_are_steps();
    ic_round::laws::rounds_are_steps();
    ic_generations::laws::figures_add_up_over_agents();
}

/// Of each round that is told this holds of the counts of its net: what the rules of the plans made and spent that fired so often is
/// what agents amount to after the round, beside what they amounted to in the text. There is a count for each of these plans.
pub fn counts_tell_the_amounts_of_rounds()
    ensures many { (limits : Limits) (most : ℕ) (asked : Asked) (input line : List ℕ)
        (reached : Rounded) → (is : EndsByRounds limits most asked input reached line)
        → AllByRecursion (λ o. length o.net.counts ≡ length is.rounded.come.rule_numbers)
        is.rounded.ends.told }
    ensures amounts { (limits : Limits) (most : ℕ) (asked : Asked) (input line : List ℕ) (reached : Rounded)
        (f : ℕ → ℕ) → (is : EndsByRounds limits most asked input reached line)
        → AllByRecursion (λ o. amount f
        (iterate is.system.rules.rules o.round is.system.config)
        + by_counts (amount_spent f is.system.rules.rules) is.rounded.come.rule_numbers
        o.net.counts 0 ≡ amount f is.system.config
        + by_counts (amount_made f is.system.rules.rules) is.rounded.come.rule_numbers
        o.net.counts 0) is.rounded.ends.told }
{
    ic_round::laws::chains_are_steps();
    ic_round::laws::rounds_are_steps();
    ic_generations::laws::figures_add_up_over_agents();
}

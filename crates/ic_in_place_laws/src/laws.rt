//! Laws of what a reduction in place answers and tells.

ghost use Rattle.std.specs.Prelude.{◌≡◌, ◌≢◌, ◌⊎◌, ◌↔◌, ℕ, List, [], ◌∷◌, false, Option, None, Some, Ok, Err, Contains, IsTrue, length, sum_by};
ghost use Rattle.std.specs.Io.KnownBytes.{Appends};
ghost use Rattle.std.specs.Option.{option_map};
ghost use Rattle.ic_term.specs.Configuration.{Configuration};
ghost use Rattle.ic_term.specs.Symbol.{is_over};
ghost use Rattle.ic_rules.specs.Rule.{Rule};
ghost use Rattle.ic_rules.specs.RuleSet.{IsRuleSet, Rules};
ghost use Rattle.ic_rules.specs.System.{SystemParts};
ghost use Rattle.ic_round.specs.Naming.{HasNames};
ghost use Rattle.ic_round.specs.Rounds.{iterate};
ghost use Rattle.ic_round.specs.Quiet.{IsQuiet};
ghost use Rattle.ic_arena.specs.declared.word.Word.{Word};
ghost use Rattle.ic_arena.specs.declared.word.TheConstants.{NAME};
ghost use Rattle.ic_arena.specs.Piece.{Piece, equated};
ghost use Rattle.ic_machine.specs.Plan.{Plans};
ghost use Rattle.ic_machine.specs.Runs.{Way};
ghost use Rattle.ic_machine.specs.Steps.{Fires, Steps as StepsOf};
ghost use Rattle.ic_confluence.specs.Kinds.{Kind, Chain};
ghost use Rattle.ic_reaching.specs.Beside.{HasRun, PartRun};
ghost use Rattle.ic_reaching.specs.OneNet.{OneNet, SameButNext};
ghost use Rattle.ic_reaching.specs.Reaching.{Reaches, rules_fired};
ghost use Rattle.ic_naming.specs.Naming.{renumbered};
ghost use Rattle.ic_text.specs.SystemText.{ReadsSystemWithin};
ghost use Rattle.ic_round.specs.declared.round_fault.RoundFault.{RoundFault};
ghost use Rattle.ic_text.specs.declared.fault.TextFault.{TextFault};
ghost use Rattle.ic_text.specs.declared.fault.TextFault.TheVariants as text;
ghost use Rattle.ic_text.specs.declared.limits.Limits.{Limits};
ghost use Rattle.ic_streams.specs.Streams.{line_of};
ghost use Rattle.ic_streams.specs.declared.fault.StreamFault.{StreamFault};
ghost use Rattle.ic_streams.specs.declared.fault.StreamFault.TheVariants as stream;
ghost use Rattle.ic_streams.specs.Stuck.{stuck_text};
ghost use Rattle.ic_by_rounds.specs.Traces.{IsTraced};
ghost use Rattle.ic_by_rounds.specs.Tracing.{rows_of};
ghost use Rattle.ic_by_rounds.specs.declared.tracing.Format.{Format};
ghost use Rattle.ic_in_place.specs.declared.running.Bounds.{Bounds};
ghost use Rattle.ic_in_place.specs.declared.running.End.{End};
ghost use Rattle.ic_in_place.specs.declared.running.End.TheVariants.{Quiet, Steps};
ghost use Rattle.ic_in_place.specs.declared.stream.Asked.{Asked};
ghost use Rattle.ic_in_place.specs.declared.stream.Asked.TheVariants.{Nothing};
ghost use Rattle.ic_in_place.specs.declared.stream.Outcome.{Outcome};
ghost use Rattle.ic_in_place.specs.Reducing.{IsPutTogether, IsReached};
ghost use Rattle.ic_in_place.specs.Reductions.{EndsAs, EndsOf, ReducesInPlace, Tells, is_written};
ghost use Rattle.ic_in_place.specs.Rounds.{AppendsLineOf, ReducesByRounds};
ghost use Rattle.ic_in_place.specs.declared.rounded.Rounded.{Rounded};

/// What stands in an empty output after a reduction to a quiet end is the line of the net of every order, written of a
/// configuration which is the same net, and the outcome that was told counts the interactions of every order. At any end, the
/// outcome and what is appended tell of a configuration that is reached by the system that the text is read as. That is so by
/// however many threads.
pub fn what_is_told_is_of_the_text()
    ensures quiet { (limits : Limits) (bounds : Bounds) (asked : Asked) (input line : List ℕ)
        (outcome : Outcome) (s : SystemParts) (e : Configuration) (kinds : List Kind)
        → Tells limits bounds asked input outcome (Some []) (Some line) → outcome.end ≡ Quiet
        → asked ≢ Nothing → ReadsSystemWithin limits input (Ok s)
        → Chain s.rules.rules kinds s.config e → IsQuiet s.rules.rules e
        → (answer : Configuration) × (line ≡ line_of s.rules.symbols (renumbered answer))
        × OneNet answer e × (length (rules_fired kinds) ≡ outcome.interactions) }
    ensures written { (limits : Limits) (bounds : Bounds) (asked : Asked) (input line : List ℕ)
        (outcome : Outcome) (s : SystemParts) (e : Configuration) (kinds : List Kind)
        → Tells limits bounds asked input outcome (Some []) (Some line) → outcome.end ≡ Quiet
        → asked ≢ Nothing → ReadsSystemWithin limits input (Ok s)
        → Chain s.rules.rules kinds s.config e → IsQuiet s.rules.rules e
        → (written : Configuration) × (line ≡ line_of s.rules.symbols written)
        × SameButNext written e }
    ensures ends { (limits : Limits) (bounds : Bounds) (asked : Asked) (input line : List ℕ)
        (outcome : Outcome) (s : SystemParts) → EndsAs limits bounds asked input outcome line
        → ReadsSystemWithin limits input (Ok s) → EndsOf s bounds asked outcome line }
    ensures told { (limits : Limits) (bounds : Bounds) (asked : Asked) (input : List ℕ)
        (outcome : Outcome) (s : SystemParts) (old new : Option (List ℕ))
        → Tells limits bounds asked input outcome old new → ReadsSystemWithin limits input (Ok s)
        → (line : List ℕ) × EndsOf s bounds asked outcome line × Appends old new line }
    ensures line { (limits : Limits) (bounds : Bounds) (asked : Asked) (input line : List ℕ)
        (s : SystemParts) → ReducesInPlace limits bounds asked input (Ok line)
        → ReadsSystemWithin limits input (Ok s)
        → (outcome : Outcome) × EndsOf s bounds asked outcome line }
{
    ic_in_place::laws::a_line_is_the_net_of_every_order();
    ic_text::laws::one_system_reading();
}

/// A text that is read as a system isn't refused, and a text is refused only as its reading says.
pub fn what_is_a_system_is_not_refused()
    ensures taken { (limits : Limits) (bounds : Bounds) (asked : Asked) (input : List ℕ)
        (s : SystemParts) (fault : TextFault) → ReadsSystemWithin limits input (Ok s)
        → ¬ ReducesInPlace limits bounds asked input (Err (stream.Text fault)) }
    ensures refused { (limits : Limits) (bounds : Bounds) (asked : Asked) (input : List ℕ)
        (fault : TextFault) → ReducesInPlace limits bounds asked input (Err (stream.Text fault))
        → ReadsSystemWithin limits input (Err fault) × (fault ≢ text.Memory) }
    ensures never { (limits : Limits) (bounds : Bounds) (asked : Asked) (input : List ℕ)
        (fault : RoundFault) → (¬ ReducesInPlace limits bounds asked input (Err stream.Memory))
        × (¬ ReducesInPlace limits bounds asked input (Err stream.Read))
        × (¬ ReducesInPlace limits bounds asked input (Err stream.Write))
        × (¬ ReducesInPlace limits bounds asked input (Err (stream.Round fault))) }
{
    ic_text::laws::one_system_reading();
}

/// A text that is read as a system isn't refused by rounds, be they only told. By rounds a text is refused exactly as it is where it
/// is reduced in any order.
pub fn rounds_refuse_no_system()
    ensures taken { (limits : Limits) (most : ℕ) (asked : Asked) (input : List ℕ)
        (s : SystemParts) (fault : TextFault) → ReadsSystemWithin limits input (Ok s)
        → ¬ ReducesByRounds limits most asked input (Err (stream.Text fault)) }
    ensures traced { (limits : Limits) (most : ℕ) (format : Format) (input : List ℕ)
        (s : SystemParts) (fault : TextFault) (before after : Option (List ℕ))
        → ReadsSystemWithin limits input (Ok s)
        → ¬ IsTraced limits most format input (Err (stream.Text fault)) before after }
    ensures alike { (limits : Limits) (bounds : Bounds) (most : ℕ) (asked : Asked)
        (input : List ℕ) (fault : StreamFault)
        → ReducesByRounds limits most asked input (Err fault)
        ↔ ReducesInPlace limits bounds asked input (Err fault) }
{
    what_is_a_system_is_not_refused();
}

/// What stands in an empty output after rounds, where they ended between two, is the line of the net after as many as are told.
pub fn what_is_appended_by_rounds_is_of_them()
    ensures { (limits : Limits) (most : ℕ) (asked : Asked) (input line : List ℕ)
        (reached : Rounded) (s : SystemParts)
        → AppendsLineOf limits most asked input reached (Some []) (Some line)
        → (reached.outcome.end ≡ Quiet) ⊎ (reached.outcome.end ≡ Steps) → asked ≢ Nothing
        → ReadsSystemWithin limits input (Ok s)
        → (answer : Configuration) × (line ≡ line_of s.rules.symbols (renumbered answer))
        × OneNet answer (iterate s.rules.rules reached.rounds s.config) }
{
    ic_in_place::laws::a_line_by_rounds_is_the_net_after_them();
}

/// Where as many interactions were made as may be and a line is asked for, it is that of a configuration which as many
/// interactions reach, with no name left to replace. Where nothing is asked for, there is no line.
pub fn a_cut_is_told_as_it_stands()
    ensures cut { (limits : Limits) (bounds : Bounds) (asked : Asked) (input line : List ℕ)
        (outcome : Outcome) → EndsAs limits bounds asked input outcome line → outcome.end ≡ Steps
        → asked ≢ Nothing → (s : SystemParts) × (answer : Configuration) × (fired : List ℕ)
        × ReadsSystemWithin limits input (Ok s) × Reaches s.rules.rules s.config answer fired
        × (length fired ≡ bounds.steps) × IsPutTogether answer
        × (line ≡ line_of s.rules.symbols (renumbered answer)) }
    ensures nothing { (limits : Limits) (bounds : Bounds) (input line : List ℕ) (outcome : Outcome)
        → EndsAs limits bounds Nothing input outcome line → line ≡ [] }
    ensures unwritten { (limits : Limits) (bounds : Bounds) (asked : Asked) (input line : List ℕ)
        (outcome : Outcome) → EndsAs limits bounds asked input outcome line
        → is_written asked outcome.end ≡ false → line ≡ [] }
{}

/// The stuck pair that is told is the first one of a quiet configuration which the text's system reaches.
pub fn a_stuck_pair_is_of_a_quiet_end()
    ensures { (limits : Limits) (bounds : Bounds) (asked : Asked) (input line : List ℕ)
        (outcome : Outcome) → EndsAs limits bounds asked input outcome line → outcome.end ≡ Quiet
        → (s : SystemParts) × (answer : Configuration) × (fired : List ℕ)
        × ReadsSystemWithin limits input (Ok s) × Reaches s.rules.rules s.config answer fired
        × IsQuiet s.rules.rules answer
        × (option_map (λ text. text.items) outcome.stuck
        ≡ stuck_text s.rules.symbols (renumbered answer)) }
{}

/// Where a reduction ends quiet, and so many rounds do, the pairs that the rounds fire are together the interactions that
/// are told.
pub fn rounds_fire_as_many_pairs()
    ensures { (s : SystemParts) (bounds : Bounds) (answer : Configuration)
        (interactions n : ℕ) (by_rule : List ℕ)
        → IsRuleSet s.rules → IsTrue (is_over s.rules.symbols s.config) → HasNames s.config
        → IsReached s bounds answer Quiet interactions by_rule
        → IsQuiet s.rules.rules (iterate s.rules.rules n s.config)
        → sum_by (λ row. row.pairs) (rows_of s.rules.rules s.config n) ≡ interactions }
{
    ic_in_place::laws::a_quiet_end_is_that_of_every_order();
    ic_by_rounds::laws::rows_count_interactions();
}

/// A pair fires only after all has been linked: by then no side of an equation is a name of the net.
pub fn a_pair_fires_after_all_is_linked()
    ensures { (p : Plans) (i : ℕ) (is : List ℕ) (m : List Piece) (ms : List (List Piece))
        (xs ys : List Piece) → Way p (i ∷ is) (m ∷ ms) xs ys
        → (before : List Piece) × StepsOf p [] xs before × Fires p i before m
        × ((l r : Word) → Contains before (equated l r)
        → (¬ (l.tag ≡ NAME)) × (¬ (r.tag ≡ NAME))) }
{}

/// A part of a net has run where it is over the symbols, its names are below `next` and occur at most twice each, and it
/// reaches what it is said to. Nothing else is asked of the parts of which `parts_run_side_by_side` speaks.
pub fn a_part_that_is_reduced_has_run()
    ensures { (rs : Rules) (run : PartRun) → IsTrue (is_over rs.symbols run.given)
        → HasNames run.given → Reaches rs.rules run.given run.reached run.fired → HasRun rs run }
{}

//! What is proved of the definitions alone: each law is the contract of a function that does nothing.

ghost use Rattle.std.specs.Prelude.{◌≡◌, ◌≢◌, ◌↔◌, ◌<◌, ◌≤◌, ◌+◌, ◌*◌, ◌^◌, ℕ, Bool, List, [], ◌∷◌, ◌++◌, Result, Ok, Err, Some, None, true, false, length, map, codes, not, slice_get, take, Contains, IsTrue};
ghost use Rattle.std.specs.List.{filter, flat_map, list_any, list_all, AllByRecursion};
ghost use Rattle.std.specs.Str.{bytes_eq};
ghost use Rattle.std.specs.Char.{is_ascii_alphanumeric};
ghost use Rattle.std.specs.Fmt.{decimal};
ghost use Rattle.ic_rules.specs.Rule.{Rule};
ghost use Rattle.ic_rules.specs.declared.limits.TheConstants.{MAX_RULES};
ghost use Rattle.ic_rules.specs.RuleSet.{first_lopsided, first_repeated, first_uncounted};
ghost use Rattle.ic_rules.specs.System.{SystemParts};
ghost use Rattle.ic_term.specs.Configuration.{Configuration, configuration_names, one_above};
ghost use Rattle.ic_term.specs.Symbol.{Symbol, texts};
ghost use Rattle.ic_term.specs.declared.limits.TheConstants.{MAX_SYMBOLS, MAX_INTERFACE, MAX_NODES};
ghost use Rattle.ic_text.specs.Name.{is_name, name_number, name_text};
ghost use Rattle.ic_text.specs.Source.{Phrase, IsPhrase, phrase_words, phrase_symbols, phrase_names, source_symbols};
ghost use Rattle.ic_text.specs.SystemSource.{SystemPhrase, IsSystemPhrase, system_words, system_symbols, rule_symbols};
ghost use Rattle.ic_text.specs.SystemSense.{system_table};
ghost use Rattle.ic_text.specs.SystemText.{SpellsSystem, ReadsSystemWithin};
ghost use Rattle.ic_text.specs.Text.{Spells, ReadsWithin, phrase_of, printed, text_of, fault_text};
ghost use Rattle.ic_text.specs.FaultNumber.{all_faults, fault_number};
ghost use Rattle.ic_text.specs.Sense.{symbols_after};
ghost use Rattle.ic_text.specs.Token.{Token, word, mark, is_blank, is_word_byte, mark_byte, mark_of, tokens_at, followed, tokens, words_among};
ghost use Rattle.ic_text.specs.declared.token.Mark.{Mark};
ghost use Rattle.ic_text.specs.declared.token.Mark.TheVariants.{LeftBrace, RightBrace, Less, Greater, Bar, Equals, Comma, Semicolon, Open, Close};
ghost use Rattle.ic_text.specs.Limits.{most_bytes, most_interface, most_nodes, most_rules, most_symbols};
ghost use Rattle.ic_text.specs.declared.limits.Limits.{Limits};
ghost use Rattle.ic_text.specs.declared.limits.Limits.TheVariants.{Served, Wide};
ghost use Rattle.ic_text.specs.declared.limits.TheConstants.{MAX_TEXT, MAX_NAME};
ghost use Rattle.ic_text.specs.declared.fault.TextFault.{TextFault};
ghost use Rattle.ic_text.specs.declared.fault.TextFault.TheVariants.{Limit};

/// A text spells at most one configuration, and it is read in just one way.
pub fn one_reading()
    ensures source { (text : List ℕ) (p q : Phrase) → Spells text p → Spells text q → p ≡ q }
    ensures answer { (limits : Limits) (text : List ℕ)
        (a b : Result (List Symbol × Configuration) TextFault) →
        ReadsWithin limits text a → ReadsWithin limits text b → a ≡ b }
    ensures total { (limits : Limits) (text : List ℕ) →
        (a : Result (List Symbol × Configuration) TextFault) × ReadsWithin limits text a }
{}

/// A text spells at most one system, and it is read in just one way.
pub fn one_system_reading()
    ensures source { (text : List ℕ) (s t : SystemPhrase) →
        SpellsSystem text s → SpellsSystem text t → s ≡ t }
    ensures answer { (limits : Limits) (text : List ℕ) (a b : Result SystemParts TextFault) →
        ReadsSystemWithin limits text a → ReadsSystemWithin limits text b → a ≡ b }
    ensures total { (limits : Limits) (text : List ℕ) →
        (a : Result SystemParts TextFault) × ReadsSystemWithin limits text a }
{}

/// The rules before the first one that is refused are not refused for the same.
pub fn rules_before_the_first_refused_are_innocent()
    ensures uncounted { (rs : List Rule) (i : ℕ) →
        first_uncounted rs ≡ Some i → first_uncounted (take i rs) ≡ None }
    ensures repeated { (rs : List Rule) (i : ℕ) →
        first_repeated rs ≡ Some i → first_repeated (take i rs) ≡ None }
    ensures lopsided { (rs : List Rule) (i : ℕ) →
        first_lopsided rs ≡ Some i → first_lopsided (take i rs) ≡ None }
{}

/// A system is told by its tokens: no other has them, and a test tells the tokens of systems from others.
pub fn systems_are_told_by_their_tokens()
    ensures one { (s t : SystemPhrase) → IsSystemPhrase s → IsSystemPhrase t →
        system_words s ≡ system_words t → s ≡ t }
    ensures test { (is_one : List Token → Bool) × ((ts : List Token) →
        IsTrue (is_one ts) ↔ ((s : SystemPhrase) × IsSystemPhrase s × (ts ≡ system_words s))) }
{}

/// The limits of a text.
pub fn limits_are()
    ensures text { MAX_TEXT ≡ 262144 }
    ensures name { MAX_NAME ≡ 4294967295 }
    ensures served { (most_bytes Served ≡ MAX_TEXT) × (most_nodes Served ≡ MAX_NODES)
        × (most_interface Served ≡ MAX_INTERFACE) × (most_symbols Served ≡ MAX_SYMBOLS)
        × (most_rules Served ≡ MAX_RULES) }
    ensures wide { (most_bytes Wide ≡ 2 ^ 33) × (most_nodes Wide ≡ 2 ^ 31)
        × (most_interface Wide ≡ 2 ^ 31) × (most_symbols Wide ≡ 2 ^ 16)
        × (most_rules Wide ≡ 2 ^ 31) }
{}

/// What a text is read as with the limits of what is served, it is read as with wide limits, unless it passes a limit.
pub fn wide_limits_change_limits_alone()
    ensures config { (text : List ℕ) (answer : Result (List Symbol × Configuration) TextFault) →
        answer ≢ Err Limit → ReadsWithin Served text answer → ReadsWithin Wide text answer }
    ensures system { (text : List ℕ) (answer : Result SystemParts TextFault) →
        answer ≢ Err Limit → ReadsSystemWithin Served text answer →
        ReadsSystemWithin Wide text answer }
{}

/// The lasting numbers of the refusals, which are all that there are.
pub fn numbers_are_lasting()
    ensures all { (fault : TextFault) →
        (rule : ℕ) × (name : ℕ) × Contains (all_faults rule name) fault }
    ensures numbers { (rule name : ℕ) → map fault_number (all_faults rule name)
        ≡ 1 ∷ 2 ∷ 3 ∷ 4 ∷ 5 ∷ 6 ∷ 7 ∷ 8 ∷ [] }
{}

/// The line of each refusal: a word, and after it the place of the rule, from 1, or the name.
pub fn refusals_are_written_so()
    ensures { (rule name : ℕ) → map fault_text (all_faults rule name)
        ≡ codes "bad syntax" ∷ codes "bad limit" ∷ codes "bad arity"
        ∷ (codes "bad namecount " ++ decimal (rule + 1)) ∷ (codes "bad name " ++ name_text name)
        ∷ (codes "bad twice " ++ decimal (rule + 1)) ∷ (codes "bad lopsided " ++ decimal (rule + 1))
        ∷ codes "bad memory" ∷ [] }
{}

/// A symbol whose text none before has gets the next number, with the arity that it has there; one whose text another
/// before has adds nothing.
pub fn symbols_are_numbered_by_first_occurrence()
    ensures first { (before after : List Symbol) (s : Symbol) →
        list_any (λ x. bytes_eq s.text x.text) before ≡ false →
        slice_get (symbols_after [] (before ++ s ∷ after)) (length (symbols_after [] before))
        ≡ Some s }
    ensures later { (before : List Symbol) (s : Symbol) →
        list_any (λ x. bytes_eq s.text x.text) before ≡ true →
        symbols_after [] (before ++ s ∷ []) ≡ symbols_after [] before }
{}

/// A word is a longest run of word bytes: such bytes alone are one word, and any other byte parts the text.
pub fn words_are_longest_runs()
    ensures run { (b : ℕ) (bs : List ℕ) → list_all is_word_byte (b ∷ bs) ≡ true →
        tokens (b ∷ bs) ≡ Some (word (b ∷ bs) ∷ []) }
    ensures parted { (a b : List ℕ) (c : ℕ) → is_word_byte c ≡ false →
        tokens (a ++ c ∷ b) ≡ followed (tokens a) (followed (tokens_at c (mark_of c)) (tokens b)) }
{}

/// Space, tab, line feed and carriage return are dropped, each of `{ } < > | = , ; ( )` is a mark, and a byte that is
/// none of these, nor a letter, a digit or `-`, spoils the text.
pub fn bytes_are_blanks_marks_or_of_words()
    ensures blanks { (a b : List ℕ) →
        AllByRecursion (λ c. tokens (a ++ c ∷ b) ≡ followed (tokens a) (tokens b))
        (32 ∷ 9 ∷ 10 ∷ 13 ∷ []) }
    ensures marks { (a b : List ℕ) (m : Mark) →
        tokens (a ++ mark_byte m ∷ b)
        ≡ followed (tokens a) (followed (Some (mark m ∷ [])) (tokens b)) }
    ensures mark_bytes { map mark_byte (LeftBrace ∷ RightBrace ∷ Less ∷ Greater ∷ Bar ∷ Equals
        ∷ Comma ∷ Semicolon ∷ Open ∷ Close ∷ []) ≡ codes "{}<>|=,;()" }
    ensures others { (a b : List ℕ) (c : ℕ) → is_ascii_alphanumeric c ≡ false →
        AllByRecursion (λ x. c ≢ x) (32 ∷ 9 ∷ 10 ∷ 13 ∷ codes "-{}<>|=,;()") →
        tokens (a ++ c ∷ b) ≡ None }
{}

/// The text of a name is a letter, and digits where its number is 26 or more. A word is a name exactly where it is such
/// a text, and each of the two gives the other.
pub fn names_are_their_texts()
    ensures letter { (l : ℕ) → l < 26 → name_text l ≡ (97 + l) ∷ [] }
    ensures digits { (k l : ℕ) → 0 < k → k < 2 ^ 64 → l < 26 →
        name_text (26 * k + l) ≡ (97 + l) ∷ decimal k }
    ensures word { (w : List ℕ) → IsTrue (is_name w) ↔ ((n : ℕ) × (w ≡ name_text n)) }
    ensures number { (n : ℕ) → name_number (name_text n) ≡ n }
    ensures text { (w : List ℕ) → IsTrue (is_name w) → name_text (name_number w) ≡ w }
{}

/// Symbols and names stand in the order of the text: the symbols are the words that are no names. So a system's symbols
/// are numbered rules first, then interface, then equations.
pub fn symbols_and_names_stand_as_in_the_text()
    ensures parts { (s : SystemPhrase) → system_table s ≡
        symbols_after
        (symbols_after (symbols_after [] (flat_map rule_symbols s.rules))
        (flat_map source_symbols s.config.interface))
        (flat_map (λ e. source_symbols e.left ++ source_symbols e.right) s.config.equations) }
    ensures system { (s : SystemPhrase) → IsSystemPhrase s →
        texts (system_symbols s)
        ≡ filter (λ w. not (is_name w)) (words_among (system_words s)) }
    ensures config { (p : Phrase) → IsPhrase p →
        texts (phrase_symbols p) ≡ filter (λ w. not (is_name w)) (words_among (phrase_words p)) }
    ensures names { (p : Phrase) → IsPhrase p →
        phrase_names p ≡ map name_number (filter is_name (words_among (phrase_words p))) }
{}

/// `next` of a configuration that was read is one above its greatest name, or 0 where it has none.
pub fn next_is_one_above_the_names()
    ensures config { (limits : Limits) (text : List ℕ) (table : List Symbol)
        (c : Configuration) →
        ReadsWithin limits text (Ok (table, c)) → c.next ≡ one_above (configuration_names c) }
    ensures system { (limits : Limits) (text : List ℕ) (v : SystemParts) →
        ReadsSystemWithin limits text (Ok v) →
        v.config.next ≡ one_above (configuration_names v.config) }
{}

/// The tokens of a text are its bytes in order, except for the blanks.
pub fn tokens_keep_bytes()
    ensures { (text : List ℕ) (ts : List Token) → tokens text ≡ Some ts →
        text_of ts ≡ filter (λ b. not (is_blank b)) text }
{}

/// A configuration whose symbols have texts of symbols is spelled by what is printed of it.
pub fn printed_spells()
    ensures { (table : List Symbol) (c : Configuration) → IsPhrase (phrase_of table c) →
        Spells (printed table c) (phrase_of table c) }
{}

/// What is printed of a configuration that was read is read as the same symbols and configuration, and is no longer.
pub fn read_back_law()
    ensures same { (limits : Limits) (text : List ℕ) (table : List Symbol) (c : Configuration) →
        ReadsWithin limits text (Ok (table, c)) →
        ReadsWithin limits (printed table c) (Ok (table, c)) }
    ensures no_longer { (limits : Limits) (text : List ℕ) (table : List Symbol)
        (c : Configuration) →
        ReadsWithin limits text (Ok (table, c)) → length (printed table c) ≤ length text }
{}

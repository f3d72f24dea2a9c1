//! What is proved of the definitions alone: each law is the contract of a function that does nothing.

ghost use Rattle.std.specs.Prelude.{◌≡◌, ◌≢◌, ◌<◌, ◌≤◌, ◌+◌, ◌==◌, ℕ, List, [], ◌∷◌, ◌++◌, Contains, Option, Some, Result, Ok, Err, false, true, codes, length};
ghost use Rattle.std.specs.Io.KnownBytes.{Consumes, IsAtEnd};
ghost use Rattle.std.specs.List.{concat, list_any, AllByRecursion};
ghost use Rattle.ic_streams.specs.declared.fault.StreamFault.{StreamFault};
ghost use Rattle.ic_streams.specs.declared.fault.StreamFault.TheVariants.{Read, Text, Memory, Write};
ghost use Rattle.ic_text.specs.declared.fault.TextFault.{TextFault};
ghost use Rattle.ic_text.specs.declared.fault.TextFault.TheVariants.{Limit, Syntax};
ghost use Rattle.ic_expand.specs.declared.limits.TheConstants.{MAX_RICH_TEXT};
ghost use Rattle.ic_expand.specs.declared.names.Spelling.{Spelling};
ghost use Rattle.ic_expand.specs.declared.names.Spelling.TheVariants.{Short, Long};
ghost use Rattle.ic_expand.specs.declared.fault.ExpandFault.TheVariants.{Refused};
ghost use Rattle.ic_expand.specs.declared.fault.Reason.{Reason};
ghost use Rattle.ic_expand.specs.declared.fault.Reason.TheVariants.{Again, NoCopier, NoEnd, NoEraser, NoRules, NoSymbol, NoText, NotSymbol, TextBytes};
ghost use Rattle.ic_expand.specs.declared.spot.Kind.{Kind};
ghost use Rattle.ic_expand.specs.declared.spot.Spot.TheVariants.{Elsewhere};
ghost use Rattle.ic_expand.specs.Begins.{is_begun};
ghost use Rattle.ic_expand.specs.Comments.{uncommented};
ghost use Rattle.ic_expand.specs.Pieces.{pieces};
ghost use Rattle.ic_expand.specs.Names.{IsRenaming, is_among, is_spelt, names, names_of, spare_of, told_word};
ghost use Rattle.ic_term.specs.Symbol.{Symbol, fits_limits};
ghost use Rattle.ic_expand.specs.Generic.{agent_text, annihilated, copied, erased, generic_rule, is_of, rule_text};
ghost use Rattle.ic_expand.specs.Expanding.{Sheet, expanded, rules_of};
ghost use Rattle.ic_expand.specs.Forms.{has_form};
ghost use Rattle.ic_expand.specs.Streams.{Expands, TakesAt, TakesWhole, text_fault};

/// A comment is `#` and what follows it in its line. The end of the line stays, so that a text has its lines, and texts
/// that differ in their comments alone mean the same.
pub fn comments_mean_nothing()
    ensures none { (text : List ℕ) → list_any (λ b. b == 35) text ≡ false → uncommented text ≡ text }
    ensures one { (a c b : List ℕ) → list_any (λ d. d == 35) a ≡ false
        → list_any (λ d. d == 10) c ≡ false
        → uncommented (a ++ 35 ∷ (c ++ 10 ∷ b)) ≡ a ++ 10 ∷ uncommented b }
    ensures last { (a c : List ℕ) → list_any (λ d. d == 35) a ≡ false
        → list_any (λ d. d == 10) c ≡ false → uncommented (a ++ 35 ∷ c) ≡ a }
    ensures same { (v w : List ℕ) → uncommented v ≡ uncommented w → length v ≤ MAX_RICH_TEXT
        → length w ≤ MAX_RICH_TEXT → expanded v ≡ expanded w }
{}

/// The pieces of a text are the text. One that begins as texts do, without comments and long names, and so without `copy`
/// and `erase`, is written as it is.
pub fn plain_texts_stay()
    ensures whole { (text : List ℕ) → concat (pieces text) ≡ text }
    ensures plain { (text : List ℕ) → length text ≤ MAX_RICH_TEXT → is_begun text ≡ true
        → list_any (λ b. b == 35) text ≡ false → list_any (is_spelt Long) (pieces text) ≡ false
        → expanded text ≡ Ok text }
{}

/// The names of a text are written one to one. Each becomes a name of the calculus, and one that is such a name already
/// stays.
pub fn names_are_written_one_to_one()
    ensures renamed { (ps : List (List ℕ)) → IsRenaming
        (told_word (names_of Long ps) (spare_of (names_of Short ps) (names_of Long ps)))
        (names_of Short ps ++ names_of Long ps) }
    ensures all { (spelling : Spelling) (ps : List (List ℕ)) (w : List ℕ) →
        is_among w (names spelling Elsewhere ps) ≡ true → is_among w (names_of spelling ps) ≡ true }
{}

/// In each generic rule a copier has two arguments and an eraser none, and the symbol that it meets as many as it has in
/// the text.
pub fn generic_rules_keep_arities()
    ensures copied { (s : List ℕ) (t : Symbol) → (xs ys zs : List (List ℕ))
        × (length xs ≡ t.arity) × (length ys ≡ t.arity) × (length zs ≡ t.arity)
        × AllByRecursion (λ z. (x y : List ℕ) × (z ≡ agent_text s (x ∷ y ∷ []))) zs
        × (copied s t ≡ rule_text
        (agent_text s (agent_text t.text xs ∷ agent_text t.text ys ∷ [])) (agent_text t.text zs)) }
    ensures annihilated { (s : List ℕ) → annihilated s ≡ rule_text
        (agent_text s (codes "a" ∷ codes "b" ∷ [])) (agent_text s (codes "a" ∷ codes "b" ∷ [])) }
    ensures erased { (s : List ℕ) (t : Symbol) → (zs : List (List ℕ)) × (length zs ≡ t.arity)
        × AllByRecursion (λ z. z ≡ s) zs
        × (erased s t ≡ rule_text (agent_text s []) (agent_text t.text zs)) }
{}

/// A word after `copy` that is no symbol is told to be none. A symbol that stands in no term is copied by its own copier alone, and
/// erased by its own eraser.
pub fn words_and_unknown_symbols_are_told_apart()
    ensures word { expanded (codes "{ copy dup }") ≡ Err (Refused NotSymbol 7) }
    ensures copier { expanded (codes "{ copy Dup }") ≡ Ok (codes "{  Dup(a,b)><Dup(a,b) }") }
    ensures eraser { expanded (codes "{A><B;erase E}") ≡ Ok (codes "{A><B; E><A;E><B;E><E}") }
{}

/// A text with each of these, and what it is written as.
pub fn one_text_is_written_so()
    ensures written { expanded (codes "{ copy D; erase E } < one, 2 | D(one,E) = 2 > # once")
        ≡ Ok (codes "{  D(2,2)><2;D(a,b)><D(a,b);D(E,E)><E;  E><2;E><E } < a, 2 | D(a,E) = 2 > ") }
{}

/// Texts with symbols of several arguments. A copier copies the arguments in their order, by the names of the first and of
/// the second copy. A rule that is given isn't written again, whichever of its symbols stands first, and nor is one of a
/// copier and an eraser.
pub fn arguments_are_copied_in_their_order()
    ensures copied { expanded (codes "{ copy D } <|P(a,b)=D(a,b)>")
        ≡ Ok (codes "{  D(P(a,b),P(a1,b1))><P(D(a,a1),D(b,b1));D(a,b)><D(a,b) } <|P(a,b)=D(a,b)>") }
    ensures given { expanded (codes "{ R><D(R,R); copy D; erase E } <|P(a,b)=D(a,b),E=Q(c),c=R>")
        ≡ Ok (codes "{ R><D(R,R);  D(a,b)><D(a,b);D(P(a,b),P(a1,b1))><P(D(a,a1),D(b,b1));D(E,E)><E;"
        ++ codes "D(Q(a),Q(a1))><Q(D(a,a1));  E><R;E><P(E,E);E><E;E><Q(E) } <|P(a,b)=D(a,b),E=Q(c),c=R>") }
{}

/// Each refusal by a text that has it. The place is that of the symbol after `copy` or `erase`, of what follows it, or of what
/// stands first. A text that is too long is refused at its first byte too many.
pub fn refusals_by_hand()
    ensures copier { expanded (codes "{ copy A } <|A(x,y,z)=B>") ≡ Err (Refused (NoCopier 3) 7) }
    ensures eraser { expanded (codes "{ erase A } <|A(x,y)=B>") ≡ Err (Refused (NoEraser 2) 8) }
    ensures twice { expanded (codes "{ copy D; copy D } <|D(x,y)=B>") ≡ Err (Refused Again 15) }
    ensures given { expanded (codes "{ E><E; erase E } <|E=E>") ≡ Err (Refused NoRules 14) }
    ensures later { expanded (codes "{ erase E; E><E } <|E=E>") ≡ Err (Refused NoRules 8) }
    ensures stood_for { expanded (codes "{ erase E; D(a,b)><D(a,b); copy D } <|D(x,y)=E>")
        ≡ Err (Refused NoRules 32) }
    ensures unended { expanded (codes "{ copy D E><F } <|D(x,y)=E>") ≡ Err (Refused NoEnd 9) }
    ensures unknown { expanded (codes "{ # two\n copy dup }") ≡ Err (Refused NotSymbol 9) }
    ensures line { expanded (codes " submit a {} <|>") ≡ Err (Refused NoText 1) }
    ensures long { (text : List ℕ) → MAX_RICH_TEXT < length text
        → expanded text ≡ Err (Refused TextBytes MAX_RICH_TEXT) }
{}

/// Arguments of arguments aren't counted: here P has two, and R one. A blank may stand before them.
pub fn arguments_are_counted_by_hand()
    ensures { expanded (codes "{ copy D } <|P(Q(a,b),c)=D(x,R (Q(y,z)))>")
        ≡ Ok (codes "{  D(P(a,b),P(a1,b1))><P(D(a,a1),D(b,b1));"
        ++ codes "D(Q(a,b),Q(a1,b1))><Q(D(a,a1),D(b,b1));"
        ++ codes "D(a,b)><D(a,b);D(R(a),R(a1))><R(D(a,a1)) } <|P(Q(a,b),c)=D(x,R (Q(y,z)))>") }
{}

/// Each symbol that stands in a term, within the limits of text and arguments, has its rule with a copier or an eraser, unless
/// that rule is given, or an earlier line is of one of the two.
pub fn each_symbol_has_its_rule()
    ensures { (sheet : Sheet) (earlier : List (List ℕ)) (kind : Kind) (s : List ℕ) (t : Symbol)
        → Contains sheet.symbols t → fits_limits t.text t.arity ≡ true
        → list_any (is_of s t.text) sheet.pairs ≡ false → is_among s earlier ≡ false
        → is_among t.text earlier ≡ false
        → Contains (rules_of sheet earlier kind s) (generic_rule kind s t) }
{}

/// A stream without forms is answered the text for which its text stands, or its refusal, by which only a text that is too
/// long is at a limit. So such a text has one answer. One with forms is answered what some text is expanded to.
pub fn what_is_answered_is_what_is_expanded()
    ensures written { (text output : List ℕ) → has_form text ≡ false → Expands text (Ok output)
        → expanded text ≡ Ok output }
    ensures refused { (text : List ℕ) (fault : TextFault) → has_form text ≡ false
        → Expands text (Err (Text fault))
        → (reason : Reason) × (at : ℕ) × (expanded text ≡ Err (Refused reason at))
        × (fault ≡ text_fault reason) }
    ensures one { (text : List ℕ) (one other : Result (List ℕ) StreamFault) → has_form text ≡ false
        → Expands text one → Expands text other → one ≡ other }
    ensures formed { (text output : List ℕ) → Expands text (Ok output)
        → (plain : List ℕ) × (expanded plain ≡ Ok output) }
    ensures forms { has_form (codes "{A><B=>}") ≡ true }
    ensures separator { has_form (codes "{A><B ; } <|>") ≡ true }
    ensures copiers { has_form (codes "{copy D , E} <|>") ≡ true }
    ensures formless { has_form (codes "{copy D;A><B} <a,a|D(x,y)=B> # =>") ≡ false }
    ensures limit { text_fault TextBytes ≡ Limit }
    ensures syntax { (reason : Reason) → reason ≢ TextBytes → text_fault reason ≡ Syntax }
{}

/// A text that is answered or refused was taken from its reader: all that it had, or one byte more than a text may have. At any
/// other fault no more was taken. What is answered of what was taken is answered of the text.
pub fn what_is_taken_is_the_text()
    ensures opened { (text whole : List ℕ) (rest : Option (List ℕ)) (answer : Result (List ℕ) StreamFault)
        → TakesWhole whole (Some text) rest → Expands whole answer → Expands text answer }
    ensures refused { (fault : TextFault) (old new : Option (List ℕ)) → TakesAt (Text fault) old new
        → (text : List ℕ) × TakesWhole text old new }
    ensures unwritten { (old new : Option (List ℕ)) → TakesAt Write old new
        → (text : List ℕ) × TakesWhole text old new }
    ensures whole { (text : List ℕ) (old new : Option (List ℕ)) → TakesWhole text old new
        → Consumes old new text × (length text ≤ MAX_RICH_TEXT + 1)
        × (length text ≤ MAX_RICH_TEXT → IsAtEnd new) }
    ensures unread { (old new : Option (List ℕ)) → TakesAt Read old new
        → (text : List ℕ) × Consumes old new text × (length text ≤ MAX_RICH_TEXT + 1) }
    ensures memory { (old new : Option (List ℕ)) → TakesAt Memory old new
        → (text : List ℕ) × Consumes old new text × (length text ≤ MAX_RICH_TEXT + 1) }
{}

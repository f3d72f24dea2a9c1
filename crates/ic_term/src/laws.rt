//! Laws of the definitions that the contracts of this crate cite.

ghost use Rattle.std.specs.Prelude.{◌≡◌, ℕ, ◌+◌, ◌<◌, ◌≤◌, ◌==◌, ◌^◌, ◌↔◌, ◌⊎◌, List, [], ◌∷◌, ◌++◌, length, None, Some, Ok, Err, IsTrue};
ghost use Rattle.std.specs.List.{list_any, AllByRecursion};
ghost use Rattle.ic_term.specs.Tree.{Tree, Pair, tree_eq, pair_eq};
ghost use Rattle.ic_term.specs.declared.limits.TheConstants.{MAX_NODES, MAX_INTERFACE, MAX_NEXT, MAX_WIDE_NODES, MAX_SYMBOLS, MAX_WIDE_SYMBOLS, MAX_SYMBOL_TEXT, MAX_ARITY};
ghost use Rattle.ic_term.specs.Configuration.{configuration_eq, Configuration, IsConfiguration, IsWide, IsFirstThird, configuration_nodes, occurrences, one_above, restored, third_occurrence, wide_restored};
ghost use Rattle.ic_term.specs.declared.config.ConfigFault.TheVariants.{Limit};
ghost use Rattle.ic_term.specs.Symbol.{Symbol, AreSymbols, is_symbol_text, numbered, with_symbol, symbols_eq};

/// The limits of configurations and of symbols.
pub fn limits_are()
    ensures nodes { MAX_NODES ≡ 8192 }
    ensures interface { MAX_INTERFACE ≡ 64 }
    ensures next { MAX_NEXT ≡ 2 ^ 62 }
    ensures wide { MAX_WIDE_NODES ≡ 2 ^ 31 }
    ensures symbols { MAX_SYMBOLS ≡ 64 }
    ensures wide_symbols { MAX_WIDE_SYMBOLS ≡ 2 ^ 16 }
    ensures text { MAX_SYMBOL_TEXT ≡ 32 }
    ensures arity { MAX_ARITY ≡ 15 }
{}

/// No name of a list is the first third occurrence exactly where each name occurs there at most twice, and the
/// name that is one occurs there for the third time, after names that occur there at most twice.
pub fn third_occurrence_is_the_first()
    ensures none { (ns : List ℕ) → (third_occurrence ns ≡ None) ↔ ((n : ℕ) → occurrences n ns ≤ 2) }
    ensures some { (ns : List ℕ) (n : ℕ) → third_occurrence ns ≡ Some n
        → (before : List ℕ) × ((after : List ℕ) × IsFirstThird n ns before after) }
{}

/// What `Config::restore` takes are exactly the configurations.
pub fn restore_takes_configurations()
    ensures { (c : Configuration) → (restored c ≡ Ok c) ↔ IsConfiguration c }
{}

/// A wide configuration is what is restored with the wide limit. Each configuration is one, and the wide ones that
/// keep the narrow limits are configurations, restored alike.
pub fn wide_ones_are_configurations_but_for_their_limits()
    ensures taken { (c : Configuration) → (wide_restored c ≡ Ok c) ↔ IsWide c }
    ensures each { (c : Configuration) → IsConfiguration c → IsWide c }
    ensures narrow { (c : Configuration) → IsWide c → configuration_nodes c ≤ MAX_NODES
        → length c.interface ≤ MAX_INTERFACE → IsConfiguration c }
    ensures alike { (c : Configuration) → configuration_nodes c ≤ MAX_NODES
        → length c.interface ≤ MAX_INTERFACE → wide_restored c ≡ restored c }
    ensures refused { (c : Configuration)
        → (MAX_NODES < configuration_nodes c) ⊎ (MAX_INTERFACE < length c.interface)
        → restored c ≡ Err Limit }
{}

/// The `next` of a new configuration: it is above every name, and it is 0 without names, else one above some name.
pub fn next_is_one_above_the_greatest_name()
    ensures above { (ns : List ℕ) → AllByRecursion (λ n. n < one_above ns) ns }
    ensures none { one_above [] ≡ 0 }
    ensures some { (n : ℕ) (ns : List ℕ)
        → IsTrue (list_any (λ m. m + 1 == one_above (n ∷ ns)) (n ∷ ns)) }
{}

/// What `Symbols::number` makes is what lists of symbols keep: a text that gets a number keeps it, and each such list
/// is made by numbering its texts one after the other.
pub fn numbering_makes_exactly_such_symbols()
    ensures kept { (ss : List Symbol) (text : List ℕ) (arity n : ℕ) → AreSymbols ss
        → IsTrue (is_symbol_text text) → numbered ss text arity ≡ Ok n
        → AreSymbols (with_symbol ss text arity) }
    ensures earlier { (ss : List Symbol) (s : Symbol) → AreSymbols (ss ++ s ∷ []) → AreSymbols ss }
    ensures text { (ss : List Symbol) (s : Symbol) → AreSymbols (ss ++ s ∷ [])
        → IsTrue (is_symbol_text s.text) }
    ensures last { (ss : List Symbol) (s : Symbol) → AreSymbols (ss ++ s ∷ [])
        → numbered ss s.text s.arity ≡ Ok (length ss) }
    ensures made { (ss : List Symbol) (s : Symbol) → AreSymbols (ss ++ s ∷ [])
        → with_symbol ss s.text s.arity ≡ ss ++ s ∷ [] }
{}

/// The tests of equality tell exactly whether two terms, two equations, two configurations, or two
/// lists of symbols are the same.
pub fn equality_is_exact()
    ensures terms { (t u : Tree) → IsTrue (tree_eq t u) ↔ (t ≡ u) }
    ensures equations { (p q : Pair) → IsTrue (pair_eq p q) ↔ (p ≡ q) }
    ensures symbols { (ss ts : List Symbol) → IsTrue (symbols_eq ss ts) ↔ (ss ≡ ts) }
    ensures configurations { (c d : Configuration) → IsTrue (configuration_eq c d) ↔ (c ≡ d) }
{}

//! Laws of the definitions that the contracts of this crate cite.

ghost use Rattle.std.specs.Prelude.{◌≡◌, ◌↔◌, ℕ, ◌+◌, ◌*◌, IsTrue, List, ◌∷◌, ◌++◌, length, drop, sum_by};
ghost use Rattle.std.specs.List.{flat_map, list_all};
ghost use Rattle.ic_term.specs.Tree.{Tree, nodes};
ghost use Rattle.ic_term.specs.Configuration.{Configuration, configuration_names, configuration_nodes};
ghost use Rattle.ic_term.specs.Symbol.{Symbol, is_over};
ghost use Rattle.ic_flat.specs.declared.word.Word.{Word};
ghost use Rattle.ic_flat.specs.Words.{forest, IsWhole, tree_words, word_eq, word_names, is_word_over};
ghost use Rattle.ic_flat.specs.Flat.{configuration_of, configuration_words};

/// The words of terms write exactly these terms, and whole words are those of the terms that they write. So whole words
/// and lists of terms stand for one another.
pub fn words_are_their_terms()
    ensures read { (ts : List Tree) → forest (flat_map tree_words ts) ≡ ts }
    ensures whole { (ts : List Tree) → IsWhole (flat_map tree_words ts) }
    ensures written { (ws : List Word) → IsWhole ws → flat_map tree_words (forest ws) ≡ ws }
{}

/// Words after whole words write their terms after those, each word is a node, and what follows any place of whole
/// words is whole.
pub fn words_write_in_order()
    ensures term { (t : Tree) (ws : List Word) → forest (tree_words t ++ ws) ≡ t ∷ forest ws }
    ensures append { (vs ws : List Word) → IsWhole vs
        → forest (vs ++ ws) ≡ forest vs ++ forest ws }
    ensures nodes { (ws : List Word) → sum_by nodes (forest ws) ≡ length ws }
    ensures suffix { (n : ℕ) (ws : List Word) → IsWhole ws → IsWhole (drop n ws) }
{}

/// Each configuration has exactly one list of whole words that writes it.
pub fn each_configuration_has_its_words()
    ensures whole { (c : Configuration) → IsWhole (configuration_words c) }
    ensures written { (c : Configuration)
        → configuration_of (configuration_words c) (length c.interface) c.next ≡ c }
    ensures only { (c : Configuration) (ws : List Word) → IsWhole ws
        → length (forest ws) ≡ length c.interface + 2 * length c.equations
        → configuration_of ws (length c.interface) c.next ≡ c → ws ≡ configuration_words c }
{}

/// The words of a configuration have its names, in the order of the text, and are as many as its nodes. The
/// configuration is over symbols where each of its words is.
pub fn words_say_what_their_configuration_says()
    ensures names { (c : Configuration)
        → flat_map word_names (configuration_words c) ≡ configuration_names c }
    ensures nodes { (c : Configuration)
        → length (configuration_words c) ≡ configuration_nodes c }
    ensures over { (ss : List Symbol) (c : Configuration)
        → list_all (is_word_over ss) (configuration_words c) ≡ is_over ss c }
{}

/// The test of equality tells exactly whether two words are the same.
pub fn equality_is_exact()
    ensures { (v w : Word) → IsTrue (word_eq v w) ↔ (v ≡ w) }
{}

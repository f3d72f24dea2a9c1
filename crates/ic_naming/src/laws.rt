//! What is proved of the definitions alone: each law is the contract of a function that does nothing.

ghost use Rattle.std.specs.Prelude.{◌≡◌, ◌≤◌, ℕ, ◌+◌, ◌*◌, List, length, map};
ghost use Rattle.std.specs.List.{flat_map, list_all, AllByRecursion};
ghost use Rattle.ic_term.specs.Configuration.{Configuration, IsConfiguration, occurrences};
ghost use Rattle.ic_term.specs.Symbol.{Symbol, is_over};
ghost use Rattle.ic_rules.specs.Renaming.{renamed};
ghost use Rattle.ic_flat.specs.declared.word.Word.{Word};
ghost use Rattle.ic_flat.specs.Words.{forest, is_word_over, IsWhole, word_names};
ghost use Rattle.ic_flat.specs.Flat.{configuration_of, configuration_words};
ghost use Rattle.ic_text.specs.declared.limits.TheConstants.{MAX_NAME};
ghost use Rattle.ic_naming.specs.Naming.{IsOneToOne, RenamesUntold, renamed_pair, renamed_word, renumbered, renumbered_words, told_name};

/// Different names are told as different ones, and a free name as itself where it may stand in a text. All told names
/// may stand there where the names are at most half as many as those of texts.
pub fn names_are_told_apart()
    ensures apart { (ns : List ℕ) → IsOneToOne (told_name ns) ns }
    ensures free { (ns : List ℕ) (n : ℕ) → occurrences n ns ≡ 1 → n ≤ MAX_NAME →
        told_name ns n ≡ n }
    ensures low { (ns : List ℕ) → 2 * length ns ≤ MAX_NAME + 1 →
        AllByRecursion (λ n. n ≤ MAX_NAME) (map (told_name ns) ns) }
{}

/// Words are renumbered alike whatever names they had before, except for free ones that may stand in a text.
pub fn what_is_renumbered_forgets_names()
    ensures { (f : ℕ → ℕ) (ws : List Word) → RenamesUntold f (flat_map word_names ws) →
        renumbered_words (map (renamed_word f) ws) ≡ renumbered_words ws }
{}

/// Words with their names turned into others write the terms with these names, over the same symbols, and are whole
/// where they were.
pub fn renamed_words_write_renamed_terms()
    ensures whole { (f : ℕ → ℕ) (ws : List Word) → IsWhole ws →
        IsWhole (map (renamed_word f) ws) }
    ensures terms { (f : ℕ → ℕ) (ws : List Word) →
        forest (map (renamed_word f) ws) ≡ map (renamed f) (forest ws) }
    ensures names { (f : ℕ → ℕ) (ws : List Word) →
        flat_map word_names (map (renamed_word f) ws) ≡ map f (flat_map word_names ws) }
    ensures over { (f : ℕ → ℕ) (ss : List Symbol) (ws : List Word) →
        list_all (is_word_over ss) (map (renamed_word f) ws) ≡ list_all (is_word_over ss) ws }
    ensures interface { (f : ℕ → ℕ) (ws : List Word) (terms next : ℕ) →
        (configuration_of (map (renamed_word f) ws) terms next).interface
        ≡ map (renamed f) (configuration_of ws terms next).interface }
    ensures equations { (f : ℕ → ℕ) (ws : List Word) (terms next : ℕ) →
        (configuration_of (map (renamed_word f) ws) terms next).equations
        ≡ map (renamed_pair f) (configuration_of ws terms next).equations }
{}

/// Renumbered words write the renumbered configuration, and have its `next` where they are given it. It is over the
/// same symbols, and within the limits of a configuration where the other is.
pub fn renumbered_words_write_the_renumbered_configuration()
    ensures written { (ws : List Word) (terms equations next : ℕ) →
        length (forest ws) ≡ terms + 2 * equations →
        configuration_of (renumbered_words ws) terms (MAX_NAME + 1)
        ≡ renumbered (configuration_of ws terms next) }
    ensures words { (c : Configuration) →
        configuration_words (renumbered c) ≡ renumbered_words (configuration_words c) }
    ensures over { (ss : List Symbol) (c : Configuration) →
        is_over ss (renumbered c) ≡ is_over ss c }
    ensures sound { (c : Configuration) → IsConfiguration c → IsConfiguration (renumbered c) }
{}

//! Laws of the words after the program's name, in words of their own.

ghost use Rattle.std.specs.Prelude.{◌≡◌, ◌↔◌, ◌<◌, ◌^◌, ℕ, [], ◌∷◌};
ghost use Rattle.std.specs.Fmt.{decimal};
ghost use Rattle.clap.specs.Words.{Text};
ghost use Rattle.ic_args.specs.declared.words.WordsFault.TheVariants.{Words, Memory};
ghost use Rattle.ic_args.specs.Words.{IsDecimal, words_fault_number};

/// A number's text is the number in decimal digits, before which a plus may stand, and no other
/// number's; the empty text is none's.
pub fn numbers_are_decimals()
    ensures digits { (n m : ℕ) → n < 2 ^ 64 → IsDecimal (decimal n) m ↔ (m ≡ n) }
    ensures plus { (n m : ℕ) → n < 2 ^ 64 → IsDecimal (43 ∷ decimal n) m ↔ (m ≡ n) }
    ensures minus { (text : Text) (m : ℕ) → ¬ IsDecimal (45 ∷ text) m }
    ensures none { (m : ℕ) → ¬ IsDecimal [] m }
    ensures one { (text : Text) (n m : ℕ) → IsDecimal text n → IsDecimal text m → n ≡ m }
{}

/// The lasting numbers of the faults.
pub fn numbers_are_lasting(text: &String)
    ensures words { words_fault_number (Words text.now) ≡ 1 }
    ensures memory { words_fault_number Memory ≡ 2 }
{}

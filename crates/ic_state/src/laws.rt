//! Laws of the definitions that the contracts of this crate cite.

ghost use Rattle.std.specs.Prelude.{◌≡◌, ◌∷◌, ◌++◌, ℕ, List, [], None, Some, true, false, flat_map, length};
ghost use Rattle.ic_flat.specs.declared.word.Word.{Word};
ghost use Rattle.ic_flat.specs.declared.word.Word.TheVariants.{Name, Agent};
ghost use Rattle.ic_state.specs.Numbers.{eight_bytes};
ghost use Rattle.ic_state.specs.State.{Kept, IsHeadOf, IsKept, front_length, head_numbers, rounds_numbers, state_bytes};
ghost use Rattle.ic_state.specs.declared.state.StateHead.{StateHead};
ghost use Rattle.ic_state.specs.Worked.{begun_by_hand, by_rounds_by_hand, ended_by_hand, joins_begun, joins_by_rounds, joins_ended, joins_narrow, meets_midway, midway_by_hand, narrow_by_hand};
ghost use Rattle.ic_state.specs.Words.{word_bytes, word_number, IsKeptWord};

use crate::words::word_of;

/// Two states with the same bytes are the same state.
pub fn each_state_has_its_own_bytes()
    ensures { (k other : Kept) → IsKept k → IsKept other → state_bytes k ≡ state_bytes other
        → k ≡ other }
{}

/// The fields and their order, by five states whose bytes are written by hand: one as a reduction begins, in the wide form and
/// in the narrow one, one as it has ended, the same by rounds, and one of another text, with its rules alone, whose numbers are
/// apart.
pub fn a_state_by_hand()
    ensures begun { state_bytes joins_begun ≡ begun_by_hand }
    ensures ended { state_bytes joins_ended ≡ ended_by_hand }
    ensures midway { state_bytes meets_midway ≡ midway_by_hand }
    ensures by_rounds { state_bytes joins_by_rounds ≡ by_rounds_by_hand }
    ensures narrow { state_bytes joins_narrow ≡ narrow_by_hand }
    ensures kept { IsKept joins_begun × IsKept joins_ended × IsKept meets_midway
        × IsKept joins_by_rounds × IsKept joins_narrow }
    ensures head { (head : StateHead) → IsHeadOf head joins_ended → (head.interactions ≡ 1)
        × (head.ended ≡ true) × (head.rules ≡ 1) × (head.words ≡ 1) × (head.millis ≡ 1027)
        × (head.narrow ≡ false) }
    ensures midway_head { (head : StateHead) → IsHeadOf head meets_midway
        → (head.interactions ≡ 5) × (head.rules ≡ 3) × (head.words ≡ 4) × (head.millis ≡ 40) }
    ensures rounds_head { (head : StateHead) → IsHeadOf head joins_by_rounds
        → head.rounds ≡ Some 1 }
    ensures narrow_head { (head : StateHead) → IsHeadOf head joins_narrow
        → head.narrow ≡ true }
    ensures lengths { (length begun_by_hand ≡ 130) × (length ended_by_hand ≡ 98)
        × (length midway_by_hand ≡ 136) × (length by_rounds_by_hand ≡ 114)
        × (length narrow_by_hand ≡ 110) }
{}

/// Words by hand, whose bytes are all different: names, and an agent of five arguments whose symbol has the number 0x010203.
pub fn words_by_hand()
    ensures narrow { word_bytes true (Name 0x01020304) ≡ 1 ∷ 2 ∷ 3 ∷ 4 ∷ [] }
    ensures wide { word_bytes false (Name 0x0102030405060708)
        ≡ 1 ∷ 2 ∷ 3 ∷ 4 ∷ 5 ∷ 6 ∷ 7 ∷ 8 ∷ [] }
    ensures narrow_agent { word_bytes true (Agent 0x010203 5) ≡ 0x85 ∷ 1 ∷ 2 ∷ 3 ∷ [] }
    ensures wide_agent { word_bytes false (Agent 0x010203 5)
        ≡ 0x80 ∷ 0 ∷ 0 ∷ 5 ∷ 0 ∷ 1 ∷ 2 ∷ 3 ∷ [] }
{}

/// Each number that four bytes have is that of a word of the narrow form, and each that eight bytes have is one of the wide form.
pub fn each_number_has_its_word(short: u32, long: u64)
    ensures narrow { (word : Word) × IsKeptWord true word × (word_number true word ≡ short) }
    ensures wide { (word : Word) × IsKeptWord false word × (word_number false word ≡ long) }
{
    let (_narrow, _wide) = (word_of(true, short as u64), word_of(false, long));
}

/// The numbers before the lists, with what is said of rounds, stand in as many bytes as `front_length` says.
pub fn the_front_has_its_length()
    ensures front { (k : Kept)
        → length (flat_map eight_bytes (rounds_numbers k.rounds ++ head_numbers k))
        ≡ front_length k.rounds }
    ensures lengths { (front_length None ≡ 56) × ((made : ℕ) → front_length (Some made) ≡ 72) }
{}

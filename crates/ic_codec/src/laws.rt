//! Laws of the definitions that the contracts of this crate cite.

ghost use Rattle.std.specs.Prelude.{◌≡◌, ◌≤◌, ◌<◌, ◌++◌, ℕ, List, [], ◌∷◌, length, map};
ghost use Rattle.std.specs.List.{AllByRecursion, Contains};
ghost use Rattle.ic_jobs.specs.Job.{JobParts};
ghost use Rattle.ic_jobs.specs.Table.{IsTable};
ghost use Rattle.ic_jobs.specs.declared.state.State.{State};
ghost use Rattle.ic_codec.specs.Numbers.{two_bytes, eight_bytes};
ghost use Rattle.ic_jobs.specs.State.{state_number};
ghost use Rattle.ic_codec.specs.Form.{all_states};
ghost use Rattle.ic_codec.specs.Tables.{table_bytes, old_table_bytes, IsFormOf};
ghost use Rattle.ic_codec.specs.Worked.{one_plus_one, one_plus_one_done, one_plus_one_spent, submitted_by_hand, done_by_hand, spent_by_hand, old_submitted_by_hand, old_done_by_hand};
ghost use Rattle.ic_codec.specs.CodecFault.{codec_fault_number, all_codec_faults};
ghost use Rattle.ic_codec.specs.declared.fault.CodecFault.{CodecFault};
ghost use Rattle.ic_codec.specs.declared.form.TheConstants.{MAX_BYTES};

/// Two tables with the same bytes are the same table, also where one has them in the old form, and no
/// table's bytes are the beginning of another's: the form says its own length.
pub fn each_table_has_its_own_bytes()
    ensures same { (t u : List JobParts) → IsTable t → IsTable u
        → table_bytes t ≡ table_bytes u → t ≡ u }
    ensures front { (t u : List JobParts) (rest : List ℕ) → IsTable t → IsTable u
        → table_bytes t ++ rest ≡ table_bytes u → (t ≡ u) × (rest ≡ []) }
    ensures either { (t u : List JobParts) (bytes : List ℕ) → IsTable t → IsTable u
        → IsFormOf t bytes → IsFormOf u bytes → t ≡ u }
{}

/// No bytes are of both forms, whatever the tables.
pub fn no_bytes_are_of_both_forms()
    ensures { (t u : List JobParts) → ¬ (table_bytes t ≡ old_table_bytes u) }
{}

/// The length of the longest byte form.
pub fn limits_are()
    ensures { MAX_BYTES ≡ 3036677 }
{}

/// A table's byte form has at most 3,036,677 bytes, and so has its old form.
pub fn forms_are_short()
    ensures new { (t : List JobParts) → IsTable t → length (table_bytes t) ≤ MAX_BYTES }
    ensures either { (t : List JobParts) (bytes : List ℕ) → IsTable t → IsFormOf t bytes
        → length bytes ≤ MAX_BYTES }
{}

/// Each number of a table's byte form, or of its old form, is a byte.
pub fn forms_are_bytes()
    ensures new { (t : List JobParts) → IsTable t
        → AllByRecursion (λ b. b < 256) (table_bytes t) }
    ensures either { (t : List JobParts) (bytes : List ℕ) → IsTable t → IsFormOf t bytes
        → AllByRecursion (λ b. b < 256) bytes }
{}

/// The empty table is the head of the form, and no jobs.
pub fn the_empty_table_is_five_bytes()
    ensures new { table_bytes [] ≡ 73 ∷ 67 ∷ 84 ∷ 50 ∷ 0 ∷ [] }
    ensures old { old_table_bytes [] ≡ 73 ∷ 67 ∷ 84 ∷ 49 ∷ 0 ∷ [] }
{}

/// Numbers have their highest byte first, and each state has its byte.
pub fn numbers_and_states_are()
    ensures two { two_bytes 0x0102 ≡ 1 ∷ 2 ∷ [] }
    ensures eight { eight_bytes 0x0102030405060708
        ≡ 1 ∷ 2 ∷ 3 ∷ 4 ∷ 5 ∷ 6 ∷ 7 ∷ 8 ∷ [] }
    ensures all_states { (state : State) → Contains all_states state }
    ensures states { map state_number all_states ≡ 0 ∷ 1 ∷ 2 ∷ 3 ∷ 4 ∷ [] }
{}

/// The lasting numbers of the faults.
pub fn numbers_are_lasting()
    ensures all { (fault : CodecFault) → Contains all_codec_faults fault }
    ensures numbers { map codec_fault_number all_codec_faults ≡ 1 ∷ 2 ∷ [] }
{}

/// The fields and their order, by a table of one job whose bytes are written by hand: as it is
/// submitted, after its two rounds, and after the one round of its budget.
pub fn a_table_by_hand()
    ensures submitted { table_bytes (one_plus_one ∷ []) ≡ submitted_by_hand }
    ensures done { table_bytes (one_plus_one_done ∷ []) ≡ done_by_hand }
    ensures spent { table_bytes (one_plus_one_spent ∷ []) ≡ spent_by_hand }
    ensures lengths { (length submitted_by_hand ≡ 134) × (length done_by_hand ≡ 114)
        × (length spent_by_hand ≡ 134) }
{}

/// The same of the old form, for the two tables without budgets.
pub fn an_old_table_by_hand()
    ensures submitted { old_table_bytes (one_plus_one ∷ []) ≡ old_submitted_by_hand }
    ensures done { old_table_bytes (one_plus_one_done ∷ []) ≡ old_done_by_hand }
    ensures lengths { (length old_submitted_by_hand ≡ 126) × (length old_done_by_hand ≡ 106) }
{}

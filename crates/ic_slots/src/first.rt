//! The bytes that a stopped `create` leaves.

ghost use Rattle.std.specs.Prelude.{◌≡◌, ◌↔◌, ◌⊎◌, IsTrue, EachIndex, slice_index};
ghost use Rattle.ic_slots.specs.Unused.{IsFirst, IsPartOf};

/// What is put in the first slot of an empty disk, after a gate that is closed as yet.
const FIRST: [u8; 18] = [
    0, 0, 0, 0, 0, 0, 0, 0, 1, 0, 0, 0, 5, b'I', b'C', b'T', b'2', 0,
];

/// The same, as it was put before jobs had budgets.
const OLD_FIRST: [u8; 18] = [
    0, 0, 0, 0, 0, 0, 0, 0, 1, 0, 0, 0, 5, b'I', b'C', b'T', b'1', 0,
];

/// Whether a file has nothing but bytes of an empty disk in their places, of one form, and zeros.
pub(crate) fn is_first(file: &[u8]) -> bool
    ensures { IsTrue result ↔ IsFirst file.now }
{
    is_part_of(&FIRST, file) || is_part_of(&OLD_FIRST, file)
}

/// Whether a file has nothing but these bytes in their places, and zeros.
fn is_part_of(bytes: &[u8], file: &[u8]) -> bool
    ensures { IsTrue result ↔ IsPartOf bytes.now file.now }
{
    for (i, byte) in file.iter().enumerate() {
        let there = if i < bytes.len() { bytes[i] } else { 0 };
        if *byte != 0 && *byte != there {
            return false;
        }
    }
    true
}

//! A law of what lines show of paths.

ghost use Rattle.std.specs.Prelude.{◌≡◌, ◌≤◌, ◌<◌, ℕ, true, List, length};
ghost use Rattle.std.specs.List.{list_all};
ghost use Rattle.ic_causes.specs.Causes.{is_printable, shown_path};

/// What a line shows of a path is printable ASCII, a byte for each byte, and each byte that is
/// printable stands as it is: no byte of a path moves a terminal.
pub fn paths_are_shown_in_printable_bytes()
    ensures printable { (path : List ℕ) → list_all is_printable (shown_path path) ≡ true }
    ensures itself { (path : List ℕ) → list_all is_printable path ≡ true
        → shown_path path ≡ path }
    ensures length { (path : List ℕ) → length (shown_path path) ≡ length path }
    ensures bounds { (byte : ℕ) → is_printable byte ≡ true → (32 ≤ byte) × (byte < 127) }
{}

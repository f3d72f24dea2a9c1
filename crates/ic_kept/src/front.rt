//! What a file says by its first bytes.

ghost use Rattle.std.specs.Prelude.{◌≡◌, ◌↔◌, ◌<◌, ◌≤◌, true, length, IfSome, IsNone};
ghost use Rattle.std.specs.Int.{w64, from_be_bytes};
ghost use Rattle.ic_kept.specs.Sheet.{gate, number, size};
ghost use Rattle.ic_kept.specs.declared.head.TheConstants.{HEAD};

use crate::HEAD;

/// What the first bytes of a file say in which a state is kept.
#[derive(Clone, Copy)]
pub struct Front {
    /// Whether the gate is open.
    pub opened: bool,
    /// The number of the state.
    pub number: u64,
    /// How many bytes the state has.
    pub size: u64,
}

/// What a file says that begins with these bytes, if there are enough.
pub fn front_of(bytes: &[u8]) -> Option<Front>
    ensures cut { IsNone result → length bytes.now < HEAD }
    ensures whole { IfSome result (λ front. HEAD ≤ length bytes.now) }
    ensures gate { IfSome result (λ front. (front.opened ≡ true) ↔ (gate bytes.now ≡ 1)) }
    ensures number { IfSome result (λ front. number bytes.now ≡ front.number) }
    ensures size { IfSome result (λ front. size bytes.now ≡ front.size) }
{
    if bytes.len() < HEAD as usize {
        return None;
    }
    let (_, numbers) = bytes.split_at(1);
    let (_, sizes) = bytes.split_at(9);
    let (front, _) = numbers.split_at(8);
    let (back, _) = sizes.split_at(8);
    Some(Front {
        opened: bytes[0] == 1,
        number: number_in(front),
        size: number_in(back),
    })
}

/// The number in eight bytes, the highest first.
fn number_in(bytes: &[u8]) -> u64
    requires { length bytes.now ≡ 8 }
    ensures { result ≡ from_be_bytes w64 bytes.now }
{
    u64::from_be_bytes([
        bytes[0], bytes[1], bytes[2], bytes[3], bytes[4], bytes[5], bytes[6], bytes[7],
    ])
}

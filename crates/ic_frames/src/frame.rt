//! A frame: the bytes of a slot, a head and then a body.

ghost use Rattle.std.specs.Prelude.{◌≡◌, ◌+◌, ◌≤◌, ◌<◌, ◌^◌, length, drop};
ghost use Rattle.ic_frames.specs.inner.Standing.{IsFrame};

/// How many bytes the head of a frame has: its gate, its number and the length of its body.
pub const HEAD: usize = 13;

/// The length of the longest body, in bytes: that of the longest table.
pub const MAX_BODY: usize = 3_036_677;

// Writes the head of a frame: a closed gate, this number and the length of the body, which follows.
pub(crate) fn fill_head(frame: &mut [u8], number: u64)
    requires head { 13 ≤ length frame.old }
    requires short { length frame.old ≤ 13 + MAX_BODY }
    ensures { IsFrame number (drop 13 frame.old) frame.new }
{
    let size = (frame.len() - HEAD) as u32;
    frame[0] = 0;
    frame[1..9].copy_from_slice(&number.to_be_bytes());
    frame[9..13].copy_from_slice(&size.to_be_bytes());
}

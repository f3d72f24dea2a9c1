//! Bytes laid over others in place.

ghost use Rattle.std.specs.Prelude.{◌≡◌, ◌+◌, ◌≤◌, length, replicate, OnOk, OnErr};
ghost use Rattle.ic_disk.specs.Content.{filled_to, laid};

use std::alloc::AllocError;

// Lays these bytes over the content, with zeros in between where it was shorter. A range that no
// memory could hold is refused as any other growth.
pub(crate) fn lay(content: &mut Vec<u8>, at: usize, bytes: &[u8]) -> Result<(), AllocError>
    ensures ok { OnOk result (content.new.items ≡ laid at bytes.now content.old.items) }
    ensures err { OnErr result (content.new.items ≡ content.old.items) }
{
    let end = at.checked_add(bytes.len()).ok_or(AllocError)?;
    fill_to(content, end)?;
    overwrite(content, at, bytes);
    Ok(())
}

fn fill_to(content: &mut Vec<u8>, end: usize) -> Result<(), AllocError>
    ensures ok { OnOk result (content.new.items ≡ filled_to end content.old.items) }
    ensures err { OnErr result (content.new.items ≡ content.old.items) }
{
    if content.len() < end {
        content.resize(end, 0)?;
    }
    Ok(())
}

fn overwrite(content: &mut [u8], at: usize, bytes: &[u8])
    requires { at + length bytes.now ≤ length content.old }
    ensures { content.new ≡ laid at bytes.now content.old }
{
    content[at..at + bytes.len()].copy_from_slice(bytes);
}

// Fills n bytes with the same one.
pub(crate) fn fill_range(content: &mut [u8], at: usize, n: usize, byte: u8)
    requires { at + n ≤ length content.old }
    ensures { content.new ≡ laid at (replicate n byte) content.old }
{
    content[at..at + n].fill(byte);
}

//! A text without its comments.

ghost use Rattle.std.specs.Prelude.{◌≡◌, IfOk};
ghost use Rattle.ic_expand.specs.Comments.{is_commented, uncommented};

use std::alloc::{AllocError, Global};

/// Whether a byte is of a comment, by whether the byte before it is.
fn is_commented(inside: bool, byte: u8) -> bool
    ensures { result ≡ is_commented inside byte }
{
    if inside { byte != b'\n' } else { byte == b'#' }
}

/// A text without its comments.
pub(crate) fn without_comments(alloc: Global, text: &[u8]) -> Result<Vec<u8>, AllocError>
    ensures { IfOk result (λ body. body.items ≡ uncommented text.now) }
{
    let mut body = Vec::with_capacity(alloc, text.len())?;
    let mut inside = false;
    for byte in text {
        inside = is_commented(inside, *byte);
        if !inside {
            body.push(*byte)?;
        }
    }
    Ok(body)
}

//! The limit of a text.

use ic_text::MAX_WIDE_TEXT;

/// Bytes of a text, with its comments.
pub const MAX_RICH_TEXT: usize = MAX_WIDE_TEXT;

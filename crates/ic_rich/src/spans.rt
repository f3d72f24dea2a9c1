//! Parts of a list of tokens.

/// The tokens from one place up to another one.
#[derive(Clone, Copy)]
pub(crate) struct Span {
    pub(crate) from: usize,
    pub(crate) to: usize,
}

impl Span {
    /// The place of its token, where it has just one.
    pub(crate) fn only(self) -> Option<usize> {
        if self.to.saturating_sub(self.from) == 1 {
            Some(self.from)
        } else {
            None
        }
    }
}

/// Two terms with `~` or `=` between them.
#[derive(Clone, Copy)]
pub(crate) struct Equation {
    pub(crate) left: Span,
    pub(crate) right: Span,
}

/// A side of a rule by an arrow: the place of its symbol, and its arguments.
#[derive(Drop)]
pub(crate) struct Side {
    pub(crate) symbol: usize,
    pub(crate) args: Vec<Span>,
}

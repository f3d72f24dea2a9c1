//! Ports: where wires end.

/// A port, at which a wire ends.
#[derive(Clone, Copy)]
pub enum Port {
    /// A place of the interface, counted from 1.
    Interface(usize),
    /// The principal port of the agent with this number.
    Principal(usize),
    /// An auxiliary port: the number of its agent, and its own, counted from 1.
    Auxiliary(usize, usize),
    /// The left side of an equation of two names.
    Left(usize),
    /// The right side of an equation of two names.
    Right(usize),
    /// The free end of a name that stands once.
    Free(u64),
}

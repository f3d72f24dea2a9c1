//! What a configuration joins: ports and names, two at a time.

use crate::port::Port;

/// One of two things that are joined.
#[derive(Clone, Copy)]
pub(crate) enum End {
    At(Port),
    Named(u64),
}

/// Two things that are joined, and whether they are the agents of an active pair.
#[derive(Clone, Copy)]
pub(crate) struct Link {
    pub from: End,
    pub to: End,
    pub active: bool,
}

/// A name that stands at a port.
#[derive(Clone, Copy)]
pub(crate) struct Standing {
    pub name: u64,
    pub port: Port,
}

//! The limits of a text.

ghost use Rattle.std.specs.Prelude.{◌≡◌};

use ic_rules::{MAX_RULES, MAX_WIDE_RULES};
use ic_term::{MAX_INTERFACE, MAX_NODES, MAX_SYMBOLS, MAX_WIDE_NODES, MAX_WIDE_SYMBOLS};

/// Bytes of a text that is served.
pub const MAX_TEXT: usize = 262_144;

/// Bytes of a text that is not served.
pub const MAX_WIDE_TEXT: usize = 1 << 33;

/// The greatest number of a name that a text may hold.
pub const MAX_NAME: u64 = (1 << 32) - 1;

/// The limits with which a text is read. Those of a symbol by itself and of the numbers of names are the same in both.
#[derive(Clone, Copy, PartialEq, Eq)]
pub enum Limits {
    /// What a server takes: 262,144 bytes, 64 symbols, 256 rules whose arguments have 2,048 nodes together, 8,192 nodes, 64
    /// terms of the interface.
    Served,
    /// What fits into memory: 2^33 bytes, 65,536 symbols, 2^31 rules of 2,048 nodes each, 2^31 nodes and as many terms of the
    /// interface.
    Wide,
}

impl Limits {
    ghost use Rattle.ic_text.specs.Limits.{most_bytes, most_interface, most_nodes, most_rules, most_symbols};

    /// How many bytes a text has at most.
    pub fn text_bytes(self) -> usize
        ensures { result ≡ most_bytes self }
    {
        match self {
            Limits::Served => MAX_TEXT,
            Limits::Wide => MAX_WIDE_TEXT,
        }
    }

    /// How many names and agents a configuration has at most.
    pub fn nodes(self) -> u64
        ensures { result ≡ most_nodes self }
    {
        match self {
            Limits::Served => MAX_NODES,
            Limits::Wide => MAX_WIDE_NODES,
        }
    }

    /// How many terms an interface has at most.
    pub fn interface_terms(self) -> usize
        ensures { result ≡ most_interface self }
    {
        match self {
            Limits::Served => MAX_INTERFACE,
            Limits::Wide => MAX_WIDE_NODES as usize,
        }
    }

    /// How many symbols of different texts there are at most.
    pub fn symbols(self) -> usize
        ensures { result ≡ most_symbols self }
    {
        match self {
            Limits::Served => MAX_SYMBOLS,
            Limits::Wide => MAX_WIDE_SYMBOLS,
        }
    }

    /// How many rules there are at most.
    pub fn rules(self) -> usize
        ensures { result ≡ most_rules self }
    {
        match self {
            Limits::Served => MAX_RULES,
            Limits::Wide => MAX_WIDE_RULES,
        }
    }
}

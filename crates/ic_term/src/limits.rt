//! The limits of a configuration and of its symbols.

/// Names and agents of a configuration.
pub const MAX_NODES: u64 = 8_192;

/// Names and agents of a wide configuration, so few that 32 bits count them.
pub const MAX_WIDE_NODES: u64 = 1 << 31;

/// Terms of an interface.
pub const MAX_INTERFACE: usize = 64;

/// The number from which fresh names are taken.
pub const MAX_NEXT: u64 = 1 << 62;

/// Symbols of what is served.
pub const MAX_SYMBOLS: usize = 64;

/// Symbols of any table.
pub const MAX_WIDE_SYMBOLS: usize = 65_536;

/// Bytes of a symbol's text.
pub const MAX_SYMBOL_TEXT: usize = 32;

/// Arguments of a symbol.
pub const MAX_ARITY: usize = 15;

//! The limits of a rule set.

/// Rules of what is served.
pub const MAX_RULES: usize = 256;

/// Names and agents of the arguments of any one rule, and of all rules together of what is served.
pub const MAX_RULE_NODES: u64 = 2_048;

/// Rules of any rule set, so few that 32 bits count them.
pub const MAX_WIDE_RULES: usize = 1 << 31;

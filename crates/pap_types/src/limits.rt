//! The limit of a chain of methods, as specs/Limits has it.

/// The most methods in a chain, each of which executes the next.
pub const LONGEST_CHAIN: u32 = 64;

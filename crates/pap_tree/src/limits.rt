//! How much there may be in a flowchart. Contracts name the numbers of specs/Limits, and those of the calls that test a
//! limit tie these constants to them.

/// The most inputs.
pub const MOST_INPUTS: u32 = 256;

/// The most outputs.
pub const MOST_OUTPUTS: u32 = 256;

/// The most internal names.
pub const MOST_INTERNALS: u32 = 1024;

/// The most constants.
pub const MOST_CONSTANTS: u32 = 512;

/// The most methods, without MAIN.
pub const MOST_METHODS: u32 = 256;

/// The most statements that are written.
pub const MOST_STATEMENTS: u32 = 20_000;

/// The most IFs in one another.
pub const MOST_NESTING: u32 = 32;

/// The most tokens of an expression.
pub const MOST_TOKENS: usize = 1000;

/// The most levels that are open in an expression.
pub const MOST_LEVELS: usize = 64;

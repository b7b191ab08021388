//! The limits of kept decimals. Contracts name the numbers of specs/Limits, and those of the calls that test a limit tie
//! these constants to them.

/// The greatest magnitude of a numerator: 10^37.
pub const LIMIT: u128 = 10_000_000_000_000_000_000_000_000_000_000_000_000;

/// The power of ten that the greatest magnitude is: `LIMIT` = 10^`MOST_POWER`.
pub const MOST_POWER: u8 = 37;

/// The greatest scale.
pub const MOST_PLACES: u8 = 30;

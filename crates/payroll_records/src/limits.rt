//! The limits of pay runs and tables. Contracts name the numbers of specs/Limits, and those of the calls that test a limit
//! tie these constants to them.

/// The most pay runs of a book.
pub const MOST_RECORDS: usize = 50_000;

/// The most values of a pay run.
pub const MOST_VALUES: usize = 256;

/// The most bytes of a table.
pub const LONGEST_TABLE: usize = 33_554_432;

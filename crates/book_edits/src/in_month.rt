//! The runs of an employee in a month.
use payroll_records::Key;

/// The runs that an employee has in a month: none, one, or more.
#[derive(Clone, Copy, Debug)]
pub enum InMonth {
    /// None.
    Empty,
    /// One, with its key.
    One(Key),
    /// More than one.
    Several,
}

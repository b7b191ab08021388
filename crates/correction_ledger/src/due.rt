//! What is owed, and what is filed.

use pap_tree::Name;
use payroll_records::{Key, Month};
use scaled_decimal::Dec;

/// An amount of an output of a run: in public answers what is owed, which may be negative.
#[derive(Clone, Copy, Debug)]
pub struct Due {
    /// The run.
    pub key: Key,
    /// The output.
    pub name: Name,
    /// What is owed has the greater scale of the two amounts that it is the difference of.
    pub amount: Dec,
}

/// An amount that was filed with a month.
#[derive(Clone, Copy, Debug)]
pub struct Entry {
    /// The month with which it was filed.
    pub month: Month,
    /// The amount, and what it is of.
    pub due: Due,
}

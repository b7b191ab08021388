//! Pay runs.
ghost use Rattle.std.specs.Prelude.{◌≡◌, IfOk};
ghost use Rattle.payroll_records.specs.Tables.{key_of};

use crate::{Day, Employee, Values};
use std::alloc::AllocError;

/// What a pay run is known by: one employee has at most one run on a day. Keys are ordered by employee, then by day.
#[derive(Clone, Copy, Debug, PartialEq, Eq, PartialOrd, Ord)]
pub struct Key {
    /// Whose pay run it is.
    pub employee: Employee,
    /// The day on which the employee is paid.
    pub day: Day,
}

/// A pay run: an employee is paid on a day, from these values. Its month is that of the day.
#[derive(Debug, Drop)]
pub struct Record {
    /// Who is paid.
    pub employee: Employee,
    /// The day on which the employee is paid.
    pub day: Day,
    /// What the run is given: at most 256 values, each under a name of its own.
    pub values: Values,
}

impl Record {
    /// What the run is known by.
    pub fn key(&self) -> Key
        ensures { result ≡ key_of self.now }
    {
        Key {
            employee: self.employee,
            day: self.day,
        }
    }

    /// The same run. Where the run `before` has values under the same names, both share one list of the names, which takes no
    /// more memory than that of one.
    pub fn sharing_names(self, before: Option<&Record>) -> Result<Record, AllocError>
        ensures { IfOk result (λ run. run ≡ self) }
    {
        let Record {
            employee,
            day,
            values,
        } = self;
        let values = values.sharing_names(before.map(|record| &record.values))?;
        Ok(Record {
            employee,
            day,
            values,
        })
    }
}

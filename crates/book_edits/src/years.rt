//! All employees' years.
ghost use Rattle.std.specs.Prelude.{◌≡◌, List, []};
ghost use Rattle.std.specs.Option.{option_copied};
ghost use Rattle.plan_calendar.specs.Picking.{Entry};
ghost use Rattle.book_year.specs.Accepted.{Accepted};
ghost use Rattle.book_edits.specs.Books.{AreInOrder, in_month, run_at};
ghost use Rattle.book_edits.specs.Kept.{AreYears, YearsAreInOrder, years_of};

use crate::InMonth;
use crate::places::{only_one, place_year, year_of};
use book_year::{Year, YearKey, place_run};
use payroll_records::{Employee, Key, Month, Record};
use std::alloc::Global;

/// The runs of all employees, and what each came to.
#[derive(Drop)]
pub struct Years {
    /// In order of employee and year. Each has a run.
    pub list: Vec<Year>,
    /// How many runs they have together, at most 50,000.
    pub count: usize,
}

impl Years {
    /// No runs.
    pub fn new(alloc: Global) -> Years
        ensures none { years_of result ≡ [] }
        ensures years { (plans : List (Entry Accepted)) → AreYears plans result }
    {
        Years {
            list: Vec::new(alloc),
            count: 0,
        }
    }

    /// The run of a key.
    pub fn find(&self, key: &Key) -> Option<&Record>
        requires { AreInOrder (years_of self.now) }
        ensures { option_copied result ≡ run_at (years_of self.now) key.now }
    {
        let at = place_year(self.list.as_slice(), &year_of(key)).ok()?;
        let records = self.list[at].records.as_slice();
        let run = place_run(records, key.day).ok()?;
        Some(&records[run])
    }

    /// The runs that an employee has in a month.
    pub fn in_month(&self, employee: &Employee, month: Month) -> InMonth
        requires { AreInOrder (years_of self.now) }
        ensures { result ≡ in_month (years_of self.now) employee.now month.year month.month }
    {
        let key = YearKey {
            employee: *employee,
            year: month.year,
        };
        match place_year(self.list.as_slice(), &key) {
            Ok(at) => only_one(self.list[at].records.as_slice(), month.month),
            Err(_) => InMonth::Empty,
        }
    }
}

/// A law of the definitions: years that are kept stand in order, and so do the runs of each.
pub fn years_laws()
    ensures { YearsAreInOrder }
{}

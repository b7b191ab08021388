//! A book's runs, one after another.
ghost use Rattle.std.specs.Prelude.{◌≡◌, length, []};
ghost use Rattle.std.specs.Iterator.{YieldsFirstBy, item_count};
ghost use Rattle.recalc_engine.specs.KeptRows.{ArePaired, IsPaired, rows_kept, rows_kept_in};
ghost use Rattle.recalc_engine.specs.LentRows.{lent_row};

use book_year::{Outcome, State, Year};
use payroll_records::{Day, Key, Record};
use std::marker::Model;

/// A run of a book.
#[derive(Clone, Copy)]
pub struct MonthRow<'a> {
    /// The employee and the day of the run.
    pub key: Key,
    /// The day from which the run's plan holds, where it has a plan.
    pub plan: Option<Day>,
    /// The run's state.
    pub state: &'a State,
}

/// The runs of a book, in order of employee and day. Contracts see an iterator as the list of the rows that are left.
#[derive(Drop)]
pub struct Months<'a> {
    /// The year that is begun.
    begun: YearRows<'a>,
    /// The years after it.
    years: &'a [Year],
}

impl<'a> Model for Months<'a> {
    ghost use Rattle.std.specs.Prelude.{List, ◌++◌};
    ghost use Rattle.recalc_engine.specs.MonthRows.{KeyedRow};
    ghost use Rattle.recalc_engine.specs.KeptRows.{ArePaired, rows_kept};

    ghost Value = { List KeyedRow };

    ghost view = { λ m. m.begun ++ rows_kept m.years.now };

    ghost invariant = { λ m. ArePaired m.years.now };
}

impl<'a> Months<'a> {
    /// The runs of these years.
    pub(crate) fn of(years: &'a [Year]) -> Months<'a>
        requires { ArePaired years.now }
        ensures { result ≡ rows_kept years.now }
    {
        Months {
            begun: YearRows::none(),
            years,
        }
    }
}

impl<'a> Iterator for Months<'a> {
    type Item = MonthRow<'a>;

    ghost next_gives = { YieldsFirstBy lent_row (λ rest. rest) };

    ghost remaining = { item_count (λ rest. rest) };

    fn next(&mut self) -> Option<MonthRow<'a>> {
        if let Some(row) = self.begun.next() {
            return Some(row);
        }
        let (year, years) = self.years.split_first()?;
        self.years = years;
        self.begun = YearRows::of(year);
        self.begun.next()
    }
}

/// What is left of an employee's year.
#[derive(Drop)]
struct YearRows<'a> {
    records: &'a [Record],
    outcomes: &'a [Outcome],
}

impl<'a> Model for YearRows<'a> {
    ghost use Rattle.std.specs.Prelude.{◌≡◌, List, length};
    ghost use Rattle.recalc_engine.specs.MonthRows.{KeyedRow};
    ghost use Rattle.recalc_engine.specs.KeptRows.{kept_rows};

    ghost Value = { List KeyedRow };

    ghost view = { λ rows. kept_rows rows.records.now rows.outcomes.now };

    ghost invariant = { λ rows. length rows.records.now ≡ length rows.outcomes.now };
}

impl<'a> YearRows<'a> {
    /// No runs.
    fn none() -> YearRows<'a>
        ensures { result ≡ [] }
    {
        YearRows {
            records: &[],
            outcomes: &[],
        }
    }

    /// The runs of a year.
    fn of(year: &'a Year) -> YearRows<'a>
        requires { IsPaired year.now }
        ensures { result ≡ rows_kept_in year.now }
    {
        YearRows {
            records: year.records.as_slice(),
            outcomes: year.outcomes.as_slice(),
        }
    }
}

impl<'a> Iterator for YearRows<'a> {
    type Item = MonthRow<'a>;

    ghost next_gives = { YieldsFirstBy lent_row (λ rest. rest) };

    ghost remaining = { item_count (λ rest. rest) };

    fn next(&mut self) -> Option<MonthRow<'a>> {
        let (record, records) = self.records.split_first()?;
        let (outcome, outcomes) = self.outcomes.split_first()?;
        self.records = records;
        self.outcomes = outcomes;
        Some(MonthRow {
            key: record.key(),
            plan: outcome.plan,
            state: &outcome.state,
        })
    }
}

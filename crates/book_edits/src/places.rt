//! Where the year of an employee stands, and which runs of a year fall in a month.
ghost use Rattle.std.specs.Prelude.{◌≡◌, IfOk, IfErr, filter};
ghost use Rattle.rising_lists.specs.Keyed.{IsRising};
ghost use Rattle.rising_lists.specs.Places.{Finds, Misses};
ghost use Rattle.book_edits.specs.Books.{is_in_month, only_one, year_cmp, year_of};
ghost use Rattle.book_edits.specs.Kept.{kept_key};
ghost use Rattle.book_edits.specs.private.Views.{with_one_more};

use crate::InMonth;
use book_year::{Year, YearKey};
use payroll_records::{Key, Record};

/// The year in which a run stands.
pub fn year_of(key: &Key) -> YearKey
    ensures { result ≡ year_of key.now }
{
    YearKey {
        employee: key.employee,
        year: key.day.year,
    }
}

/// Where an employee's year stands, or would go.
pub fn place_year(years: &[Year], key: &YearKey) -> Result<usize, usize>
    requires { IsRising year_cmp kept_key years.now }
    ensures found { IfOk result (Finds year_cmp kept_key years.now key.now) }
    ensures absent { IfErr result (Misses year_cmp kept_key years.now key.now) }
{
    years.binary_search_by_key(key, |y| y.key)
}

/// What is found of a year's runs in a month of it: none, the key of the only one, or several.
pub(crate) fn only_one(records: &[Record], month: u8) -> InMonth
    ensures { result ≡ only_one (filter (λ r. is_in_month month r.day) records.now) }
{
    let mut found = InMonth::Empty;
    for run in records {
        found = with_one_more(found, run, month);
    }
    found
}

/// What is found in a month after one run more.
fn with_one_more(found: InMonth, run: &Record, month: u8) -> InMonth
    ensures { result ≡ with_one_more month found run.now }
{
    if run.day.month != month {
        return found;
    }
    match found {
        InMonth::Empty => InMonth::One(run.key()),
        _ => InMonth::Several,
    }
}
